//! Conferences (RFC 4579): participants that the server connects with a mixer, by the step table of conferences; who joins, who is invited by REFER (RFC 3515), and whose leg is
//! moved out of a call (RFC 3891).
#![tactic(auto)]

mod conferences;
mod departing;
mod dispatch;
mod entering;
mod faults;
mod index_marks;
mod inviting;
mod joining;
mod leaving;
mod live;
mod notifying;
mod queries;
mod referrals;
mod requests;
mod responses;
mod signals;
mod tables;
mod texts;

pub use conferences::Conference;
pub use faults::RoomFault;
pub use mmtel_participants::{Effects, Invite, ParticipantState, Party, PendingAck};
pub use referrals::{Referral, Replaces, referral_of};
pub use signals::{Joining, RoomSignal};
pub use tables::Rooms;
pub use texts::conference_named;
