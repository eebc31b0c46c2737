//! The participants of a conference (RFC 4579): who they are, which number is next and whether the conference is full, how one is notified, invited, and leaves, and which
//! messages are sent in the conference's name.
#![tactic(auto)]

mod conference_config;
mod effects;
mod invites;
mod inviting;
mod leaving;
mod meters;
mod notifying;
mod numbers;
mod participants;
mod targets;
mod texts;

pub use conference_config::{ConferenceConfig, StepContext};
pub use effects::Effects;
pub use inviting::{ReferResult, invite_referred};
pub use meters::{leg_with_meter, meter_of};
pub use numbers::{CREATOR, NextNumbers, has_no_free_seat, place_of};
pub use participants::{Invite, ParticipantState, Party, PendingAck};
pub use targets::is_method;
pub use texts::{contact_and_sdp_lines, contact_value, sdp_lines};
