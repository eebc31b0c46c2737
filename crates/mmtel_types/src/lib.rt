//! What all crates share and what needs no allocation: numbers of peers, accounts, calls, conferences and subscriptions, addresses, the sides of a call, moments, sets of privacy
//! words, the causes of refusals, and the limits of the server.
#![tactic(auto)]

mod addrs;
mod causes;
pub mod limits;
mod moments;
mod numbers;
mod privacy;
mod sides;

pub use addrs::Addr;
pub use causes::{Cause, causes_are_distinguished};
pub use moments::Moment;
pub use numbers::{Account, CallNo, Failed, Peer, RoomNo, SubNo};
pub use privacy::PrivacySet;
pub use sides::Side;
