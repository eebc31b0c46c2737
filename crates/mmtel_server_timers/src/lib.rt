//! The server's decisions in a step: which timer comes first, to which table a message belongs, and the handing over of the CDRs that wait.
#![tactic(auto)]

mod deadlines;
mod earliest;
mod ownership;
mod pending_timers;
mod ranks;
mod rows;
mod timers;

pub use deadlines::{Deadline, first_deadline, moment_by};
pub use ownership::{Owner, is_of_peer, owner_of_branch, owner_of_key};
pub use pending_timers::{PendingTimer, ServiceTimer};
pub use rows::hand_rows;
pub use timers::Timers;
