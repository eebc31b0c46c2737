//! Passing a server's outputs to a link.
#![tactic(auto)]

mod delivery;
mod theorems;

pub use delivery::deliver_each;
pub use theorems::parts_are_delivered;
