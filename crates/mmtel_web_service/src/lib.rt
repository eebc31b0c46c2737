//! What the server does with the bytes of a web connection, over the records in force and a keeper.
#![tactic(auto)]

mod keeper_outcomes;
mod web_requests;

pub use keeper_outcomes::KeeperOutcome;
pub use mmtel_records_in_force::Records;
pub use web_requests::{ServedRequest, serve};
