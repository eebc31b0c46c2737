//! The server: what it outputs for each event of a run.
#![tactic(auto)]

mod driving;
mod servers;
mod theorems;

pub use driving::{DriveFault, drive, next_event};
pub use servers::Server;
pub use theorems::{connections_are_read_out, servers_offer_what_runs_give, theorems_of_runs_hold};
