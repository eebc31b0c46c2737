//! The words of the command line, read by `clap` according to a grammar of this project's own.
#![tactic(auto)]

mod commands;
mod faults;
mod values;
mod wanted_commands;

pub use commands::{command, one_command_at_most};
pub use wanted_commands::{Replay, Serve, WantedCommand};
