//! The report of a run of the program, and how it is written and ends the program.
#![tactic(auto)]

mod reports;

pub use reports::{Report, out_of_memory, write_report};
