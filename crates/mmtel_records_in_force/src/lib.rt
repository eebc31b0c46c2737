//! The records that are in force, each with its text and its sheet, and the registrations.
#![tactic(auto)]

mod records;
pub mod theorems;

pub use records::Records;
