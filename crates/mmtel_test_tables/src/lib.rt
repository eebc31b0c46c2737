//! The transcript of a test: a text that is written piece by piece, and tables that a test writes again with the actual results.
//!
//! A row of a table is a line that begins with `> `, and the lines below it are its expected result. A test writes the table again: each row, and the lines of its actual result.
//! So one comparison at its end, which returns the first line that differs, shows whether all results are the expected ones.
#![tactic(auto)]

mod tables;
mod transcripts;

pub use tables::{RowRunner, next_line, split_or_all, wrong_line};
pub use transcripts::Transcript;
