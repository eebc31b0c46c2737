//! Tests of the keeper over a journal, on a disk in memory that is stopped: tables of calls.
//!
//! A line of a table that begins with `> ` is the input, and the lines below it are its expected result.
#![tactic(auto)]

#[cfg(test)]
mod journals;
#[cfg(test)]
mod keeping;
#[cfg(test)]
mod stores;
