//! Tests of service records, of the services' public functions and of their precedence, and of the environment, which stores records and receives requests for them (`web`): one
//! module for a crate or two, a table for a test.
//!
//! What the contracts claim needs no test. These are rows whose results come from the standards (RFC 4745, TS 24.604, 24.607, 24.608, 24.610, 24.611 and 24.615, RFC 4458), which
//! show that the definitions mean what is intended. Rules are written in the format of records.
//!
//! A line of a table that begins with `#` is a heading, and one that begins with `:` has the rules or the record for the rows below it. A row has the results, a `|`, and the
//! input.
//!
//! The tables of records (`records`, `views`, `printing`) have those whose sheets and faults were written from the tables of keys, texts written by hand, and one call of each
//! function that allocates, with enough memory, since a body that always returns out of memory satisfies its contract too.
#![tactic(auto)]

#[cfg(test)]
mod asserting;
#[cfg(test)]
mod barring;
mod outcomes;
#[cfg(test)]
mod precedence;
#[cfg(test)]
mod printing;
#[cfg(test)]
mod reading;
#[cfg(test)]
mod records;
#[cfg(test)]
mod restriction;
#[cfg(test)]
mod rules;
#[cfg(test)]
mod views;
#[cfg(test)]
mod waiting;
#[cfg(test)]
mod web;

pub use outcomes::rows_have_these_outcomes;
