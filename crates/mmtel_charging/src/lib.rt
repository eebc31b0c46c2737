//! Charging: meters, which run from when an account's part in a call begins and must be spent, the rows (CDRs) that they give, which are filed and handed over, and the text of
//! rows as CSV (RFC 4180).
#![tactic(auto)]

mod meters;
mod printing;
mod row_lists;
mod rows;

pub use meters::Meter;
pub use mmtel_base::{NoMemory, Text};
pub use printing::{rows_are_distinguished, rows_text};
pub use row_lists::{drop_first, push_some};
pub use rows::{Kind, Row};
