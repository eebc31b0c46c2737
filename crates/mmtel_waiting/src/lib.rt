//! How many calls a user may have at the same time (TS 24.615), and which sides of a call hold it (RFC 3264 §8.4, TS 24.610).
#![tactic(auto)]

mod capacities;
mod hold;

pub use capacities::{capacity, is_busy};
pub use hold::{HoldState, hold_depends_on_last_directions};
