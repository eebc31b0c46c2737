//! Barring of calls (TS 24.611): which rule of a record bars an outgoing or incoming call, and which callers are refused since they are anonymous.
//!
//! No function allocates, so a decision never fails.
#![tactic(auto)]

mod bars;
pub mod theorems;

pub use bars::{Barred, Refusal, incoming, outgoing};
