//! Reliable provisional responses (RFC 3262): which response a PRACK acknowledges, and which of the responses that were relayed to the caller it may name.
#![tactic(auto)]

mod acks;
mod racks;
pub mod theorems;

pub use acks::{Acks, ReliableResponse};
pub use racks::{Rack, read_rack};
