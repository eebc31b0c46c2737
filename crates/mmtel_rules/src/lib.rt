//! Rules of the services: the conditions under which one holds, and which of a list decides (RFC 4745 §6 and §7, TS 24.604 §4.9.1, TS 24.611 §4.9.1).
//!
//! No function allocates, so a decision never fails.
#![tactic(auto)]

mod choosing;
mod conditions;
mod countries;
mod identities;
pub mod theorems;
mod values;

pub use choosing::{all_bar, first};
pub use conditions::holds;
pub use countries::abroad;
pub use values::{Facts, Identities2, When};
