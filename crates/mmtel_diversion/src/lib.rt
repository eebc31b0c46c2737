//! Communication diversion: where a call is diverted to and why, deflection by the user's own device, and the bound on the diversions of a call (TS 24.604).
#![tactic(auto)]

mod bounds;
mod choosing;

pub use bounds::within;
pub use choosing::{Diversion, choose, deflect};
