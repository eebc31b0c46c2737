//! Session timers (RFC 4028): what a Session-Expires header field says, whether a request may ask for it, and when the session of a 2xx expires. Its functions allocate nothing.
#![tactic(auto)]

mod intervals;
mod values;

pub use intervals::{LEAST_INTERVAL, SessionFault, check, expiry_interval_of};
pub use values::{SessionExpires, read_session};
