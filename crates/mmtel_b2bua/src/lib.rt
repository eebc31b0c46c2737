//! The calls of a back-to-back user agent (RFC 3261 §6): the table of calls, in which each signal belongs to one call.
#![tactic(auto)]

mod busy;
mod call_table;
mod detaching;
mod dispatch;
mod entries;
mod marks;
mod queries;
mod signals;
mod step_context;
mod tables;

pub use entries::{Entry, InviteKey};
pub use mmtel_call::NotTalking;
pub use signals::{CallFault, Signal};
pub use tables::Calls;
