//! History-Info: the list of targets that a call was offered to, with the causes of its diversions (RFC 7044, RFC 4458), as this project's profile reads, extends, hides
//! and writes it.
#![tactic(auto)]

mod entries;
mod faults;
mod histories;
mod parts;
pub mod theorems;
mod uris;

pub use entries::{ANONYMOUS, Entry, write_entry};
pub use faults::HistoryFault;
pub use histories::{History, read_values};
pub use uris::{with_cause, without_cause};
