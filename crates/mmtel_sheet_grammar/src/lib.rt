//! The grammar of service records: which tables and keys a TOML document may have, what each means, and which fault is the first. The definitions are in `specs/`; a reader and a
//! printer of records are based on them.
#![tactic(auto)]

pub mod drafts;
mod faults;
pub mod keys;

pub use faults::SheetFault;
