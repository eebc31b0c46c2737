//! Messages, History-Info, session timers, trust and parties.

mod building;
pub mod drafts;
mod history;
mod identifiers;
mod lookups;
mod message;
mod parties;
mod responses;
mod session;
mod shown;
mod spans;
mod trust;
