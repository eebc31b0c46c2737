//! HTTP requests for service records, charging rows and mailboxes: who may request what, and what is done.
#![tactic(auto)]

mod handling;
mod parties;
pub mod theorems;

pub use handling::{Web, answer, fault_reply, reply};
pub use mmtel_directory::WebDirectory;
pub use mmtel_http::{Whole, whole};
pub use mmtel_sheet_texts::SheetTexts;
