//! Scripts, which are texts of the events of a run; and the listing of its outputs, from which bytes are read back.
#![tactic(auto)]

mod event_drafts;
mod links;
mod listings;
mod script_lines;
mod scripts;
mod theorems;

pub use links::ScriptLink;
pub use listings::listing;
pub use scripts::ScriptFault;
pub use theorems::listed_bytes_read_back;
