//! The content of a service record, as values, and the table of the records that are in force: the services decide by these.
//!
//! The syntax of a record belongs to the crates above: this one has no text.
#![tactic(auto)]

mod shared;
mod sheets;
pub mod theorems;
mod values;
mod view;

pub use shared::SharedSheet;
pub use values::{
    Action, BarPart, Condition, DiversionPart, EventWord, Forward, Restriction, Rule, Sheet,
    Weekly, Who, Window,
};
pub use view::SheetView;
