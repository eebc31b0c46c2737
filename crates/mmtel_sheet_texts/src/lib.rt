//! The texts of service records by account, as they are stored and returned.
#![tactic(auto)]

mod texts;
pub mod theorems;

pub use texts::SheetTexts;
