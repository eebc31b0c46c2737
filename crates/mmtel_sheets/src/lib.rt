//! Service records: their content, as a sheet; reading one from TOML; printing a sheet as the TOML document that reads back to it. This crate re-exports all their public names.
#![tactic(auto)]

mod members;
mod moments;
mod printing;
mod rules;
mod tables;
pub mod theorems;
mod values;

pub use mmtel_sheet_grammar::SheetFault;
pub use mmtel_sheet_reader::{read_old_sheet, read_sheet};
pub use mmtel_sheet_values::{
    Action, BarPart, Condition, DiversionPart, EventWord, Forward, Restriction, Rule, SharedSheet,
    Sheet, SheetView, Weekly, Who, Window,
};
pub use printing::print_sheet;
