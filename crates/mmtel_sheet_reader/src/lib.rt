//! Reading service records: from the bytes of a TOML document to its sheet, or to its first fault; and the line with the first fault of a text that is uploaded, checked or stored.
#![tactic(auto)]

mod elements;
mod faults;
mod keys;
mod moments;
mod reading;
mod rules;
mod tables;
pub mod theorems;
mod uploads;

pub use reading::{read_old_sheet, read_sheet};
pub use uploads::{Upload, fault_text, stored_sheet, upload_of};
