//! The definitions of a run: its inputs, the operations that they cause, its outputs, and a message without its private places. The crate has definitions and theorems, and no
//! code.
#![tactic(auto)]

mod theorems;

pub use theorems::{
    access_is_granted_or_refused, calls_draw_on, conferences_are_for_audio, conferences_draw_on,
    enough_firings_exist, equal_masks_are_equivalent, records_are_those_kept, rows_are_filed,
};
