//! What the layers above the header table read and build of a message without its private places: theorems alone. By these, two runs whose messages are equal when masked
//! continue in the same way.
#![tactic(auto)]

mod theorems;

pub use theorems::{
    dialogs_keep_their_names, heads_see_no_private_field, requests_hide_their_sender,
    responses_are_masked, worked_example_computes,
};
