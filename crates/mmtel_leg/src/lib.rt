//! Typed legs: one side of a call as a value that must be spent, with its dialog state (RFC 3261 §12), the requests that the server makes in it, and the meter that runs for it.
#![tactic(auto)]

mod dialogues;
mod fields;
mod legs;
mod names;
mod remotes;
mod requests;
mod theorems;

pub use dialogues::{Dialogue, DialogueFault, InFlight};
pub use fields::{number_in, request_uri};
pub use legs::{
    Asked, CalleeLeg, CallerLeg, Early, Ended, InDialog, LegOf, OfCallee, OfCaller, Released,
    Standing,
};
pub use names::DialogName;
pub use remotes::Remote;
pub use requests::{RequestParts, request_numbered};
pub use theorems::{
    acks_have_their_invites_number, five_fields_read_back, meters_come_back, numbers_read_back,
    numbers_rise_by_one, refusals_change_nothing, requests_are_in_order,
    requests_name_their_dialog, tags_read_back, the_last_response_decides, the_route_stays,
};
