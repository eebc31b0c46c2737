//! Theorems about conferences: who is charged for a participant, that each message has its own header fields and nobody else's, and what cannot be learned from a conference. The
//! crate has definitions and theorems, and no code.
#![tactic(auto)]

mod charging_theorems;
mod injection_theorems;
mod noninterference;
mod reply_theorems;

pub use charging_theorems::{participants_are_charged_once, participants_have_their_meters};
pub use injection_theorems::conferences_send_no_injection;
pub use noninterference::{
    conferences_stay_equivalent, equivalent_rooms_answer_equally, lookups_alone_are_seen,
};
pub use reply_theorems::conferences_reply_in_their_own;
