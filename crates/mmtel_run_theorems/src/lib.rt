//! Theorems about a run: the outcome of each of its calls, whom it charges, and what it sends; that its outputs are only added to, and which of them are sent to an address; and
//! noninterference: what an untrusted peer is sent is equal in any other run that differs in private places alone. The crate has definitions and theorems, and no code.
#![tactic(auto)]

mod noninterference;
mod offers;
mod theorems;

pub use noninterference::{
    conferences_send_once, configurations_are_read, masks_compute, renamed_are_looked_up_equally,
    runs_are_tied, runs_keep_noninterference,
};
pub use offers::{bytes_are_seen, offers_are_added};
pub use theorems::{
    calls_of_runs_reach_outcome, homes_have_no_injection, run_participants_charged_once,
    runs_send_no_injection, short_sessions_are_refused, subscribers_are_notified,
};
