//! Theorems about a call: its result over every list of signals, the notifications that its caller gets, what is sent, and what nobody may learn from it (noninterference). The
//! crate has definitions and theorems, and no code.
#![tactic(auto)]

mod attempt_theorems;
mod branch_theorems;
mod dismissal_theorems;
mod injection_theorems;
mod noninterference_theorems;
mod notification_theorems;
mod outcome_theorems;
mod reply_theorems;
mod session_theorems;

pub use attempt_theorems::attempts_are_observed;
pub use branch_theorems::calls_send_once;
pub use dismissal_theorems::in_flight_requests_get_finals;
pub use injection_theorems::{
    building_adds_no_injection, calls_send_no_injection, no_injection_keeps_own_fields,
    reading_leaves_no_injection, relaying_adds_no_injection,
};
pub use noninterference_theorems::{
    answered_steps_see_public_parts, calls_are_equivalent_in_both, calls_keep_their_invariant,
    detached_calls_stay_equivalent, diversions_see_public_parts, equivalent_calls_stay_equivalent,
    lookups_alone_are_seen, lookups_skip_other_accounts, messages_have_nothing_private,
    offered_steps_see_public_parts, openings_see_public_parts, other_requests_see_public_parts,
    public_parts_are_idempotent, public_parts_determine_queries, responses_see_public_parts,
    steps_see_public_parts, traces_stay_equivalent,
};
pub use notification_theorems::calls_notify_their_diversions;
pub use outcome_theorems::{
    calls_continue, calls_reach_their_outcome, calls_show_their_outcome, charging_is_exact,
    diversions_are_counted,
};
pub use reply_theorems::calls_reply_in_their_own;
pub use session_theorems::{sessions_are_observed, sessions_expire};
