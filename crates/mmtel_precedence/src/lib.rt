//! The precedence of the services: whether a call that reaches an account is offered, diverted or refused, what is done after the ending of each attempt, and what is checked
//! before each diversion (TS 24.604, TS 24.611, TS 24.615).
//!
//! The result of a whole call is the definition Outcome of `specs/`; a theorem states that these decisions, taken one by one, give it. No call allocates, so a decision never
//! fails.
#![tactic(auto)]

mod attempts;
mod decisions;
mod endings;
mod next_steps;
mod openings;
mod reached_targets;
pub mod theorems;
mod verdicts;

pub use attempts::{AttemptEnd, AttemptTimeout, Failure, end_by_final, end_by_timeout, rings};
pub use decisions::{go_on, refusal_before_diversion, verdict};
pub use endings::{CallFacts, Ending};
pub use mmtel_served_user::Served;
pub use next_steps::{DueDiversion, NextStep, StepAfterAttempt, next_step_at, step_after_attempt};
pub use openings::refusal_on_opening;
pub use reached_targets::{ReachedTarget, ServedAccount, party_of};
pub use verdicts::Verdict;
