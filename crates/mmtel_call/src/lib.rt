//! One call: two dialogs that the server connects, by the step table of a call (RFC 3261 §6, TS 24.173).
#![tactic(auto)]

mod acceptances;
mod answered;
mod attempt_starts;
mod attempts;
mod calls;
mod closing;
mod context;
mod detaching;
mod dismissal;
mod diverting;
mod expiring;
mod legs;
mod offered_requests;
mod openings;
mod other_requests;
mod reinvite_ends;
mod reinvites;
mod relayed_transactions;
mod reliable;
mod ringing;
mod sending;
mod settled;
mod signals;
mod stages;
mod steps;
mod updates;

pub use calls::{
    AnsweredInvite, Attempt, AttemptLeg, AttemptLegState, Call, DetachedLeg, EstablishedLegs,
    OfferedAttempt, Phase, Reinvite, RelayedKind, RelayedTransaction, Stage, Success,
};
pub use detaching::NotTalking;
pub use signals::Signal;
