//! What a call keeps of its attempt, determined by what was sent and received. These are theorems, without code.
ghost use Rattle.mmtel_call_theorems.specs.Attempts.Theorems.{AttemptsAreObserved, EndingsAreObserved, TargetsAreObserved};

use crate::outcome_theorems::{
    calls_continue, calls_reach_their_outcome, calls_show_their_outcome,
};

/// Whatever a call receives, whatever the state is then, and however it is interleaved with others: while it is offered, its attempt is that of the last INVITE that was sent to a
/// target, with the peer, the Request-URI and the branch of it (RFC 3261 §13.2.1, §17.1.3);
/// its deadlines have the number of those that were armed since, and of none before; and it rang if a response to that INVITE said so since (§21.1.2);
/// those reliable responses to it wait for their PRACK that were relayed and not acknowledged (RFC 3262 §3).
/// So how its attempts ended is determined by what was sent and received alone (TS 24.604 §4.5.2.6).
pub fn attempts_are_observed()
    ensures attempts { AttemptsAreObserved }
    ensures endings { EndingsAreObserved }
    // If each step has an empty output before it, its Request-URI is that of the last target to which the call is offered according to Outcome (RFC 4458).
    ensures targets { TargetsAreObserved }
{
    calls_continue();
    calls_reach_their_outcome();
    calls_show_their_outcome();
}
