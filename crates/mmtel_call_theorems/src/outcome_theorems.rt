//! The result of every trace of a call. These are theorems, without code.
ghost use Rattle.mmtel_call_theorems.specs.Continuation.{CallsContinue};
ghost use Rattle.mmtel_call_theorems.specs.Theorems.{ChargingIsExact, DiversionsAreCounted, ReachesItsOutcome, ShowsItsOutcome, ShowsNothingLater};

use mmtel_precedence::theorems::{
    endings_are_moves, later_endings_extend, moves_give_the_outcome, next_steps_are_moves,
};

/// Whatever a call receives, whatever the state is then, and however it is interleaved with others: its result so far is that of its Outcome over how its attempts ended so far (TS
/// 24.604 §4.5.2.6).
pub fn calls_reach_their_outcome()
    ensures law { ReachesItsOutcome }
{
    next_steps_are_moves();
    endings_are_moves();
    later_endings_extend();
    moves_give_the_outcome();
}

/// What is sent while a call is offered is what Outcome gives: an INVITE to each target to which it is offered, in order, with the Request-URI that it has there (RFC 4458), and at
/// the end one final response to the caller, by the result (RFC 3261 §13.3.1).
pub fn calls_show_their_outcome()
    ensures law { ShowsItsOutcome }
    // Once it is not offered any more it sends no INVITE to a target, and no final response to the INVITE that opened it, whatever it receives, also while a leg of it is detached.
    ensures nothing_later { ShowsNothingLater }
{
    next_steps_are_moves();
    endings_are_moves();
    later_endings_extend();
    moves_give_the_outcome();
}

/// The diversions that are left are those that the bound leaves after the ones that the call came with, minus those that were made; so they remain within the bound.
pub fn diversions_are_counted()
    ensures law { DiversionsAreCounted }
{
    next_steps_are_moves();
    endings_are_moves();
    later_endings_extend();
    moves_give_the_outcome();
}

/// For each account that a call reaches, for the one that makes it, and for each that diverts it, one part begins, at its moment; it runs as long as the call, and gives one CDR
/// then, in the order begun (TS 32.260 §5).
pub fn charging_is_exact()
    ensures law { ChargingIsExact }
{
    next_steps_are_moves();
    endings_are_moves();
    later_endings_extend();
    moves_give_the_outcome();
}

/// A call remains the one that was opened, and the parts that began run while it is not over. Whatever an answered call receives, it remains established with its parts unchanged,
/// or both sides leave and each part has its CDR; one that is over remains over.
pub fn calls_continue()
    ensures law { CallsContinue }
{
    next_steps_are_moves();
    endings_are_moves();
    later_endings_extend();
    moves_give_the_outcome();
}
