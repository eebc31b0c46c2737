//! Theorems about the decisions, without code.
ghost use Rattle.mmtel_precedence.specs.Extension.{LaterEndingsExtend};
ghost use Rattle.mmtel_precedence.specs.Theorems.{BarringComesFirst, DiversionsHaveForwards, EquivalentCallersSameOutcome, IsBoundExact, OnlyReachedTargetsCount, StaysWithinBound};
ghost use Rattle.mmtel_precedence.specs.Theorems.{VerdictsDependOnMatches};
ghost use Rattle.mmtel_precedence.specs.Moves.{MovesGiveTheOutcome};
ghost use Rattle.mmtel_precedence.specs.NextSteps.{EndingsAreMoves, NextStepsAreMoves, NextStepsGiveTheOutcome};

use mmtel_rules::theorems::{
    bar_depends_on_matches, barred_where_no_rule_allows, first_rule_depends_on_matches,
};

/// However the attempts of a call end, and whatever the records, registrations and live calls are at the targets that it reaches: deciding it move by move, by `verdict` and
/// `go_on` over its state, gives exactly its Outcome.
pub fn moves_give_the_outcome()
    ensures law { MovesGiveTheOutcome }
{}

/// The next step at a target is the move there: it is decided by `next_step_at`, and by `go_on` for a diversion that is due, alone.
pub fn next_steps_are_moves()
    ensures law { NextStepsAreMoves }
{}

/// The next step after an attempt is the move on its end: it is decided by `step_after_attempt`, and by `go_on` for a diversion that is due, alone.
pub fn endings_are_moves()
    ensures law { EndingsAreMoves }
{}

/// However the attempts of a call end, and whatever the states at the targets that it reaches:
/// a call that takes its next steps one by one, by `next_step_at`, `step_after_attempt` and `go_on` over its state, has exactly its Outcome.
pub fn next_steps_give_the_outcome()
    ensures law { NextStepsGiveTheOutcome }
{}

/// Later endings extend an outcome: its list of targets begins with the previous one, and it is the same where that was settled. The moves of a call continue from where it rang,
/// so that those that are made over some endings and then over later ones, or after each ending as it comes, give the Outcome of all of them.
pub fn later_endings_extend()
    ensures law { LaterEndingsExtend }
{}

/// Only the targets that a call reaches count: its Outcome is the same where the states when it reaches those are the same.
pub fn only_reached_targets_count()
    ensures law { OnlyReachedTargetsCount }
{}

/// Barring comes before diversion, and anonymous communication rejection before both, whatever the diversion rules, the registration and the live calls of the account.
pub fn barring_comes_first()
    ensures law { BarringComesFirst }
{}

/// The diversions that a call came with and those that are made are together at most the bound, or the number that the call came with where that is greater.
pub fn diversions_stay_within_the_bound()
    ensures law { StaysWithinBound }
{}

/// A diversion that is due, and that outgoing barring does not refuse, is made exactly below the bound. A call is refused for too many diversions exactly where such a one is due
/// at the bound, as busy exactly where its cause is 486.
pub fn bound_is_exact()
    ensures law { IsBoundExact }
{}

/// Two callers for which each identity part of the rules that the reached accounts evaluate for their callers has the same truth value, and of whom both or neither have an
/// identity, get the same Outcome.
pub fn equivalent_callers_same_outcome()
    ensures law { EquivalentCallersSameOutcome }
{
    first_rule_depends_on_matches();
    bar_depends_on_matches();
    barred_where_no_rule_allows();
}

/// Of a caller a verdict depends on whether it has an identity, whether it hides it, and the truth value of each identity part of the rules that the account evaluates for its
/// callers, and on nothing else.
pub fn verdicts_depend_on_matches()
    ensures law { VerdictsDependOnMatches }
{
    first_rule_depends_on_matches();
    bar_depends_on_matches();
    barred_where_no_rule_allows();
}

/// Each target is the one to which the forward of its diversion in the Outcome leads; only the first is reached without one. The decision to divert a call that arrives has its
/// forward, and only that on a deflection has none.
pub fn diversions_have_forwards()
    ensures law { DiversionsHaveForwards }
{}
