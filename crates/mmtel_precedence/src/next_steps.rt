//! The next step of a call.
ghost use Rattle.std.specs.Prelude.{◌≡◌, option_and_then};
ghost use Rattle.std.specs.Option.{option_copied};
ghost use Rattle.mmtel_types.specs.declared.causes.Cause.TheVariants.{Relayed};
ghost use Rattle.mmtel_rules.specs.Facts.{facts_view};
ghost use Rattle.mmtel_precedence.specs.Services.{first_decision, own_bound, services_on_arrival};
ghost use Rattle.mmtel_precedence.specs.Targets.{deflection_to};
ghost use Rattle.mmtel_precedence.specs.Views.{arrival_decision_view, attempt_end_view, due_diversion_view, failure_view};
ghost use Rattle.mmtel_precedence.specs.Views.{next_step_view, reached_target_view, served_account_view, step_after_attempt_view};
ghost use Rattle.mmtel_precedence.specs.NextSteps.{deflection_by, divert_or_refuse, next_step_at, next_step_by, offer_step, step_after_attempt};
ghost use Rattle.mmtel_precedence.specs.Verdicts.{decision_by};

use crate::attempts::{AttemptEnd, Failure};
use crate::decisions::{ArrivalDecision, arrival_decision, diversion_after};
use crate::reached_targets::{ReachedTarget, ServedAccount};
use mmtel_diversion::deflect;
use mmtel_lex::Uri;
use mmtel_rules::Facts;
use mmtel_sheet_values::{Forward, Sheet};
use mmtel_types::{Cause, Peer};

/// A diversion that is due: where the call goes, who is notified of what about it, and the cause. It is made unless `go_on` refuses it.
#[derive(Clone, Copy)]
pub struct DueDiversion<'a> {
    /// The target, as the rule or the device names it.
    pub target: &'a Uri,
    /// The caller is notified that the call is diverted.
    pub notify_caller: bool,
    /// The diverted-to identity is revealed to the caller.
    pub reveal_to_caller: bool,
    /// The identity of the diverting user is revealed to the caller.
    pub reveal_served_to_caller: bool,
    /// The identity of the diverting user is revealed to the target.
    pub reveal_to_target: bool,
    /// The cause (RFC 4458 §2).
    pub cause: u16,
    /// The bound on the diversions of a call that the account which diverts sets, where it sets one.
    pub bound: Option<u8>,
}

impl<'a> DueDiversion<'a> {
    /// Whether the caller is notified of the diversion (TS 24.604 §4.5.2.6): where the rule says so, whatever the cause.
    pub fn notifies_caller(&self) -> bool
        ensures exact { result ≡ self.entry.now.notify_caller }
    {
        self.notify_caller
    }
}

/// What is done with a call at a target that it reached.
#[derive(Clone, Copy)]
pub enum NextStep<'a> {
    /// It is offered to the target.
    Offer {
        /// The peer that is the route to it.
        peer: Peer,
        /// The user has another call already, so this one waits (communication waiting).
        waiting: bool,
    },
    /// A diversion is due.
    Divert(DueDiversion<'a>),
    /// It is refused.
    Refuse(Cause),
}

/// What is done with a call after an attempt that ended.
#[derive(Clone, Copy)]
pub enum StepAfterAttempt<'a> {
    /// A diversion is due.
    Divert(DueDiversion<'a>),
    /// It is refused.
    Refuse(Cause),
}

/// The bound that the record sets.
fn own_bound(sheet: &Sheet) -> Option<u8>
    ensures { result ≡ own_bound sheet.now }
{
    match &sheet.diversion {
        None => None,
        Some(part) => part.bound,
    }
}

/// The diversion by a rule.
fn diversion_by_rule(forward: &Forward, cause: u16, bound: Option<u8>) -> DueDiversion<'_>
    ensures { due_diversion_view result ≡ record { forward = forward.now; cause = cause; bound = bound } }
{
    DueDiversion {
        target: &forward.target,
        notify_caller: forward.notify_caller,
        reveal_to_caller: forward.reveal_to_caller,
        reveal_served_to_caller: forward.reveal_served_to_caller,
        reveal_to_target: forward.reveal_to_target,
        cause,
        bound,
    }
}

/// The diversion by the target's device, which reveals everything.
fn diversion_by_device(target: &Uri, cause: u16, bound: Option<u8>) -> DueDiversion<'_>
    ensures { due_diversion_view result ≡ deflection_to target.now bound cause }
{
    DueDiversion {
        target,
        notify_caller: true,
        reveal_to_caller: true,
        reveal_served_to_caller: true,
        reveal_to_target: true,
        cause,
        bound,
    }
}

/// A target that no service refused: it may still be of no account, or without a route.
fn offer_unless(is_unknown: bool, peer: Option<Peer>, waiting: bool) -> NextStep<'static>
    ensures { next_step_view result ≡ offer_step is_unknown peer waiting }
{
    if is_unknown {
        return NextStep::Refuse(Cause::NoAccount);
    }
    match peer {
        None => NextStep::Refuse(Cause::NoRoute),
        Some(peer) => NextStep::Offer { peer, waiting },
    }
}

/// The next step at a target, by this decision of the services of its account, which has this record.
fn next_step_by<'a>(
    decision: ArrivalDecision<'a>,
    sheet: &Sheet,
    is_unknown: bool,
    peer: Option<Peer>,
) -> NextStep<'a>
    ensures { next_step_view result ≡ next_step_by (arrival_decision_view decision.entry) (own_bound sheet.now) is_unknown peer }
{
    match decision {
        ArrivalDecision::Offer { waiting } => offer_unless(is_unknown, peer, waiting),
        ArrivalDecision::Divert(diversion) => NextStep::Divert(diversion_by_rule(
            diversion.forward,
            diversion.cause,
            own_bound(sheet),
        )),
        ArrivalDecision::Refuse(cause) => NextStep::Refuse(cause),
    }
}

/// The next step at a target of this account.
fn next_step_of_account<'a>(
    call_facts: &Facts,
    served_account: &ServedAccount<'a>,
    is_unknown: bool,
    peer: Option<Peer>,
) -> NextStep<'a>
    ensures { let facts = call_facts.entry.now in let account = served_account_view served_account.entry.now in next_step_view result
        ≡ next_step_by (decision_by (first_decision (services_on_arrival (facts_view facts) account)) account.live) (own_bound account.sheet) is_unknown peer }
{
    next_step_by(
        arrival_decision(call_facts, served_account),
        served_account.sheet,
        is_unknown,
        peer,
    )
}

/// What is done with a call at a target that it reached: what the services of the account that is served there decide (`verdict`);
/// then, whoever is served, a target of the home domain that is of no account is refused, and one to which no peer is the route.
/// The facts name the caller as the other party. It allocates nothing.
pub fn next_step_at<'a>(call_facts: &Facts, target: &ReachedTarget<'a>) -> NextStep<'a>
    ensures exact { let facts = call_facts.entry.now in next_step_view result ≡ next_step_at (facts_view facts) (reached_target_view facts.now target.entry.now) }
{
    match &target.served {
        None => offer_unless(target.is_unknown, target.peer, false),
        Some(account) => next_step_of_account(call_facts, account, target.is_unknown, target.peer),
    }
}

/// What is done after an attempt that failed so: the diversion that the rules of the record require, else the call is refused.
fn step_after_failure<'a>(
    call_facts: &Facts,
    sheet: Option<&'a Sheet>,
    failure: Failure,
) -> StepAfterAttempt<'a>
    ensures { let facts = call_facts.entry.now in step_after_attempt_view result ≡ step_after_attempt (facts_view facts) (option_copied sheet.entry) (failure_view failure) }
{
    let Some(sheet) = sheet else {
        return StepAfterAttempt::Refuse(failure.cause());
    };
    match diversion_after(call_facts, sheet, failure) {
        None => StepAfterAttempt::Refuse(failure.cause()),
        Some(diversion) => {
            let bound = own_bound(sheet);
            StepAfterAttempt::Divert(diversion_by_rule(diversion.forward, diversion.cause, bound))
        }
    }
}

/// The deflection to this target, where the record allows it, else the refusal by a 480.
fn step_after_deflection<'a>(
    sheet: Option<&'a Sheet>,
    target: &'a Uri,
    rang: bool,
) -> StepAfterAttempt<'a>
    ensures { step_after_attempt_view result ≡ divert_or_refuse (option_and_then (deflection_by target.now rang) (option_copied sheet.entry)) (Relayed 480) }
{
    let Some(sheet) = sheet else {
        return StepAfterAttempt::Refuse(Cause::Relayed(480));
    };
    match deflect(sheet, rang) {
        None => StepAfterAttempt::Refuse(Cause::Relayed(480)),
        Some(cause) => StepAfterAttempt::Divert(diversion_by_device(
            target,
            cause,
            own_bound(sheet),
        )),
    }
}

/// What is done with a call after an attempt that ended so: the rules for that ending come first, and then its cause. The sheet is the record under which it was offered, None
/// where the target is of no account; the facts name the caller as the other party. It allocates nothing.
pub fn step_after_attempt<'a>(
    call_facts: &Facts,
    sheet: Option<&'a Sheet>,
    end: &AttemptEnd<'a>,
) -> StepAfterAttempt<'a>
    ensures exact { let facts = call_facts.entry.now in step_after_attempt_view result
        ≡ step_after_attempt (facts_view facts) (option_copied sheet.entry) (attempt_end_view end.entry.now) }
{
    match *end {
        AttemptEnd::Failed(failure) => step_after_failure(call_facts, sheet, failure),
        AttemptEnd::Deflected { target, rang } => step_after_deflection(sheet, target, rang),
    }
}
