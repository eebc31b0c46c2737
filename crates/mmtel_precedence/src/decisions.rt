//! One decision at a time.
ghost use Rattle.std.specs.Prelude.{◌≡◌};
ghost use Rattle.std.specs.Option.{option_copied, option_map};
ghost use Rattle.mmtel_rules.specs.Facts.{facts_view};
ghost use Rattle.mmtel_diversion.specs.Diversion.{chosen_diversion as shown_diversion};
ghost use Rattle.mmtel_precedence.specs.Views.{arrival_decision_view, called_account, due_diversion_view, served_account_view};
ghost use Rattle.mmtel_precedence.specs.Services.{bars_outgoing, bound_of, first_decision, refusal_or, services_of_capacity, services_on_arrival, services_after_barring};
ghost use Rattle.mmtel_precedence.specs.Verdicts.{decision_by, deflects_or, diversion_after, go_on_of, refusal_at_bound, refusal_before_diversion, verdict_after, verdict_view};
ghost use Rattle.mmtel_precedence.specs.Verdicts.{verdict_of};

use crate::attempts::Failure;
use crate::endings::{CallFacts, Ending};
use crate::next_steps::DueDiversion;
use crate::reached_targets::ServedAccount;
use crate::verdicts::Verdict;
use mmtel_barring::{Refusal, incoming, outgoing};
use mmtel_diversion::{Diversion, choose, deflect, within};
use mmtel_rules::theorems::barred_where_no_rule_allows;
use mmtel_rules::{Facts, When};
use mmtel_sheet_values::Sheet;
use mmtel_types::Cause;
use mmtel_waiting::is_busy;

/// The decision of the services of an account on a call that reaches it.
#[derive(Clone, Copy)]
pub enum ArrivalDecision<'a> {
    /// It is offered to the target.
    Offer {
        /// The user has another call already, so this one waits (communication waiting).
        waiting: bool,
    },
    /// A rule diverts it.
    Divert(Diversion<'a>),
    /// It is refused.
    Refuse(Cause),
}

/// The decision on a call that reaches a registered account which its rules for an arrival do not divert: by the number of calls of the account.
fn decision_by_capacity<'a>(
    call_facts: &Facts,
    served_account: &ServedAccount<'a>,
) -> ArrivalDecision<'a>
    ensures { let facts = call_facts.entry.now in let account = served_account_view served_account.entry.now in arrival_decision_view result
        ≡ decision_by (first_decision (services_of_capacity (facts_view facts) account)) account.live }
{
    if !is_busy(served_account.live, served_account.sheet) {
        return ArrivalDecision::Offer {
            waiting: served_account.live >= 1,
        };
    }
    match choose(served_account.sheet, call_facts, When::Busy) {
        Some(diversion) => ArrivalDecision::Divert(diversion),
        None => ArrivalDecision::Refuse(Cause::NetworkBusy),
    }
}

/// The decision on a call that reaches an account which does not refuse its caller.
fn decision_after_barring<'a>(
    call_facts: &Facts,
    served_account: &ServedAccount<'a>,
) -> ArrivalDecision<'a>
    ensures { let facts = call_facts.entry.now in let account = served_account_view served_account.entry.now in arrival_decision_view result
        ≡ decision_by (first_decision (services_after_barring (facts_view facts) account)) account.live }
{
    let when = When::Arrival {
        registered: served_account.registered,
    };
    match choose(served_account.sheet, call_facts, when) {
        Some(diversion) => ArrivalDecision::Divert(diversion),
        None if !served_account.registered => ArrivalDecision::Refuse(Cause::NotRegistered),
        None => decision_by_capacity(call_facts, served_account),
    }
}

/// The decision by the refusal of the account's barring of incoming calls, or without one.
fn decision_unless_refused<'a>(
    refusal: Option<Refusal>,
    call_facts: &Facts,
    served_account: &ServedAccount<'a>,
) -> ArrivalDecision<'a>
    ensures { let facts = call_facts.entry.now in let account = served_account_view served_account.entry.now in
        arrival_decision_view result ≡ decision_by (refusal_or refusal (first_decision (services_after_barring (facts_view facts) account))) account.live }
{
    match refusal {
        Some(Refusal::Anonymous) => ArrivalDecision::Refuse(Cause::AnonymousRejected),
        Some(Refusal::Barred { .. }) => ArrivalDecision::Refuse(Cause::IncomingBarred),
        None => decision_after_barring(call_facts, served_account),
    }
}

/// The decision on a call that reaches an account, in this order: anonymous communication rejection; incoming barring; the diversion rules without an event and for not-registered;
/// a target that is not registered; where the account has as many calls as it may have, its busy rules and then network determined user busy.
pub fn arrival_decision<'a>(
    call_facts: &Facts,
    served_account: &ServedAccount<'a>,
) -> ArrivalDecision<'a>
    ensures { let facts = call_facts.entry.now in let account = served_account_view served_account.entry.now in arrival_decision_view result
        ≡ decision_by (first_decision (services_on_arrival (facts_view facts) account)) account.live }
{
    barred_where_no_rule_allows();
    decision_unless_refused(
        incoming(served_account.sheet, call_facts),
        call_facts,
        served_account,
    )
}

/// The diversion that the rules of the record require after an attempt that failed so.
pub fn diversion_after<'a>(
    call_facts: &Facts,
    sheet: &'a Sheet,
    failure: Failure,
) -> Option<Diversion<'a>>
    ensures { let facts = call_facts.entry.now in option_map shown_diversion result ≡ diversion_after (facts_view facts) sheet.now failure }
{
    match failure {
        Failure::UserBusy(_) => choose(sheet, call_facts, When::Busy),
        Failure::NotReachable(_) => choose(sheet, call_facts, When::NotReachable),
        Failure::NoReply => choose(sheet, call_facts, When::NoAnswer),
        Failure::Other(_) => None,
    }
}

/// The verdict of the decision on arrival.
fn verdict_on_arrival(decision: ArrivalDecision<'_>) -> Verdict<'_>
    ensures { verdict_view result ≡ arrival_decision_view decision.entry }
{
    match decision {
        ArrivalDecision::Offer { waiting } => Verdict::Offer { waiting },
        ArrivalDecision::Divert(diversion) => Verdict::Divert {
            forward: Some(diversion.forward),
            cause: diversion.cause,
        },
        ArrivalDecision::Refuse(cause) => Verdict::Refuse(cause),
    }
}

/// The verdict on an attempt that failed so.
fn verdict_on_failure<'a>(call_facts: &Facts, sheet: &'a Sheet, failure: Failure) -> Verdict<'a>
    ensures { let facts = call_facts.entry.now in verdict_view result ≡ verdict_after (facts_view facts) sheet.now failure }
{
    match diversion_after(call_facts, sheet, failure) {
        Some(diversion) => Verdict::Divert {
            forward: Some(diversion.forward),
            cause: diversion.cause,
        },
        None => Verdict::Refuse(failure.cause()),
    }
}

/// The verdict on a deflection: it is made, where the account allows it, else the call is refused by a 480.
fn verdict_on_deflection(cause: Option<u16>) -> Verdict<'static>
    ensures { verdict_view result ≡ deflects_or cause }
{
    match cause {
        Some(cause) => Verdict::Divert {
            forward: None,
            cause,
        },
        None => Verdict::Refuse(Cause::Relayed(480)),
    }
}

/// The account whose services are evaluated, with its record.
fn called_account<'a>(call_facts: &CallFacts, sheet: &'a Sheet) -> ServedAccount<'a>
    ensures { served_account_view result ≡ called_account call_facts.entry.now sheet.now }
{
    ServedAccount {
        sheet: sheet,
        registered: call_facts.registered,
        live: call_facts.live,
    }
}

/// The verdict of the services of the account on a call that reaches it, or after an attempt that ended there: it is offered, as waiting or not; diverted, by a rule or by
/// deflection; or refused.
///
/// On arrival, in this order: anonymous communication rejection; incoming barring; the diversion rules without an event and for not-registered; a target that is not registered;
/// where the account has as many calls as it may have, its busy rules and then network determined user busy. After an attempt the rules for its ending come first, then its cause.
/// It decides what `next_step_at` and `step_after_attempt` decide, and allocates nothing.
pub fn verdict<'a>(call_facts: &CallFacts, sheet: &'a Sheet, ending: Ending) -> Verdict<'a>
    ensures exact { let call = call_facts.entry.now in verdict_view result ≡ verdict_of (facts_view call.facts) (called_account call sheet.now) ending }
{
    match ending {
        Ending::Arrived => verdict_on_arrival(arrival_decision(
            &call_facts.facts,
            &called_account(call_facts, sheet),
        )),
        Ending::UserBusy(code) => verdict_on_failure(
            &call_facts.facts,
            sheet,
            Failure::UserBusy(code),
        ),
        Ending::NotReachable(code) => verdict_on_failure(
            &call_facts.facts,
            sheet,
            Failure::NotReachable(code),
        ),
        Ending::NoReply => verdict_on_failure(&call_facts.facts, sheet, Failure::NoReply),
        Ending::Other(code) => verdict_on_failure(&call_facts.facts, sheet, Failure::Other(code)),
        Ending::Deflected { alerted } => verdict_on_deflection(deflect(sheet, alerted)),
    }
}

/// Whether the account bars its own calls to the party that the facts name.
pub fn bars_outgoing(sheet: &Sheet, call_facts: &Facts) -> bool
    ensures { let facts = call_facts.entry.now in result ≡ bars_outgoing (facts_view facts) sheet.now }
{
    barred_where_no_rule_allows();
    outgoing(sheet, call_facts).is_some()
}

/// The refusal by the bound: the diversions with which the call was received and those that were made are together at the bound or above (TS 24.604 §4.5.2.6); the refusal is as
/// for a busy user where the cause of the diversion is 486.
fn refusal_at_bound(received: u16, done: u16, bound: u16, cause: u16) -> Option<Cause>
    ensures { result ≡ refusal_at_bound received done bound cause }
{
    if within(received, done, bound) {
        return None;
    }
    Some(Cause::TooManyDiversions { busy: cause == 486 })
}

/// Why a diversion that is due is refused; None where it is made. The sheet is that of the account that diverts, and the facts name the new target as the other party: its outgoing
/// barring comes first (TS 24.611 §4.5.2). Then the bound: the diversions with which the call was received and those that were made are together at the bound or above (TS 24.604
/// §4.5.2.6); the refusal is as for a busy user where the cause of the diversion is 486. It allocates nothing.
pub fn go_on(
    sheet: &Sheet,
    call_facts: &Facts,
    received: u16,
    done: u16,
    bound: u16,
    cause: u16,
) -> Option<Cause>
    ensures exact { let facts = call_facts.entry.now in result ≡ go_on_of (facts_view facts) sheet.now received done bound cause }
{
    if bars_outgoing(sheet, call_facts) {
        return Some(Cause::OutgoingBarred);
    }
    refusal_at_bound(received, done, bound, cause)
}

/// The bound of a diversion: the lesser of the configured one and that of the account which diverts, where it sets one.
fn bound_of(configured: u16, own: Option<u8>) -> u16
    ensures { result ≡ bound_of configured own }
{
    match own {
        None => configured,
        Some(own) => configured.min(u16::from(own)),
    }
}

/// Why a diversion that is due is refused; None where it is made. The sheet is that of the account that diverts, None where no account is served, and the facts name the new target
/// as the other party. The two counts are of the diversions with which the call was received and of those that were made; the bound is the lesser of the configured one and that of
/// the account. It allocates nothing.
pub fn refusal_before_diversion(
    sheet: Option<&Sheet>,
    call_facts: &Facts,
    received: u16,
    done: u16,
    configured: u16,
    due: &DueDiversion<'_>,
) -> Option<Cause>
    ensures exact { let facts = call_facts.entry.now in
        result ≡ refusal_before_diversion (facts_view facts) (option_copied sheet.entry) received done configured (due_diversion_view due.entry.now) }
{
    let bound = bound_of(configured, due.bound);
    match sheet {
        None => refusal_at_bound(received, done, bound, due.cause),
        Some(sheet) => go_on(sheet, call_facts, received, done, bound, due.cause),
    }
}
