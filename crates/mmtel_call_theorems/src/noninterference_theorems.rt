//! Noninterference: what nobody may learn from a call. These are theorems, without code.
ghost use Rattle.mmtel_call_theorems.specs.Noninterference.EquivalentCalls.{CallsStayEquivalent, OpeningsStay, StepsKeepEquivalence};
ghost use Rattle.mmtel_call_theorems.specs.Noninterference.PublicParts.{MessagesHaveNothingPrivate, PublicPartsAreIdempotent, PublicPartsDetermineQueries};
ghost use Rattle.mmtel_call_theorems.specs.Noninterference.Configurations.{CallsStayEquivalentInBoth, EndsLookUpNone, OneIsEquivalent};
ghost use Rattle.mmtel_call_theorems.specs.Noninterference.Configurations.{OpeningsAreEquivalentInBoth, OpeningsSeeLookupsAlone};
ghost use Rattle.mmtel_call_theorems.specs.Noninterference.Configurations.{StepsKeepEquivalenceInBoth, StepsSeeLookupsAlone, TracesStayEquivalentInBoth};
ghost use Rattle.mmtel_call_theorems.specs.Noninterference.Invariant.{CallsKeepTheirInvariant};
ghost use Rattle.mmtel_call_theorems.specs.Noninterference.Detaching.{DetachingKeepsEquivalence};
ghost use Rattle.mmtel_call_theorems.specs.Noninterference.Opening.{OpeningsAreEquivalent, OpeningsGiveEquivalentCalls, OpeningsSeePublicParts};
ghost use Rattle.mmtel_call_theorems.specs.Noninterference.RenamedAccounts.{LookupsAgree, LookupsSkipOtherAccounts, NoneAreNamed};
ghost use Rattle.mmtel_call_theorems.specs.Noninterference.Transitions.{AcksOnceAnswered, CancelsOnceAnswered, ResponsesAcross};
ghost use Rattle.mmtel_call_theorems.specs.Noninterference.Transitions.{ResponsesToOthers, ResponsesWhileOffered, SuccessToAttempt};
ghost use Rattle.mmtel_call_theorems.specs.Noninterference.Transitions.{CancelsWhileOffered, DeadlinesOnceAnswered, DeadlinesWhileOffered};
ghost use Rattle.mmtel_call_theorems.specs.Noninterference.Transitions.{Dismissals, EndsOfAttempts, ProvisionalToAttempt};
ghost use Rattle.mmtel_call_theorems.specs.Noninterference.Transitions.{RequestsOnceAnswered, RequestsWhileOffered, TimeoutsOfOthers, TimeoutsOnceAnswered, TimeoutsWhileOffered};
ghost use Rattle.mmtel_call_theorems.specs.Noninterference.Traces.{TracesStayEquivalent};
ghost use Rattle.mmtel_call_theorems.specs.Noninterference.StepTable.{StepsSeePublicParts};

use mmtel_precedence::theorems::verdicts_depend_on_matches;
use mmtel_transaction::theorems::heads_rest_on_five_names;

/// Taking the public part of a call twice is taking it once.
pub fn public_parts_are_idempotent()
    ensures law { PublicPartsAreIdempotent }
{}

/// Nothing is private in what an untrusted peer sends, nor in a response that is not of a restricted side: so if the peer to which a request was sent is not trusted, nothing is
/// private in its own response, nor in another peer's.
pub fn messages_have_nothing_private()
    ensures law { MessagesHaveNothingPrivate }
{}

/// The public part of a call determines whether it is over, whether anything may still be received for it, and which requests and client transactions belong to it.
pub fn public_parts_determine_queries()
    ensures law { PublicPartsDetermineQueries }
{}

/// While a call is offered, the transitions on a request of a side and on a CANCEL use of the call and of the message their public parts alone: the server's own responses, that
/// the caller abandons the call, and which PRACK and UPDATE are relayed (RFC 3261 §9.2, §12.2.2, §15.1.2, RFC 3262 §4, RFC 3311 §5).
pub fn offered_steps_see_public_parts()
    ensures requests { RequestsWhileOffered }
    ensures cancels { CancelsWhileOffered }
{
    heads_rest_on_five_names();
}

/// Once a call is answered, its public part and that of the message alone determine the effect of a request of a side, at each stage: BYE, an INVITE or an UPDATE within the call,
/// and the server's own responses; and so they do for CANCEL, for the other side's response to an INVITE or its timeout, and for a 2xx without ACK (RFC 3261 §9, §13.3.1.4, §14,
/// §15).
pub fn answered_steps_see_public_parts()
    ensures requests { RequestsOnceAnswered }
    ensures acks { AcksOnceAnswered }
    ensures cancels { CancelsOnceAnswered }
    ensures answers { ResponsesAcross }
    ensures timeouts { TimeoutsOnceAnswered }
    ensures deadlines { DeadlinesOnceAnswered }
{
    heads_rest_on_five_names();
}

/// What the target of an attempt sends before it refuses is relayed to the caller, and establishes the target's dialog, by public parts alone: 100, the other provisional
/// responses, and the 2xx (RFC 3261 §12.1.2, §13.2.2, §16.7).
pub fn responses_see_public_parts()
    ensures provisional { ProvisionalToAttempt }
    ensures answered { SuccessToAttempt }
{
    heads_rest_on_five_names();
}

/// After an attempt a call continues by public parts alone: it is diverted, from target to target, with its 181s, offered, or refused; of the caller only whether it has an
/// identity and the results of the accounts' rules on it are used, and nothing else (TS 24.604 §4.5.2.6, RFC 7044 §7).
pub fn diversions_see_public_parts()
    ensures ends { EndsOfAttempts }
    ensures answers { ResponsesWhileOffered }
    ensures timeouts { TimeoutsWhileOffered }
    ensures deadlines { DeadlinesWhileOffered }
{
    heads_rest_on_five_names();
    verdicts_depend_on_matches();
}

/// A response or a timeout of a request for which a call does not wait is processed by public parts alone, whatever the phase: for an INVITE that was abandoned or had a 2xx a
/// CANCEL that is sent late, the ACK and BYE for a late 2xx or one of another dialog, the ACK that is sent again, and the ACK of a late refusal (RFC 3261 §9.1, §13.2.2.4,
/// §17.1.1.3); for a request in flight the final response that is relayed back, and the server's own at its timeout or at the end of the attempt or the call (RFC 3262 §3, §4, RFC
/// 3311 §5).
pub fn other_requests_see_public_parts()
    ensures answers { ResponsesToOthers }
    ensures timeouts { TimeoutsOfOthers }
    ensures dismissals { Dismissals }
{
    heads_rest_on_five_names();
}

/// Each step of a call that is open, on any signal, uses of the call and of the signal their public parts alone, and of the caller the results of the accounts' rules: with these
/// in their place the call afterwards has the same public part, untrusted peers see the same of what is sent, and the transactions read the same of the rest.
pub fn steps_see_public_parts()
    ensures law { StepsSeePublicParts }
{
    heads_rest_on_five_names();
    verdicts_depend_on_matches();
}

/// Two calls that are equal but for private places, and receive the same but for these, continue indistinguishably: their public parts remain the same, untrusted peers see the
/// same, of what is sent to trusted peers the heads are the same, and so are deadlines, CDRs and the tokens that are drawn.
pub fn equivalent_calls_stay_equivalent()
    ensures law { StepsKeepEquivalence }
    ensures openings { OpeningsStay }
    ensures calls { CallsStayEquivalent }
{
    heads_rest_on_five_names();
    verdicts_depend_on_matches();
}

/// The opening of a call uses of the INVITE its public part alone, and of the caller the results of the accounts' rules; so two INVITEs that are the same but for private places
/// open indistinguishable calls, and untrusted peers see the same (RFC 3261 §12.1.1, RFC 3323 §4.2, RFC 5502 §4).
pub fn openings_see_public_parts()
    ensures alone { OpeningsSeePublicParts }
    ensures equivalent { OpeningsAreEquivalent }
    ensures calls { OpeningsGiveEquivalentCalls }
{
    heads_rest_on_five_names();
    verdicts_depend_on_matches();
}

/// Through every two traces, of any length, in which two indistinguishable calls receive the same but for private places, they remain indistinguishable, and each step has the same
/// observable output; however the calls are interleaved with others, and whatever the records and the registrations are at each step.
pub fn traces_stay_equivalent()
    ensures law { TracesStayEquivalent }
{
    heads_rest_on_five_names();
    verdicts_depend_on_matches();
}

/// Of the URIs of accounts a step of a call, and its opening, use the results of account look-ups alone: at the Request-URI, at the targets to which records divert the call, and
/// at those to which responses redirect it. Under two configurations that are equal but for these URIs they have the same result if these look-up results are the same (TS 24.604
/// §4.5.2.6).
pub fn lookups_alone_are_seen()
    ensures steps { StepsSeeLookupsAlone }
    ensures openings { OpeningsSeeLookupsAlone }
    ensures ends { EndsLookUpNone }
{}

/// Where accounts have other identities in another configuration, a URI that names none of these belongs to the same account in both, or to none: the look-up ignores these
/// accounts. Without such accounts each URI names none.
pub fn lookups_skip_other_accounts()
    ensures over { LookupsSkipOtherAccounts }
    ensures agree { LookupsAgree }
    ensures none { NoneAreNamed }
{}

/// So two indistinguishable calls, each under its configuration, continue indistinguishably and remain so, through every two traces, and two INVITEs that are the same but for
/// private places open indistinguishable calls. All premises on two configurations hold for one and itself.
pub fn calls_are_equivalent_in_both()
    ensures steps { StepsKeepEquivalenceInBoth }
    ensures calls { CallsStayEquivalentInBoth }
    ensures openings { OpeningsAreEquivalentInBoth }
    ensures traces { TracesStayEquivalentInBoth }
    ensures one { OneIsEquivalent }
{
    heads_rest_on_five_names();
    verdicts_depend_on_matches();
}

/// Two indistinguishable calls remain so when a leg is detached from them, which is the same but for private places, when such legs are put back, and when they end without it (RFC
/// 4579 §5.6, RFC 3891 §3).
pub fn detached_calls_stay_equivalent()
    ensures law { DetachingKeepsEquivalence }
{
    heads_rest_on_five_names();
}

/// Whatever a call receives, the INVITE that opened it and the requests that it keeps were sent by their own peers, if the requests that it receives are; and the account that is
/// served where it is offered has one of the records that were current.
pub fn calls_keep_their_invariant()
    ensures law { CallsKeepTheirInvariant }
{}
