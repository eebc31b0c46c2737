//! The next steps of calls: how attempts end, what is done at a target and after an attempt, and what refuses a call at its opening.

use crate::asserting::assert_right;
use crate::precedence::records::{Called, facts, read_call, read_record};
use crate::precedence::reports::{RowWriter, put_cause, put_code, put_uri, wrong_line};
use mmtel_base::number_up_to;
use mmtel_lex::{Uri, read_uri};
use mmtel_precedence::{
    AttemptEnd, AttemptTimeout, DueDiversion, Failure, NextStep, ReachedTarget, Served,
    ServedAccount, StepAfterAttempt, end_by_final, end_by_timeout, next_step_at, party_of,
    refusal_on_opening, step_after_attempt,
};
use mmtel_rules::Facts;
use mmtel_sheet_values::Sheet;
use mmtel_test_tables::{Transcript, split_or_all};
use mmtel_types::{Account, Peer, PrivacySet};

/// The timer that fired, by its word.
fn timeout_of(word: &[u8]) -> Option<AttemptTimeout> {
    if word == b"silence".as_slice() {
        return Some(AttemptTimeout::TransactionTimeout);
    }
    if word == b"no-reply-time".as_slice() {
        return Some(AttemptTimeout::NoReplyTime);
    }
    if word == b"longest-time".as_slice() {
        return Some(AttemptTimeout::LongestTime);
    }
    None
}

/// How an attempt ends, by the word for the timer that fired or the status of a final response from 300; None for any other word.
fn end_of<'a>(word: &[u8], target: Option<&'a Uri>, rang: bool) -> Option<AttemptEnd<'a>> {
    if let Some(timeout) = timeout_of(word) {
        return Some(end_by_timeout(timeout, rang));
    }
    let code = u16::try_from(number_up_to(999, word).unwrap_or(0)).unwrap_or(0);
    if code < 300 {
        return None;
    }
    Some(end_by_final(code, target, rang))
}

fn put_failure(transcript: &mut Transcript, failure: Failure) {
    match failure {
        Failure::UserBusy(code) => put_code(transcript, b"busy", code),
        Failure::NotReachable(code) => put_code(transcript, b"unreachable", code),
        Failure::NoReply => transcript.add(b"no-reply"),
        Failure::Other(code) => put_code(transcript, b"other", code),
    }
}

/// Writes the end of an attempt, or `none`.
fn put_end(transcript: &mut Transcript, end: Option<AttemptEnd<'_>>) {
    match end {
        None => transcript.add(b"none"),
        Some(AttemptEnd::Failed(failure)) => put_failure(transcript, failure),
        Some(AttemptEnd::Deflected { target, rang }) => {
            transcript.add_if(rang, b"alerted ", b"deflected ");
            put_uri(transcript, target);
        }
    }
}

/// Writes a diversion: its cause, its target, and `1` or `0` for what is revealed to the caller and the target.
fn put_onward(transcript: &mut Transcript, onward: &DueDiversion) {
    put_code(transcript, b"divert", onward.cause);
    transcript.add(b" ");
    put_uri(transcript, onward.target);
    transcript.add_if(onward.notify_caller, b" 1", b" 0");
    transcript.add_if(onward.reveal_to_caller, b"1", b"0");
    transcript.add_if(onward.reveal_served_to_caller, b"1", b"0");
    transcript.add_if(onward.reveal_to_target, b"1", b"0");
}

fn put_turn(transcript: &mut Transcript, turn: &NextStep) {
    match turn {
        NextStep::Offer { waiting, .. } => transcript.add_if(*waiting, b"wait", b"offer"),
        NextStep::Divert(onward) => put_onward(transcript, onward),
        NextStep::Refuse(cause) => put_cause(transcript, cause),
    }
}

fn put_after(transcript: &mut Transcript, after: &StepAfterAttempt) {
    match after {
        StepAfterAttempt::Divert(onward) => put_onward(transcript, onward),
        StepAfterAttempt::Refuse(cause) => put_cause(transcript, cause),
    }
}

/// Evaluates how an attempt ends: `r` where it rang, else `-`; the response or timer; and, after a space, the first Contact.
struct Ends;

impl RowWriter for Ends {
    fn write_row(transcript: &mut Transcript, question: &[u8]) {
        let (rang, what) = rang_in(question);
        let (word, contact) = split_or_all(b' ', what);
        match read_uri(transcript.alloc, contact) {
            Ok(uri) => put_end(transcript, end_of(word, Some(&uri), rang)),
            Err(_) => put_end(transcript, end_of(word, None, rang)),
        }
    }
}

/// Whether it rang, and the response or timer.
fn rang_in(question: &[u8]) -> (bool, &[u8]) {
    match question {
        [b'r', rest @ ..] => (true, rest),
        [_, rest @ ..] => (false, rest),
        [] => (false, b""),
    }
}

/// RFC 3261 §21, TS 24.604 §4.5.2.6.
const ENDS: &[u8] = b"-486>busy 486
r600>busy 600
-408>unreachable 408
-500>unreachable 500
-503>unreachable 503
r408>other 408
r500>other 500
r503>other 503
-404>other 404
r487>other 487
-603>other 603
-302 sip:vm@far.example>deflected sip:vm@far.example
r302 sip:vm@far.example>alerted sip:vm@far.example
-302>other 480
-301 sip:vm@far.example>other 480
r399>other 480
-400>other 400
-silence>unreachable 408
rno-reply-time>no-reply
rlongest-time>no-reply
-longest-time>unreachable 408
";

#[test]
fn ends_of_attempts(rt: HostRuntime) {
    assert_right(&rt, "ENDS", wrong_line::<Ends>(rt.alloc(), ENDS));
}

/// Evaluates the next step after an attempt: how it ended, as above, and the record under which it was offered; `none` for a target of no account.
struct After;

fn write_after(
    transcript: &mut Transcript,
    called: &Called,
    sheet: Option<&Sheet>,
    end: Option<AttemptEnd<'_>>,
) {
    match end {
        None => transcript.add(b"none"),
        Some(end) => put_after(transcript, &step_after_attempt(&facts(called), sheet, &end)),
    }
}

/// By the response or timer, with the first Contact if there is one.
fn write_what(
    transcript: &mut Transcript,
    called: &Called,
    sheet: Option<&Sheet>,
    question: &[u8],
) {
    let (rang, what) = rang_in(question);
    let (word, contact) = split_or_all(b' ', what);
    match read_uri(transcript.alloc, contact) {
        Ok(uri) => write_after(transcript, called, sheet, end_of(word, Some(&uri), rang)),
        Err(_) => write_after(transcript, called, sheet, end_of(word, None, rang)),
    }
}

/// By the record.
fn write_under(transcript: &mut Transcript, called: &Called, what: &[u8], record: &[u8]) {
    if record == b"none".as_slice() {
        write_what(transcript, called, None, what);
    } else if let Some(sheet) = read_record(transcript, record) {
        write_what(transcript, called, Some(&sheet), what);
        drop(sheet);
    }
}

impl RowWriter for After {
    fn write_row(transcript: &mut Transcript, question: &[u8]) {
        let (what, record) = split_or_all(b'|', question);
        let called = read_call(transcript, b"--0sip:alice@home.example");
        write_under(transcript, &called, what, record);
        drop(called);
    }
}

/// A no-answer rule; a transaction timeout and the not-reachable rule, and a failure before it rang and after; deflection, allowed and not allowed; and busy.
const AFTER: &[u8] =
    b"rno-reply-time|communication-diversion = { rule = [{ no-answer = true, target = \"sip:vm@far.example\" }] }>divert 408 sip:vm@far.example 1111
-silence|communication-diversion = { rule = [{ not-reachable = true, target = \"sip:vm@far.example\" }] }>divert 503 sip:vm@far.example 1111
-500|communication-diversion = { rule = [{ not-reachable = true, target = \"sip:vm@far.example\", notify-caller = false }] }>divert 503 sip:vm@far.example 0111
r500|communication-diversion = { rule = [{ not-reachable = true, target = \"sip:vm@far.example\" }] }>relayed 500
-503|communication-diversion = { rule = [{ no-answer = true, target = \"sip:vm@far.example\" }] }>unreachable 503
-302 sip:vm@far.example|communication-diversion = { deflection = true }>divert 480 sip:vm@far.example 1111
r302 sip:vm@far.example|communication-diversion = { deflection = true }>divert 487 sip:vm@far.example 1111
-302 sip:vm@far.example|communication-diversion = { deflection = false }>relayed 480
-302|communication-diversion = { deflection = true }>relayed 480
r302 sip:vm@far.example|none>relayed 480
r486|>relayed 486
r486|communication-diversion = { rule = [{ busy = true, target = \"sip:vm@far.example\", reveal-identity-to-target = false }] }>divert 486 sip:vm@far.example 1110
r600|none>relayed 600
-longest-time|none>unreachable 408
rlongest-time|none>no-reply 480
rno-reply-time|communication-diversion = { rule = [{ busy = true, target = \"sip:vm@far.example\" }] }>no-reply 480
-604|communication-diversion = { rule = [{ target = \"sip:vm@far.example\" }] }>relayed 604
";

#[test]
fn turns_after_attempts(rt: HostRuntime) {
    assert_right(&rt, "AFTER", wrong_line::<After>(rt.alloc(), AFTER));
}

/// Evaluates the next step at a target: `s` where an account is served there, `u` where it is of no account, `p` where no peer is the route to it, else `-` in their places; the
/// call; and the record.
struct At;

/// A peer, unless there is no route.
fn peer_unless(none: bool) -> Option<Peer> {
    if none {
        return None;
    }
    Some(Peer(1))
}

fn write_at(transcript: &mut Transcript, flags: &[u8], called: &Called, sheet: &Sheet) {
    let account = ServedAccount {
        sheet,
        registered: called.registered,
        live: called.live,
    };
    let served = if flags.first() == Some(&b's') {
        Some(account)
    } else {
        None
    };
    let reached = ReachedTarget {
        served,
        is_unknown: flags.contains(&b'u'),
        peer: peer_unless(flags.contains(&b'p')),
    };
    put_turn(transcript, &next_step_at(&facts(called), &reached));
}

impl RowWriter for At {
    fn write_row(transcript: &mut Transcript, question: &[u8]) {
        let (flags, rest) = split_or_all(b'|', question);
        let (call, record) = split_or_all(b'|', rest);
        let called = read_call(transcript, call);
        if let Some(sheet) = read_record(transcript, record) {
            write_at(transcript, flags, &called, &sheet);
            drop(sheet);
        }
        drop(called);
    }
}

/// Anonymous rejection and barring before diversion; two diversions; registration; waiting; and last the targets of no account and those without a peer.
const AT: &[u8] =
    b"s--|r-0sip:erin@other.example|communication-diversion={rule=[{target='sip:vm@far.example'}]};incoming-communication-barring={reject-anonymous=true}>anonymous 433
s--|--0sip:alice@home.example|incoming-communication-barring = { rule = [{ many = \"*\", allow = false }, { one = [\"sip:alice@home.example\"], allow = true }] }>offer
sup|--0sip:alice@home.example|incoming-communication-barring = { rule = [{ many = \"*\", allow = false }] }>incoming-barred 603
s--|--0|communication-diversion = { rule = [{ target = \"sip:carol@home.example\" }] }>divert 302 sip:carol@home.example 1111
s--|--1|communication-diversion = { rule = [{ busy = true, target = \"sip:vm@far.example\" }] }>divert 486 sip:vm@far.example 1111
s--|-u0|>not-registered 480
s--|-u1|communication-diversion = { rule = [{ busy = true, target = \"sip:vm@far.example\" }] }>not-registered 480
s--|-u0|communication-diversion = { rule = [{ not-registered = true, target = \"sip:vm@far.example\" }] }>divert 404 sip:vm@far.example 1111
s--|--0|communication-waiting = { calls = 2 }>offer
s--|--1|communication-waiting = { calls = 2 }>wait
s-p|--2|communication-waiting = { calls = 2 }>network-busy 486
su-|--1|communication-waiting = { calls = 2 }>no-account 404
s-p|--0|>no-route 404
---|--1|communication-diversion = { rule = [{ target = \"sip:vm@far.example\" }] }>offer
-up|-u9|>no-account 404
--p|-u9|>no-route 404
";

#[test]
fn turns_at_targets(rt: HostRuntime) {
    assert_right(&rt, "AT", wrong_line::<At>(rt.alloc(), AT));
}

/// Evaluates what refuses a call at its opening: `s` and `c` for the words session and critical; `b` where both cases are served, `o` and `t` for accounts that are;
/// else `-` in their places; the target; and the record of the account that calls.
struct Opening;

/// An account where the letter is present.
fn account_if(flags: &[u8], letter: u8) -> Option<Account> {
    if flags.contains(&letter) {
        return Some(Account(1));
    }
    None
}

fn put_opening(transcript: &mut Transcript, flags: &[u8], f: &Facts, sheet: &Sheet) {
    let privacy = PrivacySet {
        header: false,
        session: flags.contains(&b's'),
        user: false,
        none: false,
        critical: flags.contains(&b'c'),
        id: false,
        history: false,
    };
    let served = Served {
        origin: account_if(flags, b'o'),
        target: account_if(flags, b't'),
        both: flags.contains(&b'b'),
    };
    let origin = if served.origin.is_some() {
        Some(sheet)
    } else {
        None
    };
    match refusal_on_opening(&privacy, &served, origin, f) {
        None => transcript.add(b"opens"),
        Some(cause) => put_cause(transcript, &cause),
    }
}

fn write_opening(transcript: &mut Transcript, flags: &[u8], target: Uri, sheet: &Sheet) {
    let party = party_of(target);
    let called = read_call(transcript, b"--0");
    let facts = Facts {
        caller: &party,
        restricted: called.restricted,
        media: &called.media,
        now: called.now,
        diverted: false,
        abroad: false,
    };
    put_opening(transcript, flags, &facts, sheet);
    drop(party);
    drop(called);
}

/// By the target.
fn write_target(transcript: &mut Transcript, flags: &[u8], target: &[u8], sheet: &Sheet) {
    match read_uri(transcript.alloc, target) {
        Ok(uri) => write_opening(transcript, flags, uri, sheet),
        Err(_) => transcript.fail(),
    }
}

impl RowWriter for Opening {
    fn write_row(transcript: &mut Transcript, question: &[u8]) {
        let (flags, rest) = split_or_all(b'|', question);
        let (target, record) = split_or_all(b'|', rest);
        if let Some(sheet) = read_record(transcript, record) {
            write_target(transcript, flags, target, &sheet);
            drop(sheet);
        }
    }
}

/// Session and critical privacy; a user of no account; the caller's own barring, of a sip URI and of a number.
const OPENING: &[u8] = b"scbot|sip:bob@home.example|>critical 500
s-bot|sip:bob@home.example|>opens
-cbot|sip:bob@home.example|>opens
sc---|sip:bob@home.example|>critical 500
-----|sip:bob@home.example|>no-account 404
---o-|sip:bob@home.example|>opens
----t|sip:bob@home.example|>opens
--b--|sip:bob@home.example|>opens
--bot|sip:bob@home.example|outgoing-communication-barring = { rule = [{ one = [\"sip:bob@home.example\"], allow = false }] }>outgoing-barred 603
--bo-|tel:+4930-222|outgoing-communication-barring = { rule = [{ one = [\"tel:+4930222\"], allow = false }] }>outgoing-barred 603
--bot|sip:carol@home.example|outgoing-communication-barring = { rule = [{ one = [\"sip:bob@home.example\"], allow = false }] }>opens
--b-t|sip:bob@home.example|outgoing-communication-barring = { rule = [{ one = [\"sip:bob@home.example\"], allow = false }] }>opens
scbot|sip:bob@home.example|outgoing-communication-barring = { rule = [{ one = [\"sip:bob@home.example\"], allow = false }] }>critical 500
";

#[test]
fn refusals_at_the_opening(rt: HostRuntime) {
    assert_right(&rt, "OPENING", wrong_line::<Opening>(rt.alloc(), OPENING));
}
