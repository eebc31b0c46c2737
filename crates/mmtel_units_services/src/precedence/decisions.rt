//! Decisions of whole calls.

use crate::asserting::assert_right;
use crate::precedence::records::{Called, facts, numbers, read_call, read_ending, read_record};
use crate::precedence::reports::{RowWriter, put_cause, put_code, put_uri, wrong_row};
use mmtel_precedence::{CallFacts, Verdict, go_on, verdict};
use mmtel_sheet_values::Forward;
use mmtel_test_tables::{Transcript, split_or_all};

fn put_diversion(transcript: &mut Transcript, forward: Option<&Forward>, cause: u16) {
    put_code(transcript, b"divert", cause);
    if let Some(forward) = forward {
        transcript.add(b" ");
        put_uri(transcript, &forward.target);
    }
}

/// Writes a verdict as `offer`, `wait`, `divert CAUSE URI`, `divert CAUSE` for a deflection, or `WORD STATUS`.
fn put_verdict(transcript: &mut Transcript, verdict: &Verdict) {
    match verdict {
        Verdict::Offer { waiting: false } => transcript.add(b"offer"),
        Verdict::Offer { waiting: true } => transcript.add(b"wait"),
        Verdict::Divert { forward, cause } => put_diversion(transcript, *forward, *cause),
        Verdict::Refuse(cause) => put_cause(transcript, cause),
    }
}

/// Writes the result of `verdict`.
fn write_verdict(transcript: &mut Transcript, ending: &[u8], called: &Called, record: &[u8]) {
    let ending = read_ending(transcript, ending);
    let call = CallFacts {
        facts: facts(called),
        registered: called.registered,
        live: called.live,
    };
    if let Some(sheet) = read_record(transcript, record) {
        put_verdict(transcript, &verdict(&call, &sheet, ending));
        drop(sheet);
    }
}

/// Evaluates the verdict: the event, the call, the record.
struct Verdicts;

impl RowWriter for Verdicts {
    fn write_row(transcript: &mut Transcript, question: &[u8]) {
        let (ending, rest) = split_or_all(b'|', question);
        let (call, record) = split_or_all(b'|', rest);
        let called = read_call(transcript, call);
        write_verdict(transcript, ending, &called, record);
        drop(called);
    }
}

/// Writes the result of `go_on`: `made`, or the refusal.
fn write_due_diversion(transcript: &mut Transcript, counts: &[u8], record: &[u8], target: &Called) {
    let (received, done, bound, cause) = numbers(transcript, counts);
    if let Some(sheet) = read_record(transcript, record) {
        match go_on(&sheet, &facts(target), received, done, bound, cause) {
            None => transcript.add(b"made"),
            Some(refusal) => put_cause(transcript, &refusal),
        }
        drop(sheet);
    }
}

/// Evaluates whether a diversion is made: the causes received, the diversions made, the bound and the cause of the one that is due; the record of the account that diverts; the new
/// target.
struct Diversions;

impl RowWriter for Diversions {
    fn write_row(transcript: &mut Transcript, question: &[u8]) {
        let (counts, rest) = split_or_all(b'|', question);
        let (record, target) = split_or_all(b'|', rest);
        let target = read_call(transcript, target);
        write_due_diversion(transcript, counts, record, &target);
        drop(target);
    }
}

/// Anonymous rejection before diversion, two diversions, waiting, registration, deflection, and endings.
const VERDICTS: &[u8] = b"# Erin hides who she is, or has no identity to hide.
anonymous 433|arrived|r-0sip:erin@other.example|communication-diversion={rule=[{target='sip:vm@far.example'}]};incoming-communication-barring={reject-anonymous=true}
divert 302 sip:vm@far.example|arrived|--0sip:erin@other.net|communication-diversion={rule=[{target='sip:vm@far.example'}]};incoming-communication-barring={reject-anonymous=true}
divert 302 sip:vm@far.example|arrived|r-0|communication-diversion = { rule = [{ target = \"sip:vm@far.example\" }] };incoming-communication-barring = { reject-anonymous = true }
anonymous 433|arrived|ru1sip:erin@other.example|incoming-communication-barring = { reject-anonymous = true, rule = [{ allow = false }] }
incoming-barred 603|arrived|--0sip:erin@other.example|communication-diversion={rule=[{target='sip:vm@far.example'}]};incoming-communication-barring={rule=[{allow=false}]}
offer|arrived|--0sip:alice@home.example|incoming-communication-barring = { rule = [{ allow = false }, { one = [\"sip:alice@home.example\"], allow = true }] }
# Bob diverts to carol, who may have one call, has it, and diverts on busy.
divert 302 sip:carol@home.example|arrived|--0|communication-diversion = { rule = [{ target = \"sip:carol@home.example\" }] }
divert 486 sip:vm@far.example|arrived|--1|communication-diversion = { rule = [{ busy = true, target = \"sip:vm@far.example\" }] }
offer|arrived|--0|communication-diversion = { rule = [{ busy = true, target = \"sip:vm@far.example\" }] }
network-busy 486|arrived|--1|communication-diversion = { rule = [{ no-answer = true, target = \"sip:vm@far.example\" }] }
# Calls of a user who may have several: the next one waits, until there are as many as may be.
wait|arrived|--1|communication-diversion = { rule = [{ busy = true, target = \"sip:vm@far.example\" }] };communication-waiting = { calls = 2 }
divert 486 sip:vm@far.example|arrived|--2|communication-diversion = { rule = [{ busy = true, target = \"sip:vm@far.example\" }] };communication-waiting = { calls = 2 }
network-busy 486|arrived|--2|communication-waiting = { calls = 2 }
wait|arrived|--7|communication-waiting = { calls = 8 }
network-busy 486|arrived|--9|communication-waiting = { calls = 8 }
network-busy 486|arrived|--8|communication-waiting = { calls = 8 }
offer|arrived|--0|communication-waiting = { calls = 8 }
network-busy 486|arrived|--1|
network-busy 486|arrived|--1|communication-waiting = { active = false, calls = 8 }
incoming-barred 603|arrived|--2|communication-waiting = { calls = 2 };incoming-communication-barring = { rule = [{ allow = false }] }
# A user who is not registered.
not-registered 480|arrived|-u0|
divert 404 sip:vm@far.example|arrived|-u0|communication-diversion = { rule = [{ not-registered = true, target = \"sip:vm@far.example\" }] }
offer|arrived|--0|communication-diversion = { rule = [{ not-registered = true, target = \"sip:vm@far.example\" }] }
not-registered 480|arrived|-u1|communication-diversion = { rule = [{ busy = true, target = \"sip:carol@home.example\" }] }
divert 302 sip:vm@far.example|arrived|-u1|communication-diversion = { rule = [{ target = \"sip:vm@far.example\" }] }
divert 404 sip:vm@far.example|arrived|-u0|communication-diversion={rule=[{not-registered=true,target='sip:vm@far.example'},{target='sip:carol@home.example'}]}
divert 302 sip:carol@home.example|arrived|--0|communication-diversion={rule=[{not-registered=true,target='sip:vm@far.example'},{target='sip:carol@home.example'}]}
divert 302 sip:carol@home.example|arrived|-u0|communication-diversion={rule=[{target='sip:carol@home.example'},{not-registered=true,target='sip:vm@far.example'}]}
incoming-barred 603|arrived|-u0|communication-diversion={rule=[{not-registered=true,target='sip:vm@far.example'}]};incoming-communication-barring={rule=[{allow=false}]}
# The user's device diverts the call, before it rings or after.
divert 480|deflected|--0|communication-diversion = { deflection = true }
divert 487|alerted|--0|communication-diversion = { deflection = true }
relayed 480|deflected|--0|communication-diversion = { rule = [{ target = \"sip:vm@far.example\" }] }
relayed 480|alerted|--0|
# What becomes of a call that was offered.
divert 486 sip:vm@far.example|busy 486|--0|communication-diversion = { rule = [{ busy = true, target = \"sip:vm@far.example\" }] }
relayed 600|busy 600|--0|communication-diversion = { rule = [{ no-answer = true, target = \"sip:vm@far.example\" }, { target = \"sip:vm@far.example\" }] }
divert 503 sip:vm@far.example|silent 408|--0|communication-diversion = { rule = [{ not-reachable = true, target = \"sip:vm@far.example\" }] }
unreachable 503|silent 503|--0|communication-diversion = { rule = [{ no-answer = true, target = \"sip:vm@far.example\" }] }
divert 408 sip:vm@far.example|no-reply|--0|communication-diversion = { rule = [{ no-answer = true, target = \"sip:vm@far.example\" }] }
no-reply 480|no-reply|--0|communication-diversion = { rule = [{ not-reachable = true, target = \"sip:vm@far.example\" }] }
relayed 404|other 404|--0|communication-diversion = { rule = [{ target = \"sip:vm@far.example\" }, { busy = true, target = \"sip:vm@far.example\" }] }
";

#[test]
fn tells_verdicts(rt: HostRuntime) {
    assert_right(&rt, "VERDICTS", wrong_row::<Verdicts>(rt.alloc(), VERDICTS));
}

/// Received causes count against the bound; bound zero and a diversion loop; outgoing barring before a diversion.
const DIVERSIONS: &[u8] =
    b"# Five causes were received, or four, and the diversion is for a busy user or an unconditional one.
too-many-diversions 486|5 0 5 486||--0sip:vm@far.example
too-many-diversions 480|5 0 5 302||--0sip:vm@far.example
made|4 0 5 486||--0sip:vm@far.example
made|4 0 5 302||--0sip:vm@far.example
too-many-diversions 480|3 2 5 408||--0sip:vm@far.example
made|3 1 5 408||--0sip:vm@far.example
too-many-diversions 486|3 2 5 486||--0sip:vm@far.example
made|15 0 16 404||--0sip:vm@far.example
too-many-diversions 480|32 0 16 487||--0sip:vm@far.example
too-many-diversions 480|60000 60000 16 302||--0sip:vm@far.example
# The bound is zero; and bob diverts to himself.
too-many-diversions 480|0 0 0 302||--0sip:vm@far.example
made|0 4 5 302||--0sip:bob@home.example
too-many-diversions 480|0 5 5 302||--0sip:bob@home.example
# The diverting user's own barring of outgoing calls comes before the bound.
outgoing-barred 603|0 0 5 302|outgoing-communication-barring = { rule = [{ one = [\"sip:vm@far.example\"], allow = false }] }|--0sip:vm@far.example
outgoing-barred 603|5 0 5 486|outgoing-communication-barring = { rule = [{ one = [\"sip:vm@far.example\"], allow = false }] }|--0sip:vm@far.example
made|0 0 5 302|outgoing-communication-barring = { rule = [{ one = [\"sip:carol@home.example\"], allow = false }] }|--0sip:vm@far.example
made|0 0 5 302|incoming-communication-barring = { rule = [{ allow = false }] }|--0sip:vm@far.example
";

#[test]
fn tells_diversions(rt: HostRuntime) {
    assert_right(
        &rt,
        "DIVERSIONS",
        wrong_row::<Diversions>(rt.alloc(), DIVERSIONS),
    );
}
