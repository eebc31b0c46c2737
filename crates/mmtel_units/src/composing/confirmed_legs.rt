//! Legs in a dialog, early or confirmed: what is relayed in it, and their end.

use crate::asserting::assert_right;
use crate::composing::legs::own_address;
use crate::composing::received_messages::{OPENING, received_message, step_output, write_output};
use mmtel_compose::{ReceivedMessage, as_callee, attempt_dialogue, first_destination};
use mmtel_leg::{Asked, CalleeLeg, CallerLeg, Dialogue, Early, Ended, Released, Remote, Standing};
use mmtel_lex::List;
use mmtel_message::{Line, add_bytes};
use mmtel_output::StepOutput;
use mmtel_test_tables::Transcript;
use mmtel_transaction::TKey;
use mmtel_types::{Cause, Moment, Peer, Side};
use std::alloc::Global;

const RINGS: &[u8] = br##"SIP/2.0 183 Session Progress
Via: SIP/2.0/UDP 127.0.0.1:5060;branch=z9hG4bKx
From: "Anonymous" <sip:anonymous@anonymous.invalid>;tag=t2
To: <sip:bob@far.example>;tag=b
Call-ID: c2
CSeq: 1 INVITE
Contact: <sip:bob@127.0.0.1:5072>
Content-Type: text/plain
Content-Length: 2

hi"##;

const ACKED: &[u8] = br##"ACK sip:127.0.0.1:5060 SIP/2.0
Via: SIP/2.0/UDP 127.0.0.1:5071;branch=z9hG4bKa2
From: "Erin" <sip:erin@other.example>;tag=a
To: <sip:bob@far.example>;tag=t1
Call-ID: c1
CSeq: 7 ACK
Content-Length: 2

ok"##;

const GOES: &[u8] = br##"BYE sip:127.0.0.1:5060 SIP/2.0
Via: SIP/2.0/UDP 127.0.0.1:5071;branch=z9hG4bKa3
Max-Forwards: 1
From: "Erin" <sip:erin@other.example>;tag=a
To: <sip:bob@far.example>;tag=t1
Call-ID: c1
CSeq: 8 BYE
Reason: SIP;cause=200
Content-Length: 0

"##;

const TOLD: &[u8] = br##"reply 0
SIP/2.0 183 Session Progress
Via: SIP/2.0/UDP 127.0.0.1:5071;branch=z9hG4bKa1
From: "Erin" <sip:erin@other.example>;tag=a
To: <sip:bob@far.example>;tag=t1
Call-ID: c1
CSeq: 7 INVITE
Contact: <sip:127.0.0.1:5060>
Content-Type: text/plain
Content-Length: 2

hiplain 2
ACK sip:bob@127.0.0.1:5072 SIP/2.0
Via: SIP/2.0/UDP 127.0.0.1:5060;branch=z9hG4bK0123456789abcdef-1
Max-Forwards: 69
From: "Anonymous" <sip:anonymous@anonymous.invalid>;tag=t2
To: <sip:bob@far.example>;tag=b
Call-ID: c2
CSeq: 1 ACK
Content-Length: 2

okask 2
BYE sip:bob@127.0.0.1:5072 SIP/2.0
Via: SIP/2.0/UDP 127.0.0.1:5060;branch=z9hG4bK0123456789abcdef-2
Max-Forwards: 0
From: "Anonymous" <sip:anonymous@anonymous.invalid>;tag=t2
To: <sip:bob@far.example>;tag=b
Call-ID: c2
CSeq: 2 BYE
Reason: SIP;cause=200
Content-Length: 0

reply 3
SIP/2.0 200 OK
Via: SIP/2.0/UDP 127.0.0.1:5071;branch=z9hG4bKa3
From: "Erin" <sip:erin@other.example>;tag=a
To: <sip:bob@far.example>;tag=t1
Call-ID: c1
CSeq: 8 BYE
Content-Length: 0

plain 2
ACK sip:bob@127.0.0.1:5072 SIP/2.0
Via: SIP/2.0/UDP 127.0.0.1:5060;branch=z9hG4bK0123456789abcdef-3
Max-Forwards: 70
From: "Anonymous" <sip:anonymous@anonymous.invalid>;tag=t2
To: <sip:bob@far.example>;tag=b
Call-ID: c2
CSeq: 1 ACK
Content-Length: 0

ask 1
BYE sip:erin@127.0.0.1:5071 SIP/2.0
Via: SIP/2.0/UDP 127.0.0.1:5060;branch=z9hG4bK0123456789abcdef-4
Max-Forwards: 70
From: <sip:bob@far.example>;tag=t1
To: "Erin" <sip:erin@other.example>;tag=a
Call-ID: c1
CSeq: 1 BYE
Content-Length: 0

"##;

const PRACKED: &[u8] = br##"PRACK sip:127.0.0.1:5060 SIP/2.0
Via: SIP/2.0/UDP 127.0.0.1:5071;branch=z9hG4bKa4
Max-Forwards: 70
From: "Erin" <sip:erin@other.example>;tag=a
To: <sip:bob@far.example>;tag=t1
Call-ID: c1
CSeq: 8 PRACK
RAck: 1 7 INVITE
Content-Length: 0

"##;

const UPDATED: &[u8] = br##"UPDATE sip:127.0.0.1:5060 SIP/2.0
Via: SIP/2.0/UDP 127.0.0.1:5071;branch=z9hG4bKa5
Max-Forwards: 70
From: "Erin" <sip:erin@other.example>;tag=a
To: <sip:bob@far.example>;tag=t1
Call-ID: c1
CSeq: 9 UPDATE
Contact: <sip:erin@127.0.0.1:5071>
Content-Type: text/plain
Content-Length: 2

up"##;

/// The PRACK has no Contact, and the UPDATE that of the server (RFC 3262 §7, RFC 3311 §5.1).
const TOLD_EARLY: &[u8] = br##"ask 2
PRACK sip:bob@127.0.0.1:5072 SIP/2.0
Via: SIP/2.0/UDP 127.0.0.1:5060;branch=z9hG4bK0123456789abcdef-1
Max-Forwards: 69
From: "Anonymous" <sip:anonymous@anonymous.invalid>;tag=t2
To: <sip:bob@far.example>;tag=b
Call-ID: c2
CSeq: 2 PRACK
RAck: 900 1 INVITE
Content-Length: 0

ask 2
UPDATE sip:bob@127.0.0.1:5072 SIP/2.0
Via: SIP/2.0/UDP 127.0.0.1:5060;branch=z9hG4bK0123456789abcdef-2
Max-Forwards: 69
From: "Anonymous" <sip:anonymous@anonymous.invalid>;tag=t2
To: <sip:bob@far.example>;tag=b
Call-ID: c2
CSeq: 3 UPDATE
Contact: <sip:127.0.0.1:5060>
Content-Type: text/plain
Content-Length: 2

up"##;

/// A list of one header field.
fn line(transcript: &mut Transcript, name: &[u8], value: &[u8]) -> List<Line> {
    let mut lines = List::new();
    let added = add_bytes(transcript.alloc, &mut lines, name, value);
    transcript.value_or_fail(added);
    lines
}

/// The dialog of the INVITE that is offered.
fn dialogue(transcript: &mut Transcript, opening: &ReceivedMessage) -> Option<Dialogue> {
    let aim = first_destination(transcript.alloc, Peer(2), &[], opening);
    let aim = transcript.value_or_fail(aim)?;
    let call_id = transcript.copy(b"c2");
    let tag = transcript.copy(b"t2");
    let calling = attempt_dialogue(transcript.alloc, aim, opening, true, call_id, tag);
    let calling = transcript.value_or_fail(calling)?;
    Some(as_callee(calling))
}

/// The leg to which the INVITE was offered, once this response was received.
fn callee(
    transcript: &mut Transcript,
    opening: &ReceivedMessage,
    answer: &ReceivedMessage,
) -> Option<CalleeLeg<Standing>> {
    let remote = Remote::read(transcript.alloc, &answer.message, Side::Callee);
    let remote = transcript.value_or_fail(remote)?;
    match dialogue(transcript, opening) {
        Some(dialogue) => Some(CalleeLeg::<Asked>::initial(dialogue, None).stand(remote)),
        None => {
            drop(remote);
            None
        }
    }
}

/// The leg to which the INVITE was offered, once this ringing response to it was received.
fn early_callee(
    transcript: &mut Transcript,
    opening: &ReceivedMessage,
    answer: &ReceivedMessage,
) -> Option<CalleeLeg<Early>> {
    let remote = Remote::read(transcript.alloc, &answer.message, Side::Callee);
    let remote = transcript.value_or_fail(remote)?;
    match dialogue(transcript, opening) {
        Some(dialogue) => Some(CalleeLeg::<Asked>::initial(dialogue, None).early(remote)),
        None => {
            drop(remote);
            None
        }
    }
}

/// The leg of the caller, which is confirmed from the opening on.
fn caller(transcript: &mut Transcript, opening: &ReceivedMessage) -> Option<CallerLeg<Standing>> {
    let tag = transcript.copy(b"t1");
    match CallerLeg::<Standing>::open(transcript.alloc, Peer(1), &opening.message, tag, None) {
        Ok(leg) => Some(leg),
        Err((meter, _)) => {
            end(transcript, Ended { meter });
            transcript.fail();
            None
        }
    }
}

/// The moment of 0 milliseconds.
fn first_moment() -> Moment {
    match Moment::new(0) {
        Some(moment) => moment,
        None => unreachable!(),
    }
}

/// Ends a leg, and a meter that ran for it.
fn end(transcript: &mut Transcript, ended: Ended) {
    let Ended { meter } = ended;
    match meter {
        Some(meter) => {
            let _row = meter.close(first_moment(), 0, Cause::Ended);
            transcript.fail();
        }
        None => {}
    }
}

/// The requests to the callee's leg: the caller's ACK, its BYE, and an ACK of the server's own.
fn ask_callee(transcript: &mut Transcript, desk: &mut StepOutput, leg: &mut CalleeLeg<Standing>) {
    let ack = received_message(transcript, ACKED, 1, 5071, true);
    let done = desk.relay_ack(transcript.alloc, own_address(), leg, &List::new(), &ack);
    drop(ack);
    transcript.value_or_fail(done);
    let bye = received_message(transcript, GOES, 1, 5071, true);
    let passed = line(transcript, b"Reason", b"SIP;cause=200");
    let done = desk.relay_request(transcript.alloc, own_address(), b"BYE", leg, &passed, &bye);
    drop(passed);
    transcript.value_or_fail(done);
    let done = desk.respond_with_status(transcript.alloc, own_address(), TKey(3), &bye, b"", 200);
    drop(bye);
    transcript.value_or_fail(done);
    let done = desk.acknowledge(transcript.alloc, own_address(), leg);
    transcript.value_or_fail(done);
}

/// Writes the call's two legs: the requests to the callee's, and the end of the caller's.
fn write_legs(
    transcript: &mut Transcript,
    desk: &mut StepOutput,
    opening: &ReceivedMessage,
    rings: &ReceivedMessage,
) {
    if let Some(leg) = callee(transcript, opening, rings) {
        let mut leg = leg;
        ask_callee(transcript, desk, &mut leg);
        end(transcript, Released::Callee(leg).leave());
    }
    if let Some(leg) = caller(transcript, opening) {
        let mut leg = leg;
        let done = desk.send_bye(transcript.alloc, own_address(), &mut leg);
        transcript.value_or_fail(done);
        end(transcript, Released::Caller(leg).leave());
    }
}

/// A response with its body that is relayed to the caller, the ACK and the BYE that are relayed to the callee, an ACK of the server's own, and the BYE to a caller's leg that is
/// confirmed from the opening on. An ACK without Max-Forwards has 69 left, a BYE of one hop none.
fn wrong_relays(alloc: Global) -> usize {
    let mut transcript = Transcript::new(alloc);
    let opening = received_message(&mut transcript, OPENING, 1, 5071, true);
    let rings = received_message(&mut transcript, RINGS, 2, 5072, false);
    let mut desk = step_output(&mut transcript);
    let passed = line(&mut transcript, b"Content-Type", b"text/plain");
    let done = desk.relay_response(
        alloc,
        own_address(),
        TKey(0),
        &opening,
        b"t1",
        passed.items(),
        &rings,
    );
    drop(passed);
    transcript.value_or_fail(done);
    write_legs(&mut transcript, &mut desk, &opening, &rings);
    drop(opening);
    drop(rings);
    write_output(&mut transcript, &desk);
    drop(desk);
    transcript.wrong_line(TOLD)
}

/// Sends the caller's request, with this header field of it, in an early leg.
fn ask_early(
    transcript: &mut Transcript,
    desk: &mut StepOutput,
    leg: &mut CalleeLeg<Early>,
    method: &[u8],
    heard: &[u8],
    name: &[u8],
    value: &[u8],
) {
    let request = received_message(transcript, heard, 1, 5071, true);
    let passed = line(transcript, name, value);
    let done = desk.relay_request(
        transcript.alloc,
        own_address(),
        method,
        leg,
        &passed,
        &request,
    );
    drop(passed);
    drop(request);
    transcript.value_or_fail(done);
}

/// The requests in an early dialog: the caller's PRACK and its UPDATE, with the numbers after that of the INVITE (RFC 3261 §12.2.1.1).
fn wrong_early(alloc: Global) -> usize {
    let mut transcript = Transcript::new(alloc);
    let opening = received_message(&mut transcript, OPENING, 1, 5071, true);
    let rings = received_message(&mut transcript, RINGS, 2, 5072, false);
    let mut desk = step_output(&mut transcript);
    if let Some(leg) = early_callee(&mut transcript, &opening, &rings) {
        let mut leg = leg;
        ask_early(
            &mut transcript,
            &mut desk,
            &mut leg,
            b"PRACK",
            PRACKED,
            b"RAck",
            b"900 1 INVITE",
        );
        ask_early(
            &mut transcript,
            &mut desk,
            &mut leg,
            b"UPDATE",
            UPDATED,
            b"Content-Type",
            b"text/plain",
        );
        let ended = leg.leave();
        end(&mut transcript, ended);
    }
    drop(opening);
    drop(rings);
    write_output(&mut transcript, &desk);
    drop(desk);
    transcript.wrong_line(TOLD_EARLY)
}

#[test]
fn asks_early_dialogs(rt: HostRuntime) {
    assert_right(&rt, "early dialogs", wrong_early(rt.alloc()));
}

#[test]
fn relays(rt: HostRuntime) {
    assert_right(&rt, "relays", wrong_relays(rt.alloc()));
}
