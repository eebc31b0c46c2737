//! An attempt from its offer to its end, and late responses.

use crate::asserting::assert_right;
use crate::composing::legs::own_address;
use crate::composing::received_messages::{OPENING, received_message, step_output, write_output};
use mmtel_compose::{
    Destination, OwnResponse, ReceivedMessage, diverted_destination, first_destination,
    retry_after_lines,
};
use mmtel_lex::{List, Text, Uri, read_uri};
use mmtel_message::{Line, add_bytes};
use mmtel_output::{
    AbandonedInvite, AttemptInvite, SentInvite, StepOutput, abandoned_at, invite_after_cancel,
};
use mmtel_test_tables::Transcript;
use mmtel_transaction::TKey;
use mmtel_types::Peer;
use std::alloc::Global;

const GIVEN_UP: &[u8] = br##"CANCEL sip:bob@far.example SIP/2.0
Via: SIP/2.0/UDP 127.0.0.1:5071;branch=z9hG4bKa1
Max-Forwards: 68
From: "Erin" <sip:erin@other.example>;tag=a
To: <sip:bob@far.example>
Call-ID: c1
CSeq: 7 CANCEL
Content-Length: 0

"##;

const TRYING: &[u8] = br##"SIP/2.0 100 Trying
Via: SIP/2.0/UDP 127.0.0.1:5060;branch=z9hG4bK0123456789abcdef-4
From: "Anonymous" <sip:anonymous@anonymous.invalid>;tag=0123456789abcdef-3
To: <sip:bob@far.example>
Call-ID: 0123456789abcdef-2
CSeq: 1 INVITE
Content-Length: 0

"##;

const ANSWERED: &[u8] = br##"SIP/2.0 200 OK
Via: SIP/2.0/UDP 127.0.0.1:5060;branch=z9hG4bK0123456789abcdef-4
Record-Route: <sip:p2.far.example;lr>, <sip:p1.far.example;lr>
From: "Anonymous" <sip:anonymous@anonymous.invalid>;tag=0123456789abcdef-3
To: <sip:bob@far.example>;tag=b
Call-ID: 0123456789abcdef-2
CSeq: 1 INVITE
Contact: <sip:bob@127.0.0.1:5072>
Content-Length: 0

"##;

const MOVED: &[u8] = br##"SIP/2.0 302 Moved Temporarily
Via: SIP/2.0/UDP 127.0.0.1:5060;branch=z9hG4bK0123456789abcdef-4
From: "Anonymous" <sip:anonymous@anonymous.invalid>;tag=0123456789abcdef-3
To: "Bob" <sip:bob@far.example>;tag=b2
Call-ID: 0123456789abcdef-2
CSeq: 1 INVITE
Contact: <sip:vm@far.example>
Content-Length: 0

"##;

/// Offers the call to the first target; returns the INVITE.
fn offered(
    transcript: &mut Transcript,
    desk: &mut StepOutput,
    opening: &ReceivedMessage,
) -> Option<SentInvite> {
    let aim = first_destination(transcript.alloc, Peer(2), &[], opening);
    let aim = transcript.value_or_fail(aim)?;
    let attempt = AttemptInvite {
        opening,
        restricted: true,
        passed: &[],
        waiting: false,
    };
    let sent = desk.send_attempt_invite(transcript.alloc, own_address(), aim, attempt);
    transcript.value_or_fail(sent)
}

/// The call is opened and offered: its tag is drawn, it has a 100, and the INVITE is sent.
fn begin(
    transcript: &mut Transcript,
    desk: &mut StepOutput,
    opening: &ReceivedMessage,
) -> Option<SentInvite> {
    let tag = desk.draw(transcript.alloc);
    let tag = transcript.value_or_fail(tag)?;
    let trying = desk.respond_with_status(
        transcript.alloc,
        own_address(),
        TKey(0),
        opening,
        tag.bytes(),
        100,
    );
    drop(tag);
    transcript.value_or_fail(trying);
    offered(transcript, desk, opening)
}

/// The caller abandons the call: 200 for the CANCEL, 487 for the INVITE, and no CANCEL is sent before a provisional response was received.
fn give_up(
    transcript: &mut Transcript,
    desk: &mut StepOutput,
    opening: &ReceivedMessage,
    sent: &SentInvite,
) {
    let cancel = received_message(transcript, GIVEN_UP, 1, 5071, true);
    let tag = b"0123456789abcdef-1";
    let done = desk.respond_with_status(
        transcript.alloc,
        own_address(),
        TKey(2),
        &cancel,
        tag,
        200,
    );
    drop(cancel);
    transcript.value_or_fail(done);
    let done = desk.respond_with_status(
        transcript.alloc,
        own_address(),
        TKey(0),
        opening,
        tag,
        487,
    );
    transcript.value_or_fail(done);
    let done = desk.cancel(transcript.alloc, own_address(), sent);
    transcript.value_or_fail(done);
}

/// A late response.
fn late(
    transcript: &mut Transcript,
    desk: &mut StepOutput,
    loose: AbandonedInvite,
    lines: &[u8],
) -> Option<AbandonedInvite> {
    let heard = received_message(transcript, lines, 2, 5072, false);
    let left = desk.receive_abandoned(transcript.alloc, own_address(), TKey(1), loose, &heard);
    drop(heard);
    transcript.value_or_fail(left)?
}

fn late_all(
    transcript: &mut Transcript,
    desk: &mut StepOutput,
    loose: AbandonedInvite,
) -> Option<AbandonedInvite> {
    let loose = late(transcript, desk, loose, TRYING)?;
    let loose = late(transcript, desk, loose, ANSWERED)?;
    let loose = late(transcript, desk, loose, ANSWERED)?;
    late(transcript, desk, loose, MOVED)
}

const GIVEN_UP_TOLD: &[u8] = br##"reply 0
SIP/2.0 100 Trying
Via: SIP/2.0/UDP 127.0.0.1:5071;branch=z9hG4bKa1
From: "Erin" <sip:erin@other.example>;tag=a
To: <sip:bob@far.example>
Call-ID: c1
CSeq: 7 INVITE
Content-Length: 0

ask 2
INVITE sip:bob@far.example SIP/2.0
Via: SIP/2.0/UDP 127.0.0.1:5060;branch=z9hG4bK0123456789abcdef-4
Max-Forwards: 67
From: "Anonymous" <sip:anonymous@anonymous.invalid>;tag=0123456789abcdef-3
To: <sip:bob@far.example>
Call-ID: 0123456789abcdef-2
CSeq: 1 INVITE
Contact: <sip:127.0.0.1:5060>
Content-Length: 0

reply 2
SIP/2.0 200 OK
Via: SIP/2.0/UDP 127.0.0.1:5071;branch=z9hG4bKa1
From: "Erin" <sip:erin@other.example>;tag=a
To: <sip:bob@far.example>;tag=0123456789abcdef-1
Call-ID: c1
CSeq: 7 CANCEL
Content-Length: 0

reply 0
SIP/2.0 487 Request Terminated
Via: SIP/2.0/UDP 127.0.0.1:5071;branch=z9hG4bKa1
From: "Erin" <sip:erin@other.example>;tag=a
To: <sip:bob@far.example>;tag=0123456789abcdef-1
Call-ID: c1
CSeq: 7 INVITE
Content-Length: 0

ask 2
CANCEL sip:bob@far.example SIP/2.0
Via: SIP/2.0/UDP 127.0.0.1:5060;branch=z9hG4bK0123456789abcdef-4
Max-Forwards: 70
From: "Anonymous" <sip:anonymous@anonymous.invalid>;tag=0123456789abcdef-3
To: <sip:bob@far.example>
Call-ID: 0123456789abcdef-2
CSeq: 1 CANCEL
Content-Length: 0

plain 2
ACK sip:bob@127.0.0.1:5072 SIP/2.0
Via: SIP/2.0/UDP 127.0.0.1:5060;branch=z9hG4bK0123456789abcdef-5
Route: <sip:p1.far.example;lr>
Route: <sip:p2.far.example;lr>
Max-Forwards: 70
From: "Anonymous" <sip:anonymous@anonymous.invalid>;tag=0123456789abcdef-3
To: <sip:bob@far.example>;tag=b
Call-ID: 0123456789abcdef-2
CSeq: 1 ACK
Content-Length: 0

ask 2
BYE sip:bob@127.0.0.1:5072 SIP/2.0
Via: SIP/2.0/UDP 127.0.0.1:5060;branch=z9hG4bK0123456789abcdef-6
Route: <sip:p1.far.example;lr>
Route: <sip:p2.far.example;lr>
Max-Forwards: 70
From: "Anonymous" <sip:anonymous@anonymous.invalid>;tag=0123456789abcdef-3
To: <sip:bob@far.example>;tag=b
Call-ID: 0123456789abcdef-2
CSeq: 2 BYE
Content-Length: 0

plain 2
ACK sip:bob@127.0.0.1:5072 SIP/2.0
Via: SIP/2.0/UDP 127.0.0.1:5060;branch=z9hG4bK0123456789abcdef-7
Route: <sip:p1.far.example;lr>
Route: <sip:p2.far.example;lr>
Max-Forwards: 70
From: "Anonymous" <sip:anonymous@anonymous.invalid>;tag=0123456789abcdef-3
To: <sip:bob@far.example>;tag=b
Call-ID: 0123456789abcdef-2
CSeq: 1 ACK
Content-Length: 0

ack 1
ACK sip:bob@far.example SIP/2.0
Via: SIP/2.0/UDP 127.0.0.1:5060;branch=z9hG4bK0123456789abcdef-4
Max-Forwards: 70
From: "Anonymous" <sip:anonymous@anonymous.invalid>;tag=0123456789abcdef-3
To: "Bob" <sip:bob@far.example>;tag=b2
Call-ID: 0123456789abcdef-2
CSeq: 1 ACK
Content-Length: 0

nothing is left
"##;

/// A restricted call to an untrusted peer; the caller abandons it before any response was received. After a late 100 the CANCEL is sent, a late 2xx has ACK and BYE, the same 2xx
/// again an ACK alone, and a late 302 its ACK, after which nothing remains (RFC 3261 §9.1, §13.2.2.4, §17.1.1.3).
fn wrong_gives_up(alloc: Global) -> usize {
    let mut transcript = Transcript::new(alloc);
    let opening = received_message(&mut transcript, OPENING, 1, 5071, true);
    let mut desk = step_output(&mut transcript);
    if let Some(sent) = begin(&mut transcript, &mut desk, &opening) {
        give_up(&mut transcript, &mut desk, &opening, &sent);
        let invitation = invite_after_cancel(sent);
        let loose = AbandonedInvite {
            invite: invitation,
            in_dialog: false,
        };
        let left = late_all(&mut transcript, &mut desk, loose);
        transcript.fail_unless(left.is_none());
        drop(left);
    }
    drop(opening);
    write_output(&mut transcript, &desk);
    drop(desk);
    transcript.add(b"nothing is left\n");
    transcript.wrong_line(GIVEN_UP_TOLD)
}

#[test]
fn gives_up(rt: HostRuntime) {
    assert_right(&rt, "gives_up", wrong_gives_up(rt.alloc()));
}

/// An INVITE of a caller without restriction, with a Route value that is kept and a header field that is passed on.
const OPEN: &[u8] = br##"INVITE tel:+4930111 SIP/2.0
Via: SIP/2.0/UDP h;rport;branch=z9hG4bKa2
Max-Forwards: 0
From: sip:alice@home.example;tag=a
To: "Carol" <sip:carol@home.example>;x=y
Call-ID: c2
CSeq: 1 INVITE
Contact: <sip:alice@127.0.0.1:5071>
Content-Type: text/plain
Content-Length: 2

hi"##;

const DIVERTED_TOLD: &[u8] = br##"ask 3
INVITE sip:vm@far.example;x=y;cause=486 SIP/2.0
Via: SIP/2.0/UDP 127.0.0.1:5060;branch=z9hG4bK0123456789abcdef-3
Route: <sip:odi-7@home.example;lr>
Max-Forwards: 0
From: <sip:alice@home.example>;tag=0123456789abcdef-2
To: <sip:vm@far.example;x=y>
Call-ID: 0123456789abcdef-1
CSeq: 1 INVITE
Contact: <sip:127.0.0.1:5060>
Content-Type: text/plain
Alert-Info: <urn:alert:service:call-waiting>
Content-Length: 2

hiask 2
INVITE tel:+4930111 SIP/2.0
Via: SIP/2.0/UDP 127.0.0.1:5060;branch=z9hG4bK0123456789abcdef-6
Max-Forwards: 0
From: <sip:alice@home.example>;tag=0123456789abcdef-5
To: "Carol" <sip:carol@home.example>
Call-ID: 0123456789abcdef-4
CSeq: 1 INVITE
Contact: <sip:127.0.0.1:5060>
Content-Length: 2

hireply 0
SIP/2.0 500 Server Internal Error
Via: SIP/2.0/UDP h;rport=5071;branch=z9hG4bKa2;received=127.0.0.1
From: sip:alice@home.example;tag=a
To: "Carol" <sip:carol@home.example>;x=y;tag=0123456789abcdef-7
Call-ID: c2
CSeq: 1 INVITE
Retry-After: 5
Content-Length: 0

place 1
"##;

/// The Route value that is kept.
fn kept_route(transcript: &mut Transcript) -> List<Text> {
    let mut routes = List::new();
    let route = transcript.copy(b"<sip:odi-7@home.example;lr>");
    let pushed = routes.push(transcript.alloc, route);
    transcript.fail_unless(pushed.is_ok());
    routes
}

/// The header field that is passed on.
fn passed_line(transcript: &mut Transcript) -> List<Line> {
    let mut passed = List::new();
    let added = add_bytes(
        transcript.alloc,
        &mut passed,
        b"Content-Type",
        b"text/plain",
    );
    transcript.fail_unless(added.is_ok());
    passed
}

/// The destination of the diverted attempt.
fn aim_at(transcript: &mut Transcript, target: &Uri) -> Option<Destination> {
    let routes = kept_route(transcript);
    let aim = diverted_destination(transcript.alloc, Peer(3), routes.items(), target, 486);
    drop(routes);
    transcript.value_or_fail(aim)
}

fn diverted(transcript: &mut Transcript) -> Option<Destination> {
    let target = read_uri(transcript.alloc, b"sip:vm@far.example;x=y;cause=302");
    let target = transcript.value_or_fail(target)?;
    let aim = aim_at(transcript, &target);
    drop(target);
    aim
}

fn offer_diverted(
    transcript: &mut Transcript,
    desk: &mut StepOutput,
    open: &ReceivedMessage,
) -> Option<SentInvite> {
    let aim = diverted(transcript)?;
    let passed = passed_line(transcript);
    let attempt = AttemptInvite {
        opening: open,
        restricted: false,
        passed: passed.items(),
        waiting: true,
    };
    let sent = desk.send_attempt_invite(transcript.alloc, own_address(), aim, attempt);
    drop(passed);
    transcript.value_or_fail(sent)
}

fn offer_first(
    transcript: &mut Transcript,
    desk: &mut StepOutput,
    open: &ReceivedMessage,
) -> Option<SentInvite> {
    let aim = first_destination(transcript.alloc, Peer(2), &[], open);
    let aim = transcript.value_or_fail(aim)?;
    let attempt = AttemptInvite {
        opening: open,
        restricted: false,
        passed: &[],
        waiting: false,
    };
    let sent = desk.send_attempt_invite(transcript.alloc, own_address(), aim, attempt);
    transcript.value_or_fail(sent)
}

/// Keeps an INVITE that was abandoned.
fn leave(transcript: &mut Transcript, loose: &mut List<AbandonedInvite>, sent: Option<SentInvite>) {
    if let Some(invitation) = sent {
        let left = AbandonedInvite {
            invite: invitation,
            in_dialog: false,
        };
        let kept = loose.push(transcript.alloc, left);
        transcript.value_or_fail(kept);
    }
}

/// Refuses with a tag and these header fields.
fn refuse_by(
    transcript: &mut Transcript,
    desk: &mut StepOutput,
    open: &ReceivedMessage,
    tag: &[u8],
    named: &List<Line>,
) {
    let own = OwnResponse {
        code: 500,
        passed: &[],
        named: named.items(),
        body: b"",
    };
    let done = desk.respond(transcript.alloc, own_address(), TKey(0), open, tag, own);
    transcript.fail_unless(done.is_ok());
}

/// Refuses, with Retry-After.
fn refuse(transcript: &mut Transcript, desk: &mut StepOutput, open: &ReceivedMessage) {
    let tag = desk.draw(transcript.alloc);
    let tag = transcript.text_or_fail(tag);
    let named = retry_after_lines(transcript.alloc);
    if let Some(named) = transcript.value_or_fail(named) {
        refuse_by(transcript, desk, open, tag.bytes(), &named);
        drop(named);
    }
    drop(tag);
}

/// Writes the index of the abandoned INVITE of a branch.
fn write_span(transcript: &mut Transcript, loose: &List<AbandonedInvite>) {
    if let Some(place) = abandoned_at(loose.items(), b"0123456789abcdef-6") {
        transcript.add(b"place ");
        transcript.add_number(place as u64);
        transcript.add(b"\n");
    }
}

/// A diverted attempt, which waits at its target, and a first one of a caller without restriction, both without hops remaining; a refusal with its header field; and which
/// abandoned INVITE has a branch.
fn wrong_diverts(alloc: Global) -> usize {
    let mut transcript = Transcript::new(alloc);
    let open = received_message(&mut transcript, OPEN, 1, 5071, true);
    let mut desk = step_output(&mut transcript);
    let mut loose = List::new();
    let sent = offer_diverted(&mut transcript, &mut desk, &open);
    leave(&mut transcript, &mut loose, sent);
    let sent = offer_first(&mut transcript, &mut desk, &open);
    leave(&mut transcript, &mut loose, sent);
    refuse(&mut transcript, &mut desk, &open);
    drop(open);
    write_output(&mut transcript, &desk);
    drop(desk);
    write_span(&mut transcript, &loose);
    drop(loose);
    transcript.wrong_line(DIVERTED_TOLD)
}

#[test]
fn diverts(rt: HostRuntime) {
    assert_right(&rt, "diverts", wrong_diverts(rt.alloc()));
}
