//! Requests and ACKs of legs, byte for byte.

use crate::asserting::assert_right;
use crate::composing::legs::{
    ANSWER, CAME, OFFERED, WritesLeg, own_address, remote_in, write_answered, write_leg,
    write_meter,
};
use crate::messages::drafts::{message_of_lines, write_message};
use mmtel_base::{List, NoMemory, Text};
use mmtel_leg::{
    Asked, CalleeLeg, Dialogue, Ended, LegOf, RequestParts, Standing, request_numbered,
};
use mmtel_message::{Line, Msg, add_bytes};
use mmtel_test_tables::Transcript;
use mmtel_types::{Peer, Side};
use std::alloc::Global;

/// Adds a header field to be copied.
fn show(transcript: &mut Transcript, lines: &mut List<Line>, name: &[u8], value: &[u8]) {
    let added = add_bytes(transcript.alloc, lines, name, value);
    transcript.value_or_fail(added);
}

/// Writes the message that was built, its lines ended by LF, and a line `#`.
fn write_built(transcript: &mut Transcript, built: Result<Msg, NoMemory>) {
    if let Some(message) = transcript.value_or_fail(built) {
        write_message(transcript, &message);
        drop(message);
        transcript.add(b"#\n");
    }
}

/// The branch of this number.
fn branch(transcript: &mut Transcript, number: &[u8]) -> Text {
    let mut branch = Transcript::new(transcript.alloc);
    branch.add(b"0123456789abcdef-");
    branch.add(number);
    transcript.copy(branch.bytes())
}

/// Writes a request with Max-Forwards 70, these copied header fields and this body.
fn write_request<P>(
    transcript: &mut Transcript,
    leg: &mut LegOf<P, Standing>,
    method: &[u8],
    number: &[u8],
    lines: &List<Line>,
    body: &[u8],
) {
    let branch = branch(transcript, number);
    let request = leg.request(
        transcript.alloc,
        method,
        own_address(),
        70,
        &branch,
        lines,
        body,
    );
    drop(branch);
    write_built(transcript, request);
}

/// Writes a request without copied header fields and without body.
fn write_plain<P>(
    transcript: &mut Transcript,
    leg: &mut LegOf<P, Standing>,
    method: &[u8],
    number: &[u8],
) {
    write_request(transcript, leg, method, number, &List::new(), b"");
}

/// Writes the ACK of the last INVITE that the server sent.
fn write_ack<P>(transcript: &mut Transcript, leg: &LegOf<P, Standing>, hops: u8, number: &[u8]) {
    let branch = branch(transcript, number);
    let ack = leg.ack(
        transcript.alloc,
        own_address(),
        hops,
        &branch,
        &List::new(),
        b"",
    );
    drop(branch);
    write_built(transcript, ack);
}

/// Writes an INVITE with a body and two copied header fields.
fn write_invite<P>(transcript: &mut Transcript, leg: &mut LegOf<P, Standing>) {
    let mut lines = List::new();
    show(transcript, &mut lines, b"Privacy", b"id");
    show(transcript, &mut lines, b"Content-Type", b"application/sdp");
    write_request(transcript, leg, b"INVITE", b"6", &lines, b"v=0\n");
    drop(lines);
}

/// Writes a NOTIFY of a conference, whose Contact is copied.
fn write_notify<P>(transcript: &mut Transcript, leg: &mut LegOf<P, Standing>) {
    let mut lines = List::new();
    show(
        transcript,
        &mut lines,
        b"Contact",
        b"<sip:room-1@127.0.0.1:5060>;isfocus",
    );
    write_request(transcript, leg, b"NOTIFY", b"8", &lines, b"");
    drop(lines);
}

/// Writes the number of a leg's peer, its Call-ID, the server's tag and the other side's.
fn write_names<P>(transcript: &mut Transcript, leg: &LegOf<P, Standing>) {
    transcript.add_number(u64::from(leg.peer().0));
    transcript.add(b" ");
    transcript.add(leg.call_id());
    transcript.add(b" ");
    transcript.add(leg.local());
    transcript.add(b" ");
    transcript.add(leg.remote());
    transcript.add(b"\n");
}

/// The server's requests to a callee: the ACK of the INVITE that was offered, another INVITE and its ACK, a NOTIFY of a conference, BYE, and the ACK once more.
struct ToCallee;

impl WritesLeg for ToCallee {
    fn write_leg<P>(transcript: &mut Transcript, leg: &mut LegOf<P, Standing>) {
        write_names(transcript, leg);
        write_ack(transcript, leg, 69, b"5");
        write_invite(transcript, leg);
        write_ack(transcript, leg, 0, b"7");
        write_notify(transcript, leg);
        write_plain(transcript, leg, b"BYE", b"9");
        write_ack(transcript, leg, 255, b"10");
    }
}

/// Requests to the callee of a restricted call: nothing in them identifies the caller.
const SAID_TO_CALLEE: &[u8] = br##"2 0123456789abcdef-2 0123456789abcdef-3 b
ACK sip:bob@127.0.0.1:5072 SIP/2.0
Via: SIP/2.0/UDP 127.0.0.1:5060;branch=z9hG4bK0123456789abcdef-5
Route: <sip:p1.far.example;lr>
Route: <sip:p2.far.example;lr>
Max-Forwards: 69
From: "Anonymous" <sip:anonymous@anonymous.invalid>;tag=0123456789abcdef-3
To: <sip:bob@far.example>;tag=b
Call-ID: 0123456789abcdef-2
CSeq: 1 ACK
Content-Length: 0

#
INVITE sip:bob@127.0.0.1:5072 SIP/2.0
Via: SIP/2.0/UDP 127.0.0.1:5060;branch=z9hG4bK0123456789abcdef-6
Route: <sip:p1.far.example;lr>
Route: <sip:p2.far.example;lr>
Max-Forwards: 70
From: "Anonymous" <sip:anonymous@anonymous.invalid>;tag=0123456789abcdef-3
To: <sip:bob@far.example>;tag=b
Call-ID: 0123456789abcdef-2
CSeq: 2 INVITE
Contact: <sip:127.0.0.1:5060>
Privacy: id
Content-Type: application/sdp
Content-Length: 4

v=0
#
ACK sip:bob@127.0.0.1:5072 SIP/2.0
Via: SIP/2.0/UDP 127.0.0.1:5060;branch=z9hG4bK0123456789abcdef-7
Route: <sip:p1.far.example;lr>
Route: <sip:p2.far.example;lr>
Max-Forwards: 0
From: "Anonymous" <sip:anonymous@anonymous.invalid>;tag=0123456789abcdef-3
To: <sip:bob@far.example>;tag=b
Call-ID: 0123456789abcdef-2
CSeq: 2 ACK
Content-Length: 0

#
NOTIFY sip:bob@127.0.0.1:5072 SIP/2.0
Via: SIP/2.0/UDP 127.0.0.1:5060;branch=z9hG4bK0123456789abcdef-8
Route: <sip:p1.far.example;lr>
Route: <sip:p2.far.example;lr>
Max-Forwards: 70
From: "Anonymous" <sip:anonymous@anonymous.invalid>;tag=0123456789abcdef-3
To: <sip:bob@far.example>;tag=b
Call-ID: 0123456789abcdef-2
CSeq: 3 NOTIFY
Contact: <sip:room-1@127.0.0.1:5060>;isfocus
Content-Length: 0

#
BYE sip:bob@127.0.0.1:5072 SIP/2.0
Via: SIP/2.0/UDP 127.0.0.1:5060;branch=z9hG4bK0123456789abcdef-9
Route: <sip:p1.far.example;lr>
Route: <sip:p2.far.example;lr>
Max-Forwards: 70
From: "Anonymous" <sip:anonymous@anonymous.invalid>;tag=0123456789abcdef-3
To: <sip:bob@far.example>;tag=b
Call-ID: 0123456789abcdef-2
CSeq: 4 BYE
Content-Length: 0

#
ACK sip:bob@127.0.0.1:5072 SIP/2.0
Via: SIP/2.0/UDP 127.0.0.1:5060;branch=z9hG4bK0123456789abcdef-10
Route: <sip:p1.far.example;lr>
Route: <sip:p2.far.example;lr>
Max-Forwards: 255
From: "Anonymous" <sip:anonymous@anonymous.invalid>;tag=0123456789abcdef-3
To: <sip:bob@far.example>;tag=b
Call-ID: 0123456789abcdef-2
CSeq: 2 ACK
Content-Length: 0

#
"##;

fn wrong_requests_to_callee(alloc: Global) -> usize {
    let mut transcript = Transcript::new(alloc);
    write_answered::<ToCallee>(&mut transcript, Side::Callee, OFFERED, ANSWER);
    transcript.wrong_line(SAID_TO_CALLEE)
}

#[test]
fn requests_to_callee(rt: HostRuntime) {
    assert_right(
        &rt,
        "requests_to_callee",
        wrong_requests_to_callee(rt.alloc()),
    );
}

/// The server's requests to a caller: an INVITE, its ACK, and BYE; before them an ACK without an INVITE, whose number is 0 (RFC 3261 §13.2.2.4 has the number of the INVITE, and
/// the server sent none).
struct ToCaller;

impl WritesLeg for ToCaller {
    fn write_leg<P>(transcript: &mut Transcript, leg: &mut LegOf<P, Standing>) {
        write_names(transcript, leg);
        write_ack(transcript, leg, 70, b"4");
        write_plain(transcript, leg, b"INVITE", b"5");
        write_plain(transcript, leg, b"BYE", b"6");
        write_ack(transcript, leg, 70, b"7");
    }
}

/// Requests to callers. From and To of the INVITE are exchanged, their bytes unchanged, and the server's numbers begin with 1. The second caller's From and To have no angle
/// brackets, with parameters, and its INVITE came through two proxies.
const SAID_TO_CALLERS: &[u8] = br##"1 c1 0123456789abcdef-1 a
ACK sip:erin@127.0.0.1:5071 SIP/2.0
Via: SIP/2.0/UDP 127.0.0.1:5060;branch=z9hG4bK0123456789abcdef-4
Max-Forwards: 70
From: <sip:bob@far.example>;tag=0123456789abcdef-1
To: "Erin" <sip:erin@other.example>;tag=a
Call-ID: c1
CSeq: 0 ACK
Content-Length: 0

#
INVITE sip:erin@127.0.0.1:5071 SIP/2.0
Via: SIP/2.0/UDP 127.0.0.1:5060;branch=z9hG4bK0123456789abcdef-5
Max-Forwards: 70
From: <sip:bob@far.example>;tag=0123456789abcdef-1
To: "Erin" <sip:erin@other.example>;tag=a
Call-ID: c1
CSeq: 1 INVITE
Contact: <sip:127.0.0.1:5060>
Content-Length: 0

#
BYE sip:erin@127.0.0.1:5071 SIP/2.0
Via: SIP/2.0/UDP 127.0.0.1:5060;branch=z9hG4bK0123456789abcdef-6
Max-Forwards: 70
From: <sip:bob@far.example>;tag=0123456789abcdef-1
To: "Erin" <sip:erin@other.example>;tag=a
Call-ID: c1
CSeq: 2 BYE
Content-Length: 0

#
ACK sip:erin@127.0.0.1:5071 SIP/2.0
Via: SIP/2.0/UDP 127.0.0.1:5060;branch=z9hG4bK0123456789abcdef-7
Max-Forwards: 70
From: <sip:bob@far.example>;tag=0123456789abcdef-1
To: "Erin" <sip:erin@other.example>;tag=a
Call-ID: c1
CSeq: 1 ACK
Content-Length: 0

#
1 c2 0123456789abcdef-1 a
ACK sip:a@127.0.0.1:5071 SIP/2.0
Via: SIP/2.0/UDP 127.0.0.1:5060;branch=z9hG4bK0123456789abcdef-4
Route: <sip:p2;lr>
Route: <sip:p1;lr>
Max-Forwards: 70
From: sip:b@h;x=y;tag=0123456789abcdef-1
To: sip:a@h;x=y;tag=a;z
Call-ID: c2
CSeq: 0 ACK
Content-Length: 0

#
INVITE sip:a@127.0.0.1:5071 SIP/2.0
Via: SIP/2.0/UDP 127.0.0.1:5060;branch=z9hG4bK0123456789abcdef-5
Route: <sip:p2;lr>
Route: <sip:p1;lr>
Max-Forwards: 70
From: sip:b@h;x=y;tag=0123456789abcdef-1
To: sip:a@h;x=y;tag=a;z
Call-ID: c2
CSeq: 1 INVITE
Contact: <sip:127.0.0.1:5060>
Content-Length: 0

#
BYE sip:a@127.0.0.1:5071 SIP/2.0
Via: SIP/2.0/UDP 127.0.0.1:5060;branch=z9hG4bK0123456789abcdef-6
Route: <sip:p2;lr>
Route: <sip:p1;lr>
Max-Forwards: 70
From: sip:b@h;x=y;tag=0123456789abcdef-1
To: sip:a@h;x=y;tag=a;z
Call-ID: c2
CSeq: 2 BYE
Content-Length: 0

#
ACK sip:a@127.0.0.1:5071 SIP/2.0
Via: SIP/2.0/UDP 127.0.0.1:5060;branch=z9hG4bK0123456789abcdef-7
Route: <sip:p2;lr>
Route: <sip:p1;lr>
Max-Forwards: 70
From: sip:b@h;x=y;tag=0123456789abcdef-1
To: sip:a@h;x=y;tag=a;z
Call-ID: c2
CSeq: 1 ACK
Content-Length: 0

#
"##;

/// The INVITE of the second caller.
const BARE: &[u8] = br##"INVITE sip:b@h SIP/2.0
Via: SIP/2.0/UDP 127.0.0.1:5071;branch=z9hG4bKa2
From: sip:a@h;x=y;tag=a;z
To: sip:b@h;x=y
Call-ID: c2
CSeq: 1 INVITE
Contact: sip:a@127.0.0.1:5071
Record-Route: <sip:p2;lr>, <sip:p1;lr>

"##;

fn wrong_requests_to_callers(alloc: Global) -> usize {
    let mut transcript = Transcript::new(alloc);
    write_answered::<ToCaller>(&mut transcript, Side::Caller, CAME, CAME);
    write_answered::<ToCaller>(&mut transcript, Side::Caller, BARE, BARE);
    transcript.wrong_line(SAID_TO_CALLERS)
}

#[test]
fn requests_to_callers(rt: HostRuntime) {
    assert_right(
        &rt,
        "requests_to_callers",
        wrong_requests_to_callers(rt.alloc()),
    );
}

/// The server's request to a callee that answers: the ACK.
struct ToRespond;

impl WritesLeg for ToRespond {
    fn write_leg<P>(transcript: &mut Transcript, leg: &mut LegOf<P, Standing>) {
        write_ack(transcript, leg, 70, b"5");
    }
}

/// An early dialog with a tag, through one proxy.
const RINGING: &[u8] = br##"SIP/2.0 180 Ringing
Via: SIP/2.0/UDP 127.0.0.1:5060;branch=z9hG4bK0123456789abcdef-4
Record-Route: <sip:p0;lr>
From: "Anonymous" <sip:anonymous@anonymous.invalid>;tag=0123456789abcdef-3
To: <sip:bob@far.example>;tag=e
Call-ID: 0123456789abcdef-2
CSeq: 1 INVITE
Contact: <sip:e@127.0.0.1:5072>
Content-Length: 0

"##;

/// A 2xx without tag and without Contact, through another proxy.
const UNTAGGED: &[u8] = br##"SIP/2.0 200 OK
Via: SIP/2.0/UDP 127.0.0.1:5060;branch=z9hG4bK0123456789abcdef-4
Record-Route: <sip:p1;lr>
From: "Anonymous" <sip:anonymous@anonymous.invalid>;tag=0123456789abcdef-3
To: <sip:bob@far.example>
Call-ID: 0123456789abcdef-2
CSeq: 1 INVITE
Content-Length: 0

"##;

/// Writes the ACK of the 2xx without tag, after the early dialog.
fn write_untagged(transcript: &mut Transcript) {
    let early = remote_in(transcript, RINGING, Side::Callee);
    if let Some(said) = remote_in(transcript, UNTAGGED, Side::Callee) {
        write_leg::<ToRespond>(transcript, Side::Callee, OFFERED, early, said);
    }
}

/// Writes the CANCEL of the INVITE with which a dialog began.
fn write_cancel_to(transcript: &mut Transcript, dialogue: &Dialogue) {
    let branch = branch(transcript, b"4");
    let none = List::new();
    let parts = RequestParts::of(own_address(), 70, &branch, &none, b"");
    let cancel = request_numbered(
        transcript.alloc,
        dialogue,
        dialogue.local_cseq,
        b"CANCEL",
        &parts,
    );
    write_built(transcript, cancel);
}

/// Writes the CANCEL of a leg that begins with this dialog, and consumes the leg.
fn write_initial(transcript: &mut Transcript, dialogue: Dialogue) {
    let leg = CalleeLeg::<Asked>::initial(dialogue, None);
    write_cancel_to(transcript, leg.dialogue());
    let Ended { meter } = leg.leave();
    write_meter(transcript, meter);
}

/// Writes the CANCEL of a leg that begins with a copy of this dialog.
fn write_copied(transcript: &mut Transcript, dialogue: &Dialogue) {
    let copy = dialogue.copied(transcript.alloc);
    if let Some(copy) = transcript.value_or_fail(copy) {
        write_initial(transcript, copy);
    }
}

/// Writes the CANCEL of an INVITE.
fn write_canceled(transcript: &mut Transcript, invite: &Msg) {
    let dialogue = Dialogue::of_callee(transcript.alloc, Peer(2), invite);
    if let Some(dialogue) = transcript.value_or_fail(dialogue) {
        write_copied(transcript, &dialogue);
        drop(dialogue);
    }
}

/// Writes the CANCEL of the INVITE that is offered.
fn write_cancel_of_offered(transcript: &mut Transcript) {
    if let Some(invite) = message_of_lines(transcript, OFFERED) {
        write_canceled(transcript, &invite);
        drop(invite);
    }
}

/// What is built for a callee that is not yet in a call: the ACK of a 2xx without tag after an early dialog, and a CANCEL.
///
/// The dialog is that of the 2xx (RFC 3261 §12.1.2, §13.2.2.4), so the ACK goes by its route set, and To has the tag of the 2xx, which is none. Of a CANCEL (§9.1) Request-URI,
/// Call-ID, From, To and the number are those of the INVITE, and so is its Via.
const BUILT: &[u8] = br##"ACK sip:e@127.0.0.1:5072 SIP/2.0
Via: SIP/2.0/UDP 127.0.0.1:5060;branch=z9hG4bK0123456789abcdef-5
Route: <sip:p1;lr>
Max-Forwards: 70
From: "Anonymous" <sip:anonymous@anonymous.invalid>;tag=0123456789abcdef-3
To: <sip:bob@far.example>
Call-ID: 0123456789abcdef-2
CSeq: 1 ACK
Content-Length: 0

#
CANCEL sip:bob@far.example SIP/2.0
Via: SIP/2.0/UDP 127.0.0.1:5060;branch=z9hG4bK0123456789abcdef-4
Max-Forwards: 70
From: "Anonymous" <sip:anonymous@anonymous.invalid>;tag=0123456789abcdef-3
To: <sip:bob@far.example>
Call-ID: 0123456789abcdef-2
CSeq: 1 CANCEL
Content-Length: 0

#
"##;

fn wrong_untagged_answer_and_cancel(alloc: Global) -> usize {
    let mut transcript = Transcript::new(alloc);
    write_untagged(&mut transcript);
    write_cancel_of_offered(&mut transcript);
    transcript.wrong_line(BUILT)
}

#[test]
fn untagged_answer_and_cancel(rt: HostRuntime) {
    assert_right(
        &rt,
        "untagged_answer_and_cancel",
        wrong_untagged_answer_and_cancel(rt.alloc()),
    );
}
