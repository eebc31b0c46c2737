//! The dialogs of legs: what they adopt of the other side, the requests that they receive, and their meters.

use crate::asserting::assert_right;
use crate::composing::legs::{
    ANSWER, CAME, OFFERED, WritesLeg, moment, own_address, write_answered, write_leg, write_meter,
};
use crate::messages::drafts::message_of_lines;
use mmtel_base::{List, Text};
use mmtel_charging::{Kind, Meter};
use mmtel_leg::{DialogueFault, InFlight, LegOf, Remote, Standing};
use mmtel_message::{Msg, Start};
use mmtel_test_tables::{Transcript, next_line, split_or_all};
use mmtel_types::{Account, CallNo, Side};
use std::alloc::Global;

/// What precedes the first `|` of a row, and what follows it; writes the former.
fn cell<'a>(transcript: &mut Transcript, row: &'a [u8]) -> (&'a [u8], &'a [u8]) {
    let (cell, rest) = split_or_all(b'|', row);
    transcript.add(cell);
    transcript.add(b"|");
    (cell, rest)
}

/// One route, or none of no bytes.
fn routes(transcript: &mut Transcript, route: &[u8]) -> List<Text> {
    let mut routes = List::new();
    if !route.is_empty() {
        let route = transcript.copy(route);
        let pushed = routes.push(transcript.alloc, route);
        transcript.value_or_fail(pushed);
    }
    routes
}

/// The remote side of a message, of three cells: its tag, its target and its route.
fn remote<'a>(transcript: &mut Transcript, row: &'a [u8]) -> (Remote, &'a [u8]) {
    let (tag, rest) = cell(transcript, row);
    let (target, rest) = cell(transcript, rest);
    let (route, rest) = cell(transcript, rest);
    let remote = Remote {
        tag: transcript.copy(tag),
        target: transcript.copy(target),
        routes: routes(transcript, route),
    };
    (remote, rest)
}

/// Writes target, To and routes of an ACK.
fn write_next_hop(transcript: &mut Transcript, ack: &Msg) {
    if let Start::Request { method: _, uri } = ack.start() {
        transcript.add(uri.bytes());
    }
    let lines = ack.lines();
    for i in 0..lines.len() {
        let (name, value) = lines.at(i);
        if name == b"To".as_slice() || name == b"Route".as_slice() {
            transcript.add(b" ");
            transcript.add(value);
        }
    }
    transcript.add(b"\n");
}

/// Target, To and routes of an ACK.
struct Way;

impl WritesLeg for Way {
    fn write_leg<P>(transcript: &mut Transcript, leg: &mut LegOf<P, Standing>) {
        let ack = leg.ack(
            transcript.alloc,
            own_address(),
            70,
            &Text::new(),
            &List::new(),
            b"",
        );
        if let Some(ack) = transcript.value_or_fail(ack) {
            write_next_hop(transcript, &ack);
            drop(ack);
        }
    }
}

/// The remote side in an early and in a later message, each as tag, target and route; and target, routes and To of an ACK to it.
///
/// Tag and routes of a callee are those of its 2xx, also where it has none (RFC 3261 §12.1.2, §13.2.2.4); those of a caller are unchanged where its message has no tag. Without a
/// target the target is unchanged, and without any it is the Request-URI of the INVITE.
const EARLY: &[u8] =
    br##"callee|e|sip:e@h|<sip:p0;lr>|b|sip:b@h|<sip:p1;lr>|sip:b@h <sip:p1;lr> <sip:bob@far.example>;tag=b
callee|e|sip:e@h|<sip:p0;lr>|b|||sip:e@h <sip:bob@far.example>;tag=b
callee|e|sip:e@h|<sip:p0;lr>||sip:b@h|<sip:p1;lr>|sip:b@h <sip:p1;lr> <sip:bob@far.example>
callee|e|sip:e@h|<sip:p0;lr>|||<sip:p1;lr>|sip:e@h <sip:p1;lr> <sip:bob@far.example>
callee|e|sip:e@h|<sip:p0;lr>||||sip:e@h <sip:bob@far.example>
callee|e|||b|||sip:bob@far.example <sip:bob@far.example>;tag=b
callee|||||||sip:bob@far.example <sip:bob@far.example>
caller|a|sip:a@h|<sip:p0;lr>||||sip:a@h <sip:p0;lr> "Erin" <sip:erin@other.example>;tag=a
caller|a|sip:a@h|<sip:p0;lr>|||<sip:p1;lr>|sip:a@h <sip:p0;lr> "Erin" <sip:erin@other.example>;tag=a
caller|a|sip:a@h|<sip:p0;lr>||sip:c@h||sip:c@h <sip:p0;lr> "Erin" <sip:erin@other.example>;tag=a
caller|a|sip:a@h|<sip:p0;lr>|c|sip:c@h|<sip:p1;lr>|sip:c@h <sip:p1;lr> "Erin" <sip:erin@other.example>;tag=a
"##;

/// Writes a row with its result, for the leg of its side.
fn write_early(transcript: &mut Transcript, row: &[u8]) {
    let (side, rest) = cell(transcript, row);
    let (early, rest) = remote(transcript, rest);
    let (said, _) = remote(transcript, rest);
    if side == b"caller".as_slice() {
        write_leg::<Way>(transcript, Side::Caller, CAME, Some(early), said);
    } else {
        write_leg::<Way>(transcript, Side::Callee, OFFERED, Some(early), said);
    }
}

fn wrong_early_dialogs(alloc: Global) -> usize {
    let mut transcript = Transcript::new(alloc);
    let mut rows = EARLY;
    for _ in 0..11 {
        let (row, rest) = next_line(rows);
        write_early(&mut transcript, row);
        rows = rest;
    }
    transcript.wrong_line(EARLY)
}

#[test]
fn early_dialogs(rt: HostRuntime) {
    assert_right(&rt, "early_dialogs", wrong_early_dialogs(rt.alloc()));
}

/// The request of this number and method to the server, as header fields.
fn lines_of(transcript: &mut Transcript, number: &[u8], method: &[u8]) -> Text {
    let mut lines = Transcript::new(transcript.alloc);
    lines.add(method);
    lines.add(
        b" sip:127.0.0.1:5060 SIP/2.0\nVia: SIP/2.0/UDP h;branch=z9hG4bKb\nMax-Forwards: 70\nFrom: <sip:a@h>;tag=a\nTo: <sip:b@h>;tag=b\nCall-ID: c1\nContact: <sip:a@h>\nCSeq: ",
    );
    lines.add(number);
    lines.add(b" ");
    lines.add(method);
    lines.add(b"\n\n");
    transcript.copy(lines.bytes())
}

fn in_flight(word: &[u8]) -> InFlight {
    if word == b"own".as_slice() {
        InFlight::Own
    } else if word == b"theirs".as_slice() {
        InFlight::Theirs
    } else {
        InFlight::None
    }
}

fn write_own_response(transcript: &mut Transcript, answer: Result<(), DialogueFault>) {
    match answer {
        Ok(()) => transcript.add(b" heard\n"),
        Err(DialogueFault::Pending) => transcript.add(b" pending\n"),
        Err(DialogueFault::Unfinished) => transcript.add(b" unfinished\n"),
        Err(DialogueFault::OldCSeq { last }) => {
            transcript.add(b" old ");
            transcript.add_number(u64::from(last));
            transcript.add(b"\n");
        }
    }
}

/// Writes a row with the leg's response.
fn write_received_list<P>(transcript: &mut Transcript, leg: &mut LegOf<P, Standing>, row: &[u8]) {
    let (asked, _) = split_or_all(b':', row);
    let (number, rest) = split_or_all(b' ', asked);
    let (method, busy) = split_or_all(b' ', rest);
    transcript.add(asked);
    transcript.add(b":");
    let lines = lines_of(transcript, number, method);
    if let Some(request) = message_of_lines(transcript, lines.bytes()) {
        let answer = leg.heard(&request, in_flight(busy));
        drop(request);
        write_own_response(transcript, answer);
    }
    drop(lines);
}

/// Writes a table with the leg's responses.
fn write_all_received<P>(transcript: &mut Transcript, leg: &mut LegOf<P, Standing>, table: &[u8]) {
    let mut rest = table;
    for _ in 0..100 {
        if rest.is_empty() {
            break;
        }
        let (row, later) = next_line(rest);
        write_received_list(transcript, leg, row);
        rest = later;
    }
}

/// Requests to a leg whose last number was 7, one after another: number, method, which INVITE is in flight, and the response.
///
/// RFC 3261 §12.2.2 (a lower number is out of order) and §14.2 (an INVITE while another is in flight); a refused request leaves the last number unchanged.
const HEARD: &[u8] = br##"6 BYE none: old 7
6 INVITE own: old 7
6 INVITE theirs: old 7
7 INVITE own: pending
7 INVITE theirs: unfinished
7 INVITE none: heard
7 BYE own: heard
9 OPTIONS theirs: heard
8 BYE none: old 9
20 INVITE own: pending
20 INVITE theirs: unfinished
10 BYE own: heard
0010 invite own: heard
2147483647 INVITE none: heard
2147483646 INVITE none: old 2147483647
"##;

struct ReceivedLater;

impl WritesLeg for ReceivedLater {
    fn write_leg<P>(transcript: &mut Transcript, leg: &mut LegOf<P, Standing>) {
        write_all_received(transcript, leg, HEARD);
    }
}

/// The same, of a leg that has received no request yet.
const HEARD_FIRST: &[u8] = br##"0 INVITE own: pending
0 BYE own: heard
0 INVITE none: heard
1 INVITE none: heard
0 BYE none: old 1
"##;

struct ReceivedFirst;

impl WritesLeg for ReceivedFirst {
    fn write_leg<P>(transcript: &mut Transcript, leg: &mut LegOf<P, Standing>) {
        write_all_received(transcript, leg, HEARD_FIRST);
    }
}

/// Two accounts' meters are put into a leg one after another.
struct Meters;

impl WritesLeg for Meters {
    fn write_leg<P>(transcript: &mut Transcript, leg: &mut LegOf<P, Standing>) {
        let origin = Meter::start(Kind::Origin, Account(1), CallNo(1), moment(0));
        write_meter(transcript, leg.swap_meter(Some(origin)));
        transcript.add(b"then\n");
        let seat = Meter::start(Kind::Participant, Account(2), CallNo(1), moment(0));
        write_meter(transcript, leg.swap_meter(Some(seat)));
        transcript.add(b"at the end\n");
    }
}

/// Requests that a caller's leg receives, whose last number is that of its INVITE.
fn wrong_hears_the_caller(alloc: Global) -> usize {
    let mut transcript = Transcript::new(alloc);
    write_answered::<ReceivedLater>(&mut transcript, Side::Caller, CAME, CAME);
    transcript.wrong_line(HEARD)
}

#[test]
fn hears_the_caller(rt: HostRuntime) {
    assert_right(&rt, "hears_the_caller", wrong_hears_the_caller(rt.alloc()));
}

/// Requests that a callee's leg receives; and the meters of a leg: each is returned by a swap, and the last one as it is removed, where the leg was taken out of its call.
const HEARD_FIRST_AND_METERS: &[u8] = br##"0 INVITE own: pending
0 BYE own: heard
0 INVITE none: heard
1 INVITE none: heard
0 BYE none: old 1
then
account 1
at the end
account 2
"##;

fn wrong_hears_the_callee_and_has_meters(alloc: Global) -> usize {
    let mut transcript = Transcript::new(alloc);
    write_answered::<ReceivedFirst>(&mut transcript, Side::Callee, OFFERED, ANSWER);
    write_answered::<Meters>(&mut transcript, Side::Caller, CAME, CAME);
    transcript.wrong_line(HEARD_FIRST_AND_METERS)
}

#[test]
fn hears_the_callee_and_has_meters(rt: HostRuntime) {
    assert_right(
        &rt,
        "hears_the_callee_and_has_meters",
        wrong_hears_the_callee_and_has_meters(rt.alloc()),
    );
}
