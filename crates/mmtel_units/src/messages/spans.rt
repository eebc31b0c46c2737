//! The spans of the values of a message in the bytes received.

use crate::asserting::assert_right;
use crate::messages::drafts::request;
use mmtel_lex::Text;
use mmtel_message::{Msg, ReadFault, Span, read_held};
use mmtel_test_tables::Transcript;
use std::alloc::Global;

/// An INVITE whose Via value begins at 41 and has 43 bytes, and whose Max-Forwards begins at 100; its Contact is folded within its
/// value; its Route has two values in one header field, its Record-Route one in each of two, and its Subject is on the second of its lines.
const INVITE: &[u8] = b"INVITE sip:bob@far.example SIP/2.0
Via: SIP/2.0/UDP 127.0.0.1:5071;branch=z9hG4bKa1
Max-Forwards: 68
From: \"Erin\" <sip:erin@other.example>;tag=a
To: <sip:bob@far.example>
Call-ID: c1
CSeq: 7 INVITE
Contact: \"E\"
 <sip:erin@127.0.0.1:5071>
Route: <sip:r@h;lr>, <sip:s@h;lr>
Record-Route: <sip:q@h;lr>,
 <sip:p@h;lr>
Subject:
 lunch
Content-Length: 0

";

/// What is written of it: the span of each header field's value, or that it is an edit; the same after Max-Forwards is set; the values of Route; how many bytes were received of a
/// message that the server built.
const PLACES: &[u8] =
    b"41+43 100+2 110+37 153+21 185+2 195+8 edit 254+12 268+12 296+12 312+12 337+5 360+1
41+43 edit 110+37 153+21 185+2 195+8 edit 254+12 268+12 296+12 312+12 337+5 360+1
<sip:r@h;lr>|<sip:s@h;lr>|
0
";

fn write_span(transcript: &mut Transcript, place: Option<Span>) {
    match place {
        None => transcript.add(b"edit"),
        Some(place) => {
            transcript.add_number(place.from as u64);
            transcript.add(b"+");
            transcript.add_number(place.len as u64);
        }
    }
}

/// Writes where the values are.
fn write_spans(transcript: &mut Transcript, message: &Msg) {
    for i in 0..message.lines().len() {
        transcript.add_if(i > 0, b" ", b"");
        write_span(transcript, message.span(i));
    }
    transcript.add(b"\n");
}

/// Whether a value is at this span of the bytes.
fn stands(received: &[u8], place: Span, value: &[u8]) -> bool {
    if place.from > received.len() {
        return false;
    }
    let rest = &received[place.from..];
    if place.len > rest.len() {
        return false;
    }
    &rest[..place.len] == value
}

/// Whether each span has the value of its header field.
pub fn are_right(message: &Msg) -> bool {
    let lines = message.lines();
    let received = message.received();
    for i in 0..lines.len() {
        let (_, value) = lines.at(i);
        if let Some(place) = message.span(i) {
            if !stands(received, place, value) {
                return false;
            }
        }
    }
    true
}

/// Writes the values of Route, each with a bar after it.
fn write_routes(transcript: &mut Transcript, message: &Msg) {
    for value in message.values_in(b"ROUTE") {
        transcript.add(value);
        transcript.add(b"|");
    }
    transcript.add(b"\n");
}

/// Writes a message that was read, and once more with another Max-Forwards.
fn write_edited(transcript: &mut Transcript, message: &mut Msg) {
    write_spans(transcript, message);
    let hops = transcript.copy(b"67");
    let done = message.set(transcript.alloc, b"Max-Forwards", hops);
    transcript.fail_unless(done.is_ok());
    write_spans(transcript, message);
    write_routes(transcript, message);
    transcript.fail_unless(are_right(message));
}

/// Writes the result for these bytes.
fn write_held_spans(transcript: &mut Transcript, bytes: Text) {
    let read: Result<Msg, ReadFault> = read_held(transcript.alloc, bytes);
    match transcript.value_or_fail(read) {
        None => {}
        Some(message) => {
            let mut message = message;
            write_edited(transcript, &mut message);
            drop(message);
        }
    }
}

/// The number of the first line that differs from the actual one; 0 where none does.
fn wrong_place(alloc: Global) -> usize {
    let mut transcript = Transcript::new(alloc);
    let mut datagram = Transcript::new(alloc);
    datagram.add_with_cr(INVITE);
    let bytes = transcript.copy(datagram.whole());
    drop(datagram);
    write_held_spans(&mut transcript, bytes);
    let built = Msg::new(request(&mut transcript, b"OPTIONS"), Text::new());
    transcript.add_number(built.received().len() as u64);
    transcript.add(b"\n");
    drop(built);
    transcript.wrong_line(PLACES)
}

#[test]
fn values_stand_where_they_came(rt: HostRuntime) {
    assert_right(&rt, "PLACES", wrong_place(rt.alloc()));
}
