//! The remote side of messages: its tag, target and routes.

use crate::asserting::assert_right;
use crate::composing::legs::remote_in;
use mmtel_test_tables::{Transcript, next_line, split_or_all};
use mmtel_types::Side;
use std::alloc::Global;

/// Messages, the side that sent each, and the remote side in it: its tag, its target, and its routes in order.
///
/// The first two are of RFC 3261 §16.12.1.1: the INVITE as it reaches the callee, and the response as it reaches the caller. The others are of the profile: values that are
/// separated by commas, a Contact without angle brackets, one that cannot be read and one in another scheme, and a To without tag.
const REMOTES: &[u8] = br##"INVITE sip:callee@u2.domain.com SIP/2.0
Via: SIP/2.0/UDP p2.domain.com;branch=z9hG4bKp2
Max-Forwards: 68
From: <sip:caller@u1.example.com>;tag=a
To: <sip:callee@domain.com>
Call-ID: c1
CSeq: 1 INVITE
Contact: sip:caller@u1.example.com
Record-Route: <sip:p2.domain.com;lr>
Record-Route: <sip:p1.example.com;lr>

#caller
tag a
target sip:caller@u1.example.com
<sip:p2.domain.com;lr>
<sip:p1.example.com;lr>
#
SIP/2.0 200 OK
Via: SIP/2.0/UDP u1.example.com;branch=z9hG4bKu1
From: <sip:caller@u1.example.com>;tag=a
To: <sip:callee@domain.com>;tag=b
Call-ID: c1
CSeq: 1 INVITE
Contact: sip:callee@u2.domain.com
Record-Route: <sip:p2.domain.com;lr>
Record-Route: <sip:p1.example.com;lr>

#callee
tag b
target sip:callee@u2.domain.com
<sip:p1.example.com;lr>
<sip:p2.domain.com;lr>
#
SIP/2.0 183 Session Progress
Via: SIP/2.0/UDP u1.example.com;branch=z9hG4bKu1
From: <sip:a@h>;tag=a
To: "B, of H" <sip:b@h>;x=y;TAG=b7;z
Call-ID: c1
CSeq: 1 INVITE
Contact: "one, two" <sip:b@192.0.2.4:5070;transport=udp>;expires=60, <sip:b@192.0.2.5>
Record-Route: <sip:p3;lr>, <sip:p2;lr>;y="a,b"
Record-Route: <sip:p1;lr>

#callee
tag b7
target sip:b@192.0.2.4:5070;transport=udp
<sip:p1;lr>
<sip:p2;lr>;y="a,b"
<sip:p3;lr>
#
SIP/2.0 180 Ringing
Via: SIP/2.0/UDP u1.example.com;branch=z9hG4bKu1
From: <sip:a@h>;tag=a
To: <sip:b@h>
Call-ID: c1
CSeq: 1 INVITE
Contact: <sip:b@h>, <sip:c@h
Contact: <sip:d@h>

#callee
tag 
target sip:b@h
#
SIP/2.0 200 OK
Via: SIP/2.0/UDP u1.example.com;branch=z9hG4bKu1
From: <sip:a@h>;tag=a
To: <sip:b@h>;tag=b
Call-ID: c1
CSeq: 1 INVITE
Contact: <sip:c@h
Contact: <sip:d@h>

#callee
tag b
target 
#
SIP/2.0 200 OK
Via: SIP/2.0/UDP u1.example.com;branch=z9hG4bKu1
From: <sip:a@h>;tag=a
To: <sip:b@h>;tag=b
Call-ID: c1
CSeq: 1 INVITE
Contact: <tel:+4930111>

#callee
tag b
target tel:+4930111
#
"##;

fn side_of(word: &[u8]) -> Side {
    if word == b"caller".as_slice() {
        Side::Caller
    } else {
        Side::Callee
    }
}

/// Writes the remote side in the message, a line each.
fn write_remote(transcript: &mut Transcript, lines: &[u8], side: Side) {
    if let Some(remote) = remote_in(transcript, lines, side) {
        transcript.add(b"tag ");
        transcript.add(remote.tag.bytes());
        transcript.add(b"\ntarget ");
        transcript.add(remote.target.bytes());
        transcript.add(b"\n");
        for route in remote.routes.items() {
            transcript.add(route.bytes());
            transcript.add(b"\n");
        }
        drop(remote);
    }
}

/// What precedes the first `#` of a table, and what follows it.
fn block(table: &[u8]) -> (&[u8], &[u8]) {
    split_or_all(b'#', table)
}

/// Writes the first row of a table with the remote side in its message; returns the rows after it.
fn write_row<'a>(transcript: &mut Transcript, table: &'a [u8]) -> &'a [u8] {
    let (lines, rest) = block(table);
    let (side, rest) = next_line(rest);
    let (_, rest) = block(rest);
    let (_, rest) = next_line(rest);
    transcript.add(lines);
    transcript.add(b"#");
    transcript.add(side);
    transcript.add(b"\n");
    write_remote(transcript, lines, side_of(side));
    transcript.add(b"#\n");
    rest
}

fn wrong_remotes(alloc: Global) -> usize {
    let mut transcript = Transcript::new(alloc);
    let mut rest = REMOTES;
    for _ in 0..6 {
        rest = write_row(&mut transcript, rest);
    }
    transcript.wrong_line(REMOTES)
}

#[test]
fn remotes(rt: HostRuntime) {
    assert_right(&rt, "remotes", wrong_remotes(rt.alloc()));
}
