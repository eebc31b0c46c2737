//! Damaged input, and rows that no call of a keeper stores: datagrams of which a byte is 0, at each position, and how many rows wait in a server whose keeper fails.
//!
//! The other rows of damaged input and of failing devices are in `calls`, `faults`, `failing`, `uploads`, `served` and `serves`; the page of this crate lists them.

use crate::asserting::assert_right;
use crate::cases::{writes, wrong_run};
use crate::faults::erins_invite;
use crate::pages::{Page, is_well};
use std::alloc::Global;

/// Adds the datagram with 0 in place of the byte whose digits begin here, at the moment of that position.
fn add_zeroed(script: &mut Page, datagram: &[u8], place: usize) {
    script.add(b"at ");
    script.add_number(place as u64 / 2);
    script.add(b" peer 1\nx");
    script.add(datagram.get(..place).unwrap_or(b"?"));
    script.add(b"00");
    script.add(
        datagram
            .get(place..)
            .unwrap_or(b"")
            .get(2..)
            .unwrap_or(b"?"),
    );
    script.add(b"\n");
}

/// A script with one datagram for each of these bytes, in which it is 0.
fn zeroed(script: &mut Page, datagram: &[u8]) {
    for place in 0..datagram.len() {
        if place % 2 == 0 {
            add_zeroed(script, datagram, place);
        }
    }
}

/// Which refusal, from 1, is expected where the byte at this position is 0; None where none is, since what identifies the request cannot be read, nor answered.
///
/// A header field with a byte 0 is none of the grammar (RFC 3261 section 25.1). The Request-URI is at 7, Max-Forwards at 86, and Contact, P-Asserted-Identity, Privacy and
/// Content-Length from 205 to 317: each is 400 (section 21.4.1). Method and version, Via, From, To, Call-ID and CSeq, their line ends, and the end of the head identify the
/// request.
fn refusal(place: u64) -> Option<u64> {
    if place >= 7 && place < 26 {
        Some(place - 6)
    } else if place >= 86 && place < 102 {
        Some(place - 66)
    } else if place >= 205 && place < 318 {
        Some(place - 169)
    } else {
        None
    }
}

/// Adds the 400 of this number, at this moment.
fn add_refusal(due: &mut Page, at: u64, number: u64) {
    due.add(b"at ");
    due.add_number(at);
    due.add(
        b" to 1\n|SIP/2.0 400 Bad Request\n|Via: SIP/2.0/UDP 127.0.0.1:5071;branch=z9hG4bKa1\n|From: \"Erin\" <sip:erin@other.example>;tag=a\n\
          |To: <sip:bob@far.example>;tag=0123456789abcdef-",
    );
    due.add_number(number);
    due.add(b"\n|Call-ID: c1\n|CSeq: 7 INVITE\n|Content-Length: 0\n|\n");
}

fn add_refusals(due: &mut Page) {
    for place in 0..400 {
        if let Some(number) = refusal(place) {
            add_refusal(due, place, number);
        }
    }
}

fn are_zeroed_refused(alloc: Global) -> bool {
    let mut script = Page::new(alloc);
    zeroed(&mut script, erins_invite());
    let mut due = Page::new(alloc);
    add_refusals(&mut due);
    let right = writes(alloc, script.bytes(), due.bytes());
    let well = is_well(script);
    is_well(due) && well && right
}

/// A datagram with a byte 0 is answered by 400 alone, or by nothing, by the header field that has it.
#[test]
fn zeroed_datagrams(rt: HostRuntime) {
    assert!(rt; are_zeroed_refused(rt.alloc()));
}

const WAITING: &[u8] =
    br#"~ A call of alice to bob that ends at 400. The keeper takes no rows, neither then nor when nothing came until 500.
=server
=keeps:1 2
at 0 peer 1|INVITE sip:bob@home.example SIP/2.0|Via: SIP/2.0/UDP 127.0.0.1:5071;branch=z9hG4bKc1|Max-Forwards: 68|From: "Alice" <sip:alice@home.example>;tag=t1
|To: <sip:bob@home.example>|Call-ID: call1|CSeq: 7 INVITE|Contact: <sip:alice@127.0.0.1:5071>|P-Asserted-Identity: <sip:alice@home.example>|Content-Length: 0|
at 200 peer 1|SIP/2.0 200 OK|Via: SIP/2.0/UDP 127.0.0.1:5060;branch=z9hG4bK0123456789abcdef-4|From: "Alice" <sip:alice@home.example>;tag=0123456789abcdef-3
|To: <sip:bob@home.example>;tag=b1|Call-ID: 0123456789abcdef-2|CSeq: 1 INVITE|Contact: <sip:bob1@127.0.0.1:5071>|Content-Length: 0|
at 300 peer 1|ACK sip:127.0.0.1:5060 SIP/2.0|Via: SIP/2.0/UDP 127.0.0.1:5071;branch=z9hG4bKk1|Max-Forwards: 68|From: "Alice" <sip:alice@home.example>;tag=t1
|To: <sip:bob@home.example>;tag=0123456789abcdef-1|Call-ID: call1|CSeq: 7 ACK|Content-Length: 0|
at 400 peer 1|BYE sip:127.0.0.1:5060 SIP/2.0|Via: SIP/2.0/UDP 127.0.0.1:5071;branch=z9hG4bKy1|Max-Forwards: 68|From: "Alice" <sip:alice@home.example>;tag=t1
|To: <sip:bob@home.example>;tag=0123456789abcdef-1|Call-ID: call1|CSeq: 8 BYE|Content-Length: 0|
at 500 quiet
~ The call is as with any keeper; both rows wait, and nothing is kept.
at 0 to 1|SIP/2.0 100 Trying|Via: SIP/2.0/UDP 127.0.0.1:5071;branch=z9hG4bKc1|From: "Alice" <sip:alice@home.example>;tag=t1|To: <sip:bob@home.example>|Call-ID: call1
|CSeq: 7 INVITE|Content-Length: 0|
at 0 to 1|INVITE sip:bob@home.example SIP/2.0|Via: SIP/2.0/UDP 127.0.0.1:5060;branch=z9hG4bK0123456789abcdef-4|Max-Forwards: 67
|From: "Alice" <sip:alice@home.example>;tag=0123456789abcdef-3|To: <sip:bob@home.example>|Call-ID: 0123456789abcdef-2|CSeq: 1 INVITE|Contact: <sip:127.0.0.1:5060>
|P-Asserted-Identity: <sip:alice@home.example>|Content-Length: 0|
at 200 to 1|SIP/2.0 200 OK|Via: SIP/2.0/UDP 127.0.0.1:5071;branch=z9hG4bKc1|From: "Alice" <sip:alice@home.example>;tag=t1
|To: <sip:bob@home.example>;tag=0123456789abcdef-1|Call-ID: call1|CSeq: 7 INVITE|Contact: <sip:127.0.0.1:5060>|Content-Length: 0|
at 300 to 1|ACK sip:bob1@127.0.0.1:5071 SIP/2.0|Via: SIP/2.0/UDP 127.0.0.1:5060;branch=z9hG4bK0123456789abcdef-5|Max-Forwards: 67
|From: "Alice" <sip:alice@home.example>;tag=0123456789abcdef-3|To: <sip:bob@home.example>;tag=b1|Call-ID: 0123456789abcdef-2|CSeq: 1 ACK|Content-Length: 0|
at 400 to 1|SIP/2.0 200 OK|Via: SIP/2.0/UDP 127.0.0.1:5071;branch=z9hG4bKy1|From: "Alice" <sip:alice@home.example>;tag=t1
|To: <sip:bob@home.example>;tag=0123456789abcdef-1|Call-ID: call1|CSeq: 8 BYE|Content-Length: 0|
at 400 to 1|BYE sip:bob1@127.0.0.1:5071 SIP/2.0|Via: SIP/2.0/UDP 127.0.0.1:5060;branch=z9hG4bK0123456789abcdef-6|Max-Forwards: 67
|From: "Alice" <sip:alice@home.example>;tag=0123456789abcdef-3|To: <sip:bob@home.example>;tag=b1|Call-ID: 0123456789abcdef-2|CSeq: 2 BYE|Content-Length: 0|
rows 2
"#;

/// Rows that the keeper does not store wait in the server.
#[test]
fn waiting_rows(rt: HostRuntime) {
    assert_right(&rt, "WAITING", wrong_run(rt.alloc(), WAITING));
}
