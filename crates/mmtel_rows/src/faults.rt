//! Calls over keepers and sinks that fail, and datagrams that are truncated.

use crate::asserting::assert_right;
use crate::calls::call_runs;
use crate::cases::{two, writes, wrong_run};
use crate::pages::{Page, add_lines, add_short, is_well};
use mmtel_base::split_once_at;
use mmtel_test_tables::split_or_all;
use std::alloc::Global;

/// The bytes of a datagram, an INVITE of Erin to bob.
const DATAGRAM: &[u8] =
    b"494e56495445207369703a626f62406661722e6578616d706c65205349502f322e300d0a5669613a205349502f322e302f554450203132372e302e302e313a353037313b6272616e63683d7a39684734\
    624b61310d0a4d61782d466f7277617264733a2036380d0a46726f6d3a20224572696e22203c7369703a6572696e406f746865722e6578616d706c653e3b7461673d610d0a546f3a203c7369703a626f\
    62406661722e6578616d706c653e0d0a43616c6c2d49443a2063310d0a435365713a203720494e564954450d0a436f6e746163743a203c7369703a6572696e403132372e302e302e313a353037313e0d\
    0a502d41737365727465642d4964656e746974793a203c7369703a6572696e406f746865722e6578616d706c653e0d0a507269766163793a2069640d0a436f6e74656e742d4c656e6774683a20300d0a\
    0d0a";

/// These bytes, for a test of another module too.
pub fn erins_invite() -> &'static [u8] {
    DATAGRAM
}

/// A script of one datagram for each proper prefix of these bytes.
fn beginnings(script: &mut Page) {
    for place in 0..DATAGRAM.len() {
        if place % 2 == 0 {
            script.add(b"at 0 peer 1\nx");
            script.add(DATAGRAM.get(..place).unwrap_or(b"?"));
            script.add(b"\n");
        }
    }
}

fn are_cut_dropped(alloc: Global) -> bool {
    let mut script = Page::new(alloc);
    beginnings(&mut script);
    let right = writes(alloc, script.bytes(), b"");
    is_well(script) && right
}

/// A datagram that is truncated has no result.
#[test]
fn cut_datagrams(rt: HostRuntime) {
    assert!(rt; are_cut_dropped(rt.alloc()));
}

/// Rows that the keeper does not store wait for the end of the next event; the status is 0. The keeper is bound, migrated and loaded; then rows are handed to it, which is its
/// fourth call. The operator's requests are calls of it too, in the last run its sixth and its eighth.
const FAILING: &[u8] =
    br#"~ A call of alice to bob that ends at 400, when the keeper fails for the first time; then the operator reads the charges twice.
=keeps:4
at 0 peer 1|INVITE sip:bob@home.example SIP/2.0|Via: SIP/2.0/UDP 127.0.0.1:5071;branch=z9hG4bKc1|Max-Forwards: 68|From: "Alice" <sip:alice@home.example>;tag=t1
|To: <sip:bob@home.example>|Call-ID: call1|CSeq: 7 INVITE|Contact: <sip:alice@127.0.0.1:5071>|P-Asserted-Identity: <sip:alice@home.example>|Content-Length: 0|
at 200 peer 1|SIP/2.0 200 OK|Via: SIP/2.0/UDP 127.0.0.1:5060;branch=z9hG4bK0123456789abcdef-4|From: "Alice" <sip:alice@home.example>;tag=0123456789abcdef-3
|To: <sip:bob@home.example>;tag=b1|Call-ID: 0123456789abcdef-2|CSeq: 1 INVITE|Contact: <sip:bob1@127.0.0.1:5071>|Content-Length: 0|
at 300 peer 1|ACK sip:127.0.0.1:5060 SIP/2.0|Via: SIP/2.0/UDP 127.0.0.1:5071;branch=z9hG4bKk1|Max-Forwards: 68|From: "Alice" <sip:alice@home.example>;tag=t1
|To: <sip:bob@home.example>;tag=0123456789abcdef-1|Call-ID: call1|CSeq: 7 ACK|Content-Length: 0|
at 400 peer 1|BYE sip:127.0.0.1:5060 SIP/2.0|Via: SIP/2.0/UDP 127.0.0.1:5071;branch=z9hG4bKy1|Max-Forwards: 68|From: "Alice" <sip:alice@home.example>;tag=t1
|To: <sip:bob@home.example>;tag=0123456789abcdef-1|Call-ID: call1|CSeq: 8 BYE|Content-Length: 0|
at 401 web|GET /charges HTTP/1.1|X-3GPP-Asserted-Identity: "sip:op@home.example"|
at 402 web|GET /charges HTTP/1.1|X-3GPP-Asserted-Identity: "sip:op@home.example"|
~ Both rows wait, and are kept at the end of the next event.
at 0 to 1|SIP/2.0 100 Trying|Via: SIP/2.0/UDP 127.0.0.1:5071;branch=z9hG4bKc1|From: "Alice" <sip:alice@home.example>;tag=t1|To: <sip:bob@home.example>|Call-ID: call1
|CSeq: 7 INVITE|Content-Length: 0|
at 0 to 1|INVITE sip:bob@home.example SIP/2.0|Via: SIP/2.0/UDP 127.0.0.1:5060;branch=z9hG4bK0123456789abcdef-4|Max-Forwards: 67
|From: "Alice" <sip:alice@home.example>;tag=0123456789abcdef-3|To: <sip:bob@home.example>|Call-ID: 0123456789abcdef-2|CSeq: 1 INVITE|Contact: <sip:127.0.0.1:5060>
|P-Asserted-Identity: <sip:alice@home.example>|Content-Length: 0|
at 200 to 1|SIP/2.0 200 OK|Via: SIP/2.0/UDP 127.0.0.1:5071;branch=z9hG4bKc1|From: "Alice" <sip:alice@home.example>;tag=t1
|To: <sip:bob@home.example>;tag=0123456789abcdef-1|Call-ID: call1|CSeq: 7 INVITE|Contact: <sip:127.0.0.1:5060>|Content-Length: 0|
at 300 to 1|ACK sip:bob1@127.0.0.1:5071 SIP/2.0|Via: SIP/2.0/UDP 127.0.0.1:5060;branch=z9hG4bK0123456789abcdef-5|Max-Forwards: 67
|From: "Alice" <sip:alice@home.example>;tag=0123456789abcdef-3|To: <sip:bob@home.example>;tag=b1|Call-ID: 0123456789abcdef-2|CSeq: 1 ACK|Content-Length: 0|
at 400 to 1|SIP/2.0 200 OK|Via: SIP/2.0/UDP 127.0.0.1:5071;branch=z9hG4bKy1|From: "Alice" <sip:alice@home.example>;tag=t1
|To: <sip:bob@home.example>;tag=0123456789abcdef-1|Call-ID: call1|CSeq: 8 BYE|Content-Length: 0|
at 400 to 1|BYE sip:bob1@127.0.0.1:5071 SIP/2.0|Via: SIP/2.0/UDP 127.0.0.1:5060;branch=z9hG4bK0123456789abcdef-6|Max-Forwards: 67
|From: "Alice" <sip:alice@home.example>;tag=0123456789abcdef-3|To: <sip:bob@home.example>;tag=b1|Call-ID: 0123456789abcdef-2|CSeq: 2 BYE|Content-Length: 0|
at 401 web|HTTP/1.1 200 OK|Content-Type: text/csv|Content-Length: 58|Connection: close|
x6b696e642c6163636f756e742c63616c6c2c626567616e2c616e7377657265642c656e6465642c686f6c64732c63617573652c7374617475730a
at 402 web|HTTP/1.1 200 OK|Content-Type: text/csv|Content-Length: 125|Connection: close|
x6b696e642c6163636f756e742c63616c6c2c626567616e2c616e7377657265642c656e6465642c686f6c64732c63617573652c7374617475730a6f726967696e2c312c312c302c3230302c3430302c3\
02c656e6465642c300a7465726d696e6174696e672c322c312c302c3230302c3430302c302c656e6465642c300a
~ The same, and nothing comes for a while before the operator asks.
=keeps:4
at 0 peer 1|INVITE sip:bob@home.example SIP/2.0|Via: SIP/2.0/UDP 127.0.0.1:5071;branch=z9hG4bKc1|Max-Forwards: 68|From: "Alice" <sip:alice@home.example>;tag=t1
|To: <sip:bob@home.example>|Call-ID: call1|CSeq: 7 INVITE|Contact: <sip:alice@127.0.0.1:5071>|P-Asserted-Identity: <sip:alice@home.example>|Content-Length: 0|
at 200 peer 1|SIP/2.0 200 OK|Via: SIP/2.0/UDP 127.0.0.1:5060;branch=z9hG4bK0123456789abcdef-4|From: "Alice" <sip:alice@home.example>;tag=0123456789abcdef-3
|To: <sip:bob@home.example>;tag=b1|Call-ID: 0123456789abcdef-2|CSeq: 1 INVITE|Contact: <sip:bob1@127.0.0.1:5071>|Content-Length: 0|
at 300 peer 1|ACK sip:127.0.0.1:5060 SIP/2.0|Via: SIP/2.0/UDP 127.0.0.1:5071;branch=z9hG4bKk1|Max-Forwards: 68|From: "Alice" <sip:alice@home.example>;tag=t1
|To: <sip:bob@home.example>;tag=0123456789abcdef-1|Call-ID: call1|CSeq: 7 ACK|Content-Length: 0|
at 400 peer 1|BYE sip:127.0.0.1:5060 SIP/2.0|Via: SIP/2.0/UDP 127.0.0.1:5071;branch=z9hG4bKy1|Max-Forwards: 68|From: "Alice" <sip:alice@home.example>;tag=t1
|To: <sip:bob@home.example>;tag=0123456789abcdef-1|Call-ID: call1|CSeq: 8 BYE|Content-Length: 0|
at 500 quiet
at 501 web|GET /charges HTTP/1.1|X-3GPP-Asserted-Identity: "sip:op@home.example"|
~ They are kept when nothing came.
at 0 to 1|SIP/2.0 100 Trying|Via: SIP/2.0/UDP 127.0.0.1:5071;branch=z9hG4bKc1|From: "Alice" <sip:alice@home.example>;tag=t1|To: <sip:bob@home.example>|Call-ID: call1
|CSeq: 7 INVITE|Content-Length: 0|
at 0 to 1|INVITE sip:bob@home.example SIP/2.0|Via: SIP/2.0/UDP 127.0.0.1:5060;branch=z9hG4bK0123456789abcdef-4|Max-Forwards: 67
|From: "Alice" <sip:alice@home.example>;tag=0123456789abcdef-3|To: <sip:bob@home.example>|Call-ID: 0123456789abcdef-2|CSeq: 1 INVITE|Contact: <sip:127.0.0.1:5060>
|P-Asserted-Identity: <sip:alice@home.example>|Content-Length: 0|
at 200 to 1|SIP/2.0 200 OK|Via: SIP/2.0/UDP 127.0.0.1:5071;branch=z9hG4bKc1|From: "Alice" <sip:alice@home.example>;tag=t1
|To: <sip:bob@home.example>;tag=0123456789abcdef-1|Call-ID: call1|CSeq: 7 INVITE|Contact: <sip:127.0.0.1:5060>|Content-Length: 0|
at 300 to 1|ACK sip:bob1@127.0.0.1:5071 SIP/2.0|Via: SIP/2.0/UDP 127.0.0.1:5060;branch=z9hG4bK0123456789abcdef-5|Max-Forwards: 67
|From: "Alice" <sip:alice@home.example>;tag=0123456789abcdef-3|To: <sip:bob@home.example>;tag=b1|Call-ID: 0123456789abcdef-2|CSeq: 1 ACK|Content-Length: 0|
at 400 to 1|SIP/2.0 200 OK|Via: SIP/2.0/UDP 127.0.0.1:5071;branch=z9hG4bKy1|From: "Alice" <sip:alice@home.example>;tag=t1
|To: <sip:bob@home.example>;tag=0123456789abcdef-1|Call-ID: call1|CSeq: 8 BYE|Content-Length: 0|
at 400 to 1|BYE sip:bob1@127.0.0.1:5071 SIP/2.0|Via: SIP/2.0/UDP 127.0.0.1:5060;branch=z9hG4bK0123456789abcdef-6|Max-Forwards: 67
|From: "Alice" <sip:alice@home.example>;tag=0123456789abcdef-3|To: <sip:bob@home.example>;tag=b1|Call-ID: 0123456789abcdef-2|CSeq: 2 BYE|Content-Length: 0|
at 501 web|HTTP/1.1 200 OK|Content-Type: text/csv|Content-Length: 125|Connection: close|
x6b696e642c6163636f756e742c63616c6c2c626567616e2c616e7377657265642c656e6465642c686f6c64732c63617573652c7374617475730a6f726967696e2c312c312c302c3230302c3430302c3\
02c656e6465642c300a7465726d696e6174696e672c322c312c302c3230302c3430302c302c656e6465642c300a
~ The same call, and each time that rows are handed over the keeper fails.
=keeps:4 5 7 9
at 0 peer 1|INVITE sip:bob@home.example SIP/2.0|Via: SIP/2.0/UDP 127.0.0.1:5071;branch=z9hG4bKc1|Max-Forwards: 68|From: "Alice" <sip:alice@home.example>;tag=t1
|To: <sip:bob@home.example>|Call-ID: call1|CSeq: 7 INVITE|Contact: <sip:alice@127.0.0.1:5071>|P-Asserted-Identity: <sip:alice@home.example>|Content-Length: 0|
at 200 peer 1|SIP/2.0 200 OK|Via: SIP/2.0/UDP 127.0.0.1:5060;branch=z9hG4bK0123456789abcdef-4|From: "Alice" <sip:alice@home.example>;tag=0123456789abcdef-3
|To: <sip:bob@home.example>;tag=b1|Call-ID: 0123456789abcdef-2|CSeq: 1 INVITE|Contact: <sip:bob1@127.0.0.1:5071>|Content-Length: 0|
at 300 peer 1|ACK sip:127.0.0.1:5060 SIP/2.0|Via: SIP/2.0/UDP 127.0.0.1:5071;branch=z9hG4bKk1|Max-Forwards: 68|From: "Alice" <sip:alice@home.example>;tag=t1
|To: <sip:bob@home.example>;tag=0123456789abcdef-1|Call-ID: call1|CSeq: 7 ACK|Content-Length: 0|
at 400 peer 1|BYE sip:127.0.0.1:5060 SIP/2.0|Via: SIP/2.0/UDP 127.0.0.1:5071;branch=z9hG4bKy1|Max-Forwards: 68|From: "Alice" <sip:alice@home.example>;tag=t1
|To: <sip:bob@home.example>;tag=0123456789abcdef-1|Call-ID: call1|CSeq: 8 BYE|Content-Length: 0|
at 500 quiet
at 501 web|GET /charges HTTP/1.1|X-3GPP-Asserted-Identity: "sip:op@home.example"|
at 502 web|GET /charges HTTP/1.1|X-3GPP-Asserted-Identity: "sip:op@home.example"|
~ No row is kept.
at 0 to 1|SIP/2.0 100 Trying|Via: SIP/2.0/UDP 127.0.0.1:5071;branch=z9hG4bKc1|From: "Alice" <sip:alice@home.example>;tag=t1|To: <sip:bob@home.example>|Call-ID: call1
|CSeq: 7 INVITE|Content-Length: 0|
at 0 to 1|INVITE sip:bob@home.example SIP/2.0|Via: SIP/2.0/UDP 127.0.0.1:5060;branch=z9hG4bK0123456789abcdef-4|Max-Forwards: 67
|From: "Alice" <sip:alice@home.example>;tag=0123456789abcdef-3|To: <sip:bob@home.example>|Call-ID: 0123456789abcdef-2|CSeq: 1 INVITE|Contact: <sip:127.0.0.1:5060>
|P-Asserted-Identity: <sip:alice@home.example>|Content-Length: 0|
at 200 to 1|SIP/2.0 200 OK|Via: SIP/2.0/UDP 127.0.0.1:5071;branch=z9hG4bKc1|From: "Alice" <sip:alice@home.example>;tag=t1
|To: <sip:bob@home.example>;tag=0123456789abcdef-1|Call-ID: call1|CSeq: 7 INVITE|Contact: <sip:127.0.0.1:5060>|Content-Length: 0|
at 300 to 1|ACK sip:bob1@127.0.0.1:5071 SIP/2.0|Via: SIP/2.0/UDP 127.0.0.1:5060;branch=z9hG4bK0123456789abcdef-5|Max-Forwards: 67
|From: "Alice" <sip:alice@home.example>;tag=0123456789abcdef-3|To: <sip:bob@home.example>;tag=b1|Call-ID: 0123456789abcdef-2|CSeq: 1 ACK|Content-Length: 0|
at 400 to 1|SIP/2.0 200 OK|Via: SIP/2.0/UDP 127.0.0.1:5071;branch=z9hG4bKy1|From: "Alice" <sip:alice@home.example>;tag=t1
|To: <sip:bob@home.example>;tag=0123456789abcdef-1|Call-ID: call1|CSeq: 8 BYE|Content-Length: 0|
at 400 to 1|BYE sip:bob1@127.0.0.1:5071 SIP/2.0|Via: SIP/2.0/UDP 127.0.0.1:5060;branch=z9hG4bK0123456789abcdef-6|Max-Forwards: 67
|From: "Alice" <sip:alice@home.example>;tag=0123456789abcdef-3|To: <sip:bob@home.example>;tag=b1|Call-ID: 0123456789abcdef-2|CSeq: 2 BYE|Content-Length: 0|
at 501 web|HTTP/1.1 200 OK|Content-Type: text/csv|Content-Length: 58|Connection: close|
x6b696e642c6163636f756e742c63616c6c2c626567616e2c616e7377657265642c656e6465642c686f6c64732c63617573652c7374617475730a
at 502 web|HTTP/1.1 200 OK|Content-Type: text/csv|Content-Length: 58|Connection: close|
x6b696e642c6163636f756e742c63616c6c2c626567616e2c616e7377657265642c656e6465642c686f6c64732c63617573652c7374617475730a
"#;

/// The table, for several tests.
pub fn failing_runs() -> &'static [u8] {
    FAILING
}

#[test]
fn failing_rows(rt: HostRuntime) {
    assert_right(&rt, "FAILING", wrong_run(rt.alloc(), failing_runs()));
}

/// What `charges` returns and writes over the keeper that the first run of these left: the numbers of the keeper's calls that fail, the status and the lines. The run makes six
/// calls of the keeper, or seven where the fourth fails; `charges` binds it and then requests the rows, of which the keeper has two, also where it stored them late.
const CHARGES: &[u8] =
    b"|0|kind,account,call,began,answered,ended,holds,cause,status;origin,1,1,0,200,400,0,ended,0;terminating,2,1,0,200,400,0,ended,0;
4|0|kind,account,call,began,answered,ended,holds,cause,status;origin,1,1,0,200,400,0,ended,0;terminating,2,1,0,200,400,0,ended,0;
7|6|keeper;
8|6|keeper;
9|0|kind,account,call,began,answered,ended,holds,cause,status;origin,1,1,0,200,400,0,ended,0;terminating,2,1,0,200,400,0,ended,0;
4 9|6|keeper;
";

/// Whether it is as a row says, after a run of this script.
fn is_charged(alloc: Global, script: &[u8], row: &[u8]) -> bool {
    let (keeps, rest) = split_or_all(b'|', row);
    let (status, lines) = split_or_all(b'|', rest);
    let mut case = Page::new(alloc);
    case.add(b"=then:charges|server.cfg\n=keeps:");
    case.add(keeps);
    case.add(b"\n=status:");
    case.add(status);
    case.add(b"\n");
    case.add(script);
    let mut due = Page::new(alloc);
    add_short(&mut due, lines);
    let right = writes(alloc, case.bytes(), due.bytes());
    let well = is_well(case);
    is_well(due) && well && right
}

/// The number of the first row that is wrong, from 1; 0 where none is, of a hundred at most.
fn wrong_charge(alloc: Global, script: &[u8], table: &[u8]) -> usize {
    let mut rest = table;
    for number in 0..100 {
        match split_once_at(b'\n', rest) {
            None => return 0,
            Some((row, later)) => {
                if !is_charged(alloc, script, row) {
                    return number + 1;
                }
                rest = later;
            }
        }
    }
    100
}

#[test]
fn charged_rows(rt: HostRuntime) {
    let wrong = match two(failing_runs()) {
        Some((script, _, _)) => wrong_charge(rt.alloc(), script, CHARGES),
        None => 1,
    };
    assert_right(&rt, "CHARGES", wrong);
}

/// Whether a run of the script over a sink that accepts seven bytes a write, of which the one after so many bytes fails, writes these bytes of the listing alone.
fn is_cut(alloc: Global, script: &[u8], listing: &[u8], place: usize) -> bool {
    let mut case = Page::new(alloc);
    case.add(b"=status:7\n=most:7\n=writes:");
    case.add_number(place as u64 / 7 + 1);
    case.add(b"\n");
    case.add(script);
    let due = listing.get(..place).unwrap_or(b"?");
    let right = writes(alloc, case.bytes(), due);
    is_well(case) && right
}

/// Whether this holds for each write.
fn is_cut_anywhere(alloc: Global, script: &[u8], listing: &[u8]) -> bool {
    (0..listing.len()).all(|place| place % 7 != 0 || is_cut(alloc, script, listing, place))
}

/// Whether this holds for a script and a listing in which each `|` begins a line.
fn are_listings_cut(alloc: Global, script: &[u8], listing: &[u8]) -> bool {
    let mut due = Page::new(alloc);
    add_lines(&mut due, listing);
    let cut = !due.bytes().is_empty() && is_cut_anywhere(alloc, script, due.bytes());
    drop(due);
    cut
}

/// Whether this holds for the first run of a table.
fn is_first_cut(alloc: Global, table: &[u8]) -> bool {
    let (script, listing, _) = two(table).unwrap_or((b"", b"", b""));
    are_listings_cut(alloc, script, listing)
}

/// A listing that a sink truncates is status 7, wherever it is.
#[test]
fn cut_listings(rt: HostRuntime) {
    assert!(rt; is_first_cut(rt.alloc(), call_runs()));
}
