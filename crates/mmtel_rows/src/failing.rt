//! Files, links, keepers and sinks that fail, at each of their first calls, under each command.
//!
//! A table is one text: a script with its settings, its result, and rows; and then the next script. A row has further settings, which count before those of the script; the
//! expected status; and its result then: lines, in which `+N` represents the first N lines of the script's own result. Settings and lines are each ended by `;`.

use crate::asserting::assert_right;
use crate::calls::call_runs;
use crate::cases::{piece, two, writes};
use crate::pages::{Page, add_lines, add_short, is_well, next_line};
use mmtel_base::{plain_number, skip_text, split_once_at};
use mmtel_test_tables::split_or_all;
use std::alloc::Global;

/// The keeper is bound by its first call; it is migrated by its second, and loaded by its third, or asked for its rows by its second. The link is bound by its first call; each
/// event takes one call, reading a web connection one more, and each datagram or reply that is passed to it one. What comes first decides: the words, the configuration, the
/// script, the keeper, the link, the sink.
const FAILING: &[u8] =
    br#"~ serve: Erin calls bob, the operator reads the charges, and the INVITE is sent again, since nobody answered. The link's calls 2, 5, 8 and 10 take in.
=words:serve|server.cfg|--token|0123456789abcdef|--turns|9
=link:
at 0 peer 1|INVITE sip:bob@far.example SIP/2.0|Via: SIP/2.0/UDP 127.0.0.1:5071;branch=z9hG4bKa1|Max-Forwards: 68|From: "Erin" <sip:erin@other.example>;tag=a
|To: <sip:bob@far.example>|Call-ID: c1|CSeq: 7 INVITE|Contact: <sip:erin@127.0.0.1:5071>|P-Asserted-Identity: <sip:erin@other.example>|Privacy: id|Content-Length: 0|
at 10 web|GET /charges HTTP/1.1|X-3GPP-Asserted-Identity: "sip:op@home.example"|
at 500 quiet
~ Datagrams behind their ports, and then the reply; nothing is written.
5071 SIP/2.0 100 Trying
5072 INVITE sip:bob@far.example SIP/2.0
5072 INVITE sip:bob@far.example SIP/2.0
HTTP/1.1 200 OK
~ The file; the keeper; the link; the sink; several of them.
/0/+4;
=words:serve;/1/usage;
=config:peer x;/2/line 1;
=no-config;/5/file;
=reads:1;/5/file;
=reads:2;/0/+4;
=keeps:1;/6/keeper;
=keeps:2;/6/keeper;
=keeps:3;/6/keeper;
=keeps:4;/0/+3;HTTP/1.1 503 Service Unavailable;
=keeps:5;/0/+4;
=link:1;/4/link;
=link:2;/4/link;
=link:3;/0/5071 lost SIP/2.0 100 Trying;5072 INVITE sip:bob@far.example SIP/2.0;5072 INVITE sip:bob@far.example SIP/2.0;HTTP/1.1 200 OK;
=link:4;/0/+1;5072 lost INVITE sip:bob@far.example SIP/2.0;5072 INVITE sip:bob@far.example SIP/2.0;HTTP/1.1 200 OK;
=link:5;/4/link;+2;
=link:6;/0/+3;HTTP/1.1 400 Bad Request;
=link:7;/0/+3;lost HTTP/1.1 200 OK;
=link:8;/4/link;+2;HTTP/1.1 200 OK;
=link:9;/0/+2;5072 lost INVITE sip:bob@far.example SIP/2.0;HTTP/1.1 200 OK;
=link:10;/4/link;+4;
=link:11;/0/+4;
=link:3 4 6 7 9;/0/5071 lost SIP/2.0 100 Trying;5072 lost INVITE sip:bob@far.example SIP/2.0;5072 lost INVITE sip:bob@far.example SIP/2.0;lost HTTP/1.1 400 Bad Request;
=writes:1;/0/+4;
=room:0;/0/+4;
=link:1;=writes:1;/4/
=link:5;=room:0;/4/+2;
=words:serve;=reads:1;=keeps:1;=link:1;=writes:1;/1/
=config:peer x;=keeps:1;=link:1;=writes:1;/2/
=reads:1;=keeps:1;=link:1;/5/file;
=keeps:1;=link:1;/6/keeper;
=keeps:2;=link:1 2;=room:0;/6/
=keeps:4;=link:2;/4/link;
=keeps:4;=link:8;/4/link;+2;HTTP/1.1 503 Service Unavailable;
~ serve: the first turn alone.
=words:serve|server.cfg|--token|0123456789abcdef|--turns|1
=link:
at 0 peer 1|INVITE sip:bob@far.example SIP/2.0|Via: SIP/2.0/UDP 127.0.0.1:5071;branch=z9hG4bKa1|Max-Forwards: 68|From: "Erin" <sip:erin@other.example>;tag=a
|To: <sip:bob@far.example>|Call-ID: c1|CSeq: 7 INVITE|Contact: <sip:erin@127.0.0.1:5071>|P-Asserted-Identity: <sip:erin@other.example>|Privacy: id|Content-Length: 0|
at 10 web|GET /charges HTTP/1.1|X-3GPP-Asserted-Identity: "sip:op@home.example"|
~ Nothing is taken in after it, so the link's fifth call is not made.
5071 SIP/2.0 100 Trying
5072 INVITE sip:bob@far.example SIP/2.0
~ That is told.
/0/+2;
=link:2;/4/link;
=link:5;/0/+2;
=keeps:4;/0/+2;
~ replay: the same of a script. No link is asked.
=link:
at 0 peer 1|INVITE sip:bob@far.example SIP/2.0|Via: SIP/2.0/UDP 127.0.0.1:5071;branch=z9hG4bKa1|Max-Forwards: 68|From: "Erin" <sip:erin@other.example>;tag=a
|To: <sip:bob@far.example>|Call-ID: c1|CSeq: 7 INVITE|Contact: <sip:erin@127.0.0.1:5071>|P-Asserted-Identity: <sip:erin@other.example>|Privacy: id|Content-Length: 0|
at 10 web|GET /charges HTTP/1.1|X-3GPP-Asserted-Identity: "sip:op@home.example"|
~ The listing: 20 lines of the datagrams, and 7 of the reply.
at 0 to 1|SIP/2.0 100 Trying|Via: SIP/2.0/UDP 127.0.0.1:5071;branch=z9hG4bKa1|From: "Erin" <sip:erin@other.example>;tag=a|To: <sip:bob@far.example>|Call-ID: c1
|CSeq: 7 INVITE|Content-Length: 0|
at 0 to 2|INVITE sip:bob@far.example SIP/2.0|Via: SIP/2.0/UDP 127.0.0.1:5060;branch=z9hG4bK0123456789abcdef-4|Max-Forwards: 67
|From: "Anonymous" <sip:anonymous@anonymous.invalid>;tag=0123456789abcdef-3|To: <sip:bob@far.example>|Call-ID: 0123456789abcdef-2|CSeq: 1 INVITE
|Contact: <sip:127.0.0.1:5060>|Content-Length: 0|
at 10 web|HTTP/1.1 200 OK|Content-Type: text/csv|Content-Length: 58|Connection: close|
x6b696e642c6163636f756e742c63616c6c2c626567616e2c616e7377657265642c656e6465642c686f6c64732c63617573652c7374617475730a
~ Both files; the keeper; the link; the sink; several of them.
/0/+99;
=words:replay;/1/usage;
=config:peer x;/2/line 1;
=no-script;/5/file;
=reads:1;/5/file;
=reads:2;/5/file;
=reads:3;/0/+99;
=keeps:1;/6/keeper;
=keeps:2;/6/keeper;
=keeps:3;/6/keeper;
=keeps:4;/0/+20;at 10 web;|HTTP/1.1 503 Service Unavailable;|Content-Length: 0;|Connection: close;|;
=keeps:5;/0/+99;
=link:1 2 3 4;/0/+99;
=writes:1;/7/
=writes:2;/0/+99;
=room:0;/7/
=words:replay;=reads:1;=keeps:1;=writes:1;/1/
=config:peer x;=reads:2;=keeps:1;/2/line 1;
=reads:2;=keeps:1;=writes:1;/5/
=keeps:1;=writes:1;/6/
=keeps:2;=writes:2;/6/keeper;
~ check: a file that is a record.
=words:check|run.script
=link:
=no-config
[communication-waiting]
calls = 8
~ That is told.
ok
~ The file; the sink. No keeper and no link is asked.
/0/+1;
=words:check;/1/usage;
=no-script;/5/file;
=reads:1;/5/file;
=reads:2;/0/+1;
=keeps:1 2;/0/+1;
=link:1 2;/0/+1;
=writes:1;/7/
=writes:2;/0/+1;
=room:0;/7/
=reads:1;=writes:1;/5/
=words:check;=reads:1;=writes:1;/1/
~ check: a file that is none.
=words:check|run.script
=link:
=no-config
calls = 8
~ That is told.
unknown calls
~ The status stays where its line is not written.
/3/+1;
=reads:1;/5/file;
=keeps:1 2;=link:1 2;/3/+1;
=writes:1;/3/
=room:0;/3/
~ charges, of no call.
=words:charges|server.cfg
=link:
=no-script
~ The names of the columns alone.
kind,account,call,began,answered,ended,holds,cause,status
~ The file; the keeper; the sink. No link is asked.
/0/+1;
=words:charges;/1/usage;
=config:peer x;/2/line 1;
=no-config;/5/file;
=reads:1;/5/file;
=reads:2;/0/+1;
=keeps:1;/6/keeper;
=keeps:2;/6/keeper;
=keeps:3;/0/+1;
=link:1 2;/0/+1;
=writes:1;/7/
=writes:2;/0/+1;
=room:0;/7/
=words:charges;=reads:1;=keeps:1;=writes:1;/1/
=config:peer x;=keeps:1;=writes:1;/2/
=reads:1;=keeps:1;/5/file;
=keeps:1;=writes:1;/6/
=keeps:2;=room:0;/6/
~ workload: it has a link and a keeper of its own.
=words:workload|--calls|1|--salt|0
=link:
=no-config
=no-script
~ A call that is answered.
calls 1
offers 7
rows 2
diverted 0
~ The sink alone is asked.
/0/+4;
=words:workload;/1/usage;
=reads:1;/0/+4;
=keeps:1 2 3;/0/+4;
=link:1 2 3;/0/+4;
=writes:1;/7/
=writes:2;/0/+4;
=room:0;/7/
=words:workload;=writes:1;/1/
~ A call of alice to bob, who answers; she ends it at 400; and then the rows of the same store. The keeper's fourth call is handed them, and its next two are those of `charges`.
=words:serve|server.cfg|--token|0123456789abcdef|--turns|9
=then:charges|server.cfg
=link:
at 0 peer 1|INVITE sip:bob@home.example SIP/2.0|Via: SIP/2.0/UDP 127.0.0.1:5071;branch=z9hG4bKc1|Max-Forwards: 68|From: "Alice" <sip:alice@home.example>;tag=t1
|To: <sip:bob@home.example>|Call-ID: call1|CSeq: 7 INVITE|Contact: <sip:alice@127.0.0.1:5071>|P-Asserted-Identity: <sip:alice@home.example>|Content-Length: 0|
at 200 peer 1|SIP/2.0 200 OK|Via: SIP/2.0/UDP 127.0.0.1:5060;branch=z9hG4bK0123456789abcdef-4|From: "Alice" <sip:alice@home.example>;tag=0123456789abcdef-3
|To: <sip:bob@home.example>;tag=b1|Call-ID: 0123456789abcdef-2|CSeq: 1 INVITE|Contact: <sip:bob1@127.0.0.1:5071>|Content-Length: 0|
at 300 peer 1|ACK sip:127.0.0.1:5060 SIP/2.0|Via: SIP/2.0/UDP 127.0.0.1:5071;branch=z9hG4bKk1|Max-Forwards: 68|From: "Alice" <sip:alice@home.example>;tag=t1
|To: <sip:bob@home.example>;tag=0123456789abcdef-1|Call-ID: call1|CSeq: 7 ACK|Content-Length: 0|
at 400 peer 1|BYE sip:127.0.0.1:5060 SIP/2.0|Via: SIP/2.0/UDP 127.0.0.1:5071;branch=z9hG4bKy1|Max-Forwards: 68|From: "Alice" <sip:alice@home.example>;tag=t1
|To: <sip:bob@home.example>;tag=0123456789abcdef-1|Call-ID: call1|CSeq: 8 BYE|Content-Length: 0|
at 500 quiet
~ A row of the caller's account and one of the callee's.
kind,account,call,began,answered,ended,holds,cause,status
origin,1,1,0,200,400,0,ended,0
terminating,2,1,0,200,400,0,ended,0
~ Rows that the keeper does not take are handed to it behind the next event. Where the link fails, those of calls that ended before are kept; a call that lives then has none.
/0/+3;
=keeps:4;/0/+3;
=keeps:4 5;/0/+1;
=keeps:5;/6/keeper;
=keeps:6;/6/keeper;
=keeps:4 7;/6/keeper;
=link:3 4 6 8 10 11;/0/+3;
=link:2;=before:4;/0/+1;
=link:5;=before:4;/0/+1;
=link:7;=before:4;/0/+1;
=link:9;=before:4;/0/+1;
=link:12;=before:4;/0/+3;
=link:12;=keeps:4;=before:4;/0/+1;
=words:serve|server.cfg|--token|0123456789abcdef|--turns|3;/0/+1;
=words:serve|server.cfg|--token|0123456789abcdef|--turns|4;/0/+3;
=words:replay|server.cfg|run.script|--token|0123456789abcdef;/0/+3;
=words:workload|--calls|4|--salt|1;/0/+1;
"#;

/// Bob rings and is busy, and the INVITE is retransmitted before and after each response: the link's calls for input, each of which fails in its turn, and how many of these lines
/// were sent before.
const BUSY: &[u8] = b"5071 SIP/2.0 100 Trying
5071 INVITE sip:bob@home.example SIP/2.0
5071 SIP/2.0 180 Ringing
5071 SIP/2.0 180 Ringing
5071 ACK sip:bob@home.example SIP/2.0
5071 SIP/2.0 486 Busy Here
5071 SIP/2.0 486 Busy Here
5071 SIP/2.0 100 Trying
5071 INVITE sip:bob@home.example SIP/2.0
";

/// The rows of that script.
const BUSY_ROWS: &[u8] = b"/0/+9;
=link:1;/4/link;
=link:2;/4/link;
=link:5;/4/link;+2;
=link:7;/4/link;+3;
=link:9;/4/link;+4;
=link:12;/4/link;+6;
=link:14;/4/link;+7;
=link:15;/4/link;+7;
=link:16;/4/link;+7;
=link:19;/4/link;+9;
=link:20;/0/+9;
";

/// Adds the first lines, of this number.
fn add_front(page: &mut Page, lines: &[u8], digits: &[u8]) {
    let mut rest = lines;
    for _ in 0..plain_number(99, digits).unwrap_or(0) {
        if rest.is_empty() {
            break;
        }
        let (line, later) = next_line(rest);
        page.add(line);
        page.add(b"\n");
        rest = later;
    }
}

/// Adds the expected result of a row, where this is the script's own result.
fn add_due(page: &mut Page, whole: &[u8], due: &[u8]) {
    let mut rest = due;
    for _ in 0..12 {
        match split_once_at(b';', rest) {
            None => break,
            Some((line, later)) => {
                match skip_text(b"+", line) {
                    Some(digits) => add_front(page, whole, digits),
                    None => {
                        page.add(line);
                        page.add(b"\n");
                    }
                }
                rest = later;
            }
        }
    }
}

/// Whether the script with the settings of a row has the result of the row.
fn is_right(alloc: Global, script: &[u8], whole: &[u8], row: &[u8]) -> bool {
    let (settings, rest) = split_or_all(b'/', row);
    let (status, due) = split_or_all(b'/', rest);
    let mut case = Page::new(alloc);
    case.add(b"=status:");
    case.add(status);
    case.add(b"\n");
    add_short(&mut case, settings);
    case.add(script);
    let mut lines = Page::new(alloc);
    add_due(&mut lines, whole, due);
    let right = writes(alloc, case.bytes(), lines.bytes());
    let well = is_well(case);
    is_well(lines) && well && right
}

/// The number of the first row that is wrong, from 1; 0 where none is, of a hundred at most.
fn wrong_row(alloc: Global, script: &[u8], whole: &[u8], rows: &[u8]) -> usize {
    let mut rest = rows;
    for number in 0..100 {
        match split_once_at(b'\n', rest) {
            None => return 0,
            Some((row, later)) => {
                if !is_right(alloc, script, whole, row) {
                    return number + 1;
                }
                rest = later;
            }
        }
    }
    100
}

/// The same of rows over the script's own result, in which each `|` begins a line.
fn wrong_lines(alloc: Global, script: &[u8], whole: &[u8], rows: &[u8]) -> usize {
    let mut lines = Page::new(alloc);
    add_lines(&mut lines, whole);
    let wrong = wrong_row(alloc, script, lines.bytes(), rows);
    if is_well(lines) { wrong } else { 100 }
}

/// The number of the first script of a table of which a row is wrong, from 1; 0 where there is none, of twenty at most.
fn wrong_failure(alloc: Global, table: &[u8]) -> usize {
    let mut rest = table;
    for number in 0..20 {
        if rest.is_empty() {
            return 0;
        }
        let (script, whole, later) = two(rest).unwrap_or((b"", b"", b""));
        let (rows, later) = piece(later).unwrap_or((b"?\n", b""));
        if wrong_lines(alloc, script, whole, rows) != 0 {
            return number + 1;
        }
        rest = later;
    }
    20
}

/// Every device of every command fails.
#[test]
fn failing_devices(rt: HostRuntime) {
    assert_right(&rt, "FAILING", wrong_failure(rt.alloc(), FAILING));
}

/// The number of the first row of a call to a busy user that is wrong, where it is served.
fn wrong_busy(alloc: Global) -> usize {
    let (script, _, _) = two(call_runs()).unwrap_or((b"", b"", b""));
    let mut served = Page::new(alloc);
    served.add(b"=link:\n=words:serve|server.cfg|--token|0123456789abcdef|--turns|99\n");
    served.add(script);
    let wrong = wrong_row(alloc, served.bytes(), BUSY, BUSY_ROWS);
    if is_well(served) { wrong } else { 100 }
}

/// A link of which a `next` fails is status 4, wherever it is, and what was due before was sent on it.
#[test]
fn failing_links(rt: HostRuntime) {
    assert_right(&rt, "busy", wrong_busy(rt.alloc()));
}
