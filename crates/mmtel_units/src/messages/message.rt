//! SIP messages: the results for the standards' examples, for damaged messages and at the limits, and the edits.

use crate::asserting::assert_right;
use crate::messages::drafts::{of_lines, request};
use crate::messages::spans::are_right;
use mmtel_lex::{List, NoMemory, Text};
use mmtel_message::{
    Mode, Msg, ReadFault, Start, is_readable, joined_by, line_texts, param_value, read, read_cseq,
    read_five, read_via, reply_with, values_in, values_named,
};
use mmtel_test_tables::{Transcript, next_line};
use std::alloc::Global;

/// The code of a response; 0 of a request.
fn code_of(message: &Msg) -> u16 {
    match message.start() {
        Start::Status { code, phrase: _ } => *code,
        Start::Request { method: _, uri: _ } => 0,
    }
}

/// Writes the code of a reply, or `none`.
fn write_code(transcript: &mut Transcript, reply: &Option<Msg>) {
    match reply {
        Some(reply) => transcript.add_number(u64::from(code_of(reply))),
        None => transcript.add(b"none"),
    }
}

/// Writes a refusal and the code of its reply.
fn write_fault(transcript: &mut Transcript, fault: &ReadFault) {
    match fault {
        ReadFault::TooLarge { reply } => {
            transcript.add(b"too large, ");
            write_code(transcript, reply);
        }
        ReadFault::NotSip => transcript.add(b"not sip"),
        ReadFault::TooMany { reply } => {
            transcript.add(b"too many, ");
            write_code(transcript, reply);
        }
        ReadFault::Bad { at, reply } => {
            transcript.add(b"bad ");
            transcript.add_number(*at as u64);
            transcript.add(b", ");
            write_code(transcript, reply);
        }
        ReadFault::NoMemory => transcript.fail(),
    }
}

/// Writes the result for the bytes: `read`, or the refusal and the code of its reply.
fn write_outcome(transcript: &mut Transcript, bytes: &[u8]) {
    match read(transcript.alloc, bytes) {
        Ok(message) => {
            transcript.fail_unless(are_right(&message));
            drop(message);
            transcript.add(b"read");
        }
        Err(fault) => {
            write_fault(transcript, &fault);
            drop(fault);
        }
    }
}

/// Writes the text of a message.
fn write_message(transcript: &mut Transcript, message: &Msg) {
    let text = message.text(transcript.alloc);
    let text = transcript.text_or_fail(text);
    transcript.add(text.bytes());
}

/// Writes the text of the reply that a refusal carries, where it carries one.
fn write_refusal(transcript: &mut Transcript, fault: &ReadFault) {
    match fault {
        ReadFault::TooLarge { reply: Some(reply) } => write_message(transcript, reply),
        ReadFault::TooMany { reply: Some(reply) } => write_message(transcript, reply),
        ReadFault::Bad {
            at: _,
            reply: Some(reply),
        } => write_message(transcript, reply),
        _ => {}
    }
}

/// Writes the text of the message that is read, or of the reply.
fn write_own_response(transcript: &mut Transcript, bytes: &[u8]) {
    match read(transcript.alloc, bytes) {
        Ok(message) => {
            write_message(transcript, &message);
            transcript.fail_unless(are_right(&message));
            drop(message);
        }
        Err(fault) => {
            write_refusal(transcript, &fault);
            drop(fault);
        }
    }
}

/// Header fields that many messages of the tables have, which `&` represents.
const USUAL: &[u8] =
    b"Via: SIP/2.0/UDP a.example;branch=z9hG4bKa1\r\nFrom: <sip:a@h>;tag=a\r\nTo:\r\n\t<sip:b@h>\t\r\nCall-ID: c1\r\n";

/// Adds a header field of a message, or the usual ones.
fn add_header(transcript: &mut Transcript, line: &[u8]) {
    if line == b"&".as_slice() {
        transcript.add(USUAL);
    } else {
        transcript.add(line);
        transcript.add(b"\r\n");
    }
}

/// Adds the lines of a table up to one that begins with `mark`, each ended by CRLF; returns that line without the mark, and what follows it.
fn add_block<'a>(transcript: &mut Transcript, mark: u8, table: &'a [u8]) -> (&'a [u8], &'a [u8]) {
    let mut rest = table;
    for _ in 0..200 {
        let (line, after) = next_line(rest);
        rest = after;
        match line {
            [first, end @ ..] if *first == mark => return (end, rest),
            _ => add_header(transcript, line),
        }
    }
    (b"", rest)
}

/// Messages and, after a line `#`, the text that each is read as; a line `#` ends that.
///
/// The first is the registration of RFC 3261 §24.1, the second the BYE of §24.2; each is printed as it was. The third has what the profile accepts: folds, compact names, names in
/// other case, commas, several Privacy and Allow header fields, bytes after the body.
const READ: &[u8] = br##"REGISTER sip:registrar.biloxi.com SIP/2.0
Via: SIP/2.0/UDP bobspc.biloxi.com:5060;branch=z9hG4bKnashds7
Max-Forwards: 70
To: Bob <sip:bob@biloxi.com>
From: Bob <sip:bob@biloxi.com>;tag=456248
Call-ID: 843817637684230@998sdasdh09
CSeq: 1826 REGISTER
Contact: <sip:bob@192.0.2.4>
Expires: 7200
Content-Length: 0

#
REGISTER sip:registrar.biloxi.com SIP/2.0
Via: SIP/2.0/UDP bobspc.biloxi.com:5060;branch=z9hG4bKnashds7
Max-Forwards: 70
To: Bob <sip:bob@biloxi.com>
From: Bob <sip:bob@biloxi.com>;tag=456248
Call-ID: 843817637684230@998sdasdh09
CSeq: 1826 REGISTER
Contact: <sip:bob@192.0.2.4>
Expires: 7200
Content-Length: 0

#
BYE sip:alice@pc33.atlanta.com SIP/2.0
Via: SIP/2.0/UDP 192.0.2.4;branch=z9hG4bKnashds10
Max-Forwards: 70
From: Bob <sip:bob@biloxi.com>;tag=a6c85cf
To: Alice <sip:alice@atlanta.com>;tag=1928301774
Call-ID: a84b4c76e66710
CSeq: 231 BYE
Content-Length: 0

#
BYE sip:alice@pc33.atlanta.com SIP/2.0
Via: SIP/2.0/UDP 192.0.2.4;branch=z9hG4bKnashds10
Max-Forwards: 70
From: Bob <sip:bob@biloxi.com>;tag=a6c85cf
To: Alice <sip:alice@atlanta.com>;tag=1928301774
Call-ID: a84b4c76e66710
CSeq: 231 BYE
Content-Length: 0

#
INVITE sip:bob@home.example
 SIP/2.0
v: SIP/2.0/UDP 127.0.0.1:5071;Branch=z9hG4bKa1 ,SIP/2.0/TCP h.example;branch=z9hG4bKa0
VIA : SIP/2.0/UDP e.example
f: "Erin, of \"E\"" <sip:erin@other.example>;TAG=a
t:<sip:bob@home.example>
i: c1
cseq: 0007
 INVITE
m: <sip:erin@127.0.0.1:5071,5072>
SUBJECT: one  
    two
privacy: id ; Header
P-Asserted-Identity: "Erin" <sip:erin@other.example>, <tel:+4930111>
X-Thing: as it stands
Allow: INVITE,ACK
Supported: 100rel,
privacy: x-new
X : 90
allow:BYE
max-forwards: 068
l: 2

abcd
#
INVITE sip:bob@home.example SIP/2.0
Via: SIP/2.0/UDP 127.0.0.1:5071;Branch=z9hG4bKa1
Via: SIP/2.0/TCP h.example;branch=z9hG4bKa0
Via: SIP/2.0/UDP e.example
From: "Erin, of \"E\"" <sip:erin@other.example>;TAG=a
To: <sip:bob@home.example>
Call-ID: c1
CSeq: 0007 INVITE
Contact: <sip:erin@127.0.0.1:5071,5072>
Subject: one two
Privacy: id;Header;x-new
P-Asserted-Identity: "Erin" <sip:erin@other.example>
P-Asserted-Identity: <tel:+4930111>
X-Thing: as it stands
Allow: INVITE, ACK, BYE
Supported: 100rel
Supported: 
Session-Expires: 90
Max-Forwards: 068
Content-Length: 2

#ab
INVITE sip:bob@home.example SIP/2.0
v: SIP/2.0/UDP a.example;branch=abc,SIP/2.0/UDP b.example
Not a header line
To: <sip:bob@home.example>
From: <sip:erin@other.example>;tag=a
CSeq: 7 INVITE
Call-ID: c1

#
SIP/2.0 400 Bad Request
Via: SIP/2.0/UDP a.example;branch=abc
Via: SIP/2.0/UDP b.example
From: <sip:erin@other.example>;tag=a
To: <sip:bob@home.example>
Call-ID: c1
CSeq: 7 INVITE
Content-Length: 0

#
"##;

/// Adds the result for the first message of a table, and the expected text; returns what follows them.
fn add_read<'a>(came: &mut Transcript, wanted: &mut Transcript, table: &'a [u8]) -> &'a [u8] {
    let mut text = Transcript::new(came.alloc);
    let (end, rest) = add_block(&mut text, b'#', table);
    text.add(end);
    write_own_response(came, text.whole());
    let (end, rest) = add_block(wanted, b'#', rest);
    wanted.add(end);
    rest
}

/// The number of the first line in which the messages of a table are read otherwise; 0 where there is none.
fn wrong_read(alloc: Global, table: &[u8]) -> usize {
    let mut came = Transcript::new(alloc);
    let mut wanted = Transcript::new(alloc);
    let mut rows = table;
    for _ in 0..10 {
        if !rows.is_empty() {
            rows = add_read(&mut came, &mut wanted, rows);
        }
    }
    came.wrong_line(wanted.whole())
}

/// Messages and the result of each: the torture tests of RFC 4475 §3.1.1 that the profile reads or refuses for their spaces, and those of §3.1.2, in their order. The profile
/// allows no space around `;` and `=`, so it refuses the first two, the second of which is the 200 of RFC 3261 §24.1.
const TORTURE: &[u8] = br##"INVITE sip:vivekg@chair-dnrc.example.com;unknownparam SIP/2.0
TO :
 sip:vivekg@chair-dnrc.example.com ;   tag    = 1918181833n
from   : "J Rosenberg \\\""       <sip:jdrosen@example.com>
  ;
  tag = 98asjd8
MaX-fOrWaRdS: 0068
Call-ID: wsinv.ndaksdj@192.0.2.1
Content-Length   : 0
cseq: 0009
  INVITE
Via  : SIP  /   2.0
 /UDP
    192.0.2.2;branch=390skdjuw

= not sip
SIP/2.0 200 OK
Via: SIP/2.0/UDP bobspc.biloxi.com:5060;branch=z9hG4bKnashds7
 ;received=192.0.2.4
To: Bob <sip:bob@biloxi.com>;tag=2493k59kd
From: Bob <sip:bob@biloxi.com>;tag=456248
Call-ID: 843817637684230@998sdasdh09
CSeq: 1826 REGISTER
Contact: <sip:bob@192.0.2.4>
Expires: 7200
Content-Length: 0

= not sip
REGISTER sip:example.com SIP/2.0
To: sip:null-%00-null@example.com
From: sip:null-%00-null@example.com;tag=839923423
Max-Forwards: 70
Call-ID: escnull.39203ndfvkjdasfkq3w4otrq0adsfdfnavd
CSeq: 14398234 REGISTER
Via: SIP/2.0/UDP host5.example.com;branch=z9hG4bKkdjuw
Contact: <sip:%00@example.com>
Contact: <sip:%00%00@example.com>
L:0

= read
RE%47IST%45R sip:registrar.example.com SIP/2.0
To: "%Z%45" <sip:resource@example.com>
From: "%Z%45" <sip:resource@example.com>;tag=f232jadfj23
Call-ID: esc02.asdfnqwo34rq23i34jrjasdcnl23nrlknsdf
Via: SIP/2.0/TCP host.example.com;branch=z9hG4bK209%fzsnel234
CSeq: 29344 RE%47IST%45R
Max-Forwards: 70
Contact: <sip:alias1@host1.example.com>
C%6Fntact: <sip:alias2@host2.example.com>
Contact: <sip:alias3@host3.example.com>
l: 0

= read
OPTIONS sip:user@example.com SIP/2.0
To: sip:user@example.com
From: caller<sip:caller@example.com>;tag=323
Max-Forwards: 70
Call-ID: lwsdisp.1234abcd@funky.example.com
CSeq: 60 OPTIONS
Via: SIP/2.0/UDP funky.example.com;branch=z9hG4bKkdjuw
l: 0

= read
OPTIONS sip:user;par=u%40example.net@example.com SIP/2.0
To: sip:j_user@example.com
From: sip:caller@example.org;tag=33242
Max-Forwards: 3
Call-ID: semiuri.0ha0isndaksdj
CSeq: 8 OPTIONS
Via: SIP/2.0/UDP 192.0.2.1;branch=z9hG4bKkdjuw
l: 0

= read
SIP/2.0 100 
Via: SIP/2.0/UDP 192.0.2.105;branch=z9hG4bK2398ndaoe
Call-ID: noreason.asndj203insdf99223ndf
CSeq: 35 INVITE
From: <sip:user@example.com>;tag=39ansfi3
To: <sip:user@example.edu>;tag=902jndnke3
Content-Length: 0
Contact: <sip:user@host105.example.com>

= read
INVITE sip:user@example.com SIP/2.0
To: sip:j.user@example.com
From: sip:caller@example.net;tag=134161461246
Max-Forwards: 7
Call-ID: badinv01.0ha0isndaksdjasdf3234nas
CSeq: 8 INVITE
Via: SIP/2.0/UDP 192.0.2.15;;,;,,
Contact: "Joe" <sip:joe@example.org>;;;;
Content-Length: 0

= not sip
INVITE sip:user@example.com SIP/2.0
&
CSeq: 8 INVITE
Contact: <sip:caller@host5.example.net>
Content-Length: 9999

v=0
= bad 7, 400
INVITE sip:user@example.com SIP/2.0
&
CSeq: 8 INVITE
Contact: <sip:caller@host5.example.net>
Content-Length: -999

v=0
= bad 7, 400
REGISTER sip:example.com SIP/2.0
&
CSeq: 36893488147419103232 REGISTER
Max-Forwards: 300

= not sip
SIP/2.0 503 Service Unavailable
&
CSeq: 9292394834772304023312 OPTIONS
Retry-After: 949302838503028349304023988

= not sip
INVITE sip:user@example.com SIP/2.0
To: "Mr. J. User <sip:j.user@example.com>
From: sip:caller@example.net;tag=93334
Max-Forwards: 10
Call-ID: quotbal.aksdj
CSeq: 8 INVITE
Via: SIP/2.0/UDP 192.0.2.59:5050;branch=z9hG4bKkdjuw39234
Content-Length: 0

= not sip
INVITE <sip:user@example.com> SIP/2.0
&
CSeq: 1 INVITE
Contact: <sip:caller@host5.example.net>

= bad 0, 400
INVITE sip:user@example.com; lr SIP/2.0
&
CSeq: 1 INVITE
Contact: <sip:caller@host1.example.net>

= not sip
INVITE  sip:user@example.com  SIP/2.0
&
CSeq: 1 INVITE
Contact: <sip:caller@host1.example.net>

= not sip
OPTIONS sip:remote-target@example.com SIP/2.0  
&
CSeq: 8 OPTIONS

= not sip
INVITE sip:user@example.com?Route=%3Csip:example.com%3E SIP/2.0
&
CSeq: 149209342 INVITE
Contact: <sip:user@host1.example.com>

= read
OPTIONS sip:user@example.org SIP/2.0
Via: SIP/2.0/UDP host4.example.com:5060;branch=z9hG4bKkdju43234
Max-Forwards: 70
From: "Bell, Alexander" <sip:a.g.bell@example.com>;tag=433423
To: "Watson, Thomas" < t.watson@example.org >
Call-ID: badaspec.sdf0234n2nds0a099u23h3hnnw009cdkne3
CSeq: 3923239 OPTIONS
l: 0

= not sip
OPTIONS sip:t.watson@example.org SIP/2.0
Via:     SIP/2.0/UDP c.example.com:5060;branch=z9hG4bKkdjuw
Max-Forwards:      70
From:    Bell, Alexander <sip:a.g.bell@example.com>;tag=43
To:      Watson, Thomas <sip:t.watson@example.org>
Call-ID: baddn.31415@c.example.com
CSeq:    3923239 OPTIONS
l: 0

= not sip
OPTIONS sip:t.watson@example.org SIP/7.0
&
CSeq: 1 OPTIONS

= not sip
OPTIONS sip:user@example.com SIP/2.0
&
CSeq: 8 INVITE

= bad 5, 400
NEWMETHOD sip:user@example.com SIP/2.0
&
CSeq: 8 INVITE

= bad 5, 400
SIP/2.0 4294967301 better not break the receiver
&
CSeq: 353494 INVITE

= not sip
"##;

/// Damaged messages and the result of each. The lines of `&` are the lines 1 to 4.
const DAMAGED: &[u8] = br##"= not sip
INVITE sip:b@h SIP/2.0
&
CSeq: 1 INVITE
Contact: <sip:a@h>
= not sip
INVITE sip:b@h SIP/2.0
&
CSeq: 1 ACK
Contact: <sip:a@h>

= bad 5, 400
ACK sip:b@h SIP/2.0
&
CSeq: 1 INVITE

= bad 5, none
OPTIONS sip:b@h SIP/2.0
&
CSeq: 1 OPTIONS
From: <sip:a@h>;tag=b

= not sip
OPTIONS sip:b@h SIP/2.0
&
CSeq: 2147483648 OPTIONS

= not sip
OPTIONS sip:b@h SIP/2.0
&
CSeq: 2147483647 OPTIONS
Max-Forwards: 255

= read
OPTIONS sip:b@h SIP/2.0
&
CSeq: 1 OPTIONS
Max-Forwards: 256

= bad 6, 400
OPTIONS sip:b@h SIP/2.0
&
CSeq: 1 OPTIONS
Max-Forwards: 1
Max-Forwards: 1

= bad 7, 400
SIP/2.0 200 OK
&
CSeq: 1 OPTIONS
Max-Forwards: none
Content-Length: x

= bad 7, none
OPTIONS sip:b@h SIP/2.0
&
CSeq: 1 OPTIONS
Content-Length: 1

= bad 6, 400
OPTIONS sip:b@h SIP/2.0
Via: SIP/2.0/UDP a.example;branch=z9hG4bKa1
From: <sip:a@h>;tag
To: <sip:b@h>
Call-ID: c1
CSeq: 1 OPTIONS

= bad 2, 400
OPTIONS sip:@h SIP/2.0
&
CSeq: 1 ACK

= bad 0, 400
OPTIONS sip:b@h;x="a" SIP/2.0
&
CSeq: 1 OPTIONS

= bad 0, 400
OPTIONS tel:+4930111;x="a" SIP/2.0
&
CSeq: 1 OPTIONS

= bad 0, 400
OPTIONS mailto:b@h SIP/2.0
&
CSeq: 1 OPTIONS

= read
INVITE sip:b@h SIP/2.0
&
CSeq: 1 INVITE
Max-Forwards: 1

= bad 7, 400
INVITE sip:b@h SIP/2.0
&
CSeq: 1 INVITE
Contact: <sip:a@h>, <sip:a@h>

= bad 6, 400
INVITE sip:b@h SIP/2.0
&
CSeq: 1 INVITE
Contact: <sip:a@h>
Contact: <sip:a@h>

= bad 7, 400
OPTIONS sip:b@h SIP/2.0
&
CSeq: 1 OPTIONS
Route: <sip:a@h>, sip:a b

= bad 6, 400
OPTIONS sip:b@h SIP/2.0
&
CSeq: 1 OPTIONS
Record-Route: <sip:a@h>,

= bad 6, 400
OPTIONS sip:b@h SIP/2.0
&
CSeq: 1 OPTIONS
P-Asserted-Identity: <sip:a@h

= bad 6, 400
OPTIONS sip:b@h SIP/2.0
&
CSeq: 1 OPTIONS
P-Served-User: <sip:a@h>;sescase=ORIG

= bad 6, 400
OPTIONS sip:b@h SIP/2.0
&
CSeq: 1 OPTIONS
P-Served-User: <sip:a@h>;SesCase=orig
Privacy: id;Unknown

= read
OPTIONS sip:b@h SIP/2.0
&
CSeq: 1 OPTIONS
Privacy: id;;user
Content-Length: x

= bad 6, 400
OPTIONS sip:b@h SIP/2.0
&
CSeq: 1 OPTIONS
History-Info: <sip:a@h>;index=1, <sip:b@h>;index=1.1.12

= read
OPTIONS sip:b@h SIP/2.0
&
CSeq: 1 OPTIONS
History-Info: <sip:a@h>;index=1, <sip:b@h>;index=1..1

= bad 6, 400
OPTIONS sip:b@h SIP/2.0
&
CSeq: 1 OPTIONS
History-Info: <sip:a@b>;index=1;index=x
History-Info: <sip:a@b>;index=x;index=1

= bad 7, 400
OPTIONS sip:b@h SIP/2.0
&
CSeq: 1 OPTIONS
Refer-To: <sip:a@h>x

= bad 6, 400
OPTIONS sip:b@h SIP/2.0
&
CSeq: 1 OPTIONS
No colon

= bad 6, 400
"##;

/// Adds the result for the first message of a table, and the expected one, each after its first line; returns what follows them.
fn add_verdict<'a>(came: &mut Transcript, wanted: &mut Transcript, table: &'a [u8]) -> &'a [u8] {
    let mut text = Transcript::new(came.alloc);
    let (verdict, rest) = add_block(&mut text, b'=', table);
    let (start, _) = next_line(table);
    came.add(start);
    came.add(b"= ");
    write_outcome(came, text.whole());
    came.add(b"\n");
    wanted.add(start);
    wanted.add(b"=");
    wanted.add_line(verdict);
    rest
}

/// The number of the first message of a table, from 1, with another result; 0 where there is none.
fn wrong_verdict(alloc: Global, table: &[u8]) -> usize {
    let mut came = Transcript::new(alloc);
    let mut wanted = Transcript::new(alloc);
    let mut rows = table;
    for _ in 0..40 {
        if !rows.is_empty() {
            rows = add_verdict(&mut came, &mut wanted, rows);
        }
    }
    came.wrong_line(wanted.whole())
}

/// The head of a message up to where more header fields may follow.
fn add_head(transcript: &mut Transcript) {
    transcript.add(b"OPTIONS sip:b@h SIP/2.0\r\n");
    transcript.add(USUAL);
    transcript.add(b"CSeq: 1 OPTIONS\r\n");
}

/// Adds this many copies of a piece.
fn add_many(transcript: &mut Transcript, piece: &[u8], number: usize) {
    for _ in 0..number {
        transcript.add(piece);
    }
}

/// Writes the result for a datagram of 16,384 bytes, and for one of a byte more.
fn write_large(transcript: &mut Transcript) {
    let mut text = Transcript::new(transcript.alloc);
    add_head(&mut text);
    text.add(b"\r\n");
    let room = 16384_usize.saturating_sub(text.bytes().len());
    add_many(&mut text, b"x", room);
    write_outcome(transcript, text.whole());
    transcript.add(b"\n");
    text.add(b"x");
    write_outcome(transcript, text.whole());
    transcript.add(b"\n");
}

/// Writes the result for 123 header fields after the five of the head, and for this end.
fn write_long(transcript: &mut Transcript, end: &[u8]) {
    let mut text = Transcript::new(transcript.alloc);
    add_head(&mut text);
    add_many(&mut text, b"X: y\r\n", 123);
    text.add(end);
    write_outcome(transcript, text.whole());
    transcript.add(b"\n");
}

/// A datagram of 16,384 bytes is read, and one of a byte more is too large. A datagram of 128 header fields is read, and one of a header field more has too many, whatever that is.
fn wrong_limit(alloc: Global) -> usize {
    let mut transcript = Transcript::new(alloc);
    write_large(&mut transcript);
    write_long(&mut transcript, b"\r\n");
    write_long(&mut transcript, b"No colon\r\n\r\n");
    transcript.wrong_line(b"read\ntoo large, 513\nread\ntoo many, 513\n")
}

/// Messages that are read and printed, those with their results, and the limits.
#[test]
fn reads_messages(rt: HostRuntime) {
    assert_right(&rt, "READ", wrong_read(rt.alloc(), READ));
    assert_right(&rt, "TORTURE", wrong_verdict(rt.alloc(), TORTURE));
    assert_right(&rt, "DAMAGED", wrong_verdict(rt.alloc(), DAMAGED));
    assert_right(&rt, "limit", wrong_limit(rt.alloc()));
}

/// Writes the parts of a Via value.
fn write_via(transcript: &mut Transcript, value: &[u8]) {
    match read_via(transcript.alloc, value) {
        Ok(via) => {
            transcript.add(via.sent_by.bytes());
            transcript.add(b"|");
            transcript.add_number(u64::from(via.port.unwrap_or(0)));
            transcript.add(b"|");
            let branch = param_value(via.params.items(), b"Branch");
            transcript.add_line(branch.unwrap_or(b""));
            drop(via);
        }
        Err(_) => transcript.fail(),
    }
}

/// Writes the parts of a CSeq value.
fn write_cseq(transcript: &mut Transcript, value: &[u8]) {
    match read_cseq(transcript.alloc, value) {
        Ok(cseq) => {
            transcript.add_number(u64::from(cseq.number));
            transcript.add(b"|");
            transcript.add_line(cseq.method.bytes());
            drop(cseq);
        }
        Err(_) => transcript.fail(),
    }
}

/// Writes whether a value can be read as a name-addr.
fn write_readable(transcript: &mut Transcript, value: &[u8]) {
    match is_readable(transcript.alloc, value) {
        Ok(readable) => transcript.add_if(readable, b"readable\n", b"unreadable\n"),
        Err(_) => transcript.fail(),
    }
}

/// Writes texts, joined.
fn write_joined(transcript: &mut Transcript, texts: Result<List<Text>, NoMemory>) {
    match texts {
        Ok(texts) => {
            let joined = joined_by(transcript.alloc, b"|", texts.items());
            drop(texts);
            transcript.add_text_or_fail(joined);
        }
        Err(_) => transcript.fail(),
    }
}

/// The values of RFC 3261 §20.42 with a branch, and of §20.16; a name-addr after §20.10, and one whose quotes are not closed; the values of a text, split and joined.
fn write_values(transcript: &mut Transcript) {
    write_via(
        transcript,
        b"SIP/2.0/UDP erlang.bell-telephone.com:5060;branch=z9hG4bK87asdks7",
    );
    write_cseq(transcript, b"4711 INVITE");
    write_readable(
        transcript,
        b"\"Mr. Watson\" <sip:watson@bell-telephone.com>",
    );
    write_readable(transcript, b"\"Mr. Watson <sip:watson@bell-telephone.com>");
    let values = values_in(
        transcript.alloc,
        Mode::Plain,
        b"<sip:a@h,x> , \"b,c\" <sip:d@h>",
    );
    write_joined(transcript, values);
}

/// The header fields that each request has.
const FIVE: &[u8] = b"Via: SIP/2.0/UDP a.example;branch=z9hG4bKa1
From: <sip:a@h>;tag=a
To: <sip:b@h>
Call-ID: c1
CSeq: 1 OPTIONS
";

/// Writes two of the five fields of a message.
fn write_five(transcript: &mut Transcript, message: &Msg) {
    match read_five(transcript.alloc, &message.lines()) {
        Ok(five) => {
            transcript.add(five.call_id.bytes());
            transcript.add(b"|");
            transcript.add_line(five.to.uri.bytes());
            drop(five);
        }
        Err(_) => transcript.fail(),
    }
}

/// Writes the text of the response to a request, which repeats header fields of the request.
fn write_busy(transcript: &mut Transcript, message: &Msg) {
    match reply_with(transcript.alloc, 486, b"Busy Here", &message.lines()) {
        Ok(reply) => {
            write_message(transcript, &reply);
            drop(reply);
        }
        Err(_) => transcript.fail(),
    }
}

/// Two Route header fields with three values, and two Subject header fields.
const ROUTED: &[u8] = b"Route: <sip:r@h>, <sip:s@h>
Subject: one
route: <sip:t@h>
subject: two
";

/// Writes what is found by a name: the values of its header fields, by two functions; their texts; and the first of these.
fn write_found(transcript: &mut Transcript, message: &Msg) {
    let alloc = transcript.alloc;
    write_joined(
        transcript,
        values_named(alloc, Mode::Plain, &message.lines(), b"ROUTE"),
    );
    write_joined(transcript, message.values(alloc, b"ROUTE"));
    write_joined(transcript, line_texts(alloc, &message.lines(), b"ROUTE"));
    transcript.add_line(message.first(b"ROUTE").unwrap_or(b""));
}

/// Sets the first header field of the name to this value.
fn set(transcript: &mut Transcript, message: &mut Msg, name: &[u8], value: &[u8]) {
    let value = transcript.copy(value);
    let done = message.set(transcript.alloc, name, value);
    transcript.fail_unless(done.is_ok());
}

/// Edits a message of the header fields above, and writes its text.
fn edit(transcript: &mut Transcript, message: &mut Msg) {
    set(transcript, message, b"Subject", b"three");
    set(transcript, message, b"Event", b"refer");
    message.drop_all(b"Route");
    let via = transcript.copy(b"SIP/2.0/UDP a");
    let done = message.push_front(transcript.alloc, b"Via", via);
    transcript.fail_unless(done.is_ok());
    write_message(transcript, message);
}

/// What is written of the values, of a request of five header fields and of the one that has routes, which is edited last.
const PARTS: &[u8] = b"erlang.bell-telephone.com:5060|5060|z9hG4bK87asdks7
4711|INVITE
readable
unreadable
<sip:a@h,x>|\"b,c\" <sip:d@h>
c1|sip:b@h
SIP/2.0 486 Busy Here\r
Via: SIP/2.0/UDP a.example;branch=z9hG4bKa1\r
From: <sip:a@h>;tag=a\r
To: <sip:b@h>\r
Call-ID: c1\r
CSeq: 1 OPTIONS\r
Content-Length: 0\r
\r
<sip:r@h>|<sip:s@h>|<sip:t@h>
<sip:r@h>|<sip:s@h>|<sip:t@h>
<sip:r@h>, <sip:s@h>|<sip:t@h>
<sip:r@h>, <sip:s@h>
OPTIONS sip:b@h SIP/2.0\r
Via: SIP/2.0/UDP a\r
Subject: three\r
Event: refer\r
\r
";

fn wrong_part(alloc: Global) -> usize {
    let mut transcript = Transcript::new(alloc);
    write_values(&mut transcript);
    let start = request(&mut transcript, b"OPTIONS");
    let message = of_lines(&mut transcript, start, FIVE);
    write_five(&mut transcript, &message);
    write_busy(&mut transcript, &message);
    drop(message);
    let start = request(&mut transcript, b"OPTIONS");
    let mut message = of_lines(&mut transcript, start, ROUTED);
    write_found(&mut transcript, &message);
    edit(&mut transcript, &mut message);
    drop(message);
    transcript.wrong_line(PARTS)
}

#[test]
fn parts_and_edits_messages(rt: HostRuntime) {
    assert_right(&rt, "part", wrong_part(rt.alloc()));
}
