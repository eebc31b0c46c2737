//! Responses: the first Via with the source of a request, phrases, and which header fields of a request a response has.

use crate::asserting::assert_right;
use crate::messages::drafts::{lines_of, of_lines, request, write_message};
use mmtel_base::number_up_to;
use mmtel_message::{Line, Msg, ReadFault, Reply, completed_value, phrase_of, read, response};
use mmtel_test_tables::{RowRunner, Transcript, wrong_line};
use mmtel_types::Addr;
use std::alloc::Global;

/// Where the requests of the tables came from.
const SOURCE: Addr = Addr {
    ip: [127, 0, 0, 1],
    port: 5071,
};

/// Writes a Via value as it is completed; or, of a code, its phrase.
#[derive(Drop)]
struct Answers;

impl RowRunner for Answers {
    fn run_row(&mut self, transcript: &mut Transcript, asked: &[u8]) {
        match number_up_to(999, asked) {
            None => {
                let value = completed_value(transcript.alloc, SOURCE, asked);
                transcript.add_text_or_fail(value);
            }
            Some(code) => transcript.add_line(phrase_of(u16::try_from(code).unwrap_or(0))),
        }
    }
}

/// Via values; below is each as it is completed. A host is compared with the source as text, without its port (RFC 3261 §18.2.1); an empty `rport` is filled in its place, and
/// `received` is then added too (RFC 3581 §4).
/// Then the codes with their phrases, and one that the server does not send.
const ANSWERS: &[u8] = b"> SIP/2.0/UDP h;rport;branch=z9hG4bKa
SIP/2.0/UDP h;rport=5071;branch=z9hG4bKa;received=127.0.0.1
> SIP/2.0/UDP h;branch=z9hG4bKa
SIP/2.0/UDP h;branch=z9hG4bKa;received=127.0.0.1
> SIP/2.0/UDP 127.0.0.1:5060;branch=z9hG4bKa
SIP/2.0/UDP 127.0.0.1:5060;branch=z9hG4bKa
> SIP/2.0/UDP 127.0.0.1;rport;branch=z9hG4bKa
SIP/2.0/UDP 127.0.0.1;rport=5071;branch=z9hG4bKa;received=127.0.0.1
> SIP/2.0/UDP 127.0.0.1;rport=9;branch=z9hG4bKa
SIP/2.0/UDP 127.0.0.1;rport=9;branch=z9hG4bKa
> SIP/2.0/UDP h;received=192.0.2.1;rport=9;branch=z9hG4bKa
SIP/2.0/UDP h;rport=9;branch=z9hG4bKa;received=127.0.0.1
> SIP/2.0/UDP h;RECEIVED=192.0.2.1;RPort;x=\"a,;b\"
SIP/2.0/UDP h;RPort=5071;x=\"a,;b\";received=127.0.0.1
> SIP/2.0/TCP  h
SIP/2.0/TCP h;received=127.0.0.1
> no via;rport
no via;rport
> 100
Trying
> 181
Call Is Being Forwarded
> 200
OK
> 202
Accepted
> 400
Bad Request
> 403
Forbidden
> 404
Not Found
> 405
Method Not Allowed
> 408
Request Timeout
> 416
Unsupported URI Scheme
> 420
Bad Extension
> 422
Session Interval Too Small
> 433
Anonymity Disallowed
> 480
Temporarily Unavailable
> 481
Call/Transaction Does Not Exist
> 482
Loop Detected
> 483
Too Many Hops
> 486
Busy Here
> 487
Request Terminated
> 488
Not Acceptable Here
> 489
Bad Event
> 491
Request Pending
> 500
Server Internal Error
> 503
Service Unavailable
> 513
Message Too Large
> 603
Decline
> 180

";

/// The header fields of a request without a tag in To; a Subject is none of those that a response repeats.
const ASKED: &[u8] = b"Via: SIP/2.0/UDP h;rport;branch=z9hG4bKa
Via: SIP/2.0/UDP far.example;rport;branch=z9hG4bKb
Record-Route: <sip:r.example;lr>
From: <sip:a@h>;tag=a
To: <sip:b@h>
Call-ID: c1
CSeq: 1 INVITE
Subject: one
";

/// The header fields of a request in a dialog.
const IN_A_DIALOG: &[u8] = b"Via: SIP/2.0/UDP 127.0.0.1:5071;branch=z9hG4bKa
Record-Route: <sip:r.example;lr>
From: <sip:a@h>;tag=a
To: <sip:b@h>;x;tag=b
Call-ID: c1
CSeq: 2 REFER
";

/// A message of the header fields of a table, with the start line of a request of this method.
fn asked(transcript: &mut Transcript, method: &[u8], table: &[u8]) -> Msg {
    let start = request(transcript, method);
    of_lines(transcript, start, table)
}

/// Writes the text of the response of this code, with the tag `T-1`, to a request that came from `SOURCE`. It passes on these header fields and has others added for it.
fn write_response(
    transcript: &mut Transcript,
    asked: &Msg,
    code: u16,
    passed: &[Line],
    named: &[Line],
    body: &[u8],
) {
    let reply = Reply {
        code,
        phrase: phrase_of(code),
        tag: b"T-1",
        source: Some(SOURCE),
        contact: b"<sip:127.0.0.1:5060>",
        passed,
        named,
        body,
    };
    match response(transcript.alloc, asked.start(), &asked.lines(), &reply) {
        Ok(message) => {
            write_message(transcript, &message);
            drop(message);
        }
        Err(_) => transcript.fail(),
    }
}

/// Writes a response to a request: what it passes on and what is added for it are in tables.
fn write_own_response(
    transcript: &mut Transcript,
    request: &Msg,
    code: u16,
    passed: &[u8],
    named: &[u8],
    body: &[u8],
) {
    let passed = lines_of(transcript, passed);
    let named = lines_of(transcript, named);
    write_response(
        transcript,
        request,
        code,
        passed.items(),
        named.items(),
        body,
    );
    drop(passed);
    drop(named);
}

/// Writes a response that passes on nothing and has no body: to a request without a tag in To, with these header fields added for it.
fn write_plain(transcript: &mut Transcript, method: &[u8], code: u16, named: &[u8]) {
    let request = asked(transcript, method, ASKED);
    write_own_response(transcript, &request, code, b"", named, b"");
    drop(request);
}

/// A 200 of an INVITE has Record-Route and Contact, what is passed on, what is added for it and the body.
/// A 100 without the tag; a 400 of an INVITE without Record-Route and Contact; a 405 that lists the methods; a 420 that lists two extensions, one a line.
/// A tag in To is kept; a 202 of a REFER has Contact, but no Record-Route.
/// A 200 of a SUBSCRIBE has both, one of an UPDATE Contact alone, and one of a PRACK neither; a refusal has neither, whatever it refuses.
/// Last the reply that a parse fault carries is completed from its own header fields.
const RESPONSES: &[u8] = b"SIP/2.0 200 OK
Via: SIP/2.0/UDP h;rport=5071;branch=z9hG4bKa;received=127.0.0.1
Via: SIP/2.0/UDP far.example;rport;branch=z9hG4bKb
From: <sip:a@h>;tag=a
To: <sip:b@h>;tag=T-1
Call-ID: c1
CSeq: 1 INVITE
Record-Route: <sip:r.example;lr>
Contact: <sip:127.0.0.1:5060>
Server: x
Content-Type: application/sdp
Content-Length: 5

v=0
SIP/2.0 100 Trying
Via: SIP/2.0/UDP h;rport=5071;branch=z9hG4bKa;received=127.0.0.1
Via: SIP/2.0/UDP far.example;rport;branch=z9hG4bKb
From: <sip:a@h>;tag=a
To: <sip:b@h>
Call-ID: c1
CSeq: 1 INVITE
Content-Length: 0

SIP/2.0 400 Bad Request
Via: SIP/2.0/UDP h;rport=5071;branch=z9hG4bKa;received=127.0.0.1
Via: SIP/2.0/UDP far.example;rport;branch=z9hG4bKb
From: <sip:a@h>;tag=a
To: <sip:b@h>;tag=T-1
Call-ID: c1
CSeq: 1 INVITE
Content-Length: 0

SIP/2.0 405 Method Not Allowed
Via: SIP/2.0/UDP h;rport=5071;branch=z9hG4bKa;received=127.0.0.1
Via: SIP/2.0/UDP far.example;rport;branch=z9hG4bKb
From: <sip:a@h>;tag=a
To: <sip:b@h>;tag=T-1
Call-ID: c1
CSeq: 1 INVITE
Allow: INVITE, ACK, CANCEL, BYE, OPTIONS, REGISTER, REFER
Content-Length: 0

SIP/2.0 420 Bad Extension
Via: SIP/2.0/UDP h;rport=5071;branch=z9hG4bKa;received=127.0.0.1
Via: SIP/2.0/UDP far.example;rport;branch=z9hG4bKb
From: <sip:a@h>;tag=a
To: <sip:b@h>;tag=T-1
Call-ID: c1
CSeq: 1 INVITE
Unsupported: 100rel
Unsupported: timer
Content-Length: 0

SIP/2.0 202 Accepted
Via: SIP/2.0/UDP 127.0.0.1:5071;branch=z9hG4bKa
From: <sip:a@h>;tag=a
To: <sip:b@h>;x;tag=b
Call-ID: c1
CSeq: 2 REFER
Contact: <sip:127.0.0.1:5060>
Content-Length: 0

SIP/2.0 200 OK
Via: SIP/2.0/UDP h;rport=5071;branch=z9hG4bKa;received=127.0.0.1
Via: SIP/2.0/UDP far.example;rport;branch=z9hG4bKb
From: <sip:a@h>;tag=a
To: <sip:b@h>;tag=T-1
Call-ID: c1
CSeq: 1 INVITE
Record-Route: <sip:r.example;lr>
Contact: <sip:127.0.0.1:5060>
Expires: 3600
Content-Length: 0

SIP/2.0 481 Call/Transaction Does Not Exist
Via: SIP/2.0/UDP h;rport=5071;branch=z9hG4bKa;received=127.0.0.1
Via: SIP/2.0/UDP far.example;rport;branch=z9hG4bKb
From: <sip:a@h>;tag=a
To: <sip:b@h>;tag=T-1
Call-ID: c1
CSeq: 1 INVITE
Content-Length: 0

SIP/2.0 200 OK
Via: SIP/2.0/UDP h;rport=5071;branch=z9hG4bKa;received=127.0.0.1
Via: SIP/2.0/UDP far.example;rport;branch=z9hG4bKb
From: <sip:a@h>;tag=a
To: <sip:b@h>;tag=T-1
Call-ID: c1
CSeq: 1 INVITE
Contact: <sip:127.0.0.1:5060>
Content-Length: 0

SIP/2.0 491 Request Pending
Via: SIP/2.0/UDP h;rport=5071;branch=z9hG4bKa;received=127.0.0.1
Via: SIP/2.0/UDP far.example;rport;branch=z9hG4bKb
From: <sip:a@h>;tag=a
To: <sip:b@h>;tag=T-1
Call-ID: c1
CSeq: 1 INVITE
Content-Length: 0

SIP/2.0 200 OK
Via: SIP/2.0/UDP h;rport=5071;branch=z9hG4bKa;received=127.0.0.1
Via: SIP/2.0/UDP far.example;rport;branch=z9hG4bKb
From: <sip:a@h>;tag=a
To: <sip:b@h>;tag=T-1
Call-ID: c1
CSeq: 1 INVITE
Content-Length: 0

SIP/2.0 400 Bad Request
Via: SIP/2.0/UDP h;rport=5071;branch=z9hG4bKa;received=127.0.0.1
Via: SIP/2.0/UDP far.example;branch=z9hG4bKb
From: <sip:a@h>;tag=a
To: <sip:b@h>;tag=T-1
Call-ID: c1
CSeq: 1 INVITE
Content-Length: 0

";

/// An INVITE without Contact.
const BAD: &[u8] =
    b"INVITE sip:b@h SIP/2.0\r\nv: SIP/2.0/UDP h;rport;branch=z9hG4bKa , SIP/2.0/UDP far.example;branch=z9hG4bKb\r\nRecord-Route: <sip:r.example;lr>\r\nFrom: <sip:a@h>;\
tag=a\r\nTo: <sip:b@h>\r\nCall-ID: c1\r\nCSeq: 1 INVITE\r\n\r\n";

fn write_fault(transcript: &mut Transcript, fault: &ReadFault) {
    match fault {
        ReadFault::Bad {
            at: _,
            reply: Some(reply),
        } => write_own_response(transcript, reply, 400, b"", b"", b""),
        _ => transcript.fail(),
    }
}

/// Writes the reply to the INVITE without Contact, completed.
fn write_bad(transcript: &mut Transcript) {
    match read(transcript.alloc, BAD) {
        Ok(message) => {
            drop(message);
            transcript.fail();
        }
        Err(fault) => {
            write_fault(transcript, &fault);
            drop(fault);
        }
    }
}

fn wrong_response(alloc: Global) -> usize {
    let mut transcript = Transcript::new(alloc);
    let invite = asked(&mut transcript, b"INVITE", ASKED);
    write_own_response(
        &mut transcript,
        &invite,
        200,
        b"Server: x\n",
        b"Content-Type: application/sdp\n",
        b"v=0\r\n",
    );
    drop(invite);
    write_plain(&mut transcript, b"INVITE", 100, b"");
    write_plain(&mut transcript, b"INVITE", 400, b"");
    write_plain(
        &mut transcript,
        b"PUBLISH",
        405,
        b"Allow: INVITE, ACK, CANCEL, BYE, OPTIONS, REGISTER, REFER\n",
    );
    write_plain(
        &mut transcript,
        b"INVITE",
        420,
        b"Unsupported: 100rel\nUnsupported: timer\n",
    );
    let refer = asked(&mut transcript, b"REFER", IN_A_DIALOG);
    write_own_response(&mut transcript, &refer, 202, b"", b"", b"");
    drop(refer);
    write_plain(&mut transcript, b"SUBSCRIBE", 200, b"Expires: 3600\n");
    write_plain(&mut transcript, b"SUBSCRIBE", 481, b"");
    write_plain(&mut transcript, b"UPDATE", 200, b"");
    write_plain(&mut transcript, b"UPDATE", 491, b"");
    write_plain(&mut transcript, b"PRACK", 200, b"");
    write_bad(&mut transcript);
    transcript.wrong_line(RESPONSES)
}

#[test]
fn answers_requests(rt: HostRuntime) {
    assert_right(
        &rt,
        "ANSWERS",
        wrong_line(rt.alloc(), &mut Answers, ANSWERS),
    );
    assert_right(&rt, "response", wrong_response(rt.alloc()));
}
