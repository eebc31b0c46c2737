//! The decisions on requests.

use crate::asserting::assert_right;
use crate::pages::{Page, next_line, wrong_line};
use crate::requests::{add_request, add_request_to, add_request_with, directory, received_message};
use mmtel_admission::{DialogOwner, Disposition, RequestContext, StatusResponse, disposition};
use mmtel_directory::Directory;
use mmtel_test_tables::split_or_all;
use mmtel_types::{CallNo, RoomNo, Side, SubNo};
use std::alloc::Global;

/// A row is a request: `m` where it is merged, `f` where the maximum number of calls live and `u` where its peer is not trusted; `t` where To has a tag of no dialog, `d` and `e`
/// where it names that of the caller and of the callee of call 3, `s` that of participant 2 of conference 5, `b` that of subscription 7, `x` where it names no account, and `o`
/// where it offers audio; its method
/// and Request-URI, and further header fields, each ended by `|`. Below it is what is done with it. A line of `=` switches extensions on or off for the rows below it: `r` reliable
/// provisional responses, `t` session timers and `m` message waiting; none is on before.
const TABLE: &[u8] = br#"> -- INFO sip:bob@home.example
405 Allow: INVITE, ACK, CANCEL, BYE, OPTIONS, REGISTER, REFER
> -- INFO sips:bob@home.example
405 Allow: INVITE, ACK, CANCEL, BYE, OPTIONS, REGISTER, REFER
> -- OPTIONS sips:bob@home.example
416
> -- OPTIONS sips:bob@home.example|Max-Forwards: 0|
416
> -- OPTIONS sip:bob@home.example|Max-Forwards: 00|
483
> -t OPTIONS sip:bob@home.example|Max-Forwards: 0|
483
> -t OPTIONS sip:bob@home.example|Max-Forwards: 1|
481
> mt OPTIONS sip:bob@home.example
481
> m- OPTIONS sip:bob@home.example
482
> m- OPTIONS sip:bob@home.example|Require: 100rel|
482
> -- OPTIONS sip:bob@home.example|Require: 100rel, histinfo, timer|Require: HISTINFO|
420 Unsupported: 100rel Unsupported: timer Unsupported: HISTINFO
> -- BYE sip:bob@home.example|Require: 100rel|
420 Unsupported: 100rel
> -- OPTIONS sip:bob@home.example|Require: histinfo|
200 Allow: INVITE, ACK, CANCEL, BYE, OPTIONS, REGISTER, REFER
> -- BYE sip:bob@home.example
481
> -- REFER sip:bob@home.example|Refer-To: <sip:vm@far.example>|
403
> -- REGISTER sip:home.example
register 7 3600
> -- REGISTER sip:other.example|Expires: 0|
register 7 0
> -- REGISTER sip:home.example|Expires: 4294967295|
register 7 4294967295
> -- REGISTER sip:home.example|Expires: 4294967296|
register 7 3600
> -- REGISTER sip:home.example|Expires: -1|
register 7 3600
> -x REGISTER sip:home.example
404
> u- REGISTER sip:home.example
403
> ux REGISTER sip:home.example
403
> -t REGISTER sip:home.example
481
> u- REGISTER sip:home.example|Require: path|
420 Unsupported: path
> -d BYE sip:bob@home.example
enter 3 caller
> -e BYE sip:bob@home.example
enter 3 callee
> md BYE sip:bob@home.example
enter 3 caller
> -d BYE sip:bob@home.example|Require: 100rel|
420 Unsupported: 100rel
> -d INFO sip:bob@home.example
405 Allow: INVITE, ACK, CANCEL, BYE, OPTIONS, REGISTER, REFER
> -- PRACK sip:bob@home.example|RAck: 1 7 INVITE|
405 Allow: INVITE, ACK, CANCEL, BYE, OPTIONS, REGISTER, REFER
> -d PRACK sip:bob@home.example|RAck: 1 7 INVITE|
405 Allow: INVITE, ACK, CANCEL, BYE, OPTIONS, REGISTER, REFER
> -d UPDATE sip:bob@home.example|Session-Expires: 90|
405 Allow: INVITE, ACK, CANCEL, BYE, OPTIONS, REGISTER, REFER
> -e UPDATE sip:bob@home.example|Require: timer|
405 Allow: INVITE, ACK, CANCEL, BYE, OPTIONS, REGISTER, REFER
> -- SUBSCRIBE sip:bob@home.example|Event: message-summary|
405 Allow: INVITE, ACK, CANCEL, BYE, OPTIONS, REGISTER, REFER
> -d SUBSCRIBE sip:bob@home.example|Event: message-summary|
405 Allow: INVITE, ACK, CANCEL, BYE, OPTIONS, REGISTER, REFER
> -s UPDATE sip:bob@home.example
405 Allow: INVITE, ACK, CANCEL, BYE, OPTIONS, REGISTER, REFER
> -d BYE sips:bob@home.example
416
> -d BYE sip:bob@home.example|Max-Forwards: 0|
483
> -d INVITE sip:conf@home.example
enter 3 caller
> -t INVITE sip:bob@home.example
481
> f- INVITE sip:bob@home.example
503
> f- INVITE sip:conf@home.example
488
> fo INVITE sip:conf@home.example
room
> f- INVITE sip:bob@home.example|Require: 100rel|
420 Unsupported: 100rel
> fd INVITE sip:bob@home.example
enter 3 caller
> f- OPTIONS sip:bob@home.example
200 Allow: INVITE, ACK, CANCEL, BYE, OPTIONS, REGISTER, REFER
> -- INVITE sip:bob@home.example|Require: histinfo|
open
> -- INVITE sip:vm@far.example
open
> -- INVITE sip:vm@nowhere.example
open
> -- INVITE tel:+4930111
open
> -- INVITE sip:vm@far.example|Route: <sip:127.0.0.1:5060;lr>, <sip:p@home.example;lr>|
open
> -- INVITE sip:bob@home.example|Route: <sip:127.0.0.1;lr>|
open
> -- INVITE sip:bob@home.example|Route: <sip:127.0.0.1:5071;lr>, <sip:p@far.example;lr>|
open
> -- INVITE sip:bob@home.example|Route: <sip:p@nowhere.example;lr>|
open
> -- INVITE sip:bob@home.example|Route: <tel:+4930111>|
open
> -- INVITE sip:conf@home.example
488
> -o INVITE sip:conf@home.example
room
> -- INVITE sip:conf@far.example
open
> -- INVITE sip:room-1@127.0.0.1
488
> -o INVITE sip:room-1@127.0.0.1
seat in 1
> -o INVITE sip:room-0@127.0.0.1:5060
seat in 0
> -o INVITE sip:room-18446744073709551615@127.0.0.1
seat in 18446744073709551615
> -o INVITE sip:room-18446744073709551616@127.0.0.1
seat in 0
> fo INVITE sip:room-1@127.0.0.1:5060|Route: <sip:p@home.example;lr>|
seat in 1
> -s INVITE sip:bob@home.example
room 5 seat 2
> -s BYE sip:bob@home.example
room 5 seat 2
> -s REFER sip:bob@home.example|Require: 100rel|
420 Unsupported: 100rel
> -- INVITE sip:room-01@127.0.0.1:5060
open
> -- INVITE sip:room-@127.0.0.1
open
> -- INVITE sip:room-1a@127.0.0.1
open
> -- INVITE sip:Room-1@127.0.0.1
open
> -- INVITE sip:room-1@127.0.0.1:5071
open
> -- INVITE sip:127.0.0.1
open
> -- INVITE sip:bob@home.example|History-Info: <sip:carol@home.example>;index=1|
open
> -- OPTIONS sip:bob@home.example|History-Info: <sip:carol@home.example>;index=1|
200 Allow: INVITE, ACK, CANCEL, BYE, OPTIONS, REGISTER, REFER
= r--
> -- PRACK sip:bob@home.example
481
> -- UPDATE sip:bob@home.example
481
> -d PRACK sip:bob@home.example
enter 3 caller
> -e UPDATE sip:bob@home.example
enter 3 callee
> -- OPTIONS sip:bob@home.example|Require: 100rel|
200 Allow: INVITE, ACK, CANCEL, BYE, OPTIONS, REGISTER, REFER, PRACK, UPDATE
> -- SUBSCRIBE sip:bob@home.example
405 Allow: INVITE, ACK, CANCEL, BYE, OPTIONS, REGISTER, REFER, PRACK, UPDATE
> -- INVITE sip:bob@home.example|Require: 100rel, timer|
420 Unsupported: timer
= -t-
> -- INVITE sip:bob@home.example|Require: timer|
open
> -- INVITE sip:bob@home.example|Require: timer, Timer, 100rel|
420 Unsupported: Timer Unsupported: 100rel
> -- UPDATE sip:bob@home.example
405 Allow: INVITE, ACK, CANCEL, BYE, OPTIONS, REGISTER, REFER
> -- UPDATE sip:bob@home.example|Session-Expires: 89|
405 Allow: INVITE, ACK, CANCEL, BYE, OPTIONS, REGISTER, REFER
> -- INVITE sip:bob@home.example|Session-Expires: 90|
open
> -- INVITE sip:bob@home.example|Session-Expires: 89|
422 Min-SE: 90
> -- INVITE sip:bob@home.example|x: 89;refresher=uac|
422 Min-SE: 90
> -- INVITE sip:bob@home.example|Session-Expires: 90|x: 90|
400
> -- INVITE sip:bob@home.example|Session-Expires: 90 ;refresher=uac|
400
> -- INVITE sip:bob@home.example|Session-Expires: 90;REFRESHER=uac|
open
> -- INVITE sip:bob@home.example|Session-Expires: 90;refresher=UAC|
400
> -- INVITE sip:bob@home.example|Session-Expires: 2147483648|
400
> -- INVITE sip:bob@home.example|Min-SE: 10|
open
> -- INVITE sip:bob@home.example|Require: foo|Session-Expires: 89|
420 Unsupported: foo
> -t INVITE sip:bob@home.example|Session-Expires: 89|
481
> m- INVITE sip:bob@home.example|Session-Expires: 89|
482
> -d INVITE sip:bob@home.example|Session-Expires: 89|
422 Min-SE: 90
> -e INVITE sip:bob@home.example|Session-Expires: 89;refresher=me|
400
> -d INVITE sip:bob@home.example|Session-Expires: 90|
enter 3 caller
> -s INVITE sip:bob@home.example|Session-Expires: 89|
422 Min-SE: 90
> -- INVITE sip:conf@home.example|Session-Expires: 89|
422 Min-SE: 90
> -o INVITE sip:room-1@127.0.0.1|Session-Expires: 89|
422 Min-SE: 90
> f- INVITE sip:bob@home.example|Session-Expires: 89|
422 Min-SE: 90
> -- OPTIONS sip:bob@home.example|Session-Expires: 89|
200 Allow: INVITE, ACK, CANCEL, BYE, OPTIONS, REGISTER, REFER
> -d BYE sip:bob@home.example|Session-Expires: 89|
enter 3 caller
= rt-
> -d UPDATE sip:bob@home.example|Session-Expires: 89|
422 Min-SE: 90
> -e UPDATE sip:bob@home.example|Session-Expires: 90;refresher|
400
> -e UPDATE sip:bob@home.example|Session-Expires: 90|
enter 3 callee
> -d PRACK sip:bob@home.example|Session-Expires: 89|
enter 3 caller
= --m
> -- OPTIONS sip:bob@home.example
200 Allow: INVITE, ACK, CANCEL, BYE, OPTIONS, REGISTER, REFER, SUBSCRIBE
> -- PRACK sip:bob@home.example
405 Allow: INVITE, ACK, CANCEL, BYE, OPTIONS, REGISTER, REFER, SUBSCRIBE
> -- BYE sip:bob@home.example|Require: mwi|
420 Unsupported: mwi
> -- SUBSCRIBE sip:bob@home.example|Event: message-summary|
subscribe
> u- SUBSCRIBE sip:bob@home.example
subscribe
> -t SUBSCRIBE sip:bob@home.example
481
> m- SUBSCRIBE sip:bob@home.example
482
> -- SUBSCRIBE sip:bob@home.example|Require: 100rel|
420 Unsupported: 100rel
> -d SUBSCRIBE sip:bob@home.example
481
> -s SUBSCRIBE sip:bob@home.example
481
> -b SUBSCRIBE sip:bob@home.example
subscription 7
> -b OPTIONS sip:bob@home.example
subscription 7
> -b PRACK sip:bob@home.example
405 Allow: INVITE, ACK, CANCEL, BYE, OPTIONS, REGISTER, REFER, SUBSCRIBE
> -b INVITE sip:bob@home.example
subscription 7
= rtm
> -- OPTIONS sip:bob@home.example|Require: timer, histinfo, 100rel|
200 Allow: INVITE, ACK, CANCEL, BYE, OPTIONS, REGISTER, REFER, PRACK, UPDATE, SUBSCRIBE
= ---
> -- INVITE sip:bob@home.example|Session-Expires: 89|
open
> -d PRACK sip:bob@home.example
405 Allow: INVITE, ACK, CANCEL, BYE, OPTIONS, REGISTER, REFER
> -d UPDATE sip:bob@home.example
405 Allow: INVITE, ACK, CANCEL, BYE, OPTIONS, REGISTER, REFER
> -- SUBSCRIBE sip:bob@home.example
405 Allow: INVITE, ACK, CANCEL, BYE, OPTIONS, REGISTER, REFER
"#;

fn write_response(page: &mut Page, answer: &StatusResponse) {
    page.add_number(u64::from(answer.code));
    for line in answer.lines.items() {
        page.add(b" ");
        page.add(line.0.bytes());
        page.add(b": ");
        page.add(line.1.bytes());
    }
}

fn write_dialog(page: &mut Page, call: CallNo, side: Side) {
    page.add(b"enter ");
    page.add_number(u64::from(call.0));
    match side {
        Side::Caller => page.add(b" caller"),
        Side::Callee => page.add(b" callee"),
    }
}

fn write_disposition(page: &mut Page, course: &Disposition) {
    match course {
        Disposition::Respond(answer) => write_response(page, answer),
        Disposition::Enter { call, side } => write_dialog(page, *call, *side),
        Disposition::EnterConference { room, seat } => {
            page.add(b"room ");
            page.add_number(room.0);
            page.add(b" seat ");
            page.add_number(*seat);
        }
        Disposition::OpenCall => page.add(b"open"),
        Disposition::OpenConference => page.add(b"room"),
        Disposition::JoinConference { room } => {
            page.add(b"seat in ");
            page.add_number(room.0);
        }
        Disposition::Register { account, seconds } => {
            page.add(b"register ");
            page.add_number(u64::from(account.0));
            page.add(b" ");
            page.add_number(*seconds);
        }
        Disposition::Subscribe => page.add(b"subscribe"),
        Disposition::EnterSubscription(sub) => {
            page.add(b"subscription ");
            page.add_number(sub.0);
        }
    }
    page.add(b"\n");
}

/// The context of the request of a row, in addition to its message.
fn standing(whence: u8, to: u8) -> RequestContext {
    let named = match to {
        b'd' => Some(DialogOwner::InCall {
            call: CallNo(3),
            side: Side::Caller,
        }),
        b'e' => Some(DialogOwner::InCall {
            call: CallNo(3),
            side: Side::Callee,
        }),
        b's' => Some(DialogOwner::InConference {
            room: RoomNo(5),
            seat: 2,
        }),
        b'b' => Some(DialogOwner::InSubscription(SubNo(7))),
        _ => None,
    };
    RequestContext {
        is_merged: whence == b'm',
        is_full: whence == b'f',
        owner: named,
    }
}

/// Writes what is done with the request of a row.
fn write_row(page: &mut Page, directory: &Directory, whence: u8, to: u8, row: &[u8]) {
    let (start, further) = split_or_all(b'|', row);
    let mut text = Page::new(page.alloc);
    if to == b'x' {
        add_request_to(&mut text, b"<sip:eve@home.example>", start, further);
    } else if to == b'o' {
        add_request_with(
            &mut text,
            b"\"Bob\" <sip:bob@home.example>",
            start,
            further,
            b"v=0\r\nm=audio 5 RTP/AVP 0\r\n",
        );
    } else {
        add_request(&mut text, to != b'-', start, further);
    }
    let request = received_message(page, text.bytes(), whence != b'u');
    drop(text);
    if let Some(request) = request {
        let course = disposition(page.alloc, directory, &standing(whence, to), &request);
        drop(request);
        if let Some(course) = page.value_or_fail(course) {
            write_disposition(page, &course);
            drop(course);
        }
    }
}

/// Switches extensions on or off.
fn switch(directory: &mut Directory, reliable: u8, timer: u8, mwi: u8) {
    directory.reliable = reliable == b'r';
    directory.timer = timer == b't';
    directory.names.mwi = mwi == b'm';
}

fn write_line(page: &mut Page, directory: &mut Directory, line: &[u8]) {
    match line {
        [b'=', b' ', reliable, timer, mwi] => {
            page.add(line);
            page.add(b"\n");
            switch(directory, *reliable, *timer, *mwi);
        }
        [b'>', b' ', whence, to, b' ', row @ ..] => {
            page.add(line);
            page.add(b"\n");
            write_row(page, directory, *whence, *to, row);
        }
        _ => {}
    }
}

fn write_lines(page: &mut Page, directory: &mut Directory, table: &[u8]) {
    let mut rest = table;
    for _ in 0..300 {
        let (line, later) = next_line(rest);
        write_line(page, directory, line);
        rest = later;
    }
}

fn write_all(page: &mut Page, table: &[u8]) {
    if let Some(directory) = directory(page) {
        let mut directory = directory;
        write_lines(page, &mut directory, table);
        drop(directory);
    }
}

fn wrong_course(alloc: Global, table: &[u8]) -> usize {
    let mut page = Page::new(alloc);
    write_all(&mut page, table);
    wrong_line(page, table)
}

/// Each refusal and the order between them, each method, which requests enter a dialog, and which INVITEs open a call.
#[test]
fn decides(rt: HostRuntime) {
    assert_right(&rt, "TABLE", wrong_course(rt.alloc(), TABLE));
}
