//! What is built from requests.

use crate::asserting::assert_right;
use crate::pages::{Page, wrong_line};
use crate::requests::{SIP, address, received_message};
use mmtel_admission::{
    StatusResponse, completed_reply, dialog_name, is_untagged, plain_response, response_to,
};
use mmtel_base::{List, NoMemory};
use mmtel_compose::ReceivedMessage;
use mmtel_message::{Msg, OwnAddress, add_bytes, reply_with};
use std::alloc::Global;

/// An INVITE whose Via names another address than that from which it came.
const OPENING: &[u8] = br#"INVITE sip:bob@far.example SIP/2.0
Via: SIP/2.0/UDP 10.0.0.9:5071;branch=z9hG4bKa1;rport
Max-Forwards: 68
From: "Erin" <sip:erin@other.example>;tag=a
To: "Bob" <sip:bob@far.example>
Call-ID: c1
CSeq: 7 INVITE
Contact: <sip:erin@127.0.0.1:5071>
Route: <sip:p@far.example;lr>
P-Asserted-Identity: <sip:erin@other.example>
Privacy: user
Subject: lunch
History-Info: <sip:carol@home.example>;index=1
Supported: histinfo, timer
Content-Type: text/plain
Content-Length: 2

hi"#;

/// One with a To tag.
const OPEN: &[u8] = br#"INVITE sip:bob@far.example SIP/2.0
Via: SIP/2.0/UDP 127.0.0.1:5071;branch=z9hG4bKa1
From: "Erin" <sip:erin@other.example>;tag=a
To: "Bob" <sip:bob@far.example>;tag=b
Call-ID: c1
CSeq: 7 INVITE
Contact: <sip:erin@127.0.0.1:5071>
P-Asserted-Identity: <sip:erin@other.example>
Content-Length: 0

"#;

const WANTED: &[u8] = br#"untagged
SIP/2.0 420 Bad Extension
Via: SIP/2.0/UDP 10.0.0.9:5071;branch=z9hG4bKa1;rport=5071;received=127.0.0.1
From: "Erin" <sip:erin@other.example>;tag=a
To: "Bob" <sip:bob@far.example>;tag=t1
Call-ID: c1
CSeq: 7 INVITE
Unsupported: 100rel
Content-Length: 0

SIP/2.0 420 Bad Extension
Via: SIP/2.0/UDP 10.0.0.9:5071;branch=z9hG4bKa1;rport=5072;received=127.0.0.1
From: "Erin" <sip:erin@other.example>;tag=a
To: "Bob" <sip:bob@far.example>;tag=t1
Call-ID: c1
CSeq: 7 INVITE
Content-Length: 0

no dialog
tagged
SIP/2.0 503 Service Unavailable
Via: SIP/2.0/UDP 127.0.0.1:5071;branch=z9hG4bKa1
From: "Erin" <sip:erin@other.example>;tag=a
To: "Bob" <sip:bob@far.example>;tag=b
Call-ID: c1
CSeq: 7 INVITE
Content-Length: 0

dialog c1 b a
"#;

/// Writes a message that was built.
fn write_report(page: &mut Page, built: Result<Msg, NoMemory>) {
    if let Some(message) = page.value_or_fail(built) {
        let text = message.text(page.alloc);
        drop(message);
        if let Some(text) = page.value_or_fail(text) {
            page.add_ended(b'\r', text.bytes(), b"");
            drop(text);
        }
    }
}

fn heard(page: &mut Page, lines: &[u8]) -> Option<ReceivedMessage> {
    let mut text = Page::new(page.alloc);
    text.add_ended(b'\n', lines, b"\r\n");
    let heard = received_message(page, text.bytes(), true);
    drop(text);
    heard
}

fn write_tag(page: &mut Page, request: &ReceivedMessage) {
    if is_untagged(&request.message) {
        page.add(b"untagged\n");
    } else {
        page.add(b"tagged\n");
    }
}

/// A 420 that names an option tag.
fn refusal(page: &mut Page) -> StatusResponse {
    let mut named = List::new();
    let added = add_bytes(page.alloc, &mut named, b"Unsupported", b"100rel");
    page.value_or_fail(added);
    StatusResponse {
        code: 420,
        lines: named,
    }
}

/// The dialog that a request names.
fn write_dialog(page: &mut Page, request: &ReceivedMessage) {
    let name = dialog_name(page.alloc, request);
    match page.value_or_fail(name) {
        None => {}
        Some(None) => page.add(b"no dialog\n"),
        Some(Some(name)) => {
            page.add(b"dialog ");
            page.add(name.call_id.bytes());
            page.add(b" ");
            page.add(name.local.bytes());
            page.add(b" ");
            page.add(name.remote.bytes());
            page.add(b"\n");
            drop(name);
        }
    }
}

/// The reply to unreadable bytes that is completed for a peer at another port.
fn write_completed(page: &mut Page, request: &ReceivedMessage) {
    let reply = reply_with(page.alloc, 420, b"Bad Extension", &request.message.lines());
    if let Some(reply) = page.value_or_fail(reply) {
        let built = completed_reply(page.alloc, b"t1", address(5072), &reply);
        drop(reply);
        write_report(page, built);
    }
}

fn write_hidden(page: &mut Page, request: &ReceivedMessage) {
    write_tag(page, request);
    let refusal = refusal(page);
    let built = response_to(page.alloc, OwnAddress::of(SIP), b"t1", request, &refusal);
    drop(refusal);
    write_report(page, built);
    write_completed(page, request);
    write_dialog(page, request);
}

fn write_open(page: &mut Page, request: &ReceivedMessage) {
    write_tag(page, request);
    let refusal = plain_response(503);
    let built = response_to(page.alloc, OwnAddress::of(SIP), b"t1", request, &refusal);
    drop(refusal);
    write_report(page, built);
    write_dialog(page, request);
}

fn write_all(page: &mut Page) {
    if let Some(request) = heard(page, OPENING) {
        write_hidden(page, &request);
        drop(request);
    }
    if let Some(request) = heard(page, OPEN) {
        write_open(page, &request);
        drop(request);
    }
}

fn wrong_reply(alloc: Global) -> usize {
    let mut page = Page::new(alloc);
    write_all(&mut page);
    wrong_line(page, WANTED)
}

/// A refusal with its header field and the server's tag, a reply that is completed, a response within a dialog, and the dialogs that both requests name.
#[test]
fn builds(rt: HostRuntime) {
    assert_right(&rt, "reply", wrong_reply(rt.alloc()));
}
