//! The parsed values of events.

use crate::asserting::assert_right;
use crate::pages::{Page, wrong_line};
use crate::requests::{add_request, address, directory};
use mmtel_admission::{ParsedDatagram, moment, parse_datagram};
use mmtel_cli::Event;
use mmtel_directory::Directory;
use mmtel_test_tables::split_or_all;
use mmtel_types::{Addr, Moment, Peer};
use std::alloc::Global;

const WANTED: &[u8] = br#"a message 5
heard 1 at 5071 trusted
a stranger's 6
heard 2 at 5072
of nobody 7
nothing
empty 8
nothing
no head 9
nothing
wrong branch 10
refused 1 at 5071: SIP/2.0 400 Bad Request
Via: SIP/2.0/UDP 127.0.0.1:5071;branch=abc
From: <sip:alice@home.example>;tag=a
To: "Bob" <sip:bob@home.example>
Call-ID: c1
CSeq: 7 INVITE
Content-Length: 0

an ACK 11
nothing
many lines 12
refused 2 at 5072: SIP/2.0 513 Message Too Large
Via: SIP/2.0/UDP 127.0.0.1:5071;branch=z9hG4bKa1
From: <sip:alice@home.example>;tag=a
To: "Bob" <sip:bob@home.example>
Call-ID: c1
CSeq: 7 OPTIONS
Content-Length: 0

many bytes 13
refused 1 at 5071: SIP/2.0 513 Message Too Large
Via: SIP/2.0/UDP 127.0.0.1:5071;branch=z9hG4bKa1
From: <sip:alice@home.example>;tag=a
To: "Bob" <sip:bob@home.example>
Call-ID: c1
CSeq: 7 OPTIONS
Content-Length: 0

web 14
quiet 15
"#;

fn write_place(page: &mut Page, word: &[u8], peer: Peer, source: Addr) {
    page.add(word);
    page.add_number(u64::from(peer.0));
    page.add(b" at ");
    page.add_number(u64::from(source.port));
}

fn write_reported(page: &mut Page, transcript: &ParsedDatagram) {
    match transcript {
        ParsedDatagram::Nothing => page.add(b"nothing\n"),
        ParsedDatagram::Refused {
            peer,
            source,
            reply,
        } => {
            write_place(page, b"refused ", *peer, *source);
            page.add(b": ");
            let text = reply.text(page.alloc);
            if let Some(text) = page.value_or_fail(text) {
                page.add_ended(b'\r', text.bytes(), b"");
                drop(text);
            }
        }
        ParsedDatagram::Received(hearing) => {
            write_place(page, b"heard ", hearing.peer, hearing.source);
            page.add(if hearing.trusted {
                b" trusted\n"
            } else {
                b"\n"
            });
        }
    }
}

/// Writes the moment of an event, and the parsed values of a datagram.
fn write_report(page: &mut Page, directory: &Directory, word: &[u8], event: &Event) {
    page.add(word);
    page.add(b" ");
    page.add_number(moment(event).ms());
    page.add(b"\n");
    if let Event::Datagram { from, bytes, .. } = event {
        let told = parse_datagram(page.alloc, directory, *from, bytes.bytes());
        if let Some(told) = page.value_or_fail(told) {
            write_reported(page, &told);
            drop(told);
        }
    }
}

/// Writes the parsed values of a datagram from this port.
fn write_datagram(
    page: &mut Page,
    directory: &Directory,
    word: &[u8],
    ms: u64,
    port: u16,
    bytes: &[u8],
) {
    match Moment::new(ms) {
        None => page.fail(),
        Some(at) => {
            let event = Event::Datagram {
                from: address(port),
                at,
                bytes: page.copy(bytes),
            };
            write_report(page, directory, word, &event);
            drop(event);
        }
    }
}

/// The bytes of a request, with this header field so many times.
fn request(page: &Page, start: &[u8], line: &[u8], times: usize) -> Page {
    let mut lines = Page::new(page.alloc);
    for _ in 0..times {
        lines.add(line);
    }
    let mut text = Page::new(page.alloc);
    add_request(&mut text, false, start, lines.bytes());
    drop(lines);
    text
}

/// A request with another branch, without the magic cookie of RFC 3261.
fn misspelled(page: &Page, start: &[u8]) -> Page {
    let mut text = Page::new(page.alloc);
    text.add(start);
    text.add(
        b" SIP/2.0\r\nVia: SIP/2.0/UDP 127.0.0.1:5071;branch=abc\r\nFrom: <sip:alice@home.example>;tag=a\r\nTo: \"Bob\" <sip:bob@home.example>\r\nCall-ID: c1\r\nCSeq: 7 ",
    );
    let (method, _) = split_or_all(b' ', start);
    text.add(method);
    text.add(b"\r\nContent-Length: 0\r\n\r\n");
    text
}

fn write_messages(page: &mut Page, directory: &Directory) {
    let invite = request(page, b"INVITE sip:bob@home.example", b"", 0);
    write_datagram(page, directory, b"a message", 5, 5071, invite.bytes());
    write_datagram(page, directory, b"a stranger's", 6, 5072, invite.bytes());
    write_datagram(page, directory, b"of nobody", 7, 5073, invite.bytes());
    write_datagram(page, directory, b"empty", 8, 5071, b"");
    write_datagram(
        page,
        directory,
        b"no head",
        9,
        5071,
        b"OPTIONS sip:x SIP/2.0\r\n",
    );
    drop(invite);
}

fn write_misspelled(page: &mut Page, directory: &Directory) {
    let wrong = misspelled(page, b"INVITE sip:bob@home.example");
    write_datagram(page, directory, b"wrong branch", 10, 5071, wrong.bytes());
    drop(wrong);
    let wrong = misspelled(page, b"ACK sip:bob@home.example");
    write_datagram(page, directory, b"an ACK", 11, 5071, wrong.bytes());
    drop(wrong);
}

fn write_refused(page: &mut Page, directory: &Directory) {
    write_misspelled(page, directory);
    let many = request(page, b"OPTIONS sip:bob@home.example", b"Subject: x|", 122);
    write_datagram(page, directory, b"many lines", 12, 5072, many.bytes());
    drop(many);
    let large = request(
        page,
        b"OPTIONS sip:bob@home.example",
        b"0123456789abcdef",
        1024,
    );
    write_datagram(page, directory, b"many bytes", 13, 5071, large.bytes());
    drop(large);
}

fn write_event(page: &mut Page, directory: &Directory, word: &[u8], event: Event) {
    write_report(page, directory, word, &event);
    drop(event);
}

fn write_others(page: &mut Page, directory: &Directory) {
    match (Moment::new(14), Moment::new(15)) {
        (Some(at), Some(later)) => {
            let bytes = page.copy(b"GET / HTTP/1.1\r\n\r\n");
            write_event(page, directory, b"web", Event::Web { at, bytes });
            write_event(page, directory, b"quiet", Event::Quiet { at: later });
        }
        _ => page.fail(),
    }
}

fn write_all(page: &mut Page) {
    if let Some(directory) = directory(page) {
        write_messages(page, &directory);
        write_refused(page, &directory);
        write_others(page, &directory);
        drop(directory);
    }
}

fn wrong_reading(alloc: Global) -> usize {
    let mut page = Page::new(alloc);
    write_all(&mut page);
    wrong_line(page, WANTED)
}

/// A message of a trusted peer and of another one, a datagram of an unknown address, each parse fault, and the moments of all events.
#[test]
fn reads(rt: HostRuntime) {
    assert_right(&rt, "reading", wrong_reading(rt.alloc()));
}
