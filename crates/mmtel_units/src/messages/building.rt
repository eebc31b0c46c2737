//! Header fields that the server builds, and how it identifies itself in them.

use crate::asserting::assert_right;
use crate::messages::drafts::{request, write_lines_to};
use mmtel_lex::{List, NoMemory, Text};
use mmtel_message::{
    Line, Msg, OwnAddress, add_bytes, add_decimal, add_line, add_named, add_passed, ip_text,
    tagged_value,
};
use mmtel_test_tables::Transcript;
use mmtel_types::Addr;
use std::alloc::Global;

/// The longest address that can be written.
const FAR: Addr = Addr {
    ip: [192, 168, 200, 255],
    port: 65535,
};

/// The shortest one.
const NEAR: Addr = Addr {
    ip: [0, 0, 0, 0],
    port: 1,
};

/// The server's own.
const SIP: Addr = Addr {
    ip: [127, 0, 0, 1],
    port: 5060,
};

/// Adds a header field whose value was built.
fn add_made(
    transcript: &mut Transcript,
    lines: &mut List<Line>,
    name: &[u8],
    value: Result<Text, NoMemory>,
) {
    let value = transcript.text_or_fail(value);
    let done = add_line(transcript.alloc, lines, name, value);
    transcript.fail_unless(done.is_ok());
}

/// A header field whose bytes are these.
fn add(transcript: &mut Transcript, lines: &mut List<Line>, name: &[u8], value: &[u8]) {
    let done = add_bytes(transcript.alloc, lines, name, value);
    transcript.fail_unless(done.is_ok());
}

/// How a server of this address identifies itself.
fn add_own(transcript: &mut Transcript, lines: &mut List<Line>, own: OwnAddress) {
    add(transcript, lines, b"X-Addr", own.text());
    add_made(
        transcript,
        lines,
        b"Via",
        own.via_text(transcript.alloc, b"T-4"),
    );
    add(transcript, lines, b"Contact", own.contact());
}

/// Header fields of each kind, as the server builds them.
fn build(transcript: &mut Transcript, lines: &mut List<Line>) {
    let alloc = transcript.alloc;
    add_made(transcript, lines, b"X-Ip", ip_text(alloc, FAR.ip));
    add_own(transcript, lines, OwnAddress::of(FAR));
    add_own(transcript, lines, OwnAddress::of(NEAR));
    add_own(transcript, lines, OwnAddress::of(SIP));
    let bare = transcript.copy(b"<sip:b@h>;x");
    add_made(transcript, lines, b"To", tagged_value(alloc, bare, b"t-1"));
    add(transcript, lines, b"CSeq", b"1 INVITE");
    let done = add_decimal(alloc, lines, b"Max-Forwards", 69);
    transcript.fail_unless(done.is_ok());
}

/// What was received: all header fields of it, and those of a name.
fn pass(transcript: &mut Transcript, lines: &mut List<Line>) {
    let mut received = List::new();
    add(transcript, &mut received, b"supported", b"histinfo");
    add(transcript, &mut received, b"Subject", b"lunch");
    add(transcript, &mut received, b"Supported", b"timer");
    let done = add_passed(transcript.alloc, lines, received.items());
    transcript.fail_unless(done.is_ok());
    let start = request(transcript, b"X");
    let message = Msg::of(start, received, Text::new());
    let done = add_named(transcript.alloc, lines, b"SUPPORTED", &message.lines());
    drop(message);
    transcript.fail_unless(done.is_ok());
}

/// Via and Contact by RFC 3261 §8.1.1.7 and §8.1.1.8, and a tag after a To value (§19.3); then all that was received, and what of it has a name, which is compared without case
/// (§7.3.1).
const BUILT: &[u8] = b"X-Ip: 192.168.200.255
X-Addr: 192.168.200.255:65535
Via: SIP/2.0/UDP 192.168.200.255:65535;branch=z9hG4bKT-4
Contact: <sip:192.168.200.255:65535>
X-Addr: 0.0.0.0:1
Via: SIP/2.0/UDP 0.0.0.0:1;branch=z9hG4bKT-4
Contact: <sip:0.0.0.0:1>
X-Addr: 127.0.0.1:5060
Via: SIP/2.0/UDP 127.0.0.1:5060;branch=z9hG4bKT-4
Contact: <sip:127.0.0.1:5060>
To: <sip:b@h>;x;tag=t-1
CSeq: 1 INVITE
Max-Forwards: 69
supported: histinfo
Subject: lunch
Supported: timer
supported: histinfo
Supported: timer
#
";

/// The number of the first line that differs; 0 where none does.
fn wrong_built(alloc: Global) -> usize {
    let mut transcript = Transcript::new(alloc);
    let mut lines = List::new();
    build(&mut transcript, &mut lines);
    pass(&mut transcript, &mut lines);
    write_lines_to(&mut transcript, lines.items());
    drop(lines);
    transcript.wrong_line(BUILT)
}

#[test]
fn builds_lines(rt: HostRuntime) {
    assert_right(&rt, "built", wrong_built(rt.alloc()));
}
