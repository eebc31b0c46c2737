//! Received messages, of short words.

use crate::environments::{is, source, word};
use mmtel_base::{Text, skip_text};
use mmtel_compose::ReceivedMessage;
use mmtel_message::{Msg, Start, read};
use mmtel_test_tables::{Transcript, split_or_all};
use mmtel_types::Peer;

/// A message without header fields.
fn nothing() -> Msg {
    Msg::new(
        Start::Status {
            code: 100,
            phrase: Text::new(),
        },
        Text::new(),
    )
}

/// The first value of a header field of this name; no bytes where there is none.
pub fn value<'a>(message: &'a Msg, name: &[u8]) -> &'a [u8] {
    message.first(name).unwrap_or(b"")
}

/// The message of this text, from a peer; the first is trusted.
fn received_message(transcript: &mut Transcript, text: &Transcript, peer: u16) -> ReceivedMessage {
    let message = read(transcript.alloc, text.bytes());
    ReceivedMessage {
        peer: Peer(peer),
        source: source(peer),
        trusted: peer == 1,
        message: match transcript.value_or_fail(message) {
            Some(message) => message,
            None => nothing(),
        },
    }
}

fn add_line(text: &mut Transcript, name: &[u8], value: &[u8]) {
    text.add(name);
    text.add(b": ");
    text.add(value);
    text.add(b"\r\n");
}

/// Adds the further lines, which follow a `|` each: header fields, and after `=` lines of the body.
fn add_further(text: &mut Transcript, further: &[u8]) {
    let mut rest = further;
    let mut in_body = false;
    for _ in 0..40 {
        if rest.is_empty() {
            break;
        }
        let (line, later) = split_or_all(b'|', rest);
        match skip_text(b"=", line) {
            None => text.add(line),
            Some(line) => {
                if !in_body {
                    text.add(b"\r\n");
                }
                in_body = true;
                text.add(line);
            }
        }
        text.add(b"\r\n");
        rest = later;
    }
    if !in_body {
        text.add(b"\r\n");
    }
}

/// The Contact of a user of a peer.
pub fn add_place(text: &mut Transcript, user: &[u8], peer: u16) {
    text.add(b"sip:");
    text.add(user);
    text.add(b"@127.0.0.1:507");
    text.add_number(u64::from(peer));
}

fn add_contact(text: &mut Transcript, user: &[u8], peer: u16) {
    text.add(b"Contact: <");
    add_place(text, user, peer);
    text.add(b">\r\n");
}

/// The beginning of a request, up to Max-Forwards.
fn add_start(text: &mut Transcript, peer: u16, key: u64, method: &[u8], target: &[u8]) {
    text.add(method);
    text.add(b" ");
    text.add(target);
    text.add(b" SIP/2.0\r\nVia: SIP/2.0/UDP 127.0.0.1:507");
    text.add_number(u64::from(peer));
    text.add(b";branch=z9hG4bKr");
    text.add_number(key);
    text.add(b"\r\nMax-Forwards: 68\r\n");
}

fn add_number(text: &mut Transcript, number: &[u8], method: &[u8]) {
    text.add(b"CSeq: ");
    text.add(number);
    text.add(b" ");
    text.add(method);
    text.add(b"\r\n");
}

/// The offer of audio and video that this word means, as further lines; none for another word.
pub fn offer(word: &[u8]) -> &[u8] {
    if is(word, b"audio") {
        b"=v=0|=m=audio 4000 RTP/AVP 96|=a=rtpmap:96 X/8000|=m=video 4002 RTP/AVP 31"
    } else {
        b""
    }
}

/// The columns of the table for an INVITE by which a user comes.
#[derive(Clone, Copy)]
pub struct Coming<'a> {
    pub peer: u16,
    pub key: u64,
    /// What precedes the URI of From.
    pub name: &'a [u8],
    /// The tag of From after its `a`.
    pub tag: &'a [u8],
    /// The Call-ID after its `c`.
    pub call: &'a [u8],
    pub who: &'a [u8],
    pub whom: &'a [u8],
    /// `who` is asserted too, by P-Asserted-Identity.
    pub asserts: bool,
}

/// The INVITE of a user who comes.
pub fn invite(transcript: &mut Transcript, coming: Coming<'_>, further: &[u8]) -> ReceivedMessage {
    let mut text = Transcript::new(transcript.alloc);
    add_start(&mut text, coming.peer, coming.key, b"INVITE", coming.whom);
    text.add(b"From: ");
    text.add(coming.name);
    text.add(b"<sip:");
    text.add(coming.who);
    text.add(b">;tag=a");
    text.add(coming.tag);
    text.add(b"\r\nTo: <");
    text.add(coming.whom);
    text.add(b">\r\nCall-ID: c");
    text.add(coming.call);
    text.add(b"\r\nCSeq: 7 INVITE\r\n");
    add_contact(&mut text, b"caller", coming.peer);
    if coming.asserts {
        text.add(b"P-Asserted-Identity: <sip:");
        text.add(coming.who);
        text.add(b">\r\n");
    }
    add_further(&mut text, further);
    let heard = received_message(transcript, &text, coming.peer);
    drop(text);
    heard
}

/// To of a response: that of the request with this tag in place of its own, or as it is for `-`.
fn add_to(text: &mut Transcript, asked: &Msg, tag: &[u8]) {
    let to = value(asked, b"To");
    text.add(b"To: ");
    if is(tag, b"-") {
        text.add(to);
    } else {
        let (front, _) = split_or_all(b'>', to);
        text.add(front);
        text.add(b">;tag=");
        text.add(tag);
    }
    text.add(b"\r\n");
}

/// A response to a request of the server, of a tag and a status: the tag is in its To, or `-` for that of the request; a Contact is present with a tag, but not in finals from 300,
/// nor where `=` precedes the tag.
pub fn response(
    transcript: &mut Transcript,
    asked: &Msg,
    peer: u16,
    words: &[u8],
    further: &[u8],
) -> ReceivedMessage {
    let (tag, status) = word(words);
    let (tag, is_told) = match skip_text(b"=", tag) {
        Some(tag) => (tag, false),
        None => (tag, !is(tag, b"-")),
    };
    let mut text = Transcript::new(transcript.alloc);
    text.add(b"SIP/2.0 ");
    text.add(status);
    text.add(b"\r\n");
    add_line(&mut text, b"Via", value(asked, b"Via"));
    add_line(&mut text, b"From", value(asked, b"From"));
    add_to(&mut text, asked, tag);
    add_line(&mut text, b"Call-ID", value(asked, b"Call-ID"));
    add_line(&mut text, b"CSeq", value(asked, b"CSeq"));
    if is_told && (status.starts_with(b"1") || status.starts_with(b"2")) {
        add_contact(&mut text, tag, peer);
    }
    add_further(&mut text, further);
    let heard = received_message(transcript, &text, peer);
    drop(text);
    heard
}

/// A 2xx to a request of this method and branch.
pub fn success(transcript: &mut Transcript, method: &[u8], branch: &[u8]) -> ReceivedMessage {
    let mut text = Transcript::new(transcript.alloc);
    text.add(b"SIP/2.0 200 OK\r\nVia: SIP/2.0/UDP h;branch=");
    text.add(branch);
    text.add(b"\r\nFrom: <sip:a@h>;tag=a\r\nTo: <sip:b@h>;tag=b\r\nCall-ID: c\r\n");
    add_number(&mut text, b"1", method);
    text.add(b"\r\n");
    let heard = received_message(transcript, &text, 1);
    drop(text);
    heard
}

/// The side that sends a request in a dialog, or CANCEL, and the dialog.
#[derive(Clone, Copy)]
pub struct RequestFields<'a> {
    pub peer: u16,
    pub key: u64,
    pub from: &'a [u8],
    pub to: &'a [u8],
    pub call_id: &'a [u8],
    /// The user part of the Contact that an INVITE has.
    pub user: &'a [u8],
}

/// A request in a dialog, of this method and number, or its CANCEL.
pub fn request(
    transcript: &mut Transcript,
    saying: RequestFields<'_>,
    method: &[u8],
    cseq: &[u8],
    further: &[u8],
) -> ReceivedMessage {
    let mut text = Transcript::new(transcript.alloc);
    add_start(
        &mut text,
        saying.peer,
        saying.key,
        method,
        b"sip:127.0.0.1:5060",
    );
    add_line(&mut text, b"From", saying.from);
    add_line(&mut text, b"To", saying.to);
    add_line(&mut text, b"Call-ID", saying.call_id);
    add_number(&mut text, cseq, method);
    if is(method, b"INVITE") {
        add_contact(&mut text, saying.user, saying.peer);
    }
    add_further(&mut text, further);
    let heard = received_message(transcript, &text, saying.peer);
    drop(text);
    heard
}

/// The identifiers of a dialog in words: its Call-ID, the server's tag and the other side's; `-` is none.
#[derive(Clone, Copy)]
pub struct Name<'a> {
    pub call_id: &'a [u8],
    pub local: &'a [u8],
    pub remote: &'a [u8],
}

fn or_none(word: &[u8]) -> &[u8] {
    if is(word, b"-") { b"" } else { word }
}

/// The identifiers of a dialog, and the words that follow.
pub fn named(words: &[u8]) -> (Name<'_>, &[u8]) {
    let (call_id, rest) = word(words);
    let (local, rest) = word(rest);
    let (remote, rest) = word(rest);
    let name = Name {
        call_id,
        local: or_none(local),
        remote: or_none(remote),
    };
    (name, rest)
}

/// A side of a dialog, with its tag where it has one.
fn add_side(text: &mut Transcript, uri: &[u8], tag: &[u8]) {
    text.add(uri);
    if !tag.is_empty() {
        text.add(b";tag=");
        text.add(tag);
    }
}

/// A request in the dialog with these identifiers, of this method and number, or its CANCEL, where the server has no tag.
pub fn request_in(
    transcript: &mut Transcript,
    peer: u16,
    key: u64,
    name: Name<'_>,
    method: &[u8],
    cseq: &[u8],
    further: &[u8],
) -> ReceivedMessage {
    let mut from = Transcript::new(transcript.alloc);
    add_side(&mut from, b"<sip:this@home.example>", name.remote);
    let mut to = Transcript::new(transcript.alloc);
    add_side(&mut to, b"<sip:that@home.example>", name.local);
    let saying = RequestFields {
        peer,
        key,
        from: from.bytes(),
        to: to.bytes(),
        call_id: name.call_id,
        user: b"again",
    };
    let heard = request(transcript, saying, method, cseq, further);
    drop(from);
    drop(to);
    heard
}
