//! The transcript of a step: all that is sent, and rows; and what was sent before.

use crate::environments::is;
use crate::messages::value;
use mmtel_base::{List, Text, split_once_at};
use mmtel_charging::{Row, rows_text};
use mmtel_message::{Msg, Start, read};
use mmtel_output::StepOutput;
use mmtel_test_tables::Transcript;
use mmtel_transaction::{DueWord, Emit, Emits, RoomWord, Tokens};
use mmtel_types::{CallNo, Peer, RoomNo};

/// A request that the server sent, with the number of its transaction.
#[derive(Drop)]
pub struct Sent {
    pub key: u64,
    pub peer: u16,
    pub message: Msg,
}

/// The subject of a table: one call, several, or conferences.
#[derive(Clone, Copy)]
pub enum Style {
    Call,
    Calls,
    Rooms,
}

/// The exchange between the server and its peers.
#[derive(Drop)]
pub struct TestTraffic {
    pub style: Style,
    pub desk: StepOutput,
    /// What was sent.
    pub sent: List<Sent>,
    /// How many transactions were opened, servers and clients together.
    pub opened: u64,
    /// Messages are written whole.
    pub whole: bool,
}

impl TestTraffic {
    /// Nothing was sent, and nothing was drawn of this token.
    pub fn new(transcript: &mut Transcript, style: Style, token: &[u8]) -> TestTraffic {
        let token = transcript.copy(token);
        TestTraffic {
            style,
            desk: StepOutput::new(Tokens::new(token)),
            sent: List::new(),
            opened: 0,
            whole: false,
        }
    }

    /// The number of the transaction that is opened now.
    pub fn open(&mut self) -> u64 {
        let key = self.opened;
        self.opened = key.saturating_add(1);
        key
    }

    /// The number of the transaction that a request opens; an ACK opens none.
    pub fn key_of(&mut self, method: &[u8]) -> u64 {
        if is(method, b"ACK") {
            self.opened
        } else {
            self.open()
        }
    }

    /// What was sent in this transaction.
    pub fn sent_in(&self, key: u64) -> Option<&Sent> {
        for sent in self.sent.items() {
            if sent.key == key {
                return Some(sent);
            }
        }
        None
    }
}

/// The branch and the method of what was sent.
pub fn branch_and_method(sent: &Sent) -> (&[u8], &[u8]) {
    let (_, branch) = split_once_at(b'=', value(&sent.message, b"Via")).unwrap_or((b"", b""));
    let (_, method) = split_once_at(b' ', value(&sent.message, b"CSeq")).unwrap_or((b"", b""));
    (branch, method)
}

/// The names of header fields that are written of whole messages alone.
const COMMON: &[u8] = b"Via;Max-Forwards;From;To;Call-ID;CSeq;Contact;Content-Length;Record-Route;";

fn is_among(names: &[u8], name: &[u8]) -> bool {
    let mut rest = names;
    for _ in 0..9 {
        match split_once_at(b';', rest) {
            None => break,
            Some((first, later)) => {
                if is(first, name) {
                    return true;
                }
                rest = later;
            }
        }
    }
    false
}

/// Whether a header field of this name is written: of one call all that are not common, of several whether a call waits or is to be retried later.
fn is_told(style: Style, name: &[u8]) -> bool {
    match style {
        Style::Call => !is_among(COMMON, name),
        Style::Calls => is_among(b"Alert-Info;Retry-After;", name),
        Style::Rooms => false,
    }
}

fn write_start(transcript: &mut Transcript, start: &Start) {
    match start {
        Start::Request { method, uri } => {
            transcript.add(method.bytes());
            transcript.add(b" ");
            transcript.add(uri.bytes());
        }
        Start::Status { code, phrase } => {
            transcript.add_number(u64::from(*code));
            transcript.add(b" ");
            transcript.add(phrase.bytes());
        }
    }
}

/// Writes a body, a line each.
fn write_body(transcript: &mut Transcript, body: &[u8]) {
    let mut rest = body;
    for _ in 0..40 {
        match split_once_at(b'\r', rest) {
            None => break,
            Some((line, later)) => {
                transcript.add(b" =");
                transcript.add_line(line);
                rest = split_once_at(b'\n', later).unwrap_or((b"", b"")).1;
            }
        }
    }
}

/// Writes the content of a NOTIFY.
fn write_state(transcript: &mut Transcript, message: &Msg) {
    if let Some(state) = message.first(b"Subscription-State") {
        transcript.add(b" ");
        transcript.add(state);
        transcript.add(b": ");
        transcript.add_without_cr(message.body());
    }
}

/// Writes the start line, the CSeq, the header fields that are to be written, and the body or the state.
fn write_short(transcript: &mut Transcript, style: Style, message: &Msg) {
    transcript.add(b" ");
    write_start(transcript, message.start());
    transcript.add(b", ");
    transcript.add_line(value(message, b"CSeq"));
    let lines = message.lines();
    for i in 0..lines.len() {
        let (name, value) = lines.at(i);
        if is_told(style, name) {
            transcript.add(b" ");
            transcript.add(name);
            transcript.add(b": ");
            transcript.add_line(value);
        }
    }
    match style {
        Style::Rooms => write_state(transcript, message),
        _ => write_body(transcript, message.body()),
    }
}

fn write_whole(transcript: &mut Transcript, message: &Msg) {
    transcript.add(b"\n");
    let text = message.text(transcript.alloc);
    if let Some(text) = transcript.value_or_fail(text) {
        transcript.add_without_cr(text.bytes());
        drop(text);
    }
}

fn write_message(transcript: &mut Transcript, wire: &TestTraffic, message: &Msg) {
    if wire.whole {
        write_whole(transcript, message);
    } else {
        write_short(transcript, wire.style, message);
    }
}

fn write_text(transcript: &mut Transcript, wire: &TestTraffic, text: &Text) {
    let message = read(transcript.alloc, text.bytes());
    if let Some(message) = transcript.value_or_fail(message) {
        write_message(transcript, wire, &message);
        drop(message);
    }
}

/// Writes a word and a number.
pub fn write_head(transcript: &mut Transcript, word: &[u8], number: u64) {
    transcript.add(word);
    transcript.add_number(number);
    transcript.add(b":");
}

/// Writes a deadline after its owner.
fn write_deadline(transcript: &mut Transcript, word: &[u8], number: u64, at: u64) {
    transcript.add(word);
    transcript.add_number(number);
    transcript.add(b" at ");
    transcript.add_number(at);
    transcript.add(b"\n");
}

fn write_due(transcript: &mut Transcript, what: DueWord, at: u64) {
    match what {
        DueWord::NoReply(number) => write_deadline(transcript, b" no-reply ", number, at),
        DueWord::NoPrack(number) => write_deadline(transcript, b" no-prack ", number, at),
        DueWord::Cap(number) => write_deadline(transcript, b" cap ", number, at),
        DueWord::NoAck(number) => write_deadline(transcript, b" no-ack ", number, at),
        DueWord::Expired(number) => write_deadline(transcript, b" expired ", number, at),
    }
}

fn write_conference_due(transcript: &mut Transcript, what: RoomWord, at: u64) {
    match what {
        RoomWord::Cap(number) => write_deadline(transcript, b" cap ", number, at),
        RoomWord::NoAck(number) => write_deadline(transcript, b" no-ack ", number, at),
    }
}

/// Writes a request of the server and keeps it.
fn write_request(transcript: &mut Transcript, wire: &mut TestTraffic, peer: Peer, message: Msg) {
    let key = wire.open();
    transcript.add(b"ask ");
    transcript.add_number(key);
    write_head(transcript, b" to ", u64::from(peer.0));
    write_message(transcript, wire, &message);
    let sent = Sent {
        key,
        peer: peer.0,
        message,
    };
    let kept = wire.sent.push(transcript.alloc, sent);
    transcript.value_or_fail(kept);
}

/// Writes a message after its owner.
fn write_of(
    transcript: &mut Transcript,
    wire: &TestTraffic,
    word: &[u8],
    number: u64,
    message: Msg,
) {
    write_head(transcript, word, number);
    write_message(transcript, wire, &message);
    drop(message);
}

/// Writes a message in no transaction after its destination.
fn write_plain(transcript: &mut Transcript, wire: &TestTraffic, peer: Peer, text: Text) {
    write_head(transcript, b"plain to ", u64::from(peer.0));
    write_text(transcript, wire, &text);
    drop(text);
}

fn write_call_due(transcript: &mut Transcript, style: Style, call: CallNo, what: DueWord, at: u64) {
    transcript.add(b"due");
    if matches!(style, Style::Calls) {
        transcript.add_spaced_number(call.0);
    }
    write_due(transcript, what, at);
}

fn write_participant_due(
    transcript: &mut Transcript,
    room: RoomNo,
    seat: u64,
    what: RoomWord,
    at: u64,
) {
    transcript.add(b"due");
    transcript.add_spaced_number(room.0);
    transcript.add(b" seat");
    transcript.add_spaced_number(seat);
    write_conference_due(transcript, what, at);
}

fn write_settled(transcript: &mut Transcript, key: u64, own: Option<u32>) {
    transcript.add(b"settled ");
    transcript.add_number(key);
    match own {
        None => {}
        Some(own) => transcript.add_spaced_number(u64::from(own)),
    }
    transcript.add(b"\n");
}

fn write_emit(transcript: &mut Transcript, wire: &mut TestTraffic, emit: Emit) {
    match emit {
        Emit::Ask { peer, msg } => write_request(transcript, wire, peer, msg),
        Emit::Reply { key, msg } => write_of(transcript, wire, b"reply ", key.0, msg),
        Emit::Plain { peer, text } => write_plain(transcript, wire, peer, text),
        Emit::Ack { key, msg } => write_of(transcript, wire, b"ack ", key.0, msg),
        Emit::Settled { key, own } => write_settled(transcript, key.0, own),
        Emit::Arm { call, what, at } => write_call_due(transcript, wire.style, call, what, at),
        Emit::ArmSeat {
            room,
            seat,
            what,
            at,
        } => write_participant_due(transcript, room, seat, what, at),
    }
}

pub fn write_emits(transcript: &mut Transcript, wire: &mut TestTraffic, emits: Emits) {
    let mut rest = emits;
    for _ in 0..100 {
        match rest.pop_first() {
            None => break,
            Some(emit) => write_emit(transcript, wire, emit),
        }
    }
    drop(rest);
}

/// Writes rows, a line each.
pub fn write_rows(transcript: &mut Transcript, rows: &[Row]) {
    let text = rows_text(transcript.alloc, rows);
    if let Some(text) = transcript.value_or_fail(text) {
        let (_, lines) = split_once_at(b'\n', text.bytes()).unwrap_or((b"", b""));
        transcript.add(lines);
        drop(text);
    }
}
