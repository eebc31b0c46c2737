//! Messages that are written as one word.

use crate::messages::drafts::message_of;
use mmtel_message::Msg;
use mmtel_test_tables::{Transcript, split_or_all};

/// Writes a value after what precedes it, and the usual one where none is given.
fn write(transcript: &mut Transcript, front: &[u8], given: &[u8], usual: &[u8]) {
    transcript.add(front);
    transcript.add(if given.is_empty() { usual } else { given });
}

/// Writes the start line of a request, or of a response with this status.
fn write_start(transcript: &mut Transcript, status: &[u8], method: &[u8]) {
    if status.is_empty() {
        write(
            transcript,
            method,
            b" sip:bob@home.example SIP/2.0\r\n",
            b"",
        );
    } else {
        write(transcript, b"SIP/2.0 ", status, b"");
        transcript.add(b" Status\r\n");
    }
}

/// Writes the header fields of the words after the method: branch, sent-by, From tag, To tag, Call-ID, number of CSeq and number of RSeq.
fn write_lines(transcript: &mut Transcript, method: &[u8], words: &[u8]) {
    let (branch, words) = split_or_all(b'/', words);
    let (sent_by, words) = split_or_all(b'/', words);
    let (from_tag, words) = split_or_all(b'/', words);
    let (to_tag, words) = split_or_all(b'/', words);
    let (call_id, words) = split_or_all(b'/', words);
    let (number, words) = split_or_all(b'/', words);
    let (reliable, _) = split_or_all(b'/', words);
    write(transcript, b"Via: SIP/2.0/UDP ", sent_by, b"127.0.0.1:5071");
    write(transcript, b";branch=z9hG4bK", branch, b"");
    write(
        transcript,
        b"\r\nFrom: <sip:alice@home.example>;tag=",
        from_tag,
        b"f",
    );
    write(
        transcript,
        b"\r\nTo: <sip:bob@home.example>;tag=",
        to_tag,
        b"t",
    );
    write(transcript, b"\r\nCall-ID: ", call_id, b"c");
    write(transcript, b"\r\nCSeq: ", number, b"1");
    write(transcript, b" ", method, b"");
    if !reliable.is_empty() {
        write(transcript, b"\r\nRSeq: ", reliable, b"");
    }
    transcript.add(
        b"\r\nMax-Forwards: 70\r\nContact: <sip:alice@127.0.0.1:5071>\r\nContent-Length: 0\r\n\r\n",
    );
}

/// Status, method and what follows of a word: no status of a request.
fn parts_of(word: &[u8]) -> (&[u8], &[u8], &[u8]) {
    let (first, rest) = split_or_all(b'/', word);
    match first {
        [b'1'..=b'6', ..] => {
            let (method, rest) = split_or_all(b'/', rest);
            (first, method, rest)
        }
        _ => (b"", first, rest),
    }
}

/// The message of a word: of a request method and branch, separated by `/`, of a response its status before them; then may follow sent-by, From tag, To tag, Call-ID, number of
/// CSeq and number of RSeq. None where it cannot be read.
pub fn message(transcript: &mut Transcript, word: &[u8]) -> Option<Msg> {
    let (status, method, rest) = parts_of(word);
    let mut text = Transcript::new(transcript.alloc);
    write_start(&mut text, status, method);
    write_lines(&mut text, method, rest);
    let message = message_of(transcript, text.whole());
    drop(text);
    message
}
