//! Messages that tests build of the lines of a table, and header fields as a table has them.

use mmtel_lex::{List, Text};
use mmtel_message::{Line, Msg, Start, add_bytes, read};
use mmtel_test_tables::{Transcript, next_line, split_or_all};

/// The message that is read of these bytes; none where they cannot be read, which is recorded.
pub fn message_of(transcript: &mut Transcript, bytes: &[u8]) -> Option<Msg> {
    let message = read(transcript.alloc, bytes);
    transcript.value_or_fail(message)
}

/// The message of these lines, each ended by LF.
pub fn message_of_lines(transcript: &mut Transcript, lines: &[u8]) -> Option<Msg> {
    let mut text = Transcript::new(transcript.alloc);
    text.add_with_cr(lines);
    let message = message_of(transcript, text.whole());
    drop(text);
    message
}

/// Writes the text of a message, its lines ended by LF.
pub fn write_message(transcript: &mut Transcript, message: &Msg) {
    let text = message.text(transcript.alloc);
    let text = transcript.text_or_fail(text);
    transcript.add_without_cr(text.bytes());
    drop(text);
}

/// Adds a header field at the end of a message.
pub fn add(transcript: &mut Transcript, message: &mut Msg, name: &[u8], value: &[u8]) {
    let value = transcript.copy(value);
    let done = message.add(transcript.alloc, name, value);
    transcript.fail_unless(done.is_ok());
}

/// Adds a header field of a table.
fn add_row(transcript: &mut Transcript, lines: &mut List<Line>, row: &[u8]) {
    let (name, value) = split_or_all(b':', row);
    let value = value.strip_prefix(b" ").unwrap_or(value);
    let done = add_bytes(transcript.alloc, lines, name, value);
    transcript.fail_unless(done.is_ok());
}

/// The header fields of a table.
pub fn lines_of(transcript: &mut Transcript, table: &[u8]) -> List<Line> {
    let mut lines = List::new();
    let mut rows = table;
    for _ in 0..20 {
        if !rows.is_empty() {
            let (row, rest) = next_line(rows);
            rows = rest;
            add_row(transcript, &mut lines, row);
        }
    }
    transcript.fail_unless(rows.is_empty());
    lines
}

/// The start line of a request of this method.
pub fn request(transcript: &mut Transcript, method: &[u8]) -> Start {
    let method = transcript.copy(method);
    let uri = transcript.copy(b"sip:b@h");
    Start::Request { method, uri }
}

/// A message of the header fields of a table.
pub fn of_lines(transcript: &mut Transcript, start: Start, table: &[u8]) -> Msg {
    let lines = lines_of(transcript, table);
    Msg::of(start, lines, Text::new())
}

/// Writes header fields, one a line, and a line `#`.
pub fn write_lines_to(transcript: &mut Transcript, lines: &[Line]) {
    for line in lines {
        transcript.add(line.0.bytes());
        transcript.add(b": ");
        transcript.add_line(line.1.bytes());
    }
    transcript.add(b"#\n");
}
