//! Tables that are written again: each input is evaluated, its result is written next to it, and what is written is compared with the table. A line that begins with `#` is a
//! heading.

use mmtel_lex::{Uri, print_uri};
use mmtel_test_tables::{Transcript, next_line, split_or_all};
use mmtel_types::Cause;
use std::alloc::Global;

/// Writes a word, a space and a number.
pub fn put_code(transcript: &mut Transcript, word: &[u8], code: u16) {
    transcript.add(word);
    transcript.add(b" ");
    transcript.add_number(u64::from(code));
}

pub fn put_uri(transcript: &mut Transcript, uri: &Uri) {
    match print_uri(transcript.alloc, uri) {
        Ok(text) => transcript.add(text.bytes()),
        Err(_) => transcript.fail(),
    }
}

/// Writes a cause as `WORD STATUS`.
pub fn put_cause(transcript: &mut Transcript, cause: &Cause) {
    put_code(transcript, cause.word().as_bytes(), cause.status());
}

/// The function that a table tests.
pub trait RowWriter {
    /// Writes the result for the input.
    fn write_row(transcript: &mut Transcript, question: &[u8]);
}

/// Writes a line with the result before the input.
fn write_row<T: RowWriter>(transcript: &mut Transcript, row: &[u8]) {
    let (_answer, question) = split_or_all(b'|', row);
    T::write_row(transcript, question);
    transcript.add(b"|");
    transcript.add_line(question);
}

/// The number of the first line, from 1, that differs from the actual one, of a table in which a line is a result, `|` and its input; 0 where none does.
pub fn wrong_row<T: RowWriter>(alloc: Global, table: &[u8]) -> usize {
    let mut transcript = Transcript::new(alloc);
    let mut rest = table;
    for _ in 0..200 {
        let (row, later) = next_line(rest);
        rest = later;
        match row {
            [] => {}
            [b'#', ..] => transcript.add_line(row),
            _ => write_row::<T>(&mut transcript, row),
        }
    }
    transcript.wrong_line(table)
}

/// The same of a table in which a line is an input, `>` and its result.
pub fn wrong_line<T: RowWriter>(alloc: Global, table: &[u8]) -> usize {
    let mut transcript = Transcript::new(alloc);
    let mut rest = table;
    for _ in 0..200 {
        let (row, later) = next_line(rest);
        rest = later;
        if !row.is_empty() {
            let (question, _answer) = split_or_all(b'>', row);
            transcript.add(question);
            transcript.add(b">");
            T::write_row(&mut transcript, question);
            transcript.add(b"\n");
        }
    }
    transcript.wrong_line(table)
}
