//! Tables that are written again with the actual results.

use crate::transcripts::Transcript;
use mmtel_base::split_once_at;
use std::alloc::Global;

/// The first line, and what follows it.
pub fn next_line(text: &[u8]) -> (&[u8], &[u8]) {
    split_once_at(b'\n', text).unwrap_or((text, b""))
}

/// What precedes the byte, and what follows it: all, and nothing, where the byte is absent.
pub fn split_or_all(byte: u8, text: &[u8]) -> (&[u8], &[u8]) {
    split_once_at(byte, text).unwrap_or((text, b""))
}

/// The test of a table.
pub trait RowRunner {
    /// Writes the lines of the actual result of a row, of which `asked` follows the `> `.
    fn run_row(&mut self, transcript: &mut Transcript, input: &[u8]);
}

/// The number of the first line of the table, from 1, that differs from the actual one; 0 where none does.
pub fn wrong_line<R: RowRunner>(alloc: Global, rows: &mut R, table: &[u8]) -> usize {
    let mut transcript = Transcript::new(alloc);
    let mut rest = table;
    for _ in 0..2_000 {
        let (line, later) = next_line(rest);
        rest = later;
        if let Some(asked) = line.strip_prefix(b"> ") {
            transcript.add_line(line);
            rows.run_row(&mut transcript, asked);
        }
    }
    transcript.wrong_line(table)
}
