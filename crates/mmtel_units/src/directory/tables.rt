//! Tables of texts that break a grammar: one text each, a row a line.

use mmtel_test_tables::{Transcript, next_line, split_or_all};
use std::alloc::Global;

/// The test of a table.
pub trait Grammar {
    /// The number of the line in which a text breaks the grammar; 0 where it is read.
    fn broken(&self, alloc: Global, text: &[u8]) -> u64;
}

/// Writes a row with its result: the number of the line that breaks the grammar, `|`, and the lines, each ended by `;`, which are preceded by others.
fn write_row<G: Grammar>(transcript: &mut Transcript, grammar: &G, before: &[u8], row: &[u8]) {
    let (_number, lines) = split_or_all(b'|', row);
    let mut text = Transcript::new(transcript.alloc);
    text.add(before);
    text.add_ended(b';', lines, b"\n");
    transcript.fail_unless(!text.has_failed());
    transcript.add_number(grammar.broken(transcript.alloc, text.bytes()));
    transcript.add(b"|");
    transcript.add_line(lines);
}

/// The number of the first row that is wrong, from 1; 0 where none is.
pub fn wrong_row<G: Grammar>(alloc: Global, grammar: &G, before: &[u8], table: &[u8]) -> usize {
    let mut transcript = Transcript::new(alloc);
    let mut rest = table;
    for _ in 0..100 {
        if !rest.is_empty() {
            let (row, later) = next_line(rest);
            rest = later;
            write_row(&mut transcript, grammar, before, row);
        }
    }
    transcript.wrong_line(table)
}
