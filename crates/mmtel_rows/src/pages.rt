//! Texts while they are built: short lines, scripts, and whether two of them are equal.

use mmtel_base::{plain_number, skip_text, split_once_at};
use mmtel_test_tables::split_or_all;
pub use mmtel_test_tables::{Transcript as Page, next_line};

/// Adds short lines: `;` ends one by LF, and `^;` by CR LF.
pub fn add_short(page: &mut Page, lines: &[u8]) {
    let mut text = Page::new(page.alloc);
    text.add_ended(b'^', lines, b"\r");
    page.fail_unless(!text.has_failed());
    page.add_ended(b';', text.bytes(), b"\n");
    drop(text);
}

/// Ends the line, if it is not ended.
fn end_line(page: &mut Page) {
    let bytes = page.bytes();
    if !bytes.is_empty() && !bytes.ends_with(b"\n") {
        page.add(b"\n");
    }
}

/// Adds bytes, without the line ends that a backslash precedes.
fn add_joined(page: &mut Page, bytes: &[u8]) {
    let mut rest = bytes;
    for _ in 0..100 {
        match split_once_at(b'\\', rest) {
            None => break,
            Some((before, later)) => {
                page.add(before);
                let next = skip_text(b"\n", later);
                if next.is_none() {
                    page.add(b"\\");
                }
                rest = next.unwrap_or(later);
            }
        }
    }
    page.add(rest);
}

/// Adds lines; each `|` begins one, at any position, and a backslash at the end of a line joins it with the next.
pub fn add_lines(page: &mut Page, lines: &[u8]) {
    let mut rest = lines;
    for _ in 0..10_000 {
        match split_once_at(b'|', rest) {
            None => break,
            Some((line, later)) => {
                add_joined(page, line);
                end_line(page);
                page.add(b"|");
                rest = later;
            }
        }
    }
    add_joined(page, rest);
}

/// Adds lines so many times.
fn repeat(page: &mut Page, digits: &[u8], lines: &[u8]) {
    for _ in 0..plain_number(65_536, digits).unwrap_or(0) {
        add_lines(page, lines);
    }
}

/// Adds the meaning of `THIS^THAT`, of which the one or the other is chosen, or of `NUMBER*LINES`, which are added so many times.
fn choose(page: &mut Page, both: &[u8], first: bool) {
    match split_once_at(b'^', both) {
        Some((this, that)) => add_lines(page, if first { this } else { that }),
        None => {
            let (digits, lines) = split_once_at(b'*', both).unwrap_or((b"1", both));
            repeat(page, digits, lines);
        }
    }
}

/// Adds a script, which may have `{THIS^THAT}` and `{NUMBER*LINES}`.
pub fn add_script(page: &mut Page, script: &[u8], first: bool) {
    let mut rest = script;
    for _ in 0..100 {
        match split_once_at(b'{', rest) {
            None => break,
            Some((plain, later)) => {
                let (both, later) = split_or_all(b'}', later);
                add_lines(page, plain);
                choose(page, both, first);
                rest = later;
            }
        }
    }
    add_lines(page, rest);
}

/// Whether they have different texts, and neither failed.
pub fn are_apart(page: &Page, other: &Page) -> bool {
    !page.has_failed() && !other.has_failed() && page.bytes() != other.bytes()
}

/// The number of the first line, from 1, in which a table differs from what was written; 0 where there is none, and nothing failed.
pub fn wrong_line(page: Page, table: &[u8]) -> usize {
    let wrong = page.wrong_line(table);
    drop(page);
    wrong
}

/// Whether a text that is no longer used did not fail.
pub fn is_well(page: Page) -> bool {
    let failed = page.has_failed();
    drop(page);
    !failed
}

/// Whether they have the same text, which is not empty, and neither failed.
pub fn are_equal(page: &Page, other: &Page) -> bool {
    !page.has_failed()
        && !other.has_failed()
        && !page.bytes().is_empty()
        && page.bytes() == other.bytes()
}
