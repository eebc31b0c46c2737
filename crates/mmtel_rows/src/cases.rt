//! Tables of runs, a text each: a script and its expected listing, and then the next script.
//!
//! A line that begins with `~` is a heading for what follows it, up to the next such line. Lines that begin with `|` may follow one another on one line, and `\` at the end of a
//! line joins it with the next. A script may begin with
//! settings, as `settings` says; `=status:` is the expected status in place of 0, and with `=cut` the listing ends without its last line end. For a script that begins with
//! `=server` no program is run but a server, as `serving` says. Where the tests are proved a further run costs its bytes alone.

use crate::pages::{Page, add_lines, are_equal};
use crate::runs::write_report;
use crate::script_settings::setting;
use crate::server_tables::write_served;
use mmtel_base::split_once_at;
use mmtel_test_tables::split_or_all;
use std::alloc::Global;

/// What follows a line that begins with `~`, up to the next such line, and what follows that one's `~`; None where there is no line.
pub fn piece(text: &[u8]) -> Option<(&[u8], &[u8])> {
    let (_, text) = split_once_at(b'\n', text)?;
    Some(split_or_all(b'~', text))
}

/// Two pieces, and what follows them.
pub fn two(text: &[u8]) -> Option<(&[u8], &[u8], &[u8])> {
    let (first, text) = piece(text)?;
    let (second, text) = piece(text)?;
    Some((first, second, text))
}

/// Writes the result of a script.
fn write_script(page: &mut Page, script: &[u8]) {
    if setting(script, b"server").is_some() {
        write_served(page, script);
    } else {
        write_report(page, script, true);
    }
}

/// Whether the run of a script returns the expected status and writes this.
pub fn writes(alloc: Global, script: &[u8], listing: &[u8]) -> bool {
    let mut due = Page::new(alloc);
    due.add(setting(script, b"status:").unwrap_or(b"0"));
    due.add(b"\n");
    due.add(listing);
    let mut page = Page::new(alloc);
    write_script(&mut page, script);
    let alike = are_equal(&page, &due);
    drop(page);
    drop(due);
    alike
}

/// The same of a listing whose last line end is left out where the script says so.
fn writes_lines(alloc: Global, script: &[u8], due: &[u8]) -> bool {
    if setting(script, b"cut").is_some() {
        writes(alloc, script, due.strip_suffix(b"\n").unwrap_or(due))
    } else {
        writes(alloc, script, due)
    }
}

/// The same of a listing of a table.
pub fn is_right(alloc: Global, script: &[u8], listing: &[u8]) -> bool {
    let mut lines = Page::new(alloc);
    add_lines(&mut lines, listing);
    let right = writes_lines(alloc, script, lines.bytes());
    drop(lines);
    right
}

/// The number of the first run of the table that returns or writes something else than expected, from 1; 0 where there is none, of a hundred at most.
pub fn wrong_run(alloc: Global, table: &[u8]) -> usize {
    let mut rest = table;
    for number in 0..100 {
        if rest.is_empty() {
            return 0;
        }
        match two(rest) {
            Some((script, listing, later)) if is_right(alloc, script, listing) => rest = later,
            _ => return number + 1,
        }
    }
    100
}
