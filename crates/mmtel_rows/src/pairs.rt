//! Pairs of runs that differ in who requests privacy, and what is sent to the untrusted peer in both, moments included (RFC 3323 §4, RFC 3325 §7).
//!
//! A script stands for two: where it has `{this^that}`, one of them has the first part and the other the second.

use crate::cases::piece;
use crate::pages::{Page, are_apart, are_equal};
use crate::runs::write_report;
use mmtel_base::split_once_at;
use std::alloc::Global;

/// Writes the part of a listing for the second peer.
fn show(view: &mut Page, listing: &[u8]) {
    let mut rest = listing;
    let mut is_shown = false;
    for _ in 0..1_000 {
        match split_once_at(b'\n', rest) {
            None => break,
            Some((line, later)) => {
                if line.starts_with(b"at ") {
                    is_shown = line.ends_with(b" to 2");
                }
                if is_shown {
                    view.add(line);
                    view.add(b"\n");
                }
                rest = later;
            }
        }
    }
}

/// The same of what a run with status 0 wrote.
fn show_listing(view: &mut Page, written: &[u8]) {
    match written.strip_prefix(b"0\n") {
        Some(listing) => show(view, listing),
        None => view.fail(),
    }
}

/// What is sent to the second peer in one of the two runs, whose status is to be 0.
fn seen(alloc: Global, script: &[u8], first: bool) -> Page {
    let mut page = Page::new(alloc);
    write_report(&mut page, script, first);
    let mut view = Page::new(alloc);
    view.fail_unless(!page.has_failed());
    show_listing(&mut view, page.bytes());
    drop(page);
    view
}

/// Whether the pair is as expected: the second peer is sent the same in both, or not.
fn is_due(alloc: Global, script: &[u8], due: bool) -> bool {
    let one = seen(alloc, script, true);
    let other = seen(alloc, script, false);
    let right = if due {
        are_equal(&one, &other)
    } else {
        are_apart(&one, &other)
    };
    drop(one);
    drop(other);
    right
}

/// The number of the first pair of a table that is not as expected, from 1; 0 where there is none, of a hundred at most.
pub fn wrong_pair(alloc: Global, table: &[u8], due: bool) -> usize {
    let mut rest = table;
    for number in 0..100 {
        if rest.is_empty() {
            return 0;
        }
        match piece(rest) {
            Some((script, later)) if is_due(alloc, script, due) => rest = later,
            _ => return number + 1,
        }
    }
    100
}
