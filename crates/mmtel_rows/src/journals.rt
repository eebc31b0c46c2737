//! Runs of other tables over a keeper over a journal: they have the same results, where those calls of the disk fail that make the same calls of the keeper fail.

use crate::asserting::assert_right;
use crate::cases::{is_right, two};
use crate::faults::failing_runs;
use crate::pages::{Page, is_well};
use crate::uploads::upload_runs;
use mmtel_base::split_once_at;
use std::alloc::Global;

/// Whether a run of this script over a journal, on a disk of which these calls fail, lists what is expected.
fn is_right_over(alloc: Global, failing: &[u8], script: &[u8], listing: &[u8]) -> bool {
    let mut case = Page::new(alloc);
    case.add(b"=journal\n=disk:");
    case.add(failing);
    case.add(b"\n");
    case.add(script);
    let right = is_right(alloc, case.bytes(), listing);
    is_well(case) && right
}

/// The number of the first run of the table with another listing than expected, from 1; 0 where there is none of those that have a line of numbers, a hundred at most.
fn wrong_over_journals(alloc: Global, table: &[u8], numbers: &[u8]) -> usize {
    let mut rest = table;
    let mut lines = numbers;
    for number in 0..100 {
        let Some((failing, more)) = split_once_at(b'\n', lines) else {
            return 0;
        };
        match two(rest) {
            Some((script, listing, later)) if is_right_over(alloc, failing, script, listing) => {
                rest = later;
                lines = more;
            }
            _ => return number + 1,
        }
    }
    100
}

/// The calls of the disk that fail in the first runs of the table of uploads. Five calls create and open the journal, and a store has four: a write, a sync, the gate, a sync. In
/// the second run the first store fails at its write, the third too, and the fourth at its gate: so the operator's request, which closes that first, fails as well.
const UPLOADS: &[u8] = b"
6 11 14 15

";

/// The same of the table of rows that wait. In the first run the gate of the first add fails, and the next request closes it; in the second the sync before it; in the third each
/// write.
const FAILING: &[u8] = b"8
7
6 7 8 9
";

#[test]
fn uploads_over_journals(rt: HostRuntime) {
    let wrong = wrong_over_journals(rt.alloc(), upload_runs(), UPLOADS);
    assert_right(&rt, "UPLOADS over journals", wrong);
}

#[test]
fn failing_rows_over_journals(rt: HostRuntime) {
    let wrong = wrong_over_journals(rt.alloc(), failing_runs(), FAILING);
    assert_right(&rt, "FAILING over journals", wrong);
}
