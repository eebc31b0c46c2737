//! Of the requests with a response pending, the one to which a response belongs, or which timed out.

use crate::asserting::assert_right;
use crate::environments::word;
use crate::messages::success;
use mmtel_base::split_once_at;
use mmtel_output::{awaited_request_branch, timed_out_branch};
use mmtel_test_tables::{Transcript, split_or_all};
use std::alloc::Global;

/// A method and a branch; the branch without its cookie of the request to which a response with them belongs, and of the request where it timed out, where its response is pending:
/// an INVITE, a PRACK or an UPDATE (RFC 3261 §8.1.1.7, §17.1.3).
/// Methods and the cookie are compared byte for byte.
const BRANCHES: &[u8] = b"INVITE z9hG4bKx-1: x-1 x-1
INVITE z9hG4bKz9hG4bK: z9hG4bK z9hG4bK
INVITE x-1: none none
INVITE Z9HG4BKx-1: none none
PRACK z9hG4bKx-1: x-1 x-1
UPDATE z9hG4bKx-1: x-1 x-1
UPDATE x-1: none none
Update z9hG4bKx-1: none none
SUBSCRIBE z9hG4bKx-1: none none
NOTIFY z9hG4bKx-1: none none
BYE z9hG4bKx-1: none none
CANCEL z9hG4bKx-1: none none
invite z9hG4bKx-1: none none
";

fn write_answered(transcript: &mut Transcript, method: &[u8], branch: &[u8]) {
    let response = success(transcript, method, branch);
    let answered = awaited_request_branch(transcript.alloc, &response);
    drop(response);
    match transcript.value_or_fail(answered) {
        Some(Some(branch)) => {
            transcript.add(branch.bytes());
            drop(branch);
        }
        Some(None) => transcript.add(b"none"),
        None => transcript.add(b"failed"),
    }
}

/// Writes a row with its result.
fn write_row(transcript: &mut Transcript, row: &[u8]) {
    let (asked, _) = split_or_all(b':', row);
    let (method, branch) = word(asked);
    transcript.add(asked);
    transcript.add(b": ");
    write_answered(transcript, method, branch);
    transcript.add(b" ");
    transcript.add_line(timed_out_branch(branch, method).unwrap_or(b"none"));
}

fn write_rows(transcript: &mut Transcript, table: &[u8]) {
    let mut rest = table;
    for _ in 0..100 {
        match split_once_at(b'\n', rest) {
            None => break,
            Some((row, later)) => {
                write_row(transcript, row);
                rest = later;
            }
        }
    }
}

fn wrong_branch(alloc: Global, table: &[u8]) -> usize {
    let mut transcript = Transcript::new(alloc);
    write_rows(&mut transcript, table);
    let wrong = transcript.wrong_line(table);
    drop(transcript);
    wrong
}

#[test]
fn branches(rt: HostRuntime) {
    assert_right(&rt, "BRANCHES", wrong_branch(rt.alloc(), BRANCHES));
}
