//! Calls of a keeper that a table makes, and its contents.

use mmtel_charging::{Kind, Row};
use mmtel_keeper::{KeepFault, Keeper};
use mmtel_test_tables::Transcript;
use mmtel_types::{Account, CallNo, Cause, Moment};

/// A record of 38 bytes.
const SHEET: &[u8] = b"[communication-waiting]\nactive = true\n";

/// A row that is written as one digit, which is how many times its call was held.
fn row(digit: u8) -> Option<Row> {
    let began = Moment::new(1_700_000_000_000)?;
    Some(Row {
        kind: Kind::Terminating,
        account: Account(2),
        call: CallNo(1),
        began,
        answered: Some(began),
        ended: began,
        holds: u32::from(digit),
        cause: Cause::TooManyDiversions { busy: true },
    })
}

/// Writes the result of a call.
pub fn add_result(transcript: &mut Transcript, done: Result<(), KeepFault>) {
    match done {
        Ok(()) => transcript.add(b"ok"),
        Err(KeepFault::Failed) => transcript.add(b"failed"),
        Err(KeepFault::NoMemory) => transcript.fail(),
    }
}

/// Stores the record for the account of a digit, and writes the result.
pub fn add_record<K: Keeper>(transcript: &mut Transcript, keeper: &mut K, digit: u8) {
    let account = Account(u32::from(digit.saturating_sub(b'0')));
    let done = keeper.store(transcript.alloc, account, SHEET);
    add_result(transcript, done);
}

/// Adds the rows of two digits, and writes the result.
pub fn add_rows<K: Keeper>(transcript: &mut Transcript, keeper: &mut K, digits: &[u8]) {
    let [one, other] = digits else {
        return transcript.fail();
    };
    let (Some(one), Some(other)) = (
        row(one.saturating_sub(b'0')),
        row(other.saturating_sub(b'0')),
    ) else {
        return transcript.fail();
    };
    let done = keeper.add_rows(transcript.alloc, &[one, other]);
    add_result(transcript, done);
}

/// Writes the accounts of the sheets, and the digits of the rows.
pub fn add_contents<K: Keeper>(transcript: &mut Transcript, keeper: &mut K) {
    let loaded = keeper.load(transcript.alloc);
    if let Some(sheets) = transcript.value_or_fail(loaded) {
        for sheet in sheets.items() {
            transcript.add_number(u64::from(sheet.0.0));
            transcript.add(b":");
            transcript.add_number(sheet.1.bytes().len() as u64);
            transcript.add(b".");
        }
        drop(sheets);
    }
    let listed = keeper.rows(transcript.alloc);
    if let Some(rows) = transcript.value_or_fail(listed) {
        for row in rows.items() {
            transcript.add_number(u64::from(row.holds));
        }
        drop(rows);
    }
}
