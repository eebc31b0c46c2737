//! The sheets that are in force, and the registrations.

use crate::asserting::assert_right;
use crate::reading::read_tables;
use mmtel_base::number_up_to;
use mmtel_sheet_reader::stored_sheet;
use mmtel_sheet_values::{SharedSheet, Sheet, SheetView};
use mmtel_test_tables::{RowRunner, Transcript, split_or_all, wrong_line};
use mmtel_types::{Account, Moment};
use std::alloc::Global;

/// A view, and one of its sheets that is kept.
#[derive(Drop)]
struct Views {
    view: SheetView,
    kept: Option<SharedSheet>,
}

/// The account of this number.
fn account(digits: &[u8]) -> Account {
    let number = number_up_to(u64::from(u32::MAX), digits).unwrap_or(0);
    Account(u32::try_from(number).unwrap_or(0))
}

/// The moment of this many milliseconds; none of what is no number.
fn moment(digits: &[u8]) -> Option<Moment> {
    Moment::new(number_up_to(u64::MAX, digits)?)
}

/// A sheet with a capacity of so many calls.
fn waiting(calls: u8) -> Sheet {
    let mut sheet = Sheet::empty();
    sheet.waiting = Some(calls);
    sheet
}

/// Writes a number, or `-` for none.
fn write_number(transcript: &mut Transcript, number: Option<u64>) {
    match number {
        None => transcript.add(b"-\n"),
        Some(number) => {
            transcript.add_number(number);
            transcript.add(b"\n");
        }
    }
}

/// Writes the capacity in the sheet.
fn write_calls(transcript: &mut Transcript, sheet: &Sheet) {
    match sheet.waiting {
        None => write_number(transcript, None),
        Some(calls) => write_number(transcript, Some(u64::from(calls))),
    }
}

/// Writes the capacity in the sheet; `none` where there is no sheet.
fn write_sheet(transcript: &mut Transcript, sheet: Option<&Sheet>) {
    match sheet {
        None => transcript.add(b"none\n"),
        Some(sheet) => write_calls(transcript, sheet),
    }
}

fn write_shared(transcript: &mut Transcript, shared: &Option<SharedSheet>) {
    match shared {
        None => write_sheet(transcript, None),
        Some(shared) => write_calls(transcript, shared.sheet()),
    }
}

/// Writes the no-reply time of a record, in which `|` ends a line.
fn write_time(transcript: &mut Transcript, record: &[u8]) {
    if let Some(sheet) = read_tables(transcript, b'|', record) {
        write_number(transcript, sheet.no_reply_time());
        drop(sheet);
    }
}

/// Writes the capacity in a text that was stored.
fn write_text(transcript: &mut Transcript, text: &[u8]) {
    match stored_sheet(transcript.alloc, text) {
        Ok(sheet) => {
            write_calls(transcript, &sheet);
            drop(sheet);
        }
        Err(_) => transcript.fail(),
    }
}

impl Views {
    fn reserve(&mut self, transcript: &mut Transcript, account: Account) {
        let done = self.view.reserve(account);
        transcript.fail_unless(done.is_ok());
    }

    /// Puts the sheet of a record.
    fn put(&mut self, transcript: &mut Transcript, account: Account, record: &[u8]) {
        if let Some(sheet) = read_tables(transcript, b'|', record) {
            let done = self.view.put(account, sheet);
            transcript.fail_unless(done.is_ok());
        }
    }

    /// Puts a sheet in place of the account's previous one without allocation, and writes the previous one.
    fn replace_by(&mut self, transcript: &mut Transcript, account: Account, sheet: SharedSheet) {
        match self.view.reserve(account) {
            Ok(()) => write_shared(transcript, &self.view.replace(account, sheet)),
            Err(_) => transcript.fail(),
        }
    }

    /// The same of a sheet with a capacity of so many calls.
    fn replace(&mut self, transcript: &mut Transcript, account: Account, digits: &[u8]) {
        let calls = number_up_to(9, digits).unwrap_or(0);
        let sheet = waiting(u8::try_from(calls).unwrap_or(0));
        match SharedSheet::new(transcript.alloc, sheet) {
            Ok(sheet) => self.replace_by(transcript, account, sheet),
            Err(_) => transcript.fail(),
        }
    }

    /// Keeps the account's sheet, and writes it.
    fn keep(&mut self, transcript: &mut Transcript, account: Account) {
        match self.view.shared_sheet(account) {
            Ok(shared) => self.kept = shared,
            Err(_) => transcript.fail(),
        }
        write_shared(transcript, &self.kept);
    }

    /// Sets the end of a registration, or that it has none.
    fn end(&mut self, transcript: &mut Transcript, account: Account, digits: &[u8]) {
        let done = self.view.set_registered(account, moment(digits));
        transcript.fail_unless(done.is_ok());
    }

    /// Writes whether the account is registered at this moment.
    fn write_registered(&self, transcript: &mut Transcript, account: Account, digits: &[u8]) {
        match moment(digits) {
            Some(now) => transcript.add_if(self.view.registered(account, now), b"yes\n", b"no\n"),
            None => transcript.fail(),
        }
    }

    /// The states of the sheets.
    fn write_sheets(
        &mut self,
        transcript: &mut Transcript,
        word: &[u8],
        account: Account,
        rest: &[u8],
    ) {
        match word {
            b"reserve" => self.reserve(transcript, account),
            b"put" => self.put(transcript, account, rest),
            b"replace" => self.replace(transcript, account, rest),
            b"keep" => self.keep(transcript, account),
            b"kept" => write_shared(transcript, &self.kept),
            _ => write_sheet(transcript, self.view.sheet(account)),
        }
    }
}

impl RowRunner for Views {
    fn run_row(&mut self, transcript: &mut Transcript, asked: &[u8]) {
        let (word, rest) = split_or_all(b' ', asked);
        let (number, more) = split_or_all(b' ', rest);
        match word {
            b"end" => self.end(transcript, account(number), more),
            b"registered" => self.write_registered(transcript, account(number), more),
            b"time" => write_time(transcript, rest),
            b"text" => write_text(transcript, rest),
            _ => self.write_sheets(transcript, word, account(number), more),
        }
    }
}

/// What was put is there, in place of what was there before; the sheets of other accounts are unchanged. A sheet is written by its capacity.
const KEPT: &[u8] = b"> put 1 communication-waiting.calls = 4
> put 4294967295 communication-waiting.calls = 5
> put 1 communication-waiting.calls = 6
> put 0 
> sheet 0
-
> sheet 1
6
> sheet 2
none
> sheet 4294967295
5
";

/// Reserved space is no sheet and removes none; a sheet that is kept is unchanged when another replaces it.
const REPLACED: &[u8] = b"> reserve 1
> sheet 1
none
> put 1 communication-waiting.calls = 4
> reserve 1
> sheet 1
4
> keep 1
4
> replace 1 5
4
> sheet 1
5
> kept
4
> replace 2 6
none
> sheet 2
6
> sheet 1
5
> keep 3
none
";

/// There is a no-reply time where the diversion is active and has a rule for calls that are not answered. A `|` ends a line of a record.
const TIMES: &[u8] = b"> time 
-
> time [communication-diversion]
-
> time [communication-diversion]|no-reply-time = 30|rule = [{busy = true, target = \"sip:a@b\"}, {target = \"sip:a@b\"}]
-
> time [communication-diversion]|no-reply-time = 30|rule = [{no-answer = false, target = \"sip:a@b\"}]
-
> time [communication-diversion]|active = false|no-reply-time = 30|rule = [{no-answer = true, target = \"sip:a@b\"}]
-
> time [communication-diversion]|rule = [{no-answer = true, target = \"sip:a@b\"}]
20000
> time [communication-diversion]|no-reply-time = 180|rule = [{busy = true, target = \"sip:a@b\"}, {no-answer = true, anonymous = true, target = \"sip:a@b\"}]
180000
";

/// A text that was stored and is no record counts as the empty one.
const TEXTS: &[u8] = b"> text 
-
> text communication-waiting.calls = 4
4
> text communication-waiting.calls = 9
-
> text communication-waitin = 1
-
> text communication-waiting.calls = 4 # \xe4
-
";

/// A registration ends at its moment, and one without an end does not; a sheet does not change it.
const ENDS: &[u8] = b"> end 1 10
> end 2 20
> end 2 30
> end 3 0
> end 4 0
> end 4 never
> put 1 
> registered 0 250000000000000
yes
> registered 1 9
yes
> registered 1 10
no
> registered 1 11
no
> registered 2 20
yes
> registered 2 29
yes
> registered 2 30
no
> registered 3 0
no
> registered 4 0
yes
> registered 4 250000000000000
yes
";

/// The number of the first line of a table that differs from the actual one; 0 where none does.
fn wrong(alloc: Global, table: &[u8]) -> usize {
    let mut views = Views {
        view: SheetView::new(alloc),
        kept: None,
    };
    wrong_line(alloc, &mut views, table)
}

#[test]
fn sheets_and_registrations(rt: HostRuntime) {
    assert_right(&rt, "KEPT", wrong(rt.alloc(), KEPT));
    assert_right(&rt, "REPLACED", wrong(rt.alloc(), REPLACED));
    assert_right(&rt, "TIMES", wrong(rt.alloc(), TIMES));
    assert_right(&rt, "TEXTS", wrong(rt.alloc(), TEXTS));
    assert_right(&rt, "ENDS", wrong(rt.alloc(), ENDS));
}
