//! The keeper in memory, and the texts of records.

use crate::asserting::assert_right;
use crate::web::pages::{numbers, unless_failed};
use mmtel_base::Text;
use mmtel_charging::{Kind, Row};
use mmtel_keeper::{KeepFault, Keeper, MemoryKeeper};
use mmtel_sheet_texts::SheetTexts;
use mmtel_test_tables::{RowRunner, Transcript, wrong_line};
use mmtel_types::{Account, CallNo, Cause, Moment};
use std::alloc::Global;

/// The moment of a digit.
fn moment_of(digit: u8) -> Moment {
    match Moment::new(u64::from(digit)) {
        Some(moment) => moment,
        None => unreachable!(),
    }
}

/// A row that is written as one digit.
fn row(digit: u8) -> Row {
    let at = moment_of(digit);
    Row {
        kind: Kind::Diversion,
        account: Account(4_294_967_295),
        call: CallNo(18_446_744_073_709_551_615),
        began: at,
        answered: None,
        ended: at,
        holds: u32::from(digit),
        cause: Cause::TooManyDiversions { busy: true },
    }
}

/// The digit of a row; `?` where it is another row.
fn digit_of(row_found: &Row) -> u8 {
    for digit in b'0'..=b'9' {
        if row(digit) == *row_found {
            return digit;
        }
    }
    b'?'
}

/// The letter of an account; `?` where it has none.
fn letter_of(account: Account) -> u8 {
    u8::try_from(account.0).unwrap_or(b'?')
}

fn add_fault(transcript: &mut Transcript, fault: KeepFault) {
    match fault {
        KeepFault::Failed => transcript.add(b"failed"),
        KeepFault::NoMemory => transcript.add(b"memory"),
    }
}

fn add_done(transcript: &mut Transcript, done: Result<(), KeepFault>) {
    match done {
        Ok(()) => transcript.add(b"ok"),
        Err(fault) => add_fault(transcript, fault),
    }
}

fn add_sheets(transcript: &mut Transcript, sheets: &[(Account, Text)]) {
    for sheet in sheets {
        transcript.add(&[letter_of(sheet.0)]);
        transcript.add(sheet.1.bytes());
        transcript.add(b".");
    }
}

fn add_loaded(transcript: &mut Transcript, keeper: &mut MemoryKeeper) {
    match keeper.load(transcript.alloc) {
        Ok(sheets) => {
            add_sheets(transcript, sheets.items());
            drop(sheets);
        }
        Err(fault) => add_fault(transcript, fault),
    }
}

fn add_migrated(transcript: &mut Transcript, keeper: &mut MemoryKeeper) {
    match keeper.migrate(transcript.alloc) {
        Ok(count) => transcript.add_number(count),
        Err(fault) => add_fault(transcript, fault),
    }
}

fn add_digits(transcript: &mut Transcript, rows: &[Row]) {
    for row in rows {
        transcript.add(&[digit_of(row)]);
    }
}

fn add_listed(transcript: &mut Transcript, keeper: &mut MemoryKeeper) {
    match keeper.rows(transcript.alloc) {
        Ok(rows) => {
            add_digits(transcript, rows.items());
            drop(rows);
        }
        Err(fault) => add_fault(transcript, fault),
    }
}

/// Adds the rows of these digits.
fn add_rows(keeper: &mut MemoryKeeper, alloc: Global, digits: &[u8]) -> Result<(), KeepFault> {
    match digits {
        [] => keeper.add_rows(alloc, &[]),
        [one] => keeper.add_rows(alloc, &[row(*one)]),
        [one, other, ..] => keeper.add_rows(alloc, &[row(*one), row(*other)]),
    }
}

/// A keeper whose calls a table makes.
#[derive(Drop)]
struct KeeperRows {
    keeper: MemoryKeeper,
}

impl RowRunner for KeeperRows {
    fn run_row(&mut self, transcript: &mut Transcript, asked: &[u8]) {
        match asked {
            [b'b', path @ ..] => {
                let done = self.keeper.bind(transcript.alloc, path);
                add_done(transcript, done);
            }
            [b's', account, text @ ..] => {
                let account = Account(u32::from(*account));
                let done = self.keeper.store(transcript.alloc, account, text);
                add_done(transcript, done);
            }
            [b'a', digits @ ..] => {
                let done = add_rows(&mut self.keeper, transcript.alloc, digits);
                add_done(transcript, done);
            }
            [b'l', ..] => add_loaded(transcript, &mut self.keeper),
            [b'm', ..] => add_migrated(transcript, &mut self.keeper),
            _ => add_listed(transcript, &mut self.keeper),
        }
        transcript.add(b"\n");
    }
}

/// The calls of one keeper, of which the third, the eighth and the eleventh fail: `b` binds a path, `s` stores a text for the account of a letter, `l` loads, `a` adds
/// rows, `r` lists them.
const KEEPING: &[u8] = b"> b:memory:
ok
> sxa
ok
> sxb
failed
> l
xa.
> syc
ok
> sxd
ok
> l
xd.yc.
> a56
failed
> r

> a56
ok
> a7
failed
> a8
ok
> r
568
> a
ok
> b/other
ok
> l
xd.yc.
> r
568
";

/// `m` migrates. The third call fails. The first text is a record of the first version, the second is no record; the third is first of the second version, and then empty.
const MIGRATING: &[u8] = b"> sx[communication-waiting]
ok
> sya = 1
ok
> m
failed
> l
x[communication-waiting].ya = 1.
> m
1
> l
xversion = 2

[communication-waiting]
active = true
calls = 2

[originating-identity-presentation]
active = true

[originating-identity-presentation-restriction]
active = false
default-behaviour = \"presentation-not-restricted\"
mode = \"temporary\"

[terminating-identity-presentation]
active = true

[terminating-identity-presentation-restriction]
active = false
default-behaviour = \"presentation-not-restricted\"
mode = \"temporary\"
.ya = 1.
> szversion = 2
ok
> m
0
> sz
ok
> m
1
";

/// A table of texts.
#[derive(Drop)]
struct Texts {
    texts: SheetTexts,
}

impl Texts {
    /// Puts a text in place of the account's previous one, with space that was reserved before.
    fn replace(&mut self, transcript: &mut Transcript, account: Account, text: &[u8]) {
        let text = transcript.copy(text);
        match self.texts.reserve(transcript.alloc) {
            Ok(()) => self.texts.replace(account, text),
            Err(_) => {
                drop(text);
                transcript.fail();
            }
        }
    }

    fn put(&mut self, transcript: &mut Transcript, account: Account, text: &[u8]) {
        let text = transcript.copy(text);
        let done = self.texts.put(transcript.alloc, account, text);
        transcript.fail_unless(done.is_ok());
    }
}

impl RowRunner for Texts {
    fn run_row(&mut self, transcript: &mut Transcript, asked: &[u8]) {
        match asked {
            [b'p', account, text @ ..] => self.put(transcript, Account(u32::from(*account)), text),
            [b'r', account, text @ ..] => {
                self.replace(transcript, Account(u32::from(*account)), text);
            }
            [b't', account, ..] => match self.texts.text(Account(u32::from(*account))) {
                Some(text) => transcript.add(text.bytes()),
                None => transcript.add(b"none"),
            },
            _ => add_sheets(transcript, self.texts.items()),
        }
        transcript.add(b"\n");
    }
}

/// `p` puts a text for the account of a letter, `r` replaces it, `t` returns it, `i` returns all.
const TEXTS: &[u8] = b"> tx
none
> pxa

> tx
a
> ty
none
> ryb

> rxc

> i
xc.yb.
> px

> tx

> i
x.yb.
";

fn wrong_text(alloc: Global) -> usize {
    let mut texts = Texts {
        texts: SheetTexts::new(),
    };
    let wrong = wrong_line(alloc, &mut texts, TEXTS);
    drop(texts);
    wrong
}

fn wrong_kept(alloc: Global) -> usize {
    let mut transcript = Transcript::new(alloc);
    let failing = numbers(&mut transcript, &[3, 8, 11]);
    let mut kept = KeeperRows {
        keeper: MemoryKeeper::new(failing),
    };
    let wrong = wrong_line(alloc, &mut kept, KEEPING);
    drop(kept);
    unless_failed(transcript, wrong)
}

fn wrong_migrated(alloc: Global) -> usize {
    let mut transcript = Transcript::new(alloc);
    let failing = numbers(&mut transcript, &[3]);
    let mut kept = KeeperRows {
        keeper: MemoryKeeper::new(failing),
    };
    let wrong = wrong_line(alloc, &mut kept, MIGRATING);
    drop(kept);
    unless_failed(transcript, wrong)
}

#[test]
fn keeping_in_memory(rt: HostRuntime) {
    assert_right(&rt, "kept", wrong_kept(rt.alloc()));
    assert_right(&rt, "migrated", wrong_migrated(rt.alloc()));
    assert_right(&rt, "text", wrong_text(rt.alloc()));
}
