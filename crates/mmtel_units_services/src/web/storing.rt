//! The contents of a keeper over a file.

ghost use Rattle.std.specs.Prelude.{◌≤◌};

use crate::asserting::assert_right;
use mmtel_base::{List, Text};
use mmtel_charging::{Kind, Row, rows_text};
use mmtel_keeper::{KeepFault, Keeper};
use mmtel_sqlite::SqliteKeeper;
use mmtel_test_tables::Transcript;
use mmtel_types::{Account, CallNo, Cause, Moment};

/// Adds the result of a call.
fn add_done(transcript: &mut Transcript, done: Result<(), KeepFault>) {
    match done {
        Ok(()) => transcript.add(b"ok\n"),
        Err(KeepFault::Failed) => transcript.add(b"failed\n"),
        Err(KeepFault::NoMemory) => transcript.fail(),
    }
}

fn add_sheets(transcript: &mut Transcript, sheets: &[(Account, Text)]) {
    for sheet in sheets {
        transcript.add_if(sheet.0 == Account(2), b"two ", b"any ");
        transcript.add_line(sheet.1.bytes());
    }
}

fn add_loaded(transcript: &mut Transcript, loaded: Result<List<(Account, Text)>, KeepFault>) {
    match loaded {
        Ok(sheets) => {
            add_sheets(transcript, sheets.items());
            drop(sheets);
        }
        Err(KeepFault::Failed) => transcript.add(b"failed\n"),
        Err(KeepFault::NoMemory) => transcript.fail(),
    }
}

fn add_rows(transcript: &mut Transcript, rows: &[Row]) {
    match rows_text(transcript.alloc, rows) {
        Ok(text) => {
            transcript.add(text.bytes());
            drop(text);
        }
        Err(_) => transcript.fail(),
    }
}

fn add_listed(transcript: &mut Transcript, listed: Result<List<Row>, KeepFault>) {
    match listed {
        Ok(rows) => {
            add_rows(transcript, rows.items());
            drop(rows);
        }
        Err(KeepFault::Failed) => transcript.add(b"failed\n"),
        Err(KeepFault::NoMemory) => transcript.fail(),
    }
}

fn moment(ms: u64) -> Moment
    requires { ms ≤ 250000000000000 }
{
    match Moment::new(ms) {
        Some(moment) => moment,
        None => unreachable!(),
    }
}

/// A call that was answered, by the greatest numbers.
fn answered_row() -> Row {
    Row {
        kind: Kind::Terminating,
        account: Account(4_294_967_295),
        call: CallNo(18_446_744_073_709_551_615),
        began: moment(0),
        answered: Some(moment(200)),
        ended: moment(250_000_000_000_000),
        holds: 4_294_967_295,
        cause: Cause::Ended,
    }
}

/// A call that was diverted too often and not answered.
fn diverted_row() -> Row {
    Row {
        kind: Kind::Diversion,
        account: Account(2),
        call: CallNo(1),
        began: moment(5),
        answered: None,
        ended: moment(7),
        holds: 0,
        cause: Cause::TooManyDiversions { busy: true },
    }
}

fn add_migrated(transcript: &mut Transcript, done: Result<u64, KeepFault>) {
    match done {
        Ok(count) => {
            transcript.add_number(count);
            transcript.add(b"\n");
        }
        Err(fault) => add_done(transcript, Err(fault)),
    }
}

/// Calls on a keeper that is bound to a path: their results.
fn keep(transcript: &mut Transcript, keeper: &mut SqliteKeeper<'_>, path: &[u8]) {
    let alloc = transcript.alloc;
    add_done(transcript, keeper.bind(alloc, path));
    add_done(transcript, keeper.store(alloc, Account(2), b"first"));
    add_done(transcript, keeper.store(alloc, Account(2), b"a = 1"));
    add_done(transcript, keeper.add_rows(alloc, &[answered_row()]));
    add_done(transcript, keeper.add_rows(alloc, &[diverted_row()]));
    add_done(transcript, keeper.store(alloc, Account(3), b"version = 1"));
    add_migrated(transcript, keeper.migrate(alloc));
    add_migrated(transcript, keeper.migrate(alloc));
    add_done(transcript, keeper.store(alloc, Account(3), b"b = 1"));
}

/// The contents of a keeper.
fn write_report(transcript: &mut Transcript, keeper: &mut SqliteKeeper<'_>) {
    let alloc = transcript.alloc;
    add_loaded(transcript, keeper.load(alloc));
    add_listed(transcript, keeper.rows(alloc));
}

const OVER_A_FILE: &[u8] = b"failed
ok
ok
ok
ok
ok
ok
1
0
ok
ok
two a = 1
any b = 1
kind,account,call,began,answered,ended,holds,cause,status
terminating,4294967295,18446744073709551615,0,200,250000000000000,4294967295,ended,0
diversion,2,1,5,,7,0,too-many-diversions,486
ok
two a = 1
any b = 1
kind,account,call,began,answered,ended,holds,cause,status
terminating,4294967295,18446744073709551615,0,200,250000000000000,4294967295,ended,0
diversion,2,1,5,,7,0,too-many-diversions,486
failed
failed
failed
";

/// Binds the keeper to a path, and writes its contents then.
fn bind_and_tell(transcript: &mut Transcript, keeper: &mut SqliteKeeper<'_>, path: &[u8]) {
    let done = keeper.bind(transcript.alloc, path);
    add_done(transcript, done);
    write_report(transcript, keeper);
}

/// What another keeper reads of the file; and the calls after a path that cannot be opened.
fn write_anew(transcript: &mut Transcript, rt: &HostRuntime) {
    let mut keeper = SqliteKeeper::new(rt);
    bind_and_tell(transcript, &mut keeper, b"keeper.db");
    bind_and_tell(transcript, &mut keeper, b"no/folder/keeper.db");
    keeper.close();
}

/// A call before any bind; a file, bound again; the same in another keeper, once this one is closed; a path that cannot be opened; and calls after that.
fn wrong_over_a_file(rt: &HostRuntime) -> usize {
    let mut transcript = Transcript::new(rt.alloc());
    let mut keeper = SqliteKeeper::new(rt);
    let done = keeper.store(transcript.alloc, Account(2), b"lost");
    add_done(&mut transcript, done);
    keep(&mut transcript, &mut keeper, b"keeper.db");
    bind_and_tell(&mut transcript, &mut keeper, b"keeper.db");
    keeper.close();
    write_anew(&mut transcript, rt);
    let wrong = transcript.wrong_line(OVER_A_FILE);
    drop(transcript);
    wrong
}

#[test]
fn bound_again_to_a_file(rt: HostRuntime) {
    assert_right(&rt, "over a file", wrong_over_a_file(&rt));
}
