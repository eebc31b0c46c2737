//! The statements, each in a function of its own: the values that are bound to them and that they return have clauses, their text has none.
ghost use Rattle.std.specs.Prelude.{◌≡◌, ◌<◌, ◌≤◌, ◌^◌, ℕ, List, Option, decimal, length, map, IfErr, IfOk, IfSome};
ghost use Rattle.sqlite.specs.Values.{or_null};
ghost use Rattle.sqlite_value.specs.Order.{column};
ghost use Rattle.sqlite_value.specs.Value.{owned};
ghost use Rattle.sqlite_value.specs.declared.value.Value.TheVariants as value;
ghost use Rattle.mmtel_keeper.specs.Migration.{first_version_count, is_first_version};
ghost use Rattle.mmtel_sqlite.specs.Columns.{IsOutOfMemory, IsRow, IsSheet, kind_number, nine_of, number, row_columns, sheet_columns, two_of};
ghost use Rattle.mmtel_charging.specs.declared.rows.Kind.{Kind as TheKind};
ghost use Rattle.mmtel_types.specs.Causes.{status_of, word_of};
ghost use Rattle.mmtel_types.specs.Moments.{last_moment};
ghost use Rattle.mmtel_types.specs.declared.causes.Cause.{Cause as TheCause};

use crate::values::{cause_of, kind_number, kind_of, millis, no_memory, unreadable};
use mmtel_base::{List, Text, add_number, plain_number};
use mmtel_charging::{Kind, Row};
use mmtel_keeper::migrated_text;
use mmtel_types::{Account, CallNo, Cause, Moment};
use sqlite::types::{ToSql, ValueRef};
use sqlite::{Alter, Connection, Error, ErrorCode, Transaction};
use std::alloc::Global;

/// Creates the tables where they do not exist.
fn make_tables<S: Alter>(conn: &mut Connection<S>) -> Result<(), Error> {
    conn.execute_batch(
        "CREATE TABLE IF NOT EXISTS sheets (account INTEGER PRIMARY KEY, body BLOB); \
        CREATE TABLE IF NOT EXISTS charges (n INTEGER PRIMARY KEY, kind INTEGER, account INTEGER, callno TEXT, began INTEGER, answered INTEGER, ended INTEGER, \
        holds INTEGER, cause TEXT, code INTEGER)",
    )
}

/// The values of a record's columns.
fn sheet_columns(account: Account, body: &[u8]) -> [ValueRef<'_>; 2]
    ensures { map owned result ≡ sheet_columns account body.now }
{
    [account.0.to_sql(), body.to_sql()]
}

fn put_sheet<S: Alter>(
    conn: &mut Connection<S>,
    account: Account,
    body: &[u8],
) -> Result<(), Error> {
    let _count = conn.execute(
        "INSERT INTO sheets (account, body) VALUES (?1, ?2) ON CONFLICT (account) DO UPDATE SET body = excluded.body",
        &sheet_columns(account, body),
    )?;
    Ok(())
}

fn read_sheet(alloc: Global, row: &sqlite::Row) -> Result<(Account, Text), Error>
    ensures same { IfOk result (λ sheet. two_of row.now ≡ sheet_columns sheet.0 sheet.1) }
    ensures back { IsSheet row.now → IfErr result IsOutOfMemory }
{
    let account: u32 = row.get(0)?;
    let body: Vec<u8> = row.get(1)?;
    match Text::of(alloc, body.as_slice()) {
        Ok(text) => Ok((Account(account), text)),
        Err(_) => Err(no_memory()),
    }
}

fn sheets_of(alloc: Global, found: &[sqlite::Row]) -> Result<List<(Account, Text)>, Error> {
    let mut sheets = List::new();
    for row in found {
        let sheet = read_sheet(alloc, row)?;
        if sheets.push(alloc, sheet).is_err() {
            return Err(no_memory());
        }
    }
    Ok(sheets)
}

fn sheets<S: Alter>(
    alloc: Global,
    conn: &mut Connection<S>,
) -> Result<List<(Account, Text)>, Error> {
    let found = conn.query_all("SELECT account, body FROM sheets ORDER BY account", &[])?;
    sheets_of(alloc, found.as_slice())
}

fn decimal(alloc: Global, number: u64) -> Result<Text, Error>
    ensures { IfOk result (λ text. text ≡ decimal number) }
{
    let mut text = Text::new();
    match add_number(alloc, &mut text, number) {
        Ok(()) => Ok(text),
        Err(_) => Err(no_memory()),
    }
}

/// The value of a moment, which may be absent.
fn moment_value(moment: Option<Moment>) -> ValueRef<'static>
    ensures { owned result ≡ or_null number moment }
{
    match moment {
        Some(moment) => millis(moment).to_sql(),
        None => ValueRef::Null,
    }
}

/// The values of a charging row's columns; its call's number comes as text.
fn row_columns<'a>(row: &Row, call: &'a [u8]) -> [ValueRef<'a>; 9]
    requires { call.now ≡ decimal row.now.call.0 }
    ensures { map owned result ≡ row_columns row.now }
{
    [
        kind_number(row.kind).to_sql(),
        row.account.0.to_sql(),
        ValueRef::Text(call),
        millis(row.began).to_sql(),
        moment_value(row.answered),
        millis(row.ended).to_sql(),
        row.holds.to_sql(),
        row.cause.word().to_sql(),
        u32::from(row.cause.status()).to_sql(),
    ]
}

fn add_row<S: Alter>(alloc: Global, tx: &mut Transaction<'_, S>, row: &Row) -> Result<(), Error> {
    let call = decimal(alloc, row.call.0)?;
    let _count = tx.execute(
        "INSERT INTO charges (kind, account, callno, began, answered, ended, holds, cause, code) VALUES (?1, ?2, ?3, ?4, ?5, ?6, ?7, ?8, ?9)",
        &row_columns(row, call.bytes()),
    )?;
    Ok(())
}

fn add_rows<S: Alter>(alloc: Global, conn: &mut Connection<S>, rows: &[Row]) -> Result<(), Error> {
    if !conn.is_autocommit() {
        return Err(Error::SqliteFailure(ErrorCode::TransactionState));
    }
    let mut tx = conn.transaction();
    for row in rows {
        add_row(alloc, &mut tx, row)?;
    }
    tx.commit()
}

/// The bytes of a column of text.
fn text(row: &sqlite::Row, at: usize) -> Result<&[u8], Error>
    ensures same { IfOk result (λ bytes. column row.now at ≡ value.Text bytes.now) }
    ensures back { (bytes : List ℕ) → at < length row.now → column row.now at ≡ value.Text bytes → IfErr result (λ e. ⊥) }
{
    match row.get_ref(at)? {
        ValueRef::Text(bytes) => Ok(bytes),
        _ => Err(unreadable(at)),
    }
}

fn moment(row: &sqlite::Row, at: usize) -> Result<Moment, Error>
    ensures same { IfOk result (λ moment. column row.now at ≡ number moment) }
    ensures back { (ms : ℕ) → at < length row.now → ms ≤ last_moment → column row.now at ≡ number ms → IfErr result IsOutOfMemory }
{
    let ms: u64 = row.get(at)?;
    match Moment::new(ms) {
        Some(moment) => Ok(moment),
        None => Err(unreadable(at)),
    }
}

fn answered(row: &sqlite::Row) -> Result<Option<Moment>, Error>
    ensures same { IfOk result (λ moment. column row.now 4 ≡ or_null number moment) }
    ensures back { (ms : Option ℕ) → 4 < length row.now → IfSome ms (λ m. m ≤ last_moment) → column row.now 4 ≡ or_null number ms → IfErr result IsOutOfMemory }
{
    match row.get_ref(4)? {
        ValueRef::Null => Ok(None),
        _ => Ok(Some(moment(row, 4)?)),
    }
}

fn call(row: &sqlite::Row) -> Result<CallNo, Error>
    ensures same { IfOk result (λ call. column row.now 2 ≡ value.Text (decimal call.0)) }
    ensures back { (n : ℕ) → 2 < length row.now → n < 2 ^ 64 → column row.now 2 ≡ value.Text (decimal n) → IfErr result (λ e. ⊥) }
{
    match plain_number(u64::MAX, text(row, 2)?) {
        Some(number) => Ok(CallNo(number)),
        None => Err(unreadable(2)),
    }
}

fn cause(row: &sqlite::Row) -> Result<Cause, Error>
    ensures word { IfOk result (λ cause. column row.now 7 ≡ value.Text (word_of cause)) }
    ensures status { IfOk result (λ cause. column row.now 8 ≡ number (status_of cause)) }
    ensures back { (c : TheCause) → 8 < length row.now → status_of c < 2 ^ 16 → column row.now 7 ≡ value.Text (word_of c) →
        column row.now 8 ≡ number (status_of c) → IfErr result IsOutOfMemory }
{
    let word = text(row, 7)?;
    let status: u32 = row.get(8)?;
    let Ok(status) = u16::try_from(status) else {
        return Err(unreadable(8));
    };
    match cause_of(word, status) {
        Some(cause) => Ok(cause),
        None => Err(unreadable(7)),
    }
}

fn kind(row: &sqlite::Row) -> Result<Kind, Error>
    ensures same { IfOk result (λ kind. column row.now 0 ≡ number (kind_number kind)) }
    ensures back { (k : TheKind) → 0 < length row.now → column row.now 0 ≡ number (kind_number k) → IfErr result IsOutOfMemory }
{
    let number: u32 = row.get(0)?;
    match kind_of(number) {
        Some(kind) => Ok(kind),
        None => Err(unreadable(0)),
    }
}

/// The charging row of these values, in the order of the columns.
fn read_row(row: &sqlite::Row) -> Result<Row, Error>
    ensures same { IfOk result (λ read. nine_of row.now ≡ row_columns read) }
    ensures back { IsRow row.now → IfErr result IsOutOfMemory }
{
    let kind = kind(row)?;
    let account: u32 = row.get(1)?;
    let call = call(row)?;
    let began = moment(row, 3)?;
    let answered = answered(row)?;
    let ended = moment(row, 5)?;
    let holds: u32 = row.get(6)?;
    let cause = cause(row)?;
    Ok(Row {
        kind,
        account: Account(account),
        call,
        began,
        answered,
        ended,
        holds,
        cause,
    })
}

fn rows_of(alloc: Global, found: &[sqlite::Row]) -> Result<List<Row>, Error> {
    let mut rows = List::new();
    for columns in found {
        // Taken apart and built again: the checker requires the type of each field where a row is pushed.
        let Row {
            kind,
            account,
            call,
            began,
            answered,
            ended,
            holds,
            cause,
        } = read_row(columns)?;
        let row = Row {
            kind,
            account,
            call,
            began,
            answered,
            ended,
            holds,
            cause,
        };
        if rows.push(alloc, row).is_err() {
            return Err(no_memory());
        }
    }
    Ok(rows)
}

fn rows<S: Alter>(alloc: Global, conn: &mut Connection<S>) -> Result<List<Row>, Error> {
    let found = conn.query_all(
        "SELECT kind, account, callno, began, answered, ended, holds, cause, code FROM charges ORDER BY n",
        &[],
    )?;
    rows_of(alloc, found.as_slice())
}

/// Replaces a record of the first version by one of the second; returns whether the text was one.
fn migrate_sheet<S: Alter>(
    alloc: Global,
    tx: &mut Transaction<'_, S>,
    account: Account,
    text: &[u8],
) -> Result<bool, Error>
    ensures old { IfOk result (λ replaced. replaced ≡ is_first_version (account, text.now)) }
{
    match migrated_text(alloc, text) {
        Err(_) => Err(no_memory()),
        Ok(None) => Ok(false),
        Ok(Some(body)) => {
            let done = tx.execute(
                "UPDATE sheets SET body = ?2 WHERE account = ?1",
                &sheet_columns(account, body.bytes()),
            );
            drop(body);
            let _count = done?;
            Ok(true)
        }
    }
}

/// Does so with each of these; returns how many were of the first version.
fn migrate_each<S: Alter>(
    alloc: Global,
    tx: &mut Transaction<'_, S>,
    sheets: &[(Account, Text)],
) -> Result<u64, Error>
    ensures many { IfOk result (λ count. count ≡ first_version_count sheets.now) }
{
    let mut count: u64 = 0;
    for sheet in sheets {
        if migrate_sheet(alloc, tx, sheet.0, sheet.1.bytes())? {
            count += 1;
        }
    }
    Ok(count)
}

/// Does so with each record that the transaction finds.
fn migrate_found<S: Alter>(alloc: Global, tx: &mut Transaction<'_, S>) -> Result<u64, Error> {
    let found = tx.query_all("SELECT account, body FROM sheets ORDER BY account", &[])?;
    let sheets = sheets_of(alloc, found.as_slice());
    drop(found);
    let sheets = sheets?;
    let count = migrate_each(alloc, tx, sheets.items());
    drop(sheets);
    count
}

/// Queries each record and does so with it, all or none, in one transaction.
fn migrate<S: Alter>(alloc: Global, conn: &mut Connection<S>) -> Result<u64, Error> {
    if !conn.is_autocommit() {
        return Err(Error::SqliteFailure(ErrorCode::TransactionState));
    }
    let mut tx = conn.transaction();
    let count = migrate_found(alloc, &mut tx)?;
    tx.commit()?;
    Ok(count)
}

/// A command to the database.
#[derive(Clone, Copy)]
pub enum Task<'a> {
    /// Create the tables where they do not exist.
    Make,
    /// Put a sheet in place of the account's previous one.
    Store(Account, &'a [u8]),
    /// Replace each record of the first version by one of the second.
    Migrate,
    /// Return the sheets.
    Load,
    /// Add rows.
    AddRows(&'a [Row]),
    /// Return the rows.
    Rows,
}

/// The result of a command.
#[derive(Drop)]
pub enum TaskResult {
    /// It was changed.
    Changed,
    /// So many records were replaced.
    Migrated(u64),
    /// Its sheets.
    Sheets(List<(Account, Text)>),
    /// Its rows.
    Rows(List<Row>),
}

/// Runs the command.
pub fn perform<S: Alter>(
    alloc: Global,
    conn: &mut Connection<S>,
    task: Task<'_>,
) -> Result<TaskResult, Error> {
    match task {
        Task::Make => {
            make_tables(conn)?;
            Ok(TaskResult::Changed)
        }
        Task::Store(account, body) => {
            put_sheet(conn, account, body)?;
            Ok(TaskResult::Changed)
        }
        Task::Migrate => Ok(TaskResult::Migrated(migrate(alloc, conn)?)),
        Task::Load => Ok(TaskResult::Sheets(sheets(alloc, conn)?)),
        Task::AddRows(added) => {
            add_rows(alloc, conn, added)?;
            Ok(TaskResult::Changed)
        }
        Task::Rows => Ok(TaskResult::Rows(rows(alloc, conn)?)),
    }
}
