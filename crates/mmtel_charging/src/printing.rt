//! The text of charging rows.
ghost use Rattle.std.specs.Prelude.{◌≡◌, ◌∷◌, ◌++◌, ◌<◌, ◌^◌, IfOk, IfSome, map};
ghost use Rattle.csv.specs.Writing.{default_writer, row_text};
ghost use Rattle.mmtel_charging.specs.Rows.{columns, fields_of, line_of, moment_field, records_of, text_of};
ghost use Rattle.mmtel_charging.specs.Writing.{InRange, IsReady, records_text, written_bytes};

use crate::rows::Row;
use csv::{Writer, WriterBuilder};
use itoa::Buffer;
use mmtel_base::{NoMemory, Text};
use mmtel_types::{Moment, causes_are_distinguished};
use std::alloc::Global;

/// The digits of a moment, in milliseconds since 1970-01-01T00:00:00Z; empty where there is none.
fn moment_digits(buffer: &mut Buffer, moment: Option<Moment>) -> &str
    ensures digits { result.now ≡ moment_field moment }
    ensures fits { IfSome moment (λ number. number < 2 ^ 64) }
{
    match moment {
        Some(moment) => buffer.format(moment.ms()),
        None => "",
    }
}

/// Writes one record. A writer into memory fails only where memory runs out.
fn write_record(writer: &mut Writer<Vec<u8>>, fields: &[&[u8]]) -> Result<(), NoMemory>
    requires { IsReady writer.old }
    ensures ready { IfOk result (λ _. IsReady writer.new) }
    ensures csv_record { IfOk result (λ _. written_bytes writer.new ≡ written_bytes writer.old ++ row_text default_writer (map (λ field. field.now) fields.now)) }
{
    match writer.write_fields(fields) {
        Ok(()) => Ok(()),
        Err(_) => Err(NoMemory),
    }
}

/// Writes one row.
fn write_row(writer: &mut Writer<Vec<u8>>, row: &Row) -> Result<(), NoMemory>
    requires { IsReady writer.old }
    ensures ready { IfOk result (λ _. IsReady writer.new) }
    ensures csv_record { IfOk result (λ _. written_bytes writer.new ≡ written_bytes writer.old ++ row_text default_writer (fields_of row.now)) }
    ensures line { IfOk result (λ _. written_bytes writer.new ≡ written_bytes writer.old ++ line_of (fields_of row.now)) }
{
    let mut account = Buffer::new();
    let mut call = Buffer::new();
    let mut began = Buffer::new();
    let mut answered = Buffer::new();
    let mut ended = Buffer::new();
    let mut holds = Buffer::new();
    let mut status = Buffer::new();
    write_record(
        writer,
        &[
            row.kind.word().as_bytes(),
            account.format(row.account.0).as_bytes(),
            call.format(row.call.0).as_bytes(),
            began.format(row.began.ms()).as_bytes(),
            moment_digits(&mut answered, row.answered).as_bytes(),
            ended.format(row.ended.ms()).as_bytes(),
            holds.format(row.holds).as_bytes(),
            row.cause.word().as_bytes(),
            status.format(row.cause.status()).as_bytes(),
        ],
    )
}

/// The text of rows as comma-separated values (RFC 4180): the header line and a line for each row, in order, each ended by LF.
///
/// A row has its kind's word, the account, the call, the moments at which it began, was answered and ended, the count of holds, the cause's word and the cause's status.
/// Numbers are decimal digits, moments milliseconds since 1970-01-01T00:00:00Z, and an absent answered moment is an empty field.
///
/// # Errors
///
/// Out of memory only.
pub fn rows_text(alloc: Global, rows: &[Row]) -> Result<Text, NoMemory>
    ensures text { IfOk result (λ text. text ≡ text_of rows.now) }
    ensures reads_back { IfOk result (λ text. records_of text ≡ columns ∷ map fields_of rows.now) }
{
    let written = write_rows(alloc, rows)?;
    Text::of(alloc, written.as_slice())
}

/// Writes the header and the rows into memory.
fn write_rows(alloc: Global, rows: &[Row]) -> Result<Vec<u8>, NoMemory>
    ensures text { IfOk result (λ text. text.items ≡ text_of rows.now) }
    ensures records { IfOk result (λ text. text.items ≡ records_text rows.now) }
{
    let mut writer = WriterBuilder::new().from_writer(Vec::new(alloc));
    write_record(
        &mut writer,
        &[
            b"kind",
            b"account",
            b"call",
            b"began",
            b"answered",
            b"ended",
            b"holds",
            b"cause",
            b"status",
        ],
    )?;
    for row in rows {
        write_row(&mut writer, row)?;
    }
    match writer.into_inner() {
        Ok(written) => Ok(written),
        Err(_) => Err(NoMemory),
    }
}

/// A theorem, without code: rows with equal fields are equal, so the rows are determined by what a CSV reader returns for their text.
pub fn rows_are_distinguished(one: Row, other: Row)
    ensures distinguished { fields_of one ≡ fields_of other → one ≡ other }
{
    numbers_fit(one);
    numbers_fit(other);
    causes_are_distinguished();
}

/// A theorem, without code: the bounds that the type of a row implies for its numbers.
fn numbers_fit(row: Row)
    ensures in_range { InRange row }
{
    moment_fits(row.answered);
    let _status = row.cause.status();
}

fn moment_fits(moment: Option<Moment>)
    ensures fits { IfSome moment (λ number. number < 2 ^ 64) }
{
    if let Some(moment) = moment {
        let _ms = moment.ms();
    }
}
