//! Adding a payload to the contents.
ghost use Rattle.std.specs.Prelude.{◌∷◌, IfOk};
ghost use Rattle.mmtel_journal.specs.Reading.{ReadsSheets, ReadsRows, ReadsPayload};

use crate::fields::{row_at, sheet_at, u64_at};
use mmtel_base::{NoMemory, Text};
use mmtel_charging::Row;
use mmtel_sheet_texts::SheetTexts;
use std::alloc::Global;

/// Puts the sheets of a payload over those of their accounts, and returns whether the payload is of the format. Where it is not, what was read of it remains put.
fn read_sheets(alloc: Global, tail: &[u8], sheets: &mut SheetTexts) -> Result<bool, NoMemory>
    ensures { IfOk result (ReadsSheets (1 ∷ tail.now) sheets.old.texts sheets.new.texts) }
{
    let Some((count, behind)) = u64_at(tail) else {
        return Ok(false);
    };
    let mut left = count;
    let mut rest = behind;
    while left > 0 {
        let Some((sheet, further)) = sheet_at(rest) else {
            return Ok(false);
        };
        let text = Text::of(alloc, sheet.1)?;
        sheets.put(alloc, sheet.0, text)?;
        rest = further;
        left -= 1;
    }
    Ok(rest.is_empty())
}

/// Adds the rows of a payload after the others, and returns whether the payload is of the format. Where it is not, what was read of it remains added.
fn read_rows(tail: &[u8], rows: &mut Vec<Row>) -> Result<bool, NoMemory>
    ensures { IfOk result (ReadsRows (2 ∷ tail.now) rows.old.items rows.new.items) }
{
    let Some((count, behind)) = u64_at(tail) else {
        return Ok(false);
    };
    let mut left = count;
    let mut rest = behind;
    while left > 0 {
        let Some((row, further)) = row_at(rest) else {
            return Ok(false);
        };
        rows.reserve(1)?;
        rows.push_reserved(row);
        rest = further;
        left -= 1;
    }
    Ok(rest.is_empty())
}

/// Adds a payload to the contents, and returns whether it is of the format.
pub fn read_payload(
    alloc: Global,
    payload: &[u8],
    sheets: &mut SheetTexts,
    rows: &mut Vec<Row>,
) -> Result<bool, NoMemory>
    ensures { IfOk result
        (ReadsPayload payload.now (record { sheets = sheets.old.texts; rows = rows.old.items })
        (record { sheets = sheets.new.texts; rows = rows.new.items })) }
{
    match payload {
        [1, tail @ ..] => read_sheets(alloc, tail, sheets),
        [2, tail @ ..] => read_rows(tail, rows),
        _ => Ok(false),
    }
}
