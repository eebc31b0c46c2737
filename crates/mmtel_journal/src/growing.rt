//! The allocations of a call of a keeper, before its first call of the disk.
ghost use Rattle.std.specs.Prelude.{◌≡◌, ◌++◌, ◌+◌, ◌∷◌, [], ◌≤◌, ◌<◌, length, All, IfOk, OnOk};
ghost use Rattle.std.specs.Vec.{vec_capacity, vec_len};
ghost use Rattle.mmtel_journal.specs.Logs.{body_bytes};
ghost use Rattle.mmtel_journal.specs.Payloads.{IsSheet, IsRow, payload_of_sheets, payload_of_rows};

use crate::writing::{rows_body, sheet_body};
use mmtel_base::{List, NoMemory, Text};
use mmtel_charging::Row;
use mmtel_sheet_texts::SheetTexts;
use mmtel_types::Account;
use std::alloc::Global;

/// Reserves space for more rows.
fn reserve_rows(row_list: &mut Vec<Row>, more: usize) -> Result<(), NoMemory>
    ensures same { row_list.new.items ≡ row_list.old.items }
    ensures capacity { OnOk result (vec_len row_list.new + more ≤ vec_capacity row_list.new) }
{
    row_list.reserve(more)?;
    Ok(())
}

/// Adds rows for which space is reserved.
pub fn add_reserved(row_list: &mut Vec<Row>, rows: &[Row])
    requires { vec_len row_list.old + length rows.now ≤ vec_capacity row_list.old }
    ensures added { row_list.new.items ≡ row_list.old.items ++ rows.now }
{
    for row in rows {
        row_list.push_reserved(*row);
    }
}

/// A copy of the sheets.
pub fn copy_sheets(
    alloc: Global,
    sheets: &[(Account, Text)],
) -> Result<List<(Account, Text)>, NoMemory>
    ensures copied { IfOk result (λ copied. copied ≡ sheets.now) }
{
    let mut copied = List::new();
    for sheet in sheets {
        let text = Text::of(alloc, sheet.1.bytes())?;
        copied.push(alloc, (sheet.0, text))?;
    }
    Ok(copied)
}

/// A copy of the rows as a list.
pub fn copy_rows(alloc: Global, rows: &[Row]) -> Result<List<Row>, NoMemory>
    ensures copied { IfOk result (λ copied. copied ≡ rows.now) }
{
    let mut copied = List::new();
    for row in rows {
        copied.push(alloc, *row)?;
    }
    Ok(copied)
}

/// Makes all allocations of a store: the text, what is written after the gate, and space for a sheet.
pub fn grow_sheets(
    alloc: Global,
    sheets: &mut SheetTexts,
    account: Account,
    text: &[u8],
) -> Result<(Text, Vec<u8>), NoMemory>
    ensures same { sheets.new.texts ≡ sheets.old.texts }
    ensures capacity { OnOk result (0 < sheets.new.space) }
    ensures text { IfOk result (λ grown. grown.0 ≡ text.now) }
    ensures fits { OnOk result (IsSheet (account, text.now)) }
    ensures body { IfOk result (λ grown. grown.1.items ≡ body_bytes (payload_of_sheets ((account, text.now) ∷ []))) }
{
    let kept = Text::of(alloc, text)?;
    let body = sheet_body(alloc, account, text)?;
    sheets.reserve(alloc)?;
    Ok((kept, body))
}

/// Makes all allocations for rows that are added.
pub fn grow_rows(alloc: Global, row_list: &mut Vec<Row>, rows: &[Row]) -> Result<Vec<u8>, NoMemory>
    ensures same { row_list.new.items ≡ row_list.old.items }
    ensures capacity { OnOk result (vec_len row_list.new + length rows.now ≤ vec_capacity row_list.new) }
    ensures fits { OnOk result (All IsRow rows.now) }
    ensures body { IfOk result (λ body. body.items ≡ body_bytes (payload_of_rows rows.now)) }
{
    let body = rows_body(alloc, rows)?;
    reserve_rows(row_list, rows.len())?;
    Ok(body)
}
