//! Reading a record.
ghost use Rattle.std.specs.Prelude.{◌≡◌, IfOk, IfSome};
ghost use Rattle.mmtel_sheet_grammar.specs.Printable.{IsPrintable};
ghost use Rattle.mmtel_sheet_grammar.specs.Texts.{sheet_read, ReportsRead, old_sheet, if_first_version};
ghost use Rattle.mmtel_sheet_grammar.specs.Walk.{IsRead, sheet_of, version_of};
ghost use Rattle.mmtel_sheet_reader.specs.ReadOrNone.{IsReadOrNone};
ghost use Rattle.toml.specs.View.{table_view};

use crate::tables::{sheet, version};
use mmtel_lex::NoMemory;
use mmtel_sheet_grammar::SheetFault;
use mmtel_sheet_grammar::keys::Version;
use mmtel_sheet_values::Sheet;
use std::alloc::Global;
use toml::Table;

/// Reads a service record: a TOML document of tables.
///
/// # Errors
///
/// `NotToml` exactly where the bytes are not UTF-8 or no TOML. Else the first fault of the walk over the document, which visits tables in byte order of their names, keys in byte
/// order, rules and items in their order: `Unknown` where a key is not listed, `Wrong` where its value is not of the key's type, range or text or where its partner is absent,
/// `Many` where an array is too long. `NoMemory` where memory ran out.
#[tactic(auto, using(crate::proofs::Documents::documented, crate::proofs::BytesRead::read_is_reported, crate::proofs::BytesRead::no_document_is_reported, crate::proofs::ReadTables::read_is_printable))]
pub fn read_sheet(alloc: Global, bytes: &[u8]) -> Result<Sheet, SheetFault>
    ensures exact { IsRead bytes.now result }
    // The same as one function of the bytes.
    ensures total { ReportsRead (sheet_read bytes.now) result }
    // The sheet can be printed.
    ensures printable { IfOk result IsPrintable }
{
    match toml::table_from_slice(alloc, bytes) {
        Ok(table) => sheet(alloc, &table),
        Err(error) => match error.span() {
            Some(_) => Err(SheetFault::NotToml),
            None => Err(SheetFault::NoMemory),
        },
    }
}

/// The result of the reading, unless it is refused; out of memory is no refusal.
fn read_or_none<T>(read: Result<T, SheetFault>) -> Result<Option<T>, NoMemory>
    ensures { IsReadOrNone read result }
{
    match read {
        Ok(value) => Ok(Some(value)),
        Err(SheetFault::NoMemory) => Err(NoMemory),
        Err(_) => Ok(None),
    }
}

/// The sheet of a document of the first version.
#[tactic(auto, using(crate::proofs::ReadTables::read_is_printable))]
fn first_version_sheet(alloc: Global, table: &Table) -> Result<Option<Sheet>, NoMemory>
    ensures exact { IfOk result (λ o. o ≡ if_first_version (version_of (table_view table.now)) (sheet_of (table_view table.now))) }
    ensures printable { IfOk result (λ o. IfSome o IsPrintable) }
{
    match read_or_none(version(alloc, table))? {
        Some(Version::One) => read_or_none(sheet(alloc, table)),
        _ => Ok(None),
    }
}

/// The sheet of a record of the first version; None of a later one, and of a text that is no record.
///
/// # Errors
///
/// Out of memory only.
#[tactic(auto, using(crate::proofs::BytesRead::none_old))]
pub fn read_old_sheet(alloc: Global, bytes: &[u8]) -> Result<Option<Sheet>, NoMemory>
    ensures exact { IfOk result (λ o. o ≡ old_sheet bytes.now) }
    // The sheet can be printed.
    ensures printable { IfOk result (λ o. IfSome o IsPrintable) }
{
    match toml::table_from_slice(alloc, bytes) {
        Ok(table) => first_version_sheet(alloc, &table),
        Err(error) => match error.span() {
            Some(_) => Ok(None),
            None => Err(NoMemory),
        },
    }
}
