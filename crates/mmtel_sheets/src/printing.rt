//! The text of a sheet.
ghost use Rattle.std.specs.Prelude.{◌≡◌, IfOk, IsUtf8, Ok, false};
ghost use Rattle.toml.specs.Parse.{parse_document};
ghost use Rattle.toml.specs.Text.{IsDocumentText};
ghost use Rattle.mmtel_sheet_grammar.specs.Texts.{version_read};
ghost use Rattle.mmtel_sheet_grammar.specs.Walk.{IsDocumentReadAs};
ghost use Rattle.mmtel_sheet_grammar.specs.declared.keys.Version.TheVariants as version;
ghost use Rattle.mmtel_sheet_grammar.specs.Printable.{IsPrintable};
ghost use Rattle.mmtel_sheets.specs.Printing.{document_of};

use crate::tables::sheet_table;
use mmtel_lex::{NoMemory, Text};
use mmtel_sheet_values::Sheet;
use std::alloc::Global;
use toml::ser::Error;
use toml::table_to_string;

/// The record of a sheet, of the second version: a TOML document in which each default is written out, a part that is absent has no table, and times are written as
/// `YYYY-MM-DDTHH:MM:SS.mmmZ`.
///
/// # Errors
///
/// Out of memory only.
pub fn print_sheet(alloc: Global, sheet: &Sheet) -> Result<Text, NoMemory>
    requires { IsPrintable sheet.now }
    // The text is the sheet's document, one key a line.
    ensures text { IfOk result (λ t. IsDocumentText false (document_of sheet.now) t) }
    // It reads as the sheet's document.
    ensures document { IfOk result (λ t. IsUtf8 t × (parse_document t ≡ Some (document_of sheet.now))) }
    // It reads back to the sheet.
    ensures reads_back { IfOk result (λ t. IsDocumentReadAs t (Ok sheet.now)) }
    // It is of the second version.
    ensures second { IfOk result (λ t. version_read t ≡ Ok version.Two) }
{
    let table = sheet_table(alloc, sheet)?;
    match table_to_string(alloc, &table) {
        Ok(text) => Ok(Text::of(alloc, text.as_bytes())?),
        Err(Error::OutOfMemory) => Err(NoMemory),
        Err(Error::DateInvalid) => unreachable!(),
    }
}
