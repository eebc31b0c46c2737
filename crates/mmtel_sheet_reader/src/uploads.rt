//! The content of a text that is uploaded, checked or stored: a record, or the line with its first fault.
ghost use Rattle.std.specs.Prelude.{◌≡◌, ◌≢◌, ◌++◌, ◌∷◌, [], IfOk, OnOk, codes, decimal};
ghost use Rattle.mmtel_sheet_reader.specs.Uploads.{upload_of, fault_text};
ghost use Rattle.mmtel_sheet_grammar.specs.Texts.{stored_sheet};
ghost use Rattle.mmtel_sheet_values.specs.Sheets.{empty_sheet};
ghost use Rattle.mmtel_sheet_grammar.specs.declared.faults.SheetFault.TheVariants as kinds;

use crate::reading::read_sheet;
use itoa::Buffer;
use mmtel_base::{NoMemory, Text};
use mmtel_sheet_grammar::SheetFault;
use mmtel_sheet_values::Sheet;
use std::alloc::Global;

/// The content of an upload.
#[derive(Drop)]
pub enum Upload {
    /// A service record.
    Accepted(Sheet),
    /// None; the line has its first fault.
    Refused(Text),
}

/// A word, a key and the line's end.
fn key_line(alloc: Global, word: &[u8], key: &Text) -> Result<Text, NoMemory>
    ensures { IfOk result (λ line. line ≡ word.now ++ (key.now ++ codes "\n")) }
{
    let mut line = Text::of(alloc, word)?;
    line.push(alloc, key.bytes())?;
    line.push(alloc, b"\n")?;
    Ok(line)
}

/// The line of an array that is too long.
fn many_line(alloc: Global, key: &Text, limit: u32) -> Result<Text, NoMemory>
    ensures { IfOk result (λ line. line ≡ codes "many " ++ (key.now ++ (codes " " ++ (decimal limit ++ codes "\n")))) }
{
    let mut buffer = Buffer::new();
    let mut line = Text::of(alloc, b"many ")?;
    line.push(alloc, key.bytes())?;
    line.push(alloc, b" ")?;
    line.push(alloc, buffer.format(limit).as_bytes())?;
    line.push(alloc, b"\n")?;
    Ok(line)
}

/// The line with a fault of a service record: `not toml`, or `unknown`, `wrong` or `many` with the key, and LF. There is no line for out of memory.
///
/// # Errors
///
/// Out of memory, also where that is the given fault.
pub fn fault_text(alloc: Global, fault: &SheetFault) -> Result<Text, NoMemory>
    ensures line { IfOk result (λ line. line ≡ fault_text fault.now) }
    ensures other { IfOk result (λ _. fault.now ≢ kinds.NoMemory) }
{
    match fault {
        SheetFault::NotToml => Text::of(alloc, b"not toml\n"),
        SheetFault::Unknown { key } => key_line(alloc, b"unknown ", key),
        SheetFault::Wrong { key } => key_line(alloc, b"wrong ", key),
        SheetFault::Many { key, limit } => many_line(alloc, key, *limit),
        SheetFault::NoMemory => Err(NoMemory),
    }
}

/// The upload that the bytes are.
///
/// # Errors
///
/// Out of memory only.
pub fn upload_of(alloc: Global, bytes: &[u8]) -> Result<Upload, NoMemory>
    ensures exact { IfOk result (λ upload. upload ≡ upload_of bytes.now) }
{
    match read_sheet(alloc, bytes) {
        Ok(sheet) => Ok(Upload::Accepted(sheet)),
        Err(fault) => {
            let line = fault_text(alloc, &fault)?;
            Ok(Upload::Refused(line))
        }
    }
}

/// The sheet of a text that has this fault: that of an account without a record. None where memory ran out.
fn without_record(fault: &SheetFault) -> Result<Sheet, NoMemory>
    ensures its { IfOk result (λ sheet. sheet ≡ empty_sheet) }
    ensures other { IfOk result (λ _. fault.now ≢ kinds.NoMemory) }
{
    match fault {
        SheetFault::NotToml => Ok(Sheet::empty()),
        SheetFault::Unknown { .. } => Ok(Sheet::empty()),
        SheetFault::Wrong { .. } => Ok(Sheet::empty()),
        SheetFault::Many { .. } => Ok(Sheet::empty()),
        SheetFault::NoMemory => Err(NoMemory),
    }
}

/// The sheet of a text that was stored: where it is no service record, that of an account without a record.
///
/// # Errors
///
/// Out of memory only.
pub fn stored_sheet(alloc: Global, bytes: &[u8]) -> Result<Sheet, NoMemory>
    ensures exact { IfOk result (λ sheet. sheet ≡ stored_sheet bytes.now) }
{
    match read_sheet(alloc, bytes) {
        Ok(sheet) => Ok(sheet),
        Err(fault) => {
            let sheet = without_record(&fault)?;
            Ok(sheet)
        }
    }
}
