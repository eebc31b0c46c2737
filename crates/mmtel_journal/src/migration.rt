//! Stored records of the first version are replaced by records of the second.
ghost use Rattle.std.specs.Prelude.{◌≡◌, length, All, IfOk, OnOk};
ghost use Rattle.mmtel_journal.specs.Logs.{body_bytes};
ghost use Rattle.mmtel_journal.specs.Migrating.{AreInRange, AreReplacements, set_all, sheets_in};
ghost use Rattle.mmtel_journal.specs.Payloads.{IsSheet, payload_of_sheets};

use crate::writing::{body_around, payload_head, put_sheet};
use mmtel_base::{List, NoMemory, Text};
use mmtel_keeper::migrated_text;
use mmtel_sheet_texts::SheetTexts;
use mmtel_types::Account;
use std::alloc::Global;

/// The records that replace those of the first version, each with its index among the sheets and its account.
pub fn replacements(
    alloc: Global,
    sheets: &[(Account, Text)],
) -> Result<List<(usize, (Account, Text))>, NoMemory>
    ensures replaced { IfOk result (AreReplacements sheets.now) }
{
    let mut found = List::new();
    let mut at: usize = 0;
    for sheet in sheets {
        if let Some(text) = migrated_text(alloc, sheet.1.bytes())? {
            found.push(alloc, (at, (sheet.0, text)))?;
        }
        at += 1;
    }
    Ok(found)
}

/// What is written after a gate for them.
pub fn replaced_body(alloc: Global, found: &[(usize, (Account, Text))]) -> Result<Vec<u8>, NoMemory>
    ensures fits { OnOk result (All IsSheet (sheets_in found.now)) }
    ensures body { IfOk result (λ body. body.items ≡ body_bytes (payload_of_sheets (sheets_in found.now))) }
{
    let mut payload = payload_head(alloc, 1, found.len() as u64)?;
    for new in found {
        put_sheet(&mut payload, new.1.0, new.1.1.bytes())?;
    }
    body_around(alloc, payload.as_slice())
}

/// Puts each at its index. It allocates nothing.
pub fn put_all(sheets: &mut SheetTexts, new_texts: List<(usize, (Account, Text))>)
    requires { AreInRange (length sheets.old.texts) new_texts }
    ensures put { sheets.new.texts ≡ set_all new_texts sheets.old.texts }
{
    let mut new_texts = new_texts;
    'new_texts: while let Some((at, (_account, text))) = new_texts.pop() {
        sheets.set(at, text);
    }
}
