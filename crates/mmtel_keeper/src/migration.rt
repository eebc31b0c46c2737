//! Replacing records of the first version by records of the second with the same sheet.
ghost use Rattle.std.specs.Prelude.{IfOk, IfSome, Some, is_some, ◌≡◌};
ghost use Rattle.mmtel_keeper.specs.Migration.{IsMigrated};
ghost use Rattle.mmtel_sheet_grammar.specs.Texts.{old_sheet};

use mmtel_base::{NoMemory, Text};
use mmtel_sheets::{print_sheet, read_old_sheet};
use std::alloc::Global;

/// The record of the second version that replaces a record of the first; None where the text is none, which then is unchanged.
///
/// # Errors
///
/// Out of memory only.
pub fn migrated_text(alloc: Global, text: &[u8]) -> Result<Option<Text>, NoMemory>
    ensures replaced { IfOk result (λ new. IfSome new (λ after. IsMigrated text.now after)) }
    ensures old { IfOk result (λ new. is_some new ≡ is_some (old_sheet text.now)) }
{
    match read_old_sheet(alloc, text)? {
        None => Ok(None),
        Some(sheet) => {
            let printed = print_sheet(alloc, &sheet);
            drop(sheet);
            Ok(Some(printed?))
        }
    }
}
