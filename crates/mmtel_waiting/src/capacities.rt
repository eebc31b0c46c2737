//! How many calls a user may have at the same time.
ghost use Rattle.std.specs.Prelude.{◌≡◌};
ghost use Rattle.mmtel_waiting.specs.Waiting.{capacity_of, is_busy};

use mmtel_sheet_values::Sheet;

/// The number of calls that the user may have at the same time: one, or with communication waiting the number in the record (TS 24.615 §4.5.5).
pub fn capacity(sheet: &Sheet) -> u8
    ensures exact { result ≡ capacity_of sheet.now }
{
    match sheet.waiting {
        None => 1,
        Some(calls) => calls,
    }
}

/// Whether a user that has this many live calls is network determined user busy: it has as many as it may have, or more (TS 24.615 §4.5.5).
pub fn is_busy(live: u32, sheet: &Sheet) -> bool
    ensures exact { result ≡ is_busy live sheet.now }
{
    live >= u32::from(capacity(sheet))
}
