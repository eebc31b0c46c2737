//! Refusing a value at its key.
ghost use Rattle.std.specs.Prelude.{◌≡◌, Err, IsErr};
ghost use Rattle.mmtel_sheet_grammar.specs.ReadResults.{IsReadResult};
ghost use Rattle.mmtel_sheet_grammar.specs.declared.faults.SheetFault.TheVariants as fault;

use mmtel_lex::Text;
use mmtel_sheet_grammar::SheetFault;
use std::alloc::Global;

/// The value at the key is refused as wrong.
pub fn wrong<T>(alloc: Global, at: &[u8]) -> Result<T, SheetFault>
    ensures fault { IsReadResult (Err (fault.Wrong at.now)) result }
    ensures refused { IsErr result }
{
    match Text::of(alloc, at) {
        Ok(key) => Err(SheetFault::Wrong { key }),
        Err(_) => Err(SheetFault::NoMemory),
    }
}

/// The key is refused as not listed.
pub fn unknown<T>(alloc: Global, at: &[u8]) -> Result<T, SheetFault>
    ensures fault { IsReadResult (Err (fault.Unknown at.now)) result }
    ensures refused { IsErr result }
{
    match Text::of(alloc, at) {
        Ok(key) => Err(SheetFault::Unknown { key }),
        Err(_) => Err(SheetFault::NoMemory),
    }
}

/// The array at the key is refused as too long.
pub fn many<T>(alloc: Global, at: &[u8]) -> Result<T, SheetFault>
    ensures fault { IsReadResult (Err (fault.Many at.now 64)) result }
    ensures refused { IsErr result }
{
    match Text::of(alloc, at) {
        Ok(key) => Err(SheetFault::Many { key, limit: 64 }),
        Err(_) => Err(SheetFault::NoMemory),
    }
}
