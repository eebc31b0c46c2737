//! Why a record is refused.
ghost use Rattle.std.specs.Prelude.{◌≡◌};
ghost use Rattle.mmtel_sheet_grammar.specs.declared.faults.SheetFault.TheVariants as fault;

use mmtel_lex::{NoMemory, Text};
use std::alloc::AllocError;

/// Why the bytes are no service record. Where there are several faults, the first of the walk is reported: tables in byte order of their names, keys in byte order, rules and items
/// of an array in their order.
#[derive(Debug, Drop)]
pub enum SheetFault {
    /// The bytes are not UTF-8, or no TOML.
    NotToml,
    /// The key is not listed in the grammar.
    Unknown {
        /// `table`, `table.key` or `table.rule.N.key`.
        key: Text,
    },
    /// The value is not of the type, range or text of the key, or the key lacks its partner, or a required key is absent.
    Wrong {
        /// `table`, `table.key` or `table.rule.N.key`.
        key: Text,
    },
    /// An array has more items than may be.
    Many {
        /// `table.key` or `table.rule.N.key`.
        key: Text,
        /// The items that may be.
        limit: u32,
    },
    /// Memory ran out.
    NoMemory,
}

impl From<NoMemory> for SheetFault {
    ghost from_gives = { λ _ e. e ≡ fault.NoMemory };

    fn from(_error: NoMemory) -> SheetFault {
        SheetFault::NoMemory
    }
}

/// The item that a refused `List::push` returns is dropped, so that `?` works on it.
impl<T: Drop> From<(T, NoMemory)> for SheetFault {
    ghost from_gives = { λ _ e. e ≡ fault.NoMemory };

    fn from(_refused: (T, NoMemory)) -> SheetFault {
        SheetFault::NoMemory
    }
}

impl From<AllocError> for SheetFault {
    ghost from_gives = { λ _ e. e ≡ fault.NoMemory };

    fn from(_error: AllocError) -> SheetFault {
        SheetFault::NoMemory
    }
}
