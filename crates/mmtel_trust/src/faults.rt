//! Why a table refused an entry.
ghost use Rattle.std.specs.Prelude.{◌≡◌};
ghost use Rattle.mmtel_trust.specs.declared.faults.TableFault.TheVariants as fault;

use mmtel_base::NoMemory;

/// Why a table of peers or of accounts refused an entry. The table is then as before.
#[derive(Clone, Copy, Debug, PartialEq, Eq)]
pub enum TableFault {
    /// The number, address, name or identity is in the table already.
    Taken,
    /// The peer is not in the table.
    NoPeer,
    /// Memory ran out.
    NoMemory,
}

impl From<NoMemory> for TableFault {
    ghost from_gives = { λ _ e. e ≡ fault.NoMemory };

    fn from(_error: NoMemory) -> TableFault {
        TableFault::NoMemory
    }
}

impl<T: Drop> From<(T, NoMemory)> for TableFault {
    ghost from_gives = { λ _ e. e ≡ fault.NoMemory };

    fn from(_refused: (T, NoMemory)) -> TableFault {
        TableFault::NoMemory
    }
}
