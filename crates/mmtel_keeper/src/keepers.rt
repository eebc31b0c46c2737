//! Storage of service records and charging rows.
ghost use Rattle.std.specs.Prelude.{◌≡◌, ℕ, Option};
ghost use Rattle.mmtel_keeper.specs.Causes.{HasKeepCause};
ghost use Rattle.mmtel_keeper.specs.Contents.{KeeperContents, KeeperCalls, IsCountedCall, IsCountedBind, Becomes, ReturnsPart, with_sheet, with_rows};
ghost use Rattle.mmtel_keeper.specs.Migration.{Migrates};

use mmtel_base::{List, NoMemory, Text};
use mmtel_charging::Row;
use mmtel_types::Account;
use std::alloc::Global;

/// Why a call of a keeper failed.
#[derive(Clone, Copy, Debug, PartialEq, Eq)]
pub enum KeepFault {
    /// The keeper could not do it. It was counted.
    Failed,
    /// Memory ran out. It was not counted.
    NoMemory,
}

/// The storage of service records and charging rows, with a count of faults.
///
/// A call that returns a fault changes no sheet and no row, where they are known.
pub trait Keeper {
    /// The sheets and the rows that it holds, where they are known.
    ghost contents: { Self → Option KeeperContents };

    /// The path bound last, the number of calls so far and the numbers of those that fail, where they are known.
    ghost calls: { Self → Option KeeperCalls };

    /// How many calls returned `Failed`. It never decreases, and remains at the greatest u64.
    ghost faults: { Self → ℕ };

    /// Opens the storage at a path. It changes no sheet and no row, where they are known.
    ///
    /// # Errors
    ///
    /// `Failed` only where the count of faults rose in this call; `NoMemory` leaves the count unchanged.
    fn bind(&mut self, alloc: Global, path: &[u8]) -> Result<(), KeepFault>
        ensures same { contents self.new ≡ contents self.old }
        ensures calls { IsCountedBind (calls self.old) (calls self.new) path.now result }
        ensures cause { HasKeepCause (faults self.old) (faults self.new) result };

    /// Replaces each text that is a record of the first version by one of the second with the same sheet; every other is unchanged. Returns how many were replaced.
    ///
    /// # Errors
    ///
    /// As of `bind`; nothing is replaced then.
    fn migrate(&mut self, alloc: Global) -> Result<u64, KeepFault>
        ensures migrated { Migrates (contents self.old) (contents self.new) result }
        ensures calls { IsCountedCall (calls self.old) (calls self.new) result }
        ensures cause { HasKeepCause (faults self.old) (faults self.new) result };

    /// The sheets that it holds: each account that has one, and its text.
    ///
    /// # Errors
    ///
    /// As of `bind`.
    fn load(&mut self, alloc: Global) -> Result<List<(Account, Text)>, KeepFault>
        ensures same { contents self.new ≡ contents self.old }
        ensures reported { ReturnsPart (contents self.old) (λ h. h.sheets) result }
        ensures calls { IsCountedCall (calls self.old) (calls self.new) result }
        ensures cause { HasKeepCause (faults self.old) (faults self.new) result };

    /// Puts a sheet in place of the account's previous one.
    ///
    /// # Errors
    ///
    /// As of `bind`.
    fn store(&mut self, alloc: Global, account: Account, text: &[u8]) -> Result<(), KeepFault>
        ensures changed { Becomes (contents self.old) (contents self.new) (with_sheet account text.now) result }
        ensures calls { IsCountedCall (calls self.old) (calls self.new) result }
        ensures cause { HasKeepCause (faults self.old) (faults self.new) result };

    /// Adds rows after those that it holds, all or none.
    ///
    /// # Errors
    ///
    /// As of `bind`.
    fn add_rows(&mut self, alloc: Global, rows: &[Row]) -> Result<(), KeepFault>
        ensures changed { Becomes (contents self.old) (contents self.new) (with_rows rows.now) result }
        ensures calls { IsCountedCall (calls self.old) (calls self.new) result }
        ensures cause { HasKeepCause (faults self.old) (faults self.new) result };

    /// The rows that it holds, in the order in which they were added.
    ///
    /// # Errors
    ///
    /// As of `bind`.
    fn rows(&mut self, alloc: Global) -> Result<List<Row>, KeepFault>
        ensures same { contents self.new ≡ contents self.old }
        ensures reported { ReturnsPart (contents self.old) (λ h. h.rows) result }
        ensures calls { IsCountedCall (calls self.old) (calls self.new) result }
        ensures cause { HasKeepCause (faults self.old) (faults self.new) result };
}

impl From<NoMemory> for KeepFault {
    ghost use Rattle.mmtel_keeper.specs.declared.keepers.KeepFault.TheVariants as fault;

    ghost from_gives = { λ _ e. e ≡ fault.NoMemory };

    fn from(_error: NoMemory) -> KeepFault {
        KeepFault::NoMemory
    }
}

/// The item that a refused `List::push` returns is dropped, so that `?` works on it.
impl<T: Drop> From<(T, NoMemory)> for KeepFault {
    ghost use Rattle.mmtel_keeper.specs.declared.keepers.KeepFault.TheVariants as fault;

    ghost from_gives = { λ _ e. e ≡ fault.NoMemory };

    fn from(_refused: (T, NoMemory)) -> KeepFault {
        KeepFault::NoMemory
    }
}
