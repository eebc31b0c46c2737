//! The keeper.
ghost use Rattle.std.specs.Prelude.{◌≡◌, None};
ghost use Rattle.mmtel_keeper.specs.Causes.{HasKeepCause};
ghost use Rattle.mmtel_stored_keepers.specs.Counts.{store_faults};

use crate::backends::{
    Backend, is_in_memory, journal_name, open_database, open_journal, open_memory,
};
use mmtel_base::{List, Text};
use mmtel_charging::Row;
use mmtel_keeper::{KeepFault, Keeper};
use mmtel_sqlite::SqliteKeeper;
use mmtel_types::Account;
use std::alloc::Global;

/// A keeper in memory, where the path is `:memory:`; over the journal in a file, where it is `journal:` and the name of the file; and over a database for any other path. It has
/// one count of faults for all of them. A call before the first `bind` that returned Ok is a fault.
#[derive(Drop)]
pub struct StoreKeeper<'a> {
    rt: &'a HostRuntime,
    backend: Backend<'a>,
    faults: u64,
}

impl<'a> StoreKeeper<'a> {
    /// A keeper that is not bound.
    pub fn new(rt: &'a HostRuntime) -> StoreKeeper<'a>
        ensures fresh { store_faults result ≡ 0 }
    {
        StoreKeeper {
            rt,
            backend: Backend::Database(SqliteKeeper::new(rt)),
            faults: 0,
        }
    }

    /// Closes the keeper, and what is bound, if anything is.
    pub fn close(self) {
        drop(self);
    }

    /// Counts a fault.
    fn count_fault<T>(&mut self, outcome: Result<T, KeepFault>) -> Result<T, KeepFault>
        ensures { HasKeepCause self.old.faults self.new.faults result }
    {
        if let Err(KeepFault::Failed) = &outcome {
            self.faults = self.faults.saturating_add(1);
        }
        outcome
    }

    /// Opens what a path names in place of what was bound, which is closed first.
    fn reopen(&mut self, alloc: Global, path: &[u8]) -> Result<(), KeepFault>
        ensures { self.new.faults ≡ self.old.faults }
    {
        self.backend = Backend::Database(SqliteKeeper::new(self.rt));
        if is_in_memory(path) {
            self.backend = open_memory();
            return Ok(());
        }
        self.backend = match journal_name(path) {
            Some(name) => open_journal(self.rt, alloc, name)?,
            None => open_database(self.rt, alloc, path)?,
        };
        Ok(())
    }
}

impl Keeper for StoreKeeper<'_> {
    ghost contents = { λ _. None };

    ghost calls = { λ _. None };

    ghost faults = { store_faults };

    fn bind(&mut self, alloc: Global, path: &[u8]) -> Result<(), KeepFault> {
        let done = self.reopen(alloc, path);
        self.count_fault(done)
    }

    fn migrate(&mut self, alloc: Global) -> Result<u64, KeepFault> {
        let done = self.backend.migrate(alloc);
        self.count_fault(done)
    }

    fn load(&mut self, alloc: Global) -> Result<List<(Account, Text)>, KeepFault> {
        let done = self.backend.load(alloc);
        self.count_fault(done)
    }

    fn store(&mut self, alloc: Global, account: Account, text: &[u8]) -> Result<(), KeepFault> {
        let done = self.backend.store(alloc, account, text);
        self.count_fault(done)
    }

    fn add_rows(&mut self, alloc: Global, rows: &[Row]) -> Result<(), KeepFault> {
        let done = self.backend.add_rows(alloc, rows);
        self.count_fault(done)
    }

    fn rows(&mut self, alloc: Global) -> Result<List<Row>, KeepFault> {
        let done = self.backend.rows(alloc);
        self.count_fault(done)
    }
}
