//! The keeper of a workload.
ghost use Rattle.std.specs.Prelude.{◌≡◌, [], None, Some};

use mmtel_base::{List, Text};
use mmtel_charging::Row;
use mmtel_keeper::{KeepFault, Keeper, MemoryKeeper};
use mmtel_types::Account;
use std::alloc::Global;
use std::marker::Model;

/// A keeper in memory none of whose calls fails.
#[derive(Drop)]
pub struct WorkKeeper {
    keeper: MemoryKeeper,
}

impl Model for WorkKeeper {
    ghost use Rattle.std.specs.Prelude.{◌≡◌, []};
    ghost use Rattle.mmtel_keeper.specs.Contents.{KeeperContents};

    ghost Value = { KeeperContents };

    ghost view = { λ work. work.keeper.contents };

    ghost invariant = { λ work. work.keeper.calls.failing ≡ [] };
}

impl WorkKeeper {
    /// One of no records and no rows.
    pub fn new() -> WorkKeeper
        ensures fresh { result ≡ record { sheets = []; rows = [] } }
    {
        WorkKeeper {
            keeper: MemoryKeeper::new(List::new()),
        }
    }
}

impl Keeper for WorkKeeper {
    ghost contents = { λ work. Some work };

    ghost calls = { λ _. None };

    ghost faults = { λ _. 0 };

    fn bind(&mut self, alloc: Global, path: &[u8]) -> Result<(), KeepFault> {
        self.keeper.bind(alloc, path)
    }

    fn migrate(&mut self, alloc: Global) -> Result<u64, KeepFault> {
        self.keeper.migrate(alloc)
    }

    fn load(&mut self, alloc: Global) -> Result<List<(Account, Text)>, KeepFault> {
        self.keeper.load(alloc)
    }

    fn store(&mut self, alloc: Global, account: Account, text: &[u8]) -> Result<(), KeepFault> {
        self.keeper.store(alloc, account, text)
    }

    fn add_rows(&mut self, alloc: Global, rows: &[Row]) -> Result<(), KeepFault> {
        self.keeper.add_rows(alloc, rows)
    }

    fn rows(&mut self, alloc: Global) -> Result<List<Row>, KeepFault> {
        self.keeper.rows(alloc)
    }
}
