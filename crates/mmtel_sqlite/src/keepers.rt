//! The keeper.
ghost use Rattle.std.specs.Prelude.{◌≡◌, None};
ghost use Rattle.mmtel_keeper.specs.Causes.{HasKeepCause};
ghost use Rattle.mmtel_sqlite.specs.Counts.{HasCounted, keep_faults};

use crate::databases::{Database, open};
use crate::statements::{Task, TaskResult};
use mmtel_base::{List, Text};
use mmtel_charging::Row;
use mmtel_keeper::{KeepFault, Keeper};
use mmtel_types::Account;
use sqlite::{Error, ErrorCode};
use std::alloc::Global;

/// A keeper over a database. A call before the first `bind` that returned Ok is a fault.
#[derive(Drop)]
pub struct SqliteKeeper<'a> {
    rt: &'a HostRuntime,
    database: Database,
    faults: u64,
}

/// The fault of the keeper for a failed call of the database.
fn fault_of(error: Error) -> KeepFault {
    match error {
        Error::SqliteFailure(ErrorCode::OutOfMemory) => KeepFault::NoMemory,
        _ => KeepFault::Failed,
    }
}

impl<'a> SqliteKeeper<'a> {
    /// A keeper that is not bound.
    pub fn new(rt: &'a HostRuntime) -> SqliteKeeper<'a>
        ensures fresh { keep_faults result ≡ 0 }
    {
        SqliteKeeper {
            rt,
            database: Database::Unbound,
            faults: 0,
        }
    }

    /// Closes the keeper, and the database that is bound, if one is: another program may open it then. A database in memory is lost.
    ///
    /// What a call that returned Ok changed is on the disk by then, since each was a transaction of its own; nothing is written here. So no error is returned: if the system could
    /// not close a file, nothing that was stored is lost. The log, the file with `-wal` after the name of the database, remains with what was not copied into the database yet, and
    /// the next `bind` reads it from there: whoever moves one of the two files has to move the other.
    pub fn close(self) {
        drop(self);
    }

    /// Counts a fault.
    fn count_fault(&mut self, error: Error) -> KeepFault
        ensures { HasCounted self.old.faults self.new.faults result }
    {
        let fault = fault_of(error);
        if fault == KeepFault::Failed {
            self.faults = self.faults.saturating_add(1);
        }
        fault
    }

    /// Runs the command.
    fn perform(&mut self, alloc: Global, task: Task<'_>) -> Result<TaskResult, KeepFault>
        ensures { HasKeepCause self.old.faults self.new.faults result }
    {
        match self.database.perform(alloc, task) {
            Ok(done) => Ok(done),
            Err(error) => Err(self.count_fault(error)),
        }
    }

    /// Opens the database of a path in place of the one that was bound.
    fn reopen(&mut self, path: &[u8]) -> Result<(), KeepFault>
        ensures { HasKeepCause self.old.faults self.new.faults result }
    {
        self.database = Database::Unbound;
        match open(self.rt, path) {
            Ok(place) => {
                self.database = place;
                Ok(())
            }
            Err(error) => Err(self.count_fault(error)),
        }
    }
}

impl Keeper for SqliteKeeper<'_> {
    ghost contents = { λ _. None };

    ghost calls = { λ _. None };

    ghost faults = { keep_faults };

    fn bind(&mut self, alloc: Global, path: &[u8]) -> Result<(), KeepFault> {
        self.reopen(path)?;
        self.perform(alloc, Task::Make)?;
        Ok(())
    }

    fn migrate(&mut self, alloc: Global) -> Result<u64, KeepFault> {
        match self.perform(alloc, Task::Migrate)? {
            TaskResult::Migrated(count) => Ok(count),
            _ => Ok(0),
        }
    }

    fn load(&mut self, alloc: Global) -> Result<List<(Account, Text)>, KeepFault> {
        match self.perform(alloc, Task::Load)? {
            TaskResult::Sheets(sheets) => Ok(sheets),
            _ => Ok(List::new()),
        }
    }

    fn store(&mut self, alloc: Global, account: Account, text: &[u8]) -> Result<(), KeepFault> {
        self.perform(alloc, Task::Store(account, text))?;
        Ok(())
    }

    fn add_rows(&mut self, alloc: Global, rows: &[Row]) -> Result<(), KeepFault> {
        self.perform(alloc, Task::AddRows(rows))?;
        Ok(())
    }

    fn rows(&mut self, alloc: Global) -> Result<List<Row>, KeepFault> {
        match self.perform(alloc, Task::Rows)? {
            TaskResult::Rows(rows) => Ok(rows),
            _ => Ok(List::new()),
        }
    }
}
