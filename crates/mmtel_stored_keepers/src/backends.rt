//! The store of a keeper.

use mmtel_base::{List, Text};
use mmtel_charging::Row;
use mmtel_journal::{Disk, FileDisk, JournalFault, JournalKeeper, make};
use mmtel_keeper::{KeepFault, Keeper, MemoryKeeper};
use mmtel_sqlite::SqliteKeeper;
use mmtel_types::Account;
use std::alloc::Global;

/// The store that a path names.
#[derive(Drop)]
pub enum Backend<'a> {
    /// Memory alone.
    Memory(MemoryKeeper),
    /// A journal in a file.
    Journal(JournalKeeper<FileDisk>),
    /// A database.
    Database(SqliteKeeper<'a>),
}

/// The fault of the keeper for a fault of a journal. A broken journal is one.
fn fault_of(fault: JournalFault) -> KeepFault {
    match fault {
        JournalFault::NoMemory => KeepFault::NoMemory,
        _ => KeepFault::Failed,
    }
}

/// The file of a name after the words that select a journal; None where the path has none of them.
pub fn journal_name(path: &[u8]) -> Option<&[u8]> {
    match path {
        [b'j', b'o', b'u', b'r', b'n', b'a', b'l', b':', name @ ..] => Some(name),
        _ => None,
    }
}

/// Whether a path names no file: what is stored is then in memory alone.
pub fn is_in_memory(path: &[u8]) -> bool {
    path == b":memory:".as_slice()
}

/// An empty store in memory.
pub fn open_memory<'a>() -> Backend<'a> {
    Backend::Memory(MemoryKeeper::new(List::new()))
}

/// Whether a file begins as each journal does that a server wrote: with a gate (commit mark) that is closed or open. In the format any other byte is a closed gate too; but a file
/// of something else whose name was given by mistake is not to be overwritten.
fn begins_with_gate(disk: &mut FileDisk) -> Result<bool, JournalFault> {
    let mut first = [0; 1];
    let count = disk.read(0, &mut first)?;
    Ok(count == 1 && first[0] <= 1)
}

/// Syncs what an earlier keeper wrote, so that what is read is durable; and creates a journal where there is nothing.
fn begin(disk: &mut FileDisk) -> Result<(), JournalFault> {
    disk.sync()?;
    if disk.len()? == 0 {
        return make(disk);
    }
    if !begins_with_gate(disk)? {
        return Err(JournalFault::Broken { at: 0 });
    }
    Ok(())
}

/// Opens the journal of a file, and creates one where the file is empty or does not exist.
pub fn open_journal<'a>(
    rt: &'a HostRuntime,
    alloc: Global,
    name: &[u8],
) -> Result<Backend<'a>, KeepFault> {
    let mut disk = FileDisk::at(rt, name)?;
    if let Err(fault) = begin(&mut disk) {
        drop(disk);
        return Err(fault_of(fault));
    }
    match JournalKeeper::open(alloc, disk) {
        Ok(keeper) => Ok(Backend::Journal(keeper)),
        Err((disk, fault)) => {
            drop(disk);
            Err(fault_of(fault))
        }
    }
}

/// Opens the database of a path.
pub fn open_database<'a>(
    rt: &'a HostRuntime,
    alloc: Global,
    path: &[u8],
) -> Result<Backend<'a>, KeepFault> {
    let mut keeper = SqliteKeeper::new(rt);
    match keeper.bind(alloc, path) {
        Ok(()) => Ok(Backend::Database(keeper)),
        Err(fault) => {
            keeper.close();
            Err(fault)
        }
    }
}

impl Backend<'_> {
    pub fn migrate(&mut self, alloc: Global) -> Result<u64, KeepFault> {
        match self {
            Backend::Memory(keeper) => keeper.migrate(alloc),
            Backend::Journal(keeper) => keeper.migrate(alloc),
            Backend::Database(keeper) => keeper.migrate(alloc),
        }
    }

    pub fn load(&mut self, alloc: Global) -> Result<List<(Account, Text)>, KeepFault> {
        match self {
            Backend::Memory(keeper) => keeper.load(alloc),
            Backend::Journal(keeper) => keeper.load(alloc),
            Backend::Database(keeper) => keeper.load(alloc),
        }
    }

    pub fn store(&mut self, alloc: Global, account: Account, text: &[u8]) -> Result<(), KeepFault> {
        match self {
            Backend::Memory(keeper) => keeper.store(alloc, account, text),
            Backend::Journal(keeper) => keeper.store(alloc, account, text),
            Backend::Database(keeper) => keeper.store(alloc, account, text),
        }
    }

    pub fn add_rows(&mut self, alloc: Global, rows: &[Row]) -> Result<(), KeepFault> {
        match self {
            Backend::Memory(keeper) => keeper.add_rows(alloc, rows),
            Backend::Journal(keeper) => keeper.add_rows(alloc, rows),
            Backend::Database(keeper) => keeper.add_rows(alloc, rows),
        }
    }

    pub fn rows(&mut self, alloc: Global) -> Result<List<Row>, KeepFault> {
        match self {
            Backend::Memory(keeper) => keeper.rows(alloc),
            Backend::Journal(keeper) => keeper.rows(alloc),
            Backend::Database(keeper) => keeper.rows(alloc),
        }
    }
}
