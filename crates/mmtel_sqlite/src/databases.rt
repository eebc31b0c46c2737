//! The database of a keeper.

use crate::statements::{Task, TaskResult, perform};
use crate::values::no_memory;
use sqlite::{Connection, Error, ErrorCode, File, FileStore, MemStore};
use std::alloc::Global;

/// The database of a keeper.
#[derive(Drop)]
pub enum Database {
    /// None yet.
    Unbound,
    /// One in memory.
    Memory(Connection<MemStore>),
    /// One in a file.
    Disk(Connection<FileStore<File>>),
}

fn open_memory(alloc: Global) -> Result<Database, Error> {
    let Ok(conn) = Connection::open_in_memory(alloc) else {
        return Err(no_memory());
    };
    Ok(Database::Memory(conn))
}

fn open_disk(rt: &HostRuntime, path: &[u8]) -> Result<Database, Error> {
    let Ok(path) = std::str::from_utf8(path) else {
        return Err(Error::SqliteFailure(ErrorCode::CannotOpen));
    };
    let conn = Connection::open(rt, path)?;
    Ok(Database::Disk(conn))
}

/// Opens the database of a path: `:memory:` is one in memory, any other a file.
pub fn open(rt: &HostRuntime, path: &[u8]) -> Result<Database, Error> {
    if path == b":memory:".as_slice() {
        open_memory(rt.alloc())
    } else {
        open_disk(rt, path)
    }
}

impl Database {
    /// Runs the command, where there is a database.
    pub fn perform(&mut self, alloc: Global, task: Task<'_>) -> Result<TaskResult, Error> {
        match self {
            Database::Unbound => Err(Error::SqliteFailure(ErrorCode::Closed)),
            Database::Memory(conn) => perform(alloc, conn, task),
            Database::Disk(conn) => perform(alloc, conn, task),
        }
    }
}
