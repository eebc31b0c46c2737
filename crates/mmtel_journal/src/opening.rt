//! Creating a journal on an empty disk, and opening one.
ghost use Rattle.std.specs.Prelude.{◌≡◌, ◌↔◌, [], length, IfOk, IfErr, OnOk, List, ℕ};
ghost use Rattle.mmtel_journal.specs.Disks.{Leaves, Only};
ghost use Rattle.mmtel_journal.specs.Faults.{HasDiskCause, HasJournalCause, HasOpenCause};
ghost use Rattle.mmtel_journal.specs.Journal.{IsJournal};
ghost use Rattle.mmtel_journal.specs.Keepers.{contents_of, KeeperRepresents};
ghost use Rattle.mmtel_journal.specs.Opening.{OnNotEmpty, OnBrokenAt, IsOpening};
ghost use Rattle.mmtel_journal.specs.Reading.{EndsAt, IsBrokenAt};

use crate::appends::start;
use crate::disks::{Disk, DiskFault};
use crate::keepers::JournalKeeper;
use crate::logs::Log;
use crate::reading::{LogReadFault, read_journal};
use mmtel_base::NoMemory;
use std::alloc::Global;

/// The maximum number of bytes that are read at once.
const PIECE: usize = 16_384;

/// Why a journal was not created or opened.
#[derive(Clone, Copy, Debug, PartialEq, Eq)]
pub enum JournalFault {
    /// The disk failed. It was counted.
    Failed,
    /// A journal is to be created on a disk that has bytes: so many.
    NotEmpty {
        /// How many.
        len: u64,
    },
    /// What is on the disk is no journal.
    Broken {
        /// The position of the first open gate without a record after it, or where a gate is expected and the bytes end.
        at: u64,
    },
    /// Memory ran out. It was not counted.
    NoMemory,
}

impl From<DiskFault> for JournalFault {
    ghost use Rattle.mmtel_journal.specs.Opening.{fault_of};

    ghost from_gives = { λ d e. e ≡ fault_of d };

    fn from(fault: DiskFault) -> JournalFault {
        match fault {
            DiskFault::Failed => JournalFault::Failed,
            DiskFault::NoMemory => JournalFault::NoMemory,
        }
    }
}

/// Creates a journal of no records on an empty disk.
///
/// A disk on which it did not return Ok may have a byte after a stop, and then no journal is created or opened on it: it has to be emptied first.
///
/// # Errors
///
/// `Failed` only where the count of the disk's faults rose; `NotEmpty` exactly where the disk has bytes; `NoMemory` where the disk runs out of memory.
pub fn make<D: Disk>(disk: &mut D) -> Result<(), JournalFault>
    ensures cause { HasJournalCause (D.faults disk.old) (D.faults disk.new) result }
    ensures honest { D.honest disk.old ↔ D.honest disk.new }
    ensures empty { D.honest disk.old → OnOk result (D.contents disk.old ≡ []) }
    ensures not_empty { D.honest disk.old → IfErr result (OnNotEmpty (length (D.contents disk.old))) }
    ensures made { D.honest disk.old → OnOk result (Leaves (D.may_leave disk.new) (IsJournal [])) }
{
    let len = disk.len()?;
    if len > 0 {
        return Err(JournalFault::NotEmpty { len });
    }
    start(disk)?;
    Ok(())
}

/// Reads all that is on a disk.
fn read_all<D: Disk>(alloc: Global, disk: &mut D) -> Result<Vec<u8>, DiskFault>
    ensures cause { HasDiskCause (D.faults disk.old) (D.faults disk.new) result }
    ensures honest { D.honest disk.old ↔ D.honest disk.new }
    ensures all { D.honest disk.old → IfOk result (λ bytes. bytes.items ≡ D.contents disk.old) }
    ensures stop { D.honest disk.old → Leaves (D.may_leave disk.new) (D.may_leave disk.old) }
{
    let len = disk.len()?;
    let mut bytes = Vec::new(alloc);
    let mut piece = [0; PIECE];
    while (bytes.len() as u64) < len {
        let count = disk.read(bytes.len() as u64, &mut piece)?;
        if count == 0 {
            break;
        }
        bytes.extend_from_slice(&piece[..count])?;
    }
    Ok(bytes)
}

impl<D: Disk> JournalKeeper<D> {
    /// Opens the journal on a disk: reads all of it, and holds its contents. It writes nothing.
    ///
    /// No write on the disk may be waiting for a sync: after a stop none is.
    ///
    /// # Errors
    ///
    /// With the disk: `Failed` only where the count of its faults rose; `Broken` exactly where the bytes up to the gate that ends the journal are not of the format, at the first
    /// such record; `NoMemory`.
    pub fn open(alloc: Global, disk: D) -> Result<JournalKeeper<D>, (D, JournalFault)>
        ensures cause { HasOpenCause D.faults disk result }
        ensures found { D.honest disk → IfOk result (λ k. EndsAt (D.contents disk) k.log.gate (contents_of k)) }
        ensures broken { D.honest disk → IfErr result (λ e. OnBrokenAt (IsBrokenAt (D.contents disk)) e.1) }
        ensures only { D.honest disk → IsOpening (D.contents disk) result }
        ensures keeps { D.honest disk → Only (D.contents disk) (D.may_leave disk)
            → IfOk result (λ k. (payloads : List (List ℕ)) × KeeperRepresents D.may_leave payloads [] k) }
    {
        let mut disk = disk;
        let bytes = match read_all(alloc, &mut disk) {
            Ok(bytes) => bytes,
            Err(fault) => return Err((disk, JournalFault::from(fault))),
        };
        let read = read_journal(alloc, bytes.as_slice());
        drop(bytes);
        match read {
            Ok(found) => Ok(JournalKeeper {
                log: Log {
                    disk,
                    gate: found.gate as u64,
                    pending: false,
                },
                sheets: found.sheets,
                rows: found.rows,
            }),
            Err(LogReadFault::Broken(at)) => Err((disk, JournalFault::Broken { at: at as u64 })),
            Err(LogReadFault::NoMemory) => Err((disk, JournalFault::NoMemory)),
        }
    }

    /// Returns a reference to the disk.
    pub fn disk(&self) -> &D
        ensures disk { result.now ≡ self.now.log.disk }
    {
        &self.log.disk
    }
}
