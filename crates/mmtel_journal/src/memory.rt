//! A disk in memory, for tests.
ghost use Rattle.std.specs.Prelude.{◌≡◌, ◌≤◌, ◌<◌, ◌∷◌, [], length, take, drop, min, IfOk, OnOk};
ghost use Rattle.std.specs.Vec.{vec_capacity, vec_len};
ghost use Rattle.mmtel_journal.specs.Memory.{with_write, bytes_after_ops, crash_image_of, CrashImageSince, IsFresh};
ghost use Rattle.mmtel_journal.specs.Images.{contents_are_an_image, images_are_since, since_last_is_image};

use crate::disks::{Disk, DiskFault};
use mmtel_base::{List, NoMemory};
use mmtel_environment::fails_by_number;
use std::alloc::Global;

/// The effect of a call on a disk in memory.
#[derive(Drop)]
pub enum DiskOp {
    /// It wrote these bytes at a position.
    Wrote(u64, Vec<u8>),
    /// It was to write these bytes at a position, and failed.
    Tore(u64, Vec<u8>),
    /// It synced.
    Synced,
    /// It changed nothing: it read or returned the length, or it was to read, to return the length or to sync, and failed.
    Unchanged,
}

/// A disk in memory, which records its calls, and whose calls of given numbers fail.
///
/// It is honest: a stop directly after any of its calls leaves what the record says.
#[derive(Drop)]
pub struct MemoryDisk {
    alloc: Global,
    first: Vec<u8>,
    calls: Vec<DiskOp>,
    failing: List<u64>,
    faults: u64,
}

/// What precedes a position.
fn bytes_before(bytes: &[u8], at: u64) -> &[u8]
    ensures { result.now ≡ take at bytes.now }
{
    if at < bytes.len() as u64 {
        &bytes[..at as usize]
    } else {
        bytes
    }
}

/// The rest after so many bytes.
fn bytes_from(bytes: &[u8], count: u64) -> &[u8]
    ensures { result.now ≡ drop count bytes.now }
{
    if count < bytes.len() as u64 {
        &bytes[count as usize..]
    } else {
        &[]
    }
}

/// Bytes with others at a position.
fn with_bytes(alloc: Global, bytes: &[u8], at: u64, new: &[u8]) -> Result<Vec<u8>, NoMemory>
    ensures put { IfOk result (λ put. put.items ≡ with_write bytes.now at new.now) }
{
    let rest = bytes_from(bytes_from(bytes, at), new.len() as u64);
    let mut put = Vec::from_slice(alloc, bytes_before(bytes, at))?;
    put.extend_from_slice(new)?;
    put.extend_from_slice(rest)?;
    Ok(put)
}

/// What a read returns after one more call.
fn bytes_after_op(alloc: Global, bytes: Vec<u8>, op: &DiskOp) -> Result<Vec<u8>, NoMemory>
    ensures shown { IfOk result (λ after. after.items ≡ bytes_after_ops bytes.items (op.now ∷ [])) }
{
    match op {
        DiskOp::Wrote(at, new) => with_bytes(alloc, bytes.as_slice(), *at, new.as_slice()),
        DiskOp::Tore(_, _) => Ok(bytes),
        DiskOp::Synced => Ok(bytes),
        DiskOp::Unchanged => Ok(bytes),
    }
}

/// What a read returns after these calls.
fn bytes_after_ops(alloc: Global, first: &[u8], calls: &[DiskOp]) -> Result<Vec<u8>, NoMemory>
    ensures shown { IfOk result (λ bytes. bytes.items ≡ bytes_after_ops first.now calls.now) }
{
    let mut bytes = Vec::from_slice(alloc, first)?;
    for done in calls {
        bytes = bytes_after_op(alloc, bytes, done)?;
    }
    Ok(bytes)
}

/// Copies as many bytes as there are and fit into the front of the buffer.
fn fill(buf: &mut [u8], bytes: &[u8]) -> usize
    ensures count { result ≡ min (length buf.old) (length bytes.now) }
    ensures front { take result buf.new ≡ take result bytes.now }
    ensures within { result ≤ length buf.new }
{
    let count = buf.len().min(bytes.len());
    buf[..count].copy_from_slice(&bytes[..count]);
    count
}

impl MemoryDisk {
    /// An empty disk. The calls whose numbers, counted from 1, are in `failing` fail.
    pub fn new(alloc: Global, failing: List<u64>) -> MemoryDisk
        ensures fresh { IsFresh result [] failing }
    {
        MemoryDisk {
            alloc,
            first: Vec::new(alloc),
            calls: Vec::new(alloc),
            failing,
            faults: 0,
        }
    }

    /// How many calls were made, except those that ran out of memory.
    pub fn calls(&self) -> u64
        ensures reported { result ≡ length self.now.calls.items }
    {
        self.calls.len() as u64
    }

    /// The disk, without failing calls, that a stop directly after so many calls left: all that was written by then is on it, synced or not.
    ///
    /// # Errors
    ///
    /// Out of memory only.
    pub fn stopped(&self, calls: u64) -> Result<MemoryDisk, NoMemory>
        requires { calls ≤ length self.now.calls.items }
        ensures fresh { IfOk result (λ disk. IsFresh disk disk.first.items []) }
        ensures image { IfOk result
            (λ disk. crash_image_of self.now.first.items (take calls self.now.calls.items) disk.first.items) }
    {
        let first = bytes_after_ops(
            self.alloc,
            self.first.as_slice(),
            &self.calls[..calls as usize],
        )?;
        Ok(MemoryDisk {
            alloc: self.alloc,
            first,
            calls: Vec::new(self.alloc),
            failing: List::new(),
            faults: 0,
        })
    }

    /// Whether the next call fails by its number.
    fn fails(&self) -> bool {
        fails_by_number(self.failing.items(), self.calls.len() as u64)
    }

    /// What a read returns, with space for one more call in the record.
    fn contents(&mut self) -> Result<Vec<u8>, NoMemory>
        ensures shown { IfOk result (λ bytes. bytes.items ≡ bytes_after_ops self.old.first.items self.old.calls.items) }
        ensures first { self.new.first ≡ self.old.first }
        ensures calls { self.new.calls.items ≡ self.old.calls.items }
        ensures faults { self.new.faults ≡ self.old.faults }
        ensures capacity { OnOk result (vec_len self.new.calls < vec_capacity self.new.calls) }
    {
        let bytes = bytes_after_ops(self.alloc, self.first.as_slice(), self.calls.as_slice())?;
        self.calls.reserve(1)?;
        Ok(bytes)
    }
}

impl Disk for MemoryDisk {
    ghost contents = { λ m. bytes_after_ops m.first.items m.calls.items };

    ghost may_leave = { λ m. crash_image_of m.first.items m.calls.items };

    ghost clock = { λ m. length m.calls.items };

    ghost left_since = { λ m. CrashImageSince m.first.items m.calls.items };

    ghost honest = { λ _. Unit {0} };

    ghost faults = { λ m. m.faults };

    ghost among = { λ m _. contents_are_an_image m.first.items m.calls.items };

    ghost counts_now = { λ m t c _ le left. images_are_since m.first.items m.calls.items t c le left };

    ghost only_now = { λ m c _ left. since_last_is_image m.first.items m.calls.items c left };

    fn len(&mut self) -> Result<u64, DiskFault> {
        let bytes = self.contents()?;
        let fails = self.fails();
        self.calls.push_reserved(DiskOp::Unchanged);
        if fails {
            self.faults = self.faults.saturating_add(1);
            return Err(DiskFault::Failed);
        }
        Ok(bytes.len() as u64)
    }

    fn read(&mut self, at: u64, buf: &mut [u8]) -> Result<usize, DiskFault> {
        let bytes = self.contents()?;
        let fails = self.fails();
        self.calls.push_reserved(DiskOp::Unchanged);
        if fails {
            self.faults = self.faults.saturating_add(1);
            return Err(DiskFault::Failed);
        }
        Ok(fill(buf, bytes_from(bytes.as_slice(), at)))
    }

    fn write_at(&mut self, at: u64, bytes: &[u8]) -> Result<(), DiskFault> {
        let bytes = Vec::from_slice(self.alloc, bytes)?;
        self.calls.reserve(1)?;
        if self.fails() {
            self.calls.push_reserved(DiskOp::Tore(at, bytes));
            self.faults = self.faults.saturating_add(1);
            return Err(DiskFault::Failed);
        }
        self.calls.push_reserved(DiskOp::Wrote(at, bytes));
        Ok(())
    }

    fn sync(&mut self) -> Result<(), DiskFault> {
        self.calls.reserve(1)?;
        if self.fails() {
            self.calls.push_reserved(DiskOp::Unchanged);
            self.faults = self.faults.saturating_add(1);
            return Err(DiskFault::Failed);
        }
        self.calls.push_reserved(DiskOp::Synced);
        Ok(())
    }
}
