//! A disk over a file of the system: the boundary, of whose contents no clause says anything.
ghost use Rattle.std.specs.Prelude.{◌≡◌, [], IfOk, Err};
ghost use Rattle.mmtel_journal.specs.Faults.{HasDiskCause};
ghost use Rattle.mmtel_journal.specs.Files.{file_disk_faults};

use crate::disks::{Disk, DiskFault};
use std::fs::{File, OpenOptions};
use std::io::ErrorKind;
use std::os::fd::AsRawFd;
use std::os::unix::fs::{FileExt, OpenOptionsExt};
use std::{fs, io};

/// A disk over a file, by its path in UTF-8.
#[derive(Drop)]
pub struct FileDisk {
    file: File,
    faults: u64,
}

/// Opens the file of a path for reading and writing, and creates it where it does not exist.
fn open_or_make(rt: &HostRuntime, path: &str) -> io::Result<File> {
    let file = OpenOptions::new()
        .read(true)
        .write(true)
        .create(true)
        .mode(0o644)
        .open(rt, path)?;
    if file.as_raw_fd() > 2 {
        return Ok(file);
    }
    // What is written to a standard stream that was closed must not be written to the journal.
    let moved = file.try_clone();
    drop(file);
    moved
}

/// Locks a file as long as it is open: other programs that try to lock it are refused.
fn lock(file: &File) -> io::Result<()> {
    if !file.metadata()?.is_file() {
        return Err(io::Error::from(ErrorKind::Unsupported));
    }
    match file.try_lock() {
        Ok(()) => Ok(()),
        Err(_) => Err(io::Error::from(ErrorKind::WouldBlock)),
    }
}

/// Syncs the directory of a file, so that the file's entry is durable.
fn sync_folder(rt: &HostRuntime, path: &str) -> io::Result<()> {
    let mut real = fs::canonicalize(rt, path)?;
    real.pop();
    let opened = File::open(rt, real.as_str());
    drop(real);
    let folder = opened?;
    let done = folder.sync_all();
    drop(folder);
    done
}

/// Syncs a file and its directory, and drops the system's cached pages of it: after a failed sync of an earlier program they may differ from what is on the disk.
fn sync_with_folder(rt: &HostRuntime, file: &File, path: &str) -> io::Result<()> {
    file.sync_all()?;
    let advised = libc::posix_fadvise(file.as_raw_fd(), 0, 0, libc::POSIX_FADV_DONTNEED);
    if advised != 0 {
        return Err(io::Error::from_raw_os_error(advised));
    }
    sync_folder(rt, path)
}

/// The file of a path, locked, with its contents and its directory entry on the disk.
fn open_file(rt: &HostRuntime, path: &[u8]) -> io::Result<File> {
    let Ok(path) = str::from_utf8(path) else {
        return Err(io::Error::from(ErrorKind::InvalidInput));
    };
    let file = open_or_make(rt, path)?;
    if let Err(error) = lock(&file) {
        drop(file);
        return Err(error);
    }
    match sync_with_folder(rt, &file, path) {
        Ok(()) => Ok(file),
        Err(error) => {
            drop(file);
            Err(error)
        }
    }
}

impl FileDisk {
    /// The disk over the file of a path, which is created where it does not exist. It is locked as long as it is open, and synced with its directory, so that a file that was
    /// created still exists after a stop.
    ///
    /// # Errors
    ///
    /// `Failed` where the path is not UTF-8, or is of no file, or the system could not open or sync it or its directory, or another program has locked it; this is not counted
    /// here.
    pub fn at(rt: &HostRuntime, path: &[u8]) -> Result<FileDisk, DiskFault>
        ensures fresh { IfOk result (λ disk. file_disk_faults disk ≡ 0) }
    {
        match open_file(rt, path) {
            Ok(file) => Ok(FileDisk { file, faults: 0 }),
            Err(e) if e.kind() == ErrorKind::OutOfMemory => Err(DiskFault::NoMemory),
            Err(_) => Err(DiskFault::Failed),
        }
    }

    /// Counts a fault.
    fn failed(&mut self) -> DiskFault
        ensures { HasDiskCause {T = Unit {0}} self.old.faults self.new.faults (Err result) }
    {
        self.faults = self.faults.saturating_add(1);
        DiskFault::Failed
    }

    /// The fault for a failed call of the system. It is counted.
    fn note(&mut self, error: io::Error) -> DiskFault
        ensures { HasDiskCause {T = Unit {0}} self.old.faults self.new.faults (Err result) }
    {
        if error.kind() == ErrorKind::OutOfMemory {
            return DiskFault::NoMemory;
        }
        self.failed()
    }
}

impl Disk for FileDisk {
    ghost contents = { λ _. [] };

    ghost may_leave = { λ _ _. ⊥ };

    ghost clock = { λ _. 0 };

    ghost left_since = { λ _ _ _. ⊥ };

    ghost honest = { λ _. ⊥ };

    ghost faults = { file_disk_faults };

    ghost among = { λ _ h. absurd h };

    ghost counts_now = { λ _ _ _ h _ _. absurd h };

    ghost only_now = { λ _ _ h _. absurd h };

    fn len(&mut self) -> Result<u64, DiskFault> {
        match self.file.metadata() {
            Ok(data) => Ok(data.len()),
            Err(e) => Err(self.note(e)),
        }
    }

    fn read(&mut self, at: u64, buf: &mut [u8]) -> Result<usize, DiskFault> {
        match self.file.read_at(buf, at) {
            Ok(0) => {
                if self.len()? > at {
                    return Err(self.failed());
                }
                Ok(0)
            }
            Ok(count) => Ok(count),
            Err(e) => Err(self.note(e)),
        }
    }

    fn write_at(&mut self, at: u64, bytes: &[u8]) -> Result<(), DiskFault> {
        match self.file.write_all_at(bytes, at) {
            Ok(()) => Ok(()),
            Err(e) => Err(self.note(e)),
        }
    }

    fn sync(&mut self) -> Result<(), DiskFault> {
        match self.file.sync_data() {
            Ok(()) => Ok(()),
            Err(e) => Err(self.note(e)),
        }
    }
}
