//! A keeper over a journal on a disk in memory: the length of the journal, what a stop leaves of it, and where one is broken.

use crate::keeping::{add_contents, add_record, add_rows};
use mmtel_base::List;
use mmtel_journal::{Disk, JournalFault, JournalKeeper, MemoryDisk, make};
use mmtel_test_tables::{RowRunner, Transcript, wrong_line};
use std::alloc::Global;

fn add_fault(transcript: &mut Transcript, fault: JournalFault) {
    match fault {
        JournalFault::Failed => transcript.add(b"failed"),
        JournalFault::NotEmpty { len } => {
            transcript.add(b"not empty");
            transcript.add_spaced_number(len);
        }
        JournalFault::Broken { at } => {
            transcript.add(b"broken");
            transcript.add_spaced_number(at);
        }
        JournalFault::NoMemory => transcript.fail(),
    }
}

/// Opens a disk, and writes the contents.
fn add_opened(transcript: &mut Transcript, disk: MemoryDisk) {
    match JournalKeeper::open(transcript.alloc, disk) {
        Ok(mut keeper) => {
            add_contents(transcript, &mut keeper);
            drop(keeper);
        }
        Err((disk, fault)) => {
            drop(disk);
            add_fault(transcript, fault);
        }
    }
}

/// Writes the byte at a place.
fn add_byte(transcript: &mut Transcript, disk: &mut MemoryDisk, at: u64) {
    let mut buf = [0; 1];
    match disk.read(at, &mut buf) {
        Ok(1) => transcript.add_number(u64::from(buf[0])),
        _ => transcript.fail(),
    }
}

/// A keeper over a journal whose calls a table makes.
#[derive(Drop)]
struct KeeperRows {
    keeper: JournalKeeper<MemoryDisk>,
}

impl KeeperRows {
    /// The disk as a stop directly after all calls but so many leaves it.
    fn stopped(&self, transcript: &mut Transcript, but: u64) -> Option<MemoryDisk> {
        let calls = self.keeper.disk().calls();
        if but > calls {
            transcript.fail();
            return None;
        }
        transcript.value_or_fail(self.keeper.disk().stopped(calls - but))
    }

    /// Writes the length of the journal, and whether another can be created over it.
    fn add_long(&self, transcript: &mut Transcript) {
        if let Some(mut disk) = self.stopped(transcript, 0) {
            match make(&mut disk) {
                Ok(()) => transcript.add(b"made"),
                Err(fault) => add_fault(transcript, fault),
            }
            drop(disk);
        }
    }

    /// Writes the first byte and the last.
    fn add_gates(&self, transcript: &mut Transcript) {
        if let Some(mut disk) = self.stopped(transcript, 0) {
            if let Ok(len @ 1..) = disk.len() {
                add_byte(transcript, &mut disk, 0);
                add_byte(transcript, &mut disk, len - 1);
            } else {
                transcript.fail();
            }
            drop(disk);
        }
    }
}

/// Writes what a stop directly after all calls but so many leaves.
fn add_stopped(transcript: &mut Transcript, kept: &KeeperRows, but: u64) {
    if let Some(disk) = kept.stopped(transcript, but) {
        add_opened(transcript, disk);
    }
}

impl RowRunner for KeeperRows {
    fn run_row(&mut self, transcript: &mut Transcript, asked: &[u8]) {
        match asked {
            [b's', account] => add_record(transcript, &mut self.keeper, *account),
            [b'a', digits @ ..] => add_rows(transcript, &mut self.keeper, digits),
            [b'o', but] => add_stopped(transcript, self, u64::from(but.saturating_sub(b'0'))),
            [b'h', ..] => add_contents(transcript, &mut self.keeper),
            [b'g', ..] => self.add_gates(transcript),
            _ => self.add_long(transcript),
        }
        transcript.add(b"\n");
    }
}

/// `s` stores the record for the account of a digit, `a` adds the rows of two digits, `l` creates a journal over what is there, which reports its length, `g` writes its first byte
/// and its last, `o` opens what a stop leaves directly after all calls but so many, `h` writes the contents.
const KEEPING: &[u8] = b"> l
not empty 1
> s2
ok
> l
not empty 69
> g
10
> a12
ok
> l
not empty 177
> o4
2:38.
> o2
2:38.
> o0
2:38.12
> h
2:38.12
";

/// The third call of the disk fails in `a12`: nothing of it is in the contents, and the gate is closed again.
const FAILING: &[u8] = b"> s2
ok
> a12
failed
> h
2:38.
> o0
2:38.
> a34
ok
> o0
2:38.34
";

/// And so does the first in `s3`: a stop leaves no record of the account 3.
const FAILING_TWICE: &[u8] = b"> s2
ok
> a12
failed
> s3
failed
> o0
2:38.
> s3
ok
> o0
2:38.3:38.
";

/// A keeper over a journal that is created on a disk whose calls of these numbers fail: three are made by `make`, two by `open`.
fn kept_on(transcript: &mut Transcript, failing: &[u64]) -> Option<KeeperRows> {
    let mut numbers = List::new();
    for number in failing {
        let done = numbers.push(transcript.alloc, *number);
        transcript.fail_unless(done.is_ok());
    }
    let mut disk = MemoryDisk::new(transcript.alloc, numbers);
    let made = make(&mut disk);
    transcript.fail_unless(made.is_ok());
    let opened = JournalKeeper::open(transcript.alloc, disk);
    let keeper = transcript.value_or_fail(opened)?;
    Some(KeeperRows { keeper })
}

/// The first line of the table that is wrong.
fn wrong_kept(alloc: Global, failing: &[u64], table: &[u8]) -> usize {
    let mut transcript = Transcript::new(alloc);
    let Some(mut kept) = kept_on(&mut transcript, failing) else {
        drop(transcript);
        return 1;
    };
    let wrong = wrong_line(alloc, &mut kept, table);
    drop(kept);
    let failed = transcript.has_failed();
    drop(transcript);
    if failed { 1 } else { wrong }
}

/// Whether a disk of these bytes is broken at 0.
fn is_broken(alloc: Global, bytes: &[u8]) -> bool {
    let mut disk = MemoryDisk::new(alloc, List::new());
    if disk.write_at(0, bytes).is_err() {
        drop(disk);
        return false;
    }
    match JournalKeeper::open(alloc, disk) {
        Ok(keeper) => {
            drop(keeper);
            false
        }
        Err((disk, fault)) => {
            drop(disk);
            fault == JournalFault::Broken { at: 0 }
        }
    }
}

#[test]
fn journals_in_memory(rt: HostRuntime) {
    let alloc = rt.alloc();
    assert_eq!(rt; wrong_kept(alloc, &[], KEEPING), 0);
    assert_eq!(rt; wrong_kept(alloc, &[12], FAILING), 0);
    assert_eq!(rt; wrong_kept(alloc, &[12, 13], FAILING_TWICE), 0);
    assert!(rt; is_broken(alloc, &[1, 0, 0, 0, 0, 0, 0, 0, 1, 9]));
    assert!(rt; is_broken(alloc, &[]));
}
