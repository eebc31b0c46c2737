//! The system's files and standard output: the boundary, of whose contents no clause says anything.
ghost use Rattle.std.specs.Prelude.{◌≡◌, None};
ghost use Rattle.mmtel_environment.specs.Disk.{file_faults, sink_faults};

use crate::files::{FileFault, Files};
use crate::sinks::Sink;
use mmtel_base::Text;
use mmtel_types::Failed;
use std::alloc::Global;
use std::fs::File;
use std::io;
use std::io::{ErrorKind, Read, Write};

/// The longest file that is read, in bytes.
const LONGEST: u64 = 67_108_864;

/// The system's files, by their paths in UTF-8. A file over 67,108,864 bytes is a fault.
#[derive(Drop)]
pub struct DiskFiles<'a> {
    rt: &'a HostRuntime,
    faults: u64,
}

impl<'a> DiskFiles<'a> {
    /// The system's files, with a count of zero faults.
    pub fn new(rt: &'a HostRuntime) -> DiskFiles<'a>
        ensures fresh { file_faults result ≡ 0 }
    {
        DiskFiles { rt, faults: 0 }
    }

    /// The bytes of a file.
    fn read_file(&self, alloc: Global, name: &[u8]) -> io::Result<Vec<u8>> {
        let Ok(path) = str::from_utf8(name) else {
            return Err(io::Error::from(ErrorKind::InvalidInput));
        };
        let file = File::open(self.rt, path)?;
        let mut bytes = Vec::new(alloc);
        file.take(LONGEST + 1).read_to_end(&mut bytes)?;
        if bytes.len() as u64 > LONGEST {
            return Err(io::Error::from(ErrorKind::FileTooLarge));
        }
        Ok(bytes)
    }

    /// The text of a file.
    fn read_text(&self, alloc: Global, name: &[u8]) -> io::Result<Text> {
        let bytes = self.read_file(alloc, name)?;
        match Text::of(alloc, bytes.as_slice()) {
            Ok(text) => Ok(text),
            Err(_) => Err(io::Error::from(ErrorKind::OutOfMemory)),
        }
    }
}

impl Files for DiskFiles<'_> {
    ghost contents = { λ _. None };

    ghost faults = { file_faults };

    fn read(&mut self, alloc: Global, name: &[u8]) -> Result<Text, FileFault> {
        match self.read_text(alloc, name) {
            Ok(text) => Ok(text),
            Err(e) => {
                if e.kind() == ErrorKind::OutOfMemory {
                    return Err(FileFault::NoMemory);
                }
                self.faults = self.faults.saturating_add(1);
                Err(FileFault::Failed)
            }
        }
    }
}

/// The standard output, written unbuffered.
#[derive(Drop)]
pub struct OutSink<'a> {
    rt: &'a HostRuntime,
    faults: u64,
}

impl<'a> OutSink<'a> {
    /// The standard output of this program, with a count of zero faults.
    pub fn new(rt: &'a HostRuntime) -> OutSink<'a>
        ensures fresh { sink_faults result ≡ 0 }
    {
        OutSink { rt, faults: 0 }
    }
}

impl Sink for OutSink<'_> {
    ghost written = { λ _. None };

    ghost faults = { sink_faults };

    fn write(&mut self, bytes: &[u8]) -> Result<usize, Failed> {
        if bytes.is_empty() {
            return Ok(0);
        }
        match io::writer(self.rt).write(bytes) {
            Ok(count) if count > 0 => Ok(count),
            _ => {
                self.faults = self.faults.saturating_add(1);
                Err(Failed)
            }
        }
    }
}
