//! Files in memory.
ghost use Rattle.std.specs.Prelude.{◌≡◌, Some};
ghost use Rattle.std.specs.Option.{option_copied};
ghost use Rattle.mmtel_environment.specs.Memory.{MemoryFilesView};
ghost use Rattle.mmtel_environment.specs.FileStore.{text_at, next_read, Reads};

use crate::failing::fails_by_number;
use crate::files::{FileFault, Files};
use mmtel_base::{List, Text};
use std::alloc::Global;
use std::marker::Model;

/// Files in memory, whose calls of given numbers fail.
#[derive(Drop)]
pub struct MemoryFiles {
    files: List<(Text, Text)>,
    failing: List<u64>,
    calls: u64,
    faults: u64,
}

impl Model for MemoryFiles {
    ghost use Rattle.mmtel_environment.specs.Memory.{MemoryFilesView};

    ghost Value = { MemoryFilesView };

    ghost view = { λ m. record {
      store = record { texts = m.files; failing = m.failing; calls = m.calls };
      faults = m.faults;
    } };
}

/// The text of the first file of that name.
fn find<'a>(files: &'a [(Text, Text)], name: &[u8]) -> Option<&'a [u8]>
    ensures found { option_copied result ≡ text_at files.now name.now }
{
    for (given, text) in files {
        if given.bytes() == name {
            return Some(text.bytes());
        }
    }
    None
}

impl MemoryFiles {
    /// Files of these names and texts. The calls whose numbers, counted from 1, are in `failing` fail, and so does each call with a name that does not exist.
    pub fn new(files: List<(Text, Text)>, failing: List<u64>) -> MemoryFiles
        ensures fresh { result ≡ record {
          store = record { texts = files; failing = failing; calls = 0 };
          faults = 0;
        } }
    {
        MemoryFiles {
            files,
            failing,
            calls: 0,
            faults: 0,
        }
    }

    /// The result of the next call for that name: its text, or nothing where it fails.
    fn next_read(&self, name: &[u8]) -> Option<&[u8]>
        ensures answered { option_copied result ≡ next_read self.now.store name.now }
    {
        if fails_by_number(self.failing.items(), self.calls) {
            None
        } else {
            find(self.files.items(), name)
        }
    }

    /// A copy of the result of the next call.
    fn read_next(&self, alloc: Global, name: &[u8]) -> Result<Text, FileFault>
        ensures reads { Reads self.now.store name.now result }
    {
        match self.next_read(name) {
            None => Err(FileFault::Failed),
            Some(text) => match Text::of(alloc, text) {
                Ok(text) => Ok(text),
                Err(_) => Err(FileFault::NoMemory),
            },
        }
    }
}

impl Files for MemoryFiles {
    ghost contents = { λ m. Some m.store };

    ghost faults = { λ m. m.faults };

    fn read(&mut self, alloc: Global, name: &[u8]) -> Result<Text, FileFault> {
        let result = self.read_next(alloc, name);
        self.calls = self.calls.saturating_add(1);
        if let Err(FileFault::Failed) = &result {
            self.faults = self.faults.saturating_add(1);
        }
        result
    }
}
