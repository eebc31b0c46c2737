//! Files by name.
ghost use Rattle.std.specs.Prelude.{ℕ, Option};
ghost use Rattle.mmtel_environment.specs.FileStore.{FileStore, ReadsIfExposed, HasFileCause};

use mmtel_base::Text;
use std::alloc::Global;

/// Why a read returned no text.
#[derive(Clone, Copy, Debug, PartialEq, Eq)]
pub enum FileFault {
    /// The file does not exist or could not be read. It was counted.
    Failed,
    /// Memory ran out. It was not counted.
    NoMemory,
}

/// Files by name, with their contents where these are known, and a count of faults.
pub trait Files {
    /// The names with their texts, the number of calls so far and the numbers of those that fail, where they are known.
    ghost contents: { Self → Option FileStore };

    /// How many calls returned `Failed`. It never decreases, and remains at the greatest u64.
    ghost faults: { Self → ℕ };

    /// The text of the file of that name.
    ///
    /// # Errors
    ///
    /// `Failed` only where the count of faults rose in this call; `NoMemory` leaves the count unchanged.
    fn read(&mut self, alloc: Global, name: &[u8]) -> Result<Text, FileFault>
        ensures text { ReadsIfExposed (contents self.old) (contents self.new) name.now result }
        ensures cause { HasFileCause (faults self.old) (faults self.new) result };
}
