//! A disk: what a read returns, and what a stop of the machine may leave.
ghost use Rattle.std.specs.Prelude.{◌≡◌, ◌≤◌, ◌<◌, ◌↔◌, List, ℕ, length, take, drop, IfOk, OnOk};
ghost use Rattle.mmtel_journal.specs.Disks.{Only, Leaves, Follows, Torn, Holds, Elapses};
ghost use Rattle.mmtel_journal.specs.Faults.{HasDiskCause};

use mmtel_base::NoMemory;
use std::alloc::AllocError;

/// Why a call of a disk failed.
#[derive(Clone, Copy, Debug, PartialEq, Eq)]
pub enum DiskFault {
    /// The disk failed. It was counted.
    Failed,
    /// Memory ran out. It was not counted.
    NoMemory,
}

/// A disk, with a count of faults.
pub trait Disk {
    /// What a read returns.
    ghost contents: { Self → List ℕ };

    /// What a stop now may leave.
    ghost may_leave: { Self → List ℕ → Type 0 };

    /// A clock: a number that never decreases.
    ghost clock: { Self → ℕ };

    /// What a stop at some moment since that clock might have left, during a call or between two.
    ghost left_since: { Self → ℕ → List ℕ → Type 0 };

    /// Whether it satisfies the clauses about its bytes.
    ghost honest: { Self → Type 0 };

    /// How many calls returned `Failed`. It never decreases, and remains at the greatest u64.
    ghost faults: { Self → ℕ };

    /// How many bytes there are.
    fn len(&mut self) -> Result<u64, DiskFault>
        ensures honest { honest self.old ↔ honest self.new }
        ensures reported { honest self.old → IfOk result (λ len. len ≡ length (contents self.old)) }
        ensures shown { honest self.old → contents self.new ≡ contents self.old }
        ensures stop { honest self.old → Leaves (may_leave self.new) (may_leave self.old) }
        ensures time { honest self.old
            → Elapses (clock self.old) (clock self.new) (left_since self.old) (left_since self.new)
            (may_leave self.new) }
        ensures cause { HasDiskCause (faults self.old) (faults self.new) result };

    /// Reads the bytes from a position on into the front of the buffer, any number of them, but at least one where there is one. Returns how many.
    fn read(&mut self, at: u64, buf: &mut [u8]) -> Result<usize, DiskFault>
        requires { 0 < length buf.old }
        ensures honest { honest self.old ↔ honest self.new }
        ensures within { IfOk result (λ count. count ≤ length buf.new) }
        ensures bytes { honest self.old
            → IfOk result (λ count. take count buf.new ≡ take count (drop at (contents self.old))) }
        ensures some { honest self.old → at < length (contents self.old) → IfOk result (λ count. 0 < count) }
        ensures shown { honest self.old → contents self.new ≡ contents self.old }
        ensures stop { honest self.old → Leaves (may_leave self.new) (may_leave self.old) }
        ensures time { honest self.old
            → Elapses (clock self.old) (clock self.new) (left_since self.old) (left_since self.new)
            (may_leave self.new) }
        ensures cause { HasDiskCause (faults self.old) (faults self.new) result };

    /// Overwrites what is there, and writes past the end. Until a sync, a stop may leave any bytes in the range and past the old end.
    ///
    /// # Errors
    ///
    /// `Failed` only where the count of faults rose in this call; `NoMemory` leaves the count unchanged. The same holds for every call.
    fn write_at(&mut self, at: u64, bytes: &[u8]) -> Result<(), DiskFault>
        ensures honest { honest self.old ↔ honest self.new }
        ensures written { honest self.old
            → OnOk result (at ≤ length (contents self.old) → Holds (contents self.old) at bytes.now (contents self.new)) }
        ensures stop { honest self.old
            → Follows (Torn at (length bytes.now)) (may_leave self.old) (may_leave self.new) }
        ensures time { honest self.old
            → Elapses (clock self.old) (clock self.new) (left_since self.old) (left_since self.new)
            (may_leave self.new) }
        ensures cause { HasDiskCause (faults self.old) (faults self.new) result };

    /// After it, a stop leaves what a read returns.
    fn sync(&mut self) -> Result<(), DiskFault>
        ensures honest { honest self.old ↔ honest self.new }
        ensures shown { honest self.old → OnOk result (contents self.new ≡ contents self.old) }
        ensures durable { honest self.old → OnOk result (Only (contents self.old) (may_leave self.new)) }
        ensures stop { honest self.old → Leaves (may_leave self.new) (may_leave self.old) }
        ensures time { honest self.old
            → Elapses (clock self.old) (clock self.new) (left_since self.old) (left_since self.new)
            (may_leave self.new) }
        ensures cause { HasDiskCause (faults self.old) (faults self.new) result };

    /// What a read returns is an image.
    ghost among: { (d : Self) → honest d → may_leave d (contents d) };

    /// What a stop may leave now is among what it might have left since an earlier moment.
    ghost counts_now: { (d : Self) (t : ℕ) (c : List ℕ) → honest d → t ≤ clock d → may_leave d c → left_since d t c };

    /// Since this moment a stop may have left only what it may leave now.
    ghost only_now: { (d : Self) (c : List ℕ) → honest d → left_since d (clock d) c → may_leave d c };
}

impl From<NoMemory> for DiskFault {
    ghost use Rattle.mmtel_journal.specs.declared.disks.DiskFault.TheVariants as fault;

    ghost from_gives = { λ _ e. e ≡ fault.NoMemory };

    fn from(_error: NoMemory) -> DiskFault {
        DiskFault::NoMemory
    }
}

impl From<AllocError> for DiskFault {
    ghost use Rattle.mmtel_journal.specs.declared.disks.DiskFault.TheVariants as fault;

    ghost from_gives = { λ _ e. e ≡ fault.NoMemory };

    fn from(_error: AllocError) -> DiskFault {
        DiskFault::NoMemory
    }
}
