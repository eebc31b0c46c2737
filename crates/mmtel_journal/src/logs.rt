//! The end of a journal on a disk: the gate that ends it, and writing after it.
ghost use Rattle.std.specs.Prelude.{◌≡◌, ◌<◌, ◌++◌, ◌∷◌, [], ◌↔◌, List, ℕ, length, true, false, Some, None, OnOk, OnErr};
ghost use Rattle.mmtel_journal.specs.Disks.{LeavesOnly};
ghost use Rattle.mmtel_journal.specs.Faults.{HasDiskCause};
ghost use Rattle.mmtel_journal.specs.JournalCalls.{IsJournalCall};
ghost use Rattle.mmtel_journal.specs.Journal.{IsJournalOrMore};
ghost use Rattle.mmtel_journal.specs.Logs.{LogRepresents, body_bytes};

use crate::appends::{set_gate, stage};
use crate::disks::{Disk, DiskFault};

/// The end of a journal on a disk.
#[derive(Drop)]
pub struct Log<D: Disk> {
    pub disk: D,
    /// The position of the gate that ends the journal.
    pub gate: u64,
    /// Whether the gate may be open: a record that was refused is after it.
    pub pending: bool,
}

impl<D: Disk> Log<D> {
    /// Closes the gate, where it may be open.
    pub fn settle(&mut self) -> Result<(), DiskFault>
        ensures cause { HasDiskCause (D.faults self.old.disk) (D.faults self.new.disk) result }
        ensures honest { D.honest self.old.disk ↔ D.honest self.new.disk }
        ensures closed { OnOk result (self.new.pending ≡ false) }
        ensures ok { (payloads others : List (List ℕ)) → D.honest self.old.disk
            → LogRepresents D.may_leave payloads others self.old
            → OnOk result (LogRepresents D.may_leave payloads [] self.new) }
        ensures err { (payloads others : List (List ℕ)) → D.honest self.old.disk
            → LogRepresents D.may_leave payloads others self.old
            → OnErr result (LogRepresents D.may_leave payloads others self.new) }
        ensures any_moment { (payloads others : List (List ℕ)) → D.honest self.old.disk
            → LogRepresents D.may_leave payloads others self.old
            → LeavesOnly D.clock D.left_since self.old.disk self.new.disk (IsJournalOrMore payloads others) }
    {
        if self.pending {
            set_gate(&mut self.disk, self.gate, 0)?;
            self.pending = false;
            return Ok(());
        }
        Ok(())
    }

    /// Writes a record after a gate that is closed.
    fn append(&mut self, body: &[u8]) -> Result<(), DiskFault>
        requires { 0 < length body.now }
        ensures cause { HasDiskCause (D.faults self.old.disk) (D.faults self.new.disk) result }
        ensures honest { D.honest self.old.disk ↔ D.honest self.new.disk }
        ensures ok { (payloads : List (List ℕ)) (more : List ℕ) → D.honest self.old.disk → self.old.pending ≡ false
            → body.now ≡ body_bytes more
            → LogRepresents D.may_leave payloads [] self.old
            → OnOk result (LogRepresents D.may_leave (payloads ++ more ∷ []) [] self.new) }
        ensures err { (payloads : List (List ℕ)) (more : List ℕ) → D.honest self.old.disk → self.old.pending ≡ false
            → body.now ≡ body_bytes more
            → LogRepresents D.may_leave payloads [] self.old
            → OnErr result (LogRepresents D.may_leave payloads (more ∷ []) self.new) }
        ensures any_moment { (payloads : List (List ℕ)) (more : List ℕ) → D.honest self.old.disk
            → self.old.pending ≡ false → body.now ≡ body_bytes more
            → LogRepresents D.may_leave payloads [] self.old
            → LeavesOnly D.clock D.left_since self.old.disk self.new.disk (IsJournalOrMore payloads (more ∷ [])) }
    {
        let len = body.len() as u64;
        if len > u64::MAX - self.gate {
            return Err(DiskFault::NoMemory);
        }
        let next = self.gate + len;
        stage(&mut self.disk, self.gate, body)?;
        self.pending = true;
        set_gate(&mut self.disk, self.gate, 1)?;
        self.pending = false;
        self.gate = next;
        Ok(())
    }

    /// Adds a record, of which the length, payload and next gate are passed.
    pub fn write(&mut self, body: &[u8]) -> Result<(), DiskFault>
        requires { 0 < length body.now }
        ensures cause { HasDiskCause (D.faults self.old.disk) (D.faults self.new.disk) result }
        ensures honest { D.honest self.old.disk ↔ D.honest self.new.disk }
        ensures ok { (payloads others : List (List ℕ)) (more : List ℕ) → D.honest self.old.disk
            → body.now ≡ body_bytes more → LogRepresents D.may_leave payloads others self.old
            → OnOk result (LogRepresents D.may_leave (payloads ++ more ∷ []) [] self.new) }
        ensures err { (payloads others : List (List ℕ)) (more : List ℕ) → D.honest self.old.disk
            → body.now ≡ body_bytes more → LogRepresents D.may_leave payloads others self.old
            → OnErr result (LogRepresents D.may_leave payloads (others ++ more ∷ []) self.new) }
        ensures any_moment { (payloads others : List (List ℕ)) (more : List ℕ) → D.honest self.old.disk
            → body.now ≡ body_bytes more → LogRepresents D.may_leave payloads others self.old
            → LeavesOnly D.clock D.left_since self.old.disk self.new.disk
            (IsJournalOrMore payloads (others ++ more ∷ [])) }
    {
        self.settle()?;
        self.append(body)?;
        Ok(())
    }

    /// A call that adds a record.
    pub fn add(&mut self, body: &[u8]) -> Result<(), DiskFault>
        requires { 0 < length body.now }
        ensures cause { HasDiskCause (D.faults self.old.disk) (D.faults self.new.disk) result }
        ensures done { (more : List ℕ) → body.now ≡ body_bytes more
            → OnOk result (IsJournalCall D.honest D.may_leave D.clock D.left_since self.old
            (record { payload = Some more; ok = true }) self.new) }
        ensures refused { (more : List ℕ) → body.now ≡ body_bytes more
            → OnErr result (IsJournalCall D.honest D.may_leave D.clock D.left_since self.old
            (record { payload = Some more; ok = false }) self.new) }
    {
        self.write(body)
    }

    /// A call that adds none.
    pub fn add_nothing(&mut self) -> Result<(), DiskFault>
        ensures cause { HasDiskCause (D.faults self.old.disk) (D.faults self.new.disk) result }
        ensures done { OnOk result
            (IsJournalCall D.honest D.may_leave D.clock D.left_since self.old (record { payload = None; ok = true })
            self.new) }
        ensures refused { OnErr result
            (IsJournalCall D.honest D.may_leave D.clock D.left_since self.old (record { payload = None; ok = false })
            self.new) }
    {
        self.settle()
    }
}
