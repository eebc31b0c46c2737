//! Writing after a gate, and writing a gate.
ghost use Rattle.std.specs.Prelude.{◌≡◌, ◌<◌, ◌+◌, ◌^◌, ◌↔◌, List, ℕ, [], length, OnOk, OnErr};
ghost use Rattle.mmtel_journal.specs.Disks.{Leaves, LeavesOnly};
ghost use Rattle.mmtel_journal.specs.Faults.{HasDiskCause};
ghost use Rattle.mmtel_journal.specs.Journal.{IsJournal};
ghost use Rattle.mmtel_journal.specs.Gates.{Closed, Gated, Staged};

use crate::disks::{Disk, DiskFault};

/// Writes after a gate that is not open, and syncs.
pub fn stage<D: Disk>(disk: &mut D, gate: u64, body: &[u8]) -> Result<(), DiskFault>
    requires { gate + 1 < 2 ^ 64 }
    ensures cause { HasDiskCause (D.faults disk.old) (D.faults disk.new) result }
    ensures honest { D.honest disk.old ↔ D.honest disk.new }
    ensures ok { (front : List ℕ) → D.honest disk.old → gate ≡ length front
        → Leaves (D.may_leave disk.old) (Closed front)
        → OnOk result (Leaves (D.may_leave disk.new) (Staged front body.now)) }
    ensures err { (front : List ℕ) → D.honest disk.old → gate ≡ length front
        → Leaves (D.may_leave disk.old) (Closed front)
        → OnErr result (Leaves (D.may_leave disk.new) (Closed front)) }
    ensures any_moment { (front : List ℕ) → D.honest disk.old → gate ≡ length front
        → Leaves (D.may_leave disk.old) (Closed front)
        → LeavesOnly D.clock D.left_since disk.old disk.new (Closed front) }
{
    disk.write_at(gate + 1, body)?;
    disk.sync()?;
    Ok(())
}

/// Writes a gate, and syncs.
pub fn set_gate<D: Disk>(disk: &mut D, gate: u64, value: u8) -> Result<(), DiskFault>
    ensures cause { HasDiskCause (D.faults disk.old) (D.faults disk.new) result }
    ensures honest { D.honest disk.old ↔ D.honest disk.new }
    ensures ok { (front body : List ℕ) → D.honest disk.old → gate ≡ length front
        → Leaves (D.may_leave disk.old) (Staged front body)
        → OnOk result (Leaves (D.may_leave disk.new) (Gated front value body)) }
    ensures err { (front body : List ℕ) → D.honest disk.old → gate ≡ length front
        → Leaves (D.may_leave disk.old) (Staged front body)
        → OnErr result (Leaves (D.may_leave disk.new) (Staged front body)) }
    ensures any_moment { (front body : List ℕ) → D.honest disk.old → gate ≡ length front
        → Leaves (D.may_leave disk.old) (Staged front body)
        → LeavesOnly D.clock D.left_since disk.old disk.new (Staged front body) }
{
    disk.write_at(gate, &[value])?;
    disk.sync()?;
    Ok(())
}

/// Writes the gate of a journal of no records on an empty disk, and syncs.
pub fn start<D: Disk>(disk: &mut D) -> Result<(), DiskFault>
    ensures cause { HasDiskCause (D.faults disk.old) (D.faults disk.new) result }
    ensures honest { D.honest disk.old ↔ D.honest disk.new }
    ensures made { D.honest disk.old → D.contents disk.old ≡ []
        → OnOk result (Leaves (D.may_leave disk.new) (IsJournal [])) }
{
    disk.write_at(0, &[0])?;
    disk.sync()?;
    Ok(())
}
