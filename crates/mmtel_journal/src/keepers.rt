//! A keeper over a journal.
ghost use Rattle.std.specs.Prelude.{◌≡◌, ◌∷◌, [], true, false, Some, None, OnOk, OnErr, Option, List, ℕ};
ghost use Rattle.mmtel_keeper.specs.Contents.{IsCountedCall as IsCounted, Becomes, ReturnsPart, with_sheet, with_rows};
ghost use Rattle.mmtel_keeper.specs.Causes.{HasKeepCause};
ghost use Rattle.mmtel_keeper.specs.Migration.{Migrates};
ghost use Rattle.mmtel_journal.specs.Keepers.{contents_of};
ghost use Rattle.mmtel_journal.specs.KeeperCalls.{IsKeeperCall, IsNoneOr};
ghost use Rattle.mmtel_journal.specs.Payloads.{payload_of_sheets, payload_of_rows};

use crate::disks::{Disk, DiskFault};
use crate::growing::{add_reserved, copy_rows, copy_sheets, grow_rows, grow_sheets};
use crate::logs::Log;
use crate::migration::{put_all, replaced_body, replacements};
use mmtel_base::{List, Text};
use mmtel_charging::Row;
use mmtel_keeper::{KeepFault, Keeper};
use mmtel_sheet_texts::SheetTexts;
use mmtel_types::Account;
use std::alloc::Global;

/// A keeper over a journal on a disk.
///
/// It holds the contents of the journal in memory. These are known in contracts, its path and its calls are not; its count of faults is that of its disk.
#[derive(Drop)]
pub struct JournalKeeper<D: Disk> {
    pub(crate) log: Log<D>,
    pub(crate) sheets: SheetTexts,
    pub(crate) rows: Vec<Row>,
}

impl From<DiskFault> for KeepFault {
    ghost use Rattle.mmtel_journal.specs.Faults.{fault_of};

    ghost from_gives = { λ d e. e ≡ fault_of d };

    fn from(fault: DiskFault) -> KeepFault {
        match fault {
            DiskFault::Failed => KeepFault::Failed,
            DiskFault::NoMemory => KeepFault::NoMemory,
        }
    }
}

impl<D: Disk> Keeper for JournalKeeper<D> {
    ghost contents = { λ k. Some (contents_of k) };

    ghost calls = { λ _. None };

    ghost faults = { λ k. D.faults k.log.disk };

    fn bind(&mut self, _alloc: Global, _path: &[u8]) -> Result<(), KeepFault> {
        Ok(())
    }

    fn migrate(&mut self, alloc: Global) -> Result<u64, KeepFault>
        ensures migrated { Migrates (Some (contents_of self.old)) (Some (contents_of self.new)) result }
        ensures calls { IsCounted None None result }
        ensures cause { HasKeepCause (D.faults self.old.log.disk) (D.faults self.new.log.disk) result }
        ensures done { OnOk result
            ((payload : Option (List ℕ))
            × IsKeeperCall D.honest D.may_leave D.clock D.left_since self.old (record { payload = payload; ok = true })
            self.new) }
        ensures refused { OnErr result
            ((payload : Option (List ℕ)) × IsKeeperCall D.honest D.may_leave D.clock D.left_since self.old (record { payload = payload; ok = false }) self.new) }
    {
        let found = replacements(alloc, self.sheets.items())?;
        let count = found.items().len();
        if count == 0 {
            self.log.add_nothing()?;
            return Ok(0);
        }
        let body = replaced_body(alloc, found.items())?;
        self.log.add(body.as_slice())?;
        put_all(&mut self.sheets, found);
        Ok(count as u64)
    }

    fn load(&mut self, alloc: Global) -> Result<List<(Account, Text)>, KeepFault>
        ensures same { Some (contents_of self.new) ≡ Some (contents_of self.old) }
        ensures reported { ReturnsPart (Some (contents_of self.old)) (λ h. h.sheets) result }
        ensures calls { IsCounted None None result }
        ensures cause { HasKeepCause (D.faults self.old.log.disk) (D.faults self.new.log.disk) result }
        ensures done { OnOk result
            (IsKeeperCall D.honest D.may_leave D.clock D.left_since self.old (record { payload = None; ok = true })
            self.new) }
        ensures refused { OnErr result
            (IsKeeperCall D.honest D.may_leave D.clock D.left_since self.old (record { payload = None; ok = false })
            self.new) }
    {
        let sheets = copy_sheets(alloc, self.sheets.items())?;
        self.log.add_nothing()?;
        Ok(sheets)
    }

    fn store(&mut self, alloc: Global, account: Account, text: &[u8]) -> Result<(), KeepFault>
        ensures changed { Becomes (Some (contents_of self.old)) (Some (contents_of self.new)) (with_sheet account text.now)
            result }
        ensures calls { IsCounted None None result }
        ensures cause { HasKeepCause (D.faults self.old.log.disk) (D.faults self.new.log.disk) result }
        ensures done { OnOk result
            (IsKeeperCall D.honest D.may_leave D.clock D.left_since self.old (record { payload = Some (payload_of_sheets ((account, text.now) ∷ [])); ok = true }) self.new) }
        ensures refused { OnErr result
            ((tried : Option (List ℕ)) × IsNoneOr (payload_of_sheets ((account, text.now) ∷ [])) tried × IsKeeperCall D.honest D.may_leave D.clock D.left_since self.old
            (record { payload = tried; ok = false }) self.new) }
    {
        let (kept, body) = grow_sheets(alloc, &mut self.sheets, account, text)?;
        self.log.add(body.as_slice())?;
        self.sheets.replace(account, kept);
        Ok(())
    }

    fn add_rows(&mut self, alloc: Global, rows: &[Row]) -> Result<(), KeepFault>
        ensures changed { Becomes (Some (contents_of self.old)) (Some (contents_of self.new)) (with_rows rows.now) result }
        ensures calls { IsCounted None None result }
        ensures cause { HasKeepCause (D.faults self.old.log.disk) (D.faults self.new.log.disk) result }
        ensures done { OnOk result
            (IsKeeperCall D.honest D.may_leave D.clock D.left_since self.old
            (record { payload = Some (payload_of_rows rows.now); ok = true }) self.new) }
        ensures refused { OnErr result
            ((tried : Option (List ℕ)) × IsNoneOr (payload_of_rows rows.now) tried × IsKeeperCall D.honest D.may_leave D.clock D.left_since self.old
            (record { payload = tried; ok = false }) self.new) }
    {
        let body = grow_rows(alloc, &mut self.rows, rows)?;
        self.log.add(body.as_slice())?;
        add_reserved(&mut self.rows, rows);
        Ok(())
    }

    fn rows(&mut self, alloc: Global) -> Result<List<Row>, KeepFault>
        ensures same { Some (contents_of self.new) ≡ Some (contents_of self.old) }
        ensures reported { ReturnsPart (Some (contents_of self.old)) (λ h. h.rows) result }
        ensures calls { IsCounted None None result }
        ensures cause { HasKeepCause (D.faults self.old.log.disk) (D.faults self.new.log.disk) result }
        ensures done { OnOk result
            (IsKeeperCall D.honest D.may_leave D.clock D.left_since self.old (record { payload = None; ok = true })
            self.new) }
        ensures refused { OnErr result
            (IsKeeperCall D.honest D.may_leave D.clock D.left_since self.old (record { payload = None; ok = false })
            self.new) }
    {
        let rows = copy_rows(alloc, self.rows.as_slice())?;
        self.log.add_nothing()?;
        Ok(rows)
    }
}
