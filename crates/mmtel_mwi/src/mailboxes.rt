//! The counts that were uploaded for each mailbox.
ghost use Rattle.std.specs.Prelude.{◌≡◌, OnErr, OnOk};
ghost use Rattle.std.specs.FinMap as finite;
ghost use Rattle.mmtel_mwi.specs.Boxes.{or_zero};

use crate::counts::Counts;
use mmtel_base::NoMemory;
use mmtel_types::Account;
use std::alloc::Global;
use std::collections::BTreeMap;
use std::marker::Model;

/// The counts of each mailbox for which some were uploaded, by account number.
#[derive(Drop)]
pub struct Mailboxes {
    kept: BTreeMap<u32, Counts>,
}

impl Model for Mailboxes {
    ghost use Rattle.std.specs.Coded.{coded_ℕ};
    ghost use Rattle.std.specs.FinMap as finite;
    ghost use Rattle.mmtel_mwi.specs.contracts.counts.Counts as row;
    ghost use Rattle.mmtel_mwi.specs.Boxes.{Mailboxes};

    ghost Value = { Mailboxes };

    ghost coded = { finite.code coded_ℕ row.the_row.coded };

    ghost view = { λ m. finite.from_entries m.kept.entries };
}

impl Mailboxes {
    /// Nothing was uploaded. It allocates nothing.
    pub fn new(alloc: Global) -> Mailboxes
        ensures { result ≡ finite.empty }
    {
        Mailboxes {
            kept: BTreeMap::new(alloc),
        }
    }

    /// Sets the counts of the mailbox of an account.
    ///
    /// # Errors
    ///
    /// Out of memory only; nothing has changed then.
    pub fn put(&mut self, account: Account, counts: Counts) -> Result<(), NoMemory>
        ensures put { OnOk result (self.new ≡ finite.insert self.old account.0 counts) }
        ensures refused { OnErr result (self.new ≡ self.old) }
    {
        self.kept.insert(account.0, counts)?;
        Ok(())
    }

    /// The counts that were uploaded last for it; no message waits where nothing was uploaded.
    pub fn counts(&self, account: Account) -> Counts
        ensures { result ≡ or_zero (finite.get self.now account.0) }
    {
        match self.kept.get(&account.0) {
            None => Counts::none(),
            Some(counts) => *counts,
        }
    }
}
