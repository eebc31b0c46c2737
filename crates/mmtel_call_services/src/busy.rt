//! How many calls keep each account busy.
ghost use Rattle.std.specs.Prelude.{◌≡◌, ◌+◌, ◌-◌, ℕ, OnErr, OnOk};
ghost use Rattle.mmtel_call_services.specs.Busy.{calls_of, live_of, one_of};

use mmtel_base::NoMemory;
use mmtel_types::Account;
use std::alloc::Global;
use std::collections::BTreeMap;
use std::marker::Model;

/// How many calls that are not over keep each account busy: one for each call that it makes, and one for each that is offered to it or that it answered.
#[derive(Drop)]
pub struct BusyCounts {
    counts: BTreeMap<u32, u64>,
}

impl Model for BusyCounts {
    ghost use Rattle.std.specs.Coded.{coded_ℕ};
    ghost use Rattle.std.specs.FinMap as map;
    ghost use Rattle.mmtel_call_services.specs.Busy.{BusyCountsView};

    ghost Value = { BusyCountsView };

    ghost coded = { map.code coded_ℕ coded_ℕ };

    ghost view = { λ b. map.from_entries b.counts.entries };
}

impl BusyCounts {
    /// No account is busy. It allocates nothing.
    pub fn new(alloc: Global) -> BusyCounts
        ensures none { (number : ℕ) → calls_of result number ≡ 0 }
    {
        BusyCounts {
            counts: BTreeMap::new(alloc),
        }
    }

    /// How many calls keep the account busy.
    fn calls(&self, account: Account) -> u64
        ensures { result ≡ calls_of self.now account.0 }
    {
        match self.counts.get(&account.0) {
            None => 0,
            Some(count) => *count,
        }
    }

    /// The same, limited to 32 bits.
    pub fn live(&self, account: Account) -> u32
        ensures exact { result ≡ live_of self.now account.0 }
    {
        let count = self.calls(account);
        if count > 0xffff_ffff {
            return u32::MAX;
        }
        count as u32
    }

    /// Adds one call that keeps the account busy.
    ///
    /// # Errors
    ///
    /// Out of memory only, for its entry or because the count is at its maximum; nothing has changed then.
    pub fn add_call(&mut self, account: Account) -> Result<(), NoMemory>
        ensures more { OnOk result ((number : ℕ) → calls_of self.new number ≡ calls_of self.old number + one_of account number) }
        ensures same { OnErr result (self.new ≡ self.old) }
    {
        let count = self.calls(account);
        if count == u64::MAX {
            return Err(NoMemory);
        }
        self.counts.insert(account.0, count + 1)?;
        Ok(())
    }

    /// Removes one call that keeps the account busy. It allocates nothing.
    pub fn remove_call(&mut self, account: Account)
        ensures less { (number : ℕ) → calls_of self.new number ≡ calls_of self.old number - one_of account number }
    {
        let count = self.calls(account);
        if count <= 1 {
            self.counts.remove(&account.0);
            return;
        }
        match self.counts.insert(account.0, count - 1) {
            Ok(_) => {}
            Err(_) => unreachable!(),
        }
    }
}
