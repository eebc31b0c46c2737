//! The sheets that are in force, and the registrations.
ghost use Rattle.std.specs.Prelude.{◌≡◌, None, OnOk, OnErr, IfOk, IfSome, IsOk, IsTrue};
ghost use Rattle.std.specs.Option.{option_copied};
ghost use Rattle.mmtel_sheet_values.specs.View.{no_sheets, sheet_in, registration_end_in, has_space, with_sheet, with_space, with_registration_end, is_registered};

use crate::shared::SharedSheet;
use crate::values::Sheet;
use mmtel_lex::NoMemory;
use mmtel_types::{Account, Moment};
use std::alloc::Global;
use std::collections::BTreeMap;
use std::marker::Model;

/// The sheet of each account that has one, the accounts for whose sheet there is reserved space, and the moment at which each registration ends that has an end.
#[derive(Drop)]
pub struct SheetView {
    alloc: Global,
    slots: BTreeMap<u32, Option<SharedSheet>>,
    registration_ends: BTreeMap<u32, Moment>,
}

impl Model for SheetView {
    ghost use Rattle.std.specs.Prelude.{ℕ, refl};
    ghost use Rattle.std.specs.Coded.{code_by, coded×, coded_ℕ};
    ghost use Rattle.std.specs.Ordering.{nat_cmp};
    ghost use Rattle.std.specs.FinMap as map;
    ghost use Rattle.std.specs.FinSet as set;
    ghost use Rattle.mmtel_sheet_values.specs.contracts.values.Sheet as row;
    ghost use Rattle.mmtel_sheet_values.specs.declared.values.Sheet.{Sheet};
    ghost use Rattle.mmtel_sheet_values.specs.Slots.{sheets_of, accounts_of};
    ghost use Rattle.mmtel_sheet_values.specs.View.{SheetsInForce};

    ghost Value = { SheetsInForce };

    ghost coded = { code_by (map.FinMap nat_cmp Sheet × (set.FinSet nat_cmp × map.FinMap nat_cmp ℕ))
        (coded× (map.code coded_ℕ row.the_row.coded) (coded× (set.code coded_ℕ) (map.code coded_ℕ coded_ℕ))) (λ v. (v.sheets, (v.space, v.registration_ends)))
        (λ p. record { sheets = p.0; space = p.1.0; registration_ends = p.1.1 }) (λ _. refl) };

    ghost view = { λ v. record { sheets = sheets_of v.slots.entries; space = accounts_of v.slots.entries; registration_ends = map.from_entries v.registration_ends.entries } };
}

impl SheetView {
    /// The view in which no account has a sheet, and each is registered. It allocates nothing.
    pub fn new(alloc: Global) -> SheetView
        ensures empty { result ≡ no_sheets }
    {
        SheetView {
            alloc,
            slots: BTreeMap::new(alloc),
            registration_ends: BTreeMap::new(alloc),
        }
    }

    /// Puts a sheet in place of the account's previous one.
    ///
    /// # Errors
    ///
    /// Out of memory only; the view is then as before. Where a sheet has to be put without fail, `reserve` reserves space and `replace` puts it.
    pub fn put(&mut self, account: Account, new_sheet: Sheet) -> Result<(), NoMemory>
        ensures ok { OnOk result (self.new ≡ with_sheet self.old account.0 new_sheet) }
        ensures err { OnErr result (self.new ≡ self.old) }
    {
        let sheet = SharedSheet::new(self.alloc, new_sheet)?;
        drop(self.slots.insert(account.0, Some(sheet))?);
        Ok(())
    }

    /// Reserves space for a sheet of the account, so that a `replace` allocates nothing. No account's sheet changes, and no registration.
    ///
    /// # Errors
    ///
    /// Out of memory only; the view is then as before.
    pub fn reserve(&mut self, account: Account) -> Result<(), NoMemory>
        ensures ok { OnOk result (self.new ≡ with_space self.old account.0) }
        ensures capacity { OnOk result (IsTrue (has_space self.new account.0)) }
        ensures err { OnErr result (self.new ≡ self.old) }
    {
        if self.slots.contains_key(&account.0) {
            return Ok(());
        }
        drop(self.slots.insert(account.0, None)?);
        Ok(())
    }

    /// Puts a sheet in place of the account's previous one, and returns that. It allocates nothing: `reserve` reserved space, or the account has a sheet.
    pub fn replace(&mut self, account: Account, sheet: SharedSheet) -> Option<SharedSheet>
        requires { IsTrue (has_space self.old account.0) }
        ensures put { self.new ≡ with_sheet self.old account.0 sheet }
        ensures before { result ≡ sheet_in self.old account.0 }
    {
        match self.slots.insert(account.0, Some(sheet)) {
            Ok(before) => before.flatten(),
            Err(_) => unreachable!(),
        }
    }

    /// What is in the account's entry.
    fn slot(&self, account: Account) -> Option<&SharedSheet>
        ensures its { option_copied result ≡ sheet_in self.now account.0 }
        ensures capacity { IfSome result (λ _. IsTrue (has_space self.now account.0)) }
    {
        match self.slots.get(&account.0) {
            Some(place) => place.as_ref(),
            None => None,
        }
    }

    /// The sheet of the account; None where it has none, which means the sheet of an empty record. It allocates nothing.
    pub fn sheet(&self, account: Account) -> Option<&Sheet>
        ensures exact { option_copied result ≡ sheet_in self.now account.0 }
        // The account has a sheet, so a `replace` allocates nothing.
        ensures capacity { IfSome result (λ _. IsTrue (has_space self.now account.0)) }
    {
        match self.slot(account) {
            Some(shared) => Some(shared.sheet()),
            None => None,
        }
    }

    /// The same sheet for one more holder: it remains as it is, whatever replaces it in the view. Nothing is copied.
    ///
    /// # Errors
    ///
    /// Out of memory only.
    pub fn shared_sheet(&self, account: Account) -> Result<Option<SharedSheet>, NoMemory>
        ensures exact { IfOk result (λ shared. shared ≡ sheet_in self.now account.0) }
    {
        match self.slot(account) {
            Some(shared) => Ok(Some(shared.share()?)),
            None => Ok(None),
        }
    }

    /// Sets the moment at which the registration of the account ends; None where it has no end, which allocates nothing.
    ///
    /// # Errors
    ///
    /// Out of memory only; the view is then as before.
    pub fn set_registered(
        &mut self,
        account: Account,
        until: Option<Moment>,
    ) -> Result<(), NoMemory>
        ensures ok { OnOk result (self.new ≡ with_registration_end self.old account.0 until) }
        ensures err { OnErr result (self.new ≡ self.old) }
        ensures ends_never { until ≡ None → IsOk result }
    {
        match until {
            None => {
                self.registration_ends.remove(&account.0);
                Ok(())
            }
            Some(moment) => {
                self.registration_ends.insert(account.0, moment)?;
                Ok(())
            }
        }
    }

    /// Whether the account is registered: no end was set, or the end is later than now. It allocates nothing.
    pub fn registered(&self, account: Account, now: Moment) -> bool
        ensures exact { result ≡ is_registered (registration_end_in self.now account.0) now }
    {
        match self.registration_ends.get(&account.0) {
            None => true,
            Some(until) => until.ms() > now.ms(),
        }
    }
}
