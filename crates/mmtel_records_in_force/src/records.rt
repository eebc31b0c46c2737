//! The records in force.
ghost use Rattle.std.specs.Prelude.{◌≡◌, ◌∷◌, [], IfOk, OnErr, OnOk, IsTrue, None, unwrap_or};
ghost use Rattle.std.specs.Option.{option_copied};
ghost use Rattle.mmtel_records_in_force.specs.Records.{HasSameRecords, IsRegisteredBy, SheetsMatchTexts, may_put, no_records};
ghost use Rattle.mmtel_records_in_force.specs.Texts.{Registrations, put_each, record_of, registration_end_at};
ghost use Rattle.mmtel_sheet_grammar.specs.Texts.{stored_sheet};
ghost use Rattle.mmtel_sheet_texts.specs.Texts.{put, text_at};
ghost use Rattle.mmtel_sheet_values.specs.Sheets.{empty_sheet};
ghost use Rattle.mmtel_sheet_values.specs.View.{is_registered, registration_end_in};

use mmtel_base::{NoMemory, Text};
use mmtel_sheet_reader::stored_sheet;
use mmtel_sheet_reader::theorems::the_empty_text_is_the_empty_sheet;
use mmtel_sheet_texts::SheetTexts;
use mmtel_sheet_texts::theorems::puts_change_one_account;
use mmtel_sheet_values::theorems::putting_changes_one_account;
use mmtel_sheet_values::{SharedSheet, Sheet, SheetView};
use mmtel_types::{Account, Moment};
use std::alloc::Global;
use std::marker::Model;

/// The records that are in force, each with its text and its sheet, and until when each account is registered.
///
/// In contracts it is seen as both tables. It is an invariant that each account's sheet is that of its text.
#[derive(Drop)]
pub struct Records {
    texts: SheetTexts,
    view: SheetView,
}

impl Model for Records {
    ghost use Rattle.std.specs.Prelude.{refl};
    ghost use Rattle.std.specs.Coded.{code_by, coded×};
    ghost use Rattle.mmtel_records_in_force.specs.Records.{RecordsView, SheetsMatchTexts};
    ghost use Rattle.mmtel_sheet_texts.specs.Texts.{SheetTextsView};
    ghost use Rattle.mmtel_sheet_texts.specs.contracts.texts.SheetTexts as texts_row;
    ghost use Rattle.mmtel_sheet_values.specs.View.{SheetsInForce};
    ghost use Rattle.mmtel_sheet_values.specs.contracts.view.SheetView as view_row;

    ghost Value = { RecordsView };

    ghost coded = { code_by (SheetTextsView × SheetsInForce) (coded× texts_row.the_row.coded view_row.the_row.coded)
        (λ h. (h.texts, h.view)) (λ p. record { texts = p.0; view = p.1 })
        (λ _. refl) };

    ghost view = { λ r. record { texts = r.texts; view = r.view } };

    ghost invariant = { λ r. SheetsMatchTexts (record { texts = r.texts; view = r.view }) };
}

impl Records {
    /// No text, and no registration that has an end. It allocates nothing.
    pub fn new(alloc: Global) -> Records
        ensures nothing { result ≡ no_records }
    {
        Records {
            texts: SheetTexts::new(),
            view: SheetView::new(alloc),
        }
    }

    /// Puts a text in place of the account's previous one, and its sheet in force.
    ///
    /// # Errors
    ///
    /// Out of memory only; no record and no registration has then changed.
    pub fn put(&mut self, alloc: Global, account: Account, text: Text) -> Result<(), NoMemory>
        ensures texts { OnOk result (self.new.texts.texts ≡ put account text self.old.texts.texts) }
        ensures registered { (registrations : Registrations) → IsRegisteredBy self.old registrations → IsRegisteredBy self.new registrations }
        ensures err { OnErr result (HasSameRecords self.new self.old) }
    {
        let sheet = stored_sheet(alloc, text.bytes())?;
        let sheet = self.reserve(alloc, account, sheet)?;
        self.replace(account, text, sheet);
        Ok(())
    }

    /// Reserves space for a text and a record of the account, so that a `replace` allocates nothing; returns the record, to be put there. No record and no registration changes.
    ///
    /// # Errors
    ///
    /// Out of memory only.
    pub fn reserve(
        &mut self,
        alloc: Global,
        account: Account,
        sheet: Sheet,
    ) -> Result<SharedSheet, NoMemory>
        ensures same { HasSameRecords self.new self.old }
        ensures capacity { OnOk result (IsTrue (may_put self.new account)) }
        ensures its { IfOk result (λ shared. shared ≡ sheet) }
    {
        let shared = SharedSheet::new(alloc, sheet)?;
        self.view.reserve(account)?;
        self.texts.reserve(alloc)?;
        Ok(shared)
    }

    /// Puts a text in place of the account's previous one, and its sheet in force. It allocates nothing: `reserve` reserved the space.
    pub fn replace(&mut self, account: Account, text: Text, sheet: SharedSheet)
        requires capacity { IsTrue (may_put self.old account) }
        requires its { sheet ≡ stored_sheet text }
        ensures texts { self.new.texts.texts ≡ put account text self.old.texts.texts }
        ensures registered { (registrations : Registrations) → IsRegisteredBy self.old registrations → IsRegisteredBy self.new registrations }
    {
        putting_changes_one_account();
        puts_change_one_account();
        let _before = self.view.replace(account, sheet);
        self.texts.replace(account, text);
    }

    /// The texts by account, as they are returned to web requests.
    pub fn texts(&self) -> &SheetTexts
        ensures all { result.now ≡ self.now.texts }
    {
        &self.texts
    }

    /// The record of the account; None where it has none, which means that of an account without a record. It allocates nothing.
    pub fn sheet(&self, account: Account) -> Option<&Sheet>
        ensures exact { unwrap_or (option_copied result) empty_sheet ≡ record_of self.now.texts.texts account }
    {
        the_empty_text_is_the_empty_sheet();
        self.view.sheet(account)
    }

    /// The records and the registrations, as calls read them: each account that has a text has the sheet of that text, and no other has one. It allocates nothing.
    pub fn view(&self) -> &SheetView
        ensures all { result.now ≡ self.now.view }
        ensures agrees { SheetsMatchTexts self.now }
    {
        &self.view
    }

    /// Registers an account until a moment.
    ///
    /// # Errors
    ///
    /// Out of memory only; no record and no registration has then changed.
    pub fn register(&mut self, account: Account, until: Moment) -> Result<(), NoMemory>
        ensures texts { self.new.texts ≡ self.old.texts }
        ensures registered { OnOk result ((registrations : Registrations) → IsRegisteredBy self.old registrations → IsRegisteredBy self.new ((account, until) ∷ registrations)) }
        ensures err { OnErr result (self.new ≡ self.old) }
    {
        self.view.set_registered(account, Some(until))
    }

    /// Whether an account is registered at a moment: it never was registered, or until a later one. It allocates nothing.
    pub fn is_registered(&self, account: Account, now: Moment) -> bool
        ensures exact { (registrations : Registrations) → IsRegisteredBy self.now registrations → result ≡ is_registered (registration_end_at registrations account) now }
    {
        self.view.registered(account, now)
    }

    /// The records of loaded texts, of which an account's last one counts, with no registration that has an end.
    ///
    /// # Errors
    ///
    /// Out of memory only.
    pub fn load(alloc: Global, loaded: &[(Account, Text)]) -> Result<Records, NoMemory>
        ensures texts { IfOk result (λ records. records.texts.texts ≡ put_each loaded.now []) }
        ensures registered { IfOk result (λ records. IsRegisteredBy records []) }
    {
        let mut records = Records::new(alloc);
        for (account, text) in loaded {
            let text = text.copied(alloc)?;
            records.put(alloc, *account, text)?;
        }
        Ok(records)
    }
}
