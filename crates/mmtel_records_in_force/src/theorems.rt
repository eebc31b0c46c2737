//! Theorems about the texts and records in force: each is the contract of a function that does nothing.
ghost use Rattle.std.specs.Prelude.{◌≡◌, ◌++◌, ◌≢◌, ℕ, List, [], Some};
ghost use Rattle.mmtel_records_in_force.specs.Texts.{Registrations, Texts, put_each, record_of, registration_end_at};
ghost use Rattle.mmtel_sheet_grammar.specs.Texts.{stored_sheet};
ghost use Rattle.mmtel_sheet_texts.specs.Texts.{put, text_at};
ghost use Rattle.mmtel_types.specs.declared.numbers.Account.{Account};

use mmtel_sheet_texts::theorems::puts_change_one_account;

/// A theorem, without code: what is put is in force for its account from then on, and for no other account anything changes.
pub fn puts_are_in_force()
    ensures its { (a : Account) (text : List ℕ) (texts : Texts) → record_of (put a text texts) a ≡ stored_sheet text }
    ensures others { (a b : Account) (text : List ℕ) (texts : Texts) → a.0 ≢ b.0 → record_of (put a text texts) b ≡ record_of texts b }
{
    puts_change_one_account();
}
