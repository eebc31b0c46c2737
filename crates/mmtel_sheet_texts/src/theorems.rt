//! Theorems about texts by account.
ghost use Rattle.std.specs.Prelude.{◌≡◌, ◌≢◌, ℕ, List, Some};
ghost use Rattle.mmtel_types.specs.declared.numbers.Account.{Account};
ghost use Rattle.mmtel_sheet_texts.specs.Texts.{put, text_at};

/// A theorem, without code: the text that is put is the account's from then on, and no other account's changes.
pub fn puts_change_one_account()
    ensures its { (a : Account) (text : List ℕ) (s : List (Account × List ℕ)) → text_at (put a text s) a ≡ Some text }
    ensures others { (a b : Account) (text : List ℕ) (s : List (Account × List ℕ)) → a.0 ≢ b.0 → text_at (put a text s) b ≡ text_at s b }
{}
