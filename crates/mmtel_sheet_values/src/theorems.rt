//! Theorems about the records in force: each is the contract of a function that does nothing.
ghost use Rattle.std.specs.Prelude.{◌≡◌, ◌≢◌, ℕ, Some, IsTrue};
ghost use Rattle.mmtel_sheet_values.specs.View.{SheetsInForce, sheet_in, with_sheet, with_space, has_space};
ghost use Rattle.mmtel_sheet_values.specs.declared.values.Sheet.{Sheet};

/// A theorem, without code: the sheet that is put is the account's from then on, and no other account's changes.
pub fn putting_changes_one_account()
    ensures its { (v : SheetsInForce) (a : ℕ) (s : Sheet) → sheet_in (with_sheet v a s) a ≡ Some s }
    ensures others { (v : SheetsInForce) (a b : ℕ) (s : Sheet) → a ≢ b → sheet_in (with_sheet v a s) b ≡ sheet_in v b }
{}

/// A theorem, without code: there is space for an account after it was reserved, and space that there was remains.
pub fn space_stays()
    ensures made { (v : SheetsInForce) (a : ℕ) → IsTrue (has_space (with_space v a) a) }
    ensures put { (v : SheetsInForce) (a : ℕ) (s : Sheet) → IsTrue (has_space (with_sheet v a s) a) }
    ensures after_more_room { (v : SheetsInForce) (a b : ℕ) → IsTrue (has_space v b) → IsTrue (has_space (with_space v a) b) }
    ensures after_a_sheet { (v : SheetsInForce) (a b : ℕ) (s : Sheet) → IsTrue (has_space v b) → IsTrue (has_space (with_sheet v a s) b) }
{}
