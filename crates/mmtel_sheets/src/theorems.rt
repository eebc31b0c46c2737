//! Theorems about the definitions: each is the contract of a function that does nothing.
ghost use Rattle.std.specs.Prelude.{◌≡◌, ◌≤◌, ◌↔◌, ℕ, ℤ, List, Ok, Some, true};
ghost use Rattle.toml.specs.Data.{Members, members_depth, members_have_valid_dates};
ghost use Rattle.mmtel_sheet_grammar.specs.Moments.{moment_of_text};
ghost use Rattle.mmtel_sheet_grammar.specs.Rules.{rule_of};
ghost use Rattle.mmtel_sheet_grammar.specs.Sound.{IsSoundTable};
ghost use Rattle.mmtel_sheet_grammar.specs.Texts.{sheet_read};
ghost use Rattle.mmtel_sheet_grammar.specs.Walk.{schema, sheet_of};
ghost use Rattle.mmtel_sheet_grammar.specs.declared.keys.Service.{Service};
ghost use Rattle.mmtel_sheet_grammar.specs.declared.keys.Version.TheVariants as version;
ghost use Rattle.mmtel_sheet_values.specs.declared.values.Rule.{Rule};
ghost use Rattle.mmtel_sheet_values.specs.declared.values.Sheet.{Sheet};
ghost use Rattle.mmtel_sheet_grammar.specs.Printable.{IsMoment, IsRule, IsPrintable};
ghost use Rattle.mmtel_sheets.specs.FirstVersion.{HasNoVersion, NamesNoVersion, first_read, first_sheet};
ghost use Rattle.mmtel_sheets.specs.Printing.{rule_data, document_of};
ghost use Rattle.mmtel_sheets.specs.Times.{moment_text};

/// The document of a sheet reads back as the sheet, and the table of a rule as the rule.
pub fn documents_read_back()
    ensures sheet { (s : Sheet) → IsPrintable s → sheet_of (document_of s) ≡ Ok s }
    ensures rule { (s : Service) (path : List ℕ) (r : Rule) → IsRule s r → rule_of (schema version.Two s) path (rule_data s r) ≡ Ok r }
{}

/// A sheet can be printed exactly where some sound document reads as it.
pub fn printable_is_what_documents_say()
    ensures { (s : Sheet) → IsPrintable s ↔ ((ms : Members) × IsSoundTable ms × (sheet_of ms ≡ Ok s)) }
{}

/// The document of a sheet nests four deep, and has none of TOML's own dates.
pub fn documents_are_plain()
    ensures depth { (s : Sheet) → members_depth (document_of s) ≤ 4 }
    ensures dates { (s : Sheet) → members_have_valid_dates (document_of s) ≡ true }
{}

/// A moment reads back from its text.
pub fn moments_read_back()
    ensures { (m : ℤ) → IsMoment m → moment_of_text (moment_text m) ≡ Some m }
{}

/// A record that names no version reads as by the definitions of the first version alone: to the same sheet, or the same first fault. So no record from before the second version
/// reads otherwise than it did.
pub fn first_version_reads_as_before()
    ensures document { (ms : Members) → HasNoVersion ms → sheet_of ms ≡ first_sheet ms }
    ensures text { (bytes : List ℕ) → NamesNoVersion bytes → sheet_read bytes ≡ first_read bytes }
{}
