//! Theorems about the definitions that the contracts cite: each is the contract of a function that does nothing.
ghost use Rattle.std.specs.Prelude.{◌≡◌, ◌≤◌, ℕ, ℤ, List, [], Ok, Some, true, IsUtf8, length};
ghost use Rattle.toml.specs.Data.{Members};
ghost use Rattle.mmtel_lex.specs.Reading.{uri_of};
ghost use Rattle.mmtel_lex.specs.declared.values.Uri.{Uri};
ghost use Rattle.mmtel_sheet_grammar.specs.Elements.{is_target};
ghost use Rattle.mmtel_sheet_grammar.specs.Moments.{moment_of_text};
ghost use Rattle.mmtel_sheet_grammar.specs.Printable.{IsUriOfText, IsTarget, IsMoment, IsPrintable};
ghost use Rattle.mmtel_sheet_grammar.specs.Sound.{IsSoundTable};
ghost use Rattle.mmtel_sheet_grammar.specs.Texts.{sheet_read};
ghost use Rattle.mmtel_sheet_grammar.specs.Walk.{sheet_of};
ghost use Rattle.mmtel_sheet_reader.specs.Actions.{Diverts, Bars};
ghost use Rattle.mmtel_sheet_reader.specs.Uploads.{upload_of};
ghost use Rattle.mmtel_sheet_reader.specs.declared.uploads.Upload.TheVariants.{Accepted};
ghost use Rattle.mmtel_sheet_values.specs.Sheets.{empty_sheet};
ghost use Rattle.mmtel_sheet_values.specs.declared.values.Sheet.{Sheet};

/// In a sheet that was read each rule of the diversion diverts, and each rule of a barring allows or bars.
pub fn rules_do_what_their_service_does()
    ensures diversion { (ms : Members) (s : Sheet) → sheet_of ms ≡ Ok s → Diverts s.diversion }
    ensures incoming { (ms : Members) (s : Sheet) → sheet_of ms ≡ Ok s → Bars s.incoming }
    ensures outgoing { (ms : Members) (s : Sheet) → sheet_of ms ≡ Ok s → Bars s.outgoing }
{}

/// Each sheet that is read of a sound document can be printed, and so can each URI, target and moment that is read of a text.
pub fn what_is_read_is_printable()
    ensures sheet { (ms : Members) (s : Sheet) → IsSoundTable ms → sheet_of ms ≡ Ok s → IsPrintable s }
    ensures uri { (s : List ℕ) (u : Uri) → IsUtf8 s → uri_of s ≡ Ok u → IsUriOfText u }
    ensures target { (s : List ℕ) (u : Uri) → IsUtf8 s → uri_of s ≡ Ok u → is_target u ≡ true → length s ≤ 256 → IsTarget u }
    ensures moment { (s : List ℕ) (m : ℤ) → moment_of_text s ≡ Some m → IsMoment m }
{}

/// A theorem, without code: the empty text is the record of an account without settings, also as an upload.
pub fn the_empty_text_is_the_empty_sheet()
    ensures its { sheet_read [] ≡ Ok empty_sheet }
    ensures uploaded { upload_of [] ≡ Accepted empty_sheet }
{}
