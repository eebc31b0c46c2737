//! The lines of the five fields, found in one pass over the lines of a message (RFC 3261 §8.1.1).
ghost use Rattle.std.specs.Prelude.{◌≡◌, ◌∷◌, [], ℕ, List, codes};
ghost use Rattle.std.specs.Option.{option_copied};
ghost use Rattle.mmtel_message.specs.Fields.{only_value};
ghost use Rattle.mmtel_message.specs.FiveLines.{first_behind, only_behind};
ghost use Rattle.mmtel_message.specs.Message.{Line, first_value, is_line};

use crate::held::Lines;
use crate::messages::is_named;

/// What was found of a name that may occur on one line only.
#[derive(Clone, Copy)]
pub enum Only<'a> {
    /// No line of the name.
    Nothing,
    /// One line, with this value.
    One(&'a [u8]),
    /// More than one line.
    Several,
}

impl<'a> Only<'a> {
    /// What is found with a further line, which is of the name or of another.
    fn with(self, is_named: bool, value: &'a [u8]) -> Only<'a>
        ensures { (name : List ℕ) (l : Line) (ls : List Line) → is_line name l ≡ is_named → l.1 ≡ value.now →
            only_behind name self.entry (l ∷ ls) ≡ only_behind name result ls }
    {
        match self {
            Only::Nothing => {
                if is_named {
                    Only::One(value)
                } else {
                    Only::Nothing
                }
            }
            Only::One(first) => {
                if is_named {
                    Only::Several
                } else {
                    Only::One(first)
                }
            }
            Only::Several => Only::Several,
        }
    }

    /// The value of the only line.
    pub fn value(self) -> Option<&'a [u8]>
        ensures { (name : List ℕ) → option_copied result ≡ only_behind name self.entry [] }
    {
        match self {
            Only::Nothing => None,
            Only::One(value) => Some(value),
            Only::Several => None,
        }
    }
}

/// The first value found so far or on a further line, which is of the name or of another.
fn first_with<'a>(found: Option<&'a [u8]>, is_named: bool, value: &'a [u8]) -> Option<&'a [u8]>
    ensures { (name : List ℕ) (l : Line) (ls : List Line) → is_line name l ≡ is_named → l.1 ≡ value.now →
        first_behind name (option_copied found.entry) (l ∷ ls) ≡ first_behind name (option_copied result) ls }
{
    match found {
        Some(first) => Some(first),
        None => { if is_named { Some(value) } else { None } }
    }
}

/// What was found of the names of the five fields: the first Via line, and the only line of each other.
#[derive(Clone, Copy)]
pub struct FiveLines<'a> {
    pub via: Option<&'a [u8]>,
    pub from: Only<'a>,
    pub to: Only<'a>,
    pub call_id: Only<'a>,
    pub cseq: Only<'a>,
}

impl<'a> FiveLines<'a> {
    /// Adds what a further line contributes. A line whose name has another length than these is of none of the five.
    #[tactic(auto, using(crate::proofs::FiveTheorems::first_over, crate::proofs::FiveTheorems::only_over))]
    fn add(&mut self, name: &[u8], value: &'a [u8])
        ensures via { (ls : List Line) → first_behind (codes "Via") (option_copied self.old.via) ((name.now, value.now) ∷ ls)
            ≡ first_behind (codes "Via") (option_copied self.new.via) ls }
        ensures from { (ls : List Line) → only_behind (codes "From") self.old.from ((name.now, value.now) ∷ ls) ≡ only_behind (codes "From") self.new.from ls }
        ensures to { (ls : List Line) → only_behind (codes "To") self.old.to ((name.now, value.now) ∷ ls) ≡ only_behind (codes "To") self.new.to ls }
        ensures call_id { (ls : List Line) → only_behind (codes "Call-ID") self.old.call_id ((name.now, value.now) ∷ ls) ≡ only_behind (codes "Call-ID") self.new.call_id ls }
        ensures cseq { (ls : List Line) → only_behind (codes "CSeq") self.old.cseq ((name.now, value.now) ∷ ls) ≡ only_behind (codes "CSeq") self.new.cseq ls }
    {
        match name.len() {
            2 => self.to = self.to.with(is_named(name, b"To"), value),
            3 => self.via = first_with(self.via, is_named(name, b"Via"), value),
            4 => {
                self.from = self.from.with(is_named(name, b"From"), value);
                self.cseq = self.cseq.with(is_named(name, b"CSeq"), value);
            }
            7 => self.call_id = self.call_id.with(is_named(name, b"Call-ID"), value),
            _ => {}
        }
    }
}

/// The lines of the five fields.
pub fn five_lines<'a>(lines: &Lines<'a>) -> FiveLines<'a>
    ensures via { option_copied result.via ≡ first_value (codes "Via") lines.now.values }
    ensures from { only_behind (codes "From") result.from [] ≡ only_value (codes "From") lines.now.values }
    ensures to { only_behind (codes "To") result.to [] ≡ only_value (codes "To") lines.now.values }
    ensures call_id { only_behind (codes "Call-ID") result.call_id [] ≡ only_value (codes "Call-ID") lines.now.values }
    ensures cseq { only_behind (codes "CSeq") result.cseq [] ≡ only_value (codes "CSeq") lines.now.values }
{
    let mut found = FiveLines {
        via: None,
        from: Only::Nothing,
        to: Only::Nothing,
        call_id: Only::Nothing,
        cseq: Only::Nothing,
    };
    for i in 0..lines.len() {
        let (name, value) = lines.at(i);
        found.add(name, value);
    }
    found
}
