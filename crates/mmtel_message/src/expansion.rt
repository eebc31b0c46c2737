//! The header lines of a canonical text (RFC 3261 §7.3.1).
ghost use Rattle.std.specs.Prelude.{◌≡◌, ◌||◌, ℕ, List, [], ◌∷◌, ◌++◌, IfOk, OnOk, codes, map};
ghost use Rattle.std.specs.Bool.{OnFalse, OnTrue};
ghost use Rattle.std.specs.List.{list_any};
ghost use Rattle.std.specs.Str.{str_eq_ignore_ascii_case};
ghost use Rattle.mmtel_message.specs.Held.{held_line, held_lines, value_of};
ghost use Rattle.mmtel_message.specs.Message.{Line};
ghost use Rattle.mmtel_message.specs.Values.{base, values_of};
ghost use Rattle.mmtel_message.specs.Expansion.{listed_names, merged_text, privacy_text, allow_text, at_first, lines_for, expanded_from, expanded_lines};

use crate::edits::Edit;
use crate::held::{Held, HeldValue, Lines, span_of, spanned_part, spanned_value, value_of};
use crate::messages::{has_line, is_named, line_texts};
use crate::values::{Mode, joined_by, next_value, values_in};
use mmtel_base::{Class, trim};
use mmtel_lex::{List, NoMemory, Text};
use std::alloc::Global;

/// Whether a name is one of two.
fn is_either(name: &[u8], one: &[u8], other: &[u8]) -> bool
    ensures { result ≡ (str_eq_ignore_ascii_case name.now one.now || str_eq_ignore_ascii_case name.now other.now) }
{
    if is_named(name, one) {
        return true;
    }
    is_named(name, other)
}

/// Whether the values of this name are written one per line.
#[tactic(auto, using(crate::proofs::PartTheorems::other_length))]
fn is_listed(name: &[u8]) -> bool
    ensures { result ≡ list_any (λ listed. str_eq_ignore_ascii_case name.now listed) listed_names }
{
    match name.len() {
        3 => is_named(name, b"Via"),
        5 => is_named(name, b"Route"),
        7 => is_either(name, b"Contact", b"Require"),
        9 => is_named(name, b"Supported"),
        12 => is_either(name, b"Record-Route", b"History-Info"),
        19 => is_named(name, b"P-Asserted-Identity"),
        _ => false,
    }
}

/// Adds a line.
fn add_held(
    alloc: Global,
    out: &mut List<Held>,
    name: &[u8],
    value: HeldValue,
) -> Result<(), NoMemory>
    ensures { OnOk result (out.new ≡ out.old ++ (name.now, value) ∷ []) }
{
    let name = Text::of(alloc, name)?;
    out.push(alloc, (name, value))?;
    Ok(())
}

/// Adds one line per value, each a place where the whole value is one.
fn add_values(
    alloc: Global,
    out: &mut List<Held>,
    bytes: &[u8],
    name: &[u8],
    value: &HeldValue,
) -> Result<(), NoMemory>
    ensures { OnOk result (held_lines bytes.now out.new ≡ held_lines bytes.now out.old ++ map (λ v. (name.now, v)) (values_of (value_of bytes.now value.now))) }
{
    let text = value_of(bytes, value);
    let mut next = Some(0);
    'values: while let Some(from) = next {
        let (place, after) = next_value(Mode::Plain, text, from);
        let one = spanned_part(alloc, bytes, value, place)?;
        add_held(alloc, out, name, one)?;
        next = after;
    }
    Ok(())
}

/// The values of several texts as one list, with a separator between them.
#[tactic(auto, using(crate::proofs::PartTheorems::merged_none))]
fn merged_text(
    alloc: Global,
    mode: Mode,
    separator: &[u8],
    between: &[u8],
    texts: &[Text],
) -> Result<Text, NoMemory>
    requires { base mode ≡ mode }
    ensures { IfOk result (λ t. t ≡ merged_text mode separator.now between.now texts.now) }
{
    match texts {
        [] => Ok(Text::new()),
        _ => {
            let whole = joined_by(alloc, separator, texts)?;
            let values = values_in(alloc, mode, whole.bytes())?;
            let joined = joined_by(alloc, between, values.items())?;
            Text::of(alloc, trim(Class::Blank, joined.bytes()))
        }
    }
}

fn privacy_text(alloc: Global, lines: &Lines<'_>) -> Result<Text, NoMemory>
    ensures { IfOk result (λ t. t ≡ privacy_text lines.now.values) }
{
    let texts = line_texts(alloc, lines, b"Privacy")?;
    merged_text(alloc, Mode::Words, b";", b";", texts.items())
}

fn allow_text(alloc: Global, lines: &Lines<'_>) -> Result<Text, NoMemory>
    ensures { IfOk result (λ t. t ≡ allow_text lines.now.values) }
{
    let texts = line_texts(alloc, lines, b"Allow")?;
    merged_text(alloc, Mode::Plain, b",", b", ", texts.items())
}

/// A text that was made of the values of a name: the place of the value of its first line, where that is the same text, or an edit.
fn merged_value(
    alloc: Global,
    bytes: &[u8],
    text: &[u8],
    first: &HeldValue,
) -> Result<HeldValue, NoMemory>
    ensures { IfOk result (λ v. value_of bytes.now v ≡ text.now) }
{
    if value_of(bytes, first) == text {
        return spanned_value(alloc, bytes, first);
    }
    Ok(HeldValue::Edited(Edit::of(Text::of(alloc, text)?)))
}

/// Adds a line of a name whose lines are merged: the text of its values at the first one, nothing at further ones.
fn add_merged(
    alloc: Global,
    out: &mut List<Held>,
    bytes: &[u8],
    text: &[u8],
    line: &Held,
) -> Result<(), NoMemory>
    ensures { OnOk result (held_lines bytes.now out.new ≡ held_lines bytes.now out.old ++ (line.now.0, text.now) ∷ []) }
{
    let value = merged_value(alloc, bytes, text, &line.1)?;
    add_held(alloc, out, line.0.bytes(), value)
}

fn add_privacy(
    alloc: Global,
    out: &mut List<Held>,
    bytes: &[u8],
    all_lines: &Lines<'_>,
    before: &[Held],
    line: &Held,
) -> Result<(), NoMemory>
    ensures { OnOk result (held_lines bytes.now out.new ≡
        held_lines bytes.now out.old ++ at_first (codes "Privacy") (privacy_text all_lines.now.values) (held_lines bytes.now before.now) (held_line bytes.now line.now)) }
{
    if has_line(b"Privacy", &Lines::of(bytes, before, &[])) {
        return Ok(());
    }
    let text = privacy_text(alloc, all_lines)?;
    add_merged(alloc, out, bytes, text.bytes(), line)
}

fn add_allow(
    alloc: Global,
    out: &mut List<Held>,
    bytes: &[u8],
    all_lines: &Lines<'_>,
    before: &[Held],
    line: &Held,
) -> Result<(), NoMemory>
    ensures { OnOk result (held_lines bytes.now out.new ≡
        held_lines bytes.now out.old ++ at_first (codes "Allow") (allow_text all_lines.now.values) (held_lines bytes.now before.now) (held_line bytes.now line.now)) }
{
    if has_line(b"Allow", &Lines::of(bytes, before, &[])) {
        return Ok(());
    }
    let text = allow_text(alloc, all_lines)?;
    add_merged(alloc, out, bytes, text.bytes(), line)
}

/// Adds the lines that replace one, which follows those before.
fn add_lines_for(
    alloc: Global,
    out: &mut List<Held>,
    bytes: &[u8],
    all_lines: &Lines<'_>,
    before: &[Held],
    line: &Held,
) -> Result<(), NoMemory>
    ensures { OnOk result (held_lines bytes.now out.new ≡ held_lines bytes.now out.old ++
        lines_for (privacy_text all_lines.now.values) (allow_text all_lines.now.values) (held_lines bytes.now before.now) (held_line bytes.now line.now)) }
{
    let name = line.0.bytes();
    if name.is_empty() {
        return Ok(());
    }
    if is_named(name, b"Privacy") {
        return add_privacy(alloc, out, bytes, all_lines, before, line);
    }
    if is_named(name, b"Allow") {
        return add_allow(alloc, out, bytes, all_lines, before, line);
    }
    if is_listed(name) {
        return add_values(alloc, out, bytes, name, &line.1);
    }
    let value = spanned_value(alloc, bytes, &line.1)?;
    add_held(alloc, out, name, value)
}

/// The lines that replace these, which come first in a message of those lines.
fn expanded_in(
    alloc: Global,
    bytes: &[u8],
    all_lines: &Lines<'_>,
    lines: &[Held],
) -> Result<List<Held>, NoMemory>
    ensures { IfOk result (λ ls. held_lines bytes.now ls ≡
        expanded_from (privacy_text all_lines.now.values) (allow_text all_lines.now.values) [] (held_lines bytes.now lines.now)) }
{
    let mut out = List::with_capacity(alloc, lines.len())?;
    for i in 0..lines.len() {
        add_lines_for(alloc, &mut out, bytes, all_lines, &lines[..i], &lines[i])?;
    }
    Ok(out)
}

/// The lines of the canonical text of a message that has these lines.
///
/// A part of a value that is a place is a place. So is the merged text of Privacy or Allow where it equals the value of the first line of the name, as it does where that is
/// the only one and is canonical. A part of an edit, as of a line that was folded, is a place where it was taken from the bytes in one piece.
pub fn expanded_lines(alloc: Global, bytes: &[u8], lines: &[Held]) -> Result<List<Held>, NoMemory>
    ensures { IfOk result (λ ls. held_lines bytes.now ls ≡ expanded_lines (held_lines bytes.now lines.now)) }
{
    let whole = Lines::of(bytes, lines, &[]);
    expanded_in(alloc, bytes, &whole, lines)
}

/// Whether a text may have further values, or blanks around its only one.
#[tactic(auto, using(crate::proofs::PartTheorems::one_value))]
pub fn may_split(text: &[u8]) -> bool
    ensures { OnFalse result (values_of text.now ≡ text.now ∷ []) }
{
    let (place, after) = next_value(Mode::Plain, text, 0);
    if after.is_some() {
        return true;
    }
    if place.len < text.len() {
        return true;
    }
    false
}

/// Whether other lines may replace one: it has no name, is one of those that are merged, is an edit, or may have several values.
fn may_change(bytes: &[u8], line: &Held) -> bool
    ensures { OnFalse result ((privacy allow : List ℕ) (before : List Line) → lines_for privacy allow before (held_line bytes.now line.now) ≡ held_line bytes.now line.now ∷ []) }
{
    let name = line.0.bytes();
    if name.is_empty() {
        return true;
    }
    if is_named(name, b"Privacy") {
        return true;
    }
    if is_named(name, b"Allow") {
        return true;
    }
    if span_of(&line.1).is_none() {
        return true;
    }
    if is_listed(name) {
        return may_split(value_of(bytes, &line.1));
    }
    false
}

/// Whether each of the lines is in the canonical text as it is held.
fn none_changes(bytes: &[u8], lines: &[Held]) -> bool
    ensures { OnTrue result (expanded_lines (held_lines bytes.now lines.now) ≡ held_lines bytes.now lines.now) }
{
    for i in 0..lines.len() {
        if may_change(bytes, &lines[i]) {
            return false;
        }
    }
    true
}

/// The lines of the canonical text of a message that has these lines, which are consumed: these themselves where none of them changes.
pub fn expanded_list(alloc: Global, bytes: &[u8], lines: List<Held>) -> Result<List<Held>, NoMemory>
    ensures { IfOk result (λ ls. held_lines bytes.now ls ≡ expanded_lines (held_lines bytes.now lines)) }
{
    if none_changes(bytes, lines.items()) {
        return Ok(lines);
    }
    let built = expanded_lines(alloc, bytes, lines.items());
    drop(lines);
    built
}
