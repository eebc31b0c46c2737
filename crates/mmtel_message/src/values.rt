//! The values of one text: of a listed name, separated by commas (RFC 3261 §7.3.1), and the words of Privacy, separated by `;` (RFC 3323 §4.2).
ghost use Rattle.std.specs.Prelude.{◌≡◌, ◌∷◌, ◌++◌, ◌+◌, ◌-◌, ◌<◌, ◌≤◌, length, take, drop, IfOk, IfSome, OnOk};
ghost use Rattle.std.specs.List.{flat_map};
ghost use Rattle.std.specs.Option.{option_copied};
ghost use Rattle.mmtel_message.specs.Headers.{trim};
ghost use Rattle.mmtel_message.specs.Held.{bytes_at};
ghost use Rattle.mmtel_message.specs.Values.{mode_after, is_separator, base, next_separator, separator, parts, rest_parts, values_in, values_from, joined_by};

use crate::held::Span;
use memchr::memchr;
use mmtel_base::{Class, split_run, trim, trim_end};
use mmtel_lex::{List, NoMemory, Text};
use std::alloc::Global;

/// Where in a text with several values a byte is, which decides whether it separates two of them.
#[derive(Clone, Copy)]
pub enum Mode {
    /// Outside quotes and angle brackets: a comma separates.
    Plain,
    /// In quotes.
    Quoted,
    /// After a backslash in quotes.
    Escaped,
    /// In angle brackets, which only `>` ends.
    Angle,
    /// Between the words of Privacy: `;` separates, and nothing else matters.
    Words,
}

impl Mode {
    /// Where the next byte is.
    fn after(self, byte: u8) -> Mode
        ensures { result ≡ mode_after self byte }
    {
        match self {
            Mode::Plain => {
                if byte == b'"' {
                    Mode::Quoted
                } else if byte == b'<' {
                    Mode::Angle
                } else {
                    Mode::Plain
                }
            }
            Mode::Quoted => {
                if byte == b'"' {
                    Mode::Plain
                } else if byte == b'\\' {
                    Mode::Escaped
                } else {
                    Mode::Quoted
                }
            }
            Mode::Escaped => Mode::Quoted,
            Mode::Angle => {
                if byte == b'>' {
                    Mode::Plain
                } else {
                    Mode::Angle
                }
            }
            Mode::Words => Mode::Words,
        }
    }
}

/// Whether the byte separates two values.
fn is_separator(mode: Mode, byte: u8) -> bool
    ensures { result ≡ is_separator mode byte }
{
    match mode {
        Mode::Plain => byte == b',',
        Mode::Quoted | Mode::Escaped | Mode::Angle => false,
        Mode::Words => byte == b';',
    }
}

/// Where the byte after a separating one is.
fn base(mode: Mode) -> Mode
    ensures { result ≡ base mode }
{
    match mode {
        Mode::Plain | Mode::Quoted | Mode::Escaped | Mode::Angle => Mode::Plain,
        Mode::Words => Mode::Words,
    }
}

/// The place of the first byte that separates, searched byte by byte.
fn walked_separator(mode: Mode, bytes: &[u8]) -> Option<usize>
    ensures place { result ≡ next_separator mode bytes.now }
    ensures within { IfSome result (λ n. n < length bytes.now) }
{
    let mut current = mode;
    for (i, byte) in bytes.iter().enumerate() {
        if is_separator(current, *byte) {
            return Some(i);
        }
        current = current.after(*byte);
    }
    None
}

/// The only byte that may separate two values.
fn separator(mode: Mode) -> u8
    ensures { result ≡ separator mode }
{
    match mode {
        Mode::Plain | Mode::Quoted | Mode::Escaped | Mode::Angle => b',',
        Mode::Words => b';',
    }
}

/// The place of the first byte that separates. Most texts have no byte that may, which one search decides.
fn next_separator(mode: Mode, bytes: &[u8]) -> Option<usize>
    ensures place { result ≡ next_separator mode bytes.now }
    ensures within { IfSome result (λ n. n < length bytes.now) }
{
    match memchr(separator(mode), bytes) {
        None => None,
        Some(_) => walked_separator(mode, bytes),
    }
}

/// The first part, and what follows it, where there is more.
pub fn next_part(mode: Mode, bytes: &[u8]) -> (&[u8], Option<&[u8]>)
    ensures parts { parts mode bytes.now ≡ result.0.now ∷ rest_parts (base mode) (option_copied result.1) }
    ensures shorter { IfSome result.1 (λ rest. length rest.now < length bytes.now) }
{
    match next_separator(mode, bytes) {
        None => (bytes, None),
        Some(at) => (&bytes[..at], Some(&bytes[at + 1..])),
    }
}

/// The place of the part of a text from one place to another, without the blanks around it.
pub fn trimmed_span(text: &[u8], from: usize, to: usize) -> Span
    requires order { from ≤ to }
    requires within { to ≤ length text.now }
    ensures bytes { bytes_at text.now result ≡ trim (take (to - from) (drop from text.now)) }
    ensures within { result.from + result.len ≤ length text.now }
{
    let (blanks, rest) = split_run(Class::Blank, &text[from..to]);
    Span {
        from: from + blanks.len(),
        len: trim_end(Class::Blank, rest).len(),
    }
}

/// The place of the first value in a text from a place on, and where the next one begins, if there is more.
pub fn next_value(mode: Mode, text: &[u8], from: usize) -> (Span, Option<usize>)
    requires base { base mode ≡ mode }
    requires within { from ≤ length text.now }
    ensures values { values_in mode (drop from text.now) ≡ bytes_at text.now result.0 ∷ values_from mode text.now result.1 }
    ensures inside { result.0.from + result.0.len ≤ length text.now }
    ensures later { IfSome result.1 (λ n. from < n) }
    ensures next_within { IfSome result.1 (λ n. n ≤ length text.now) }
{
    match next_separator(mode, &text[from..]) {
        None => (trimmed_span(text, from, text.len()), None),
        Some(at) => (trimmed_span(text, from, from + at), Some(from + at + 1)),
    }
}

/// The values of a text, without the blanks around each.
pub fn values_in(alloc: Global, mode: Mode, bytes: &[u8]) -> Result<List<Text>, NoMemory>
    requires { base mode ≡ mode }
    ensures { IfOk result (λ vs. vs ≡ values_in mode bytes.now) }
{
    let mut values = List::new();
    let mut rest = Some(bytes);
    'parts: while let Some(more) = rest {
        let (part, after) = next_part(mode, more);
        let value = Text::of(alloc, trim(Class::Blank, part))?;
        values.push(alloc, value)?;
        rest = after;
    }
    Ok(values)
}

/// Adds a separator and a text.
fn add_separated(alloc: Global, out: &mut Text, between: &[u8], text: &[u8]) -> Result<(), NoMemory>
    ensures { OnOk result (out.new ≡ out.old ++ (between.now ++ text.now)) }
{
    out.push(alloc, between)?;
    out.push(alloc, text)
}

fn add_others(alloc: Global, out: &mut Text, between: &[u8], texts: &[Text]) -> Result<(), NoMemory>
    ensures { OnOk result (out.new ≡ out.old ++ flat_map (λ w. between.now ++ w) texts.now) }
{
    for text in texts {
        add_separated(alloc, out, between, text.bytes())?;
    }
    Ok(())
}

/// The texts with the separator between them.
pub fn joined_by(alloc: Global, between: &[u8], texts: &[Text]) -> Result<Text, NoMemory>
    ensures { IfOk result (λ t. t ≡ joined_by between.now texts.now) }
{
    match texts {
        [] => Ok(Text::new()),
        [first, others @ ..] => {
            let mut out = Text::of(alloc, first.bytes())?;
            add_others(alloc, &mut out, between, others)?;
            Ok(out)
        }
    }
}
