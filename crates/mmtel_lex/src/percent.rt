//! Escaped bytes of a URI (RFC 3261 §19.1.2, RFC 3986 §2.1).
ghost use Rattle.std.specs.Prelude.{◌≡◌, ◌∷◌, ◌++◌, ◌↔◌, IfOk, None, Some, if◌then◌else◌};
ghost use Rattle.std.specs.Option.{option_map};
ghost use Rattle.mmtel_lex.specs.Percent.{IsBroken, hex_value, percent_decoded_text, unescaped_part, unescaped_parts};
ghost use Rattle.mmtel_lex.specs.UriParts.{parts};

use crate::uri_parts::first_part;
use mmtel_base::{NoMemory, Text};
use std::alloc::Global;

/// The value of a hexadecimal digit of either case.
fn hex_value(byte: u8) -> Option<u8>
    ensures { result ≡ hex_value byte }
{
    match char::from(byte).to_digit(16) {
        Some(worth) => Some(worth as u8),
        None => None,
    }
}

/// What follows a `%`: the byte that its two digits write, and what comes after them.
fn unescaped_part(part: &[u8]) -> Option<(u8, &[u8])>
    ensures { option_map (λ x. x.0 ∷ x.1.now) result ≡ unescaped_part part.now }
{
    match part {
        [first, second, rest @ ..] => {
            let high = hex_value(*first)?;
            let low = hex_value(*second)?;
            Some((high * 16 + low, rest))
        }
        _ => None,
    }
}

/// Appends what the text after a `%` decodes to; false where it is no escape.
fn add_unescaped(alloc: Global, out: &mut Text, part: &[u8]) -> Result<bool, NoMemory>
    ensures { IfOk result (λ said. (if said then Some out.new else None) ≡ option_map (λ t. out.old ++ t) (unescaped_part part.now)) }
{
    match unescaped_part(part) {
        None => Ok(false),
        Some((byte, rest)) => {
            out.push(alloc, &[byte])?;
            out.push(alloc, rest)?;
            Ok(true)
        }
    }
}

/// Appends what the parts decode to, each of which follows a `%`; false where one is no escape.
fn add_all_unescaped(alloc: Global, out: &mut Text, bytes: &[u8]) -> Result<bool, NoMemory>
    ensures { IfOk result (λ said. (if said then Some out.new else None) ≡ option_map (λ t. out.old ++ t) (unescaped_parts (parts 37 bytes.now))) }
{
    let mut rest = bytes;
    'parts: while let Some((front, tail)) = first_part(b'%', rest) {
        if !add_unescaped(alloc, out, front)? {
            return Ok(false);
        }
        rest = tail;
    }
    add_unescaped(alloc, out, rest)
}

#[tactic(auto, unfolding(crate::specs::Percent::percent_decoded_text))]
fn decoded_text(alloc: Global, bytes: &[u8]) -> Result<Option<Text>, NoMemory>
    ensures { IfOk result (λ t. t ≡ percent_decoded_text bytes.now) }
{
    match first_part(b'%', bytes) {
        None => Ok(Some(Text::of(alloc, bytes)?)),
        Some((front, rest)) => {
            let mut out = Text::of(alloc, front)?;
            if add_all_unescaped(alloc, &mut out, rest)? {
                Ok(Some(out))
            } else {
                Ok(None)
            }
        }
    }
}

/// The bytes to which a text of a URI decodes, each escaped byte in the place of its `%` and its two hexadecimal digits; None exactly where a `%` is not followed by two
/// such digits.
///
/// # Errors
///
/// Out of memory only.
pub fn percent_decoded_text(alloc: Global, bytes: &[u8]) -> Result<Option<Text>, NoMemory>
    ensures text { IfOk result (λ t. t ≡ percent_decoded_text bytes.now) }
    // There are none exactly where a `%` is not followed by two hexadecimal digits.
    ensures broken { IfOk result (λ t. (t ≡ None) ↔ IsBroken bytes.now) }
{
    decoded_text(alloc, bytes)
}
