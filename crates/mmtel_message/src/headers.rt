//! Header lines (RFC 3261 §7.3.1 and §25.1).
ghost use Rattle.std.specs.Prelude.{◌≡◌, ◌+◌, ◌≤◌, IfOk, IfSome, length, map};
ghost use Rattle.std.specs.List.{list_all};
ghost use Rattle.std.specs.Option.{option_map};
ghost use Rattle.mmtel_message.specs.Held.{bytes_at, held_line, held_lines, value_of};
ghost use Rattle.mmtel_message.specs.Names.{long_name};
ghost use Rattle.mmtel_message.specs.Headers.{header_at, header_line, is_value_byte};

use crate::edits::Edit;
use crate::held::{Held, HeldValue, Span, bytes_at, part_of, value_of};
use crate::names::long_name;
use crate::values::trimmed_span;
use memchr::memchr3;
use mmtel_base::{Class, skip_byte, split_run};
use mmtel_lex::{List, NoMemory, Text};
use std::alloc::Global;

/// Whether the bytes may occur in a value: no byte 0, CR or LF is among them.
pub fn is_value(value: &[u8]) -> bool
    ensures { result ≡ list_all is_value_byte value.now }
{
    match memchr3(0, b'\r', b'\n', value) {
        None => true,
        Some(_) => false,
    }
}

/// A header line: its name, and the place of its value in it; None where it is none.
fn header(line: &[u8]) -> Option<(&[u8], Span)>
    ensures line { option_map (λ x. (long_name x.0.now, bytes_at line.now x.1)) result ≡ header_at line.now }
    ensures within { IfSome result (λ x. x.1.from + x.1.len ≤ length line.now) }
{
    let (name, rest) = split_run(Class::Token, line);
    let (_, rest) = split_run(Class::Blank, rest);
    if name.is_empty() {
        return None;
    }
    let tail = skip_byte(b':', rest)?;
    let value = trimmed_span(line, line.len() - tail.len(), line.len());
    if is_value(bytes_at(line, value)) {
        Some((name, value))
    } else {
        None
    }
}

/// Reads a header line; the result has no name where the line is none.
fn header_line(alloc: Global, bytes: &[u8], line: &HeldValue) -> Result<Held, NoMemory>
    ensures { IfOk result (λ h. held_line bytes.now h ≡ header_line (value_of bytes.now line.now)) }
{
    match header(value_of(bytes, line)) {
        None => Ok((Text::new(), HeldValue::Edited(Edit::of(Text::new())))),
        Some((name, place)) => {
            let value = part_of(alloc, bytes, line, place)?;
            let name = Text::of(alloc, long_name(name))?;
            Ok((name, value))
        }
    }
}

/// Reads header lines, which are places among these bytes or texts of their own; a line that is no header line has no name.
pub fn headers(alloc: Global, bytes: &[u8], lines: &[HeldValue]) -> Result<List<Held>, NoMemory>
    ensures { IfOk result (λ hs. held_lines bytes.now hs ≡ map header_line (map (value_of bytes.now) lines.now)) }
{
    let mut headers = List::with_capacity(alloc, lines.len())?;
    for line in lines {
        let header = header_line(alloc, bytes, line)?;
        headers.push(alloc, header)?;
    }
    Ok(headers)
}
