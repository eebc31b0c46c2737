//! What a value of History-Info is (RFC 7044 §5).
ghost use Rattle.std.specs.Prelude.{◌≡◌, false};
ghost use Rattle.std.specs.Option.{option_copied};
ghost use Rattle.mmtel_message.specs.Entries.{dotted_step, is_dotted, is_index_value, is_entry, are_entries};
ghost use Rattle.mmtel_message.specs.Values.{values_of};

use crate::values::{Mode, next_part};
use mmtel_base::{Class, trim};
use mmtel_lex::name_addr_ref;

fn dotted_step(digit: bool, byte: u8) -> Option<bool>
    ensures { result ≡ dotted_step digit byte }
{
    if byte.is_ascii_digit() {
        return Some(true);
    }
    if digit && byte == b'.' {
        return Some(false);
    }
    None
}

fn is_dotted(bytes: &[u8]) -> bool
    ensures { result ≡ is_dotted false bytes.now }
{
    let mut digit = false;
    for b in bytes {
        match dotted_step(digit, *b) {
            None => return false,
            Some(next) => digit = next,
        }
    }
    digit
}

/// Whether the value of a parameter `index` is a place in History-Info: numbers separated by dots (RFC 7044 §5, index-val). There is none where the parameter is absent
/// or has no value.
pub fn is_index_value(value: Option<&[u8]>) -> bool
    ensures { result ≡ is_index_value (option_copied value.entry) }
{
    match value {
        None => false,
        Some(value) => is_dotted(value),
    }
}

fn is_entry(value: &[u8]) -> bool
    ensures { result ≡ is_entry value.now }
{
    match name_addr_ref(value) {
        None => false,
        Some(read) => is_index_value(read.param(b"index")),
    }
}

/// Whether each value of this text, a list of values, is a value of History-Info.
pub fn are_entries(value: &[u8]) -> bool
    ensures { result ≡ are_entries (values_of value.now) }
{
    let mut rest = Some(value);
    'parts: while let Some(more) = rest {
        let (part, after) = next_part(Mode::Plain, more);
        if !is_entry(trim(Class::Blank, part)) {
            return false;
        }
        rest = after;
    }
    true
}
