//! Which targets are abroad.
ghost use Rattle.std.specs.Prelude.{◌≡◌};
ghost use Rattle.std.specs.Option.{option_copied};
ghost use Rattle.mmtel_lex.specs.Identity.{has_user_phone, is_visual_separator, without_separators};
ghost use Rattle.mmtel_rules.specs.Abroad.{are_digits, digits_after_plus, global_digits, is_abroad, is_prefix_of, user_digits};

use mmtel_base::{Class, is_all};
use mmtel_lex::{Param, Text, Uri, param_value};

fn is_visual_separator(byte: u8) -> bool
    ensures { result ≡ is_visual_separator byte }
{
    byte == b'-' || byte == b'.' || byte == b'(' || byte == b')'
}

/// Whether the number, without its visual separators, begins with these digits.
fn is_prefix_of(digits: &[u8], number: &[u8]) -> bool
    ensures { result ≡ is_prefix_of digits.now (without_separators number.now) }
{
    let mut wanted = digits;
    let mut rest = number;
    'bytes: loop {
        let [digit, digits_left @ ..] = wanted else {
            return true;
        };
        let [byte, bytes_left @ ..] = rest else {
            return false;
        };
        if !is_visual_separator(*byte) {
            if digit != byte {
                return false;
            }
            wanted = digits_left;
        }
        rest = bytes_left;
    }
}

fn are_digits(bytes: &[u8]) -> bool
    ensures { result ≡ are_digits bytes.now }
{
    !bytes.is_empty() && is_all(Class::Digit, bytes)
}

fn has_user_phone(params: &[Param]) -> bool
    ensures { result ≡ has_user_phone params.now }
{
    match param_value(params, b"user") {
        None => false,
        Some(value) => value == b"phone".as_slice(),
    }
}

/// What follows the `+`.
fn digits_after_plus(bytes: &[u8]) -> Option<&[u8]>
    ensures { option_copied result ≡ digits_after_plus bytes.now }
{
    match bytes {
        [b'+', rest @ ..] => Some(rest),
        _ => None,
    }
}

/// The digits of the number that a sip URI with this user and these parameters represents.
fn user_digits<'a>(user: &'a Option<Text>, params: &[Param]) -> Option<&'a [u8]>
    ensures { option_copied result ≡ user_digits user.now params.now }
{
    let Some(user) = user else {
        return None;
    };
    if !has_user_phone(params) {
        return None;
    }
    match digits_after_plus(user.bytes()) {
        Some(digits) if are_digits(digits) => Some(digits),
        _ => None,
    }
}

/// What follows the `+` of the global number that the URI is, or represents.
fn global_digits(uri: &Uri) -> Option<&[u8]>
    ensures { option_copied result ≡ global_digits uri.now }
{
    match uri {
        Uri::Sip { user, params, .. } => user_digits(user, params.items()),
        Uri::Tel { number, .. } => digits_after_plus(number.bytes()),
    }
}

/// Whether the URI is a telephone number of another country, or represents one (TS 24.611 §4.9.1.3); never where the home country is not known. It allocates nothing.
pub fn abroad(uri: &Uri, country: Option<&Text>) -> bool
    ensures exact { result ≡ is_abroad uri.now (option_copied country.entry) }
{
    let Some(country) = country else {
        return false;
    };
    match global_digits(uri) {
        Some(digits) => !is_prefix_of(country.bytes(), digits),
        None => false,
    }
}
