//! Numbers in decimal digits.
ghost use Rattle.std.specs.Prelude.{◌≡◌, ◌≤◌, ◌++◌, ℕ, IfOk, IfSome, OnErr, OnOk, Some, decimal};
ghost use Rattle.mmtel_base.specs.Classes.{IsAll};
ghost use Rattle.mmtel_base.specs.declared.classes.Class.TheVariants.{Digit};
ghost use Rattle.mmtel_base.specs.Numbers.{has_leading_zero, number_of, plain_number, token_text, value_up_to};

use crate::classes::{Class, is_all};
use crate::memory::NoMemory;
use crate::texts::Text;
use itoa::Buffer;
use std::alloc::Global;

/// The number that the digits write, where it is at most the limit.
#[tactic(auto, unfolding(crate::specs::Numbers::value_up_to))]
fn value_up_to(limit: u64, digits: &[u8]) -> Option<u64>
    requires { IsAll Digit digits.now }
    ensures value { result ≡ value_up_to limit digits.now }
    ensures at_most { IfSome result (λ n. n ≤ limit) }
{
    let mut number: u128 = 0;
    for digit in digits {
        number = number * 10 + u128::from(*digit - b'0');
        if number > u128::from(limit) {
            return None;
        }
    }
    Some(number as u64)
}

/// The number that the bytes write; None where they are not one digit or more, or write a number over the limit.
///
/// Leading zeros are accepted: SIP has them (RFC 3261 §25.1, `1*DIGIT`).
#[tactic(auto, unfolding(crate::specs::Numbers::number_of))]
pub fn number_up_to(limit: u64, bytes: &[u8]) -> Option<u64>
    ensures value { result ≡ number_of limit bytes.now }
    ensures at_most { IfSome result (λ n. n ≤ limit) }
{
    if bytes.is_empty() {
        return None;
    }
    if !is_all(Class::Digit, bytes) {
        return None;
    }
    value_up_to(limit, bytes)
}

/// Whether a zero comes first and is not alone.
pub fn has_leading_zero(digits: &[u8]) -> bool
    ensures test { result ≡ has_leading_zero digits.now }
{
    match digits {
        [first, _, ..] => *first == b'0',
        _ => false,
    }
}

/// The number, at most the limit, that the decimal digits write; None where they begin with a superfluous zero or are no such digits.
pub fn plain_number(limit: u64, digits: &[u8]) -> Option<u64>
    ensures value { result ≡ plain_number limit digits.now }
    ensures at_most { IfSome result (λ n. n ≤ limit) }
    // The digits with which such a number is printed are read, and no others.
    ensures spelled { IfSome result (λ n. digits.now ≡ decimal n) }
    ensures reads { (n : ℕ) → n ≤ limit → digits.now ≡ decimal n → result ≡ Some n }
{
    if has_leading_zero(digits) {
        return None;
    }
    number_up_to(limit, digits)
}

/// Appends the decimal digits of a number, without leading zeros.
///
/// # Errors
///
/// Out of memory only; the text is then as before.
pub fn add_number(alloc: Global, out: &mut Text, number: u64) -> Result<(), NoMemory>
    ensures added { OnOk result (out.new ≡ out.old ++ decimal number) }
    ensures refused { OnErr result (out.new ≡ out.old) }
{
    let mut buffer = Buffer::new();
    out.push(alloc, buffer.format(number).as_bytes())
}

/// The value of a tag, branch or Call-ID that is made of a token and a number: `TOKEN-n` (RFC 3261 §19.3, §8.1.1.7, §8.1.1.4).
///
/// # Errors
///
/// Out of memory only.
pub fn token_text(alloc: Global, token: &[u8], number: u64) -> Result<Text, NoMemory>
    ensures text { IfOk result (λ t. t ≡ token_text token.now number) }
{
    let mut buffer = Buffer::new();
    let digits = buffer.format(number).as_bytes();
    let mut out = Text::with_capacity(alloc, token.len().saturating_add(1 + digits.len()))?;
    out.push(alloc, token)?;
    out.push(alloc, b"-")?;
    out.push(alloc, digits)?;
    Ok(out)
}
