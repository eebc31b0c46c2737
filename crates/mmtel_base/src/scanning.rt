//! Scanners: a prefix of a list of bytes, and what follows it.
ghost use Rattle.std.specs.Prelude.{position, ◌==◌, true, false, List, ℕ, ◌++◌, ◌∷◌, IsNone, ◌≡◌, ◌≤◌, ◌<◌, length, IfSome, take, drop};
ghost use Rattle.std.specs.List.{prefix_len};
ghost use Rattle.std.specs.Option.{option_copied, option_map};
ghost use Rattle.mmtel_base.specs.Classes.{in_class, IsAll};
ghost use Rattle.mmtel_base.specs.Scanning.{leading_run, after_run, after_byte, after_text, split_once_at, is_quoted_content};
ghost use Rattle.mmtel_base.specs.Scanning.{closing_quote_from, IsClosedAt, without_trailing, without_outer};

use crate::classes::Class;

/// How many bytes from the start are of the class.
fn run_len(class: Class, bytes: &[u8]) -> usize
    ensures place { result ≡ prefix_len (in_class class) bytes.now }
    ensures within { result ≤ length bytes.now }
{
    for (i, byte) in bytes.iter().enumerate() {
        if !class.has(*byte) {
            return i;
        }
    }
    bytes.len()
}

/// The longest prefix of bytes of the class, and what follows it.
#[tactic(auto, unfolding(crate::specs::Scanning::leading_run, crate::specs::Scanning::after_run))]
pub fn split_run(class: Class, bytes: &[u8]) -> (&[u8], &[u8])
    ensures front { result.0.now ≡ leading_run class bytes.now }
    ensures rest { result.1.now ≡ after_run class bytes.now }
    ensures shorter { length result.1.now ≤ length bytes.now }
    ensures each { IsAll class result.0.now }
{
    bytes.split_at(run_len(class, bytes))
}

/// What follows the byte, where it comes first.
pub fn skip_byte(byte: u8, bytes: &[u8]) -> Option<&[u8]>
    ensures value { option_copied result ≡ after_byte byte bytes.now }
    ensures shorter { IfSome result (λ rest. length rest.now < length bytes.now) }
{
    match bytes {
        [first, rest @ ..] if *first == byte => Some(rest),
        _ => None,
    }
}

/// The place of the first such byte.
fn position_of(byte: u8, bytes: &[u8]) -> Option<usize>
    ensures { result ≡ position (λ x. x == byte) bytes.now }
{
    bytes.iter().position(|b| *b == byte)
}

/// What comes before the first such byte, and what comes after it.
#[tactic(auto, unfolding(crate::specs::Scanning::split_once_at))]
pub fn split_once_at(byte: u8, bytes: &[u8]) -> Option<(&[u8], &[u8])>
    ensures { option_map (λ x. (x.0.now, x.1.now)) result ≡ split_once_at byte bytes.now }
{
    match position_of(byte, bytes) {
        None => None,
        Some(at) => Some((&bytes[..at], &bytes[at + 1..])),
    }
}

/// The place of the first quote that no backslash escapes.
fn quote_position(bytes: &[u8]) -> Option<usize>
    ensures place { result ≡ closing_quote_from false bytes.now }
    ensures within { IfSome result (λ at. at < length bytes.now) }
{
    let mut escaped = false;
    for (i, byte) in bytes.iter().enumerate() {
        if escaped {
            escaped = false;
        } else if *byte == b'"' {
            return Some(i);
        } else {
            escaped = *byte == b'\\';
        }
    }
    None
}

/// The place of the quote that closes a quoted string, whose opening quote came before (RFC 3261 §25.1).
pub fn closing_quote(bytes: &[u8]) -> Option<usize>
    ensures place { result ≡ closing_quote_from false bytes.now }
    ensures within { IfSome result (λ at. at < length bytes.now) }
    // What comes before it is the inside of a quoted string.
    ensures quoted { IfSome result (λ at. IsClosedAt bytes.now at) }
    // There is none only where no prefix of the bytes is such an inside followed by its quote.
    ensures unclosed { IsNone result → (inner rest : List ℕ) → bytes.now ≡ inner ++ 34 ∷ rest → is_quoted_content false inner ≡ true → ⊥ }
{
    quote_position(bytes)
}

/// The bytes without those of the class at the end.
pub fn trim_end(class: Class, bytes: &[u8]) -> &[u8]
    ensures { result.now ≡ without_trailing class bytes.now }
{
    let mut len = bytes.len();
    'back: while len > 0 {
        if !class.has(bytes[len - 1]) {
            break;
        }
        len -= 1;
    }
    &bytes[..len]
}

/// The bytes without those of the class at both ends.
pub fn trim(class: Class, bytes: &[u8]) -> &[u8]
    ensures { result.now ≡ without_outer class bytes.now }
{
    let (_, rest) = split_run(class, bytes);
    trim_end(class, rest)
}

/// What follows these bytes, where they come first.
pub fn skip_text<'a>(prefix: &[u8], bytes: &'a [u8]) -> Option<&'a [u8]>
    ensures { option_copied result ≡ after_text prefix.now bytes.now }
{
    if bytes.len() < prefix.len() {
        return None;
    }
    let len = prefix.len();
    if &bytes[..len] == prefix {
        Some(&bytes[len..])
    } else {
        None
    }
}
