//! The lines of a text, and numbers in the format of configurations and scripts.
ghost use Rattle.std.specs.Prelude.{◌≡◌, ◌<◌, ◌≤◌, ◌∷◌, [], length, MatchOption, IfSome, option_copied};
ghost use Rattle.mmtel_directory.specs.Lines.{lines_of, words_of, words_after, is_comment, number_from};

use mmtel_base::{plain_number, split_once_at};

/// The first line, without the LF that ends it, and what follows; None where there is no line.
pub fn next_line(bytes: &[u8]) -> Option<(&[u8], &[u8])>
    ensures line { MatchOption result (lines_of bytes.now ≡ []) (λ x. lines_of bytes.now ≡ x.0.now ∷ lines_of x.1.now) }
    ensures shorter { IfSome result (λ x. length x.1.now < length bytes.now) }
{
    if bytes.is_empty() {
        return None;
    }
    match split_once_at(b'\n', bytes) {
        Some((line, more)) => Some((line, more)),
        None => Some((bytes, &[])),
    }
}

/// The first word, and what follows the space after it; None where there is no space.
pub fn first_word(bytes: &[u8]) -> (&[u8], Option<&[u8]>)
    ensures words { words_of bytes.now ≡ result.0.now ∷ words_after (option_copied result.1) }
    ensures shorter { IfSome result.1 (λ more. length more.now < length bytes.now) }
{
    match split_once_at(b' ', bytes) {
        Some((word, more)) => (word, Some(more)),
        None => (bytes, None),
    }
}

/// Whether a line is ignored: it is empty, or begins with `#`.
pub fn is_comment(line: &[u8]) -> bool
    ensures { result ≡ is_comment line.now }
{
    match line {
        [] => true,
        [first, ..] => *first == b'#',
    }
}

/// The number, of at least the least and at most the limit, that the decimal digits write; None where they lead with a zero, are no such digits, or write another number.
pub fn number_from(least: u64, limit: u64, digits: &[u8]) -> Option<u64>
    ensures value { result ≡ number_from least limit digits.now }
    ensures at_most { IfSome result (λ n. n ≤ limit) }
{
    let number = plain_number(limit, digits)?;
    if number < least {
        return None;
    }
    Some(number)
}
