//! The values that `clap` finds in the words of a command.
ghost use Rattle.std.specs.Prelude.{◌≡◌, map, true, option_map};
ghost use Rattle.std.specs.List.{list_all};
ghost use Rattle.clap.specs.Words.{app_of, is_simple_and_free};
ghost use Rattle.mmtel_words.specs.CommandLine.{is_hex, is_token};
ghost use Rattle.mmtel_words.specs.Reads.{IsNumber, IsText, IsToken, MatchesIn, value_of};

use crate::faults::WordsFault;
use clap::error::ErrorKind;
use clap::{ArgMatches, Command};
use mmtel_base::{Text, plain_number};
use std::alloc::Global;

/// Whether a byte is a lower-case hexadecimal digit.
fn is_hex_digit(byte: u8) -> bool
    ensures { result ≡ is_hex byte }
{
    matches!(byte, b'0'..=b'9' | b'a'..=b'f')
}

/// Whether all bytes are lower-case hexadecimal digits.
fn is_all_hex(word: &[u8]) -> bool
    ensures { result ≡ list_all is_hex word.now }
{
    word.iter().all(|byte| is_hex_digit(*byte))
}

/// Whether a word is a token: 16 lower-case hexadecimal digits.
fn is_token(word: &[u8]) -> bool
    ensures { result ≡ is_token word.now }
{
    word.len() == 16 && is_all_hex(word)
}

/// The arguments that a command finds in the words after its name.
pub fn find_matches<'a>(
    command: Command<'a>,
    words: &'a [&'a str],
) -> Result<ArgMatches<'a>, WordsFault>
    requires { is_simple_and_free (app_of command) ≡ true }
    ensures { MatchesIn (app_of command.entry) (map (λ w. w.now) words.entry.now) result }
{
    match command.try_get_matches_from(words) {
        Ok(matches) => Ok(matches),
        Err(e) => {
            if e.kind() == ErrorKind::OutOfMemory {
                Err(WordsFault::NoMemory)
            } else {
                Err(WordsFault::Words)
            }
        }
    }
}

/// The value of that name.
fn value<'a>(matches: &ArgMatches<'a>, name: &str) -> Option<&'a str>
    ensures { option_map (λ s. s.now) result ≡ value_of matches.now name.now }
{
    matches.get_str(name)
}

/// The text of that name.
pub fn text(alloc: Global, matches: &ArgMatches<'_>, name: &str) -> Result<Text, WordsFault>
    ensures { IsText (value_of matches.now name.now) result }
{
    match value(matches, name) {
        Some(value) => {
            let text = Text::of(alloc, value.as_bytes())?;
            Ok(text)
        }
        None => Err(WordsFault::Words),
    }
}

/// The token of that name.
pub fn token(alloc: Global, matches: &ArgMatches<'_>, name: &str) -> Result<Text, WordsFault>
    ensures { IsToken (value_of matches.now name.now) result }
{
    let token = text(alloc, matches, name)?;
    if is_token(token.bytes()) {
        Ok(token)
    } else {
        Err(WordsFault::Words)
    }
}

/// The number of that name, within these limits.
pub fn number(
    matches: &ArgMatches<'_>,
    name: &str,
    least: u64,
    most: u64,
) -> Result<u64, WordsFault>
    ensures { IsNumber (value_of matches.now name.now) least most result }
{
    match value(matches, name) {
        Some(value) => match plain_number(most, value.as_bytes()) {
            Some(number) if number >= least => Ok(number),
            _ => Err(WordsFault::Words),
        },
        None => Err(WordsFault::Words),
    }
}

/// The number of that name, of 32 bits, within these limits.
pub fn small_number(
    matches: &ArgMatches<'_>,
    name: &str,
    least: u32,
    most: u32,
) -> Result<u32, WordsFault>
    ensures { IsNumber (value_of matches.now name.now) least most result }
{
    let number = number(matches, name, u64::from(least), u64::from(most))?;
    Ok(number as u32)
}
