//! The settings with which a script may begin, a line each, and their effect on the devices of a run.
//!
//! `=words:` the words of the run, separated by `|`; `=config:` another configuration, and `=further:` lines after it, each ended by `;` (LF) or `^;` (CR LF), and of a pair of
//! runs `=one:` those after the one and `=other:` after the other; `=no-config` and `=no-script` where that file does not exist; `=file:NAME LINES` one more; `=record:ACCOUNT
//! LINES` what the keeper holds before; `=reads:`, `=keeps:`, `=writes:` and `=link:` the numbers of the reads, of the keeper's calls, of the writes and of the link's calls that
//! fail; `=journal` where the keeper is one over a journal in memory, and then `=disk:` in place of `=keeps:` the numbers of the calls of its disk that fail; `=room:` and `=most:`
//! how many bytes the sink accepts in all and in one write; `=then:` the words of a second run over the same keeper, and `=before:` the status of the first one, 0 where it is
//! absent.
//!
//! With `=link:`, which may name no call, the events of the script come over a link too, and the outputs of that link are written after what was written: each datagram after the
//! port to which it goes, and then the replies, the first line of each; with `=whole` each whole, its lines after `|`, except the first.

use crate::pages::{Page, add_short};
use mmtel_base::{List, plain_number, skip_text, split_once_at};
use mmtel_test_tables::split_or_all;

/// A server with a trusted peer and one that is not.
const CONFIG: &[u8] = b"sip 127.0.0.1:5060
web 127.0.0.1:8080
home home.example
peer 1 127.0.0.1:5071 trusted
peer 2 127.0.0.1:5072 untrusted
route home.example 1
route far.example 2
account 1 sip:alice@home.example tel:+4930111
account 2 sip:bob@home.example
account 3 sip:carol@home.example
operator sip:op@home.example
mixer 127.0.0.1 40000
factory sip:conf@home.example
";

/// The first setting of a script, and what follows it.
pub fn first_setting(script: &[u8]) -> Option<(&[u8], &[u8])> {
    let (line, later) = split_once_at(b'\n', script)?;
    let line = skip_text(b"=", line)?;
    Some((line, later))
}

/// The value of a setting, whose line begins with this key.
pub fn setting<'a>(script: &'a [u8], key: &[u8]) -> Option<&'a [u8]> {
    let mut rest = script;
    for _ in 0..12 {
        let (line, later) = first_setting(rest)?;
        if let Some(value) = skip_text(key, line) {
            return Some(value);
        }
        rest = later;
    }
    None
}

/// The value of a setting; no bytes where it is absent.
pub fn value<'a>(script: &'a [u8], key: &[u8]) -> &'a [u8] {
    setting(script, key).unwrap_or(b"")
}

/// What follows the settings.
pub fn behind_settings(script: &[u8]) -> &[u8] {
    let mut rest = script;
    for _ in 0..12 {
        match first_setting(rest) {
            None => break,
            Some((_, later)) => rest = later,
        }
    }
    rest
}

/// The word, and what follows the space after it.
fn word(words: &[u8]) -> (&[u8], &[u8]) {
    split_or_all(b' ', words)
}

/// The numbers in a setting.
pub fn numbers(page: &mut Page, script: &[u8], key: &[u8]) -> List<u64> {
    let mut list = List::new();
    let mut rest = value(script, key);
    for _ in 0..12 {
        if rest.is_empty() {
            break;
        }
        let (digits, later) = word(rest);
        let number = plain_number(65_536, digits).unwrap_or(0);
        if list.push(page.alloc, number).is_err() {
            page.fail();
        }
        rest = later;
    }
    list
}

/// The number of bytes in a setting; the maximum length of a listing where it is absent.
pub fn bytes_of(script: &[u8], key: &[u8]) -> usize {
    let most: usize = 65_536;
    match plain_number(65_536, value(script, key)) {
        Some(number) => number as usize,
        None => most,
    }
}

/// The configuration.
pub fn config(page: &Page, script: &[u8]) -> Page {
    let mut text = Page::new(page.alloc);
    match setting(script, b"config:") {
        Some(lines) => add_short(&mut text, lines),
        None => text.add(CONFIG),
    }
    add_short(&mut text, value(script, b"further:"));
    text
}

/// The lines after the configuration of the first or of the second of two runs.
pub fn of_pair(script: &[u8], first: bool) -> &[u8] {
    if first {
        value(script, b"one:")
    } else {
        value(script, b"other:")
    }
}

/// The name or number with which a setting begins, and its lines after it.
pub fn named<'a>(page: &Page, setting: &'a [u8]) -> (&'a [u8], Page) {
    let (name, lines) = word(setting);
    let mut text = Page::new(page.alloc);
    add_short(&mut text, lines);
    (name, text)
}
