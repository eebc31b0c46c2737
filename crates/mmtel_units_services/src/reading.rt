//! Records and calls from the rows of tables.
//!
//! A table is one text, which is written again with the actual results. A line that begins with `#` is a heading. One that begins with `:` has the rules of the rows below it, in
//! the format of records, separated by `&`. A row is its results and, after `|`, the input.
//! A call is its facts, the sip URI of the other party and its tel URI, separated by `|`. The facts are `r` where the caller is anonymous, else `-`; the moment; and the kinds of
//! media that are offered, each after a space.

use mmtel_base::{number_up_to, split_once_at};
use mmtel_lex::{List, Text, Uri, read_uri};
use mmtel_rules::{Facts, Identities2};
use mmtel_sheet_reader::read_sheet;
use mmtel_sheet_values::Sheet;
use mmtel_test_tables::{Transcript, next_line, split_or_all};
use mmtel_types::Moment;
use mmtel_types::limits::LAST_MOMENT;
use std::alloc::Global;

/// The test of a table.
pub trait Table {
    /// Writes the results of a row under the line above it that begins with `:`, which has no bytes where there is none.
    fn write_row(transcript: &mut Transcript, line: &[u8], asked: &[u8]);
}

/// Writes a row with its results.
fn write_row<T: Table>(transcript: &mut Transcript, line: &[u8], row: &[u8]) {
    let (_answers, asked) = split_or_all(b'|', row);
    T::write_row(transcript, line, asked);
    transcript.add(b"|");
    transcript.add_line(asked);
}

/// The number of the first line of a table, from 1, that differs from the actual one; 0 where none does.
pub fn wrong_line<T: Table>(alloc: Global, table: &[u8]) -> usize {
    let mut transcript = Transcript::new(alloc);
    let mut above: &[u8] = b"";
    let mut rest = table;
    for _ in 0..400 {
        let (line, later) = next_line(rest);
        rest = later;
        match line {
            [] => {}
            [b'#', ..] => {
                above = b"";
                transcript.add_line(line);
            }
            [b':', ..] => {
                above = line;
                transcript.add_line(line);
            }
            _ => write_row::<T>(&mut transcript, above, line),
        }
    }
    transcript.wrong_line(table)
}

/// A call of a row.
#[derive(Drop)]
pub struct Called {
    pub party: Identities2,
    pub restricted: bool,
    pub media: List<Text>,
    pub now: Moment,
    pub diverted: bool,
    pub abroad: bool,
}

pub fn facts(called: &Called) -> Facts<'_> {
    Facts {
        caller: &called.party,
        restricted: called.restricted,
        media: &called.media,
        now: called.now,
        diverted: called.diverted,
        abroad: called.abroad,
    }
}

/// The sheet of the record of these tables, which are separated by this byte.
pub fn read_tables(transcript: &mut Transcript, parted_by: u8, tables: &[u8]) -> Option<Sheet> {
    let mut text = Transcript::new(transcript.alloc);
    text.add_ended(parted_by, tables, b"\n");
    transcript.fail_unless(!text.has_failed());
    let sheet = read_sheet(transcript.alloc, text.bytes());
    transcript.value_or_fail(sheet)
}

/// A URI; none of no bytes.
pub fn identity(transcript: &mut Transcript, uri: &[u8]) -> Option<Uri> {
    if uri.is_empty() {
        return None;
    }
    let uri = read_uri(transcript.alloc, uri);
    transcript.value_or_fail(uri)
}

/// The party with a sip URI and a tel URI, of which each may be absent.
fn party(transcript: &mut Transcript, uris: &[u8]) -> Identities2 {
    let (sip, tel) = split_or_all(b'|', uris);
    let sip = identity(transcript, sip);
    let tel = identity(transcript, tel);
    Identities2 { sip, tel }
}

/// The kinds of media, with a space between two, at most four.
fn kinds(transcript: &mut Transcript, words: &[u8]) -> List<Text> {
    let mut kinds = List::new();
    let mut rest = words;
    for _ in 0..4 {
        if !rest.is_empty() {
            let (word, later) = split_or_all(b' ', rest);
            let kind = transcript.copy(word);
            let done = kinds.push(transcript.alloc, kind);
            transcript.fail_unless(done.is_ok());
            rest = later;
        }
    }
    transcript.fail_unless(rest.is_empty());
    kinds
}

/// The moment of 0 milliseconds.
pub fn first_moment() -> Moment {
    match Moment::new(0) {
        Some(moment) => moment,
        None => unreachable!(),
    }
}

fn moment(transcript: &mut Transcript, digits: &[u8]) -> Moment {
    match number_up_to(LAST_MOMENT, digits) {
        Some(ms) => Moment::new(ms).unwrap_or(first_moment()),
        None => {
            transcript.fail();
            first_moment()
        }
    }
}

/// The flags of the call, and the digits of the moment.
fn flagged(when: &[u8]) -> (u8, &[u8]) {
    match when {
        [flag, digits @ ..] => (*flag, digits),
        [] => (b'-', b""),
    }
}

/// The call of a row: the facts, and the URIs of the other party. Its first byte is `r` where the caller is anonymous, `d` where the call was diverted before, `a` where its target
/// is abroad, and else `-`.
pub fn read_called(transcript: &mut Transcript, row: &[u8]) -> Called {
    let (known, uris) = split_or_all(b'|', row);
    let (when, media) = split_or_all(b' ', known);
    let (flag, digits) = flagged(when);
    let now = moment(transcript, digits);
    let party = party(transcript, uris);
    let media = kinds(transcript, media);
    Called {
        party,
        restricted: flag == b'r',
        media,
        now,
        diverted: flag == b'd',
        abroad: flag == b'a',
    }
}

/// Writes a rule after these keys.
fn write_rule(out: &mut Transcript, keys: &[u8], rule: &[u8]) {
    out.add(b"{ ");
    out.add(keys);
    out.add(rule);
    out.add(b" }, ");
}

/// Writes the rules of a line, at most nine, each after these keys.
fn write_rules(out: &mut Transcript, keys: &[u8], line: &[u8]) {
    let mut rest = line;
    for _ in 0..8 {
        if let Some((rule, later)) = split_once_at(b'&', rest) {
            write_rule(out, keys, rule);
            rest = later;
        }
    }
    write_rule(out, keys, rest);
}

/// The sheet of the record of one table: these keys of the table, and the rules of a line, each after these keys of a rule. A line of no bytes has no rules, and any other
/// begins with `:`. The record is of the second version.
pub fn sheet_of(
    transcript: &mut Transcript,
    table: &[u8],
    table_keys: &[u8],
    rule_keys: &[u8],
    line: &[u8],
) -> Option<Sheet> {
    let mut text = Transcript::new(transcript.alloc);
    text.add(b"version = 2\n");
    text.add(table);
    text.add(b" = { ");
    text.add(table_keys);
    text.add(b"rule = [");
    if let [_colon, rules @ ..] = line {
        write_rules(&mut text, rule_keys, rules);
    }
    text.add(b"] }\n");
    transcript.fail_unless(!text.has_failed());
    let sheet = read_sheet(transcript.alloc, text.bytes());
    transcript.value_or_fail(sheet)
}
