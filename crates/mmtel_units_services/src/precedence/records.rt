//! Records, calls and events from the rows of tables.
//!
//! A record is its tables in the format of a TOML document, separated by `;`. A call is `r` where its caller is anonymous, `u` where the account that it reaches is not registered,
//! else `-` in their places, the number of calls that the account has, and the URI of the caller, or nothing.

use crate::reading::{first_moment, identity, read_tables};
use mmtel_base::number_up_to;
use mmtel_lex::{List, Text};
use mmtel_precedence::Ending;
use mmtel_rules::{Facts, Identities2};
use mmtel_sheet_values::Sheet;
use mmtel_test_tables::{Transcript, split_or_all};
use mmtel_types::Moment;

/// A call of a table.
#[derive(Drop)]
pub struct Called {
    pub caller: Identities2,
    pub restricted: bool,
    pub media: List<Text>,
    pub now: Moment,
    pub registered: bool,
    pub live: u32,
}

pub fn facts(called: &Called) -> Facts<'_> {
    Facts {
        caller: &called.caller,
        restricted: called.restricted,
        media: &called.media,
        now: called.now,
        diverted: false,
        abroad: false,
    }
}

fn number(transcript: &mut Transcript, digits: &[u8]) -> u16 {
    match number_up_to(60_000, digits) {
        Some(number) => u16::try_from(number).unwrap_or(0),
        None => {
            transcript.fail();
            0
        }
    }
}

/// Four numbers with spaces between them.
pub fn numbers(transcript: &mut Transcript, words: &[u8]) -> (u16, u16, u16, u16) {
    let (first, rest) = split_or_all(b' ', words);
    let (second, rest) = split_or_all(b' ', rest);
    let (third, fourth) = split_or_all(b' ', rest);
    (
        number(transcript, first),
        number(transcript, second),
        number(transcript, third),
        number(transcript, fourth),
    )
}

/// The sheet of the record of these tables, which are separated by `;`.
pub fn read_record(transcript: &mut Transcript, tables: &[u8]) -> Option<Sheet> {
    read_tables(transcript, b';', tables)
}

/// The party with a sip URI; without identities where there are no bytes.
fn party(transcript: &mut Transcript, uri: &[u8]) -> Identities2 {
    let sip = identity(transcript, uri);
    Identities2 { sip, tel: None }
}

/// The three letters of a call, and its URI.
fn letters(call: &[u8]) -> (u8, u8, u8, &[u8]) {
    match call {
        [hidden, absent, live, uri @ ..] => (*hidden, *absent, *live, uri),
        _ => (b'?', b'?', b'?', b"?"),
    }
}

/// The call of a row.
pub fn read_call(transcript: &mut Transcript, call: &[u8]) -> Called {
    let (hidden, absent, live, uri) = letters(call);
    let caller = party(transcript, uri);
    Called {
        caller,
        restricted: hidden == b'r',
        media: List::new(),
        now: first_moment(),
        registered: absent != b'u',
        live: u32::from(live.wrapping_sub(b'0')),
    }
}

/// The event: `arrived`, `busy N`, `silent N`, `no-reply`, `deflected`, `alerted` or `other N`.
pub fn read_ending(transcript: &mut Transcript, words: &[u8]) -> Ending {
    let (name, code) = split_or_all(b' ', words);
    match name {
        b"arrived" => Ending::Arrived,
        b"busy" => Ending::UserBusy(number(transcript, code)),
        b"silent" => Ending::NotReachable(number(transcript, code)),
        b"no-reply" => Ending::NoReply,
        b"deflected" => Ending::Deflected { alerted: false },
        b"alerted" => Ending::Deflected { alerted: true },
        _ => {
            transcript.fail_unless(name == b"other".as_slice());
            Ending::Other(number(transcript, code))
        }
    }
}
