//! Barring in both directions, and the rejection of anonymous callers (TS 24.611).
//!
//! A result is the index of the rule that bars the call, `a` where its caller is rejected as anonymous, `-` where it is allowed. A row of incoming calls has two: of a user who
//! does not reject anonymous callers, and of one who does. A row of outgoing calls has one, and the other party is the target.

use crate::asserting::assert_right;
use crate::reading::{Called, Table, facts, read_called, sheet_of, wrong_line};
use mmtel_barring::{Barred, Refusal, incoming, outgoing};
use mmtel_rules::all_bar;
use mmtel_sheet_values::{BarPart, Sheet};
use mmtel_test_tables::Transcript;

/// The index of a rule that bars, or `-`.
fn place(rule: Option<usize>) -> &'static [u8] {
    match rule {
        None => b"-",
        Some(0) => b"0",
        Some(1) => b"1",
        Some(2) => b"2",
        Some(_) => b"?",
    }
}

/// The letter of a refusal, or `-`.
fn refused(refusal: Option<Refusal>) -> &'static [u8] {
    match refusal {
        None => b"-",
        Some(Refusal::Anonymous) => b"a",
        Some(Refusal::Barred { rule }) => place(Some(rule)),
    }
}

/// Writes why the user whose record has these keys and rules refuses a call.
fn write_incoming(transcript: &mut Transcript, keys: &[u8], line: &[u8], called: &Called) {
    let sheet = sheet_of(
        transcript,
        b"incoming-communication-barring",
        keys,
        b"",
        line,
    );
    if let Some(sheet) = sheet {
        transcript.add(refused(incoming(&sheet, &facts(called))));
        drop(sheet);
    }
}

/// Incoming calls.
struct Incoming;

impl Table for Incoming {
    fn write_row(transcript: &mut Transcript, line: &[u8], asked: &[u8]) {
        let called = read_called(transcript, asked);
        write_incoming(transcript, b"", line, &called);
        write_incoming(transcript, b"reject-anonymous = true, ", line, &called);
        drop(called);
    }
}

/// The rule of the record that bars an outgoing call, if one does.
fn barred_by(sheet: &Sheet, called: &Called) -> Option<usize> {
    match outgoing(sheet, &facts(called)) {
        None => None,
        Some(Barred { rule }) => Some(rule),
    }
}

/// Writes which rule of the record bars an outgoing call; `?` where `all_bar` gives another result.
fn write_bars(transcript: &mut Transcript, sheet: &Sheet, part: &BarPart, called: &Called) {
    let rule = barred_by(sheet, called);
    let same = rule == all_bar(part.rules.items(), &facts(called));
    transcript.add_if(same, place(rule), b"?");
}

/// Writes which of these rules bars an outgoing call.
fn write_outgoing(transcript: &mut Transcript, line: &[u8], called: &Called) {
    if let Some(sheet) = sheet_of(
        transcript,
        b"outgoing-communication-barring",
        b"",
        b"",
        line,
    ) {
        match &sheet.outgoing {
            None => transcript.fail(),
            Some(part) => write_bars(transcript, &sheet, part, called),
        }
        drop(sheet);
    }
}

/// Outgoing calls.
struct Outgoing;

impl Table for Outgoing {
    fn write_row(transcript: &mut Transcript, line: &[u8], asked: &[u8]) {
        let called = read_called(transcript, asked);
        write_outgoing(transcript, line, &called);
        drop(called);
    }
}

/// Everybody is barred with exceptions; the rule that is returned; anonymous callers.
const INCOMING: &[u8] =
    b"# Everybody is barred and alice is let through, in both orders of the rules, and by an exception of one rule; without the exception she is barred too.
:allow = false, many = \"*\"&allow = true, one = [\"sip:alice@home.example\"]
--|-0|sip:alice@home.example|
--|-0|sip:alice@home.example|tel:+4930111
00|-0|sip:erin@other.example|
00|-0||tel:+4930111
--|-0||
:allow = true, one = [\"sip:alice@home.example\"]&allow = false, many = \"*\"
--|-0|sip:alice@home.example|
11|-0|sip:erin@other.example|
--|-0||
:allow = false, many = \"*\", except = [\"sip:alice@home.example\"]
--|-0|sip:alice@home.example|
00|-0|sip:erin@other.example|
:allow = false, many = \"*\"
00|-0|sip:alice@home.example|
00|-0|sip:erin@other.example|
# The least rule that holds is named, unless one that holds allows the call; none holds, and it is let through.
:allow = false, one = [\"sip:alice@home.example\"]&allow = false, many = \"home.example\"&allow = true, one = [\"sip:carol@home.example\"]
00|-0|sip:alice@home.example|
11|-0|sip:bob@home.example|
--|-0|sip:carol@home.example|
--|-0|sip:erin@other.example|
:allow = true&allow = false
--|-0||
:allow = false&allow = true
--|-0||
:allow = true
--|-0|sip:alice@home.example|
:allow = false
00|-0||
:allow = false, media = [\"video\"]&allow = true, from = \"1970-01-01T00:00:00.100Z\", until = \"1970-01-01T00:00:00.200Z\"
00|-99 audio video||
--|-100 video||
--|-199 video||
00|-200 video||
--|-200 audio||
# Who hides an identity from a user who rejects that is refused before any rule is asked; who has none hides none.
-a|r0|sip:alice@home.example|
-a|r0||tel:+12015550123
-a|r0|sip:alice@home.example|tel:+4930111
--|r0||
--|-0|sip:alice@home.example|
--|-0||
:allow = false, many = \"*\"&allow = true, one = [\"sip:alice@home.example\"]
0a|r0|sip:erin@other.example|
-a|r0|sip:alice@home.example|
--|r0||
00|-0|sip:erin@other.example|
:allow = true
-a|r0|sip:alice@home.example|
--|r0||
:allow = false
0a|r0|sip:alice@home.example|
00|r0||
:allow = false, anonymous = true
0a|r0|sip:alice@home.example|
00|r0||
--|-0|sip:alice@home.example|
:allow = true, anonymous = true&allow = false
-a|r0|sip:alice@home.example|
--|r0||
11|-0|sip:alice@home.example|
# A call that was diverted before.
:allow = false, communication-diverted = true
00|d0|sip:alice@home.example|
--|-0|sip:alice@home.example|
:allow = true, communication-diverted = true&allow = false
--|d0|sip:alice@home.example|
11|-0|sip:alice@home.example|
";

#[test]
fn incoming_calls(rt: HostRuntime) {
    assert_right(
        &rt,
        "INCOMING",
        wrong_line::<Incoming>(rt.alloc(), INCOMING),
    );
}

/// A foreign domain and a number are barred.
const OUTGOING: &[u8] =
    b"# Calls of a user who bars a foreign domain and a number, and lets one of the domain through; whether the user hides has no say.
-|-0|sip:bob@far.example|
:allow = false, many = \"far.example\"&allow = false, one = [\"tel:+499001234\"]
0|-0|sip:bob@far.example|
0|r0|sip:bob@FAR.example|
-|-0|sip:bob@home.example|
1|-0||tel:+49-900-1234
1|-0|sip:+499001234@home.example;user=phone|
-|-0|sip:+499001234@home.example|
-|-0||tel:+4930111
:allow = true, one = [\"sip:vm@far.example\"]&allow = false, many = \"far.example\"
-|-0|sip:vm@far.example|
1|-0|sip:bob@far.example|
:allow = false, many = \"far.example\"&allow = true, one = [\"sip:vm@far.example\"]
-|-0|sip:vm@far.example|
0|-0|sip:bob@far.example|
:allow = false, media = [\"video\"]
0|-0 audio video|sip:bob@home.example|
-|-0 audio|sip:bob@home.example|
-|-0|sip:bob@home.example|
# A call to another country.
:allow = false, international = true
0|a0||tel:+33155
-|-0||tel:+4930111
:allow = false, international = false
0|a0||tel:+33155
0|-0||tel:+4930111
:allow = true, international = true&allow = false
-|a0||tel:+33155
1|-0||tel:+4930111
:allow = false, international = true, many = \"far.example\"
-|a0||tel:+33155
0|a0|sip:+33155@far.example;user=phone|
-|-0|sip:alice@far.example|
";

#[test]
fn outgoing_calls(rt: HostRuntime) {
    assert_right(
        &rt,
        "OUTGOING",
        wrong_line::<Outgoing>(rt.alloc(), OUTGOING),
    );
}
