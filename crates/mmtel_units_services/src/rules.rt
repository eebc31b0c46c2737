//! Conditions over facts, and the rules that decide (RFC 4745 §6 and §7, TS 24.604 §4.9.1).
//!
//! The results of a row are five: as the call arrives at a registered user, as it arrives at one who is not registered, at a busy user, without an answer, at a user who cannot be
//! reached. Each is the index of the first rule that holds, or `-`. Rules divert, and a line has the keys after the target.
//!
//! Of targets the result is `a` where one is abroad, else `-`; a line has the digits of the home country.

use crate::asserting::assert_right;
use crate::reading::{Called, Table, facts, identity, read_called, sheet_of, wrong_line};
use mmtel_lex::Text;
use mmtel_rules::{Facts, When, abroad, first, holds};
use mmtel_sheet_values::Rule;
use mmtel_test_tables::Transcript;

/// The index of the first rule that holds, evaluated one after the other.
fn first_by_holds(rules: &[Rule], facts: &Facts, when: When) -> Option<usize> {
    rules
        .iter()
        .position(|rule| holds(&rule.condition, facts, when))
}

/// The index of the first rule that holds.
fn place(rule: Option<usize>) -> &'static [u8] {
    match rule {
        None => b"-",
        Some(0) => b"0",
        Some(1) => b"1",
        Some(2) => b"2",
        Some(3) => b"3",
        Some(_) => b"?",
    }
}

/// Writes a result of a row; `?` where `first` and `holds` do not agree.
fn write_response(transcript: &mut Transcript, rules: &[Rule], facts: &Facts, when: When) {
    let rule = first(rules, facts, when);
    let same = rule == first_by_holds(rules, facts, when);
    transcript.add_if(same, place(rule), b"?");
}

/// Writes the five results of rules.
fn write_responses(transcript: &mut Transcript, rules: &[Rule], facts: &Facts) {
    write_response(transcript, rules, facts, When::Arrival { registered: true });
    write_response(
        transcript,
        rules,
        facts,
        When::Arrival { registered: false },
    );
    write_response(transcript, rules, facts, When::Busy);
    write_response(transcript, rules, facts, When::NoAnswer);
    write_response(transcript, rules, facts, When::NotReachable);
}

/// Writes the five results of the rules of a line.
fn write_of(transcript: &mut Transcript, line: &[u8], called: &Called) {
    let target = b"target = \"sip:vm@far.example\"";
    if let Some(sheet) = sheet_of(transcript, b"communication-diversion", b"", target, line) {
        match &sheet.diversion {
            None => transcript.fail(),
            Some(part) => write_responses(transcript, part.rules.items(), &facts(called)),
        }
        drop(sheet);
    }
}

/// Rules that divert, and the first of them that holds.
struct Rules;

impl Table for Rules {
    fn write_row(transcript: &mut Transcript, line: &[u8], asked: &[u8]) {
        let called = read_called(transcript, asked);
        write_of(transcript, line, &called);
        drop(called);
    }
}

/// Each part of a condition, two of them, and all; and lists of rules.
const RULES: &[u8] =
    b"# Who is meant: by `one`, by the domain of `many`, by `*`; equality of URIs is that of identities.
-----|-0|sip:alice@home.example|
:
00---|-0||
00---|-0|sip:alice@home.example|
:, one = [\"sip:alice@home.example\"]
00---|-0|sip:alice@home.example|
00---|-0|sip:alice@HOME.example:5070|
-----|-0|sip:Alice@home.example|
-----|-0|sip:alice@far.example|
-----|-0||tel:+4930111
-----|-0||
:, one = [\"sip:alice@home.example\", \"tel:+4930111\"]
00---|-0|sip:alice@home.example|
00---|-0||tel:+49-30-111
-----|-0||tel:+4930112
:, one = [\"sip:+4930111@far.example;user=phone\"]
00---|-0||tel:+4930111
00---|-0|sip:+4930111@far.example|
-----|-0|sip:+4930111@home.example;user=phone|
:, one = []
-----|-0|sip:alice@home.example|
-----|-0||
:, many = \"*\"
00---|-0|sip:alice@home.example|
00---|-0||tel:+4930111
-----|-0||
:, many = \"HOME.Example\"
00---|-0|sip:alice@home.example|
-----|-0|sip:alice@www.home.example|
-----|-0||tel:+4930111
-----|-0||
# A caller with a sip and a tel identity: one of them suffices, and neither may be excepted.
:, one = [\"sip:alice@home.example\"]
00---|-0|sip:alice@home.example|tel:+4930111
-----|-0|sip:bob@home.example|tel:+4930111
:, one = [\"tel:+4930111\"]
00---|-0|sip:alice@home.example|tel:+4930111
00---|-0|sip:+4930111@home.example;user=phone|tel:+4930112
-----|-0|sip:+4930111@home.example|tel:+4930112
:, one = [\"sip:bob@home.example\", \"tel:+4930111\"]
00---|-0|sip:alice@home.example|tel:+4930111
00---|-0|sip:bob@home.example|tel:+4930112
-----|-0|sip:alice@home.example|tel:+4930112
:, many = \"home.example\"
00---|-0|sip:alice@home.example|tel:+4930111
-----|-0|sip:alice@far.example|tel:+4930111
:, many = \"*\", except = [\"tel:+4930111\"]
00---|-0|sip:alice@home.example|tel:+4930112
00---|-0|sip:alice@home.example|
-----|-0|sip:alice@home.example|tel:+4930111
:, many = \"home.example\", except = [\"sip:+4930111@home.example;user=phone\"]
00---|-0|sip:alice@home.example|tel:+4930112
-----|-0|sip:alice@home.example|tel:+4930111
# An exception narrows `many`, and not `one`.
:, many = \"*\", except = [\"sip:alice@home.example\"]
00---|-0|sip:bob@home.example|
00---|-0|sip:alice@far.example|
00---|-0||tel:+4930111
-----|-0|sip:alice@home.example|
-----|-0||
:, many = \"home.example\", except = [\"sip:alice@home.example\", \"sip:bob@home.example\"]
00---|-0|sip:carol@home.example|
-----|-0|sip:alice@home.example|
-----|-0|sip:bob@home.example|
-----|-0|sip:erin@other.example|
:, one = [\"sip:erin@other.example\"], many = \"home.example\", except = [\"sip:alice@home.example\"]
00---|-0|sip:erin@other.example|
00---|-0|sip:bob@home.example|
-----|-0|sip:alice@home.example|
-----|-0|sip:frank@other.example|
:, one = [\"sip:alice@home.example\"], many = \"home.example\", except = [\"sip:alice@home.example\"]
00---|-0|sip:alice@home.example|
00---|-0|sip:bob@home.example|
:, one = [\"tel:+4930111\"], many = \"*\", except = [\"sip:alice@home.example\"]
00---|-0|sip:alice@home.example|tel:+4930111
00---|-0|sip:bob@home.example|tel:+4930112
-----|-0|sip:alice@home.example|tel:+4930112
# A caller that hides who it is may have an identity or none.
:, anonymous = true
00---|r0|sip:alice@home.example|tel:+4930111
00---|r0||
-----|-0|sip:alice@home.example|
-----|-0||
:, anonymous = false
00---|r0||
00---|-0||
# The first millisecond of a window is in it, and its end is not; it may begin before the clock, and end with it or past it.
:, from = \"1970-01-01T00:00:00.100Z\", until = \"1970-01-01T00:00:00.200Z\"
-----|-0||
-----|-99||
00---|-100||
00---|-199||
-----|-200||
-----|-250000000000000||
:, from = \"1970-01-01T00:00:00.100Z\", until = \"1970-01-01T00:00:00.101Z\"
-----|-99||
00---|-100||
-----|-101||
:, from = \"1960-01-01T00:00:00Z\", until = \"1970-01-01T00:00:00.006Z\"
00---|-0||
00---|-5||
-----|-6||
:, from = \"1960-01-01T00:00:00Z\", until = \"1970-01-01T00:00:00Z\"
-----|-0||
:, from = \"1970-01-01T00:00:00Z\", until = \"9999-12-30T00:00:00Z\"
00---|-0||
00---|-250000000000000||
# One of the listed kinds is among those that are offered, byte for byte.
:, media = [\"video\", \"audio\"]
00---|-0 audio||
00---|-0 video||
00---|-0 audio video||
00---|-0 message audio||
00---|-0 message application video||
-----|-0 message||
-----|-0 message application||
-----|-0 Audio||
-----|-0||
:, media = [\"audio\"]
00---|-0 audio||
00---|-0 video audio||
-----|-0 audios||
-----|-0 audi||
-----|-0||
:, media = []
-----|-0 audio||
-----|-0||
# Each event holds where it happened, and no event as the call arrives, whoever calls.
:
00---|-0||
:, busy = true
--0--|-0||
:, no-answer = true
---0-|-0||
:, not-reachable = true
----0|-0||
:, not-registered = true
-0---|-0||
:, busy = false
00---|-0||
:, busy = false, not-registered = true
-0---|r0 audio|sip:alice@home.example|tel:+4930111
# Identity with each other part: both hold, the first misses, the second misses.
:, one = [\"sip:alice@home.example\"], anonymous = true
00---|r0|sip:alice@home.example|
-----|r0|sip:bob@home.example|
-----|r0||
-----|-0|sip:alice@home.example|
:, many = \"home.example\", from = \"1970-01-01T00:00:00.100Z\", until = \"1970-01-01T00:00:00.200Z\"
00---|-100|sip:alice@home.example|
-----|-100|sip:alice@far.example|
-----|-200|sip:alice@home.example|
-----|-99|sip:alice@home.example|
:, many = \"*\", media = [\"audio\"]
00---|-0 audio||tel:+4930111
-----|-0 audio||
-----|-0 video||tel:+4930111
:, one = [\"tel:+4930111\"], busy = true
--0--|-0|sip:alice@home.example|tel:+4930111
-----|-0|sip:alice@home.example|tel:+4930112
:, many = \"*\", except = [\"sip:alice@home.example\"], not-registered = true
-0---|-0|sip:bob@home.example|
-----|-0|sip:alice@home.example|
# Anonymous with window, media and event; window with media and event; media with event: both hold, the first misses, the second misses.
:, anonymous = true, from = \"1970-01-01T00:00:00.100Z\", until = \"1970-01-01T00:00:00.200Z\"
00---|r199||
-----|-199||
-----|r200||
:, anonymous = true, media = [\"audio\"]
00---|r0 audio||
-----|-0 audio||
-----|r0 video||
:, anonymous = true, no-answer = true
---0-|r0||
-----|-0||
:, from = \"1970-01-01T00:00:00.100Z\", until = \"1970-01-01T00:00:00.200Z\", media = [\"audio\"]
00---|-100 video audio||
-----|-99 video audio||
-----|-200 audio||
-----|-100 video||
-----|-100||
:, from = \"1970-01-01T00:00:00.100Z\", until = \"1970-01-01T00:00:00.200Z\", not-reachable = true
----0|-199||
-----|-200||
-----|-99||
:, media = [\"audio\"], not-registered = true
-0---|-0 audio||
-----|-0 video||
-----|-0||
# A rule with each part holds where each part does, and not where one of them misses.
:, busy = true, anonymous = true, from = \"1970-01-01T00:00:00.100Z\", until = \"1970-01-01T00:00:00.200Z\", media = [\"audio\"], many = \"home.example\", except = \
[\"sip:carol@home.example\"]
--0--|r150 audio|sip:bob@home.example|
--0--|r150 video audio|sip:bob@home.example|tel:+4930111
-----|r150 audio|sip:bob@far.example|
-----|r150 audio|sip:carol@home.example|
-----|-150 audio|sip:bob@home.example|
-----|r99 audio|sip:bob@home.example|
-----|r200 audio|sip:bob@home.example|
-----|r150 video|sip:bob@home.example|
# A call that was diverted before, and hours of the week: 1970 began on a Thursday.
:, communication-diverted = true
00---|d0||
-----|-0||
:, communication-diverted = false
00---|d0||
00---|-0||
:, days = [\"thu\"], day-from = \"01:00\", day-until = \"02:00\", offset = 60
00---|-0||
00---|-3599999||
-----|-3600000||
00---|-604800000||
-----|-86400000||
:, days = [\"thu\"], day-from = \"01:00\", day-until = \"02:00\"
-----|-0||
-----|-3599999||
00---|-3600000||
00---|-7199999||
-----|-7200000||
:, days = [\"wed\"], day-from = \"10:00\", day-until = \"24:00\", offset = -840
00---|-0||
00---|-50399999||
-----|-50400000||
:, days = [\"sun\", \"mon\"], day-from = \"00:00\", day-until = \"24:00\"
-----|-259199999||
00---|-259200000||
00---|-431999999||
-----|-432000000||
:, days = [\"thu\"], day-from = \"00:00\", day-until = \"24:00\", busy = true
--0--|-0||
-----|-86400000||
# The first rule that holds counts: the first of a list, one in the middle, the last, or none.
:, one = [\"sip:alice@home.example\"]&, many = \"home.example\"&, anonymous = true
00---|-0|sip:alice@home.example|
00---|r0|sip:alice@home.example|
11---|-0|sip:bob@home.example|
11---|r0|sip:bob@home.example|
22---|r0|sip:erin@other.example|
22---|r0||
-----|-0|sip:erin@other.example|
-----|-0||
:, busy = true&, not-registered = true&, no-answer = true&
3102-|-0||
:&, not-registered = true
00---|-0||
:, not-registered = true&
10---|-0||
:, busy = true, media = [\"video\"]&, busy = true
--0--|-0 video||
--1--|-0 audio||
:, from = \"1970-01-01T00:00:00.100Z\", until = \"1970-01-01T00:00:00.200Z\"&, from = \"1970-01-01T00:00:00.200Z\", until = \"1970-01-01T00:00:00.300Z\"
-----|-99||
00---|-199||
11---|-200||
11---|-299||
-----|-300||
";

#[test]
fn conditions_and_rules(rt: HostRuntime) {
    assert_right(&rt, "RULES", wrong_line::<Rules>(rt.alloc(), RULES));
}

/// The digits of the home country; none under no line.
fn country(transcript: &mut Transcript, line: &[u8]) -> Option<Text> {
    let digits = line.strip_prefix(b":")?;
    Some(transcript.copy(digits))
}

/// Targets, of which some are abroad.
struct Targets;

impl Table for Targets {
    fn write_row(transcript: &mut Transcript, line: &[u8], asked: &[u8]) {
        let country = country(transcript, line);
        if let Some(uri) = identity(transcript, asked) {
            transcript.add_if(abroad(&uri, country.as_ref()), b"a", b"-");
            drop(uri);
        }
        drop(country);
    }
}

/// Numbers of the home country and of others, as tel URIs and as sip URIs that represent one (TS 24.611 §4.9.1.3, RFC 3966 §5.1.4, RFC 3261 §19.1.6).
const TARGETS: &[u8] = b"# No home country is known.
-|tel:+33155
-|tel:+4930222
# Germany. Visual separators have no say; what does not begin with `+` is no number of any country.
:49
a|tel:+33155
-|tel:+4930222
-|tel:+49
a|tel:+4
a|tel:+94
-|tel:+(4)9-30.222
a|tel:+3-3.155;x=y
-|tel:33155
-|tel:112
a|sip:+33155@home.example;user=phone
a|sip:+33155@far.example:5070;USER=phone
-|sip:+4930222@far.example;user=phone
-|sip:+33155@far.example
-|sip:+33155@far.example;user=ip
-|sip:+33-155@far.example;user=phone
-|sip:33155@far.example;user=phone
-|sip:+@far.example;user=phone
-|sip:far.example;user=phone
-|sip:alice@far.example
# One digit, and three; digits are no number, so a leading zero counts.
:1
a|tel:+4930222
-|tel:+12015550123
:493
-|tel:+4930222
a|tel:+4920222
:049
a|tel:+4930222
-|tel:+04930222
";

#[test]
fn targets_abroad(rt: HostRuntime) {
    assert_right(&rt, "TARGETS", wrong_line::<Targets>(rt.alloc(), TARGETS));
}
