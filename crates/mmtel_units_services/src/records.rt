//! Service records: the sheet that is read of each, or its first fault.
//!
//! A table is one text: the lines of a record, after them the lines of its expected result, each after `=`, and an empty line. A line after `*` is repeated 63 times, after `**` 64
//! times, after `***` 65 times.

use crate::asserting::assert_right;
use mmtel_lex::{List, Text, Uri, print_uri};
use mmtel_sheet_grammar::SheetFault;
use mmtel_sheet_reader::read_sheet;
use mmtel_sheet_values::{
    Action, BarPart, Condition, DiversionPart, EventWord, Forward, Restriction, Rule, Sheet,
    Weekly, Who, Window,
};
use mmtel_test_tables::{Transcript, next_line};
use std::alloc::Global;

fn add_flag(transcript: &mut Transcript, name: &[u8], flag: bool) {
    if flag {
        transcript.add(b" ");
        transcript.add(name);
    }
}

fn add_uri(transcript: &mut Transcript, name: &[u8], uri: &Uri) {
    let text = print_uri(transcript.alloc, uri);
    let text = transcript.text_or_fail(text);
    transcript.add_part(name, text.bytes());
}

fn add_uris(transcript: &mut Transcript, name: &[u8], uris: &List<Uri>) {
    for uri in uris.items() {
        add_uri(transcript, name, uri);
    }
}

fn add_domain(transcript: &mut Transcript, many: &Option<Text>) {
    if let Some(domain) = many {
        transcript.add_part(b"many", domain.bytes());
    }
}

fn add_who(transcript: &mut Transcript, who: &Option<Who>) {
    if let Some(who) = who {
        transcript.add(b" who");
        add_uris(transcript, b"one", &who.one);
        add_domain(transcript, &who.many);
        add_uris(transcript, b"except", &who.except);
    }
}

/// Adds a moment in milliseconds since 1970, which may be before that.
fn add_moment(transcript: &mut Transcript, name: &[u8], moment: i128) {
    match moment.to_string(transcript.alloc) {
        Ok(digits) => transcript.add_part(name, digits.as_bytes()),
        Err(_) => transcript.fail(),
    }
}

fn add_window(transcript: &mut Transcript, window: Option<Window>) {
    if let Some(window) = window {
        add_moment(transcript, b"from", window.from);
        add_moment(transcript, b"until", window.until);
    }
}

fn add_media(transcript: &mut Transcript, media: &Option<List<Text>>) {
    if let Some(media) = media {
        transcript.add(b" media");
        for kind in media.items() {
            transcript.add_part(b"of", kind.bytes());
        }
    }
}

fn event_name(event: Option<EventWord>) -> &'static [u8] {
    match event {
        None => b"",
        Some(EventWord::Busy) => b" busy",
        Some(EventWord::NoAnswer) => b" no-answer",
        Some(EventWord::NotReachable) => b" not-reachable",
        Some(EventWord::NotRegistered) => b" not-registered",
    }
}

fn add_days(transcript: &mut Transcript, days: [bool; 7]) {
    for day in days {
        transcript.add_if(day, b"x", b"-");
    }
}

/// Adds the days, Monday first, the minutes of a day and the offset.
fn add_weekly(transcript: &mut Transcript, weekly: Option<Weekly>) {
    if let Some(weekly) = weekly {
        transcript.add(b" weekly ");
        add_days(transcript, weekly.days);
        transcript.add_spaced_number(u64::from(weekly.from));
        transcript.add_spaced_number(u64::from(weekly.until));
        add_moment(transcript, b"offset", i128::from(weekly.offset));
    }
}

/// The parts of a condition that are present.
fn add_condition(transcript: &mut Transcript, condition: &Condition) {
    add_who(transcript, &condition.identity);
    add_flag(transcript, b"anonymous", condition.anonymous);
    add_window(transcript, condition.window);
    add_media(transcript, &condition.media);
    transcript.add(event_name(condition.event));
    add_flag(transcript, b"diverted", condition.diverted);
    add_flag(transcript, b"abroad", condition.abroad);
    add_weekly(transcript, condition.weekly);
}

fn add_forward(transcript: &mut Transcript, forward: &Forward) {
    add_uri(transcript, b"to", &forward.target);
    add_flag(transcript, b"notify", forward.notify_caller);
    add_flag(transcript, b"target-to-caller", forward.reveal_to_caller);
    add_flag(
        transcript,
        b"served-to-caller",
        forward.reveal_served_to_caller,
    );
    add_flag(transcript, b"served-to-target", forward.reveal_to_target);
}

fn add_action(transcript: &mut Transcript, action: &Action) {
    match action {
        Action::Forward(forward) => add_forward(transcript, forward),
        Action::Allow(allowed) => transcript.add_if(*allowed, b" allow", b" bar"),
    }
}

/// Adds a line for each rule: its condition and its action.
fn add_rules(transcript: &mut Transcript, rules: &List<Rule>) {
    for rule in rules.items() {
        transcript.add(b"rule");
        add_condition(transcript, &rule.condition);
        transcript.add(b":");
        add_action(transcript, &rule.action);
        transcript.add(b"\n");
    }
}

fn add_diversion(transcript: &mut Transcript, part: &Option<DiversionPart>) {
    if let Some(part) = part {
        transcript.add(b"diversion after");
        transcript.add_spaced_number(u64::from(part.no_reply));
        add_flag(transcript, b"deflection", part.deflection);
        if let Some(bound) = part.bound {
            transcript.add(b" bound");
            transcript.add_spaced_number(u64::from(bound));
        }
        transcript.add(b"\n");
        add_rules(transcript, &part.rules);
    }
}

fn add_bar(transcript: &mut Transcript, word: &[u8], part: &Option<BarPart>) {
    if let Some(part) = part {
        transcript.add(word);
        add_flag(transcript, b"reject-anonymous", part.reject_anonymous);
        transcript.add(b"\n");
        add_rules(transcript, &part.rules);
    }
}

/// Adds a line for a restriction that differs from the default.
fn add_restriction(transcript: &mut Transcript, word: &[u8], restriction: Restriction) {
    if restriction.active || restriction.permanent || restriction.by_default {
        transcript.add(word);
        add_flag(transcript, b"active", restriction.active);
        add_flag(transcript, b"permanent", restriction.permanent);
        add_flag(transcript, b"by-default", restriction.by_default);
        transcript.add(b"\n");
    }
}

fn add_waiting(transcript: &mut Transcript, calls: Option<u8>) {
    if let Some(calls) = calls {
        transcript.add(b"waiting");
        transcript.add_spaced_number(u64::from(calls));
        transcript.add(b"\n");
    }
}

/// Adds a line for each part of the sheet that differs from an empty record.
fn add_sheet(transcript: &mut Transcript, sheet: &Sheet) {
    add_diversion(transcript, &sheet.diversion);
    add_bar(transcript, b"incoming", &sheet.incoming);
    add_bar(transcript, b"outgoing", &sheet.outgoing);
    transcript.add_if(sheet.oip, b"", b"no oip\n");
    add_restriction(transcript, b"oir", sheet.oir);
    transcript.add_if(sheet.tip, b"", b"no tip\n");
    add_restriction(transcript, b"tir", sheet.tir);
    add_waiting(transcript, sheet.waiting);
}

fn add_key(transcript: &mut Transcript, word: &[u8], key: &Text) {
    transcript.add(word);
    transcript.add_line(key.bytes());
}

fn add_fault(transcript: &mut Transcript, fault: &SheetFault) {
    match fault {
        SheetFault::NotToml => transcript.add(b"not TOML\n"),
        SheetFault::Unknown { key } => add_key(transcript, b"unknown ", key),
        SheetFault::Wrong { key } => add_key(transcript, b"wrong ", key),
        SheetFault::Many { key, limit: 64 } => add_key(transcript, b"many ", key),
        SheetFault::Many { key, .. } => add_key(transcript, b"other limit ", key),
        SheetFault::NoMemory => transcript.fail(),
    }
}

/// Writes the result of reading the record: the lines of the sheet, or a line for its first fault.
fn write_read(transcript: &mut Transcript, record: &[u8]) {
    match read_sheet(transcript.alloc, record) {
        Ok(sheet) => {
            add_sheet(transcript, &sheet);
            drop(sheet);
        }
        Err(fault) => {
            add_fault(transcript, &fault);
            drop(fault);
        }
    }
}

/// How often a line is repeated, and the line.
fn repeated(line: &[u8]) -> (u8, &[u8]) {
    match line {
        [b'*', b'*', b'*', rest @ ..] => (65, rest),
        [b'*', b'*', rest @ ..] => (64, rest),
        [b'*', rest @ ..] => (63, rest),
        _ => (1, line),
    }
}

fn add_repeated(text: &mut Transcript, line: &[u8]) {
    let (times, line) = repeated(line);
    for _ in 0..times {
        text.add_line(line);
    }
}

/// Adds the lines of the first record of a table, and its expected lines; returns what follows the row's end, an empty line.
fn add_row<'a>(record: &mut Transcript, wanted: &mut Transcript, table: &'a [u8]) -> &'a [u8] {
    let mut rest = table;
    for _ in 0..120 {
        let (line, later) = next_line(rest);
        rest = later;
        match line {
            [] => break,
            [b'=', answer @ ..] => add_repeated(wanted, answer),
            _ => add_repeated(record, line),
        }
    }
    rest
}

/// Whether the result for the first record of a table differs from the lines after `=`, and what follows it.
fn is_wrong(alloc: Global, table: &[u8]) -> (bool, &[u8]) {
    let mut record = Transcript::new(alloc);
    let mut wanted = Transcript::new(alloc);
    let rest = add_row(&mut record, &mut wanted, table);
    (
        wrong_answer(alloc, record.whole(), wanted.whole()) > 0,
        rest,
    )
}

/// The number of the first record of a table, from 1, with another result; 0 where there is none.
fn wrong_record(alloc: Global, table: &[u8]) -> usize {
    let mut rest = table;
    for before in 0..60 {
        let (wrong, later) = is_wrong(alloc, rest);
        if wrong {
            return before + 1;
        }
        rest = later;
    }
    rest.len()
}

/// The number of the first line, from 1, in which the result of reading this record differs; 0 where there is none.
fn wrong_answer(alloc: Global, record: &[u8], answer: &[u8]) -> usize {
    let mut transcript = Transcript::new(alloc);
    write_read(&mut transcript, record);
    transcript.wrong_line(answer)
}

/// Tables without rules. The first record is empty.
const TABLES: &[u8] = br#"
a =
=not TOML

calls = 2
calls = 3
=not TOML

[zebra]
=unknown zebra

zebra = 1
communication-waiting = 3
=wrong communication-waiting

[[communication-waiting]]
calls = 2
=wrong communication-waiting

[communication-waiting]
=waiting 2

[communication-waiting]
active = true
calls = 8
=waiting 8

[communication-waiting]
active = false
calls = 8

[communication-waiting]
active = false
calls = 9
=wrong communication-waiting.calls

[communication-waiting]
calls = 1
=wrong communication-waiting.calls

[communication-waiting]
calls = -2
=wrong communication-waiting.calls

[communication-waiting]
calls = 3.0
=wrong communication-waiting.calls

[communication-waiting]
calls = 2026-11-27
=wrong communication-waiting.calls

[communication-waiting]
active = 1
bar = 2
=wrong communication-waiting.active

[communication-waiting]
bar = 2
active = 1
=wrong communication-waiting.active

[communication-waiting]
calls = 9
bar = 2
=unknown communication-waiting.bar

[communication-waiting]
calls = 9
[communication-diversion]
x = 1
=unknown communication-diversion.x

[communication-diversion]
x = 1
[communication-waiting]
calls = 9
=unknown communication-diversion.x

[communication-diversion]
=diversion after 20

[communication-diversion]
no-reply-time = 5
=diversion after 5

[communication-diversion]
no-reply-time = 180
deflection = true
=diversion after 180 deflection

[communication-diversion]
no-reply-time = 4
deflection = 1
=wrong communication-diversion.deflection

[communication-diversion]
no-reply-time = 4
=wrong communication-diversion.no-reply-time

[communication-diversion]
no-reply-time = 181
rule = 1
=wrong communication-diversion.no-reply-time

[communication-diversion]
rule = 1
=wrong communication-diversion.rule

[communication-diversion.rule]
target = "sip:home.example"
=wrong communication-diversion.rule

[communication-diversion]
reject-anonymous = true
=unknown communication-diversion.reject-anonymous

[incoming-communication-barring]
=incoming

[incoming-communication-barring]
reject-anonymous = true
=incoming reject-anonymous

[incoming-communication-barring]
reject-anonymous = "true"
=wrong incoming-communication-barring.reject-anonymous

[incoming-communication-barring]
active = false
reject-anonymous = true

[outgoing-communication-barring]
=outgoing

[outgoing-communication-barring]
reject-anonymous = true
=unknown outgoing-communication-barring.reject-anonymous

[originating-identity-presentation]

[originating-identity-presentation]
active = false
=no oip

[originating-identity-presentation]
mode = "permanent"
=unknown originating-identity-presentation.mode

[terminating-identity-presentation]
active = false
=no tip

[terminating-identity-presentation]
active = "no"
=wrong terminating-identity-presentation.active

[originating-identity-presentation-restriction]
=oir active

[originating-identity-presentation-restriction]
mode = "permanent"
=oir active permanent

[originating-identity-presentation-restriction]
mode = "temporary"
default-behaviour = "presentation-restricted"
=oir active by-default

[originating-identity-presentation-restriction]
active = false

[terminating-identity-presentation-restriction]
mode = "permanent"
default-behaviour = "presentation-not-restricted"
=tir active permanent

[terminating-identity-presentation-restriction]
mode = "Permanent"
=wrong terminating-identity-presentation-restriction.mode

[terminating-identity-presentation-restriction]
default-behaviour = "restricted"
mode = 1
=wrong terminating-identity-presentation-restriction.default-behaviour
"#;

/// Rules, in tables that are not active, so that those that are read give no line.
const RULES: &[u8] = br#"[communication-diversion]
active = false
rule = [{target = "sip:home.example"}]

[communication-diversion]
active = false
rule = [{id = "a", target = "TEL:+4930"}]

[communication-diversion]
rule = [{id = 1, target = "tel:4930"}]
=wrong communication-diversion.rule.0.id

[communication-diversion]
rule = [{id = "a", target = "tel:4930"}]
=wrong communication-diversion.rule.0.target

[communication-diversion]
rule = [{target = "tel:+49-30"}]
=wrong communication-diversion.rule.0.target

[communication-diversion]
rule = [{target = "tel:+4930;ext=1"}]
=wrong communication-diversion.rule.0.target

[communication-diversion]
rule = [{target = "sips:a@home.example"}]
=wrong communication-diversion.rule.0.target

[communication-diversion]
rule = [{target = "sip:"}]
=wrong communication-diversion.rule.0.target

[communication-diversion]
active = false
rule = [{target = "sip:vm@far.example;x=\"\r\nSubject: injected\r\nY: \""}]
=wrong communication-diversion.rule.0.target

[communication-diversion]
active = false
rule = [{one = ["sip:a@home.example;x=\"\""], target = "sip:a@home.example"}]
=wrong communication-diversion.rule.0.one

[communication-diversion]
rule = [{}]
=wrong communication-diversion.rule.0.target

[communication-diversion]
rule = [{target = "sip:a@home.example"}, {}, {x = 1}]
=wrong communication-diversion.rule.1.target

[communication-diversion]
rule = [{target = "sip:a@home.example"}, {x = 1}, {}]
=unknown communication-diversion.rule.1.x

[communication-diversion]
rule = [{until = "x"}]
=wrong communication-diversion.rule.0.until

[communication-diversion]
rule = [{allow = true, target = "sip:a@home.example"}]
=unknown communication-diversion.rule.0.allow

[communication-diversion]
rule = [{target = 1, allow = true}]
=unknown communication-diversion.rule.0.allow

[communication-diversion]
rule = [{notify-caller = 1, busy = 1}]
=wrong communication-diversion.rule.0.busy

[communication-diversion]
rule = [{busy = 1, notify-caller = 1}]
=wrong communication-diversion.rule.0.busy

[communication-diversion]
rule = [{busy = true, no-answer = true}]
=wrong communication-diversion.rule.0.no-answer

[communication-diversion]
rule = [{no-answer = true, busy = true}]
=wrong communication-diversion.rule.0.no-answer

[communication-diversion]
rule = [{not-reachable = true, not-registered = true, no-answer = false, busy = false}]
=wrong communication-diversion.rule.0.not-registered

[communication-diversion]
active = false
rule = [{busy = false, no-answer = false, not-reachable = true, not-registered = false, target = "sip:a@b"}]

[communication-diversion]
rule = [{except = [], target = "sip:a@b"}]
=wrong communication-diversion.rule.0.except

[communication-diversion]
rule = [{except = ["x"], many = "a b", target = "sip:a@b"}]
=wrong communication-diversion.rule.0.except

[communication-diversion]
rule = [{except = [], many = "a b", target = "sip:a@b"}]
=wrong communication-diversion.rule.0.many

[communication-diversion]
rule = [{except = [], many = "", target = "sip:a@b"}]
=wrong communication-diversion.rule.0.many

[communication-diversion]
rule = [{many = "**"}]
=wrong communication-diversion.rule.0.many

[communication-diversion]
active = false
rule = [{except = [], many = "*", one = [], target = "sip:a@b"}]

[communication-diversion]
rule = [{one = "sip:a@b"}]
=wrong communication-diversion.rule.0.one

[communication-diversion]
rule = [{one = ["sip:a@b", "mailto:a@b"]}]
=wrong communication-diversion.rule.0.one

[communication-diversion]
rule = [{media = ["audio", ""]}]
=wrong communication-diversion.rule.0.media

[communication-diversion]
rule = [{media = ["audio/pcm"]}]
=wrong communication-diversion.rule.0.media

[communication-diversion]
rule = [{media = "audio"}]
=wrong communication-diversion.rule.0.media

[communication-diversion]
rule = [{anonymous = 1}]
=wrong communication-diversion.rule.0.anonymous

[communication-diversion]
rule = [{reveal-identity-to-target = 1, reveal-identity-to-caller = 1}]
=wrong communication-diversion.rule.0.reveal-identity-to-caller

[incoming-communication-barring]
active = false
rule = [{allow = true, anonymous = true}]

[incoming-communication-barring]
rule = [{anonymous = true}]
=wrong incoming-communication-barring.rule.0.allow

[incoming-communication-barring]
rule = [{allow = 1, busy = true}]
=wrong incoming-communication-barring.rule.0.allow

[incoming-communication-barring]
rule = [{allow = false, busy = true}]
=unknown incoming-communication-barring.rule.0.busy

[incoming-communication-barring]
rule = [{allow = false, target = "sip:a@b"}]
=unknown incoming-communication-barring.rule.0.target

[incoming-communication-barring]
rule = [{allow = false, notify-caller = true}]
=unknown incoming-communication-barring.rule.0.notify-caller

[outgoing-communication-barring]
rule = [{allow = true, anonymous = false}]
=unknown outgoing-communication-barring.rule.0.anonymous

[outgoing-communication-barring]
rule = [{allow = true}, 1]
=wrong outgoing-communication-barring.rule

[outgoing-communication-barring]
rule = [{allow = 1}, 1]
=wrong outgoing-communication-barring.rule

[outgoing-communication-barring]
rule = [{many = "*"}, {many = 1}]
=wrong outgoing-communication-barring.rule.0.allow
"#;

/// A record with each key, one with each default, and conditions that count as absent.
const SHEETS: &[u8] = b"[communication-diversion]
active = true
no-reply-time = 30
deflection = true
[[communication-diversion.rule]]
id = \"each key\"
one = [\"sip:a@home.example;user=phone\", \"tel:+49-30-1\"]
many = \"Partner.example\"
except = [\"sip:b@partner.example\"]
anonymous = true
from = \"2026-11-27T22:00:00+01:00\"
until = \"2026-11-28T06:00:00+01:00\"
media = [\"audio\", \"video\"]
busy = true
no-answer = false
not-reachable = false
not-registered = false
target = \"sip:night@home.example\"
notify-caller = false
reveal-identity-to-caller = false
reveal-served-user-identity-to-caller = false
reveal-identity-to-target = false
[[communication-diversion.rule]]
target = \"tel:+4930222\"
anonymous = false
busy = false
[[communication-diversion.rule]]
target = \"sip:home.example\"
not-registered = true
notify-caller = true
reveal-identity-to-caller = false
reveal-served-user-identity-to-caller = true
reveal-identity-to-target = false
[[communication-diversion.rule]]
target = \"sip:home.example\"
no-answer = true
notify-caller = false
reveal-served-user-identity-to-caller = false
[[communication-diversion.rule]]
target = \"sip:home.example\"
not-reachable = true
media = []
one = []
[incoming-communication-barring]
active = true
reject-anonymous = true
[[incoming-communication-barring.rule]]
allow = false
many = \"*\"
except = [\"sip:friend@spam.example\", \"tel:+1\"]
[[incoming-communication-barring.rule]]
allow = true
anonymous = true
[outgoing-communication-barring]
active = true
[[outgoing-communication-barring.rule]]
allow = false
one = [\"tel:+49900123456\"]
[originating-identity-presentation]
active = false
[originating-identity-presentation-restriction]
active = true
mode = \"permanent\"
default-behaviour = \"presentation-restricted\"
[terminating-identity-presentation]
active = false
[terminating-identity-presentation-restriction]
active = false
mode = \"temporary\"
default-behaviour = \"presentation-restricted\"
[communication-waiting]
active = true
calls = 3
=diversion after 30 deflection
=rule who one<sip:a@home.example;user=phone> one<tel:+49-30-1> many<Partner.example> except<sip:b@partner.example> anonymous from<1795813200000> until<1795842000000> \
media of<audio> of<video> busy: to<sip:night@home.example>
=rule: to<tel:+4930222> notify target-to-caller served-to-caller served-to-target
=rule not-registered: to<sip:home.example> notify served-to-caller
=rule no-answer: to<sip:home.example> target-to-caller served-to-target
=rule who media not-reachable: to<sip:home.example> notify target-to-caller served-to-caller served-to-target
=incoming reject-anonymous
=rule who many<*> except<sip:friend@spam.example> except<tel:+1>: bar
=rule anonymous: allow
=outgoing
=rule who one<tel:+49900123456>: bar
=no oip
=oir active permanent by-default
=no tip
=tir by-default
=waiting 3

[communication-waiting]
[terminating-identity-presentation-restriction]
[terminating-identity-presentation]
[originating-identity-presentation-restriction]
[originating-identity-presentation]
[outgoing-communication-barring]
rule = []
[incoming-communication-barring]
[communication-diversion]
=diversion after 20
=incoming
=outgoing
=oir active
=tir active
=waiting 2
";

/// Windows: the ends of the range, offsets, fractions that are rounded down, and what is no time.
const TIMES: &[u8] = br#"[[outgoing-communication-barring.rule]]
allow = true
from = "0001-01-01T00:00:00Z"
until = "9999-12-30T22:00:00.999999999Z"
=outgoing
=rule from<-62135596800000> until<253402207200999>: allow

[[outgoing-communication-barring.rule]]
allow = true
from = "0000-12-31T23:59:59.999Z"
until = "2026-01-01T00:00:00Z"
=wrong outgoing-communication-barring.rule.0.from

[[outgoing-communication-barring.rule]]
allow = true
from = "0001-01-01T00:30:00+01:00"
until = "2026-01-01T00:00:00Z"
=wrong outgoing-communication-barring.rule.0.from

[[outgoing-communication-barring.rule]]
allow = true
from = "0000-12-31T23:30:00-01:00"
until = "2026-01-01T00:00:00Z"
=outgoing
=rule from<-62135595000000> until<1767225600000>: allow

[[outgoing-communication-barring.rule]]
allow = true
from = "2026-01-01T00:00:00Z"
until = "9999-12-31T00:00:00Z"
=wrong outgoing-communication-barring.rule.0.until

[[outgoing-communication-barring.rule]]
allow = true
from = "1969-12-31T23:59:59.9999Z"
until = "1970-01-01T00:00:00.0019Z"
=outgoing
=rule from<-1> until<1>: allow

[[outgoing-communication-barring.rule]]
allow = true
from = "2026-06-01T12:30:15.250999-05:30"
until = "2026-06-01T18:00:15.251Z"
=outgoing
=rule from<1780336815250> until<1780336815251>: allow

[[outgoing-communication-barring.rule]]
allow = true
from = "2026-01-01T00:00:00.0001Z"
until = "2026-01-01T01:00:00.0009+01:00"
=wrong outgoing-communication-barring.rule.0.until

[[outgoing-communication-barring.rule]]
allow = true
from = "2026-01-01T00:00:00Z"
until = "2025-12-31T23:59:59.999Z"
=wrong outgoing-communication-barring.rule.0.until

[[outgoing-communication-barring.rule]]
until = "2026-07-01 00:00:00.5+00:00[Europe/London]"
from = "2026-06-30t23:59:60Z"
allow = true
=outgoing
=rule from<1782863999000> until<1782864000500>: allow

[[outgoing-communication-barring.rule]]
until = "x"
from = "y"
allow = 1
=wrong outgoing-communication-barring.rule.0.allow

[[outgoing-communication-barring.rule]]
until = "x"
from = "y"
allow = true
=wrong outgoing-communication-barring.rule.0.from

[[outgoing-communication-barring.rule]]
allow = true
from = "2026-01-01T00:00:00"
until = "2026-01-02T00:00:00Z"
=wrong outgoing-communication-barring.rule.0.from

[[outgoing-communication-barring.rule]]
allow = true
from = "2026-02-29T00:00:00Z"
until = "2026-03-02T00:00:00Z"
=wrong outgoing-communication-barring.rule.0.from

[[outgoing-communication-barring.rule]]
allow = true
from = 2026-01-01T00:00:00Z
until = "2026-01-02T00:00:00Z"
=wrong outgoing-communication-barring.rule.0.from

[[outgoing-communication-barring.rule]]
allow = true
from = "2026-01-01T00:00:00Z"
=wrong outgoing-communication-barring.rule.0.from

[[outgoing-communication-barring.rule]]
allow = true
until = "2026-01-01T00:00:00Z"
=wrong outgoing-communication-barring.rule.0.until

[[outgoing-communication-barring.rule]]
allow = true
from = "2026-01-01T00:00:00Z"
until = 1
=wrong outgoing-communication-barring.rule.0.until
"#;

/// Arrays and texts at their limits and past them; the items of `one` and `except` are counted together.
const ARRAYS: &[u8] = br#"[outgoing-communication-barring]
rule = [
**{allow = false},
]
=outgoing
=**rule: bar

[outgoing-communication-barring]
rule = [
***{allow = false},
]
=many outgoing-communication-barring.rule

[outgoing-communication-barring]
rule = [
***{allow = 1},
]
=many outgoing-communication-barring.rule

[outgoing-communication-barring]
rule = [
***1,
]
=wrong outgoing-communication-barring.rule

[[incoming-communication-barring.rule]]
allow = true
one = [
**"sip:a@b",
]
[incoming-communication-barring]
active = false

[[incoming-communication-barring.rule]]
allow = true
one = [
***"sip:a@b",
]
=many incoming-communication-barring.rule.0.one

[[incoming-communication-barring.rule]]
allow = true
many = "*"
except = [
**"sip:a@b",
]
[incoming-communication-barring]
active = false

[[incoming-communication-barring.rule]]
allow = true
many = "*"
except = [
***"sip:a@b",
]
=many incoming-communication-barring.rule.0.except

[[incoming-communication-barring.rule]]
allow = true
except = [
***"sip:a@b",
]
=wrong incoming-communication-barring.rule.0.except

[[incoming-communication-barring.rule]]
allow = true
many = "*"
except = [
***"sip:a@b",
]
one = []
=many incoming-communication-barring.rule.0.one

[[incoming-communication-barring.rule]]
allow = true
many = "*"
except = ["sip:c@d"]
one = [
*"sip:a@b",
]
[incoming-communication-barring]
active = false

[[incoming-communication-barring.rule]]
allow = true
many = "*"
except = ["sip:c@d"]
one = [
**"sip:a@b",
]
=many incoming-communication-barring.rule.0.one

[[incoming-communication-barring.rule]]
allow = true
many = "*"
except = [
**"sip:a@b",
]
one = ["sip:c@d"]
=many incoming-communication-barring.rule.0.one

[[incoming-communication-barring.rule]]
one = ["sip:c@d"]
except = [
**"sip:a@b",
]
many = "*"
allow = true
=many incoming-communication-barring.rule.0.one

[[incoming-communication-barring.rule]]
one = ["sip:c@d"]
except = [
*"sip:a@b",
]
many = "*"
allow = true
[incoming-communication-barring]
active = false

[[incoming-communication-barring.rule]]
allow = true
many = """\
*abcd\
abc"""
[incoming-communication-barring]
active = false

[[incoming-communication-barring.rule]]
allow = true
many = """\
**abcd\
"""
=wrong incoming-communication-barring.rule.0.many

[[communication-diversion.rule]]
target = """\
sip:\
*abcd\
"""
[communication-diversion]
active = false

[[communication-diversion.rule]]
target = """\
sip:\
*abcd\
e"""
=wrong communication-diversion.rule.0.target

[[incoming-communication-barring.rule]]
allow = true
media = [
***"audio",
]
[incoming-communication-barring]
active = false
"#;

/// Records: keys, ranges and defaults of tables and rules, whole sheets, times, limits; and the first fault where there are several.
/// Versions; and the keys of the second alone, which are none of the first.
const VERSIONS: &[u8] = br#"version = 2

version = 1

version = 0
=wrong version

version = 3
=wrong version

version = -1
=wrong version

version = true
=wrong version

version = "2"
=wrong version

version = 2.0
=wrong version

a = 1
version = 3
=wrong version

version = 2
[zebra]
=unknown zebra

[version]
=wrong version

version = 2
[communication-diversion]
bound = 0
=diversion after 20 bound 0

version = 2
[communication-diversion]
bound = 16
=diversion after 20 bound 16

version = 2
[communication-diversion]
active = 1
bound = 17
=wrong communication-diversion.active

version = 2
[communication-diversion]
bound = 17
deflection = 1
=wrong communication-diversion.bound

version = 2
[communication-diversion]
bound = -1
=wrong communication-diversion.bound

version = 2
[communication-diversion]
bound = "1"
=wrong communication-diversion.bound

[communication-diversion]
bound = 1
=unknown communication-diversion.bound

version = 1
[communication-diversion]
bound = 1
=unknown communication-diversion.bound

version = 2
[incoming-communication-barring]
bound = 1
=unknown incoming-communication-barring.bound

version = 2
[[communication-diversion.rule]]
communication-diverted = true
target = "sip:a@home.example"
=diversion after 20
=rule diverted: to<sip:a@home.example> notify target-to-caller served-to-caller served-to-target

version = 2
[[incoming-communication-barring.rule]]
communication-diverted = true
allow = false
=incoming
=rule diverted: bar

version = 2
[[incoming-communication-barring.rule]]
communication-diverted = false
allow = false
=incoming
=rule: bar

version = 2
[[incoming-communication-barring.rule]]
communication-diverted = 1
=wrong incoming-communication-barring.rule.0.communication-diverted

[[incoming-communication-barring.rule]]
communication-diverted = true
allow = false
=unknown incoming-communication-barring.rule.0.communication-diverted

version = 2
[[outgoing-communication-barring.rule]]
communication-diverted = false
allow = false
=unknown outgoing-communication-barring.rule.0.communication-diverted

version = 2
[[outgoing-communication-barring.rule]]
international = true
allow = false
=outgoing
=rule abroad: bar

version = 2
[[outgoing-communication-barring.rule]]
international = false
allow = true
=outgoing
=rule: allow

version = 2
[[outgoing-communication-barring.rule]]
international = "true"
allow = true
=wrong outgoing-communication-barring.rule.0.international

[[outgoing-communication-barring.rule]]
international = true
allow = true
=unknown outgoing-communication-barring.rule.0.international

version = 2
[[incoming-communication-barring.rule]]
international = false
allow = true
=unknown incoming-communication-barring.rule.0.international

version = 2
[[communication-diversion.rule]]
international = false
target = "sip:a@home.example"
=unknown communication-diversion.rule.0.international
"#;

/// Hours of the week: the keys alone, together, and each wrong.
const HOURS: &[u8] = br#"version = 2
[[incoming-communication-barring.rule]]
days = ["sun", "mon", "thu"]
day-from = "00:00"
day-until = "24:00"
allow = false
=incoming
=rule weekly x--x--x 0 1440 offset<0>: bar

version = 2
[[outgoing-communication-barring.rule]]
days = ["tue", "wed", "fri", "sat"]
day-from = "08:30"
day-until = "08:31"
offset = -840
allow = false
=outgoing
=rule weekly -xx-xx- 510 511 offset<-840>: bar

version = 2
[[communication-diversion.rule]]
days = ["mon", "tue", "wed", "thu", "fri", "sat", "sun"]
day-from = "23:58"
day-until = "23:59"
offset = 840
target = "sip:a@home.example"
=diversion after 20
=rule weekly xxxxxxx 1438 1439 offset<840>: to<sip:a@home.example> notify target-to-caller served-to-caller served-to-target

[[incoming-communication-barring.rule]]
days = ["mon"]
day-from = "00:00"
day-until = "24:00"
allow = false
=unknown incoming-communication-barring.rule.0.day-from

[[incoming-communication-barring.rule]]
days = ["mon"]
allow = false
=unknown incoming-communication-barring.rule.0.days

[[incoming-communication-barring.rule]]
offset = 0
allow = false
=unknown incoming-communication-barring.rule.0.offset

version = 2
[[incoming-communication-barring.rule]]
days = ["mon"]
allow = false
=wrong incoming-communication-barring.rule.0.days

version = 2
[[incoming-communication-barring.rule]]
day-from = "01:00"
allow = false
=wrong incoming-communication-barring.rule.0.day-from

version = 2
[[incoming-communication-barring.rule]]
day-until = "01:00"
allow = false
=wrong incoming-communication-barring.rule.0.day-until

version = 2
[[incoming-communication-barring.rule]]
day-from = "01:00"
day-until = "02:00"
allow = false
=wrong incoming-communication-barring.rule.0.day-from

version = 2
[[incoming-communication-barring.rule]]
day-from = "01:00"
days = ["mon"]
allow = false
=wrong incoming-communication-barring.rule.0.day-from

version = 2
[[incoming-communication-barring.rule]]
day-until = "01:00"
days = ["mon"]
allow = false
=wrong incoming-communication-barring.rule.0.day-until

version = 2
[[incoming-communication-barring.rule]]
offset = 0
allow = false
=wrong incoming-communication-barring.rule.0.offset

version = 2
[[incoming-communication-barring.rule]]
day-from = "02:00"
day-until = "02:00"
days = ["mon"]
allow = false
=wrong incoming-communication-barring.rule.0.day-until

version = 2
[[incoming-communication-barring.rule]]
day-from = "24:00"
day-until = "24:00"
days = ["mon"]
allow = false
=wrong incoming-communication-barring.rule.0.day-from

version = 2
[[incoming-communication-barring.rule]]
day-from = "00:00"
day-until = "24:01"
days = ["mon"]
allow = false
=wrong incoming-communication-barring.rule.0.day-until

version = 2
[[incoming-communication-barring.rule]]
day-from = "00:60"
day-until = "24:00"
days = ["mon"]
allow = false
=wrong incoming-communication-barring.rule.0.day-from

version = 2
[[incoming-communication-barring.rule]]
day-from = "0:00"
day-until = "24:00"
days = ["mon"]
allow = false
=wrong incoming-communication-barring.rule.0.day-from

version = 2
[[incoming-communication-barring.rule]]
day-from = "00:0a"
day-until = "24:00"
days = ["mon"]
allow = false
=wrong incoming-communication-barring.rule.0.day-from

version = 2
[[incoming-communication-barring.rule]]
day-from = "00.00"
day-until = "24:00"
days = ["mon"]
allow = false
=wrong incoming-communication-barring.rule.0.day-from

version = 2
[[incoming-communication-barring.rule]]
day-from = "00:00"
day-until = 1440
days = ["mon"]
allow = false
=wrong incoming-communication-barring.rule.0.day-until

version = 2
[[incoming-communication-barring.rule]]
day-from = "00:00"
day-until = "24:00"
days = []
allow = false
=wrong incoming-communication-barring.rule.0.days

version = 2
[[incoming-communication-barring.rule]]
day-from = "00:00"
day-until = "24:00"
days = ["mon", "tue", "mon"]
allow = false
=wrong incoming-communication-barring.rule.0.days

version = 2
[[incoming-communication-barring.rule]]
day-from = "00:00"
day-until = "24:00"
days = ["Mon"]
allow = false
=wrong incoming-communication-barring.rule.0.days

version = 2
[[incoming-communication-barring.rule]]
day-from = "00:00"
day-until = "24:00"
days = "mon"
allow = false
=wrong incoming-communication-barring.rule.0.days

version = 2
[[incoming-communication-barring.rule]]
day-from = "00:00"
day-until = "24:00"
days = ["mon"]
offset = 841
allow = false
=wrong incoming-communication-barring.rule.0.offset

version = 2
[[incoming-communication-barring.rule]]
day-from = "00:00"
day-until = "24:00"
days = ["mon"]
offset = -841
allow = false
=wrong incoming-communication-barring.rule.0.offset

version = 2
[[incoming-communication-barring.rule]]
day-from = "00:00"
day-until = "24:00"
days = ["mon"]
offset = "0"
allow = false
=wrong incoming-communication-barring.rule.0.offset

version = 2
[[incoming-communication-barring.rule]]
day-from = 1
day-until = "24:00"
days = 1
=wrong incoming-communication-barring.rule.0.day-from
"#;

#[test]
fn reads_records(rt: HostRuntime) {
    assert_right(&rt, "VERSIONS", wrong_record(rt.alloc(), VERSIONS));
    assert_right(&rt, "HOURS", wrong_record(rt.alloc(), HOURS));
    assert_right(&rt, "TABLES", wrong_record(rt.alloc(), TABLES));
    assert_right(&rt, "RULES", wrong_record(rt.alloc(), RULES));
    assert_right(&rt, "SHEETS", wrong_record(rt.alloc(), SHEETS));
    assert_right(&rt, "TIMES", wrong_record(rt.alloc(), TIMES));
    assert_right(&rt, "ARRAYS", wrong_record(rt.alloc(), ARRAYS));
    let letter = b"communication-waiting.calls = 3 # \xc3\xa4";
    assert_right(
        &rt,
        "a letter of two bytes",
        wrong_answer(rt.alloc(), letter, b"waiting 3\n"),
    );
    let broken = b"communication-waiting.calls = 3 # \xe4";
    assert_right(
        &rt,
        "a byte that is no letter",
        wrong_answer(rt.alloc(), broken, b"not TOML\n"),
    );
}
