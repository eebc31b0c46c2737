//! Records in short words: `divert EVENT TARGET [FLAG]`, `deflect`, `bar`, `allow URI`, `no-anonymous`, `bar-out URI`, `oir permanent`, `oir temporary`, `tir permanent`, `no-oip`,
//! `no-tip`, `waiting N`, separated by `|`.

use crate::environments::{TestEnvironment, is, put, uri, word};
use mmtel_base::List;
use mmtel_lex::Uri;
use mmtel_sheet_values::{
    Action, BarPart, Condition, DiversionPart, EventWord, Forward, Restriction, Rule, Sheet, Who,
};
use mmtel_test_tables::{Transcript, split_or_all};
use std::mem;

/// The event of a rule; None for all calls.
fn event_of(word: &[u8]) -> Option<EventWord> {
    if is(word, b"busy") {
        Some(EventWord::Busy)
    } else if is(word, b"no-answer") {
        Some(EventWord::NoAnswer)
    } else if is(word, b"not-reachable") {
        Some(EventWord::NotReachable)
    } else if is(word, b"not-registered") {
        Some(EventWord::NotRegistered)
    } else {
        None
    }
}

fn condition(event: Option<EventWord>, identity: Option<Who>) -> Condition {
    Condition {
        identity,
        anonymous: false,
        window: None,
        media: None,
        event,
        diverted: false,
        abroad: false,
        weekly: None,
    }
}

fn forward(target: Uri, flag: &[u8]) -> Forward {
    Forward {
        target,
        notify_caller: !is(flag, b"untold"),
        reveal_to_caller: !is(flag, b"hides-target"),
        reveal_served_to_caller: !is(flag, b"hides-diverting"),
        reveal_to_target: !is(flag, b"hides-from-target"),
    }
}

/// The diversion settings of a record without diversion rules.
fn no_rules() -> DiversionPart {
    DiversionPart {
        rules: List::new(),
        no_reply: 20,
        deflection: false,
        bound: None,
    }
}

fn no_bars() -> BarPart {
    BarPart {
        rules: List::new(),
        reject_anonymous: false,
    }
}

/// The diversion that the part has, or one without rules.
fn take_diversion(place: &mut Option<DiversionPart>) -> DiversionPart {
    match mem::replace(place, None) {
        Some(part) => part,
        None => no_rules(),
    }
}

fn add_rule(transcript: &mut Transcript, part: &mut DiversionPart, words: &[u8]) {
    let (event, rest) = word(words);
    let (target, flag) = word(rest);
    if let Some(target) = uri(transcript, target) {
        let rule = Rule {
            condition: condition(event_of(event), None),
            action: Action::Forward(forward(target, flag)),
        };
        let pushed = part.rules.push(transcript.alloc, rule);
        transcript.value_or_fail(pushed);
    }
}

fn divert(transcript: &mut Transcript, place: &mut Option<DiversionPart>, words: &[u8]) {
    let mut part = take_diversion(place);
    add_rule(transcript, &mut part, words);
    drop(mem::replace(place, Some(part)));
}

fn deflect(place: &mut Option<DiversionPart>) {
    let mut part = take_diversion(place);
    part.deflection = true;
    drop(mem::replace(place, Some(part)));
}

/// One identity.
fn only(transcript: &mut Transcript, identity: &[u8]) -> Who {
    let mut one = List::new();
    if let Some(uri) = uri(transcript, identity) {
        let pushed = one.push(transcript.alloc, uri);
        transcript.value_or_fail(pushed);
    }
    Who {
        one,
        many: None,
        except: List::new(),
    }
}

/// The barring that the part has, or one without rules.
fn take_bars(place: &mut Option<BarPart>) -> BarPart {
    match mem::replace(place, None) {
        Some(part) => part,
        None => no_bars(),
    }
}

/// This identity; none where there are no bytes.
fn who(transcript: &mut Transcript, identity: &[u8]) -> Option<Who> {
    if identity.is_empty() {
        None
    } else {
        Some(only(transcript, identity))
    }
}

/// One more rule, for this identity, or for each where there is none.
fn add_bar(transcript: &mut Transcript, part: &mut BarPart, identity: &[u8], allow: bool) {
    let rule = Rule {
        condition: condition(None, who(transcript, identity)),
        action: Action::Allow(allow),
    };
    let pushed = part.rules.push(transcript.alloc, rule);
    transcript.value_or_fail(pushed);
}

fn bar(transcript: &mut Transcript, place: &mut Option<BarPart>, identity: &[u8], allow: bool) {
    let mut part = take_bars(place);
    add_bar(transcript, &mut part, identity, allow);
    drop(mem::replace(place, Some(part)));
}

fn reject_anonymous(place: &mut Option<BarPart>) {
    let mut part = take_bars(place);
    part.reject_anonymous = true;
    drop(mem::replace(place, Some(part)));
}

/// A restriction that is permanent, or else one by default.
fn restriction(mode: &[u8]) -> Restriction {
    Restriction {
        active: true,
        permanent: is(mode, b"permanent"),
        by_default: true,
    }
}

fn change_rules(transcript: &mut Transcript, sheet: &mut Sheet, kind: &[u8], rest: &[u8]) -> bool {
    if is(kind, b"divert") {
        divert(transcript, &mut sheet.diversion, rest);
    } else if is(kind, b"deflect") {
        deflect(&mut sheet.diversion);
    } else if is(kind, b"bar") {
        bar(transcript, &mut sheet.incoming, b"", false);
    } else if is(kind, b"allow") {
        bar(transcript, &mut sheet.incoming, rest, true);
    } else if is(kind, b"bar-out") {
        bar(transcript, &mut sheet.outgoing, rest, false);
    } else if is(kind, b"no-anonymous") {
        reject_anonymous(&mut sheet.incoming);
    } else {
        return false;
    }
    true
}

fn change_identity(sheet: &mut Sheet, kind: &[u8], rest: &[u8]) -> bool {
    if is(kind, b"oir") {
        sheet.oir = restriction(rest);
    } else if is(kind, b"tir") {
        sheet.tir = restriction(rest);
    } else if is(kind, b"no-oip") {
        sheet.oip = false;
    } else if is(kind, b"no-tip") {
        sheet.tip = false;
    } else if is(kind, b"waiting") {
        sheet.waiting = if is(rest, b"2") { Some(2) } else { Some(8) };
    } else {
        return false;
    }
    true
}

fn change(transcript: &mut Transcript, sheet: &mut Sheet, clause: &[u8]) {
    let (kind, rest) = word(clause);
    if !change_rules(transcript, sheet, kind, rest) && !change_identity(sheet, kind, rest) {
        transcript.fail();
    }
}

/// Changes a record as these words describe.
fn change_all(transcript: &mut Transcript, sheet: &mut Sheet, words: &[u8]) {
    let mut rest = words;
    for _ in 0..9 {
        if rest.is_empty() {
            break;
        }
        let (clause, later) = split_or_all(b'|', rest);
        change(transcript, sheet, clause);
        rest = later;
    }
}

/// The record of these words.
fn sheet(transcript: &mut Transcript, words: &[u8]) -> Sheet {
    let mut sheet = Sheet::empty();
    change_all(transcript, &mut sheet, words);
    sheet
}

/// Sets a record of these words for an account.
pub fn put_record(
    transcript: &mut Transcript,
    world: &mut TestEnvironment,
    account: u32,
    words: &[u8],
) {
    let sheet = sheet(transcript, words);
    put(transcript, world, account, sheet);
}
