//! The values at the keys of records.
ghost use Rattle.std.specs.Prelude.{◌≡◌, ◌≤◌, ◌<◌, [], Ok, IfOk, IfSome};
ghost use Rattle.toml.specs.View.{view, array_view};
ghost use Rattle.mmtel_sheet_grammar.specs.ReadResults.{IsReadResult, then_read};
ghost use Rattle.mmtel_sheet_grammar.specs.Elements.{truth_at, number_at, text_at, uri_at, is_international, is_target, target_at, is_domain, domain_at, is_token_text};
ghost use Rattle.mmtel_sheet_grammar.specs.Elements.{token_at, time_at, items_from, uris_at, tokens_at, day_of, no_days, with_day, day_read, days_from, has_day, days_at};
ghost use Rattle.mmtel_sheet_grammar.specs.Elements.{clock_of, clock_at, offset_at};
ghost use Rattle.mmtel_sheet_grammar.specs.Sound.{IsSound, IsSoundArray};

use crate::faults::wrong;
use crate::moments::read_time;
use mmtel_base::{Class, is_all, number_up_to};
use mmtel_lex::{List, Text, Uri, UriFault, read_uri};
use mmtel_sheet_grammar::SheetFault;
use std::alloc::Global;
use toml::Value;
use toml::value::Array;

/// A truth value.
pub fn truth(alloc: Global, at: &[u8], value: &Value) -> Result<bool, SheetFault>
    ensures exact { IsReadResult (truth_at at.now (view value.now)) result }
    ensures sound { IfOk result (λ _. IsSound (view value.now)) }
{
    match value {
        Value::Boolean(truth) => Ok(*truth),
        _ => wrong(alloc, at),
    }
}

/// A whole number of the range.
pub fn number(
    alloc: Global,
    at: &[u8],
    value: &Value,
    least: u16,
    most: u16,
) -> Result<u16, SheetFault>
    ensures exact { IsReadResult (number_at least most at.now (view value.now)) result }
    ensures sound { IfOk result (λ _. IsSound (view value.now)) }
    ensures within { IfOk result (λ n. n ≤ most) }
{
    let Value::Integer(number) = value else {
        return wrong(alloc, at);
    };
    let number = *number;
    if i64::from(least) <= number && number <= i64::from(most) {
        Ok(number as u16)
    } else {
        wrong(alloc, at)
    }
}

/// Any text.
pub fn text(alloc: Global, at: &[u8], value: &Value) -> Result<(), SheetFault>
    ensures exact { IsReadResult (then_read (text_at at.now (view value.now)) (λ s. Ok tt)) result }
    ensures sound { IfOk result (λ _. IsSound (view value.now)) }
{
    match value {
        Value::String(_) => Ok(()),
        _ => wrong(alloc, at),
    }
}

/// A sip or tel URI.
pub fn uri(alloc: Global, at: &[u8], value: &Value) -> Result<Uri, SheetFault>
    ensures exact { IsReadResult (uri_at at.now (view value.now)) result }
    ensures sound { IfOk result (λ _. IsSound (view value.now)) }
{
    let Value::String(text) = value else {
        return wrong(alloc, at);
    };
    match read_uri(alloc, text.as_bytes()) {
        Ok(uri) => Ok(uri),
        Err(UriFault::NoMemory) => Err(SheetFault::NoMemory),
        Err(UriFault::Malformed) => wrong(alloc, at),
        Err(UriFault::Scheme) => wrong(alloc, at),
    }
}

fn is_international(number: &[u8]) -> bool
    ensures { result ≡ is_international number.now }
{
    match number {
        [b'+', digits @ ..] => !digits.is_empty() && is_all(Class::Digit, digits),
        _ => false,
    }
}

fn is_target(uri: &Uri) -> bool
    ensures { result ≡ is_target uri.now }
{
    match uri {
        Uri::Sip { .. } => true,
        Uri::Tel { number, params } => {
            is_international(number.bytes()) && params.items().is_empty()
        }
    }
}

/// A URI to which calls may be diverted, of at most 256 bytes.
pub fn target(alloc: Global, at: &[u8], value: &Value) -> Result<Uri, SheetFault>
    ensures exact { IsReadResult (target_at at.now (view value.now)) result }
    ensures sound { IfOk result (λ _. IsSound (view value.now)) }
{
    let Value::String(text) = value else {
        return wrong(alloc, at);
    };
    let uri = uri(alloc, at, value)?;
    if is_target(&uri) && text.len() <= 256 {
        Ok(uri)
    } else {
        wrong(alloc, at)
    }
}

fn is_domain(bytes: &[u8]) -> bool
    ensures { result ≡ is_domain bytes.now }
{
    if bytes == b"*".as_slice() {
        return true;
    }
    !bytes.is_empty() && bytes.len() <= 255 && is_all(Class::Host, bytes)
}

/// A host, or `*`.
pub fn domain(alloc: Global, at: &[u8], value: &Value) -> Result<Text, SheetFault>
    ensures exact { IsReadResult (domain_at at.now (view value.now)) result }
    ensures sound { IfOk result (λ _. IsSound (view value.now)) }
{
    let Value::String(text) = value else {
        return wrong(alloc, at);
    };
    if !is_domain(text.as_bytes()) {
        return wrong(alloc, at);
    }
    Ok(Text::of(alloc, text.as_bytes())?)
}

fn is_token_text(bytes: &[u8]) -> bool
    ensures { result ≡ is_token_text bytes.now }
{
    !bytes.is_empty() && is_all(Class::Token, bytes)
}

fn token(alloc: Global, at: &[u8], value: &Value) -> Result<Text, SheetFault>
    ensures exact { IsReadResult (token_at at.now (view value.now)) result }
    ensures sound { IfOk result (λ _. IsSound (view value.now)) }
{
    let Value::String(text) = value else {
        return wrong(alloc, at);
    };
    if !is_token_text(text.as_bytes()) {
        return wrong(alloc, at);
    }
    Ok(Text::of(alloc, text.as_bytes())?)
}

/// A time, in milliseconds since 1970-01-01T00:00:00Z.
pub fn time(alloc: Global, at: &[u8], value: &Value) -> Result<i128, SheetFault>
    ensures exact { IsReadResult (time_at at.now (view value.now)) result }
    ensures sound { IfOk result (λ _. IsSound (view value.now)) }
{
    let Value::String(text) = value else {
        return wrong(alloc, at);
    };
    match read_time(text.as_str()) {
        Some(moment) => Ok(moment),
        None => wrong(alloc, at),
    }
}

fn each_uri(alloc: Global, at: &[u8], items: &Array) -> Result<List<Uri>, SheetFault>
    ensures exact { IsReadResult (items_from (uri_at at.now) [] (array_view items.now)) result }
    ensures sound { IfOk result (λ _. IsSoundArray (array_view items.now)) }
{
    let mut uris = List::new();
    'items: for item in items {
        uris.push(alloc, uri(alloc, at, item)?)?;
    }
    Ok(uris)
}

/// An array of URIs.
pub fn uris(alloc: Global, at: &[u8], value: &Value) -> Result<List<Uri>, SheetFault>
    ensures exact { IsReadResult (uris_at at.now (view value.now)) result }
    ensures sound { IfOk result (λ _. IsSound (view value.now)) }
{
    match value {
        Value::Array(items) => each_uri(alloc, at, items),
        _ => wrong(alloc, at),
    }
}

fn each_token(alloc: Global, at: &[u8], items: &Array) -> Result<List<Text>, SheetFault>
    ensures exact { IsReadResult (items_from (token_at at.now) [] (array_view items.now)) result }
    ensures sound { IfOk result (λ _. IsSoundArray (array_view items.now)) }
{
    let mut tokens = List::new();
    'items: for item in items {
        tokens.push(alloc, token(alloc, at, item)?)?;
    }
    Ok(tokens)
}

/// An array of tokens.
pub fn tokens(alloc: Global, at: &[u8], value: &Value) -> Result<List<Text>, SheetFault>
    ensures exact { IsReadResult (tokens_at at.now (view value.now)) result }
    ensures sound { IfOk result (λ _. IsSound (view value.now)) }
{
    match value {
        Value::Array(items) => each_token(alloc, at, items),
        _ => wrong(alloc, at),
    }
}

/// The index of a day in the week, from Monday on.
#[tactic(auto, unfolding(mmtel_sheet_grammar::specs::Elements::day_of))]
fn day_of(word: &str) -> Option<usize>
    ensures exact { result ≡ day_of word.now }
    ensures within { IfSome result (λ n. n < 7) }
{
    match word {
        "mon" => Some(0),
        "tue" => Some(1),
        "wed" => Some(2),
        "thu" => Some(3),
        "fri" => Some(4),
        "sat" => Some(5),
        "sun" => Some(6),
        _ => None,
    }
}

/// One more day, which was not named before.
fn with_day(days: [bool; 7], day: usize) -> Option<[bool; 7]>
    requires { day < 7 }
    ensures { result ≡ with_day days day }
{
    if days[day] {
        return None;
    }
    let mut more = days;
    more[day] = true;
    Some(more)
}

/// The days so far, and one more.
fn read_day(
    alloc: Global,
    at: &[u8],
    days: [bool; 7],
    value: &Value,
) -> Result<[bool; 7], SheetFault>
    ensures exact { IsReadResult (day_read at.now days (view value.now)) result }
    ensures sound { IfOk result (λ _. IsSound (view value.now)) }
{
    let Value::String(word) = value else {
        return wrong(alloc, at);
    };
    let Some(day) = day_of(word.as_str()) else {
        return wrong(alloc, at);
    };
    match with_day(days, day) {
        Some(more) => Ok(more),
        None => wrong(alloc, at),
    }
}

fn each_day(alloc: Global, at: &[u8], items: &Array) -> Result<[bool; 7], SheetFault>
    ensures exact { IsReadResult (days_from at.now no_days (array_view items.now)) result }
    ensures sound { IfOk result (λ _. IsSoundArray (array_view items.now)) }
{
    let mut days = [false; 7];
    'items: for item in items {
        days = read_day(alloc, at, days, item)?;
    }
    Ok(days)
}

fn has_day(days: &[bool]) -> bool
    ensures { result ≡ has_day days.now }
{
    days.iter().any(|day| *day)
}

/// An array of one day or more, each named once: which of the week they are, Monday first.
pub fn days(alloc: Global, at: &[u8], value: &Value) -> Result<[bool; 7], SheetFault>
    ensures exact { IsReadResult (days_at at.now (view value.now)) result }
    ensures sound { IfOk result (λ _. IsSound (view value.now)) }
{
    let Value::Array(items) = value else {
        return wrong(alloc, at);
    };
    let days = each_day(alloc, at, items)?;
    if has_day(&days) {
        Ok(days)
    } else {
        wrong(alloc, at)
    }
}

/// The minutes since the day began that `HH:MM` writes, of at most this many.
fn clock_of(most: u16, bytes: &[u8]) -> Option<u16>
    ensures { result ≡ clock_of most bytes.now }
{
    let [_, _, b':', _, _] = bytes else {
        return None;
    };
    let hours = number_up_to(24, &bytes[..2])?;
    let minutes = number_up_to(59, &bytes[3..])?;
    let clock = hours * 60 + minutes;
    if clock <= u64::from(most) {
        Some(clock as u16)
    } else {
        None
    }
}

/// A time of the day, `HH:MM`, as the minutes since it began, of at most this many.
pub fn clock(alloc: Global, at: &[u8], value: &Value, most: u16) -> Result<u16, SheetFault>
    ensures exact { IsReadResult (clock_at most at.now (view value.now)) result }
    ensures sound { IfOk result (λ _. IsSound (view value.now)) }
{
    let Value::String(text) = value else {
        return wrong(alloc, at);
    };
    match clock_of(most, text.as_bytes()) {
        Some(clock) => Ok(clock),
        None => wrong(alloc, at),
    }
}

/// The minutes by which a clock is ahead of UTC, at most 14 hours.
pub fn offset(alloc: Global, at: &[u8], value: &Value) -> Result<i16, SheetFault>
    ensures exact { IsReadResult (offset_at at.now (view value.now)) result }
    ensures sound { IfOk result (λ _. IsSound (view value.now)) }
{
    let Value::Integer(minutes) = value else {
        return wrong(alloc, at);
    };
    let minutes = *minutes;
    if -840 <= minutes && minutes <= 840 {
        Ok(minutes as i16)
    } else {
        wrong(alloc, at)
    }
}
