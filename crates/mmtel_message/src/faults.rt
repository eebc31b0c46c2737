//! What is wrong with a message. Nothing here allocates, except `is_readable`.
ghost use Rattle.std.specs.Prelude.{◌≡◌, ◌||◌, ◌&&◌, IfOk, is_none, not, [], nat_lt, ◌+◌, length, codes};
ghost use Rattle.std.specs.Option.{option_copied};
ghost use Rattle.mmtel_lex.specs.Reading.{name_addr_of};
ghost use Rattle.mmtel_base.specs.Numbers.{number_of};
ghost use Rattle.mmtel_message.specs.Entries.{are_entries};
ghost use Rattle.mmtel_message.specs.Faults.{is_method, is_request, start_fault, is_readable, are_readable, is_one_readable, has_cookie, is_case, has_case, is_word};
ghost use Rattle.mmtel_message.specs.Faults.{are_words, extension_fault_table, is_fault_by_name, line_fault, fault_from, first_fault, or_absent, remaining_after};
ghost use Rattle.mmtel_lex.specs.Params.{param_value};
ghost use Rattle.mmtel_message.specs.Message.{has_line, values_named};
ghost use Rattle.mmtel_message.specs.declared.values.Mode.TheVariants.{Plain, Words};
ghost use Rattle.mmtel_message.specs.Values.{values_of, values_in};

use crate::entries::are_entries;
use crate::field_refs::FiveRef;
use crate::held::Lines;
use crate::messages::{Start, has_line, is_named};
use crate::values::{Mode, next_part};
use mmtel_base::{Class, is_all, number_up_to, skip_text, trim};
use mmtel_lex::{NoMemory, UriFault, name_addr_ref, uri_ref};
use std::alloc::Global;

/// Whether it is the start line of a request of the method.
pub fn is_method(name: &[u8], start: &Start) -> bool
    ensures { result ≡ is_method name.now start.now }
{
    match start {
        Start::Request { method, uri: _ } => method.bytes() == name,
        Start::Status { code: _, phrase: _ } => false,
    }
}

/// Whether it is the start line of a request.
pub fn is_request(start: &Start) -> bool
    ensures { result ≡ is_request start.now }
{
    match start {
        Start::Request { method: _, uri: _ } => true,
        Start::Status { code: _, phrase: _ } => false,
    }
}

fn start_fault(start: &Start) -> bool
    ensures { result ≡ start_fault start.now }
{
    match start {
        Start::Request { method: _, uri } => match uri_ref(uri.bytes()) {
            Ok(_) => false,
            Err(UriFault::Scheme) => false,
            Err(UriFault::Malformed) => true,
            Err(UriFault::NoMemory) => unreachable!(),
        },
        Start::Status { code: _, phrase: _ } => false,
    }
}

/// Whether the value can be read as a name-addr (RFC 3261 §20.10).
fn is_name_addr(value: &[u8]) -> bool
    ensures { result ≡ is_readable value.now }
{
    name_addr_ref(value).is_some()
}

/// Whether the value can be read as a name-addr (RFC 3261 §20.10).
pub fn is_readable(_alloc: Global, value: &[u8]) -> Result<bool, NoMemory>
    ensures { IfOk result (λ b. b ≡ is_readable value.now) }
{
    Ok(is_name_addr(value))
}

/// Whether each value of this text, a list of values, can be read as a name-addr.
fn are_readable(value: &[u8]) -> bool
    ensures { result ≡ are_readable (values_of value.now) }
{
    let mut rest = Some(value);
    'parts: while let Some(more) = rest {
        let (part, after) = next_part(Mode::Plain, more);
        if !is_name_addr(trim(Class::Blank, part)) {
            return false;
        }
        rest = after;
    }
    true
}

fn number_fault(twice: bool, limit: u64, value: &[u8]) -> bool
    ensures { result ≡ (twice || is_none (number_of limit value.now)) }
{
    twice || number_up_to(limit, value).is_none()
}

/// Whether there is one value, which can be read.
fn is_one_readable(value: &[u8]) -> bool
    ensures { result ≡ is_one_readable (values_of value.now) }
{
    let (part, after) = next_part(Mode::Plain, value);
    match after {
        None => is_name_addr(trim(Class::Blank, part)),
        Some(_) => false,
    }
}

fn contact_fault(start: &Start, before: &Lines<'_>, value: &[u8]) -> bool
    ensures { result ≡ (is_method (codes "INVITE") start.now && (has_line (codes "Contact") before.now.values || not (is_one_readable (values_of value.now)))) }
{
    if !is_method(b"INVITE", start) {
        return false;
    }
    has_line(b"Contact", before) || !is_one_readable(value)
}

fn cseq_fault(start: &Start, five: &FiveRef<'_>) -> bool
    ensures { result ≡ (is_request start.now && not (is_method five.now.cseq.method start.now)) }
{
    is_request(start) && !is_method(five.cseq().method(), start)
}

fn from_fault(start: &Start, five: &FiveRef<'_>) -> bool
    ensures { result ≡ (is_request start.now && is_none (param_value (codes "tag") five.now.from.params)) }
{
    is_request(start) && five.from().param(b"tag").is_none()
}

fn has_cookie(value: Option<&[u8]>) -> bool
    ensures { result ≡ has_cookie (option_copied value.entry) }
{
    match value {
        None => false,
        Some(value) => skip_text(b"z9hG4bK", value).is_some(),
    }
}

fn via_fault(start: &Start, five: &FiveRef<'_>, before: &Lines<'_>) -> bool
    ensures { result ≡ (is_request start.now && not (has_line (codes "Via") before.now.values) && not (has_cookie (param_value (codes "branch") five.now.via.params))) }
{
    if !is_request(start) {
        return false;
    }
    if has_line(b"Via", before) {
        return false;
    }
    !has_cookie(five.via().param(b"branch"))
}

fn is_case(value: Option<&[u8]>) -> bool
    ensures { result ≡ is_case (option_copied value.entry) }
{
    match value {
        None => false,
        Some(value) => value == b"orig".as_slice() || value == b"term".as_slice(),
    }
}

fn has_case(value: &[u8]) -> bool
    ensures { result ≡ has_case (name_addr_of value.now) }
{
    match name_addr_ref(value) {
        None => false,
        Some(read) => is_case(read.param(b"sescase")),
    }
}

/// How many more values a limit allows after these; None where these exceed it.
fn remaining_after(remaining: usize, value: &[u8]) -> Option<usize>
    ensures { result ≡ remaining_after remaining (length (values_of value.now)) }
{
    let mut left = remaining;
    let mut rest = Some(value);
    'parts: while let Some(more) = rest {
        let (_, after) = next_part(Mode::Plain, more);
        if left == 0 {
            return None;
        }
        left -= 1;
        rest = after;
    }
    Some(left)
}

/// How many more values a limit allows after those of the lines of the name; None where these exceed it.
fn remaining_behind(remaining: usize, name: &[u8], lines: &Lines<'_>) -> Option<usize>
    ensures { result ≡ remaining_after remaining (length (values_named Plain name.now lines.now.values)) }
{
    let mut left = remaining;
    for i in 0..lines.len() {
        let (spelled, value) = lines.at(i);
        if is_named(spelled, name) {
            left = remaining_after(left, value)?;
        }
    }
    Some(left)
}

/// Whether there are more than 32 values, including those before.
fn is_over(before: &Lines<'_>, value: &[u8]) -> bool
    ensures { result ≡ nat_lt 32 (length (values_named Plain (codes "History-Info") before.now.values) + length (values_of value.now)) }
{
    match remaining_behind(32, b"History-Info", before) {
        None => true,
        Some(room) => remaining_after(room, value).is_none(),
    }
}

fn history_fault(before: &Lines<'_>, value: &[u8]) -> bool
    ensures { result ≡ (not (are_entries (values_of value.now)) ||
        nat_lt 32 (length (values_named Plain (codes "History-Info") before.now.values) + length (values_of value.now))) }
{
    !are_entries(value) || is_over(before, value)
}

fn is_word(value: &[u8]) -> bool
    ensures { result ≡ is_word value.now }
{
    !value.is_empty() && is_all(Class::Token, value)
}

/// Whether each word of Privacy is a token.
fn are_words(value: &[u8]) -> bool
    ensures { result ≡ are_words (values_in Words value.now) }
{
    let mut rest = Some(value);
    'parts: while let Some(more) = rest {
        let (part, after) = next_part(Mode::Words, more);
        if !is_word(trim(Class::Blank, part)) {
            return false;
        }
        rest = after;
    }
    true
}

/// Whether a line has a fault by the rules of the extensions.
fn extension_fault(before: &Lines<'_>, name: &[u8], value: &[u8]) -> bool
    ensures { result ≡ is_fault_by_name (extension_fault_table before.now.values value.now) (name.now, value.now) }
{
    if is_named(name, b"P-Asserted-Identity") {
        return !are_readable(value);
    }
    if is_named(name, b"P-Served-User") {
        return !has_case(value);
    }
    if is_named(name, b"History-Info") {
        return history_fault(before, value);
    }
    if is_named(name, b"Refer-To") {
        return !is_name_addr(value);
    }
    if is_named(name, b"Privacy") {
        return !are_words(value);
    }
    false
}

/// Whether a line that follows those before it has a fault.
fn line_fault(
    start: &Start,
    five: &FiveRef<'_>,
    rest_len: u64,
    before: &Lines<'_>,
    name: &[u8],
    value: &[u8],
) -> bool
    ensures { result ≡ line_fault start.now five.now rest_len before.now.values (name.now, value.now) }
{
    if name.is_empty() {
        return true;
    }
    if is_named(name, b"CSeq") {
        return cseq_fault(start, five);
    }
    if is_named(name, b"Max-Forwards") {
        return is_request(start) && number_fault(has_line(b"Max-Forwards", before), 255, value);
    }
    if is_named(name, b"Content-Length") {
        return number_fault(has_line(b"Content-Length", before), rest_len, value);
    }
    if is_named(name, b"From") {
        return from_fault(start, five);
    }
    if is_named(name, b"Via") {
        return via_fault(start, five, before);
    }
    if is_named(name, b"Contact") {
        return contact_fault(start, before, value);
    }
    if is_named(name, b"Route") {
        return !are_readable(value);
    }
    if is_named(name, b"Record-Route") {
        return !are_readable(value);
    }
    extension_fault(before, name, value)
}

/// The place of the first line with a fault, from 1.
fn lines_fault(start: &Start, five: &FiveRef<'_>, rest_len: u64, lines: &Lines<'_>) -> Option<usize>
    ensures { result ≡ fault_from start.now five.now rest_len [] lines.now.values }
{
    for i in 0..lines.len() {
        let (name, value) = lines.at(i);
        if line_fault(start, five, rest_len, &lines.before(i), name, value) {
            return Some(i + 1);
        }
    }
    None
}

fn or_absent(start: &Start, lines: &Lines<'_>, found: Option<usize>) -> Option<usize>
    ensures { result ≡ or_absent start.now lines.now.values found }
{
    match found {
        Some(at) => Some(at),
        None => {
            if is_method(b"INVITE", start) && !has_line(b"Contact", lines) {
                Some(lines.end())
            } else {
                None
            }
        }
    }
}

/// The place of the first fault.
pub fn first_fault(
    start: &Start,
    five: &FiveRef<'_>,
    rest_len: u64,
    lines: &Lines<'_>,
) -> Option<usize>
    ensures { result ≡ first_fault start.now five.now rest_len lines.now.values }
{
    if start_fault(start) {
        return Some(0);
    }
    or_absent(start, lines, lines_fault(start, five, rest_len, lines))
}
