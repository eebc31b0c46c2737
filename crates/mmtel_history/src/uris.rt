//! What an entry's URI says: its cause, and whether it requests to be hidden.
ghost use Rattle.std.specs.Prelude.{◌≡◌, ◌∷◌, [], ◌++◌, ◌≤◌, ◌<◌, not, length, take, drop, filter, IfOk, IfSome, OnOk, Some, false};
ghost use Rattle.std.specs.List.{list_any, flat_map};
ghost use Rattle.mmtel_lex.specs.UriParts.{parts, host_and_params};
ghost use Rattle.mmtel_history.specs.EntryUri.{cause_number, is_cause, cause_of, causes_in, escaped_parts, is_history, hides, is_marked, has_headers, has_cause, mark_text};
ghost use Rattle.mmtel_history.specs.EntryUri.{marked_uri, host_part_without_causes, with_host_part, cause_text, without_cause, with_cause};

use crate::parts::first_escaped;
use mmtel_base::{NoMemory, Text, number_up_to, split_once_at};
use mmtel_lex::{first_part, is_named, split_around, split_user, uri_param};
use std::alloc::Global;

/// The number of three digits from 100 to 699.
#[tactic(auto, unfolding(crate::specs::EntryUri::cause_number))]
fn cause_number(digits: &[u8]) -> Option<u16>
    ensures { result ≡ cause_number digits.now }
{
    if digits.len() != 3 {
        return None;
    }
    match number_up_to(699, digits) {
        None => None,
        Some(number) => {
            if number < 100 {
                None
            } else {
                Some(number as u16)
            }
        }
    }
}

/// The cause of the diversion that led to the URI (RFC 4458 §2).
#[tactic(auto, unfolding(crate::specs::EntryUri::cause_of))]
pub fn cause_of(uri: &[u8]) -> Option<u16>
    ensures { result ≡ cause_of uri.now }
{
    match uri_param(uri, b"cause") {
        None => None,
        Some(param) => {
            let (_, digits) = split_around(b'=', param);
            cause_number(digits)
        }
    }
}

/// Whether the word `history` is one of the parts.
fn has_history(value: &[u8]) -> bool
    ensures { result ≡ list_any is_history (escaped_parts value.now) }
{
    let mut rest = value;
    'parts: while let Some((front, tail)) = first_escaped(rest) {
        if front.eq_ignore_ascii_case(b"history") {
            return true;
        }
        rest = tail;
    }
    rest.eq_ignore_ascii_case(b"history")
}

/// Whether this header is a Privacy with the word `history`.
#[tactic(auto, unfolding(crate::specs::EntryUri::hides))]
fn hides(header: &[u8]) -> bool
    ensures { result ≡ hides header.now }
{
    if !is_named(b"Privacy", header) {
        return false;
    }
    let (_, value) = split_around(b'=', header);
    has_history(value)
}

/// Whether one of the headers hides the entry.
fn any_hides(headers: &[u8]) -> bool
    ensures { result ≡ list_any hides (parts 38 headers.now) }
{
    let mut rest = headers;
    'parts: while let Some((front, tail)) = first_part(b'&', rest) {
        if hides(front) {
            return true;
        }
        rest = tail;
    }
    hides(rest)
}

/// Whether the header part of the URI requests that the entry be hidden (RFC 7044 §10.1).
#[tactic(auto, unfolding(crate::specs::EntryUri::is_marked))]
pub fn is_marked(uri: &[u8]) -> bool
    ensures { result ≡ is_marked uri.now }
{
    let (_, host) = split_user(uri);
    let (_, headers) = split_around(b'?', host);
    any_hides(headers)
}

/// Adds the URI with its mark.
#[tactic(auto, unfolding(crate::specs::EntryUri::marked_uri))]
pub fn add_marked(alloc: Global, out: &mut Text, uri: &[u8]) -> Result<(), NoMemory>
    ensures { OnOk result (out.new ≡ out.old ++ marked_uri uri.now) }
{
    out.push(alloc, uri)?;
    if is_marked(uri) {
        return Ok(());
    }
    let (_, host) = split_user(uri);
    match split_once_at(b'?', host) {
        None => out.push(alloc, b"?Privacy=history"),
        Some(_) => out.push(alloc, b"&Privacy=history"),
    }
}

/// Adds a `;` and the parameter, unless it is a cause.
fn add_unless_cause(alloc: Global, out: &mut Text, param: &[u8]) -> Result<(), NoMemory>
    ensures { OnOk result (out.new ≡ out.old ++ flat_map (λ p. 59 ∷ p) (filter (λ p. not (is_cause p)) (param.now ∷ []))) }
{
    if is_named(b"cause", param) {
        return Ok(());
    }
    out.push(alloc, b";")?;
    out.push(alloc, param)
}

/// Adds the parameters that are no causes, each after its `;`.
fn add_other_params(alloc: Global, out: &mut Text, params: &[u8]) -> Result<(), NoMemory>
    ensures { OnOk result (out.new ≡ out.old ++ flat_map (λ p. 59 ∷ p) (filter (λ p. not (is_cause p)) (parts 59 params.now))) }
{
    let mut rest = params;
    'parts: while let Some((front, tail)) = first_part(b';', rest) {
        add_unless_cause(alloc, out, front)?;
        rest = tail;
    }
    add_unless_cause(alloc, out, rest)
}

/// Adds the host and the parameters that are no causes.
fn add_without_causes(alloc: Global, out: &mut Text, host_part: &[u8]) -> Result<(), NoMemory>
    ensures { OnOk result (out.new ≡ out.old ++ host_part_without_causes host_part.now) }
{
    match first_part(b';', host_part) {
        None => out.push(alloc, host_part),
        Some((host, params)) => {
            out.push(alloc, host)?;
            add_other_params(alloc, out, params)
        }
    }
}

/// Adds the cause, where there is one.
fn add_cause(alloc: Global, out: &mut Text, cause: Option<u16>) -> Result<(), NoMemory>
    ensures { OnOk result (out.new ≡ out.old ++ cause_text cause) }
{
    match cause {
        None => Ok(()),
        Some(cause) => {
            let digits = cause.to_string(alloc)?;
            out.push(alloc, b";cause=")?;
            out.push(alloc, digits.as_bytes())
        }
    }
}

/// The URI with this cause, or with none, in place of its own.
fn uri_with_cause(alloc: Global, uri: &[u8], cause: Option<u16>) -> Result<Text, NoMemory>
    ensures { IfOk result (λ t. t ≡ with_host_part (host_part_without_causes (host_and_params uri.now) ++ cause_text cause) uri.now) }
{
    let (user, host) = split_user(uri);
    let mut out = Text::of(alloc, user)?;
    match split_once_at(b'?', host) {
        None => {
            add_without_causes(alloc, &mut out, host)?;
            add_cause(alloc, &mut out, cause)?;
        }
        Some((front, headers)) => {
            add_without_causes(alloc, &mut out, front)?;
            add_cause(alloc, &mut out, cause)?;
            out.push(alloc, b"?")?;
            out.push(alloc, headers)?;
        }
    }
    Ok(out)
}

/// The URI without the causes of a diversion that led to it: each parameter `cause` is removed, its name in any case of letters (RFC 4458 §2, RFC 3261 §19.1.1).
/// All else stays as it is.
///
/// # Errors
///
/// Out of memory only.
pub fn without_cause(alloc: Global, uri: &[u8]) -> Result<Text, NoMemory>
    ensures text { IfOk result (λ t. t ≡ without_cause uri.now) }
    ensures none { IfOk result (λ t. has_cause t ≡ false) }
    // The mark is as it was.
    ensures mark { IfOk result (λ t. is_marked t ≡ is_marked uri.now) }
{
    uri_with_cause(alloc, uri, None)
}

/// The URI with `;cause=` and the cause after its parameters, before its header part (RFC 4458 §2). A cause that it already has is removed first.
///
/// # Errors
///
/// Out of memory only.
pub fn with_cause(alloc: Global, uri: &[u8], cause: u16) -> Result<Text, NoMemory>
    ensures text { IfOk result (λ t. t ≡ with_cause cause uri.now) }
    // The cause is read again, where it has three digits.
    ensures cause { 100 ≤ cause → cause ≤ 699 → IfOk result (λ t. cause_of t ≡ Some cause) }
    // It is the only one.
    ensures one { IfOk result (λ t. causes_in t ≡ 1) }
    // The mark is as it was.
    ensures mark { IfOk result (λ t. is_marked t ≡ is_marked uri.now) }
{
    uri_with_cause(alloc, uri, Some(cause))
}
