//! URIs of the schemes `sip` and `tel` (RFC 3261 §19.1.1, RFC 3966 §3).
ghost use Rattle.std.specs.Prelude.{◌≡◌, ◌≤◌, length, IfOk, IfErr, Err, ◌⊎◌};
ghost use Rattle.std.specs.List.{list_any};
ghost use Rattle.std.specs.Option.{option_copied, option_map};
ghost use Rattle.std.specs.Str.{str_eq_ignore_ascii_case};
ghost use Rattle.mmtel_base.specs.Classes.{in_class};
ghost use Rattle.mmtel_base.specs.declared.classes.Class.TheVariants.{Digit};
ghost use Rattle.mmtel_lex.specs.UriRefs.{IsUriRefResult, uri_view};
ghost use Rattle.mmtel_lex.specs.Grammar.{IsUri, IsForeign, IsNoUri};
ghost use Rattle.mmtel_lex.specs.Outcome.{IsUnlessOutOfMemory, IsMalformedUri, IsOfBytes, IsUriOfBytes};
ghost use Rattle.mmtel_lex.specs.Reading.{IsResult, user_at, host_at, port_number, port_at, headers_at, headers_of, sip_parts, sip_of, scheme_of, sign_of, number_at};
ghost use Rattle.mmtel_lex.specs.Reading.{tel_parts, tel_of, uri_of, IsUriResult, or_malformed};

use crate::faults::{LexFault, UriFault};
use crate::param_refs::{ParamsRef, owned_text, params_ref};
use crate::values::Uri;
use mmtel_base::{
    Class, NoMemory, Text, is_all, number_up_to, skip_byte, split_once_at, split_run,
};
use std::alloc::Global;

/// A URI of a scheme that the server knows, in place in the bytes.
#[derive(Drop)]
pub enum UriRef<'a> {
    /// A sip URI (RFC 3261 §19.1.1).
    Sip {
        /// What comes before the `@`, a password included; None where there is no `@`.
        user: Option<&'a [u8]>,
        /// 1 to 255 bytes, in the case of letters in which they were written.
        host: &'a [u8],
        /// 1 to 65535.
        port: Option<u16>,
        params: ParamsRef<'a>,
        /// What follows the `?`; no bytes where there is no `?`.
        headers: &'a [u8],
    },
    /// A tel URI (RFC 3966 §3).
    Tel {
        /// A `+` or none, then digits and visual separators.
        number: &'a [u8],
        params: ParamsRef<'a>,
    },
}

/// The user before the only `@`, where there is one, and what follows.
#[tactic(auto, unfolding(crate::specs::Reading::user_at))]
fn user(bytes: &[u8]) -> Option<(Option<&[u8]>, &[u8])>
    ensures { option_map (λ x. (option_copied x.0, x.1.now)) result ≡ user_at bytes.now }
{
    match split_once_at(b'@', bytes) {
        None => Some((None, bytes)),
        Some((front, rest)) => {
            if front.is_empty() {
                return None;
            }
            if is_all(Class::User, front) && split_once_at(b'@', rest).is_none() {
                Some((Some(front), rest))
            } else {
                None
            }
        }
    }
}

/// The host with which the bytes begin, and what follows it: letters, digits, `-` and `.`, 1 to 255 bytes; None exactly where no byte of a host comes first, or more than 255 do.
/// It allocates nothing.
#[tactic(auto, unfolding(crate::specs::Reading::host_at))]
pub fn host_ref(bytes: &[u8]) -> Option<(&[u8], &[u8])>
    ensures exact { option_map (λ x. (x.0.now, x.1.now)) result ≡ host_at bytes.now }
{
    let (front, rest) = split_run(Class::Host, bytes);
    if front.is_empty() || front.len() > 255 {
        return None;
    }
    Some((front, rest))
}

/// The host with which the bytes begin, copied, and what follows it: letters, digits, `-` and `.`, 1 to 255 bytes.
///
/// # Errors
///
/// `Malformed` exactly where no byte of a host comes first, or more than 255 do.
pub fn host(alloc: Global, bytes: &[u8]) -> Result<(Text, &[u8]), LexFault>
    ensures exact { IsResult (λ x. (x.0, x.1.now)) result (host_at bytes.now) }
{
    match host_ref(bytes) {
        None => Err(LexFault::Malformed),
        Some((host, rest)) => Ok((Text::of(alloc, host)?, rest)),
    }
}

/// The port that the digits write.
#[tactic(auto, unfolding(crate::specs::Reading::port_number))]
fn port_number(digits: &[u8]) -> Option<u16>
    ensures { result ≡ port_number digits.now }
{
    match number_up_to(65535, digits) {
        None | Some(0) => None,
        Some(number) => Some(number as u16),
    }
}

/// The port after a `:` at the start, 1 to 65535, and what follows it; no port where no `:` comes first. None exactly where a `:` comes that is not followed by the digits
/// of such a number. It allocates nothing.
#[tactic(auto, unfolding(crate::specs::Reading::port_at))]
pub fn port_ref(bytes: &[u8]) -> Option<(Option<u16>, &[u8])>
    ensures exact { option_map (λ x. (x.0, x.1.now)) result ≡ port_at bytes.now }
{
    match skip_byte(b':', bytes) {
        None => Some((None, bytes)),
        Some(tail) => {
            let (digits, rest) = split_run(Class::Digit, tail);
            let port = port_number(digits)?;
            Some((Some(port), rest))
        }
    }
}

/// The port after a `:` at the start, 1 to 65535, and what follows it; no port where no `:` comes first. It allocates nothing.
///
/// # Errors
///
/// `Malformed` exactly where a `:` comes that is not followed by the digits of such a number.
pub fn port(bytes: &[u8]) -> Result<(Option<u16>, &[u8]), LexFault>
    ensures exact { IsResult (λ x. (x.0, x.1.now)) result (port_at bytes.now) }
    // The fault is never out of memory.
    ensures of_bytes { IfErr result (λ e. IsOfBytes e) }
{
    match port_ref(bytes) {
        None => Err(LexFault::Malformed),
        Some(read) => Ok(read),
    }
}

/// The bytes after a `?`: one or more, and nothing else.
#[tactic(auto, unfolding(crate::specs::Reading::headers_of))]
fn header_bytes(bytes: &[u8]) -> Option<&[u8]>
    ensures { option_copied result ≡ headers_of bytes.now }
{
    let (front, rest) = split_run(Class::User, bytes);
    if front.is_empty() {
        return None;
    }
    if !rest.is_empty() {
        return None;
    }
    Some(front)
}

/// The header part, which ends the URI.
#[tactic(auto, unfolding(crate::specs::Reading::headers_at))]
fn headers(bytes: &[u8]) -> Option<&[u8]>
    ensures { option_copied result ≡ headers_at bytes.now }
{
    match skip_byte(b'?', bytes) {
        None => { if bytes.is_empty() { Some(&[]) } else { None } }
        Some(tail) => header_bytes(tail),
    }
}

/// The parts after `sip:`, one after the other.
fn sip_parts(bytes: &[u8]) -> Option<UriRef<'_>>
    ensures { option_map uri_view result ≡ sip_parts bytes.now }
{
    let (user, rest) = user(bytes)?;
    let (host, rest) = host_ref(rest)?;
    let (port, rest) = port_ref(rest)?;
    let (params, rest) = params_ref(rest)?;
    let headers = headers(rest)?;
    Some(UriRef::Sip {
        user,
        host,
        port,
        params,
        headers,
    })
}

/// All of the bytes after `sip:`, each of which is one of a URI.
#[tactic(auto, unfolding(crate::specs::Reading::sip_of))]
fn sip(bytes: &[u8]) -> Option<UriRef<'_>>
    ensures { option_map uri_view result ≡ sip_of bytes.now }
{
    if is_all(Class::UriByte, bytes) {
        sip_parts(bytes)
    } else {
        None
    }
}

/// The name of a scheme and what follows its `:`.
#[tactic(auto, unfolding(crate::specs::Reading::scheme_of))]
fn scheme(bytes: &[u8]) -> Option<(&[u8], &[u8])>
    ensures { option_map (λ x. (x.0.now, x.1.now)) result ≡ scheme_of bytes.now }
{
    let (name, rest) = split_run(Class::SchemeRest, bytes);
    match bytes {
        [first, ..] if Class::Letter.has(*first) => match skip_byte(b':', rest) {
            None => None,
            Some(tail) => Some((name, tail)),
        },
        _ => None,
    }
}

fn is_named(name: &[u8], wanted: &[u8]) -> bool
    ensures { result ≡ str_eq_ignore_ascii_case name.now wanted.now }
{
    name.eq_ignore_ascii_case(wanted)
}

/// The bytes after a `+`, or all.
fn after_sign(bytes: &[u8]) -> &[u8]
    ensures rest { result.now ≡ (sign_of bytes.now).1 }
    ensures shorter { length result.now ≤ length bytes.now }
{
    match skip_byte(b'+', bytes) {
        None => bytes,
        Some(tail) => tail,
    }
}

fn has_digit(bytes: &[u8]) -> bool
    ensures { result ≡ list_any (in_class Digit) bytes.now }
{
    bytes.iter().any(|b| Class::Digit.has(*b))
}

/// The number of a tel URI, its `+` included, and what follows it.
#[tactic(auto, unfolding(crate::specs::Reading::number_at))]
fn phone(bytes: &[u8]) -> Option<(&[u8], &[u8])>
    ensures { option_map (λ x. (x.0.now, x.1.now)) result ≡ number_at bytes.now }
{
    let (marks, rest) = split_run(Class::Phone, after_sign(bytes));
    if !has_digit(marks) {
        return None;
    }
    Some(bytes.split_at(bytes.len() - rest.len()))
}

/// The parts after `tel:`, one after the other.
fn tel_parts(bytes: &[u8]) -> Option<UriRef<'_>>
    ensures { option_map uri_view result ≡ tel_parts bytes.now }
{
    let (number, rest) = phone(bytes)?;
    let (params, rest) = params_ref(rest)?;
    if rest.is_empty() {
        Some(UriRef::Tel { number, params })
    } else {
        None
    }
}

/// All of the bytes after `tel:`, each of which is one of a URI.
#[tactic(auto, unfolding(crate::specs::Reading::tel_of))]
fn tel(bytes: &[u8]) -> Option<UriRef<'_>>
    ensures { option_map uri_view result ≡ tel_of bytes.now }
{
    if is_all(Class::UriByte, bytes) {
        tel_parts(bytes)
    } else {
        None
    }
}

/// The URI, or the fault that its bytes are malformed.
fn or_malformed(read: Option<UriRef<'_>>) -> Result<UriRef<'_>, UriFault>
    ensures exact { IsUriRefResult result (or_malformed (option_map uri_view read.entry)) }
    ensures of_bytes { IfErr result (λ e. IsUriOfBytes e) }
{
    match read {
        Some(uri) => Ok(uri),
        None => Err(UriFault::Malformed),
    }
}

/// The URI of the scheme `sip` or `tel` that these bytes are, in place; all of them are read (RFC 3261 §19.1.1, RFC 3966 §3). It allocates nothing.
///
/// # Errors
///
/// `Malformed` exactly where the bytes are neither of the grammar nor of another scheme. `Scheme` exactly where they begin with another scheme.
#[tactic(auto, unfolding(crate::specs::Reading::uri_of))]
pub fn uri_ref(bytes: &[u8]) -> Result<UriRef<'_>, UriFault>
    // The result is that of the total reading function.
    ensures exact { IsUriRefResult result (uri_of bytes.now) }
    // The fault is never out of memory.
    ensures of_bytes { IfErr result (λ e. IsUriOfBytes e) }
{
    match scheme(bytes) {
        None => Err(UriFault::Malformed),
        Some((name, rest)) => {
            if is_named(name, b"sip") {
                or_malformed(sip(rest))
            } else if is_named(name, b"tel") {
                or_malformed(tel(rest))
            } else {
                Err(UriFault::Scheme)
            }
        }
    }
}

impl<'a> UriRef<'a> {
    /// A copy of the URI.
    ///
    /// # Errors
    ///
    /// Out of memory only.
    pub fn owned(&self, alloc: Global) -> Result<Uri, NoMemory>
        ensures { IfOk result (λ uri. uri ≡ uri_view self.now) }
    {
        match self {
            UriRef::Sip {
                user,
                host,
                port,
                params,
                headers,
            } => {
                let params = params.owned(alloc)?;
                let host = Text::of(alloc, *host)?;
                let headers = Text::of(alloc, *headers)?;
                let user = owned_text(alloc, *user)?;
                Ok(Uri::Sip {
                    user,
                    host,
                    port: *port,
                    params,
                    headers,
                })
            }
            UriRef::Tel { number, params } => {
                let number = Text::of(alloc, *number)?;
                let params = params.owned(alloc)?;
                Ok(Uri::Tel { number, params })
            }
        }
    }
}

fn uri(alloc: Global, bytes: &[u8]) -> Result<Uri, UriFault>
    ensures { IsUriResult result (uri_of bytes.now) }
{
    match uri_ref(bytes) {
        Ok(uri) => match uri.owned(alloc) {
            Ok(uri) => Ok(uri),
            Err(NoMemory) => Err(UriFault::NoMemory),
        },
        Err(fault) => Err(fault),
    }
}

/// Reads a URI of the scheme `sip` or `tel` (RFC 3261 §19.1.1, RFC 3966 §3); all of the bytes are read.
///
/// # Errors
///
/// `Malformed` exactly where the bytes are neither of the grammar nor of another scheme. `Scheme` exactly where they begin with another scheme. `NoMemory` where memory ran
/// out.
pub fn read_uri(alloc: Global, bytes: &[u8]) -> Result<Uri, UriFault>
    // The result is that of the total reading function.
    ensures exact { IsUriResult result (uri_of bytes.now) }
    // What is read is what the bytes spell.
    ensures found { IfOk result (λ u. IsUri bytes.now u) }
    // What the bytes spell is read.
    ensures only { (u : Uri) → IsUri bytes.now u → IsUnlessOutOfMemory result (Ok u) }
    // The fault is the scheme exactly where the bytes begin with another one.
    ensures scheme { result ≡ Err UriFault.Scheme → IsForeign bytes.now }
    ensures foreign { IsForeign bytes.now → IsUnlessOutOfMemory result (Err UriFault.Scheme) }
    // The bytes are malformed exactly where they are neither of the grammar nor of another scheme.
    ensures malformed { IsMalformedUri result → IsNoUri bytes.now }
    ensures refused { IsNoUri bytes.now → IsMalformedUri result ⊎ (result ≡ Err UriFault.NoMemory) }
{
    uri(alloc, bytes)
}
