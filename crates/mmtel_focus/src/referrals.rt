//! What a REFER asks for.
ghost use Rattle.std.specs.Prelude.{◌≡◌, IfOk, None, Some, find};
ghost use Rattle.std.specs.Option.{option_copied, option_map};
ghost use Rattle.mmtel_lex.specs.UriParts.{is_named, parts, text_after};
ghost use Rattle.mmtel_focus.specs.Referrals.{asks_invite, is_invite, is_method, referral_in, referral_to, replaces_at, replaces_by, replaces_in, replaces_of, value_named};

use mmtel_base::{NoMemory, Text};
use mmtel_compose::ReceivedMessage;
use mmtel_lex::{Param, Uri, find_named, first_part, percent_decoded_text, split_around};
use mmtel_message::line_texts;
use mmtel_participants::is_method;
use mmtel_trust::uri_in;
use std::alloc::Global;

/// The dialog that is to be replaced (RFC 3891 §3), unescaped.
#[derive(Drop)]
pub struct Replaces {
    /// Its Call-ID.
    pub call_id: Text,
    /// The tag of the side that receives the request, here the server; None where none is given.
    pub to_tag: Option<Text>,
    /// The other side's tag; None where none is given.
    pub from_tag: Option<Text>,
}

/// What a REFER asks for (RFC 3515 §2.1).
#[derive(Drop)]
pub enum Referral {
    /// Nothing: it has no Refer-To.
    Missing,
    /// A request of another method than INVITE.
    OtherMethod,
    /// An INVITE to this URI; None where it is of a scheme that the server does not support.
    Invite(Option<Uri>),
    /// An INVITE that replaces this dialog.
    Replace(Replaces),
}

/// The text after the `=` of the first of these words that has the name.
fn value_named(alloc: Global, byte: u8, name: &[u8], bytes: &[u8]) -> Result<Option<Text>, NoMemory>
    ensures { IfOk result (λ v. v ≡ value_named name.now (parts byte bytes.now)) }
{
    match find_named(byte, name, bytes) {
        None => Ok(None),
        Some(word) => {
            let (_, value) = split_around(b'=', word);
            Ok(Some(Text::of(alloc, value)?))
        }
    }
}

/// The dialog that a Replaces names, unescaped.
fn replaces_in(alloc: Global, value: &[u8]) -> Result<Replaces, NoMemory>
    ensures { IfOk result (λ r. r ≡ replaces_in (parts 59 value.now)) }
{
    match first_part(b';', value) {
        None => Ok(Replaces {
            call_id: Text::of(alloc, value)?,
            to_tag: None,
            from_tag: None,
        }),
        Some((call_id, params)) => {
            let call_id = Text::of(alloc, call_id)?;
            let to_tag = value_named(alloc, b';', b"to-tag", params)?;
            let from_tag = value_named(alloc, b';', b"from-tag", params)?;
            Ok(Replaces {
                call_id,
                to_tag,
                from_tag,
            })
        }
    }
}

/// The dialog that an escaped Replaces names.
fn replaces_at(alloc: Global, value: &[u8]) -> Result<Replaces, NoMemory>
    ensures { IfOk result (λ r. r ≡ replaces_at value.now) }
{
    match percent_decoded_text(alloc, value)? {
        None => replaces_in(alloc, b""),
        Some(value) => replaces_in(alloc, value.bytes()),
    }
}

/// The dialog that the first Replaces in the header part of a URI names.
#[tactic(auto, unfolding(crate::specs::Referrals::replaces_of))]
fn replaces_of(alloc: Global, headers: &[u8]) -> Result<Option<Replaces>, NoMemory>
    ensures { IfOk result (λ r. r ≡ replaces_of headers.now) }
{
    match value_named(alloc, b'&', b"Replaces", headers)? {
        None => Ok(None),
        Some(value) => Ok(Some(replaces_at(alloc, value.bytes())?)),
    }
}

fn replaces_by(alloc: Global, uri: &Uri) -> Result<Option<Replaces>, NoMemory>
    ensures { IfOk result (λ r. r ≡ replaces_by uri.now) }
{
    match uri {
        Uri::Sip { headers, .. } => replaces_of(alloc, headers.bytes()),
        Uri::Tel { .. } => Ok(None),
    }
}

/// The first parameter `method`.
fn method_of(params: &[Param]) -> Option<&Param>
    ensures { option_copied result ≡ find is_method params.now }
{
    params.iter().find(|param| is_method(param))
}

fn is_invite(param: Option<&Param>) -> bool
    ensures { result ≡ is_invite (option_copied param.entry) }
{
    match param {
        None => true,
        Some(param) => match &param.value {
            None => false,
            Some(value) => value.bytes() == b"INVITE".as_slice(),
        },
    }
}

fn asks_invite(uri: &Uri) -> bool
    ensures { result ≡ asks_invite uri.now }
{
    match uri {
        Uri::Sip { params, .. } => is_invite(method_of(params.items())),
        Uri::Tel { params, .. } => is_invite(method_of(params.items())),
    }
}

/// What a REFER asks for by this URI, which is moved into the result where the result has it.
fn referral_by(alloc: Global, uri: &mut Option<Uri>) -> Result<Referral, NoMemory>
    ensures { IfOk result (λ r. r ≡ referral_to uri.old) }
{
    match uri {
        None => Ok(Referral::Invite(None)),
        Some(named) => {
            if !asks_invite(named) {
                return Ok(Referral::OtherMethod);
            }
            match replaces_by(alloc, named)? {
                None => Ok(Referral::Invite(uri.take())),
                Some(replaces) => Ok(Referral::Replace(replaces)),
            }
        }
    }
}

fn referral_to(alloc: Global, uri: Option<Uri>) -> Result<Referral, NoMemory>
    ensures { IfOk result (λ r. r ≡ referral_to uri) }
{
    let mut uri = uri;
    referral_by(alloc, &mut uri)
}

/// What a REFER asks for by its first Refer-To (RFC 3515 §2.1): an INVITE, by name or because its URI names no method; an INVITE that replaces a dialog, where the header part of
/// that URI has a Replaces (RFC 3891 §3); or a request of another method.
///
/// # Errors
///
/// Out of memory only.
#[tactic(auto, unfolding(crate::specs::Referrals::referral_in))]
pub fn referral_of(alloc: Global, request: &ReceivedMessage) -> Result<Referral, NoMemory>
    ensures referral { IfOk result (λ r. r ≡ referral_in request.now.parsed.refer_to) }
{
    let values = line_texts(alloc, &request.message.lines(), b"Refer-To")?;
    match values.items() {
        [] => Ok(Referral::Missing),
        [value, ..] => {
            let uri = uri_in(alloc, value.bytes())?;
            referral_to(alloc, uri)
        }
    }
}
