//! Which conference a URI names, and the texts that a conference sends beside its requests.
ghost use Rattle.std.specs.Prelude.{◌≡◌, IfOk, true};
ghost use Rattle.mmtel_sdp.specs.Offers.{offers_audio};
ghost use Rattle.mmtel_focus.specs.Texts.{answer_in, conference_in, conference_number, is_port, own_status, status_line};

use mmtel_base::{NoMemory, Text, add_number, plain_number, skip_text};
use mmtel_lex::Uri;
use mmtel_message::{ip_text, phrase_of};
use mmtel_sdp::{AnswerFault, Mixer, mixer_answer, view_of};
use mmtel_types::Addr;
use std::alloc::Global;

/// The mixer's answer to a body that offers audio (RFC 3264 §6).
#[tactic(auto, unfolding(crate::specs::Texts::answer_in))]
pub fn answer_in(alloc: Global, mixer: Mixer, body: &[u8]) -> Result<Text, NoMemory>
    requires { offers_audio body.now ≡ true }
    ensures { IfOk result (λ t. t ≡ answer_in mixer body.now) }
{
    match view_of(alloc, body)? {
        None => unreachable!(),
        Some(view) => match mixer_answer(alloc, &view, mixer) {
            Ok(text) => Ok(text),
            Err(AnswerFault::NoAudio) => unreachable!(),
            Err(AnswerFault::NoMemory) => Err(NoMemory),
        },
    }
}

/// A status line (RFC 3261 §7.2).
pub fn status_line(alloc: Global, code: u16, phrase: &[u8]) -> Result<Text, NoMemory>
    ensures { IfOk result (λ t. t ≡ status_line code phrase.now) }
{
    let mut out = Text::of(alloc, b"SIP/2.0 ")?;
    add_number(alloc, &mut out, u64::from(code))?;
    out.push(alloc, b" ")?;
    out.push(alloc, phrase)?;
    Ok(out)
}

/// The status line of a status of the server's own.
pub fn own_status(alloc: Global, code: u16) -> Result<Text, NoMemory>
    ensures { IfOk result (λ t. t ≡ own_status code) }
{
    status_line(alloc, code, phrase_of(code))
}

/// Whether this is the server's port; it is 5060 where none is written.
fn is_port(own: u16, port: Option<u16>) -> bool
    ensures { result ≡ is_port own port }
{
    match port {
        None => own == 5060,
        Some(port) => port == own,
    }
}

/// The number of the conference that the user part of a URI names.
fn conference_number(user: &[u8]) -> Option<u64>
    ensures { result ≡ conference_number user.now }
{
    match skip_text(b"room-", user) {
        None => None,
        Some(digits) => plain_number(u64::MAX, digits),
    }
}

/// The number of the conference of this server that a URI names, whether it is live or not: `room-N` at the server's address, where port 5060 need not be written (RFC 4579 §4.4,
/// RFC 3261 §19.1.2). None where it names none.
///
/// # Errors
///
/// Out of memory only.
pub fn conference_named(alloc: Global, sip: Addr, uri: &Uri) -> Result<Option<u64>, NoMemory>
    ensures number { IfOk result (λ room. room ≡ conference_in sip uri.now) }
{
    match uri {
        Uri::Tel { .. } => Ok(None),
        Uri::Sip {
            user,
            host,
            port,
            ..
        } => match user {
            None => Ok(None),
            Some(user) => {
                let ip = ip_text(alloc, sip.ip)?;
                if host.bytes() == ip.bytes() && is_port(sip.port, *port) {
                    return Ok(conference_number(user.bytes()));
                }
                Ok(None)
            }
        },
    }
}
