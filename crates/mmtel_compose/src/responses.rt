//! Responses to received messages.
ghost use Rattle.std.specs.Prelude.{◌≡◌, IfOk, codes};
ghost use Rattle.mmtel_message.specs.Addresses.{contact_text};
ghost use Rattle.mmtel_message.specs.Message.{line};
ghost use Rattle.mmtel_compose.specs.Responses.{allow_lines, method_names, own_response, relayed_response, retry_after_lines};

use crate::received_messages::{ReceivedMessage, phrase_in, status_of};
use mmtel_base::{List, NoMemory};
use mmtel_message::{Line, Msg, OwnAddress, Reply, add_bytes, phrase_of, response};
use std::alloc::Global;

/// The content of a response of the server's own (RFC 3261 §8.2.6).
#[derive(Clone, Copy)]
pub struct OwnResponse<'a> {
    /// Its status.
    pub code: u16,
    /// Lines that are passed on: History-Info of a 181.
    pub passed: &'a [Line],
    /// Lines that are added for the status.
    pub named: &'a [Line],
    /// Its body.
    pub body: &'a [u8],
}

/// The response of the server's own to a request: its status and phrase, the tag where the request has none, Contact with this value where one is due, and its other content
/// (RFC 3261 §8.2.6).
///
/// # Errors
///
/// Out of memory only.
pub fn own_response_with_contact(
    alloc: Global,
    contact: &[u8],
    request: &ReceivedMessage,
    tag: &[u8],
    own: OwnResponse<'_>,
) -> Result<Msg, NoMemory>
    ensures message { IfOk result (λ m. m
        ≡ own_response contact.now request.now tag.now own.entry.code own.entry.passed.now own.entry.named.now own.entry.body.now) }
{
    let reply = Reply {
        code: own.code,
        phrase: phrase_of(own.code),
        tag,
        source: Some(request.source),
        contact,
        passed: own.passed,
        named: own.named,
        body: own.body,
    };
    response(
        alloc,
        request.message.start(),
        &request.message.lines(),
        &reply,
    )
}

/// The response of the server's own, with its own Contact where one is due; the other parameters are as in `own_response_with_contact`.
///
/// # Errors
///
/// Out of memory only.
pub fn own_response(
    alloc: Global,
    sip: OwnAddress,
    request: &ReceivedMessage,
    tag: &[u8],
    own: OwnResponse<'_>,
) -> Result<Msg, NoMemory>
    ensures message { IfOk result (λ m. m
        ≡ own_response (contact_text sip) request.now tag.now own.entry.code own.entry.passed.now own.entry.named.now own.entry.body.now) }
{
    own_response_with_contact(alloc, sip.contact(), request, tag, own)
}

/// The response that relays a received one, with these lines of it: its status, phrase and body, and the server's Contact where one is due (RFC 3261 §16.7).
///
/// # Errors
///
/// Out of memory only.
pub fn relayed_response(
    alloc: Global,
    sip: OwnAddress,
    request: &ReceivedMessage,
    tag: &[u8],
    passed: &[Line],
    heard: &ReceivedMessage,
) -> Result<Msg, NoMemory>
    ensures message { IfOk result (λ m. m ≡ relayed_response (contact_text sip) request.now tag.now passed.now heard.now) }
{
    let reply = Reply {
        code: status_of(heard.message.start()),
        phrase: phrase_in(heard.message.start()),
        tag,
        source: Some(request.source),
        contact: sip.contact(),
        passed,
        named: &[],
        body: heard.message.body(),
    };
    response(
        alloc,
        request.message.start(),
        &request.message.lines(),
        &reply,
    )
}

/// The line with the time after which a request may be sent again: 5 seconds (RFC 3261 §14.2, §20.33).
///
/// # Errors
///
/// Out of memory only.
#[tactic(auto, unfolding(mmtel_message::specs::Message::line))]
pub fn retry_after_lines(alloc: Global) -> Result<List<Line>, NoMemory>
    ensures lines { IfOk result (λ ls. ls ≡ retry_after_lines) }
{
    let mut lines = List::new();
    add_bytes(alloc, &mut lines, b"Retry-After", b"5")?;
    Ok(lines)
}

/// Which methods the server supports beside those that it always supports.
#[derive(Clone, Copy)]
pub struct FurtherMethods {
    /// PRACK (RFC 3262) and UPDATE (RFC 3311).
    pub reliable: bool,
    /// SUBSCRIBE, for message waiting (RFC 3842).
    pub mwi: bool,
}

/// The names of the methods that the server supports.
fn method_names(methods: FurtherMethods) -> &'static [u8]
    ensures { result.now ≡ method_names methods.reliable methods.mwi }
{
    match (methods.reliable, methods.mwi) {
        (false, false) => b"INVITE, ACK, CANCEL, BYE, OPTIONS, REGISTER, REFER",
        (true, false) => b"INVITE, ACK, CANCEL, BYE, OPTIONS, REGISTER, REFER, PRACK, UPDATE",
        (false, true) => b"INVITE, ACK, CANCEL, BYE, OPTIONS, REGISTER, REFER, SUBSCRIBE",
        (true, true) => {
            b"INVITE, ACK, CANCEL, BYE, OPTIONS, REGISTER, REFER, PRACK, UPDATE, SUBSCRIBE"
        }
    }
}

/// The line of the methods that the server supports (RFC 3261 §20.5).
///
/// # Errors
///
/// Out of memory only.
#[tactic(auto, unfolding(mmtel_message::specs::Message::line))]
pub fn allow_lines(alloc: Global, methods: FurtherMethods) -> Result<List<Line>, NoMemory>
    ensures lines { IfOk result (λ ls. ls ≡ allow_lines methods) }
{
    let mut lines = List::new();
    add_bytes(alloc, &mut lines, b"Allow", method_names(methods))?;
    Ok(lines)
}
