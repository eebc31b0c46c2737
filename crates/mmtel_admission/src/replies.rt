//! The responses that the server makes of its own.
ghost use Rattle.std.specs.Prelude.{◌≡◌, IfOk, is_none};
ghost use Rattle.std.specs.Option.{option_copied};
ghost use Rattle.mmtel_compose.specs.ReceivedMessages.{phrase_in};
ghost use Rattle.mmtel_trust.specs.ParsedMessage.{tag_of};
ghost use Rattle.mmtel_run_definitions.specs.OwnResponses.{completed_reply, response_to, to_tag_in};
ghost use Rattle.mmtel_admission.specs.Dispositions.{response_in};

use crate::status_responses::StatusResponse;
use mmtel_base::NoMemory;
use mmtel_compose::{OwnResponse, ReceivedMessage, own_response, status_of};
use mmtel_lex::name_addr_ref;
use mmtel_message::{Msg, OwnAddress, Reply, Start, response};
use mmtel_types::Addr;
use std::alloc::Global;

/// Whether a To value has no tag.
fn has_no_tag(value: Option<&[u8]>) -> bool
    ensures { result ≡ is_none (tag_of (option_copied value.entry)) }
{
    match value {
        None => true,
        Some(value) => match name_addr_ref(value) {
            None => true,
            Some(name) => name.params.value(b"tag").is_none(),
        },
    }
}

/// Whether To has no tag, so that a tag is drawn for the response (RFC 3261 §8.2.6.2). It allocates nothing.
pub fn is_untagged(message: &Msg) -> bool
    ensures untagged { result ≡ is_none (to_tag_in message.now.lines) }
{
    has_no_tag(message.first(b"To"))
}

/// The response to a request, with this tag where its To has none (RFC 3261 §8.2.6).
///
/// # Errors
///
/// Out of memory only.
pub fn response_to(
    alloc: Global,
    sip: OwnAddress,
    tag: &[u8],
    request: &ReceivedMessage,
    status_response: &StatusResponse,
) -> Result<Msg, NoMemory>
    ensures message { IfOk result (λ m. m ≡ response_to sip tag.now request.now (response_in status_response.now)) }
{
    let own = OwnResponse {
        code: status_response.code,
        passed: &[],
        named: status_response.lines.items(),
        body: b"",
    };
    own_response(alloc, sip, request, tag, own)
}

/// The reason phrase of a response; no bytes for a request.
fn phrase_in(start: &Start) -> &[u8]
    ensures { result.now ≡ phrase_in start.now }
{
    match start {
        Start::Request { method: _, uri: _ } => b"",
        Start::Status { code: _, phrase } => phrase.bytes(),
    }
}

/// The reply to bytes that were refused as they were read, completed for the peer that they came from:
/// its first Via gets the address from which they came, and To gets this tag where it has none (RFC 3261 §8.2.6.2, §18.2.1).
///
/// # Errors
///
/// Out of memory only.
pub fn completed_reply(
    alloc: Global,
    tag: &[u8],
    source: Addr,
    reply: &Msg,
) -> Result<Msg, NoMemory>
    ensures message { IfOk result (λ m. m ≡ completed_reply tag.now source reply.now) }
{
    let completed = Reply {
        code: status_of(reply.start()),
        phrase: phrase_in(reply.start()),
        tag,
        source: Some(source),
        contact: &[],
        passed: &[],
        named: &[],
        body: &[],
    };
    response(alloc, reply.start(), &reply.lines(), &completed)
}
