//! Requests that relay a received one, or none; and those that copy fields of an INVITE.
ghost use Rattle.std.specs.Prelude.{◌≡◌, IfOk, OnErr, OnOk};
ghost use Rattle.mmtel_leg.specs.Dialogues.{after_request};
ghost use Rattle.mmtel_leg.specs.Legs.{with_dialogue};
ghost use Rattle.mmtel_leg.specs.Requests.{ack_of, request_of};
ghost use Rattle.mmtel_compose.specs.Requests.{bare_parts, cancel_of, final_ack_of, own_parts, relayed_parts, with_to};

use crate::received_messages::{ReceivedMessage, remaining_hops};
use mmtel_base::{List, NoMemory, Text};
use mmtel_leg::{Dialogue, InDialog, LegOf, RequestParts, Standing, request_numbered};
use mmtel_message::{Line, Msg, OwnAddress};
use mmtel_types::Side;
use std::alloc::Global;

/// The parts of a request that relays none, with these named lines and this body.
pub fn own_parts<'a>(
    sip: OwnAddress,
    branch: &'a Text,
    named: &'a List<Line>,
    body: &'a [u8],
) -> RequestParts<'a>
    ensures parts { result ≡ own_parts sip branch.now named.now body.now }
{
    RequestParts::of(sip, 70, branch, named, body)
}

/// The parts of a request that relays none and has neither lines of its own nor a body.
pub fn bare_parts<'a>(sip: OwnAddress, branch: &'a Text) -> RequestParts<'a>
    ensures parts { result ≡ bare_parts sip branch.now }
{
    RequestParts {
        sip,
        hops: 70,
        branch: branch.bytes(),
        shown: &[],
        body: b"",
    }
}

/// The parts of a request that relays this one, with these lines of it: one hop less, and its body (RFC 3261 §16.6).
pub fn relayed_parts<'a>(
    sip: OwnAddress,
    branch: &'a Text,
    passed: &'a List<Line>,
    message: &'a ReceivedMessage,
) -> RequestParts<'a>
    ensures parts { result ≡ relayed_parts sip branch.now passed.now message.now.parsed }
{
    RequestParts::of(
        sip,
        remaining_hops(message),
        branch,
        passed,
        message.message.body(),
    )
}

/// The next request in a leg's dialog that relays none, with these named lines and this body.
///
/// # Errors
///
/// Out of memory only; the leg is then as before.
pub fn own_request<P>(
    alloc: Global,
    leg: &mut LegOf<P, Standing>,
    method: &[u8],
    sip: OwnAddress,
    branch: &Text,
    named: &List<Line>,
    body: &[u8],
) -> Result<Msg, NoMemory>
    ensures message { IfOk result (λ m. m ≡ request_of leg.old.dialogue method.now (own_parts sip branch.now named.now body.now)) }
    ensures counted { OnOk result (leg.new ≡ with_dialogue leg.old (after_request leg.old.dialogue method.now)) }
    ensures refused { OnErr result (leg.new ≡ leg.old) }
{
    leg.request(alloc, method, sip, 70, branch, named, body)
}

/// The next request in a leg's dialog that relays this one, with these lines of it (RFC 3261 §16.6).
///
/// # Errors
///
/// Out of memory only; the leg is then as before.
pub fn relayed_request<P, S: InDialog>(
    alloc: Global,
    leg: &mut LegOf<P, S>,
    method: &[u8],
    sip: OwnAddress,
    branch: &Text,
    passed: &List<Line>,
    message: &ReceivedMessage,
) -> Result<Msg, NoMemory>
    ensures message { IfOk result (λ m. m ≡ request_of leg.old.dialogue method.now (relayed_parts sip branch.now passed.now message.now.parsed)) }
    ensures counted { OnOk result (leg.new ≡ with_dialogue leg.old (after_request leg.old.dialogue method.now)) }
    ensures refused { OnErr result (leg.new ≡ leg.old) }
{
    leg.request(
        alloc,
        method,
        sip,
        remaining_hops(message),
        branch,
        passed,
        message.message.body(),
    )
}

/// The ACK of the 2xx of a dialog that relays none (RFC 3261 §13.2.2.4).
///
/// # Errors
///
/// Out of memory only.
pub fn own_ack(
    alloc: Global,
    dialogue: &Dialogue,
    sip: OwnAddress,
    branch: &Text,
) -> Result<Msg, NoMemory>
    ensures message { IfOk result (λ m. m ≡ ack_of dialogue.now (bare_parts sip branch.now)) }
{
    dialogue.ack(alloc, &bare_parts(sip, branch))
}

/// The ACK of a leg's 2xx that relays the ACK of the other side, with these lines of it.
///
/// # Errors
///
/// Out of memory only.
pub fn relayed_ack<P>(
    alloc: Global,
    leg: &LegOf<P, Standing>,
    sip: OwnAddress,
    branch: &Text,
    passed: &List<Line>,
    message: &ReceivedMessage,
) -> Result<Msg, NoMemory>
    ensures message { IfOk result (λ m. m ≡ ack_of leg.now.dialogue (relayed_parts sip branch.now passed.now message.now.parsed)) }
{
    leg.ack(
        alloc,
        sip,
        remaining_hops(message),
        branch,
        passed,
        message.message.body(),
    )
}

/// The CANCEL of an INVITE that was sent in this dialog with this number and this branch (RFC 3261 §9.1).
///
/// # Errors
///
/// Out of memory only.
pub fn cancel(
    alloc: Global,
    dialogue: &Dialogue,
    number: u64,
    sip: OwnAddress,
    branch: &Text,
) -> Result<Msg, NoMemory>
    ensures message { IfOk result (λ m. m ≡ cancel_of dialogue.now number sip branch.now) }
{
    request_numbered(alloc, dialogue, number, b"CANCEL", &bare_parts(sip, branch))
}

/// The dialog with this To.
fn with_to(dialogue: Dialogue, to: Text) -> Dialogue
    ensures { result ≡ with_to dialogue to }
{
    Dialogue {
        side: Side::Callee,
        remote: to,
        remote_tag: Text::new(),
        ..dialogue
    }
}

/// The ACK of a final from 300 of such an INVITE, with To of that final (RFC 3261 §17.1.1.3).
///
/// # Errors
///
/// Out of memory only.
pub fn final_ack(
    alloc: Global,
    dialogue: &Dialogue,
    number: u64,
    sip: OwnAddress,
    branch: &Text,
    to: Text,
) -> Result<Msg, NoMemory>
    ensures message { IfOk result (λ m. m ≡ final_ack_of dialogue.now number sip branch.now to) }
{
    let answered = with_to(dialogue.copied(alloc)?, to);
    request_numbered(alloc, &answered, number, b"ACK", &bare_parts(sip, branch))
}
