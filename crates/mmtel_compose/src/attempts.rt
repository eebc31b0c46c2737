//! The INVITE of an attempt.
ghost use Rattle.std.specs.Prelude.{◌≡◌, ◌++◌, IfOk, OnOk};
ghost use Rattle.std.specs.Option.{option_copied};
ghost use Rattle.mmtel_trust.specs.HeaderTable.{attempt_from, name_addr_in};
ghost use Rattle.mmtel_compose.specs.Attempts.{alert_lines, as_callee, dialogue_to, diverted_destination, first_destination, invite_of, uri_in_brackets, without_params};

use crate::received_messages::ReceivedMessage;
use crate::requests::relayed_parts;
use mmtel_base::{List, NoMemory, Text, copied_texts};
use mmtel_history::{with_cause, without_cause};
use mmtel_leg::{Dialogue, request_numbered, request_uri};
use mmtel_lex::{NameAddr, Uri, print_name_addr, print_uri};
use mmtel_message::{Line, Msg, OwnAddress, add_bytes, add_passed, is_request};
use mmtel_trust::{attempt_from, display_and_uri, name_addr_in};
use mmtel_types::{Peer, Side};
use std::alloc::Global;

/// The destination of an attempt.
#[derive(Drop)]
pub struct Destination {
    /// The peer to which its messages are sent.
    pub peer: Peer,
    /// The Request-URI.
    pub uri: Text,
    /// The value of To.
    pub to: Text,
    /// The Route values of the INVITE, in order.
    pub routes: List<Text>,
}

/// The To value of a request.
fn to_value(message: &ReceivedMessage) -> Option<&[u8]>
    ensures { option_copied result ≡ message.now.parsed.to }
{
    if is_request(message.message.start()) {
        return message.message.first(b"To");
    }
    None
}

/// A value as a display name and a URI, without the parameters after them.
fn without_params(alloc: Global, value: Option<&[u8]>) -> Result<Text, NoMemory>
    ensures { IfOk result (λ t. t ≡ without_params (name_addr_in (option_copied value.entry))) }
{
    match name_addr_in(alloc, value)? {
        None => Ok(Text::new()),
        Some(name) => display_and_uri(alloc, name),
    }
}

/// The first target of a call: Request-URI, and display name and URI of To, as received in the INVITE that opened it; with these Route values.
///
/// # Errors
///
/// Out of memory only.
pub fn first_destination(
    alloc: Global,
    peer: Peer,
    routes: &[Text],
    opening: &ReceivedMessage,
) -> Result<Destination, NoMemory>
    ensures destination { IfOk result (λ destination. destination ≡ first_destination peer routes.now opening.now.parsed) }
{
    let uri = Text::of(alloc, request_uri(opening.message.start()))?;
    let to = without_params(alloc, to_value(opening))?;
    let routes = copied_texts(alloc, routes)?;
    Ok(Destination {
        peer,
        uri,
        to,
        routes,
    })
}

/// A URI alone, in brackets.
///
/// # Errors
///
/// Out of memory only.
pub fn uri_in_brackets(alloc: Global, uri: Text) -> Result<Text, NoMemory>
    ensures text { IfOk result (λ t. t ≡ uri_in_brackets uri) }
{
    let alone = NameAddr {
        display: Text::new(),
        uri,
        params: List::new(),
    };
    print_name_addr(alloc, &alone)
}

/// The target of a diversion with this cause: the cause is in the Request-URI (RFC 4458 §2), and To is the target without one; with these Route values.
///
/// # Errors
///
/// Out of memory only.
pub fn diverted_destination(
    alloc: Global,
    peer: Peer,
    routes: &[Text],
    target: &Uri,
    cause: u16,
) -> Result<Destination, NoMemory>
    ensures destination { IfOk result (λ destination. destination ≡ diverted_destination peer routes.now target.now cause) }
{
    let target = print_uri(alloc, target)?;
    let uri = with_cause(alloc, target.bytes(), cause)?;
    let to = uri_in_brackets(alloc, without_cause(alloc, target.bytes())?)?;
    let routes = copied_texts(alloc, routes)?;
    Ok(Destination {
        peer,
        uri,
        to,
        routes,
    })
}

/// The dialog of the callee's side with these parts, before its INVITE is sent (RFC 3261 §12.1.2).
pub fn dialogue_to(destination: Destination, call_id: Text, tag: Text, from: Text) -> Dialogue
    ensures exact { result ≡ dialogue_to destination call_id tag from }
{
    let Destination {
        peer,
        uri,
        to,
        routes,
    } = destination;
    Dialogue {
        side: Side::Callee,
        peer,
        call_id,
        local: from,
        remote: to,
        local_tag: tag,
        remote_tag: Text::new(),
        target: uri,
        routes,
        local_cseq: 0,
        remote_cseq: None,
        invite_cseq: None,
    }
}

/// The dialog of an attempt of a call, before its INVITE is sent: From is anonymous where the call is restricted, else the display name and the URI of the caller as received,
/// each with the tag (RFC 3261 §12.1.2, RFC 3323 §4.1.1.3).
///
/// # Errors
///
/// Out of memory only.
pub fn attempt_dialogue(
    alloc: Global,
    destination: Destination,
    opening: &ReceivedMessage,
    restricted: bool,
    call_id: Text,
    tag: Text,
) -> Result<Dialogue, NoMemory>
    ensures dialogue { IfOk result (λ d. d ≡ dialogue_to destination call_id tag (attempt_from restricted tag opening.now.parsed.lines)) }
{
    let from = attempt_from(alloc, &opening.message, restricted, tag.bytes())?;
    Ok(dialogue_to(destination, call_id, tag, from))
}

/// The dialog as the leg keeps it, once the INVITE was sent (RFC 3261 §12.1.2).
pub fn as_callee(dialogue: Dialogue) -> Dialogue
    ensures dialogue { result ≡ as_callee dialogue }
{
    let number = dialogue.local_cseq.saturating_add(1);
    Dialogue {
        local_cseq: number,
        invite_cseq: Some(number),
        routes: List::new(),
        ..dialogue
    }
}

/// Adds the line that indicates to a target that the call waits, where it does.
#[tactic(auto, unfolding(mmtel_message::specs::Message::line))]
fn add_alert(alloc: Global, lines: &mut List<Line>, waiting: bool) -> Result<(), NoMemory>
    ensures { OnOk result (lines.new ≡ lines.old ++ alert_lines waiting) }
{
    if waiting {
        return add_bytes(
            alloc,
            lines,
            b"Alert-Info",
            b"<urn:alert:service:call-waiting>",
        );
    }
    Ok(())
}

fn attempt_lines(alloc: Global, passed: &[Line], waiting: bool) -> Result<List<Line>, NoMemory>
    ensures { IfOk result (λ ls. ls ≡ passed.now ++ alert_lines waiting) }
{
    let mut lines = List::new();
    add_passed(alloc, &mut lines, passed)?;
    add_alert(alloc, &mut lines, waiting)?;
    Ok(lines)
}

/// The INVITE of an attempt, the first request of its dialog: it relays the INVITE that opened the call with these lines of it, and indicates to the target where the call waits
/// (RFC 3261 §16.6, TS 24.615 §4.5.5.3).
///
/// # Errors
///
/// Out of memory only.
pub fn invite(
    alloc: Global,
    dialogue: &Dialogue,
    sip: OwnAddress,
    branch: &Text,
    passed: &[Line],
    waiting: bool,
    opening: &ReceivedMessage,
) -> Result<Msg, NoMemory>
    ensures message { IfOk result (λ m. m ≡ invite_of dialogue.now sip branch.now passed.now waiting opening.now.parsed) }
{
    let lines = attempt_lines(alloc, passed, waiting)?;
    request_numbered(
        alloc,
        dialogue,
        1,
        b"INVITE",
        &relayed_parts(sip, branch, &lines, opening),
    )
}
