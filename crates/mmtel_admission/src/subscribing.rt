//! What a SUBSCRIBE asks for, and the response to it (RFC 6665 §4.2.1; 3GPP TS 24.606).
ghost use Rattle.std.specs.Prelude.{◌≡◌, IfOk};
ghost use Rattle.mmtel_mwi.specs.Subscribing.{granted_seconds, refusal};
ghost use Rattle.mmtel_run_definitions.specs.Subscriptions.{grant_response, named_mailbox, other_response, refusal_response, sender_of, subscribe_request_of};
ghost use Rattle.mmtel_admission.specs.Dispositions.{response_in};

use crate::refusals::{Target, read_target};
use crate::registrations::expires;
use crate::status_responses::{StatusResponse, plain_response, response_with_allow};
use mmtel_base::{List, NoMemory};
use mmtel_call_parties::account_of;
use mmtel_compose::ReceivedMessage;
use mmtel_directory::Directory;
use mmtel_message::{add_bytes, add_decimal, is_method, is_readable, line_texts};
use mmtel_mwi::{SubscribeRequest, granted_seconds, refusal};
use mmtel_trust::asserted;
use mmtel_types::Account;
use std::alloc::Global;

/// The account of the asserted identity of the sender of a request.
fn sender_of(
    alloc: Global,
    directory: &Directory,
    request: &ReceivedMessage,
) -> Result<Option<Account>, NoMemory>
    ensures { IfOk result (λ account. account ≡ sender_of directory.now request.now.parsed) }
{
    let identities = asserted(alloc, &request.message, request.trusted)?;
    let account = account_of(&directory.names.accounts, &identities);
    drop(identities);
    Ok(account)
}

/// The account whose mailbox the Request-URI of a request names.
///
/// # Errors
///
/// Out of memory only.
pub fn named_mailbox(
    alloc: Global,
    directory: &Directory,
    request: &ReceivedMessage,
) -> Result<Option<Account>, NoMemory>
    ensures account { IfOk result (λ account. account ≡ named_mailbox directory.now request.now.parsed) }
{
    match read_target(alloc, request.message.start())? {
        Target::Known(uri) => {
            let account = directory.names.accounts.find(&uri);
            drop(uri);
            Ok(account)
        }
        Target::Malformed => Ok(None),
        Target::Foreign => Ok(None),
    }
}

/// Whether a request has one Contact, which can be read (RFC 3261 §8.1.1.8).
fn has_one_contact(alloc: Global, request: &ReceivedMessage) -> Result<bool, NoMemory>
    ensures { IfOk result (λ b. b ≡ request.now.parsed.one_contact) }
{
    let contacts = line_texts(alloc, &request.message.lines(), b"Contact")?;
    match contacts.items() {
        [contact] => is_readable(alloc, contact.bytes()),
        _ => Ok(false),
    }
}

/// The status of the first refusal of a SUBSCRIBE that applies, outside any dialog or within that of a subscription; None where it is accepted.
///
/// # Errors
///
/// Out of memory only.
pub fn subscribe_refusal(
    alloc: Global,
    directory: &Directory,
    in_dialog: bool,
    request: &ReceivedMessage,
) -> Result<Option<u16>, NoMemory>
    ensures first { IfOk result (λ code. code ≡ refusal (subscribe_request_of directory.now in_dialog request.now.parsed)) }
{
    let sender = sender_of(alloc, directory, request)?;
    let mailbox = named_mailbox(alloc, directory, request)?;
    let has_contact = has_one_contact(alloc, request)?;
    let asks = SubscribeRequest {
        trusted: request.trusted,
        in_dialog,
        sender,
        mailbox,
        event: request.message.first(b"Event"),
        has_contact,
    };
    Ok(refusal(&asks))
}

/// For how many seconds a SUBSCRIBE that is accepted makes a subscription active.
pub fn granted_expires(request: &ReceivedMessage) -> u64
    ensures seconds { result ≡ granted_seconds request.now.parsed.expires }
{
    granted_seconds(expires(request))
}

/// The response to a SUBSCRIBE that is refused with this status: with 489 it lists the known event (RFC 6665 §8.2.2).
///
/// # Errors
///
/// Out of memory only.
#[tactic(auto, unfolding(mmtel_message::specs::Message::line))]
pub fn refusal_response(alloc: Global, code: u16) -> Result<StatusResponse, NoMemory>
    ensures response { IfOk result (λ answer. response_in answer ≡ refusal_response code) }
{
    if code != 489 {
        return Ok(plain_response(code));
    }
    let mut lines = List::new();
    add_bytes(alloc, &mut lines, b"Allow-Events", b"message-summary")?;
    Ok(StatusResponse { code: 489, lines })
}

/// The response to a SUBSCRIBE that is accepted for so many seconds (RFC 6665 §4.2.1.1).
///
/// # Errors
///
/// Out of memory only.
#[tactic(auto, unfolding(mmtel_message::specs::Message::line))]
pub fn grant_response(alloc: Global, seconds: u64) -> Result<StatusResponse, NoMemory>
    ensures response { IfOk result (λ answer. response_in answer ≡ grant_response seconds) }
{
    let mut lines = List::new();
    add_decimal(alloc, &mut lines, b"Expires", seconds)?;
    Ok(StatusResponse { code: 200, lines })
}

/// The response to another request in the dialog of a subscription: 200 to OPTIONS, with the allowed methods, 403 to REFER, and else 481.
///
/// # Errors
///
/// Out of memory only.
pub fn other_response(
    alloc: Global,
    directory: &Directory,
    request: &ReceivedMessage,
) -> Result<StatusResponse, NoMemory>
    ensures response { IfOk result (λ answer. response_in answer ≡ other_response directory.now request.now.parsed) }
{
    let start = request.message.start();
    if is_method(b"OPTIONS", start) {
        response_with_allow(alloc, directory, 200)
    } else if is_method(b"REFER", start) {
        Ok(plain_response(403))
    } else {
        Ok(plain_response(481))
    }
}
