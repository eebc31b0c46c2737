//! What is done with a request that opens a transaction.
ghost use Rattle.std.specs.Prelude.{◌≡◌, IfOk, Some, true};
ghost use Rattle.std.specs.Option.{option_map};
ghost use Rattle.mmtel_leg.specs.Dialogues.{request_uri};
ghost use Rattle.mmtel_lex.specs.Reading.{uri_of};
ghost use Rattle.mmtel_sdp.specs.Offers.{offers_audio};
ghost use Rattle.mmtel_trust.specs.MaskedMessages.{public_part};
ghost use Rattle.mmtel_run_definitions.specs.Audio.{is_for_conference};
ghost use Rattle.mmtel_run_definitions.specs.Refusals.{disposition, disposition_by, disposition_by_method, disposition_in as course_in_dialog};
ghost use Rattle.mmtel_run_definitions.specs.Refusals.{entry_into, first_that_applies, in_dialog_disposition, invite_disposition, invite_disposition_at};
ghost use Rattle.mmtel_run_definitions.specs.Refusals.{invite_disposition_to, is_known_method};
ghost use Rattle.mmtel_run_definitions.specs.Refusals.{audio_or_refusal, call_opening, conference_number, is_conference, is_conference_number};
ghost use Rattle.mmtel_run_definitions.specs.Refusals.{is_conference_user, is_factory, is_of_no_subscription, session_refusals};
ghost use Rattle.mmtel_admission.specs.Dispositions.{dialog_owner_in, disposition_in};
ghost use Rattle.mmtel_admission.specs.Targets.{target_in};

use crate::refusals::{
    Target, is_foreign, is_known_method, is_last_hop, is_timed, read_target, unsupported_lines,
};
use crate::registrations::registration_disposition;
use crate::replies::is_untagged;
use crate::status_responses::{
    DialogOwner, Disposition, bad_extension, interval_too_small, plain_response,
    response_with_allow,
};
use mmtel_base::{Class, NoMemory, has_leading_zero, is_all, skip_text};
use mmtel_call_parties::names_server;
use mmtel_compose::ReceivedMessage;
use mmtel_directory::Directory;
use mmtel_focus::conference_named;
use mmtel_lex::{Uri, same_identity};
use mmtel_message::is_method;
use mmtel_run_definitions::conferences_are_for_audio;
use mmtel_sdp::offers_audio;
use mmtel_session::{SessionFault, check};
use mmtel_types::{Addr, RoomNo};
use std::alloc::Global;

/// What is known of a request in addition to the message: from transactions, calls and conferences.
#[derive(Clone, Copy)]
pub struct RequestContext {
    /// Another live transaction has its From tag, Call-ID and CSeq (RFC 3261 §8.2.2.2).
    pub is_merged: bool,
    /// As many calls live as may.
    pub is_full: bool,
    /// The owner of the dialog that it names (§12.2.2).
    pub owner: Option<DialogOwner>,
}

/// Whether the digits are the number of a conference, without leading zeros.
fn is_conference_number(digits: &[u8]) -> bool
    ensures { result ≡ is_conference_number (Some digits.now) }
{
    !has_leading_zero(digits) && !digits.is_empty() && is_all(Class::Digit, digits)
}

/// Whether a user part is the name of a conference.
fn is_conference_user(user: &[u8]) -> bool
    ensures { result ≡ is_conference_user (Some user.now) }
{
    match skip_text(b"room-", user) {
        None => false,
        Some(digits) => is_conference_number(digits),
    }
}

/// Whether a URI is that of a conference of the server.
fn is_conference(alloc: Global, sip: Addr, target: &Uri) -> Result<bool, NoMemory>
    ensures { IfOk result (λ b. b ≡ is_conference sip target.now) }
{
    match target {
        Uri::Sip {
            user: Some(user),
            ..
        } => Ok(is_conference_user(user.bytes()) && names_server(alloc, sip, target)?),
        Uri::Sip { user: None, .. } => Ok(false),
        Uri::Tel { .. } => Ok(false),
    }
}

/// Whether a URI is the conference factory URI.
fn is_factory(factory: &Option<Uri>, target: &Uri) -> bool
    ensures { result ≡ is_factory factory.now target.now }
{
    match factory {
        None => false,
        Some(uri) => same_identity(uri, target),
    }
}

/// The number of the conference that a URI names; 0, which no conference has, where that is too great.
fn conference_number(alloc: Global, sip: Addr, target: &Uri) -> Result<RoomNo, NoMemory>
    ensures { IfOk result (λ room. room ≡ conference_number sip target.now) }
{
    let number = conference_named(alloc, sip, target)?;
    Ok(RoomNo(number.unwrap_or(0)))
}

/// What is done with an INVITE to a conference, where it offers audio; the mixer takes nothing else (RFC 3264 §6).
fn audio_or_refusal(
    alloc: Global,
    request: &ReceivedMessage,
    disposition: Disposition,
) -> Result<Disposition, NoMemory>
    ensures { IfOk result (λ c. disposition_in c ≡ audio_or_refusal (public_part request.now.parsed) (disposition_in disposition)) }
{
    if offers_audio(alloc, request.message.body())? {
        Ok(disposition)
    } else {
        Ok(Disposition::Respond(plain_response(488)))
    }
}

/// What is done with an INVITE that is to no conference: it opens a call, unless as many live as may.
fn call_opening(is_full: bool) -> Disposition
    ensures { disposition_in result ≡ call_opening is_full }
{
    if is_full {
        Disposition::Respond(plain_response(503))
    } else {
        Disposition::OpenCall
    }
}

/// What is done with an INVITE to this URI: it asks for a conference, asks to join one, or opens a call.
fn invite_disposition_to(
    alloc: Global,
    directory: &Directory,
    target: &Uri,
    is_full: bool,
    request: &ReceivedMessage,
) -> Result<Disposition, NoMemory>
    ensures { IfOk result (λ c. disposition_in c ≡ invite_disposition_to directory.now is_full (public_part request.now.parsed) target.now) }
{
    if is_factory(&directory.factory, target) {
        return audio_or_refusal(alloc, request, Disposition::OpenConference);
    }
    if is_conference(alloc, directory.sip.addr(), target)? {
        let room = conference_number(alloc, directory.sip.addr(), target)?;
        return audio_or_refusal(alloc, request, Disposition::JoinConference { room });
    }
    Ok(call_opening(is_full))
}

/// What is done with an INVITE that is not refused; one whose Request-URI cannot be read is to no conference.
fn invite_disposition(
    alloc: Global,
    directory: &Directory,
    target: &Target,
    is_full: bool,
    request: &ReceivedMessage,
) -> Result<Disposition, NoMemory>
    requires { target_in target.now ≡ uri_of (request_uri request.now.parsed.start) }
    ensures { IfOk result (λ c. disposition_in c ≡ invite_disposition directory.now is_full (public_part request.now.parsed)) }
{
    match target {
        Target::Known(uri) => invite_disposition_to(alloc, directory, uri, is_full, request),
        Target::Malformed => Ok(call_opening(is_full)),
        Target::Foreign => Ok(call_opening(is_full)),
    }
}

/// What is done with a request that is not refused, by its method.
fn disposition_by_method(
    alloc: Global,
    directory: &Directory,
    target: &Target,
    is_full: bool,
    request: &ReceivedMessage,
) -> Result<Disposition, NoMemory>
    requires { target_in target.now ≡ uri_of (request_uri request.now.parsed.start) }
    ensures { IfOk result (λ c. disposition_in c ≡ disposition_by_method directory.now is_full (public_part request.now.parsed)) }
{
    let start = request.message.start();
    if is_method(b"OPTIONS", start) {
        Ok(Disposition::Respond(response_with_allow(alloc, directory, 200)?))
    } else if is_method(b"REFER", start) {
        Ok(Disposition::Respond(plain_response(403)))
    } else if is_method(b"INVITE", start) {
        invite_disposition(alloc, directory, target, is_full, request)
    } else if is_method(b"REGISTER", start) {
        registration_disposition(alloc, directory, request)
    } else if is_method(b"SUBSCRIBE", start) {
        Ok(Disposition::Subscribe)
    } else {
        Ok(Disposition::Respond(plain_response(481)))
    }
}

/// What is done with a request in a dialog: the owner of the dialog receives it.
fn entry_into(owner: DialogOwner) -> Disposition
    ensures { disposition_in result ≡ entry_into (dialog_owner_in owner) }
{
    match owner {
        DialogOwner::InCall { call, side } => Disposition::Enter { call, side },
        DialogOwner::InConference { room, seat } => Disposition::EnterConference { room, seat },
        DialogOwner::InSubscription(sub) => Disposition::EnterSubscription(sub),
    }
}

/// Whether a dialog is not that of a subscription.
fn is_of_no_subscription(owner: DialogOwner) -> bool
    ensures { result ≡ is_of_no_subscription (dialog_owner_in owner) }
{
    match owner {
        DialogOwner::InCall { .. } => true,
        DialogOwner::InConference { .. } => true,
        DialogOwner::InSubscription(_) => false,
    }
}

/// What is done with a request in a dialog: the owner of the dialog receives it, but for a SUBSCRIBE in that of a call or of a participant (RFC 6665 §4.2.1.2).
fn in_dialog_disposition(owner: DialogOwner, request: &ReceivedMessage) -> Disposition
    ensures { disposition_in result ≡ in_dialog_disposition (dialog_owner_in owner) (public_part request.now.parsed) }
{
    if is_method(b"SUBSCRIBE", request.message.start()) && is_of_no_subscription(owner) {
        Disposition::Respond(plain_response(481))
    } else {
        entry_into(owner)
    }
}

/// What is done with a request that is not refused: its dialog decides, or else its method.
fn disposition_in_dialog(
    alloc: Global,
    directory: &Directory,
    target: &Target,
    context: &RequestContext,
    request: &ReceivedMessage,
) -> Result<Disposition, NoMemory>
    requires { target_in target.now ≡ uri_of (request_uri request.now.parsed.start) }
    ensures { IfOk result (λ c. disposition_in c ≡ course_in_dialog directory.now context.now.is_full
        (option_map dialog_owner_in context.now.owner) (public_part request.now.parsed)) }
{
    match context.owner {
        None => disposition_by_method(alloc, directory, target, context.is_full, request),
        Some(owner) => Ok(in_dialog_disposition(owner, request)),
    }
}

/// What is done with a request that can only be refused for the session that it may ask for (RFC 4028 §6).
fn disposition_in_session(
    alloc: Global,
    directory: &Directory,
    target: &Target,
    context: &RequestContext,
    request: &ReceivedMessage,
) -> Result<Disposition, NoMemory>
    requires { target_in target.now ≡ uri_of (request_uri request.now.parsed.start) }
    ensures { IfOk result (λ c. disposition_in c
        ≡ disposition_by directory.now context.now.is_full (option_map dialog_owner_in context.now.owner) (public_part request.now.parsed)
        (first_that_applies (session_refusals directory.now (public_part request.now.parsed)))) }
{
    if !is_timed(directory, request.message.start()) {
        return disposition_in_dialog(alloc, directory, target, context, request);
    }
    match check(&request.message) {
        Ok(_) => disposition_in_dialog(alloc, directory, target, context, request),
        Err(SessionFault::Malformed) => Ok(Disposition::Respond(plain_response(400))),
        Err(SessionFault::Small { interval: _ }) => Ok(Disposition::Respond(interval_too_small(
            alloc,
        )?)),
    }
}

/// What is done with a request of a method that the server knows, to this target.
#[tactic(auto, unfolding(mmtel_run_definitions::specs::Refusals::disposition, mmtel_run_definitions::specs::Refusals::is_foreign))]
fn disposition_to(
    alloc: Global,
    directory: &Directory,
    target: &Target,
    context: &RequestContext,
    request: &ReceivedMessage,
) -> Result<Disposition, NoMemory>
    requires known { is_known_method directory.now request.now.parsed.start ≡ true }
    requires target { target_in target.now ≡ uri_of (request_uri request.now.parsed.start) }
    ensures { IfOk result (λ c. disposition_in c ≡ disposition directory.now context.now.is_merged context.now.is_full
        (option_map dialog_owner_in context.now.owner) request.now.parsed) }
{
    if is_foreign(target) {
        return Ok(Disposition::Respond(plain_response(416)));
    }
    if is_last_hop(request) {
        return Ok(Disposition::Respond(plain_response(483)));
    }
    let is_untagged = is_untagged(&request.message);
    if !is_untagged && context.owner.is_none() {
        return Ok(Disposition::Respond(plain_response(481)));
    }
    if is_untagged && context.is_merged {
        return Ok(Disposition::Respond(plain_response(482)));
    }
    let lines = unsupported_lines(alloc, directory, request)?;
    if !lines.items().is_empty() {
        return Ok(Disposition::Respond(bad_extension(lines)));
    }
    disposition_in_session(alloc, directory, target, context, request)
}

/// What is done with a request, by the first refusal that applies, its dialog, or its method.
#[tactic(auto, unfolding(mmtel_run_definitions::specs::Refusals::disposition))]
fn disposition_by_refusals(
    alloc: Global,
    directory: &Directory,
    context: &RequestContext,
    request: &ReceivedMessage,
) -> Result<Disposition, NoMemory>
    ensures { IfOk result (λ c. disposition_in c ≡ disposition directory.now context.now.is_merged context.now.is_full
        (option_map dialog_owner_in context.now.owner) request.now.parsed) }
{
    if !is_known_method(directory, request.message.start()) {
        return Ok(Disposition::Respond(response_with_allow(alloc, directory, 405)?));
    }
    let target = read_target(alloc, request.message.start())?;
    disposition_to(alloc, directory, &target, context, request)
}

/// What is done with a request that opens a transaction: the first refusal that applies decides (RFC 3261 §8.2), without one its dialog, and else its method.
///
/// # Errors
///
/// Out of memory only.
pub fn disposition(
    alloc: Global,
    directory: &Directory,
    context: &RequestContext,
    request: &ReceivedMessage,
) -> Result<Disposition, NoMemory>
    ensures disposition { IfOk result (λ c. disposition_in c ≡ disposition directory.now context.now.is_merged context.now.is_full
        (option_map dialog_owner_in context.now.owner) request.now.parsed) }
    // An INVITE that opens a conference or asks to join one offers audio.
    ensures audio { IfOk result (λ c. is_for_conference (disposition_in c) ≡ true → offers_audio request.now.parsed.body ≡ true) }
{
    conferences_are_for_audio();
    let decided = disposition_by_refusals(alloc, directory, context, request)?;
    Ok(decided)
}
