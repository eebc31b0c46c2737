//! A party is invited into a conference (RFC 4579 §5.5).
ghost use Rattle.std.specs.Prelude.{◌≡◌, ◌+◌, [], IfOk, OnOk, codes};
ghost use Rattle.mmtel_compose.specs.Attempts.{uri_in_brackets};
ghost use Rattle.mmtel_compose.specs.Requests.{own_parts};
ghost use Rattle.mmtel_output.specs.Outputs.{after_draw, token, with_emit};
ghost use Rattle.mmtel_leg.specs.Requests.{request_of};
ghost use Rattle.mmtel_lex.specs.Grammar.{uri_text};
ghost use Rattle.mmtel_sdp.specs.Mixer.{offer_text};
ghost use Rattle.mmtel_participants.specs.Inviting.{invitation_dialog, participant_of_invite, peer_or_status, refer_step, ringing_limit, with_invite_sent};
ghost use Rattle.mmtel_participants.specs.Targets.{target_of};
ghost use Rattle.mmtel_participants.specs.Texts.{contact_and_sdp_lines};
ghost use Rattle.mmtel_transaction.specs.declared.words.Emit.TheVariants.{ArmSeat};
ghost use Rattle.mmtel_transaction.specs.declared.words.RoomWord.TheVariants.{Cap};

use crate::conference_config::StepContext;
use crate::numbers::{NextNumbers, has_no_free_seat};
use crate::participants::{Invite, ParticipantState, Party};
use crate::targets::target_of;
use crate::texts::{conference_from, contact_and_sdp_lines};
use mmtel_base::{List, NoMemory, Text};
use mmtel_compose::{Destination, as_callee, dialogue_to, own_parts, uri_in_brackets};
use mmtel_leg::{CalleeLeg, Dialogue, request_numbered};
use mmtel_lex::{Uri, print_uri};
use mmtel_message::Msg;
use mmtel_output::{SentInvite, StepOutput};
use mmtel_sdp::mixer_offer;
use mmtel_transaction::{Emit, RoomWord};
use mmtel_types::{Account, Moment, Peer, RoomNo};
use std::alloc::Global;

/// How long an invited party may ring, in milliseconds.
const RINGING_LIMIT: u64 = 180_000;

/// The result of a REFER that asks for an INVITE. The value is linear: it must be spent.
pub enum ReferResult {
    /// A party is invited, and is this participant.
    Started(ParticipantState),
    /// Nobody is invited; the REFER is refused with this status.
    Refused(u16),
}

/// The destination of an invitation to this URI, by this peer.
fn destination_of(alloc: Global, peer: Peer, uri: Uri) -> Result<Destination, NoMemory>
    ensures { IfOk result (λ destination. destination
        ≡ record { peer = peer; uri = uri_text (target_of uri); to = uri_in_brackets (uri_text (target_of uri)); routes = [] }) }
{
    let target = target_of(alloc, uri)?;
    let uri = print_uri(alloc, &target)?;
    let to = uri_in_brackets(alloc, uri.copied(alloc)?)?;
    Ok(Destination {
        peer,
        uri,
        to,
        routes: List::new(),
    })
}

/// The dialog of an invitation to this URI, with a new Call-ID and tag.
fn begin_dialog(
    step: &StepContext<'_>,
    room: RoomNo,
    peer: Peer,
    uri: Uri,
    output: &mut StepOutput,
) -> Result<Dialogue, NoMemory>
    ensures dialogue { IfOk result (λ d. d
        ≡ invitation_dialog step.now.config room peer (uri_text (target_of uri)) output.old) }
    ensures output { OnOk result (output.new ≡ after_draw (after_draw output.old)) }
{
    let destination = destination_of(step.alloc, peer, uri)?;
    let call_id = output.draw(step.alloc)?;
    let tag = output.draw(step.alloc)?;
    let from = conference_from(step.alloc, step.config.sip, room, tag.bytes())?;
    Ok(dialogue_to(destination, call_id, tag, from))
}

/// The INVITE that creates this dialog, with this branch after the magic cookie.
fn invite_of(
    step: &StepContext<'_>,
    room: RoomNo,
    dialogue: &Dialogue,
    branch: &Text,
) -> Result<Msg, NoMemory>
    ensures { IfOk result (λ m. m
        ≡ request_of dialogue.now (codes "INVITE") (own_parts step.now.config.sip branch.now (contact_and_sdp_lines step.now.config.sip room) (offer_text step.now.config.mixer))) }
{
    let named = contact_and_sdp_lines(step.alloc, step.config.sip, room)?;
    let body = mixer_offer(step.alloc, step.config.mixer)?;
    let first = dialogue.local_cseq.saturating_add(1);
    let parts = own_parts(step.config.sip, branch, &named, body.bytes());
    request_numbered(step.alloc, dialogue, first, b"INVITE", &parts)
}

/// Arms the timer of its ringing.
fn arm(
    alloc: Global,
    now: Moment,
    next: NextNumbers,
    output: &mut StepOutput,
) -> Result<(), NoMemory>
    ensures { OnOk result (output.new
        ≡ with_emit (ArmSeat next.room next.seat (Cap next.number) (now + ringing_limit)) output.old) }
{
    let NextNumbers { room, seat, number } = next;
    let at = now.ms() + RINGING_LIMIT;
    let what = RoomWord::Cap(number);
    output.emit(
        alloc,
        Emit::ArmSeat {
            room,
            seat,
            what,
            at,
        },
    )
}

/// Sends the INVITE that creates this dialog, and arms the timer of its ringing. Returns its branch after the magic cookie.
fn send(
    step: &StepContext<'_>,
    next: NextNumbers,
    dialogue: &Dialogue,
    output: &mut StepOutput,
) -> Result<Text, NoMemory>
    ensures branch { IfOk result (λ t. t ≡ token output.old) }
    ensures output { OnOk result (output.new
        ≡ with_invite_sent step.now.config step.now.at next.room next.seat next.number dialogue.now output.old) }
{
    let branch = output.draw(step.alloc)?;
    let msg = invite_of(step, next.room, dialogue, &branch)?;
    let peer = dialogue.peer;
    output.emit(step.alloc, Emit::Ask { peer, msg })?;
    arm(step.alloc, step.at, next, output)?;
    Ok(branch)
}

/// The participant that is invited in this dialog by the INVITE of this branch.
fn participant_of_invite(
    alloc: Global,
    next: NextNumbers,
    by: u64,
    account: Option<Account>,
    dialogue: Dialogue,
    branch: Text,
) -> Result<ParticipantState, NoMemory>
    ensures { IfOk result (λ seat. seat ≡ participant_of_invite next by account dialogue branch) }
{
    let first = match dialogue.copied(alloc) {
        Ok(first) => first,
        Err(error) => {
            drop(dialogue);
            drop(branch);
            return Err(error);
        }
    };
    let sent_invite = SentInvite::new(first, 1, branch);
    let leg = CalleeLeg::initial(as_callee(dialogue), None);
    Ok(ParticipantState {
        number: next.seat,
        by: Some(by),
        account,
        pending_ack: None,
        invite: Some(Invite::Outstanding(next.number, sent_invite)),
        party: Party::Invited(leg),
    })
}

/// Sends the INVITE of this dialog, and returns the participant to which it is sent.
fn invite_in(
    step: &StepContext<'_>,
    next: NextNumbers,
    by: u64,
    account: Option<Account>,
    dialogue: Dialogue,
    output: &mut StepOutput,
) -> Result<ParticipantState, NoMemory>
    ensures participant { IfOk result (λ seat. seat ≡ participant_of_invite next by account dialogue (token output.old)) }
    ensures output { OnOk result (output.new
        ≡ with_invite_sent step.now.config step.now.at next.room next.seat next.number dialogue output.old) }
{
    let branch = send(step, next, &dialogue, output)?;
    participant_of_invite(step.alloc, next, by, account, dialogue, branch)
}

/// The peer by which a party is invited, where a route leads there and the conference is not full; else the status that refuses the REFER: 404 where no route does, else 503.
fn peer_or_status(peer: Option<Peer>, full: bool) -> Result<Peer, u16>
    ensures { result ≡ peer_or_status peer full }
{
    match peer {
        None => Err(404),
        Some(peer) => if full { Err(503) } else { Ok(peer) },
    }
}

/// Invites the party of this URI, by the REFER of the participant of number `by`: the INVITE is sent in a dialog of the conference, and the timer of its ringing is armed. Nobody
/// is invited where no route leads to the URI (404), and else where the conference is full (503).
///
/// # Errors
///
/// Out of memory only; nothing is claimed of the output then.
#[tactic(auto, using(crate::proofs::ReferResults::refer_step_refused, crate::proofs::ReferResults::refer_step_started), unfolding(crate::specs::Inviting::refer_step))]
pub fn invite_referred(
    step: &StepContext<'_>,
    next: NextNumbers,
    by: u64,
    participants: &[ParticipantState],
    uri: Option<Uri>,
    output: &mut StepOutput,
) -> Result<ReferResult, NoMemory>
    ensures referral { IfOk result (λ b. b ≡ (refer_step step.now.config step.now.at next by participants.now uri output.old).result) }
    ensures output { OnOk result (output.new ≡ (refer_step step.now.config step.now.at next by participants.now uri output.old).output) }
{
    match uri {
        None => Ok(ReferResult::Refused(404)),
        Some(uri) => match peer_or_status(
            step.config.peers.route(&uri),
            has_no_free_seat(participants),
        ) {
            Err(code) => Ok(ReferResult::Refused(code)),
            Ok(peer) => {
                let account = step.config.accounts.find(&uri);
                let dialogue = begin_dialog(step, next.room, peer, uri, output)?;
                let seat = invite_in(step, next, by, account, dialogue, output)?;
                Ok(ReferResult::Started(seat))
            }
        },
    }
}
