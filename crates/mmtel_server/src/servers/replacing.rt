//! A request of a participant; a REFER with Replaces that was accepted moves the other leg of a call into the conference in the place of a dialog (RFC 3891 §3, RFC 4579 §5.6).
ghost use Rattle.std.specs.Prelude.{◌≡◌, ◌<◌, ℕ, List, Err, IfOk, None, OnErr, OnOk, Some, codes, false, if◌then◌else◌, true};
ghost use Rattle.mmtel_b2bua.specs.Detaching.{can_restore, entry_of, has_detached_leg, released_leg_of};
ghost use Rattle.mmtel_directory.specs.declared.directories.Directory.{Directory};
ghost use Rattle.mmtel_focus.specs.Referrals.{referral_in};
ghost use Rattle.mmtel_focus.specs.Table.{access};
ghost use Rattle.mmtel_leg.specs.Releases.{released_leg};
ghost use Rattle.mmtel_message.specs.Faults.{is_method};
ghost use Rattle.mmtel_run_definitions.specs.Ownership.{account_at, account_of_side, is_accepted, replaced_side, replaces_by};
ghost use Rattle.mmtel_run_definitions.specs.Transitions.{RunState, after_adoption_if, after_participant_request, after_replaces, after_replacing, after_replacing_named, calls_in};
ghost use Rattle.mmtel_run_definitions.specs.Transitions.{after_detach, conferences_in};
ghost use Rattle.mmtel_server.specs.Follows.{AddsOfferPrefix, Follows};
ghost use Rattle.mmtel_server.specs.Representation.{Represents};

use super::conferences::ConferenceParticipant;
use super::{Context, Server};
use crate::theorems::numbers_never_fall;
use mmtel_base::{List, NoMemory};
use mmtel_call::NotTalking;
use mmtel_compose::{ReceivedMessage, status_of};
use mmtel_environment::Offer;
use mmtel_focus::{Joining, Referral, Replaces, RoomSignal, referral_of};
use mmtel_leg::Released;
use mmtel_message::is_method;
use mmtel_server_timers::is_of_peer;
use mmtel_timers::Steps;
use mmtel_transaction::{Emit, TKey};
use mmtel_types::{Account, CallNo, Peer, Side};
use std::alloc::Global;
use std::sync::ledger::Ledger;

/// Whether the first of these commands accepts a request: it is a 202 (RFC 3515 §2.4.2).
fn is_accepted(emits: &[Emit]) -> bool
    ensures { result ≡ is_accepted emits.now }
{
    match emits {
        [Emit::Reply { key: _, msg }, ..] => status_of(msg.start()) == 202,
        _ => false,
    }
}

/// The requested replacement, where it was accepted.
fn if_accepted(replaces: Option<Replaces>, emits: &[Emit]) -> Option<Replaces>
    ensures { result ≡ if is_accepted emits.now then replaces else None }
{
    if is_accepted(emits) {
        replaces
    } else {
        drop(replaces);
        None
    }
}

/// The dialog that a request asks to replace, where it is a REFER with Replaces (RFC 3891 §3).
fn requested_replaces(
    alloc: Global,
    request: &ReceivedMessage,
) -> Result<Option<Replaces>, NoMemory>
    ensures { IfOk result (λ asked. asked ≡ if is_method (codes "REFER") request.now.parsed.start
        then replaces_by (referral_in request.now.parsed.refer_to) else None) }
{
    if !is_method(b"REFER", request.message.start()) {
        return Ok(None);
    }
    match referral_of(alloc, request)? {
        Referral::Missing => Ok(None),
        Referral::OtherMethod => Ok(None),
        Referral::Invite(other) => {
            drop(other);
            Ok(None)
        }
        Referral::Replace(replaces) => Ok(Some(replaces)),
    }
}

/// The served account of a side.
fn account_at(party: Option<(Peer, Option<Account>)>) -> Option<Account>
    ensures { result ≡ account_at party }
{
    match party {
        None => None,
        Some((_, account)) => account,
    }
}

/// A REFER of a participant with Replaces, which was accepted: the other leg of the call joins in the place of the dialog, and the call ends (RFC 3891 §3, RFC 4579 §5.6).
impl Server {
    /// Processes a request of a participant, and what follows from it: a REFER with Replaces, if accepted, asks for a leg in the place of another (RFC 3891 §3, RFC 4579 §5.6).
    ///
    /// # Errors
    ///
    /// Out of memory only; a prefix of the outputs has then been added.
    pub(super) fn enter_conference<L: Ledger>(
        &mut self,
        context: &Context,
        key: TKey,
        request: ReceivedMessage,
        participant: ConferenceParticipant,
        out: &mut List<Offer>,
        steps: &mut Steps<L>,
    ) -> Result<(), NoMemory>
        ensures done { OnOk result (Follows self.old out.old self.new out.new
            (λ d token. after_participant_request d token context.now.at key request participant.room participant.number)) }
        ensures err { OnErr result (AddsOfferPrefix self.old out.old out.new
            (λ d token. after_participant_request d token context.now.at key request participant.room participant.number)) }
    {
        numbers_never_fall();
        let peer = request.peer;
        let replaces = match requested_replaces(context.alloc, &request) {
            Ok(replaces) => replaces,
            Err(error) => {
                drop(request);
                return Err(error);
            }
        };
        let signal = RoomSignal::Request {
            room: participant.room,
            seat: participant.number,
            key,
            request,
        };
        let emits = match self.step_conferences(context, signal) {
            Ok(emits) => emits,
            Err(error) => {
                drop(replaces);
                return Err(error);
            }
        };
        let accepted = if_accepted(replaces, emits.items());
        let emitted = self.emit_all(context, emits.items(), out, steps);
        drop(emits);
        emitted?;
        self.replace_if_requested(context, peer, participant, accepted, out, steps)
    }

    /// The live call and the side whose dialog is to be replaced; a Replaces without one of the tags names none.
    fn replaced_side(&self, replaces: &Replaces) -> Option<(CallNo, Side)>
        ensures { (directory : Directory) (token : List ℕ) (world : RunState) → Represents directory token self.now world →
            result ≡ replaced_side replaces.now (calls_in directory world).entries }
    {
        match &replaces.to_tag {
            None => None,
            Some(local) => match &replaces.from_tag {
                None => None,
                Some(remote) => {
                    self.calls
                        .find(replaces.call_id.bytes(), local.bytes(), remote.bytes())
                }
            },
        }
    }

    /// Notifies the participant of 100 (Trying), and then of the outcome, where a replacement was requested.
    fn replace_if_requested<L: Ledger>(
        &mut self,
        context: &Context,
        peer: Peer,
        participant: ConferenceParticipant,
        replaces: Option<Replaces>,
        out: &mut List<Offer>,
        steps: &mut Steps<L>,
    ) -> Result<(), NoMemory>
        ensures done { OnOk result (Follows self.old out.old self.new out.new
            (λ d token. after_replaces d token context.now.at peer participant.room participant.number replaces)) }
        ensures err { OnErr result (AddsOfferPrefix self.old out.old out.new
            (λ d token. after_replaces d token context.now.at peer participant.room participant.number replaces)) }
    {
        match replaces {
            None => Ok(()),
            Some(replaces) => {
                let done = self.replace_by(context, peer, participant, &replaces, out, steps);
                drop(replaces);
                done
            }
        }
    }

    /// Notifies the participant of 100 (Trying), and then of the outcome.
    fn replace_by<L: Ledger>(
        &mut self,
        context: &Context,
        peer: Peer,
        participant: ConferenceParticipant,
        replaces: &Replaces,
        out: &mut List<Offer>,
        steps: &mut Steps<L>,
    ) -> Result<(), NoMemory>
        ensures done { OnOk result (Follows self.old out.old self.new out.new
            (λ d token. after_replaces d token context.now.at peer participant.room participant.number (Some replaces.now))) }
        ensures err { OnErr result (AddsOfferPrefix self.old out.old out.new
            (λ d token. after_replaces d token context.now.at peer participant.room participant.number (Some replaces.now))) }
    {
        numbers_never_fall();
        self.send_refer_notify(context, participant, 100, out, steps)?;
        self.replace_dialog(context, peer, participant, replaces, out, steps)
    }

    /// The dialog has to be that of a live call.
    fn replace_dialog<L: Ledger>(
        &mut self,
        context: &Context,
        peer: Peer,
        participant: ConferenceParticipant,
        replaces: &Replaces,
        out: &mut List<Offer>,
        steps: &mut Steps<L>,
    ) -> Result<(), NoMemory>
        ensures done { OnOk result (Follows self.old out.old self.new out.new
            (λ d token. after_replacing d token context.now.at peer participant.room participant.number replaces.now)) }
        ensures err { OnErr result (AddsOfferPrefix self.old out.old out.new
            (λ d token. after_replacing d token context.now.at peer participant.room participant.number replaces.now)) }
    {
        numbers_never_fall();
        match self.replaced_side(replaces) {
            None => self.send_refer_notify(context, participant, 481, out, steps),
            Some(named_side) => self.replace_side(
                context,
                peer,
                participant,
                named_side,
                out,
                steps,
            ),
        }
    }

    /// It has to be with the peer that asks; then the leg across from it is taken out.
    fn replace_side<L: Ledger>(
        &mut self,
        context: &Context,
        peer: Peer,
        participant: ConferenceParticipant,
        named_side: (CallNo, Side),
        out: &mut List<Offer>,
        steps: &mut Steps<L>,
    ) -> Result<(), NoMemory>
        ensures done { OnOk result (Follows self.old out.old self.new out.new
            (λ d token. after_replacing_named d token context.now.at peer participant.room participant.number (Some named_side))) }
        ensures err { OnErr result (AddsOfferPrefix self.old out.old out.new
            (λ d token. after_replacing_named d token context.now.at peer participant.room participant.number (Some named_side))) }
    {
        numbers_never_fall();
        let (call, side) = named_side;
        if is_of_peer(peer, self.calls.party(call, side)) {
            self.detach_and_adopt(context, participant, call, side.other(), out, steps)
        } else {
            self.send_refer_notify(context, participant, 481, out, steps)
        }
    }

    /// Takes the leg of this side out of its call, where that is stable.
    fn detach_and_adopt<L: Ledger>(
        &mut self,
        context: &Context,
        participant: ConferenceParticipant,
        call: CallNo,
        side: Side,
        out: &mut List<Offer>,
        steps: &mut Steps<L>,
    ) -> Result<(), NoMemory>
        ensures done { OnOk result (Follows self.old out.old self.new out.new
            (λ d token world. after_detach d token context.now.at participant.room participant.number call side
            (account_of_side call side (calls_in d world).entries)
            (released_leg_of call.0 side (calls_in d world).entries) world)) }
        ensures err { OnErr result (AddsOfferPrefix self.old out.old out.new
            (λ d token world. after_detach d token context.now.at participant.room participant.number call side
            (account_of_side call side (calls_in d world).entries)
            (released_leg_of call.0 side (calls_in d world).entries) world)) }
    {
        numbers_never_fall();
        let account = account_at(self.calls.party(call, side));
        match self.calls.release(call, side) {
            Ok(leg) => self.adopt(context, participant, call, leg, account, out, steps),
            Err(NotTalking) => self.send_refer_notify(context, participant, 491, out, steps),
        }
    }

    /// A leg that was taken out of its call becomes a participant, and the call ends; or no place is free, and the leg is put back.
    fn adopt<L: Ledger>(
        &mut self,
        context: &Context,
        participant: ConferenceParticipant,
        call: CallNo,
        leg: Released,
        account: Option<Account>,
        out: &mut List<Offer>,
        steps: &mut Steps<L>,
    ) -> Result<(), NoMemory>
        requires unmetered { (released_leg leg).meter ≡ None }
        requires fits { can_restore leg (entry_of call.0 self.old.calls.table.entries) ≡ true }
        requires away { has_detached_leg (entry_of call.0 self.old.calls.table.entries) ≡ true }
        ensures done { OnOk result (Follows self.old out.old self.new out.new
            (λ d token world. after_adoption_if d token context.now.at participant.room participant.number call leg account
            (access participant.room.0 (conferences_in d world).live) world)) }
        ensures err { OnErr result (AddsOfferPrefix self.old out.old out.new
            (λ d token world. after_adoption_if d token context.now.at participant.room participant.number call leg account
            (access participant.room.0 (conferences_in d world).live) world)) }
    {
        numbers_never_fall();
        let joining = Joining::Referred {
            by: participant.number,
        };
        let joined = self.add_participant(context, participant.room, leg, account, joining)?;
        match joined {
            Ok(emits) => {
                let emitted = self.emit_all(context, emits.items(), out, steps);
                drop(emits);
                emitted?;
                self.finish_call(context, call, out, steps)
            }
            Err((leg, _)) => {
                self.calls.restore(call, leg);
                self.send_refer_notify(context, participant, 503, out, steps)
            }
        }
    }
}
