//! The requests of a participant in its dialog, and its ACK.
ghost use Rattle.std.specs.Prelude.{◌≡◌, ◌<◌, [], OnErr, OnOk, length, slice_get, true};
ghost use Rattle.mmtel_compose.specs.Responses.{allow_lines};
ghost use Rattle.mmtel_output.specs.Sending.{with_response};
ghost use Rattle.mmtel_sdp.specs.Offers.{offers_audio};
ghost use Rattle.mmtel_focus.specs.Private.{conference_after_request, request_check_at};
ghost use Rattle.mmtel_focus.specs.Referrals.{referral_in};
ghost use Rattle.mmtel_focus.specs.Requests.{acknowledges, after_accepted_refer, after_reinvite, after_response, on_ack, on_bye, on_checked_request, on_request_in_order};
ghost use Rattle.mmtel_focus.specs.Requests.{after_out_of_order, after_refusal, after_trying, on_invite, on_referral, on_request};
ghost use Rattle.mmtel_focus.specs.Conferences.{in_step};
ghost use Rattle.mmtel_focus.specs.Participants.{at_participant};

use crate::conferences::Conference;
use crate::joining::accept_invite;
use crate::referrals::{Referral, referral_of};
use crate::texts::own_status;
use mmtel_base::NoMemory;
use mmtel_compose::{OwnResponse, ReceivedMessage, allow_lines, number_of, retry_after_lines};
use mmtel_leg::DialogueFault;
use mmtel_message::{Line, is_method};
use mmtel_output::StepOutput;
use mmtel_participants::{Effects, NextNumbers, PendingAck, StepContext, contact_value};
use mmtel_sdp::offers_audio;
use mmtel_sip_rules::is_same_number;
use mmtel_transaction::TKey;

/// Whether an ACK is that of the 2xx whose ACK is due.
fn acknowledges(ack: &ReceivedMessage, pending_ack: Option<PendingAck>) -> bool
    ensures { result ≡ acknowledges ack.now pending_ack }
{
    match pending_ack {
        None => false,
        Some(pending_ack) => is_same_number(number_of(ack), pending_ack.cseq),
    }
}

/// Responds to a request with these header fields.
fn respond_with(
    step: &StepContext<'_>,
    key: TKey,
    request: &ReceivedMessage,
    tag: &[u8],
    code: u16,
    named: &[Line],
    output: &mut StepOutput,
) -> Result<(), NoMemory>
    ensures { OnOk result (output.new ≡ with_response step.now.config.sip key request.now tag.now code [] named.now [] output.old) }
{
    let own = OwnResponse {
        code,
        passed: &[],
        named,
        body: b"",
    };
    output.respond(step.alloc, step.config.sip, key, request, tag, own)
}

impl Conference {
    /// Responds to a request with a status alone.
    fn refuse(
        &self,
        step: &StepContext<'_>,
        key: TKey,
        request: &ReceivedMessage,
        code: u16,
        place: usize,
        effects: &mut Effects,
    ) -> Result<(), NoMemory>
        requires { place < length self.now.participants }
        ensures conference { (at_participant (after_refusal step.now.config key request.now code) place (in_step self.now effects.old)).conference
            ≡ self.now }
        ensures effects { OnOk result (effects.new
            ≡ (at_participant (after_refusal step.now.config key request.now code) place (in_step self.now effects.old)).effects) }
    {
        let tag = self.participants[place].tag();
        effects
            .output
            .respond_with_status(step.alloc, step.config.sip, key, request, tag, code)
    }

    /// Responds to an INVITE that offers audio with the mixer's answer.
    fn accept_reinvite(
        &mut self,
        step: &StepContext<'_>,
        key: TKey,
        request: &ReceivedMessage,
        place: usize,
        effects: &mut Effects,
    ) -> Result<(), NoMemory>
        requires place { place < length self.old.participants }
        requires audio { offers_audio request.now.parsed.body ≡ true }
        ensures conference { OnOk result (self.new
            ≡ (at_participant (after_reinvite step.now.config step.now.at key request.now) place (in_step self.old effects.old)).conference) }
        ensures effects { OnOk result (effects.new
            ≡ (at_participant (after_reinvite step.now.config step.now.at key request.now) place (in_step self.old effects.old)).effects) }
    {
        let number = self.last_number.saturating_add(1);
        let asking = &self.participants[place];
        let numbers = NextNumbers {
            room: self.number,
            seat: asking.number,
            number,
        };
        accept_invite(
            step,
            numbers,
            key,
            request,
            asking.tag(),
            &mut effects.output,
        )?;
        self.participants[place].await_ack(number);
        self.last_number = number;
        Ok(())
    }

    /// An INVITE: the mixer's answer to an offer of audio, else 488.
    fn receive_invite(
        &mut self,
        step: &StepContext<'_>,
        key: TKey,
        request: &ReceivedMessage,
        place: usize,
        effects: &mut Effects,
    ) -> Result<(), NoMemory>
        requires { place < length self.old.participants }
        ensures conference { OnOk result (self.new
            ≡ (at_participant (on_invite step.now.config step.now.at key request.now) place (in_step self.old effects.old)).conference) }
        ensures effects { OnOk result (effects.new
            ≡ (at_participant (on_invite step.now.config step.now.at key request.now) place (in_step self.old effects.old)).effects) }
    {
        if offers_audio(step.alloc, request.message.body())? {
            return self.accept_reinvite(step, key, request, place, effects);
        }
        self.refuse(step, key, request, 488, place, effects)
    }

    /// A BYE: 200, and the participant leaves.
    fn receive_bye(
        &mut self,
        step: &StepContext<'_>,
        key: TKey,
        request: &ReceivedMessage,
        place: usize,
        effects: &mut Effects,
    ) -> Result<(), NoMemory>
        requires { place < length self.old.participants }
        ensures conference { OnOk result (self.new
            ≡ (at_participant (on_bye step.now.config step.now.at key request.now) place (in_step self.old effects.old)).conference) }
        ensures effects { OnOk result (effects.new
            ≡ (at_participant (on_bye step.now.config step.now.at key request.now) place (in_step self.old effects.old)).effects) }
    {
        let seat = self.participants.remove(place);
        let number = seat.number;
        let replied = effects
            .output
            .respond_with_status(step.alloc, step.config.sip, key, request, seat.tag(), 200);
        let departed = seat.leave(step.alloc, step.at, false, effects);
        replied?;
        departed?;
        self.close_with(step, number, effects)
    }

    /// Accepts a REFER; the 202 names the conference (RFC 3515 §2.2).
    fn accept(
        &self,
        step: &StepContext<'_>,
        key: TKey,
        request: &ReceivedMessage,
        place: usize,
        effects: &mut Effects,
    ) -> Result<(), NoMemory>
        requires { place < length self.now.participants }
        ensures conference { (at_participant (after_accepted_refer step.now.config key request.now) place (in_step self.now effects.old)).conference
            ≡ self.now }
        ensures effects { OnOk result (effects.new
            ≡ (at_participant (after_accepted_refer step.now.config key request.now) place (in_step self.now effects.old)).effects) }
    {
        let contact = contact_value(step.alloc, step.config.sip, self.number)?;
        let tag = self.participants[place].tag();
        let own = OwnResponse {
            code: 202,
            passed: &[],
            named: &[],
            body: b"",
        };
        let output = &mut effects.output;
        output.respond_with_contact(step.alloc, contact.bytes(), key, request, tag, own)
    }

    /// Notifies the participant of this number that its request is being tried.
    fn notify_trying(
        &mut self,
        step: &StepContext<'_>,
        number: u64,
        effects: &mut Effects,
    ) -> Result<(), NoMemory>
        ensures conference { OnOk result (self.new ≡ (after_trying step.now.config number (in_step self.old effects.old)).conference) }
        ensures effects { OnOk result (effects.new
            ≡ (after_trying step.now.config number (in_step self.old effects.old)).effects) }
    {
        let line = own_status(step.alloc, 100)?;
        self.notify(step, true, line.bytes(), number, effects)
    }

    /// A REFER that asks for this; a URI is moved out of it.
    fn receive_referral(
        &mut self,
        step: &StepContext<'_>,
        key: TKey,
        request: &ReceivedMessage,
        referral: &mut Referral,
        place: usize,
        effects: &mut Effects,
    ) -> Result<(), NoMemory>
        requires { place < length self.old.participants }
        ensures conference { OnOk result (self.new
            ≡ (at_participant (on_referral step.now.config step.now.at key request.now referral.old) place (in_step self.old effects.old)).conference) }
        ensures effects { OnOk result (effects.new
            ≡ (at_participant (on_referral step.now.config step.now.at key request.now referral.old) place (in_step self.old effects.old)).effects) }
    {
        match referral {
            Referral::Missing => self.refuse(step, key, request, 400, place, effects),
            Referral::OtherMethod => self.refuse(step, key, request, 403, place, effects),
            Referral::Replace(_) => self.accept(step, key, request, place, effects),
            Referral::Invite(uri) => {
                let number = self.participants[place].number;
                self.accept(step, key, request, place, effects)?;
                self.notify_trying(step, number, effects)?;
                self.invite_referred(step, number, uri, effects)
            }
        }
    }

    /// A REFER.
    fn receive_refer(
        &mut self,
        step: &StepContext<'_>,
        key: TKey,
        request: &ReceivedMessage,
        place: usize,
        effects: &mut Effects,
    ) -> Result<(), NoMemory>
        requires { place < length self.old.participants }
        ensures conference { OnOk result (self.new
            ≡ (at_participant (on_referral step.now.config step.now.at key request.now (referral_in request.now.parsed.refer_to))
            place (in_step self.old effects.old)).conference) }
        ensures effects { OnOk result (effects.new
            ≡ (at_participant (on_referral step.now.config step.now.at key request.now (referral_in request.now.parsed.refer_to))
            place (in_step self.old effects.old)).effects) }
    {
        let mut referral = referral_of(step.alloc, request)?;
        let asked = &mut referral;
        let received = self.receive_referral(step, key, request, asked, place, effects);
        drop(referral);
        received
    }

    /// An OPTIONS (RFC 3261 §11.2).
    fn receive_options(
        &self,
        step: &StepContext<'_>,
        key: TKey,
        request: &ReceivedMessage,
        place: usize,
        effects: &mut Effects,
    ) -> Result<(), NoMemory>
        requires { place < length self.now.participants }
        ensures conference { (at_participant (after_response step.now.config key request.now 200
            (allow_lines step.now.config.methods)) place (in_step self.now effects.old)).conference ≡ self.now }
        ensures effects { OnOk result (effects.new
            ≡ (at_participant (after_response step.now.config key request.now 200
            (allow_lines step.now.config.methods)) place (in_step self.now effects.old)).effects) }
    {
        let named = allow_lines(step.alloc, step.config.methods)?;
        let named = named.items();
        let tag = self.participants[place].tag();
        respond_with(step, key, request, tag, 200, named, &mut effects.output)
    }

    /// A request that was accepted.
    fn receive_in_order(
        &mut self,
        step: &StepContext<'_>,
        key: TKey,
        request: &ReceivedMessage,
        place: usize,
        effects: &mut Effects,
    ) -> Result<(), NoMemory>
        requires { place < length self.old.participants }
        ensures conference { OnOk result (self.new
            ≡ (at_participant (on_request_in_order step.now.config step.now.at key request.now) place (in_step self.old effects.old)).conference) }
        ensures effects { OnOk result (effects.new
            ≡ (at_participant (on_request_in_order step.now.config step.now.at key request.now) place (in_step self.old effects.old)).effects) }
    {
        let start = request.message.start();
        if is_method(b"INVITE", start) {
            return self.receive_invite(step, key, request, place, effects);
        }
        if is_method(b"BYE", start) {
            return self.receive_bye(step, key, request, place, effects);
        }
        if is_method(b"REFER", start) {
            return self.receive_refer(step, key, request, place, effects);
        }
        if is_method(b"OPTIONS", start) {
            return self.receive_options(step, key, request, place, effects);
        }
        self.refuse(step, key, request, 481, place, effects)
    }

    /// Refuses a request that is out of order, or that crosses an INVITE.
    fn refuse_out_of_order(
        &self,
        step: &StepContext<'_>,
        key: TKey,
        request: &ReceivedMessage,
        fault: DialogueFault,
        place: usize,
        effects: &mut Effects,
    ) -> Result<(), NoMemory>
        requires { place < length self.now.participants }
        ensures conference { (at_participant (after_out_of_order step.now.config key request.now fault) place (in_step self.now effects.old)).conference
            ≡ self.now }
        ensures effects { OnOk result (effects.new
            ≡ (at_participant (after_out_of_order step.now.config key request.now fault) place (in_step self.now effects.old)).effects) }
    {
        match fault {
            DialogueFault::OldCSeq { last: _ } => {
                self.refuse(step, key, request, 500, place, effects)
            }
            DialogueFault::Pending => self.refuse(step, key, request, 491, place, effects),
            DialogueFault::Unfinished => {
                let named = retry_after_lines(step.alloc)?;
                let named = named.items();
                let tag = self.participants[place].tag();
                respond_with(step, key, request, tag, 500, named, &mut effects.output)
            }
        }
    }

    /// The participant at this place accepts a request, or refuses it.
    #[tactic(auto, using(crate::proofs::Places::set_back))]
    fn note_request(&mut self, request: &ReceivedMessage, place: usize) -> Result<(), DialogueFault>
        requires { place < length self.old.participants }
        ensures check { result ≡ request_check_at request.now (slice_get self.old.participants place) }
        ensures received { OnOk result (self.new ≡ conference_after_request request.now place (slice_get self.old.participants place) self.old) }
        ensures refused { OnErr result (self.new ≡ self.old) }
    {
        self.participants[place].receive_request(request)
    }

    /// A request of the participant at this place.
    #[tactic(auto, unfolding(crate::specs::Requests::on_request))]
    pub fn receive_request(
        &mut self,
        step: &StepContext<'_>,
        key: TKey,
        request: &ReceivedMessage,
        place: usize,
        effects: &mut Effects,
    ) -> Result<(), NoMemory>
        requires { place < length self.old.participants }
        ensures conference { OnOk result (self.new
            ≡ (at_participant (on_request step.now.config step.now.at key request.now) place (in_step self.old effects.old)).conference) }
        ensures effects { OnOk result (effects.new
            ≡ (at_participant (on_request step.now.config step.now.at key request.now) place (in_step self.old effects.old)).effects) }
    {
        if !self.participants[place].is_connected() {
            return self.refuse(step, key, request, 481, place, effects);
        }
        match self.note_request(request, place) {
            Ok(()) => self.receive_in_order(step, key, request, place, effects),
            Err(fault) => self.refuse_out_of_order(step, key, request, fault, place, effects),
        }
    }

    /// An ACK of the participant at this place: nothing is sent.
    #[tactic(auto, unfolding(crate::specs::Requests::on_ack))]
    pub fn receive_ack(
        &mut self,
        ack: &ReceivedMessage,
        place: usize,
        effects: &mut Effects,
    ) -> Result<(), NoMemory>
        requires { place < length self.old.participants }
        ensures conference { OnOk result (self.new ≡ (at_participant (on_ack ack.now) place (in_step self.old effects.old)).conference) }
        ensures effects { OnOk result (effects.new
            ≡ (at_participant (on_ack ack.now) place (in_step self.old effects.old)).effects) }
    {
        if acknowledges(ack, self.participants[place].pending_ack) {
            self.participants[place].pending_ack = None;
        }
        Ok(())
    }
}
