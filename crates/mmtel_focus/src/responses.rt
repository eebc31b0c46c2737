//! The results of the server's INVITE to a participant, and its timers.
ghost use Rattle.std.specs.Prelude.{◌≡◌, ◌<◌, ◌&&◌, false, IfOk, OnOk, length, slice_get};
ghost use Rattle.std.specs.Str.{bytes_eq};
ghost use Rattle.mmtel_compose.specs.ReceivedMessages.{phrase_in, status_of};
ghost use Rattle.mmtel_leg.specs.Remotes.{remote_of};
ghost use Rattle.mmtel_types.specs.declared.sides.Side.TheVariants.{Callee};
ghost use Rattle.mmtel_focus.specs.Responses.{after_end, after_invite_end, after_own_ack, is_success, on_any_response, on_cap, on_due, on_failure, on_no_ack, on_retransmission};
ghost use Rattle.mmtel_focus.specs.Responses.{after_missing_ack, after_ringing_limit, on_outstanding_response, on_success, on_timeout, participants_with_connected, to_tag_of};
ghost use Rattle.mmtel_focus.specs.Conferences.{in_step};
ghost use Rattle.mmtel_focus.specs.Participants.{after_notify_referrer, at_participant};
ghost use Rattle.mmtel_focus.specs.Texts.{own_status, status_line};

use crate::conferences::Conference;
use crate::texts::{own_status, status_line};
use mmtel_base::{NoMemory, Text};
use mmtel_compose::{ReceivedMessage, callee_remote, status_of};
use mmtel_leg::Remote;
use mmtel_message::Start;
use mmtel_participants::{Effects, Invite, ParticipantState, StepContext};
use mmtel_sip_rules::{is_provisional, is_success};
use mmtel_transaction::{Emit, RoomWord, TKey};
use mmtel_types::{Moment, RoomNo};
use std::alloc::Global;

/// Whether a response is another 2xx with this tag.
fn is_retransmission(
    alloc: Global,
    response: &ReceivedMessage,
    tag: &[u8],
) -> Result<bool, NoMemory>
    ensures { IfOk result (λ yes. yes
        ≡ (is_success (status_of response.now.parsed.start) && bytes_eq (to_tag_of response.now) tag.now)) }
{
    if !is_success(status_of(response.message.start())) {
        return Ok(false);
    }
    let remote = callee_remote(alloc, response)?;
    Ok(remote.tag.bytes() == tag)
}

/// The status line of a response, as it was received.
fn status_line_of(alloc: Global, response: &ReceivedMessage) -> Result<Text, NoMemory>
    ensures { IfOk result (λ t. t
        ≡ status_line (status_of response.now.parsed.start) (phrase_in response.now.parsed.start)) }
{
    match response.message.start() {
        Start::Request { method: _, uri: _ } => status_line(alloc, 0, b""),
        Start::Status { code, phrase } => status_line(alloc, *code, phrase.bytes()),
    }
}

/// The invited party at this place is connected.
fn connect_at(
    participants: &mut Vec<ParticipantState>,
    room: RoomNo,
    now: Moment,
    remote: Remote,
    place: usize,
)
    requires { place < length participants.old.items }
    ensures { participants.new.items ≡ participants_with_connected room now remote place (slice_get participants.old.items place) participants.old.items }
{
    let seat = participants.remove(place).connect(room, now, remote);
    match participants.insert(place, seat) {
        Ok(()) => {}
        _ => unreachable!(),
    }
}

impl Conference {
    /// Acknowledges the 2xx of the participant at this place, and records its tag and the ACK.
    fn acknowledge_at(
        &mut self,
        step: &StepContext<'_>,
        tag: Text,
        place: usize,
        effects: &mut Effects,
    ) -> Result<(), NoMemory>
        requires { place < length self.old.participants }
        ensures conference { OnOk result (self.new
            ≡ (at_participant (after_own_ack step.now.config tag) place (in_step self.old effects.old)).conference) }
        ensures effects { OnOk result (effects.new
            ≡ (at_participant (after_own_ack step.now.config tag) place (in_step self.old effects.old)).effects) }
    {
        let dialogue = self.participants[place].dialogue();
        let ack = effects
            .output
            .acknowledge_keeping(step.alloc, step.config.sip, dialogue)?;
        self.participants[place].note_accepted(tag, ack);
        Ok(())
    }

    /// The invited party at this place is connected by a 2xx. Returns its tag.
    fn connect_invited(
        &mut self,
        alloc: Global,
        now: Moment,
        response: &ReceivedMessage,
        place: usize,
    ) -> Result<Text, NoMemory>
        requires { place < length self.old.participants }
        ensures tag { IfOk result (λ tag. tag ≡ to_tag_of response.now) }
        ensures conference { OnOk result (self.new ≡ record self.old {
          participants =
              participants_with_connected self.old.number now (remote_of Callee response.now.parsed.lines) place (slice_get self.old.participants place) self.old.participants;
        }) }
    {
        let remote = callee_remote(alloc, response)?;
        let tag = remote.tag.copied(alloc)?;
        connect_at(&mut self.participants, self.number, now, remote, place);
        Ok(tag)
    }

    /// Notifies the participant whose REFER invited another one that its request has succeeded.
    fn notify_success(
        &mut self,
        step: &StepContext<'_>,
        by: Option<u64>,
        effects: &mut Effects,
    ) -> Result<(), NoMemory>
        ensures conference { OnOk result (self.new
            ≡ (after_notify_referrer step.now.config false (own_status 200) by (in_step self.old effects.old)).conference) }
        ensures effects { OnOk result (effects.new
            ≡ (after_notify_referrer step.now.config false (own_status 200) by (in_step self.old effects.old)).effects) }
    {
        let line = own_status(step.alloc, 200)?;
        self.notify_referrer(step, false, line.bytes(), by, effects)
    }

    /// A 2xx: the ACK is sent, the invited party is connected, and the participant that sent the REFER is notified.
    fn receive_success(
        &mut self,
        step: &StepContext<'_>,
        response: &ReceivedMessage,
        place: usize,
        effects: &mut Effects,
    ) -> Result<(), NoMemory>
        requires { place < length self.old.participants }
        ensures conference { OnOk result (self.new
            ≡ (at_participant (on_success step.now.config step.now.at response.now) place (in_step self.old effects.old)).conference) }
        ensures effects { OnOk result (effects.new
            ≡ (at_participant (on_success step.now.config step.now.at response.now) place (in_step self.old effects.old)).effects) }
    {
        let by = self.participants[place].by;
        let tag = self.connect_invited(step.alloc, step.at, response, place)?;
        self.acknowledge_at(step, tag, place, effects)?;
        self.notify_success(step, by, effects)
    }

    /// The participant at this place leaves, with BYE where it is connected, and the participant that sent the REFER is notified of this status line.
    fn end_at(
        &mut self,
        step: &StepContext<'_>,
        status_line: &[u8],
        place: usize,
        effects: &mut Effects,
    ) -> Result<(), NoMemory>
        requires { place < length self.old.participants }
        ensures conference { OnOk result (self.new
            ≡ (at_participant (after_end step.now.config step.now.at status_line.now) place (in_step self.old effects.old)).conference) }
        ensures effects { OnOk result (effects.new
            ≡ (at_participant (after_end step.now.config step.now.at status_line.now) place (in_step self.old effects.old)).effects) }
    {
        let seat = self.participants.remove(place);
        let by = seat.by;
        seat.dismiss(step, effects)?;
        self.notify_referrer(step, false, status_line, by, effects)
    }

    /// The same, where the server's INVITE to it has ended.
    fn end_invite(
        &mut self,
        step: &StepContext<'_>,
        status_line: &[u8],
        place: usize,
        effects: &mut Effects,
    ) -> Result<(), NoMemory>
        requires { place < length self.old.participants }
        ensures conference { OnOk result (self.new
            ≡ (at_participant (after_invite_end step.now.config step.now.at status_line.now) place (in_step self.old effects.old)).conference) }
        ensures effects { OnOk result (effects.new
            ≡ (at_participant (after_invite_end step.now.config step.now.at status_line.now) place (in_step self.old effects.old)).effects) }
    {
        drop(self.participants[place].invite.take());
        self.end_at(step, status_line, place, effects)
    }

    /// A final response from 300: the ACK is sent, and the participant leaves.
    fn receive_failure(
        &mut self,
        step: &StepContext<'_>,
        key: TKey,
        response: &ReceivedMessage,
        place: usize,
        effects: &mut Effects,
    ) -> Result<(), NoMemory>
        requires { place < length self.old.participants }
        ensures conference { OnOk result (self.new
            ≡ (at_participant (on_failure step.now.config step.now.at key response.now) place (in_step self.old effects.old)).conference) }
        ensures effects { OnOk result (effects.new
            ≡ (at_participant (on_failure step.now.config step.now.at key response.now) place (in_step self.old effects.old)).effects) }
    {
        let output = &mut effects.output;
        self.participants[place].acknowledge_failure(
            step.alloc,
            step.config.sip,
            key,
            response,
            output,
        )?;
        let line = status_line_of(step.alloc, response)?;
        self.end_invite(step, line.bytes(), place, effects)
    }

    /// A response to an INVITE that has no final response.
    fn receive_outstanding_response(
        &mut self,
        step: &StepContext<'_>,
        key: TKey,
        response: &ReceivedMessage,
        place: usize,
        effects: &mut Effects,
    ) -> Result<(), NoMemory>
        requires { place < length self.old.participants }
        ensures conference { OnOk result (self.new
            ≡ (at_participant (on_outstanding_response step.now.config step.now.at key response.now) place (in_step self.old effects.old)).conference) }
        ensures effects { OnOk result (effects.new
            ≡ (at_participant (on_outstanding_response step.now.config step.now.at key response.now) place (in_step self.old effects.old)).effects) }
    {
        let code = status_of(response.message.start());
        if is_provisional(code) {
            self.participants[place].note_provisional(key);
            return Ok(());
        }
        if code < 300 {
            return self.receive_success(step, response, place, effects);
        }
        self.receive_failure(step, key, response, place, effects)
    }

    /// A response to an INVITE whose 2xx had this tag and this ACK: the ACK is retransmitted for another 2xx with this tag.
    fn receive_retransmission(
        &self,
        alloc: Global,
        response: &ReceivedMessage,
        tag: &[u8],
        ack: &Text,
        place: usize,
        effects: &mut Effects,
    ) -> Result<(), NoMemory>
        requires { place < length self.now.participants }
        ensures conference { (at_participant (on_retransmission response.now tag.now ack.now) place (in_step self.now effects.old)).conference
            ≡ self.now }
        ensures effects { OnOk result (effects.new
            ≡ (at_participant (on_retransmission response.now tag.now ack.now) place (in_step self.now effects.old)).effects) }
    {
        if !is_retransmission(alloc, response, tag)? {
            return Ok(());
        }
        let text = ack.copied(alloc)?;
        let peer = self.participants[place].dialogue().peer;
        effects.output.emit(alloc, Emit::Plain { peer, text })
    }

    /// A response to the server's INVITE to the participant at this place.
    #[tactic(auto, unfolding(crate::specs::Responses::on_any_response))]
    pub fn receive_response(
        &mut self,
        step: &StepContext<'_>,
        key: TKey,
        response: &ReceivedMessage,
        place: usize,
        effects: &mut Effects,
    ) -> Result<(), NoMemory>
        requires { place < length self.old.participants }
        ensures conference { OnOk result (self.new
            ≡ (at_participant (on_any_response step.now.config step.now.at key response.now) place (in_step self.old effects.old)).conference) }
        ensures effects { OnOk result (effects.new
            ≡ (at_participant (on_any_response step.now.config step.now.at key response.now) place (in_step self.old effects.old)).effects) }
    {
        match &self.participants[place].invite {
            None => Ok(()),
            Some(Invite::Outstanding(_, _)) => {
                self.receive_outstanding_response(step, key, response, place, effects)
            }
            Some(Invite::Accepted(_, tag, ack)) => {
                self.receive_retransmission(step.alloc, response, tag.bytes(), ack, place, effects)
            }
        }
    }

    /// The server's INVITE to the participant at this place got no response at all and timed out.
    #[tactic(auto, unfolding(crate::specs::Responses::on_timeout))]
    pub fn receive_timeout(
        &mut self,
        step: &StepContext<'_>,
        place: usize,
        effects: &mut Effects,
    ) -> Result<(), NoMemory>
        requires { place < length self.old.participants }
        ensures conference { OnOk result (self.new
            ≡ (at_participant (on_timeout step.now.config step.now.at) place (in_step self.old effects.old)).conference) }
        ensures effects { OnOk result (effects.new
            ≡ (at_participant (on_timeout step.now.config step.now.at) place (in_step self.old effects.old)).effects) }
    {
        if !self.participants[place].is_invite_outstanding() {
            return Ok(());
        }
        let line = own_status(step.alloc, 408)?;
        self.end_invite(step, line.bytes(), place, effects)
    }

    /// An invited party has rung too long.
    fn end_ringing(
        &mut self,
        step: &StepContext<'_>,
        place: usize,
        effects: &mut Effects,
    ) -> Result<(), NoMemory>
        requires { place < length self.old.participants }
        ensures conference { OnOk result (self.new
            ≡ (at_participant (after_ringing_limit step.now.config step.now.at) place (in_step self.old effects.old)).conference) }
        ensures effects { OnOk result (effects.new
            ≡ (at_participant (after_ringing_limit step.now.config step.now.at) place (in_step self.old effects.old)).effects) }
    {
        self.participants[place].cancel(step.alloc, step.config.sip, &mut effects.output)?;
        self.participants[place].note_cancelled();
        let line = own_status(step.alloc, 408)?;
        self.end_at(step, line.bytes(), place, effects)
    }

    /// The timer of the ringing of the invitation of this number fires.
    fn fire_ringing_limit(
        &mut self,
        step: &StepContext<'_>,
        due: u64,
        place: usize,
        effects: &mut Effects,
    ) -> Result<(), NoMemory>
        requires { place < length self.old.participants }
        ensures conference { OnOk result (self.new
            ≡ (at_participant (on_cap step.now.config step.now.at due) place (in_step self.old effects.old)).conference) }
        ensures effects { OnOk result (effects.new
            ≡ (at_participant (on_cap step.now.config step.now.at due) place (in_step self.old effects.old)).effects) }
    {
        let seat = &self.participants[place];
        if !seat.is_connected() && seat.has_outstanding_number(due) {
            return self.end_ringing(step, place, effects);
        }
        Ok(())
    }

    /// No ACK was received: the participant leaves, with BYE.
    fn end_unacknowledged(
        &mut self,
        step: &StepContext<'_>,
        place: usize,
        effects: &mut Effects,
    ) -> Result<(), NoMemory>
        requires { place < length self.old.participants }
        ensures conference { OnOk result (self.new
            ≡ (at_participant (after_missing_ack step.now.config step.now.at) place (in_step self.old effects.old)).conference) }
        ensures effects { OnOk result (effects.new
            ≡ (at_participant (after_missing_ack step.now.config step.now.at) place (in_step self.old effects.old)).effects) }
    {
        let seat = self.participants.remove(place);
        let number = seat.number;
        seat.dismiss(step, effects)?;
        self.close_with(step, number, effects)
    }

    /// The timer of the ACK of the 2xx of this number fires.
    fn fire_missing_ack(
        &mut self,
        step: &StepContext<'_>,
        due: u64,
        place: usize,
        effects: &mut Effects,
    ) -> Result<(), NoMemory>
        requires { place < length self.old.participants }
        ensures conference { OnOk result (self.new
            ≡ (at_participant (on_no_ack step.now.config step.now.at due) place (in_step self.old effects.old)).conference) }
        ensures effects { OnOk result (effects.new
            ≡ (at_participant (on_no_ack step.now.config step.now.at due) place (in_step self.old effects.old)).effects) }
    {
        if self.participants[place].is_ack_pending(due) {
            return self.end_unacknowledged(step, place, effects);
        }
        Ok(())
    }

    /// A timer of the participant at this place fires.
    #[tactic(auto, unfolding(crate::specs::Responses::on_due))]
    pub fn fire_timer(
        &mut self,
        step: &StepContext<'_>,
        what: RoomWord,
        place: usize,
        effects: &mut Effects,
    ) -> Result<(), NoMemory>
        requires { place < length self.old.participants }
        ensures conference { OnOk result (self.new
            ≡ (at_participant (on_due step.now.config step.now.at what) place (in_step self.old effects.old)).conference) }
        ensures effects { OnOk result (effects.new
            ≡ (at_participant (on_due step.now.config step.now.at what) place (in_step self.old effects.old)).effects) }
    {
        match what {
            RoomWord::Cap(due) => self.fire_ringing_limit(step, due, place, effects),
            RoomWord::NoAck(due) => self.fire_missing_ack(step, due, place, effects),
        }
    }
}
