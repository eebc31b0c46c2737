//! How a party becomes a participant: by an INVITE to the conference, or by a leg moved out of a call.
ghost use Rattle.std.specs.Prelude.{◌≡◌, [], IfErr, IfOk, None, OnErr, OnOk, Some, codes, true};
ghost use Rattle.mmtel_output.specs.Outputs.{token};
ghost use Rattle.mmtel_output.specs.SentInvites.{sent_invite};
ghost use Rattle.mmtel_output.specs.Sending.{with_contact_response, with_own_request};
ghost use Rattle.mmtel_leg.specs.Releases.{released_leg};
ghost use Rattle.mmtel_base.specs.Numbers.{next_number};
ghost use Rattle.mmtel_sdp.specs.Mixer.{offer_text};
ghost use Rattle.mmtel_sdp.specs.Offers.{offers_audio};
ghost use Rattle.mmtel_focus.specs.Joining.{after_adoption, after_join, is_same_side, leg_after_invite, new_conference};
ghost use Rattle.mmtel_focus.specs.Joining.{new_participant, next_in, party_of, released_after_reinvite, with_accepted_invite};
ghost use Rattle.mmtel_focus.specs.Conferences.{in_step, Outstanding};
ghost use Rattle.mmtel_focus.specs.Participants.{meter_of};
ghost use Rattle.mmtel_focus.specs.Texts.{answer_in, contact_and_sdp_lines, contact_value, sdp_lines};

use crate::conferences::Conference;
use crate::texts::answer_in;
use mmtel_base::NoMemory;
use mmtel_charging::Meter;
use mmtel_compose::{OwnResponse, ReceivedMessage};
use mmtel_leg::{LegOf, Released, Standing};
use mmtel_output::{SentInvite, StepOutput};
use mmtel_participants::{
    Effects, Invite, NextNumbers, ParticipantState, Party, PendingAck, StepContext,
    contact_and_sdp_lines, contact_value, leg_with_meter, meter_of, sdp_lines,
};
use mmtel_sdp::mixer_offer;
use mmtel_sip_rules::ACK_TIME;
use mmtel_transaction::{Emit, RoomWord, TKey};
use mmtel_types::{Account, Moment, RoomNo};
use std::alloc::Global;

/// A leg that enters a conference. The value is linear: it must be spent.
pub struct Entrant {
    /// The leg, which has no meter.
    pub leg: Released,
    /// The account that is charged for the participant.
    pub account: Option<Account>,
}

impl Entrant {
    /// The leg, where it does not enter.
    pub fn into_leg(self) -> Released
        ensures leg { result ≡ self.leg }
    {
        let Entrant { leg, account: _ } = self;
        leg
    }
}

/// The party of a leg, with a participant's meter.
fn party_of(leg: Released, meter: Option<Meter>, now: Moment) -> Party
    ensures { result ≡ party_of meter leg }
{
    match leg {
        Released::Caller(leg) => Party::DialedIn(leg_with_meter(leg, meter, now)),
        Released::Callee(leg) => Party::DialedOut(leg_with_meter(leg, meter, now)),
    }
}

/// Responds to an INVITE to a conference with the mixer's answer.
fn send_ok(
    step: &StepContext<'_>,
    room: RoomNo,
    key: TKey,
    invite: &ReceivedMessage,
    tag: &[u8],
    output: &mut StepOutput,
) -> Result<(), NoMemory>
    requires { offers_audio invite.now.parsed.body ≡ true }
    ensures { OnOk result (output.new
        ≡ with_contact_response (contact_value step.now.config.sip room) key invite.now tag.now 200 [] sdp_lines
        (answer_in step.now.config.mixer invite.now.parsed.body) output.old) }
{
    let contact = contact_value(step.alloc, step.config.sip, room)?;
    let named = sdp_lines(step.alloc)?;
    let body = answer_in(step.alloc, step.config.mixer, invite.message.body())?;
    let own = OwnResponse {
        code: 200,
        passed: &[],
        named: named.items(),
        body: body.bytes(),
    };
    output.respond_with_contact(step.alloc, contact.bytes(), key, invite, tag, own)
}

/// Responds to an INVITE to a conference with the mixer's answer, and arms the timer of its ACK.
pub fn accept_invite(
    step: &StepContext<'_>,
    numbers: NextNumbers,
    key: TKey,
    invite: &ReceivedMessage,
    tag: &[u8],
    output: &mut StepOutput,
) -> Result<(), NoMemory>
    requires { offers_audio invite.now.parsed.body ≡ true }
    ensures { OnOk result (output.new
        ≡ with_accepted_invite step.now.config step.now.at numbers.room numbers.seat numbers.number key invite.now tag.now output.old) }
{
    let NextNumbers { room, seat, number } = numbers;
    send_ok(step, room, key, invite, tag, output)?;
    let at = step.at.ms() + ACK_TIME;
    let what = RoomWord::NoAck(number);
    output.emit(
        step.alloc,
        Emit::ArmSeat {
            room,
            seat,
            what,
            at,
        },
    )
}

/// The participant that joins a conference.
fn new_participant(
    conference: &Conference,
    leg: Released,
    account: Option<Account>,
    now: Moment,
) -> ParticipantState
    ensures { result ≡ new_participant now conference.now leg account }
{
    let NextNumbers {
        room: _,
        seat,
        number,
    } = conference.next();
    let cseq = leg.dialogue().remote_cseq;
    let meter = meter_of(conference.number, now, account);
    ParticipantState {
        number: seat,
        by: None,
        account,
        pending_ack: Some(PendingAck { number, cseq }),
        invite: None,
        party: party_of(leg, meter, now),
    }
}

/// The participant of a leg that is invited by the REFER of another one.
fn adopted_participant(
    conference: &Conference,
    leg: Released,
    account: Option<Account>,
    by: u64,
    sent_invite: SentInvite,
    now: Moment,
) -> ParticipantState
    ensures { result ≡ record {
      number = next_number conference.now.last_seat;
      by = Some by;
      account = account;
      pending_ack = None;
      invite = Some (Outstanding (next_number conference.now.last_number) sent_invite);
      party = party_of (meter_of conference.now.number now account) leg;
    } }
{
    let NextNumbers {
        room: _,
        seat,
        number,
    } = conference.next();
    let meter = meter_of(conference.number, now, account);
    ParticipantState {
        number: seat,
        by: Some(by),
        account,
        pending_ack: None,
        invite: Some(Invite::Outstanding(number, sent_invite)),
        party: party_of(leg, meter, now),
    }
}

/// Sends a re-INVITE with the mixer's offer on a leg that enters a conference.
fn reinvite<P>(
    step: &StepContext<'_>,
    room: RoomNo,
    leg: &mut LegOf<P, Standing>,
    output: &mut StepOutput,
) -> Result<SentInvite, NoMemory>
    ensures output { OnOk result (output.new
        ≡ with_own_request step.now.config.sip (codes "INVITE") leg.old.dialogue (contact_and_sdp_lines step.now.config.sip room) (offer_text step.now.config.mixer) output.old) }
    ensures counted { OnOk result (leg.new ≡ leg_after_invite leg.old) }
    ensures meter { leg.new.meter ≡ leg.old.meter }
    ensures sent { IfOk result (λ i. i
        ≡ sent_invite (leg_after_invite leg.old).dialogue (next_number leg.old.dialogue.local_cseq) (token output.old)) }
{
    let named = contact_and_sdp_lines(step.alloc, step.config.sip, room)?;
    let body = mixer_offer(step.alloc, step.config.mixer)?;
    let branch = output.send_own_request(
        step.alloc,
        step.config.sip,
        b"INVITE",
        leg,
        &named,
        body.bytes(),
    )?;
    let dialogue = leg.dialogue().copied(step.alloc)?;
    let number = dialogue.local_cseq;
    Ok(SentInvite::new(dialogue, number, branch))
}

/// The same of a leg that was taken out of a call, which is handed back in any case.
fn reinvite_released(
    step: &StepContext<'_>,
    room: RoomNo,
    leg: Released,
    output: &mut StepOutput,
) -> (Released, Result<SentInvite, NoMemory>)
    requires { (released_leg leg).meter ≡ None }
    ensures output { OnOk result.1 (output.new
        ≡ with_own_request step.now.config.sip (codes "INVITE") (released_leg leg).dialogue
        (contact_and_sdp_lines step.now.config.sip room) (offer_text step.now.config.mixer) output.old) }
    ensures counted { OnOk result.1 (result.0 ≡ released_after_reinvite leg) }
    ensures meter { (released_leg result.0).meter ≡ None }
    ensures side { is_same_side result.0 leg ≡ true }
    ensures sent { IfOk result.1 (λ i. i
        ≡ sent_invite (leg_after_invite (released_leg leg)).dialogue (next_number (released_leg leg).dialogue.local_cseq) (token output.old)) }
{
    match leg {
        Released::Caller(leg) => {
            let mut leg = leg;
            let sent = reinvite(step, room, &mut leg, output);
            (Released::Caller(leg), sent)
        }
        Released::Callee(leg) => {
            let mut leg = leg;
            let sent = reinvite(step, room, &mut leg, output);
            (Released::Callee(leg), sent)
        }
    }
}

impl Conference {
    /// A conference without participants.
    pub fn new(alloc: Global, number: RoomNo) -> Conference
        ensures { result ≡ new_conference number }
    {
        Conference {
            number,
            last_seat: 0,
            last_number: 0,
            participants: Vec::new(alloc),
        }
    }

    /// The numbers of the next participant.
    pub fn next(&self) -> NextNumbers
        ensures { result ≡ next_in self.now }
    {
        NextNumbers::after(self.number, self.last_seat, self.last_number)
    }

    /// Counts a participant that came with these numbers, and with it an invitation or a 2xx.
    pub fn count(&mut self, next: NextNumbers)
        ensures { self.new ≡ record self.old { last_seat = next.seat; last_number = next.number } }
    {
        self.last_seat = next.seat;
        self.last_number = next.number;
    }

    /// A leg joins the conference by an INVITE that offers audio: it gets the mixer's answer, and is a participant.
    ///
    /// # Errors
    ///
    /// Out of memory only; the leg is handed back, and the conference has not changed.
    #[tactic(auto, unfolding(crate::specs::Joining::after_join))]
    pub fn join(
        &mut self,
        step: &StepContext<'_>,
        entrant: Entrant,
        key: TKey,
        invite: &ReceivedMessage,
        effects: &mut Effects,
    ) -> Result<(), Released>
        requires unmetered { (released_leg entrant.leg).meter ≡ None }
        requires audio { offers_audio invite.now.parsed.body ≡ true }
        ensures conference { OnOk result (self.new
            ≡ (after_join step.now.config step.now.at entrant.leg entrant.account key invite.now (in_step self.old effects.old)).conference) }
        ensures effects { OnOk result (effects.new
            ≡ (after_join step.now.config step.now.at entrant.leg entrant.account key invite.now (in_step self.old effects.old)).effects) }
        ensures abandoned { OnOk result (effects.new.abandoned ≡ effects.old.abandoned) }
        ensures rows { OnOk result (effects.new.output.rows ≡ effects.old.output.rows) }
        ensures refused { OnErr result (self.new ≡ self.old) }
        ensures handed_back { IfErr result (λ l. l ≡ entrant.leg) }
    {
        let Entrant { leg, account } = entrant;
        if self.participants.reserve(1).is_err() {
            return Err(leg);
        }
        let next = self.next();
        let tag = leg.dialogue().local_tag.bytes();
        if accept_invite(step, next, key, invite, tag, &mut effects.output).is_err() {
            return Err(leg);
        }
        let seat = new_participant(self, leg, account, step.at);
        self.participants.push_reserved(seat);
        self.count(next);
        Ok(())
    }

    /// Moves a leg of a call into the conference: it is invited by a re-INVITE, and is a participant from now on.
    ///
    /// # Errors
    ///
    /// Out of memory only; a leg of the same side without a meter is handed back, and the conference has not changed.
    #[tactic(auto, unfolding(crate::specs::Joining::after_adoption))]
    pub fn adopt(
        &mut self,
        step: &StepContext<'_>,
        entrant: Entrant,
        by: u64,
        effects: &mut Effects,
    ) -> Result<(), Released>
        requires { (released_leg entrant.leg).meter ≡ None }
        ensures conference { OnOk result (self.new
            ≡ (after_adoption step.now.config step.now.at entrant.leg entrant.account by (in_step self.old effects.old)).conference) }
        ensures effects { OnOk result (effects.new
            ≡ (after_adoption step.now.config step.now.at entrant.leg entrant.account by (in_step self.old effects.old)).effects) }
        ensures abandoned { OnOk result (effects.new.abandoned ≡ effects.old.abandoned) }
        ensures rows { OnOk result (effects.new.output.rows ≡ effects.old.output.rows) }
        ensures refused { OnErr result (self.new ≡ self.old) }
        ensures meter { IfErr result (λ l. (released_leg l).meter ≡ None) }
        ensures side { IfErr result (λ l. is_same_side l entrant.leg ≡ true) }
    {
        let Entrant { leg, account } = entrant;
        if self.participants.reserve(1).is_err() {
            return Err(leg);
        }
        match reinvite_released(step, self.number, leg, &mut effects.output) {
            (leg, Err(_)) => Err(leg),
            (leg, Ok(sent_invite)) => {
                let next = self.next();
                let seat = adopted_participant(self, leg, account, by, sent_invite, step.at);
                self.participants.push_reserved(seat);
                self.count(next);
                Ok(())
            }
        }
    }
}
