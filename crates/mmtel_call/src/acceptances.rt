//! A 2xx to an INVITE within an answered call: it is relayed to the side that sent the INVITE.
ghost use Rattle.std.specs.Prelude.{◌≡◌, ◌∷◌, ◌++◌, [], IfOk, OnOk};
ghost use Rattle.mmtel_sdp.specs.Offers.{direction_in_body};
ghost use Rattle.mmtel_types.specs.declared.causes.Cause.TheVariants.{Ended as HasEnded};
ghost use Rattle.mmtel_call.specs.Calls.{Answered, Established, Over};
ghost use Rattle.mmtel_call.specs.Reinvites.{hold_after, on_accepted_reinvite, with_relayed_back};
ghost use Rattle.mmtel_call.specs.Ringing.{next_success, success_of, to_tag_of, with_ack_timer, with_expiry_timer};

use crate::attempts::new_answered_invite;
use crate::calls::{AnsweredInvite, Call, EstablishedLegs, Phase, Stage, Success};
use crate::context::StepContext;
use crate::legs::tag_of_response;
use crate::reinvites::{RelayedInvite, give_up_reinviting};
use mmtel_base::{NoMemory, Text};
use mmtel_compose::ReceivedMessage;
use mmtel_output::{StepOutput, push_item};
use mmtel_sdp::{Direction, direction_in_body};
use mmtel_transaction::TKey;
use mmtel_types::Side;
use mmtel_waiting::HoldState;
use std::alloc::Global;

/// The hold state after an offer of a side with this direction.
pub fn hold_after(side: Side, direction: Option<Direction>, hold: HoldState) -> HoldState
    ensures { result ≡ hold_after side direction hold }
{
    let mut hold = hold;
    match direction {
        None => {}
        Some(direction) => hold.note(side, direction),
    }
    hold
}

impl Call {
    /// Relays a response to the side that sent the INVITE.
    pub fn relay_back(
        &self,
        step: &StepContext<'_>,
        legs: &EstablishedLegs,
        relayed_invite: &RelayedInvite,
        message: &ReceivedMessage,
        output: &mut StepOutput,
    ) -> Result<(), NoMemory>
        ensures { OnOk result (output.new
            ≡ with_relayed_back step.now.config.now legs.now relayed_invite.now.side relayed_invite.now.invite message.now self.now output.old) }
    {
        let invite = &relayed_invite.invite;
        let peer = invite.request.peer;
        let service = legs.service.as_ref();
        let opening = &self.opening;
        let other = relayed_invite.side.other();
        let lines = opening.copied_lines(
            step.alloc,
            step.config,
            &self.diversions,
            service,
            other,
            peer,
            message,
        )?;
        let tag = opening.tag.bytes();
        let relayed = output.relay_response(
            step.alloc,
            step.sip(),
            invite.key,
            &invite.request,
            tag,
            lines.items(),
            message,
        );
        drop(lines);
        relayed
    }

    /// Sends the response that is due on a 2xx of the other side, and arms its deadlines. Returns its tag, the direction of the offer, and the record that waits for the ACK.
    fn pass_acceptance(
        &self,
        step: &StepContext<'_>,
        legs: &EstablishedLegs,
        relayed: &RelayedInvite,
        message: &ReceivedMessage,
        output: &mut StepOutput,
    ) -> Result<(Text, Option<Direction>, Success), NoMemory>
        ensures output { OnOk result (output.new
            ≡ with_expiry_timer step.now.config.now step.now.snapshot.at message.now self.now (with_ack_timer step.now.snapshot.at
            self.now (with_relayed_back step.now.config.now legs.now relayed.now.side relayed.now.invite message.now self.now
            output.old))) }
        ensures tag { IfOk result (λ r. r.0 ≡ to_tag_of message.now) }
        ensures direction { IfOk result (λ r. r.1 ≡ direction_in_body relayed.now.invite.request.parsed.body) }
        ensures success { IfOk result (λ r. r.2
            ≡ success_of self.now relayed.now.invite.request relayed.now.invite.invite) }
    {
        let invite = &relayed.invite;
        self.relay_back(step, legs, relayed, message, output)?;
        self.await_ack(step, output)?;
        self.await_expiry(step, message, output)?;
        let direction = direction_in_body(step.alloc, invite.request.message.body())?;
        let tag = tag_of_response(step.alloc, message)?;
        match self.success_of(step.alloc, &invite.request, &invite.invite) {
            Err(error) => {
                drop(tag);
                Err(error)
            }
            Ok(success) => Ok((tag, direction, success)),
        }
    }

    /// Records that the INVITE of a side was answered: the call waits for its ACK.
    fn note_acceptance(
        &mut self,
        alloc: Global,
        side: Side,
        direction: Option<Direction>,
        answered_invite: AnsweredInvite,
    ) -> Result<(), NoMemory>
        ensures done { OnOk result (self.new
            ≡ record self.old {
              successes = next_success self.old;
              hold = hold_after side direction self.old.hold;
              answered_invites = self.old.answered_invites ++ answered_invite ∷ [];
            }) }
        ensures phase { self.new.phase ≡ self.old.phase }
    {
        self.successes = self.successes.saturating_add(1);
        self.hold = hold_after(side, direction, self.hold);
        push_item(alloc, &mut self.answered_invites, answered_invite)
    }

    /// The same, and sets the phase of the call afterwards.
    fn accept(
        &mut self,
        alloc: Global,
        legs: EstablishedLegs,
        side: Side,
        direction: Option<Direction>,
        answered_invite: AnsweredInvite,
        success: Success,
    ) -> Result<(), NoMemory>
        requires { self.old.phase ≡ Over HasEnded }
        ensures { OnOk result (self.new
            ≡ record self.old {
              successes = next_success self.old;
              hold = hold_after side direction self.old.hold;
              answered_invites = self.old.answered_invites ++ answered_invite ∷ [];
              phase = Established legs (Answered side success);
            }) }
    {
        let noted = self.note_acceptance(alloc, side, direction, answered_invite);
        self.put_phase(Phase::Established(legs, Stage::Answered(side, success)));
        noted
    }

    /// A 2xx of the other side.
    pub fn receive_acceptance(
        &mut self,
        step: &StepContext<'_>,
        legs: EstablishedLegs,
        relayed: RelayedInvite,
        key: TKey,
        message: &ReceivedMessage,
        output: &mut StepOutput,
    ) -> Result<(), NoMemory>
        requires { self.old.phase ≡ Over HasEnded }
        ensures call { OnOk result (self.new
            ≡ (on_accepted_reinvite step.now.config.now step.now.snapshot.at legs relayed.side relayed.invite key message.now
            self.old output.old).call) }
        ensures output { OnOk result (output.new
            ≡ (on_accepted_reinvite step.now.config.now step.now.snapshot.at legs relayed.side relayed.invite key message.now
            self.old output.old).output) }
    {
        match self.pass_acceptance(step, &legs, &relayed, message, output) {
            Err(error) => {
                give_up_reinviting(legs, relayed, step.snapshot.at);
                Err(error)
            }
            Ok((tag, direction, success)) => {
                let RelayedInvite { side, invite } = relayed;
                let answered_invite = new_answered_invite(key, tag, true, invite.into_invite());
                self.accept(step.alloc, legs, side, direction, answered_invite, success)
            }
        }
    }
}
