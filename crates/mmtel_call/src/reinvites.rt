//! An INVITE of a side of an answered call, which is relayed to the other side, and may be cancelled.
ghost use Rattle.std.specs.Prelude.{◌≡◌, if◌then◌else◌, IfOk, OnOk};
ghost use Rattle.mmtel_output.specs.Outputs.{token};
ghost use Rattle.mmtel_output.specs.SentInvites.{invite_after_cancel, with_provisional};
ghost use Rattle.mmtel_output.specs.Sending.{with_relayed_request};
ghost use Rattle.mmtel_compose.specs.ReceivedMessages.{status_of};
ghost use Rattle.mmtel_types.specs.Sides.{other_side};
ghost use Rattle.mmtel_types.specs.declared.causes.Cause.TheVariants.{Ended as HasEnded};
ghost use Rattle.mmtel_call.specs.Answered.{leg_of, with_leg};
ghost use Rattle.mmtel_call.specs.Calls.{Over};
ghost use Rattle.mmtel_call.specs.RelayedTransactions.{leg_after_request};
ghost use Rattle.mmtel_call.specs.Reinvites.{after_invite_across, on_cancel_across, reinvite_after_cancel, with_cancel_if_due};
ghost use Rattle.mmtel_call.specs.Reinvites.{invite_sent_in, leg_after_invite, on_provisional_across, on_reinvite, on_response_across, reinvite_after_provisional};
ghost use Rattle.mmtel_call.specs.Sending.{with_status_to};

use crate::attempts::with_provisional;
use crate::calls::{Call, EstablishedLegs, Phase, Reinvite, Stage};
use crate::context::StepContext;
use crate::relayed_transactions::relay_to_leg;
use crate::signals::SideRequest;
use mmtel_base::{List, NoMemory, Text};
use mmtel_compose::{ReceivedMessage, status_of};
use mmtel_leg::Dialogue;
use mmtel_message::Line;
use mmtel_output::{SentInvite, StepOutput, invite_after_cancel};
use mmtel_transaction::TKey;
use mmtel_types::{Moment, Side};
use std::alloc::Global;

/// An INVITE that was relayed to the other side, and the side that sent it.
#[derive(Drop)]
pub struct RelayedInvite {
    /// The side that sent it.
    pub side: Side,
    /// Its INVITE.
    pub invite: Reinvite,
}

/// A request as it was sent in this dialog.
pub fn invite_sent_in(
    alloc: Global,
    dialogue: &Dialogue,
    branch: Text,
) -> Result<SentInvite, NoMemory>
    ensures { IfOk result (λ i. i ≡ invite_sent_in dialogue.now branch) }
{
    match dialogue.copied(alloc) {
        Err(error) => {
            drop(branch);
            Err(error)
        }
        Ok(dialogue) => {
            let number = dialogue.local_cseq;
            Ok(SentInvite::new(dialogue, number, branch))
        }
    }
}

/// The INVITE after a provisional response in this client transaction; it is cancelled if a CANCEL waited for that response.
fn invite_after_provisional(key: TKey, cancel_due: bool, invite: SentInvite) -> SentInvite
    ensures { result ≡ (if cancel_due then invite_after_cancel (with_provisional key invite) else with_provisional key invite) }
{
    let invite = with_provisional(key, invite);
    if cancel_due {
        return invite_after_cancel(invite);
    }
    invite
}

impl Reinvite {
    /// The INVITE after a provisional response in this client transaction.
    fn proceed(self, key: TKey) -> Reinvite
        ensures { result ≡ reinvite_after_provisional key self }
    {
        let Reinvite {
            key: own,
            request,
            invite: sent_invite,
            cancel_due,
        } = self;
        Reinvite {
            key: own,
            request,
            invite: invite_after_provisional(key, cancel_due, sent_invite),
            cancel_due: false,
        }
    }

    /// The INVITE after the side that sent it cancelled it.
    fn cancel(self) -> Reinvite
        ensures { result ≡ reinvite_after_cancel self }
    {
        let Reinvite {
            key,
            request,
            invite: sent_invite,
            cancel_due: _,
        } = self;
        let provisional = sent_invite.provisional;
        Reinvite {
            key,
            request,
            invite: invite_after_cancel(sent_invite),
            cancel_due: !provisional,
        }
    }

    /// The INVITE to the other side alone.
    pub fn into_invite(self) -> SentInvite
        ensures { result ≡ self.invite }
    {
        let Reinvite {
            key: _,
            request,
            invite: sent_invite,
            cancel_due: _,
        } = self;
        drop(request);
        sent_invite
    }
}

/// Spends both legs of a call that is given up, and the INVITE that was relayed.
pub fn give_up_reinviting(legs: EstablishedLegs, relayed: RelayedInvite, at: Moment) {
    drop(relayed);
    legs.give_up(at);
}

impl EstablishedLegs {
    /// The dialog of a side.
    pub fn dialogue_of(&self, side: Side) -> &Dialogue
        ensures { result.now ≡ (leg_of side self.now).dialogue }
    {
        match side {
            Side::Caller => self.caller.dialogue(),
            Side::Callee => self.callee.dialogue(),
        }
    }

    /// Sends to a side the request of the other one, with these header fields. Returns it as it was sent.
    pub fn relay_request_kept(
        &mut self,
        step: &StepContext<'_>,
        method: &[u8],
        side: Side,
        lines: &List<Line>,
        message: &ReceivedMessage,
        output: &mut StepOutput,
    ) -> Result<SentInvite, NoMemory>
        ensures done { OnOk result (output.new
            ≡ with_relayed_request step.now.config.now.sip method.now (leg_of side self.old).dialogue lines.now message.now.parsed
            output.old) }
        ensures sent { IfOk result (λ i. i
            ≡ invite_sent_in (leg_after_request method.now (leg_of side self.old)).dialogue (token output.old)) }
        ensures leg { OnOk result (self.new
            ≡ with_leg side (leg_after_request method.now (leg_of side self.old)) self.old) }
        ensures caller { self.new.caller.meter ≡ self.old.caller.meter }
        ensures callee { self.new.callee.meter ≡ self.old.callee.meter }
    {
        match side {
            Side::Caller => relay_to_leg(step, method, &mut self.caller, lines, message, output),
            Side::Callee => relay_to_leg(step, method, &mut self.callee, lines, message, output),
        }
    }
}

impl Call {
    /// Sends what is due on an INVITE of a side: 100 to that side, and the INVITE to the other one. Returns the INVITE that was sent.
    fn pass_invite(
        &self,
        step: &StepContext<'_>,
        legs: &mut EstablishedLegs,
        request: &SideRequest,
        output: &mut StepOutput,
    ) -> Result<SentInvite, NoMemory>
        ensures done { OnOk result (output.new
            ≡ (after_invite_across step.now.config.now legs.old request.now.side request.now.key request.now.message self.now
            (with_status_to step.now.config.now self.now request.now.key request.now.message 100 output.old)).output) }
        ensures invite { IfOk result (λ i. i
            ≡ invite_sent_in (leg_after_invite (leg_of (other_side request.now.side) legs.old)).dialogue (token output.old)) }
        ensures leg { OnOk result (legs.new
            ≡ with_leg (other_side request.now.side) (leg_after_invite (leg_of (other_side request.now.side) legs.old)) legs.old) }
    {
        let side = request.side;
        let hearing = &request.message;
        self.respond_with_status(step, request.key, hearing, 100, output)?;
        let lines = self.copied_across(step, legs, side, hearing)?;
        let invited = legs.relay_request_kept(
            step,
            b"INVITE",
            side.other(),
            &lines,
            hearing,
            output,
        );
        drop(lines);
        invited
    }

    /// A side of a stable call sends an INVITE.
    pub fn relay_invite_across(
        &mut self,
        step: &StepContext<'_>,
        legs: EstablishedLegs,
        request: SideRequest,
        output: &mut StepOutput,
    ) -> Result<(), NoMemory>
        requires { self.old.phase ≡ Over HasEnded }
        ensures call { OnOk result (self.new
            ≡ (on_reinvite step.now.config.now legs request.side request.key request.message self.old output.old).call) }
        ensures output { OnOk result (output.new
            ≡ (on_reinvite step.now.config.now legs request.side request.key request.message self.old output.old).output) }
    {
        let mut legs = legs;
        match self.pass_invite(step, &mut legs, &request, output) {
            Err(error) => {
                drop(request);
                legs.give_up(step.snapshot.at);
                Err(error)
            }
            Ok(sent_invite) => {
                let SideRequest {
                    side,
                    key,
                    message: hearing,
                } = request;
                let new_reinvite = Reinvite {
                    key,
                    request: hearing,
                    invite: sent_invite,
                    cancel_due: false,
                };
                self.put_phase(Phase::Established(legs, Stage::Reinviting(side, new_reinvite)));
                Ok(())
            }
        }
    }

    /// Processes a provisional response of the other side.
    fn receive_provisional_across(
        &mut self,
        step: &StepContext<'_>,
        legs: EstablishedLegs,
        relayed: RelayedInvite,
        key: TKey,
        output: &mut StepOutput,
    ) -> Result<(), NoMemory>
        requires { self.old.phase ≡ Over HasEnded }
        ensures call { OnOk result (self.new
            ≡ (on_provisional_across step.now.config.now legs relayed.side relayed.invite key self.old output.old).call) }
        ensures output { OnOk result (output.new
            ≡ (on_provisional_across step.now.config.now legs relayed.side relayed.invite key self.old output.old).output) }
    {
        let cancelled = cancel_if_due(step, key, &relayed.invite, output);
        let RelayedInvite { side, invite } = relayed;
        self.put_phase(Phase::Established(legs, Stage::Reinviting(side, invite.proceed(key))));
        cancelled
    }

    /// Processes a response of the other side.
    pub fn receive_response_across(
        &mut self,
        step: &StepContext<'_>,
        legs: EstablishedLegs,
        relayed: RelayedInvite,
        key: TKey,
        message: &ReceivedMessage,
        output: &mut StepOutput,
    ) -> Result<(), NoMemory>
        requires { self.old.phase ≡ Over HasEnded }
        ensures call { OnOk result (self.new
            ≡ (on_response_across step.now.config.now step.now.snapshot.at legs relayed.side relayed.invite key message.now
            (status_of message.now.parsed.start) self.old output.old).call) }
        ensures output { OnOk result (output.new
            ≡ (on_response_across step.now.config.now step.now.snapshot.at legs relayed.side relayed.invite key message.now
            (status_of message.now.parsed.start) self.old output.old).output) }
    {
        let code = status_of(message.message.start());
        if code < 200 {
            return self.receive_provisional_across(step, legs, relayed, key, output);
        }
        if code < 300 {
            return self.receive_acceptance(step, legs, relayed, key, message, output);
        }
        self.handle_final_across(step, legs, relayed, key, message, output)
    }

    /// The side that sent the INVITE cancels it.
    pub fn cancel_across(
        &mut self,
        step: &StepContext<'_>,
        legs: EstablishedLegs,
        relayed: RelayedInvite,
        output: &mut StepOutput,
    ) -> Result<(), NoMemory>
        requires { self.old.phase ≡ Over HasEnded }
        ensures call { OnOk result (self.new
            ≡ (on_cancel_across step.now.config.now legs relayed.side relayed.invite self.old output.old).call) }
        ensures output { OnOk result (output.new
            ≡ (on_cancel_across step.now.config.now legs relayed.side relayed.invite self.old output.old).output) }
    {
        let cancelled = output.cancel(step.alloc, step.sip(), &relayed.invite.invite);
        let RelayedInvite { side, invite } = relayed;
        self.put_phase(Phase::Established(legs, Stage::Reinviting(side, invite.cancel())));
        cancelled
    }
}

/// Sends the CANCEL that waited for a provisional response.
fn cancel_if_due(
    step: &StepContext<'_>,
    key: TKey,
    reinvite: &Reinvite,
    output: &mut StepOutput,
) -> Result<(), NoMemory>
    ensures { OnOk result (output.new ≡ with_cancel_if_due step.now.config.now key reinvite.now output.old) }
{
    let _key = key;
    if reinvite.cancel_due && !reinvite.invite.cancelled {
        return output.send_cancel(step.alloc, step.sip(), &reinvite.invite);
    }
    Ok(())
}
