//! How an INVITE within an answered call ends without a 2xx: by another final response, by a timeout, or because a side leaves.
ghost use Rattle.std.specs.Prelude.{◌≡◌, true, if◌then◌else◌, IfOk, OnOk};
ghost use Rattle.mmtel_compose.specs.ReceivedMessages.{status_of};
ghost use Rattle.mmtel_types.specs.Sides.{other_side};
ghost use Rattle.mmtel_types.specs.declared.causes.Cause.TheVariants.{Ended as HasEnded};
ghost use Rattle.mmtel_call.specs.Answered.{at_stage, with_bye_to};
ghost use Rattle.mmtel_call.specs.Calls.{Over, Stable};
ghost use Rattle.mmtel_call.specs.Closing.{established_call_end, step_result};
ghost use Rattle.mmtel_call.specs.Reinvites.{ended_dialogs, ends_dialog, on_bye_reinviting, on_timeout_across, with_byes, with_refusal_back};
ghost use Rattle.mmtel_call.specs.Ringing.{with_abandoned};
ghost use Rattle.mmtel_call.specs.Sending.{with_status_to};

use crate::calls::{Call, EstablishedLegs, Phase, Reinvite, Stage};
use crate::context::StepContext;
use crate::reinvites::{RelayedInvite, give_up_reinviting};
use mmtel_base::{List, NoMemory};
use mmtel_call_services::is_same_side;
use mmtel_compose::{ReceivedMessage, status_of};
use mmtel_leg::Dialogue;
use mmtel_output::{StepOutput, push_item};
use mmtel_transaction::TKey;
use mmtel_types::Side;
use std::alloc::Global;
use std::mem;

/// Whether the status ends the dialog (RFC 5057 §5.1).
pub fn ends_dialog(code: u16) -> bool
    ensures { result ≡ ends_dialog code }
{
    code == 408 || code == 481
}

impl EstablishedLegs {
    /// Sends a BYE of the server's own to both sides.
    pub fn send_byes(
        &mut self,
        step: &StepContext<'_>,
        output: &mut StepOutput,
    ) -> Result<(), NoMemory>
        ensures done { OnOk result (output.new ≡ with_byes step.now.config.now self.old output.old) }
        ensures caller { self.new.caller.meter ≡ self.old.caller.meter }
        ensures callee { self.new.callee.meter ≡ self.old.callee.meter }
    {
        self.send_bye_to(step, Side::Caller, output)?;
        self.send_bye_to(step, Side::Callee, output)
    }
}

/// The dialogs of an abandoned INVITE that need no BYE any more.
pub fn ended_dialogs(
    alloc: Global,
    legs: &EstablishedLegs,
    inviter: Side,
    departing: Side,
) -> Result<List<Dialogue>, NoMemory>
    ensures { IfOk result (λ ds. ds ≡ ended_dialogs legs.now inviter departing) }
{
    if !is_same_side(inviter, departing) {
        return Ok(List::new());
    }
    let mut dialogue = legs.dialogue_of(inviter.other()).copied(alloc)?;
    dialogue.local_cseq = dialogue.local_cseq.saturating_add(1);
    let mut ended = List::new();
    match push_item(alloc, &mut ended, dialogue) {
        Ok(()) => Ok(ended),
        Err(error) => {
            drop(ended);
            Err(error)
        }
    }
}

impl Call {
    /// A final response from 300 gets its ACK, and is relayed to the side that sent the INVITE.
    fn relay_refusal_back(
        &self,
        step: &StepContext<'_>,
        legs: &EstablishedLegs,
        relayed: &RelayedInvite,
        key: TKey,
        message: &ReceivedMessage,
        output: &mut StepOutput,
    ) -> Result<(), NoMemory>
        ensures { OnOk result (output.new
            ≡ with_refusal_back step.now.config.now legs.now relayed.now.side relayed.now.invite key message.now self.now output.old) }
    {
        output.acknowledge_final(step.alloc, step.sip(), key, &relayed.invite.invite, message)?;
        self.relay_back(step, legs, relayed, message, output)
    }

    /// A final response of the other side that ends the call: it is relayed back, and BYE to both sides.
    fn end_by_response(
        &mut self,
        step: &StepContext<'_>,
        legs: EstablishedLegs,
        relayed: &RelayedInvite,
        key: TKey,
        message: &ReceivedMessage,
        output: &mut StepOutput,
    ) -> Result<(), NoMemory>
        requires { self.old.phase ≡ Over HasEnded }
        ensures call { OnOk result (self.new
            ≡ (established_call_end step.now.snapshot.at legs self.old (with_byes step.now.config.now legs
            (with_refusal_back step.now.config.now legs relayed.now.side relayed.now.invite key message.now self.old output.old))).call) }
        ensures output { OnOk result (output.new
            ≡ (established_call_end step.now.snapshot.at legs self.old (with_byes step.now.config.now legs
            (with_refusal_back step.now.config.now legs relayed.now.side relayed.now.invite key message.now self.old output.old))).output) }
    {
        let mut legs = legs;
        let refused = self.relay_refusal_back(step, &legs, relayed, key, message, output);
        let sent = legs.send_byes(step, output);
        let closed = self.end_established(step, legs, output);
        refused?;
        sent?;
        closed
    }

    /// A final response of the other side from 300 that does not end the call: it is relayed back, and the call is stable.
    fn receive_refusal_across(
        &mut self,
        step: &StepContext<'_>,
        legs: EstablishedLegs,
        relayed: &RelayedInvite,
        key: TKey,
        message: &ReceivedMessage,
        output: &mut StepOutput,
    ) -> Result<(), NoMemory>
        requires { self.old.phase ≡ Over HasEnded }
        ensures call { OnOk result (self.new ≡ at_stage legs Stable self.old) }
        ensures output { OnOk result (output.new
            ≡ with_refusal_back step.now.config.now legs relayed.now.side relayed.now.invite key message.now self.old output.old) }
    {
        let refused = self.relay_refusal_back(step, &legs, relayed, key, message, output);
        self.put_phase(Phase::Established(legs, Stage::Stable));
        refused
    }

    /// Processes a final response of the other side from 300.
    fn receive_final_across(
        &mut self,
        step: &StepContext<'_>,
        legs: EstablishedLegs,
        relayed: &RelayedInvite,
        key: TKey,
        message: &ReceivedMessage,
        output: &mut StepOutput,
    ) -> Result<(), NoMemory>
        requires { self.old.phase ≡ Over HasEnded }
        ensures call { OnOk result (self.new
            ≡ (if ends_dialog (status_of message.now.parsed.start) then established_call_end step.now.snapshot.at legs self.old
            (with_byes step.now.config.now legs (with_refusal_back step.now.config.now legs relayed.now.side relayed.now.invite
            key message.now self.old output.old))
            else step_result (at_stage legs Stable self.old) (with_refusal_back step.now.config.now legs relayed.now.side
            relayed.now.invite key message.now self.old output.old)).call) }
        ensures output { OnOk result (output.new
            ≡ (if ends_dialog (status_of message.now.parsed.start) then established_call_end step.now.snapshot.at legs self.old
            (with_byes step.now.config.now legs (with_refusal_back step.now.config.now legs relayed.now.side relayed.now.invite
            key message.now self.old output.old))
            else step_result (at_stage legs Stable self.old) (with_refusal_back step.now.config.now legs relayed.now.side
            relayed.now.invite key message.now self.old output.old)).output) }
    {
        if ends_dialog(status_of(message.message.start())) {
            return self.end_by_response(step, legs, relayed, key, message, output);
        }
        self.receive_refusal_across(step, legs, relayed, key, message, output)
    }

    /// The same; the INVITE is dropped afterwards.
    pub fn handle_final_across(
        &mut self,
        step: &StepContext<'_>,
        legs: EstablishedLegs,
        relayed: RelayedInvite,
        key: TKey,
        message: &ReceivedMessage,
        output: &mut StepOutput,
    ) -> Result<(), NoMemory>
        requires { self.old.phase ≡ Over HasEnded }
        ensures call { OnOk result (self.new
            ≡ (if ends_dialog (status_of message.now.parsed.start) then established_call_end step.now.snapshot.at legs self.old
            (with_byes step.now.config.now legs (with_refusal_back step.now.config.now legs relayed.side relayed.invite key message.now
            self.old output.old))
            else step_result (at_stage legs Stable self.old) (with_refusal_back step.now.config.now legs relayed.side relayed.invite key
            message.now self.old output.old)).call) }
        ensures output { OnOk result (output.new
            ≡ (if ends_dialog (status_of message.now.parsed.start) then established_call_end step.now.snapshot.at legs self.old
            (with_byes step.now.config.now legs (with_refusal_back step.now.config.now legs relayed.side relayed.invite key message.now
            self.old output.old))
            else step_result (at_stage legs Stable self.old) (with_refusal_back step.now.config.now legs relayed.side relayed.invite key
            message.now self.old output.old)).output) }
    {
        let received = self.receive_final_across(step, legs, &relayed, key, message, output);
        drop(relayed);
        received
    }

    /// Sends what is due where the call ends while an INVITE has no final response: this status to the side that sent it, and BYE to both.
    pub fn send_end(
        &self,
        step: &StepContext<'_>,
        legs: &mut EstablishedLegs,
        reinvite: &Reinvite,
        code: u16,
        output: &mut StepOutput,
    ) -> Result<(), NoMemory>
        ensures done { OnOk result (output.new
            ≡ with_byes step.now.config.now legs.old (with_status_to step.now.config.now self.now reinvite.now.key reinvite.now.request
            code output.old)) }
        ensures caller { legs.new.caller.meter ≡ legs.old.caller.meter }
        ensures callee { legs.new.callee.meter ≡ legs.old.callee.meter }
    {
        self.respond_with_status(step, reinvite.key, &reinvite.request, code, output)?;
        legs.send_byes(step, output)
    }

    /// The INVITE to the other side timed out, and the call is over.
    pub fn receive_timeout_across(
        &mut self,
        step: &StepContext<'_>,
        legs: EstablishedLegs,
        reinvite: &Reinvite,
        output: &mut StepOutput,
    ) -> Result<(), NoMemory>
        requires { self.old.phase ≡ Over HasEnded }
        ensures call { OnOk result (self.new
            ≡ (on_timeout_across step.now.config.now step.now.snapshot.at legs reinvite.now self.old output.old).call) }
        ensures output { OnOk result (output.new
            ≡ (on_timeout_across step.now.config.now step.now.snapshot.at legs reinvite.now self.old output.old).output) }
    {
        let mut legs = legs;
        let passed = self.send_end(step, &mut legs, reinvite, 408, output);
        let closed = self.end_established(step, legs, output);
        passed?;
        closed
    }

    /// Sends what is due where a side leaves while an INVITE has no final response: 487 to the INVITE, and BYE to the other side.
    fn send_departure(
        &self,
        step: &StepContext<'_>,
        legs: &mut EstablishedLegs,
        reinvite: &Reinvite,
        departing: Side,
        output: &mut StepOutput,
    ) -> Result<(), NoMemory>
        ensures done { OnOk result (output.new
            ≡ with_bye_to step.now.config.now legs.old (other_side departing)
            (with_status_to step.now.config.now self.now reinvite.now.key reinvite.now.request 487 output.old)) }
        ensures caller { legs.new.caller.meter ≡ legs.old.caller.meter }
        ensures callee { legs.new.callee.meter ≡ legs.old.callee.meter }
    {
        self.respond_with_status(step, reinvite.key, &reinvite.request, 487, output)?;
        legs.send_bye_to(step, departing.other(), output)
    }

    /// Keeps the INVITE that was relayed as an abandoned one, with these dialogs that need no BYE any more.
    pub fn abandon_across(
        &mut self,
        alloc: Global,
        reinvite: Reinvite,
        forks: List<Dialogue>,
    ) -> Result<(), NoMemory>
        ensures done { OnOk result (self.new
            ≡ with_abandoned (record { invite = record reinvite.invite { forks = forks }; in_dialog = true }) self.old) }
        ensures phase { self.new.phase ≡ self.old.phase }
    {
        let mut sent_invite = reinvite.into_invite();
        drop(mem::replace(&mut sent_invite.forks, forks));
        self.abandon(alloc, sent_invite, true)
    }

    /// A side leaves, and the call is over; the INVITE is abandoned, with these dialogs that need no BYE any more.
    fn end_reinviting(
        &mut self,
        step: &StepContext<'_>,
        legs: EstablishedLegs,
        reinvite: Reinvite,
        forks: List<Dialogue>,
        departing: Side,
        output: &mut StepOutput,
    ) -> Result<(), NoMemory>
        requires { self.old.phase ≡ Over HasEnded }
        ensures call { OnOk result (self.new
            ≡ (established_call_end step.now.snapshot.at legs (with_abandoned (record
            { invite = record reinvite.invite { forks = forks }; in_dialog = true }) self.old)
            (with_bye_to step.now.config.now legs (other_side departing)
            (with_status_to step.now.config.now self.old reinvite.key reinvite.request 487 output.old))).call) }
        ensures output { OnOk result (output.new
            ≡ (established_call_end step.now.snapshot.at legs (with_abandoned (record
            { invite = record reinvite.invite { forks = forks }; in_dialog = true }) self.old)
            (with_bye_to step.now.config.now legs (other_side departing)
            (with_status_to step.now.config.now self.old reinvite.key reinvite.request 487 output.old))).output) }
    {
        let mut legs = legs;
        let passed = self.send_departure(step, &mut legs, &reinvite, departing, output);
        let loosened = self.abandon_across(step.alloc, reinvite, forks);
        let closed = self.end_established(step, legs, output);
        passed?;
        loosened?;
        closed
    }

    /// A side leaves while an INVITE has no final response, and the call is over.
    pub fn receive_bye_reinviting(
        &mut self,
        step: &StepContext<'_>,
        legs: EstablishedLegs,
        relayed: RelayedInvite,
        departing: Side,
        output: &mut StepOutput,
    ) -> Result<(), NoMemory>
        requires { self.old.phase ≡ Over HasEnded }
        ensures call { OnOk result (self.new
            ≡ (on_bye_reinviting step.now.config.now step.now.snapshot.at legs relayed.side relayed.invite departing
            self.old output.old).call) }
        ensures output { OnOk result (output.new
            ≡ (on_bye_reinviting step.now.config.now step.now.snapshot.at legs relayed.side relayed.invite departing
            self.old output.old).output) }
    {
        match ended_dialogs(step.alloc, &legs, relayed.side, departing) {
            Err(error) => {
                give_up_reinviting(legs, relayed, step.snapshot.at);
                Err(error)
            }
            Ok(forks) => {
                let RelayedInvite { side: _, invite } = relayed;
                self.end_reinviting(step, legs, invite, forks, departing, output)
            }
        }
    }
}
