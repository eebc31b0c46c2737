//! An answered call: a 2xx waits for its ACK, the call is stable, or a side leaves.
ghost use Rattle.std.specs.Prelude.{◌≡◌, IfOk, OnOk, Some, codes, map};
ghost use Rattle.mmtel_output.specs.Outputs.{token};
ghost use Rattle.mmtel_output.specs.Sending.{relayed_ack_text, with_ack, with_relayed_ack, with_relayed_request};
ghost use Rattle.mmtel_types.specs.Sides.{other_side};
ghost use Rattle.mmtel_types.specs.declared.causes.Cause.TheVariants.{Ended as HasEnded};
ghost use Rattle.mmtel_call_services.specs.Requests.{is_same_side};
ghost use Rattle.mmtel_call.specs.Answered.{acknowledges, after_ack_across, after_bye_across, after_bye_before_ack};
ghost use Rattle.mmtel_call.specs.Answered.{after_departure, call_with_kept_ack, is_due, leg_of, with_ack_and_bye, with_bye_to};
ghost use Rattle.mmtel_call.specs.Answered.{after_ack_timeout, copied_across, with_kept_ack};
ghost use Rattle.mmtel_call.specs.Calls.{Over};
ghost use Rattle.mmtel_call.specs.Closing.{established_call_end};

use crate::calls::{AnsweredInvite, Call, EstablishedLegs, Phase, Stage, Success};
use crate::context::StepContext;
use mmtel_base::{List, NoMemory, Text};
use mmtel_call_services::{is_ack_of, is_same_side};
use mmtel_compose::{ReceivedMessage, number_of};
use mmtel_leg::Ended;
use mmtel_message::Line;
use mmtel_output::{StepOutput, push_item};
use mmtel_transaction::DueWord;
use mmtel_types::{Cause, Peer, Side};
use std::alloc::Global;
use std::mem;

/// Whether an ACK of this side belongs to the 2xx.
pub fn acknowledges(waiting: Side, success: &Success, side: Side, message: &ReceivedMessage) -> bool
    ensures { result ≡ acknowledges waiting success.now side message.now }
{
    is_ack_of(waiting, success.cseq, side, number_of(message))
}

impl Success {
    /// Whether the deadline is that of this 2xx.
    pub fn is_due(&self, what: DueWord) -> bool
        ensures { result ≡ is_due self.now what }
    {
        match what {
            DueWord::NoReply(_) => false,
            DueWord::NoPrack(_) => false,
            DueWord::Cap(_) => false,
            DueWord::NoAck(number) => number == self.number,
            DueWord::Expired(_) => false,
        }
    }
}

impl EstablishedLegs {
    /// The peer of a side.
    pub fn peer_of(&self, side: Side) -> Peer
        ensures { result ≡ (leg_of side self.now).dialogue.peer }
    {
        match side {
            Side::Caller => self.caller.peer(),
            Side::Callee => self.callee.peer(),
        }
    }

    /// Sends a BYE of the server's own to a side.
    pub fn send_bye_to(
        &mut self,
        step: &StepContext<'_>,
        side: Side,
        output: &mut StepOutput,
    ) -> Result<(), NoMemory>
        ensures done { OnOk result (output.new ≡ with_bye_to step.now.config.now self.old side output.old) }
        ensures other { leg_of (other_side side) self.new ≡ leg_of (other_side side) self.old }
        ensures caller { self.new.caller.meter ≡ self.old.caller.meter }
        ensures callee { self.new.callee.meter ≡ self.old.callee.meter }
    {
        match side {
            Side::Caller => output.send_bye(step.alloc, step.sip(), &mut self.caller),
            Side::Callee => output.send_bye(step.alloc, step.sip(), &mut self.callee),
        }
    }

    /// Acknowledges the 2xx of a side by an ACK of the server's own.
    fn acknowledge(
        &self,
        step: &StepContext<'_>,
        side: Side,
        output: &mut StepOutput,
    ) -> Result<(), NoMemory>
        ensures { OnOk result (output.new ≡ with_ack step.now.config.now.sip (leg_of side self.now).dialogue output.old) }
    {
        match side {
            Side::Caller => output.acknowledge(step.alloc, step.sip(), &self.caller),
            Side::Callee => output.acknowledge(step.alloc, step.sip(), &self.callee),
        }
    }

    /// Acknowledges the 2xx of a side, and sends a BYE to it.
    fn acknowledge_and_leave(
        &mut self,
        step: &StepContext<'_>,
        side: Side,
        output: &mut StepOutput,
    ) -> Result<(), NoMemory>
        ensures done { OnOk result (output.new ≡ with_ack_and_bye step.now.config.now self.old side output.old) }
        ensures other { leg_of (other_side side) self.new ≡ leg_of (other_side side) self.old }
        ensures caller { self.new.caller.meter ≡ self.old.caller.meter }
        ensures callee { self.new.callee.meter ≡ self.old.callee.meter }
    {
        self.acknowledge(step, side, output)?;
        self.send_bye_to(step, side, output)
    }

    /// Sends to a side the request of the other one, with these header fields. Returns its branch.
    pub fn relay_request(
        &mut self,
        step: &StepContext<'_>,
        method: &[u8],
        side: Side,
        lines: &List<Line>,
        message: &ReceivedMessage,
        output: &mut StepOutput,
    ) -> Result<Text, NoMemory>
        ensures branch { IfOk result (λ t. t ≡ token output.old) }
        ensures done { OnOk result (output.new
            ≡ with_relayed_request step.now.config.now.sip method.now (leg_of side self.old).dialogue lines.now message.now.parsed
            output.old) }
        ensures caller { self.new.caller.meter ≡ self.old.caller.meter }
        ensures callee { self.new.callee.meter ≡ self.old.callee.meter }
    {
        match side {
            Side::Caller => output.relay_request(
                step.alloc,
                step.sip(),
                method,
                &mut self.caller,
                lines,
                message,
            ),
            Side::Callee => output.relay_request(
                step.alloc,
                step.sip(),
                method,
                &mut self.callee,
                lines,
                message,
            ),
        }
    }

    /// Sends to a side the ACK of the other one, with these header fields. Returns its text.
    fn relay_ack(
        &self,
        step: &StepContext<'_>,
        side: Side,
        lines: &List<Line>,
        message: &ReceivedMessage,
        output: &mut StepOutput,
    ) -> Result<Text, NoMemory>
        ensures text { IfOk result (λ t. t
            ≡ relayed_ack_text step.now.config.now.sip (leg_of side self.now).dialogue (token output.old) lines.now
            message.now.parsed) }
        ensures done { OnOk result (output.new
            ≡ with_relayed_ack step.now.config.now.sip (leg_of side self.now).dialogue lines.now message.now.parsed output.old) }
    {
        match side {
            Side::Caller => output.relay_ack(step.alloc, step.sip(), &self.caller, lines, message),
            Side::Callee => output.relay_ack(step.alloc, step.sip(), &self.callee, lines, message),
        }
    }
}

impl AnsweredInvite {
    /// Keeps the text of an ACK, if the INVITE has this branch.
    fn keep_ack(&mut self, alloc: Global, branch: &[u8], text: &Text) -> Result<(), NoMemory>
        ensures { OnOk result (self.new ≡ with_kept_ack branch.now text.now self.old) }
    {
        if self.invite.branch.bytes() != branch {
            return Ok(());
        }
        let text = text.copied(alloc)?;
        drop(self.invite.ack.replace(text));
        Ok(())
    }
}

/// Keeps it with each INVITE of this branch.
fn with_kept_acks(
    alloc: Global,
    branch: &[u8],
    text: &Text,
    answered_invites: List<AnsweredInvite>,
) -> Result<List<AnsweredInvite>, NoMemory>
    ensures { IfOk result (λ ts. ts ≡ map (with_kept_ack branch.now text.now) answered_invites) }
{
    let mut rest = answered_invites;
    let mut kept = List::new();
    'rest: while let Some(answered_invites) = rest.pop_first() {
        let mut answered_invites = answered_invites;
        match answered_invites.keep_ack(alloc, branch, text) {
            Err(error) => {
                drop(answered_invites);
                drop(rest);
                drop(kept);
                return Err(error);
            }
            Ok(()) => match push_item(alloc, &mut kept, answered_invites) {
                Ok(()) => {}
                Err(error) => {
                    drop(rest);
                    drop(kept);
                    return Err(error);
                }
            },
        }
    }
    drop(rest);
    Ok(kept)
}

impl Call {
    /// The header fields of a side's message that are copied to the other side.
    pub fn copied_across(
        &self,
        step: &StepContext<'_>,
        legs: &EstablishedLegs,
        side: Side,
        message: &ReceivedMessage,
    ) -> Result<List<Line>, NoMemory>
        ensures { IfOk result (λ ls. ls ≡ copied_across step.now.config.now self.now legs.now side message.now) }
    {
        let peer = legs.peer_of(side.other());
        let service = legs.service.as_ref();
        let opening = &self.opening;
        opening.copied_lines(
            step.alloc,
            step.config,
            &self.diversions,
            service,
            side,
            peer,
            message,
        )
    }

    /// Ends the call; both legs leave.
    pub fn end_established(
        &mut self,
        step: &StepContext<'_>,
        legs: EstablishedLegs,
        output: &mut StepOutput,
    ) -> Result<(), NoMemory>
        requires { self.old.phase ≡ Over HasEnded }
        ensures call { OnOk result (self.new ≡ (established_call_end step.now.snapshot.at legs self.old output.old).call) }
        ensures output { OnOk result (output.new ≡ (established_call_end step.now.snapshot.at legs self.old output.old).output) }
    {
        let EstablishedLegs {
            caller,
            callee,
            service,
        } = legs;
        drop(service);
        let Ended { meter: first } = caller.leave();
        let Ended { meter: last } = callee.leave();
        self.close(
            step.alloc,
            step.snapshot.at,
            Cause::Ended,
            first,
            last,
            output,
        )
    }

    /// The ACK did not arrive: ACK without body and BYE to the other side; BYE to this one.
    pub fn end_unacknowledged(
        &mut self,
        step: &StepContext<'_>,
        legs: EstablishedLegs,
        side: Side,
        output: &mut StepOutput,
    ) -> Result<(), NoMemory>
        requires { self.old.phase ≡ Over HasEnded }
        ensures call { OnOk result (self.new
            ≡ (after_ack_timeout step.now.config.now step.now.snapshot.at legs side self.old output.old).call) }
        ensures output { OnOk result (output.new
            ≡ (after_ack_timeout step.now.config.now step.now.snapshot.at legs side self.old output.old).output) }
    {
        let mut legs = legs;
        let sent = legs.acknowledge_and_leave(step, side.other(), output);
        let left_too = legs.send_bye_to(step, side, output);
        let closed = self.end_established(step, legs, output);
        sent?;
        left_too?;
        closed
    }

    /// A departing call ends with the side for which it waited: BYE to it.
    pub fn end_departing(
        &mut self,
        step: &StepContext<'_>,
        legs: EstablishedLegs,
        side: Side,
        output: &mut StepOutput,
    ) -> Result<(), NoMemory>
        requires { self.old.phase ≡ Over HasEnded }
        ensures call { OnOk result (self.new
            ≡ (after_departure step.now.config.now step.now.snapshot.at legs side self.old output.old).call) }
        ensures output { OnOk result (output.new
            ≡ (after_departure step.now.config.now step.now.snapshot.at legs side self.old output.old).output) }
    {
        let mut legs = legs;
        let sent = legs.send_bye_to(step, side, output);
        let closed = self.end_established(step, legs, output);
        sent?;
        closed
    }

    /// A side whose ACK is due leaves: ACK without body and BYE to the other side.
    fn end_before_ack(
        &mut self,
        step: &StepContext<'_>,
        legs: EstablishedLegs,
        side: Side,
        output: &mut StepOutput,
    ) -> Result<(), NoMemory>
        requires { self.old.phase ≡ Over HasEnded }
        ensures call { OnOk result (self.new
            ≡ (established_call_end step.now.snapshot.at legs self.old (with_ack_and_bye step.now.config.now legs (other_side side)
            output.old)).call) }
        ensures output { OnOk result (output.new
            ≡ (established_call_end step.now.snapshot.at legs self.old (with_ack_and_bye step.now.config.now legs (other_side side)
            output.old)).output) }
    {
        let mut legs = legs;
        let sent = legs.acknowledge_and_leave(step, side.other(), output);
        let closed = self.end_established(step, legs, output);
        sent?;
        closed
    }

    /// A BYE while an ACK is due.
    pub fn receive_bye_before_ack(
        &mut self,
        step: &StepContext<'_>,
        legs: EstablishedLegs,
        waiting: Side,
        success: Success,
        side: Side,
        output: &mut StepOutput,
    ) -> Result<(), NoMemory>
        requires { self.old.phase ≡ Over HasEnded }
        ensures call { OnOk result (self.new
            ≡ (after_bye_before_ack step.now.config.now step.now.snapshot.at legs waiting success side self.old output.old).call) }
        ensures output { OnOk result (output.new
            ≡ (after_bye_before_ack step.now.config.now step.now.snapshot.at legs waiting success side self.old output.old).output) }
    {
        if is_same_side(waiting, side) {
            return self.end_before_ack(step, legs, side, output);
        }
        self.put_phase(Phase::Established(legs, Stage::Departing(waiting, success)));
        Ok(())
    }

    /// Relays the BYE of a side of a stable call to the other side.
    fn pass_bye(
        &self,
        step: &StepContext<'_>,
        legs: &mut EstablishedLegs,
        side: Side,
        message: &ReceivedMessage,
        output: &mut StepOutput,
    ) -> Result<(), NoMemory>
        ensures done { OnOk result (output.new
            ≡ with_relayed_request step.now.config.now.sip (codes "BYE") (leg_of (other_side side) legs.old).dialogue
            (copied_across step.now.config.now self.now legs.old side message.now) message.now.parsed output.old) }
        ensures caller { legs.new.caller.meter ≡ legs.old.caller.meter }
        ensures callee { legs.new.callee.meter ≡ legs.old.callee.meter }
    {
        let lines = self.copied_across(step, legs, side, message)?;
        let asked = legs.relay_request(step, b"BYE", side.other(), &lines, message, output);
        drop(lines);
        match asked {
            Ok(branch) => {
                drop(branch);
                Ok(())
            }
            Err(error) => Err(error),
        }
    }

    /// A side of a stable call leaves, and the call is over.
    pub fn receive_bye_across(
        &mut self,
        step: &StepContext<'_>,
        legs: EstablishedLegs,
        side: Side,
        message: &ReceivedMessage,
        output: &mut StepOutput,
    ) -> Result<(), NoMemory>
        requires { self.old.phase ≡ Over HasEnded }
        ensures call { OnOk result (self.new
            ≡ (after_bye_across step.now.config.now step.now.snapshot.at legs side message.now self.old output.old).call) }
        ensures output { OnOk result (output.new
            ≡ (after_bye_across step.now.config.now step.now.snapshot.at legs side message.now self.old output.old).output) }
    {
        let mut legs = legs;
        let passed = self.pass_bye(step, &mut legs, side, message, output);
        let closed = self.end_established(step, legs, output);
        passed?;
        closed
    }

    /// Keeps the text of the ACK for the INVITE of this branch.
    fn keep_ack(&mut self, alloc: Global, branch: &[u8], text: &Text) -> Result<(), NoMemory>
        ensures done { OnOk result (self.new ≡ call_with_kept_ack branch.now text.now self.old) }
        ensures phase { self.new.phase ≡ self.old.phase }
    {
        let answered_invites = mem::replace(&mut self.answered_invites, List::new());
        let answered_invites = with_kept_acks(alloc, branch, text, answered_invites)?;
        drop(mem::replace(&mut self.answered_invites, answered_invites));
        Ok(())
    }

    /// Relays the ACK of a side to the other side. Returns its text.
    fn pass_ack(
        &self,
        step: &StepContext<'_>,
        legs: &EstablishedLegs,
        side: Side,
        message: &ReceivedMessage,
        output: &mut StepOutput,
    ) -> Result<Text, NoMemory>
        ensures text { IfOk result (λ t. t
            ≡ relayed_ack_text step.now.config.now.sip (leg_of (other_side side) legs.now).dialogue (token output.old)
            (copied_across step.now.config.now self.now legs.now side message.now) message.now.parsed) }
        ensures done { OnOk result (output.new
            ≡ with_relayed_ack step.now.config.now.sip (leg_of (other_side side) legs.now).dialogue
            (copied_across step.now.config.now self.now legs.now side message.now) message.now.parsed output.old) }
    {
        let lines = self.copied_across(step, legs, side, message)?;
        let acked = legs.relay_ack(step, side.other(), &lines, message, output);
        drop(lines);
        acked
    }

    /// The ACK of the 2xx arrived, and the call is stable.
    pub fn acknowledge_across(
        &mut self,
        step: &StepContext<'_>,
        legs: EstablishedLegs,
        side: Side,
        success: &Success,
        message: &ReceivedMessage,
        output: &mut StepOutput,
    ) -> Result<(), NoMemory>
        requires { self.old.phase ≡ Over HasEnded }
        ensures call { OnOk result (self.new
            ≡ (after_ack_across step.now.config.now legs side success.now message.now self.old output.old).call) }
        ensures output { OnOk result (output.new
            ≡ (after_ack_across step.now.config.now legs side success.now message.now self.old output.old).output) }
    {
        let passed = self.pass_ack(step, &legs, side, message, output);
        self.put_phase(Phase::Established(legs, Stage::Stable));
        let text = passed?;
        self.keep_ack(step.alloc, success.branch.bytes(), &text)
    }
}
