//! UPDATE of either side (RFC 3311): it is relayed to the other side while the call rings in an early dialog, and while it is stable; one at a time.
ghost use Rattle.std.specs.Prelude.{◌≡◌, true, IfOk, OnOk, codes};
ghost use Rattle.std.specs.Option.{option_copied};
ghost use Rattle.mmtel_output.specs.Outputs.{token};
ghost use Rattle.mmtel_types.specs.Sides.{other_side};
ghost use Rattle.mmtel_types.specs.declared.causes.Cause.TheVariants.{Ended as HasEnded};
ghost use Rattle.mmtel_call_services.specs.CopiedHeaders.{copied_lines};
ghost use Rattle.mmtel_call.specs.Answered.{leg_of, with_leg};
ghost use Rattle.mmtel_call.specs.Calls.{Established, Offered, Over, Stable};
ghost use Rattle.mmtel_call.specs.RelayedTransactions.{invite_sent_in, leg_after_request};
ghost use Rattle.mmtel_call.specs.Requests.{with_refused_request};
ghost use Rattle.mmtel_call.specs.Updates.{accepts_updates, attempt_after_update, on_early_update, on_stable_update, on_update, on_update_at, other_leg};

use crate::calls::{Call, EstablishedLegs, OfferedAttempt, Phase, RelayedKind, Stage};
use crate::context::StepContext;
use crate::relayed_transactions::relay_to_leg;
use crate::signals::SideRequest;
use mmtel_base::{List, NoMemory};
use mmtel_call_services::{Service, refusal_of_update};
use mmtel_compose::ReceivedMessage;
use mmtel_leg::DialogueFault;
use mmtel_message::Line;
use mmtel_output::{SentInvite, StepOutput};
use mmtel_types::{Peer, Side};

impl OfferedAttempt {
    /// Whether it rings, and the target has an early dialog.
    fn accepts_updates(&self) -> bool
        ensures { result ≡ accepts_updates self.now }
    {
        self.attempt.rang && self.callee.is_early()
    }
}

impl Call {
    /// The header fields of the UPDATE of this side that are copied to the other side, behind this peer.
    fn update_lines(
        &self,
        step: &StepContext<'_>,
        service: Option<&Service>,
        side: Side,
        peer: Peer,
        message: &ReceivedMessage,
    ) -> Result<List<Line>, NoMemory>
        ensures { IfOk result (λ ls. ls
            ≡ copied_lines step.now.config.now self.now.opening self.now.diversions (option_copied service.entry) side
            peer message.now) }
    {
        self.opening.copied_lines(
            step.alloc,
            step.config,
            &self.diversions,
            service,
            side,
            peer,
            message,
        )
    }

    /// Refuses an UPDATE, which is not relayed: it may be repeated later, or it crosses a request that the other side, or the server, has pending (RFC 3311 §5.2).
    fn refuse_update(
        &mut self,
        step: &StepContext<'_>,
        phase: Phase,
        fault: DialogueFault,
        request: SideRequest,
        output: &mut StepOutput,
    ) -> Result<(), NoMemory>
        requires { self.old.phase ≡ Over HasEnded }
        ensures call { OnOk result (self.new ≡ record self.old { phase = phase }) }
        ensures output { OnOk result (output.new
            ≡ with_refused_request step.now.config.now self.old request.key request.message fault output.old) }
    {
        let refused = self.refuse_invalid(step, request.key, &request.message, fault, output);
        drop(request);
        self.put_phase(phase);
        refused
    }

    /// Relays an UPDATE to the other side of an offered call. Returns it as it was sent.
    fn pass_update_early(
        &self,
        step: &StepContext<'_>,
        offered: &mut OfferedAttempt,
        request: &SideRequest,
        output: &mut StepOutput,
    ) -> Result<SentInvite, NoMemory>
        requires { offered.old.callee.is_early ≡ true }
        ensures done { OnOk result (output.new
            ≡ (on_early_update step.now.config.now offered.old request.now.side request.now.key request.now.message self.now
            output.old).output) }
        ensures sent { IfOk result (λ i. i
            ≡ invite_sent_in (leg_after_request (codes "UPDATE") (other_leg request.now.side offered.old)).dialogue (token output.old)) }
        ensures requested { OnOk result (offered.new ≡ attempt_after_update request.now.side offered.old) }
    {
        let service = offered.attempt.service.as_ref();
        let m = &request.message;
        match request.side {
            Side::Caller => {
                let lines = self.update_lines(
                    step,
                    service,
                    Side::Caller,
                    offered.callee.peer(),
                    m,
                )?;
                let sent = offered.relay_early_request(step, b"UPDATE", &lines, m, output);
                drop(lines);
                sent
            }
            Side::Callee => {
                let lines = self.update_lines(
                    step,
                    service,
                    Side::Callee,
                    offered.caller.peer(),
                    m,
                )?;
                let sent = relay_to_leg(step, b"UPDATE", &mut offered.caller, &lines, m, output);
                drop(lines);
                sent
            }
        }
    }

    /// The same, and it is in flight afterwards.
    fn relay_update_early(
        &mut self,
        step: &StepContext<'_>,
        offered: OfferedAttempt,
        request: SideRequest,
        output: &mut StepOutput,
    ) -> Result<(), NoMemory>
        requires phase { self.old.phase ≡ Over HasEnded }
        requires early { offered.callee.is_early ≡ true }
        ensures call { OnOk result (self.new
            ≡ (on_early_update step.now.config.now offered request.side request.key request.message self.old
            output.old).call) }
        ensures output { OnOk result (output.new
            ≡ (on_early_update step.now.config.now offered request.side request.key request.message self.old
            output.old).output) }
    {
        let mut offered = offered;
        match self.pass_update_early(step, &mut offered, &request, output) {
            Err(error) => {
                drop(request);
                offered.give_up(step.snapshot.at);
                Err(error)
            }
            Ok(sent) => {
                let flown = self.add_in_flight(step.alloc, RelayedKind::Update, request, sent);
                self.put_phase(Phase::Offered(offered));
                flown
            }
        }
    }

    /// Processes an UPDATE of a side of an offered call.
    pub fn receive_update(
        &mut self,
        step: &StepContext<'_>,
        offered: OfferedAttempt,
        request: SideRequest,
        output: &mut StepOutput,
    ) -> Result<(), NoMemory>
        requires { self.old.phase ≡ Over HasEnded }
        ensures call { OnOk result (self.new
            ≡ (on_update step.now.config.now offered request.side request.key request.message
            (record self.old { phase = Offered offered }) output.old).call) }
        ensures output { OnOk result (output.new
            ≡ (on_update step.now.config.now offered request.side request.key request.message
            (record self.old { phase = Offered offered }) output.old).output) }
    {
        if !offered.accepts_updates() {
            let later = DialogueFault::Unfinished;
            return self.refuse_update(step, Phase::Offered(offered), later, request, output);
        }
        match refusal_of_update(self.updating_side(), request.side) {
            None => self.relay_update_early(step, offered, request, output),
            Some(fault) => self.refuse_update(
                step,
                Phase::Offered(offered),
                fault,
                request,
                output,
            ),
        }
    }

    /// Relays an UPDATE to the other side of a stable call. Returns it as it was sent.
    fn pass_update(
        &self,
        step: &StepContext<'_>,
        legs: &mut EstablishedLegs,
        request: &SideRequest,
        output: &mut StepOutput,
    ) -> Result<SentInvite, NoMemory>
        ensures done { OnOk result (output.new
            ≡ (on_stable_update step.now.config.now legs.old request.now.side request.now.key request.now.message self.now
            output.old).output) }
        ensures sent { IfOk result (λ i. i
            ≡ invite_sent_in (leg_after_request (codes "UPDATE") (leg_of (other_side request.now.side) legs.old)).dialogue
            (token output.old)) }
        ensures requested { OnOk result (legs.new
            ≡ with_leg (other_side request.now.side) (leg_after_request (codes "UPDATE")
            (leg_of (other_side request.now.side) legs.old)) legs.old) }
    {
        let m = &request.message;
        let lines = self.copied_across(step, legs, request.side, m)?;
        let sent = legs.relay_request_kept(
            step,
            b"UPDATE",
            request.side.other(),
            &lines,
            m,
            output,
        );
        drop(lines);
        sent
    }

    /// The same, and it is in flight afterwards.
    fn relay_update_across(
        &mut self,
        step: &StepContext<'_>,
        legs: EstablishedLegs,
        request: SideRequest,
        output: &mut StepOutput,
    ) -> Result<(), NoMemory>
        requires { self.old.phase ≡ Over HasEnded }
        ensures call { OnOk result (self.new
            ≡ (on_stable_update step.now.config.now legs request.side request.key request.message self.old
            output.old).call) }
        ensures output { OnOk result (output.new
            ≡ (on_stable_update step.now.config.now legs request.side request.key request.message self.old
            output.old).output) }
    {
        let mut legs = legs;
        match self.pass_update(step, &mut legs, &request, output) {
            Err(error) => {
                drop(request);
                legs.give_up(step.snapshot.at);
                Err(error)
            }
            Ok(sent) => {
                let flown = self.add_in_flight(step.alloc, RelayedKind::Update, request, sent);
                self.put_phase(Phase::Established(legs, Stage::Stable));
                flown
            }
        }
    }

    /// Processes an UPDATE of a side of a stable call.
    fn receive_update_stable(
        &mut self,
        step: &StepContext<'_>,
        legs: EstablishedLegs,
        request: SideRequest,
        output: &mut StepOutput,
    ) -> Result<(), NoMemory>
        requires { self.old.phase ≡ Over HasEnded }
        ensures call { OnOk result (self.new
            ≡ (on_update_at Stable step.now.config.now legs request.side request.key request.message
            (record self.old { phase = Established legs Stable }) output.old).call) }
        ensures output { OnOk result (output.new
            ≡ (on_update_at Stable step.now.config.now legs request.side request.key request.message
            (record self.old { phase = Established legs Stable }) output.old).output) }
    {
        match refusal_of_update(self.updating_side(), request.side) {
            None => self.relay_update_across(step, legs, request, output),
            Some(fault) => {
                let phase = Phase::Established(legs, Stage::Stable);
                self.refuse_update(step, phase, fault, request, output)
            }
        }
    }

    /// Processes an UPDATE of a side of an answered call.
    pub fn receive_update_at(
        &mut self,
        step: &StepContext<'_>,
        legs: EstablishedLegs,
        stage: Stage,
        request: SideRequest,
        output: &mut StepOutput,
    ) -> Result<(), NoMemory>
        requires { self.old.phase ≡ Over HasEnded }
        ensures call { OnOk result (self.new
            ≡ (on_update_at stage step.now.config.now legs request.side request.key request.message
            (record self.old { phase = Established legs stage }) output.old).call) }
        ensures output { OnOk result (output.new
            ≡ (on_update_at stage step.now.config.now legs request.side request.key request.message
            (record self.old { phase = Established legs stage }) output.old).output) }
    {
        let crossing = DialogueFault::Pending;
        match stage {
            Stage::Stable => self.receive_update_stable(step, legs, request, output),
            Stage::Answered(waiting, success) => {
                let phase = Phase::Established(legs, Stage::Answered(waiting, success));
                self.refuse_update(step, phase, crossing, request, output)
            }
            Stage::Departing(waiting, success) => {
                let phase = Phase::Established(legs, Stage::Departing(waiting, success));
                self.refuse_update(step, phase, crossing, request, output)
            }
            Stage::Reinviting(asking, q) => {
                let phase = Phase::Established(legs, Stage::Reinviting(asking, q));
                self.refuse_update(step, phase, crossing, request, output)
            }
        }
    }
}
