//! The transitions of an answered call on each signal, by its stage.
ghost use Rattle.std.specs.Prelude.{◌≡◌, OnErr, OnOk};
ghost use Rattle.mmtel_types.specs.declared.causes.Cause.TheVariants.{Ended as HasEnded};
ghost use Rattle.mmtel_call.specs.Calls.{Established, Over};
ghost use Rattle.mmtel_call.specs.Stages.{after_ack_at, after_bye_at, busy_in, has_departed, is_ack_at, is_due_at, on_ack_at};
ghost use Rattle.mmtel_call.specs.Stages.{on_bye, on_cancel_at, on_due_at, on_invite, on_request_at, on_valid_request_at};
ghost use Rattle.mmtel_call.specs.Stages.{after_timer_at, on_other_at, on_response_at, on_timeout_at};
ghost use Rattle.mmtel_call.specs.Answered.{leg_of, with_leg};
ghost use Rattle.mmtel_call.specs.Reinvites.{on_timeout_across};
ghost use Rattle.mmtel_call.specs.Requests.{leg_after_receiving, request_check};

use crate::answered::acknowledges;
use crate::calls::{Call, EstablishedLegs, Phase, Reinvite, Stage};
use crate::context::StepContext;
use crate::expiring::is_expiry;
use crate::legs::receive;
use crate::reinvites::RelayedInvite;
use crate::signals::SideRequest;
use mmtel_base::NoMemory;
use mmtel_call_services::is_same_side;
use mmtel_compose::ReceivedMessage;
use mmtel_leg::{DialogueFault, InFlight};
use mmtel_message::is_method;
use mmtel_output::StepOutput;
use mmtel_transaction::{DueWord, TKey};
use mmtel_types::Side;

impl Stage {
    /// Which INVITE is pending when this side sends one.
    fn busy(&self, side: Side) -> InFlight
        ensures { result ≡ busy_in self.now side }
    {
        match self {
            Stage::Answered(_, _) => InFlight::Own,
            Stage::Departing(_, _) => InFlight::Own,
            Stage::Stable => InFlight::None,
            Stage::Reinviting(asking, _) => if is_same_side(*asking, side) {
                InFlight::Theirs
            } else {
                InFlight::Own
            },
        }
    }
}

impl EstablishedLegs {
    /// Records the CSeq number of a request of a side, or refuses it.
    fn receive(
        &mut self,
        side: Side,
        message: &ReceivedMessage,
        busy: InFlight,
    ) -> Result<(), DialogueFault>
        ensures check { result ≡ request_check (leg_of side self.old) message.now busy }
        ensures received { OnOk result (self.new ≡ with_leg side (leg_after_receiving (leg_of side self.old) message.now) self.old) }
        ensures refused { OnErr result (self.new ≡ self.old) }
    {
        match side {
            Side::Caller => receive(&mut self.caller, message, busy),
            Side::Callee => receive(&mut self.callee, message, busy),
        }
    }
}

impl Stage {
    /// Whether a deadline is that of the 2xx which waits for its ACK, or the expiry of the session, where this many 2xx were relayed to a side.
    pub fn is_due(&self, successes: u64, what: DueWord) -> bool
        ensures { result ≡ is_due_at self.now successes what }
    {
        match self {
            Stage::Answered(_, success) => success.is_due(what),
            Stage::Departing(_, success) => success.is_due(what),
            Stage::Stable => is_expiry(successes, what),
            Stage::Reinviting(_, _) => is_expiry(successes, what),
        }
    }

    /// Whether an ACK of a side belongs to the 2xx that waits for it.
    fn is_ack(&self, side: Side, message: &ReceivedMessage) -> bool
        ensures { result ≡ is_ack_at self.now side message.now }
    {
        match self {
            Stage::Answered(waiting, success) => acknowledges(*waiting, success, side, message),
            Stage::Departing(waiting, success) => acknowledges(*waiting, success, side, message),
            Stage::Stable => false,
            Stage::Reinviting(_, _) => false,
        }
    }

    /// Whether the side has left already.
    fn has_departed(&self, side: Side) -> bool
        ensures { result ≡ has_departed self.now side }
    {
        match self {
            Stage::Answered(_, _) => false,
            Stage::Departing(waiting, _) => !is_same_side(*waiting, side),
            Stage::Stable => false,
            Stage::Reinviting(_, _) => false,
        }
    }
}

impl Call {
    /// The phase of the call is unchanged.
    pub fn stay(&mut self, phase: Phase) -> Result<(), NoMemory>
        requires { self.old.phase ≡ Over HasEnded }
        ensures { self.new ≡ record self.old { phase = phase } }
    {
        self.put_phase(phase);
        Ok(())
    }

    /// The same, and drops a request that is not kept.
    fn skip_request(&mut self, phase: Phase, request: SideRequest)
        requires { self.old.phase ≡ Over HasEnded }
        ensures { self.new ≡ record self.old { phase = phase } }
    {
        drop(request);
        self.put_phase(phase);
    }

    /// Processes an INVITE of a side that its leg accepted.
    fn receive_invite(
        &mut self,
        step: &StepContext<'_>,
        legs: EstablishedLegs,
        stage: Stage,
        request: SideRequest,
        output: &mut StepOutput,
    ) -> Result<(), NoMemory>
        requires { self.old.phase ≡ Over HasEnded }
        ensures call { OnOk result (self.new
            ≡ (on_invite stage step.now.config.now legs request.side request.key request.message
            (record self.old { phase = Established legs stage }) output.old).call) }
        ensures output { OnOk result (output.new
            ≡ (on_invite stage step.now.config.now legs request.side request.key request.message
            (record self.old { phase = Established legs stage }) output.old).output) }
    {
        match stage {
            Stage::Stable => self.relay_invite_across(step, legs, request, output),
            Stage::Answered(waiting, success) => {
                self.skip_request(
                    Phase::Established(legs, Stage::Answered(waiting, success)),
                    request,
                );
                Ok(())
            }
            Stage::Departing(waiting, success) => {
                self.skip_request(
                    Phase::Established(legs, Stage::Departing(waiting, success)),
                    request,
                );
                Ok(())
            }
            Stage::Reinviting(asking, q) => {
                self.skip_request(
                    Phase::Established(legs, Stage::Reinviting(asking, q)),
                    request,
                );
                Ok(())
            }
        }
    }

    /// A side leaves, whose BYE got its 200.
    fn end_by_bye(
        &mut self,
        step: &StepContext<'_>,
        legs: EstablishedLegs,
        stage: Stage,
        side: Side,
        message: &ReceivedMessage,
        output: &mut StepOutput,
    ) -> Result<(), NoMemory>
        requires { self.old.phase ≡ Over HasEnded }
        ensures call { OnOk result (self.new
            ≡ (after_bye_at stage step.now.config.now step.now.snapshot.at legs side message.now
            (record self.old { phase = Established legs stage }) output.old).call) }
        ensures output { OnOk result (output.new
            ≡ (after_bye_at stage step.now.config.now step.now.snapshot.at legs side message.now
            (record self.old { phase = Established legs stage }) output.old).output) }
    {
        match stage {
            Stage::Answered(waiting, success) => {
                self.receive_bye_before_ack(step, legs, waiting, success, side, output)
            }
            Stage::Departing(_waiting, success) => {
                drop(success);
                self.end_established(step, legs, output)
            }
            Stage::Stable => self.receive_bye_across(step, legs, side, message, output),
            Stage::Reinviting(asking, q) => {
                let relayed_invite = RelayedInvite {
                    side: asking,
                    invite: q,
                };
                self.receive_bye_reinviting(step, legs, relayed_invite, side, output)
            }
        }
    }

    /// Processes a BYE of a side that its leg accepted.
    fn receive_bye(
        &mut self,
        step: &StepContext<'_>,
        legs: EstablishedLegs,
        stage: Stage,
        request: &SideRequest,
        output: &mut StepOutput,
    ) -> Result<(), NoMemory>
        requires { self.old.phase ≡ Over HasEnded }
        ensures call { OnOk result (self.new
            ≡ (on_bye stage step.now.config.now step.now.snapshot.at legs request.now.side request.now.key
            request.now.message (record self.old { phase = Established legs stage }) output.old).call) }
        ensures output { OnOk result (output.new
            ≡ (on_bye stage step.now.config.now step.now.snapshot.at legs request.now.side request.now.key
            request.now.message (record self.old { phase = Established legs stage }) output.old).output) }
    {
        let hearing = &request.message;
        if stage.has_departed(request.side) {
            let replied = self.respond_with_status(step, request.key, hearing, 481, output);
            self.put_phase(Phase::Established(legs, stage));
            return replied;
        }
        let replied = self.respond_with_status(step, request.key, hearing, 200, output);
        let ended = self.end_by_bye(step, legs, stage, request.side, hearing, output);
        replied?;
        ended
    }

    /// Processes a request of a side that its leg accepted, other than INVITE, BYE and UPDATE: a PRACK, which acknowledges nothing here, or a request for which there is no
    /// transition.
    fn receive_other_request(
        &mut self,
        step: &StepContext<'_>,
        phase: Phase,
        request: SideRequest,
        output: &mut StepOutput,
    ) -> Result<(), NoMemory>
        requires { self.old.phase ≡ Over HasEnded }
        ensures call { OnOk result (self.new
            ≡ (on_other_at step.now.config.now request.key request.message (record self.old { phase = phase })
            output.old).call) }
        ensures output { OnOk result (output.new
            ≡ (on_other_at step.now.config.now request.key request.message (record self.old { phase = phase })
            output.old).output) }
    {
        let hearing = &request.message;
        if is_method(b"PRACK", hearing.message.start()) {
            let refused = self.refuse_prack(step, request.key, hearing, output);
            self.skip_request(phase, request);
            return refused;
        }
        let answered = self.respond_to_unlisted(step, request.key, hearing, output);
        self.skip_request(phase, request);
        answered
    }

    /// Processes a request of a side that its leg accepted.
    fn receive_valid_request(
        &mut self,
        step: &StepContext<'_>,
        legs: EstablishedLegs,
        stage: Stage,
        request: SideRequest,
        output: &mut StepOutput,
    ) -> Result<(), NoMemory>
        requires { self.old.phase ≡ Over HasEnded }
        ensures call { OnOk result (self.new
            ≡ (on_valid_request_at stage step.now.config.now step.now.snapshot.at legs request.side request.key request.message
            (record self.old { phase = Established legs stage }) output.old).call) }
        ensures output { OnOk result (output.new
            ≡ (on_valid_request_at stage step.now.config.now step.now.snapshot.at legs request.side request.key request.message
            (record self.old { phase = Established legs stage }) output.old).output) }
    {
        if is_method(b"INVITE", request.message.message.start()) {
            return self.receive_invite(step, legs, stage, request, output);
        }
        if is_method(b"BYE", request.message.message.start()) {
            let received = self.receive_bye(step, legs, stage, &request, output);
            drop(request);
            return received;
        }
        if is_method(b"UPDATE", request.message.message.start()) {
            return self.receive_update_at(step, legs, stage, request, output);
        }
        self.receive_other_request(step, Phase::Established(legs, stage), request, output)
    }

    /// Processes a request of a side of an answered call.
    pub fn receive_request_at(
        &mut self,
        step: &StepContext<'_>,
        legs: EstablishedLegs,
        stage: Stage,
        request: SideRequest,
        output: &mut StepOutput,
    ) -> Result<(), NoMemory>
        requires { self.old.phase ≡ Over HasEnded }
        ensures call { OnOk result (self.new
            ≡ (on_request_at stage step.now.config.now step.now.snapshot.at legs request.side request.key request.message
            (record self.old { phase = Established legs stage }) output.old).call) }
        ensures output { OnOk result (output.new
            ≡ (on_request_at stage step.now.config.now step.now.snapshot.at legs request.side request.key request.message
            (record self.old { phase = Established legs stage }) output.old).output) }
    {
        let mut legs = legs;
        match legs.receive(request.side, &request.message, stage.busy(request.side)) {
            Ok(()) => self.receive_valid_request(step, legs, stage, request, output),
            Err(fault) => {
                let refused = self.refuse_invalid(
                    step,
                    request.key,
                    &request.message,
                    fault,
                    output,
                );
                self.skip_request(Phase::Established(legs, stage), request);
                refused
            }
        }
    }

    /// Processes the ACK of the 2xx that waited for it.
    fn receive_due_ack(
        &mut self,
        step: &StepContext<'_>,
        legs: EstablishedLegs,
        stage: Stage,
        side: Side,
        message: &ReceivedMessage,
        output: &mut StepOutput,
    ) -> Result<(), NoMemory>
        requires { self.old.phase ≡ Over HasEnded }
        ensures call { OnOk result (self.new
            ≡ (after_ack_at stage step.now.config.now step.now.snapshot.at legs side message.now
            (record self.old { phase = Established legs stage }) output.old).call) }
        ensures output { OnOk result (output.new
            ≡ (after_ack_at stage step.now.config.now step.now.snapshot.at legs side message.now
            (record self.old { phase = Established legs stage }) output.old).output) }
    {
        match stage {
            Stage::Answered(_waiting, success) => {
                let acked = self.acknowledge_across(step, legs, side, &success, message, output);
                drop(success);
                acked
            }
            Stage::Departing(_waiting, success) => {
                drop(success);
                self.end_departing(step, legs, side, output)
            }
            Stage::Stable => self.stay(Phase::Established(legs, Stage::Stable)),
            Stage::Reinviting(asking, q) => self.stay(Phase::Established(
                legs,
                Stage::Reinviting(asking, q),
            )),
        }
    }

    /// Processes an ACK of a side of an answered call.
    pub fn receive_ack_at(
        &mut self,
        step: &StepContext<'_>,
        legs: EstablishedLegs,
        stage: Stage,
        side: Side,
        message: &ReceivedMessage,
        output: &mut StepOutput,
    ) -> Result<(), NoMemory>
        requires { self.old.phase ≡ Over HasEnded }
        ensures call { OnOk result (self.new
            ≡ (on_ack_at stage step.now.config.now step.now.snapshot.at legs side message.now
            (record self.old { phase = Established legs stage }) output.old).call) }
        ensures output { OnOk result (output.new
            ≡ (on_ack_at stage step.now.config.now step.now.snapshot.at legs side message.now
            (record self.old { phase = Established legs stage }) output.old).output) }
    {
        if stage.is_ack(side, message) {
            return self.receive_due_ack(step, legs, stage, side, message, output);
        }
        self.stay(Phase::Established(legs, stage))
    }

    /// Processes a CANCEL in an answered call, which got its 200.
    pub fn receive_cancel_at(
        &mut self,
        step: &StepContext<'_>,
        legs: EstablishedLegs,
        stage: Stage,
        invite: TKey,
        output: &mut StepOutput,
    ) -> Result<(), NoMemory>
        requires { self.old.phase ≡ Over HasEnded }
        ensures call { OnOk result (self.new
            ≡ (on_cancel_at stage step.now.config.now legs invite
            (record self.old { phase = Established legs stage }) output.old).call) }
        ensures output { OnOk result (output.new
            ≡ (on_cancel_at stage step.now.config.now legs invite
            (record self.old { phase = Established legs stage }) output.old).output) }
    {
        match stage {
            Stage::Answered(waiting, success) => self.stay(Phase::Established(
                legs,
                Stage::Answered(waiting, success),
            )),
            Stage::Departing(waiting, success) => self.stay(Phase::Established(
                legs,
                Stage::Departing(waiting, success),
            )),
            Stage::Stable => self.stay(Phase::Established(legs, Stage::Stable)),
            Stage::Reinviting(asking, q) => {
                if invite.0 == q.key.0 {
                    let relayed_invite = RelayedInvite {
                        side: asking,
                        invite: q,
                    };
                    return self.cancel_across(step, legs, relayed_invite, output);
                }
                self.stay(Phase::Established(legs, Stage::Reinviting(asking, q)))
            }
        }
    }

    /// Processes a response to the INVITE that was relayed.
    pub fn receive_response_at(
        &mut self,
        step: &StepContext<'_>,
        legs: EstablishedLegs,
        stage: Stage,
        key: TKey,
        message: &ReceivedMessage,
        output: &mut StepOutput,
    ) -> Result<(), NoMemory>
        requires { self.old.phase ≡ Over HasEnded }
        ensures call { OnOk result (self.new
            ≡ (on_response_at stage step.now.config.now step.now.snapshot.at legs key message.now
            (record self.old { phase = Established legs stage }) output.old).call) }
        ensures output { OnOk result (output.new
            ≡ (on_response_at stage step.now.config.now step.now.snapshot.at legs key message.now
            (record self.old { phase = Established legs stage }) output.old).output) }
    {
        match stage {
            Stage::Answered(waiting, success) => self.stay(Phase::Established(
                legs,
                Stage::Answered(waiting, success),
            )),
            Stage::Departing(waiting, success) => self.stay(Phase::Established(
                legs,
                Stage::Departing(waiting, success),
            )),
            Stage::Stable => self.stay(Phase::Established(legs, Stage::Stable)),
            Stage::Reinviting(asking, q) => {
                let relayed_invite = RelayedInvite {
                    side: asking,
                    invite: q,
                };
                self.receive_response_across(step, legs, relayed_invite, key, message, output)
            }
        }
    }

    /// This INVITE timed out, and is dropped with the call.
    fn end_by_timeout(
        &mut self,
        step: &StepContext<'_>,
        legs: EstablishedLegs,
        reinvite: Reinvite,
        output: &mut StepOutput,
    ) -> Result<(), NoMemory>
        requires { self.old.phase ≡ Over HasEnded }
        ensures call { OnOk result (self.new
            ≡ (on_timeout_across step.now.config.now step.now.snapshot.at legs reinvite self.old output.old).call) }
        ensures output { OnOk result (output.new
            ≡ (on_timeout_across step.now.config.now step.now.snapshot.at legs reinvite self.old output.old).output) }
    {
        let received = self.receive_timeout_across(step, legs, &reinvite, output);
        drop(reinvite);
        received
    }

    /// The INVITE that was relayed timed out.
    pub fn receive_timeout_at(
        &mut self,
        step: &StepContext<'_>,
        legs: EstablishedLegs,
        stage: Stage,
        output: &mut StepOutput,
    ) -> Result<(), NoMemory>
        requires { self.old.phase ≡ Over HasEnded }
        ensures call { OnOk result (self.new
            ≡ (on_timeout_at stage step.now.config.now step.now.snapshot.at legs
            (record self.old { phase = Established legs stage }) output.old).call) }
        ensures output { OnOk result (output.new
            ≡ (on_timeout_at stage step.now.config.now step.now.snapshot.at legs
            (record self.old { phase = Established legs stage }) output.old).output) }
    {
        match stage {
            Stage::Answered(waiting, success) => self.stay(Phase::Established(
                legs,
                Stage::Answered(waiting, success),
            )),
            Stage::Departing(waiting, success) => self.stay(Phase::Established(
                legs,
                Stage::Departing(waiting, success),
            )),
            Stage::Stable => self.stay(Phase::Established(legs, Stage::Stable)),
            Stage::Reinviting(_asking, q) => self.end_by_timeout(step, legs, q, output),
        }
    }

    /// The ACK for which a 2xx waited did not arrive, or the session expired.
    fn fire_stage_timer(
        &mut self,
        step: &StepContext<'_>,
        legs: EstablishedLegs,
        stage: Stage,
        output: &mut StepOutput,
    ) -> Result<(), NoMemory>
        requires { self.old.phase ≡ Over HasEnded }
        ensures call { OnOk result (self.new
            ≡ (after_timer_at stage step.now.config.now step.now.snapshot.at legs
            (record self.old { phase = Established legs stage }) output.old).call) }
        ensures output { OnOk result (output.new
            ≡ (after_timer_at stage step.now.config.now step.now.snapshot.at legs
            (record self.old { phase = Established legs stage }) output.old).output) }
    {
        match stage {
            Stage::Answered(waiting, success) => {
                drop(success);
                self.end_unacknowledged(step, legs, waiting, output)
            }
            Stage::Departing(waiting, success) => {
                drop(success);
                self.end_departing(step, legs, waiting, output)
            }
            Stage::Stable => self.expire(step, legs, output),
            Stage::Reinviting(asking, q) => {
                let relayed_invite = RelayedInvite {
                    side: asking,
                    invite: q,
                };
                self.expire_reinviting(step, legs, relayed_invite, output)
            }
        }
    }

    /// A deadline of an answered call fired.
    pub fn fire_at(
        &mut self,
        step: &StepContext<'_>,
        legs: EstablishedLegs,
        stage: Stage,
        what: DueWord,
        output: &mut StepOutput,
    ) -> Result<(), NoMemory>
        requires { self.old.phase ≡ Over HasEnded }
        ensures call { OnOk result (self.new
            ≡ (on_due_at stage step.now.config.now step.now.snapshot.at legs what
            (record self.old { phase = Established legs stage }) output.old).call) }
        ensures output { OnOk result (output.new
            ≡ (on_due_at stage step.now.config.now step.now.snapshot.at legs what
            (record self.old { phase = Established legs stage }) output.old).output) }
    {
        if stage.is_due(self.successes, what) {
            return self.fire_stage_timer(step, legs, stage, output);
        }
        self.stay(Phase::Established(legs, stage))
    }
}
