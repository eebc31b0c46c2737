//! Requests of a call that is offered to a target and not answered, and the caller that abandons it.
ghost use Rattle.std.specs.Prelude.{◌≡◌, OnErr, OnOk};
ghost use Rattle.mmtel_output.specs.Sending.{with_due_cancel};
ghost use Rattle.mmtel_call.specs.Sending.{with_status_to, with_status_to_caller};
ghost use Rattle.mmtel_types.specs.declared.causes.Cause.TheVariants.{Ended as HasEnded};
ghost use Rattle.mmtel_call.specs.Calls.{Offered, Over};
ghost use Rattle.mmtel_call.specs.Ringing.{attempt_after_request, end_before_answer, offered_request_check};
ghost use Rattle.mmtel_call.specs.Ringing.{on_caller_cancel, on_cancel, on_other, on_prack_of, on_request, on_valid_request};
ghost use Rattle.mmtel_types.specs.Causes.{status_of};

use crate::calls::{Attempt, Call, OfferedAttempt, Phase};
use crate::context::StepContext;
use crate::legs::receive;
use crate::signals::SideRequest;
use mmtel_base::NoMemory;
use mmtel_compose::ReceivedMessage;
use mmtel_leg::{DialogueFault, Ended, InFlight};
use mmtel_message::is_method;
use mmtel_output::StepOutput;
use mmtel_transaction::TKey;
use mmtel_types::{Cause, Side};

impl Call {
    /// Sends what is due where the call ends before it was answered: the final response for this cause to the caller, and the CANCEL if it is due.
    fn send_early_end(
        &self,
        step: &StepContext<'_>,
        attempt: &Attempt,
        cause: Cause,
        output: &mut StepOutput,
    ) -> Result<(), NoMemory>
        ensures { OnOk result (output.new
            ≡ with_due_cancel step.now.config.now.sip attempt.now.invite
            (with_status_to_caller step.now.config.now self.now (status_of cause) output.old)) }
    {
        self.respond_to_caller(step, cause.status(), output)?;
        output.cancel(step.alloc, step.sip(), &attempt.invite)
    }

    /// The call ends with this cause before it was answered.
    pub fn end_before_answer(
        &mut self,
        step: &StepContext<'_>,
        offered: OfferedAttempt,
        cause: Cause,
        output: &mut StepOutput,
    ) -> Result<(), NoMemory>
        requires { self.old.phase ≡ Over HasEnded }
        ensures call { OnOk result (self.new
            ≡ (end_before_answer cause step.now.config.now step.now.snapshot.at offered self.old output.old).call) }
        ensures output { OnOk result (output.new
            ≡ (end_before_answer cause step.now.config.now step.now.snapshot.at offered self.old output.old).output) }
    {
        let passed = self.send_early_end(step, &offered.attempt, cause, output);
        let OfferedAttempt {
            caller,
            callee,
            attempt,
        } = offered;
        let Attempt {
            number: _,
            service,
            rang: _,
            invite: sent_invite,
        } = attempt;
        drop(service);
        let abandoned = self.leave_attempt(step.alloc, sent_invite);
        let Ended { meter: first } = caller.leave();
        let last = callee.leave();
        let closed = self.close(step.alloc, step.snapshot.at, cause, first, last, output);
        passed?;
        abandoned?;
        closed
    }

    /// A CANCEL of the caller: of the INVITE that opened the call, or of another one, which has its final response.
    pub fn receive_cancel(
        &mut self,
        step: &StepContext<'_>,
        offered: OfferedAttempt,
        key: TKey,
        message: &ReceivedMessage,
        invite: TKey,
        output: &mut StepOutput,
    ) -> Result<(), NoMemory>
        requires { self.old.phase ≡ Over HasEnded }
        ensures call { OnOk result (self.new
            ≡ (on_cancel step.now.config.now step.now.snapshot.at offered key message.now invite
            (record self.old { phase = Offered offered }) output.old).call) }
        ensures output { OnOk result (output.new
            ≡ (on_cancel step.now.config.now step.now.snapshot.at offered key message.now invite
            (record self.old { phase = Offered offered }) output.old).output) }
    {
        let replied = self.respond_with_status(step, key, message, 200, output);
        if invite.0 == self.opening.key.0 {
            let given_up = self.end_before_answer(step, offered, Cause::Cancelled, output);
            replied?;
            return given_up;
        }
        self.put_phase(Phase::Offered(offered));
        replied
    }

    /// A BYE of the caller, which abandons the call.
    fn receive_bye_offered(
        &mut self,
        step: &StepContext<'_>,
        offered: OfferedAttempt,
        request: &SideRequest,
        output: &mut StepOutput,
    ) -> Result<(), NoMemory>
        requires { self.old.phase ≡ Over HasEnded }
        ensures call { OnOk result (self.new
            ≡ (on_caller_cancel step.now.config.now step.now.snapshot.at offered self.old
            (with_status_to step.now.config.now self.old request.now.key request.now.message 200 output.old)).call) }
        ensures output { OnOk result (output.new
            ≡ (on_caller_cancel step.now.config.now step.now.snapshot.at offered self.old
            (with_status_to step.now.config.now self.old request.now.key request.now.message 200 output.old)).output) }
    {
        let replied = self.respond_with_status(step, request.key, &request.message, 200, output);
        let given_up = self.end_before_answer(step, offered, Cause::Cancelled, output);
        replied?;
        given_up
    }

    /// Processes a PRACK of a side.
    fn receive_prack_of(
        &mut self,
        step: &StepContext<'_>,
        offered: OfferedAttempt,
        request: SideRequest,
        output: &mut StepOutput,
    ) -> Result<(), NoMemory>
        requires { self.old.phase ≡ Over HasEnded }
        ensures call { OnOk result (self.new
            ≡ (on_prack_of request.side step.now.config.now offered request.key request.message
            (record self.old { phase = Offered offered }) output.old).call) }
        ensures output { OnOk result (output.new
            ≡ (on_prack_of request.side step.now.config.now offered request.key request.message
            (record self.old { phase = Offered offered }) output.old).output) }
    {
        match request.side {
            Side::Caller => self.receive_prack(step, offered, request, output),
            Side::Callee => self.refuse_unmatched_prack(step, offered, request, output),
        }
    }

    /// Processes a request that a leg accepted, other than the BYE of the caller.
    fn receive_other_offered(
        &mut self,
        step: &StepContext<'_>,
        offered: OfferedAttempt,
        request: SideRequest,
        output: &mut StepOutput,
    ) -> Result<(), NoMemory>
        requires { self.old.phase ≡ Over HasEnded }
        ensures call { OnOk result (self.new
            ≡ (on_other step.now.config.now offered request.side request.key request.message
            (record self.old { phase = Offered offered }) output.old).call) }
        ensures output { OnOk result (output.new
            ≡ (on_other step.now.config.now offered request.side request.key request.message
            (record self.old { phase = Offered offered }) output.old).output) }
    {
        if is_method(b"PRACK", request.message.message.start()) {
            return self.receive_prack_of(step, offered, request, output);
        }
        if is_method(b"UPDATE", request.message.message.start()) {
            return self.receive_update(step, offered, request, output);
        }
        let answered = self.respond_to_unlisted(step, request.key, &request.message, output);
        drop(request);
        self.put_phase(Phase::Offered(offered));
        answered
    }

    /// Processes a request that a leg accepted.
    fn receive_valid_offered(
        &mut self,
        step: &StepContext<'_>,
        offered: OfferedAttempt,
        request: SideRequest,
        output: &mut StepOutput,
    ) -> Result<(), NoMemory>
        requires { self.old.phase ≡ Over HasEnded }
        ensures call { OnOk result (self.new
            ≡ (on_valid_request step.now.config.now step.now.snapshot.at offered request.side request.key
            request.message (record self.old { phase = Offered offered }) output.old).call) }
        ensures output { OnOk result (output.new
            ≡ (on_valid_request step.now.config.now step.now.snapshot.at offered request.side request.key
            request.message (record self.old { phase = Offered offered }) output.old).output) }
    {
        if request.side == Side::Caller && is_method(b"BYE", request.message.message.start()) {
            let received = self.receive_bye_offered(step, offered, &request, output);
            drop(request);
            return received;
        }
        self.receive_other_offered(step, offered, request, output)
    }

    /// Processes a request of a side in its dialog.
    pub fn receive_request_offered(
        &mut self,
        step: &StepContext<'_>,
        offered: OfferedAttempt,
        request: SideRequest,
        output: &mut StepOutput,
    ) -> Result<(), NoMemory>
        requires { self.old.phase ≡ Over HasEnded }
        ensures call { OnOk result (self.new
            ≡ (on_request step.now.config.now step.now.snapshot.at offered request.side request.key
            request.message (record self.old { phase = Offered offered }) output.old).call) }
        ensures output { OnOk result (output.new
            ≡ (on_request step.now.config.now step.now.snapshot.at offered request.side request.key
            request.message (record self.old { phase = Offered offered }) output.old).output) }
    {
        let mut offered = offered;
        match offered.receive(request.side, &request.message) {
            Ok(()) => self.receive_valid_offered(step, offered, request, output),
            Err(fault) => {
                let refused = self.refuse_invalid(
                    step,
                    request.key,
                    &request.message,
                    fault,
                    output,
                );
                drop(request);
                self.put_phase(Phase::Offered(offered));
                refused
            }
        }
    }
}

impl OfferedAttempt {
    /// Records the CSeq number of a request of a side, or refuses it.
    fn receive(&mut self, side: Side, message: &ReceivedMessage) -> Result<(), DialogueFault>
        ensures check { result ≡ offered_request_check self.old side message.now }
        ensures received { OnOk result (self.new ≡ attempt_after_request side message.now self.old) }
        ensures refused { OnErr result (self.new ≡ self.old) }
    {
        match side {
            Side::Caller => receive(&mut self.caller, message, InFlight::Theirs),
            Side::Callee => self.callee.receive(message, InFlight::Own),
        }
    }
}
