//! The step table of a call: to which INVITE a response belongs, and the transition of a call on each signal, by its phase.
ghost use Rattle.std.specs.Prelude.{◌≡◌, if◌then◌else◌, OnOk};
ghost use Rattle.std.specs.Option.{option_copied};
ghost use Rattle.mmtel_compose.specs.ReceivedMessages.{status_of};
ghost use Rattle.mmtel_types.specs.declared.causes.Cause.TheVariants.{Ended as HasEnded};
ghost use Rattle.mmtel_output.specs.ResponseMatching.{awaited_request_branch, timed_out_branch};
ghost use Rattle.mmtel_call_services.specs.CallConfig.{snapshot_of};
ghost use Rattle.mmtel_call.specs.Calls.{Offered, Over};
ghost use Rattle.mmtel_call.specs.RelayedTransactions.{output_after_dismissal, without_in_flight};
ghost use Rattle.mmtel_call.specs.Ringing.{on_response};
ghost use Rattle.mmtel_call.specs.Table.{ack_in, cancel_in, current_invite, due_in, is_branch, leaves, on_response_to};
ghost use Rattle.mmtel_call.specs.Table.{on_timeout_of, request_in, response_in, step, timeout_in, transition};

use crate::calls::{Call, OfferedAttempt, Phase, Stage};
use crate::context::StepContext;
use crate::signals::{SideRequest, Signal};
use mmtel_base::NoMemory;
use mmtel_call_services::{CallConfig, Snapshot};
use mmtel_compose::ReceivedMessage;
use mmtel_output::{StepOutput, awaited_request_branch, timed_out_branch};
use mmtel_transaction::{DueWord, TKey};
use mmtel_types::{Cause, Side};
use std::alloc::Global;
use std::mem;

impl Phase {
    /// Whether the INVITE for which the call waits has this branch.
    pub fn waits_on(&self, branch: &[u8]) -> bool
        ensures { result ≡ is_branch branch.now (current_invite self.now) }
    {
        match self {
            Phase::Offered(x) => x.attempt.invite.branch.bytes() == branch,
            Phase::Established(_, stage) => match stage {
                Stage::Answered(_, _) => false,
                Stage::Departing(_, _) => false,
                Stage::Stable => false,
                Stage::Reinviting(_, q) => q.invite.branch.bytes() == branch,
            },
            Phase::Detached(_) => false,
            Phase::Over(_) => false,
        }
    }
}

impl Call {
    /// Processes a request of a side in its dialog.
    fn receive_request(
        &mut self,
        step: &StepContext<'_>,
        request: SideRequest,
        output: &mut StepOutput,
    ) -> Result<(), NoMemory>
        ensures call { OnOk result (self.new
            ≡ (request_in self.old.phase step.now.config.now step.now.snapshot.at request.side request.key
            request.message self.old output.old).call) }
        ensures output { OnOk result (output.new
            ≡ (request_in self.old.phase step.now.config.now step.now.snapshot.at request.side request.key
            request.message self.old output.old).output) }
    {
        match mem::replace(&mut self.phase, Phase::Over(Cause::Ended)) {
            Phase::Offered(x) => { self.receive_request_offered(step, x, request, output) }
            Phase::Established(x, stage) => {
                self.receive_request_at(step, x, stage, request, output)
            }
            Phase::Detached(detached) => {
                drop(request);
                self.stay(Phase::Detached(detached))
            }
            Phase::Over(cause) => {
                drop(request);
                self.stay(Phase::Over(cause))
            }
        }
    }

    /// Processes an ACK of a side.
    fn receive_ack(
        &mut self,
        step: &StepContext<'_>,
        side: Side,
        message: &ReceivedMessage,
        output: &mut StepOutput,
    ) -> Result<(), NoMemory>
        ensures call { OnOk result (self.new
            ≡ (ack_in self.old.phase step.now.config.now step.now.snapshot.at side message.now self.old output.old).call) }
        ensures output { OnOk result (output.new
            ≡ (ack_in self.old.phase step.now.config.now step.now.snapshot.at side message.now self.old output.old).output) }
    {
        match mem::replace(&mut self.phase, Phase::Over(Cause::Ended)) {
            Phase::Offered(x) => self.stay(Phase::Offered(x)),
            Phase::Established(x, stage) => {
                self.receive_ack_at(step, x, stage, side, message, output)
            }
            Phase::Detached(detached) => self.stay(Phase::Detached(detached)),
            Phase::Over(cause) => self.stay(Phase::Over(cause)),
        }
    }

    /// Processes a CANCEL.
    fn receive_any_cancel(
        &mut self,
        step: &StepContext<'_>,
        key: TKey,
        message: &ReceivedMessage,
        invite: TKey,
        output: &mut StepOutput,
    ) -> Result<(), NoMemory>
        ensures call { OnOk result (self.new
            ≡ (cancel_in self.old.phase step.now.config.now step.now.snapshot.at key message.now invite
            self.old output.old).call) }
        ensures output { OnOk result (output.new
            ≡ (cancel_in self.old.phase step.now.config.now step.now.snapshot.at key message.now invite
            self.old output.old).output) }
    {
        match mem::replace(&mut self.phase, Phase::Over(Cause::Ended)) {
            Phase::Offered(x) => { self.receive_cancel(step, x, key, message, invite, output) }
            Phase::Established(x, stage) => {
                let replied = self.respond_with_status(step, key, message, 200, output);
                let received = self.receive_cancel_at(step, x, stage, invite, output);
                replied?;
                received
            }
            Phase::Detached(detached) => self.stay(Phase::Detached(detached)),
            Phase::Over(cause) => self.stay(Phase::Over(cause)),
        }
    }

    /// Processes a response of the target to which the call is offered.
    fn receive_response_offered(
        &mut self,
        step: &StepContext<'_>,
        offered: OfferedAttempt,
        key: TKey,
        message: &ReceivedMessage,
        output: &mut StepOutput,
    ) -> Result<(), NoMemory>
        requires { self.old.phase ≡ Over HasEnded }
        ensures call { OnOk result (self.new
            ≡ (on_response step.now.config.now (snapshot_of step.now.snapshot) offered key message.now (status_of message.now.parsed.start)
            (record self.old { phase = Offered offered }) output.old).call) }
        ensures output { OnOk result (output.new
            ≡ (on_response step.now.config.now (snapshot_of step.now.snapshot) offered key message.now (status_of message.now.parsed.start)
            (record self.old { phase = Offered offered }) output.old).output) }
    {
        self.receive_response(step, offered, key, message, output)
    }

    /// Processes a response to the INVITE for which the call waits.
    fn receive_response_of(
        &mut self,
        step: &StepContext<'_>,
        key: TKey,
        message: &ReceivedMessage,
        output: &mut StepOutput,
    ) -> Result<(), NoMemory>
        ensures call { OnOk result (self.new
            ≡ (response_in self.old.phase step.now.config.now (snapshot_of step.now.snapshot) key message.now
            self.old output.old).call) }
        ensures output { OnOk result (output.new
            ≡ (response_in self.old.phase step.now.config.now (snapshot_of step.now.snapshot) key message.now
            self.old output.old).output) }
    {
        match mem::replace(&mut self.phase, Phase::Over(Cause::Ended)) {
            Phase::Offered(x) => { self.receive_response_offered(step, x, key, message, output) }
            Phase::Established(x, stage) => {
                self.receive_response_at(step, x, stage, key, message, output)
            }
            Phase::Detached(detached) => self.stay(Phase::Detached(detached)),
            Phase::Over(cause) => self.stay(Phase::Over(cause)),
        }
    }

    /// The INVITE for which the call waits timed out.
    fn receive_timeout_of(
        &mut self,
        step: &StepContext<'_>,
        output: &mut StepOutput,
    ) -> Result<(), NoMemory>
        ensures call { OnOk result (self.new
            ≡ (timeout_in self.old.phase step.now.config.now (snapshot_of step.now.snapshot) self.old output.old).call) }
        ensures output { OnOk result (output.new
            ≡ (timeout_in self.old.phase step.now.config.now (snapshot_of step.now.snapshot) self.old output.old).output) }
    {
        match mem::replace(&mut self.phase, Phase::Over(Cause::Ended)) {
            Phase::Offered(x) => self.receive_timeout(step, x, output),
            Phase::Established(x, stage) => { self.receive_timeout_at(step, x, stage, output) }
            Phase::Detached(detached) => self.stay(Phase::Detached(detached)),
            Phase::Over(cause) => self.stay(Phase::Over(cause)),
        }
    }

    /// A deadline of the call fired.
    fn receive_due(
        &mut self,
        step: &StepContext<'_>,
        what: DueWord,
        output: &mut StepOutput,
    ) -> Result<(), NoMemory>
        ensures call { OnOk result (self.new
            ≡ (due_in self.old.phase step.now.config.now (snapshot_of step.now.snapshot) what self.old output.old).call) }
        ensures output { OnOk result (output.new
            ≡ (due_in self.old.phase step.now.config.now (snapshot_of step.now.snapshot) what self.old output.old).output) }
    {
        match mem::replace(&mut self.phase, Phase::Over(Cause::Ended)) {
            Phase::Offered(x) => self.fire_offered(step, x, what, output),
            Phase::Established(x, stage) => { self.fire_at(step, x, stage, what, output) }
            Phase::Detached(detached) => self.stay(Phase::Detached(detached)),
            Phase::Over(cause) => self.stay(Phase::Over(cause)),
        }
    }

    /// Processes a response, by the branch of the INVITE to which it belongs.
    fn receive_response_to(
        &mut self,
        step: &StepContext<'_>,
        branch: Option<&[u8]>,
        key: TKey,
        message: &ReceivedMessage,
        output: &mut StepOutput,
    ) -> Result<(), NoMemory>
        ensures call { OnOk result (self.new
            ≡ (on_response_to (option_copied branch.entry) step.now.config.now (snapshot_of step.now.snapshot) key message.now
            self.old output.old).call) }
        ensures output { OnOk result (output.new
            ≡ (on_response_to (option_copied branch.entry) step.now.config.now (snapshot_of step.now.snapshot) key message.now
            self.old output.old).output) }
    {
        let Some(branch) = branch else {
            return Ok(());
        };
        if self.phase.waits_on(branch) {
            return self.receive_response_of(step, key, message, output);
        }
        self.receive_other(step, key, message, branch, output)
    }

    /// Processes a timeout, by the branch of the INVITE that timed out.
    fn receive_timeout_to(
        &mut self,
        step: &StepContext<'_>,
        branch: Option<&[u8]>,
        output: &mut StepOutput,
    ) -> Result<(), NoMemory>
        ensures call { OnOk result (self.new
            ≡ (on_timeout_of (option_copied branch.entry) step.now.config.now (snapshot_of step.now.snapshot)
            self.old output.old).call) }
        ensures output { OnOk result (output.new
            ≡ (on_timeout_of (option_copied branch.entry) step.now.config.now (snapshot_of step.now.snapshot)
            self.old output.old).output) }
    {
        let Some(branch) = branch else {
            return Ok(());
        };
        if self.phase.waits_on(branch) {
            return self.receive_timeout_of(step, output);
        }
        self.receive_timeout_other(step, branch, output)
    }

    /// Processes a response.
    fn receive_any_response(
        &mut self,
        step: &StepContext<'_>,
        key: TKey,
        message: &ReceivedMessage,
        output: &mut StepOutput,
    ) -> Result<(), NoMemory>
        ensures call { OnOk result (self.new
            ≡ (on_response_to (awaited_request_branch message.now) step.now.config.now (snapshot_of step.now.snapshot) key message.now
            self.old output.old).call) }
        ensures output { OnOk result (output.new
            ≡ (on_response_to (awaited_request_branch message.now) step.now.config.now (snapshot_of step.now.snapshot) key message.now
            self.old output.old).output) }
    {
        match awaited_request_branch(step.alloc, message)? {
            None => Ok(()),
            Some(branch) => {
                let answered = Some(branch.bytes());
                let received = self.receive_response_to(step, answered, key, message, output);
                drop(branch);
                received
            }
        }
    }

    /// Takes a step on a signal, by the step table.
    ///
    /// # Errors
    ///
    /// Out of memory only; nothing is claimed of the call and the output then, except that the call can be given up.
    #[tactic(auto, unfolding(crate::specs::Table::step))]
    pub fn step(
        &mut self,
        alloc: Global,
        config: &CallConfig<'_>,
        snapshot: &Snapshot<'_>,
        signal: Signal,
        output: &mut StepOutput,
    ) -> Result<(), NoMemory>
        ensures call { OnOk result (self.new
            ≡ (step config.now (snapshot_of snapshot.now) signal self.old output.old).call) }
        ensures output { OnOk result (output.new
            ≡ (step config.now (snapshot_of snapshot.now) signal self.old output.old).output) }
    {
        match self.dismiss_before(alloc, config, &signal, output) {
            Err(error) => {
                drop(signal);
                Err(error)
            }
            Ok(()) => self.receive_signal(
                &StepContext::new(alloc, config, snapshot),
                signal,
                output,
            ),
        }
    }

    /// Requests in flight get their final responses, where the step ends the attempt without a 2xx, or ends the call.
    fn dismiss_before(
        &mut self,
        alloc: Global,
        config: &CallConfig<'_>,
        signal: &Signal,
        output: &mut StepOutput,
    ) -> Result<(), NoMemory>
        ensures call { OnOk result (self.new
            ≡ (if leaves signal.now self.old then without_in_flight self.old else self.old)) }
        ensures output { OnOk result (output.new
            ≡ (if leaves signal.now self.old then output_after_dismissal config.now self.old output.old else output.old)) }
    {
        if self.leaves(alloc, signal)? {
            return self.dismiss(alloc, config, output);
        }
        Ok(())
    }

    /// The transition that the step table has for a signal.
    #[tactic(auto, unfolding(crate::specs::Table::transition))]
    fn receive_signal(
        &mut self,
        step: &StepContext<'_>,
        signal: Signal,
        output: &mut StepOutput,
    ) -> Result<(), NoMemory>
        ensures call { OnOk result (self.new
            ≡ (transition step.now.config.now (snapshot_of step.now.snapshot) signal self.old output.old).call) }
        ensures output { OnOk result (output.new
            ≡ (transition step.now.config.now (snapshot_of step.now.snapshot) signal self.old output.old).output) }
    {
        match signal {
            Signal::Request { side, key, request } => {
                let hearing = request;
                self.receive_request(
                    step,
                    SideRequest {
                        side,
                        key,
                        message: hearing,
                    },
                    output,
                )
            }
            Signal::Ack { side, ack } => {
                let received = self.receive_ack(step, side, &ack, output);
                drop(ack);
                received
            }
            Signal::Cancel {
                key,
                cancel,
                invite,
            } => {
                let received = self.receive_any_cancel(step, key, &cancel, invite, output);
                drop(cancel);
                received
            }
            Signal::Answer { key, response } => {
                let received = self.receive_any_response(step, key, &response, output);
                drop(response);
                received
            }
            Signal::Silent { branch, method } => {
                let invite = timed_out_branch(branch.bytes(), method.bytes());
                let received = self.receive_timeout_to(step, invite, output);
                drop(branch);
                drop(method);
                received
            }
            Signal::Due { what } => self.receive_due(step, what, output),
            Signal::Ended { key } => {
                self.drop_ended(key);
                Ok(())
            }
        }
    }
}
