//! Responses, timeouts and deadlines of a call that is offered to a target and not answered.
ghost use Rattle.std.specs.Prelude.{◌≡◌, ◌≤◌, None, Some, OnOk};
ghost use Rattle.std.specs.Option.{option_copied};
ghost use Rattle.mmtel_output.specs.SentInvites.{invite_after_cancel};
ghost use Rattle.mmtel_output.specs.Sending.{with_due_cancel};
ghost use Rattle.mmtel_compose.specs.ReceivedMessages.{status_of};
ghost use Rattle.mmtel_call_services.specs.Decisions.{decision_after};
ghost use Rattle.mmtel_call_services.specs.CallConfig.{snapshot_of};
ghost use Rattle.mmtel_call.specs.Closing.{with_past};
ghost use Rattle.mmtel_precedence.specs.Attempts.{end_by_final};
ghost use Rattle.mmtel_precedence.specs.Views.{attempt_end_view};
ghost use Rattle.mmtel_types.specs.declared.causes.Cause.TheVariants.{Ended as HasEnded};
ghost use Rattle.mmtel_call.specs.Calls.{Offered, Over};
ghost use Rattle.mmtel_call.specs.Diverting.{after_attempt, is_diverted, on_end};
ghost use Rattle.mmtel_call.specs.Ringing.{abandoned_invite, on_attempt_timeout, on_due, on_failure, on_response, on_timeout, with_abandoned};

use crate::calls::{Attempt, AttemptLeg, Call, OfferedAttempt, Phase};
use crate::context::StepContext;
use crate::legs::give_up_caller;
use mmtel_base::NoMemory;
use mmtel_call_services::{Service, redirect_of};
use mmtel_compose::{ReceivedMessage, status_of};
use mmtel_leg::{CallerLeg, Standing};
use mmtel_lex::Uri;
use mmtel_output::{SentInvite, StepOutput};
use mmtel_precedence::{AttemptEnd, AttemptTimeout, end_by_final, end_by_timeout};
use mmtel_transaction::{DueWord, TKey};
use mmtel_types::Cause;

impl Call {
    /// An attempt of this account ended in this way, and its leg ends with it; a final response that was received may be relayed.
    fn go_on_from(
        &mut self,
        step: &StepContext<'_>,
        caller: CallerLeg<Standing>,
        callee: AttemptLeg,
        service: Option<&Service>,
        end: &AttemptEnd<'_>,
        response: Option<&ReceivedMessage>,
        output: &mut StepOutput,
    ) -> Result<(), NoMemory>
        requires { self.old.phase ≡ Over HasEnded }
        ensures call { OnOk result (self.new
            ≡ (on_end step.now.config.now (snapshot_of step.now.snapshot) caller (option_copied service.entry)
            (option_copied response.entry)
            (decision_after self.old.opening step.now.snapshot.at (is_diverted self.old) (option_copied service.entry)
            (attempt_end_view end.entry.now)) (with_past callee.leg.meter self.old) output.old).call) }
        ensures output { OnOk result (output.new
            ≡ (on_end step.now.config.now (snapshot_of step.now.snapshot) caller (option_copied service.entry)
            (option_copied response.entry)
            (decision_after self.old.opening step.now.snapshot.at (is_diverted self.old) (option_copied service.entry)
            (attempt_end_view end.entry.now)) (with_past callee.leg.meter self.old) output.old).output) }
    {
        let kept = self.keep_meter(step, callee.leave());
        match kept {
            Err(error) => {
                give_up_caller(caller, step.snapshot.at);
                Err(error)
            }
            Ok(()) => self.go_on(step, caller, service, end, response, output),
        }
    }

    /// The attempt ended in this way; a final response that was received may be relayed.
    fn go_on_after(
        &mut self,
        step: &StepContext<'_>,
        offered: OfferedAttempt,
        end: &AttemptEnd<'_>,
        response: Option<&ReceivedMessage>,
        output: &mut StepOutput,
    ) -> Result<(), NoMemory>
        requires { self.old.phase ≡ Over HasEnded }
        ensures call { OnOk result (self.new
            ≡ (after_attempt step.now.config.now (snapshot_of step.now.snapshot) offered (attempt_end_view end.entry.now)
            (option_copied response.entry) self.old output.old).call) }
        ensures output { OnOk result (output.new
            ≡ (after_attempt step.now.config.now (snapshot_of step.now.snapshot) offered (attempt_end_view end.entry.now)
            (option_copied response.entry) self.old output.old).output) }
    {
        let OfferedAttempt {
            caller,
            callee,
            attempt,
        } = offered;
        let service = attempt.service.as_ref();
        let gone = self.go_on_from(step, caller, callee, service, end, response, output);
        drop(attempt);
        gone
    }

    /// The same, where the call before the step is in its phase `Offered`.
    fn go_on_offered(
        &mut self,
        step: &StepContext<'_>,
        offered: OfferedAttempt,
        end: &AttemptEnd<'_>,
        output: &mut StepOutput,
    ) -> Result<(), NoMemory>
        requires { self.old.phase ≡ Over HasEnded }
        ensures call { OnOk result (self.new
            ≡ (after_attempt step.now.config.now (snapshot_of step.now.snapshot) offered (attempt_end_view end.entry.now) None
            (record self.old { phase = Offered offered }) output.old).call) }
        ensures output { OnOk result (output.new
            ≡ (after_attempt step.now.config.now (snapshot_of step.now.snapshot) offered (attempt_end_view end.entry.now) None
            (record self.old { phase = Offered offered }) output.old).output) }
    {
        self.go_on_after(step, offered, end, None, output)
    }

    /// The attempt ended by a final response of this status, which was received and may be relayed.
    fn go_on_from_final(
        &mut self,
        step: &StepContext<'_>,
        offered: OfferedAttempt,
        redirect: Option<&Uri>,
        message: &ReceivedMessage,
        code: u16,
        output: &mut StepOutput,
    ) -> Result<(), NoMemory>
        requires phase { self.old.phase ≡ Over HasEnded }
        requires code { 300 ≤ code }
        ensures call { OnOk result (self.new
            ≡ (after_attempt step.now.config.now (snapshot_of step.now.snapshot) offered (end_by_final code
            (option_copied redirect.entry) offered.attempt.rang) (Some message.now) self.old output.old).call) }
        ensures output { OnOk result (output.new
            ≡ (after_attempt step.now.config.now (snapshot_of step.now.snapshot) offered (end_by_final code
            (option_copied redirect.entry) offered.attempt.rang) (Some message.now) self.old output.old).output) }
    {
        let how = end_by_final(code, redirect, offered.attempt.rang);
        self.go_on_after(step, offered, &how, Some(message), output)
    }

    /// The same, where the response redirects to this target or to none.
    fn go_on_redirected(
        &mut self,
        step: &StepContext<'_>,
        offered: OfferedAttempt,
        redirect: Option<Uri>,
        message: &ReceivedMessage,
        code: u16,
        output: &mut StepOutput,
    ) -> Result<(), NoMemory>
        requires phase { self.old.phase ≡ Over HasEnded }
        requires code { 300 ≤ code }
        ensures call { OnOk result (self.new
            ≡ (after_attempt step.now.config.now (snapshot_of step.now.snapshot) offered (end_by_final code redirect offered.attempt.rang)
            (Some message.now) self.old output.old).call) }
        ensures output { OnOk result (output.new
            ≡ (after_attempt step.now.config.now (snapshot_of step.now.snapshot) offered (end_by_final code redirect offered.attempt.rang)
            (Some message.now) self.old output.old).output) }
    {
        let target = redirect.as_ref();
        let gone = self.go_on_from_final(step, offered, target, message, code, output);
        drop(redirect);
        gone
    }

    /// Processes a final response from 300 of the target.
    fn receive_failure(
        &mut self,
        step: &StepContext<'_>,
        offered: OfferedAttempt,
        key: TKey,
        message: &ReceivedMessage,
        code: u16,
        output: &mut StepOutput,
    ) -> Result<(), NoMemory>
        requires phase { self.old.phase ≡ Over HasEnded }
        requires code { 300 ≤ code }
        ensures call { OnOk result (self.new
            ≡ (on_failure step.now.config.now (snapshot_of step.now.snapshot) offered key message.now code self.old output.old).call) }
        ensures output { OnOk result (output.new
            ≡ (on_failure step.now.config.now (snapshot_of step.now.snapshot) offered key message.now code self.old output.old).output) }
    {
        let acked = output.acknowledge_final(
            step.alloc,
            step.sip(),
            key,
            &offered.attempt.invite,
            message,
        );
        let redirect = redirect_of(step.alloc, message);
        match acked {
            Err(error) => {
                drop(redirect);
                offered.give_up(step.snapshot.at);
                Err(error)
            }
            Ok(()) => match redirect {
                Err(error) => {
                    offered.give_up(step.snapshot.at);
                    Err(error)
                }
                Ok(redirect) => {
                    self.go_on_redirected(step, offered, redirect, message, code, output)
                }
            },
        }
    }

    /// Processes a response of the target.
    pub fn receive_response(
        &mut self,
        step: &StepContext<'_>,
        offered: OfferedAttempt,
        key: TKey,
        message: &ReceivedMessage,
        output: &mut StepOutput,
    ) -> Result<(), NoMemory>
        requires { self.old.phase ≡ Over HasEnded }
        ensures call { OnOk result (self.new
            ≡ (on_response step.now.config.now (snapshot_of step.now.snapshot) offered key message.now
            (status_of message.now.parsed.start) self.old output.old).call) }
        ensures output { OnOk result (output.new
            ≡ (on_response step.now.config.now (snapshot_of step.now.snapshot) offered key message.now
            (status_of message.now.parsed.start) self.old output.old).output) }
    {
        let code = status_of(message.message.start());
        if code < 101 {
            self.receive_trying(offered, key);
            return Ok(());
        }
        if code < 200 {
            return self.receive_provisional(step, offered, key, message, code, output);
        }
        if code < 300 {
            return self.receive_answer(step, offered, key, message, output);
        }
        self.receive_failure(step, offered, key, message, code, output)
    }

    /// The INVITE to the target timed out without any response.
    pub fn receive_timeout(
        &mut self,
        step: &StepContext<'_>,
        offered: OfferedAttempt,
        output: &mut StepOutput,
    ) -> Result<(), NoMemory>
        requires { self.old.phase ≡ Over HasEnded }
        ensures call { OnOk result (self.new
            ≡ (on_timeout step.now.config.now (snapshot_of step.now.snapshot) offered
            (record self.old { phase = Offered offered }) output.old).call) }
        ensures output { OnOk result (output.new
            ≡ (on_timeout step.now.config.now (snapshot_of step.now.snapshot) offered
            (record self.old { phase = Offered offered }) output.old).output) }
    {
        if offered.attempt.rang {
            self.put_phase(Phase::Offered(offered));
            return Ok(());
        }
        let how = end_by_timeout(AttemptTimeout::TransactionTimeout, offered.attempt.rang);
        self.go_on_offered(step, offered, &how, output)
    }

    /// An attempt of this account, which ended in this way, and its INVITE are abandoned: CANCEL to the target if that is due, and the call continues.
    fn leave_for_next(
        &mut self,
        step: &StepContext<'_>,
        caller: CallerLeg<Standing>,
        callee: AttemptLeg,
        service: Option<&Service>,
        invite: SentInvite,
        end: &AttemptEnd<'_>,
        output: &mut StepOutput,
    ) -> Result<(), NoMemory>
        requires { self.old.phase ≡ Over HasEnded }
        ensures call { OnOk result (self.new
            ≡ (on_end step.now.config.now (snapshot_of step.now.snapshot) caller (option_copied service.entry) None
            (decision_after self.old.opening step.now.snapshot.at (is_diverted self.old) (option_copied service.entry)
            (attempt_end_view end.entry.now))
            (with_past callee.leg.meter (with_abandoned (abandoned_invite (invite_after_cancel invite)) self.old))
            (with_due_cancel step.now.config.now.sip invite output.old)).call) }
        ensures output { OnOk result (output.new
            ≡ (on_end step.now.config.now (snapshot_of step.now.snapshot) caller (option_copied service.entry) None
            (decision_after self.old.opening step.now.snapshot.at (is_diverted self.old) (option_copied service.entry)
            (attempt_end_view end.entry.now))
            (with_past callee.leg.meter (with_abandoned (abandoned_invite (invite_after_cancel invite)) self.old))
            (with_due_cancel step.now.config.now.sip invite output.old)).output) }
    {
        let cancelled = output.cancel(step.alloc, step.sip(), &invite);
        let abandoned = self.leave_attempt(step.alloc, invite);
        let gone = self.go_on_from(step, caller, callee, service, end, None, output);
        cancelled?;
        abandoned?;
        gone
    }

    /// A deadline of an attempt fired: CANCEL to the target, and the call continues.
    fn time_out(
        &mut self,
        step: &StepContext<'_>,
        offered: OfferedAttempt,
        end: &AttemptEnd<'_>,
        output: &mut StepOutput,
    ) -> Result<(), NoMemory>
        requires { self.old.phase ≡ Over HasEnded }
        ensures call { OnOk result (self.new
            ≡ (on_attempt_timeout step.now.config.now (snapshot_of step.now.snapshot) offered
            (attempt_end_view end.entry.now) self.old output.old).call) }
        ensures output { OnOk result (output.new
            ≡ (on_attempt_timeout step.now.config.now (snapshot_of step.now.snapshot) offered
            (attempt_end_view end.entry.now) self.old output.old).output) }
    {
        let OfferedAttempt {
            caller,
            callee,
            attempt,
        } = offered;
        let Attempt {
            number: _,
            service,
            rang: _,
            invite: sent_invite,
        } = attempt;
        let reached = service.as_ref();
        let gone = self.leave_for_next(step, caller, callee, reached, sent_invite, end, output);
        drop(service);
        gone
    }

    /// The same, where the call before the step is in its phase `Offered`.
    fn time_out_offered(
        &mut self,
        step: &StepContext<'_>,
        offered: OfferedAttempt,
        end: &AttemptEnd<'_>,
        output: &mut StepOutput,
    ) -> Result<(), NoMemory>
        requires { self.old.phase ≡ Over HasEnded }
        ensures call { OnOk result (self.new
            ≡ (on_attempt_timeout step.now.config.now (snapshot_of step.now.snapshot) offered (attempt_end_view end.entry.now)
            (record self.old { phase = Offered offered }) output.old).call) }
        ensures output { OnOk result (output.new
            ≡ (on_attempt_timeout step.now.config.now (snapshot_of step.now.snapshot) offered (attempt_end_view end.entry.now)
            (record self.old { phase = Offered offered }) output.old).output) }
    {
        self.time_out(step, offered, end, output)
    }

    /// A deadline of the call fired; it is that of this attempt, or has no effect.
    pub fn fire_offered(
        &mut self,
        step: &StepContext<'_>,
        offered: OfferedAttempt,
        what: DueWord,
        output: &mut StepOutput,
    ) -> Result<(), NoMemory>
        requires { self.old.phase ≡ Over HasEnded }
        ensures call { OnOk result (self.new
            ≡ (on_due step.now.config.now (snapshot_of step.now.snapshot) offered what
            (record self.old { phase = Offered offered }) output.old).call) }
        ensures output { OnOk result (output.new
            ≡ (on_due step.now.config.now (snapshot_of step.now.snapshot) offered what
            (record self.old { phase = Offered offered }) output.old).output) }
    {
        match what {
            DueWord::NoReply(number) if number == offered.attempt.number => {
                let how = end_by_timeout(AttemptTimeout::NoReplyTime, offered.attempt.rang);
                self.time_out_offered(step, offered, &how, output)
            }
            DueWord::Cap(number) if number == offered.attempt.number => {
                let how = end_by_timeout(AttemptTimeout::LongestTime, offered.attempt.rang);
                self.time_out_offered(step, offered, &how, output)
            }
            DueWord::NoPrack(own) if self.acks.is_waiting(own) => {
                self.end_before_answer(step, offered, Cause::Unacknowledged, output)
            }
            DueWord::NoReply(_)
            | DueWord::NoPrack(_)
            | DueWord::Cap(_)
            | DueWord::NoAck(_)
            | DueWord::Expired(_) => {
                self.put_phase(Phase::Offered(offered));
                Ok(())
            }
        }
    }
}
