//! An attempt after a provisional response, an answer or its end: its INVITE, its times and its end.
ghost use Rattle.std.specs.Prelude.{◌≡◌, ◌∷◌, ◌++◌, [], false, true, None, Some, IfOk, OnErr, OnOk};
ghost use Rattle.mmtel_output.specs.SentInvites.{invite_after_cancel, with_provisional};
ghost use Rattle.mmtel_leg.specs.Dialogues.{with_remote};
ghost use Rattle.mmtel_leg.specs.Legs.{with_dialogue};
ghost use Rattle.mmtel_call_services.specs.Decisions.{no_reply_time_of};
ghost use Rattle.mmtel_call.specs.Sending.{with_relay_to_caller};
ghost use Rattle.mmtel_types.specs.declared.causes.Cause.TheVariants.{Ended as HasEnded};
ghost use Rattle.mmtel_types.specs.declared.sides.Side.TheVariants.{Callee as TheCallee, Caller};
ghost use Rattle.mmtel_leg.specs.Remotes.{remote_of};
ghost use Rattle.mmtel_call.specs.Calls.{Answered, Established, Offered, Over};
ghost use Rattle.mmtel_call.specs.Ringing.{abandoned_invite, attempt_after_provisional, attempt_after_ringing, attempt_with_early, attempt_with_provisional};
ghost use Rattle.mmtel_call.specs.Ringing.{early_remote_of, leg_with_remote, next_success, on_answer, on_plain_provisional, on_provisional};
ghost use Rattle.mmtel_call.specs.Ringing.{on_provisional_by, success_of, to_tag_of, with_ack_timer, with_expiry_timer, with_no_reply_timer};
ghost use Rattle.mmtel_call.specs.Reliable.{with_prack_timer, with_reliable_response};
ghost use Rattle.mmtel_call.specs.Ringing.{with_abandoned};

use crate::calls::{
    AnsweredInvite, Attempt, Call, EstablishedLegs, OfferedAttempt, Phase, Stage, Success,
};
use crate::context::StepContext;
use crate::legs::remote_with_tag;
use mmtel_base::{NoMemory, Text};
use mmtel_call_services::no_reply_time_of;
use mmtel_compose::{ReceivedMessage, number_of};
use mmtel_leg::Remote;
use mmtel_output::{
    AbandonedInvite, SentInvite, StepOutput, invite_after_cancel, push_item, with_early,
};
use mmtel_precedence::rings;
use mmtel_session::expiry_interval_of;
use mmtel_sip_rules::ACK_TIME;
use mmtel_transaction::{DueWord, Emit, TKey};
use mmtel_types::Side;
use std::alloc::Global;

/// An INVITE after a response to it in this client transaction.
pub fn with_provisional(key: TKey, invite: SentInvite) -> SentInvite
    ensures { result ≡ with_provisional key invite }
{
    SentInvite {
        key: Some(key),
        provisional: true,
        ..invite
    }
}

/// An INVITE after a 2xx with this tag.
pub fn new_answered_invite(key: TKey, tag: Text, within: bool, invite: SentInvite) -> AnsweredInvite
    ensures { result ≡ record { invite = with_provisional key invite; tag = tag; in_dialog = within } }
{
    AnsweredInvite {
        invite: with_provisional(key, invite),
        tag,
        in_dialog: within,
    }
}

impl Attempt {
    /// The attempt after a provisional response of this status in this client transaction, which established this early dialog or none.
    fn proceed(self, key: TKey, code: u16, early: Option<Remote>) -> Attempt
        ensures { result ≡ attempt_after_ringing code (attempt_with_early early (attempt_with_provisional key self)) }
    {
        let Attempt {
            number,
            service,
            rang,
            invite: sent_invite,
        } = self;
        Attempt {
            number,
            service,
            rang: rang || rings(code),
            invite: with_early(early, with_provisional(key, sent_invite)),
        }
    }

    /// The same for a 100.
    fn note(self, key: TKey) -> Attempt
        ensures { result ≡ attempt_with_provisional key self }
    {
        let Attempt {
            number,
            service,
            rang,
            invite: sent_invite,
        } = self;
        Attempt {
            number,
            service,
            rang,
            invite: with_provisional(key, sent_invite),
        }
    }
}

impl OfferedAttempt {
    /// The remote side in a provisional response, if that response establishes the early dialog: one copy for its leg, one for its INVITE.
    fn early_remote(
        &self,
        alloc: Global,
        message: &ReceivedMessage,
    ) -> Result<(Option<Remote>, Option<Remote>), NoMemory>
        ensures passed { IfOk result (λ r. r.0 ≡ early_remote_of self.now.callee message.now) }
        ensures kept { IfOk result (λ r. r.1 ≡ early_remote_of self.now.callee message.now) }
    {
        let passed = self.callee.early_remote(alloc, message)?;
        match self.callee.early_remote(alloc, message) {
            Err(error) => {
                drop(passed);
                Err(error)
            }
            Ok(kept) => Ok((passed, kept)),
        }
    }
}

impl Call {
    /// Keeps an abandoned INVITE, which was sent within a confirmed dialog or not.
    pub fn abandon(
        &mut self,
        alloc: Global,
        invite: SentInvite,
        within: bool,
    ) -> Result<(), NoMemory>
        ensures done { OnOk result (self.new
            ≡ with_abandoned (record { invite = invite; in_dialog = within }) self.old) }
        ensures refused { OnErr result (self.new ≡ self.old) }
    {
        push_item(
            alloc,
            &mut self.abandoned,
            AbandonedInvite {
                invite,
                in_dialog: within,
            },
        )
    }

    /// The number of the next 2xx that is relayed to a side.
    fn next_success(&self) -> u64
        ensures { result ≡ next_success self.now }
    {
        self.successes.saturating_add(1)
    }

    /// Arms the deadline until which that 2xx waits for its ACK.
    pub fn await_ack(&self, step: &StepContext<'_>, output: &mut StepOutput) -> Result<(), NoMemory>
        ensures { OnOk result (output.new ≡ with_ack_timer step.now.snapshot.at self.now output.old) }
    {
        output.emit(
            step.alloc,
            Emit::Arm {
                call: self.opening.number,
                what: DueWord::NoAck(self.next_success()),
                at: step.snapshot.at.ms() + ACK_TIME,
            },
        )
    }

    /// Arms the expiry of the session of that 2xx, if sessions have timers and the 2xx has an interval (RFC 4028 §10).
    pub fn await_expiry(
        &self,
        step: &StepContext<'_>,
        message: &ReceivedMessage,
        output: &mut StepOutput,
    ) -> Result<(), NoMemory>
        ensures { OnOk result (output.new
            ≡ with_expiry_timer step.now.config.now step.now.snapshot.at message.now self.now output.old) }
    {
        let setting = step.config;
        if !setting.timer {
            return Ok(());
        }
        match expiry_interval_of(&message.message) {
            None => Ok(()),
            Some(time) => output.emit(
                step.alloc,
                Emit::Arm {
                    call: self.opening.number,
                    what: DueWord::Expired(self.next_success()),
                    at: step.snapshot.at.ms() + time,
                },
            ),
        }
    }

    /// The record that waits for the ACK of this INVITE; its 2xx relays that of the INVITE to the other side.
    pub fn success_of(
        &self,
        alloc: Global,
        request: &ReceivedMessage,
        invite: &SentInvite,
    ) -> Result<Success, NoMemory>
        ensures { IfOk result (λ s. s ≡ success_of self.now request.now invite.now) }
    {
        let cseq = number_of(request);
        let branch = invite.branch.copied(alloc)?;
        Ok(Success {
            number: self.next_success(),
            cseq,
            branch,
        })
    }

    /// Arms the no-reply time, if it starts with this response.
    fn arm(
        &self,
        step: &StepContext<'_>,
        code: u16,
        attempt: &Attempt,
        output: &mut StepOutput,
    ) -> Result<(), NoMemory>
        ensures { OnOk result (output.new ≡ with_no_reply_timer code step.now.snapshot.at attempt.now self.now output.old) }
    {
        if !rings(code) || attempt.rang {
            return Ok(());
        }
        match no_reply_time_of(attempt.service.as_ref()) {
            None => Ok(()),
            Some(time) => output.emit(
                step.alloc,
                Emit::Arm {
                    call: self.opening.number,
                    what: DueWord::NoReply(attempt.number),
                    at: step.snapshot.at.ms() + time,
                },
            ),
        }
    }

    /// Processes a 100 of the target.
    pub fn receive_trying(&mut self, offered: OfferedAttempt, key: TKey)
        requires { self.old.phase ≡ Over HasEnded }
        ensures { self.new ≡ record self.old { phase = Offered (record offered { attempt = attempt_with_provisional key offered.attempt }) } }
    {
        let OfferedAttempt {
            caller,
            callee,
            attempt,
        } = offered;
        self.put_phase(Phase::Offered(OfferedAttempt {
            caller,
            callee,
            attempt: attempt.note(key),
        }));
    }

    /// Relays a provisional response other than 100 that is not reliable, and arms its deadline. Returns its remote side: one copy for the leg, one for the INVITE.
    fn pass_provisional(
        &self,
        step: &StepContext<'_>,
        offered: &OfferedAttempt,
        message: &ReceivedMessage,
        code: u16,
        output: &mut StepOutput,
    ) -> Result<(Option<Remote>, Option<Remote>), NoMemory>
        ensures output { OnOk result (output.new
            ≡ with_no_reply_timer code step.now.snapshot.at offered.now.attempt self.now
            (with_relay_to_caller step.now.config.now self.now offered.now.attempt.service message.now output.old)) }
        ensures passed { IfOk result (λ r. r.0 ≡ early_remote_of offered.now.callee message.now) }
        ensures kept { IfOk result (λ r. r.1 ≡ early_remote_of offered.now.callee message.now) }
    {
        let service = offered.attempt.service.as_ref();
        self.relay_to_caller(step, service, message, output)?;
        self.arm(step, code, &offered.attempt, output)?;
        offered.early_remote(step.alloc, message)
    }

    /// The same for a reliable response, which is relayed under this number.
    fn pass_reliable(
        &self,
        step: &StepContext<'_>,
        offered: &OfferedAttempt,
        own: u32,
        message: &ReceivedMessage,
        code: u16,
        output: &mut StepOutput,
    ) -> Result<(Option<Remote>, Option<Remote>), NoMemory>
        ensures output { OnOk result (output.new
            ≡ with_prack_timer own step.now.snapshot.at self.now (with_no_reply_timer code step.now.snapshot.at offered.now.attempt self.now
            (with_reliable_response step.now.config.now self.now offered.now.attempt.service own message.now output.old))) }
        ensures passed { IfOk result (λ r. r.0 ≡ early_remote_of offered.now.callee message.now) }
        ensures kept { IfOk result (λ r. r.1 ≡ early_remote_of offered.now.callee message.now) }
    {
        let service = offered.attempt.service.as_ref();
        self.relay_reliable(step, service, own, message, output)?;
        self.arm(step, code, &offered.attempt, output)?;
        self.await_prack(step, own, output)?;
        offered.early_remote(step.alloc, message)
    }

    /// The call is offered as before, after a provisional response of this status with this remote side.
    fn proceed(
        &mut self,
        offered: OfferedAttempt,
        key: TKey,
        code: u16,
        remote: Option<Remote>,
        kept: Option<Remote>,
    )
        requires phase { self.old.phase ≡ Over HasEnded }
        requires early { offered.callee.is_early ≡ true → remote ≡ None }
        ensures { self.new
            ≡ record self.old {
              phase = Offered (record offered {
                callee = leg_with_remote remote offered.callee;
                attempt = attempt_after_ringing code (attempt_with_early kept (attempt_with_provisional key offered.attempt));
              });
            } }
    {
        let OfferedAttempt {
            caller,
            callee,
            attempt,
        } = offered;
        self.put_phase(Phase::Offered(OfferedAttempt {
            caller,
            callee: callee.with_remote(remote),
            attempt: attempt.proceed(key, code, kept),
        }));
    }

    /// Processes a provisional response of the target other than 100 that is not reliable.
    fn receive_plain(
        &mut self,
        step: &StepContext<'_>,
        offered: OfferedAttempt,
        key: TKey,
        message: &ReceivedMessage,
        code: u16,
        output: &mut StepOutput,
    ) -> Result<(), NoMemory>
        requires { self.old.phase ≡ Over HasEnded }
        ensures call { OnOk result (self.new
            ≡ (on_plain_provisional step.now.config.now step.now.snapshot.at offered key message.now code self.old output.old).call) }
        ensures output { OnOk result (output.new
            ≡ (on_plain_provisional step.now.config.now step.now.snapshot.at offered key message.now code self.old output.old).output) }
    {
        match self.pass_provisional(step, &offered, message, code, output) {
            Err(error) => {
                offered.give_up(step.snapshot.at);
                Err(error)
            }
            Ok((passed, kept)) => {
                self.proceed(offered, key, code, passed, kept);
                Ok(())
            }
        }
    }

    /// Processes a reliable response of the target that is relayed under this number.
    fn receive_numbered(
        &mut self,
        step: &StepContext<'_>,
        offered: OfferedAttempt,
        key: TKey,
        own: u32,
        message: &ReceivedMessage,
        code: u16,
        output: &mut StepOutput,
    ) -> Result<(), NoMemory>
        requires { self.old.phase ≡ Over HasEnded }
        ensures call { OnOk result (self.new
            ≡ record self.old { phase = Offered (attempt_after_provisional offered key message.now code) }) }
        ensures output { OnOk result (output.new
            ≡ with_prack_timer own step.now.snapshot.at self.old (with_no_reply_timer code step.now.snapshot.at offered.attempt self.old
            (with_reliable_response step.now.config.now self.old offered.attempt.service own message.now output.old))) }
    {
        match self.pass_reliable(step, &offered, own, message, code, output) {
            Err(error) => {
                offered.give_up(step.snapshot.at);
                Err(error)
            }
            Ok((passed, kept)) => {
                self.proceed(offered, key, code, passed, kept);
                Ok(())
            }
        }
    }

    /// Processes a reliable response of the target, which has this RSeq number. One that is not relayed is treated as a 100.
    fn receive_reliable(
        &mut self,
        step: &StepContext<'_>,
        offered: OfferedAttempt,
        key: TKey,
        rseq: u32,
        message: &ReceivedMessage,
        code: u16,
        output: &mut StepOutput,
    ) -> Result<(), NoMemory>
        requires { self.old.phase ≡ Over HasEnded }
        ensures call { OnOk result (self.new
            ≡ (on_provisional_by (Some rseq) step.now.config.now step.now.snapshot.at offered key message.now code self.old
            output.old).call) }
        ensures output { OnOk result (output.new
            ≡ (on_provisional_by (Some rseq) step.now.config.now step.now.snapshot.at offered key message.now code self.old
            output.old).output) }
    {
        match self.own_rseq_for(step.alloc, &offered, message, rseq) {
            Err(error) => {
                offered.give_up(step.snapshot.at);
                Err(error)
            }
            Ok(None) => {
                self.receive_trying(offered, key);
                Ok(())
            }
            Ok(Some(own)) => self.receive_numbered(step, offered, key, own, message, code, output),
        }
    }

    /// Processes a provisional response of the target other than 100.
    pub fn receive_provisional(
        &mut self,
        step: &StepContext<'_>,
        offered: OfferedAttempt,
        key: TKey,
        message: &ReceivedMessage,
        code: u16,
        output: &mut StepOutput,
    ) -> Result<(), NoMemory>
        requires { self.old.phase ≡ Over HasEnded }
        ensures call { OnOk result (self.new
            ≡ (on_provisional step.now.config.now step.now.snapshot.at offered key message.now code self.old output.old).call) }
        ensures output { OnOk result (output.new
            ≡ (on_provisional step.now.config.now step.now.snapshot.at offered key message.now code self.old output.old).output) }
    {
        let opening = &self.opening;
        match opening.reliable_number(step.alloc, step.config, message) {
            Err(error) => {
                offered.give_up(step.snapshot.at);
                Err(error)
            }
            Ok(None) => self.receive_plain(step, offered, key, message, code, output),
            Ok(Some(rseq)) => self.receive_reliable(
                step, offered, key, rseq, message, code, output,
            ),
        }
    }

    /// Relays a 2xx of the target, and arms its deadlines. Returns its remote side and tag, and the record that waits for the caller's ACK.
    fn pass_answer(
        &self,
        step: &StepContext<'_>,
        attempt: &Attempt,
        message: &ReceivedMessage,
        output: &mut StepOutput,
    ) -> Result<(Remote, Text, Success), NoMemory>
        ensures output { OnOk result (output.new
            ≡ with_expiry_timer step.now.config.now step.now.snapshot.at message.now self.now (with_ack_timer step.now.snapshot.at
            self.now (with_relay_to_caller step.now.config.now self.now attempt.now.service message.now output.old))) }
        ensures remote { IfOk result (λ r. r.0 ≡ remote_of TheCallee message.now.parsed.lines) }
        ensures tag { IfOk result (λ r. r.1 ≡ to_tag_of message.now) }
        ensures success { IfOk result (λ r. r.2 ≡ success_of self.now self.now.opening.invite attempt.now.invite) }
    {
        self.relay_to_caller(step, attempt.service.as_ref(), message, output)?;
        self.await_ack(step, output)?;
        self.await_expiry(step, message, output)?;
        let success = self.success_of(step.alloc, &self.opening.invite, &attempt.invite)?;
        match remote_with_tag(step.alloc, message) {
            Err(error) => {
                drop(success);
                Err(error)
            }
            Ok((remote, tag)) => Ok((remote, tag, success)),
        }
    }

    /// Records that the call was answered: it waits for the caller's ACK.
    fn note_answer(
        &mut self,
        step: &StepContext<'_>,
        answered_invite: AnsweredInvite,
    ) -> Result<(), NoMemory>
        ensures done { OnOk result (self.new
            ≡ record self.old {
              answered = Some step.now.snapshot.at;
              successes = next_success self.old;
              answered_invites = self.old.answered_invites ++ answered_invite ∷ [];
            }) }
        ensures phase { self.new.phase ≡ self.old.phase }
    {
        self.successes = self.next_success();
        self.answered = Some(step.snapshot.at);
        push_item(step.alloc, &mut self.answered_invites, answered_invite)
    }

    /// Processes a 2xx of the target.
    pub fn receive_answer(
        &mut self,
        step: &StepContext<'_>,
        offered: OfferedAttempt,
        key: TKey,
        message: &ReceivedMessage,
        output: &mut StepOutput,
    ) -> Result<(), NoMemory>
        requires { self.old.phase ≡ Over HasEnded }
        ensures call { OnOk result (self.new
            ≡ (on_answer step.now.config.now step.now.snapshot.at offered key message.now self.old output.old).call) }
        ensures output { OnOk result (output.new
            ≡ (on_answer step.now.config.now step.now.snapshot.at offered key message.now self.old output.old).output) }
    {
        let passed = self.pass_answer(step, &offered.attempt, message, output);
        match passed {
            Err(error) => {
                offered.give_up(step.snapshot.at);
                Err(error)
            }
            Ok((remote, tag, success)) => self.establish(step, offered, key, remote, tag, success),
        }
    }

    /// The call is answered: its dialog with the target is confirmed, with the remote side in the 2xx.
    fn establish(
        &mut self,
        step: &StepContext<'_>,
        offered: OfferedAttempt,
        key: TKey,
        remote: Remote,
        tag: Text,
        success: Success,
    ) -> Result<(), NoMemory>
        requires { self.old.phase ≡ Over HasEnded }
        ensures { OnOk result (self.new
            ≡ record self.old {
              answered = Some step.now.snapshot.at;
              successes = next_success self.old;
              answered_invites = self.old.answered_invites ++
                  record { invite = with_provisional key offered.attempt.invite; tag = tag; in_dialog = false } ∷ [];
              phase = Established (record {
                caller = offered.caller;
                callee = with_dialogue offered.callee.leg (with_remote offered.callee.leg.dialogue remote);
                service = offered.attempt.service;
              }) (Answered Caller success);
            }) }
    {
        let OfferedAttempt {
            caller,
            callee,
            attempt,
        } = offered;
        let Attempt {
            number: _,
            service,
            rang: _,
            invite: sent_invite,
        } = attempt;
        let noted = self.note_answer(step, new_answered_invite(key, tag, false, sent_invite));
        let pair = EstablishedLegs {
            caller,
            callee: callee.confirm(remote),
            service,
        };
        self.put_phase(Phase::Established(pair, Stage::Answered(Side::Caller, success)));
        noted
    }

    /// Keeps the INVITE of an abandoned attempt among the abandoned INVITEs, as a cancelled one where a CANCEL is due.
    pub fn leave_attempt(&mut self, alloc: Global, invite: SentInvite) -> Result<(), NoMemory>
        ensures done { OnOk result (self.new ≡ with_abandoned (abandoned_invite (invite_after_cancel invite)) self.old) }
        ensures refused { OnErr result (self.new ≡ self.old) }
    {
        self.abandon(alloc, invite_after_cancel(invite), false)
    }
}
