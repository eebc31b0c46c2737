//! How a call is offered to a target.
ghost use Rattle.std.specs.Prelude.{◌≡◌, ◌+◌, false, IfOk, IsOk, OnOk};
ghost use Rattle.std.specs.Option.{option_copied};
ghost use Rattle.mmtel_compose.specs.Attempts.{as_callee};
ghost use Rattle.mmtel_output.specs.Outputs.{after_draw, token, with_emit};
ghost use Rattle.mmtel_output.specs.SentInvites.{sent_invite};
ghost use Rattle.mmtel_output.specs.Sending.{with_attempt_invite};
ghost use Rattle.mmtel_transaction.specs.declared.words.DueWord.TheVariants.{Cap};
ghost use Rattle.mmtel_transaction.specs.declared.words.Emit.TheVariants.{Arm};
ghost use Rattle.mmtel_types.specs.declared.causes.Cause.TheVariants.{Ended as HasEnded};
ghost use Rattle.mmtel_charging.specs.declared.rows.Kind.TheVariants.{Terminating};
ghost use Rattle.mmtel_call_services.specs.CopiedHeaders.{attempt_lines};
ghost use Rattle.mmtel_reliable.specs.Acks as Acks;
ghost use Rattle.mmtel_call.specs.Calls.{Offered, Over};
ghost use Rattle.mmtel_call.specs.Closing.{meter_for};
ghost use Rattle.mmtel_call.specs.AttemptStarts.{attempt_dialog_of, attempt_start, max_attempt_time, next_attempt, with_attempt};

use crate::calls::{Attempt, AttemptLeg, AttemptLegState, Call, OfferedAttempt, Phase};
use crate::closing::meter_for;
use crate::context::StepContext;
use crate::legs::give_up_caller;
use mmtel_base::{List, NoMemory};
use mmtel_call_services::Service;
use mmtel_charging::Kind;
use mmtel_compose::{Destination, as_callee};
use mmtel_leg::{CalleeLeg, CallerLeg, Dialogue, Standing};
use mmtel_message::Line;
use mmtel_output::{AttemptInvite, SentInvite, StepOutput};
use mmtel_transaction::{DueWord, Emit};
use mmtel_types::{Moment, Peer};
use std::alloc::Global;

/// The longest time that an attempt may take, in milliseconds.
const MAX_ATTEMPT_TIME: u64 = 180_000;

/// The value, unless the operation after it failed.
fn unless_failed<T: Drop>(after: Result<(), NoMemory>, value: T) -> Result<T, NoMemory>
    ensures value { IfOk result (λ kept. kept ≡ value) }
    ensures passed { IsOk result → IsOk after }
{
    match after {
        Ok(()) => Ok(value),
        Err(error) => {
            drop(value);
            Err(error)
        }
    }
}

/// An INVITE, and a copy of its dialog.
fn with_its_dialog(alloc: Global, invite: SentInvite) -> Result<(SentInvite, Dialogue), NoMemory>
    ensures invite { IfOk result (λ r. r.0 ≡ invite) }
    ensures dialog { IfOk result (λ r. r.1 ≡ invite.dialogue) }
{
    match invite.dialogue.copied(alloc) {
        Err(error) => {
            drop(invite);
            Err(error)
        }
        Ok(dialogue) => Ok((invite, dialogue)),
    }
}

impl Call {
    /// The number of the next attempt.
    fn next_attempt(&self) -> u64
        ensures { result ≡ next_attempt self.now }
    {
        self.attempts.saturating_add(1)
    }

    /// The header fields of the INVITE that opened the call which are copied to a target behind this peer.
    fn lines_for_target(
        &self,
        step: &StepContext<'_>,
        service: Option<&Service>,
        peer: Peer,
    ) -> Result<List<Line>, NoMemory>
        ensures { IfOk result (λ ls. ls
            ≡ attempt_lines step.now.config.now self.now.opening self.now.diversions (option_copied service.entry)
            peer) }
    {
        let opening = &self.opening;
        opening.attempt_lines(step.alloc, step.config, &self.diversions, service, peer)
    }

    /// Arms the longest time that the next attempt may take.
    fn arm_cap(&self, step: &StepContext<'_>, output: &mut StepOutput) -> Result<(), NoMemory>
        ensures { OnOk result (output.new
            ≡ with_emit (Arm self.now.opening.number (Cap (next_attempt self.now)) (step.now.snapshot.at + max_attempt_time))
            output.old) }
    {
        output.emit(
            step.alloc,
            Emit::Arm {
                call: self.opening.number,
                what: DueWord::Cap(self.next_attempt()),
                at: step.snapshot.at.ms() + MAX_ATTEMPT_TIME,
            },
        )
    }

    /// Sends the INVITE of an attempt with these header fields of the INVITE that opened the call, and arms the longest time that it may take.
    fn send_attempt_with(
        &self,
        step: &StepContext<'_>,
        waiting: bool,
        destination: Destination,
        lines: &List<Line>,
        output: &mut StepOutput,
    ) -> Result<SentInvite, NoMemory>
        ensures done { OnOk result (output.new
            ≡ with_emit (Arm self.now.opening.number (Cap (next_attempt self.now)) (step.now.snapshot.at + max_attempt_time))
            (with_attempt_invite step.now.config.now.sip destination self.now.opening.invite.parsed self.now.opening.restricted lines.now
            waiting output.old)) }
        ensures sent { IfOk result (λ i. i
            ≡ sent_invite (attempt_dialog_of self.now.opening destination output.old) 1 (token (after_draw (after_draw output.old)))) }
    {
        let opening = &self.opening;
        let attempt = AttemptInvite {
            opening: &opening.invite,
            restricted: opening.restricted,
            passed: lines.items(),
            waiting,
        };
        let invitation = output.send_attempt_invite(step.alloc, step.sip(), destination, attempt)?;
        unless_failed(self.arm_cap(step, output), invitation)
    }

    /// Sends the INVITE of an attempt, and arms the longest time that it may take. Returns the INVITE as it was sent.
    fn send_attempt(
        &self,
        step: &StepContext<'_>,
        service: Option<&Service>,
        waiting: bool,
        destination: Destination,
        output: &mut StepOutput,
    ) -> Result<SentInvite, NoMemory>
        ensures done { OnOk result (output.new
            ≡ with_attempt step.now.config.now step.now.snapshot.at (option_copied service.entry) waiting destination
            self.now output.old) }
        ensures sent { IfOk result (λ i. i
            ≡ sent_invite (attempt_dialog_of self.now.opening destination output.old) 1 (token (after_draw (after_draw output.old)))) }
    {
        match self.lines_for_target(step, service, destination.peer) {
            Err(error) => {
                drop(destination);
                Err(error)
            }
            Ok(lines) => {
                let sent = self.send_attempt_with(step, waiting, destination, &lines, output);
                drop(lines);
                sent
            }
        }
    }

    /// The call waits for the response to this INVITE, whose dialog the target's leg keeps.
    fn await_response(
        &mut self,
        at: Moment,
        caller: CallerLeg<Standing>,
        service: Option<Service>,
        invite: SentInvite,
        dialogue: Dialogue,
    )
        requires { self.old.phase ≡ Over HasEnded }
        ensures { self.new ≡ record self.old {
          attempts = next_attempt self.old;
          acks = Acks.next_attempt self.old.acks;
          phase = Offered (record {
            caller = caller;
            callee = record {
              leg = record { dialogue = as_callee dialogue; meter = meter_for Terminating self.old at service };
              is_early = false;
            };
            attempt =
                record { number = next_attempt self.old; service = service; rang = false; invite = invite };
          });
        } }
    {
        let number = self.next_attempt();
        let meter = meter_for(Kind::Terminating, self, at, service.as_ref());
        let leg = CalleeLeg::initial(as_callee(dialogue), meter);
        self.attempts = number;
        self.acks.next_attempt();
        self.put_phase(Phase::Offered(OfferedAttempt {
            caller,
            callee: AttemptLeg {
                leg: AttemptLegState::Asked(leg),
            },
            attempt: Attempt {
                number,
                service,
                rang: false,
                invite,
            },
        }));
    }

    /// Offers the call to a target, as a waiting call or not.
    ///
    /// # Errors
    ///
    /// Out of memory only; the legs are then given up.
    pub fn start_attempt(
        &mut self,
        step: &StepContext<'_>,
        caller: CallerLeg<Standing>,
        service: Option<Service>,
        waiting: bool,
        destination: Destination,
        output: &mut StepOutput,
    ) -> Result<(), NoMemory>
        requires { self.old.phase ≡ Over HasEnded }
        ensures call { OnOk result (self.new
            ≡ (attempt_start step.now.config.now step.now.snapshot.at caller service waiting destination self.old output.old).call) }
        ensures output { OnOk result (output.new
            ≡ (attempt_start step.now.config.now step.now.snapshot.at caller service waiting destination self.old output.old).output) }
    {
        match self.send_attempt_with_dialog(step, service.as_ref(), waiting, destination, output) {
            Ok((sent_invite, dialogue)) => {
                self.await_response(step.snapshot.at, caller, service, sent_invite, dialogue);
                Ok(())
            }
            Err(error) => {
                drop(service);
                give_up_caller(caller, step.snapshot.at);
                Err(error)
            }
        }
    }

    /// The INVITE as it was sent, and a copy of its dialog.
    fn send_attempt_with_dialog(
        &self,
        step: &StepContext<'_>,
        service: Option<&Service>,
        waiting: bool,
        destination: Destination,
        output: &mut StepOutput,
    ) -> Result<(SentInvite, Dialogue), NoMemory>
        ensures done { OnOk result (output.new
            ≡ with_attempt step.now.config.now step.now.snapshot.at (option_copied service.entry) waiting destination
            self.now output.old) }
        ensures sent { IfOk result (λ r. r.0
            ≡ sent_invite (attempt_dialog_of self.now.opening destination output.old) 1 (token (after_draw (after_draw output.old)))) }
        ensures dialog { IfOk result (λ r. r.1 ≡ attempt_dialog_of self.now.opening destination output.old) }
    {
        let invitation = self.send_attempt(step, service, waiting, destination, output)?;
        with_its_dialog(step.alloc, invitation)
    }
}
