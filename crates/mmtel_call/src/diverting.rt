//! How a call continues: it reaches one target after another until it is offered to one, or refused.
ghost use Rattle.std.specs.Prelude.{◌≡◌, ◌-◌, ◌<◌, IfOk, None, Some, OnOk};
ghost use Rattle.std.specs.Option.{option_copied};
ghost use Rattle.mmtel_lex.specs.Grammar.{uri_text};
ghost use Rattle.mmtel_precedence.specs.Views.{attempt_end_view, due_diversion_view, next_step_view};
ghost use Rattle.mmtel_types.specs.declared.causes.Cause.TheVariants.{Ended as HasEnded};
ghost use Rattle.mmtel_call_services.specs.Decisions.{decision_after, decision_at, diversion_target, peer_for, service_at};
ghost use Rattle.mmtel_call_services.specs.CallConfig.{snapshot_of};
ghost use Rattle.mmtel_call.specs.Calls.{Over};
ghost use Rattle.mmtel_call.specs.Diverting.{at_served_target, at_target, call_after_diversion, call_refusal, diversion_refusal, diversions_after};
ghost use Rattle.mmtel_call.specs.Diverting.{divert, is_diverted, on_end, relayed_refusal, with_notification_of, with_unoffered_meter};

use crate::calls::Call;
use crate::closing::meter_for;
use crate::context::StepContext;
use crate::legs::give_up_caller;
use mmtel_base::{NoMemory, Text};
use mmtel_call_services::{Service, is_relayed_final};
use mmtel_charging::Kind;
use mmtel_compose::{ReceivedMessage, status_of};
use mmtel_leg::{CallerLeg, Ended, Standing, request_uri};
use mmtel_lex::print_uri;
use mmtel_output::StepOutput;
use mmtel_precedence::{AttemptEnd, DueDiversion, NextStep, StepAfterAttempt};
use mmtel_served_user::Target;
use mmtel_types::{Cause, Peer};
use std::alloc::Global;

impl Call {
    /// Whether the call was diverted before: elsewhere before it came here, or by this server.
    fn is_diverted(&self) -> bool
        ensures { result ≡ is_diverted self.now }
    {
        self.diversions.count() > 0
    }

    /// Refuses the call by a final response of the server's own, which ends it.
    pub fn refuse(
        &mut self,
        step: &StepContext<'_>,
        caller: CallerLeg<Standing>,
        cause: Cause,
        output: &mut StepOutput,
    ) -> Result<(), NoMemory>
        requires { self.old.phase ≡ Over HasEnded }
        ensures call { OnOk result (self.new
            ≡ (call_refusal step.now.config.now step.now.snapshot.at caller cause self.old output.old).call) }
        ensures output { OnOk result (output.new
            ≡ (call_refusal step.now.config.now step.now.snapshot.at caller cause self.old output.old).output) }
    {
        let responded = self.respond_to_caller(step, cause.status(), output);
        let Ended { meter } = caller.leave();
        let closed = self.close(step.alloc, step.snapshot.at, cause, meter, None, output);
        responded?;
        closed
    }

    /// Relays a final response of the target to the caller, which ends the call; where the cause does not relay it, the response is the server's own.
    fn relay_final(
        &mut self,
        step: &StepContext<'_>,
        caller: CallerLeg<Standing>,
        service: Option<&Service>,
        response: &ReceivedMessage,
        cause: Cause,
        output: &mut StepOutput,
    ) -> Result<(), NoMemory>
        requires { self.old.phase ≡ Over HasEnded }
        ensures call { OnOk result (self.new
            ≡ (relayed_refusal step.now.config.now step.now.snapshot.at caller (option_copied service.entry)
            (Some response.now) cause self.old output.old).call) }
        ensures output { OnOk result (output.new
            ≡ (relayed_refusal step.now.config.now step.now.snapshot.at caller (option_copied service.entry)
            (Some response.now) cause self.old output.old).output) }
    {
        if !is_relayed_final(cause, status_of(response.message.start())) {
            return self.refuse(step, caller, cause, output);
        }
        let relayed = self.relay_to_caller(step, service, response, output);
        let Ended { meter } = caller.leave();
        let closed = self.close(step.alloc, step.snapshot.at, cause, meter, None, output);
        relayed?;
        closed
    }

    /// Refuses the call by the final response that was received, if the cause relays it, otherwise by one of the server's own.
    fn refuse_with(
        &mut self,
        step: &StepContext<'_>,
        caller: CallerLeg<Standing>,
        service: Option<&Service>,
        response: Option<&ReceivedMessage>,
        cause: Cause,
        output: &mut StepOutput,
    ) -> Result<(), NoMemory>
        requires { self.old.phase ≡ Over HasEnded }
        ensures call { OnOk result (self.new
            ≡ (relayed_refusal step.now.config.now step.now.snapshot.at caller (option_copied service.entry)
            (option_copied response.entry) cause self.old output.old).call) }
        ensures output { OnOk result (output.new
            ≡ (relayed_refusal step.now.config.now step.now.snapshot.at caller (option_copied service.entry)
            (option_copied response.entry) cause self.old output.old).output) }
    {
        match response {
            None => self.refuse(step, caller, cause, output),
            Some(response) => { self.relay_final(step, caller, service, response, cause, output) }
        }
    }

    /// Records one more diversion, to this target.
    fn note_diversion(
        &mut self,
        alloc: Global,
        due: &DueDiversion<'_>,
        target: &Target,
    ) -> Result<(), NoMemory>
        requires { 0 < self.old.diversions.remaining }
        ensures { OnOk result (self.new
            ≡ record self.old {
              diversions = diversions_after (uri_text target.now.uri) (self.old.diversions.remaining - 1)
                  (due_diversion_view due.entry.now) self.old;
            }) }
    {
        let from = Text::of(alloc, request_uri(self.opening.invite.message.start()))?;
        match print_uri(alloc, &target.uri) {
            Err(error) => {
                drop(from);
                Err(error)
            }
            Ok(uri) => {
                let noted = self.diversions.note(alloc, &from, &uri, due);
                drop(from);
                drop(uri);
                noted
            }
        }
    }

    /// Makes a diversion to this target by the served account: records it, adds its meter, and notifies the caller if the forward requires that.
    fn make_diversion(
        &mut self,
        step: &StepContext<'_>,
        service: Option<&Service>,
        due: &DueDiversion<'_>,
        target: &Target,
        output: &mut StepOutput,
    ) -> Result<(), NoMemory>
        requires { 0 < self.old.diversions.remaining }
        ensures call { OnOk result (self.new
            ≡ call_after_diversion target.now step.now.snapshot.at (self.old.diversions.remaining - 1) (option_copied service.entry)
            (due_diversion_view due.entry.now) self.old) }
        ensures output { OnOk result (output.new
            ≡ with_notification_of step.now.config.now (due_diversion_view due.entry.now) self.new output.old) }
    {
        let meter = meter_for(Kind::Diversion, self, step.snapshot.at, service);
        let noted = self.note_diversion(step.alloc, due, target);
        let kept = self.keep_meter(step, meter);
        noted?;
        kept?;
        self.notify_of(step, due, output)
    }

    /// Carries out a diversion that is due: it is made and the call reaches its target, unless outgoing barring or a bound refuses it.
    #[cycle(diverting)]
    fn divert(
        &mut self,
        step: &StepContext<'_>,
        caller: CallerLeg<Standing>,
        service: Option<&Service>,
        due: &DueDiversion<'_>,
        output: &mut StepOutput,
    ) -> Result<(), NoMemory>
        requires { self.old.phase ≡ Over HasEnded }
        ensures call { OnOk result (self.new
            ≡ (divert self.old.diversions.remaining step.now.config.now (snapshot_of step.now.snapshot) caller
            (option_copied service.entry) (due_diversion_view due.entry.now) self.old output.old).call) }
        ensures output { OnOk result (output.new
            ≡ (divert self.old.diversions.remaining step.now.config.now (snapshot_of step.now.snapshot) caller
            (option_copied service.entry) (due_diversion_view due.entry.now) self.old output.old).output) }
    {
        match self.resolve_diversion(step, service, due) {
            Err(error) => {
                give_up_caller(caller, step.snapshot.at);
                Err(error)
            }
            Ok((target, refusal)) => match refusal {
                None => self.divert_to(step, caller, service, due, target, output),
                Some(cause) => {
                    drop(target);
                    self.refuse(step, caller, cause, output)
                }
            },
        }
    }

    /// The same to this target, where nothing refuses it.
    #[cycle(diverting)]
    fn divert_to(
        &mut self,
        step: &StepContext<'_>,
        caller: CallerLeg<Standing>,
        service: Option<&Service>,
        due: &DueDiversion<'_>,
        target: Target,
        output: &mut StepOutput,
    ) -> Result<(), NoMemory>
        requires phase { self.old.phase ≡ Over HasEnded }
        requires target { target ≡ diversion_target step.now.config.now (due_diversion_view due.now) }
        requires passed { diversion_refusal self.old.diversions.remaining step.now.config.now step.now.snapshot.at
            (option_copied service) (due_diversion_view due.now) self.old ≡ None }
        ensures call { OnOk result (self.new
            ≡ (divert self.old.diversions.remaining step.now.config.now (snapshot_of step.now.snapshot) caller
            (option_copied service.entry) (due_diversion_view due.entry.now) self.old output.old).call) }
        ensures output { OnOk result (output.new
            ≡ (divert self.old.diversions.remaining step.now.config.now (snapshot_of step.now.snapshot) caller
            (option_copied service.entry) (due_diversion_view due.entry.now) self.old output.old).output) }
    {
        match self.make_diversion(step, service, due, &target, output) {
            Err(error) => {
                drop(target);
                give_up_caller(caller, step.snapshot.at);
                Err(error)
            }
            Ok(()) => {
                let cause = Some(due.cause);
                self.reach_target(step, caller, cause, target, output)
            }
        }
    }

    /// The target of a diversion that is due, and the cause that refuses the diversion, if any.
    fn resolve_diversion(
        &self,
        step: &StepContext<'_>,
        service: Option<&Service>,
        due: &DueDiversion<'_>,
    ) -> Result<(Target, Option<Cause>), NoMemory>
        ensures target { IfOk result (λ r. r.0 ≡ diversion_target step.now.config.now (due_diversion_view due.entry.now)) }
        ensures refusal { IfOk result (λ r. r.1
            ≡ diversion_refusal self.now.diversions.remaining step.now.config.now step.now.snapshot.at
            (option_copied service.entry) (due_diversion_view due.entry.now) self.now) }
    {
        self.opening.resolve_diversion(
            step.alloc,
            step.config,
            step.snapshot.at,
            &self.diversions,
            service,
            due,
        )
    }

    /// The account that is served at a target, with its record, and the peer that is the next hop.
    fn resolve_target(
        &self,
        step: &StepContext<'_>,
        cause: Option<u16>,
        target: &Target,
    ) -> Result<(Option<Service>, Option<Peer>), NoMemory>
        ensures service { IfOk result (λ r. r.0
            ≡ service_at step.now.config.now (snapshot_of step.now.snapshot) self.now.opening cause target.now) }
        ensures peer { IfOk result (λ r. r.1 ≡ peer_for step.now.config.now self.now.opening target.now) }
    {
        self.opening
            .resolve_target(step.alloc, step.config, &step.snapshot, cause, target)
    }

    /// The call reaches a target.
    #[cycle(diverting)]
    pub fn reach_target(
        &mut self,
        step: &StepContext<'_>,
        caller: CallerLeg<Standing>,
        cause: Option<u16>,
        target: Target,
        output: &mut StepOutput,
    ) -> Result<(), NoMemory>
        requires { self.old.phase ≡ Over HasEnded }
        ensures call { OnOk result (self.new
            ≡ (at_target (divert self.old.diversions.remaining step.now.config.now
            (snapshot_of step.now.snapshot) caller) step.now.config.now
            (snapshot_of step.now.snapshot) caller cause target self.old output.old).call) }
        ensures output { OnOk result (output.new
            ≡ (at_target (divert self.old.diversions.remaining step.now.config.now
            (snapshot_of step.now.snapshot) caller) step.now.config.now
            (snapshot_of step.now.snapshot) caller cause target self.old output.old).output) }
    {
        match self.resolve_target(step, cause, &target) {
            Err(error) => {
                drop(target);
                give_up_caller(caller, step.snapshot.at);
                Err(error)
            }
            Ok((service, peer)) => self.take_next_step(
                step, caller, service, peer, cause, target, output,
            ),
        }
    }

    /// What is decided at a target, where this account is served there and this peer is the next hop.
    fn next_step_at<'a>(
        &self,
        step: &StepContext<'_>,
        cause: Option<u16>,
        target: &Target,
        service: Option<&'a Service>,
        peer: Option<Peer>,
    ) -> NextStep<'a>
        ensures { next_step_view result
            ≡ decision_at step.now.config.now (snapshot_of step.now.snapshot) self.now.opening
            (is_diverted self.now) cause target.now
            (option_copied service.entry) peer }
    {
        let diverted = self.is_diverted();
        let opening = &self.opening;
        opening.decide_at(
            step.config,
            &step.snapshot,
            diverted,
            cause,
            target,
            service,
            peer,
        )
    }

    /// Carries out what is decided at a target, where this account is served there and this peer is the next hop.
    #[cycle(diverting)]
    fn take_next_step(
        &mut self,
        step: &StepContext<'_>,
        caller: CallerLeg<Standing>,
        service: Option<Service>,
        peer: Option<Peer>,
        cause: Option<u16>,
        target: Target,
        output: &mut StepOutput,
    ) -> Result<(), NoMemory>
        requires { self.old.phase ≡ Over HasEnded }
        ensures call { OnOk result (self.new
            ≡ (at_served_target (divert self.old.diversions.remaining step.now.config.now
            (snapshot_of step.now.snapshot) caller) step.now.config.now
            (snapshot_of step.now.snapshot) caller service peer cause target self.old output.old).call) }
        ensures output { OnOk result (output.new
            ≡ (at_served_target (divert self.old.diversions.remaining step.now.config.now
            (snapshot_of step.now.snapshot) caller) step.now.config.now
            (snapshot_of step.now.snapshot) caller service peer cause target self.old output.old).output) }
    {
        let at = step.snapshot.at;
        match self.next_step_at(step, cause, &target, service.as_ref(), peer) {
            NextStep::Offer { peer, waiting } => {
                let destination = self
                    .opening
                    .destination_of(step.alloc, peer, cause, &target);
                drop(target);
                match destination {
                    Err(error) => {
                        drop(service);
                        give_up_caller(caller, at);
                        Err(error)
                    }
                    Ok(destination) => self.start_attempt(
                        step,
                        caller,
                        service,
                        waiting,
                        destination,
                        output,
                    ),
                }
            }
            NextStep::Divert(due) => match self.keep_unoffered_meter(step, service.as_ref()) {
                Err(error) => {
                    drop(target);
                    drop(service);
                    give_up_caller(caller, at);
                    Err(error)
                }
                Ok(()) => {
                    let reached = service.as_ref();
                    let diverted = self.divert(step, caller, reached, &due, output);
                    drop(target);
                    drop(service);
                    diverted
                }
            },
            NextStep::Refuse(why) => {
                let reached = service.as_ref();
                let refused = self.refuse_unoffered(step, caller, reached, why, output);
                drop(target);
                drop(service);
                refused
            }
        }
    }

    /// Adds the meter of an account that the call reached, without being offered to it, to those of past parts.
    fn keep_unoffered_meter(
        &mut self,
        step: &StepContext<'_>,
        service: Option<&Service>,
    ) -> Result<(), NoMemory>
        ensures { OnOk result (self.new ≡ with_unoffered_meter step.now.snapshot.at (option_copied service.entry) self.old) }
    {
        let meter = meter_for(Kind::Terminating, self, step.snapshot.at, service);
        self.keep_meter(step, meter)
    }

    /// The same, and refuses the call.
    fn refuse_unoffered(
        &mut self,
        step: &StepContext<'_>,
        caller: CallerLeg<Standing>,
        service: Option<&Service>,
        cause: Cause,
        output: &mut StepOutput,
    ) -> Result<(), NoMemory>
        requires { self.old.phase ≡ Over HasEnded }
        ensures call { OnOk result (self.new
            ≡ (call_refusal step.now.config.now step.now.snapshot.at caller cause (with_unoffered_meter step.now.snapshot.at
            (option_copied service.entry) self.old) output.old).call) }
        ensures output { OnOk result (output.new
            ≡ (call_refusal step.now.config.now step.now.snapshot.at caller cause (with_unoffered_meter step.now.snapshot.at
            (option_copied service.entry) self.old) output.old).output) }
    {
        match self.keep_unoffered_meter(step, service) {
            Err(error) => {
                give_up_caller(caller, step.snapshot.at);
                Err(error)
            }
            Ok(()) => self.refuse(step, caller, cause, output),
        }
    }

    /// Carries out what follows an attempt of this account that ended in this way; a final response that was received may be relayed.
    pub fn go_on(
        &mut self,
        step: &StepContext<'_>,
        caller: CallerLeg<Standing>,
        service: Option<&Service>,
        end: &AttemptEnd<'_>,
        response: Option<&ReceivedMessage>,
        output: &mut StepOutput,
    ) -> Result<(), NoMemory>
        requires { self.old.phase ≡ Over HasEnded }
        ensures call { OnOk result (self.new
            ≡ (on_end step.now.config.now (snapshot_of step.now.snapshot) caller (option_copied service.entry)
            (option_copied response.entry)
            (decision_after self.old.opening step.now.snapshot.at (is_diverted self.old) (option_copied service.entry)
            (attempt_end_view end.entry.now)) self.old output.old).call) }
        ensures output { OnOk result (output.new
            ≡ (on_end step.now.config.now (snapshot_of step.now.snapshot) caller (option_copied service.entry)
            (option_copied response.entry)
            (decision_after self.old.opening step.now.snapshot.at (is_diverted self.old) (option_copied service.entry)
            (attempt_end_view end.entry.now)) self.old output.old).output) }
    {
        let at = step.snapshot.at;
        let diverted = self.is_diverted();
        match self.opening.decide_after(at, diverted, service, end) {
            StepAfterAttempt::Divert(due) => { self.divert(step, caller, service, &due, output) }
            StepAfterAttempt::Refuse(cause) => {
                self.refuse_with(step, caller, service, response, cause, output)
            }
        }
    }
}
