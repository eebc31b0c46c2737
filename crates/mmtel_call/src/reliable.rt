//! Reliable provisional responses in an offered call, and their PRACKs (RFC 3262).
ghost use Rattle.std.specs.Prelude.{◌≡◌, ◌++◌, if◌then◌else◌, true, is_some, Some, IfOk, OnOk, codes};
ghost use Rattle.std.specs.Option.{option_copied};
ghost use Rattle.mmtel_output.specs.Outputs.{token};
ghost use Rattle.mmtel_output.specs.Sending.{with_relayed_request};
ghost use Rattle.mmtel_types.specs.declared.causes.Cause.TheVariants.{Ended as HasEnded};
ghost use Rattle.mmtel_reliable.specs.Acks.{after_ack, after_relay};
ghost use Rattle.mmtel_types.specs.declared.sides.Side.TheVariants.{Callee as TheCallee, Caller as TheCaller};
ghost use Rattle.mmtel_call_services.specs.Reliable.{rack_line, reliable_lines};
ghost use Rattle.mmtel_call_services.specs.CopiedHeaders.{copied_lines};
ghost use Rattle.mmtel_call.specs.Calls.{Offered, Over};
ghost use Rattle.mmtel_call.specs.RelayedTransactions.{invite_sent_in, leg_after_request, with_settled};
ghost use Rattle.mmtel_call.specs.Reliable.{attempt_after_early_request, is_of_early, named_rseq, on_prack, on_rack};
ghost use Rattle.mmtel_call.specs.Reliable.{on_refused_prack, own_rseq_for, rack_in, with_prack_timer, with_reliable_response};

use crate::calls::{AttemptLeg, Call, OfferedAttempt, Phase, RelayedKind};
use crate::context::StepContext;
use crate::signals::SideRequest;
use mmtel_base::{List, NoMemory};
use mmtel_call_services::{Service, add_rack_line, add_reliable_lines};
use mmtel_compose::{ReceivedMessage, callee_remote};
use mmtel_message::Line;
use mmtel_output::{SentInvite, StepOutput};
use mmtel_reliable::{Rack, read_rack};
use mmtel_transaction::{DueWord, Emit, TKey};
use mmtel_types::Side;
use std::alloc::Global;

/// How long a reliable response waits for its PRACK (RFC 3262 §3: 64*T1), in milliseconds.
const PRACK_TIME: u64 = 32_000;

/// What a PRACK acknowledges, if its RAck can be parsed. It allocates nothing.
fn rack_in(message: &ReceivedMessage) -> Option<Rack>
    ensures { result ≡ rack_in message.now }
{
    match message.message.first(b"RAck") {
        None => None,
        Some(value) => match read_rack(value) {
            Ok(rack) => Some(rack),
            Err(_) => None,
        },
    }
}

impl AttemptLeg {
    /// Whether a response is of the early dialog, if there is one: each dialog has RSeq numbers of its own (RFC 3262 §4).
    fn is_of_early(&self, alloc: Global, message: &ReceivedMessage) -> Result<bool, NoMemory>
        ensures { IfOk result (λ yes. yes ≡ is_of_early self.now message.now) }
    {
        match self.early_tag() {
            None => Ok(true),
            Some(tag) => {
                let remote = callee_remote(alloc, message)?;
                let same = tag == remote.tag.bytes();
                drop(remote);
                Ok(same)
            }
        }
    }
}

impl Call {
    /// The own number under which a response of this number is relayed, if it is.
    pub fn own_rseq_for(
        &mut self,
        alloc: Global,
        offered: &OfferedAttempt,
        message: &ReceivedMessage,
        rseq: u32,
    ) -> Result<Option<u32>, NoMemory>
        ensures own { IfOk result (λ own. own ≡ own_rseq_for rseq offered.now message.now self.old) }
        ensures call { IfOk result (λ own. self.new
            ≡ record self.old { acks = if is_some own then after_relay rseq self.old.acks else self.old.acks }) }
    {
        if !offered.callee.is_of_early(alloc, message)? {
            return Ok(None);
        }
        Ok(self.acks.relay(rseq))
    }

    /// The header fields that the caller gets of a response that is relayed under this number.
    fn reliable_lines_of(
        &self,
        step: &StepContext<'_>,
        service: Option<&Service>,
        own: u32,
        message: &ReceivedMessage,
    ) -> Result<List<Line>, NoMemory>
        ensures { IfOk result (λ ls. ls
            ≡ copied_lines step.now.config.now self.now.opening self.now.diversions (option_copied service.entry) TheCallee
            self.now.opening.invite.peer message.now ++ reliable_lines own) }
    {
        let opening = &self.opening;
        let mut lines = opening.copied_lines(
            step.alloc,
            step.config,
            &self.diversions,
            service,
            Side::Callee,
            opening.invite.peer,
            message,
        )?;
        match add_reliable_lines(step.alloc, own, &mut lines) {
            Ok(()) => Ok(lines),
            Err(error) => {
                drop(lines);
                Err(error)
            }
        }
    }

    /// Relays a response of the target to the caller under this number.
    pub fn relay_reliable(
        &self,
        step: &StepContext<'_>,
        service: Option<&Service>,
        own: u32,
        message: &ReceivedMessage,
        output: &mut StepOutput,
    ) -> Result<(), NoMemory>
        ensures { OnOk result (output.new
            ≡ with_reliable_response step.now.config.now self.now (option_copied service.entry) own message.now output.old) }
    {
        let lines = self.reliable_lines_of(step, service, own, message)?;
        let opening = &self.opening;
        let relayed = output.relay_response(
            step.alloc,
            step.sip(),
            opening.key,
            &opening.invite,
            opening.tag.bytes(),
            lines.items(),
            message,
        );
        drop(lines);
        relayed
    }

    /// Arms the deadline until which that response waits for its PRACK.
    pub fn await_prack(
        &self,
        step: &StepContext<'_>,
        own: u32,
        output: &mut StepOutput,
    ) -> Result<(), NoMemory>
        ensures { OnOk result (output.new ≡ with_prack_timer own step.now.snapshot.at self.now output.old) }
    {
        output.emit(
            step.alloc,
            Emit::Arm {
                call: self.opening.number,
                what: DueWord::NoPrack(u64::from(own)),
                at: step.snapshot.at.ms() + PRACK_TIME,
            },
        )
    }

    /// Refuses a PRACK that acknowledges no response that waits.
    pub fn refuse_prack(
        &self,
        step: &StepContext<'_>,
        key: TKey,
        message: &ReceivedMessage,
        output: &mut StepOutput,
    ) -> Result<(), NoMemory>
        ensures { OnOk result (output.new ≡ (on_refused_prack step.now.config.now key message.now self.now output.old).output) }
    {
        let code = match rack_in(message) {
            None => 400,
            Some(_) => 481,
        };
        self.respond_with_status(step, key, message, code, output)
    }

    /// The header fields that the target gets of a PRACK, which acknowledges its response of this number to the INVITE with that CSeq number.
    fn prack_lines(
        &self,
        step: &StepContext<'_>,
        offered: &OfferedAttempt,
        rseq: u32,
        message: &ReceivedMessage,
    ) -> Result<List<Line>, NoMemory>
        ensures { IfOk result (λ ls. ls
            ≡ copied_lines step.now.config.now self.now.opening self.now.diversions offered.now.attempt.service TheCaller
            offered.now.callee.leg.dialogue.peer message.now ++ rack_line rseq offered.now.attempt.invite.number) }
    {
        let opening = &self.opening;
        let mut lines = opening.copied_lines(
            step.alloc,
            step.config,
            &self.diversions,
            offered.attempt.service.as_ref(),
            Side::Caller,
            offered.callee.peer(),
            message,
        )?;
        match add_rack_line(step.alloc, rseq, offered.attempt.invite.number, &mut lines) {
            Ok(()) => Ok(lines),
            Err(error) => {
                drop(lines);
                Err(error)
            }
        }
    }

    /// Relays a PRACK to the target: it acknowledges the response to which the server gave this own number, and the target's response of that number.
    fn pass_prack(
        &self,
        step: &StepContext<'_>,
        offered: &mut OfferedAttempt,
        rack: &Rack,
        rseq: u32,
        message: &ReceivedMessage,
        output: &mut StepOutput,
    ) -> Result<SentInvite, NoMemory>
        requires { offered.old.callee.is_early ≡ true }
        ensures output { OnOk result (output.new
            ≡ with_relayed_request step.now.config.now.sip (codes "PRACK") offered.old.callee.leg.dialogue
            (copied_lines step.now.config.now self.now.opening self.now.diversions offered.old.attempt.service TheCaller
            offered.old.callee.leg.dialogue.peer message.now ++ rack_line rseq offered.old.attempt.invite.number) message.now.parsed
            (with_settled step.now.config.now (Some rack.now.answer) self.now output.old)) }
        ensures sent { IfOk result (λ i. i
            ≡ invite_sent_in (leg_after_request (codes "PRACK") offered.old.callee.leg).dialogue (token output.old)) }
        ensures requested { OnOk result (offered.new ≡ attempt_after_early_request (codes "PRACK") offered.old) }
    {
        self.settle(step.alloc, step.config, Some(rack.answer), output)?;
        let lines = self.prack_lines(step, offered, rseq, message)?;
        let sent = offered.relay_early_request(step, b"PRACK", &lines, message, output);
        drop(lines);
        sent
    }

    /// The target's number of the response that a PRACK acknowledges; that response no longer waits.
    fn named_rseq(&mut self, offered: &OfferedAttempt, rack: &Rack) -> Option<u32>
        ensures check { result ≡ named_rseq offered.now self.old rack.now }
        ensures call { self.new
            ≡ record self.old { acks = if is_some result then after_ack rack.now self.old.acks else self.old.acks } }
        ensures early { is_some result ≡ true → offered.now.callee.is_early ≡ true }
    {
        if !offered.callee.is_early() {
            return None;
        }
        self.acks.acked(rack)
    }

    /// Processes a PRACK of the caller whose RAck can be parsed.
    fn receive_rack(
        &mut self,
        step: &StepContext<'_>,
        offered: OfferedAttempt,
        rack: &Rack,
        request: SideRequest,
        output: &mut StepOutput,
    ) -> Result<(), NoMemory>
        requires phase { self.old.phase ≡ Over HasEnded }
        requires side { request.side ≡ TheCaller }
        ensures call { OnOk result (self.new
            ≡ (on_rack step.now.config.now offered request.key request.message (Some rack.now)
            (record self.old { phase = Offered offered }) output.old).call) }
        ensures output { OnOk result (output.new
            ≡ (on_rack step.now.config.now offered request.key request.message (Some rack.now)
            (record self.old { phase = Offered offered }) output.old).output) }
    {
        let Some(answer) = self.named_rseq(&offered, rack) else {
            return self.refuse_unmatched_prack(step, offered, request, output);
        };
        let mut offered = offered;
        match self.pass_prack(step, &mut offered, rack, answer, &request.message, output) {
            Err(error) => {
                drop(request);
                offered.give_up(step.snapshot.at);
                Err(error)
            }
            Ok(sent) => {
                let flown = self.add_in_flight(step.alloc, RelayedKind::Prack, request, sent);
                self.put_phase(Phase::Offered(offered));
                flown
            }
        }
    }

    /// Refuses a PRACK, in an offered call, that acknowledges no response that waits.
    pub fn refuse_unmatched_prack(
        &mut self,
        step: &StepContext<'_>,
        offered: OfferedAttempt,
        request: SideRequest,
        output: &mut StepOutput,
    ) -> Result<(), NoMemory>
        requires { self.old.phase ≡ Over HasEnded }
        ensures call { OnOk result (self.new
            ≡ (on_refused_prack step.now.config.now request.key request.message
            (record self.old { phase = Offered offered }) output.old).call) }
        ensures output { OnOk result (output.new
            ≡ (on_refused_prack step.now.config.now request.key request.message
            (record self.old { phase = Offered offered }) output.old).output) }
    {
        let refused = self.refuse_prack(step, request.key, &request.message, output);
        drop(request);
        self.put_phase(Phase::Offered(offered));
        refused
    }

    /// Processes a PRACK of the caller.
    pub fn receive_prack(
        &mut self,
        step: &StepContext<'_>,
        offered: OfferedAttempt,
        request: SideRequest,
        output: &mut StepOutput,
    ) -> Result<(), NoMemory>
        requires phase { self.old.phase ≡ Over HasEnded }
        requires side { request.side ≡ TheCaller }
        ensures call { OnOk result (self.new
            ≡ (on_prack step.now.config.now offered request.key request.message
            (record self.old { phase = Offered offered }) output.old).call) }
        ensures output { OnOk result (output.new
            ≡ (on_prack step.now.config.now offered request.key request.message
            (record self.old { phase = Offered offered }) output.old).output) }
    {
        match rack_in(&request.message) {
            None => self.refuse_unmatched_prack(step, offered, request, output),
            Some(rack) => self.receive_rack(step, offered, &rack, request, output),
        }
    }
}

impl OfferedAttempt {
    /// Sends to the target a request of the caller within the early dialog, with these header fields. Returns it as it was sent.
    pub fn relay_early_request(
        &mut self,
        step: &StepContext<'_>,
        method: &[u8],
        lines: &List<Line>,
        message: &ReceivedMessage,
        output: &mut StepOutput,
    ) -> Result<SentInvite, NoMemory>
        requires { self.old.callee.is_early ≡ true }
        ensures done { OnOk result (output.new
            ≡ with_relayed_request step.now.config.now.sip method.now self.old.callee.leg.dialogue lines.now message.now.parsed
            output.old) }
        ensures sent { IfOk result (λ i. i
            ≡ invite_sent_in (leg_after_request method.now self.old.callee.leg).dialogue (token output.old)) }
        ensures requested { OnOk result (self.new ≡ attempt_after_early_request method.now self.old) }
    {
        let sent = self
            .callee
            .relay_early_request(step, method, lines, message, output)?;
        self.attempt.invite.count_early_request();
        Ok(sent)
    }
}
