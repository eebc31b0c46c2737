//! Requests that are in flight beside everything else that a call does: PRACK (RFC 3262 §4) and UPDATE (RFC 3311 §5.1), which are relayed to the other side, and whose final
//! responses are relayed back.
ghost use Rattle.std.specs.Prelude.{◌≡◌, ◌<◌, if◌then◌else◌, false, not, IfOk, OnOk, length, position, Some};
ghost use Rattle.std.specs.List.{filter, find};
ghost use Rattle.std.specs.Option.{option_copied};
ghost use Rattle.mmtel_output.specs.Outputs.{token};
ghost use Rattle.mmtel_output.specs.Sending.{with_relayed_request};
ghost use Rattle.mmtel_call.specs.Awaiting.{with_expiry_timer};
ghost use Rattle.mmtel_call.specs.RelayedTransactions.{dismissal_of, is_in_flight, leg_after_request, on_final_relayed, on_response_in_flight};
ghost use Rattle.mmtel_call.specs.RelayedTransactions.{output_after_dismissal, with_dismissal, with_dismissals, without_in_flight};
ghost use Rattle.mmtel_call.specs.RelayedTransactions.{call_after_update, invite_sent_in, is_update_of, is_updating, on_timeout_in_flight, service_in};
ghost use Rattle.mmtel_call.specs.RelayedTransactions.{updating_side, with_response_back, with_settled, with_settled_in, with_transaction};

use crate::acceptances::hold_after;
use crate::calls::{Call, Phase, Reinvite, RelayedKind, RelayedTransaction};
use crate::context::StepContext;
use crate::reinvites::invite_sent_in;
use crate::signals::SideRequest;
use mmtel_base::{List, NoMemory};
use mmtel_call_services::{CallConfig, Service};
use mmtel_compose::{ReceivedMessage, status_of};
use mmtel_leg::{InDialog, LegOf};
use mmtel_message::Line;
use mmtel_output::{SentInvite, StepOutput, push_item};
use mmtel_sdp::direction_in_body;
use mmtel_sip_rules::is_success;
use mmtel_transaction::Emit;
use mmtel_types::Side;
use std::alloc::Global;
use std::mem;

impl RelayedKind {
    fn is_update(self) -> bool
        ensures { result ≡ is_update_of self }
    {
        match self {
            RelayedKind::Prack => false,
            RelayedKind::Update => true,
        }
    }

    /// The status of the server's own final response to it, where the call continues without the other side.
    fn dismissal(self) -> u16
        ensures { result ≡ dismissal_of self }
    {
        match self {
            RelayedKind::Prack => 481,
            RelayedKind::Update => 487,
        }
    }
}

impl RelayedTransaction {
    /// Whether it was sent with this branch.
    fn is_of(&self, branch: &[u8]) -> bool
        ensures { result ≡ is_in_flight branch.now self.now }
    {
        self.exchange.invite.branch.bytes() == branch
    }

    fn is_updating(&self) -> bool
        ensures { result ≡ is_updating self.now }
    {
        self.kind.is_update()
    }
}

/// The index of the request of this branch among those that are in flight.
pub fn relayed_at(transactions: &[RelayedTransaction], branch: &[u8]) -> Option<usize>
    ensures { result ≡ position (is_in_flight branch.now) transactions.now }
{
    transactions.iter().position(|one| one.is_of(branch))
}

/// The UPDATE that is in flight, if there is one.
fn update_in(transactions: &[RelayedTransaction]) -> Option<&RelayedTransaction>
    ensures { option_copied result ≡ find is_updating transactions.now }
{
    transactions.iter().find(|one| one.is_updating())
}

impl Phase {
    /// The account that is served as the target.
    fn service(&self) -> Option<&Service>
        ensures { option_copied result ≡ service_in self.now }
    {
        match self {
            Phase::Offered(x) => x.attempt.service.as_ref(),
            Phase::Established(x, _) => x.service.as_ref(),
            Phase::Detached(detached) => detached.service.as_ref(),
            Phase::Over(_) => None,
        }
    }
}

/// Sends in a leg the request of the other side, with these header fields. Returns it as it was sent.
pub fn relay_to_leg<P, S: InDialog>(
    step: &StepContext<'_>,
    method: &[u8],
    leg: &mut LegOf<P, S>,
    lines: &List<Line>,
    message: &ReceivedMessage,
    output: &mut StepOutput,
) -> Result<SentInvite, NoMemory>
    ensures done { OnOk result (output.new
        ≡ with_relayed_request step.now.config.now.sip method.now leg.old.dialogue lines.now message.now.parsed output.old) }
    ensures sent { IfOk result (λ i. i ≡ invite_sent_in (leg_after_request method.now leg.old).dialogue (token output.old)) }
    ensures counted { OnOk result (leg.new ≡ leg_after_request method.now leg.old) }
    ensures meter { leg.new.meter ≡ leg.old.meter }
{
    let branch = output.relay_request(step.alloc, step.sip(), method, leg, lines, message)?;
    invite_sent_in(step.alloc, leg.dialogue(), branch)
}

impl Call {
    /// The side whose UPDATE is in flight.
    pub fn updating_side(&self) -> Option<Side>
        ensures { result ≡ updating_side self.now.relayed }
    {
        match update_in(self.relayed.items()) {
            None => None,
            Some(flight) => Some(flight.side),
        }
    }

    /// Adds a request of a side, which was relayed in this form, to those that are in flight.
    pub fn add_in_flight(
        &mut self,
        alloc: Global,
        kind: RelayedKind,
        request: SideRequest,
        invite: SentInvite,
    ) -> Result<(), NoMemory>
        ensures done { OnOk result (self.new
            ≡ with_transaction (record {
              kind = kind;
              side = request.side;
              exchange =
                  record { key = request.key; request = request.message; invite = invite; cancel_due = false };
            }) self.old) }
        ensures phase { self.new.phase ≡ self.old.phase }
    {
        let SideRequest {
            side,
            key,
            message: hearing,
        } = request;
        let new_reinvite = Reinvite {
            key,
            request: hearing,
            invite,
            cancel_due: false,
        };
        push_item(
            alloc,
            &mut self.relayed,
            RelayedTransaction {
                kind,
                side,
                exchange: new_reinvite,
            },
        )
    }

    /// Relays a response to a request in flight to the side that sent the request.
    fn relay_response_back(
        &self,
        step: &StepContext<'_>,
        transaction: &RelayedTransaction,
        message: &ReceivedMessage,
        output: &mut StepOutput,
    ) -> Result<(), NoMemory>
        ensures { OnOk result (output.new
            ≡ with_response_back step.now.config.now transaction.now message.now self.now output.old) }
    {
        let exchange = &transaction.exchange;
        let opening = &self.opening;
        let other = transaction.side.other();
        let lines = opening.copied_lines(
            step.alloc,
            step.config,
            &self.diversions,
            self.phase.service(),
            other,
            exchange.request.peer,
            message,
        )?;
        let relayed = output.relay_response(
            step.alloc,
            step.sip(),
            exchange.key,
            &exchange.request,
            opening.tag.bytes(),
            lines.items(),
            message,
        );
        drop(lines);
        relayed
    }

    /// After this 2xx to an UPDATE its offer is in effect (RFC 3311 §5.1), and the session expires at the interval of that 2xx (RFC 4028 §7.2).
    fn accept_update(
        &mut self,
        step: &StepContext<'_>,
        transaction: &RelayedTransaction,
        message: &ReceivedMessage,
        output: &mut StepOutput,
    ) -> Result<(), NoMemory>
        ensures call { OnOk result (self.new ≡ call_after_update transaction.now.side transaction.now.exchange.request self.old) }
        ensures output { OnOk result (output.new
            ≡ with_expiry_timer step.now.config.now step.now.snapshot.at message.now self.old output.old) }
    {
        self.await_expiry(step, message, output)?;
        let direction = direction_in_body(step.alloc, transaction.exchange.request.message.body())?;
        self.successes = self.successes.saturating_add(1);
        self.hold = hold_after(transaction.side, direction, self.hold);
        Ok(())
    }

    /// Processes a final response to a request that was in flight.
    fn receive_final_in_flight(
        &mut self,
        step: &StepContext<'_>,
        transaction: &RelayedTransaction,
        message: &ReceivedMessage,
        code: u16,
        output: &mut StepOutput,
    ) -> Result<(), NoMemory>
        ensures call { OnOk result (self.new
            ≡ (on_final_relayed step.now.config.now step.now.snapshot.at transaction.now message.now code self.old
            output.old).call) }
        ensures output { OnOk result (output.new
            ≡ (on_final_relayed step.now.config.now step.now.snapshot.at transaction.now message.now code self.old
            output.old).output) }
    {
        self.relay_response_back(step, transaction, message, output)?;
        if is_success(code) && transaction.is_updating() {
            return self.accept_update(step, transaction, message, output);
        }
        Ok(())
    }

    /// Processes a response to the request in flight at this index: a final response is relayed to the side that sent the request.
    pub fn receive_in_flight(
        &mut self,
        step: &StepContext<'_>,
        message: &ReceivedMessage,
        at: usize,
        output: &mut StepOutput,
    ) -> Result<(), NoMemory>
        requires { at < length self.old.relayed }
        ensures call { OnOk result (self.new
            ≡ (on_response_in_flight step.now.config.now step.now.snapshot.at message.now (Some at) self.old
            output.old).call) }
        ensures output { OnOk result (output.new
            ≡ (on_response_in_flight step.now.config.now step.now.snapshot.at message.now (Some at) self.old
            output.old).output) }
    {
        let code = status_of(message.message.start());
        if code < 200 {
            return Ok(());
        }
        let flight = self.relayed.remove(at);
        let received = self.receive_final_in_flight(step, &flight, message, code, output);
        drop(flight);
        received
    }

    /// The request in flight at this index timed out: 408 to the side that sent it.
    pub fn receive_timeout_in_flight(
        &mut self,
        step: &StepContext<'_>,
        at: usize,
        output: &mut StepOutput,
    ) -> Result<(), NoMemory>
        requires { at < length self.old.relayed }
        ensures call { OnOk result (self.new
            ≡ (on_timeout_in_flight step.now.config.now (Some at) self.old output.old).call) }
        ensures output { OnOk result (output.new
            ≡ (on_timeout_in_flight step.now.config.now (Some at) self.old output.old).output) }
    {
        let flight = self.relayed.remove(at);
        let exchange = &flight.exchange;
        let replied = self.respond_with_status(step, exchange.key, &exchange.request, 408, output);
        drop(flight);
        replied
    }

    /// The reliable responses that the caller has not acknowledged are not retransmitted to it any more: the one of this number, or all.
    pub fn settle(
        &self,
        alloc: Global,
        config: &CallConfig<'_>,
        own: Option<u32>,
        output: &mut StepOutput,
    ) -> Result<(), NoMemory>
        ensures settled { OnOk result (output.new ≡ with_settled config.now own self.now output.old) }
        ensures token { OnOk result (token output.new ≡ token output.old) }
    {
        if !config.reliable {
            return Ok(());
        }
        let key = self.opening.key;
        output.emit(alloc, Emit::Settled { key, own })
    }

    /// The same for all of them, if the call is offered.
    fn settle_all(
        &self,
        alloc: Global,
        config: &CallConfig<'_>,
        output: &mut StepOutput,
    ) -> Result<(), NoMemory>
        ensures { OnOk result (output.new ≡ with_settled_in self.now.phase config.now self.now output.old) }
    {
        match &self.phase {
            Phase::Offered(_) => self.settle(alloc, config, None, output),
            Phase::Established(_, _) | Phase::Detached(_) | Phase::Over(_) => Ok(()),
        }
    }

    /// Sends the server's final response to a request in flight, if the flag is set and it is an UPDATE, or the flag is not set and it is none.
    fn dismiss_one(
        &self,
        alloc: Global,
        config: &CallConfig<'_>,
        updates: bool,
        transaction: &RelayedTransaction,
        output: &mut StepOutput,
    ) -> Result<(), NoMemory>
        ensures { OnOk result (output.new
            ≡ (if (if updates then is_updating transaction.now else not (is_updating transaction.now))
            then with_dismissal config.now self.now transaction.now output.old else output.old)) }
    {
        if transaction.is_updating() != updates {
            return Ok(());
        }
        let exchange = &transaction.exchange;
        output.respond_with_status(
            alloc,
            config.sip,
            exchange.key,
            &exchange.request,
            self.opening.tag.bytes(),
            transaction.kind.dismissal(),
        )
    }

    /// Sends the server's final responses to the UPDATEs among these, or, if the flag is not set, to the PRACKs, in order.
    fn dismiss_each(
        &self,
        alloc: Global,
        config: &CallConfig<'_>,
        updates: bool,
        transactions: &[RelayedTransaction],
        output: &mut StepOutput,
    ) -> Result<(), NoMemory>
        ensures { OnOk result (output.new
            ≡ with_dismissals config.now self.now
            (filter (λ flight. if updates then is_updating flight else not (is_updating flight)) transactions.now) output.old) }
    {
        for flight in transactions {
            self.dismiss_one(alloc, config, updates, flight, output)?;
        }
        Ok(())
    }

    /// Sends the server's final responses to all requests in flight, and nothing of the attempt gets a response any more: the attempt ended without a 2xx, or the call is over
    /// (RFC 3262 §3, RFC 3311 §5.2).
    pub fn dismiss(
        &mut self,
        alloc: Global,
        config: &CallConfig<'_>,
        output: &mut StepOutput,
    ) -> Result<(), NoMemory>
        ensures call { OnOk result (self.new ≡ without_in_flight self.old) }
        ensures output { OnOk result (output.new ≡ output_after_dismissal config.now self.old output.old) }
    {
        let flights = self.relayed.items();
        self.dismiss_each(alloc, config, false, flights, output)?;
        self.dismiss_each(alloc, config, true, flights, output)?;
        self.settle_all(alloc, config, output)?;
        drop(mem::replace(&mut self.relayed, List::new()));
        Ok(())
    }
}
