//! Outputs: each command of a layer is executed here.
ghost use Rattle.std.specs.Prelude.{◌≡◌, ◌<◌, ◌^◌, ◌+◌, ◌-◌, ◌++◌, ◌∷◌, [], List, IfOk, OnErr, OnOk};
ghost use Rattle.mmtel_environment.specs.declared.events.Offer.{Offer};
ghost use Rattle.mmtel_environment.specs.declared.events.Offer.TheVariants as offer;
ghost use Rattle.mmtel_run_definitions.specs.OwnResponses.{tag_for, tags_due, to_tag_in};
ghost use Rattle.mmtel_run_definitions.specs.Transitions.{to_peer, with_action, with_emit, with_emits, with_timer};
ghost use Rattle.mmtel_transaction.specs.Operations.{DidSettle};
ghost use Rattle.mmtel_transaction.specs.declared.words.Emit.TheVariants as emit;
ghost use Rattle.mmtel_server_timers.specs.PendingTimers.{timer_in};
ghost use Rattle.mmtel_server.specs.Follows.{AddsOfferPrefix, Follows};

use crate::servers::{Context, Server};
use mmtel_admission::is_untagged;
use mmtel_base::{List, NoMemory, Text};
use mmtel_environment::Offer;
use mmtel_message::Msg;
use mmtel_server_timers::{PendingTimer, ServiceTimer};
use mmtel_timers::Steps;
use mmtel_transaction::theorems::numbers_are_distinct;
use mmtel_transaction::{Emit, TKey, Tokens};
use mmtel_types::Peer;
use std::alloc::Global;
use std::sync::ledger::Ledger;

/// Adds an output for a peer.
pub(super) fn offer_to(
    alloc: Global,
    peer: Peer,
    at: u64,
    text: Text,
    out: &mut List<Offer>,
) -> Result<(), NoMemory>
    ensures done { OnOk result (out.new ≡ out.old ++ offer.To peer at text ∷ []) }
    ensures err { OnErr result (out.new ≡ out.old) }
{
    out.push(alloc, Offer::To { peer, at, text })?;
    Ok(())
}

/// Adds an output for a peer, where there is one.
fn offer_to_peer(
    alloc: Global,
    peer: Option<Peer>,
    at: u64,
    text: Text,
    out: &mut List<Offer>,
) -> Result<(), NoMemory>
    ensures done { OnOk result (out.new ≡ out.old ++ to_peer at text peer) }
    ensures err { OnErr result (out.new ≡ out.old) }
{
    match peer {
        None => Ok(()),
        Some(peer) => offer_to(alloc, peer, at, text, out),
    }
}

/// Draws the tag of a response to a message whose To has none (RFC 3261 §8.2.6.2); no bytes where it has one.
pub(super) fn draw_tag(alloc: Global, tokens: &mut Tokens, message: &Msg) -> Result<Text, NoMemory>
    ensures tag { tokens.old.drawn < 2 ^ 60 →
        IfOk result (λ tag. tag ≡ tag_for tokens.old.token tokens.old.drawn (to_tag_in message.now.lines)) }
    ensures drawn { tokens.old.drawn < 2 ^ 60 → OnOk result (tokens.new
        ≡ record { token = tokens.old.token; drawn = tokens.old.drawn + tags_due (to_tag_in message.now.lines) }) }
{
    if is_untagged(message) {
        tokens.draw(alloc)
    } else {
        Ok(Text::new())
    }
}

/// The commands of a layer. Each operation adds all its outputs; where memory runs out none, and of several operations a prefix, and the server has then failed.
impl Server {
    /// Sends a request in a client transaction of its own.
    pub(super) fn send_request<L: Ledger>(
        &mut self,
        context: &Context,
        peer: Peer,
        message: &Msg,
        out: &mut List<Offer>,
        steps: &mut Steps<L>,
    ) -> Result<(), NoMemory>
        ensures done { OnOk result (Follows self.old out.old self.new out.new
            (λ d token. with_emit context.now.at (emit.Ask peer message.now))) }
        ensures err { OnErr result (out.new ≡ out.old) }
        ensures calls { self.new.calls ≡ self.old.calls }
    {
        numbers_are_distinct();
        self.transactions
            .ask(context.alloc, peer, message, context.at, steps)?;
        let text = self.transactions.take_outgoing();
        offer_to(context.alloc, peer, context.at.ms(), text, out)
    }

    /// Sends a response in a server transaction.
    pub(super) fn send_response<L: Ledger>(
        &mut self,
        context: &Context,
        key: TKey,
        message: &Msg,
        out: &mut List<Offer>,
        steps: &mut Steps<L>,
    ) -> Result<(), NoMemory>
        ensures done { OnOk result (Follows self.old out.old self.new out.new
            (λ d token. with_emit context.now.at (emit.Reply key message.now))) }
        ensures err { OnErr result (out.new ≡ out.old) }
        ensures calls { self.new.calls ≡ self.old.calls }
    {
        let peer = self.transactions.peer(key, steps);
        self.transactions
            .reply(context.alloc, key, message, context.at, steps)?;
        let text = self.transactions.take_outgoing();
        offer_to_peer(context.alloc, peer, context.at.ms(), text, out)
    }

    /// Acknowledges the non-2xx final response that a client transaction received.
    pub(super) fn send_ack<L: Ledger>(
        &mut self,
        context: &Context,
        key: TKey,
        message: &Msg,
        out: &mut List<Offer>,
        steps: &mut Steps<L>,
    ) -> Result<(), NoMemory>
        ensures done { OnOk result (Follows self.old out.old self.new out.new
            (λ d token. with_emit context.now.at (emit.Ack key message.now))) }
        ensures err { OnErr result (out.new ≡ out.old) }
        ensures calls { self.new.calls ≡ self.old.calls }
    {
        let peer = self.transactions.peer(key, steps);
        self.transactions.ack(context.alloc, key, message, steps)?;
        let text = self.transactions.take_outgoing();
        offer_to_peer(context.alloc, peer, context.at.ms(), text, out)
    }

    /// Sends a text without a transaction.
    pub(super) fn send_text(
        &mut self,
        context: &Context,
        peer: Peer,
        text: &[u8],
        out: &mut List<Offer>,
    ) -> Result<(), NoMemory>
        ensures done { OnOk result (Follows self.old out.old self.new out.new
            (λ d token. with_emit context.now.at (emit.Plain peer text.now))) }
        ensures err { OnErr result (out.new ≡ out.old) }
        ensures calls { self.new.calls ≡ self.old.calls }
    {
        let text = Text::of(context.alloc, text)?;
        offer_to(context.alloc, peer, context.at.ms(), text, out)
    }

    /// Stops the retransmission of the reliable response of this number in a server transaction, or of each of them.
    fn settle_responses<L: Ledger>(
        &mut self,
        key: TKey,
        own: Option<u32>,
        steps: &mut Steps<L>,
    ) -> Result<(), NoMemory>
        ensures done { OnOk result ((out : List Offer) →
            Follows self.old out self.new out (λ d token. with_action (DidSettle key.0 own))) }
        ensures calls { self.new.calls ≡ self.old.calls }
    {
        self.transactions.settle(key, own, steps);
        Ok(())
    }

    /// Arms a timer, in this step.
    pub(super) fn arm_timer<L: Ledger>(
        &mut self,
        timer: ServiceTimer,
        at: u64,
        steps: &mut Steps<L>,
    ) -> Result<(), NoMemory>
        ensures done { OnOk result ((out : List Offer) →
            Follows self.old out self.new out
            (λ d token world. with_timer (record { timer = timer_in timer; at = at; step = world.steps - 1 }) world)) }
        ensures calls { self.new.calls ≡ self.old.calls }
    {
        let step = self.steps.saturating_sub(1);
        self.pending_timers
            .arm(PendingTimer { timer, at, step }, steps)
    }

    /// Executes a command of a layer.
    pub(super) fn emit<L: Ledger>(
        &mut self,
        context: &Context,
        emit: &Emit,
        out: &mut List<Offer>,
        steps: &mut Steps<L>,
    ) -> Result<(), NoMemory>
        ensures done { OnOk result (Follows self.old out.old self.new out.new
            (λ d token. with_emit context.now.at emit.now)) }
        ensures err { OnErr result (out.new ≡ out.old) }
        ensures calls { self.new.calls ≡ self.old.calls }
    {
        match emit {
            Emit::Ask { peer, msg } => self.send_request(context, *peer, msg, out, steps),
            Emit::Reply { key, msg } => self.send_response(context, *key, msg, out, steps),
            Emit::Plain { peer, text } => self.send_text(context, *peer, text.bytes(), out),
            Emit::Ack { key, msg } => self.send_ack(context, *key, msg, out, steps),
            Emit::Settled { key, own } => self.settle_responses(*key, *own, steps),
            Emit::Arm {
                call,
                what,
                at: when,
            } => {
                let timer = ServiceTimer::OfCall {
                    call: *call,
                    what: *what,
                };
                self.arm_timer(timer, *when, steps)
            }
            Emit::ArmSeat {
                room,
                seat,
                what,
                at: when,
            } => {
                let timer = ServiceTimer::OfParticipant {
                    room: *room,
                    seat: *seat,
                    what: *what,
                };
                self.arm_timer(timer, *when, steps)
            }
        }
    }

    /// Executes all commands of a layer, in order.
    pub(super) fn emit_all<L: Ledger>(
        &mut self,
        context: &Context,
        emits: &[Emit],
        out: &mut List<Offer>,
        steps: &mut Steps<L>,
    ) -> Result<(), NoMemory>
        ensures done { OnOk result (Follows self.old out.old self.new out.new
            (λ d token. with_emits context.now.at emits.now)) }
        ensures err { OnErr result (AddsOfferPrefix self.old out.old out.new (λ d token. with_emits context.now.at emits.now)) }
        ensures calls { self.new.calls ≡ self.old.calls }
    {
        for emit in emits {
            self.emit(context, emit, out, steps)?;
        }
        Ok(())
    }
}
