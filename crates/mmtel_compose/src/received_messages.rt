//! Received messages.
ghost use Rattle.std.specs.Prelude.{◌≡◌, IfOk};
ghost use Rattle.mmtel_leg.specs.Remotes.{remote_of};
ghost use Rattle.mmtel_compose.specs.Requests.{remaining_hops};
ghost use Rattle.mmtel_compose.specs.ReceivedMessages.{number_of, phrase_in, status_of, to_tag_of};
ghost use Rattle.mmtel_types.specs.declared.sides.Side.TheVariants.{Callee};

use mmtel_base::{NoMemory, number_up_to};
use mmtel_leg::{Remote, number_in};
use mmtel_message::{Msg, Start};
use mmtel_types::{Addr, Peer, Side};
use std::alloc::Global;
use std::marker::Model;

/// A received message. Its value in contracts is what was read of it.
#[derive(Drop)]
pub struct ReceivedMessage {
    /// The peer from which it was received.
    pub peer: Peer,
    /// The address of that peer.
    pub source: Addr,
    /// Whether that peer is trusted.
    pub trusted: bool,
    /// The message.
    pub message: Msg,
}

impl Model for ReceivedMessage {
    ghost use Rattle.mmtel_compose.specs.ReceivedMessages.{MessageView, message_view};

    ghost Value = { MessageView };

    ghost view = { λ h. message_view h.peer h.source h.trusted h.message };
}

/// The status of a response; 0 of a request.
pub fn status_of(start: &Start) -> u16
    ensures { result ≡ status_of start.now }
{
    match start {
        Start::Request { method: _, uri: _ } => 0,
        Start::Status { code, phrase: _ } => *code,
    }
}

/// The phrase of a response; no bytes of a request.
pub fn phrase_in(start: &Start) -> &[u8]
    ensures { result.now ≡ phrase_in start.now }
{
    match start {
        Start::Request { method: _, uri: _ } => b"",
        Start::Status { code: _, phrase } => phrase.bytes(),
    }
}

/// The remaining hops of a request that relays this one.
pub fn remaining_hops(message: &ReceivedMessage) -> u8
    ensures { result ≡ remaining_hops message.now.parsed.hops }
{
    match message.message.first(b"Max-Forwards") {
        None => 69,
        Some(value) => match number_up_to(255, value) {
            None => 69,
            Some(hops) => (hops as u8).saturating_sub(1),
        },
    }
}

/// The number of CSeq of a message (RFC 3261 §20.16), where that can be read. It allocates nothing.
#[tactic(auto, unfolding(mmtel_leg::specs::Dialogues::number_in))]
pub fn number_of(message: &ReceivedMessage) -> Option<u32>
    ensures number { result ≡ number_of message.now }
{
    number_in(&message.message)
}

/// The callee's tag, target and route set in a response (RFC 3261 §12.1.2).
///
/// # Errors
///
/// Out of memory only.
#[tactic(auto, unfolding(mmtel_leg::specs::Remotes::tag_in))]
pub fn callee_remote(alloc: Global, response: &ReceivedMessage) -> Result<Remote, NoMemory>
    ensures remote { IfOk result (λ r. r ≡ remote_of Callee response.now.parsed.lines) }
    ensures tag { IfOk result (λ r. r.tag ≡ to_tag_of response.now) }
{
    Remote::read(alloc, &response.message, Side::Callee)
}
