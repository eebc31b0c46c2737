//! Parsing of a datagram.
ghost use Rattle.std.specs.Prelude.{◌≡◌, IfOk};
ghost use Rattle.mmtel_message.specs.Reads.{read_result};
ghost use Rattle.mmtel_run_definitions.specs.Events.{moment_of, parsed_datagram, parsed_from, parsed_refusal, parsed_result};
ghost use Rattle.mmtel_admission.specs.ParsedDatagrams.{parsed_event_in};

use mmtel_base::NoMemory;
use mmtel_compose::ReceivedMessage;
use mmtel_directory::Directory;
use mmtel_environment::Event;
use mmtel_message::{Msg, ReadFault, read};
use mmtel_trust::PeerTable;
use mmtel_types::{Addr, Moment, Peer};
use std::alloc::Global;

/// The result of parsing a datagram.
#[derive(Drop)]
pub enum ParsedDatagram {
    /// Nothing: the datagram is dropped.
    Nothing,
    /// Bytes of a peer that are refused as they are read.
    Refused {
        /// The peer that sent them.
        peer: Peer,
        /// The address from which that peer sent them.
        source: Addr,
        /// The reply that is due, not yet completed for the peer.
        reply: Msg,
    },
    /// A message of a peer.
    Received(ReceivedMessage),
}

/// The moment of an event.
pub fn moment(event: &Event) -> Moment
    ensures moment { result ≡ moment_of event.now }
{
    match event {
        Event::Datagram { at, .. } => *at,
        Event::Web { at, .. } => *at,
        Event::Quiet { at } => *at,
    }
}

/// The result for bytes that are refused: the reply, where one is due.
fn refusal_or_nothing(peer: Peer, source: Addr, reply: Option<Msg>) -> ParsedDatagram
    ensures { parsed_event_in result ≡ parsed_refusal peer source reply }
{
    match reply {
        None => ParsedDatagram::Nothing,
        Some(reply) => ParsedDatagram::Refused {
            peer,
            source,
            reply,
        },
    }
}

/// The result for what a peer sent from this address.
fn parse_from_peer(
    alloc: Global,
    peers: &PeerTable,
    peer: Peer,
    source: Addr,
    bytes: &[u8],
) -> Result<ParsedDatagram, NoMemory>
    ensures { IfOk result (λ told. parsed_event_in told ≡ parsed_result peers.now peer source (read_result bytes.now)) }
{
    match read(alloc, bytes) {
        Ok(message) => Ok(ParsedDatagram::Received(ReceivedMessage {
            peer,
            source,
            trusted: peers.trusted(peer),
            message,
        })),
        Err(ReadFault::TooLarge { reply }) => Ok(refusal_or_nothing(peer, source, reply)),
        Err(ReadFault::NotSip) => Ok(ParsedDatagram::Nothing),
        Err(ReadFault::TooMany { reply }) => Ok(refusal_or_nothing(peer, source, reply)),
        Err(ReadFault::Bad { at: _, reply }) => Ok(refusal_or_nothing(peer, source, reply)),
        Err(ReadFault::NoMemory) => Err(NoMemory),
    }
}

/// The result for what was sent from this address, by this peer if it is one of those configured.
fn parse_from(
    alloc: Global,
    peers: &PeerTable,
    peer: Option<Peer>,
    source: Addr,
    bytes: &[u8],
) -> Result<ParsedDatagram, NoMemory>
    ensures { IfOk result (λ told. parsed_event_in told ≡ parsed_from peers.now source bytes.now peer) }
{
    match peer {
        None => Ok(ParsedDatagram::Nothing),
        Some(peer) => parse_from_peer(alloc, peers, peer, source, bytes),
    }
}

/// What is read of a datagram: from the address of a peer the message, or the reply that is due where the bytes are refused as they are read (RFC 3261 §7, §18.3);
/// from any other address nothing.
///
/// # Errors
///
/// Out of memory only.
#[tactic(auto, unfolding(mmtel_run_definitions::specs::Events::parsed_datagram))]
pub fn parse_datagram(
    alloc: Global,
    directory: &Directory,
    from: Addr,
    bytes: &[u8],
) -> Result<ParsedDatagram, NoMemory>
    ensures reported { IfOk result (λ told. parsed_event_in told ≡ parsed_datagram directory.now from bytes.now) }
{
    parse_from(
        alloc,
        &directory.peers,
        directory.peers.find(from),
        from,
        bytes,
    )
}
