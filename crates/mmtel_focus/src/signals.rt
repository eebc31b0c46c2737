//! What conferences and their participants receive.

use mmtel_base::Text;
use mmtel_compose::ReceivedMessage;
use mmtel_transaction::{RoomWord, TKey};
use mmtel_types::RoomNo;

/// What the conferences receive. Each message comes with the peer from which it was received.
#[derive(Drop)]
pub enum RoomSignal {
    /// A request of a participant in its dialog, other than ACK; it opened this server transaction.
    Request {
        room: RoomNo,
        seat: u64,
        key: TKey,
        request: ReceivedMessage,
    },
    /// An ACK of a participant, to a 2xx.
    Ack {
        room: RoomNo,
        seat: u64,
        ack: ReceivedMessage,
    },
    /// A response that this client transaction received; it is matched by the branch and the CSeq method of the request that it answers.
    Answer {
        key: TKey,
        response: ReceivedMessage,
    },
    /// A request got no response at all and its client transaction timed out: its branch, with the magic cookie, and its method.
    Silent {
        branch: Text,
        method: Text,
    },
    /// A timer of a participant fired.
    Due {
        room: RoomNo,
        seat: u64,
        what: RoomWord,
    },
    /// The client transaction of a request that was answered has ended.
    Over {
        key: TKey,
    },
}

/// What a participant receives; its messages are borrowed from the signal that the conferences receive.
#[derive(Clone, Copy)]
pub enum BorrowedSignal<'a> {
    /// A request of it, which opened this server transaction.
    Request {
        key: TKey,
        request: &'a ReceivedMessage,
    },
    /// An ACK of it.
    Ack {
        ack: &'a ReceivedMessage,
    },
    /// A response to the server's INVITE to it, with the client transaction.
    Answer {
        key: TKey,
        response: &'a ReceivedMessage,
    },
    /// The server's INVITE to it got no response at all and timed out.
    Silent,
    /// A timer of it fired.
    Due {
        what: RoomWord,
    },
}

/// How a leg enters a conference.
#[derive(Drop)]
pub enum Joining<'a> {
    /// By this INVITE, which offers audio and opened this server transaction.
    Invited {
        key: TKey,
        invite: &'a ReceivedMessage,
    },
    /// Out of a call, by the REFER of the participant of this number.
    Referred {
        by: u64,
    },
}
