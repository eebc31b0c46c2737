//! What the layers above receive from the transactions, and the commands that they pass down.
ghost use Rattle.std.specs.Prelude.{◌≡◌};
ghost use Rattle.mmtel_transaction.specs.declared.words.HearFault.TheVariants as fault;

use mmtel_base::{List, NoMemory, Text};
use mmtel_message::Msg;
use mmtel_types::{CallNo, Peer, RoomNo};

/// The number of a transaction: how many were opened before it, servers and clients together.
#[derive(Clone, Copy, Debug, PartialEq, Eq, PartialOrd, Ord)]
pub struct TKey(pub u64);

/// A deadline of a call, with the number of the attempt, reliable response or 2xx, counted within the call, for which it was armed.
///
/// A deadline whose attempt, response or 2xx no longer waits for it emits nothing.
#[derive(Clone, Copy, Debug, PartialEq, Eq)]
pub enum DueWord {
    /// The target did not answer in time.
    NoReply(u64),
    /// No PRACK of a reliable provisional response came (RFC 3262 §3).
    NoPrack(u64),
    /// The longest time for which a call may ring is over.
    Cap(u64),
    /// No ACK of a 2xx came.
    NoAck(u64),
    /// The session was not refreshed in the time that a 2xx gave it (RFC 4028 §10).
    Expired(u64),
}

/// A deadline of a conference, with the number of the invitation or 2xx, counted within the conference, for which it was armed.
///
/// A deadline whose invitation or 2xx no longer waits for it emits nothing.
#[derive(Clone, Copy, Debug, PartialEq, Eq)]
pub enum RoomWord {
    /// The longest time for which an invitation may ring is over.
    Cap(u64),
    /// No ACK of a 2xx came.
    NoAck(u64),
}

/// A command of a call or of a conference.
#[derive(Drop)]
pub enum Emit {
    /// A request is sent in a client transaction of its own.
    Ask {
        peer: Peer,
        msg: Msg,
    },
    /// A response is sent in a server transaction.
    Reply {
        key: TKey,
        msg: Msg,
    },
    /// An ACK that is not of a non-2xx final is sent.
    Plain {
        peer: Peer,
        text: Text,
    },
    /// The ACK of the non-2xx final that the client transaction received is sent.
    Ack {
        key: TKey,
        msg: Msg,
    },
    /// The reliable provisional response of this number in a server transaction, or with None each of them, is no longer retransmitted (RFC 3262 §3).
    Settled {
        key: TKey,
        own: Option<u32>,
    },
    /// A deadline of a call is armed, for a moment in milliseconds since 1970-01-01T00:00:00Z.
    Arm {
        call: CallNo,
        what: DueWord,
        at: u64,
    },
    /// A deadline of a participant of a conference is armed, for a moment in milliseconds since 1970-01-01T00:00:00Z.
    ArmSeat {
        room: RoomNo,
        seat: u64,
        what: RoomWord,
        at: u64,
    },
}

/// The commands of a call or of a conference, in order.
pub type Emits = List<Emit>;

/// What a received message is.
#[derive(Drop)]
pub enum Heard {
    /// A request that opened this server transaction.
    Fresh(TKey, Msg),
    /// A response to the request of this client transaction.
    Answer(TKey, Msg),
    /// A request, or a non-2xx final of an INVITE, that is received again; what is to be retransmitted, and to whom, None where nothing is.
    Repeat(Option<(Peer, Text)>),
    /// The ACK of the non-2xx final of this server transaction.
    Acked(TKey),
    /// A CANCEL that opened this server transaction, and the live INVITE transaction that it cancels, if there is one.
    Cancel(TKey, Option<TKey>, Msg),
    /// Any other ACK.
    AckOf2xx(Msg),
    /// A response that matches no live client transaction.
    Stray,
}

/// Why a message was refused.
#[derive(Drop)]
pub enum HearFault {
    /// It would open a server transaction, and as many are live as may be; the message is handed back.
    Full(Msg),
    /// Memory ran out.
    NoMemory,
}

impl From<NoMemory> for HearFault {
    ghost from_gives = { λ _ e. e ≡ fault.NoMemory };

    fn from(_error: NoMemory) -> HearFault {
        HearFault::NoMemory
    }
}

/// The effect of a deadline. Moments are in milliseconds since 1970-01-01T00:00:00Z.
#[derive(Drop)]
pub enum Due {
    /// This text is retransmitted to the peer: the deadline's moment is the second field.
    Again(Peer, u64, Text),
    /// The request of this client transaction timed out, which ends the transaction.
    Silent {
        key: TKey,
        branch: Text,
        method: Text,
        at: u64,
    },
    /// The transaction ends.
    Over(TKey, u64),
    /// No deadline is due.
    Nothing,
}
