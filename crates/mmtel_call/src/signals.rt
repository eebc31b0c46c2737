//! The signals that a call receives.

use mmtel_base::Text;
use mmtel_compose::ReceivedMessage;
use mmtel_transaction::{DueWord, TKey};
use mmtel_types::Side;

/// A request of a side in its dialog, other than ACK, and the server transaction that it opened.
#[derive(Drop)]
pub struct SideRequest {
    /// The side that sent it.
    pub side: Side,
    /// Its server transaction.
    pub key: TKey,
    /// The request as it was received.
    pub message: ReceivedMessage,
}

/// A signal that a call receives after it was opened.
#[derive(Drop)]
pub enum Signal {
    /// A request of a side in its dialog, other than ACK; it opened this server transaction.
    Request {
        side: Side,
        key: TKey,
        request: ReceivedMessage,
    },
    /// An ACK of a side for a 2xx.
    Ack {
        side: Side,
        ack: ReceivedMessage,
    },
    /// A CANCEL, which opened the first server transaction, of the INVITE of the second.
    Cancel {
        key: TKey,
        cancel: ReceivedMessage,
        invite: TKey,
    },
    /// A response that was received in this client transaction.
    Answer {
        key: TKey,
        response: ReceivedMessage,
    },
    /// A request timed out without any response: its branch, with the cookie, and its method.
    Silent {
        branch: Text,
        method: Text,
    },
    /// A deadline fired.
    Due {
        what: DueWord,
    },
    /// The client transaction of a request that got its final response has ended.
    Ended {
        key: TKey,
    },
}
