//! The signals that the calls receive.

use mmtel_base::Text;
use mmtel_compose::ReceivedMessage;
use mmtel_rules::Identities2;
use mmtel_served_user::{RegistrationState, Served};
use mmtel_transaction::{DueWord, TKey};
use mmtel_types::{CallNo, Side};

/// A signal that the calls receive. A received message contains the peer from which it came.
#[derive(Drop)]
pub enum Signal {
    /// An INVITE without To tag, with what was read of its parties (RFC 5502 §6): it opens a call.
    Arrived {
        key: TKey,
        invite: ReceivedMessage,
        served: Served,
        registration: Option<RegistrationState>,
        identities: Identities2,
    },
    /// A request of a side in its dialog, other than ACK; it opened this server transaction.
    Request {
        call: CallNo,
        side: Side,
        key: TKey,
        request: ReceivedMessage,
    },
    /// An ACK of a side for a 2xx.
    Ack {
        call: CallNo,
        side: Side,
        ack: ReceivedMessage,
    },
    /// A CANCEL, which opened the first server transaction, of the INVITE of the second.
    Cancel {
        call: CallNo,
        key: TKey,
        cancel: ReceivedMessage,
        invite: TKey,
    },
    /// A response that was received in this client transaction; the request to which it belongs is identified by the branch and the CSeq method.
    Answer {
        key: TKey,
        response: ReceivedMessage,
    },
    /// A request timed out without any response: its branch, with the cookie, and its method.
    Silent {
        branch: Text,
        method: Text,
    },
    /// A deadline of a call fired.
    Due {
        call: CallNo,
        what: DueWord,
    },
    /// The client transaction of a request that got its final response has ended.
    Over {
        key: TKey,
    },
}

/// Why a signal is refused.
#[derive(Drop)]
pub enum CallFault {
    /// The maximum number of calls is live; no call is opened, and the signal is handed back.
    Full(Signal),
    /// Memory ran out.
    NoMemory,
}
