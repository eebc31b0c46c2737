//! The inputs and outputs of a run.

use mmtel_base::Text;
use mmtel_types::{Addr, Moment, Peer};

/// An input of a run.
#[derive(Debug, Drop)]
pub enum Event {
    /// A datagram.
    Datagram {
        /// Where it came from.
        from: Addr,
        /// When it was received.
        at: Moment,
        /// Its bytes.
        bytes: Text,
    },
    /// A request on a web connection.
    Web {
        /// When it was received.
        at: Moment,
        /// Its bytes.
        bytes: Text,
    },
    /// A tick: nothing was received until a moment.
    Quiet {
        /// The moment.
        at: Moment,
    },
}

/// An output of a run.
#[derive(Debug, Drop)]
pub enum Offer {
    /// A datagram to a peer.
    To {
        /// The peer.
        peer: Peer,
        /// The moment, in milliseconds since 1970-01-01T00:00:00Z.
        at: u64,
        /// The bytes of the datagram.
        text: Text,
    },
    /// A reply, on the web connection of the request.
    Web {
        /// The moment, in milliseconds since 1970-01-01T00:00:00Z.
        at: u64,
        /// The bytes of the reply.
        text: Text,
    },
}
