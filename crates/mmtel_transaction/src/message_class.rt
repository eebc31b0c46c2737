//! How a message is classified.

/// The class of a received message, with the key of the transaction to which it belongs.
#[derive(Clone, Copy, Debug, PartialEq, Eq)]
pub enum MessageClass {
    /// It opens a server transaction.
    Fresh,
    /// It would open one, but as many are live as may be.
    Full,
    /// A retransmission of the request of a live server transaction.
    Repeat(u64),
    /// A further non-2xx final of a live client INVITE transaction that has had one.
    RepeatedFinal(u64),
    /// A response to a live client transaction.
    Answer(u64),
    /// The ACK of a non-2xx final.
    Acked(u64),
    /// Any other ACK.
    AckOf2xx,
    /// A response that matches no live client transaction.
    Stray,
}
