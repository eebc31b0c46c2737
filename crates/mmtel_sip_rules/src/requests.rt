//! Decisions about a request: to what an ACK belongs, the status of the response to a request for which the step table has no transition, and whether a retransmission gets the
//! response again.
ghost use Rattle.std.specs.Prelude.{◌≡◌};
ghost use Rattle.mmtel_sip_rules.specs.Requests.{is_ack_of, is_response_retransmitted, is_same_number, is_same_side, status_out_of_place};

use mmtel_types::{Peer, Side};

/// For how many milliseconds a 2xx waits for its ACK (RFC 3261 §13.3.1.4: 64 times T1).
pub const ACK_TIME: u64 = 32_000;

/// Whether two sides are equal.
pub fn is_same_side(one: Side, other: Side) -> bool
    ensures exact { result ≡ is_same_side one other }
{
    match one {
        Side::Caller => match other {
            Side::Caller => true,
            Side::Callee => false,
        },
        Side::Callee => match other {
            Side::Caller => false,
            Side::Callee => true,
        },
    }
}

/// Whether there are two numbers of CSeq, and they are equal.
pub fn is_same_number(one: Option<u32>, other: Option<u32>) -> bool
    ensures exact { result ≡ is_same_number one other }
{
    match one {
        None => false,
        Some(one) => match other {
            None => false,
            Some(other) => one == other,
        },
    }
}

/// Whether an ACK of a side with this CSeq number belongs to a 2xx that waits for one from that side, where the INVITE had the number that is due (RFC 3261 §13.2.2.4).
pub fn is_ack_of(waiting: Side, due: Option<u32>, side: Side, number: Option<u32>) -> bool
    ensures exact { result ≡ is_ack_of waiting due side number }
{
    is_same_side(waiting, side) && is_same_number(number, due)
}

/// The status of the response to a request of this method for which the step table has no transition: 200 to OPTIONS (RFC 3261 §11.2), 403 to REFER, which only a conference
/// accepts, and 481 to a request at the wrong time (§12.2.2).
pub fn status_out_of_place(method: &[u8]) -> u16
    ensures exact { result ≡ status_out_of_place method.now }
{
    if method == b"OPTIONS".as_slice() {
        return 200;
    }
    if method == b"REFER".as_slice() {
        return 403;
    }
    481
}

/// Whether what a transaction sent last is sent again to a retransmitted request: only to the peer that opened it, until the ACK was received, and not a 2xx of an INVITE
/// (RFC 3261 §17.2.1, §17.2.2; RFC 6026 §7.1).
pub fn is_response_retransmitted(opener: Peer, sender: Peer, acked: bool, succeeded: bool) -> bool
    ensures exact { result ≡ is_response_retransmitted opener sender acked succeeded }
{
    sender.0 == opener.0 && !acked && !succeeded
}
