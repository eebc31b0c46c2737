//! The reliable provisional responses that are relayed to a caller, and their acknowledgement (RFC 3262 §3, §4).
ghost use Rattle.std.specs.Prelude.{◌≡◌, [], ◌∷◌, IfOk, List};
ghost use Rattle.mmtel_reliable.specs.Acks.{after_ack, after_relay, callee_number, comes_next, has_own, is_acknowledged_by, next_attempt, no_responses, own_number};
ghost use Rattle.mmtel_reliable.specs.Traces.{Acknowledges, AcksOperation, LeavesAttempt, Relays, Represents};

use crate::racks::{GREATEST_NUMBER, Rack};
use mmtel_base::NoMemory;
use std::alloc::Global;
use std::collections::VecDeque;
use std::marker::Model;

/// How many responses may wait for their PRACK at once.
const MOST_WAITING: usize = 16;

/// A reliable provisional response that was relayed.
#[derive(Clone, Copy, Debug, PartialEq, Eq)]
pub struct ReliableResponse {
    /// The server's own number, which the RSeq line sent to the caller has.
    pub own: u32,
    /// The callee's number, which the RSeq line received from the callee had.
    pub callee: u32,
}

/// The reliable provisional responses to the INVITE of a caller that were relayed, over all attempts of the call.
///
/// The caller has one dialog with the server, whichever callee is called: the numbers that it sees are 1, 2, 3 and so on, and those of an attempt are the callee's own.
#[derive(Drop)]
pub struct Acks {
    cseq: u32,
    assigned: u32,
    last_relayed: Option<u32>,
    waiting: VecDeque<ReliableResponse>,
}

impl Model for Acks {
    ghost use Rattle.mmtel_reliable.specs.Acks.{AcksView};

    ghost Value = { AcksView };

    ghost use Rattle.std.specs.Prelude.{◌≡◌};
    ghost use Rattle.std.specs.VecDeque.{deque_capacity};

    ghost view = { λ acks. record { cseq = acks.cseq; assigned = acks.assigned; last_relayed = acks.last_relayed; waiting = acks.waiting.items } };

    ghost invariant = { λ acks. deque_capacity acks.waiting ≡ 16 };
}

impl Acks {
    /// A value in which no response was relayed to the INVITE of this CSeq number. It allocates capacity for 16 responses, so that no other function allocates.
    ///
    /// # Errors
    ///
    /// Out of memory only.
    pub fn new(alloc: Global, cseq: u32) -> Result<Acks, NoMemory>
        ensures none { IfOk result (λ acks. acks ≡ no_responses cseq) }
        ensures represents { IfOk result (λ acks. Represents acks []) }
    {
        let waiting = VecDeque::with_capacity(alloc, MOST_WAITING)?;
        Ok(Acks {
            cseq,
            assigned: 0,
            last_relayed: None,
            waiting,
        })
    }

    /// Relays a response of the callee that has this number, and returns its own number towards the caller.
    ///
    /// It is None exactly where the number is not one more than that of the last response of this attempt that was relayed (the first may have any), where 16 responses wait for
    /// their PRACK, or where the own number would pass 2^31 - 1. Nothing has then changed.
    pub fn relay(&mut self, rseq: u32) -> Option<u32>
        ensures number { result ≡ own_number rseq self.old }
        ensures after { self.new ≡ after_relay rseq self.old }
        ensures represents { (ops : List AcksOperation) → Represents self.old ops → Represents self.new (Relays rseq ∷ ops) }
    {
        if !comes_next(rseq, self.last_relayed)
            || self.waiting.len() >= MOST_WAITING
            || self.assigned >= GREATEST_NUMBER
        {
            return None;
        }
        let own = self.assigned + 1;
        match self
            .waiting
            .push_back(ReliableResponse { own, callee: rseq })
        {
            Ok(()) => {}
            Err(_) => unreachable!(),
        }
        self.assigned = own;
        self.last_relayed = Some(rseq);
        Some(own)
    }

    /// Handles a PRACK of the caller, and returns the callee's number of the response that it acknowledges.
    ///
    /// It is None exactly where the PRACK does not name the response that has waited longest, or the caller's INVITE by its CSeq. Nothing has then changed.
    pub fn acked(&mut self, rack: &Rack) -> Option<u32>
        ensures number { result ≡ callee_number rack.now self.old }
        ensures after { self.new ≡ after_ack rack.now self.old }
        ensures represents { (ops : List AcksOperation) → Represents self.old ops → Represents self.new (Acknowledges rack.now ∷ ops) }
    {
        match self.waiting.front() {
            Some(first) if is_acknowledged_by(rack, self.cseq, *first) => {
                let callee = first.callee;
                let _ = self.waiting.pop_front();
                Some(callee)
            }
            _ => None,
        }
    }

    /// Leaves the attempt: none of its responses waits any longer, and the next callee may begin with any number. Own numbers continue.
    pub fn next_attempt(&mut self)
        ensures after { self.new ≡ next_attempt self.old }
        ensures represents { (ops : List AcksOperation) → Represents self.old ops → Represents self.new (LeavesAttempt ∷ ops) }
    {
        self.waiting.clear();
        self.last_relayed = None;
    }

    /// Whether the response of this own number, as a deadline has it, waits for its PRACK: it belongs to the current attempt, and was not acknowledged.
    pub fn is_waiting(&self, own: u64) -> bool
        ensures test { result ≡ has_own own self.now.waiting }
    {
        self.waiting
            .iter()
            .any(|answer| u64::from(answer.own) == own)
    }
}

/// Whether the callee's number is that of its next response.
fn comes_next(rseq: u32, last: Option<u32>) -> bool
    ensures { result ≡ comes_next rseq last }
{
    match last {
        None => true,
        Some(last) => last.checked_add(1) == Some(rseq),
    }
}

/// Whether a PRACK acknowledges this response to the INVITE of this CSeq number.
fn is_acknowledged_by(rack: &Rack, cseq: u32, response: ReliableResponse) -> bool
    ensures { result ≡ is_acknowledged_by rack.now cseq response }
{
    rack.answer == response.own && rack.cseq == cseq && rack.invite
}
