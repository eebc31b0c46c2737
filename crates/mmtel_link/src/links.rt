//! Where datagrams and web connections come from, and where datagrams go.
ghost use Rattle.std.specs.Prelude.{◌≡◌, ◌≤◌, ◌<◌, ℕ, length, Option, IfOk};
ghost use Rattle.mmtel_environment.specs.Counts.{HasCause};
ghost use Rattle.mmtel_link.specs.Causes.{HasSendCause};
ghost use Rattle.mmtel_link.specs.LinkStates.{LinkInput, LinkOutput, LinkCalls, NextIfExposed, ReadIfExposed, DeliversIfExposed};
ghost use Rattle.mmtel_link.specs.LinkStates.{IsCountedCall, IsCountedBind, IsCountedDelivery, with_offer, with_reply};

use mmtel_base::{NoMemory, Text};
use mmtel_types::{Addr, Failed, Moment};
use std::alloc::Global;

/// Why something was not sent.
#[derive(Clone, Copy, Debug, PartialEq, Eq)]
pub enum SendFault {
    /// It is lost. It was counted.
    Failed,
    /// Memory ran out. It was not counted.
    NoMemory,
}

impl From<NoMemory> for SendFault {
    ghost use Rattle.mmtel_link.specs.declared.links.SendFault.TheVariants as fault;

    ghost from_gives = { λ _ e. e ≡ fault.NoMemory };

    fn from(_error: NoMemory) -> SendFault {
        SendFault::NoMemory
    }
}

/// What was received.
#[derive(Debug, Drop)]
pub enum Arrival {
    /// A datagram.
    Datagram {
        /// Where it came from.
        from: Addr,
        /// When it was received.
        at: Moment,
        /// Its bytes.
        bytes: Text,
    },
    /// A web connection, which can be read until the next call of `next`.
    Web {
        /// When it was received.
        at: Moment,
    },
    /// A tick: nothing was received until this moment.
    Quiet {
        /// The moment.
        at: Moment,
    },
    /// The link is closed: nothing will be received.
    Closed,
    /// Memory ran out.
    NoMemory,
}

/// Where datagrams and web connections come from, and where datagrams go, with two counts of faults: of arrival (`bind`, `next`) and of delivery (the others).
pub trait Link {
    /// The events received, where they are known.
    ghost input: { Self → Option LinkInput };

    /// The outputs, where they are known.
    ghost output: { Self → Option LinkOutput };

    /// The addresses bound last, the number of calls so far and the numbers of those that fail, where they are known.
    ghost calls: { Self → Option LinkCalls };

    /// The count of arrival faults: how many calls of `bind` and `next` failed. It never decreases, and remains at the greatest u64.
    ghost arrival_faults: { Self → ℕ };

    /// The count of delivery faults: how many of the other calls failed. It never decreases, and remains at the greatest u64.
    ghost delivery_faults: { Self → ℕ };

    /// Binds the addresses for datagrams and for web connections.
    ///
    /// # Errors
    ///
    /// `Failed` only where the count of arrival faults rose in this call.
    fn bind(&mut self, sip: Addr, web: Addr) -> Result<(), Failed>
        ensures received { input self.new ≡ input self.old }
        ensures output { output self.new ≡ output self.old }
        ensures calls { IsCountedBind (calls self.old) (calls self.new) sip web result }
        ensures delivery_faults { delivery_faults self.new ≡ delivery_faults self.old }
        ensures cause { HasCause (arrival_faults self.old) (arrival_faults self.new) result };

    /// The next event. A web connection that was received before is closed.
    ///
    /// # Errors
    ///
    /// `Failed` only where the count of arrival faults rose in this call.
    fn next(&mut self, alloc: Global) -> Result<Arrival, Failed>
        ensures received { NextIfExposed (input self.old) (input self.new) result }
        ensures output { output self.new ≡ output self.old }
        ensures calls { IsCountedCall (calls self.old) (calls self.new) result }
        ensures delivery_faults { delivery_faults self.new ≡ delivery_faults self.old }
        ensures cause { HasCause (arrival_faults self.old) (arrival_faults self.new) result };

    /// Reads of the connection that was received last into the front of the buffer; 0 bytes exactly at its end.
    ///
    /// # Errors
    ///
    /// `Failed` only where the count of delivery faults rose in this call. It ends the connection.
    fn web_read(&mut self, buf: &mut [u8]) -> Result<usize, Failed>
        requires capacity { 0 < length buf.old }
        ensures within { IfOk result (λ n. n ≤ length buf.new) }
        ensures received { ReadIfExposed (input self.old) (input self.new) buf.old buf.new result }
        ensures output { output self.new ≡ output self.old }
        ensures calls { IsCountedCall (calls self.old) (calls self.new) result }
        ensures arrival_faults { arrival_faults self.new ≡ arrival_faults self.old }
        ensures cause { HasCause (delivery_faults self.old) (delivery_faults self.new) result };

    /// Replies on the connection that was received last.
    ///
    /// # Errors
    ///
    /// `Failed` only where the count of delivery faults rose in this call: the reply is lost.
    fn web_reply(&mut self, alloc: Global, bytes: &[u8]) -> Result<(), SendFault>
        ensures received { input self.new ≡ input self.old }
        ensures output { DeliversIfExposed (output self.old) (output self.new) (with_reply bytes.now) result }
        ensures calls { IsCountedDelivery (calls self.old) (calls self.new) result }
        ensures arrival_faults { arrival_faults self.new ≡ arrival_faults self.old }
        ensures cause { HasSendCause (delivery_faults self.old) (delivery_faults self.new) result };

    /// Sends a datagram.
    ///
    /// # Errors
    ///
    /// `Failed` only where the count of delivery faults rose in this call: the datagram is lost.
    fn send(&mut self, alloc: Global, to: Addr, bytes: &[u8]) -> Result<(), SendFault>
        ensures received { input self.new ≡ input self.old }
        ensures output { DeliversIfExposed (output self.old) (output self.new) (with_offer to bytes.now) result }
        ensures calls { IsCountedDelivery (calls self.old) (calls self.new) result }
        ensures arrival_faults { arrival_faults self.new ≡ arrival_faults self.old }
        ensures cause { HasSendCause (delivery_faults self.old) (delivery_faults self.new) result };
}
