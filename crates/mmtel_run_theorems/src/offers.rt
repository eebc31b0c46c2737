//! The outputs of a run are only added to; and which of them are sent to an address. These are theorems, without code.
ghost use Rattle.mmtel_run_theorems.specs.Additions.{DeadlinesAdd, EventsAdd, RunsAdd};
ghost use Rattle.mmtel_run_theorems.specs.SentBytes.{BytesAreSeen, PeersAreApart};

/// The outputs of a run are never read again in it: an event, with the timers that are due by it, appends its outputs to those before, whatever these are, and does all else
/// equally. So a server need not store its outputs to determine the next ones.
pub fn offers_are_added()
    ensures events { EventsAdd }
    ensures deadlines { DeadlinesAdd }
    ensures runs { RunsAdd }
{}

/// Whatever is output, the bytes that are sent to the address of a peer are those of the outputs to this peer, in order, and of no other peer.
pub fn bytes_are_seen()
    ensures law { BytesAreSeen }
    ensures apart { PeersAreApart }
{}
