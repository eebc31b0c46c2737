//! A script as a link.
ghost use Rattle.std.specs.Prelude.{◌≡◌, None, Some, IfOk, length};
ghost use Rattle.mmtel_link.specs.LinkStates.{LinkInput};
ghost use Rattle.mmtel_script.specs.Script.{ReadsScript, events_of, initial_input};

use crate::scripts::{ScriptFault, read_events};
use mmtel_base::List;
use mmtel_environment::Event;
use mmtel_link::{Arrival, Link, MemoryLink, SendFault};
use mmtel_trust::PeerTable;
use mmtel_types::{Addr, Failed};
use std::alloc::Global;
use std::marker::Model;

/// A link whose events are those of a script. The received events are known in contracts, the outputs are not, which it does not record. No call of it fails.
#[derive(Drop)]
pub struct ScriptLink {
    /// The events, on a link none of whose calls fails by its number.
    link: MemoryLink,
}

impl Model for ScriptLink {
    ghost use Rattle.std.specs.Prelude.{◌≡◌, []};
    ghost use Rattle.mmtel_link.specs.LinkStates.{LinkInput};

    ghost Value = { LinkInput };

    ghost view = { λ script. script.link.input };

    ghost invariant = { λ script. script.link.calls.failing ≡ [] };
}

impl ScriptLink {
    /// Reads a script of events from these peers.
    ///
    /// Each line ends with LF, which the last may lack; one that is empty or begins with `#` is ignored. An event begins with a line `at M peer N`, a
    /// datagram, `at M web`, a web request, or `at M quiet`, a tick: nothing is received until then. `M` is its moment in milliseconds since 1970-01-01T00:00:00Z and
    /// `N` the number of a peer, which represents the peer's address, both in decimal without leading zeros. The bytes of a datagram or of a web request follow
    /// in lines of `|` and bytes, each of which means the bytes and CRLF, of `+` and bytes, which means the bytes alone, or of `x` and pairs of hexadecimal
    /// digits in lower case. An event without such lines has no bytes.
    ///
    /// # Errors
    ///
    /// `BadLine` exactly with the first line that breaks this; else out of memory only.
    pub fn read(alloc: Global, bytes: &[u8], peers: &PeerTable) -> Result<ScriptLink, ScriptFault>
        ensures exact { ReadsScript result (events_of peers.now.known bytes.now) }
        ensures no_arrivals { IfOk result (λ script. script ≡ initial_input script.events) }
    {
        let events = read_events(alloc, bytes, peers)?;
        Ok(ScriptLink {
            link: MemoryLink::new(events, List::new()),
        })
    }

    /// The events of the script, in their order.
    pub fn events(&self) -> &[Event]
        ensures all { result.now ≡ self.now.events }
    {
        self.link.events()
    }

    /// How many events the script has.
    pub fn len(&self) -> u64
        ensures count { result ≡ length self.now.events }
    {
        self.events().len() as u64
    }
}

impl Link for ScriptLink {
    ghost input = { λ script. Some script };

    ghost output = { λ _. None };

    ghost calls = { λ _. None };

    ghost arrival_faults = { λ _. 0 };

    ghost delivery_faults = { λ _. 0 };

    fn bind(&mut self, _sip: Addr, _web: Addr) -> Result<(), Failed> {
        Ok(())
    }

    fn next(&mut self, alloc: Global) -> Result<Arrival, Failed> {
        self.link.next(alloc)
    }

    fn web_read(&mut self, buf: &mut [u8]) -> Result<usize, Failed> {
        self.link.web_read(buf)
    }

    fn web_reply(&mut self, _alloc: Global, _bytes: &[u8]) -> Result<(), SendFault> {
        Ok(())
    }

    fn send(&mut self, _alloc: Global, _to: Addr, _bytes: &[u8]) -> Result<(), SendFault> {
        Ok(())
    }
}
