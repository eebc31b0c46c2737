//! The link.
ghost use Rattle.std.specs.Prelude.{◌≡◌, None};
ghost use Rattle.mmtel_sockets.specs.Counts.{net_arrival_faults, net_delivery_faults};

use crate::socket_calls::SocketCalls;
use mmtel_link::{Arrival, Link, SendFault};
use mmtel_types::{Addr, Failed};
use std::alloc::Global;

/// A link over UDP and TCP. It returns a tick where nothing arrived for 50 ms, and never that it is closed.
///
/// A web connection is announced once its request is whole, or it ended, failed or took 500 ms, which counts as its end. Connections are read concurrently.
#[derive(Drop)]
pub struct NetLink<'a> {
    calls: SocketCalls<'a>,
    arrival_faults: u64,
    delivery_faults: u64,
}

impl<'a> NetLink<'a> {
    /// A link that is not bound.
    pub fn new(rt: &'a HostRuntime) -> NetLink<'a>
        ensures arrival_faults { net_arrival_faults result ≡ 0 }
        ensures delivery_faults { net_delivery_faults result ≡ 0 }
    {
        NetLink {
            calls: SocketCalls::new(rt),
            arrival_faults: 0,
            delivery_faults: 0,
        }
    }
}

impl Link for NetLink<'_> {
    ghost input = { λ _. None };

    ghost output = { λ _. None };

    ghost calls = { λ _. None };

    ghost arrival_faults = { net_arrival_faults };

    ghost delivery_faults = { net_delivery_faults };

    fn bind(&mut self, sip: Addr, web: Addr) -> Result<(), Failed> {
        match self.calls.bind(sip, web) {
            Ok(()) => Ok(()),
            Err(_) => {
                self.arrival_faults = self.arrival_faults.saturating_add(1);
                Err(Failed)
            }
        }
    }

    fn next(&mut self, alloc: Global) -> Result<Arrival, Failed> {
        match self.calls.next(alloc) {
            Ok(arrival) => Ok(arrival),
            Err(_) => {
                self.arrival_faults = self.arrival_faults.saturating_add(1);
                Err(Failed)
            }
        }
    }

    fn web_read(&mut self, buf: &mut [u8]) -> Result<usize, Failed> {
        match self.calls.read(buf) {
            Ok(count) => Ok(count),
            Err(_) => {
                self.delivery_faults = self.delivery_faults.saturating_add(1);
                Err(Failed)
            }
        }
    }

    fn web_reply(&mut self, alloc: Global, bytes: &[u8]) -> Result<(), SendFault> {
        let _unused = alloc;
        match self.calls.reply(bytes) {
            Ok(()) => Ok(()),
            Err(_) => {
                self.delivery_faults = self.delivery_faults.saturating_add(1);
                Err(SendFault::Failed)
            }
        }
    }

    fn send(&mut self, alloc: Global, to: Addr, bytes: &[u8]) -> Result<(), SendFault> {
        let _unused = alloc;
        match self.calls.send(to, bytes) {
            Ok(()) => Ok(()),
            Err(_) => {
                self.delivery_faults = self.delivery_faults.saturating_add(1);
                Err(SendFault::Failed)
            }
        }
    }
}
