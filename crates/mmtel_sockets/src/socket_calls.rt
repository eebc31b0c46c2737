//! The sockets with the web connections that wait: the boundary, of whose input no clause says anything.
ghost use Rattle.std.specs.Prelude.{◌≡◌, ◌≤◌, ◌+◌, ◌%◌, length, take, drop, min, IfOk, IsTrue, OnErr, option_map};
ghost use Rattle.mmtel_sockets.specs.Reading.{announced_bytes, with_delivered};

use crate::connections::{Connection, FirstDue, find_due};
use crate::sockets::{Sockets, clock};
use mmtel_base::{List, Text};
use mmtel_link::Arrival;
use mmtel_types::{Addr, Moment};
use std::alloc::Global;
use std::io;
use std::io::ErrorKind;
use std::net::{SocketAddr, TcpStream};
use std::time::Instant;

/// The maximum number of web connections that are read concurrently: further ones wait in the listener.
const CONNECTIONS: usize = 64;

/// The sockets, the connections that are not announced yet, and the one that was announced last.
#[derive(Drop)]
pub struct SocketCalls<'a> {
    rt: &'a HostRuntime,
    sockets: Option<Sockets>,
    waiting: List<Connection>,
    connection: Option<Connection>,
    buffer: [u8; 16_385],
    web_first: bool,
    web_failed: bool,
    web_pending: bool,
    turn: u8,
}

/// A datagram as an arrival. The buffer has one byte more than a datagram may have, so a truncated one is still too large.
fn arrival(alloc: Global, from: SocketAddr, at: Moment, bytes: &[u8]) -> Arrival {
    let SocketAddr::V4(from) = from else {
        return Arrival::Quiet { at };
    };
    let from = Addr {
        ip: from.ip().octets(),
        port: from.port(),
    };
    match Text::of(alloc, bytes) {
        Ok(bytes) => Arrival::Datagram { from, at, bytes },
        Err(_) => Arrival::NoMemory,
    }
}

fn not_connected() -> io::Error {
    io::Error::from(ErrorKind::NotConnected)
}

impl<'a> SocketCalls<'a> {
    pub fn new(rt: &'a HostRuntime) -> SocketCalls<'a> {
        SocketCalls {
            rt,
            sockets: None,
            waiting: List::new(),
            connection: None,
            buffer: [0; 16_385],
            web_first: true,
            web_failed: false,
            web_pending: true,
            turn: 0,
        }
    }

    /// Binds the addresses, in place of those that were bound before.
    pub fn bind(&mut self, sip: Addr, web: Addr) -> io::Result<()> {
        self.sockets = None;
        let sockets = Sockets::bind(self.rt, sip, web)?;
        self.sockets = Some(sockets);
        Ok(())
    }

    /// Whether there is space for one more web connection.
    fn has_capacity(&self) -> bool {
        self.waiting.items().len() < CONNECTIONS
    }

    /// The stream of a web connection that has arrived, if there is space. A failed accept is no fault: the next connection is accepted after the next wait.
    fn accept_stream(&mut self) -> io::Result<Option<TcpStream>> {
        let Some(sockets) = &self.sockets else {
            return Err(not_connected());
        };
        if !self.has_capacity() {
            return Ok(None);
        }
        let accepted = sockets.stream();
        self.web_failed = accepted.is_err();
        Ok(accepted.unwrap_or(None))
    }

    /// Accepts a web connection that has arrived, if there is space; true where memory ran out.
    ///
    /// The listener is polled only where a connection may have arrived: polling it for nothing costs as much as a datagram.
    fn accept(&mut self, alloc: Global) -> io::Result<bool> {
        if !self.web_pending {
            return Ok(false);
        }
        let Some(stream) = self.accept_stream()? else {
            self.web_pending = false;
            return Ok(false);
        };
        let came = Instant::now(self.rt)?;
        Ok(
            self.waiting
                .push(alloc, Connection::new(stream, came))
                .is_err(),
        )
    }

    /// A web connection that is due.
    fn poll_web(&mut self, alloc: Global) -> io::Result<Option<Arrival>> {
        if self.accept(alloc)? {
            return Ok(Some(Arrival::NoMemory));
        }
        if self.waiting.items().is_empty() {
            return Ok(None);
        }
        let now = Instant::now(self.rt).ok();
        match find_due(&mut self.waiting, now, alloc, &mut self.buffer) {
            FirstDue::Nothing => Ok(None),
            FirstDue::NoMemory => Ok(Some(Arrival::NoMemory)),
            FirstDue::One(connection) => {
                let at = clock(self.rt)?;
                self.connection = Some(connection);
                Ok(Some(Arrival::Web { at }))
            }
        }
    }

    /// A datagram.
    fn poll_datagram(&mut self, alloc: Global) -> io::Result<Option<Arrival>> {
        let Some(sockets) = &self.sockets else {
            return Err(not_connected());
        };
        match sockets.datagram(&mut self.buffer)? {
            None => Ok(None),
            Some((count, from)) => {
                let at = clock(self.rt)?;
                Ok(Some(arrival(alloc, from, at, &self.buffer[..count])))
            }
        }
    }

    /// What has arrived, if anything: a connection or a datagram comes first in turns, so that neither delays the other.
    fn poll_arrival(&mut self, alloc: Global) -> io::Result<Option<Arrival>> {
        self.web_first = !self.web_first;
        if self.web_first {
            match self.poll_web(alloc)? {
                Some(arrival) => Ok(Some(arrival)),
                None => self.poll_datagram(alloc),
            }
        } else {
            match self.poll_datagram(alloc)? {
                Some(arrival) => Ok(Some(arrival)),
                None => self.poll_web(alloc),
            }
        }
    }

    /// Waits for a datagram or a connection; only for a datagram where no connection would be accepted. The listener is not polled while it fails, so it is tried again afterwards.
    fn wait(&mut self, ms: i32) {
        let listens = self.has_capacity() && !self.web_failed;
        if let Some(sockets) = &self.sockets {
            let came = sockets.wait(listens, ms);
            self.web_pending = self.web_pending || self.web_failed || came;
        }
    }

    /// Counts a call of `next`. At each 256th the listener is polled whatever the waits returned: while there is always a datagram, there is no wait.
    fn count_turn(&mut self)
        ensures counted { self.new.turn ≡ (self.old.turn + 1) % 256 }
        ensures web_pending { (self.new.turn ≡ 0) → IsTrue self.new.web_pending }
        ensures kept { IsTrue self.old.web_pending → IsTrue self.new.web_pending }
    {
        self.turn = self.turn.wrapping_add(1);
        if self.turn == 0 {
            self.web_pending = true;
        }
    }

    /// What arrives within 50 ms. While connections wait they are read every 5 ms.
    pub fn next(&mut self, alloc: Global) -> io::Result<Arrival> {
        self.connection = None;
        self.count_turn();
        let (turns, ms) = if self.waiting.items().is_empty() {
            (1, 50)
        } else {
            (10, 5)
        };
        for _ in 0..turns {
            if let Some(arrival) = self.poll_arrival(alloc)? {
                return Ok(arrival);
            }
            self.wait(ms);
        }
        match self.poll_arrival(alloc)? {
            Some(arrival) => Ok(arrival),
            None => {
                let at = clock(self.rt)?;
                Ok(Arrival::Quiet { at })
            }
        }
    }

    /// Returns what was read of the connection that was announced last.
    pub fn read(&mut self, buf: &mut [u8]) -> io::Result<usize>
        ensures within { IfOk result (λ n. n ≤ length buf.new) }
        ensures count { IfOk result (λ n. n ≡ min (length buf.old) (length (announced_bytes self.old.connection))) }
        ensures front { IfOk result (λ n. take n buf.new ≡ take n (announced_bytes self.old.connection)) }
        ensures rest { IfOk result (λ n. drop n buf.new ≡ drop n buf.old) }
        ensures handed { IfOk result (λ n. self.new ≡ record self.old { connection = option_map (with_delivered n) self.old.connection }) }
        ensures err { OnErr result (self.new ≡ self.old) }
    {
        match &mut self.connection {
            Some(connection) => connection.copy_out(buf),
            None => Ok(0),
        }
    }

    /// Replies on it.
    pub fn reply(&self, bytes: &[u8]) -> io::Result<()> {
        match &self.connection {
            Some(connection) => connection.reply(bytes),
            None => Err(not_connected()),
        }
    }

    /// Sends a datagram.
    pub fn send(&self, to: Addr, bytes: &[u8]) -> io::Result<()> {
        match &self.sockets {
            Some(sockets) => sockets.send(to, bytes),
            None => Err(not_connected()),
        }
    }
}
