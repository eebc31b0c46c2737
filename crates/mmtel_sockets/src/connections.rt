//! Web connections that are read concurrently.
ghost use Rattle.std.specs.Prelude.{◌≡◌, ◌≤◌, ◌<◌, ◌+◌, ◌*◌, ◌^◌, ◌&&◌, ◌||◌, ◌==◌, length, take, drop, min, nat_lt, is_err, IfOk, OnErr};
ghost use Rattle.std.specs.Duration.{as_nanos};
ghost use Rattle.std.specs.Result.{ForOk};
ghost use Rattle.mmtel_http.specs.Expectations.{waits_for_continue};
ghost use Rattle.mmtel_sockets.specs.Reading.{AppendsBytes, FindsDue, ReceivesRead, WaitsByNeed, is_timed_out, unread, waits_unless, with_delivered};

use mmtel_base::{List, Text};
use mmtel_http::{Whole, waits_for_continue, whole};
use std::alloc::Global;
use std::io;
use std::io::{ErrorKind, Read, Write};
use std::net::TcpStream;
use std::time::{Duration, Instant};

/// How long a connection may take until its request is whole, in milliseconds.
const DEADLINE: u128 = 500;

/// How long each write of a reply may take, in milliseconds.
const REPLY: u64 = 50;

/// What is sent to a client that waits for 100 (Continue) before its body (RFC 9110 §15.2.1).
const CONTINUE: &[u8] = b"HTTP/1.1 100 Continue\r\n\r\n";

/// A web connection, with what was read of it and how much of that was returned.
#[derive(Drop)]
pub struct Connection {
    stream: TcpStream,
    accepted_at: Instant,
    bytes: Text,
    delivered: usize,
    failed: bool,
    sent_continue: bool,
}

/// The result of reading a connection.
enum ReadStep {
    /// Its request may become whole yet.
    Waits,
    /// Its request is whole, or it ended, failed or passed its deadline.
    Due,
    /// Memory ran out.
    NoMemory,
}

/// The result of reading all of them.
#[derive(Drop)]
pub enum FirstDue {
    /// None is due.
    Nothing,
    /// This one is due.
    One(Connection),
    /// Memory ran out.
    NoMemory,
}

/// The rest after so many bytes.
fn bytes_after(bytes: &[u8], count: usize) -> &[u8]
    ensures rest { result.now ≡ drop count bytes.now }
    ensures capacity { count + length result.now < 2 ^ 64 }
{
    if count <= bytes.len() {
        &bytes[count..]
    } else {
        &[]
    }
}

/// Copies as many bytes as there are and fit into the front of the buffer.
fn fill(buf: &mut [u8], bytes: &[u8]) -> usize
    ensures count { result ≡ min (length buf.old) (length bytes.now) }
    ensures front { take result buf.new ≡ take result bytes.now }
    ensures rest { drop result buf.new ≡ drop result buf.old }
    ensures within { result ≤ length buf.new }
{
    let count = buf.len().min(bytes.len());
    buf[..count].copy_from_slice(&bytes[..count]);
    count
}

/// Whether a connection that was accepted so long ago has taken too long.
fn is_too_long(elapsed: Duration) -> bool
    ensures { result ≡ nat_lt (500 * 1_000_000) (as_nanos elapsed) }
{
    elapsed.as_nanos() > DEADLINE * 1_000_000
}

impl Connection {
    /// A connection of which nothing was read. Its stream never blocks.
    pub fn new(stream: TcpStream, accepted_at: Instant) -> Connection {
        Connection {
            stream,
            accepted_at,
            bytes: Text::new(),
            delivered: 0,
            failed: false,
            sent_continue: false,
        }
    }

    /// Whether it may still wait by this reading of the clock. Where the clock fails, none may.
    fn step_by_clock(&self, now: Option<Instant>) -> ReadStep
        ensures { result ≡ waits_unless (is_timed_out now self.now) }
    {
        match now {
            Some(now) if !is_too_long(now.duration_since(self.accepted_at)) => ReadStep::Waits,
            _ => ReadStep::Due,
        }
    }

    /// Sends 100 (Continue) to a client that waits for it before its body, once. A client to which it cannot be sent may send its body nevertheless.
    fn send_continue(&mut self)
        ensures { self.new ≡ record self.old { sent_continue = self.old.sent_continue || waits_for_continue self.old.bytes } }
    {
        if !self.sent_continue && waits_for_continue(self.bytes.bytes()) {
            self.sent_continue = true;
            let mut by = &self.stream;
            let _sent = by.write_all(CONTINUE);
        }
    }

    /// Appends bytes that were read.
    fn append_bytes(&mut self, now: Option<Instant>, alloc: Global, bytes: &[u8]) -> ReadStep
        ensures { AppendsBytes now self.old self.new bytes.now result }
    {
        if self.bytes.push(alloc, bytes).is_err() {
            return ReadStep::NoMemory;
        }
        match whole(self.bytes.bytes()) {
            Whole::More => {
                self.send_continue();
                self.step_by_clock(now)
            }
            _ => ReadStep::Due,
        }
    }

    /// Processes the result of reading its stream.
    fn receive_read(
        &mut self,
        now: Option<Instant>,
        alloc: Global,
        buf: &[u8],
        read: io::Result<usize>,
    ) -> ReadStep
        requires { ForOk read (λ n. n ≤ length buf.now) }
        ensures { ReceivesRead now self.old self.new buf.now read result }
    {
        match read {
            Ok(0) => ReadStep::Due,
            Ok(count) => self.append_bytes(now, alloc, &buf[..count]),
            Err(e) => match e.kind() {
                ErrorKind::WouldBlock => self.step_by_clock(now),
                _ => {
                    self.failed = true;
                    ReadStep::Due
                }
            },
        }
    }

    /// Reads what is there.
    fn step(&mut self, now: Option<Instant>, alloc: Global, buf: &mut [u8]) -> ReadStep
        ensures needed { WaitsByNeed now self.old self.new result }
        ensures stays { self.new.stream ≡ self.old.stream }
    {
        let mut by = &self.stream;
        let read = by.read(buf);
        self.receive_read(now, alloc, buf, read)
    }

    /// Returns what was read, as much as fits, in the front of the buffer; then its failure, or its end.
    pub fn copy_out(&mut self, buf: &mut [u8]) -> io::Result<usize>
        ensures within { IfOk result (λ n. n ≤ length buf.new) }
        ensures count { IfOk result (λ n. n ≡ min (length buf.old) (length (unread self.old))) }
        ensures front { IfOk result (λ n. take n buf.new ≡ take n (unread self.old)) }
        ensures rest { IfOk result (λ n. drop n buf.new ≡ drop n buf.old) }
        ensures handed { IfOk result (λ n. self.new ≡ with_delivered n self.old) }
        ensures failed { is_err result ≡ ((length (unread self.old) == 0) && self.old.failed) }
        ensures unread { OnErr result (self.new ≡ self.old) }
        ensures unfilled { OnErr result (buf.new ≡ buf.old) }
    {
        let rest = bytes_after(self.bytes.bytes(), self.delivered);
        if rest.is_empty() && self.failed {
            return Err(io::Error::from(ErrorKind::ConnectionReset));
        }
        let count = fill(buf, rest);
        self.delivered += count;
        Ok(count)
    }

    /// Writes the reply.
    pub fn reply(&self, bytes: &[u8]) -> io::Result<()> {
        self.stream.set_nonblocking(false)?;
        self.stream
            .set_write_timeout(Some(Duration::from_millis(REPLY)))?;
        let mut by = &self.stream;
        by.write_all(bytes)
    }
}

/// Reads each of the connections once, in order, and removes the first that is due; those that were read before it come after the others.
pub fn find_due(
    waiting: &mut List<Connection>,
    now: Option<Instant>,
    alloc: Global,
    buf: &mut [u8],
) -> FirstDue
    ensures { FindsDue now waiting.old waiting.new result }
{
    for _turn in 0..waiting.items().len() {
        let mut connection = waiting.remove(0);
        match connection.step(now, alloc, buf) {
            ReadStep::Due => return FirstDue::One(connection),
            ReadStep::NoMemory => return FirstDue::NoMemory,
            ReadStep::Waits => {
                if waiting.push(alloc, connection).is_err() {
                    return FirstDue::NoMemory;
                }
            }
        }
    }
    FirstDue::Nothing
}
