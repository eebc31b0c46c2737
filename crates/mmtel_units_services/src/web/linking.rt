//! The link in memory.

use crate::asserting::assert_right;
use crate::web::pages::{numbers, unless_failed};
use mmtel_base::{List, Text};
use mmtel_link::{Arrival, Event, Link, MemoryLink, SendFault};
use mmtel_test_tables::{RowRunner, Transcript, wrong_line};
use mmtel_types::{Addr, Moment};
use std::alloc::Global;

/// An address.
fn addr(port: u16) -> Addr {
    Addr {
        ip: [127, 0, 0, 1],
        port,
    }
}

fn moment(ms: u8) -> Moment {
    match Moment::new(u64::from(ms)) {
        Some(moment) => moment,
        None => unreachable!(),
    }
}

fn push(transcript: &mut Transcript, events: &mut List<Event>, event: Event) {
    let done = events.push(transcript.alloc, event);
    transcript.fail_unless(done.is_ok());
}

/// A datagram, a request, and a tick.
fn three_events(transcript: &mut Transcript) -> List<Event> {
    let mut events = List::new();
    let bytes = transcript.copy(b"one");
    let from = addr(5071);
    let at = moment(1);
    push(transcript, &mut events, Event::Datagram { from, at, bytes });
    let bytes = transcript.copy(b"GET abc");
    let at = moment(2);
    push(transcript, &mut events, Event::Web { at, bytes });
    push(transcript, &mut events, Event::Quiet { at: moment(3) });
    events
}

fn add_arrival(transcript: &mut Transcript, arrival: &Arrival) {
    match arrival {
        Arrival::Datagram { bytes, .. } => transcript.add(bytes.bytes()),
        Arrival::Web { .. } => transcript.add(b"web"),
        Arrival::Quiet { .. } => transcript.add(b"quiet"),
        Arrival::Closed => transcript.add(b"closed"),
        Arrival::NoMemory => transcript.fail(),
    }
}

fn add_next(transcript: &mut Transcript, link: &mut MemoryLink) {
    match link.next(transcript.alloc) {
        Ok(arrival) => {
            add_arrival(transcript, &arrival);
            drop(arrival);
        }
        Err(_) => transcript.add(b"failed"),
    }
}

fn add_read(transcript: &mut Transcript, link: &mut MemoryLink) {
    let mut buf = [0; 4];
    match link.web_read(&mut buf) {
        Ok(count) => transcript.add(&buf[..count]),
        Err(_) => transcript.add(b"failed"),
    }
}

fn add_delivered(transcript: &mut Transcript, given: Result<(), SendFault>) {
    match given {
        Ok(()) => transcript.add(b"ok"),
        Err(SendFault::Failed) => transcript.add(b"failed"),
        Err(SendFault::NoMemory) => transcript.fail(),
    }
}

fn add_reported(transcript: &mut Transcript, text: &Text, lost: bool) {
    transcript.add(text.bytes());
    transcript.add_if(lost, b"!", b".");
}

fn add_all(transcript: &mut Transcript, link: &MemoryLink) {
    for sent in link.offers() {
        add_reported(transcript, &sent.text, sent.lost);
    }
    for replied in link.replies() {
        add_reported(transcript, &replied.text, replied.lost);
    }
}

fn add_bound(transcript: &mut Transcript, link: &mut MemoryLink) {
    let bound = link.bind(addr(5060), addr(8080)).is_ok();
    transcript.add_if(bound, b"ok", b"failed");
}

/// A link whose calls a table makes.
#[derive(Drop)]
struct Linked {
    link: MemoryLink,
}

impl RowRunner for Linked {
    fn run_row(&mut self, transcript: &mut Transcript, asked: &[u8]) {
        match asked {
            [b'b', ..] => add_bound(transcript, &mut self.link),
            [b'n', ..] => add_next(transcript, &mut self.link),
            [b'r', ..] => add_read(transcript, &mut self.link),
            [b'w', text @ ..] => {
                let given = self.link.web_reply(transcript.alloc, text);
                add_delivered(transcript, given);
            }
            [b's', text @ ..] => {
                let given = self.link.send(transcript.alloc, addr(5072), text);
                add_delivered(transcript, given);
            }
            _ => add_all(transcript, &self.link),
        }
        transcript.add(b"\n");
    }
}

/// The calls of one link, of which the second, the sixth and the ninth fail: `b` binds, `n` returns the next event, `r` reads four bytes at most, `w` replies, `s` sends, `t`
/// writes the outputs, followed by `!` where they were lost.
const LINKING: &[u8] = b"> b
ok
> n
failed
> n
one
> n
web
> r
GET 
> r
failed
> r

> wreply
ok
> slost
failed
> ssent
ok
> n
quiet
> n
closed
> n
closed
> t
lost!sent.reply.
";

fn wrong_link(alloc: Global) -> usize {
    let mut transcript = Transcript::new(alloc);
    let events = three_events(&mut transcript);
    let failing = numbers(&mut transcript, &[2, 6, 9]);
    let mut linked = Linked {
        link: MemoryLink::new(events, failing),
    };
    let wrong = wrong_line(alloc, &mut linked, LINKING);
    drop(linked);
    unless_failed(transcript, wrong)
}

#[test]
fn linking_in_memory(rt: HostRuntime) {
    assert_right(&rt, "link", wrong_link(rt.alloc()));
}
