//! Scripts as links.

use crate::asserting::assert_right;
use crate::directory::configurations::{home, peer_addr};
use mmtel_directory::Directory;
use mmtel_link::{Arrival, Link};
use mmtel_script::ScriptLink;
use mmtel_test_tables::Transcript;
use std::alloc::Global;

/// Adds the event that was returned.
fn add_arrival(transcript: &mut Transcript, arrival: &Arrival) {
    match arrival {
        Arrival::Datagram { bytes, .. } => transcript.add(bytes.bytes()),
        Arrival::Web { .. } => transcript.add(b"web "),
        Arrival::Quiet { .. } => transcript.add(b"quiet"),
        Arrival::Closed => transcript.add(b"closed"),
        Arrival::NoMemory => transcript.fail(),
    }
}

/// Adds the next event.
fn add_next<L: Link>(transcript: &mut Transcript, link: &mut L) {
    match link.next(transcript.alloc) {
        Ok(arrival) => {
            add_arrival(transcript, &arrival);
            drop(arrival);
        }
        Err(_) => transcript.fail(),
    }
}

/// Adds the next bytes of the web request that was received last, four at most.
fn add_read<L: Link>(transcript: &mut Transcript, link: &mut L) {
    let mut buf = [0; 4];
    match link.web_read(&mut buf) {
        Ok(count) => transcript.add(&buf[..count]),
        Err(_) => transcript.fail(),
    }
}

/// Notes whether the link binds, and passes it a datagram and a reply.
fn take<L: Link>(transcript: &mut Transcript, link: &mut L) {
    let bound = link.bind(peer_addr(5060), peer_addr(8080)).is_ok();
    transcript.fail_unless(bound);
    let sent = link
        .send(transcript.alloc, peer_addr(5072), b"sent")
        .is_ok();
    transcript.fail_unless(sent);
    let replied = link.web_reply(transcript.alloc, b"replied").is_ok();
    transcript.fail_unless(replied);
}

/// Adds the results of five calls of `next`, with the first eight bytes of a web request.
fn add_received<L: Link>(transcript: &mut Transcript, link: &mut L) {
    for _ in 0..5 {
        add_next(transcript, link);
        add_read(transcript, link);
        add_read(transcript, link);
        take(transcript, link);
        transcript.add(b"\n");
    }
}

const SCRIPT: &[u8] = b"at 0 peer 1\n+one\nat 5 web\n+GET abc\nat 4 quiet";

/// Adds the events received of the script above, and how many events it has then, as before.
fn add_script(transcript: &mut Transcript, directory: &Directory) {
    match ScriptLink::read(transcript.alloc, SCRIPT, &directory.peers) {
        Err(_) => transcript.fail(),
        Ok(mut script) => {
            add_received(transcript, &mut script);
            transcript.add_number(script.len() as u64);
            drop(script);
        }
    }
}

fn wrong_heard(alloc: Global) -> usize {
    let mut transcript = Transcript::new(alloc);
    if let Some(directory) = home(&mut transcript) {
        add_script(&mut transcript, &directory);
        drop(directory);
    }
    transcript.wrong_line(b"one\nweb GET abc\nquiet\nclosed\nclosed\n3")
}

#[test]
fn gives_the_events_of_a_script(rt: HostRuntime) {
    assert_right(&rt, "heard", wrong_heard(rt.alloc()));
}
