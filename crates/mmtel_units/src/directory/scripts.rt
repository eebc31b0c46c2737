//! Scripts.

use crate::asserting::assert_right;
use crate::directory::configurations::{home, peer_addr};
use crate::directory::tables::{Grammar, wrong_row};
use mmtel_directory::Directory;
use mmtel_environment::Event;
use mmtel_script::{ScriptFault, ScriptLink};
use mmtel_test_tables::Transcript;
use mmtel_types::Addr;
use std::alloc::Global;

/// A script of events of each kind and of data lines of each kind.
const SCRIPT: &[u8] =
    b"# One of each kind.\nat 0 peer 1\n|OPTIONS sip:a@h SIP/2.0\n#|\n\n|\n+a \\|+\nx000d0aff\nat 5 web\n+GE\n+T\nat 4 quiet\nat 250000000000000 peer 2\nx\nx7cf0\n+";

/// Writes the port of the source of a datagram, of an address of the host itself.
fn write_port(transcript: &mut Transcript, from: Addr) {
    transcript.fail_unless(from.is_same(peer_addr(from.port)));
    transcript.add(b"datagram");
    transcript.add_spaced_number(u64::from(from.port));
}

/// Writes an event: a datagram with its port, a web request or a tick; its moment, and its bytes.
fn write_event(transcript: &mut Transcript, event: &Event) {
    match event {
        Event::Datagram { from, at, bytes } => {
            write_port(transcript, *from);
            transcript.add_spaced_number(at.ms());
            transcript.add(b" ");
            transcript.add(bytes.bytes());
        }
        Event::Web { at, bytes } => {
            transcript.add(b"web");
            transcript.add_spaced_number(at.ms());
            transcript.add(b" ");
            transcript.add(bytes.bytes());
        }
        Event::Quiet { at } => {
            transcript.add(b"quiet");
            transcript.add_spaced_number(at.ms());
        }
    }
    transcript.add(b"\n");
}

/// Writes the events of the script above, and how many there are.
fn write_script(transcript: &mut Transcript, directory: &Directory) {
    match ScriptLink::read(transcript.alloc, SCRIPT, &directory.peers) {
        Err(_) => transcript.fail(),
        Ok(script) => {
            for event in script.events() {
                write_event(transcript, event);
            }
            transcript.add_number(script.len() as u64);
            drop(script);
        }
    }
}

/// The content of the script above.
const SCRIPT_TOLD: &[u8] = b"datagram 5071 0 OPTIONS sip:a@h SIP/2.0\r\n\r\na \\|+\x00\r\n\xff
web 5 GET
quiet 4
datagram 5072 250000000000000 |\xf0
4";

fn wrong_script(alloc: Global) -> usize {
    let mut transcript = Transcript::new(alloc);
    if let Some(directory) = home(&mut transcript) {
        write_script(&mut transcript, &directory);
        drop(directory);
    }
    transcript.wrong_line(SCRIPT_TOLD)
}

/// The number of the line in which a script breaks the grammar; 0 where it is read.
fn broken_script(alloc: Global, text: &[u8], directory: &Directory) -> u64 {
    match ScriptLink::read(alloc, text, &directory.peers) {
        Ok(script) => {
            drop(script);
            0
        }
        Err(ScriptFault::BadLine { line }) => line,
        Err(ScriptFault::NoMemory) => u64::MAX,
    }
}

/// The number of the line in which each of these breaks the grammar, 0 where it is read. A `;` represents the end of a line.
const EVENTS: &[u8] = b"0|
0|# Nothing.;;
0|at 5 peer 2;at 4 peer 1;at 4 web;at 3 quiet
0|at 250000000000000 quiet
1|at 250000000000001 quiet
1|at 250000000000001 peer 1;
1|at 0 peer 3;
2|;at 00 peer 1;
1|at 0 peer 1\r;
1|at 0 peer 01;
1|at 0 peer;
1|at 0  peer 1;
1|at 0 peer 1 ;
1|at 0 web 1;
1|at 0 web ;
1|at 0 Web;
1|at -1 web;
1|at  quiet;
1|at  0 web;
1|at quiet;
1|at 0 quiet 1;
1|at 0 quiet ;
1|At 0 quiet;
1|at 0 to 1;
1|at;
1|a;
1| ;";

/// The same of data lines.
const DATA: &[u8] = b"0|at 0 peer 1;|;+;x;
0|at 0 web;|a;#;;+b;x41
1||x;at 0 peer 1;
1|+;at 0 peer 1;
1|x;at 0 peer 1;
2|at 0 quiet;|a;
2|at 0 quiet;+;
2|at 0 quiet;x;
3|at 0 web;at 0 quiet;|a;
0|at 0 quiet;at 0 web;|a;
2|at 0 peer 1;x4;
4|at 0 web;|GET / HTTP/1.1;|;x0;
2|at 0 peer 1;x4A;
2|at 0 peer 1;x4g;
2|at 0 peer 1;x41 ;
2|at 0 peer 1;X41;
2|at 0 peer 1; |a;
3|at 0 peer 1;|a; at 1 peer 1";

/// Scripts of the peers of a configuration.
#[derive(Clone, Copy)]
struct Scripts<'a> {
    directory: &'a Directory,
}

impl Grammar for Scripts<'_> {
    fn broken(&self, alloc: Global, text: &[u8]) -> u64 {
        broken_script(alloc, text, self.directory)
    }
}

/// The number of the first row that is wrong; 0 where none is.
fn wrong_rows(alloc: Global, table: &[u8]) -> usize {
    let mut transcript = Transcript::new(alloc);
    let directory = home(&mut transcript);
    drop(transcript);
    match directory {
        None => 1,
        Some(directory) => {
            let scripts = Scripts {
                directory: &directory,
            };
            let wrong = wrong_row(alloc, &scripts, b"", table);
            drop(directory);
            wrong
        }
    }
}

#[test]
fn reads_scripts(rt: HostRuntime) {
    assert_right(&rt, "script", wrong_script(rt.alloc()));
    assert_right(&rt, "EVENTS", wrong_rows(rt.alloc(), EVENTS));
    assert_right(&rt, "DATA", wrong_rows(rt.alloc(), DATA));
}
