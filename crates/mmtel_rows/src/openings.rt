//! Openings: the INVITE of a caller who requests privacy, from a trusted peer to one that is not.

ghost use Rattle.std.specs.Prelude.{◌≡◌, ◌<◌};

use crate::asserting::assert_right;
use crate::cases::{two, wrong_run};
use crate::links::heard;
use crate::pages::{Page, add_lines, are_equal};
use crate::server_tables::{add_listing, server};
use mmtel_base::List;
use mmtel_cli::{MemoryKeeper, ScriptLink, Server, drive};
use mmtel_timers::Steps;
use std::alloc::Global;
use std::marker::Brand;
use std::sync::ledger::{Blank, Ledger};

/// RFC 3323 §4.1 and RFC 3325 §9.3: a caller who requests privacy is anonymous towards a network that is not trusted.
const OPENINGS: &[u8] = br#"~ Erin calls bob, and asks that her identity be kept private.
at 0 peer 1|INVITE sip:bob@far.example SIP/2.0|Via: SIP/2.0/UDP 127.0.0.1:5071;branch=z9hG4bKa1|Max-Forwards: 68|From: "Erin" <sip:erin@other.example>;tag=a
|To: <sip:bob@far.example>|Call-ID: c1|CSeq: 7 INVITE|Contact: <sip:erin@127.0.0.1:5071>|P-Asserted-Identity: <sip:erin@other.example>|Privacy: id|Content-Length: 0|
~ The 100 to her peer, and the INVITE to his.
at 0 to 1|SIP/2.0 100 Trying|Via: SIP/2.0/UDP 127.0.0.1:5071;branch=z9hG4bKa1|From: "Erin" <sip:erin@other.example>;tag=a|To: <sip:bob@far.example>|Call-ID: c1
|CSeq: 7 INVITE|Content-Length: 0|
at 0 to 2|INVITE sip:bob@far.example SIP/2.0|Via: SIP/2.0/UDP 127.0.0.1:5060;branch=z9hG4bK0123456789abcdef-4|Max-Forwards: 67
|From: "Anonymous" <sip:anonymous@anonymous.invalid>;tag=0123456789abcdef-3|To: <sip:bob@far.example>|Call-ID: 0123456789abcdef-2|CSeq: 1 INVITE
|Contact: <sip:127.0.0.1:5060>|Content-Length: 0|
~ Frank calls bob, in place of Erin.
at 0 peer 1|INVITE sip:bob@far.example SIP/2.0|Via: SIP/2.0/UDP 127.0.0.1:5071;branch=z9hG4bKa1|Max-Forwards: 68|From: "Frank" <sip:frank@other.example>;tag=a
|To: <sip:bob@far.example>|Call-ID: c1|CSeq: 7 INVITE|Contact: <sip:frank@127.0.0.1:5071>|P-Asserted-Identity: <sip:frank@other.example>|Privacy: id|Content-Length: 0|
~ The 100 names him, and the INVITE to the peer that is not trusted is as Erin's, byte for byte.
at 0 to 1|SIP/2.0 100 Trying|Via: SIP/2.0/UDP 127.0.0.1:5071;branch=z9hG4bKa1|From: "Frank" <sip:frank@other.example>;tag=a|To: <sip:bob@far.example>|Call-ID: c1
|CSeq: 7 INVITE|Content-Length: 0|
at 0 to 2|INVITE sip:bob@far.example SIP/2.0|Via: SIP/2.0/UDP 127.0.0.1:5060;branch=z9hG4bK0123456789abcdef-4|Max-Forwards: 67
|From: "Anonymous" <sip:anonymous@anonymous.invalid>;tag=0123456789abcdef-3|To: <sip:bob@far.example>|Call-ID: 0123456789abcdef-2|CSeq: 1 INVITE
|Contact: <sip:127.0.0.1:5060>|Content-Length: 0|
~ An opening at 500, and then datagrams that are no messages, one of them with a lower moment than the one before it.
at 500 peer 1|INVITE sip:bob@far.example SIP/2.0|Via: SIP/2.0/UDP 127.0.0.1:5071;branch=z9hG4bKa1|Max-Forwards: 68|From: "Erin" <sip:erin@other.example>;tag=a
|To: <sip:bob@far.example>|Call-ID: c1|CSeq: 7 INVITE|Contact: <sip:erin@127.0.0.1:5071>|P-Asserted-Identity: <sip:erin@other.example>|Privacy: id|Content-Length: 0|
at 900 peer 2|SIP/2.0 180 Ringing|
at 700 peer 1
at 1000 peer 2
~ The datagrams are dropped; the INVITE, which nobody answered, is sent again after 500 (RFC 3261 section 17.1.1.2).
at 500 to 1|SIP/2.0 100 Trying|Via: SIP/2.0/UDP 127.0.0.1:5071;branch=z9hG4bKa1|From: "Erin" <sip:erin@other.example>;tag=a|To: <sip:bob@far.example>|Call-ID: c1
|CSeq: 7 INVITE|Content-Length: 0|
at 500 to 2|INVITE sip:bob@far.example SIP/2.0|Via: SIP/2.0/UDP 127.0.0.1:5060;branch=z9hG4bK0123456789abcdef-4|Max-Forwards: 67
|From: "Anonymous" <sip:anonymous@anonymous.invalid>;tag=0123456789abcdef-3|To: <sip:bob@far.example>|Call-ID: 0123456789abcdef-2|CSeq: 1 INVITE
|Contact: <sip:127.0.0.1:5060>|Content-Length: 0|
at 1000 to 2|INVITE sip:bob@far.example SIP/2.0|Via: SIP/2.0/UDP 127.0.0.1:5060;branch=z9hG4bK0123456789abcdef-4|Max-Forwards: 67
|From: "Anonymous" <sip:anonymous@anonymous.invalid>;tag=0123456789abcdef-3|To: <sip:bob@far.example>|Call-ID: 0123456789abcdef-2|CSeq: 1 INVITE
|Contact: <sip:127.0.0.1:5060>|Content-Length: 0|
~ The same INVITE from the peer that is not trusted.
at 0 peer 2|INVITE sip:bob@far.example SIP/2.0|Via: SIP/2.0/UDP 127.0.0.1:5072;branch=z9hG4bKa1|Max-Forwards: 68|From: "Erin" <sip:erin@other.example>;tag=a
|To: <sip:bob@far.example>|Call-ID: c1|CSeq: 7 INVITE|Contact: <sip:erin@127.0.0.1:5072>|P-Asserted-Identity: <sip:erin@other.example>|Privacy: id|Content-Length: 0|
~ The identity that it asserts is not believed, and Erin is anonymous.
at 0 to 2|SIP/2.0 100 Trying|Via: SIP/2.0/UDP 127.0.0.1:5072;branch=z9hG4bKa1|From: "Erin" <sip:erin@other.example>;tag=a|To: <sip:bob@far.example>|Call-ID: c1
|CSeq: 7 INVITE|Content-Length: 0|
at 0 to 2|INVITE sip:bob@far.example SIP/2.0|Via: SIP/2.0/UDP 127.0.0.1:5060;branch=z9hG4bK0123456789abcdef-4|Max-Forwards: 67
|From: "Anonymous" <sip:anonymous@anonymous.invalid>;tag=0123456789abcdef-3|To: <sip:bob@far.example>|Call-ID: 0123456789abcdef-2|CSeq: 1 INVITE
|Contact: <sip:127.0.0.1:5060>|Content-Length: 0|
~ Erin's INVITE with fewer hops left, which are no private place: a run of another mask.
at 0 peer 1|INVITE sip:bob@far.example SIP/2.0|Via: SIP/2.0/UDP 127.0.0.1:5071;branch=z9hG4bKa1|Max-Forwards: 10|From: "Erin" <sip:erin@other.example>;tag=a
|To: <sip:bob@far.example>|Call-ID: c1|CSeq: 7 INVITE|Contact: <sip:erin@127.0.0.1:5071>|P-Asserted-Identity: <sip:erin@other.example>|Privacy: id|Content-Length: 0|
~ So what the peer that is not trusted is offered differs.
at 0 to 1|SIP/2.0 100 Trying|Via: SIP/2.0/UDP 127.0.0.1:5071;branch=z9hG4bKa1|From: "Erin" <sip:erin@other.example>;tag=a|To: <sip:bob@far.example>|Call-ID: c1
|CSeq: 7 INVITE|Content-Length: 0|
at 0 to 2|INVITE sip:bob@far.example SIP/2.0|Via: SIP/2.0/UDP 127.0.0.1:5060;branch=z9hG4bK0123456789abcdef-4|Max-Forwards: 9
|From: "Anonymous" <sip:anonymous@anonymous.invalid>;tag=0123456789abcdef-3|To: <sip:bob@far.example>|Call-ID: 0123456789abcdef-2|CSeq: 1 INVITE
|Contact: <sip:127.0.0.1:5060>|Content-Length: 0|
~ Nothing is heard.
~ Nothing is offered.
"#;

/// The table, for several tests.
fn opening_runs() -> &'static [u8] {
    OPENINGS
}

#[test]
fn restricted_openings(rt: HostRuntime) {
    assert_right(&rt, "OPENING", wrong_run(rt.alloc(), opening_runs()));
}

/// Adds the outputs of a server in so many turns, by the functions directly below the top function; the link has ended after the second.
fn add_driven<L: Ledger>(
    page: &mut Page,
    server: Server,
    link: &mut ScriptLink,
    turns: u64,
    blank: Blank,
)
    requires name { blank.name ≡ L.name }
    requires parts { blank.parts ≡ L.parts }
    requires some { 0 < L.parts }
{
    let mut steps: Steps<L> = Steps::new(blank);
    let mut server = server;
    let mut keeper = MemoryKeeper::new(List::new());
    let mut out = List::new();
    let driven = drive(
        page.alloc,
        &mut server,
        link,
        &mut keeper,
        turns,
        &mut out,
        &mut steps,
    );
    server.give_up();
    drop(keeper);
    page.fail_unless(match driven {
        Ok(end) => end == (turns == 2),
        Err(_) => false,
    });
    add_listing(page, &out);
    drop(out);
}

fn add_turns(page: &mut Page, link: &mut ScriptLink, turns: u64) {
    match server(page, b"") {
        None => page.fail(),
        Some(server) => add_driven::<Brand>(page, server, link, turns, Blank::new(1)),
    }
}

/// Adds the outputs of a server for a script in so many turns.
fn add_offered(page: &mut Page, script: &[u8], turns: u64) {
    page.add_number(turns);
    if let Some(link) = heard(page, script) {
        let mut link = link;
        add_turns(page, &mut link, turns);
        drop(link);
    }
}

/// Adds what is expected: nothing in no turn, and the listing in one and in two.
fn add_due(due: &mut Page, listing: &[u8]) {
    due.add(b"01");
    add_lines(due, listing);
    due.add(b"2");
    add_lines(due, listing);
}

/// Whether the server has the expected outputs for the script.
fn is_offered(alloc: Global, script: &[u8], listing: &[u8]) -> bool {
    let mut page = Page::new(alloc);
    for turns in 0..3 {
        add_offered(&mut page, script, turns);
    }
    let mut due = Page::new(alloc);
    add_due(&mut due, listing);
    let alike = are_equal(&page, &due);
    drop(page);
    drop(due);
    alike
}

fn is_first_offered(alloc: Global, table: &[u8]) -> bool {
    match two(table) {
        Some((script, listing, _)) => is_offered(alloc, script, listing),
        None => false,
    }
}

/// Without a turn nothing is received; in one the one event is, and one more reaches the end.
#[test]
fn turns_over_an_opening(rt: HostRuntime) {
    assert!(rt; is_first_offered(rt.alloc(), opening_runs()));
}
