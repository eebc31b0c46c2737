//! Peers and routes, accounts, the words of Privacy, asserted identities and the header table.

use crate::asserting::assert_right;
use crate::messages::drafts::{of_lines, request, write_lines_to};
use mmtel_base::number_up_to;
use mmtel_history::History;
use mmtel_lex::{Uri, print_uri, read_uri};
use mmtel_message::Msg;
use mmtel_test_tables::{Transcript, next_line, split_or_all};
use mmtel_trust::{Accounts, Facing, PeerTable, TableFault, asserted, attempt_from, shown, wants};
use mmtel_types::{Account, Addr, Peer, PrivacySet};
use std::alloc::Global;

fn addr(last: u8) -> Addr {
    Addr {
        ip: [127, 0, 0, last],
        port: 5060,
    }
}

/// Writes the result of a call on a table of peers or accounts.
fn write_done_to(transcript: &mut Transcript, done: Result<(), TableFault>) {
    match done {
        Ok(()) => transcript.add(b"done\n"),
        Err(TableFault::Taken) => transcript.add(b"taken\n"),
        Err(TableFault::NoPeer) => transcript.add(b"no peer\n"),
        Err(_) => transcript.fail(),
    }
}

/// Adds a peer, and writes the result.
fn add_peer(
    transcript: &mut Transcript,
    table: &mut PeerTable,
    number: u16,
    last: u8,
    trusted: bool,
) {
    let done = table.add_peer(transcript.alloc, Peer(number), addr(last), trusted);
    write_done_to(transcript, done);
}

/// Adds a route of this name to the peer of the number, and writes the result.
fn add_route(transcript: &mut Transcript, table: &mut PeerTable, number: u16, name: &[u8]) {
    let name = transcript.copy(name);
    let done = table.add_route(transcript.alloc, name, Peer(number));
    write_done_to(transcript, done);
}

/// Three peers, of which the first is trusted, and their routes.
fn table(transcript: &mut Transcript) -> PeerTable {
    let mut table = PeerTable::new();
    add_peer(transcript, &mut table, 1, 1, true);
    add_peer(transcript, &mut table, 2, 2, false);
    add_peer(transcript, &mut table, 3, 3, false);
    add_route(transcript, &mut table, 1, b"home.example");
    add_route(transcript, &mut table, 2, b"+4930");
    add_route(transcript, &mut table, 1, b"+49");
    add_route(transcript, &mut table, 3, b"*");
    table
}

/// URIs, each after the number of the peer that is its route: hosts without case, the longest prefix of a number, and all the rest.
const ROUTES: &[u8] = b"1 sip:bob@home.example
1 sip:bob@HOME.example:5070;transport=udp
3 sip:bob@www.home.example
1 tel:+49-89-1234
2 tel:+49(30)1234
3 tel:+1-201-555-0123
3 tel:7042;phone-context=home.example
";

/// Writes the number of the peer that is the route to a URI, 0 where there is none.
fn write_route(transcript: &mut Transcript, table: &PeerTable, text: &[u8]) {
    match read_uri(transcript.alloc, text) {
        Ok(uri) => {
            let peer = table.route(&uri);
            drop(uri);
            transcript.add_number(u64::from(peer.unwrap_or(Peer(0)).0));
        }
        Err(_) => transcript.fail(),
    }
}

/// The number of the first URI with another route; 0 where there is none.
fn wrong_route(alloc: Global) -> usize {
    let mut transcript = Transcript::new(alloc);
    let table = table(&mut Transcript::new(alloc));
    let mut rows = ROUTES;
    for _ in 0..20 {
        if !rows.is_empty() {
            let (row, rest) = next_line(rows);
            rows = rest;
            let (_peer, text) = split_or_all(b' ', row);
            write_route(&mut transcript, &table, text);
            transcript.add(b" ");
            transcript.add_line(text);
        }
    }
    drop(table);
    transcript.wrong_line(ROUTES)
}

/// Writes a peer: `t` for trusted and `-` for not, `a` with an address and `-` without.
fn write_peer(transcript: &mut Transcript, table: &PeerTable, number: u16) {
    transcript.add_if(table.trusted(Peer(number)), b"t", b"-");
    transcript.add_if(table.addr(Peer(number)).is_some(), b"a\n", b"-\n");
}

/// Writes the number of the peer at an address, 0 for none.
fn write_found(transcript: &mut Transcript, table: &PeerTable, last: u8) {
    let found = table.find(addr(last));
    transcript.add_number(u64::from(found.unwrap_or(Peer(0)).0));
    transcript.add(b"\n");
}

/// The peers that are added and their routes, four peers, the peers at two addresses;
/// then a peer whose address is taken, one whose number is, a route whose name is but for case, and one to no peer.
const PEERS: &[u8] = b"done
done
done
done
done
done
done
ta
-a
-a
--
2
0
taken
taken
taken
no peer
";

fn wrong_peer(alloc: Global) -> usize {
    let mut transcript = Transcript::new(alloc);
    let mut table = table(&mut transcript);
    write_peer(&mut transcript, &table, 1);
    write_peer(&mut transcript, &table, 2);
    write_peer(&mut transcript, &table, 3);
    write_peer(&mut transcript, &table, 4);
    write_found(&mut transcript, &table, 2);
    write_found(&mut transcript, &table, 4);
    add_peer(&mut transcript, &mut table, 4, 1, true);
    add_peer(&mut transcript, &mut table, 1, 4, true);
    add_route(&mut transcript, &mut table, 4, b"HOME.EXAMPLE");
    add_route(&mut transcript, &mut table, 4, b"far.example");
    drop(table);
    transcript.wrong_line(PEERS)
}

/// URIs, each after the number of its account, 0 for none: the sip URI of account 1 is `sip:alice@home.example`, and the number of account 2 that of RFC 3966 §6, which the sip URI
/// of RFC 3261 §19.1.6 represents.
/// After `+` there is a number that is added.
const OWNERS: &[u8] = b"done+1 sip:alice@home.example
done+2 tel:+1-201-555-0123
taken+3 tel:+12015550123
1 sip:alice@HOME.example;user=phone
0 sip:Alice@home.example
2 tel:+1(201)555.0123
2 sip:+12015550123@foo.com;user=phone
";

/// Adds a URI of this account, and writes the result.
fn add_account(transcript: &mut Transcript, accounts: &mut Accounts, number: u32, uri: Uri) {
    match accounts.add(transcript.alloc, Account(number), uri) {
        Ok(()) => transcript.add(b"done"),
        Err(TableFault::Taken) => transcript.add(b"taken"),
        Err(_) => transcript.fail(),
    }
}

/// Writes the result of adding a URI to the account of the number after `+`; else the number of its account, 0 for none.
fn write_owner(transcript: &mut Transcript, accounts: &mut Accounts, added: &[u8], text: &[u8]) {
    match read_uri(transcript.alloc, text) {
        Err(_) => transcript.fail(),
        Ok(uri) => match number_up_to(9, added) {
            Some(number) => {
                add_account(
                    transcript,
                    accounts,
                    u32::try_from(number).unwrap_or(0),
                    uri,
                );
                transcript.add(b"+");
                transcript.add(added);
            }
            None => {
                let account = accounts.find(&uri);
                drop(uri);
                transcript.add_number(u64::from(account.unwrap_or(Account(0)).0));
            }
        },
    }
}

/// The number of the first URI of another account; 0 where none is.
fn wrong_owner(alloc: Global) -> usize {
    let mut transcript = Transcript::new(alloc);
    let mut accounts = Accounts::new();
    let mut rows = OWNERS;
    for _ in 0..20 {
        if !rows.is_empty() {
            let (row, rest) = next_line(rows);
            rows = rest;
            let (told_of, text) = split_or_all(b' ', row);
            let (_done, added) = split_or_all(b'+', told_of);
            write_owner(&mut transcript, &mut accounts, added, text);
            transcript.add(b" ");
            transcript.add_line(text);
        }
    }
    drop(accounts);
    transcript.wrong_line(OWNERS)
}

/// Header fields of the INVITE of RFC 3325 §10.2 between the proxies, which trust one another, and some more.
const LINES: &[u8] = br#"From: "Cullen Jennings" <sip:fluffy@cisco.com>;tag=9802748
P-Asserted-Identity: "Cullen Jennings" <sip:fluffy@cisco.com>
P-Asserted-Identity: tel:+14085264000
Privacy: Header; none
Subject: lunch
Require: histinfo
Require: 100rel
Supported: timer
Session-Expires: 90
P-Early-Media: supported
Reason: SIP;cause=200
"#;

/// Writes whether these are the words of Privacy that the message has.
fn write_words(transcript: &mut Transcript, m: &Msg) {
    let wanted = PrivacySet {
        header: true,
        none: true,
        ..PrivacySet::default()
    };
    transcript.add_if(wants(m) == wanted, b"header and none\n", b"other words\n");
}

/// Writes a URI, or `none`.
fn write_identity(transcript: &mut Transcript, uri: &Option<Uri>) {
    match uri {
        Some(uri) => {
            let text = print_uri(transcript.alloc, uri);
            transcript.add_text_or_fail(text);
        }
        None => transcript.add_line(b"none"),
    }
}

/// Writes the identities that are accepted of a message from a peer that is trusted or not.
fn write_identities(transcript: &mut Transcript, m: &Msg, trusted: bool) {
    match asserted(transcript.alloc, m, trusted) {
        Ok(believed) => {
            write_identity(transcript, &believed.sip);
            write_identity(transcript, &believed.tel);
            drop(believed);
        }
        Err(_) => transcript.fail(),
    }
}

/// A message of a trusted peer, whose sender is restricted or not, where reliable provisional responses and session timers are supported or not.
fn facing(restricted: bool, served: bool) -> Facing {
    Facing {
        from_trusted: true,
        restricted,
        present: true,
        mask_all: false,
        reliable: served,
        timer: served,
    }
}

/// Writes the header fields that are passed on to a peer, which is trusted or not.
fn write_shown(
    transcript: &mut Transcript,
    m: &Msg,
    history: &History,
    facing: &Facing,
    to_trusted: bool,
) {
    match shown(transcript.alloc, m, history, facing, to_trusted) {
        Ok(lines) => {
            write_lines_to(transcript, lines.items());
            drop(lines);
        }
        Err(_) => transcript.fail(),
    }
}

/// Writes what is passed on to an untrusted peer, where the sender is restricted and where not, and then to a trusted one; and to an untrusted one where all extensions are
/// supported.
fn write_passed(transcript: &mut Transcript, m: &Msg) {
    let history = History::new(transcript.alloc);
    write_shown(transcript, m, &history, &facing(true, false), false);
    write_shown(transcript, m, &history, &facing(false, false), false);
    write_shown(transcript, m, &history, &facing(true, false), true);
    write_shown(transcript, m, &history, &facing(false, false), true);
    write_shown(transcript, m, &history, &facing(true, true), false);
    drop(history);
}

/// Writes the From of an attempt for a sender that is restricted or not.
fn write_from(transcript: &mut Transcript, m: &Msg, restricted: bool) {
    let from = attempt_from(transcript.alloc, m, restricted, b"1-2");
    transcript.add_text_or_fail(from);
}

/// The words; the identities, which are accepted of a trusted peer and of no other; the header fields that are passed on, of which a line `#` ends each message; and the From, of a
/// sender that is restricted and of one that is not.
const TOLD: &[u8] = br#"header and none
sip:fluffy@cisco.com
tel:+14085264000
none
none
Require: histinfo
Reason: SIP;cause=200
#
P-Asserted-Identity: "Cullen Jennings" <sip:fluffy@cisco.com>
P-Asserted-Identity: tel:+14085264000
Subject: lunch
Require: histinfo
Reason: SIP;cause=200
#
P-Asserted-Identity: "Cullen Jennings" <sip:fluffy@cisco.com>
P-Asserted-Identity: tel:+14085264000
Privacy: Header;id
Require: histinfo
P-Early-Media: supported
Reason: SIP;cause=200
#
P-Asserted-Identity: "Cullen Jennings" <sip:fluffy@cisco.com>
P-Asserted-Identity: tel:+14085264000
Privacy: Header; none
Subject: lunch
Require: histinfo
P-Early-Media: supported
Reason: SIP;cause=200
#
Require: histinfo
Require: 100rel
Supported: timer
Session-Expires: 90
Reason: SIP;cause=200
#
"Anonymous" <sip:anonymous@anonymous.invalid>;tag=1-2
"Cullen Jennings" <sip:fluffy@cisco.com>;tag=1-2
"#;

fn wrong_told(alloc: Global) -> usize {
    let mut transcript = Transcript::new(alloc);
    let start = request(&mut transcript, b"INVITE");
    let message = of_lines(&mut transcript, start, LINES);
    write_words(&mut transcript, &message);
    write_identities(&mut transcript, &message, true);
    write_identities(&mut transcript, &message, false);
    write_passed(&mut transcript, &message);
    write_from(&mut transcript, &message, true);
    write_from(&mut transcript, &message, false);
    drop(message);
    transcript.wrong_line(TOLD)
}

#[test]
fn peers_accounts_and_trust(rt: HostRuntime) {
    assert_right(&rt, "route", wrong_route(rt.alloc()));
    assert_right(&rt, "peer", wrong_peer(rt.alloc()));
    assert_right(&rt, "owner", wrong_owner(rt.alloc()));
    assert_right(&rt, "told", wrong_told(rt.alloc()));
}
