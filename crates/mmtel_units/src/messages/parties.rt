//! The parties of a call, and the next hop of its attempts.

use crate::asserting::assert_right;
use crate::messages::drafts::{add, message_of};
use mmtel_call_parties::{Parties, RegistrationState, ServedSides, next_hop, remaining_routes};
use mmtel_lex::{List, NoMemory, Text, read_uri};
use mmtel_message::{Msg, Start};
use mmtel_served_user::is_registered;
use mmtel_test_tables::{Transcript, next_line, split_or_all};
use mmtel_trust::{Accounts, PeerTable};
use mmtel_types::{Account, Addr, Peer};
use std::alloc::Global;

/// The first field of a row, and what follows its `|`.
fn field(row: &[u8]) -> (&[u8], &[u8]) {
    split_or_all(b'|', row)
}

/// An INVITE to this Request-URI.
fn invite(transcript: &mut Transcript, uri: &[u8]) -> Msg {
    let method = transcript.copy(b"INVITE");
    let uri = transcript.copy(uri);
    Msg::new(Start::Request { method, uri }, Text::new())
}

/// Adds a header field of the name with the first field of the row, unless that is empty; returns what follows it.
fn add_field<'a>(
    transcript: &mut Transcript,
    message: &mut Msg,
    name: &[u8],
    row: &'a [u8],
) -> &'a [u8] {
    let (value, rest) = field(row);
    if !value.is_empty() {
        add(transcript, message, name, value);
    }
    rest
}

fn add_identity(transcript: &mut Transcript, accounts: &mut Accounts, number: u32, uri: &[u8]) {
    match read_uri(transcript.alloc, uri) {
        Ok(uri) => {
            let done = accounts.add(transcript.alloc, Account(number), uri);
            transcript.fail_unless(done.is_ok());
        }
        Err(_) => transcript.fail(),
    }
}

/// Alice, who has a number too, bob and carol.
fn accounts(transcript: &mut Transcript) -> Accounts {
    let mut accounts = Accounts::new();
    add_identity(transcript, &mut accounts, 1, b"sip:alice@home.example");
    add_identity(transcript, &mut accounts, 1, b"tel:+4930111");
    add_identity(transcript, &mut accounts, 2, b"sip:bob@home.example");
    add_identity(transcript, &mut accounts, 3, b"sip:carol@home.example");
    accounts
}

/// Writes the number of an account and a space, 0 for none.
fn write_account(transcript: &mut Transcript, account: Option<Account>) {
    transcript.add_number(u64::from(account.unwrap_or(Account(0)).0));
    transcript.add(b" ");
}

fn sides_word(sides: ServedSides) -> &'static [u8] {
    match sides {
        ServedSides::Both => b"both ",
        ServedSides::Origin => b"orig ",
        ServedSides::Target => b"term ",
    }
}

fn state_word(state: Option<RegistrationState>) -> &'static [u8] {
    match state {
        None => b"- ",
        Some(RegistrationState::Registered) => b"reg ",
        Some(RegistrationState::Unregistered) => b"unreg ",
    }
}

/// The account that is served where a call of these parties is diverted to carol.
fn carol_served(
    transcript: &mut Transcript,
    accounts: &Accounts,
    parties: &Parties,
) -> Option<Account> {
    match read_uri(transcript.alloc, b"sip:carol@home.example") {
        Ok(carol) => {
            let found = accounts.find(&carol);
            drop(carol);
            parties.served_accounts().diverted_served(found)
        }
        Err(_) => {
            transcript.fail();
            None
        }
    }
}

/// Writes the accounts of caller and target, the sides that are served, and the registration state; the accounts that are served: the caller's, the target's, and that of carol as
/// a further target; `refused` where a user of no account is served, else `-`; and whether the target is registered where the table says so and where it does not.
fn write_parties(transcript: &mut Transcript, accounts: &Accounts, parties: &Parties) {
    write_account(transcript, parties.origin);
    write_account(transcript, parties.target);
    transcript.add(sides_word(parties.served));
    transcript.add(state_word(parties.registration));
    write_account(transcript, parties.origin_served());
    write_account(transcript, parties.target_served());
    let carol = carol_served(transcript, accounts, parties);
    write_account(transcript, carol);
    transcript.add_if(
        parties.served_accounts().is_of_no_account(),
        b"refused ",
        b"- ",
    );
    transcript.add_if(is_registered(parties.registration, true), b"y", b"n");
    transcript.add_if(is_registered(parties.registration, false), b"y", b"n");
}

/// Writes the parties of a message.
fn write_party_value(
    transcript: &mut Transcript,
    accounts: &Accounts,
    message: &Msg,
    trusted: bool,
) {
    match Parties::of(transcript.alloc, accounts, message, trusted) {
        Ok(parties) => write_parties(transcript, accounts, &parties),
        Err(_) => transcript.fail(),
    }
}

/// Writes the parties of a call.
fn write_call(transcript: &mut Transcript, accounts: &Accounts, asked: &[u8]) {
    let (trusted, rest) = field(asked);
    let (uri, rest) = field(rest);
    let mut message = invite(transcript, uri);
    let rest = add_field(transcript, &mut message, b"P-Served-User", rest);
    let rest = add_field(transcript, &mut message, b"P-Served-User", rest);
    let rest = add_field(transcript, &mut message, b"P-Asserted-Identity", rest);
    let _ = add_field(transcript, &mut message, b"P-Asserted-Identity", rest);
    write_party_value(
        transcript,
        accounts,
        &message,
        trusted == b"trusted".as_slice(),
    );
    drop(message);
}

/// A result, the peer, the Request-URI, two P-Served-User header fields and two P-Asserted-Identity header fields. In order: the identity asserted by a trusted peer; none by
/// another, whatever it asserts; the tel identity where the sip identity is of no account, and the sip identity where both are; a Request-URI of no account, and one that is a
/// number; a user who is served as the caller, and one of no account; one who is served as the target, and one of no account; the first of two header fields; a state of another
/// word, one of a caller, names in any case and twice.
const CALLS: &[u8] =
    br#"1 2 both - 1 2 3 - yn|trusted|sip:bob@home.example|||"Alice" <sip:alice@home.example>|<tel:+4930111>
0 2 both - 0 2 3 - yn|untrusted|sip:bob@home.example|||<sip:alice@home.example>|
0 2 both - 0 2 3 - yn|untrusted|sip:bob@home.example|<sip:carol@home.example>;sescase=term;regstate=unreg||<sip:alice@home.example>|
1 2 both - 1 2 3 - yn|trusted|sip:bob@home.example|||<sip:erin@other.example>|<tel:+49-30-111>
3 2 both - 3 2 3 - yn|trusted|sip:bob@home.example|||<tel:+4930111>|<sip:carol@home.example>
1 0 both - 1 0 3 - yn|trusted|sip:vm@far.example|||<sip:alice@home.example>|
2 1 both - 2 1 3 - yn|trusted|tel:+49(30)111|||<sip:bob@home.example>|
3 2 orig - 3 0 0 - yn|trusted|sip:bob@home.example|<sip:carol@home.example>;sescase=orig||<sip:alice@home.example>|
0 2 orig - 0 0 0 refused yn|trusted|sip:bob@home.example|<sip:nobody@home.example>;sescase=orig||<sip:alice@home.example>|
1 2 term reg 0 2 0 - yy|trusted|sip:vm@far.example|<sip:bob@home.example>;sescase=term;regstate=reg||<sip:alice@home.example>|
1 0 term unreg 0 0 0 refused nn|trusted|sip:bob@home.example|<sip:nobody@home.example>;sescase=term;regstate=unreg||<sip:alice@home.example>|
3 2 orig - 3 0 0 - yn|trusted|sip:bob@home.example|<sip:carol@home.example>;sescase=orig|<sip:alice@home.example>;sescase=term;regstate=unreg|<sip:alice@home.example>|
1 2 term - 0 2 0 - yn|trusted|sip:bob@home.example|<sip:bob@home.example>;sescase=term;regstate=Reg||<sip:alice@home.example>|
3 2 orig - 3 0 0 - yn|trusted|sip:bob@home.example|<sip:carol@home.example>;sescase=orig;regstate=unreg||<sip:alice@home.example>|
1 2 term unreg 0 2 0 - nn|trusted|sip:vm@far.example|<sip:bob@home.example>;SESCASE=term;RegState=unreg;regstate=reg;sescase=orig||<sip:alice@home.example>|
"#;

/// The number of the first call that differs from the actual one; 0 where none does.
fn wrong_call(alloc: Global) -> usize {
    let mut transcript = Transcript::new(alloc);
    let accounts = accounts(&mut transcript);
    let mut rows = CALLS;
    for _ in 0..20 {
        if !rows.is_empty() {
            let (row, rest) = next_line(rows);
            rows = rest;
            let (_answer, asked) = field(row);
            write_call(&mut transcript, &accounts, asked);
            transcript.add(b"|");
            transcript.add_line(asked);
        }
    }
    drop(accounts);
    transcript.wrong_line(CALLS)
}

fn addr(port: u16) -> Addr {
    Addr {
        ip: [127, 0, 0, 1],
        port,
    }
}

fn add_peer(
    transcript: &mut Transcript,
    table: &mut PeerTable,
    number: u16,
    port: u16,
    name: &[u8],
) {
    let added = table.add_peer(transcript.alloc, Peer(number), addr(port), number == 1);
    transcript.fail_unless(added.is_ok());
    let name = transcript.copy(name);
    let added = table.add_route(transcript.alloc, name, Peer(number));
    transcript.fail_unless(added.is_ok());
}

/// Three peers, which are the routes to the home domain, another domain and numbers.
fn table(transcript: &mut Transcript) -> PeerTable {
    let mut table = PeerTable::new();
    add_peer(transcript, &mut table, 1, 5071, b"home.example");
    add_peer(transcript, &mut table, 2, 5072, b"far.example");
    add_peer(transcript, &mut table, 3, 5073, b"+49");
    table
}

/// The peer to which an attempt goes, 0 for none.
fn hop(transcript: &mut Transcript, table: &PeerTable, routes: &[Text], target: &[u8]) -> u16 {
    match read_uri(transcript.alloc, target) {
        Ok(target) => {
            let peer = next_hop(transcript.alloc, table, routes, &target);
            drop(target);
            match peer {
                Ok(peer) => peer.unwrap_or(Peer(0)).0,
                Err(_) => 99,
            }
        }
        Err(_) => 99,
    }
}

/// The Route values of a message that are kept at the server's address.
fn kept(alloc: Global, message: &Msg) -> Result<List<Text>, NoMemory> {
    let values = message.values(alloc, b"Route")?;
    remaining_routes(alloc, addr(5060), values)
}

/// Writes the peer and the Route values of an attempt of this message to this target.
fn write_next_hop(transcript: &mut Transcript, table: &PeerTable, message: &Msg, target: &[u8]) {
    match kept(transcript.alloc, message) {
        Ok(routes) => {
            let peer = hop(transcript, table, routes.items(), target);
            transcript.add_number(u64::from(peer));
            for route in routes.items() {
                transcript.add(b" ");
                transcript.add(route.bytes());
            }
            drop(routes);
        }
        Err(_) => transcript.fail(),
    }
}

/// Writes the next hop of an attempt.
fn write_attempt(transcript: &mut Transcript, table: &PeerTable, asked: &[u8]) {
    let (target, rest) = field(asked);
    let mut message = invite(transcript, target);
    let _ = add_field(transcript, &mut message, b"Route", rest);
    write_next_hop(transcript, table, &message, target);
    drop(message);
}

/// The peer and the Route values that are kept, the target, and the Route values that were received, at a server at 127.0.0.1:5060. In order: the server's own value and a further
/// one, which is the next hop; its own alone, without a port and with a user, where the target is the next hop; one of another port and one of another host, to which there is no
/// route; its own twice, of which one is removed; its own after another one; a number, to which there is no route; none.
const WAYS: &[u8] =
    b"1 <sip:odi-7@home.example;lr>|sip:bob@far.example|<sip:127.0.0.1:5060;lr>, <sip:odi-7@home.example;lr>
2|sip:bob@far.example|<sip:orig@127.0.0.1;lr>
0 <sip:127.0.0.1:5061;lr>|sip:bob@far.example|<sip:127.0.0.1:5061;lr>
0 <sip:127.0.0.2:5060;lr>|sip:bob@far.example|<sip:127.0.0.2:5060;lr>
0 <sip:127.0.0.1;lr>|sip:bob@far.example|<sip:127.0.0.1;lr>, <sip:127.0.0.1;lr>
2 <sip:p@far.example;lr> <sip:127.0.0.1;lr>|sip:bob@home.example|<sip:p@far.example;lr>, <sip:127.0.0.1;lr>
0 <tel:+49>|sip:bob@home.example|<tel:+49>
1|sip:bob@HOME.example|
3|tel:+49-30|
0|sip:bob@nowhere.example|
";

/// The number of the first attempt with another next hop; 0 where there is none.
fn wrong_way(alloc: Global) -> usize {
    let mut transcript = Transcript::new(alloc);
    let table = table(&mut transcript);
    let mut rows = WAYS;
    for _ in 0..20 {
        if !rows.is_empty() {
            let (row, rest) = next_line(rows);
            rows = rest;
            let (_answer, asked) = field(row);
            write_attempt(&mut transcript, &table, asked);
            transcript.add(b"|");
            transcript.add_line(asked);
        }
    }
    drop(table);
    transcript.wrong_line(WAYS)
}

/// An INVITE of the terminating side, which went through the server of its user and is to continue there.
const TERMINATING: &[u8] = b"INVITE sip:bob@home.example SIP/2.0\r
Via: SIP/2.0/UDP 127.0.0.1:5071;branch=z9hG4bKb1, SIP/2.0/UDP 127.0.0.9:5060;branch=z9hG4bKb0\r
Route: <sip:127.0.0.1:5060;lr>, <sip:odi-7@home.example;lr>\r
Max-Forwards: 68\r
From: \"Alice\" <sip:alice@home.example>;tag=a\r
To: <sip:bob@home.example>\r
Call-ID: c18\r
CSeq: 1 INVITE\r
Contact: <sip:alice@127.0.0.1:5071>\r
P-Asserted-Identity: \"Alice\" <sip:alice@home.example>, <tel:+4930111>\r
P-Served-User: <sip:bob@home.example>;sescase=term;regstate=reg\r
Content-Length: 0\r
\r
";

/// Writes the parties and the next hop of a message that is read.
fn write_read(transcript: &mut Transcript, message: &Msg) {
    let accounts = accounts(transcript);
    write_party_value(transcript, &accounts, message, true);
    drop(accounts);
    transcript.add(b"\n");
    let table = table(transcript);
    write_next_hop(transcript, &table, message, b"sip:bob@home.example");
    drop(table);
}

/// Bob alone is served, and is registered whatever the table says; the server's own Route value is removed, and the other one is the next hop.
fn wrong_terminating(alloc: Global) -> usize {
    let mut transcript = Transcript::new(alloc);
    if let Some(message) = message_of(&mut transcript, TERMINATING) {
        write_read(&mut transcript, &message);
        drop(message);
    }
    transcript.wrong_line(b"1 2 term reg 0 2 0 - yy\n1 <sip:odi-7@home.example;lr>")
}

#[test]
fn parties_and_ways(rt: HostRuntime) {
    assert_right(&rt, "call", wrong_call(rt.alloc()));
    assert_right(&rt, "way", wrong_way(rt.alloc()));
    assert_right(&rt, "terminating", wrong_terminating(rt.alloc()));
}
