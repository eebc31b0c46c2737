//! Look-ups of accounts, peers and routes in tables of some hundred entries, each compared with a linear search of the whole list.

use mmtel_lex::{List, Uri, read_uri, same_identity};
use mmtel_test_tables::Transcript;
use mmtel_trust::{AccountIdentity, Accounts, KnownPeer, PeerTable, Route, TableFault};
use mmtel_types::{Account, Addr, Peer};
use std::alloc::Global;

/// Pseudo-random numbers that are drawn one after the other, the same in each run.
#[derive(Drop)]
struct Dice(u64);

impl Dice {
    /// A number below this one.
    fn below(&mut self, sides: u32) -> u32 {
        self.0 = self
            .0
            .wrapping_mul(6_364_136_223_846_793_005)
            .wrapping_add(1_442_695_040_888_963_407);
        let drawn = u32::try_from(self.0 >> 33).unwrap_or(0);
        match drawn.checked_rem(sides) {
            Some(drawn) => drawn,
            None => 0,
        }
    }

    /// One of these texts.
    fn one_of<'a>(&mut self, texts: &[&'a [u8]]) -> &'a [u8] {
        let sides = u32::try_from(texts.len()).unwrap_or(0);
        match texts.get(self.below(sides) as usize) {
            Some(text) => *text,
            None => b"",
        }
    }
}

/// Adds up to four digits, of which there are three, with visual separators among them or not.
fn add_digits(transcript: &mut Transcript, dice: &mut Dice, marks: &[&[u8]]) {
    let digits = dice.below(4);
    for _ in 0..digits {
        transcript.add(dice.one_of(&[b"1", b"2", b"3"]));
        transcript.add(dice.one_of(marks));
    }
    transcript.add(dice.one_of(&[b"1", b"2"]));
}

/// Adds a host, of which there are five, in whichever case.
fn add_host(transcript: &mut Transcript, dice: &mut Dice) {
    transcript.add(dice.one_of(&[b"h", b"H"]));
    transcript.add(dice.one_of(&[b"1", b"2", b"3", b"4", b"5"]));
    transcript.add(dice.one_of(&[b".example", b".EXAMPLE"]));
}

/// Adds a sip URI: without a user, of a user, or of a number that it may represent.
fn add_sip(transcript: &mut Transcript, dice: &mut Dice) {
    transcript.add(b"sip:");
    match dice.below(4) {
        0 => {}
        1 => transcript.add(dice.one_of(&[b"a@", b"A@", b"b@", b"1@", b"a+1@"])),
        _ => {
            transcript.add(b"+");
            add_digits(transcript, dice, &[b"", b"", b"-"]);
            transcript.add(b"@");
        }
    }
    add_host(transcript, dice);
    transcript.add(dice.one_of(&[b"", b";user=phone", b";user=ip"]));
}

/// A URI that is drawn.
fn drawn_uri(alloc: Global, dice: &mut Dice) -> Option<Uri> {
    let mut transcript = Transcript::new(alloc);
    if dice.below(2) == 0 {
        add_sip(&mut transcript, dice);
    } else {
        transcript.add(b"tel:");
        transcript.add(dice.one_of(&[b"+", b"+(", b""]));
        add_digits(&mut transcript, dice, &[b"", b"-", b".", b")"]);
    }
    let read = read_uri(alloc, transcript.bytes());
    drop(transcript);
    match read {
        Ok(uri) => Some(uri),
        Err(_) => None,
    }
}

/// The account of the first identity that is equal to the URI; 0 where there is none.
fn owner(identities: &[AccountIdentity], uri: &Uri) -> u32 {
    for identity in identities {
        if same_identity(&identity.uri, uri) {
            return identity.account.0;
        }
    }
    0
}

/// Adds an identity of an account. Returns whether the result is that of a linear search of all of them.
fn adds_right(alloc: Global, accounts: &mut Accounts, number: u32, uri: Uri) -> bool {
    let is_there = owner(accounts.identities(), &uri) != 0;
    match accounts.add(alloc, Account(number), uri) {
        Ok(()) => !is_there,
        Err(TableFault::Taken) => is_there,
        Err(_) => false,
    }
}

/// How many of the results of a table of accounts are wrong: three thousand identities are drawn and added where they are new, and ten thousand are looked up.
fn wrong_owners(alloc: Global) -> u32 {
    let mut dice = Dice(7);
    let mut accounts = Accounts::new();
    let mut wrong = 0u32;
    for number in 1..3000u32 {
        if let Some(uri) = drawn_uri(alloc, &mut dice) {
            if !adds_right(alloc, &mut accounts, number, uri) {
                wrong = wrong.saturating_add(1);
            }
        }
    }
    let mut seen = 0u32;
    for _ in 0..12_000 {
        if let Some(uri) = drawn_uri(alloc, &mut dice) {
            seen = seen.saturating_add(1);
            let found = accounts.find(&uri).unwrap_or(Account(0)).0;
            if found != owner(accounts.identities(), &uri) {
                wrong = wrong.saturating_add(1);
            }
            if found != 0 && !accounts.has_account(Account(found)) {
                wrong = wrong.saturating_add(1);
            }
            drop(uri);
        }
    }
    if accounts.has_account(Account(3000)) || seen < 10_000 {
        wrong = wrong.saturating_add(1);
    }
    drop(accounts);
    wrong
}

/// A peer that is drawn: its number of 1 to 199, and its address of as many.
fn drawn_peer(dice: &mut Dice) -> KnownPeer {
    let number = u16::try_from(dice.below(199))
        .unwrap_or(0)
        .saturating_add(1);
    KnownPeer {
        peer: Peer(number),
        addr: drawn_addr(dice),
        trusted: dice.below(2) == 0,
    }
}

fn drawn_addr(dice: &mut Dice) -> Addr {
    let last = u8::try_from(dice.below(20)).unwrap_or(0);
    let port = u16::try_from(dice.below(10))
        .unwrap_or(0)
        .saturating_add(5060);
    Addr {
        ip: [127, 0, 0, last],
        port,
    }
}

/// The peer at the address, by a linear search; None where there is none.
fn at(peers: &[KnownPeer], addr: Addr) -> Option<KnownPeer> {
    for known in peers {
        if known.addr.ip == addr.ip && known.addr.port == addr.port {
            return Some(*known);
        }
    }
    None
}

/// The peer of the number, by a linear search; None where there is none.
fn of(peers: &[KnownPeer], number: u16) -> Option<KnownPeer> {
    for known in peers {
        if known.peer.0 == number {
            return Some(*known);
        }
    }
    None
}

/// The name of a route that is drawn: a host, or a prefix of numbers.
fn add_name(transcript: &mut Transcript, dice: &mut Dice) {
    if dice.below(4) == 0 {
        add_host(transcript, dice);
    } else {
        transcript.add(b"+");
        add_digits(transcript, dice, &[b""]);
    }
}

/// The peer of the first route of the host, by a linear search; 0 where there is none.
fn of_host(routes: &[Route], host: &[u8]) -> u16 {
    for route in routes {
        if route.name.bytes().eq_ignore_ascii_case(host) {
            return route.peer.0;
        }
    }
    0
}

/// Whether the number begins with the prefix, once its visual separators are removed.
fn begins(number: &[u8], prefix: &[u8]) -> bool {
    let mut rest = prefix;
    for byte in number {
        if *byte != b'-' && *byte != b'.' && *byte != b'(' && *byte != b')' {
            match rest {
                [] => return true,
                [first, tail @ ..] => {
                    if first != byte {
                        return false;
                    }
                    rest = tail;
                }
            }
        }
    }
    rest.is_empty()
}

/// The peer of the longest prefix of the number, by a linear search; 0 where there is none.
fn of_number(routes: &[Route], number: &[u8]) -> u16 {
    let mut peer = 0;
    let mut length = 0;
    for route in routes {
        let name = route.name.bytes();
        if name.starts_with(b"+") && name.len() > length && begins(number, name) {
            peer = route.peer.0;
            length = name.len();
        }
    }
    peer
}

fn leads_to(routes: &[Route], uri: &Uri) -> u16 {
    let own = match uri {
        Uri::Sip { host, .. } => of_host(routes, host.bytes()),
        Uri::Tel { number, .. } => of_number(routes, number.bytes()),
    };
    if own != 0 {
        return own;
    }
    of_host(routes, b"*")
}

/// A table, and the same as lists.
#[derive(Drop)]
struct Tables {
    table: PeerTable,
    peers: List<KnownPeer>,
    routes: List<Route>,
    wrong: u32,
}

impl Tables {
    fn new() -> Tables {
        Tables {
            table: PeerTable::new(),
            peers: List::new(),
            routes: List::new(),
            wrong: 0,
        }
    }

    /// Counts what is wrong.
    fn note(&mut self, is_right: bool) {
        if !is_right {
            self.wrong = self.wrong.saturating_add(1);
        }
    }

    fn add_peer(&mut self, alloc: Global, one: KnownPeer) {
        let is_taken = of(self.peers.items(), one.peer.0).is_some()
            || at(self.peers.items(), one.addr).is_some();
        let done = self.table.add_peer(alloc, one.peer, one.addr, one.trusted);
        self.note(
            done == (if is_taken {
                Err(TableFault::Taken)
            } else {
                Ok(())
            }),
        );
        if done.is_ok() {
            let kept = self.peers.push(alloc, one).is_ok();
            self.note(kept);
        }
    }

    fn add_route(&mut self, transcript: &mut Transcript, name: &[u8], number: u16) {
        let is_taken = of_host(self.routes.items(), name) != 0;
        let is_there = of(self.peers.items(), number).is_some();
        let named = transcript.copy(name);
        let done = self.table.add_route(transcript.alloc, named, Peer(number));
        let due = if is_taken {
            Err(TableFault::Taken)
        } else if is_there {
            Ok(())
        } else {
            Err(TableFault::NoPeer)
        };
        self.note(done == due);
        if done.is_ok() {
            let route = Route {
                name: transcript.copy(name),
                peer: Peer(number),
            };
            let kept = self.routes.push(transcript.alloc, route).is_ok();
            self.note(kept);
        }
    }

    /// Whether a peer is found by its number, trusted or not.
    fn is_right_of(&self, number: u16) -> bool {
        let trusted = self.table.trusted(Peer(number));
        match (
            of(self.peers.items(), number),
            self.table.addr(Peer(number)),
        ) {
            (None, None) => !trusted,
            (Some(one), Some(found)) => one.addr.is_same(found) && one.trusted == trusted,
            _ => false,
        }
    }

    /// Whether a peer is found by its address.
    fn is_right_at(&self, addr: Addr) -> bool {
        match (at(self.peers.items(), addr), self.table.find(addr)) {
            (None, None) => true,
            (Some(one), Some(found)) => one.peer == found,
            _ => false,
        }
    }

    /// Whether the route of the URI is that of a linear search.
    fn is_right_to(&self, uri: &Uri) -> bool {
        self.table.route(uri).unwrap_or(Peer(0)).0 == leads_to(self.routes.items(), uri)
    }
}

/// How many of the results of a table of peers and routes are wrong.
fn wrong_peers(alloc: Global) -> u32 {
    let mut dice = Dice(11);
    let mut transcript = Transcript::new(alloc);
    let mut tables = Tables::new();
    for _ in 0..300 {
        let one = drawn_peer(&mut dice);
        tables.add_peer(alloc, one);
    }
    for _ in 0..400 {
        let mut name = Transcript::new(alloc);
        add_name(&mut name, &mut dice);
        let number = drawn_peer(&mut dice).peer.0;
        tables.add_route(&mut transcript, name.bytes(), number);
        drop(name);
    }
    tables.add_route(&mut transcript, b"*", 1);
    for _ in 0..10_000 {
        let one = drawn_peer(&mut dice);
        let is_right = tables.is_right_of(one.peer.0) && tables.is_right_at(one.addr);
        tables.note(is_right);
        if let Some(uri) = drawn_uri(alloc, &mut dice) {
            let is_right = tables.is_right_to(&uri);
            drop(uri);
            tables.note(is_right);
        }
    }
    let failed = transcript.has_failed();
    drop(transcript);
    tables.note(!failed);
    let wrong = tables.wrong;
    drop(tables);
    wrong
}

#[test]
fn tables_find_what_walks_find(rt: HostRuntime) {
    assert_eq!(rt; wrong_owners(rt.alloc()), 0);
    assert_eq!(rt; wrong_peers(rt.alloc()), 0);
}
