//! The table of peers and routes.
ghost use Rattle.std.specs.Prelude.{◌≡◌, ◌≤◌, Some, OnOk, OnErr, IfSome, List, ℕ, true, [], filter, find, length};
ghost use Rattle.std.specs.Option.{option_copied};
ghost use Rattle.mmtel_lex.specs.Identity.{without_separators};
ghost use Rattle.mmtel_trust.specs.Faults.{IsTableResult};
ghost use Rattle.mmtel_trust.specs.Hashes.{addr_hash as hash_of_addr, name_hash as hash_of_name};
ghost use Rattle.mmtel_trust.specs.Indexes.{are_within, matches_with_length};
ghost use Rattle.mmtel_trust.specs.Peers.{Peers, peer_fault, route_fault, has_number, has_addr, has_name, peer_at};
ghost use Rattle.mmtel_trust.specs.Peers.{addr_of, is_at, is_number, is_trusted, is_trusted_one, is_route, with_peer};
ghost use Rattle.mmtel_trust.specs.Peers.{begins_with, is_prefix, longest, matches_number, named_route, own_route, route_of, with_route};
ghost use Rattle.mmtel_trust.specs.HashIndex.{IsIndex};
ghost use Rattle.mmtel_trust.specs.declared.known_peers.Route.{Route};

use crate::faults::TableFault;
use crate::hash_index::{HashIndex, LookupKey, first_item, has_item};
use crate::hashes::{addr_hash, is_visual_separator, mixed_hash, name_hash};
use crate::known_peers::{KnownPeer, Route};
use crate::texts::equals_ignoring_case;
use mmtel_base::{Class, is_all};
use mmtel_identity::is_in_trust_domain;
use mmtel_lex::{List, Text, Uri};
use mmtel_types::{Addr, Peer};
use std::alloc::Global;
use std::marker::Model;

/// The peers with which the server exchanges messages, and the routes to them.
#[derive(Drop)]
pub struct PeerTable {
    peers: List<KnownPeer>,
    routes: List<Route>,
    by_number: HashIndex,
    by_addr: HashIndex,
    by_name: HashIndex,
    /// An upper bound on the length of a route's name, in bytes.
    bound: usize,
}

impl Model for PeerTable {
    ghost use Rattle.mmtel_trust.specs.Indexes.{IsPeerTableState};
    ghost use Rattle.mmtel_trust.specs.Peers.{Peers};

    ghost Value = { Peers };

    ghost view = { λ t. record { known = t.peers; routes = t.routes } };

    ghost invariant = { λ t. IsPeerTableState (record { known = t.peers; routes = t.routes }) t.by_number t.by_addr t.by_name t.bound };
}

impl LookupKey<KnownPeer> for Peer {
    ghost is_key_of = { is_number };

    ghost hash = { λ p. p.0 };

    fn is_key_of(&self, item: &KnownPeer) -> bool {
        item.peer.0 == self.0
    }

    fn hash(&self) -> u64 {
        u64::from(self.0)
    }
}

/// The number of a peer that must be in the trust domain.
#[derive(Drop)]
struct Trusted(Peer);

impl LookupKey<KnownPeer> for Trusted {
    ghost is_key_of = { λ t k. is_trusted_one t.0 k };

    ghost hash = { λ t. t.0.0 };

    fn is_key_of(&self, item: &KnownPeer) -> bool {
        is_in_trust_domain(item.peer, item.trusted, self.0)
    }

    fn hash(&self) -> u64 {
        u64::from(self.0.0)
    }
}

impl LookupKey<KnownPeer> for Addr {
    ghost is_key_of = { is_at };

    ghost hash = { hash_of_addr };

    fn is_key_of(&self, item: &KnownPeer) -> bool {
        item.addr.is_same(*self)
    }

    fn hash(&self) -> u64 {
        addr_hash(*self)
    }
}

/// The name of a route, compared without case.
#[derive(Drop)]
struct RouteName<'a> {
    name: &'a [u8],
}

impl<'a> LookupKey<Route> for RouteName<'a> {
    ghost is_key_of = { λ n r. is_route n.name.now r };

    ghost hash = { λ n. hash_of_name n.name.now };

    fn is_key_of(&self, item: &Route) -> bool {
        equals_ignoring_case(item.name.bytes(), self.name)
    }

    fn hash(&self) -> u64 {
        name_hash(self.name)
    }
}

/// The first bytes of a number without its visual separators: how many they are, and their hash.
#[derive(Drop)]
struct NumberPrefix<'a> {
    number: &'a [u8],
    length: usize,
    hash: u64,
}

impl<'a> LookupKey<Route> for NumberPrefix<'a> {
    ghost is_key_of = { λ f r. matches_with_length (without_separators f.number.now) f.length r };

    ghost hash = { λ f. f.hash };

    fn is_key_of(&self, item: &Route) -> bool {
        matches_with_length(item, self.number, self.length)
    }

    fn hash(&self) -> u64 {
        self.hash
    }
}

/// Whether the number begins with the prefix once its visual separators are removed.
fn begins_with(number: &[u8], prefix: &[u8]) -> bool
    ensures { result ≡ begins_with (without_separators number.now) prefix.now }
{
    let mut rest = prefix;
    for byte in number {
        if !is_visual_separator(*byte) {
            match rest {
                [] => return true,
                [first, tail @ ..] => {
                    if *byte != *first {
                        return false;
                    }
                    rest = tail;
                }
            }
        }
    }
    rest.is_empty()
}

fn is_prefix(name: &[u8]) -> bool
    ensures { result ≡ is_prefix name.now }
{
    match name {
        [b'+', digits @ ..] => !digits.is_empty() && is_all(Class::Digit, digits),
        _ => false,
    }
}

fn matches_number(route: &Route, number: &[u8]) -> bool
    ensures { result ≡ matches_number (without_separators number.now) route.now }
{
    is_prefix(route.name.bytes()) && begins_with(number, route.name.bytes())
}

fn matches_with_length(route: &Route, number: &[u8], length: usize) -> bool
    ensures { result ≡ matches_with_length (without_separators number.now) length route.now }
{
    if !matches_number(route, number) {
        return false;
    }
    route.name.bytes().len() == length
}

/// The route of the longest prefix with which the number begins, where no name of a route is longer than the bound.
fn prefix_route<'a>(
    routes: &'a [Route],
    by_name: &HashIndex,
    bound: usize,
    number: &[u8],
) -> Option<&'a Route>
    requires index { IsIndex (λ r. hash_of_name r.name) routes.now by_name.now }
    requires within { are_within bound routes.now ≡ true }
    ensures { option_copied result ≡ longest (filter (matches_number (without_separators number.now)) routes.now) }
{
    let mut best: Option<&Route> = None;
    let mut length = 0;
    let mut hash = 1;
    for byte in number {
        if !is_visual_separator(*byte) {
            if length >= bound {
                return best;
            }
            length += 1;
            hash = mixed_hash(hash, u64::from(*byte));
            let front = NumberPrefix {
                number,
                length,
                hash,
            };
            best = first_item(by_name, routes, &front).or(best);
        }
    }
    best
}

/// The greater of both.
fn wider_bound(bound: usize, length: usize) -> usize
    ensures before { bound ≤ result }
    ensures more { length ≤ result }
{
    if bound < length { length } else { bound }
}

/// The peer at the address.
fn peer_at(peers: &[KnownPeer], by_addr: &HashIndex, addr: Addr) -> Option<Peer>
    requires { IsIndex (λ k. hash_of_addr k.addr) peers.now by_addr.now }
    ensures { result ≡ peer_at addr peers.now }
{
    match first_item(by_addr, peers, &addr) {
        Some(known) => Some(known.peer),
        None => None,
    }
}

/// The address of the peer.
fn addr_of(peers: &[KnownPeer], by_number: &HashIndex, peer: Peer) -> Option<Addr>
    requires { IsIndex (λ k. k.peer.0) peers.now by_number.now }
    ensures { result ≡ addr_of peer peers.now }
{
    match first_item(by_number, peers, &peer) {
        Some(known) => Some(known.addr),
        None => None,
    }
}

/// The route of the name.
fn named_route<'a>(routes: &'a [Route], by_name: &HashIndex, name: &[u8]) -> Option<&'a Route>
    requires { IsIndex (λ r. hash_of_name r.name) routes.now by_name.now }
    ensures { option_copied result ≡ named_route name.now routes.now }
{
    first_item(by_name, routes, &RouteName { name })
}

/// The route that names the host of a URI, or the longest prefix of its number.
fn own_route<'a>(
    routes: &'a [Route],
    by_name: &HashIndex,
    bound: usize,
    uri: &Uri,
) -> Option<&'a Route>
    requires index { IsIndex (λ r. hash_of_name r.name) routes.now by_name.now }
    requires within { are_within bound routes.now ≡ true }
    ensures { option_copied result ≡ own_route uri.now routes.now }
{
    match uri {
        Uri::Sip { host, .. } => named_route(routes, by_name, host.bytes()),
        Uri::Tel { number, .. } => prefix_route(routes, by_name, bound, number.bytes()),
    }
}

/// The peer to which the URI is routed.
fn route_of(routes: &[Route], by_name: &HashIndex, bound: usize, uri: &Uri) -> Option<Peer>
    requires index { IsIndex (λ r. hash_of_name r.name) routes.now by_name.now }
    requires within { are_within bound routes.now ≡ true }
    ensures { result ≡ route_of uri.now routes.now }
{
    match own_route(routes, by_name, bound, uri) {
        Some(route) => Some(route.peer),
        None => match named_route(routes, by_name, b"*") {
            Some(route) => Some(route.peer),
            None => None,
        },
    }
}

impl PeerTable {
    /// The table without peers and routes. It allocates nothing.
    pub fn new() -> PeerTable
        ensures empty { result ≡ record { known = []; routes = [] } }
    {
        PeerTable {
            peers: List::new(),
            routes: List::new(),
            by_number: HashIndex::new(),
            by_addr: HashIndex::new(),
            by_name: HashIndex::new(),
            bound: 0,
        }
    }

    fn has_number(&self, peer: Peer) -> bool
        ensures { result ≡ has_number peer self.now.known }
    {
        has_item(&self.by_number, self.peers.items(), &peer)
    }

    fn has_addr(&self, addr: Addr) -> bool
        ensures { result ≡ has_addr addr self.now.known }
    {
        has_item(&self.by_addr, self.peers.items(), &addr)
    }

    fn has_name(&self, name: &[u8]) -> bool
        ensures { result ≡ has_name name.now self.now.routes }
    {
        has_item(&self.by_name, self.routes.items(), &RouteName { name })
    }

    /// Adds a peer: its number, its address, and whether it is in the trust domain (RFC 3324 §2.3).
    ///
    /// # Errors
    ///
    /// `Taken` where a peer of this number, or one at this address, is in the table; otherwise out of memory only. The table is then as before.
    pub fn add_peer(
        &mut self,
        alloc: Global,
        peer: Peer,
        addr: Addr,
        trusted: bool,
    ) -> Result<(), TableFault>
        ensures ok { OnOk result (self.new ≡ with_peer peer addr trusted self.old) }
        ensures err { OnErr result (self.new ≡ self.old) }
        ensures cause { IsTableResult result (peer_fault peer addr self.old) }
    {
        if self.has_number(peer) || self.has_addr(addr) {
            return Err(TableFault::Taken);
        }
        let place = self.peers.items().len();
        self.by_number.add(alloc, u64::from(peer.0), place)?;
        self.by_addr.add(alloc, addr_hash(addr), place)?;
        self.peers.push(
            alloc,
            KnownPeer {
                peer: peer,
                addr: addr,
                trusted,
            },
        )?;
        Ok(())
    }

    /// Adds a route: the name of a host, `+` and digits with which numbers begin, or `*`; and the peer that is its next hop.
    ///
    /// # Errors
    ///
    /// 1. `Taken` where a route of this name, compared without case, is in the table.
    /// 2. `NoPeer` where the peer is not in the table.
    ///
    /// Otherwise out of memory only. The table is then as before.
    pub fn add_route(&mut self, alloc: Global, name: Text, peer: Peer) -> Result<(), TableFault>
        ensures ok { OnOk result (self.new ≡ with_route name peer self.old) }
        ensures err { OnErr result (self.new ≡ self.old) }
        ensures cause { IsTableResult result (route_fault name peer self.old) }
    {
        if self.has_name(name.bytes()) {
            return Err(TableFault::Taken);
        }
        if !self.has_number(peer) {
            return Err(TableFault::NoPeer);
        }
        let place = self.routes.items().len();
        self.by_name.add(alloc, name_hash(name.bytes()), place)?;
        self.bound = wider_bound(self.bound, name.bytes().len());
        self.routes.push(alloc, Route { name, peer: peer })?;
        Ok(())
    }

    /// The peer at the address; None where there is none.
    pub fn find(&self, addr: Addr) -> Option<Peer>
        ensures exact { result ≡ peer_at addr self.now.known }
        // The peer that is found is at this address.
        ensures theirs { IfSome result (λ p. addr_of p self.now.known ≡ Some addr) }
    {
        peer_at(self.peers.items(), &self.by_addr, addr)
    }

    /// The address of the peer; None where the peer is not in the table.
    pub fn addr(&self, peer: Peer) -> Option<Addr>
        ensures exact { result ≡ addr_of peer self.now.known }
        // A datagram from this address comes from this peer.
        ensures theirs { IfSome result (λ a. peer_at a self.now.known ≡ Some peer) }
    {
        addr_of(self.peers.items(), &self.by_number, peer)
    }

    /// Whether the peer is in the trust domain (RFC 3324 §2.3); false where it is not in the table.
    pub fn trusted(&self, peer: Peer) -> bool
        ensures exact { result ≡ is_trusted peer self.now.known }
    {
        has_item(&self.by_number, self.peers.items(), &Trusted(peer))
    }

    /// The peer to which a URI is routed; None where no route matches it.
    ///
    /// It is that of the route whose name is the host, compared without case; for a tel URI that of the route with the longest name of `+` and digits with which its number
    /// begins once `-`, `.`, `(` and `)` are removed. Where there is no such route it is that of `*`.
    pub fn route(&self, uri: &Uri) -> Option<Peer>
        ensures exact { result ≡ route_of uri.now self.now.routes }
        // The URI is routed to a peer of the table.
        ensures known { IfSome result (λ p. has_number p self.now.known ≡ true) }
    {
        route_of(self.routes.items(), &self.by_name, self.bound, uri)
    }
}
