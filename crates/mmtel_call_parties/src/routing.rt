//! The route of an attempt: its Route values, and the peer to which it is sent (RFC 3261 §16.4 and §16.6).
ghost use Rattle.std.specs.Prelude.{◌≡◌, IfOk, IfSome, Some, drop, true};
ghost use Rattle.mmtel_trust.specs.Asserted.{uri_in};
ghost use Rattle.mmtel_trust.specs.Peers.{has_number};
ghost use Rattle.mmtel_call_parties.specs.Routing.{begins_with_own_route, is_own_route, names_server, next_hop, remaining_routes, routed_peer};

use mmtel_lex::{List, NoMemory, Text, Uri};
use mmtel_message::ip_text;
use mmtel_trust::{PeerTable, uri_in};
use mmtel_types::{Addr, Peer};
use std::alloc::Global;

/// Whether the URI names the server's address: a sip URI whose host is its IP address and whose port is its port. Without a port it is 5060 (RFC 3261 §19.1.2).
///
/// # Errors
///
/// Out of memory only.
pub fn names_server(alloc: Global, sip: Addr, uri: &Uri) -> Result<bool, NoMemory>
    ensures exact { IfOk result (λ named. named ≡ names_server sip uri.now) }
{
    match uri {
        Uri::Sip { host, port, .. } => {
            let ip = ip_text(alloc, sip.ip)?;
            Ok(host.bytes() == ip.bytes() && port.unwrap_or(5060) == sip.port)
        }
        Uri::Tel { .. } => Ok(false),
    }
}

/// Whether a Route value names the server.
fn is_own_route(alloc: Global, sip: Addr, value: &[u8]) -> Result<bool, NoMemory>
    ensures { IfOk result (λ own. own ≡ is_own_route sip (uri_in value.now)) }
{
    match uri_in(alloc, value)? {
        None => Ok(false),
        Some(uri) => names_server(alloc, sip, &uri),
    }
}

/// Whether there is a first value and it names the server.
fn begins_with_own_route(alloc: Global, sip: Addr, values: &[Text]) -> Result<bool, NoMemory>
    ensures { IfOk result (λ own. own ≡ begins_with_own_route sip values.now) }
{
    match values {
        [] => Ok(false),
        [value, ..] => is_own_route(alloc, sip, value.bytes()),
    }
}

/// The values without the first.
fn without_first(values: List<Text>) -> List<Text>
    ensures { result ≡ drop 1 values }
{
    let mut values = values;
    match values.pop_first() {
        Some(_) => values,
        None => values,
    }
}

/// The Route values of a request that each attempt of its call keeps: all except a first one that names the server (RFC 3261 §16.4).
///
/// # Errors
///
/// Out of memory only; the values are then dropped.
pub fn remaining_routes(
    alloc: Global,
    sip: Addr,
    values: List<Text>,
) -> Result<List<Text>, NoMemory>
    ensures exact { IfOk result (λ kept. kept ≡ remaining_routes sip values) }
{
    if begins_with_own_route(alloc, sip, values.items())? {
        Ok(without_first(values))
    } else {
        Ok(values)
    }
}

/// The peer to which a sip URI is routed; None for a tel URI.
fn sip_peer(peers: &PeerTable, uri: &Uri) -> Option<Peer>
    ensures peer { result ≡ routed_peer peers.now.routes (Some uri.now) }
    ensures known { IfSome result (λ p. has_number p peers.now.known ≡ true) }
{
    match uri {
        Uri::Sip { .. } => peers.route(uri),
        Uri::Tel { .. } => None,
    }
}

/// The peer to which a Route value is routed: that of its host; None where it is no sip URI, or no route matches its host.
fn routed_peer(alloc: Global, peers: &PeerTable, value: &[u8]) -> Result<Option<Peer>, NoMemory>
    ensures peer { IfOk result (λ peer. peer ≡ routed_peer peers.now.routes (uri_in value.now)) }
    ensures known { IfOk result (λ peer. IfSome peer (λ p. has_number p peers.now.known ≡ true)) }
{
    match uri_in(alloc, value)? {
        None => Ok(None),
        Some(uri) => Ok(sip_peer(peers, &uri)),
    }
}

/// The peer to which an attempt is sent, by the Route values that it keeps and its target: that of the first value's host, and none where no route matches that; without a value
/// that of the target (RFC 3261 §16.6).
///
/// # Errors
///
/// Out of memory only.
pub fn next_hop(
    alloc: Global,
    peers: &PeerTable,
    routes: &[Text],
    target: &Uri,
) -> Result<Option<Peer>, NoMemory>
    ensures exact { IfOk result (λ peer. peer ≡ next_hop peers.now.routes routes.now target.now) }
    // The peer is one of the table.
    ensures known { IfOk result (λ peer. IfSome peer (λ p. has_number p peers.now.known ≡ true)) }
{
    match routes {
        [] => Ok(peers.route(target)),
        [value, ..] => routed_peer(alloc, peers, value.bytes()),
    }
}
