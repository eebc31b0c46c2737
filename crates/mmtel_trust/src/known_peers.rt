//! The entries of a table of peers.

use mmtel_base::Text;
use mmtel_types::{Addr, Peer};

/// A peer of the configuration.
#[derive(Clone, Copy, Debug)]
pub struct KnownPeer {
    /// Its number.
    pub peer: Peer,
    /// The address to which messages for it are sent, and from which its datagrams come.
    pub addr: Addr,
    /// Whether it is in the trust domain (RFC 3324 §2.3).
    pub trusted: bool,
}

/// A route of the configuration: the peer that is the next hop for a host or for numbers.
#[derive(Debug, Drop)]
pub struct Route {
    /// A host; `+` and the first digits of numbers; or `*` for everything that no other route matches.
    pub name: Text,
    /// The peer that is the next hop.
    pub peer: Peer,
}
