//! Which peers are trusted, and which identities are passed on to which peers (RFC 3324, RFC 3325, RFC 3323).
ghost use Rattle.std.specs.Prelude.{◌≡◌};
ghost use Rattle.mmtel_identity.specs.TrustDomain.{if_trusted, is_in_trust_domain, shows_identity, unless_restricted};

use mmtel_types::Peer;

/// Whether a peer of the configuration is this one and is of the trust domain (RFC 3324 §2.3).
pub fn is_in_trust_domain(known: Peer, trusted: bool, peer: Peer) -> bool
    ensures exact { result ≡ is_in_trust_domain known trusted peer }
{
    known.0 == peer.0 && trusted
}

/// What a peer asserts of a user, which is accepted from a trusted peer alone (RFC 3324 §2.3, RFC 5502 §7.2).
pub fn if_trusted<T: Drop>(trusted: bool, value: Option<T>) -> Option<T>
    ensures exact { result ≡ if_trusted trusted value }
{
    if !trusted {
        return None;
    }
    value
}

/// Whether the asserted identities of a message are passed on (RFC 3325 §5 and §7): those from a trusted peer, where the identity of the sender is presented to the other side,
/// and, where the sender is restricted, to trusted peers alone.
pub fn shows_identity(from_trusted: bool, present: bool, to_trusted: bool, restricted: bool) -> bool
    ensures exact { result ≡ shows_identity from_trusted present to_trusted restricted }
{
    from_trusted && present && (to_trusted || !restricted)
}

/// What identifies a user, unless that user is restricted (RFC 3323 §4.1).
pub fn unless_restricted<T: Drop>(restricted: bool, name: Option<T>) -> Option<T>
    ensures exact { result ≡ unless_restricted restricted name }
{
    if restricted {
        return None;
    }
    name
}
