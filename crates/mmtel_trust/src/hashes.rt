//! Hashes of names, numbers, addresses and identities. None of these functions allocates.
ghost use Rattle.std.specs.Prelude.{◌≡◌};
ghost use Rattle.std.specs.Str.{str_to_ascii_lowercase};
ghost use Rattle.mmtel_lex.specs.Identity.{is_visual_separator, without_separators};
ghost use Rattle.mmtel_trust.specs.Hashes.{addr_hash, begins_plus, hash_with, mixed_hash, name_hash, sip_hash, uri_hash};

use mmtel_lex::{Text, Uri};
use mmtel_types::Addr;

/// A byte that is a visual separator of a telephone number (RFC 3966 §3).
pub fn is_visual_separator(byte: u8) -> bool
    ensures { result ≡ is_visual_separator byte }
{
    byte == b'-' || byte == b'.' || byte == b'(' || byte == b')'
}

/// The hash with one more number mixed in.
#[tactic(auto, unfolding(crate::specs::Hashes::mixed_hash))]
pub fn mixed_hash(hash: u64, number: u64) -> u64
    ensures { result ≡ mixed_hash hash number }
{
    hash.wrapping_mul(1_099_511_628_211).wrapping_add(number)
}

fn hash_with(hash: u64, bytes: &[u8]) -> u64
    ensures { result ≡ hash_with hash bytes.now }
{
    let mut so_far = hash;
    for byte in bytes {
        so_far = mixed_hash(so_far, u64::from(*byte));
    }
    so_far
}

/// The hash with the bytes of a text mixed in, in lower case.
fn hash_with_lower(hash: u64, bytes: &[u8]) -> u64
    ensures { result ≡ hash_with hash (str_to_ascii_lowercase bytes.now) }
{
    let mut so_far = hash;
    for byte in bytes {
        so_far = mixed_hash(so_far, u64::from(byte.to_ascii_lowercase()));
    }
    so_far
}

/// The hash with the bytes of a telephone number mixed in, without its visual separators.
fn hash_with_number(hash: u64, number: &[u8]) -> u64
    ensures { result ≡ hash_with hash (without_separators number.now) }
{
    let mut so_far = hash;
    for byte in number {
        if !is_visual_separator(*byte) {
            so_far = mixed_hash(so_far, u64::from(*byte));
        }
    }
    so_far
}

/// The hash of a name that is compared without case.
pub fn name_hash(name: &[u8]) -> u64
    ensures { result ≡ name_hash name.now }
{
    hash_with_lower(1, name)
}

/// The hash of an address.
pub fn addr_hash(addr: Addr) -> u64
    ensures { result ≡ addr_hash addr }
{
    mixed_hash(hash_with(1, &addr.ip), u64::from(addr.port))
}

fn begins_plus(user: &[u8]) -> bool
    ensures { result ≡ begins_plus user.now }
{
    match user {
        [first, ..] => *first == b'+',
        [] => false,
    }
}

fn sip_hash(user: &Option<Text>, host: &[u8]) -> u64
    ensures { result ≡ sip_hash user.now host.now }
{
    match user {
        None => name_hash(host),
        Some(user) => {
            if begins_plus(user.bytes()) {
                return hash_with(1, user.bytes());
            }
            hash_with_lower(mixed_hash(hash_with(1, user.bytes()), 64), host)
        }
    }
}

/// The hash of a URI: URIs of the same identity have the same hash.
pub fn uri_hash(uri: &Uri) -> u64
    ensures { result ≡ uri_hash uri.now }
{
    match uri {
        Uri::Sip { user, host, .. } => sip_hash(user, host.bytes()),
        Uri::Tel { number, .. } => hash_with_number(1, number.bytes()),
    }
}
