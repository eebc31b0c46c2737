//! The lines of a configuration, one by one.
ghost use Rattle.std.specs.Prelude.{◌≡◌, IfOk, option_copied};
ghost use Rattle.std.specs.Option.{option_map};
ghost use Rattle.mmtel_lex.specs.Reading.{uri_of};
ghost use Rattle.mmtel_trust.specs.Peers.{is_prefix};
ghost use Rattle.mmtel_base.specs.Numbers.{plain_number};
ghost use Rattle.mmtel_directory.specs.Directory.{route_words, ip_of, addr_of, kind_of, is_host, is_route_name, trust_of, peer_of, account_number, readable, identities_of};
ghost use Rattle.mmtel_directory.specs.Directory.{is_country, country_line, extension_line, extension_of, is_one_word, is_store_name};
ghost use Rattle.mmtel_directory.specs.Lines.{words_of};
ghost use Rattle.mmtel_directory.specs.Directory.{uris_of, kind_and_rest, sip_line, web_line, home_line, peer_line, route_line, account_words, account_line, operator_line};
ghost use Rattle.mmtel_directory.specs.Directory.{factory_line, bound_line, mixer_line, store_line, line_of_kind, line_of_words, line_of};

use crate::lines::{first_word, is_comment, number_from};
use mmtel_base::{Class, List, NoMemory, Text, is_all, plain_number, split_once_at};
use mmtel_lex::{Uri, UriFault, read_uri};
use mmtel_sdp::Mixer;
use mmtel_trust::{KnownPeer, Route};
use mmtel_types::limits::{ACCOUNT_IDENTITIES, MAX_DIVERSIONS};
use mmtel_types::{Account, Addr, Peer};
use std::alloc::Global;

/// The kinds of lines, by their first words.
#[derive(Clone, Copy)]
pub enum LineKind {
    Sip,
    Web,
    Home,
    Peer,
    Route,
    Account,
    Operator,
    Factory,
    Bound,
    Country,
    Extension,
    Mixer,
    Store,
}

/// An extension that a configuration may switch on.
#[derive(Clone, Copy, Debug, PartialEq, Eq)]
pub enum Extension {
    /// Reliable provisional responses and UPDATE (RFC 3262, RFC 3311).
    Reliable,
    /// Session timers (RFC 4028).
    Timer,
    /// Message waiting (3GPP TS 24.606).
    Mwi,
}

/// The content of a line.
#[derive(Drop)]
pub enum Line {
    /// Nothing: it is empty, or begins with `#`.
    Comment,
    /// The server's own address for SIP.
    Sip(Addr),
    /// The server's own address for HTTP.
    Web(Addr),
    /// The home domain.
    Home(Text),
    /// A peer.
    Peer(KnownPeer),
    /// A route to a peer.
    Route(Route),
    /// An account and its identities.
    Account {
        /// Its number.
        account: Account,
        /// Its identities.
        identities: List<Uri>,
    },
    /// The identity of the operator.
    Operator(Uri),
    /// The factory URI, at which conferences are created.
    Factory(Uri),
    /// The bound on the diversions of a call.
    Bound(u16),
    /// The digits of the home country.
    Country(Text),
    /// An extension that is switched on.
    Extension(Extension),
    /// The address at which the conference mixer receives media.
    Mixer(Mixer),
    /// The name of the store.
    Store(Text),
}

fn octet(bytes: &[u8]) -> Option<u8>
    ensures { result ≡ plain_number 255 bytes.now }
{
    let number = plain_number(255, bytes)?;
    Some(number as u8)
}

fn read_ip(bytes: &[u8]) -> Option<[u8; 4]>
    ensures { result ≡ ip_of bytes.now }
{
    let (first, rest) = split_once_at(b'.', bytes)?;
    let (second, rest) = split_once_at(b'.', rest)?;
    let (third, fourth) = split_once_at(b'.', rest)?;
    Some([octet(first)?, octet(second)?, octet(third)?, octet(fourth)?])
}

fn read_addr(bytes: &[u8]) -> Option<Addr>
    ensures { result ≡ addr_of bytes.now }
{
    let (ip, port) = split_once_at(b':', bytes)?;
    let ip = read_ip(ip)?;
    let port = number_from(1, 65535, port)?;
    Some(Addr {
        ip,
        port: port as u16,
    })
}

fn kind_of(word: &[u8]) -> Option<LineKind>
    ensures { result ≡ kind_of word.now }
{
    if word == b"sip".as_slice() {
        Some(LineKind::Sip)
    } else if word == b"web".as_slice() {
        Some(LineKind::Web)
    } else if word == b"home".as_slice() {
        Some(LineKind::Home)
    } else if word == b"peer".as_slice() {
        Some(LineKind::Peer)
    } else if word == b"route".as_slice() {
        Some(LineKind::Route)
    } else if word == b"account".as_slice() {
        Some(LineKind::Account)
    } else if word == b"operator".as_slice() {
        Some(LineKind::Operator)
    } else if word == b"factory".as_slice() {
        Some(LineKind::Factory)
    } else if word == b"bound".as_slice() {
        Some(LineKind::Bound)
    } else if word == b"country".as_slice() {
        Some(LineKind::Country)
    } else if word == b"extension".as_slice() {
        Some(LineKind::Extension)
    } else if word == b"mixer".as_slice() {
        Some(LineKind::Mixer)
    } else if word == b"store".as_slice() {
        Some(LineKind::Store)
    } else {
        None
    }
}

fn is_host(bytes: &[u8]) -> bool
    ensures { result ≡ is_host bytes.now }
{
    1 <= bytes.len() && bytes.len() <= 255 && is_all(Class::Host, bytes)
}

fn is_prefix(bytes: &[u8]) -> bool
    ensures { result ≡ is_prefix bytes.now }
{
    match bytes {
        [b'+', digits @ ..] => !digits.is_empty() && is_all(Class::Digit, digits),
        _ => false,
    }
}

fn is_route_name(bytes: &[u8]) -> bool
    ensures { result ≡ is_route_name bytes.now }
{
    is_host(bytes) || is_prefix(bytes) || bytes == b"*".as_slice()
}

fn read_trust(word: &[u8]) -> Option<bool>
    ensures { result ≡ trust_of word.now }
{
    if word == b"trusted".as_slice() {
        Some(true)
    } else if word == b"untrusted".as_slice() {
        Some(false)
    } else {
        None
    }
}

/// The number of a peer: 1 to 1,024.
pub fn read_peer(digits: &[u8]) -> Option<Peer>
    ensures number { result ≡ peer_of digits.now }
{
    let number = number_from(1, 1024, digits)?;
    Some(Peer(number as u16))
}

fn sip_line(rest: &[u8]) -> Option<Line>
    ensures { result ≡ sip_line rest.now }
{
    Some(Line::Sip(read_addr(rest)?))
}

fn web_line(rest: &[u8]) -> Option<Line>
    ensures { result ≡ web_line rest.now }
{
    Some(Line::Web(read_addr(rest)?))
}

fn home_line(alloc: Global, rest: &[u8]) -> Result<Option<Line>, NoMemory>
    ensures { IfOk result (λ line. line ≡ home_line rest.now) }
{
    if !is_host(rest) {
        return Ok(None);
    }
    Ok(Some(Line::Home(Text::of(alloc, rest)?)))
}

fn peer_line(rest: &[u8]) -> Option<Line>
    ensures { result ≡ peer_line rest.now }
{
    let (number, rest) = split_once_at(b' ', rest)?;
    let (addr, trust) = split_once_at(b' ', rest)?;
    let peer = read_peer(number)?;
    let addr = read_addr(addr)?;
    let trusted = read_trust(trust)?;
    Some(Line::Peer(KnownPeer {
        peer,
        addr,
        trusted,
    }))
}

/// The name and the peer of a route.
fn route_words(rest: &[u8]) -> Option<(&[u8], Peer)>
    ensures { option_map (λ x. (x.0.now, x.1)) result ≡ route_words rest.now }
{
    let (name, number) = split_once_at(b' ', rest)?;
    let peer = read_peer(number)?;
    if is_route_name(name) {
        Some((name, peer))
    } else {
        None
    }
}

fn route_line(alloc: Global, rest: &[u8]) -> Result<Option<Line>, NoMemory>
    ensures { IfOk result (λ line. line ≡ route_line rest.now) }
{
    match route_words(rest) {
        None => Ok(None),
        Some((name, peer)) => Ok(Some(Line::Route(Route {
            name: Text::of(alloc, name)?,
            peer,
        }))),
    }
}

/// The number of an account: 1 to 4294967295.
fn account_number(digits: &[u8]) -> Option<Account>
    ensures { result ≡ account_number digits.now }
{
    let number = number_from(1, 4_294_967_295, digits)?;
    Some(Account(number as u32))
}

/// The URI that the bytes are; None where they are none of the schemes `sip` and `tel`.
///
/// # Errors
///
/// Out of memory only.
pub fn readable_uri(alloc: Global, bytes: &[u8]) -> Result<Option<Uri>, NoMemory>
    ensures uri { IfOk result (λ uri. uri ≡ readable (uri_of bytes.now)) }
{
    match read_uri(alloc, bytes) {
        Ok(uri) => Ok(Some(uri)),
        Err(UriFault::NoMemory) => Err(NoMemory),
        Err(UriFault::Malformed | UriFault::Scheme) => Ok(None),
    }
}

/// The URIs that the words are, each of them.
fn read_uris(alloc: Global, words: &[u8]) -> Result<Option<List<Uri>>, NoMemory>
    ensures { IfOk result (λ uris. uris ≡ uris_of (words_of words.now)) }
{
    let mut uris = List::new();
    let mut rest = Some(words);
    'words: while let Some(bytes) = rest {
        let (word, more) = first_word(bytes);
        match readable_uri(alloc, word)? {
            None => return Ok(None),
            Some(uri) => uris.push(alloc, uri)?,
        }
        rest = more;
    }
    Ok(Some(uris))
}

fn read_identities(alloc: Global, words: &[u8]) -> Result<Option<List<Uri>>, NoMemory>
    ensures { IfOk result (λ uris. uris ≡ identities_of words.now) }
{
    match read_uris(alloc, words)? {
        None => Ok(None),
        Some(uris) => {
            if uris.items().len() <= ACCOUNT_IDENTITIES {
                Ok(Some(uris))
            } else {
                Ok(None)
            }
        }
    }
}

/// The number of an account, and the words after it.
fn account_words(rest: &[u8]) -> Option<(Account, &[u8])>
    ensures { option_map (λ x. (x.0, x.1.now)) result ≡ account_words rest.now }
{
    let (number, words) = split_once_at(b' ', rest)?;
    Some((account_number(number)?, words))
}

fn account_line(alloc: Global, rest: &[u8]) -> Result<Option<Line>, NoMemory>
    ensures { IfOk result (λ line. line ≡ account_line rest.now) }
{
    match account_words(rest) {
        None => Ok(None),
        Some((account, words)) => match read_identities(alloc, words)? {
            None => Ok(None),
            Some(identities) => Ok(Some(Line::Account {
                account,
                identities,
            })),
        },
    }
}

fn operator_line(alloc: Global, rest: &[u8]) -> Result<Option<Line>, NoMemory>
    ensures { IfOk result (λ line. line ≡ operator_line rest.now) }
{
    match readable_uri(alloc, rest)? {
        None => Ok(None),
        Some(uri) => Ok(Some(Line::Operator(uri))),
    }
}

fn factory_line(alloc: Global, rest: &[u8]) -> Result<Option<Line>, NoMemory>
    ensures { IfOk result (λ line. line ≡ factory_line rest.now) }
{
    match readable_uri(alloc, rest)? {
        None => Ok(None),
        Some(uri) => Ok(Some(Line::Factory(uri))),
    }
}

fn bound_line(rest: &[u8]) -> Option<Line>
    ensures { result ≡ bound_line rest.now }
{
    let number = plain_number(u64::from(MAX_DIVERSIONS), rest)?;
    Some(Line::Bound(number as u16))
}

fn is_country(bytes: &[u8]) -> bool
    ensures { result ≡ is_country bytes.now }
{
    1 <= bytes.len() && bytes.len() <= 3 && is_all(Class::Digit, bytes)
}

fn country_line(alloc: Global, rest: &[u8]) -> Result<Option<Line>, NoMemory>
    ensures { IfOk result (λ line. line ≡ country_line rest.now) }
{
    if !is_country(rest) {
        return Ok(None);
    }
    Ok(Some(Line::Country(Text::of(alloc, rest)?)))
}

fn extension_of(word: &[u8]) -> Option<Extension>
    ensures { result ≡ extension_of word.now }
{
    if word == b"100rel".as_slice() {
        Some(Extension::Reliable)
    } else if word == b"timer".as_slice() {
        Some(Extension::Timer)
    } else if word == b"mwi".as_slice() {
        Some(Extension::Mwi)
    } else {
        None
    }
}

fn extension_line(rest: &[u8]) -> Option<Line>
    ensures { result ≡ extension_line rest.now }
{
    let extension = extension_of(rest)?;
    Some(Line::Extension(extension))
}

fn mixer_line(rest: &[u8]) -> Option<Line>
    ensures { result ≡ mixer_line rest.now }
{
    let (ip, port) = split_once_at(b' ', rest)?;
    let ip = read_ip(ip)?;
    let port = number_from(1, 65535, port)?;
    Some(Line::Mixer(Mixer {
        ip,
        port: port as u16,
    }))
}

fn is_one_word(bytes: &[u8]) -> bool
    ensures { result ≡ is_one_word bytes.now }
{
    bytes.iter().all(|byte| *byte != b' ')
}

fn is_store_name(bytes: &[u8]) -> bool
    ensures { result ≡ is_store_name bytes.now }
{
    1 <= bytes.len() && is_one_word(bytes)
}

fn store_line(alloc: Global, rest: &[u8]) -> Result<Option<Line>, NoMemory>
    ensures { IfOk result (λ line. line ≡ store_line rest.now) }
{
    if !is_store_name(rest) {
        return Ok(None);
    }
    Ok(Some(Line::Store(Text::of(alloc, rest)?)))
}

fn line_of_kind(alloc: Global, kind: LineKind, rest: &[u8]) -> Result<Option<Line>, NoMemory>
    ensures { IfOk result (λ line. line ≡ line_of_kind kind rest.now) }
{
    match kind {
        LineKind::Sip => Ok(sip_line(rest)),
        LineKind::Web => Ok(web_line(rest)),
        LineKind::Home => home_line(alloc, rest),
        LineKind::Peer => Ok(peer_line(rest)),
        LineKind::Route => route_line(alloc, rest),
        LineKind::Account => account_line(alloc, rest),
        LineKind::Operator => operator_line(alloc, rest),
        LineKind::Factory => factory_line(alloc, rest),
        LineKind::Bound => Ok(bound_line(rest)),
        LineKind::Country => country_line(alloc, rest),
        LineKind::Extension => Ok(extension_line(rest)),
        LineKind::Mixer => Ok(mixer_line(rest)),
        LineKind::Store => store_line(alloc, rest),
    }
}

/// The kind of a line, and what follows its first word.
fn kind_and_rest(text: &[u8]) -> Option<(LineKind, &[u8])>
    ensures { option_map (λ x. (x.0, x.1.now)) result ≡ kind_and_rest text.now }
{
    let (word, rest) = split_once_at(b' ', text)?;
    Some((kind_of(word)?, rest))
}

/// The content of a line; None where it is of no form of the grammar.
#[tactic(auto, unfolding(crate::specs::Directory::line_of))]
pub fn read_line(alloc: Global, text: &[u8]) -> Result<Option<Line>, NoMemory>
    ensures { IfOk result (λ line. line ≡ line_of text.now) }
{
    if is_comment(text) {
        return Ok(Some(Line::Comment));
    }
    match kind_and_rest(text) {
        None => Ok(None),
        Some((kind, rest)) => line_of_kind(alloc, kind, rest),
    }
}
