//! The identities that a message asserts of its sender (RFC 3325).
ghost use Rattle.std.specs.Prelude.{◌≡◌, IfOk};
ghost use Rattle.mmtel_lex.specs.Reading.{uri_of};
ghost use Rattle.mmtel_lex.specs.UriRefs.{uri_view};
ghost use Rattle.mmtel_message.specs.Values.{values_of};
ghost use Rattle.mmtel_trust.specs.Asserted.{is_of_scheme, first_uri, asserted, asserted_values, or_no_uri, uri_in};
ghost use Rattle.mmtel_trust.specs.Schemes.{of_scheme};

use mmtel_base::{Class, trim};
use mmtel_lex::{NoMemory, Uri, UriRef, name_addr_ref, uri_ref};
use mmtel_message::{Mode, Msg, next_part};
use std::alloc::Global;

/// The schemes of identities.
#[derive(Clone, Copy, Debug, PartialEq, Eq)]
pub enum Scheme {
    /// `sip` (RFC 3261 §19.1).
    Sip,
    /// `tel` (RFC 3966).
    Tel,
}

/// The identity of a party: one sip URI and one tel URI at most (RFC 3325 §9.1).
#[derive(Drop)]
pub struct Identities {
    /// The sip URI.
    pub sip: Option<Uri>,
    /// The tel URI.
    pub tel: Option<Uri>,
}

fn is_of_scheme(scheme: Scheme, uri: &UriRef<'_>) -> bool
    ensures { result ≡ is_of_scheme scheme (uri_view uri.now) }
{
    match uri {
        UriRef::Sip { .. } => match scheme {
            Scheme::Sip => true,
            Scheme::Tel => false,
        },
        UriRef::Tel { .. } => match scheme {
            Scheme::Sip => false,
            Scheme::Tel => true,
        },
    }
}

/// The URI as which the bytes parse, where it has this scheme.
fn uri_of_scheme(alloc: Global, scheme: Scheme, bytes: &[u8]) -> Result<Option<Uri>, NoMemory>
    ensures { IfOk result (λ u. u ≡ of_scheme scheme (or_no_uri (uri_of bytes.now))) }
{
    match uri_ref(bytes) {
        Err(_) => Ok(None),
        Ok(uri) => {
            if !is_of_scheme(scheme, &uri) {
                return Ok(None);
            }
            Ok(Some(uri.owned(alloc)?))
        }
    }
}

/// The URI of a name-addr, where it has this scheme.
fn first_of_value(alloc: Global, scheme: Scheme, value: &[u8]) -> Result<Option<Uri>, NoMemory>
    ensures { IfOk result (λ u. u ≡ of_scheme scheme (uri_in value.now)) }
{
    match name_addr_ref(value) {
        None => Ok(None),
        Some(name) => uri_of_scheme(alloc, scheme, name.uri),
    }
}

/// The first URI of the scheme among the values of a line.
fn first_of_line(alloc: Global, scheme: Scheme, values: &[u8]) -> Result<Option<Uri>, NoMemory>
    ensures { IfOk result (λ u. u ≡ first_uri scheme (values_of values.now)) }
{
    let mut rest = Some(values);
    'values: while let Some(more) = rest {
        let (value, after) = next_part(Mode::Plain, more);
        match first_of_value(alloc, scheme, trim(Class::Blank, value))? {
            Some(uri) => return Ok(Some(uri)),
            None => {}
        }
        rest = after;
    }
    Ok(None)
}

/// The first URI of the scheme among the asserted identities.
fn first_uri(alloc: Global, scheme: Scheme, message: &Msg) -> Result<Option<Uri>, NoMemory>
    ensures { IfOk result (λ u. u ≡ first_uri scheme (asserted_values message.now.lines)) }
{
    for values in message.values_in(b"P-Asserted-Identity") {
        match first_of_line(alloc, scheme, values)? {
            Some(uri) => return Ok(Some(uri)),
            None => {}
        }
    }
    Ok(None)
}

/// The identities that a message asserts of its sender: from a trusted peer the first sip and the first tel URI among the P-Asserted-Identity values; from any other peer none,
/// since it is not believed (RFC 3325 §5).
///
/// # Errors
///
/// Out of memory only.
pub fn asserted(alloc: Global, message: &Msg, trusted: bool) -> Result<Identities, NoMemory>
    ensures exact { IfOk result (λ i. i ≡ asserted trusted message.now.lines) }
{
    if !trusted {
        return Ok(Identities {
            sip: None,
            tel: None,
        });
    }
    let sip = first_uri(alloc, Scheme::Sip, message)?;
    match first_uri(alloc, Scheme::Tel, message) {
        Err(error) => {
            drop(sip);
            Err(error)
        }
        Ok(tel) => Ok(Identities { sip, tel }),
    }
}
