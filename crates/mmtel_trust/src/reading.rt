//! Readers of values, which return None where there is none.
ghost use Rattle.std.specs.Prelude.{◌≡◌, IfOk};
ghost use Rattle.std.specs.Option.{option_copied};
ghost use Rattle.mmtel_lex.specs.Reading.{uri_of};
ghost use Rattle.mmtel_trust.specs.Asserted.{or_no_uri, uri_in};
ghost use Rattle.mmtel_trust.specs.HeaderTable.{display_and_uri, name_addr_in};

use mmtel_lex::{
    LexFault, List, NameAddr, NoMemory, Text, Uri, UriFault, name_addr_ref, print_name_addr,
    read_name_addr, read_uri,
};
use std::alloc::Global;

/// The sip or tel URI as which the bytes parse (RFC 3261 §19.1, RFC 3966); None where they do not parse.
///
/// # Errors
///
/// Out of memory only.
pub fn uri_of(alloc: Global, bytes: &[u8]) -> Result<Option<Uri>, NoMemory>
    ensures exact { IfOk result (λ u. u ≡ or_no_uri (uri_of bytes.now)) }
{
    match read_uri(alloc, bytes) {
        Ok(uri) => Ok(Some(uri)),
        Err(UriFault::Malformed) => Ok(None),
        Err(UriFault::Scheme) => Ok(None),
        Err(UriFault::NoMemory) => Err(NoMemory),
    }
}

/// The sip or tel URI of a name-addr (RFC 3261 §20.10); None where there is none, or the value cannot be read.
///
/// # Errors
///
/// Out of memory only.
pub fn uri_in(alloc: Global, value: &[u8]) -> Result<Option<Uri>, NoMemory>
    ensures exact { IfOk result (λ u. u ≡ uri_in value.now) }
{
    match name_addr_ref(value) {
        None => Ok(None),
        Some(name) => uri_of(alloc, name.uri),
    }
}

/// The name-addr of a value (RFC 3261 §20.10); None where there is no value, or it cannot be read.
///
/// # Errors
///
/// Out of memory only.
pub fn name_addr_in(alloc: Global, value: Option<&[u8]>) -> Result<Option<NameAddr>, NoMemory>
    ensures exact { IfOk result (λ n. n ≡ name_addr_in (option_copied value.entry)) }
{
    match value {
        None => Ok(None),
        Some(value) => match read_name_addr(alloc, value) {
            Ok(name) => Ok(Some(name)),
            Err(LexFault::Malformed) => Ok(None),
            Err(LexFault::NoMemory) => Err(NoMemory),
        },
    }
}

/// The text of the display name and the URI of a name-addr, without the parameters after them.
///
/// # Errors
///
/// Out of memory only.
pub fn display_and_uri(alloc: Global, name: NameAddr) -> Result<Text, NoMemory>
    ensures exact { IfOk result (λ t. t ≡ display_and_uri name) }
{
    let NameAddr {
        display,
        uri,
        params,
    } = name;
    drop(params);
    let alone = NameAddr {
        display,
        uri,
        params: List::new(),
    };
    let text = print_name_addr(alloc, &alone);
    drop(alone);
    text
}
