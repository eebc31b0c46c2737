//! Who makes a request.
ghost use Rattle.std.specs.Prelude.{◌≡◌, IfOk};
ghost use Rattle.std.specs.Option.{option_copied};
ghost use Rattle.mmtel_web.specs.Parties.{identity_of, quoted_text, is_own, may_access, is_operator};

use mmtel_base::{NoMemory, skip_byte, split_once_at};
use mmtel_directory::readable_uri;
use mmtel_lex::{Uri, same_identity};
use mmtel_trust::{AccountIdentity, Accounts};
use mmtel_types::Account;
use std::alloc::Global;

/// What is in the quotes.
fn quoted_text(value: &[u8]) -> Option<&[u8]>
    ensures { option_copied result ≡ quoted_text value.now }
{
    let rest = skip_byte(b'"', value)?;
    let (inner, behind) = split_once_at(b'"', rest)?;
    if behind.is_empty() { Some(inner) } else { None }
}

/// The identity in the value of the header field of the asserted identity.
pub fn identity_of(alloc: Global, value: Option<&[u8]>) -> Result<Option<Uri>, NoMemory>
    ensures { IfOk result (λ identity. identity ≡ identity_of (option_copied value.entry)) }
{
    match value {
        None => Ok(None),
        Some(value) => match quoted_text(value) {
            None => Ok(None),
            Some(bytes) => readable_uri(alloc, bytes),
        },
    }
}

/// Whether one of these is an identity of the account that is equal to the URI.
fn has_own(identities: &[AccountIdentity], account: Account, uri: &Uri) -> bool
    ensures { result ≡ is_own identities.now account uri.now }
{
    identities.iter().any(|identity| identity.account.0 == account.0
        && same_identity(&identity.uri, uri))
}

/// Whether the URI is an identity of the account. All of its identities are compared only where the URI is one of another account.
fn is_own(accounts: &Accounts, account: Account, uri: &Uri) -> bool
    ensures { result ≡ is_own accounts.now account uri.now }
{
    match accounts.find(uri) {
        None => false,
        Some(first) => {
            if first.0 == account.0 {
                return true;
            }
            has_own(accounts.identities(), account, uri)
        }
    }
}

/// Whether the identity was asserted, and is one of the account.
pub fn may_access(accounts: &Accounts, account: Account, identity: &Option<Uri>) -> bool
    ensures { result ≡ may_access accounts.now account identity.now }
{
    match identity {
        None => false,
        Some(uri) => is_own(accounts, account, uri),
    }
}

/// Whether the identity is the operator's.
pub fn is_operator(operator: &Option<Uri>, identity: &Option<Uri>) -> bool
    ensures { result ≡ is_operator operator.now identity.now }
{
    match operator {
        None => false,
        Some(operator) => match identity {
            None => false,
            Some(identity) => same_identity(operator, identity),
        },
    }
}
