//! The identity part of a rule.
ghost use Rattle.std.specs.Prelude.{◌≡◌};
ghost use Rattle.mmtel_rules.specs.Identities.{has_identity_in_domain, identity_holds, is_identity_of, is_in_domain, many_holds, names_an_identity};

use crate::values::Identities2;
use mmtel_lex::{List, Text, Uri, domain, same_identity};
use mmtel_sheet_values::Who;

/// Whether the URI is of one of the identities.
fn is_identity_of(uri: &Uri, identities: &Identities2) -> bool
    ensures { result ≡ is_identity_of identities.now uri.now }
{
    if let Some(sip) = &identities.sip {
        if same_identity(uri, sip) {
            return true;
        }
    }
    match &identities.tel {
        None => false,
        Some(tel) => same_identity(uri, tel),
    }
}

/// Whether one of the URIs is of one of the identities.
fn names_an_identity(uris: &[Uri], identities: &Identities2) -> bool
    ensures { result ≡ names_an_identity identities.now uris.now }
{
    uris.iter().any(|uri| is_identity_of(uri, identities))
}

/// Whether the URI is of the domain.
fn is_in_domain(uri: &Uri, wanted: &[u8]) -> bool
    ensures { result ≡ is_in_domain wanted.now uri.now }
{
    if wanted == b"*".as_slice() {
        return true;
    }
    match domain(uri) {
        None => false,
        Some(host) => host.eq_ignore_ascii_case(wanted),
    }
}

/// Whether one of the identities is of the domain.
fn has_identity_in_domain(identities: &Identities2, wanted: &[u8]) -> bool
    ensures { result ≡ has_identity_in_domain wanted.now identities.now }
{
    if let Some(sip) = &identities.sip {
        if is_in_domain(sip, wanted) {
            return true;
        }
    }
    match &identities.tel {
        None => false,
        Some(tel) => is_in_domain(tel, wanted),
    }
}

/// Whether `many` holds: one of the identities is of its domain, and none is excepted.
fn many_holds(many: &Option<Text>, except: &List<Uri>, identities: &Identities2) -> bool
    ensures { result ≡ many_holds many.now except.now identities.now }
{
    match many {
        None => false,
        Some(wanted) => {
            has_identity_in_domain(identities, wanted.bytes())
                && !names_an_identity(except.items(), identities)
        }
    }
}

/// Whether the identity part of a condition is true of these identities.
#[tactic(auto, unfolding(crate::specs::Identities::identity_holds))]
pub fn identity_holds(identities: &Identities2, who: &Who) -> bool
    ensures { result ≡ identity_holds identities.now who.now }
{
    names_an_identity(who.one.items(), identities) || many_holds(&who.many, &who.except, identities)
}
