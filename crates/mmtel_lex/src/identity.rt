//! Which URIs name the same identity.
ghost use Rattle.std.specs.Prelude.{List, ℕ, ◌≡◌, ◌∷◌, ◌↔◌, IsTrue, MatchOption, IfSome, length, ◌<◌, []};
ghost use Rattle.std.specs.Option.{option_copied};
ghost use Rattle.std.specs.Str.{str_to_ascii_lowercase};
ghost use Rattle.mmtel_base.specs.Classes.{IsAll};
ghost use Rattle.mmtel_base.specs.declared.classes.Class.TheVariants.{Digit};
ghost use Rattle.mmtel_lex.specs.Identity.{is_visual_separator, without_separators, has_user_phone, IsPhone, IsSameIdentity, host_of};
ghost use Rattle.mmtel_lex.specs.SameIdentity.{is_same_identity};

use crate::params::param_value;
use crate::values::{Param, Params, Uri};
use mmtel_base::{Class, Text, is_all};

/// The host of a sip URI; None exactly for a tel URI. It allocates nothing.
pub fn domain(uri: &Uri) -> Option<&[u8]>
    ensures { option_copied result ≡ host_of uri.now }
{
    match uri {
        Uri::Sip { host, .. } => Some(host.bytes()),
        Uri::Tel { .. } => None,
    }
}

fn is_visual_separator(byte: u8) -> bool
    ensures { result ≡ is_visual_separator byte }
{
    byte == b'-' || byte == b'.' || byte == b'(' || byte == b')'
}

/// The first byte that is no visual separator, and what follows it.
fn next_significant(bytes: &[u8]) -> Option<(u8, &[u8])>
    ensures parts { MatchOption result (without_separators bytes.now ≡ []) (λ x. without_separators bytes.now ≡ x.0 ∷ without_separators x.1.now) }
    ensures shorter { IfSome result (λ x. length x.1.now < length bytes.now) }
{
    let mut rest = bytes;
    'marks: while let [first, tail @ ..] = rest {
        if !is_visual_separator(*first) {
            return Some((*first, tail));
        }
        rest = tail;
    }
    None
}

/// Whether the numbers are equal without their visual separators.
fn same_number(a: &[u8], b: &[u8]) -> bool
    ensures { IsTrue result ↔ (without_separators a.now ≡ without_separators b.now) }
{
    let mut a = a;
    let mut b = b;
    'numbers: loop {
        match next_significant(a) {
            None => return next_significant(b).is_none(),
            Some((x, rest_a)) => match next_significant(b) {
                None => return false,
                Some((y, rest_b)) => {
                    if x != y {
                        return false;
                    }
                    a = rest_a;
                    b = rest_b;
                }
            },
        }
    }
}

fn same_user(a: &Option<Text>, b: &Option<Text>) -> bool
    ensures { IsTrue result ↔ (a.now ≡ b.now) }
{
    match (a, b) {
        (None, None) => true,
        (Some(a), Some(b)) => a.bytes() == b.bytes(),
        _ => false,
    }
}

fn same_host(a: &[u8], b: &[u8]) -> bool
    ensures { IsTrue result ↔ (str_to_ascii_lowercase a.now ≡ str_to_ascii_lowercase b.now) }
{
    a.eq_ignore_ascii_case(b)
}

fn has_user_phone(params: &[Param]) -> bool
    ensures { result ≡ has_user_phone params.now }
{
    match param_value(params, b"user") {
        None => false,
        Some(value) => value == b"phone".as_slice(),
    }
}

fn is_plus_digits(bytes: &[u8]) -> bool
    ensures { IsTrue result ↔ ((digits : List ℕ) × (bytes.now ≡ 43 ∷ digits) × IsAll Digit digits) }
{
    match bytes {
        [b'+', digits @ ..] => is_all(Class::Digit, digits),
        _ => false,
    }
}

/// Whether a sip URI with this user and these parameters represents the number.
fn is_phone(user: &Option<Text>, params: &Params, number: &[u8]) -> bool
    ensures { IsTrue result ↔ IsPhone user.now params.now (without_separators number.now) }
{
    match user {
        None => false,
        Some(user) => {
            let bytes = user.bytes();
            if !is_plus_digits(bytes) {
                return false;
            }
            if !has_user_phone(params.items()) {
                return false;
            }
            same_number(bytes, number)
        }
    }
}

fn are_same(a: &Uri, b: &Uri) -> bool
    ensures { IsTrue result ↔ IsSameIdentity a.now b.now }
{
    match a {
        Uri::Sip {
            user,
            host,
            params,
            ..
        } => match b {
            Uri::Sip {
                user: other_user,
                host: other_host,
                ..
            } => same_user(user, other_user) && same_host(host.bytes(), other_host.bytes()),
            Uri::Tel { number, .. } => is_phone(user, params, number.bytes()),
        },
        Uri::Tel { number, .. } => match b {
            Uri::Sip { user, params, .. } => is_phone(user, params, number.bytes()),
            Uri::Tel {
                number: other_number,
                ..
            } => same_number(number.bytes(), other_number.bytes()),
        },
    }
}

/// Whether the URIs name the same identity. It allocates nothing.
///
/// Two sip URIs are where their users are equal byte for byte and their hosts without case. Two tel URIs are where their numbers are equal without visual separators. A sip
/// and a tel URI are where the sip URI's user is `+` and digits, its first parameter `user` has the value `phone`, and its user is the number without visual separators.
pub fn same_identity(a: &Uri, b: &Uri) -> bool
    ensures relation { IsTrue result ↔ IsSameIdentity a.now b.now }
    ensures tested { result ≡ is_same_identity a.now b.now }
{
    are_same(a, b)
}
