//! Where the parts of a URI are, whatever its scheme (RFC 3261 §19.1.1).
ghost use Rattle.std.specs.Prelude.{◌≡◌, ◌∷◌, [], ◌<◌, ◌≤◌, length, IfSome, MatchOption, take, drop};
ghost use Rattle.std.specs.List.{find};
ghost use Rattle.std.specs.Option.{option_copied, option_map};
ghost use Rattle.mmtel_lex.specs.UriParts.{parts, text_before, text_after, host_and_params, is_named, user_part, host_part, uri_params, header_parts};

use mmtel_base::split_once_at;

/// The first part, which ends at such a byte, and what follows it; None where the text is one part.
pub fn first_part(byte: u8, bytes: &[u8]) -> Option<(&[u8], &[u8])>
    ensures parts { MatchOption result (parts byte bytes.now ≡ bytes.now ∷ []) (λ x. parts byte bytes.now ≡ x.0.now ∷ parts byte x.1.now) }
    ensures shorter { IfSome result (λ x. length x.1.now < length bytes.now) }
{
    split_once_at(byte, bytes)
}

/// What comes before the first such byte, or all; and what follows it, or nothing.
pub fn split_around(byte: u8, bytes: &[u8]) -> (&[u8], &[u8])
    ensures front { result.0.now ≡ text_before byte bytes.now }
    ensures back { result.1.now ≡ text_after byte bytes.now }
{
    match split_once_at(byte, bytes) {
        None => (bytes, &[]),
        Some(both) => both,
    }
}

/// Whether the part has this name, without case, before its `=`.
pub fn is_named(name: &[u8], part: &[u8]) -> bool
    ensures test { result ≡ is_named name.now part.now }
{
    let (front, _) = split_around(b'=', part);
    front.eq_ignore_ascii_case(name)
}

/// The URI split after its last `@`: what comes up to it, and the host with all that follows. Where there is no `@`, the first is empty.
#[tactic(auto, unfolding(crate::specs::UriParts::user_part, crate::specs::UriParts::host_part))]
pub fn split_user(uri: &[u8]) -> (&[u8], &[u8])
    ensures user { result.0.now ≡ user_part uri.now }
    ensures host { result.1.now ≡ host_part uri.now }
{
    let mut at = uri.len();
    'back: while at > 0 {
        if uri[at - 1] == b'@' {
            break;
        }
        at -= 1;
    }
    uri.split_at(at)
}

/// The first of the parts between such bytes that has this name, without case.
pub fn find_named<'a>(byte: u8, name: &[u8], bytes: &'a [u8]) -> Option<&'a [u8]>
    ensures found { option_copied result ≡ find (is_named name.now) (parts byte bytes.now) }
{
    let mut rest = bytes;
    'parts: while let Some((front, tail)) = first_part(byte, rest) {
        if is_named(name, front) {
            return Some(front);
        }
        rest = tail;
    }
    if is_named(name, rest) {
        Some(rest)
    } else {
        None
    }
}

/// The URI's first parameter of this name, with its `=` and its value where it has one.
pub fn uri_param<'a>(uri: &'a [u8], name: &[u8]) -> Option<&'a [u8]>
    ensures found { option_copied result ≡ find (is_named name.now) (uri_params uri.now) }
{
    let (_, host) = split_user(uri);
    let (front, _) = split_around(b'?', host);
    match first_part(b';', front) {
        None => None,
        Some((_, params)) => find_named(b';', name, params),
    }
}

/// The first of the URI's headers of this name, with its `=` and its value where it has one, in its escaped form.
pub fn uri_header<'a>(uri: &'a [u8], name: &[u8]) -> Option<&'a [u8]>
    ensures found { option_copied result ≡ find (is_named name.now) (header_parts uri.now) }
{
    let (_, host) = split_user(uri);
    let (_, headers) = split_around(b'?', host);
    find_named(b'&', name, headers)
}
