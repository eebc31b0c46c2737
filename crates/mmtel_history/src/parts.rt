//! Splitting a text at an escaped semicolon.
ghost use Rattle.std.specs.Prelude.{◌≡◌, ◌∷◌, [], ◌<◌, ◌≤◌, length, IfSome, MatchOption, take, drop};
ghost use Rattle.mmtel_history.specs.EntryUri.{begins_escape, escaped_parts};

/// Whether an escaped semicolon comes first.
fn begins_escape(bytes: &[u8]) -> bool
    ensures { result ≡ begins_escape bytes.now }
{
    let (front, _) = bytes.split_at(bytes.len().min(3));
    front.eq_ignore_ascii_case(b"%3B")
}

/// The first part, which ends at an escaped semicolon, and what follows it; None where the text is one part.
pub fn first_escaped(bytes: &[u8]) -> Option<(&[u8], &[u8])>
    ensures parts { MatchOption result (escaped_parts bytes.now ≡ bytes.now ∷ []) (λ x. escaped_parts bytes.now ≡ x.0.now ∷ escaped_parts x.1.now) }
    ensures shorter { IfSome result (λ x. length x.1.now < length bytes.now) }
{
    for i in 0..bytes.len() {
        let (front, rest) = bytes.split_at(i);
        if begins_escape(rest) {
            let (_, tail) = rest.split_at(rest.len().min(3));
            return Some((front, tail));
        }
    }
    None
}
