//! Where a head ends.
ghost use Rattle.std.specs.Prelude.{◌≡◌, ◌≤◌, ◌∷◌, [], length, IfSome, MatchOption};
ghost use Rattle.mmtel_http.specs.Requests.{IsFirstLine, head_end, is_empty_line, lines_of, seen_after};

use mmtel_base::split_once_at;

/// The first line, without its LF, and what follows it; None where no LF ends one.
fn first_line(bytes: &[u8]) -> Option<(&[u8], &[u8])>
    ensures { MatchOption result (lines_of bytes.now ≡ bytes.now ∷ []) (λ x. IsFirstLine bytes.now x.0.now x.1.now) }
{
    split_once_at(b'\n', bytes)
}

/// Whether the line has nothing, or a CR alone, before its LF.
fn is_empty_line(line: &[u8]) -> bool
    ensures { result ≡ is_empty_line line.now }
{
    match line {
        [] => true,
        [byte] => *byte == b'\r',
        _ => false,
    }
}

/// Whether a line that is not empty has come once this line has; None where the head ends with it.
fn seen_after(seen: bool, line: &[u8]) -> Option<bool>
    ensures { result ≡ seen_after seen line.now }
{
    if !is_empty_line(line) {
        Some(true)
    } else if seen {
        None
    } else {
        Some(false)
    }
}

/// The length of the head at the beginning of the bytes, where they have its end.
#[tactic(auto, using(crate::proofs::LineTheorems::begins, crate::proofs::LineTheorems::ends, crate::proofs::LineTheorems::goes_on, crate::proofs::LineTheorems::never))]
pub fn head_end(bytes: &[u8]) -> Option<usize>
    ensures value { result ≡ head_end bytes.now }
    ensures within { IfSome result (λ n. n ≤ length bytes.now) }
{
    let mut seen = false;
    let mut size = 0;
    let mut rest = bytes;
    'lines: while let Some((line, after)) = first_line(rest) {
        match seen_after(seen, line) {
            None => return Some(size + line.len() + 1),
            Some(later) => {
                seen = later;
                size += line.len() + 1;
                rest = after;
            }
        }
    }
    None
}
