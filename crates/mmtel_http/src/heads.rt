//! The head at the beginning of the bytes of a connection: where it ends, and where its parts are.
ghost use Rattle.std.specs.Prelude.{◌≡◌, ◌≤◌, length, take, None, IfSome, MatchOption};
ghost use Rattle.httparse.specs.Spans.{IsRequestWithin};
ghost use Rattle.mmtel_http.specs.Heads.{head_of};
ghost use Rattle.mmtel_http.specs.Requests.{head_end, head_window};
ghost use Rattle.mmtel_http.specs.Views.{IsHeadAt};

use crate::ends::head_end;
use httparse::Status;
use httparse::spans::{HeaderSpan, RequestSpans, parse_request};
use mmtel_types::limits::WEB_HEAD_BYTES;

/// The bytes within which a head has to end.
fn head_window(bytes: &[u8]) -> &[u8]
    ensures front { result.now ≡ take head_window bytes.now }
    ensures within { length result.now ≤ length bytes.now }
{
    if bytes.len() > WEB_HEAD_BYTES {
        &bytes[..WEB_HEAD_BYTES]
    } else {
        bytes
    }
}

/// The length of the head, where it ends within the window.
pub fn end(bytes: &[u8]) -> Option<usize>
    ensures value { result ≡ head_end (take head_window bytes.now) }
    ensures within { IfSome result (λ n. n ≤ length bytes.now) }
{
    head_end(head_window(bytes))
}

/// Where the parts of a head are, those of its fields in `spans`; None where the bytes are no head.
pub fn spans_of(head: &[u8], spans: &mut [HeaderSpan; 64]) -> Option<RequestSpans>
    ensures within { IfSome result (IsRequestWithin head.now spans.new) }
    ensures exact { MatchOption result (head_of head.now ≡ None) (IsHeadAt head.now spans.new) }
{
    match parse_request(head, spans) {
        Ok(Status::Complete(parts)) => {
            if parts.len == head.len() {
                Some(parts)
            } else {
                None
            }
        }
        Ok(Status::Partial) => None,
        Err(_) => None,
    }
}
