//! Whether a client waits for 100 (Continue) before it sends its body.
ghost use Rattle.std.specs.Prelude.{◌≡◌, length, map, All};
ghost use Rattle.std.specs.List.{list_any};
ghost use Rattle.httparse.specs.Spans.{header_bytes, IsHeaderWithin};
ghost use Rattle.mmtel_http.specs.Expectations.{expects_continue, is_expectation, waits_for_continue};
ghost use Rattle.mmtel_http.specs.Heads.{head_of};

use crate::heads::{end, spans_of};
use httparse::spans::{EMPTY_HEADER_SPAN, HeaderSpan};

/// Whether a field says that the client waits for 100 (Continue).
fn is_expectation(head: &[u8], span: HeaderSpan) -> bool
    requires { IsHeaderWithin (length head.now) span }
    ensures { result ≡ is_expectation (header_bytes head.now span) }
{
    span.name.of(head).eq_ignore_ascii_case(b"expect")
        && span.value.of(head).eq_ignore_ascii_case(b"100-continue")
}

/// Whether one of the fields says so.
fn has_expectation(head: &[u8], spans: &[HeaderSpan]) -> bool
    requires { All (IsHeaderWithin (length head.now)) spans.now }
    ensures { result ≡ list_any is_expectation (map (header_bytes head.now) spans.now) }
{
    for span in spans {
        if is_expectation(head, *span) {
            return true;
        }
    }
    false
}

/// Whether a head says so: one of HTTP/1.1 alone may.
fn expects_continue(head: &[u8]) -> bool
    ensures { result ≡ expects_continue (head_of head.now) }
{
    let mut spans = [EMPTY_HEADER_SPAN; 64];
    match spans_of(head, &mut spans) {
        Some(parts) => parts.version == 1 && has_expectation(head, &spans[..parts.headers]),
        None => false,
    }
}

/// Whether the bytes of a connection are a head alone whose client waits for 100 (Continue) before it sends its body (RFC 9110 §10.1.1). It allocates nothing.
///
/// Whether a body is to follow is not checked here: `whole` says whether more bytes are needed.
pub fn waits_for_continue(bytes: &[u8]) -> bool
    ensures exact { result ≡ waits_for_continue bytes.now }
{
    match end(bytes) {
        Some(len) => len == bytes.len() && expects_continue(bytes),
        None => false,
    }
}
