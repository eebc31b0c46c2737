//! Reason phrases.
ghost use Rattle.std.specs.Prelude.{◌≡◌};
ghost use Rattle.mmtel_message.specs.Phrases.{phrase_of};

/// The reason phrase of a status that the server generates (RFC 3261 §21); no bytes for any other.
pub fn phrase_of(code: u16) -> &'static [u8]
    ensures table { result.now ≡ phrase_of code }
{
    match code {
        100 => b"Trying",
        181 => b"Call Is Being Forwarded",
        200 => b"OK",
        202 => b"Accepted",
        400 => b"Bad Request",
        403 => b"Forbidden",
        404 => b"Not Found",
        405 => b"Method Not Allowed",
        408 => b"Request Timeout",
        416 => b"Unsupported URI Scheme",
        420 => b"Bad Extension",
        422 => b"Session Interval Too Small",
        433 => b"Anonymity Disallowed",
        480 => b"Temporarily Unavailable",
        481 => b"Call/Transaction Does Not Exist",
        482 => b"Loop Detected",
        483 => b"Too Many Hops",
        486 => b"Busy Here",
        487 => b"Request Terminated",
        488 => b"Not Acceptable Here",
        489 => b"Bad Event",
        491 => b"Request Pending",
        500 => b"Server Internal Error",
        503 => b"Service Unavailable",
        513 => b"Message Too Large",
        603 => b"Decline",
        _ => b"",
    }
}
