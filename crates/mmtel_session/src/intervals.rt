//! The interval that a request asks for, and when the session of a 2xx expires (RFC 4028 §5, §6, §10).
ghost use Rattle.std.specs.Prelude.{◌≡◌, ◌<◌, ◌≤◌, ◌*◌, ◌^◌, IfSome, codes};
ghost use Rattle.mmtel_message.specs.Message.{line_texts};
ghost use Rattle.mmtel_session.specs.Intervals.{check, expiry_interval_of};

use crate::values::read_session;
use mmtel_message::Msg;

/// The least interval of a session that is accepted, in seconds (RFC 4028 §5: the default of Min-SE).
pub const LEAST_INTERVAL: u32 = 90;

/// Why the session that a request asks for is refused.
#[derive(Clone, Copy, Debug, PartialEq, Eq)]
pub enum SessionFault {
    /// There is more than one Session-Expires line, or the only one cannot be read.
    Malformed,
    /// The interval is below `LEAST_INTERVAL` (RFC 4028 §6).
    Small {
        /// The interval, in seconds.
        interval: u32,
    },
}

/// The interval of the session that a request asks for, in seconds; None where it asks for none, that is, has no Session-Expires line. It allocates nothing.
///
/// # Errors
///
/// 1. `Malformed` exactly where there is a second line, or the only one cannot be read.
/// 2. `Small` exactly where the interval is below `LEAST_INTERVAL`.
pub fn check(message: &Msg) -> Result<Option<u32>, SessionFault>
    ensures exact { result ≡ check (line_texts (codes "Session-Expires") message.now.lines) }
{
    let mut values = message.values_in(b"Session-Expires");
    let value = match values.next() {
        None => return Ok(None),
        Some(value) => value,
    };
    if values.next().is_some() {
        return Err(SessionFault::Malformed);
    }
    let interval = match read_session(value) {
        Err(_) => return Err(SessionFault::Malformed),
        Ok(session) => session.interval,
    };
    if interval < LEAST_INTERVAL {
        return Err(SessionFault::Small { interval });
    }
    Ok(Some(interval))
}

/// How long after a 2xx its session expires, unless another 2xx refreshes it before (RFC 4028 §10), in milliseconds: the interval of the first Session-Expires line, or
/// `LEAST_INTERVAL` where that is more. None where there is no such line, or the first cannot be read. It allocates nothing.
pub fn expiry_interval_of(message: &Msg) -> Option<u64>
    ensures exact { result ≡ expiry_interval_of (line_texts (codes "Session-Expires") message.now.lines) }
    ensures least { IfSome result (λ time. 90000 ≤ time) }
    ensures most { IfSome result (λ time. time < 1000 * 2 ^ 31) }
{
    let mut values = message.values_in(b"Session-Expires");
    match values.next() {
        None => None,
        Some(value) => match read_session(value) {
            Err(_) => None,
            Ok(session) => {
                let seconds = session.interval.max(LEAST_INTERVAL);
                Some(1000 * u64::from(seconds))
            }
        },
    }
}
