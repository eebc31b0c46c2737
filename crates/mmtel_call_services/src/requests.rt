//! What is decided of a request of a side.
ghost use Rattle.std.specs.Prelude.{◌≡◌};
ghost use Rattle.mmtel_call_services.specs.Requests.{refusal_of_update, unlisted_status};

use mmtel_leg::DialogueFault;
use mmtel_message::Start;
use mmtel_sip_rules::{is_same_side, status_out_of_place};
use mmtel_types::Side;

/// The status of the response to a request for which the step table has no transition: 200 to OPTIONS (RFC 3261 §11.2), 403 to REFER, which only a conference accepts, and 481 to a
/// request for which this is the wrong state (§12.2.2).
pub fn unlisted_status(start: &Start) -> u16
    ensures exact { result ≡ unlisted_status start.now }
{
    match start {
        Start::Request { method, uri: _ } => status_out_of_place(method.bytes()),
        Start::Status { code: _, phrase: _ } => 481,
    }
}

/// Why an UPDATE of a side is not relayed while one is in flight (RFC 3311 §5.2): the UPDATE of the same side has no final response yet, or this one crosses that of the other
/// side. None where it is relayed, because none is in flight.
pub fn refusal_of_update(updating: Option<Side>, side: Side) -> Option<DialogueFault>
    ensures exact { result ≡ refusal_of_update updating side }
{
    let other = updating?;
    if is_same_side(other, side) {
        Some(DialogueFault::Unfinished)
    } else {
        Some(DialogueFault::Pending)
    }
}
