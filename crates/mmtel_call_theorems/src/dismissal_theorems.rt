//! Which PRACKs and UPDATEs of a call are in flight. These are theorems, without code.
ghost use Rattle.mmtel_call_theorems.specs.Dismissal.{EndsDismiss, NothingIsInFlight, StepsContinue, StepsDismiss};

/// Each PRACK and UPDATE that a call relays gets one final response (RFC 3262 §3, §4, RFC 3311 §5.1, §5.2): that of the other side, which is relayed back, or one of the server's
/// own. After a step in which the attempt is another one, or the call is over, nothing is in flight: what was has got its final response before everything else in that step, a
/// PRACK 481 and an UPDATE 487, and what follows replies to none of them.
pub fn in_flight_requests_get_finals()
    ensures dismissed { StepsDismiss }
    // In each other step nothing changes, or one is relayed in the dialog of the other side, or one gets its final response.
    ensures step { StepsContinue }
    // Where a leg is detached, and the call ends without it.
    ensures end { EndsDismiss }
    // As a call opens, and once it is over.
    ensures nothing { NothingIsInFlight }
{}
