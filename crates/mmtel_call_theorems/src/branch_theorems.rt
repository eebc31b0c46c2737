//! The requests whose responses a call awaits, each of which was sent. These are theorems, without code.
ghost use Rattle.mmtel_call_theorems.specs.Branches.Theorems.{DetachedCallsWereSent, EndsSendOnce, OpeningsSendOnce, RestoredCallsWereSent, StepsSendOnce};

/// Each INVITE of a call, each whose 2xx waits for an ACK, and each PRACK and UPDATE that is in flight was sent to its peer: it is one from before, or it is sent in the same step
/// (RFC 3261 §13.2.1, RFC 3262 §4, RFC 3311 §5.1).
/// Each INVITE, PRACK and UPDATE that is sent has a branch of its own, of a number that is drawn for it alone (§8.1.1.7), as long as fewer than 2^60 numbers are drawn.
pub fn calls_send_once()
    ensures step { StepsSendOnce }
    ensures opening { OpeningsSendOnce }
    ensures end { EndsSendOnce }
    // A leg that is detached, or put back, sends nothing.
    ensures detached { DetachedCallsWereSent }
    ensures restored { RestoredCallsWereSent }
{}
