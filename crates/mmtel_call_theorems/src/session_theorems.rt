//! The session of a call, determined by what was sent and received, and how the call ends by it. These are theorems, without code.
ghost use Rattle.mmtel_call_theorems.specs.Session.Theorems.{SessionsAreObserved, SessionsExpire, SessionsExpireAsObserved};

use crate::outcome_theorems::calls_continue;

/// Whatever a call receives, whatever the state is then, and however it is interleaved with others: the deadline of its session that counts was armed in the step of the last 2xx
/// to an INVITE or an UPDATE that it relayed, for that moment and 1,000 times the interval of that 2xx, which counts as 90 seconds if it is less; none was armed if that 2xx has
/// none that can be parsed, and none in any other step (RFC 4028 §7.2, §10).
pub fn sessions_are_observed()
    ensures law { SessionsAreObserved }
{
    calls_continue();
}

/// By that deadline a call that is stable, or waits for the final response to an INVITE of a side, is over, with a BYE to both sides (RFC 4028 §10); no other deadline of a session
/// has any effect, nor has that one in another phase.
pub fn sessions_expire()
    ensures step { SessionsExpire }
    // So it is determined by what is observed: the deadline of the last 2xx counts, and those of earlier ones have no effect any more.
    ensures seen { SessionsExpireAsObserved }
{}
