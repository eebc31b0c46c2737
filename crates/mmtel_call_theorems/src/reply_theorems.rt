//! In which server transactions a call replies. These are theorems, without code.
ghost use Rattle.mmtel_call_theorems.specs.Replies.{DetachedCallsKeepTheirOwn, EndsReplyInTheirOwn, OpeningsReplyInTheirOwn, RestoredCallsKeepTheirOwn, StepsReplyInTheirOwn};

/// Each reply of a call is in the server transaction of a request of its own (RFC 3261 §8.2.6, §17.2): the INVITE that opened it, the request that is received in this step, or an
/// INVITE, PRACK or UPDATE of a side that awaits its response. So any set that contains these transactions contains those of its replies.
pub fn calls_reply_in_their_own()
    ensures step { StepsReplyInTheirOwn }
    ensures opening { OpeningsReplyInTheirOwn }
    ensures end { EndsReplyInTheirOwn }
    // A leg that is detached, or put back, adds no other request.
    ensures detached { DetachedCallsKeepTheirOwn }
    ensures restored { RestoredCallsKeepTheirOwn }
{}
