//! The server transactions in which conferences respond. These are theorems, without code.
ghost use Rattle.mmtel_focus_theorems.specs.Replies.{ConferencesReplyInTheirOwn};

/// Each response of a conference is in the server transaction of the request that is received, or of the INVITE by which a party joins, and is sent in the same operation (RFC
/// 3261 §8.2.6, §17.2). What is no request gets no response.
pub fn conferences_reply_in_their_own()
    ensures law { ConferencesReplyInTheirOwn }
{}
