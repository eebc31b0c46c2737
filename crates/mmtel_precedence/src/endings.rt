//! The inputs of a verdict.

use mmtel_rules::Facts;

/// The facts of a call, and of the account whose services are evaluated.
#[derive(Clone, Copy)]
pub struct CallFacts<'a> {
    /// The facts of the call; its caller is the other party.
    pub facts: Facts<'a>,
    /// The account is registered.
    pub registered: bool,
    /// The live calls of the account, as caller or as called party, without the attempt that is to be made.
    pub live: u32,
}

/// The event of a call: it reached a target, or an attempt that was offered ended.
#[derive(Clone, Copy, Debug, PartialEq, Eq)]
pub enum Ending {
    /// The call reaches the target.
    Arrived,
    /// The target responded that it is busy, with this status, 486 or 600: user determined user busy.
    UserBusy(u16),
    /// The target cannot be reached: it responded with this status, 408, 500 or 503, before it rang; or its transaction timed out, which counts as a 408.
    NotReachable(u16),
    /// The target rang for too long.
    NoReply,
    /// The target's device deflects the call (communication deflection, a 302).
    Deflected {
        /// The target rang before.
        alerted: bool,
    },
    /// The target responded with this other final status.
    Other(u16),
}
