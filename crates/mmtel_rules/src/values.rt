//! The facts on which conditions are evaluated.

use mmtel_lex::{List, Text, Uri};
use mmtel_types::Moment;

/// The identities of the other party of a call, at most one of each scheme.
#[derive(Drop)]
pub struct Identities2 {
    /// A sip URI.
    pub sip: Option<Uri>,
    /// A tel URI.
    pub tel: Option<Uri>,
}

/// The facts of a call when its rules are evaluated.
#[derive(Clone, Copy)]
pub struct Facts<'a> {
    /// The identities of the caller; where outgoing barring is evaluated, those of the target.
    pub caller: &'a Identities2,
    /// The caller is anonymous.
    pub restricted: bool,
    /// The kinds of media that are offered, as `audio`.
    pub media: &'a List<Text>,
    /// The moment at which the rules are evaluated.
    pub now: Moment,
    /// The call was diverted before it came to the user.
    pub diverted: bool,
    /// Where outgoing barring is evaluated: its target is abroad.
    pub abroad: bool,
}

/// The event of a call at which its rules are evaluated (TS 24.604 §4.9.1.3).
#[derive(Clone, Copy, Debug, PartialEq, Eq)]
pub enum When {
    /// The call arrives.
    Arrival {
        /// The user is registered.
        registered: bool,
    },
    /// The user is busy.
    Busy,
    /// The user does not answer in time.
    NoAnswer,
    /// The user cannot be reached.
    NotReachable,
}
