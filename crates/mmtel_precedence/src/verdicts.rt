//! The verdict on a call.

use mmtel_sheet_values::Forward;
use mmtel_types::Cause;

/// What is done with a call at a target, or after an attempt that ended there.
#[derive(Clone, Copy)]
pub enum Verdict<'a> {
    /// It is offered to the target.
    Offer {
        /// The user has another call already, so this one waits (communication waiting).
        waiting: bool,
    },
    /// A diversion is due.
    Divert {
        /// Where the call goes, by the rule; None where it goes to the target of the device's deflection.
        forward: Option<&'a Forward>,
        /// The cause (RFC 4458 §2).
        cause: u16,
    },
    /// It is refused.
    Refuse(Cause),
}
