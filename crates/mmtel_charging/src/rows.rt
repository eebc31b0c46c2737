//! Charging rows (CDRs).
ghost use Rattle.std.specs.Prelude.{◌≡◌};
ghost use Rattle.mmtel_charging.specs.Rows.{word_of};

use mmtel_types::{Account, CallNo, Cause, Moment};

/// For which part an account is charged.
#[derive(Clone, Copy, Debug, PartialEq, Eq)]
pub enum Kind {
    /// The account's user made the call.
    Origin,
    /// The call came to the account's user.
    Terminating,
    /// The account's user had the call diverted (TS 24.604).
    Diversion,
    /// The account's user was a participant of a conference (TS 24.605).
    Participant,
}

impl Kind {
    /// The word for it in the text of rows.
    pub fn word(self) -> &'static str
        ensures table { result.now ≡ word_of self }
    {
        match self {
            Kind::Origin => "origin",
            Kind::Terminating => "terminating",
            Kind::Diversion => "diversion",
            Kind::Participant => "participant",
        }
    }
}

/// A charging row (CDR): one account's part in one call, from when it began to when it ended.
#[derive(Clone, Copy, Debug, PartialEq, Eq)]
pub struct Row {
    /// The part for which the account is charged.
    pub kind: Kind,
    /// The account.
    pub account: Account,
    /// The call; of a participant, the number of the conference.
    pub call: CallNo,
    /// When its part began.
    pub began: Moment,
    /// When the call was answered, if it was.
    pub answered: Option<Moment>,
    /// When its part ended.
    pub ended: Moment,
    /// How many times the call was held.
    pub holds: u32,
    /// Why it ended.
    pub cause: Cause,
}
