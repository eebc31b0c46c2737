//! The names in a record: its services, tables and keys.

use mmtel_sheet_values::EventWord;

/// The services that have rules.
#[derive(Clone, Copy, Debug, PartialEq, Eq)]
pub enum Service {
    /// Communication diversion.
    Diversion,
    /// Barring of incoming calls.
    Incoming,
    /// Barring of outgoing calls.
    Outgoing,
}

/// The versions of records. The second has additional keys.
#[derive(Clone, Copy, Debug, PartialEq, Eq)]
pub enum Version {
    /// A record that names no version, or 1.
    One,
    /// A record with `version = 2`.
    Two,
}

/// Whose rules are read, and in which version of records.
#[derive(Clone, Copy, Debug, PartialEq, Eq)]
pub struct Schema {
    /// The service whose rules they are.
    pub service: Service,
    /// The version of the record.
    pub version: Version,
}

/// What a diversion reveals, and to whom.
#[derive(Clone, Copy, Debug, PartialEq, Eq)]
pub enum Notification {
    /// `notify-caller`
    NotifyCaller,
    /// `reveal-identity-to-caller`
    RevealToCaller,
    /// `reveal-served-user-identity-to-caller`
    RevealServedToCaller,
    /// `reveal-identity-to-target`
    RevealToTarget,
}

/// The keys of a rule.
#[derive(Clone, Copy, Debug, PartialEq, Eq)]
pub enum RuleKey {
    /// `allow`
    Allow,
    /// `anonymous`
    Anonymous,
    /// `day-from`
    DayFrom,
    /// `day-until`
    DayUntil,
    /// `days`
    Days,
    /// `communication-diverted`
    Diverted,
    /// `busy`, `no-answer`, `not-reachable` and `not-registered`
    Event(EventWord),
    /// `except`
    Except,
    /// `from`
    From,
    /// `id`
    Id,
    /// `international`
    International,
    /// `many`
    Many,
    /// `media`
    Media,
    /// `notify-caller` and `reveal-..`
    Notification(Notification),
    /// `offset`
    Offset,
    /// `one`
    One,
    /// `target`
    Target,
    /// `until`
    Until,
}

/// The tables of a record.
#[derive(Clone, Copy, Debug, PartialEq, Eq)]
pub enum TableKey {
    /// `communication-diversion`
    Diversion,
    /// `communication-waiting`
    Waiting,
    /// `incoming-communication-barring`
    Incoming,
    /// `originating-identity-presentation`
    Oip,
    /// `originating-identity-presentation-restriction`
    Oir,
    /// `outgoing-communication-barring`
    Outgoing,
    /// `terminating-identity-presentation`
    Tip,
    /// `terminating-identity-presentation-restriction`
    Tir,
}
