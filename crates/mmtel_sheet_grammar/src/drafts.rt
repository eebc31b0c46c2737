//! The values of the keys of a table so far, while it is read.

use mmtel_lex::{List, Text, Uri};
use mmtel_sheet_values::{EventWord, Rule, Weekly, Window};

/// Who is notified of what about a diversion.
#[derive(Clone, Copy, Debug, PartialEq, Eq)]
pub struct Notifications {
    /// The caller is notified that the call is diverted.
    pub notify_caller: bool,
    /// The diverted-to identity is revealed to the caller.
    pub reveal_to_caller: bool,
    /// The identity of the diverting user is revealed to the caller.
    pub reveal_served_to_caller: bool,
    /// The identity of the diverting user is revealed to the target.
    pub reveal_to_target: bool,
}

/// Some hours of a day, in minutes since it began.
#[derive(Clone, Copy, Debug, PartialEq, Eq)]
pub struct Hours {
    /// The first minute of them.
    pub from: u16,
    /// The first minute after them.
    pub until: u16,
}

/// The values of the keys of a rule so far.
#[derive(Drop)]
pub struct RuleDraft {
    /// `international`
    pub abroad: bool,
    /// `allow`
    pub allow: Option<bool>,
    /// `anonymous`
    pub anonymous: bool,
    /// `day-from`, in minutes
    pub day_from: Option<u16>,
    /// `communication-diverted`
    pub diverted: bool,
    /// The event key that is true.
    pub event: Option<EventWord>,
    /// `except`
    pub except: List<Uri>,
    /// `from`
    pub from: Option<i128>,
    /// `day-from` and `day-until`
    pub hours: Option<Hours>,
    /// `many`
    pub many: Option<Text>,
    /// `media`
    pub media: Option<List<Text>>,
    /// The keys that set who is notified of what.
    pub notifications: Notifications,
    /// `one`
    pub one: Option<List<Uri>>,
    /// `target`
    pub target: Option<Uri>,
    /// `days`, with the hours, and `offset`
    pub weekly: Option<Weekly>,
    /// `from` and `until`
    pub window: Option<Window>,
}

/// The values of the keys of the diversion table so far.
#[derive(Drop)]
pub struct DiversionDraft {
    /// `active`
    pub active: bool,
    /// `bound`
    pub bound: Option<u8>,
    /// `deflection`
    pub deflection: bool,
    /// `no-reply-time`, in seconds
    pub no_reply: u16,
    /// `rule`
    pub rules: List<Rule>,
}

/// The values of the keys of a barring table so far.
#[derive(Drop)]
pub struct BarDraft {
    /// `active`
    pub active: bool,
    /// `reject-anonymous`
    pub reject_anonymous: bool,
    /// `rule`
    pub rules: List<Rule>,
}

/// The values of the keys of the waiting table so far.
#[derive(Clone, Copy, Debug, PartialEq, Eq)]
pub struct WaitingDraft {
    /// `active`
    pub active: bool,
    /// `calls`
    pub calls: u8,
}
