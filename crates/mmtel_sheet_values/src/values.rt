//! The content of a service record.

use mmtel_lex::{List, Text, Uri};

/// The events of a call on its way to its target to which service records refer (TS 24.604 §4.9.1).
#[derive(Clone, Copy, Debug, PartialEq, Eq)]
pub enum EventWord {
    /// The user is busy.
    Busy,
    /// The user does not answer in time.
    NoAnswer,
    /// The user cannot be reached.
    NotReachable,
    /// The user is not registered.
    NotRegistered,
}

/// To which identities a rule applies (RFC 4745 §7.1).
#[derive(Drop)]
pub struct Who {
    /// Each of these identities.
    pub one: List<Uri>,
    /// Each identity of this domain, or each identity where it is `*`.
    pub many: Option<Text>,
    /// The identities of `many` that are excepted.
    pub except: List<Uri>,
}

/// The time in which a rule holds (RFC 4745 §7.3), in milliseconds since 1970-01-01T00:00:00Z.
#[derive(Clone, Copy, Debug, PartialEq, Eq)]
pub struct Window {
    /// The first millisecond of it.
    pub from: i128,
    /// The first millisecond after it.
    pub until: i128,
}

/// Some hours of some days of each week, by a clock that is ahead of UTC by a fixed offset.
#[derive(Clone, Copy, Debug)]
pub struct Weekly {
    /// The days, Monday first.
    pub days: [bool; 7],
    /// The first minute of the day in it.
    pub from: u16,
    /// The first minute of the day after it, at most 1440.
    pub until: u16,
    /// The minutes by which the clock is ahead of UTC.
    pub offset: i16,
}

/// When a rule holds: where each condition that is present does.
#[derive(Drop)]
pub struct Condition {
    /// The other party is one of these.
    pub identity: Option<Who>,
    /// The caller is anonymous.
    pub anonymous: bool,
    /// The moment is within this time.
    pub window: Option<Window>,
    /// One of these kinds of media is offered.
    pub media: Option<List<Text>>,
    /// This happened to the call.
    pub event: Option<EventWord>,
    /// The call was diverted before it came to the user (TS 24.604 §4.9.1.3).
    pub diverted: bool,
    /// The call goes to another country (TS 24.611 §4.9.1.3).
    pub abroad: bool,
    /// The moment is within these hours of the week.
    pub weekly: Option<Weekly>,
}

/// Where a call is diverted to, and who is notified of what about it (TS 24.604 §4.9.1.4).
#[derive(Drop)]
pub struct Forward {
    /// Where the call goes.
    pub target: Uri,
    /// The caller is notified that the call is diverted.
    pub notify_caller: bool,
    /// The diverted-to identity is revealed to the caller.
    pub reveal_to_caller: bool,
    /// The identity of the diverting user is revealed to the caller.
    pub reveal_served_to_caller: bool,
    /// The identity of the diverting user is revealed to the target.
    pub reveal_to_target: bool,
}

/// What a rule does.
#[derive(Drop)]
pub enum Action {
    /// The call is diverted.
    Forward(Forward),
    /// The call is allowed, or barred.
    Allow(bool),
}

/// A rule of a service (RFC 4745 §6).
#[derive(Drop)]
pub struct Rule {
    /// When it holds.
    pub condition: Condition,
    /// What is done then.
    pub action: Action,
}

/// Communication diversion (TS 24.604).
#[derive(Drop)]
pub struct DiversionPart {
    /// The rules; the first that holds counts.
    pub rules: List<Rule>,
    /// The seconds after which a ringing call counts as not answered, 5 to 180.
    pub no_reply: u16,
    /// The user's own device may divert the call.
    pub deflection: bool,
    /// The number of diversions of a call from which on the user's are refused, 0 to 16; None where the record sets none.
    pub bound: Option<u8>,
}

/// Communication barring in one direction (TS 24.611).
#[derive(Drop)]
pub struct BarPart {
    /// The rules; a call is barred where one holds and no rule that holds allows it.
    pub rules: List<Rule>,
    /// Anonymous callers are refused.
    pub reject_anonymous: bool,
}

/// Whether an identity is restricted (TS 24.607, TS 24.608).
#[derive(Clone, Copy, Debug, PartialEq, Eq)]
pub struct Restriction {
    /// The service is active.
    pub active: bool,
    /// It restricts each call, whatever the user requests.
    pub permanent: bool,
    /// Where it is not permanent: it restricts where the user requests nothing.
    pub by_default: bool,
}

/// The service settings of one account.
#[derive(Drop)]
pub struct Sheet {
    /// Communication diversion; None where it is absent or not active.
    pub diversion: Option<DiversionPart>,
    /// Barring of incoming calls; None where it is absent or not active.
    pub incoming: Option<BarPart>,
    /// Barring of outgoing calls; None where it is absent or not active.
    pub outgoing: Option<BarPart>,
    /// The caller's identity is presented to the user (originating identity presentation).
    pub oip: bool,
    /// The user's identity as a caller is restricted.
    pub oir: Restriction,
    /// The identity of the answering party is presented to the user (terminating identity presentation).
    pub tip: bool,
    /// The user's identity as a called party is restricted.
    pub tir: Restriction,
    /// Communication waiting (TS 24.615): the calls that the user may have at the same time, 2 to 8; None where it is absent or not active.
    pub waiting: Option<u8>,
}
