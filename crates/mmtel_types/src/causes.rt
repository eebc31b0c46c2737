//! Why a call or a request was refused or ended.
ghost use Rattle.std.specs.Prelude.{◌≡◌};
ghost use Rattle.mmtel_types.specs.Causes.{AreDistinguished, status_of, word_of};

/// Why a call or a request was refused or ended.
///
/// `BadScheme`, `Hops`, `Extension`, `Merged` and `Full` refuse a request before a call opens.
#[derive(Clone, Copy, Debug, PartialEq, Eq)]
pub enum Cause {
    /// Outgoing communication barring of the caller, or of the user who diverts (TS 24.611).
    OutgoingBarred,
    /// Incoming communication barring of the target (TS 24.611).
    IncomingBarred,
    /// Anonymous communication rejection of the target (TS 24.611, RFC 5079).
    AnonymousRejected,
    /// The target is not registered.
    NotRegistered,
    /// The target has as many calls as it may have: network determined user busy (TS 24.615).
    NetworkBusy,
    /// The target did not answer in time.
    NoReply,
    /// The diversions of the call reached the bound (TS 24.604).
    TooManyDiversions {
        /// Whether the diversion that was refused was for a busy user.
        busy: bool,
    },
    /// The target could not be reached: the status of its response.
    Unreachable(u16),
    /// The target refused the call: the status of its response.
    Relayed(u16),
    /// The caller cancelled the call (RFC 3261 §9).
    Cancelled,
    /// The target is in the home domain, and belongs to no account.
    NoAccount,
    /// No peer is a next hop to the target.
    NoRoute,
    /// The scheme of the Request-URI is not served (RFC 3261 §8.2.2.1).
    BadScheme,
    /// Max-Forwards is 0 (RFC 3261 §16.3).
    Hops,
    /// An extension that is not supported is required (RFC 3261 §8.2.2.3).
    Extension,
    /// Privacy was requested as critical and cannot be provided (RFC 3323 §4.2).
    Critical,
    /// The request arrived twice by different paths: a merged request (RFC 3261 §8.2.2.2).
    Merged,
    /// The limit of live calls or of transactions is reached.
    Full,
    /// The call was answered, and ended.
    Ended,
    /// No PRACK for a reliable provisional response was received in time (RFC 3262 §3).
    Unacknowledged,
}

impl Cause {
    /// The status of the response that the refused side receives (RFC 3261 §21, RFC 5079); 0 for `Ended`, which refuses nobody.
    pub fn status(&self) -> u16
        ensures table { result ≡ status_of self.now }
    {
        match self {
            Cause::OutgoingBarred => 603,
            Cause::IncomingBarred => 603,
            Cause::AnonymousRejected => 433,
            Cause::NotRegistered => 480,
            Cause::NetworkBusy => 486,
            Cause::NoReply => 480,
            Cause::TooManyDiversions { busy: true } => 486,
            Cause::TooManyDiversions { busy: false } => 480,
            Cause::Unreachable(code) => *code,
            Cause::Relayed(code) => *code,
            Cause::Cancelled => 487,
            Cause::NoAccount => 404,
            Cause::NoRoute => 404,
            Cause::BadScheme => 416,
            Cause::Hops => 483,
            Cause::Extension => 420,
            Cause::Critical => 500,
            Cause::Merged => 482,
            Cause::Full => 503,
            Cause::Ended => 0,
            Cause::Unacknowledged => 500,
        }
    }

    /// The word for it in CDRs.
    pub fn word(&self) -> &'static str
        ensures table { result.now ≡ word_of self.now }
    {
        match self {
            Cause::OutgoingBarred => "outgoing-barred",
            Cause::IncomingBarred => "incoming-barred",
            Cause::AnonymousRejected => "anonymous",
            Cause::NotRegistered => "not-registered",
            Cause::NetworkBusy => "network-busy",
            Cause::NoReply => "no-reply",
            Cause::TooManyDiversions { .. } => "too-many-diversions",
            Cause::Unreachable(_) => "unreachable",
            Cause::Relayed(_) => "relayed",
            Cause::Cancelled => "cancelled",
            Cause::NoAccount => "no-account",
            Cause::NoRoute => "no-route",
            Cause::BadScheme => "bad-scheme",
            Cause::Hops => "hops",
            Cause::Extension => "extension",
            Cause::Critical => "critical",
            Cause::Merged => "merged",
            Cause::Full => "full",
            Cause::Ended => "ended",
            Cause::Unacknowledged => "unacknowledged",
        }
    }
}

/// A theorem, without code: no two causes have both the same word and the same status, so a CDR that has both determines the cause.
pub fn causes_are_distinguished()
    ensures distinguished { AreDistinguished }
{}
