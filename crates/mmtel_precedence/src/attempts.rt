//! How an attempt that was offered ended.
ghost use Rattle.std.specs.Prelude.{◌≡◌, ◌≤◌, Some};
ghost use Rattle.std.specs.Option.{option_copied};
ghost use Rattle.mmtel_precedence.specs.Attempts.{end_by, end_by_final, end_by_redirection, is_redirection, is_unreachable, is_user_busy, rings};
ghost use Rattle.mmtel_precedence.specs.Views.{attempt_end_view, attempt_timeout_view};
ghost use Rattle.mmtel_precedence.specs.Verdicts.{cause_of};

use mmtel_lex::Uri;
use mmtel_sip_rules::is_redirection;
use mmtel_types::Cause;

/// Which timer of an attempt fired.
#[derive(Clone, Copy, Debug, PartialEq, Eq)]
pub enum AttemptTimeout {
    /// Timer B of the client transaction: no response at all (RFC 3261 §17.1.1.2).
    TransactionTimeout,
    /// The no-reply time of the record, which begins with the first ringing response.
    NoReplyTime,
    /// The maximum time of an attempt, which begins with the offer.
    LongestTime,
}

/// Why an attempt failed.
#[derive(Clone, Copy, Debug, PartialEq, Eq)]
pub enum Failure {
    /// The target is busy, with this status: user determined user busy.
    UserBusy(u16),
    /// The target cannot be reached, by this status.
    NotReachable(u16),
    /// The target rang for too long.
    NoReply,
    /// The target responded with this other final status.
    Other(u16),
}

impl Failure {
    /// The cause by which the call is refused, where no rule diverts it.
    pub fn cause(self) -> Cause
        ensures exact { result ≡ cause_of self }
    {
        match self {
            Failure::UserBusy(code) => Cause::Relayed(code),
            Failure::NotReachable(code) => Cause::Unreachable(code),
            Failure::NoReply => Cause::NoReply,
            Failure::Other(code) => Cause::Relayed(code),
        }
    }
}

/// How an attempt that was offered ended, where it was not answered by a 2xx and its caller did not abandon the call.
#[derive(Clone, Copy)]
pub enum AttemptEnd<'a> {
    /// It failed.
    Failed(Failure),
    /// The target's device deflects the call (communication deflection, a 302).
    Deflected {
        /// Where to.
        target: &'a Uri,
        /// The target rang before.
        rang: bool,
    },
}

/// Whether a response with this status means that the target rings: 180 to 183 (RFC 3261 §21.1.2 to §21.1.5). It allocates nothing.
pub fn rings(code: u16) -> bool
    ensures exact { result ≡ rings code }
{
    180 <= code && code <= 183
}

/// Whether the status is user determined user busy.
fn is_user_busy(code: u16) -> bool
    ensures { result ≡ is_user_busy code }
{
    code == 486 || code == 600
}

/// Whether it is a status of targets that cannot be reached.
fn is_unreachable(code: u16) -> bool
    ensures { result ≡ is_unreachable code }
{
    code == 408 || code == 500 || code == 503
}

/// How a redirection ends the attempt.
fn end_by_redirection<'a>(code: u16, target: Option<&'a Uri>, rang: bool) -> AttemptEnd<'a>
    ensures { attempt_end_view result ≡ end_by_redirection code (option_copied target.entry) rang }
{
    match target {
        Some(target) if code == 302 => AttemptEnd::Deflected { target, rang },
        _ => AttemptEnd::Failed(Failure::Other(480)),
    }
}

/// How a final response from 300 ends an attempt, which rang before or did not; the target is the URI of its first Contact value, where that can be read as a sip or tel URI.
///
/// 486 and 600 are user determined user busy. 408, 500 and 503 before it rang mean a target that cannot be reached. A 302 with a target deflects the call, and any other 3xx counts
/// as a 480. Any other status is a failure with that status. It allocates nothing.
pub fn end_by_final<'a>(code: u16, target: Option<&'a Uri>, rang: bool) -> AttemptEnd<'a>
    requires { 300 ≤ code }
    ensures exact { attempt_end_view result ≡ end_by_final code (option_copied target.entry) rang }
{
    if is_user_busy(code) {
        return AttemptEnd::Failed(Failure::UserBusy(code));
    }
    if is_unreachable(code) && !rang {
        return AttemptEnd::Failed(Failure::NotReachable(code));
    }
    if is_redirection(code) {
        return end_by_redirection(code, target, rang);
    }
    AttemptEnd::Failed(Failure::Other(code))
}

/// How a timer that fired ends an attempt, which rang before or did not: a transaction timeout, which counts as 408, as a target that cannot be reached; the no-reply time as no
/// reply, and so the maximum time where it rang, else as a target that cannot be reached. It allocates nothing.
pub fn end_by_timeout(timeout: AttemptTimeout, rang: bool) -> AttemptEnd<'static>
    ensures exact { Some (attempt_end_view result) ≡ end_by (attempt_timeout_view timeout) rang }
{
    match timeout {
        AttemptTimeout::NoReplyTime => AttemptEnd::Failed(Failure::NoReply),
        AttemptTimeout::LongestTime if rang => AttemptEnd::Failed(Failure::NoReply),
        AttemptTimeout::LongestTime => AttemptEnd::Failed(Failure::NotReachable(408)),
        AttemptTimeout::TransactionTimeout => AttemptEnd::Failed(Failure::NotReachable(408)),
    }
}
