//! Values of charging rows in the database.
ghost use Rattle.std.specs.Prelude.{◌≡◌, pos, true, false, IfNone, IfSome};
ghost use Rattle.std.specs.List.{list_any};
ghost use Rattle.mmtel_charging.specs.declared.rows.Kind.{Kind as TheKind};
ghost use Rattle.mmtel_sqlite.specs.Columns.{IsOutOfMemory, has_word_and_status, kind_number};
ghost use Rattle.mmtel_types.specs.Causes.{status_of, word_of};
ghost use Rattle.mmtel_types.specs.declared.causes.Cause.{Cause as TheCause};

use mmtel_charging::Kind;
use mmtel_types::{Cause, Moment};
use sqlite::{Error, ErrorCode};

/// Memory ran out, as a fault of the database.
pub fn no_memory() -> Error
    ensures { IsOutOfMemory result }
{
    Error::SqliteFailure(ErrorCode::OutOfMemory)
}

/// A column has no value that can be read back.
pub fn unreadable(column: usize) -> Error {
    Error::IntegralValueOutOfRange(column)
}

/// The number of a kind.
pub fn kind_number(kind: Kind) -> u32
    ensures { result ≡ kind_number kind }
{
    match kind {
        Kind::Origin => 0,
        Kind::Terminating => 1,
        Kind::Diversion => 2,
        Kind::Participant => 3,
    }
}

/// The kind of a number.
pub fn kind_of(number: u32) -> Option<Kind>
    ensures some { IfSome result (λ kind. number ≡ kind_number kind) }
    ensures none { IfNone result ((kind : TheKind) → ¬ (number ≡ kind_number kind)) }
{
    match number {
        0 => Some(Kind::Origin),
        1 => Some(Kind::Terminating),
        2 => Some(Kind::Diversion),
        3 => Some(Kind::Participant),
        _ => None,
    }
}

/// A moment in the database: a moment is below 2^63.
pub fn millis(moment: Moment) -> i64
    ensures { result ≡ pos moment }
{
    moment.ms() as i64
}

/// Whether a cause has the word and the status.
#[tactic(auto, unfolding(crate::specs::Columns::has_word_and_status))]
fn has_word_and_status(cause: Cause, word: &[u8], status: u16) -> bool
    ensures { result ≡ has_word_and_status word.now status cause }
{
    cause.word().as_bytes() == word && cause.status() == status
}

/// The first of the causes that has the word and the status.
fn first_with_word_and_status(causes: &[Cause], word: &[u8], status: u16) -> Option<Cause>
    ensures some { IfSome result (λ cause. has_word_and_status word.now status cause ≡ true) }
    ensures none { IfNone result (list_any (has_word_and_status word.now status) causes.now ≡ false) }
{
    for cause in causes {
        if has_word_and_status(*cause, word, status) {
            return Some(*cause);
        }
    }
    None
}

/// The cause of a word and a status.
#[tactic(auto, using(crate::proofs::CauseList::word_is_same, crate::proofs::CauseList::status_is_same))]
pub fn cause_of(word: &[u8], status: u16) -> Option<Cause>
    ensures word { IfSome result (λ cause. word.now ≡ word_of cause) }
    ensures status { IfSome result (λ cause. status ≡ status_of cause) }
    ensures none { IfNone result ((cause : TheCause) → word.now ≡ word_of cause → ¬ (status ≡ status_of cause)) }
{
    let with_status = [
        Cause::OutgoingBarred,
        Cause::IncomingBarred,
        Cause::AnonymousRejected,
        Cause::NotRegistered,
        Cause::NetworkBusy,
        Cause::NoReply,
        Cause::TooManyDiversions { busy: true },
        Cause::TooManyDiversions { busy: false },
        Cause::Unreachable(status),
        Cause::Relayed(status),
        Cause::Cancelled,
        Cause::NoAccount,
        Cause::NoRoute,
        Cause::BadScheme,
        Cause::Hops,
        Cause::Extension,
        Cause::Critical,
        Cause::Merged,
        Cause::Full,
        Cause::Ended,
        Cause::Unacknowledged,
    ];
    first_with_word_and_status(&with_status, word, status)
}
