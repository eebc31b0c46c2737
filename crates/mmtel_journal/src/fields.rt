//! Reading the fields of a payload: each returns a value and the bytes after it, or None where the bytes are not of the format.
//!
//! The number of a kind and the position of a cause are defined once, where they are written: what was read is compared with that.
ghost use Rattle.std.specs.Prelude.{◌≡◌};
ghost use Rattle.std.specs.Int.{w16, w32, w64};
ghost use Rattle.mmtel_journal.specs.Fields.{byte_at, sized_at, moment_at, kind_by, kind_at, cause_by, cause_at, answered_at};
ghost use Rattle.mmtel_journal.specs.Fields.{account_at, call_at, pair_at, head_at, tail_at, row_at, text_at, sheet_at, then_read};
ghost use Rattle.mmtel_journal.specs.Reading.{IsReadValue};

use crate::writing::{cause_numbers, kind_number};
use mmtel_charging::{Kind, Row};
use mmtel_types::{Account, CallNo, Cause, Moment};

/// A byte.
fn u8_at(bytes: &[u8]) -> Option<(u8, &[u8])>
    ensures { IsReadValue (λ x. (x.0, x.1.now)) result (byte_at bytes.now) }
{
    match bytes {
        [byte, rest @ ..] => Some((*byte, rest)),
        [] => None,
    }
}

/// A number of two bytes.
fn u16_at(bytes: &[u8]) -> Option<(u16, &[u8])>
    ensures { IsReadValue (λ x. (x.0, x.1.now)) result (sized_at w16 2 bytes.now) }
{
    if bytes.len() < 2 {
        return None;
    }
    let (front, rest) = bytes.split_at(2);
    Some((u16::from_be_bytes([front[0], front[1]]), rest))
}

/// A number of four bytes.
fn u32_at(bytes: &[u8]) -> Option<(u32, &[u8])>
    ensures { IsReadValue (λ x. (x.0, x.1.now)) result (sized_at w32 4 bytes.now) }
{
    if bytes.len() < 4 {
        return None;
    }
    let (front, rest) = bytes.split_at(4);
    let number = u32::from_be_bytes([front[0], front[1], front[2], front[3]]);
    Some((number, rest))
}

/// A number of eight bytes.
pub fn u64_at(bytes: &[u8]) -> Option<(u64, &[u8])>
    ensures { IsReadValue (λ x. (x.0, x.1.now)) result (sized_at w64 8 bytes.now) }
{
    if bytes.len() < 8 {
        return None;
    }
    let (front, rest) = bytes.split_at(8);
    let number = u64::from_be_bytes([
        front[0], front[1], front[2], front[3], front[4], front[5], front[6], front[7],
    ]);
    Some((number, rest))
}

/// So many bytes.
fn text_at(size: u64, bytes: &[u8]) -> Option<(&[u8], &[u8])>
    ensures { IsReadValue (λ x. (x.0.now, x.1.now)) result (text_at size bytes.now) }
{
    if (bytes.len() as u64) < size {
        return None;
    }
    Some(bytes.split_at(size as usize))
}

/// A moment.
fn moment_at(bytes: &[u8]) -> Option<(Moment, &[u8])>
    ensures { IsReadValue (λ x. (x.0, x.1.now)) result (moment_at bytes.now) }
{
    let (number, rest) = u64_at(bytes)?;
    let moment = Moment::new(number)?;
    Some((moment, rest))
}

/// The kind of this number, if any has it.
fn kind_by(number: u8) -> Kind
    ensures { result ≡ kind_by number }
{
    match number {
        0 => Kind::Origin,
        1 => Kind::Terminating,
        2 => Kind::Diversion,
        _ => Kind::Participant,
    }
}

/// A kind.
fn kind_at(bytes: &[u8]) -> Option<(Kind, &[u8])>
    ensures { IsReadValue (λ x. (x.0, x.1.now)) result (kind_at bytes.now) }
{
    let (number, rest) = u8_at(bytes)?;
    let kind = kind_by(number);
    if kind_number(kind) != number {
        return None;
    }
    Some((kind, rest))
}

/// The cause of this position and code, if any has them.
fn cause_by(number: u8, code: u16) -> Cause
    ensures { result ≡ cause_by number code }
{
    match number {
        1 => Cause::OutgoingBarred,
        2 => Cause::IncomingBarred,
        3 => Cause::AnonymousRejected,
        4 => Cause::NotRegistered,
        5 => Cause::NetworkBusy,
        6 => Cause::NoReply,
        7 => Cause::TooManyDiversions { busy: code == 1 },
        8 => Cause::Unreachable(code),
        9 => Cause::Relayed(code),
        10 => Cause::Cancelled,
        11 => Cause::NoAccount,
        12 => Cause::NoRoute,
        13 => Cause::BadScheme,
        14 => Cause::Hops,
        15 => Cause::Extension,
        16 => Cause::Critical,
        17 => Cause::Merged,
        18 => Cause::Full,
        19 => Cause::Ended,
        _ => Cause::Unacknowledged,
    }
}

/// The position of a cause and its code.
fn cause_numbers_at(bytes: &[u8]) -> Option<((u8, u16), &[u8])>
    ensures { IsReadValue (λ x. (x.0, x.1.now)) result (pair_at byte_at (sized_at w16 2) bytes.now) }
{
    let (place, behind) = u8_at(bytes)?;
    let (code, rest) = u16_at(behind)?;
    Some(((place, code), rest))
}

/// A cause.
fn cause_at(bytes: &[u8]) -> Option<(Cause, &[u8])>
    ensures { IsReadValue (λ x. (x.0, x.1.now)) result (cause_at bytes.now) }
{
    let ((place, code), rest) = cause_numbers_at(bytes)?;
    let cause = cause_by(place, code);
    let told = cause_numbers(&cause);
    if told.0 != place || told.1 != code {
        return None;
    }
    Some((cause, rest))
}

/// A flag and a moment.
fn flag_at(bytes: &[u8]) -> Option<((u8, Moment), &[u8])>
    ensures { IsReadValue (λ x. (x.0, x.1.now)) result (pair_at byte_at moment_at bytes.now) }
{
    let (flag, behind) = u8_at(bytes)?;
    let Some((moment, rest)) = moment_at(behind) else {
        return None;
    };
    Some(((flag, moment), rest))
}

/// When a call was answered, if it was: the moment is 0 after the flag 0.
fn answered_at(bytes: &[u8]) -> Option<(Option<Moment>, &[u8])>
    ensures { IsReadValue (λ x. (x.0, x.1.now)) result (answered_at bytes.now) }
{
    let Some(((flag, moment), rest)) = flag_at(bytes) else {
        return None;
    };
    match flag {
        1 => Some((Some(moment), rest)),
        0 if moment.ms() == 0 => Some((None, rest)),
        _ => None,
    }
}

/// An account.
fn account_at(bytes: &[u8]) -> Option<(Account, &[u8])>
    ensures { IsReadValue (λ x. (x.0, x.1.now)) result (account_at bytes.now) }
{
    let (number, rest) = u32_at(bytes)?;
    Some((Account(number), rest))
}

/// The number of a call.
fn call_at(bytes: &[u8]) -> Option<(CallNo, &[u8])>
    ensures { IsReadValue (λ x. (x.0, x.1.now)) result (call_at bytes.now) }
{
    let (number, rest) = u64_at(bytes)?;
    Some((CallNo(number), rest))
}

/// For which part an account is charged.
fn part_at(bytes: &[u8]) -> Option<((Kind, Account), &[u8])>
    ensures { IsReadValue (λ x. (x.0, x.1.now)) result (pair_at kind_at account_at bytes.now) }
{
    let (kind, behind) = kind_at(bytes)?;
    let (account, rest) = account_at(behind)?;
    Some(((kind, account), rest))
}

/// In which call, and when the part began.
fn begin_at(bytes: &[u8]) -> Option<((CallNo, Moment), &[u8])>
    ensures { IsReadValue (λ x. (x.0, x.1.now)) result (pair_at call_at moment_at bytes.now) }
{
    let (call, behind) = call_at(bytes)?;
    let Some((began, rest)) = moment_at(behind) else {
        return None;
    };
    Some(((call, began), rest))
}

/// What precedes the answer time.
fn head_at(bytes: &[u8]) -> Option<(((Kind, Account), (CallNo, Moment)), &[u8])>
    ensures { IsReadValue (λ x. (x.0, x.1.now)) result (head_at bytes.now) }
{
    let (part, behind) = part_at(bytes)?;
    let Some((begin, rest)) = begin_at(behind) else {
        return None;
    };
    Some(((part, begin), rest))
}

/// When the part ended, and how many times the call was held.
fn end_at(bytes: &[u8]) -> Option<((Moment, u32), &[u8])>
    ensures { IsReadValue (λ x. (x.0, x.1.now)) result (pair_at moment_at (sized_at w32 4) bytes.now) }
{
    let Some((ended, behind)) = moment_at(bytes) else {
        return None;
    };
    let (holds, rest) = u32_at(behind)?;
    Some(((ended, holds), rest))
}

/// What follows the answer time.
fn tail_at(bytes: &[u8]) -> Option<(((Moment, u32), Cause), &[u8])>
    ensures { IsReadValue (λ x. (x.0, x.1.now)) result (tail_at bytes.now) }
{
    let Some((end, behind)) = end_at(bytes) else {
        return None;
    };
    let (cause, rest) = cause_at(behind)?;
    Some(((end, cause), rest))
}

/// A row.
pub fn row_at(bytes: &[u8]) -> Option<(Row, &[u8])>
    ensures { IsReadValue (λ x. (x.0, x.1.now)) result (row_at bytes.now) }
{
    let Some((((kind, account), (call, began)), behind)) = head_at(bytes) else {
        return None;
    };
    let Some((answered, further)) = answered_at(behind) else {
        return None;
    };
    let Some((((ended, holds), cause), rest)) = tail_at(further) else {
        return None;
    };
    let row = Row {
        kind,
        account,
        call,
        began,
        answered,
        ended,
        holds,
        cause,
    };
    Some((row, rest))
}

/// The text of a sheet after its length.
pub fn long_text_at(bytes: &[u8]) -> Option<(&[u8], &[u8])>
    ensures { IsReadValue (λ x. (x.0.now, x.1.now)) result (then_read (sized_at w64 8 bytes.now) text_at) }
{
    let (size, behind) = u64_at(bytes)?;
    text_at(size, behind)
}

/// A sheet: its account and its text.
pub fn sheet_at(bytes: &[u8]) -> Option<((Account, &[u8]), &[u8])>
    ensures { IsReadValue (λ x. ((x.0.0, x.0.1.now), x.1.now)) result (sheet_at bytes.now) }
{
    let (account, behind) = account_at(bytes)?;
    let (text, rest) = long_text_at(behind)?;
    Some(((account, text), rest))
}
