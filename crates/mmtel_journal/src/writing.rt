//! The payloads of records, as bytes that are written after a gate.
ghost use Rattle.std.specs.Prelude.{◌≡◌, ◌++◌, ◌∷◌, [], ◌<◌, ◌≤◌, ◌^◌, All, IfOk, IfSome, OnOk};
ghost use Rattle.std.specs.Int.{w32, w64, to_be_bytes};
ghost use Rattle.mmtel_types.specs.Moments.{last_moment};
ghost use Rattle.mmtel_journal.specs.Logs.{body_bytes};
ghost use Rattle.mmtel_journal.specs.Payloads.{IsSheet, IsRow, payload_of_sheets, payload_of_rows, kind_number, cause_numbers, answered_bytes, cause_bytes, row_bytes, sheet_bytes};

use mmtel_base::NoMemory;
use mmtel_charging::{Kind, Row};
use mmtel_types::{Account, CallNo, Cause, Moment};
use std::alloc::Global;

/// More rows than this do not fit into memory.
const MAX_ROWS: u64 = 1 << 48;

/// What is written after a gate for a payload: its length, the payload, and the next gate.
#[tactic(auto, unfolding(crate::specs::Logs::body_bytes))]
pub fn body_around(alloc: Global, payload: &[u8]) -> Result<Vec<u8>, NoMemory>
    ensures body { IfOk result (λ body. body.items ≡ body_bytes payload.now) }
{
    let mut body = Vec::new(alloc);
    body.extend_from_slice(&(payload.len() as u64).to_be_bytes())?;
    body.extend_from_slice(payload)?;
    body.push(0)?;
    Ok(body)
}

/// The beginning of a payload: its kind, and how many sheets or rows follow.
pub fn payload_head(alloc: Global, form: u8, count: u64) -> Result<Vec<u8>, NoMemory>
    ensures head { IfOk result (λ head. head.items ≡ form ∷ to_be_bytes w64 count) }
{
    let mut head = Vec::new(alloc);
    head.push(form)?;
    head.extend_from_slice(&count.to_be_bytes())?;
    Ok(head)
}

/// Writes the account of a sheet and how long its text is.
fn put_sheet_head(out: &mut Vec<u8>, account: Account, size: u64) -> Result<(), NoMemory>
    ensures { OnOk result (out.new.items ≡ out.old.items ++ (to_be_bytes w32 account.0 ++ to_be_bytes w64 size)) }
{
    out.extend_from_slice(&account.0.to_be_bytes())?;
    out.extend_from_slice(&size.to_be_bytes())?;
    Ok(())
}

/// Writes a sheet.
pub fn put_sheet(out: &mut Vec<u8>, account: Account, text: &[u8]) -> Result<(), NoMemory>
    ensures fits { IsSheet (account, text.now) }
    ensures put { OnOk result (out.new.items ≡ out.old.items ++ sheet_bytes (account, text.now)) }
{
    put_sheet_head(out, account, text.len() as u64)?;
    out.extend_from_slice(text)?;
    Ok(())
}

/// What is written after a gate for one sheet.
pub fn sheet_body(alloc: Global, account: Account, text: &[u8]) -> Result<Vec<u8>, NoMemory>
    ensures fits { OnOk result (IsSheet (account, text.now)) }
    ensures body { IfOk result (λ body. body.items ≡ body_bytes (payload_of_sheets ((account, text.now) ∷ []))) }
{
    let mut payload = payload_head(alloc, 1, 1)?;
    put_sheet(&mut payload, account, text)?;
    body_around(alloc, payload.as_slice())
}

/// The number of a kind.
pub fn kind_number(kind: Kind) -> u8
    ensures { result ≡ kind_number kind }
{
    match kind {
        Kind::Origin => 0,
        Kind::Terminating => 1,
        Kind::Diversion => 2,
        Kind::Participant => 3,
    }
}

/// The position of a cause in the table of causes, and its code.
pub fn cause_numbers(cause: &Cause) -> (u8, u16)
    ensures { result ≡ cause_numbers cause.now }
{
    match cause {
        Cause::OutgoingBarred => (1, 0),
        Cause::IncomingBarred => (2, 0),
        Cause::AnonymousRejected => (3, 0),
        Cause::NotRegistered => (4, 0),
        Cause::NetworkBusy => (5, 0),
        Cause::NoReply => (6, 0),
        Cause::TooManyDiversions { busy: true } => (7, 1),
        Cause::TooManyDiversions { busy: false } => (7, 0),
        Cause::Unreachable(code) => (8, *code),
        Cause::Relayed(code) => (9, *code),
        Cause::Cancelled => (10, 0),
        Cause::NoAccount => (11, 0),
        Cause::NoRoute => (12, 0),
        Cause::BadScheme => (13, 0),
        Cause::Hops => (14, 0),
        Cause::Extension => (15, 0),
        Cause::Critical => (16, 0),
        Cause::Merged => (17, 0),
        Cause::Full => (18, 0),
        Cause::Ended => (19, 0),
        Cause::Unacknowledged => (20, 0),
    }
}

/// Writes when a call was answered, if it was.
fn put_answered(out: &mut Vec<u8>, answered: Option<Moment>) -> Result<(), NoMemory>
    ensures fits { IfSome answered (λ moment. moment ≤ last_moment) }
    ensures put { OnOk result (out.new.items ≡ out.old.items ++ answered_bytes answered) }
{
    match answered {
        None => {
            out.push(0)?;
            out.extend_from_slice(&0u64.to_be_bytes())?;
        }
        Some(moment) => {
            let ms = moment.ms();
            out.push(1)?;
            out.extend_from_slice(&ms.to_be_bytes())?;
        }
    }
    Ok(())
}

/// Writes a moment.
fn put_moment(out: &mut Vec<u8>, moment: Moment) -> Result<(), NoMemory>
    ensures fits { moment ≤ last_moment }
    ensures put { OnOk result (out.new.items ≡ out.old.items ++ to_be_bytes w64 moment) }
{
    out.extend_from_slice(&moment.ms().to_be_bytes())?;
    Ok(())
}

/// Writes how many times a call was held.
fn put_holds(out: &mut Vec<u8>, holds: u32) -> Result<(), NoMemory>
    ensures fits { holds < 2 ^ 32 }
    ensures put { OnOk result (out.new.items ≡ out.old.items ++ to_be_bytes w32 holds) }
{
    out.extend_from_slice(&holds.to_be_bytes())?;
    Ok(())
}

/// Writes whose part of which call a row is.
fn put_part(out: &mut Vec<u8>, kind: Kind, account: Account, call: CallNo) -> Result<(), NoMemory>
    ensures account { account.0 < 2 ^ 32 }
    ensures call { call.0 < 2 ^ 64 }
    ensures put { OnOk result
        (out.new.items ≡ out.old.items ++ (kind_number kind ∷ (to_be_bytes w32 account.0 ++ to_be_bytes w64 call.0))) }
{
    out.push(kind_number(kind))?;
    out.extend_from_slice(&account.0.to_be_bytes())?;
    out.extend_from_slice(&call.0.to_be_bytes())?;
    Ok(())
}

/// Writes why a part ended.
fn put_cause(out: &mut Vec<u8>, cause: &Cause) -> Result<(), NoMemory>
    ensures fits { (cause_numbers cause.now).1 < 2 ^ 16 }
    ensures put { OnOk result (out.new.items ≡ out.old.items ++ cause_bytes cause.now) }
{
    let (place, code) = cause_numbers(cause);
    out.push(place)?;
    out.extend_from_slice(&code.to_be_bytes())?;
    Ok(())
}

/// Writes a row.
fn put_row(out: &mut Vec<u8>, row: &Row) -> Result<(), NoMemory>
    ensures fits { OnOk result (IsRow row.now) }
    ensures put { OnOk result (out.new.items ≡ out.old.items ++ row_bytes row.now) }
{
    put_part(out, row.kind, row.account, row.call)?;
    put_moment(out, row.began)?;
    put_answered(out, row.answered)?;
    put_moment(out, row.ended)?;
    put_holds(out, row.holds)?;
    put_cause(out, &row.cause)?;
    Ok(())
}

/// What is written after a gate for rows.
#[tactic(auto, unfolding(crate::specs::Logs::body_bytes))]
pub fn rows_body(alloc: Global, rows: &[Row]) -> Result<Vec<u8>, NoMemory>
    ensures fits { OnOk result (All IsRow rows.now) }
    ensures body { IfOk result (λ body. body.items ≡ body_bytes (payload_of_rows rows.now)) }
{
    let count = rows.len() as u64;
    if count > MAX_ROWS {
        return Err(NoMemory);
    }
    let mut body = Vec::new(alloc);
    body.extend_from_slice(&(9 + 45 * count).to_be_bytes())?;
    body.push(2)?;
    body.extend_from_slice(&count.to_be_bytes())?;
    for row in rows {
        put_row(&mut body, row)?;
    }
    body.push(0)?;
    Ok(body)
}
