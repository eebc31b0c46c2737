//! Reading a message.
ghost use Rattle.std.specs.Prelude.{◌≡◌, ◌≤◌, ◌<◌, ◌+◌, ℕ, List, Some, Ok, Err, IfOk, MatchResult, codes, drop, length, map, take};
ghost use Rattle.mmtel_message.specs.Expansion.{expanded_lines};
ghost use Rattle.mmtel_message.specs.Headers.{header_line};
ghost use Rattle.mmtel_message.specs.Held.{held_lines, value_of};
ghost use Rattle.mmtel_message.specs.Canonical.{IsCanonical};
ghost use Rattle.mmtel_message.specs.Identifiers.{identifiers_in};
ghost use Rattle.mmtel_message.specs.Reads.{read_result, IsReadResult, IsReadFault, large_of, large_reply, body_of, message_of, message_head, head_in_lines, head_in, after_head};
ghost use Rattle.mmtel_message.specs.Replies.{reply_to};
ghost use Rattle.mmtel_message.specs.declared.reading.ReadFault.TheVariants as fault;

use crate::expansion::expanded_list;
use crate::faults::first_fault;
use crate::field_refs::five_ref;
use crate::headers::headers;
use crate::held::{Held, HeldValue, Lines, Span, value_of};
use crate::identifiers::OwnedIdentifiers;
use crate::lines::{Break, break_position, lines, whole_end};
use crate::messages::{Msg, Start, first_of};
use crate::replies::reply_to;
use crate::starts::start;
use mmtel_base::number_up_to;
use mmtel_lex::{LexFault, List, NoMemory, Text};
use std::alloc::Global;

/// Why bytes are no message. There is a reply for a request other than ACK; its To has no tag yet.
#[derive(Drop)]
pub enum ReadFault {
    /// Over 16,384 bytes. The reply is a 513; there is none where the start line or one of the five fields cannot be read in the first 16,384 bytes.
    TooLarge { reply: Option<Msg> },
    /// There is no end of the head or no start line, or one of the five fields cannot be read.
    NotSip,
    /// Over 128 header lines. The reply is a 513.
    TooMany { reply: Option<Msg> },
    /// A line has a fault: 0 for the start line, header lines from 1 after folds are joined, and the number of header lines plus 1 for an absent field. The reply is a 400.
    Bad { at: usize, reply: Option<Msg> },
    NoMemory,
}

impl From<NoMemory> for ReadFault {
    ghost from_gives = { λ _ e. e ≡ fault.NoMemory };

    fn from(_error: NoMemory) -> ReadFault {
        ReadFault::NoMemory
    }
}

/// The length of the body: as many bytes after the head as Content-Length says, or all.
fn body_len(lines: &Lines<'_>, rest: usize) -> usize
    ensures body { (s : List ℕ) → length s ≡ rest → take result s ≡ body_of lines.now.values s }
    ensures within { result ≤ rest }
{
    match first_of(lines, b"Content-Length") {
        None => rest,
        Some(value) => match number_up_to(rest as u64, value) {
            None => rest,
            Some(len) => len as usize,
        },
    }
}

/// Refuses a message that has too many lines.
fn too_many_fault(alloc: Global, start: &Start, bytes: &[u8], lines: &[Held]) -> ReadFault
    ensures { IsReadFault result (Err (fault.TooMany (reply_to start.now 513 (codes "Message Too Large") (held_lines bytes.now lines.now)))) }
{
    match reply_to(alloc, start, 513, b"Message Too Large", bytes, lines) {
        Ok(reply) => ReadFault::TooMany { reply },
        Err(NoMemory) => ReadFault::NoMemory,
    }
}

/// Refuses a message that has a fault.
fn bad_fault(alloc: Global, start: &Start, bytes: &[u8], lines: &[Held], at: usize) -> ReadFault
    ensures { IsReadFault result (Err (fault.Bad at (reply_to start.now 400 (codes "Bad Request") (held_lines bytes.now lines.now)))) }
{
    match reply_to(alloc, start, 400, b"Bad Request", bytes, lines) {
        Ok(reply) => ReadFault::Bad { at, reply },
        Err(NoMemory) => ReadFault::NoMemory,
    }
}

/// These identifiers in a box of their own.
fn boxed_identifiers(
    alloc: Global,
    identifiers: OwnedIdentifiers,
) -> Result<Box<OwnedIdentifiers>, NoMemory>
    ensures { IfOk result (λ b. b.value ≡ identifiers) }
{
    match Box::new(alloc, identifiers) {
        Ok(boxed) => Ok(boxed),
        Err(refused) => {
            drop(refused.value);
            Err(NoMemory)
        }
    }
}

/// What the five fields say of a message whose head ends at a place of these bytes and has this start line and these header lines, where nothing is wrong with it.
#[tactic(auto, using(crate::proofs::IdentifierTheorems::read_whole))]
fn check_head(
    alloc: Global,
    start: &Start,
    bytes: &[u8],
    end: usize,
    lines: &[Held],
) -> Result<Box<OwnedIdentifiers>, ReadFault>
    requires { end + 4 ≤ length bytes.now }
    ensures read { let hs = held_lines bytes.now lines.now in let rest = drop (end + 4) bytes.now in
        MatchResult result (λ _. after_head (message_head (Some start.now) hs) rest ≡ Ok (message_of start.now hs rest))
        (λ e. IsReadFault e (after_head (message_head (Some start.now) hs) rest)) }
    ensures identifiers { IfOk result (λ b. identifiers_in (expanded_lines (held_lines bytes.now lines.now)) ≡ Some b.value) }
{
    let room = bytes.len() - (end + 4);
    let whole = Lines::of(bytes, lines, &[]);
    match five_ref(&whole) {
        None => Err(ReadFault::NotSip),
        Some(five) => {
            if lines.len() > 128 {
                return Err(too_many_fault(alloc, start, bytes, lines));
            }
            match first_fault(start, &five, room as u64, &whole) {
                Some(at) => Err(bad_fault(alloc, start, bytes, lines, at)),
                None => {
                    let identifiers = OwnedIdentifiers::of(alloc, &five)?;
                    Ok(boxed_identifiers(alloc, identifiers)?)
                }
            }
        }
    }
}

/// The message of these bytes, whose head ends at a place of them, with this start line, these header lines, and what their five fields say.
fn whole_message(
    alloc: Global,
    start: Start,
    bytes: Text,
    end: usize,
    lines: List<Held>,
    identifiers: Box<OwnedIdentifiers>,
) -> Result<Msg, NoMemory>
    requires head { end + 4 ≤ length bytes }
    requires identifiers { identifiers_in (expanded_lines (held_lines bytes lines)) ≡ Some identifiers.value }
    ensures { IfOk result (λ m. m ≡ message_of start (held_lines bytes lines) (drop (end + 4) bytes)) }
{
    let from = end + 4;
    let len = body_len(
        &Lines::of(bytes.bytes(), lines.items(), &[]),
        bytes.bytes().len() - from,
    );
    match expanded_list(alloc, bytes.bytes(), lines) {
        Err(NoMemory) => {
            drop(identifiers);
            drop(bytes);
            drop(start);
            Err(NoMemory)
        }
        Ok(lines) => {
            let body = HeldValue::Received(Span { from, len });
            Ok(Msg::held(start, bytes, lines, body, identifiers))
        }
    }
}

fn after_head(
    alloc: Global,
    start: Start,
    bytes: Text,
    end: usize,
    lines: List<Held>,
) -> Result<Msg, ReadFault>
    requires { end + 4 ≤ length bytes }
    ensures { IsReadResult result (after_head (message_head (Some start) (held_lines bytes lines)) (drop (end + 4) bytes)) }
{
    match check_head(alloc, &start, bytes.bytes(), end, lines.items()) {
        Err(fault) => {
            drop(lines);
            drop(bytes);
            drop(start);
            Err(fault)
        }
        Ok(identifiers) => Ok(whole_message(alloc, start, bytes, end, lines, identifiers)?),
    }
}

/// Reads a message whose head ends at a place of its bytes and has this start line and these header lines.
fn read_headers(
    alloc: Global,
    start: Start,
    bytes: Text,
    end: usize,
    lines: &[HeldValue],
) -> Result<Msg, ReadFault>
    requires { end + 4 ≤ length bytes }
    ensures { IsReadResult result (after_head (message_head (Some start) (map header_line (map (value_of bytes) lines.now))) (drop (end + 4) bytes)) }
{
    let headers = headers(alloc, bytes.bytes(), lines)?;
    after_head(alloc, start, bytes, end, headers)
}

/// Reads a message whose head ends at a place of its bytes and has these lines.
fn read_lines(alloc: Global, bytes: Text, end: usize, lines: &[HeldValue]) -> Result<Msg, ReadFault>
    requires { end + 4 ≤ length bytes }
    ensures { IsReadResult result (after_head (head_in_lines (map (value_of bytes) lines.now)) (drop (end + 4) bytes)) }
{
    match lines {
        [] => Err(ReadFault::NotSip),
        [first, others @ ..] => match start(alloc, value_of(bytes.bytes(), first)) {
            Err(LexFault::Malformed) => Err(ReadFault::NotSip),
            Err(LexFault::NoMemory) => Err(ReadFault::NoMemory),
            Ok(start) => read_headers(alloc, start, bytes, end, others),
        },
    }
}

/// Reads a message whose head ends at a place of its bytes.
fn read_head(alloc: Global, bytes: Text, end: usize) -> Result<Msg, ReadFault>
    requires { end + 4 ≤ length bytes }
    ensures { IsReadResult result (after_head (head_in (take end bytes)) (drop (end + 4) bytes)) }
{
    let lines = lines(alloc, bytes.bytes(), end)?;
    let read = read_lines(alloc, bytes, end, lines.items());
    drop(lines);
    read
}

/// The reply to a message that is too large and has this start line and these header lines.
fn large_of_start(
    alloc: Global,
    start: &Start,
    bytes: &[u8],
    lines: &[Held],
) -> Result<Option<Msg>, NoMemory>
    ensures { IfOk result (λ m. m ≡ large_of (message_head (Some start.now) (held_lines bytes.now lines.now))) }
{
    if five_ref(&Lines::of(bytes, lines, &[])).is_some() {
        reply_to(alloc, start, 513, b"Message Too Large", bytes, lines)
    } else {
        Ok(None)
    }
}

fn large_of_lines(alloc: Global, bytes: &[u8], lines: &[HeldValue]) -> Result<Option<Msg>, NoMemory>
    ensures { IfOk result (λ m. m ≡ large_of (head_in_lines (map (value_of bytes.now) lines.now))) }
{
    match lines {
        [] => Ok(None),
        [first, others @ ..] => match start(alloc, value_of(bytes, first)) {
            Err(LexFault::Malformed) => Ok(None),
            Err(LexFault::NoMemory) => Err(NoMemory),
            Ok(start) => {
                let headers = headers(alloc, bytes, others)?;
                large_of_start(alloc, &start, bytes, headers.items())
            }
        },
    }
}

/// The reply to a message that begins with these bytes and is too large.
fn large_reply(alloc: Global, bytes: &[u8]) -> Result<Option<Msg>, NoMemory>
    ensures { IfOk result (λ m. m ≡ large_reply bytes.now) }
{
    match whole_end(bytes) {
        None => Ok(None),
        Some(at) => {
            let lines = lines(alloc, bytes, at)?;
            large_of_lines(alloc, bytes, lines.items())
        }
    }
}

/// Refuses a message of too many bytes.
fn too_large(alloc: Global, bytes: &[u8]) -> Result<Msg, ReadFault>
    requires { 16384 < length bytes.now }
    ensures { IsReadResult result (Err (fault.TooLarge (large_reply (take 16384 bytes.now)))) }
{
    let reply = large_reply(alloc, &bytes[..16384])?;
    Err(ReadFault::TooLarge { reply })
}

/// Reads a message.
fn read_bytes(alloc: Global, bytes: Text) -> Result<Msg, ReadFault>
    ensures { IsReadResult result (read_result bytes) }
{
    if bytes.bytes().len() > 16384 {
        return too_large(alloc, bytes.bytes());
    }
    match break_position(Break::Head, bytes.bytes()) {
        None => Err(ReadFault::NotSip),
        Some(end) => read_head(alloc, bytes, end),
    }
}

/// Reads a message (RFC 3261 §7, §18.3 and §25.1), which keeps the bytes: its values are places among them, where they are contiguous there.
///
/// Folds are joined, names are spelled in full, the values of a listed name are one per line, and the body is as long as Content-Length says. On a refusal the bytes are dropped.
///
/// # Errors
///
/// The first that applies of: `TooLarge` for over 16,384 bytes, `NotSip`, `TooMany` for over 128 header lines, `Bad` for the first fault in the order of lines. And out of memory.
pub fn read_held(alloc: Global, bytes: Text) -> Result<Msg, ReadFault>
    // The result is that of the definition, with the reply that it gives.
    ensures exact { IsReadResult result (read_result bytes) }
    // What is read can be printed and is read again: see `Msg::text`.
    ensures canonical { IfOk result (λ m. IsCanonical m) }
{
    read_bytes(alloc, bytes)
}

/// Reads a message, as `read_held` does, of a copy of the bytes.
///
/// # Errors
///
/// Those of `read_held`.
pub fn read(alloc: Global, bytes: &[u8]) -> Result<Msg, ReadFault>
    // The result is that of the definition, with the reply that it gives.
    ensures exact { IsReadResult result (read_result bytes.now) }
    // What is read can be printed and is read again: see `Msg::text`.
    ensures canonical { IfOk result (λ m. IsCanonical m) }
{
    let bytes = Text::of(alloc, bytes)?;
    read_held(alloc, bytes)
}
