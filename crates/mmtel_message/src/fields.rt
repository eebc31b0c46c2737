//! The five fields that each message has (RFC 3261 §8.1.1).
ghost use Rattle.mmtel_lex.specs.Reading.{IsResult};
ghost use Rattle.mmtel_message.specs.Fields.{cseq_at, five_at, via_at};

use crate::field_refs::{cseq_ref, five_ref, via_ref};
use crate::held::Lines;
use mmtel_lex::{LexFault, NameAddr, Params, Text};
use std::alloc::Global;

/// A Via value (RFC 3261 §20.42).
#[derive(Drop)]
pub struct Via {
    /// The transport, as received.
    pub transport: Text,
    /// Host and port, as received.
    pub sent_by: Text,
    pub host: Text,
    pub port: Option<u16>,
    pub params: Params,
}

/// A CSeq value (RFC 3261 §20.16): a number below 2^31 and a method.
#[derive(Drop)]
pub struct CSeq {
    pub number: u32,
    pub method: Text,
}

/// The five fields that each message has (RFC 3261 §8.1.1).
#[derive(Drop)]
pub struct Five {
    /// The first Via value.
    pub via: Via,
    pub from: NameAddr,
    pub to: NameAddr,
    /// The Call-ID, which is not empty.
    pub call_id: Text,
    pub cseq: CSeq,
}

/// Reads a Via value (RFC 3261 §20.42).
///
/// # Errors
///
/// `Malformed` where the bytes are no such value; and out of memory.
pub fn read_via(alloc: Global, bytes: &[u8]) -> Result<Via, LexFault>
    ensures exact { IsResult (λ x. x) result (via_at bytes.now) }
{
    match via_ref(bytes) {
        None => Err(LexFault::Malformed),
        Some(via) => Ok(via.owned(alloc)?),
    }
}

/// Reads a CSeq value (RFC 3261 §20.16).
///
/// # Errors
///
/// `Malformed` where the bytes are no such value; and out of memory.
pub fn read_cseq(alloc: Global, bytes: &[u8]) -> Result<CSeq, LexFault>
    ensures exact { IsResult (λ x. x) result (cseq_at bytes.now) }
{
    match cseq_ref(bytes) {
        None => Err(LexFault::Malformed),
        Some(cseq) => Ok(cseq.owned(alloc)?),
    }
}

/// Reads the five fields.
///
/// # Errors
///
/// `Malformed` where one of them cannot be read, or where one of them other than Via does not occur exactly once; and out of memory.
pub fn read_five(alloc: Global, lines: &Lines<'_>) -> Result<Five, LexFault>
    ensures exact { IsResult (λ x. x) result (five_at lines.now.values) }
{
    match five_ref(lines) {
        None => Err(LexFault::Malformed),
        Some(five) => Ok(five.owned(alloc)?),
    }
}
