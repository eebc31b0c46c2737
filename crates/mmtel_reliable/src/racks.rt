//! What a PRACK acknowledges (RFC 3262 §7.2).
ghost use Rattle.std.specs.Prelude.{◌≡◌, IfOk, Ok};
ghost use Rattle.std.specs.Option.{ok_or};
ghost use Rattle.mmtel_lex.specs.declared.faults.LexFault.TheVariants.{Malformed};
ghost use Rattle.mmtel_reliable.specs.Racks.{IsRack, rack_of};
ghost use Rattle.mmtel_reliable.specs.declared.racks.Rack.{Rack as RackValue};

use mmtel_base::{Class, is_all, number_up_to, split_once_at};
use mmtel_lex::LexFault;

/// The greatest number of an RSeq or of a CSeq: both are below 2^31 (RFC 3262 §7.1, RFC 3261 §8.1.1.5).
pub(crate) const GREATEST_NUMBER: u32 = 2_147_483_647;

/// The value of a RAck line: which response a PRACK acknowledges, and to which request.
#[derive(Clone, Copy, Debug, PartialEq, Eq)]
pub struct Rack {
    /// The number of the response, as its RSeq line had it; below 2^31.
    pub answer: u32,
    /// The CSeq number of the request to which it responds; below 2^31.
    pub cseq: u32,
    /// Whether that request is an INVITE.
    pub invite: bool,
}

/// Reads a RAck value: two numbers below 2^31, which may begin with zeros, and a method, each separated from the next by one blank (RFC 3262 §7.2).
///
/// # Errors
///
/// `Malformed` exactly where the bytes are no such value. It allocates nothing.
pub fn read_rack(bytes: &[u8]) -> Result<Rack, LexFault>
    ensures exact { result ≡ ok_or (rack_of bytes.now) Malformed }
    // What is read is what the bytes spell, and what they spell is read.
    ensures found { IfOk result (IsRack bytes.now) }
    ensures only { (rack : RackValue) → IsRack bytes.now rack → result ≡ Ok rack }
{
    match rack_in(bytes) {
        Some(rack) => Ok(rack),
        None => Err(LexFault::Malformed),
    }
}

/// The value that the bytes spell.
fn rack_in(bytes: &[u8]) -> Option<Rack>
    ensures { result ≡ rack_of bytes.now }
{
    let (answer, rest) = split_once_at(b' ', bytes)?;
    let (cseq, method) = split_once_at(b' ', rest)?;
    let answer = number_up_to(u64::from(GREATEST_NUMBER), answer)?;
    let cseq = number_up_to(u64::from(GREATEST_NUMBER), cseq)?;
    if method.is_empty() || !is_all(Class::Token, method) {
        return None;
    }
    Some(Rack {
        answer: answer as u32,
        cseq: cseq as u32,
        invite: method == b"INVITE".as_slice(),
    })
}
