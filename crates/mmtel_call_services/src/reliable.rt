//! Which provisional responses of a target are reliable ones, and the header fields that a message has for them (RFC 3262).
ghost use Rattle.std.specs.Prelude.{◌≡◌, ◌∷◌, ◌++◌, IfOk, OnOk, codes, decimal};
ghost use Rattle.mmtel_call_services.specs.Reliable.{has_100rel, rack_line, reliable_lines, reliable_number, requires_prack, rseq_in, supports_reliable};

use crate::call_config::CallConfig;
use crate::openings::Opening;
use mmtel_base::{List, NoMemory, Text, add_number, number_up_to};
use mmtel_compose::{ReceivedMessage, callee_remote, status_of};
use mmtel_message::{Line, add_bytes, add_decimal, line_texts};
use std::alloc::Global;

/// The greatest RSeq number of a reliable response (RFC 3262 §7.1).
const GREATEST_NUMBER: u64 = 2_147_483_647;

/// Whether the option tag 100rel is among these.
fn has_100rel(values: &[Text]) -> bool
    ensures { result ≡ has_100rel values.now }
{
    values
        .iter()
        .any(|value| value.bytes() == b"100rel".as_slice())
}

/// Whether a response is a 101 to 199 that requires a PRACK, in a dialog (RFC 3262 §3, §4).
fn requires_prack(alloc: Global, response: &ReceivedMessage) -> Result<bool, NoMemory>
    ensures { IfOk result (λ wants. wants ≡ requires_prack response.now) }
{
    let code = status_of(response.message.start());
    if code < 101 || code >= 200 {
        return Ok(false);
    }
    let required = line_texts(alloc, &response.message.lines(), b"Require")?;
    let reliable = has_100rel(required.items());
    drop(required);
    if !reliable {
        return Ok(false);
    }
    let remote = callee_remote(alloc, response)?;
    let tagged = !remote.tag.bytes().is_empty();
    drop(remote);
    Ok(tagged)
}

/// The number in these bytes, if it is one from 1 to 2147483647 (RFC 3262 §7.1).
fn rseq_in(value: &[u8]) -> Option<u32>
    ensures { result ≡ rseq_in value.now }
{
    match number_up_to(GREATEST_NUMBER, value) {
        None | Some(0) => None,
        Some(number) => Some(number as u32),
    }
}

/// The number in the first RSeq of a response, if it is in that range. It allocates nothing.
fn rseq_of(response: &ReceivedMessage) -> Option<u32>
    ensures { result ≡ response.now.parsed.rseq }
{
    match response.message.first(b"RSeq") {
        None => None,
        Some(value) => rseq_in(value),
    }
}

impl Opening {
    /// Whether the INVITE that opened the call has 100rel in Supported or Require (RFC 3262 §3).
    fn supports_reliable(&self, alloc: Global) -> Result<bool, NoMemory>
        ensures { IfOk result (λ takes. takes ≡ supports_reliable self.now) }
    {
        let lines = self.invite.message.lines();
        let supported = line_texts(alloc, &lines, b"Supported")?;
        let supports = has_100rel(supported.items());
        drop(supported);
        if supports {
            return Ok(true);
        }
        let required = line_texts(alloc, &lines, b"Require")?;
        let requires_it = has_100rel(required.items());
        drop(required);
        Ok(requires_it)
    }

    /// The RSeq number of a target's response that is a reliable one: a 101 to 199 in a dialog that requires a PRACK and has an RSeq, where the server relays such responses and
    /// the INVITE that opened the call accepts them (RFC 3262 §3, §4). None for any other response, which is relayed without a number.
    ///
    /// # Errors
    ///
    /// Out of memory only.
    pub fn reliable_number(
        &self,
        alloc: Global,
        config: &CallConfig<'_>,
        response: &ReceivedMessage,
    ) -> Result<Option<u32>, NoMemory>
        ensures exact { IfOk result (λ number. number ≡ reliable_number config.now self.now response.now) }
    {
        if !config.reliable {
            return Ok(None);
        }
        if !requires_prack(alloc, response)? {
            return Ok(None);
        }
        if !self.supports_reliable(alloc)? {
            return Ok(None);
        }
        Ok(rseq_of(response))
    }
}

/// Adds the header fields of a response that is relayed under this number (RFC 3262 §7.1).
///
/// # Errors
///
/// Out of memory only; nothing is claimed of the header fields then.
#[tactic(auto, unfolding(mmtel_message::specs::Message::line))]
pub fn add_reliable_lines(alloc: Global, own: u32, lines: &mut List<Line>) -> Result<(), NoMemory>
    ensures added { OnOk result (lines.new ≡ lines.old ++ reliable_lines own) }
{
    add_bytes(alloc, lines, b"Require", b"100rel")?;
    add_decimal(alloc, lines, b"RSeq", u64::from(own))
}

/// The value of a RAck header field (RFC 3262 §7.2).
fn rack_value(alloc: Global, rseq: u32, cseq: u64) -> Result<Text, NoMemory>
    ensures { IfOk result (λ text. text ≡ decimal rseq ++ 32 ∷ (decimal cseq ++ 32 ∷ codes "INVITE")) }
{
    let mut value = Text::new();
    add_number(alloc, &mut value, u64::from(rseq))?;
    value.push(alloc, b" ")?;
    add_number(alloc, &mut value, cseq)?;
    value.push(alloc, b" INVITE")?;
    Ok(value)
}

/// Adds the RAck of a PRACK for the response of this number to the INVITE with this CSeq number (RFC 3262 §7.2).
///
/// # Errors
///
/// Out of memory only; the header fields are then as before.
#[tactic(auto, unfolding(mmtel_message::specs::Message::line))]
pub fn add_rack_line(
    alloc: Global,
    rseq: u32,
    cseq: u64,
    lines: &mut List<Line>,
) -> Result<(), NoMemory>
    ensures added { OnOk result (lines.new ≡ lines.old ++ rack_line rseq cseq) }
{
    let value = rack_value(alloc, rseq, cseq)?;
    let added = add_bytes(alloc, lines, b"RAck", value.bytes());
    drop(value);
    added
}
