//! Fields of a received message, as a dialog reads them (RFC 3261 §12).
ghost use Rattle.std.specs.Prelude.{◌≡◌, IfOk, []};
ghost use Rattle.std.specs.Option.{option_copied, unwrap_or};
ghost use Rattle.mmtel_trust.specs.ParsedMessage.{tag_of};
ghost use Rattle.mmtel_leg.specs.Remotes.{field, tag_in};
ghost use Rattle.mmtel_leg.specs.Dialogues.{number_at, number_in, request_uri};

use mmtel_base::{NoMemory, Text};
use mmtel_lex::name_addr_ref;
use mmtel_message::{Msg, Start, cseq_ref};
use std::alloc::Global;

/// These bytes, or none.
fn copied(alloc: Global, value: Option<&[u8]>) -> Result<Text, NoMemory>
    ensures { IfOk result (λ t. t ≡ unwrap_or (option_copied value.entry) []) }
{
    Text::of(alloc, value.unwrap_or(b""))
}

/// The value of the first line of the name, or no bytes.
#[tactic(auto, unfolding(crate::specs::Remotes::field))]
pub fn field(alloc: Global, name: &[u8], message: &Msg) -> Result<Text, NoMemory>
    ensures { IfOk result (λ t. t ≡ field name.now message.now.lines) }
{
    copied(alloc, message.first(name))
}

/// The tag of a From or To value (RFC 3261 §19.3), or no bytes.
fn tag_of(alloc: Global, value: Option<&[u8]>) -> Result<Text, NoMemory>
    ensures { IfOk result (λ t. t ≡ unwrap_or (tag_of (option_copied value.entry)) []) }
{
    match value {
        None => Ok(Text::new()),
        Some(value) => match name_addr_ref(value) {
            None => Ok(Text::new()),
            Some(name) => copied(alloc, name.params.value(b"tag")),
        },
    }
}

/// The tag of the first line of the name, or no bytes.
#[tactic(auto, unfolding(crate::specs::Remotes::tag_in))]
pub fn tag_in(alloc: Global, name: &[u8], message: &Msg) -> Result<Text, NoMemory>
    ensures { IfOk result (λ t. t ≡ tag_in name.now message.now.lines) }
{
    tag_of(alloc, message.first(name))
}

/// The number of a CSeq value (RFC 3261 §20.16).
#[tactic(auto, unfolding(crate::specs::Dialogues::number_at))]
fn number_at(bytes: &[u8]) -> Option<u32>
    ensures { result ≡ number_at bytes.now }
{
    match cseq_ref(bytes) {
        None => None,
        Some(cseq) => Some(cseq.number()),
    }
}

/// The number in CSeq (RFC 3261 §20.16), where that can be read.
#[tactic(auto, unfolding(crate::specs::Dialogues::number_in))]
pub fn number_in(message: &Msg) -> Option<u32>
    ensures number { result ≡ number_in message.now.lines }
{
    match message.first(b"CSeq") {
        None => None,
        Some(value) => number_at(value),
    }
}

/// The Request-URI of a request; no bytes of a response.
pub fn request_uri(start: &Start) -> &[u8]
    ensures uri { result.now ≡ request_uri start.now }
{
    match start {
        Start::Request { method: _, uri } => uri.bytes(),
        Start::Status { code: _, phrase: _ } => b"",
    }
}
