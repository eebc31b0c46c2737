//! Start lines (RFC 3261 §7.1, §7.2 and §25.1).
ghost use Rattle.std.specs.Prelude.{◌≡◌, Some};
ghost use Rattle.mmtel_lex.specs.Reading.{IsResult};
ghost use Rattle.mmtel_message.specs.Starts.{status_at, request_at, start_at};
ghost use Rattle.mmtel_message.specs.declared.messages.Start.TheVariants.{Request};

use crate::headers::is_value;
use crate::messages::Start;
use mmtel_base::{Class, number_up_to, skip_byte, skip_text, split_once_at, split_run};
use mmtel_lex::{LexFault, Text};
use std::alloc::Global;

/// Reads what follows `SIP/2.0 `.
#[tactic(auto, unfolding(crate::specs::Starts::status_at))]
fn status(alloc: Global, bytes: &[u8]) -> Result<Start, LexFault>
    ensures { IsResult (λ x. x) result (status_at bytes.now) }
{
    match split_once_at(b' ', bytes) {
        None => Err(LexFault::Malformed),
        Some((digits, phrase)) => {
            if digits.len() != 3 {
                return Err(LexFault::Malformed);
            }
            match number_up_to(699, digits) {
                None => Err(LexFault::Malformed),
                Some(code) => {
                    if code < 100 {
                        return Err(LexFault::Malformed);
                    }
                    if !is_value(phrase) {
                        return Err(LexFault::Malformed);
                    }
                    let phrase = Text::of(alloc, phrase)?;
                    Ok(Start::Status {
                        code: code as u16,
                        phrase,
                    })
                }
            }
        }
    }
}

/// The start line of a request of these parts.
fn request_of(alloc: Global, method: &[u8], uri: &[u8]) -> Result<Start, LexFault>
    ensures { IsResult (λ x. x) result (Some (Request method.now uri.now)) }
{
    let method = Text::of(alloc, method)?;
    let uri = Text::of(alloc, uri)?;
    Ok(Start::Request { method, uri })
}

/// Reads a request's start line.
#[tactic(auto, unfolding(crate::specs::Starts::request_at, mmtel_lex::specs::Reading::token_at))]
fn request(alloc: Global, bytes: &[u8]) -> Result<Start, LexFault>
    ensures { IsResult (λ x. x) result (request_at bytes.now) }
{
    let (method, rest) = split_run(Class::Token, bytes);
    if method.is_empty() {
        return Err(LexFault::Malformed);
    }
    match skip_byte(b' ', rest) {
        None => Err(LexFault::Malformed),
        Some(rest) => match split_once_at(b' ', rest) {
            None => Err(LexFault::Malformed),
            Some((uri, version)) => {
                if uri.is_empty() {
                    return Err(LexFault::Malformed);
                }
                if version != b"SIP/2.0".as_slice() {
                    return Err(LexFault::Malformed);
                }
                request_of(alloc, method, uri)
            }
        },
    }
}

/// Reads a start line.
#[tactic(auto, unfolding(crate::specs::Starts::start_at))]
pub fn start(alloc: Global, line: &[u8]) -> Result<Start, LexFault>
    ensures { IsResult (λ x. x) result (start_at line.now) }
{
    match skip_text(b"SIP/2.0 ", line) {
        None => request(alloc, line),
        Some(rest) => status(alloc, rest),
    }
}
