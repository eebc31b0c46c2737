//! The reply to a request that is refused when it is read (RFC 3261 §8.2.6).
ghost use Rattle.std.specs.Prelude.{◌≡◌, IfOk};
ghost use Rattle.mmtel_message.specs.Held.{held_lines};
ghost use Rattle.mmtel_message.specs.Replies.{is_answerable, reply_to, reply_with};

use crate::expansion::expanded_lines;
use crate::faults::{is_method, is_request};
use crate::held::{Held, Lines};
use crate::messages::{Msg, Start};
use crate::responses::{Reply, response};
use mmtel_lex::{List, NoMemory, Text};
use std::alloc::Global;

/// The response of this status to a request of these lines, which creates no dialog: its Via lines, From, To, Call-ID and CSeq as received, and no body (RFC 3261 §8.2.6).
///
/// # Errors
///
/// Out of memory only.
#[tactic(auto, unfolding(crate::specs::Replies::reply_with))]
pub fn reply_with(
    alloc: Global,
    code: u16,
    phrase: &[u8],
    lines: &Lines<'_>,
) -> Result<Msg, NoMemory>
    ensures { IfOk result (λ m. m ≡ reply_with code phrase.now lines.now.values) }
{
    let start = Start::Status {
        code,
        phrase: Text::of(alloc, phrase)?,
    };
    let none = List::new();
    let reply = Reply {
        code,
        phrase,
        tag: b"",
        source: None,
        contact: b"",
        passed: none.items(),
        named: none.items(),
        body: b"",
    };
    response(alloc, &start, lines, &reply)
}

fn is_answerable(start: &Start) -> bool
    ensures { result ≡ is_answerable start.now }
{
    if is_method(b"ACK", start) {
        return false;
    }
    is_request(start)
}

/// The reply to a request other than ACK.
#[tactic(auto, unfolding(crate::specs::Replies::reply_to))]
pub fn reply_to(
    alloc: Global,
    start: &Start,
    code: u16,
    phrase: &[u8],
    bytes: &[u8],
    lines: &[Held],
) -> Result<Option<Msg>, NoMemory>
    ensures { IfOk result (λ m. m ≡ reply_to start.now code phrase.now (held_lines bytes.now lines.now)) }
{
    if !is_answerable(start) {
        return Ok(None);
    }
    let lines = expanded_lines(alloc, bytes, lines)?;
    let reply = reply_with(alloc, code, phrase, &Lines::of(bytes, lines.items(), &[]));
    drop(lines);
    Ok(Some(reply?))
}
