//! Writing a message: its canonical text.
ghost use Rattle.std.specs.Prelude.{◌≡◌, ◌++◌, OnOk, IfOk, Ok};
ghost use Rattle.mmtel_message.specs.Canonical.{IsCanonical, IsWithinLimits};
ghost use Rattle.mmtel_message.specs.Held.{held_lines};
ghost use Rattle.mmtel_message.specs.Reads.{read_result};
ghost use Rattle.mmtel_message.specs.Texts.{start_text, line_text, lines_text, message_text};

use crate::held::{Held, Lines, value_of};
use crate::messages::{Line, Msg, Start};
use mmtel_base::add_number;
use mmtel_lex::{NoMemory, Text};
use std::alloc::Global;

fn add_start(alloc: Global, out: &mut Text, start: &Start) -> Result<(), NoMemory>
    ensures { OnOk result (out.new ≡ out.old ++ start_text start.now) }
{
    match start {
        Start::Request { method, uri } => {
            out.push(alloc, method.bytes())?;
            out.push(alloc, b" ")?;
            out.push(alloc, uri.bytes())?;
            out.push(alloc, b" SIP/2.0")
        }
        Start::Status { code, phrase } => {
            out.push(alloc, b"SIP/2.0 ")?;
            add_number(alloc, out, u64::from(*code))?;
            out.push(alloc, b" ")?;
            out.push(alloc, phrase.bytes())
        }
    }
}

fn add_line(alloc: Global, out: &mut Text, name: &[u8], value: &[u8]) -> Result<(), NoMemory>
    ensures { OnOk result (out.new ≡ out.old ++ line_text (name.now, value.now)) }
{
    out.push(alloc, name)?;
    out.push(alloc, b": ")?;
    out.push(alloc, value)?;
    out.push(alloc, b"\r\n")
}

fn add_lines_received(
    alloc: Global,
    out: &mut Text,
    received: &[u8],
    held: &[Held],
) -> Result<(), NoMemory>
    ensures { OnOk result (out.new ≡ out.old ++ lines_text (held_lines received.now held.now)) }
{
    for line in held {
        add_line(alloc, out, line.0.bytes(), value_of(received, &line.1))?;
    }
    Ok(())
}

fn add_lines_added(alloc: Global, out: &mut Text, added: &[Line]) -> Result<(), NoMemory>
    ensures { OnOk result (out.new ≡ out.old ++ lines_text added.now) }
{
    for line in added {
        add_line(alloc, out, line.0.bytes(), line.1.bytes())?;
    }
    Ok(())
}

#[tactic(auto, using(std::proofs::lemmas::Grind::common_steps))]
fn add_lines(alloc: Global, out: &mut Text, lines: &Lines<'_>) -> Result<(), NoMemory>
    ensures { OnOk result (out.new ≡ out.old ++ lines_text lines.now.values) }
{
    let (received, held, added) = lines.parts();
    add_lines_received(alloc, out, received, held)?;
    add_lines_added(alloc, out, added)
}

/// How many bytes the start line takes, or a few more.
fn start_capacity(start: &Start) -> usize {
    match start {
        Start::Request { method, uri } => method
            .bytes()
            .len()
            .saturating_add(uri.bytes().len())
            .saturating_add(b"  SIP/2.0".len()),
        Start::Status { code: _, phrase } => phrase
            .bytes()
            .len()
            .saturating_add(b"SIP/2.0 65535 ".len()),
    }
}

/// The capacity for what is before and a line of this name and value.
fn capacity_with(capacity: usize, name: &[u8], value: &[u8]) -> usize {
    capacity
        .saturating_add(name.len())
        .saturating_add(value.len())
        .saturating_add(b": \r\n".len())
}

/// The capacity for what is before and these lines, which were received.
fn capacity_with_received(before: usize, received: &[u8], held: &[Held]) -> usize {
    let mut room = before;
    for line in held {
        room = capacity_with(room, line.0.bytes(), value_of(received, &line.1));
    }
    room
}

/// The capacity for what is before and these lines, which were added.
fn capacity_with_added(before: usize, added: &[Line]) -> usize {
    let mut room = before;
    for line in added {
        room = capacity_with(room, line.0.bytes(), line.1.bytes());
    }
    room
}

/// How many bytes the lines take.
fn lines_capacity(lines: &Lines<'_>) -> usize {
    let (received, held, added) = lines.parts();
    capacity_with_added(capacity_with_received(0, received, held), added)
}

/// The capacity for the text of a message. A text that exceeds it is still written.
fn capacity_of(message: &Msg) -> usize {
    start_capacity(message.start())
        .saturating_add(lines_capacity(&message.lines()))
        .saturating_add(message.body().len())
        .saturating_add(b"\r\n\r\n".len())
}

fn message_text(alloc: Global, message: &Msg) -> Result<Text, NoMemory>
    ensures { IfOk result (λ t. t ≡ message_text message.now) }
{
    let mut out = Text::with_capacity(alloc, capacity_of(message))?;
    add_start(alloc, &mut out, message.start())?;
    out.push(alloc, b"\r\n")?;
    add_lines(alloc, &mut out, &message.lines())?;
    out.push(alloc, b"\r\n")?;
    out.push(alloc, message.body())?;
    Ok(out)
}

impl Msg {
    /// The canonical text (RFC 3261 §7): the start line, lines `Name: value`, an empty line and the body.
    ///
    /// # Errors
    ///
    /// Out of memory only.
    pub fn text(&self, alloc: Global) -> Result<Text, NoMemory>
        ensures text { IfOk result (λ t. t ≡ message_text self.now) }
        // The text of a canonical message that fits into a datagram is read as that message.
        ensures reads_back { IsCanonical self.now → IsWithinLimits self.now → IfOk result (λ t. read_result t ≡ Ok self.now) }
    {
        message_text(alloc, self)
    }
}
