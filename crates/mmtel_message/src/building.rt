//! The header lines of a message that the server builds, one after another.
ghost use Rattle.std.specs.Prelude.{◌≡◌, ◌∷◌, ◌++◌, [], IfOk, OnErr, OnOk, decimal};
ghost use Rattle.mmtel_message.specs.Message.{line, lines_named};

use crate::held::Lines;
use crate::messages::Line;
use mmtel_base::{List, NoMemory, Text, add_number};
use std::alloc::Global;

/// Adds a header line.
///
/// # Errors
///
/// Out of memory only; the list is then as before.
#[tactic(auto, unfolding(crate::specs::Message::line))]
pub fn add_line(
    alloc: Global,
    out: &mut List<Line>,
    name: &[u8],
    value: Text,
) -> Result<(), NoMemory>
    ensures added { OnOk result (out.new ≡ out.old ++ line name.now value) }
    ensures refused { OnErr result (out.new ≡ out.old) }
{
    let name = Text::of(alloc, name)?;
    out.push(alloc, (name, value))?;
    Ok(())
}

/// Adds a header line with these bytes as its value.
///
/// # Errors
///
/// Out of memory only; the list is then as before.
pub fn add_bytes(
    alloc: Global,
    out: &mut List<Line>,
    name: &[u8],
    value: &[u8],
) -> Result<(), NoMemory>
    ensures added { OnOk result (out.new ≡ out.old ++ line name.now value.now) }
    ensures refused { OnErr result (out.new ≡ out.old) }
{
    let value = Text::of(alloc, value)?;
    add_line(alloc, out, name, value)
}

/// Adds a header line with a number as its value.
///
/// # Errors
///
/// Out of memory only; the list is then as before.
pub fn add_decimal(
    alloc: Global,
    out: &mut List<Line>,
    name: &[u8],
    number: u64,
) -> Result<(), NoMemory>
    ensures added { OnOk result (out.new ≡ out.old ++ line name.now (decimal number)) }
    ensures refused { OnErr result (out.new ≡ out.old) }
{
    let mut value = Text::new();
    add_number(alloc, &mut value, number)?;
    add_line(alloc, out, name, value)
}

/// Adds these lines, one after another. Where memory runs out, a prefix of them is added.
#[tactic(auto, unfolding(crate::specs::Message::line))]
pub fn append_lines(alloc: Global, out: &mut List<Line>, lines: &[Line]) -> Result<(), NoMemory>
    ensures { OnOk result (out.new ≡ out.old ++ lines.now) }
{
    for line in lines {
        add_bytes(alloc, out, line.0.bytes(), line.1.bytes())?;
    }
    Ok(())
}

/// Adds those of the lines that have the name, unchanged and in their order. Where memory runs out, a prefix of them is added.
#[tactic(auto, unfolding(crate::specs::Message::line))]
pub fn append_named(
    alloc: Global,
    out: &mut List<Line>,
    name: &[u8],
    lines: &Lines<'_>,
) -> Result<(), NoMemory>
    ensures { OnOk result (out.new ≡ out.old ++ lines_named name.now lines.now.values) }
{
    let mut from = 0;
    'lines: while let Some(line) = lines.next_named(name, from) {
        add_bytes(alloc, out, line.name, line.value)?;
        from = line.next;
    }
    Ok(())
}

/// Adds the lines that are copied from another message, in their order.
///
/// # Errors
///
/// Out of memory only; the list is then as before.
pub fn add_passed(alloc: Global, out: &mut List<Line>, passed: &[Line]) -> Result<(), NoMemory>
    ensures added { OnOk result (out.new ≡ out.old ++ passed.now) }
    ensures refused { OnErr result (out.new ≡ out.old) }
{
    let mut copy = List::new();
    append_lines(alloc, &mut copy, passed)?;
    out.extend(alloc, copy)?;
    Ok(())
}

/// Adds those of the lines that have the name, unchanged and in their order.
///
/// # Errors
///
/// Out of memory only; the list is then as before.
pub fn add_named(
    alloc: Global,
    out: &mut List<Line>,
    name: &[u8],
    lines: &Lines<'_>,
) -> Result<(), NoMemory>
    ensures added { OnOk result (out.new ≡ out.old ++ lines_named name.now lines.now.values) }
    ensures refused { OnErr result (out.new ≡ out.old) }
{
    let mut copy = List::new();
    append_named(alloc, &mut copy, name, lines)?;
    out.extend(alloc, copy)?;
    Ok(())
}
