//! Messages: their parts, lookup by a name, and edits (RFC 3261 §7 and §7.3.1).
ghost use Rattle.std.specs.Prelude.{◌≡◌, ◌∷◌, ◌+◌, ◌++◌, ◌≤◌, ◌<◌, Some, ℕ, List, length, IfOk, OnOk, OnErr, take, drop, filter, not, position, []};
ghost use Rattle.std.specs.Option.{option_copied};
ghost use Rattle.std.specs.Str.{str_eq_ignore_ascii_case};
ghost use Rattle.mmtel_message.specs.Values.{base};
ghost use Rattle.mmtel_message.specs.declared.values.Mode.TheVariants.{Plain};
ghost use Rattle.mmtel_message.specs.Held.{held_lines, lines_of, value_of};
ghost use Rattle.mmtel_message.specs.Identifiers.{identifiers_in};
ghost use Rattle.mmtel_message.specs.Message.{is_line, has_line, first_value, lines_without, lines_with, line_texts, values_named};

use crate::edits::Edit;
use crate::held::{Held, HeldValue, Lines, Span, value_of};
use crate::identifiers::{Identifiers, OwnedIdentifiers, identifiers_in};
use crate::values::{Mode, values_in};
use mmtel_lex::{List, NoMemory, Text};
use std::alloc::Global;
use std::marker::Model;

/// The start line of a message (RFC 3261 §7.1 and §7.2).
#[derive(Drop)]
pub enum Start {
    /// A method and a Request-URI, as received.
    Request { method: Text, uri: Text },
    /// A status code and its reason phrase.
    Status { code: u16, phrase: Text },
}

/// A header line: its name and its value (RFC 3261 §7.3).
pub type Line = (Text, Text);

/// A message (RFC 3261 §7): its start line, its header lines in order, and its body.
///
/// In a message that `read` returned, names are spelled in full and the values of a listed name are one per line; edits keep the names that they are given. What its five fields
/// say is kept until it is edited.
///
/// The values of a message that was received are places among the received bytes, as long as nobody edits their lines.
#[derive(Drop)]
pub struct Msg {
    start: Start,
    received: Text,
    held: List<Held>,
    added: List<Line>,
    body: HeldValue,
    /// What its five fields say, where it was read and its lines were not edited since.
    identifiers: Option<Box<OwnedIdentifiers>>,
}

impl Model for Msg {
    ghost use Rattle.std.specs.Prelude.{◌≡◌, IfSome, Some};
    ghost use Rattle.mmtel_message.specs.Message.{Message};
    ghost use Rattle.mmtel_message.specs.Held.{lines_of, value_of};
    ghost use Rattle.mmtel_message.specs.Identifiers.{identifiers_in};
    ghost use Rattle.mmtel_message.specs.declared.messages.Start.{Start};

    ghost Value = { Message Start };

    ghost view = { λ m. record { start = m.start; lines = lines_of m.received m.held m.added; body = value_of m.received m.body } };

    // The kept identifiers are those of the five fields.
    ghost invariant = { λ m. IfSome m.identifiers (λ kept. identifiers_in (lines_of m.received m.held m.added) ≡ Some kept.value) };
}

/// Whether a name is this one, which is compared without case (RFC 3261 §7.3.1).
pub fn is_named(spelled: &[u8], name: &[u8]) -> bool
    ensures { result ≡ str_eq_ignore_ascii_case spelled.now name.now }
{
    spelled.eq_ignore_ascii_case(name)
}

/// Whether the line has the name.
pub fn is_line(line: &Line, name: &[u8]) -> bool
    ensures { result ≡ is_line name.now line.now }
{
    is_named(line.0.bytes(), name)
}

fn position_of<V>(lines: &[(Text, V)], name: &[u8]) -> Option<usize>
    ensures { result ≡ position (λ l. str_eq_ignore_ascii_case l.0 name.now) lines.now }
{
    lines.iter().position(|line| is_named(line.0.bytes(), name))
}

/// The value of the first line of the name.
pub fn first_of<'a>(lines: &Lines<'a>, name: &[u8]) -> Option<&'a [u8]>
    ensures { option_copied result ≡ first_value name.now lines.now.values }
{
    match lines.next_named(name, 0) {
        None => None,
        Some(line) => Some(line.value),
    }
}

fn drop_named<V: Drop>(lines: &mut List<(Text, V)>, from: usize, name: &[u8])
    requires { from ≤ length lines.old }
    ensures { lines.new ≡ take from lines.old ++ filter (λ l. not (str_eq_ignore_ascii_case l.0 name.now)) (drop from lines.old) }
{
    let mut i = from;
    'lines: while i < lines.items().len() {
        if is_named(lines.items()[i].0.bytes(), name) {
            let (_, _) = lines.remove(i);
        } else {
            i += 1;
        }
    }
}

/// The values of the lines of the name, in order: split as the mode says.
pub fn values_named(
    alloc: Global,
    mode: Mode,
    lines: &Lines<'_>,
    name: &[u8],
) -> Result<List<Text>, NoMemory>
    requires { base mode ≡ mode }
    ensures { IfOk result (λ vs. vs ≡ values_named mode name.now lines.now.values) }
{
    let mut out = List::new();
    for i in 0..lines.len() {
        let (spelled, value) = lines.at(i);
        if is_named(spelled, name) {
            let values = values_in(alloc, mode, value)?;
            out.extend(alloc, values)?;
        }
    }
    Ok(out)
}

/// The texts of the lines of the name, in order.
pub fn line_texts(alloc: Global, lines: &Lines<'_>, name: &[u8]) -> Result<List<Text>, NoMemory>
    ensures { IfOk result (λ vs. vs ≡ line_texts name.now lines.now.values) }
{
    let mut out = List::new();
    let mut from = 0;
    'lines: while let Some(line) = lines.next_named(name, from) {
        let value = Text::of(alloc, line.value)?;
        out.push(alloc, value)?;
        from = line.next;
    }
    Ok(out)
}

/// Whether there is a line of the name.
pub fn has_line(name: &[u8], lines: &Lines<'_>) -> bool
    ensures { result ≡ has_line name.now lines.now.values }
{
    lines.next_named(name, 0).is_some()
}

/// Removes the lines of the name.
fn drop_lines(held: &mut List<Held>, added: &mut List<Line>, name: &[u8])
    ensures { (s : List ℕ) → lines_of s held.new added.new ≡ lines_without name.now (lines_of s held.old added.old) }
{
    drop_named(held, 0, name);
    drop_named(added, 0, name);
}

/// Sets the value and the spelling of the first of the added lines of the name, and removes further ones, or adds a line.
fn set_added(
    alloc: Global,
    added: &mut List<Line>,
    name: &[u8],
    value: Text,
) -> Result<(), NoMemory>
    ensures ok { OnOk result (added.new ≡ lines_with name.now value added.old) }
    ensures err { OnErr result (added.new ≡ added.old) }
{
    let spelled = Text::of(alloc, name)?;
    match position_of(added.items(), name) {
        None => {
            added.push(alloc, (spelled, value))?;
            Ok(())
        }
        Some(at) => {
            let (_, _) = added.replace(at, (spelled, value));
            drop_named(added, at + 1, name);
            Ok(())
        }
    }
}

/// Sets the value and the spelling of the first line of the name, and removes further ones, or adds a line.
fn set_line(
    alloc: Global,
    held: &mut List<Held>,
    added: &mut List<Line>,
    name: &[u8],
    value: Text,
) -> Result<(), NoMemory>
    ensures ok { OnOk result ((s : List ℕ) → lines_of s held.new added.new ≡ lines_with name.now value (lines_of s held.old added.old)) }
    ensures err { OnErr result ((held.new ≡ held.old) × (added.new ≡ added.old)) }
{
    match position_of(held.items(), name) {
        None => {
            set_added(alloc, added, name, value)?;
            Ok(())
        }
        Some(at) => {
            let spelled = Text::of(alloc, name)?;
            let (_, _) = held.replace(at, (spelled, HeldValue::Edited(Edit::of(value))));
            drop_named(held, at + 1, name);
            drop_named(added, 0, name);
            Ok(())
        }
    }
}

/// Inserts a line before all others.
fn push_line(
    alloc: Global,
    held: &mut List<Held>,
    added: &mut List<Line>,
    name: &[u8],
    value: Text,
) -> Result<(), NoMemory>
    ensures ok { OnOk result ((s : List ℕ) → lines_of s held.new added.new ≡ (name.now, value) ∷ lines_of s held.old added.old) }
    ensures err { OnErr result ((held.new ≡ held.old) × (added.new ≡ added.old)) }
{
    let name = Text::of(alloc, name)?;
    if held.items().is_empty() {
        added.insert(alloc, 0, (name, value))?;
    } else {
        held.insert(alloc, 0, (name, HeldValue::Edited(Edit::of(value))))?;
    }
    Ok(())
}

impl Msg {
    /// A message without lines.
    pub fn new(start: Start, body: Text) -> Msg
        ensures { result ≡ record { start = start; lines = []; body = body } }
    {
        Msg::of(start, List::new(), body)
    }

    /// A message of these parts, taken as they are.
    pub fn of(start: Start, lines: List<Line>, body: Text) -> Msg
        ensures { result ≡ record { start = start; lines = lines; body = body } }
    {
        Msg {
            start,
            received: Text::new(),
            held: List::new(),
            added: lines,
            body: HeldValue::Edited(Edit::of(body)),
            identifiers: None,
        }
    }

    /// A message that was received as these bytes: its lines and its body, which are places among them or edits; and what its five fields say.
    pub fn held(
        start: Start,
        received: Text,
        held: List<Held>,
        body: HeldValue,
        identifiers: Box<OwnedIdentifiers>,
    ) -> Msg
        requires { identifiers_in (held_lines received held) ≡ Some identifiers.value }
        ensures { result ≡ record { start = start; lines = held_lines received held; body = value_of received body } }
    {
        Msg {
            start,
            received,
            held,
            added: List::new(),
            body,
            identifiers: Some(identifiers),
        }
    }

    /// The start line.
    pub fn start(&self) -> &Start
        ensures { result.now ≡ self.now.start }
    {
        &self.start
    }

    /// The body.
    pub fn body(&self) -> &[u8]
        ensures { result.now ≡ self.now.body }
    {
        value_of(self.received.bytes(), &self.body)
    }

    /// The header lines.
    pub fn lines(&self) -> Lines<'_>
        ensures { result.values ≡ self.now.lines }
    {
        Lines::of(self.received.bytes(), self.held.items(), self.added.items())
    }

    /// The received bytes, of a message that `read` or `read_held` returned; none of one that the server built.
    pub fn received(&self) -> &[u8] {
        self.received.bytes()
    }

    /// What the five fields say of the message's transaction and its dialog; None exactly where one of them cannot be read. For a message that was read and not edited it is kept,
    /// for another one the fields are read. It allocates nothing.
    pub fn identifiers(&self) -> Option<Identifiers<'_>>
        ensures { result ≡ identifiers_in self.now.lines }
    {
        match &self.identifiers {
            None => identifiers_in(&self.lines()),
            Some(kept) => Some(kept.borrow()),
        }
    }

    /// The place of the value of a line in `received`; None where the line is an edit or does not exist. What is at that place is the value: see `Lines::span`.
    pub fn span(&self, line: usize) -> Option<Span> {
        self.lines().span(line)
    }

    /// The value of the first line of the name, which is compared without case; None where there is none.
    pub fn first(&self, name: &[u8]) -> Option<&[u8]>
        ensures { option_copied result ≡ first_value name.now self.now.lines }
    {
        first_of(&self.lines(), name)
    }

    /// The values of a listed name (RFC 3261 §7.3.1): those of all its lines, separated by commas.
    ///
    /// # Errors
    ///
    /// Out of memory only.
    pub fn values(&self, alloc: Global, name: &[u8]) -> Result<List<Text>, NoMemory>
        ensures { IfOk result (λ vs. vs ≡ values_named Plain name.now self.now.lines) }
    {
        values_named(alloc, Mode::Plain, &self.lines(), name)
    }

    /// Adds a line at the end.
    ///
    /// # Errors
    ///
    /// Out of memory only; the message is then as before, and the value is dropped.
    pub fn add(&mut self, alloc: Global, name: &[u8], value: Text) -> Result<(), NoMemory>
        ensures ok { OnOk result (self.new ≡ record self.old { lines = self.old.lines ++ (name.now, value) ∷ [] }) }
        ensures err { OnErr result (self.new ≡ self.old) }
    {
        let name = Text::of(alloc, name)?;
        self.identifiers = None;
        self.added.push(alloc, (name, value))?;
        Ok(())
    }

    /// Inserts a line before all others.
    ///
    /// # Errors
    ///
    /// Out of memory only; the message is then as before, and the value is dropped.
    pub fn push_front(&mut self, alloc: Global, name: &[u8], value: Text) -> Result<(), NoMemory>
        ensures ok { OnOk result (self.new ≡ record self.old { lines = (name.now, value) ∷ self.old.lines }) }
        ensures err { OnErr result (self.new ≡ self.old) }
    {
        self.identifiers = None;
        push_line(alloc, &mut self.held, &mut self.added, name, value)
    }

    /// Removes the lines of the name.
    pub fn drop_all(&mut self, name: &[u8])
        ensures { self.new ≡ record self.old { lines = lines_without name.now self.old.lines } }
    {
        self.identifiers = None;
        drop_lines(&mut self.held, &mut self.added, name);
    }

    /// Sets the value and the spelling of the first line of the name, and removes further ones, or adds a line at the end.
    ///
    /// # Errors
    ///
    /// Out of memory only; the message is then as before, and the value is dropped.
    pub fn set(&mut self, alloc: Global, name: &[u8], value: Text) -> Result<(), NoMemory>
        ensures ok { OnOk result (self.new ≡ record self.old { lines = lines_with name.now value self.old.lines }) }
        ensures err { OnErr result (self.new ≡ self.old) }
    {
        self.identifiers = None;
        set_line(alloc, &mut self.held, &mut self.added, name, value)
    }
}
