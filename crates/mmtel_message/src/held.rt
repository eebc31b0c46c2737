//! How a message is held: the received bytes, and for each line the place of its value among them, or an edit.
ghost use Rattle.std.specs.Prelude.{◌≡◌, ◌<◌, ◌≤◌, ◌+◌, ◌==◌, [], ◌∷◌, ◌++◌, Some, IfOk, IfSome, MatchOption, length, filter, map, take, drop, slice_get};
ghost use Rattle.std.specs.Option.{option_map};
ghost use Rattle.std.specs.Str.{str_eq_ignore_ascii_case};
ghost use Rattle.mmtel_message.specs.Held.{bytes_at, lines_of, span_at, span_of, value_of};
ghost use Rattle.mmtel_message.specs.Message.{lines_named};

use crate::edits::Edit;
use crate::messages::{Line, is_named};
use mmtel_lex::{NoMemory, Text};
use std::alloc::Global;
use std::marker::Model;

/// The place of a value among the received bytes.
#[derive(Clone, Copy, Debug, PartialEq, Eq)]
pub struct Span {
    /// Where it begins.
    pub from: usize,
    /// How many bytes it has.
    pub len: usize,
}

/// The value of a line: its place among the received bytes, or an edit.
#[derive(Drop)]
pub enum HeldValue {
    Received(Span),
    Edited(Edit),
}

/// A line that was received: its name and its value.
pub type Held = (Text, HeldValue);

/// The bytes at a place.
pub fn bytes_at(bytes: &[u8], span: Span) -> &[u8]
    ensures { result.now ≡ bytes_at bytes.now span }
{
    let from = span.from.min(bytes.len());
    let rest = &bytes[from..];
    &rest[..span.len.min(rest.len())]
}

/// The bytes of a value.
pub fn value_of<'a>(received: &'a [u8], value: &'a HeldValue) -> &'a [u8]
    ensures { result.now ≡ value_of received.now value.now }
{
    match value {
        HeldValue::Received(place) => bytes_at(received, *place),
        HeldValue::Edited(edit) => edit.bytes(),
    }
}

/// The place among the received bytes of a part of what is at a place there.
fn inner_span(span: Span, received: &[u8], part: Span) -> Span
    requires { part.from + part.len ≤ length (bytes_at received.now span) }
    ensures { bytes_at received.now result ≡ bytes_at (bytes_at received.now span) part }
{
    Span {
        from: span.from + part.from,
        len: part.len,
    }
}

/// A part of a value, at this place of the value's bytes: a place among the received bytes where the value is one.
pub fn part_of(
    alloc: Global,
    received: &[u8],
    value: &HeldValue,
    part: Span,
) -> Result<HeldValue, NoMemory>
    requires { part.from + part.len ≤ length (value_of received.now value.now) }
    ensures { IfOk result (λ v. value_of received.now v ≡ bytes_at (value_of received.now value.now) part) }
{
    match value {
        HeldValue::Received(place) => Ok(HeldValue::Received(inner_span(*place, received, part))),
        HeldValue::Edited(edit) => Ok(HeldValue::Edited(edit.part(alloc, part)?)),
    }
}

/// The same, as a line of a message keeps it: a place also where the part of an edit was taken from the received bytes in one piece.
pub fn spanned_part(
    alloc: Global,
    received: &[u8],
    value: &HeldValue,
    part: Span,
) -> Result<HeldValue, NoMemory>
    requires { part.from + part.len ≤ length (value_of received.now value.now) }
    ensures { IfOk result (λ v. value_of received.now v ≡ bytes_at (value_of received.now value.now) part) }
{
    match value {
        HeldValue::Received(place) => Ok(HeldValue::Received(inner_span(*place, received, part))),
        HeldValue::Edited(edit) => edit.spanned_part(alloc, received, part),
    }
}

/// The whole value, as a line of a message keeps it.
pub fn spanned_value(
    alloc: Global,
    received: &[u8],
    value: &HeldValue,
) -> Result<HeldValue, NoMemory>
    ensures { IfOk result (λ v. value_of received.now v ≡ value_of received.now value.now) }
{
    let len = value_of(received, value).len();
    spanned_part(alloc, received, value, Span { from: 0, len })
}

/// The place of a value among the received bytes; None for an edit.
pub fn span_of(value: &HeldValue) -> Option<Span>
    ensures { result ≡ span_of value.now }
{
    match value {
        HeldValue::Received(place) => Some(*place),
        HeldValue::Edited(_) => None,
    }
}

/// The first of these lines, from a place on, that has the name, and the place after it.
fn line_from<'a, V>(
    lines: &'a [(Text, V)],
    name: &[u8],
    from: usize,
) -> Option<(&'a (Text, V), usize)>
    ensures line { MatchOption result (filter (λ l. str_eq_ignore_ascii_case l.0 name.now) (drop from lines.now) ≡ [])
        (λ x. filter (λ l. str_eq_ignore_ascii_case l.0 name.now) (drop from lines.now) ≡
        x.0.now ∷ filter (λ l. str_eq_ignore_ascii_case l.0 name.now) (drop x.1 lines.now)) }
    ensures later { IfSome result (λ x. (from < x.1) × (x.1 ≤ length lines.now)) }
{
    for i in from..lines.len() {
        let line = &lines[i];
        if is_named(line.0.bytes(), name) {
            return Some((line, i + 1));
        }
    }
    None
}

/// A line that was found by its name, and the place after it.
#[derive(Clone, Copy)]
pub struct NamedLine<'a> {
    /// Its name, as it is spelled.
    pub name: &'a [u8],
    /// Its value.
    pub value: &'a [u8],
    /// The place after it, from which the search for a further one begins.
    pub next: usize,
}

/// The header lines of a message, in order.
#[derive(Drop)]
pub struct Lines<'a> {
    received: &'a [u8],
    held: &'a [Held],
    added: &'a [Line],
}

impl<'a> Model for Lines<'a> {
    ghost use Rattle.std.specs.Prelude.{map};
    ghost use Rattle.mmtel_message.specs.Held.{Lines, lines_of, span_of};

    ghost Value = { Lines };

    ghost view = { λ l. record {
      values = lines_of l.received.now l.held.now l.added.now;
      received = l.received.now;
      spans = map (λ h. span_of h.1) l.held.now;
    } };
}

impl<'a> Lines<'a> {
    /// These lines: received ones, whose values are places among these bytes or edits, and added ones.
    pub fn of(received: &'a [u8], held: &'a [Held], added: &'a [Line]) -> Lines<'a>
        ensures values { result.values ≡ lines_of received.now held.now added.now }
        ensures received { result.received ≡ received.now }
        ensures places { result.spans ≡ map (λ h. span_of h.1) held.now }
    {
        Lines {
            received,
            held,
            added,
        }
    }

    /// The received bytes, the received lines, and the added lines.
    pub(crate) fn parts(&self) -> (&'a [u8], &'a [Held], &'a [Line])
        ensures { self.now.values ≡ lines_of result.0.now result.1.now result.2.now }
    {
        (self.received, self.held, self.added)
    }

    /// The number of lines.
    pub fn len(&self) -> usize
        ensures { result ≡ length self.now.values }
    {
        self.held.len() + self.added.len()
    }

    /// The number of the empty line after them, where lines are counted from 1.
    pub fn end(&self) -> usize
        ensures { result ≡ length self.now.values + 1 }
    {
        self.held.len() + self.added.len() + 1
    }

    /// Whether there are no lines.
    pub fn is_empty(&self) -> bool
        ensures { result ≡ (length self.now.values == 0) }
    {
        self.len() == 0
    }

    fn item(&self, index: usize) -> (&'a [u8], &'a [u8])
        requires { index < length self.now.values }
        ensures { slice_get self.now.values index ≡ Some (result.0.now, result.1.now) }
    {
        if index < self.held.len() {
            let line = &self.held[index];
            return (line.0.bytes(), value_of(self.received, &line.1));
        }
        let line = &self.added[index - self.held.len()];
        (line.0.bytes(), line.1.bytes())
    }

    /// The name and the value of the line at a place.
    pub fn at(&self, index: usize) -> (&'a [u8], &'a [u8])
        requires { index < length self.now.values }
        ensures item { slice_get self.now.values index ≡ Some (result.0.now, result.1.now) }
        // So it is the first of those from there on, and the last of those up to there.
        ensures first { drop index self.now.values ≡ (result.0.now, result.1.now) ∷ drop (index + 1) self.now.values }
        ensures last { take (index + 1) self.now.values ≡ take index self.now.values ++ (result.0.now, result.1.now) ∷ [] }
    {
        self.item(index)
    }

    /// The first line of the name from a place on; the name is compared without case (RFC 3261 §7.3.1).
    pub fn next_named(&self, name: &[u8], from: usize) -> Option<NamedLine<'a>>
        ensures line { MatchOption result (lines_named name.now (drop from self.now.values) ≡ [])
            (λ l. lines_named name.now (drop from self.now.values) ≡ (l.name.now, l.value.now) ∷ lines_named name.now (drop l.next self.now.values)) }
        ensures later { IfSome result (λ l. (from < l.next) × (l.next ≤ length self.now.values)) }
    {
        match line_from(self.held, name, from) {
            Some((line, after)) => Some(NamedLine {
                name: line.0.bytes(),
                value: value_of(self.received, &line.1),
                next: after,
            }),
            None => {
                let received = self.held.len();
                match line_from(self.added, name, from.saturating_sub(received)) {
                    None => None,
                    Some((line, after)) => Some(NamedLine {
                        name: line.0.bytes(),
                        value: line.1.bytes(),
                        next: received + after,
                    }),
                }
            }
        }
    }

    /// The lines before this place.
    pub fn before(&self, index: usize) -> Lines<'a>
        requires { index ≤ length self.now.values }
        ensures { result.values ≡ take index self.now.values }
    {
        if index < self.held.len() {
            return Lines {
                received: self.received,
                held: &self.held[..index],
                added: &[],
            };
        }
        Lines {
            received: self.received,
            held: self.held,
            added: &self.added[..index - self.held.len()],
        }
    }

    /// The received bytes; none of a message that the server built.
    pub fn received(&self) -> &'a [u8]
        ensures { result.now ≡ self.now.received }
    {
        self.received
    }

    /// The place of the value of a line among the received bytes; None where the line is an edit or does not exist.
    pub fn span(&self, index: usize) -> Option<Span>
        ensures place { result ≡ span_at self.now.spans index }
        // The value is the bytes at that place.
        ensures value { IfSome result (λ p. option_map (λ l. l.1) (slice_get self.now.values index) ≡ Some (bytes_at self.now.received p)) }
    {
        if index < self.held.len() {
            return span_of(&self.held[index].1);
        }
        None
    }
}
