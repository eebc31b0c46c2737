//! Splitting a message into lines.
ghost use Rattle.std.specs.Prelude.{◌≡◌, ◌∷◌, ◌++◌, ◌+◌, ◌≤◌, true, false, Some, length, map, take, drop, reverse, IfOk, IfSome, MatchOption, OnOk};
ghost use Rattle.mmtel_base.specs.Classes.{IsAll, Stops};
ghost use Rattle.mmtel_base.specs.Scanning.{without_trailing};
ghost use Rattle.mmtel_base.specs.declared.classes.Class.TheVariants.{Blank};
ghost use Rattle.mmtel_message.specs.Held.{bytes_at, value_of};
ghost use Rattle.mmtel_message.specs.Spans.{IsBehind, IsWithin, continues, rest_at};
ghost use Rattle.mmtel_message.specs.Lines.{begins_with_break, first_break, last_line_end, whole_end, width, split, logical_lines, logical_lines_from, starts_blank};

use crate::edits::Edit;
use crate::held::{HeldValue, Span, bytes_at};
use memchr::memchr;
use mmtel_base::{Class, split_run, trim_end};
use mmtel_lex::{List, NoMemory, Text};
use std::alloc::Global;

/// For this many lines there is capacity from the start: few messages have more, and a block of this size is quickly allocated again.
const USUAL_LINES: usize = 14;

/// What separates parts of a message: the end of a line, or of the head.
#[derive(Clone, Copy)]
pub enum Break {
    Line,
    Head,
}

impl Break {
    /// Whether the bytes begin with it.
    pub fn is_first(self, bytes: &[u8]) -> bool
        ensures { result ≡ begins_with_break self bytes.now }
    {
        match self {
            Break::Line => matches!(bytes, [b'\r', b'\n', ..]),
            Break::Head => matches!(bytes, [b'\r', b'\n', b'\r', b'\n', ..]),
        }
    }
}

/// The first place where it occurs.
pub fn break_position(separator: Break, bytes: &[u8]) -> Option<usize>
    ensures place { result ≡ first_break separator bytes.now }
    ensures within { IfSome result (λ n. n + width separator ≤ length bytes.now) }
{
    let mut from = 0;
    'ends: while let Some(skipped) = memchr(b'\r', &bytes[from..]) {
        let at = from + skipped;
        if separator.is_first(&bytes[at..]) {
            return Some(at);
        }
        from = at + 1;
    }
    None
}

/// The last place where a line ends.
fn last_line_end(bytes: &[u8]) -> Option<usize>
    ensures place { result ≡ last_line_end bytes.now }
    ensures within { IfSome result (λ n. n ≤ length bytes.now) }
{
    let mut found = None;
    for i in 0..bytes.len() {
        if Break::Line.is_first(&bytes[i..]) {
            found = Some(i);
        }
    }
    found
}

/// Where the last complete line ends: at the end of the head, or else at the last line end.
pub fn whole_end(bytes: &[u8]) -> Option<usize>
    ensures place { result ≡ whole_end bytes.now }
    ensures within { IfSome result (λ n. n ≤ length bytes.now) }
{
    match break_position(Break::Head, bytes) {
        Some(at) => Some(at),
        None => last_line_end(bytes),
    }
}

/// The line that begins at a place, and where the next one begins, if a line end comes.
fn next_line(head: &[u8], from: usize) -> (Span, Option<usize>)
    requires { from ≤ length head.now }
    ensures lines { split (drop from head.now) ≡ bytes_at head.now result.0 ∷ rest_at head.now result.1 }
    ensures within { result.0.from + result.0.len ≤ length head.now }
    ensures later { IfSome result.1 (λ n. IsBehind from head.now n) }
{
    match break_position(Break::Line, &head[from..]) {
        None => {
            let len = head.len() - from;
            (Span { from, len }, None)
        }
        Some(len) => (Span { from, len }, Some(from + len + 2)),
    }
}

/// Whether the line begins with a blank.
fn starts_blank(line: &[u8]) -> bool
    ensures { result ≡ starts_blank line.now }
{
    match line {
        [] => false,
        [first, ..] => Class::Blank.has(*first),
    }
}

/// Where the next line begins, if it continues the one before.
fn next_if_folded(head: &[u8], next: Option<usize>) -> Option<usize>
    requires { IfSome next (λ n. n ≤ length head.now) }
    ensures { MatchOption result (continues head.now next ≡ false) (λ n. (next ≡ Some n) × (continues head.now next ≡ true)) }
{
    match next {
        Some(from) if starts_blank(&head[from..]) => Some(from),
        _ => None,
    }
}

/// Appends to a line a gap of blanks and a piece, which was taken from that place on, and leaves no blank at the end of the line.
fn add_trimmed(
    alloc: Global,
    line: &mut Edit,
    gap: &[u8],
    piece: &[u8],
    from: usize,
) -> Result<(), NoMemory>
    requires gap { IsAll Blank gap.now }
    requires end { Stops Blank (reverse line.old) }
    ensures { OnOk result (line.new ≡ without_trailing Blank (line.old ++ gap.now ++ piece.now)) }
{
    let kept = trim_end(Class::Blank, piece);
    if kept.is_empty() {
        return Ok(());
    }
    line.join(alloc, gap, kept, from)
}

/// The text of a line with those that continue it, the first of which begins at a place, and where the line after them begins.
fn logical_line(
    alloc: Global,
    head: &[u8],
    first: Span,
    next: usize,
) -> Result<(Edit, Option<usize>), NoMemory>
    requires { next ≤ length head.now }
    ensures line { IfOk result (λ x. logical_lines_from (bytes_at head.now first) (split (drop next head.now)) ≡ x.0 ∷ logical_lines (rest_at head.now x.1)) }
    ensures later { IfOk result (λ x. IfSome x.1 (λ n. (next ≤ n) × (n ≤ length head.now))) }
{
    // The line so far in three parts: a prefix without a blank at its end, the gap after it, and the piece read last,
    // whose blanks at its end are removed where another line continues it. The prefix only grows, so no byte is added twice.
    let mut front = Edit::of(Text::new());
    let mut gap: &[u8] = b"";
    let mut piece = bytes_at(head, first);
    let mut taken = first.from;
    let mut rest = Some(next);
    'lines: while let Some(from) = next_if_folded(head, rest) {
        let (line, after) = next_line(head, from);
        add_trimmed(alloc, &mut front, gap, piece, taken)?;
        gap = b" ";
        piece = split_run(Class::Blank, bytes_at(head, line)).1;
        taken = (line.from + line.len).saturating_sub(piece.len());
        rest = after;
    }
    front.join(alloc, gap, piece, taken)?;
    Ok((front, rest))
}

/// The line that begins at a place, with those that continue it, and where the line after them begins. It is a place among the bytes where nothing continues it.
fn whole_line(
    alloc: Global,
    head: &[u8],
    from: usize,
) -> Result<(HeldValue, Option<usize>), NoMemory>
    requires { from ≤ length head.now }
    ensures line { IfOk result (λ x. logical_lines (split (drop from head.now)) ≡ value_of head.now x.0 ∷ logical_lines (rest_at head.now x.1)) }
    ensures within { IfOk result (λ x. IsWithin head.now x.0) }
    ensures later { IfOk result (λ x. IfSome x.1 (λ n. IsBehind from head.now n)) }
{
    let (line, after) = next_line(head, from);
    match next_if_folded(head, after) {
        None => Ok((HeldValue::Received(line), after)),
        Some(next) => {
            let (edit, after) = logical_line(alloc, head, line, next)?;
            Ok((HeldValue::Edited(edit), after))
        }
    }
}

/// The lines before a place of the bytes, each with those that continue it: the place of a line among the bytes, or the text that it forms with those that continue it.
pub fn lines(alloc: Global, bytes: &[u8], end: usize) -> Result<List<HeldValue>, NoMemory>
    requires { end ≤ length bytes.now }
    ensures { IfOk result (λ ls. map (value_of bytes.now) ls ≡ logical_lines (split (take end bytes.now))) }
{
    let head = &bytes[..end];
    let mut lines = List::with_capacity(alloc, USUAL_LINES)?;
    let mut rest = Some(0);
    'lines: while let Some(from) = rest {
        let (line, after) = whole_line(alloc, head, from)?;
        lines.push(alloc, line)?;
        rest = after;
    }
    Ok(lines)
}
