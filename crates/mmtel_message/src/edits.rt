//! Texts that replace received bytes, and where their pieces are among these.
ghost use Rattle.std.specs.Prelude.{◌≡◌, ◌++◌, IfOk, OnOk, nat_le};
ghost use Rattle.mmtel_message.specs.Held.{bytes_at, value_of};

use crate::held::{HeldValue, Span, bytes_at};
use mmtel_lex::{List, NoMemory, Text};
use std::alloc::Global;
use std::marker::Model;

/// A piece of an edit: where it begins in the edit, and the place among the received bytes that it was taken from.
#[derive(Clone, Copy)]
struct Piece {
    at: usize,
    span: Span,
}

impl Piece {
    /// The place among the received bytes of a part of the edit, where it lies within this piece.
    fn span_of(self, part: Span) -> Option<Span> {
        let skipped = part.from.checked_sub(self.at)?;
        let end = skipped.checked_add(part.len)?;
        if end > self.span.len {
            return None;
        }
        let from = self.span.from.checked_add(skipped)?;
        Some(Span {
            from,
            len: part.len,
        })
    }

    /// What remains of the piece where that many bytes at the start of the edit are removed.
    fn after_prefix(self, prefix: usize) -> Piece {
        let skipped = prefix.saturating_sub(self.at).min(self.span.len);
        Piece {
            at: self.at.saturating_sub(prefix),
            span: Span {
                from: self.span.from.saturating_add(skipped),
                len: self.span.len.saturating_sub(skipped),
            },
        }
    }
}

/// A text that replaces received bytes, and which pieces of it were taken from these, in order. In contracts it is the text.
///
/// What the pieces say is looked up and compared, so nothing depends on it.
#[derive(Drop)]
pub struct Edit {
    text: Text,
    pieces: List<Piece>,
}

impl Model for Edit {
    ghost use Rattle.std.specs.Prelude.{List, ℕ};

    ghost Value = { List ℕ };

    ghost view = { λ e. e.text };
}

impl Edit {
    /// A text of which no piece was taken from the received bytes.
    pub fn of(text: Text) -> Edit
        ensures { result ≡ text }
    {
        Edit {
            text,
            pieces: List::new(),
        }
    }

    /// Its bytes.
    pub fn bytes(&self) -> &[u8]
        ensures { result.now ≡ self.now }
    {
        self.text.bytes()
    }

    /// Appends a piece, which was taken from that place on, after a gap.
    pub fn join(
        &mut self,
        alloc: Global,
        gap: &[u8],
        piece: &[u8],
        from: usize,
    ) -> Result<(), NoMemory>
        ensures { OnOk result (self.new ≡ self.old ++ gap.now ++ piece.now) }
    {
        self.text.push(alloc, gap)?;
        let at = self.text.bytes().len();
        self.text.push(alloc, piece)?;
        let place = Span {
            from,
            len: piece.len(),
        };
        self.pieces.push(alloc, Piece { at, span: place })?;
        Ok(())
    }

    /// The place that a part of it was taken from, if the part lies within one piece.
    fn span_of(&self, part: Span) -> Option<Span> {
        let pieces = self.pieces.items();
        let before = pieces.partition_point(
            |piece: &Piece| -> bool
                ensures { result ≡ nat_le piece.now.at part.from }
            { piece.at <= part.from },
        );
        let piece = pieces[..before].last()?;
        piece.span_of(part)
    }

    /// What remains of the pieces where that many bytes at the start are removed.
    fn pieces_after_prefix(&self, alloc: Global, prefix: usize) -> Result<List<Piece>, NoMemory> {
        let pieces = self.pieces.items();
        let mut left = List::with_capacity(alloc, pieces.len())?;
        for piece in pieces {
            left.push(alloc, piece.after_prefix(prefix))?;
        }
        Ok(left)
    }

    /// A part of it, with its pieces.
    pub fn part(&self, alloc: Global, part: Span) -> Result<Edit, NoMemory>
        ensures { IfOk result (λ e. e ≡ bytes_at self.now part) }
    {
        let text = Text::of(alloc, bytes_at(self.bytes(), part))?;
        let pieces = self.pieces_after_prefix(alloc, part.from)?;
        Ok(Edit { text, pieces })
    }

    /// A part of it: its place among the received bytes, if it was taken from there in one piece, otherwise an edit.
    pub fn spanned_part(
        &self,
        alloc: Global,
        received: &[u8],
        part: Span,
    ) -> Result<HeldValue, NoMemory>
        ensures { IfOk result (λ v. value_of received.now v ≡ bytes_at self.now part) }
    {
        let bytes = bytes_at(self.bytes(), part);
        match self.span_of(part) {
            Some(place) if bytes_at(received, place) == bytes => Ok(HeldValue::Received(place)),
            _ => Ok(HeldValue::Edited(Edit::of(Text::of(alloc, bytes)?))),
        }
    }
}
