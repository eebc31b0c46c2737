//! A text as lines `x=value` (RFC 4566 §5).
ghost use Rattle.std.specs.Prelude.{◌≡◌, IfOk};
ghost use Rattle.std.specs.Option.{option_copied};
ghost use Rattle.mmtel_base.specs.Scanning.{split_once_at};
ghost use Rattle.mmtel_sdp.specs.Lines.{text_from, line_of, line_at, lines_of};
ghost use Rattle.mmtel_sdp.specs.Outcome.{IsResult};

use crate::faults::SdpFault;
use mmtel_base::{List, NoMemory, Text, split_once_at};
use std::alloc::Global;

/// A line `x=value`: its letter and its value.
#[derive(Drop)]
pub struct Line {
    pub letter: u8,
    pub value: Text,
}

/// A line without the CR at its end; None where a CR occurs elsewhere in it.
fn line_text(raw: &[u8]) -> Option<&[u8]>
    ensures { option_copied result ≡ text_from (split_once_at 13 raw.now) raw.now }
{
    match split_once_at(b'\r', raw) {
        None => Some(raw),
        Some((front, rest)) => { if rest.is_empty() { Some(front) } else { None } }
    }
}

fn split_letter(alloc: Global, text: &[u8]) -> Result<Option<Line>, NoMemory>
    ensures { IfOk result (λ line. line ≡ line_of text.now) }
{
    match text {
        [letter, b'=', value @ ..] => Ok(Some(Line {
            letter: *letter,
            value: Text::of(alloc, value)?,
        })),
        _ => Ok(None),
    }
}

/// What is between two LFs, as a line.
#[tactic(auto, unfolding(crate::specs::Lines::line_at))]
fn read_line(alloc: Global, raw: &[u8]) -> Result<Option<Line>, NoMemory>
    ensures { IfOk result (λ line. line ≡ line_at raw.now) }
{
    match line_text(raw) {
        None => Ok(None),
        Some(text) => split_letter(alloc, text),
    }
}

/// The lines of a body, each of which is ended by LF or CRLF.
pub fn read_lines(alloc: Global, bytes: &[u8]) -> Result<List<Line>, SdpFault>
    ensures { IsResult result (lines_of bytes.now) }
{
    let mut lines = List::new();
    let mut rest = bytes;
    'lines: while let Some((raw, after)) = split_once_at(b'\n', rest) {
        match read_line(alloc, raw)? {
            Some(line) => lines.push(alloc, line)?,
            None => return Err(SdpFault::NotSdp),
        }
        rest = after;
    }
    if rest.is_empty() {
        Ok(lines)
    } else {
        Err(SdpFault::NotSdp)
    }
}
