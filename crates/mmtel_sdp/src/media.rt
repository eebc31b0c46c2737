//! The media of a session description (RFC 4566 §5.14 and §6).
ghost use Rattle.std.specs.Prelude.{◌≡◌, ◌<◌, ◌∷◌, [], None, Some, IfOk, IfSome, MatchOption, length};
ghost use Rattle.std.specs.List.{list_all};
ghost use Rattle.std.specs.Option.{option_copied};
ghost use Rattle.mmtel_sdp.specs.Sdp.{before_media, sections, words, is_filled, media_line, first_of, map_of, map_in, map_under, direction_word, direction_in, medium_of};
ghost use Rattle.mmtel_sdp.specs.Sdp.{media_of, first_word, is_audio, under_audio, direction_of};

use crate::lines::Line;
use crate::values::{Direction, Medium};
use mmtel_base::{List, NoMemory, Text, skip_byte, skip_text, split_once_at};
use std::alloc::Global;

/// The lines before the first `m=` line.
pub fn before_media(lines: &[Line]) -> &[Line]
    ensures { result.now ≡ before_media lines.now }
{
    for (i, line) in lines.iter().enumerate() {
        if line.letter == b'm' {
            return &lines[..i];
        }
    }
    lines
}

/// The first word, and what follows the blank after it; None where there is one word.
fn next_word(text: &[u8]) -> Option<(&[u8], &[u8])>
    ensures words { MatchOption result (words text.now ≡ text.now ∷ []) (λ x. words text.now ≡ x.0.now ∷ words x.1.now) }
    ensures shorter { IfSome result (λ x. length x.1.now < length text.now) }
{
    split_once_at(b' ', text)
}

/// The first word.
fn first_word(text: &[u8]) -> &[u8]
    ensures { result.now ≡ first_word (words text.now) }
{
    match next_word(text) {
        None => text,
        Some((word, _)) => word,
    }
}

/// Whether no word is empty.
fn are_filled(text: &[u8]) -> bool
    ensures { result ≡ list_all is_filled (words text.now) }
{
    let mut rest = text;
    'words: while let Some((word, after)) = next_word(rest) {
        if word.is_empty() {
            return false;
        }
        rest = after;
    }
    !rest.is_empty()
}

/// What an `m=` line says.
#[derive(Clone, Copy)]
struct MediaLine<'a> {
    kind: &'a [u8],
    port: &'a [u8],
    proto: &'a [u8],
    format: &'a [u8],
}

#[tactic(auto, unfolding(crate::specs::Sdp::media_line))]
fn media_line(head: &[u8]) -> Option<MediaLine<'_>>
    ensures { MatchOption result (media_line head.now ≡ None)
        (λ line. media_line head.now ≡ Some (record { kind = line.kind.now; port = line.port.now; proto = line.proto.now; format = line.format.now })) }
{
    if !are_filled(head) {
        return None;
    }
    let (kind, rest) = next_word(head)?;
    let (port, rest) = next_word(rest)?;
    let (proto, formats) = next_word(rest)?;
    Some(MediaLine {
        kind,
        port,
        proto,
        format: first_word(formats),
    })
}

/// The rtpmap, where it is of the format.
#[tactic(auto, unfolding(crate::specs::Sdp::map_of))]
fn map_of<'a>(format: &[u8], map: &'a [u8]) -> Option<&'a [u8]>
    ensures { option_copied result ≡ map_of format.now map.now }
{
    match skip_text(format, map) {
        None => None,
        Some(rest) => match skip_byte(b' ', rest) {
            None => None,
            Some(_) => Some(map),
        },
    }
}

/// The rtpmap of the format that a line gives.
#[tactic(auto, unfolding(crate::specs::Sdp::map_in))]
fn map_in<'a>(format: &[u8], line: &'a Line) -> Option<&'a [u8]>
    ensures { option_copied result ≡ map_in format.now line.now }
{
    if line.letter != b'a' {
        return None;
    }
    match skip_text(b"rtpmap:", line.value.bytes()) {
        None => None,
        Some(map) => map_of(format, map),
    }
}

/// The first rtpmap of the format; nothing where there is none.
fn map_under<'a>(format: &[u8], lines: &'a [Line]) -> &'a [u8]
    ensures { result.now ≡ map_under format.now lines.now }
{
    for line in lines {
        if let Some(map) = map_in(format, line) {
            return map;
        }
    }
    &[]
}

#[tactic(auto, unfolding(crate::specs::Sdp::direction_word))]
fn direction_word(value: &[u8]) -> Option<Direction>
    ensures { result ≡ direction_word value.now }
{
    if value == b"sendrecv".as_slice() {
        Some(Direction::SendRecv)
    } else if value == b"sendonly".as_slice() {
        Some(Direction::SendOnly)
    } else if value == b"recvonly".as_slice() {
        Some(Direction::RecvOnly)
    } else if value == b"inactive".as_slice() {
        Some(Direction::Inactive)
    } else {
        None
    }
}

fn direction_in(line: &Line) -> Option<Direction>
    ensures { result ≡ direction_in line.now }
{
    if line.letter != b'a' {
        return None;
    }
    direction_word(line.value.bytes())
}

/// The first direction.
fn first_direction(lines: &[Line]) -> Option<Direction>
    ensures { result ≡ first_of direction_in lines.now }
{
    for line in lines {
        if let Some(direction) = direction_in(line) {
            return Some(direction);
        }
    }
    None
}

fn is_audio(head: &[u8]) -> bool
    ensures { result ≡ is_audio (first_word (words head.now)) }
{
    first_word(head) == b"audio".as_slice()
}

/// The lines after the `m=` line of the first audio medium.
fn under_audio(lines: &[Line]) -> &[Line]
    ensures { result.now ≡ under_audio (sections lines.now) }
{
    for (i, line) in lines.iter().enumerate() {
        if line.letter == b'm' && is_audio(line.value.bytes()) {
            return before_media(&lines[i + 1..]);
        }
    }
    &[]
}

/// The direction of the first audio medium.
pub fn direction(lines: &[Line]) -> Direction
    ensures { result ≡ direction_of lines.now }
{
    match first_direction(under_audio(lines)) {
        Some(direction) => direction,
        None => match first_direction(before_media(lines)) {
            Some(direction) => direction,
            None => Direction::SendRecv,
        },
    }
}

/// A medium, from the value of its `m=` line and the lines after it.
fn medium(alloc: Global, head: &[u8], under: &[Line]) -> Result<Option<Medium>, NoMemory>
    ensures { IfOk result (λ medium. medium ≡ medium_of (record { head = head.now; under = under.now })) }
{
    match media_line(head) {
        None => Ok(None),
        Some(line) => Ok(Some(Medium {
            kind: Text::of(alloc, line.kind)?,
            proto: Text::of(alloc, line.proto)?,
            format: Text::of(alloc, line.format)?,
            map: Text::of(alloc, map_under(line.format, under))?,
        })),
    }
}

/// The media; None where an `m=` line does not have that form.
pub fn media(alloc: Global, lines: &[Line]) -> Result<Option<List<Medium>>, NoMemory>
    ensures { IfOk result (λ media. media ≡ media_of (sections lines.now)) }
{
    let mut media = List::new();
    for (i, line) in lines.iter().enumerate() {
        if line.letter == b'm' {
            match medium(alloc, line.value.bytes(), before_media(&lines[i + 1..]))? {
                None => return Ok(None),
                Some(medium) => media.push(alloc, medium)?,
            }
        }
    }
    Ok(Some(media))
}
