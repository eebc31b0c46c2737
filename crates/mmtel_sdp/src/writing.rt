//! Writing the lines of the mixer's texts.
ghost use Rattle.std.specs.Prelude.{◌≡◌, ◌++◌, OnOk, IfOk, decimal};
ghost use Rattle.std.specs.Str.{byte};
ghost use Rattle.mmtel_sdp.specs.Lines.{line_text_of, text_of};
ghost use Rattle.mmtel_sdp.specs.Mixer.{line, ip_text, session_lines, media_value, direction_text, map_lines, accepted_lines, refused_lines};

use crate::values::{Direction, Medium, Mixer};
use mmtel_base::{NoMemory, Text};
use std::alloc::Global;

/// Adds a line, with CRLF.
pub fn add_line(alloc: Global, out: &mut Text, letter: u8, value: &[u8]) -> Result<(), NoMemory>
    ensures { OnOk result (out.new ≡ out.old ++ line_text_of (line letter value.now)) }
{
    out.push(alloc, &[letter, b'='])?;
    out.push(alloc, value)?;
    out.push(alloc, b"\r\n")
}

/// An IPv4 address in dotted decimal.
#[tactic(auto, unfolding(crate::specs::Mixer::ip_text))]
fn ip_text(alloc: Global, ip: [u8; 4]) -> Result<Text, NoMemory>
    ensures { IfOk result (λ text. text ≡ ip_text ip) }
{
    let mut text = Text::new();
    text.push(alloc, ip[0].to_string(alloc)?.as_bytes())?;
    text.push(alloc, b".")?;
    text.push(alloc, ip[1].to_string(alloc)?.as_bytes())?;
    text.push(alloc, b".")?;
    text.push(alloc, ip[2].to_string(alloc)?.as_bytes())?;
    text.push(alloc, b".")?;
    text.push(alloc, ip[3].to_string(alloc)?.as_bytes())?;
    Ok(text)
}

/// The lines `v=`, `o=`, `s=`, `c=` and `t=` (RFC 4566 §5.1 to §5.9).
pub fn session_lines(alloc: Global, mixer: Mixer) -> Result<Text, NoMemory>
    ensures { IfOk result (λ text. text ≡ text_of (session_lines mixer)) }
{
    let ip = ip_text(alloc, mixer.ip)?;
    let mut origin = Text::of(alloc, b"mixer 1 1 IN IP4 ")?;
    origin.push(alloc, ip.bytes())?;
    let mut connection = Text::of(alloc, b"IN IP4 ")?;
    connection.push(alloc, ip.bytes())?;
    let mut out = Text::new();
    add_line(alloc, &mut out, b'v', b"0")?;
    add_line(alloc, &mut out, b'o', origin.bytes())?;
    add_line(alloc, &mut out, b's', b"-")?;
    add_line(alloc, &mut out, b'c', connection.bytes())?;
    add_line(alloc, &mut out, b't', b"0 0")?;
    Ok(out)
}

/// The value of an `m=` line.
#[tactic(auto, unfolding(crate::specs::Mixer::media_value))]
fn media_value(
    alloc: Global,
    kind: &[u8],
    port: &[u8],
    proto: &[u8],
    format: &[u8],
) -> Result<Text, NoMemory>
    ensures { IfOk result (λ text. text ≡ media_value kind.now port.now proto.now format.now) }
{
    let mut value = Text::of(alloc, kind)?;
    value.push(alloc, b" ")?;
    value.push(alloc, port)?;
    value.push(alloc, b" ")?;
    value.push(alloc, proto)?;
    value.push(alloc, b" ")?;
    value.push(alloc, format)?;
    Ok(value)
}

/// Adds an `m=` line.
pub fn add_media_line(
    alloc: Global,
    out: &mut Text,
    kind: &[u8],
    port: u16,
    proto: &[u8],
    format: &[u8],
) -> Result<(), NoMemory>
    ensures { OnOk result (out.new ≡ out.old ++ line_text_of (line (byte "m") (media_value kind.now (decimal port) proto.now format.now))) }
{
    let port = port.to_string(alloc)?;
    let value = media_value(alloc, kind, port.as_bytes(), proto, format)?;
    add_line(alloc, out, b'm', value.bytes())
}

#[tactic(auto, unfolding(crate::specs::Mixer::direction_text))]
fn direction_text(direction: Direction) -> &'static [u8]
    ensures { result.now ≡ direction_text direction }
{
    match direction {
        Direction::SendRecv => b"sendrecv",
        Direction::SendOnly => b"sendonly",
        Direction::RecvOnly => b"recvonly",
        Direction::Inactive => b"inactive",
    }
}

/// Adds the line of a direction.
pub fn add_direction(alloc: Global, out: &mut Text, direction: Direction) -> Result<(), NoMemory>
    ensures { OnOk result (out.new ≡ out.old ++ line_text_of (line (byte "a") (direction_text direction))) }
{
    add_line(alloc, out, b'a', direction_text(direction))
}

/// Adds the line of an rtpmap, if there is one.
fn add_map(alloc: Global, out: &mut Text, map: &[u8]) -> Result<(), NoMemory>
    ensures { OnOk result (out.new ≡ out.old ++ text_of (map_lines map.now)) }
{
    match map {
        [] => Ok(()),
        _ => {
            let mut value = Text::of(alloc, b"rtpmap:")?;
            value.push(alloc, map)?;
            add_line(alloc, out, b'a', value.bytes())
        }
    }
}

/// Adds the lines of the medium that the mixer accepts.
pub fn add_accepted(
    alloc: Global,
    out: &mut Text,
    port: u16,
    direction: Direction,
    medium: &Medium,
) -> Result<(), NoMemory>
    ensures { OnOk result (out.new ≡ out.old ++ text_of (accepted_lines port direction medium.now)) }
{
    add_media_line(
        alloc,
        out,
        medium.kind.bytes(),
        port,
        medium.proto.bytes(),
        medium.format.bytes(),
    )?;
    add_map(alloc, out, medium.map.bytes())?;
    add_direction(alloc, out, direction)
}

/// Adds the line of a medium that the mixer rejects: its port is 0 (RFC 3264 §6).
pub fn add_refused(alloc: Global, out: &mut Text, medium: &Medium) -> Result<(), NoMemory>
    ensures { OnOk result (out.new ≡ out.old ++ text_of (refused_lines medium.now)) }
{
    add_media_line(
        alloc,
        out,
        medium.kind.bytes(),
        0,
        medium.proto.bytes(),
        medium.format.bytes(),
    )
}
