//! How a conference names itself, and the texts of its requests.
ghost use Rattle.std.specs.Prelude.{◌≡◌, IfOk};
ghost use Rattle.mmtel_participants.specs.Texts.{conference_from, conference_uri, contact_and_sdp_lines, contact_value, notify_lines, sdp_lines, sipfrag, subscription_state};

use mmtel_base::{List, NoMemory, Text, add_number};
use mmtel_message::{Line, OwnAddress, add_bytes, add_line};
use mmtel_types::RoomNo;
use std::alloc::Global;

/// The URI of a conference (RFC 4579 §4.4).
#[tactic(auto, unfolding(crate::specs::Texts::conference_uri))]
fn conference_uri(alloc: Global, sip: OwnAddress, room: RoomNo) -> Result<Text, NoMemory>
    ensures { IfOk result (λ t. t ≡ conference_uri sip room) }
{
    let mut out = Text::of(alloc, b"sip:room-")?;
    add_number(alloc, &mut out, room.0)?;
    out.push(alloc, b"@")?;
    out.push(alloc, sip.text())?;
    Ok(out)
}

/// The conference as From of an INVITE, with this tag.
#[tactic(auto, unfolding(crate::specs::Texts::conference_from))]
pub fn conference_from(
    alloc: Global,
    sip: OwnAddress,
    room: RoomNo,
    tag: &[u8],
) -> Result<Text, NoMemory>
    ensures { IfOk result (λ t. t ≡ conference_from sip room tag.now) }
{
    let uri = conference_uri(alloc, sip, room)?;
    let mut out = Text::of(alloc, b"<")?;
    out.push(alloc, uri.bytes())?;
    out.push(alloc, b">;tag=")?;
    out.push(alloc, tag)?;
    Ok(out)
}

/// The conference as Contact (RFC 4579 §5.1).
#[tactic(auto, unfolding(crate::specs::Texts::contact_value))]
pub fn contact_value(alloc: Global, sip: OwnAddress, room: RoomNo) -> Result<Text, NoMemory>
    ensures contact { IfOk result (λ t. t ≡ contact_value sip room) }
{
    let uri = conference_uri(alloc, sip, room)?;
    let mut out = Text::of(alloc, b"<")?;
    out.push(alloc, uri.bytes())?;
    out.push(alloc, b">;isfocus")?;
    Ok(out)
}

/// The header field that gives the media type of a session description.
#[tactic(auto, unfolding(mmtel_message::specs::Message::line))]
pub fn sdp_lines(alloc: Global) -> Result<List<Line>, NoMemory>
    ensures lines { IfOk result (λ ls. ls ≡ sdp_lines) }
{
    let mut lines = List::new();
    add_bytes(alloc, &mut lines, b"Content-Type", b"application/sdp")?;
    Ok(lines)
}

/// The header fields of a request of a conference with a session description.
#[tactic(auto, unfolding(mmtel_message::specs::Message::line))]
pub fn contact_and_sdp_lines(
    alloc: Global,
    sip: OwnAddress,
    room: RoomNo,
) -> Result<List<Line>, NoMemory>
    ensures lines { IfOk result (λ ls. ls ≡ contact_and_sdp_lines sip room) }
{
    let contact = contact_value(alloc, sip, room)?;
    let mut lines = List::new();
    add_line(alloc, &mut lines, b"Contact", contact)?;
    add_bytes(alloc, &mut lines, b"Content-Type", b"application/sdp")?;
    Ok(lines)
}

/// The Subscription-State of a NOTIFY (RFC 3515 §2.4.7).
fn subscription_state(is_active: bool) -> &'static [u8]
    ensures { result.now ≡ subscription_state is_active }
{
    if is_active {
        b"active;expires=180"
    } else {
        b"terminated;reason=noresource"
    }
}

/// The header fields of a NOTIFY (RFC 3515 §2.4.4).
#[tactic(auto, unfolding(crate::specs::Texts::notify_lines, mmtel_message::specs::Message::line))]
pub fn notify_lines(
    alloc: Global,
    sip: OwnAddress,
    room: RoomNo,
    is_active: bool,
) -> Result<List<Line>, NoMemory>
    ensures { IfOk result (λ ls. ls ≡ notify_lines sip room is_active) }
{
    let contact = contact_value(alloc, sip, room)?;
    let mut lines = List::new();
    add_line(alloc, &mut lines, b"Contact", contact)?;
    add_bytes(alloc, &mut lines, b"Event", b"refer")?;
    add_bytes(
        alloc,
        &mut lines,
        b"Subscription-State",
        subscription_state(is_active),
    )?;
    add_bytes(
        alloc,
        &mut lines,
        b"Content-Type",
        b"message/sipfrag;version=2.0",
    )?;
    Ok(lines)
}

/// A status line as a message fragment, `message/sipfrag` (RFC 3420 §2).
pub fn sipfrag(alloc: Global, status_line: &[u8]) -> Result<Text, NoMemory>
    ensures { IfOk result (λ t. t ≡ sipfrag status_line.now) }
{
    let mut out = Text::of(alloc, status_line)?;
    out.push(alloc, b"\r\n")?;
    Ok(out)
}
