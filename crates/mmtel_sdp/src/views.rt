//! Reading a body.
ghost use Rattle.std.specs.Prelude.{◌≡◌, IfOk};
ghost use Rattle.mmtel_sdp.specs.Outcome.{IsResult};
ghost use Rattle.mmtel_sdp.specs.Sdp.{has_session_head, session_of, sdp_of};

use crate::faults::SdpFault;
use crate::lines::{Line, read_lines};
use crate::media::{direction, media};
use crate::values::SdpView;
use mmtel_base::NoMemory;
use std::alloc::Global;

/// Whether the first line is `v=0` (RFC 4566 §5.1).
fn has_session_head(lines: &[Line]) -> bool
    ensures { result ≡ has_session_head lines.now }
{
    match lines {
        [] => false,
        [first, ..] => {
            if first.letter != b'v' {
                return false;
            }
            first.value.bytes() == b"0".as_slice()
        }
    }
}

#[tactic(auto, unfolding(crate::specs::Sdp::session_of))]
fn session(alloc: Global, lines: &[Line]) -> Result<Option<SdpView>, NoMemory>
    ensures { IfOk result (λ view. view ≡ session_of lines.now) }
{
    if !has_session_head(lines) {
        return Ok(None);
    }
    match media(alloc, lines)? {
        None => Ok(None),
        Some(media) => {
            if media.items().is_empty() {
                return Ok(None);
            }
            Ok(Some(SdpView {
                media,
                direction: direction(lines),
            }))
        }
    }
}

/// What calls and conferences read of a body, if it is a session description (RFC 4566 §5).
///
/// # Errors
///
/// `NotSdp` exactly where the body is not of the grammar; and out of memory.
#[tactic(auto, unfolding(crate::specs::Sdp::sdp_of))]
pub fn look(alloc: Global, body: &[u8]) -> Result<SdpView, SdpFault>
    ensures exact { IsResult result (sdp_of body.now) }
{
    let lines = read_lines(alloc, body)?;
    match session(alloc, lines.items())? {
        Some(view) => Ok(view),
        None => Err(SdpFault::NotSdp),
    }
}
