//! What a body offers: the kinds of its media, whether audio is among them, and a direction. This is defined for every body.
ghost use Rattle.std.specs.Prelude.{◌≡◌, IfOk};
ghost use Rattle.std.specs.List.{list_any};
ghost use Rattle.mmtel_sdp.specs.Sdp.{is_audio, sdp_of};
ghost use Rattle.mmtel_sdp.specs.Mixer.{has_audio};
ghost use Rattle.mmtel_sdp.specs.Offers.{kinds, kinds_of, offers_audio, direction_in_body};

use crate::faults::SdpFault;
use crate::mixer::has_audio;
use crate::values::{Direction, SdpView};
use crate::views::look;
use mmtel_base::{List, NoMemory, Text};
use std::alloc::Global;

impl SdpView {
    /// Whether a medium has the kind `audio` (RFC 4566 §5.14), whatever its port: a medium of port 0 is offered, though not to be used (RFC 3264 §5.1).
    pub fn has_audio(&self) -> bool
        ensures exact { result ≡ has_audio self.now.media }
        // It is among the kinds.
        ensures by_kinds { result ≡ list_any is_audio (kinds self.now.media) }
    {
        has_audio(self.media.items())
    }

    /// The kind of each medium (RFC 4566 §5.14), in the order of the media.
    ///
    /// # Errors
    ///
    /// Out of memory only.
    pub fn kinds(&self, alloc: Global) -> Result<List<Text>, NoMemory>
        ensures exact { IfOk result (λ listed. listed ≡ kinds self.now.media) }
    {
        let mut listed = List::new();
        for medium in self.media.items() {
            let kind = Text::of(alloc, medium.kind.bytes())?;
            listed.push(alloc, kind)?;
        }
        Ok(listed)
    }
}

/// What is read of a body; None exactly where it is no session description (RFC 4566 §5).
///
/// # Errors
///
/// Out of memory only.
pub fn view_of(alloc: Global, body: &[u8]) -> Result<Option<SdpView>, NoMemory>
    ensures exact { IfOk result (λ view. view ≡ sdp_of body.now) }
{
    match look(alloc, body) {
        Ok(view) => Ok(Some(view)),
        Err(SdpFault::NotSdp) => Ok(None),
        Err(SdpFault::NoMemory) => Err(NoMemory),
    }
}

/// Whether a body offers audio (RFC 4566 §5.14, RFC 3264 §5.1); one that is no session description does not.
///
/// # Errors
///
/// Out of memory only.
pub fn offers_audio(alloc: Global, body: &[u8]) -> Result<bool, NoMemory>
    ensures exact { IfOk result (λ offers. offers ≡ offers_audio body.now) }
{
    match view_of(alloc, body)? {
        None => Ok(false),
        Some(view) => Ok(view.has_audio()),
    }
}

/// The kinds of the media of a body (RFC 4566 §5.14), in their order; one that is no session description has none.
///
/// # Errors
///
/// Out of memory only.
pub fn kinds_of(alloc: Global, body: &[u8]) -> Result<List<Text>, NoMemory>
    ensures exact { IfOk result (λ listed. listed ≡ kinds_of body.now) }
{
    match view_of(alloc, body)? {
        None => Ok(List::new()),
        Some(view) => view.kinds(alloc),
    }
}

/// The direction of the first audio medium of a body (RFC 3264 §5.1); None exactly where the body is no session description.
///
/// # Errors
///
/// Out of memory only.
pub fn direction_in_body(alloc: Global, body: &[u8]) -> Result<Option<Direction>, NoMemory>
    ensures exact { IfOk result (λ direction. direction ≡ direction_in_body body.now) }
{
    match view_of(alloc, body)? {
        None => Ok(None),
        Some(view) => Ok(Some(view.direction)),
    }
}
