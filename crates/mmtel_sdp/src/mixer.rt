//! The offer and the answer of a conference's mixer (RFC 3264).
ghost use Rattle.std.specs.Prelude.{◌≡◌, ◌++◌, ◌↔◌, IfOk, OnOk, OnErr, false, Err, decimal, codes, List, ℕ, Some, ◌∷◌, []};
ghost use Rattle.mmtel_sdp.specs.Lines.{text_of};
ghost use Rattle.mmtel_sdp.specs.Sdp.{is_audio, sdp_of};
ghost use Rattle.mmtel_sdp.specs.Mixer.{offer_text, answer_direction, answer_media_lines, answer_text, has_audio, answer_view, offer_view, ports_of, ports_of_answer};

use crate::faults::AnswerFault;
use crate::values::{Direction, Medium, Mixer, SdpView};
use crate::writing::{add_accepted, add_direction, add_media_line, add_refused, session_lines};
use mmtel_base::{NoMemory, Text};
use std::alloc::Global;

/// The direction that answers a direction (RFC 3264 §6.1).
fn answer_direction(direction: Direction) -> Direction
    ensures { result ≡ answer_direction direction }
{
    match direction {
        Direction::SendRecv => Direction::SendRecv,
        Direction::SendOnly => Direction::RecvOnly,
        Direction::RecvOnly => Direction::SendOnly,
        Direction::Inactive => Direction::Inactive,
    }
}

fn is_audio(medium: &Medium) -> bool
    ensures { result ≡ is_audio medium.now.kind }
{
    medium.kind.bytes() == b"audio".as_slice()
}

/// Whether a medium is audio.
pub fn has_audio(media: &[Medium]) -> bool
    ensures { result ≡ has_audio media.now }
{
    media.iter().any(|medium| is_audio(medium))
}

/// Adds the lines of the media: the first audio medium is accepted, and no other.
fn add_answer_media(
    alloc: Global,
    out: &mut Text,
    port: u16,
    direction: Direction,
    media: &[Medium],
) -> Result<(), NoMemory>
    ensures { OnOk result (out.new ≡ out.old ++ text_of (answer_media_lines port direction media.now)) }
{
    let mut taken = false;
    for medium in media {
        if !taken && is_audio(medium) {
            add_accepted(alloc, out, port, direction, medium)?;
            taken = true;
        } else {
            add_refused(alloc, out, medium)?;
        }
    }
    Ok(())
}

/// The mixer's answer to an offer: it accepts the first audio medium, and answers its direction.
///
/// # Errors
///
/// `NoAudio` exactly where no medium of the offer is audio; and out of memory.
#[tactic(auto, unfolding(crate::specs::Mixer::answer_text))]
pub fn mixer_answer(alloc: Global, view: &SdpView, mixer: Mixer) -> Result<Text, AnswerFault>
    ensures text { IfOk result (λ text. text ≡ answer_text view.now mixer) }
    ensures no_audio { (result ≡ Err AnswerFault.NoAudio) ↔ (has_audio view.now.media ≡ false) }
    // Where the view was read of a body, the answer is read as the same media, and as the direction that answers.
    ensures reads_back { (body : List ℕ) → sdp_of body ≡ Some view.now → IfOk result (λ text. sdp_of text ≡ Some (answer_view view.now)) }
    // Its ports are the mixer's at the first audio medium, and 0 at each other.
    ensures ports { (body : List ℕ) → sdp_of body ≡ Some view.now → IfOk result (λ text. ports_of text ≡ Some (ports_of_answer mixer.port view.now.media)) }
{
    let media = view.media.items();
    if !has_audio(media) {
        return Err(AnswerFault::NoAudio);
    }
    let mut out = session_lines(alloc, mixer)?;
    add_answer_media(
        alloc,
        &mut out,
        mixer.port,
        answer_direction(view.direction),
        media,
    )?;
    Ok(out)
}

/// The mixer's offer: one audio medium, in both directions.
///
/// # Errors
///
/// Out of memory only.
#[tactic(auto, unfolding(crate::specs::Mixer::offer_text))]
pub fn mixer_offer(alloc: Global, mixer: Mixer) -> Result<Text, NoMemory>
    ensures text { IfOk result (λ text. text ≡ offer_text mixer) }
    ensures reads_back { IfOk result (λ text. sdp_of text ≡ Some offer_view) }
    ensures ports { IfOk result (λ text. ports_of text ≡ Some (decimal mixer.port ∷ [])) }
{
    let mut out = session_lines(alloc, mixer)?;
    add_media_line(alloc, &mut out, b"audio", mixer.port, b"RTP/AVP", b"0 8")?;
    add_direction(alloc, &mut out, Direction::SendRecv)?;
    Ok(out)
}
