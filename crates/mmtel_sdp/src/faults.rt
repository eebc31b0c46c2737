//! Why a session description could not be read or answered.
ghost use Rattle.std.specs.Prelude.{◌≡◌};
ghost use Rattle.mmtel_sdp.specs.declared.faults.SdpFault.TheVariants as sdp;
ghost use Rattle.mmtel_sdp.specs.declared.faults.AnswerFault.TheVariants as answer;

use mmtel_base::NoMemory;

/// Why a body is no session description.
#[derive(Clone, Copy, Debug, PartialEq, Eq)]
pub enum SdpFault {
    /// The body is not of the grammar.
    NotSdp,
    NoMemory,
}

impl From<NoMemory> for SdpFault {
    ghost from_gives = { λ _ e. e ≡ sdp.NoMemory };

    fn from(_error: NoMemory) -> SdpFault {
        SdpFault::NoMemory
    }
}

impl<T: Drop> From<(T, NoMemory)> for SdpFault {
    ghost from_gives = { λ _ e. e ≡ sdp.NoMemory };

    fn from(_refused: (T, NoMemory)) -> SdpFault {
        SdpFault::NoMemory
    }
}

/// Why an offer has no answer of the mixer.
#[derive(Clone, Copy, Debug, PartialEq, Eq)]
pub enum AnswerFault {
    /// No medium of the offer is audio.
    NoAudio,
    NoMemory,
}

impl From<NoMemory> for AnswerFault {
    ghost from_gives = { λ _ e. e ≡ answer.NoMemory };

    fn from(_error: NoMemory) -> AnswerFault {
        AnswerFault::NoMemory
    }
}
