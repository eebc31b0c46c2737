//! The effects of a step of a conference.
ghost use Rattle.std.specs.Prelude.{◌≡◌};
ghost use Rattle.mmtel_participants.specs.Participants.{no_effects};

use mmtel_base::List;
use mmtel_output::{AbandonedInvite, StepOutput};
use mmtel_transaction::{Emits, Tokens};

/// The effects of a step of a conference beyond the conference itself.
#[derive(Drop)]
pub struct Effects {
    /// The conference closes.
    pub closes: bool,
    /// The INVITEs of its participants that were abandoned before their final response.
    pub abandoned: List<AbandonedInvite>,
    /// The tokens that were drawn, the output, and the CDRs that were closed.
    pub output: StepOutput,
}

impl Effects {
    /// No effects yet, of a step before which these tokens were drawn.
    pub fn new(tokens: Tokens) -> Effects
        ensures nothing { result ≡ no_effects tokens }
    {
        Effects {
            closes: false,
            abandoned: List::new(),
            output: StepOutput::new(tokens),
        }
    }

    /// The output.
    pub fn into_emits(self) -> Emits
        ensures emits { result ≡ self.output.out }
    {
        let Effects {
            closes: _,
            abandoned: abandoned_invites,
            output: desk,
        } = self;
        let StepOutput { tokens, out, rows } = desk;
        drop(abandoned_invites);
        drop(tokens);
        drop(rows);
        out
    }
}
