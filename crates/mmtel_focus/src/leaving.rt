//! How a conference closes.
ghost use Rattle.std.specs.Prelude.{◌≡◌, OnOk};
ghost use Rattle.mmtel_focus.specs.Conferences.{in_step};
ghost use Rattle.mmtel_focus.specs.Participants.{after_close, after_close_with};

use crate::conferences::Conference;
use mmtel_base::NoMemory;
use mmtel_participants::{CREATOR, Effects, StepContext};

impl Conference {
    /// All remaining participants are sent BYE and leave, the first one first, and the conference closes.
    #[tactic(auto, unfolding(crate::specs::Participants::after_close))]
    fn close_conference(
        &mut self,
        step: &StepContext<'_>,
        effects: &mut Effects,
    ) -> Result<(), NoMemory>
        ensures conference { OnOk result (self.new
            ≡ (after_close step.now.config step.now.at self.old.participants (in_step self.old effects.old)).conference) }
        ensures effects { OnOk result (effects.new
            ≡ (after_close step.now.config step.now.at self.old.participants (in_step self.old effects.old)).effects) }
    {
        'participants: while !self.participants.is_empty() {
            let seat = self.participants.remove(0);
            seat.dismiss(step, effects)?;
        }
        effects.closes = true;
        Ok(())
    }

    /// The conference closes where its creator left.
    pub fn close_with(
        &mut self,
        step: &StepContext<'_>,
        number: u64,
        effects: &mut Effects,
    ) -> Result<(), NoMemory>
        ensures conference { OnOk result (self.new
            ≡ (after_close_with step.now.config step.now.at number (in_step self.old effects.old)).conference) }
        ensures effects { OnOk result (effects.new
            ≡ (after_close_with step.now.config step.now.at number (in_step self.old effects.old)).effects) }
    {
        if number == CREATOR {
            return self.close_conference(step, effects);
        }
        Ok(())
    }
}
