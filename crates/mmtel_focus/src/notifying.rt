//! NOTIFY to a participant (RFC 3515 §2.4.4).
ghost use Rattle.std.specs.Prelude.{◌≡◌, ◌<◌, OnOk, length};
ghost use Rattle.mmtel_focus.specs.Conferences.{in_step};
ghost use Rattle.mmtel_focus.specs.Participants.{after_notify, after_notify_referrer, after_notify_to, at_participant};

use crate::conferences::Conference;
use mmtel_base::NoMemory;
use mmtel_participants::{Effects, StepContext, place_of};

impl Conference {
    /// Notifies the participant at this place.
    fn notify_at(
        &mut self,
        step: &StepContext<'_>,
        is_active: bool,
        status_line: &[u8],
        place: usize,
        effects: &mut Effects,
    ) -> Result<(), NoMemory>
        requires { place < length self.old.participants }
        ensures conference { OnOk result (self.new
            ≡ (at_participant (after_notify step.now.config is_active status_line.now) place (in_step self.old effects.old)).conference) }
        ensures effects { OnOk result (effects.new
            ≡ (at_participant (after_notify step.now.config is_active status_line.now) place (in_step self.old effects.old)).effects) }
    {
        let room = self.number;
        let party = &mut self.participants[place].party;
        party.notify(step, room, is_active, status_line, &mut effects.output)
    }

    /// Notifies the participant of this number of a status line; nothing is sent where it has left.
    pub fn notify(
        &mut self,
        step: &StepContext<'_>,
        is_active: bool,
        status_line: &[u8],
        number: u64,
        effects: &mut Effects,
    ) -> Result<(), NoMemory>
        ensures conference { OnOk result (self.new
            ≡ (after_notify_to step.now.config is_active status_line.now number (in_step self.old effects.old)).conference) }
        ensures effects { OnOk result (effects.new
            ≡ (after_notify_to step.now.config is_active status_line.now number (in_step self.old effects.old)).effects) }
    {
        match place_of(&self.participants, number) {
            None => Ok(()),
            Some(place) => self.notify_at(step, is_active, status_line, place, effects),
        }
    }

    /// Notifies the participant whose REFER invited another one, if one did.
    pub fn notify_referrer(
        &mut self,
        step: &StepContext<'_>,
        is_active: bool,
        status_line: &[u8],
        by: Option<u64>,
        effects: &mut Effects,
    ) -> Result<(), NoMemory>
        ensures conference { OnOk result (self.new
            ≡ (after_notify_referrer step.now.config is_active status_line.now by (in_step self.old effects.old)).conference) }
        ensures effects { OnOk result (effects.new
            ≡ (after_notify_referrer step.now.config is_active status_line.now by (in_step self.old effects.old)).effects) }
    {
        match by {
            None => Ok(()),
            Some(number) => self.notify(step, is_active, status_line, number, effects),
        }
    }
}
