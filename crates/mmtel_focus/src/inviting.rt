//! A party is invited into a conference (RFC 4579 §5.5).
ghost use Rattle.std.specs.Prelude.{◌≡◌, OnOk};
ghost use Rattle.mmtel_focus.specs.Joining.{after_failure_notify, after_refer};
ghost use Rattle.mmtel_focus.specs.Conferences.{in_step};

use crate::conferences::Conference;
use crate::texts::own_status;
use mmtel_base::NoMemory;
use mmtel_lex::Uri;
use mmtel_participants::{Effects, ReferResult, StepContext, invite_referred};

impl Conference {
    /// Notifies the participant that sent the REFER that nobody is invited, by this status.
    fn notify_failure(
        &mut self,
        step: &StepContext<'_>,
        by: u64,
        code: u16,
        effects: &mut Effects,
    ) -> Result<(), NoMemory>
        ensures conference { OnOk result (self.new
            ≡ (after_failure_notify step.now.config by code (in_step self.old effects.old)).conference) }
        ensures effects { OnOk result (effects.new
            ≡ (after_failure_notify step.now.config by code (in_step self.old effects.old)).effects) }
    {
        let line = own_status(step.alloc, code)?;
        self.notify(step, false, line.bytes(), by, effects)
    }

    /// Invites the party of this URI, which is moved out, by the REFER of a participant; the participant is notified where no route leads there, and else where the conference is
    /// full.
    #[tactic(auto, using(crate::proofs::ReferResults::bid_taken))]
    pub fn invite_referred(
        &mut self,
        step: &StepContext<'_>,
        by: u64,
        uri: &mut Option<Uri>,
        effects: &mut Effects,
    ) -> Result<(), NoMemory>
        ensures conference { OnOk result (self.new
            ≡ (after_refer step.now.config step.now.at by uri.old (in_step self.old effects.old)).conference) }
        ensures effects { OnOk result (effects.new
            ≡ (after_refer step.now.config step.now.at by uri.old (in_step self.old effects.old)).effects) }
    {
        self.participants.reserve(1)?;
        let next = self.next();
        match invite_referred(
            step,
            next,
            by,
            &self.participants,
            uri.take(),
            &mut effects.output,
        )? {
            ReferResult::Refused(code) => self.notify_failure(step, by, code, effects),
            ReferResult::Started(seat) => {
                self.participants.push_reserved(seat);
                self.count(next);
                Ok(())
            }
        }
    }
}
