//! Sending the INVITE of an attempt.
ghost use Rattle.std.specs.Prelude.{◌≡◌, IfOk, OnErr, OnOk};
ghost use Rattle.mmtel_output.specs.Outputs.{after_draw, token};
ghost use Rattle.mmtel_output.specs.SentInvites.{sent_invite};
ghost use Rattle.mmtel_output.specs.Sending.{attempt_dialog, with_attempt_invite};

use crate::outputs::StepOutput;
use crate::sent_invites::SentInvite;
use mmtel_base::NoMemory;
use mmtel_compose::{Destination, ReceivedMessage, attempt_dialogue, invite};
use mmtel_leg::Dialogue;
use mmtel_message::{Line, OwnAddress};
use mmtel_transaction::Emit;
use std::alloc::Global;

/// The INVITE of an attempt, as it is made of the one that opened the call.
#[derive(Clone, Copy)]
pub struct AttemptInvite<'a> {
    /// The INVITE that opened the call.
    pub opening: &'a ReceivedMessage,
    /// Whether the caller is hidden from the target.
    pub restricted: bool,
    /// The lines of the opening INVITE that it has.
    pub passed: &'a [Line],
    /// Whether it indicates that the call waits.
    pub waiting: bool,
}

impl StepOutput {
    /// The dialog of an attempt: Call-ID and tag are drawn.
    fn attempt_dialog(
        &mut self,
        alloc: Global,
        destination: Destination,
        opening: &ReceivedMessage,
        restricted: bool,
    ) -> Result<Dialogue, NoMemory>
        ensures dialog { IfOk result (λ d. d ≡ attempt_dialog destination opening.now.parsed restricted self.old) }
        ensures done { OnOk result (self.new ≡ after_draw (after_draw self.old)) }
        ensures out { OnErr result (self.new.out ≡ self.old.out) }
        ensures rows { OnErr result (self.new.rows ≡ self.old.rows) }
    {
        let call_id = self.draw(alloc)?;
        let tag = self.draw(alloc)?;
        attempt_dialogue(alloc, destination, opening, restricted, call_id, tag)
    }

    /// Offers a call to a target by this INVITE. Call-ID, tag and branch are drawn, in this order. Returns the INVITE that was sent.
    ///
    /// # Errors
    ///
    /// Out of memory only; tokens may then be drawn, and otherwise the output is as before.
    pub fn send_attempt_invite(
        &mut self,
        alloc: Global,
        sip: OwnAddress,
        destination: Destination,
        attempt: AttemptInvite<'_>,
    ) -> Result<SentInvite, NoMemory>
        ensures done { OnOk result (self.new
            ≡ with_attempt_invite sip destination attempt.entry.opening.now.parsed attempt.entry.restricted attempt.entry.passed.now attempt.entry.waiting self.old) }
        ensures invite { IfOk result (λ i. i
            ≡ sent_invite (attempt_dialog destination attempt.entry.opening.now.parsed attempt.entry.restricted self.old) 1 (token (after_draw (after_draw self.old)))) }
        ensures out { OnErr result (self.new.out ≡ self.old.out) }
        ensures rows { OnErr result (self.new.rows ≡ self.old.rows) }
    {
        let AttemptInvite {
            opening,
            restricted,
            passed,
            waiting,
        } = attempt;
        let dialogue = self.attempt_dialog(alloc, destination, opening, restricted)?;
        let branch = self.draw(alloc)?;
        let msg = invite(alloc, &dialogue, sip, &branch, passed, waiting, opening)?;
        self.emit(
            alloc,
            Emit::Ask {
                peer: dialogue.peer,
                msg,
            },
        )?;
        Ok(SentInvite::new(dialogue, 1, branch))
    }
}
