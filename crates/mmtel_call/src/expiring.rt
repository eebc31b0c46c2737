//! The session of an answered call that nobody refreshed (RFC 4028 §10).
ghost use Rattle.std.specs.Prelude.{◌≡◌, OnOk, true};
ghost use Rattle.mmtel_types.specs.declared.causes.Cause.TheVariants.{Ended as HasEnded};
ghost use Rattle.mmtel_call.specs.Calls.{Over};
ghost use Rattle.mmtel_call.specs.Closing.{established_call_end};
ghost use Rattle.mmtel_call.specs.Expiring.{after_expiry, after_expiry_reinviting, is_expiry};
ghost use Rattle.mmtel_call.specs.Reinvites.{with_byes};
ghost use Rattle.mmtel_call.specs.Ringing.{with_abandoned};
ghost use Rattle.mmtel_call.specs.Sending.{with_status_to};

use crate::calls::{Call, EstablishedLegs, Reinvite};
use crate::context::StepContext;
use crate::reinvite_ends::ended_dialogs;
use crate::reinvites::{RelayedInvite, give_up_reinviting};
use mmtel_base::{List, NoMemory};
use mmtel_leg::Dialogue;
use mmtel_output::StepOutput;
use mmtel_transaction::DueWord;

/// Whether a deadline is the expiry of the session that the last 2xx set, where this many 2xx were relayed to a side.
pub fn is_expiry(successes: u64, what: DueWord) -> bool
    ensures { result ≡ is_expiry successes what }
{
    match what {
        DueWord::NoReply(_) | DueWord::NoPrack(_) | DueWord::Cap(_) | DueWord::NoAck(_) => false,
        DueWord::Expired(number) => number == successes,
    }
}

impl Call {
    /// The session of a stable call expired: BYE to both sides.
    pub fn expire(
        &mut self,
        step: &StepContext<'_>,
        legs: EstablishedLegs,
        output: &mut StepOutput,
    ) -> Result<(), NoMemory>
        requires { self.old.phase ≡ Over HasEnded }
        ensures call { OnOk result (self.new
            ≡ (after_expiry step.now.config.now step.now.snapshot.at legs self.old output.old).call) }
        ensures output { OnOk result (output.new
            ≡ (after_expiry step.now.config.now step.now.snapshot.at legs self.old output.old).output) }
    {
        let mut legs = legs;
        let sent = legs.send_byes(step, output);
        let closed = self.end_established(step, legs, output);
        sent?;
        closed
    }

    /// The call is over while an INVITE has no final response; that INVITE is abandoned, with these dialogs that need no BYE any more.
    fn end_expired(
        &mut self,
        step: &StepContext<'_>,
        legs: EstablishedLegs,
        reinvite: Reinvite,
        forks: List<Dialogue>,
        output: &mut StepOutput,
    ) -> Result<(), NoMemory>
        requires { self.old.phase ≡ Over HasEnded }
        ensures call { OnOk result (self.new
            ≡ (established_call_end step.now.snapshot.at legs (with_abandoned (record
            { invite = record reinvite.invite { forks = forks }; in_dialog = true }) self.old)
            (with_byes step.now.config.now legs
            (with_status_to step.now.config.now self.old reinvite.key reinvite.request 487 output.old))).call) }
        ensures output { OnOk result (output.new
            ≡ (established_call_end step.now.snapshot.at legs (with_abandoned (record
            { invite = record reinvite.invite { forks = forks }; in_dialog = true }) self.old)
            (with_byes step.now.config.now legs
            (with_status_to step.now.config.now self.old reinvite.key reinvite.request 487 output.old))).output) }
    {
        let mut legs = legs;
        let passed = self.send_end(step, &mut legs, &reinvite, 487, output);
        let loosened = self.abandon_across(step.alloc, reinvite, forks);
        let closed = self.end_established(step, legs, output);
        passed?;
        loosened?;
        closed
    }

    /// The session expired while an INVITE has no final response: 487 to it, and BYE to both sides.
    pub fn expire_reinviting(
        &mut self,
        step: &StepContext<'_>,
        legs: EstablishedLegs,
        relayed: RelayedInvite,
        output: &mut StepOutput,
    ) -> Result<(), NoMemory>
        requires { self.old.phase ≡ Over HasEnded }
        ensures call { OnOk result (self.new
            ≡ (after_expiry_reinviting step.now.config.now step.now.snapshot.at legs relayed.side relayed.invite self.old
            output.old).call) }
        ensures output { OnOk result (output.new
            ≡ (after_expiry_reinviting step.now.config.now step.now.snapshot.at legs relayed.side relayed.invite self.old
            output.old).output) }
    {
        match ended_dialogs(step.alloc, &legs, relayed.side, relayed.side) {
            Err(error) => {
                give_up_reinviting(legs, relayed, step.snapshot.at);
                Err(error)
            }
            Ok(forks) => {
                let RelayedInvite { side: _, invite } = relayed;
                self.end_expired(step, legs, invite, forks, output)
            }
        }
    }
}
