//! Sending what copies fields of an INVITE: CANCEL, and the ACK of a final from 300.
ghost use Rattle.std.specs.Prelude.{◌≡◌, IfOk, OnErr, OnOk, codes};
ghost use Rattle.mmtel_leg.specs.Remotes.{field};
ghost use Rattle.mmtel_output.specs.Sending.{with_cancel, with_due_cancel, with_final_ack};

use crate::outputs::StepOutput;
use crate::sent_invites::{SentInvite, is_cancellable};
use mmtel_base::{NoMemory, Text};
use mmtel_compose::{ReceivedMessage, cancel, final_ack};
use mmtel_message::{Msg, OwnAddress};
use mmtel_transaction::{Emit, TKey};
use std::alloc::Global;

/// The value of To, or no bytes.
#[tactic(auto, unfolding(mmtel_leg::specs::Remotes::field))]
fn to_value(alloc: Global, message: &Msg) -> Result<Text, NoMemory>
    ensures { IfOk result (λ t. t ≡ field (codes "To") message.now.lines) }
{
    match message.first(b"To") {
        None => Ok(Text::new()),
        Some(value) => Text::of(alloc, value),
    }
}

impl StepOutput {
    /// Cancels an INVITE, where that is due (RFC 3261 §9.1).
    ///
    /// # Errors
    ///
    /// Out of memory only; the output is then as before.
    pub fn cancel(
        &mut self,
        alloc: Global,
        sip: OwnAddress,
        invite: &SentInvite,
    ) -> Result<(), NoMemory>
        ensures done { OnOk result (self.new ≡ with_due_cancel sip invite.now self.old) }
        ensures refused { OnErr result (self.new ≡ self.old) }
    {
        if is_cancellable(invite) {
            return self.send_cancel(alloc, sip, invite);
        }
        Ok(())
    }

    /// Sends the CANCEL of an INVITE (RFC 3261 §9.1).
    ///
    /// # Errors
    ///
    /// Out of memory only; the output is then as before.
    pub fn send_cancel(
        &mut self,
        alloc: Global,
        sip: OwnAddress,
        invite: &SentInvite,
    ) -> Result<(), NoMemory>
        ensures done { OnOk result (self.new ≡ with_cancel sip invite.now self.old) }
        ensures refused { OnErr result (self.new ≡ self.old) }
    {
        let msg = cancel(alloc, &invite.dialogue, invite.number, sip, &invite.branch)?;
        self.emit(
            alloc,
            Emit::Ask {
                peer: invite.dialogue.peer,
                msg,
            },
        )
    }

    /// Acknowledges a final from 300 of an INVITE, which its client transaction received (RFC 3261 §17.1.1.3).
    ///
    /// # Errors
    ///
    /// Out of memory only; the output is then as before.
    pub fn acknowledge_final(
        &mut self,
        alloc: Global,
        sip: OwnAddress,
        key: TKey,
        invite: &SentInvite,
        received: &ReceivedMessage,
    ) -> Result<(), NoMemory>
        ensures done { OnOk result (self.new ≡ with_final_ack sip key invite.now received.now.parsed self.old) }
        ensures refused { OnErr result (self.new ≡ self.old) }
    {
        let to = to_value(alloc, &received.message)?;
        let msg = final_ack(
            alloc,
            &invite.dialogue,
            invite.number,
            sip,
            &invite.branch,
            to,
        )?;
        self.emit(alloc, Emit::Ack { key, msg })
    }
}
