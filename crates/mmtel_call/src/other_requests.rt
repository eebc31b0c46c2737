//! Requests of a call other than the INVITE for which it waits.
ghost use Rattle.std.specs.Prelude.{◌≡◌, ◌<◌, ℕ, length, IfOk, OnOk, position, Some, slice_get};
ghost use Rattle.mmtel_compose.specs.ReceivedMessages.{MessageView};
ghost use Rattle.mmtel_call.specs.OtherRequests.{is_answered_invite, is_answered_key, is_fork, on_forked_response, on_other_response, on_response_abandoned, on_response_answered};
ghost use Rattle.mmtel_call.specs.OtherRequests.{is_stable, on_other_timeout, on_retransmitted_success, without_key};
ghost use Rattle.mmtel_call.specs.Ringing.{to_tag_of};

use crate::calls::{AnsweredInvite, Call, Phase, Stage};
use crate::context::StepContext;
use crate::relayed_transactions::relayed_at;
use mmtel_base::NoMemory;
use mmtel_call_services::is_of_dialog;
use mmtel_compose::{ReceivedMessage, callee_remote, status_of};
use mmtel_output::{AbandonedInvite, StepOutput, abandoned_at, abandoned_of, drop_at, push_item};
use mmtel_sip_rules::is_success;
use mmtel_transaction::{Emit, TKey};
use std::alloc::Global;

impl AnsweredInvite {
    fn is_of(&self, branch: &[u8]) -> bool
        ensures { result ≡ is_answered_invite branch.now self.now }
    {
        self.invite.branch.bytes() == branch
    }

    /// Whether a 2xx with this tag is of another dialog than the one that was established.
    fn is_fork(&self, tag: &[u8]) -> bool
        ensures { (m : MessageView) → tag.now ≡ to_tag_of m → result ≡ is_fork self.now m }
    {
        !is_of_dialog(self.in_dialog, self.tag.bytes(), tag)
    }

    /// The same, by the response.
    fn is_forked_by(&self, alloc: Global, response: &ReceivedMessage) -> Result<bool, NoMemory>
        ensures { IfOk result (λ yes. yes ≡ is_fork self.now response.now) }
    {
        let remote = callee_remote(alloc, response)?;
        let forked = self.is_fork(remote.tag.bytes());
        drop(remote);
        Ok(forked)
    }
}

/// The index of the INVITE of this branch among those that had a 2xx.
pub fn answered_invite_at(answered_invites: &[AnsweredInvite], branch: &[u8]) -> Option<usize>
    ensures { result ≡ position (is_answered_invite branch.now) answered_invites.now }
{
    answered_invites.iter().position(|one| one.is_of(branch))
}

/// The index of the one of this client transaction.
pub fn answered_invite_of(answered_invites: &[AnsweredInvite], key: TKey) -> Option<usize>
    ensures { result ≡ position (is_answered_key key) answered_invites.now }
{
    answered_invites
        .iter()
        .position(|one| one.invite.has_key(key))
}

impl Phase {
    fn is_stable(&self) -> bool
        ensures { result ≡ is_stable self.now }
    {
        match self {
            Phase::Offered(_) => false,
            Phase::Established(_, stage) => match stage {
                Stage::Answered(_, _) => false,
                Stage::Departing(_, _) => false,
                Stage::Stable => true,
                Stage::Reinviting(_, _) => false,
            },
            Phase::Detached(_) => false,
            Phase::Over(_) => false,
        }
    }
}

impl Call {
    /// The request of this branch, which is not the INVITE for which the call waits, timed out: this ends an abandoned INVITE, and has the effect of a final response to a request
    /// in flight.
    #[tactic(auto, unfolding(crate::specs::OtherRequests::on_other_timeout))]
    pub fn receive_timeout_other(
        &mut self,
        step: &StepContext<'_>,
        branch: &[u8],
        output: &mut StepOutput,
    ) -> Result<(), NoMemory>
        ensures call { OnOk result (self.new
            ≡ (on_other_timeout step.now.config.now branch.now self.old output.old).call) }
        ensures output { OnOk result (output.new
            ≡ (on_other_timeout step.now.config.now branch.now self.old output.old).output) }
    {
        match abandoned_at(self.abandoned.items(), branch) {
            Some(at) => {
                drop(self.abandoned.remove(at));
                Ok(())
            }
            None => match relayed_at(self.relayed.items(), branch) {
                None => Ok(()),
                Some(at) => self.receive_timeout_in_flight(step, at, output),
            },
        }
    }

    /// Removes the INVITE of this client transaction, which has ended: nothing more is received for it.
    pub fn drop_ended(&mut self, key: TKey)
        ensures { self.new ≡ without_key key self.old }
    {
        let at = abandoned_of(self.abandoned.items(), key);
        drop_at(&mut self.abandoned, at);
        let at = answered_invite_of(self.answered_invites.items(), key);
        drop_at(&mut self.answered_invites, at);
    }

    /// Processes a response to the abandoned INVITE at this index.
    fn receive_abandoned_at(
        &mut self,
        step: &StepContext<'_>,
        key: TKey,
        message: &ReceivedMessage,
        at: usize,
        output: &mut StepOutput,
    ) -> Result<(), NoMemory>
        requires { at < length self.old.abandoned }
        ensures call { OnOk result (self.new
            ≡ (on_response_abandoned step.now.config.now key message.now at (slice_get self.old.abandoned at) self.old output.old).call) }
        ensures output { OnOk result (output.new
            ≡ (on_response_abandoned step.now.config.now key message.now at (slice_get self.old.abandoned at) self.old output.old).output) }
    {
        let abandoned = self.abandoned.remove(at);
        match output.receive_abandoned(step.alloc, step.sip(), key, abandoned, message)? {
            None => Ok(()),
            Some(remaining) => push_item(step.alloc, &mut self.abandoned, remaining),
        }
    }

    /// Sends the ACK of an INVITE that had a 2xx again, in a stable call.
    fn retransmit_ack(
        &self,
        alloc: Global,
        answered_invite: &AnsweredInvite,
        output: &mut StepOutput,
    ) -> Result<(), NoMemory>
        ensures { OnOk result (output.new ≡ (on_retransmitted_success answered_invite.now self.now output.old).output) }
    {
        if !self.phase.is_stable() {
            return Ok(());
        }
        match &answered_invite.invite.ack {
            None => Ok(()),
            Some(text) => {
                let text = text.copied(alloc)?;
                let peer = answered_invite.invite.dialogue.peer;
                output.emit(alloc, Emit::Plain { peer, text })
            }
        }
    }

    /// Processes a 2xx to the INVITE at this index that is of another dialog than the one that was established.
    fn receive_fork(
        &mut self,
        step: &StepContext<'_>,
        key: TKey,
        message: &ReceivedMessage,
        at: usize,
        output: &mut StepOutput,
    ) -> Result<(), NoMemory>
        requires { at < length self.old.answered_invites }
        ensures call { (t : AnsweredInvite) → slice_get self.old.answered_invites at ≡ Some t
            → OnOk result (self.new ≡ (on_forked_response step.now.config.now key message.now at t self.old output.old).call) }
        ensures output { (t : AnsweredInvite) → slice_get self.old.answered_invites at ≡ Some t
            → OnOk result (output.new ≡ (on_forked_response step.now.config.now key message.now at t self.old output.old).output) }
    {
        let AnsweredInvite {
            invite: sent_invite,
            tag,
            in_dialog: within,
        } = self.answered_invites.remove(at);
        let abandoned = AbandonedInvite {
            invite: sent_invite,
            in_dialog: false,
        };
        match output.receive_abandoned(step.alloc, step.sip(), key, abandoned, message)? {
            None => {
                drop(tag);
                Ok(())
            }
            Some(remaining) => {
                let AbandonedInvite {
                    invite: sent_invite,
                    in_dialog: _,
                } = remaining;
                let answered_invite = AnsweredInvite {
                    invite: sent_invite,
                    tag,
                    in_dialog: within,
                };
                push_item(step.alloc, &mut self.answered_invites, answered_invite)
            }
        }
    }

    /// Processes a response to the INVITE at this index, which had a 2xx.
    fn receive_answered_at(
        &mut self,
        step: &StepContext<'_>,
        key: TKey,
        message: &ReceivedMessage,
        at: usize,
        output: &mut StepOutput,
    ) -> Result<(), NoMemory>
        ensures call { OnOk result (self.new
            ≡ (on_response_answered step.now.config.now key message.now at (slice_get self.old.answered_invites at) self.old output.old).call) }
        ensures output { OnOk result (output.new
            ≡ (on_response_answered step.now.config.now key message.now at (slice_get self.old.answered_invites at) self.old output.old).output) }
    {
        let Some(answered_invite) = self.answered_invites.items().get(at) else {
            return Ok(());
        };
        if !is_success(status_of(message.message.start())) {
            return Ok(());
        }
        if answered_invite.is_forked_by(step.alloc, message)? {
            return self.receive_fork(step, key, message, at, output);
        }
        self.retransmit_ack(step.alloc, answered_invite, output)
    }

    /// Processes a response to the request of this branch, which is not the INVITE for which the call waits.
    #[tactic(auto, unfolding(crate::specs::OtherRequests::on_other_response))]
    pub fn receive_other(
        &mut self,
        step: &StepContext<'_>,
        key: TKey,
        message: &ReceivedMessage,
        branch: &[u8],
        output: &mut StepOutput,
    ) -> Result<(), NoMemory>
        ensures call { OnOk result (self.new
            ≡ (on_other_response step.now.config.now step.now.snapshot.at key message.now branch.now self.old output.old).call) }
        ensures output { OnOk result (output.new
            ≡ (on_other_response step.now.config.now step.now.snapshot.at key message.now branch.now self.old output.old).output) }
    {
        match abandoned_at(self.abandoned.items(), branch) {
            Some(at) => self.receive_abandoned_at(step, key, message, at, output),
            None => match answered_invite_at(self.answered_invites.items(), branch) {
                Some(at) => self.receive_answered_at(step, key, message, at, output),
                None => match relayed_at(self.relayed.items(), branch) {
                    None => Ok(()),
                    Some(at) => self.receive_in_flight(step, message, at, output),
                },
            },
        }
    }
}
