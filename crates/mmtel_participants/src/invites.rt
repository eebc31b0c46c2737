//! The server's INVITE to a participant: what is recorded of it, and its timers.
ghost use Rattle.std.specs.Prelude.{◌≡◌, OnOk, Some};
ghost use Rattle.mmtel_participants.specs.Invites.{accepted_invite, connected_participant, connected_party, has_outstanding_number, invite_after_due_cancel};
ghost use Rattle.mmtel_participants.specs.Invites.{invite_with_provisional, is_ack_pending, is_invite_outstanding, with_failure_ack, with_invite_cancel};

use crate::meters::{leg_with_meter, meter_of};
use crate::participants::{Invite, ParticipantState, Party};
use mmtel_base::{NoMemory, Text};
use mmtel_compose::ReceivedMessage;
use mmtel_leg::Remote;
use mmtel_message::OwnAddress;
use mmtel_output::{SentInvite, StepOutput};
use mmtel_sip_rules::is_cancel_due;
use mmtel_transaction::TKey;
use mmtel_types::{Account, Moment, RoomNo};
use std::alloc::Global;
use std::mem;

/// The INVITE after a 2xx with this tag, and this ACK.
fn accepted_invite(tag: Text, ack: Text, invite: Option<Invite>) -> Option<Invite>
    ensures { result ≡ accepted_invite tag ack invite }
{
    match invite {
        None => {
            drop(tag);
            drop(ack);
            None
        }
        Some(Invite::Outstanding(_, sent_invite)) => {
            let mut sent_invite = sent_invite;
            let branch = mem::replace(&mut sent_invite.branch, Text::new());
            drop(sent_invite);
            Some(Invite::Accepted(branch, tag, ack))
        }
        Some(Invite::Accepted(branch, before, sent)) => {
            drop(tag);
            drop(ack);
            Some(Invite::Accepted(branch, before, sent))
        }
    }
}

impl Invite {
    /// Acknowledges a final response from 300, where there was none.
    fn acknowledge_failure(
        &self,
        alloc: Global,
        sip: OwnAddress,
        key: TKey,
        response: &ReceivedMessage,
        output: &mut StepOutput,
    ) -> Result<(), NoMemory>
        ensures { OnOk result (output.new ≡ with_failure_ack sip key response.now (Some self.now) output.old) }
    {
        match self {
            Invite::Outstanding(_, sent_invite) => output.acknowledge_final(
                alloc,
                sip,
                key,
                sent_invite,
                response,
            ),
            Invite::Accepted(_, _, _) => Ok(()),
        }
    }
}

impl Party {
    /// An invited party is connected, and has a participant's meter from now on.
    fn connect(self, room: RoomNo, now: Moment, account: Option<Account>, remote: Remote) -> Party
        ensures { result ≡ connected_party room now account remote self }
    {
        match self {
            Party::Invited(leg) => {
                let meter = meter_of(room, now, account);
                Party::DialedOut(leg_with_meter(leg.stand(remote), meter, now))
            }
            Party::DialedIn(leg) => Party::DialedIn(leg),
            Party::DialedOut(leg) => Party::DialedOut(leg),
        }
    }
}

impl ParticipantState {
    /// Whether the server's INVITE to the participant has no final response.
    pub fn is_invite_outstanding(&self) -> bool
        ensures waiting { result ≡ is_invite_outstanding self.now.invite }
    {
        match &self.invite {
            Some(Invite::Outstanding(_, _)) => true,
            _ => false,
        }
    }

    /// Whether that INVITE has no final response, and this number in its conference.
    pub fn has_outstanding_number(&self, due: u64) -> bool
        ensures waits { result ≡ has_outstanding_number due self.now.invite }
    {
        match &self.invite {
            Some(Invite::Outstanding(number, _)) => *number == due,
            _ => false,
        }
    }

    /// Whether the ACK of the 2xx of this number is due.
    pub fn is_ack_pending(&self, due: u64) -> bool
        ensures awaited { result ≡ is_ack_pending due self.now.pending_ack }
    {
        match self.pending_ack {
            None => false,
            Some(awaited) => awaited.number == due,
        }
    }

    /// Acknowledges a final response from 300 to the server's INVITE to the participant.
    pub fn acknowledge_failure(
        &self,
        alloc: Global,
        sip: OwnAddress,
        key: TKey,
        response: &ReceivedMessage,
        output: &mut StepOutput,
    ) -> Result<(), NoMemory>
        ensures acked { OnOk result (output.new ≡ with_failure_ack sip key response.now self.now.invite output.old) }
    {
        match &self.invite {
            None => Ok(()),
            Some(invite) => invite.acknowledge_failure(alloc, sip, key, response, output),
        }
    }

    /// Cancels the server's INVITE to the participant, where that is due.
    pub fn cancel(
        &self,
        alloc: Global,
        sip: OwnAddress,
        output: &mut StepOutput,
    ) -> Result<(), NoMemory>
        ensures cancelled { OnOk result (output.new ≡ with_invite_cancel sip self.now.invite output.old) }
    {
        match &self.invite {
            Some(Invite::Outstanding(_, sent_invite)) => output.cancel(alloc, sip, sent_invite),
            _ => Ok(()),
        }
    }

    /// Records a provisional response to that INVITE, and its client transaction.
    pub fn note_provisional(&mut self, key: TKey)
        ensures noted { self.new ≡ record self.old { invite = invite_with_provisional key self.old.invite } }
    {
        match &mut self.invite {
            None => {}
            Some(Invite::Outstanding(_, sent_invite)) => {
                sent_invite.key = Some(key);
                sent_invite.provisional = true;
            }
            Some(Invite::Accepted(_, _, _)) => {}
        }
    }

    /// Records the tag of the 2xx to that INVITE, and the ACK that was sent for it.
    pub fn note_accepted(&mut self, tag: Text, ack: Text)
        ensures agreed { self.new ≡ record self.old { invite = accepted_invite tag ack self.old.invite } }
    {
        let agreed = accepted_invite(tag, ack, self.invite.take());
        drop(mem::replace(&mut self.invite, agreed));
    }

    /// Records that the INVITE was cancelled, where that was due.
    pub fn note_cancelled(&mut self)
        ensures cancelled { self.new ≡ record self.old { invite = invite_after_due_cancel self.old.invite } }
    {
        match &mut self.invite {
            None => {}
            Some(Invite::Outstanding(_, sent_invite)) => {
                if is_cancel_due(sent_invite.provisional, sent_invite.cancelled) {
                    sent_invite.cancelled = true;
                }
            }
            Some(Invite::Accepted(_, _, _)) => {}
        }
    }

    /// The participant once an invited party is connected.
    pub fn connect(self, room: RoomNo, now: Moment, remote: Remote) -> ParticipantState
        ensures seated { result ≡ connected_participant room now remote self }
    {
        let ParticipantState {
            number,
            by,
            account,
            pending_ack: awaited,
            invite,
            party,
        } = self;
        let party = party.connect(room, now, account, remote);
        ParticipantState {
            number,
            by,
            account,
            pending_ack: awaited,
            invite,
            party,
        }
    }
}
