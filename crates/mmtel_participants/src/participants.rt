//! The participants of a conference.
ghost use Rattle.std.specs.Prelude.{◌≡◌, OnErr, OnOk, Some};
ghost use Rattle.mmtel_participants.specs.DialogRequests.{invite_in_flight, leg_after_request, participant_after_request, request_check, with_pending_ack};
ghost use Rattle.mmtel_participants.specs.Invites.{invite_has_branch, is_invite_outstanding, participant_has_branch};
ghost use Rattle.mmtel_participants.specs.Participants.{dialogue_of, is_connected, is_party_connected, leg_of, tag_of, with_leg};

use crate::meters::give_up_meter;
use mmtel_base::Text;
use mmtel_compose::ReceivedMessage;
use mmtel_leg::{
    Asked, CalleeLeg, CallerLeg, Dialogue, DialogueFault, Ended, InFlight, LegOf, Standing,
};
use mmtel_output::SentInvite;
use mmtel_types::{Account, Moment};

/// A 2xx that was sent to a participant and has no ACK.
#[derive(Clone, Copy)]
pub struct PendingAck {
    /// Its number among the invitations and the 2xx of the conference.
    pub number: u64,
    /// The CSeq number of its INVITE.
    pub cseq: Option<u32>,
}

/// The server's INVITE to a participant.
#[derive(Drop)]
pub enum Invite {
    /// It has no final response; the number is its own among the invitations and the 2xx of the conference.
    Outstanding(u64, SentInvite),
    /// It got a 2xx: its branch, the tag of the 2xx, and the text of the ACK.
    Accepted(Text, Text, Text),
}

/// The party that is a participant. The value is linear: it must be spent.
pub enum Party {
    /// A party that is invited and has not answered.
    Invited(CalleeLeg<Asked>),
    /// A party that called.
    DialedIn(CallerLeg<Standing>),
    /// A party that was called.
    DialedOut(CalleeLeg<Standing>),
}

/// A participant of a conference. The value is linear: it must be spent.
pub struct ParticipantState {
    /// Its number: participants are numbered from 1 in the order in which they come.
    pub number: u64,
    /// The number of the participant whose REFER invited it.
    pub by: Option<u64>,
    /// The account that is charged for it, if any.
    pub account: Option<Account>,
    /// The 2xx whose ACK is due.
    pub pending_ack: Option<PendingAck>,
    /// The server's INVITE to it.
    pub invite: Option<Invite>,
    /// The party.
    pub party: Party,
}

/// Accepts a request, or refuses it.
#[tactic(auto, unfolding(mmtel_leg::specs::Dialogues::number_in))]
fn receive_request<P, S>(
    leg: &mut LegOf<P, S>,
    request: &ReceivedMessage,
    in_flight: InFlight,
) -> Result<(), DialogueFault>
    ensures check { result ≡ request_check leg.old request.now in_flight }
    ensures received { OnOk result (leg.new ≡ leg_after_request request.now leg.old) }
    ensures refused { OnErr result (leg.new ≡ leg.old) }
{
    leg.heard(&request.message, in_flight)
}

impl Invite {
    /// Whether it has no final response.
    fn is_outstanding(&self) -> bool
        ensures { result ≡ is_invite_outstanding (Some self.now) }
    {
        match self {
            Invite::Outstanding(_, _) => true,
            Invite::Accepted(_, _, _) => false,
        }
    }

    /// Whether it has this branch.
    fn has_branch(&self, branch: &[u8]) -> bool
        ensures { result ≡ invite_has_branch branch.now (Some self.now) }
    {
        match self {
            Invite::Outstanding(_, sent_invite) => sent_invite.branch.bytes() == branch,
            Invite::Accepted(sent, _, _) => sent.bytes() == branch,
        }
    }
}

impl Party {
    /// Whether the party is connected, and so has a dialog.
    pub fn is_connected(&self) -> bool
        ensures seated { result ≡ is_party_connected self.now }
    {
        match self {
            Party::Invited(_) => false,
            Party::DialedIn(_) => true,
            Party::DialedOut(_) => true,
        }
    }

    /// The dialog.
    pub fn dialogue(&self) -> &Dialogue
        ensures dialogue { result.now ≡ (leg_of self.now).dialogue }
    {
        match self {
            Party::Invited(leg) => leg.dialogue(),
            Party::DialedIn(leg) => leg.dialogue(),
            Party::DialedOut(leg) => leg.dialogue(),
        }
    }

    /// Accepts a request, or refuses it.
    fn receive_request(
        &mut self,
        request: &ReceivedMessage,
        in_flight: InFlight,
    ) -> Result<(), DialogueFault>
        ensures check { result ≡ request_check (leg_of self.old) request.now in_flight }
        ensures received { OnOk result (self.new ≡ with_leg (leg_after_request request.now (leg_of self.old)) self.old) }
        ensures refused { OnErr result (self.new ≡ self.old) }
    {
        match self {
            Party::Invited(leg) => receive_request(leg, request, in_flight),
            Party::DialedIn(leg) => receive_request(leg, request, in_flight),
            Party::DialedOut(leg) => receive_request(leg, request, in_flight),
        }
    }

    /// Ends the leg.
    pub fn leave(self) -> Ended
        ensures ended { result ≡ record { meter = (leg_of self).meter } }
    {
        match self {
            Party::Invited(leg) => leg.leave(),
            Party::DialedIn(leg) => leg.leave(),
            Party::DialedOut(leg) => leg.leave(),
        }
    }
}

impl ParticipantState {
    /// Whether the party is connected, and so has a dialog.
    pub fn is_connected(&self) -> bool
        ensures seated { result ≡ is_connected self.now }
    {
        self.party.is_connected()
    }

    /// The dialog of the party.
    pub fn dialogue(&self) -> &Dialogue
        ensures dialogue { result.now ≡ dialogue_of self.now }
    {
        self.party.dialogue()
    }

    /// The server's tag.
    pub fn tag(&self) -> &[u8]
        ensures tag { result.now ≡ tag_of self.now }
    {
        self.party.dialogue().local_tag.bytes()
    }

    /// Whether the server's INVITE to it has this branch.
    pub fn has_branch(&self, branch: &[u8]) -> bool
        ensures has_branch { result ≡ participant_has_branch branch.now self.now }
    {
        match &self.invite {
            None => false,
            Some(invite) => invite.has_branch(branch),
        }
    }

    /// Whether an INVITE of the server's own has no final response, or an ACK of the participant is due.
    fn invite_in_flight(&self) -> InFlight
        ensures { result ≡ invite_in_flight self.now }
    {
        if self.pending_ack.is_some() {
            return InFlight::Own;
        }
        match &self.invite {
            None => InFlight::None,
            Some(invite) => {
                if invite.is_outstanding() {
                    InFlight::Own
                } else {
                    InFlight::None
                }
            }
        }
    }

    /// Accepts a request of the participant, or refuses it.
    pub fn receive_request(&mut self, request: &ReceivedMessage) -> Result<(), DialogueFault>
        ensures check { result ≡ request_check (leg_of self.old.party) request.now (invite_in_flight self.old) }
        ensures received { OnOk result (self.new ≡ participant_after_request request.now self.old) }
        ensures refused { OnErr result (self.new ≡ self.old) }
    {
        let in_flight = self.invite_in_flight();
        self.party.receive_request(request, in_flight)
    }

    /// The ACK of the 2xx of this number is due; that 2xx answers the request that was received last.
    pub fn await_ack(&mut self, number: u64)
        ensures awaiting { self.new ≡ with_pending_ack number self.old }
    {
        let cseq = self.dialogue().remote_cseq;
        self.pending_ack = Some(PendingAck { number, cseq });
    }

    /// The party.
    pub fn into_party(self) -> Party
        ensures party { result ≡ self.party }
    {
        let ParticipantState {
            number: _,
            by: _,
            account: _,
            pending_ack: _,
            invite,
            party,
        } = self;
        drop(invite);
        party
    }

    /// Ends the participant, and discards its CDR.
    pub fn give_up(self, at: Moment) {
        let Ended { meter } = self.into_party().leave();
        give_up_meter(meter, at);
    }
}
