//! The marks by which a conference is found: the branches of the INVITEs to its participants, and the server's tags of their dialogs.
ghost use Rattle.std.specs.Prelude.{◌≡◌, ◌∷◌, [], flat_map};
ghost use Rattle.mmtel_output.specs.Marks.{MarkUpdate};
ghost use Rattle.mmtel_focus.specs.Marks.{branch_of, marks_of, participant_marks, sent_invite_marks};

use crate::conferences::Conference;
use mmtel_output::{Index, Mark};
use mmtel_participants::{Invite, ParticipantState};
use mmtel_transaction::hash_of;

/// The branch of the server's INVITE to a participant.
fn branch_of(invite: &Invite) -> &[u8]
    ensures { result.now ≡ branch_of invite.now }
{
    match invite {
        Invite::Outstanding(_, sent_invite) => sent_invite.branch.bytes(),
        Invite::Accepted(branch, _, _) => branch.bytes(),
    }
}

/// Enters the mark of the server's INVITE to this participant for the conference of this number, or removes it.
fn put_invite(index: &mut Index, participant: &ParticipantState, room: u64, stays: bool)
    ensures { MarkUpdate stays room (sent_invite_marks participant.now.invite) index.old index.new }
{
    match &participant.invite {
        None => {}
        Some(invite) => index.put(Mark::Branch(hash_of(branch_of(invite))), room, stays),
    }
}

/// The same of the marks of this participant.
fn put_participant(index: &mut Index, participant: &ParticipantState, room: u64, stays: bool)
    ensures { MarkUpdate stays room (participant_marks participant.now) index.old index.new }
{
    index.put(Mark::LocalTag(hash_of(participant.tag())), room, stays);
    put_invite(index, participant, room, stays);
}

/// The same of the marks of these participants.
fn put_participants(index: &mut Index, participants: &[ParticipantState], room: u64, stays: bool)
    ensures { MarkUpdate stays room (flat_map participant_marks participants.now) index.old index.new }
{
    for seat in participants {
        put_participant(index, seat, room, stays);
    }
}

/// Enters the marks of all participants of this conference, or removes them.
pub fn put_conference(index: &mut Index, conference: &Conference, stays: bool)
    ensures { MarkUpdate stays conference.now.number.0 (marks_of conference.now) index.old index.new }
{
    put_participants(index, &conference.participants, conference.number.0, stays);
}
