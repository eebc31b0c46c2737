//! The numbers of participants: which is next, whether the conference is full, and the place of one.
ghost use Rattle.std.specs.Prelude.{◌≡◌};
ghost use Rattle.mmtel_participants.specs.Participants.{has_no_free_seat, next_of, place_of};

use crate::participants::ParticipantState;
use mmtel_types::RoomNo;
use mmtel_types::limits::PARTICIPANTS;

/// The number of the creator, who is the first participant: the conference closes as the creator leaves.
pub const CREATOR: u64 = 1;

/// The numbers of the next participant of a conference.
#[derive(Clone, Copy)]
pub struct NextNumbers {
    /// The conference.
    pub room: RoomNo,
    /// The participant's number: participants are numbered from 1 in the order in which they come.
    pub seat: u64,
    /// The number of its invitation or 2xx, counted within this conference.
    pub number: u64,
}

impl NextNumbers {
    /// The numbers after those of the last participant and of the last invitation or 2xx.
    pub fn after(room: RoomNo, last_seat: u64, last_number: u64) -> NextNumbers
        ensures numbers { result ≡ next_of room last_seat last_number }
    {
        let seat = last_seat.saturating_add(1);
        let number = last_number.saturating_add(1);
        NextNumbers { room, seat, number }
    }
}

/// Whether the conference has its maximum number of participants, pending invitations among them.
pub fn has_no_free_seat(participants: &[ParticipantState]) -> bool
    ensures full { result ≡ has_no_free_seat participants.now }
{
    participants.len() >= PARTICIPANTS
}

/// The place of the participant of this number.
pub fn place_of(participants: &[ParticipantState], number: u64) -> Option<usize>
    ensures place { result ≡ place_of number participants.now }
{
    participants.iter().position(|seat| seat.number == number)
}
