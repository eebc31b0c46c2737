//! Which participant has a dialog, and how many participants a conference has.
ghost use Rattle.std.specs.Prelude.{◌≡◌, Some, position};
ghost use Rattle.std.specs.Option.{option_copied};
ghost use Rattle.mmtel_focus.specs.Queries.{has_dialog, is_named, number_at, participant_count, room_and_seat_in, room_and_seat_with_dialog, seat_with_dialog};

use crate::conferences::Conference;
use crate::live::LiveConferences;
use mmtel_leg::DialogName;
use mmtel_output::Mark;
use mmtel_participants::ParticipantState;
use mmtel_transaction::hash_of;
use mmtel_types::RoomNo;

/// Whether the participant is connected and its dialog has these identifiers.
fn is_named(seat: &ParticipantState, name: DialogName<'_>) -> bool
    ensures { result ≡ is_named name.entry.call_id.now name.entry.local.now name.entry.remote.now seat.now }
{
    seat.is_connected() && name.is_of(seat.dialogue())
}

fn number_at(participants: &[ParticipantState], place: Option<usize>) -> Option<u64>
    ensures { result ≡ number_at place participants.now }
{
    match place {
        None => None,
        Some(place) => match participants.get(place) {
            None => None,
            Some(seat) => Some(seat.number),
        },
    }
}

fn place_with_dialog(participants: &[ParticipantState], name: DialogName<'_>) -> Option<usize>
    ensures { result ≡ position (is_named name.entry.call_id.now name.entry.local.now name.entry.remote.now) participants.now }
{
    participants.iter().position(|seat| is_named(seat, name))
}

/// The participant of a conference whose dialog has these identifiers.
fn seat_with_dialog(conference: &Conference, name: DialogName<'_>) -> Option<u64>
    ensures { result ≡ seat_with_dialog name.entry.call_id.now name.entry.local.now name.entry.remote.now conference.now }
{
    number_at(
        &conference.participants,
        place_with_dialog(&conference.participants, name),
    )
}

fn has_dialog(conference: &Conference, name: DialogName<'_>) -> bool
    ensures { result ≡ has_dialog name.entry.call_id.now name.entry.local.now name.entry.remote.now conference.now }
{
    seat_with_dialog(conference, name).is_some()
}

fn place_in_with_dialog(conferences: &[Conference], name: DialogName<'_>) -> Option<usize>
    ensures { result ≡ position (has_dialog name.entry.call_id.now name.entry.local.now name.entry.remote.now) conferences.now }
{
    conferences.iter().position(|room| has_dialog(room, name))
}

/// The place of the conference with a participant whose dialog has these identifiers.
fn conference_place_with_dialog(live: &LiveConferences, name: DialogName<'_>) -> Option<usize>
    ensures { result ≡ position (has_dialog name.entry.call_id.now name.entry.local.now name.entry.remote.now) live.now.items }
{
    let start = live.first_place_for(Mark::LocalTag(hash_of(name.local)));
    let place = place_in_with_dialog(live.conferences_from(start), name);
    live.absolute_place(start, place)
}

fn room_and_seat_in(conference: &Conference, name: DialogName<'_>) -> Option<(RoomNo, u64)>
    ensures { result ≡ room_and_seat_in name.entry.call_id.now name.entry.local.now name.entry.remote.now (Some conference.now) }
{
    match seat_with_dialog(conference, name) {
        None => None,
        Some(seat) => Some((conference.number, seat)),
    }
}

/// The conference and the participant whose dialog has these identifiers.
pub fn find(live: &LiveConferences, name: DialogName<'_>) -> Option<(RoomNo, u64)>
    ensures { result ≡ room_and_seat_with_dialog name.entry.call_id.now name.entry.local.now name.entry.remote.now live.now.items }
{
    match conference_place_with_dialog(live, name) {
        None => None,
        Some(place) => match live.conferences().get(place) {
            None => None,
            Some(room) => room_and_seat_in(room, name),
        },
    }
}

/// How many participants a conference has; none where it is not live.
pub fn participant_count(live: &LiveConferences, room: RoomNo) -> u32
    ensures { result ≡ participant_count room.0 live.now.items }
{
    match live.place_of(room) {
        None => 0,
        Some(place) => {
            let conference = &live.conferences()[place];
            u32::try_from(conference.participants.len()).unwrap_or(u32::MAX)
        }
    }
}
