//! A participant leaves, and a conference closes, without a signal: nothing is sent.
ghost use Rattle.std.specs.Prelude.{◌≡◌, ◌≤◌, ◌<◌, [], IfOk, OnErr, OnOk, length, map, remove, slice_get, vec_capacity};
ghost use Rattle.mmtel_focus.specs.Queries.{ended_leg, ended_legs, participants_in};
ghost use Rattle.mmtel_focus.specs.Participants.{place_of};
ghost use Rattle.mmtel_focus.specs.Table.{conference_without_at, conference_without_seat, conferences_after_close};
ghost use Rattle.mmtel_focus.specs.Table.{conferences_after_leave, row_by, row_in, row_of_leave, row_of_participant};

use crate::conferences::Conference;
use crate::live::LiveConferences;
use mmtel_base::NoMemory;
use mmtel_charging::{Meter, Row};
use mmtel_leg::Ended;
use mmtel_participants as seats;
use mmtel_types::{Cause, Moment, RoomNo};
use std::alloc::Global;

/// The CDR of a meter that ends now.
fn row_by(meter: Option<Meter>, now: Moment) -> Option<Row>
    ensures { result ≡ row_by now meter }
{
    match meter {
        None => None,
        Some(meter) => Some(meter.close(now, 0, Cause::Ended)),
    }
}

impl Conference {
    /// The participant at this place leaves, where it is connected; returns its CDR.
    fn leave_at(&mut self, place: usize, now: Moment) -> Option<Row>
        requires { place < length self.old.participants }
        ensures conference { self.new ≡ conference_without_at place (slice_get self.old.participants place) self.old }
        ensures row { result ≡ row_of_participant now (slice_get self.old.participants place) }
    {
        if !self.participants[place].is_connected() {
            return None;
        }
        let Ended { meter } = self.participants.remove(place).end();
        row_by(meter, now)
    }

    /// The participant of this number leaves, where it is connected; returns its CDR.
    pub fn leave(&mut self, seat: u64, now: Moment) -> Option<Row>
        ensures conference { self.new ≡ conference_without_seat seat self.old }
        ensures row { result ≡ row_in now (place_of seat self.old.participants) self.old.participants }
    {
        match seats::place_of(&self.participants, seat) {
            None => None,
            Some(place) => self.leave_at(place, now),
        }
    }
}

/// A participant leaves, where it is connected; returns its CDR.
#[tactic(auto, unfolding(crate::specs::Table::conferences_after_leave, crate::specs::Table::row_of_leave))]
pub fn leave(live: &mut LiveConferences, room: RoomNo, seat: u64, now: Moment) -> Option<Row>
    ensures live { live.new ≡ record live.old { items = conferences_after_leave room.0 seat live.old.items } }
    ensures row { result ≡ row_of_leave now room.0 seat live.old.items }
{
    match live.place_of(room) {
        None => None,
        Some(place) => live.leave_at(place, seat, now),
    }
}

/// What remains of the participants of a conference, in their order.
fn end_all(conference: Conference, blank: Vec<Ended>) -> Vec<Ended>
    requires empty { blank.items ≡ [] }
    requires capacity { length conference.participants ≤ vec_capacity blank }
    ensures { result.items ≡ map ended_leg conference.participants }
{
    let Conference {
        number: _,
        last_seat: _,
        last_number: _,
        participants,
    } = conference;
    let mut participants = participants;
    let mut all = blank;
    'participants: while !participants.is_empty() {
        all.push_reserved(participants.remove(0).end());
    }
    participants.destroy_empty();
    all
}

/// Closes the conference at this place.
fn close_at(live: &mut LiveConferences, alloc: Global, place: usize) -> Result<Vec<Ended>, NoMemory>
    requires { place < length live.old.items }
    ensures ended { IfOk result (λ all. all.items ≡ map ended_leg (participants_in (slice_get live.old.items place))) }
    ensures live { OnOk result (live.new ≡ record live.old { items = remove live.old.items place }) }
    ensures refused { OnErr result (live.new ≡ live.old) }
{
    let closing = &live.conferences()[place];
    let count = closing.participants.len();
    let mut blank = Vec::new(alloc);
    if blank.reserve(count).is_err() {
        blank.destroy_empty();
        return Err(NoMemory);
    }
    Ok(end_all(live.remove(place), blank))
}

/// Closes a conference, and returns what remains of its participants, in their order; none where it is not live.
///
/// # Errors
///
/// Out of memory only; the conferences have not changed then.
#[tactic(auto, unfolding(crate::specs::Table::conferences_after_close))]
pub fn close(
    live: &mut LiveConferences,
    alloc: Global,
    room: RoomNo,
) -> Result<Vec<Ended>, NoMemory>
    ensures ended { IfOk result (λ all. all.items ≡ ended_legs room.0 live.old.items) }
    ensures live { OnOk result (live.new ≡ record live.old { items = conferences_after_close room.0 live.old.items }) }
    ensures refused { OnErr result (live.new ≡ live.old) }
{
    match live.place_of(room) {
        None => Ok(Vec::new(alloc)),
        Some(place) => close_at(live, alloc, place),
    }
}
