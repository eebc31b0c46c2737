//! The live conferences, as they are kept: in the order of their numbers, with an index by their marks.
ghost use Rattle.std.specs.Prelude.{◌≡◌, ◌≤◌, ◌<◌, ◌+◌, ◌++◌, ◌∷◌, [], ℕ, IfErr, IfOk, None, OnErr, OnOk, Some, drop, length, remove};
ghost use Rattle.std.specs.Prelude.{slice_get, slice_set, take, true};
ghost use Rattle.std.specs.List.Sorted.{IsNonDecreasingBy};
ghost use Rattle.std.specs.Option.{option_map};
ghost use Rattle.mmtel_output.specs.Marks.{AreBelow, AreUnmarked};
ghost use Rattle.mmtel_leg.specs.Releases.{released_leg};
ghost use Rattle.mmtel_base.specs.Numbers.{next_number};
ghost use Rattle.mmtel_sdp.specs.Offers.{offers_audio};
ghost use Rattle.mmtel_focus.specs.Joining.{new_conference};
ghost use Rattle.mmtel_focus.specs.Marks.{marks_of, number_of};
ghost use Rattle.mmtel_focus.specs.Table.{conferences_without_seat, place_of, row_in_conference, step_of_opening};

use crate::conferences::Conference;
use crate::index_marks::put_conference;
use crate::joining::Entrant;
use mmtel_charging::Row;
use mmtel_compose::ReceivedMessage;
use mmtel_leg::Released;
use mmtel_output::{Index, Mark};
use mmtel_participants::{Effects, StepContext};
use mmtel_transaction::TKey;
use mmtel_types::{Moment, RoomNo};
use std::alloc::Global;
use std::marker::Model;
use std::mem;

/// The live conferences. The value is linear: it must be spent.
pub struct LiveConferences {
    conferences: Vec<Conference>,
    opened: u64,
    index: Index,
}

impl Model for LiveConferences {
    ghost use Rattle.mmtel_focus.specs.Marks.{LiveConferencesView};

    ghost Value = { LiveConferencesView };

    ghost use Rattle.mmtel_focus.specs.Marks.{TableInvariant};

    ghost view = { λ r. record { items = r.conferences.items; opened = r.opened } };

    ghost invariant = { λ r. TableInvariant r.conferences.items r.opened r.index };
}

/// Spends a conference and all its participants, without CDRs.
pub fn give_up_conference(conference: Conference, at: Moment) {
    let Conference {
        number: _,
        last_seat: _,
        last_number: _,
        participants,
    } = conference;
    let mut participants = participants;
    'participants: while let Some(participant) = participants.pop() {
        participant.give_up(at);
    }
    participants.destroy_empty();
}

/// The moment 0, for CDRs that are discarded.
pub fn beginning() -> Moment {
    match Moment::new(0) {
        Some(moment) => moment,
        None => unreachable!(),
    }
}

/// The place of the conference of this number.
fn place_in(conferences: &[Conference], number: RoomNo) -> Option<usize>
    requires { IsNonDecreasingBy number_of conferences.now }
    ensures { result ≡ place_of number.0 conferences.now }
{
    let place = conferences.partition_point(|room| room.number.0 < number.0);
    if place == conferences.len() {
        return None;
    }
    let found = &conferences[place];
    if found.number.0 == number.0 {
        Some(place)
    } else {
        None
    }
}

/// The first place from which on no conference has a lower number.
fn lower_bound(conferences: &[Conference], number: u64) -> usize
    requires { IsNonDecreasingBy number_of conferences.now }
    ensures within { result ≤ length conferences.now }
    ensures lower { AreBelow number_of number (take result conferences.now) }
{
    conferences.partition_point(|room| room.number.0 < number)
}

/// The place so many places after another one, where so many conferences are kept.
fn place_after(from: usize, places: usize, count: usize) -> Option<usize>
    requires { from + places < count }
    ensures { result ≡ Some (from + places) }
{
    let place = from + places;
    if place < count { Some(place) } else { None }
}

/// A conference of its own for a leg that comes by an INVITE which offers audio.
///
/// # Errors
///
/// Out of memory only; the leg is handed back.
#[tactic(auto, unfolding(crate::specs::Joining::after_join))]
fn open(
    step: &StepContext<'_>,
    number: RoomNo,
    entrant: Entrant,
    key: TKey,
    invite: &ReceivedMessage,
    effects: &mut Effects,
) -> Result<Conference, Released>
    requires unmetered { (released_leg entrant.leg).meter ≡ None }
    requires audio { offers_audio invite.now.parsed.body ≡ true }
    ensures conference { IfOk result (λ room. room
        ≡ (step_of_opening step.now.config step.now.at entrant.leg entrant.account key invite.now number effects.old).conference) }
    ensures effects { OnOk result (effects.new
        ≡ (step_of_opening step.now.config step.now.at entrant.leg entrant.account key invite.now number effects.old).effects) }
    ensures handed_back { IfErr result (λ l. l ≡ entrant.leg) }
{
    let mut room = Conference::new(step.alloc, number);
    match room.join(step, entrant, key, invite, effects) {
        Ok(()) => Ok(room),
        Err(leg) => {
            give_up_conference(room, step.at);
            Err(leg)
        }
    }
}

impl LiveConferences {
    /// None yet. It allocates nothing.
    pub fn new(alloc: Global) -> LiveConferences
        ensures { result ≡ record { items = []; opened = 0 } }
    {
        LiveConferences {
            conferences: Vec::new(alloc),
            opened: 0,
            index: Index::new(alloc),
        }
    }

    /// The conferences, in the order in which they were opened.
    pub fn conferences(&self) -> &[Conference]
        ensures { result.now ≡ self.now.items }
    {
        &self.conferences
    }

    /// The place of the conference of this number.
    pub fn place_of(&self, number: RoomNo) -> Option<usize>
        ensures { result ≡ place_of number.0 self.now.items }
    {
        place_in(&self.conferences, number)
    }

    /// The place before which no conference has this mark.
    pub fn first_place_for(&self, mark: Mark) -> usize
        ensures within { result ≤ length self.now.items }
        ensures none { AreUnmarked marks_of mark (take result self.now.items) }
    {
        match self.index.first(mark) {
            None => self.conferences.len(),
            Some(number) => lower_bound(&self.conferences, number),
        }
    }

    /// The conferences from this place on.
    pub fn conferences_from(&self, from: usize) -> &[Conference]
        requires { from ≤ length self.now.items }
        ensures { result.now ≡ drop from self.now.items }
    {
        let rooms: &[Conference] = &self.conferences;
        &rooms[from..]
    }

    /// The place, among all conferences, of one at this place among those from another place on.
    pub fn absolute_place(&self, from: usize, place: Option<usize>) -> Option<usize>
        requires { (n : ℕ) → place ≡ Some n → from + n < length self.now.items }
        ensures { result ≡ option_map (λ n. from + n) place }
    {
        match place {
            None => None,
            Some(place) => place_after(from, place, self.conferences.len()),
        }
    }

    /// Opens a conference for a leg that comes by an INVITE which offers audio. It has the next number.
    ///
    /// # Errors
    ///
    /// Out of memory only, or where all numbers are used: 2^64 - 1 are opened in all; the leg is handed back.
    pub fn open(
        &mut self,
        step: &StepContext<'_>,
        entrant: Entrant,
        key: TKey,
        invite: &ReceivedMessage,
        effects: &mut Effects,
    ) -> Result<RoomNo, Released>
        requires unmetered { (released_leg entrant.leg).meter ≡ None }
        requires audio { offers_audio invite.now.parsed.body ≡ true }
        ensures number { IfOk result (λ number. number.0 ≡ next_number self.old.opened) }
        ensures live { OnOk result (self.new ≡ record {
          items = self.old.items ++ (step_of_opening step.now.config step.now.at entrant.leg entrant.account key invite.now
              (record { 0 = next_number self.old.opened }) effects.old).conference ∷ [];
          opened = next_number self.old.opened;
        }) }
        ensures effects { OnOk result (effects.new
            ≡ (step_of_opening step.now.config step.now.at entrant.leg entrant.account key invite.now (record { 0 = next_number self.old.opened }) effects.old).effects) }
        ensures refused { OnErr result (self.new ≡ self.old) }
        ensures handed_back { IfErr result (λ l. l ≡ entrant.leg) }
    {
        if self.opened == u64::MAX {
            return Err(entrant.into_leg());
        }
        if self.conferences.reserve(1).is_err() {
            return Err(entrant.into_leg());
        }
        let number = RoomNo(self.opened.saturating_add(1));
        match open(step, number, entrant, key, invite, effects) {
            Err(leg) => Err(leg),
            Ok(room) => {
                put_conference(&mut self.index, &room, true);
                self.conferences.push_reserved(room);
                self.opened = number.0;
                Ok(number)
            }
        }
    }

    /// Moves the conference at this place out, for a step of it: an empty conference of its number is at this place until it is put back.
    pub fn take_out(&mut self, alloc: Global, place: usize) -> Conference
        requires { place < length self.old.items }
        ensures conference { slice_get self.old.items place ≡ Some result }
        ensures live { self.new ≡ record self.old { items = slice_set self.old.items place (new_conference result.number) } }
    {
        let room = &mut self.conferences[place];
        put_conference(&mut self.index, room, false);
        let blank = Conference::new(alloc, room.number);
        mem::replace(room, blank)
    }

    /// Puts the conference back that was moved out of this place.
    pub fn put_back(&mut self, place: usize, conference: Conference)
        requires { slice_get self.old.items place ≡ Some (new_conference conference.number) }
        ensures { self.new ≡ record self.old { items = slice_set self.old.items place conference } }
    {
        put_conference(&mut self.index, &conference, true);
        let blank = mem::replace(&mut self.conferences[place], conference);
        give_up_conference(blank, beginning());
    }

    /// Removes the conference at this place.
    pub fn remove(&mut self, place: usize) -> Conference
        requires { place < length self.old.items }
        ensures conference { slice_get self.old.items place ≡ Some result }
        ensures live { self.new ≡ record self.old { items = remove self.old.items place } }
    {
        let room = self.conferences.remove(place);
        put_conference(&mut self.index, &room, false);
        room
    }

    /// A participant of the conference at this place leaves.
    pub fn leave_at(&mut self, place: usize, seat: u64, now: Moment) -> Option<Row>
        requires { place < length self.old.items }
        ensures live { self.new
            ≡ record self.old { items = conferences_without_seat seat place (slice_get self.old.items place) self.old.items } }
        ensures row { result ≡ row_in_conference now seat (slice_get self.old.items place) }
    {
        let room = &mut self.conferences[place];
        put_conference(&mut self.index, room, false);
        let row = room.leave(seat, now);
        put_conference(&mut self.index, room, true);
        row
    }

    /// Spends all of them, without CDRs. It allocates nothing.
    pub fn give_up(self) {
        let LiveConferences {
            conferences,
            opened: _,
            index,
        } = self;
        drop(index);
        let mut conferences = conferences;
        'conferences: while let Some(conference) = conferences.pop() {
            give_up_conference(conference, beginning());
        }
        conferences.destroy_empty();
    }
}
