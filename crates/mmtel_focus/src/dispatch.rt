//! A signal is processed: the participant that it is of takes its transition, or it belongs to an abandoned INVITE.
ghost use Rattle.std.specs.Prelude.{◌≡◌, ◌<◌, ℕ, List, OnOk, Some, length, position, slice_get};
ghost use Rattle.mmtel_output.specs.AbandonedInvites.{is_of_branch};
ghost use Rattle.mmtel_focus.specs.Borrowed.{signal_of_borrowed};
ghost use Rattle.mmtel_focus.specs.Conferences.{in_step, Conference};
ghost use Rattle.mmtel_focus.specs.Participants.{at_participant, at_place};
ghost use Rattle.mmtel_output.specs.ResponseMatching.{awaited_request_branch, timed_out_branch};
ghost use Rattle.mmtel_focus.specs.Table.{conference_has_branch, step_by_branch, step_by_number, step_of_abandoned_response};
ghost use Rattle.mmtel_focus.specs.Table.{step_of_first, step_of_participant, step_of_response, step_of_response_at};
ghost use Rattle.mmtel_focus.specs.Table.{is_abandoned_key, participant_has_branch, step_of_signal, step_of_timeout, step_of_timeout_at, step_result_at, step_result_in, without};

use crate::conferences::Conference;
use crate::live::{LiveConferences, give_up_conference};
use crate::signals::{BorrowedSignal, RoomSignal};
use mmtel_base::{List, NoMemory};
use mmtel_compose::ReceivedMessage;
use mmtel_message::OwnAddress;
use mmtel_output::{
    AbandonedInvite, Mark, abandoned_at, abandoned_of, awaited_request_branch, drop_at, push_item,
    timed_out_branch,
};
use mmtel_participants::{self as seats, Effects, ParticipantState, StepContext};
use mmtel_transaction::{TKey, hash_of};
use mmtel_types::RoomNo;
use std::alloc::Global;

/// The place of the participant of a conference to which the INVITE of this branch was sent.
fn participant_place_by_branch(participants: &[ParticipantState], branch: &[u8]) -> Option<usize>
    ensures { result ≡ position (participant_has_branch branch.now) participants.now }
{
    participants.iter().position(|seat| seat.has_branch(branch))
}

impl Conference {
    /// Whether the INVITE of this branch was sent to a participant of the conference.
    fn has_branch(&self, branch: &[u8]) -> bool
        ensures { result ≡ conference_has_branch branch.now self.now }
    {
        self.participants.iter().any(|seat| seat.has_branch(branch))
    }

    /// The participant at this place receives a signal.
    #[tactic(auto, unfolding(crate::specs::Table::step_of_participant))]
    fn receive_at(
        &mut self,
        step: &StepContext<'_>,
        signal: BorrowedSignal<'_>,
        place: usize,
        effects: &mut Effects,
    ) -> Result<(), NoMemory>
        requires { place < length self.old.participants }
        ensures conference { OnOk result (self.new
            ≡ (at_participant (step_of_participant step.now.config step.now.at (signal_of_borrowed signal.entry)) place (in_step self.old effects.old)).conference) }
        ensures effects { OnOk result (effects.new
            ≡ (at_participant (step_of_participant step.now.config step.now.at (signal_of_borrowed signal.entry)) place (in_step self.old effects.old)).effects) }
    {
        match signal {
            BorrowedSignal::Request { key, request } => {
                self.receive_request(step, key, request, place, effects)
            }
            BorrowedSignal::Ack { ack } => self.receive_ack(ack, place, effects),
            BorrowedSignal::Answer { key, response } => {
                self.receive_response(step, key, response, place, effects)
            }
            BorrowedSignal::Silent => self.receive_timeout(step, place, effects),
            BorrowedSignal::Due { what } => self.fire_timer(step, what, place, effects),
        }
    }

    /// The participant at a place receives a signal, if there is one.
    fn receive(
        &mut self,
        step: &StepContext<'_>,
        signal: BorrowedSignal<'_>,
        place: Option<usize>,
        effects: &mut Effects,
    ) -> Result<(), NoMemory>
        requires { (n : ℕ) → place ≡ Some n → n < length self.old.participants }
        ensures conference { OnOk result (self.new
            ≡ (at_place (step_of_participant step.now.config step.now.at (signal_of_borrowed signal.entry)) place (in_step self.old effects.old)).conference) }
        ensures effects { OnOk result (effects.new
            ≡ (at_place (step_of_participant step.now.config step.now.at (signal_of_borrowed signal.entry)) place (in_step self.old effects.old)).effects) }
    {
        match place {
            None => Ok(()),
            Some(place) => self.receive_at(step, signal, place, effects),
        }
    }
}

/// The conference at this place receives a signal, by its participant at that place; it is removed from the table where it closes.
#[tactic(auto, using(crate::proofs::TableInvariant::put_twice))]
fn step_at(
    live: &mut LiveConferences,
    step: &StepContext<'_>,
    signal: BorrowedSignal<'_>,
    place: usize,
    seat: Option<usize>,
    effects: &mut Effects,
) -> Result<(), NoMemory>
    requires place { place < length live.old.items }
    requires participant { (room : Conference) → slice_get live.old.items place ≡ Some room →
        (n : ℕ) → seat ≡ Some n → n < length room.participants }
    ensures live { OnOk result (live.new ≡ record live.old {
      items = (step_result_at (at_place (step_of_participant step.now.config step.now.at (signal_of_borrowed signal.entry)) seat)
          place (slice_get live.old.items place) live.old.items effects.old).live;
    }) }
    ensures effects { OnOk result (effects.new
        ≡ (step_result_at (at_place (step_of_participant step.now.config step.now.at (signal_of_borrowed signal.entry)) seat)
        place (slice_get live.old.items place) live.old.items effects.old).effects) }
{
    let mut room = live.take_out(step.alloc, place);
    match room.receive(step, signal, seat, effects) {
        Err(error) => {
            give_up_conference(room, step.at);
            Err(error)
        }
        Ok(()) => {
            live.put_back(place, room);
            if effects.closes {
                give_up_conference(live.remove(place), step.at);
            }
            Ok(())
        }
    }
}

/// The participant of this number in the conference of this number receives a signal.
fn receive_in(
    live: &mut LiveConferences,
    step: &StepContext<'_>,
    room: RoomNo,
    seat: u64,
    signal: BorrowedSignal<'_>,
    effects: &mut Effects,
) -> Result<(), NoMemory>
    ensures live { OnOk result (live.new
        ≡ record live.old { items = (step_by_number step.now.config step.now.at room.0 seat (signal_of_borrowed signal.entry) live.old.items effects.old).live }) }
    ensures effects { OnOk result (effects.new
        ≡ (step_by_number step.now.config step.now.at room.0 seat (signal_of_borrowed signal.entry) live.old.items effects.old).effects) }
{
    match live.place_of(room) {
        None => Ok(()),
        Some(place) => {
            let conference = &live.conferences()[place];
            let seat = seats::place_of(&conference.participants, seat);
            step_at(live, step, signal, place, seat, effects)
        }
    }
}

/// The place of the one of these conferences to a participant of which the INVITE of this branch was sent.
fn place_by_branch(conferences: &[Conference], branch: &[u8]) -> Option<usize>
    ensures { result ≡ position (conference_has_branch branch.now) conferences.now }
{
    conferences.iter().position(|room| room.has_branch(branch))
}

/// The place of the conference to a participant of which the INVITE of this branch was sent.
fn conference_place_by_branch(live: &LiveConferences, branch: &[u8]) -> Option<usize>
    ensures { result ≡ position (conference_has_branch branch.now) live.now.items }
{
    let start = live.first_place_for(Mark::Branch(hash_of(branch)));
    let place = place_by_branch(live.conferences_from(start), branch);
    live.absolute_place(start, place)
}

/// The participant to which the INVITE of this branch was sent receives a signal.
fn receive_by_branch(
    live: &mut LiveConferences,
    step: &StepContext<'_>,
    branch: &[u8],
    signal: BorrowedSignal<'_>,
    effects: &mut Effects,
) -> Result<(), NoMemory>
    ensures live { OnOk result (live.new
        ≡ record live.old { items = (step_by_branch step.now.config step.now.at branch.now (signal_of_borrowed signal.entry) live.old.items effects.old).live }) }
    ensures effects { OnOk result (effects.new
        ≡ (step_by_branch step.now.config step.now.at branch.now (signal_of_borrowed signal.entry) live.old.items effects.old).effects) }
{
    match conference_place_by_branch(live, branch) {
        None => Ok(()),
        Some(place) => {
            let asking = &live.conferences()[place];
            let seat = participant_place_by_branch(&asking.participants, branch);
            step_at(live, step, signal, place, seat, effects)
        }
    }
}

/// A response to the abandoned INVITE at this place.
fn receive_abandoned_at(
    abandoned: &mut List<AbandonedInvite>,
    alloc: Global,
    sip: OwnAddress,
    key: TKey,
    response: &ReceivedMessage,
    place: usize,
    effects: &mut Effects,
) -> Result<(), NoMemory>
    requires { place < length abandoned.old }
    ensures abandoned { OnOk result ((live : List Conference) →
        abandoned.new ≡ (step_of_abandoned_response sip key response.now place (slice_get abandoned.old place) live abandoned.old effects.old).abandoned) }
    ensures effects { OnOk result ((live : List Conference) →
        effects.new ≡ (step_of_abandoned_response sip key response.now place (slice_get abandoned.old place) live abandoned.old effects.old).effects) }
{
    let one = abandoned.remove(place);
    match effects
        .output
        .receive_abandoned(alloc, sip, key, one, response)?
    {
        None => Ok(()),
        Some(remaining) => push_item(alloc, abandoned, remaining),
    }
}

/// A response to the INVITE of this branch: an abandoned one, or that of a participant.
fn receive_response_to(
    live: &mut LiveConferences,
    abandoned: &mut List<AbandonedInvite>,
    step: &StepContext<'_>,
    key: TKey,
    response: &ReceivedMessage,
    branch: &[u8],
    effects: &mut Effects,
) -> Result<(), NoMemory>
    ensures live { OnOk result (live.new ≡ record live.old {
      items = (step_of_response_at step.now.config step.now.at key response.now branch.now
          (position (is_of_branch branch.now) abandoned.old) live.old.items abandoned.old effects.old).live;
    }) }
    ensures abandoned { OnOk result (abandoned.new
        ≡ (step_of_response_at step.now.config step.now.at key response.now branch.now
        (position (is_of_branch branch.now) abandoned.old) live.old.items abandoned.old effects.old).abandoned) }
    ensures effects { OnOk result (effects.new
        ≡ (step_of_response_at step.now.config step.now.at key response.now branch.now
        (position (is_of_branch branch.now) abandoned.old) live.old.items abandoned.old effects.old).effects) }
{
    match abandoned_at(abandoned.items(), branch) {
        Some(place) => receive_abandoned_at(
            abandoned,
            step.alloc,
            step.config.sip,
            key,
            response,
            place,
            effects,
        ),
        None => {
            let signal = BorrowedSignal::Answer { key, response };
            receive_by_branch(live, step, branch, signal, effects)
        }
    }
}

/// The INVITE of this branch got no response at all and timed out: an abandoned one has ended.
fn receive_timeout_of(
    live: &mut LiveConferences,
    abandoned: &mut List<AbandonedInvite>,
    step: &StepContext<'_>,
    branch: &[u8],
    effects: &mut Effects,
) -> Result<(), NoMemory>
    ensures live { OnOk result (live.new ≡ record live.old {
      items = (step_of_timeout_at step.now.config step.now.at branch.now (position (is_of_branch branch.now) abandoned.old) live.old.items abandoned.old effects.old).live;
    }) }
    ensures abandoned { OnOk result (abandoned.new
        ≡ (step_of_timeout_at step.now.config step.now.at branch.now (position (is_of_branch branch.now) abandoned.old) live.old.items abandoned.old effects.old).abandoned) }
    ensures effects { OnOk result (effects.new
        ≡ (step_of_timeout_at step.now.config step.now.at branch.now (position (is_of_branch branch.now) abandoned.old) live.old.items abandoned.old effects.old).effects) }
{
    match abandoned_at(abandoned.items(), branch) {
        Some(place) => {
            drop(abandoned.remove(place));
            Ok(())
        }
        None => receive_by_branch(live, step, branch, BorrowedSignal::Silent, effects),
    }
}

/// A response: to an INVITE of the server's own, by its branch, or to another request, whose response is not waited for.
fn receive_response(
    live: &mut LiveConferences,
    abandoned: &mut List<AbandonedInvite>,
    step: &StepContext<'_>,
    key: TKey,
    response: &ReceivedMessage,
    effects: &mut Effects,
) -> Result<(), NoMemory>
    ensures live { OnOk result (live.new ≡ record live.old {
      items = (step_of_response step.now.config step.now.at key response.now (awaited_request_branch response.now) live.old.items abandoned.old effects.old).live;
    }) }
    ensures abandoned { OnOk result (abandoned.new
        ≡ (step_of_response step.now.config step.now.at key response.now (awaited_request_branch response.now) live.old.items abandoned.old effects.old).abandoned) }
    ensures effects { OnOk result (effects.new
        ≡ (step_of_response step.now.config step.now.at key response.now (awaited_request_branch response.now) live.old.items abandoned.old effects.old).effects) }
{
    match awaited_request_branch(step.alloc, response)? {
        None => Ok(()),
        Some(branch) => {
            let branch = branch.bytes();
            receive_response_to(live, abandoned, step, key, response, branch, effects)
        }
    }
}

/// The request of this branch and this method got no response at all and timed out.
fn receive_timeout(
    live: &mut LiveConferences,
    abandoned: &mut List<AbandonedInvite>,
    step: &StepContext<'_>,
    branch: &[u8],
    method: &[u8],
    effects: &mut Effects,
) -> Result<(), NoMemory>
    ensures live { OnOk result (live.new ≡ record live.old {
      items = (step_of_timeout step.now.config step.now.at (timed_out_branch branch.now method.now) live.old.items abandoned.old effects.old).live;
    }) }
    ensures abandoned { OnOk result (abandoned.new
        ≡ (step_of_timeout step.now.config step.now.at (timed_out_branch branch.now method.now) live.old.items abandoned.old effects.old).abandoned) }
    ensures effects { OnOk result (effects.new
        ≡ (step_of_timeout step.now.config step.now.at (timed_out_branch branch.now method.now) live.old.items abandoned.old effects.old).effects) }
{
    match timed_out_branch(branch, method) {
        None => Ok(()),
        Some(branch) => receive_timeout_of(live, abandoned, step, branch, effects),
    }
}

/// Removes the abandoned INVITE of this client transaction, which has ended.
fn drop_ended(abandoned: &mut List<AbandonedInvite>, key: TKey)
    ensures { abandoned.new ≡ without (position (is_abandoned_key key) abandoned.old) abandoned.old }
{
    let place = abandoned_of(abandoned.items(), key);
    drop_at(abandoned, place);
}

/// The conferences after a signal, and the abandoned INVITEs.
#[tactic(auto, unfolding(crate::specs::Table::step_of_signal))]
pub fn dispatch(
    live: &mut LiveConferences,
    abandoned: &mut List<AbandonedInvite>,
    step: &StepContext<'_>,
    signal: &RoomSignal,
    effects: &mut Effects,
) -> Result<(), NoMemory>
    ensures live { OnOk result (live.new
        ≡ record live.old { items = (step_of_signal step.now.config step.now.at signal.now live.old.items abandoned.old effects.old).live }) }
    ensures abandoned { OnOk result (abandoned.new
        ≡ (step_of_signal step.now.config step.now.at signal.now live.old.items abandoned.old effects.old).abandoned) }
    ensures effects { OnOk result (effects.new
        ≡ (step_of_signal step.now.config step.now.at signal.now live.old.items abandoned.old effects.old).effects) }
{
    match signal {
        RoomSignal::Request {
            room,
            seat,
            key,
            request,
        } => {
            let signal = BorrowedSignal::Request { key: *key, request };
            receive_in(live, step, *room, *seat, signal, effects)
        }
        RoomSignal::Ack { room, seat, ack } => {
            let signal = BorrowedSignal::Ack { ack };
            receive_in(live, step, *room, *seat, signal, effects)
        }
        RoomSignal::Answer { key, response } => receive_response(
            live, abandoned, step, *key, response, effects,
        ),
        RoomSignal::Silent { branch, method } => {
            let branch = branch.bytes();
            let method = method.bytes();
            receive_timeout(live, abandoned, step, branch, method, effects)
        }
        RoomSignal::Due { room, seat, what } => {
            let signal = BorrowedSignal::Due { what: *what };
            receive_in(live, step, *room, *seat, signal, effects)
        }
        RoomSignal::Over { key } => {
            drop_ended(abandoned, *key);
            Ok(())
        }
    }
}
