//! A leg enters a conference of the table, and a participant of one is notified.
ghost use Rattle.std.specs.Prelude.{◌≡◌, ◌<◌, IfErr, IfOk, None, OnOk, length, slice_get, true};
ghost use Rattle.mmtel_leg.specs.Releases.{released_leg};
ghost use Rattle.mmtel_sdp.specs.Offers.{offers_audio};
ghost use Rattle.mmtel_focus.specs.Joining.{after_adoption, after_join, is_same_side};
ghost use Rattle.mmtel_focus.specs.Participants.{after_notify_to};
ghost use Rattle.mmtel_focus.specs.Table.{access, open_result_at, step_of_notify};
ghost use Rattle.mmtel_focus.specs.Texts.{own_status};

use crate::faults::RoomFault;
use crate::joining::Entrant;
use crate::live::{LiveConferences, give_up_conference};
use crate::texts::own_status;
use mmtel_base::NoMemory;
use mmtel_compose::ReceivedMessage;
use mmtel_leg::Released;
use mmtel_participants::{Effects, StepContext, has_no_free_seat};
use mmtel_sip_rules::is_provisional;
use mmtel_transaction::TKey;
use mmtel_types::RoomNo;

/// The place of the conference of this number, where it is live and not full.
pub fn access(live: &LiveConferences, room: RoomNo) -> Result<usize, RoomFault>
    ensures access { result ≡ access room.0 live.now.items }
    ensures place { IfOk result (λ place. place < length live.now.items) }
{
    match live.place_of(room) {
        None => Err(RoomFault::Gone),
        Some(place) => {
            let conference = &live.conferences()[place];
            if has_no_free_seat(&conference.participants) {
                return Err(RoomFault::RoomFull);
            }
            Ok(place)
        }
    }
}

/// A leg joins the conference at this place by an INVITE that offers audio.
///
/// # Errors
///
/// Out of memory only; the leg is handed back, and the conferences have not changed.
#[tactic(auto, using(crate::proofs::TableInvariant::put_twice))]
pub fn join_at(
    live: &mut LiveConferences,
    step: &StepContext<'_>,
    place: usize,
    entrant: Entrant,
    key: TKey,
    invite: &ReceivedMessage,
    effects: &mut Effects,
) -> Result<(), Released>
    requires unmetered { (released_leg entrant.leg).meter ≡ None }
    requires audio { offers_audio invite.now.parsed.body ≡ true }
    requires place { place < length live.old.items }
    ensures live { OnOk result (live.new ≡ record live.old {
      items = (open_result_at (after_join step.now.config step.now.at entrant.leg entrant.account key invite.now)
          place (slice_get live.old.items place) live.old.items effects.old).live;
    }) }
    ensures effects { OnOk result (effects.new
        ≡ (open_result_at (after_join step.now.config step.now.at entrant.leg entrant.account key invite.now)
        place (slice_get live.old.items place) live.old.items effects.old).effects) }
    ensures abandoned { OnOk result (effects.new.abandoned ≡ effects.old.abandoned) }
    ensures rows { OnOk result (effects.new.output.rows ≡ effects.old.output.rows) }
    ensures handed_back { IfErr result (λ l. l ≡ entrant.leg) }
{
    let mut room = live.take_out(step.alloc, place);
    let joined = room.join(step, entrant, key, invite, effects);
    live.put_back(place, room);
    joined
}

/// A leg is moved out of a call into the conference at this place.
///
/// # Errors
///
/// Out of memory only; a leg of the same side without a meter is handed back.
#[tactic(auto, using(crate::proofs::TableInvariant::put_twice))]
pub fn adopt_at(
    live: &mut LiveConferences,
    step: &StepContext<'_>,
    place: usize,
    entrant: Entrant,
    by: u64,
    effects: &mut Effects,
) -> Result<(), Released>
    requires unmetered { (released_leg entrant.leg).meter ≡ None }
    requires place { place < length live.old.items }
    ensures live { OnOk result (live.new ≡ record live.old {
      items = (open_result_at (after_adoption step.now.config step.now.at entrant.leg entrant.account by) place (slice_get live.old.items place) live.old.items effects.old).live;
    }) }
    ensures effects { OnOk result (effects.new
        ≡ (open_result_at (after_adoption step.now.config step.now.at entrant.leg entrant.account by) place (slice_get live.old.items place) live.old.items effects.old).effects) }
    ensures abandoned { OnOk result (effects.new.abandoned ≡ effects.old.abandoned) }
    ensures rows { OnOk result (effects.new.output.rows ≡ effects.old.output.rows) }
    ensures meter { IfErr result (λ l. (released_leg l).meter ≡ None) }
    ensures side { IfErr result (λ l. is_same_side l entrant.leg ≡ true) }
{
    let mut room = live.take_out(step.alloc, place);
    let adopted = room.adopt(step, entrant, by, effects);
    live.put_back(place, room);
    adopted
}

/// Notifies a participant of the conference at this place of a status line.
#[tactic(auto, using(crate::proofs::TableInvariant::put_twice))]
fn notify_at(
    live: &mut LiveConferences,
    step: &StepContext<'_>,
    place: usize,
    is_active: bool,
    status_line: &[u8],
    seat: u64,
    effects: &mut Effects,
) -> Result<(), NoMemory>
    requires { place < length live.old.items }
    ensures live { OnOk result (live.new ≡ record live.old {
      items = (open_result_at (after_notify_to step.now.config is_active status_line.now seat) place (slice_get live.old.items place) live.old.items effects.old).live;
    }) }
    ensures effects { OnOk result (effects.new
        ≡ (open_result_at (after_notify_to step.now.config is_active status_line.now seat) place (slice_get live.old.items place) live.old.items effects.old).effects) }
{
    let mut room = live.take_out(step.alloc, place);
    match room.notify(step, is_active, status_line, seat, effects) {
        Err(error) => {
            give_up_conference(room, step.at);
            Err(error)
        }
        Ok(()) => {
            live.put_back(place, room);
            Ok(())
        }
    }
}

/// Notifies a participant of the status of this code; nothing is sent once it has left.
#[tactic(auto, unfolding(crate::specs::Table::step_of_notify))]
pub fn notify(
    live: &mut LiveConferences,
    step: &StepContext<'_>,
    room: RoomNo,
    seat: u64,
    code: u16,
    effects: &mut Effects,
) -> Result<(), NoMemory>
    ensures live { OnOk result (live.new
        ≡ record live.old { items = (step_of_notify step.now.config room.0 seat code live.old.items effects.old).live }) }
    ensures effects { OnOk result (effects.new
        ≡ (step_of_notify step.now.config room.0 seat code live.old.items effects.old).effects) }
{
    let line = own_status(step.alloc, code)?;
    match live.place_of(room) {
        None => Ok(()),
        Some(place) => {
            let goes_on = is_provisional(code);
            let line = line.bytes();
            notify_at(live, step, place, goes_on, line, seat, effects)
        }
    }
}
