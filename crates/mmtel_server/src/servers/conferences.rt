//! Operations on the conferences, and the execution of their output.
ghost use Rattle.std.specs.Prelude.{◌≡◌, ◌<◌, ◌+◌, ◌++◌, ◌∷◌, List, Err, IfErr, IfOk, IfSome, IsOk, None, OnErr, OnOk, Some, length, false, true};
ghost use Rattle.mmtel_focus.specs.Operations as histories;
ghost use Rattle.mmtel_focus.specs.Operations.{Drops, Notifies, Opens, Receives, TableOp, config_of, entry_op, has_audio_offer, join_request};
ghost use Rattle.mmtel_focus.specs.Table.{access, is_table_full};
ghost use Rattle.mmtel_leg.specs.Releases.{released_leg};
ghost use Rattle.mmtel_run_definitions.specs.Transitions.{after_refer_notify};
ghost use Rattle.mmtel_run_definitions.specs.Transitions.{after_conference_signal, tokens_now};
ghost use Rattle.mmtel_sdp.specs.Offers.{offers_audio};
ghost use Rattle.mmtel_server.specs.Follows.{AddsOfferPrefix, ConferencesOpen, ConferencesPerform, Follows};
ghost use Rattle.mmtel_server.specs.Representation.{Represents};
ghost use Rattle.mmtel_trust.specs.Peers.{Peers};
ghost use Rattle.mmtel_trust.specs.declared.accounts.AccountIdentity.{AccountIdentity};

use super::rows::add_rows;
use super::{Context, Server};
use crate::theorems::numbers_never_fall;
use mmtel_base::{List, NoMemory};
use mmtel_charging::Row;
use mmtel_compose::ReceivedMessage;
use mmtel_environment::Offer;
use mmtel_focus::{Joining, RoomFault, RoomSignal, Rooms};
use mmtel_leg::{CallerLeg, Ended, Released, Standing};
use mmtel_timers::Steps;
use mmtel_transaction::{Emits, TKey};
use mmtel_types::{Account, RoomNo};
use std::alloc::Global;
use std::sync::ledger::Ledger;

/// A participant of a conference.
#[derive(Clone, Copy)]
pub(super) struct ConferenceParticipant {
    /// The conference.
    pub room: RoomNo,
    /// The number of the participant in it.
    pub number: u64,
}

/// Releases what remains of a leg for which no meter ran.
pub(super) fn drop_ended(ended: Ended)
    requires { ended.meter ≡ None }
{
    let Ended { meter } = ended;
    match meter {
        None => {}
        _ => unreachable!(),
    }
}

/// Removes from the conferences the CDRs that they closed: these wait with all others.
///
/// # Errors
///
/// Out of memory only.
fn collect_rows_of_conferences(
    alloc: Global,
    rooms: &mut Rooms,
    waiting: &mut List<Row>,
) -> Result<(), NoMemory>
    ensures waiting { OnOk result (waiting.new ≡ waiting.old ++ rooms.old.table.rows) }
    ensures done { OnOk result ((peers : Peers) (accounts : List AccountIdentity) (ops : List TableOp) →
        histories.Represents peers accounts rooms.old ops →
        histories.Represents peers accounts rooms.new (Drops (length rooms.old.table.rows) ∷ ops)) }
    ensures config { OnOk result ((peers : Peers) (accounts : List AccountIdentity) →
        config_of rooms.new peers accounts ≡ config_of rooms.old peers accounts) }
{
    add_rows(alloc, rooms.rows_waiting(), waiting)?;
    let count = rooms.rows_waiting().len();
    rooms.drop_rows(count);
    Ok(())
}

/// The output of the conferences, with their CDRs removed.
impl Server {
    /// For a signal.
    pub(super) fn step_conferences(
        &mut self,
        context: &Context,
        signal: RoomSignal,
    ) -> Result<Emits, NoMemory>
        ensures { IfOk result (ConferencesPerform self.old self.new
            (λ d token world. Receives (record { at = context.now.at; tokens = tokens_now token world; signal = signal }))) }
    {
        numbers_never_fall();
        let emits = self.rooms.signal(
            context.alloc,
            signal,
            &self.directory.peers,
            &self.directory.names.accounts,
            &mut self.tokens,
            context.at,
        )?;
        collect_rows_of_conferences(context.alloc, &mut self.rooms, &mut self.waiting)?;
        Ok(emits)
    }

    /// For the notification of a participant of a status (RFC 3515 §2.4.4).
    fn make_refer_notify(
        &mut self,
        alloc: Global,
        participant: ConferenceParticipant,
        code: u16,
    ) -> Result<Emits, NoMemory>
        ensures { IfOk result (ConferencesPerform self.old self.new
            (λ d token world. Notifies participant.room.0 participant.number code (tokens_now token world))) }
    {
        numbers_never_fall();
        let emits = self.rooms.notify(
            alloc,
            participant.room,
            participant.number,
            code,
            &self.directory.peers,
            &self.directory.names.accounts,
            &mut self.tokens,
        )?;
        collect_rows_of_conferences(alloc, &mut self.rooms, &mut self.waiting)?;
        Ok(emits)
    }

    /// For a caller who gets a conference of its own (RFC 4579 §5.4); None where as many are live as may.
    ///
    /// # Errors
    ///
    /// Out of memory only.
    pub(super) fn create_conference(
        &mut self,
        context: &Context,
        leg: CallerLeg<Standing>,
        account: Option<Account>,
        key: TKey,
        invite: &ReceivedMessage,
    ) -> Result<Option<Emits>, NoMemory>
        requires unmetered { leg.meter ≡ None }
        requires audio { offers_audio invite.now.parsed.body ≡ true }
        ensures opened { IfOk result (λ made. IfSome made (ConferencesOpen self.old self.new
            (λ d token world. Opens (join_request context.now.at leg account key invite.now)))) }
        ensures free { IfOk result (λ made. IfSome made (λ emits. is_table_full self.old.rooms.table.live ≡ false)) }
        ensures full { IfOk result (λ made. made ≡ None →
            (self.new ≡ self.old) × (is_table_full self.old.rooms.table.live ≡ true)) }
    {
        match self.rooms.create(
            context.alloc,
            leg,
            account,
            key,
            invite,
            &self.directory.peers,
            &self.directory.names.accounts,
            context.at,
        ) {
            Ok((_, emits)) => {
                collect_rows_of_conferences(context.alloc, &mut self.rooms, &mut self.waiting)?;
                Ok(Some(emits))
            }
            Err((leg, RoomFault::NoRoom)) => {
                drop_ended(leg.leave());
                Ok(None)
            }
            Err((leg, _)) => {
                drop_ended(leg.leave());
                Err(NoMemory)
            }
        }
    }

    /// For a leg that joins a conference (RFC 4579 §5.1, §5.6); or the leg is returned with the reason why it cannot.
    ///
    /// # Errors
    ///
    /// Out of memory only; the leg is then released.
    pub(super) fn add_participant(
        &mut self,
        context: &Context,
        room: RoomNo,
        leg: Released,
        account: Option<Account>,
        joining: Joining<'_>,
    ) -> Result<Result<Emits, (Released, RoomFault)>, NoMemory>
        requires unmetered { (released_leg leg).meter ≡ None }
        requires audio { has_audio_offer joining ≡ true }
        ensures seated { IfOk result (λ seated. IfOk seated (ConferencesPerform self.old self.new
            (λ d token world. entry_op room.0 context.now.at
            (tokens_now token world) leg account joining.entry))) }
        ensures free { IfOk result (λ seated. IfOk seated (λ emits. IsOk (access room.0 self.old.rooms.table.live))) }
        ensures refused { IfOk result (λ seated. IfErr seated (λ e.
            (e.0 ≡ leg) × (access room.0 self.old.rooms.table.live ≡ Err e.1))) }
        ensures same { IfOk result (λ seated. OnErr seated (self.new ≡ self.old)) }
        ensures calls { self.new.calls ≡ self.old.calls }
    {
        numbers_never_fall();
        match self.rooms.adopt(
            context.alloc,
            room,
            leg,
            account,
            joining,
            &self.directory.peers,
            &self.directory.names.accounts,
            &mut self.tokens,
            context.at,
        ) {
            Ok(emits) => {
                collect_rows_of_conferences(context.alloc, &mut self.rooms, &mut self.waiting)?;
                Ok(Ok(emits))
            }
            Err((leg, RoomFault::NoMemory)) => {
                drop_ended(leg.leave());
                Err(NoMemory)
            }
            Err((leg, fault)) => Ok(Err((leg, fault))),
        }
    }
}

/// What the conferences and their participants receive.
impl Server {
    /// Delivers a signal to the conferences, and executes their commands.
    ///
    /// # Errors
    ///
    /// Out of memory only; a prefix of the outputs has then been added.
    pub(super) fn signal_conferences<L: Ledger>(
        &mut self,
        context: &Context,
        signal: RoomSignal,
        out: &mut List<Offer>,
        steps: &mut Steps<L>,
    ) -> Result<(), NoMemory>
        ensures done { OnOk result (Follows self.old out.old self.new out.new
            (λ d token. after_conference_signal d token context.now.at signal)) }
        ensures err { OnErr result (AddsOfferPrefix self.old out.old out.new (λ d token. after_conference_signal d token context.now.at signal)) }
    {
        numbers_never_fall();
        let emits = self.step_conferences(context, signal)?;
        let done = self.emit_all(context, emits.items(), out, steps);
        drop(emits);
        done
    }

    /// Notifies a participant of a status, and executes the commands for it (RFC 3515 §2.4.4).
    ///
    /// # Errors
    ///
    /// Out of memory only; a prefix of the outputs has then been added.
    pub(super) fn send_refer_notify<L: Ledger>(
        &mut self,
        context: &Context,
        participant: ConferenceParticipant,
        code: u16,
        out: &mut List<Offer>,
        steps: &mut Steps<L>,
    ) -> Result<(), NoMemory>
        ensures done { OnOk result (Follows self.old out.old self.new out.new
            (λ d token. after_refer_notify d token context.now.at participant.room participant.number code)) }
        ensures err { OnErr result (AddsOfferPrefix self.old out.old out.new
            (λ d token. after_refer_notify d token context.now.at participant.room participant.number code)) }
    {
        numbers_never_fall();
        let emits = self.make_refer_notify(context.alloc, participant, code)?;
        let done = self.emit_all(context, emits.items(), out, steps);
        drop(emits);
        done
    }
}
