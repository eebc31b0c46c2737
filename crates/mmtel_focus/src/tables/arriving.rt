//! How a leg enters a conference: one is opened for it, or it becomes a participant of one.
ghost use Rattle.std.specs.Prelude.{◌≡◌, ◌<◌, ◌∷◌, ℕ, false, true, length, List, Err, IfErr, IfOk, IsSome, None, Ok, OnErr, OnOk, Some};
ghost use Rattle.mmtel_leg.specs.Releases.{released_leg};
ghost use Rattle.mmtel_base.specs.Numbers.{next_number};
ghost use Rattle.mmtel_sdp.specs.Offers.{offers_audio};
ghost use Rattle.mmtel_trust.specs.Peers.{Peers};
ghost use Rattle.mmtel_trust.specs.declared.accounts.AccountIdentity.{AccountIdentity};
ghost use Rattle.mmtel_focus.specs.Operations.{Opens, Represents, TableOp, config_of, effects_after, entry_op, has_audio_offer, join_request};
ghost use Rattle.mmtel_focus.specs.Joining.{is_same_side};
ghost use Rattle.mmtel_focus.specs.Private.{caller_in, opening_op, view_after_op, view_effects_of_op};
ghost use Rattle.mmtel_focus.specs.Table.{access, is_table_full};
ghost use Rattle.mmtel_focus.specs.declared.faults.RoomFault.TheVariants as fault;

use super::{Rooms, no_tokens};
use crate::entering::{access, adopt_at, join_at};
use crate::faults::RoomFault;
use crate::joining::Entrant;
use crate::signals::Joining;
use mmtel_compose::ReceivedMessage;
use mmtel_leg::{CallerLeg, Released, Standing};
use mmtel_participants::{Effects, StepContext};
use mmtel_transaction::{Emits, TKey, Tokens};
use mmtel_trust::{Accounts, PeerTable};
use mmtel_types::limits::CONFERENCES;
use mmtel_types::{Account, Moment, RoomNo};
use std::alloc::Global;
use std::mem;

/// A caller's leg.
fn caller_leg(leg: Released) -> CallerLeg<Standing>
    requires { IsSome (caller_in leg) }
    ensures { caller_in leg ≡ Some result }
{
    match leg {
        Released::Caller(leg) => leg,
        _ => unreachable!(),
    }
}

impl Rooms {
    /// Opens a conference for a leg that comes by an INVITE which offers audio.
    ///
    /// # Errors
    ///
    /// Out of memory only; the leg is handed back, and the conferences have not changed.
    fn open(
        &mut self,
        step: &StepContext<'_>,
        entrant: Entrant,
        key: TKey,
        invite: &ReceivedMessage,
    ) -> Result<(RoomNo, Emits), Released>
        requires unmetered { (released_leg entrant.leg).meter ≡ None }
        requires audio { offers_audio invite.now.parsed.body ≡ true }
        ensures done { OnOk result (self.new
            ≡ view_after_op step.now.config (opening_op step.now.at entrant.leg entrant.account key invite.now) self.old) }
        ensures emits { IfOk result (λ made. made.1
            ≡ (view_effects_of_op step.now.config (opening_op step.now.at entrant.leg entrant.account key invite.now) self.old).output.out) }
        ensures number { IfOk result (λ made. made.0.0 ≡ next_number self.old.table.opened) }
        ensures refused { OnErr result (self.new ≡ self.old) }
        ensures handed_back { IfErr result (λ l. l ≡ entrant.leg) }
    {
        let mut effects = Effects::new(no_tokens());
        match self.live.open(step, entrant, key, invite, &mut effects) {
            Err(leg) => Err(leg),
            Ok(number) => Ok((number, effects.into_emits())),
        }
    }

    /// Opens a conference for a caller whose INVITE offers audio, who is its first participant (RFC 4579 §5.4). No token is drawn.
    ///
    /// # Errors
    ///
    /// `NoRoom` exactly where 1,024 conferences are live, and `NoMemory` where memory runs out. The leg is handed back, and the conferences have not changed.
    pub fn create<'a>(
        &mut self,
        alloc: Global,
        leg: CallerLeg<Standing>,
        account: Option<Account>,
        key: TKey,
        invite: &ReceivedMessage,
        peers: &'a PeerTable,
        accounts: &'a Accounts,
        now: Moment,
    ) -> Result<(RoomNo, Emits), (CallerLeg<Standing>, RoomFault)>
        requires unmetered { leg.meter ≡ None }
        requires audio { offers_audio invite.now.parsed.body ≡ true }
        ensures done { OnOk result ((ops : List TableOp) → Represents peers.now accounts.now self.old ops →
            Represents peers.now accounts.now self.new (Opens (join_request now leg account key invite.now) ∷ ops)) }
        ensures emits { IfOk result (λ made. (ops : List TableOp) → Represents peers.now accounts.now self.old ops →
            made.1 ≡ (effects_after (config_of self.old peers.now accounts.now) ops (Opens (join_request now leg account key invite.now))).output.out) }
        ensures number { IfOk result (λ made. made.0.0 ≡ next_number self.old.table.opened) }
        ensures config { OnOk result ((peers : Peers) (accounts : List AccountIdentity) →
            config_of self.new peers accounts ≡ config_of self.old peers accounts) }
        ensures refused { OnErr result (self.new ≡ self.old) }
        ensures handed_back { IfErr result (λ e. e.0 ≡ leg) }
        ensures no_room { self.old.has_failed ≡ false → is_table_full self.old.table.live ≡ true →
            result ≡ Err (leg, fault.NoRoom) }
        ensures memory { self.old.has_failed ≡ false → is_table_full self.old.table.live ≡ false →
            IfErr result (λ e. e.1 ≡ fault.NoMemory) }
        ensures stuck { self.old.has_failed ≡ true → result ≡ Err (leg, fault.NoMemory) }
    {
        if self.has_failed {
            return Err((leg, RoomFault::NoMemory));
        }
        if self.live.conferences().len() >= CONFERENCES {
            return Err((leg, RoomFault::NoRoom));
        }
        let step = self.step(alloc, peers, accounts, now);
        let leg = Released::Caller(leg);
        match self.open(&step, Entrant { leg, account }, key, invite) {
            Ok(made) => Ok(made),
            Err(leg) => Err((caller_leg(leg), RoomFault::NoMemory)),
        }
    }

    /// A leg enters the conference at this place.
    ///
    /// # Errors
    ///
    /// Out of memory only; a leg of the same side without a meter is handed back.
    #[tactic(auto, using(crate::proofs::Places::and_nothing), unfolding(crate::specs::Table::step_of_join, crate::specs::Table::step_of_adoption))]
    fn enter(
        &mut self,
        step: &StepContext<'_>,
        room: RoomNo,
        place: usize,
        entrant: Entrant,
        how: Joining<'_>,
        tokens: &mut Tokens,
    ) -> Result<Emits, Released>
        requires unmetered { (released_leg entrant.leg).meter ≡ None }
        requires audio { has_audio_offer how ≡ true }
        requires place { access room.0 self.old.table.live ≡ Ok place }
        requires within { place < length self.old.table.live }
        ensures done { OnOk result (self.new
            ≡ view_after_op step.now.config (entry_op room.0 step.now.at tokens.old entrant.leg entrant.account how.entry) self.old) }
        ensures emits { IfOk result (λ out. out
            ≡ (view_effects_of_op step.now.config (entry_op room.0 step.now.at tokens.old entrant.leg entrant.account how.entry) self.old).output.out) }
        ensures tokens { OnOk result (tokens.new
            ≡ (view_effects_of_op step.now.config (entry_op room.0 step.now.at tokens.old entrant.leg entrant.account how.entry) self.old).output.tokens) }
        ensures meter { IfErr result (λ l. (released_leg l).meter ≡ None) }
        ensures side { IfErr result (λ l. is_same_side l entrant.leg ≡ true) }
    {
        let live = &mut self.live;
        let mut effects = Effects::new(mem::replace(tokens, no_tokens()));
        let entered = match how {
            Joining::Invited { key, invite } => {
                join_at(live, step, place, entrant, key, invite, &mut effects)
            }
            Joining::Referred { by } => adopt_at(live, step, place, entrant, by, &mut effects),
        };
        mem::swap(tokens, &mut effects.output.tokens);
        entered?;
        Ok(effects.into_emits())
    }

    /// Makes a leg a participant of a conference: one that comes by an INVITE (RFC 4579 §5.1), or one that is moved out of a call by the REFER of a participant (§5.6), which is
    /// invited by a re-INVITE.
    ///
    /// # Errors
    ///
    /// `Gone` exactly where the conference is not live, and `RoomFull` exactly where it has 32 participants, pending invitations among them: the leg is handed back, and nothing
    /// has changed. `NoMemory` where memory runs out: a leg of the same side without a meter is handed back, and the table has failed then; each later call returns `NoMemory`
    /// and changes nothing; nothing is claimed of the tokens then.
    pub fn adopt(
        &mut self,
        alloc: Global,
        room: RoomNo,
        leg: Released,
        account: Option<Account>,
        how: Joining<'_>,
        peers: &PeerTable,
        accounts: &Accounts,
        tokens: &mut Tokens,
        now: Moment,
    ) -> Result<Emits, (Released, RoomFault)>
        requires unmetered { (released_leg leg).meter ≡ None }
        requires audio { has_audio_offer how ≡ true }
        ensures done { OnOk result ((ops : List TableOp) → Represents peers.now accounts.now self.old ops →
            Represents peers.now accounts.now self.new (entry_op room.0 now tokens.old leg account how.entry ∷ ops)) }
        ensures emits { IfOk result (λ out. (ops : List TableOp) → Represents peers.now accounts.now self.old ops →
            out ≡ (effects_after (config_of self.old peers.now accounts.now) ops (entry_op room.0 now tokens.old leg account how.entry)).output.out) }
        ensures tokens { OnOk result ((ops : List TableOp) → Represents peers.now accounts.now self.old ops →
            tokens.new ≡ (effects_after (config_of self.old peers.now accounts.now) ops
            (entry_op room.0 now tokens.old leg account how.entry)).output.tokens) }
        ensures config { OnOk result ((peers : Peers) (accounts : List AccountIdentity) →
            config_of self.new peers accounts ≡ config_of self.old peers accounts) }
        ensures gone { self.old.has_failed ≡ false → access room.0 self.old.table.live ≡ Err fault.Gone →
            (result ≡ Err (leg, fault.Gone)) × ((self.new ≡ self.old) × (tokens.new ≡ tokens.old)) }
        ensures full { self.old.has_failed ≡ false → access room.0 self.old.table.live ≡ Err fault.RoomFull →
            (result ≡ Err (leg, fault.RoomFull)) × ((self.new ≡ self.old) × (tokens.new ≡ tokens.old)) }
        ensures fails { self.old.has_failed ≡ false → (place : ℕ) → access room.0 self.old.table.live ≡ Ok place →
            IfErr result (λ e. (e.1 ≡ fault.NoMemory) × (self.new.has_failed ≡ true)) }
        ensures meter { IfErr result (λ e. (released_leg e.0).meter ≡ None) }
        ensures side { IfErr result (λ e. is_same_side e.0 leg ≡ true) }
        ensures stuck { self.old.has_failed ≡ true →
            (result ≡ Err (leg, fault.NoMemory)) × ((self.new ≡ self.old) × (tokens.new ≡ tokens.old)) }
    {
        if self.has_failed {
            return Err((leg, RoomFault::NoMemory));
        }
        match access(&self.live, room) {
            Err(fault) => Err((leg, fault)),
            Ok(place) => {
                let step = self.step(alloc, peers, accounts, now);
                let entrant = Entrant { leg, account };
                match self.enter(&step, room, place, entrant, how, tokens) {
                    Ok(out) => Ok(out),
                    Err(leg) => {
                        self.has_failed = true;
                        Err((leg, RoomFault::NoMemory))
                    }
                }
            }
        }
    }
}
