//! The table of conferences.
ghost use Rattle.std.specs.Prelude.{◌≡◌, ◌≤◌, ◌++◌, ◌∷◌, false, List, IfOk, OnOk, length};
ghost use Rattle.mmtel_compose.specs.Responses.{no_further_methods};
ghost use Rattle.mmtel_trust.specs.Peers.{Peers};
ghost use Rattle.mmtel_trust.specs.declared.accounts.AccountIdentity.{AccountIdentity};
ghost use Rattle.mmtel_focus.specs.Operations.{Drops, Represents, TableOp, config_of, no_tokens, table_after};
ghost use Rattle.mmtel_focus.specs.Queries.{participant_count, room_and_seat_with_dialog};
ghost use Rattle.mmtel_focus.specs.Table.{empty_table};

mod arriving;
mod departing;
mod receiving;

use crate::live::LiveConferences;
use crate::queries;
use mmtel_base::{List, NoMemory, Text};
use mmtel_charging::{Row, drop_first};
use mmtel_compose::FurtherMethods;
use mmtel_leg::DialogName;
use mmtel_message::OwnAddress;
use mmtel_output::AbandonedInvite;
use mmtel_participants::{ConferenceConfig, Effects, StepContext};
use mmtel_sdp::Mixer;
use mmtel_transaction::{Emits, Tokens};
use mmtel_trust::{Accounts, PeerTable};
use mmtel_types::{Addr, Moment, RoomNo};
use std::alloc::Global;
use std::marker::Model;
use std::mem;

/// The conferences of a server. The value is linear: it must be spent.
pub struct Rooms {
    sip: OwnAddress,
    mixer: Mixer,
    methods: FurtherMethods,
    live: LiveConferences,
    abandoned: List<AbandonedInvite>,
    rows: List<Row>,
    has_failed: bool,
}

impl Model for Rooms {
    ghost use Rattle.mmtel_focus.specs.Operations.{RoomsView};

    ghost Value = { RoomsView };

    ghost view = { λ r. record {
      sip = r.sip;
      mixer = r.mixer;
      methods = r.methods;
      table = record { live = r.live.items; opened = r.live.opened; abandoned = r.abandoned; rows = r.rows };
      has_failed = r.has_failed;
    } };
}

/// A token generator that has drawn no token.
fn no_tokens() -> Tokens
    ensures { result ≡ no_tokens }
{
    Tokens::new(Text::new())
}

impl Rooms {
    /// No conferences yet, of a server with this address and this mixer.
    ///
    /// # Errors
    ///
    /// Out of memory only.
    pub fn new(alloc: Global, mixer: Mixer, sip: Addr) -> Result<Rooms, NoMemory>
        ensures conferences { IfOk result (λ rooms. rooms
            ≡ record { sip = sip; mixer = mixer; methods = no_further_methods; table = empty_table; has_failed = false }) }
    {
        Ok(Rooms {
            sip: OwnAddress::of(sip),
            mixer,
            methods: FurtherMethods {
                reliable: false,
                mwi: false,
            },
            live: LiveConferences::new(alloc),
            abandoned: List::new(),
            rows: List::new(),
            has_failed: false,
        })
    }

    /// The same conferences, of a server that supports these methods beside those that it always supports: a response to OPTIONS lists them.
    pub fn with_methods(self, methods: FurtherMethods) -> Rooms
        ensures { result ≡ record self { methods = methods } }
    {
        let mut rooms = self;
        rooms.methods = methods;
        rooms
    }

    /// The context of a step of the conferences, with these peers and these accounts, at this moment.
    fn step<'a>(
        &self,
        alloc: Global,
        peers: &'a PeerTable,
        accounts: &'a Accounts,
        at: Moment,
    ) -> StepContext<'a>
        ensures setting { result.config ≡ config_of self.now peers.now accounts.now }
        ensures at { result.at ≡ at }
    {
        let setting = ConferenceConfig {
            sip: self.sip,
            mixer: self.mixer,
            methods: self.methods,
            peers,
            accounts,
        };
        StepContext {
            alloc,
            config: setting,
            at,
        }
    }

    /// Keeps the INVITEs that a step abandoned, and the CDRs that it closed until they are handed over.
    fn keep(
        &mut self,
        alloc: Global,
        abandoned: List<AbandonedInvite>,
        rows: List<Row>,
    ) -> Result<(), NoMemory>
        ensures { OnOk result (self.new
            ≡ record self.old { table = record self.old.table { abandoned = self.old.table.abandoned ++ abandoned; rows = self.old.table.rows ++ rows } }) }
    {
        if let Err((_, error)) = self.abandoned.extend(alloc, abandoned) {
            return Err(error);
        }
        match self.rows.extend(alloc, rows) {
            Ok(()) => Ok(()),
            Err((_, error)) => Err(error),
        }
    }

    /// Keeps what a step abandoned and closed, and returns its output.
    fn settle(&mut self, alloc: Global, effects: Effects) -> Result<Emits, NoMemory>
        ensures kept { OnOk result (self.new ≡ record self.old {
          table =
              record self.old.table { abandoned = self.old.table.abandoned ++ effects.abandoned; rows = self.old.table.rows ++ effects.output.rows };
        }) }
        ensures emits { IfOk result (λ out. out ≡ effects.output.out) }
    {
        let mut effects = effects;
        let abandoned_invites = mem::replace(&mut effects.abandoned, List::new());
        let rows = mem::replace(&mut effects.output.rows, List::new());
        let out = effects.into_emits();
        self.keep(alloc, abandoned_invites, rows)?;
        Ok(out)
    }

    /// The conference and the participant whose dialog has this Call-ID, this tag of the server and this tag of the other side (RFC 3261 §12.2.2); None exactly where no
    /// participant of a live conference has it.
    pub fn find(&self, call_id: &[u8], local: &[u8], remote: &[u8]) -> Option<(RoomNo, u64)>
        ensures { (peers : Peers) (accounts : List AccountIdentity) (ops : List TableOp) →
            Represents peers accounts self.now ops →
            result ≡ room_and_seat_with_dialog call_id.now local.now remote.now (table_after (config_of self.now peers accounts) ops).live }
    {
        let name = DialogName {
            call_id,
            local,
            remote,
        };
        queries::find(&self.live, name)
    }

    /// How many participants a conference has, pending invitations among them; 0 where it is not live.
    pub fn seats(&self, room: RoomNo) -> u32
        ensures { (peers : Peers) (accounts : List AccountIdentity) (ops : List TableOp) →
            Represents peers accounts self.now ops →
            result ≡ participant_count room.0 (table_after (config_of self.now peers accounts) ops).live }
    {
        queries::participant_count(&self.live, room)
    }

    /// The CDRs of participants that left by a signal, as far as they were not handed over, in the order in which they were closed.
    pub fn rows_waiting(&self) -> &[Row]
        ensures rows { (peers : Peers) (accounts : List AccountIdentity) (ops : List TableOp) →
            Represents peers accounts self.now ops →
            result.now ≡ (table_after (config_of self.now peers accounts) ops).rows }
        ensures kept { result.now ≡ self.now.table.rows }
    {
        self.rows.items()
    }

    /// Removes the first CDRs, so many as were handed over.
    pub fn drop_rows(&mut self, count: usize)
        requires { count ≤ length self.old.table.rows }
        ensures config { (peers : Peers) (accounts : List AccountIdentity) →
            config_of self.new peers accounts ≡ config_of self.old peers accounts }
        ensures done { (peers : Peers) (accounts : List AccountIdentity) (ops : List TableOp) →
            Represents peers accounts self.old ops →
            Represents peers accounts self.new (Drops count ∷ ops) }
    {
        drop_first(&mut self.rows, count);
    }

    /// Spends all conferences, without CDRs. It allocates nothing.
    pub fn give_up(self) {
        let Rooms {
            sip: _,
            mixer: _,
            methods: _,
            live,
            abandoned: abandoned_invites,
            rows,
            has_failed: _,
        } = self;
        drop(abandoned_invites);
        drop(rows);
        live.give_up();
    }
}
