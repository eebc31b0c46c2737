//! A participant leaves, and a conference closes, without a signal.
ghost use Rattle.std.specs.Prelude.{◌≡◌, ◌∷◌, List, IfOk, OnErr, OnOk};
ghost use Rattle.mmtel_trust.specs.Peers.{Peers};
ghost use Rattle.mmtel_trust.specs.declared.accounts.AccountIdentity.{AccountIdentity};
ghost use Rattle.mmtel_focus.specs.Operations.{Closes, Leaves, Represents, TableOp, config_of, table_after};
ghost use Rattle.mmtel_focus.specs.Queries.{ended_legs};
ghost use Rattle.mmtel_focus.specs.Table.{row_of_leave};

use super::Rooms;
use crate::departing;
use mmtel_base::NoMemory;
use mmtel_charging::Row;
use mmtel_leg::Ended;
use mmtel_types::{Moment, RoomNo};
use std::alloc::Global;

impl Rooms {
    /// A participant leaves; returns its CDR. Nothing is sent; an INVITE of the server's own to it that has no final response is dropped. None exactly where there is no such
    /// participant, where it is invited and has not answered (it stays then), or where no account is charged for it. It allocates nothing.
    pub fn leave(&mut self, room: RoomNo, seat: u64, now: Moment) -> Option<Row>
        ensures done { (peers : Peers) (accounts : List AccountIdentity) (ops : List TableOp) →
            Represents peers accounts self.old ops →
            Represents peers accounts self.new (Leaves room.0 seat ∷ ops) }
        ensures row { (peers : Peers) (accounts : List AccountIdentity) (ops : List TableOp) →
            Represents peers accounts self.old ops →
            result ≡ row_of_leave now room.0 seat (table_after (config_of self.old peers accounts) ops).live }
    {
        departing::leave(&mut self.live, room, seat, now)
    }

    /// Closes a conference, and returns what remains of its participants, in their order: nothing is sent, no CDR is filed, and an INVITE of the server's own to a participant
    /// that has no final response is dropped. The result is empty exactly where the conference is not live, or has no participants.
    ///
    /// # Errors
    ///
    /// Out of memory only; the conferences have not changed then.
    pub fn close(&mut self, alloc: Global, room: RoomNo) -> Result<Vec<Ended>, NoMemory>
        ensures done { OnOk result ((peers : Peers) (accounts : List AccountIdentity) (ops : List TableOp) →
            Represents peers accounts self.old ops →
            Represents peers accounts self.new (Closes room.0 ∷ ops)) }
        ensures ended { IfOk result (λ all. (peers : Peers) (accounts : List AccountIdentity) (ops : List TableOp) →
            Represents peers accounts self.old ops →
            all.items ≡ ended_legs room.0 (table_after (config_of self.old peers accounts) ops).live) }
        ensures refused { OnErr result (self.new ≡ self.old) }
    {
        departing::close(&mut self.live, alloc, room)
    }
}
