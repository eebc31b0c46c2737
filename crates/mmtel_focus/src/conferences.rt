//! A conference.

use mmtel_participants::ParticipantState;
use mmtel_types::RoomNo;
use std::marker::Model;

/// A conference. The value is linear: it must be spent.
pub struct Conference {
    /// Its number.
    pub number: RoomNo,
    /// The number of the participant that came last.
    pub last_seat: u64,
    /// The number of the last invitation or 2xx, counted within this conference.
    pub last_number: u64,
    /// The participants, in the order in which they came.
    pub participants: Vec<ParticipantState>,
}

impl Model for Conference {
    ghost use Rattle.mmtel_focus.specs.Conferences.{Conference};

    ghost Value = { Conference };

    ghost view = { λ r. record { number = r.number; last_seat = r.last_seat; last_number = r.last_number; participants = r.participants.items } };
}
