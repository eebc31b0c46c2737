//! Which sides of a call hold it, and how often it was held.
ghost use Rattle.std.specs.Prelude.{◌≡◌};
ghost use Rattle.mmtel_waiting.specs.Hold.{is_hold, holds_of, state_after_note, DependsOnLastDirections};

use mmtel_sdp::Direction;
use mmtel_types::Side;

/// Which sides of a call hold it, and how often a side began to hold it.
#[derive(Clone, Copy, Debug, PartialEq, Eq, Default)]
pub struct HoldState {
    /// The caller holds the call.
    pub caller: bool,
    /// The called party holds the call.
    pub callee: bool,
    /// How often a side began to hold the call; it remains at the greatest number.
    pub holds: u32,
}

impl HoldState {
    /// Notes the direction of a new offer of this side: the side holds the call exactly for `SendOnly` and `Inactive`, and the count increases where it did not hold it before.
    pub fn note(&mut self, side: Side, direction: Direction)
        ensures exact { self.new ≡ state_after_note self.old side direction }
    {
        let held = self.holds_at(side);
        let holds = is_hold(direction);
        match side {
            Side::Caller => self.caller = holds,
            Side::Callee => self.callee = holds,
        }
        if holds && !held {
            self.holds = self.holds.saturating_add(1);
        }
    }

    /// Whether this side holds the call.
    fn holds_at(&self, side: Side) -> bool
        ensures { result ≡ holds_of self.now side }
    {
        match side {
            Side::Caller => self.caller,
            Side::Callee => self.callee,
        }
    }
}

/// Whether the side that offers this direction holds the call.
fn is_hold(direction: Direction) -> bool
    ensures { result ≡ is_hold direction }
{
    match direction {
        Direction::SendOnly | Direction::Inactive => true,
        Direction::SendRecv | Direction::RecvOnly => false,
    }
}

/// A theorem, without code: after any directions, noted one by one, a side holds the call exactly where the last direction that it offered is a hold, and the count is how often a
/// direction that is a hold came from a side that did not hold, or the greatest number where it was more often.
pub fn hold_depends_on_last_directions()
    ensures law { DependsOnLastDirections }
{}
