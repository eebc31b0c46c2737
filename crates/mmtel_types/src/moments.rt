//! Moments of the clock.
ghost use Rattle.std.specs.Prelude.{◌≡◌, ◌≤◌, ◌<◌, ◌↔◌, IsNone, IfSome};
ghost use Rattle.mmtel_types.specs.Moments.{last_moment};

use crate::limits::LAST_MOMENT;
use std::marker::Model;

/// A moment: whole milliseconds since 1970-01-01T00:00:00Z, at most `LAST_MOMENT`.
///
/// In contracts it is this number.
#[derive(Clone, Copy, Debug, PartialEq, Eq, PartialOrd, Ord)]
pub struct Moment {
    ms: u64,
}

impl Model for Moment {
    ghost use Rattle.std.specs.Prelude.{ℕ, ◌≤◌};
    ghost use Rattle.mmtel_types.specs.Moments.{last_moment};

    ghost Value = { ℕ };

    ghost view = { λ moment. moment.ms };

    ghost inverse = { λ number. record { ms = number } };

    ghost invariant = { λ moment. moment.ms ≤ last_moment };
}

impl Moment {
    /// The moment that many milliseconds after 1970-01-01T00:00:00Z; None exactly where they are more than `LAST_MOMENT`.
    pub fn new(ms: u64) -> Option<Moment>
        ensures bound { IsNone result ↔ last_moment < ms }
        ensures number { IfSome result (λ moment. moment ≡ ms) }
    {
        if ms > LAST_MOMENT {
            return None;
        }
        Some(Moment { ms })
    }

    /// The milliseconds since 1970-01-01T00:00:00Z.
    pub fn ms(self) -> u64
        ensures number { result ≡ self }
        ensures bound { result ≤ last_moment }
    {
        self.ms
    }
}
