//! The two sides of a call.
ghost use Rattle.std.specs.Prelude.{◌≡◌};
ghost use Rattle.mmtel_types.specs.Sides.{other_side};

/// A side of a call that goes through the server: the caller's or the callee's.
#[derive(Clone, Copy, Debug, PartialEq, Eq)]
pub enum Side {
    /// The side whose INVITE opened the call.
    Caller,
    /// The side to which the call is offered.
    Callee,
}

impl Side {
    /// The other side.
    pub fn other(self) -> Side
        ensures across { result ≡ other_side self }
        ensures back { other_side result ≡ self }
    {
        match self {
            Side::Caller => Side::Callee,
            Side::Callee => Side::Caller,
        }
    }
}
