//! Which sides of a call are served (RFC 5502 §6).
ghost use Rattle.std.specs.Prelude.{◌≡◌};
ghost use Rattle.mmtel_call_parties.specs.Parties.{serves_both, serves_origin, serves_target};

/// Which sides of a call are served (RFC 5502 §6: `sescase`).
#[derive(Clone, Copy, Debug, PartialEq, Eq)]
pub enum ServedSides {
    /// No user is named as served: both caller and target are.
    Both,
    /// `orig`: the caller alone.
    Origin,
    /// `term`: the target alone.
    Target,
}

impl ServedSides {
    /// Whether the caller has services.
    pub fn serves_origin(self) -> bool
        ensures exact { result ≡ serves_origin self }
    {
        match self {
            ServedSides::Both => true,
            ServedSides::Origin => true,
            ServedSides::Target => false,
        }
    }

    /// Whether the first target has services.
    pub fn serves_target(self) -> bool
        ensures exact { result ≡ serves_target self }
    {
        match self {
            ServedSides::Both => true,
            ServedSides::Origin => false,
            ServedSides::Target => true,
        }
    }

    /// Whether both have.
    pub fn serves_both(self) -> bool
        ensures exact { result ≡ serves_both self }
    {
        match self {
            ServedSides::Both => true,
            ServedSides::Origin => false,
            ServedSides::Target => false,
        }
    }
}
