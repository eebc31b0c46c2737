//! The bound on the diversions of a call.
ghost use Rattle.std.specs.Prelude.{◌≡◌};
ghost use Rattle.mmtel_diversion.specs.Bound.{is_within};

/// Whether a call that was received with so many diversions in its History-Info, and was diverted so often here, may be diverted once more: both together are below the
/// bound (TS 24.604 §4.5.2.6). It allocates nothing.
pub fn within(received: u16, done: u16, bound: u16) -> bool
    ensures exact { result ≡ is_within received done bound }
{
    u32::from(received) + u32::from(done) < u32::from(bound)
}
