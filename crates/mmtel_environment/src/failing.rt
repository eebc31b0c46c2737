//! Calls that fail by their numbers.
ghost use Rattle.std.specs.Prelude.{◌≡◌};
ghost use Rattle.mmtel_environment.specs.Counts.{fails_by_number};

/// Whether the next call, after so many, fails by its number: calls are numbered from 1.
pub fn fails_by_number(failing: &[u64], calls: u64) -> bool
    ensures listed { result ≡ fails_by_number failing.now calls }
{
    let call = calls.saturating_add(1);
    failing.iter().any(|number| *number == call)
}
