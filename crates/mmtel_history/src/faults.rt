//! Why History-Info could not be read.
ghost use Rattle.mmtel_history.specs.declared.faults.HistoryFault.TheVariants as faults;
ghost use Rattle.std.specs.Prelude.{◌≡◌};

use mmtel_base::NoMemory;
use std::alloc::AllocFailed;

/// What is wrong with the values of History-Info.
#[derive(Clone, Copy, Debug, PartialEq, Eq)]
pub enum HistoryFault {
    /// The value at this place is no entry; or 32, where there are more values than that.
    Malformed { at: usize },
    NoMemory,
}

impl From<NoMemory> for HistoryFault {
    ghost from_gives = { λ _ e. e ≡ faults.NoMemory };

    fn from(_error: NoMemory) -> HistoryFault {
        HistoryFault::NoMemory
    }
}

impl<T: Drop> From<AllocFailed<T>> for HistoryFault {
    ghost from_gives = { λ _ e. e ≡ faults.NoMemory };

    fn from(_error: AllocFailed<T>) -> HistoryFault {
        HistoryFault::NoMemory
    }
}
