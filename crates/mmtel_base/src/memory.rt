//! The out-of-memory error.

use std::alloc::{AllocError, AllocFailed};

/// Memory ran out: the one error that any call which allocates may return.
///
/// It is merged with no other fault, and a value behind a `&mut` is then as before.
#[derive(Clone, Copy, Debug, PartialEq, Eq)]
pub struct NoMemory;

impl From<AllocError> for NoMemory {
    fn from(_error: AllocError) -> NoMemory {
        NoMemory
    }
}

impl<T: Drop> From<AllocFailed<T>> for NoMemory {
    fn from(_error: AllocFailed<T>) -> NoMemory {
        NoMemory
    }
}

/// The item that a refused `List::push` returns is dropped, so that `?` works on the result.
impl<T: Drop> From<(T, NoMemory)> for NoMemory {
    fn from(_refused: (T, NoMemory)) -> NoMemory {
        NoMemory
    }
}
