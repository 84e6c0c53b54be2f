//! Want of memory, the one answer that every call that grows something may give.
use std::alloc::{AllocError, AllocFailed};

/// Memory was refused.
#[derive(Clone, Copy, PartialEq, Eq)]
pub struct Memory;

impl From<AllocError> for Memory {
    ghost use Rattle.std.specs.Prelude.{◌≡◌};

    fn from(_error: AllocError) -> Memory {
        Memory
    }
}

impl<T: Drop> From<AllocFailed<T>> for Memory {
    fn from(_error: AllocFailed<T>) -> Memory {
        Memory
    }
}
