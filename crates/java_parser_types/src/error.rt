//! Why no tree was read.
ghost use Rattle.std.specs.Prelude.{◌≡◌};
ghost use Rattle.java_parser_types.specs.declared.error.ReadError.TheVariants as error;

use racer_base::Memory;
use std::alloc::{AllocError, AllocFailed};

#[derive(Clone, Copy)]
pub enum ReadError {
    /// No formed tree of a nesting within the limit is spelled here.
    Unformed,
    /// Memory was refused.
    Memory,
}

impl From<Memory> for ReadError {
    ghost from_gives = { λ _ given. given ≡ error.Memory };

    fn from(_error: Memory) -> ReadError {
        ReadError::Memory
    }
}

impl From<AllocError> for ReadError {
    ghost from_gives = { λ _ given. given ≡ error.Memory };

    fn from(_error: AllocError) -> ReadError {
        ReadError::Memory
    }
}

impl<T: Drop> From<AllocFailed<T>> for ReadError {
    ghost from_gives = { λ _ given. given ≡ error.Memory };

    fn from(_error: AllocFailed<T>) -> ReadError {
        ReadError::Memory
    }
}
