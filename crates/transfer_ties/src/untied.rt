//! Why nothing is given.
use racer_base::Memory;
use std::alloc::{AllocError, AllocFailed};

/// Why nothing is given with the numbers of a newer program.
#[derive(Clone, Copy)]
pub enum Untied {
    /// A class or a field has no partner there.
    NoPartner,
    /// Memory was refused.
    Memory,
}

impl From<Memory> for Untied {
    ghost use Rattle.std.specs.Prelude.{◌≡◌};
    ghost use Rattle.transfer_ties.specs.declared.untied.Untied.TheVariants as untied;

    ghost from_gives = { λ _ given. given ≡ untied.Memory };

    fn from(_error: Memory) -> Untied {
        Untied::Memory
    }
}

impl From<AllocError> for Untied {
    ghost use Rattle.std.specs.Prelude.{◌≡◌};
    ghost use Rattle.transfer_ties.specs.declared.untied.Untied.TheVariants as untied;

    ghost from_gives = { λ _ given. given ≡ untied.Memory };

    fn from(_error: AllocError) -> Untied {
        Untied::Memory
    }
}

impl<T: Drop> From<AllocFailed<T>> for Untied {
    ghost use Rattle.std.specs.Prelude.{◌≡◌};
    ghost use Rattle.transfer_ties.specs.declared.untied.Untied.TheVariants as untied;

    ghost from_gives = { λ _ given. given ≡ untied.Memory };

    fn from(_error: AllocFailed<T>) -> Untied {
        Untied::Memory
    }
}
