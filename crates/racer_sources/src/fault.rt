//! Why no sources are given.
use crate::refusal::Refusal;
use racer_base::{FolderFault, Memory};

/// Why no sources are given.
#[derive(Clone, Copy)]
pub enum SourceFault {
    /// They are refused.
    Refused(Refusal),
    /// The folder failed, and its count of faults rose.
    Failed,
    /// Memory was refused.
    Memory,
}

impl From<FolderFault> for SourceFault {
    ghost use Rattle.std.specs.Prelude.{◌≡◌};
    ghost use Rattle.racer_sources.specs.Reading.{as_source_fault};

    ghost from_gives = { λ fault given. given ≡ as_source_fault fault };

    fn from(fault: FolderFault) -> SourceFault {
        match fault {
            FolderFault::Failed => SourceFault::Failed,
            FolderFault::Memory => SourceFault::Memory,
        }
    }
}

impl From<Memory> for SourceFault {
    ghost use Rattle.std.specs.Prelude.{◌≡◌};
    ghost use Rattle.racer_sources.specs.declared.fault.SourceFault.TheVariants as fault;

    ghost from_gives = { λ _ given. given ≡ fault.Memory };

    fn from(_error: Memory) -> SourceFault {
        SourceFault::Memory
    }
}
