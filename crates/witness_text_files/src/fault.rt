//! Why a file is no witness.
ghost use Rattle.std.specs.Prelude.{◌≡◌};
ghost use Rattle.witness_text_files.specs.declared.fault.WitnessFault.TheVariants as fault;

use racer_base::Memory;

/// A member of a witness file, in the order in which they are asked for.
#[derive(Clone, Copy)]
pub enum Field {
    Version,
    Class,
    Entries,
    /// Asked for in version 2 alone.
    Path,
    Objects,
    Legs,
}

/// Why bytes are not read as a witness file.
#[derive(Clone, Copy)]
pub enum WitnessFault {
    /// The bytes are no text in JSON.
    NotJson,
    /// The first member that is missing, or is otherwise than it must be. A value that is no object lacks each.
    NotAWitness(Field),
    /// Memory was refused.
    Memory,
}

impl From<Memory> for WitnessFault {
    ghost from_gives = { λ _ given. given ≡ fault.Memory };

    fn from(_error: Memory) -> WitnessFault {
        WitnessFault::Memory
    }
}
