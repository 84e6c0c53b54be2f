//! What is found of a method while its code is gone through.

use access_domain::Accesses;
use owner_domain::Value;
use racer_base::Memory;
use wobbly_paths::Wobbly;

/// Why going through code stops before its end.
#[derive(Clone, Copy)]
pub enum Stop {
    /// There are too many records or wobbly paths, or a call of a method that has too many is reached.
    Large,
    Memory,
}

impl From<Memory> for Stop {
    ghost use Rattle.std.specs.Prelude.{◌≡◌};
    ghost use Rattle.transfer_steps.specs.declared.found.Stop.TheVariants.{Memory as NoMemory};

    ghost from_gives = { λ memory stop. stop ≡ NoMemory };

    fn from(_memory: Memory) -> Stop {
        Stop::Memory
    }
}

/// What was found, in paths.
#[derive(Drop)]
pub struct Found {
    pub records: Accesses,
    pub wobbly: Wobbly,
    /// The join of the values that were returned.
    pub result: Option<Value>,
}
