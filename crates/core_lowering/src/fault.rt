//! Why units have no program.
use racer_base::Memory;

/// The first of these that holds.
#[derive(Clone, Copy)]
pub enum LowerFault {
    /// How many different pairs of a method and one that it calls there are, where there are too many.
    TooManyCalls(u32),
    /// Memory was refused.
    Memory,
}

impl From<Memory> for LowerFault {
    ghost use Rattle.std.specs.Prelude.{◌≡◌};
    ghost use Rattle.core_lowering.specs.declared.fault.LowerFault.TheVariants as fault;

    ghost from_gives = { λ _ given. given ≡ fault.Memory };

    fn from(_error: Memory) -> LowerFault {
        LowerFault::Memory
    }
}
