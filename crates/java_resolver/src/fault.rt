//! Why the units of a folder have no table.
use racer_base::{Memory, Place};

/// The first of these that holds, in their order.
#[derive(Clone, Copy)]
pub enum ResolveFault {
    /// The first class whose name an earlier one has, and the place of the first of that name.
    DuplicateClass(Place, Place),
    /// The first field whose name an earlier one of its class has, and the place of the first of that name.
    DuplicateField(Place, Place),
    /// How many classes there are, where there are too many.
    TooManyClasses(u32),
    /// How many methods there are, where there are too many; constructors that no class declares included.
    TooManyMethods(u32),
    /// Memory was refused.
    Memory,
}

impl From<Memory> for ResolveFault {
    ghost use Rattle.std.specs.Prelude.{◌≡◌};
    ghost use Rattle.java_resolver.specs.declared.fault.ResolveFault.TheVariants as fault;

    ghost from_gives = { λ _ given. given ≡ fault.Memory };

    fn from(_error: Memory) -> ResolveFault {
        ResolveFault::Memory
    }
}
