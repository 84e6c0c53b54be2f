//! Pieces of a program: what is made of one method.
use crate::Program;
use racer_base::MethodId;

/// A value that is made of one method of a program. It names its method, and has a meaning "right for a program", which
/// proofs alone see.
pub trait Piece: Send + Sync + Drop {
    ghost use Rattle.std.specs.Prelude.{◌≡◌};
    ghost use Rattle.core_code.specs.declared.program.Program.{Program};
    ghost use Rattle.racer_base.specs.declared.ids.MethodId.{MethodId};

    ghost names: { Self → MethodId };

    ghost is_right: { Program → Self → Type 0 };

    /// The method that this is made of.
    fn method(&self) -> MethodId
        ensures { result ≡ names self.now };
}
