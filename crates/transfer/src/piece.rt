//! A finished method is a piece of a program: right for a program where its own program is that one.
use crate::Finished;
use core_code::Piece;
use racer_base::MethodId;

impl Piece for Finished {
    ghost use Rattle.std.specs.Prelude.{◌≡◌};
    ghost use Rattle.std.specs.Arc.{arc_value};

    ghost names = { λ f. f.method };

    ghost is_right = { λ p f. arc_value f.program ≡ p };

    fn method(&self) -> MethodId {
        self.method
    }
}
