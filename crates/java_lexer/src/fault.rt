//! Why a file has no tokens.
use racer_base::{Memory, Place};

/// Why a file has no tokens.
#[derive(Clone, Copy)]
pub enum LexFault {
    /// The first byte that is not part of valid UTF-8 has this offset.
    NotUtf8(usize),
    /// What begins at this place is no white space, no comment and no token.
    BadCharacter(Place),
    /// A comment that begins at this place is not closed, or a literal is not closed on its line. This fault comes
    /// before `BadLiteral` where both could be named: an unclosed literal is this one, also with a wrong escape.
    Unclosed(Place),
    /// A quote stands at this place, and what it begins is closed on its line and no literal, or three double
    /// quotes stand here, whatever follows them.
    BadLiteral(Place),
    /// Memory was refused.
    Memory,
}

impl From<Memory> for LexFault {
    ghost use Rattle.std.specs.Prelude.{◌≡◌};
    ghost use Rattle.java_lexer.specs.declared.fault.LexFault.TheVariants.{Memory};

    ghost from_gives = { λ _ fault. fault ≡ Memory };

    fn from(_error: Memory) -> LexFault {
        LexFault::Memory
    }
}
