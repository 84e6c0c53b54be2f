//! Operations that free a monitor.
ghost use Rattle.std.specs.Prelude.{◌≡◌, ◌&&◌, nat_lt};
ghost use Rattle.core_code.specs.Tree.{is_return};

use core_code::Op;

/// Whether an operation in a frame with so many locks frees the innermost monitor and stays: a return within locks does
/// (JLS 14.17, 14.19).
pub fn frees_one(op: Op, locked: usize) -> bool
    ensures { result ≡ (is_return op && nat_lt 0 locked) }
{
    match op {
        Op::Ret => locked > 0,
        _ => false,
    }
}
