//! Choices above a high stack: what they do not reach is taken from under them, and put back behind them.
ghost use Rattle.std.specs.Prelude.{◌≡◌, reverse, IfOk};
ghost use Rattle.core_code.specs.Tree.{tree_of};
ghost use Rattle.typed_core.specs.Lifts.{IsLifted};

use crate::kinds::TypedKind;
use crate::states::Kinds;
use core_code::Code;
use racer_base::Memory;
use std::alloc::Global;
use transfer_bodies::is_within;

/// A stack of so many kinds is copied whole.
const LOW: usize = 64;

/// So many kinds on top are kept. A condition of an expression pops none of them: what it tests was pushed last.
const KEPT: usize = 8;

/// What is taken from under code: where the stack is high, all kinds that the code does not reach.
pub(crate) fn lifted(alloc: Global, code: &Code, here: &mut Kinds) -> Result<Vec<TypedKind>, Memory>
    ensures { IfOk result (λ under. IsLifted (tree_of code.now) (reverse under.items) here.old here.new) }
{
    if here.height() <= LOW || !is_within(code, KEPT) {
        return Ok(Vec::new(alloc));
    }
    here.lift(KEPT)
}
