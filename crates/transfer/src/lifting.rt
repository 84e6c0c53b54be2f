//! Choices above a high stack: what they do not reach is taken from under them, and put back behind them.
ghost use Rattle.std.specs.Prelude.{◌≡◌, reverse, IfOk};
ghost use Rattle.core_code.specs.Tree.{tree_of};
ghost use Rattle.owner_domain.specs.Slots.{numbers_above};
ghost use Rattle.transfer.specs.Lifts.{IsLifted, IsLowered};

use core_code::Code;
use owner_domain::{FlowState, NumberedValue};
use racer_base::Memory;
use std::alloc::Global;
use transfer_bodies::is_within;
use transfer_steps::Stop;

/// A stack of so many values is copied whole.
const LOW: usize = 64;

/// So many values on top are kept. A condition of an expression pops none of them: what it tests was pushed last.
const KEPT: usize = 8;

/// What is taken from under code: where the stack is high, all values that the code does not reach.
pub fn lifted(
    alloc: Global,
    code: &Code,
    state: &mut FlowState,
) -> Result<Vec<NumberedValue>, Memory>
    ensures { IfOk result (λ under. IsLifted (tree_of code.now) (reverse under.items) state.old state.new) }
{
    if state.height() <= LOW || !is_within(code, KEPT) {
        return Ok(Vec::new(alloc));
    }
    state.lift(KEPT)
}

/// Puts back what was taken from under code, where it was not stopped.
pub fn lowered(
    ended: Result<bool, Stop>,
    under: Vec<NumberedValue>,
    state: &mut FlowState,
) -> Result<bool, Stop>
    ensures { IsLowered ended result (state.new ≡ numbers_above (reverse under.items) state.old) }
{
    match ended {
        Ok(goes_on) => match state.lower(under) {
            Ok(()) => Ok(goes_on),
            Err(Memory) => Err(Stop::Memory),
        },
        Err(stop) => Err(stop),
    }
}
