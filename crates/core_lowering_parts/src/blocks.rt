//! The ends of blocks (JLS 14.2).
ghost use Rattle.std.specs.Prelude.{◌≡◌, OnOk};
ghost use Rattle.core_lowering_context.specs.Drafts.{code_of};
ghost use Rattle.core_lowering_context.specs.Beginning.{left_at};
ghost use Rattle.core_lowering_parts.specs.StatementParts.{Becomes, closed_from};

use core_lowering_context::{Context, Making};
use racer_base::Memory;
use std::alloc::Global;

/// The end of a block that is there from this part on: the variables from this one on are null, and out of scope.
pub fn end_block(
    alloc: Global,
    context: &mut Context,
    draft: &mut Making,
    before: usize,
    at: usize,
) -> Result<(), Memory>
    ensures context { OnOk result (context.new ≡ left_at before context.old) }
    ensures code { OnOk result (Becomes at (closed_from before context.old) (code_of draft.old) (code_of draft.new)) }
{
    let variables = context.variables_from(alloc, before)?;
    draft.end(alloc, context.place(), variables, at)?;
    context.leave(before);
    Ok(())
}
