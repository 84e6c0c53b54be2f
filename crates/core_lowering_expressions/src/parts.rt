//! Parts of statements: expressions whose values are not used, and stores to variables (JLS 14.8, 14.9).
ghost use Rattle.std.specs.Prelude.{◌≡◌, ◌++◌, OnOk, map};
ghost use Rattle.core_lowering_rules.specs.Trees.{pack_exprs};
ghost use Rattle.core_lowering_rules.specs.TreesOf.{expr_of};
ghost use Rattle.core_lowering_rules.specs.Statements.{run, run_all, set};
ghost use Rattle.core_lowering_context.specs.Drafts.{code_of};

use crate::expressions::lower_expression;
use core_code::Op;
use core_lowering_context::{Context, Making};
use java_tree::Expression;
use racer_base::{Memory, VarId};
use std::alloc::Global;

/// An expression whose value is not used.
pub fn lower_run(
    alloc: Global,
    context: &Context,
    e: &Expression,
    draft: &mut Making,
) -> Result<(), Memory>
    ensures { OnOk result (code_of draft.new ≡ code_of draft.old ++ run context.now (expr_of e.now)) }
{
    lower_expression(alloc, context, e, draft)?;
    context.op(draft, Op::Drop)
}

/// Such expressions, one after another.
pub fn lower_run_all(
    alloc: Global,
    context: &Context,
    all: &[Expression],
    draft: &mut Making,
) -> Result<(), Memory>
    ensures { OnOk result (code_of draft.new ≡ code_of draft.old
        ++ run_all context.now (pack_exprs (map expr_of all.now))) }
{
    for e in all {
        lower_run(alloc, context, e, draft)?;
    }
    Ok(())
}

/// Stores the value on top of the stack.
pub fn set(context: &Context, v: VarId, draft: &mut Making) -> Result<(), Memory>
    ensures { OnOk result (code_of draft.new ≡ code_of draft.old ++ set context.now v) }
{
    context.op(draft, Op::Set(v))?;
    context.op(draft, Op::Drop)
}
