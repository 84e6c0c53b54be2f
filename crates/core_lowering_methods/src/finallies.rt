//! What stands round the blocks of a `try` (JLS 14.20).
ghost use Rattle.std.specs.Prelude.{◌≡◌, ◌++◌, OnOk, map};
ghost use Rattle.core_lowering_rules.specs.Trees.{pack_stmts};
ghost use Rattle.core_lowering_rules.specs.TreesOf.{resource_of, resources_of, stmt_of};
ghost use Rattle.core_lowering_rules.specs.Scopes.{with_resource, with_resources, after_last, unlocked_in};
ghost use Rattle.core_lowering_rules.specs.Statements.{begun_resource, begun_resources, last_of, kept_null};
ghost use Rattle.core_lowering_context.specs.Drafts.{code_of};
ghost use Rattle.core_lowering_parts.specs.StatementParts.{Becomes};
ghost use Rattle.core_lowering_methods.specs.StatementSteps.{BothBecome, guarded_by};

use core_code::Op;
use core_lowering_context::{Context, Making};
use core_lowering_drafts::Exit;
use core_lowering_expressions::{lower_expression, set};
use core_lowering_locks::do_any_unlock;
use core_lowering_parts::end_return;
use java_tree::{Apart, ResourceTree, ResourcesTree, Statement};
use racer_base::{Memory, VarId};
use std::alloc::Global;

/// A resource, which is in scope from its value on.
fn lower_resource(
    alloc: Global,
    context: &mut Context,
    resource: &ResourceTree,
    draft: &mut Making,
) -> Result<(), Memory>
    ensures context { OnOk result (context.new ≡ with_resource context.old (resource_of resource.now)) }
    ensures code { OnOk result (code_of draft.new ≡ code_of draft.old
        ++ begun_resource context.old (resource_of resource.now)) }
{
    let kind = context.type_kind(&resource.kind);
    context.note_closing(kind);
    let known = context.variable_kind(&resource.kind, 0);
    let v = context.declare(alloc, known, &resource.name)?;
    let given = lower_expression(alloc, context, &resource.value, draft)?;
    context.convert(draft, kind, given)?;
    set(context, v, draft)
}

/// Resources, one after another.
fn lower_listed(
    alloc: Global,
    context: &mut Context,
    resources: &[ResourceTree],
    draft: &mut Making,
) -> Result<(), Memory>
    ensures context { OnOk result (context.new ≡ with_resources context.old (map resource_of resources.now)) }
    ensures code { OnOk result (code_of draft.new ≡ code_of draft.old
        ++ begun_resources context.old (map resource_of resources.now)) }
{
    for resource in resources {
        lower_resource(alloc, context, resource, draft)?;
    }
    Ok(())
}

/// The resources of a `try` (JLS 14.20.3).
pub fn lower_resources(
    alloc: Global,
    context: &mut Context,
    resources: &Option<Apart<ResourcesTree>>,
    draft: &mut Making,
) -> Result<(), Memory>
    ensures context { OnOk result (context.new ≡ with_resources context.old (resources_of resources.now)) }
    ensures code { OnOk result (code_of draft.new ≡ code_of draft.old
        ++ begun_resources context.old (resources_of resources.now)) }
{
    match resources {
        Some(resources) => lower_listed(alloc, context, resources.get().items.as_slice(), draft),
        None => Ok(()),
    }
}

/// Notes whether a `finally` unlocks.
pub fn note_unlocks(context: &mut Context, finally: &[Statement])
    ensures { context.new ≡ unlocked_in context.old (pack_stmts (map stmt_of finally.now)) }
{
    if do_any_unlock(finally) {
        context.note_other_lock();
    }
}

/// What is done behind a `finally` where a value was returned.
fn lower_last(
    context: &mut Context,
    variable: Option<VarId>,
    draft: &mut Making,
) -> Result<(), Memory>
    ensures context { OnOk result (context.new ≡ after_last variable context.old) }
    ensures code { OnOk result (code_of draft.new ≡ code_of draft.old ++ last_of context.old variable) }
{
    let Some(v) = variable else {
        return Ok(());
    };
    context.op(draft, Op::Push(v))?;
    end_return(context, draft)
}

/// The variable of what was returned, which is there from this part on, is null.
fn end_returned(
    alloc: Global,
    context: &Context,
    variable: Option<VarId>,
    at: usize,
    draft: &mut Making,
) -> Result<(), Memory>
    ensures { OnOk result (Becomes at (kept_null context.now variable) (code_of draft.old) (code_of draft.new)) }
{
    let Some(v) = variable else {
        return Ok(());
    };
    let mut variables = Vec::new(alloc);
    variables.push(v)?;
    draft.end(alloc, context.place(), variables, at)
}

/// The end of a `try` with a `finally`: the first part is there from one part on, and `finally` from another.
pub fn end_finally(
    alloc: Global,
    context: &mut Context,
    exit: Exit,
    variable: Option<VarId>,
    at: usize,
    behind: usize,
    draft: &mut Making,
) -> Result<(), Memory>
    ensures context { OnOk result (context.new ≡ after_last variable context.old) }
    ensures code { OnOk result (BothBecome at behind (guarded_by context.old exit.0 variable) (code_of draft.old)
        (code_of draft.new)) }
{
    let end = draft.len();
    lower_last(context, variable, draft)?;
    let last = draft.taken(alloc, end)?;
    let finally = draft.taken(alloc, behind)?;
    let first = draft.taken(alloc, at)?;
    draft.guard(alloc, first, finally, exit, last)?;
    end_returned(alloc, context, variable, at, draft)
}
