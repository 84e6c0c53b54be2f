//! Local variables (JLS 14.4).
ghost use Rattle.std.specs.Prelude.{◌≡◌, ◌++◌, OnOk, map, option_map};
ghost use Rattle.java_tree.specs.View.{ty_of};
ghost use Rattle.core_lowering_rules.specs.TreesOf.{init_of, variable_of, start_of};
ghost use Rattle.core_lowering_rules.specs.Context.{variable_kind_in};
ghost use Rattle.core_lowering_rules.specs.Scopes.{next_variable, of_type, all_declared, started};
ghost use Rattle.core_lowering_rules.specs.Statements.{begun, begun_all};
ghost use Rattle.core_lowering_rules.specs.Statements as lowering;
ghost use Rattle.core_lowering_context.specs.Drafts.{code_of};

use core_lowering_context::{Context, Making};
use core_lowering_expressions::{lower_initialiser, lower_run_all, set};
use java_tree::{Initialiser, LocalsTree, StartTree, TypeTree, VariableTree};
use racer_base::{Kind, Memory, VarId};
use std::alloc::Global;

/// What a variable begins with.
fn lower_begin(
    alloc: Global,
    context: &Context,
    v: VarId,
    kind: Kind,
    initialiser: &Option<Initialiser>,
    draft: &mut Making,
) -> Result<(), Memory>
    ensures { OnOk result (code_of draft.new ≡ code_of draft.old
        ++ begun context.now v kind (option_map init_of initialiser.now)) }
{
    let Some(initialiser) = initialiser else {
        return Ok(());
    };
    let given = lower_initialiser(alloc, context, initialiser, draft)?;
    context.convert(draft, kind, given)?;
    set(context, v, draft)
}

/// A variable of this type, which is in scope from its initialiser on.
fn lower_variable(
    alloc: Global,
    context: &mut Context,
    t: &TypeTree,
    variable: &VariableTree,
    draft: &mut Making,
) -> Result<(), Memory>
    ensures context { OnOk result (context.new
        ≡ of_type context.old (ty_of t.now) variable.now.arrays variable.now.name) }
    ensures code { OnOk result (code_of draft.new ≡ code_of draft.old
        ++ begun (of_type context.old (ty_of t.now) variable.now.arrays variable.now.name) (next_variable context.old)
        (variable_kind_in context.old (ty_of t.now) variable.now.arrays).kind
        (option_map init_of variable.now.initialiser)) }
{
    let known = context.variable_kind(t, variable.arrays);
    let v = context.declare(alloc, known, &variable.name)?;
    lower_begin(alloc, context, v, known.kind, &variable.initialiser, draft)
}

/// Variables of this type.
fn lower_variables(
    alloc: Global,
    context: &mut Context,
    t: &TypeTree,
    variables: &[VariableTree],
    draft: &mut Making,
) -> Result<(), Memory>
    ensures context { OnOk result (context.new
        ≡ all_declared context.old (ty_of t.now) (map variable_of variables.now)) }
    ensures code { OnOk result (code_of draft.new ≡ code_of draft.old
        ++ begun_all context.old (ty_of t.now) (map variable_of variables.now)) }
{
    for variable in variables {
        lower_variable(alloc, context, t, variable, draft)?;
    }
    Ok(())
}

/// A declaration of local variables.
pub fn lower_locals(
    alloc: Global,
    context: &mut Context,
    locals: &LocalsTree,
    draft: &mut Making,
) -> Result<(), Memory>
    ensures context { OnOk result (context.new
        ≡ all_declared context.old (ty_of locals.now.kind) (map variable_of locals.now.variables)) }
    ensures code { OnOk result (code_of draft.new ≡ code_of draft.old
        ++ begun_all context.old (ty_of locals.now.kind) (map variable_of locals.now.variables)) }
{
    let variables = locals.variables.as_slice();
    lower_variables(alloc, context, &locals.kind, variables, draft)
}

/// What stands before the first `;` of a `for` (JLS 14.14.1).
pub fn lower_start(
    alloc: Global,
    context: &mut Context,
    start: &StartTree,
    draft: &mut Making,
) -> Result<(), Memory>
    ensures context { OnOk result (context.new ≡ started context.old (start_of start.now)) }
    ensures code { OnOk result (code_of draft.new ≡ code_of draft.old
        ++ lowering.start context.old (start_of start.now)) }
{
    match start {
        StartTree::Local(locals) => lower_locals(alloc, context, locals, draft),
        StartTree::Expressions(all) => lower_run_all(alloc, context, all.as_slice(), draft),
    }
}
