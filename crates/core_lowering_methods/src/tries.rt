//! The code of `try` (JLS 14.20).
ghost use Rattle.std.specs.Prelude.{◌≡◌, ◌++◌, OnOk, map};
ghost use Rattle.core_lowering_rules.specs.Trees.{Finally, pack_stmts, pack_catches};
ghost use Rattle.core_lowering_rules.specs.TreesOf.{stmt_of, catch_of, try_of};
ghost use Rattle.core_lowering_rules.specs.Scopes.{after, caught};
ghost use Rattle.core_lowering_rules.specs.Statements.{stmt};
ghost use Rattle.core_lowering_locks_pairs.specs.Seen.{lock_seen, under, body_of, clauses_of, resources_in};
ghost use Rattle.core_lowering_context.specs.Drafts.{code_of};
ghost use Rattle.core_lowering_methods.specs.StatementSteps.{behind_first, first_part, passed_by};

use crate::finallies::{end_finally, lower_resources, note_unlocks};
use crate::statements::{lower_block, lower_statements};
use core_lowering_context::{Context, Making};
use core_lowering_expressions::lower_expression;
use core_lowering_locks_pairs::Lock;
use core_lowering_parts::{end_block, end_clause, end_locked};
use java_resolver::VariableKind;
use java_tree::{CatchTree, Statement, TryTree};
use racer_base::{Kind, Memory};
use std::alloc::Global;

/// The resources and the block.
#[cycle(statements)]
fn lower_first(
    alloc: Global,
    context: &mut Context,
    tried: &TryTree,
    draft: &mut Making,
) -> Result<(), Memory>
    ensures context { OnOk result (context.new
        ≡ behind_first context.old (resources_in tried.now) (body_of tried.now)) }
    ensures code { OnOk result (code_of draft.new ≡ code_of draft.old
        ++ first_part context.old (resources_in tried.now) (body_of tried.now)) }
{
    let before = context.in_scope();
    let at = draft.len();
    lower_resources(alloc, context, &tried.resources, draft)?;
    lower_block(alloc, context, tried.body.as_slice(), draft)?;
    end_block(alloc, context, draft, before, at)
}

/// A `try` with this `finally`, which does not stand behind its lock.
#[cycle(statements)]
fn lower_finally(
    alloc: Global,
    context: &mut Context,
    tried: &TryTree,
    finally: &[Statement],
    draft: &mut Making,
) -> Result<(), Memory>
    ensures context { OnOk result (context.new ≡ after context.old (Finally (resources_in tried.now) (body_of tried.now)
        (clauses_of tried.now) (pack_stmts (map stmt_of finally.now)))) }
    ensures code { OnOk result (code_of draft.new ≡ code_of draft.old
        ++ stmt context.old (Finally (resources_in tried.now) (body_of tried.now)
        (clauses_of tried.now) (pack_stmts (map stmt_of finally.now)))) }
{
    let at = draft.len();
    let exit = context.enter_guard()?;
    lower_first(alloc, context, tried, draft)?;
    let variable = context.leave_guard(exit);
    pass_clauses(alloc, context, tried.clauses.as_slice(), draft)?;
    note_unlocks(context, finally);
    let behind = draft.len();
    lower_block(alloc, context, finally, draft)?;
    end_finally(alloc, context, exit, variable, at, behind, draft)
}

#[cycle(statements)]
pub fn lower_try(
    alloc: Global,
    context: &mut Context,
    tried: &TryTree,
    draft: &mut Making,
) -> Result<(), Memory>
    ensures context { OnOk result (context.new ≡ after context.old (try_of tried.now)) }
    ensures code { OnOk result (code_of draft.new ≡ code_of draft.old ++ stmt context.old (try_of tried.now)) }
{
    match &tried.finally {
        Some(finally) => lower_finally(alloc, context, tried, finally.as_slice(), draft),
        None => {
            lower_first(alloc, context, tried, draft)?;
            pass_clauses(alloc, context, tried.clauses.as_slice(), draft)
        }
    }
}

/// A locked try, under its lock.
#[cycle(statements)]
pub fn lower_locked(
    alloc: Global,
    context: &mut Context,
    tried: &TryTree,
    lock: Lock,
    draft: &mut Making,
) -> Result<(), Memory>
    ensures context { OnOk result (context.new ≡ after context.old (under (lock_seen lock.entry) tried.now)) }
    ensures code { OnOk result (code_of draft.new ≡ code_of draft.old
        ++ stmt context.old (under (lock_seen lock.entry) tried.now)) }
{
    lower_expression(alloc, context, lock.on, draft)?;
    let body = tried.body.as_slice();
    let at = draft.len();
    lower_block(alloc, context, body, draft)?;
    end_locked(alloc, context, lock, body, at, draft)?;
    pass_clauses(alloc, context, tried.clauses.as_slice(), draft)
}

/// Catch clauses, of which no code is kept.
#[cycle(statements)]
fn pass_clauses(
    alloc: Global,
    context: &mut Context,
    clauses: &[CatchTree],
    draft: &mut Making,
) -> Result<(), Memory>
    ensures context { OnOk result (context.new ≡ caught context.old (pack_catches (map catch_of clauses.now))) }
    ensures kept { OnOk result (code_of draft.new ≡ code_of draft.old) }
{
    for clause in clauses {
        pass_clause(alloc, context, clause, draft)?;
    }
    Ok(())
}

#[cycle(statements)]
fn pass_clause(
    alloc: Global,
    context: &mut Context,
    clause: &CatchTree,
    draft: &mut Making,
) -> Result<(), Memory>
    ensures context { OnOk result (context.new ≡ passed_by context.old (catch_of clause.now)) }
    ensures kept { OnOk result (code_of draft.new ≡ code_of draft.old) }
{
    let before = context.kept(alloc)?;
    let at = draft.len();
    let known = VariableKind {
        kind: Kind::Other,
        is_lock: false,
    };
    context.declare(alloc, known, &clause.parameter.name)?;
    lower_statements(alloc, context, clause.body.as_slice(), draft)?;
    end_clause(alloc, context, before, at, draft)
}
