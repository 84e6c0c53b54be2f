//! The code of statements (JLS 14).
ghost use Rattle.std.specs.Prelude.{◌≡◌, ◌++◌, [], OnOk, map};
ghost use Rattle.core_lowering_rules.specs.Trees.{If, IfElse, Sync, Block, Throw, pack_stmts};
ghost use Rattle.core_lowering_rules.specs.TreesOf.{expr_of, stmt_of};
ghost use Rattle.core_lowering_rules.specs.Context.{choice};
ghost use Rattle.core_lowering_rules.specs.Scopes.{after, after_all};
ghost use Rattle.core_lowering_rules.specs.Statements.{run, stmt, stmts};
ghost use Rattle.core_lowering_locks_pairs.specs.Seen.{item_seen};
ghost use Rattle.core_lowering_context.specs.Drafts.{code_of};

use crate::loops::{lower_do, lower_for, lower_for_each, lower_labelled, lower_while};
use crate::switches::lower_switch;
use crate::tries::{lower_locked, lower_try};
use core_code::{LockKind, Op};
use core_lowering_context::{Context, Making, lower_break, lower_continue};
use core_lowering_expressions::{lower_expression, lower_run};
use core_lowering_locks_pairs::{Item, first_item};
use core_lowering_parts::{end_block, lower_locals, lower_return};
use java_tree::{Expression, Statement};
use racer_base::{Memory, Place};
use std::alloc::Global;

fn lower_throw(
    alloc: Global,
    context: &Context,
    place: Place,
    e: &Expression,
    draft: &mut Making,
) -> Result<(), Memory>
    ensures { OnOk result (code_of draft.new ≡ code_of draft.old ++ stmt context.now (Throw place (expr_of e.now))) }
{
    lower_run(alloc, context, e, draft)?;
    draft.op(place, Op::Throw)
}

fn lower_assert(
    alloc: Global,
    context: &Context,
    e: &Expression,
    draft: &mut Making,
) -> Result<(), Memory>
    ensures { OnOk result (code_of draft.new ≡ code_of draft.old ++ choice (run context.now (expr_of e.now)) []) }
{
    let left = draft.len();
    lower_run(alloc, context, e, draft)?;
    let right = draft.len();
    draft.choose(alloc, left, right)
}

#[cycle(statements)]
pub fn lower_statement(
    alloc: Global,
    context: &mut Context,
    statement: &Statement,
    draft: &mut Making,
) -> Result<(), Memory>
    ensures context { OnOk result (context.new ≡ after context.old (stmt_of statement.now)) }
    ensures code { OnOk result (code_of draft.new ≡ code_of draft.old ++ stmt context.old (stmt_of statement.now)) }
{
    match statement {
        Statement::Block(all) => lower_block(alloc, context, all, draft),
        Statement::Local(locals) => lower_locals(alloc, context, locals.get(), draft),
        Statement::Expr(e) => lower_run(alloc, context, e, draft),
        Statement::If(e, s, None) => lower_if(alloc, context, s, e.get(), draft),
        Statement::If(e, s, Some(t)) => lower_if_else(alloc, context, s, t, e.get(), draft),
        Statement::While(e, s) => lower_while(alloc, context, s, e.get(), draft),
        Statement::For(start, e, updates, s) => lower_for(
            alloc,
            context,
            s,
            start.get(),
            e,
            updates,
            draft,
        ),
        Statement::ForEach(each, e, s) => lower_for_each(
            alloc,
            context,
            s,
            &each.get().kind,
            &each.get().name,
            e.get(),
            draft,
        ),
        Statement::Sync(place, e, all) => lower_sync(alloc, context, all, *place, e.get(), draft),
        Statement::Return(e) => lower_return(alloc, context, e, draft),
        Statement::Empty => Ok(()),
        Statement::LocalClass(_, _) => Ok(()),
        Statement::Do(s, e) => lower_do(alloc, context, s, e.get(), draft),
        Statement::Throw(place, e) => lower_throw(alloc, context, *place, e.get(), draft),
        Statement::Break(x) => lower_break(context, x, draft),
        Statement::Continue(x) => lower_continue(context, x, draft),
        Statement::Labelled(x, s) => lower_labelled(alloc, context, s, x.get(), draft),
        Statement::Assert(e, _) => lower_assert(alloc, context, e.get(), draft),
        Statement::Switch(e, groups) => lower_switch(alloc, context, groups, e.get(), draft),
        Statement::Try(tried) => lower_try(alloc, context, tried, draft),
    }
}

/// Statements, one after another.
#[cycle(statements)]
pub fn lower_statements(
    alloc: Global,
    context: &mut Context,
    statements: &[Statement],
    draft: &mut Making,
) -> Result<(), Memory>
    ensures context { OnOk result (context.new ≡ after_all context.old (pack_stmts (map stmt_of statements.now))) }
    ensures code { OnOk result (code_of draft.new ≡ code_of draft.old
        ++ stmts context.old (pack_stmts (map stmt_of statements.now))) }
{
    let mut rest = statements;
    while let Some((item, behind)) = first_item(rest) {
        lower_item(alloc, context, item, draft)?;
        rest = behind;
    }
    Ok(())
}

#[cycle(statements)]
fn lower_item(
    alloc: Global,
    context: &mut Context,
    item: Item,
    draft: &mut Making,
) -> Result<(), Memory>
    ensures context { OnOk result (context.new ≡ after context.old (item_seen item.entry)) }
    ensures code { OnOk result (code_of draft.new ≡ code_of draft.old ++ stmt context.old (item_seen item.entry)) }
{
    match item {
        Item::Alone(statement) => lower_statement(alloc, context, statement, draft),
        Item::Locked(locked) => lower_locked(alloc, context, locked.tried, locked.lock, draft),
    }
}

/// A block, at whose end its variables are null.
#[cycle(statements)]
pub fn lower_block(
    alloc: Global,
    context: &mut Context,
    statements: &[Statement],
    draft: &mut Making,
) -> Result<(), Memory>
    ensures context { OnOk result (context.new
        ≡ after context.old (Block (pack_stmts (map stmt_of statements.now)))) }
    ensures code { OnOk result (code_of draft.new ≡ code_of draft.old
        ++ stmt context.old (Block (pack_stmts (map stmt_of statements.now)))) }
{
    let before = context.in_scope();
    let at = draft.len();
    lower_statements(alloc, context, statements, draft)?;
    end_block(alloc, context, draft, before, at)
}

#[cycle(statements)]
fn lower_if(
    alloc: Global,
    context: &mut Context,
    s: &Statement,
    e: &Expression,
    draft: &mut Making,
) -> Result<(), Memory>
    ensures context { OnOk result (context.new ≡ after context.old (If (expr_of e.now) (stmt_of s.now))) }
    ensures code { OnOk result (code_of draft.new ≡ code_of draft.old
        ++ stmt context.old (If (expr_of e.now) (stmt_of s.now))) }
{
    lower_run(alloc, context, e, draft)?;
    let left = draft.len();
    lower_statement(alloc, context, s, draft)?;
    let right = draft.len();
    draft.choose(alloc, left, right)
}

#[cycle(statements)]
fn lower_if_else(
    alloc: Global,
    context: &mut Context,
    s: &Statement,
    t: &Statement,
    e: &Expression,
    draft: &mut Making,
) -> Result<(), Memory>
    ensures context { OnOk result (context.new
        ≡ after context.old (IfElse (expr_of e.now) (stmt_of s.now) (stmt_of t.now))) }
    ensures code { OnOk result (code_of draft.new ≡ code_of draft.old
        ++ stmt context.old (IfElse (expr_of e.now) (stmt_of s.now) (stmt_of t.now))) }
{
    lower_run(alloc, context, e, draft)?;
    let left = draft.len();
    lower_statement(alloc, context, s, draft)?;
    let right = draft.len();
    lower_statement(alloc, context, t, draft)?;
    draft.choose(alloc, left, right)
}

#[cycle(statements)]
fn lower_sync(
    alloc: Global,
    context: &mut Context,
    statements: &[Statement],
    place: Place,
    e: &Expression,
    draft: &mut Making,
) -> Result<(), Memory>
    ensures context { OnOk result (context.new
        ≡ after context.old (Sync place (expr_of e.now) (pack_stmts (map stmt_of statements.now)))) }
    ensures code { OnOk result (code_of draft.new ≡ code_of draft.old
        ++ stmt context.old (Sync place (expr_of e.now) (pack_stmts (map stmt_of statements.now)))) }
{
    lower_expression(alloc, context, e, draft)?;
    let body = draft.len();
    lower_block(alloc, context, statements, draft)?;
    draft.hold(alloc, LockKind::Own, place, body)
}
