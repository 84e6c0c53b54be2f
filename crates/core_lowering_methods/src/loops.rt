//! The code of loops, and of statements with labels (JLS 14.7, 14.12 to 14.14).
ghost use Rattle.std.specs.Prelude.{◌≡◌, ◌++◌, IfOk, OnOk, map, option_map};
ghost use Rattle.java_tree.specs.View.{ty_of};
ghost use Rattle.core_lowering_drafts.specs.Drafts.{has};
ghost use Rattle.core_lowering_drafts.specs.Drafts as path;
ghost use Rattle.core_lowering_rules.specs.Trees.{While, Do, For, ForEach, Labelled, pack_exprs};
ghost use Rattle.core_lowering_rules.specs.TreesOf.{expr_of, condition_of, start_of, stmt_of};
ghost use Rattle.core_lowering_rules.specs.Context.{ends_of, within};
ghost use Rattle.core_lowering_rules.specs.Scopes.{after, in_loop, in_labelled, back_from};
ghost use Rattle.core_lowering_rules.specs.Scopes as scopes;
ghost use Rattle.core_lowering_rules.specs.Statements.{stmt, one_round};
ghost use Rattle.core_lowering_context.specs.Drafts.{code_of};
ghost use Rattle.core_lowering_methods.specs.StatementSteps.{elements};

use crate::statements::lower_statement;
use core_lowering_context::{Context, Making};
use core_lowering_expressions::{lower_gone_over, lower_run};
use core_lowering_parts::{
    Round, begin_for, end_block, end_do, end_for, end_for_each, end_round, end_while, lower_next,
};
use java_tree::{Apart, Expression, Ident, StartTree, Statement, TypeTree};
use racer_base::{Memory, VarId};
use std::alloc::Global;

/// The body of a loop, of which a `continue` leads to the end.
#[cycle(statements)]
fn lower_round(
    alloc: Global,
    context: &mut Context,
    s: &Statement,
    draft: &mut Making,
) -> Result<Round, Memory>
    ensures context { OnOk result (context.new ≡ after (in_loop context.old) (stmt_of s.now)) }
    ensures code { OnOk result (code_of draft.new ≡ code_of draft.old
        ++ one_round context.old (stmt (in_loop context.old) (stmt_of s.now))) }
    ensures exit { IfOk result (λ round. round.break_to.0 ≡ context.old.exits) }
    ensures has_break { IfOk result (λ round. round.has_break
        ≡ has (ends_of (stmt (in_loop context.old) (stmt_of s.now))) (path.Exit context.old.exits)) }
{
    let exits = context.enter_loop(alloc)?;
    let at = draft.len();
    lower_statement(alloc, context, s, draft)?;
    end_round(alloc, exits, at, draft)
}

#[cycle(statements)]
pub fn lower_while(
    alloc: Global,
    context: &mut Context,
    s: &Statement,
    e: &Expression,
    draft: &mut Making,
) -> Result<(), Memory>
    ensures context { OnOk result (context.new ≡ after context.old (While (condition_of e.now) (stmt_of s.now))) }
    ensures code { OnOk result (code_of draft.new ≡ code_of draft.old
        ++ stmt context.old (While (condition_of e.now) (stmt_of s.now))) }
{
    lower_run(alloc, context, e, draft)?;
    let at = draft.len();
    let round = lower_round(alloc, context, s, draft)?;
    end_while(alloc, context, e, round, at, draft)
}

#[cycle(statements)]
pub fn lower_do(
    alloc: Global,
    context: &mut Context,
    s: &Statement,
    e: &Expression,
    draft: &mut Making,
) -> Result<(), Memory>
    ensures context { OnOk result (context.new ≡ after context.old (Do (stmt_of s.now) (condition_of e.now))) }
    ensures code { OnOk result (code_of draft.new ≡ code_of draft.old
        ++ stmt context.old (Do (stmt_of s.now) (condition_of e.now))) }
{
    let at = draft.len();
    let round = lower_round(alloc, context, s, draft)?;
    end_do(alloc, context, e, round, at, draft)
}

#[cycle(statements)]
pub fn lower_for(
    alloc: Global,
    context: &mut Context,
    s: &Statement,
    start: &StartTree,
    e: &Option<Apart<Expression>>,
    updates: &[Expression],
    draft: &mut Making,
) -> Result<(), Memory>
    ensures context { OnOk result (context.new ≡ after context.old (For (start_of start.now)
        (option_map condition_of e.now) (pack_exprs (map expr_of updates.now)) (stmt_of s.now))) }
    ensures code { OnOk result (code_of draft.new ≡ code_of draft.old ++ stmt context.old (For (start_of start.now)
        (option_map condition_of e.now) (pack_exprs (map expr_of updates.now)) (stmt_of s.now))) }
{
    let before = context.in_scope();
    let first = draft.len();
    begin_for(alloc, context, start, e, draft)?;
    let at = draft.len();
    let round = lower_round(alloc, context, s, draft)?;
    end_for(alloc, context, e, updates, round, at, draft)?;
    end_block(alloc, context, draft, before, first)
}

/// A `for` over elements, before which the variable is declared.
#[cycle(statements)]
fn lower_elements(
    alloc: Global,
    context: &mut Context,
    s: &Statement,
    v: VarId,
    draft: &mut Making,
) -> Result<(), Memory>
    ensures context { OnOk result (context.new ≡ back_from context.old (after (in_loop context.old) (stmt_of s.now))) }
    ensures code { OnOk result (code_of draft.new ≡ code_of draft.old
        ++ elements context.old v (stmt_of s.now)) }
{
    let at = draft.len();
    lower_next(context, v, draft)?;
    let round = lower_round(alloc, context, s, draft)?;
    end_for_each(alloc, context, round, at, draft)
}

#[cycle(statements)]
pub fn lower_for_each(
    alloc: Global,
    context: &mut Context,
    s: &Statement,
    t: &TypeTree,
    x: &Ident,
    e: &Expression,
    draft: &mut Making,
) -> Result<(), Memory>
    ensures context { OnOk result (context.new
        ≡ after context.old (ForEach (ty_of t.now) x.now (expr_of e.now) (stmt_of s.now))) }
    ensures code { OnOk result (code_of draft.new ≡ code_of draft.old
        ++ stmt context.old (ForEach (ty_of t.now) x.now (expr_of e.now) (stmt_of s.now))) }
{
    let before = context.in_scope();
    let first = draft.len();
    lower_gone_over(alloc, context, e, draft)?;
    let v = context.declare(alloc, context.variable_kind(t, 0), x)?;
    lower_elements(alloc, context, s, v, draft)?;
    end_block(alloc, context, draft, before, first)
}

/// Whether a statement is a loop, behind labels.
#[cycle(labels)]
fn is_loop(s: &Statement) -> bool
    ensures { result ≡ scopes.is_loop (stmt_of s.now) }
{
    match s {
        Statement::While(_, _) => true,
        Statement::Do(_, _) => true,
        Statement::For(_, _, _, _) => true,
        Statement::ForEach(_, _, _) => true,
        Statement::Labelled(_, inner) => is_loop(inner),
        Statement::Block(_) => false,
        Statement::Local(_) => false,
        Statement::Expr(_) => false,
        Statement::If(_, _, None) => false,
        Statement::If(_, _, Some(_)) => false,
        Statement::Sync(_, _, _) => false,
        Statement::Return(_) => false,
        Statement::Empty => false,
        Statement::Throw(_, _) => false,
        Statement::Break(_) => false,
        Statement::Continue(_) => false,
        Statement::Assert(_, _) => false,
        Statement::Switch(_, _) => false,
        Statement::LocalClass(_, _) => false,
        Statement::Try(_) => false,
    }
}

/// A statement that is no loop, with a label.
#[cycle(statements)]
fn lower_named(
    alloc: Global,
    context: &mut Context,
    s: &Statement,
    x: &Ident,
    draft: &mut Making,
) -> Result<(), Memory>
    ensures context { OnOk result (context.new
        ≡ back_from context.old (after (in_labelled context.old x.now) (stmt_of s.now))) }
    ensures code { OnOk result (code_of draft.new ≡ code_of draft.old
        ++ within context.old.exits (stmt (in_labelled context.old x.now) (stmt_of s.now))) }
{
    let exit = context.enter_labelled(alloc, x)?;
    let at = draft.len();
    lower_statement(alloc, context, s, draft)?;
    draft.come_out(alloc, exit, at)?;
    context.leave_target(exit);
    Ok(())
}

#[cycle(statements)]
pub fn lower_labelled(
    alloc: Global,
    context: &mut Context,
    s: &Statement,
    x: &Ident,
    draft: &mut Making,
) -> Result<(), Memory>
    ensures context { OnOk result (context.new ≡ after context.old (Labelled x.now (stmt_of s.now))) }
    ensures code { OnOk result (code_of draft.new ≡ code_of draft.old
        ++ stmt context.old (Labelled x.now (stmt_of s.now))) }
{
    if is_loop(s) {
        context.note_label(alloc, x)?;
        lower_statement(alloc, context, s, draft)
    } else {
        lower_named(alloc, context, s, x, draft)
    }
}
