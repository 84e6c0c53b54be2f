//! The code of `switch` (JLS 14.11).
ghost use Rattle.std.specs.Prelude.{◌≡◌, ◌++◌, None, IfOk, OnOk, map};
ghost use Rattle.core_lowering_rules.specs.Trees.{Switch, pack_groups};
ghost use Rattle.core_lowering_rules.specs.TreesOf.{expr_of, group_of};
ghost use Rattle.core_lowering_rules.specs.Scopes.{after, after_all, after_groups};
ghost use Rattle.core_lowering_rules.specs.Statements.{stmt, stmts, options};
ghost use Rattle.core_lowering_context.specs.Drafts.{code_of};
ghost use Rattle.core_lowering_methods.specs.StatementSteps.{statements_of};

use crate::statements::lower_statements;
use core_lowering_context::{Context, Making};
use core_lowering_drafts::Draft;
use core_lowering_expressions::lower_run;
use core_lowering_parts::{Options, end_group, end_switch, lower_fork};
use java_tree::{Expression, GroupTree};
use racer_base::Memory;
use std::alloc::Global;

/// The statements of a group, which are taken from the draft.
#[cycle(statements)]
fn lower_group(
    alloc: Global,
    context: &mut Context,
    group: &GroupTree,
    draft: &mut Making,
) -> Result<Draft, Memory>
    ensures context { OnOk result (context.new ≡ after_all context.old (statements_of group.now)) }
    ensures kept { OnOk result (code_of draft.new ≡ code_of draft.old) }
    ensures made { IfOk result (λ made. made ≡ stmts context.old (statements_of group.now)) }
{
    let at = draft.len();
    lower_statements(alloc, context, group.body.as_slice(), draft)?;
    end_group(alloc, context, at, draft)
}

/// What of groups may be entered.
#[cycle(statements)]
fn lower_groups(
    alloc: Global,
    context: &mut Context,
    groups: &[GroupTree],
    draft: &mut Making,
) -> Result<Vec<Draft>, Memory>
    ensures context { OnOk result (context.new ≡ after_groups context.old (pack_groups (map group_of groups.now))) }
    ensures kept { OnOk result (code_of draft.new ≡ code_of draft.old) }
    ensures made { IfOk result (λ made. made.items
        ≡ options context.old None (pack_groups (map group_of groups.now))) }
{
    let mut all = Options::none(alloc);
    for group in groups {
        let made = lower_group(alloc, context, group, draft)?;
        all.add(alloc, made)?;
    }
    all.finish(alloc)
}

#[cycle(statements)]
pub fn lower_switch(
    alloc: Global,
    context: &mut Context,
    groups: &[GroupTree],
    e: &Expression,
    draft: &mut Making,
) -> Result<(), Memory>
    ensures context { OnOk result (context.new
        ≡ after context.old (Switch (expr_of e.now) (pack_groups (map group_of groups.now)))) }
    ensures code { OnOk result (code_of draft.new ≡ code_of draft.old
        ++ stmt context.old (Switch (expr_of e.now) (pack_groups (map group_of groups.now)))) }
{
    lower_run(alloc, context, e, draft)?;
    let before = context.in_scope();
    let at = draft.len();
    let exit = context.enter_switch(alloc)?;
    let options = lower_groups(alloc, context, groups, draft)?;
    lower_fork(alloc, groups, options, draft)?;
    end_switch(alloc, context, exit, before, at, draft)
}
