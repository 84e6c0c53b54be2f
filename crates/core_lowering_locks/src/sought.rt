//! Whether what is sought stands in statements, at any depth.
ghost use Rattle.std.specs.Prelude.{◌≡◌, ◌||◌, map, option_map};
ghost use Rattle.core_lowering_rules.specs.Trees.{pack_exprs, pack_stmts, pack_catches, pack_groups};
ghost use Rattle.core_lowering_rules.specs.TreesOf.{expr_of, condition_of, start_of, resources_of, resource_of};
ghost use Rattle.core_lowering_rules.specs.TreesOf.{label_of, stmt_of, catch_of, group_of, try_of};
ghost use Rattle.core_lowering_rules.specs.Sought as wanted;
ghost use Rattle.core_lowering_locks_pairs.specs.Seen.{item_seen, locked_seen, resources_in, body_of, clauses_of};
ghost use Rattle.core_lowering_locks.specs.Seen.{sought_seen};
ghost use Rattle.core_lowering_rules.specs.Sought.{Unlocking};
ghost use Rattle.core_lowering_rules.specs.Locks.{is_stored_in};

use crate::sought_values::{
    Sought, do_exprs_stand, do_variables_stand, does_some_stand, does_stand,
};
use core_lowering_locks_pairs::{Item, Locked, first_item, simple_name};
use java_tree::{
    Apart, CatchTree, Expression, GroupTree, LabelTree, ResourceTree, ResourcesTree, StartTree,
    Statement, TryTree,
};

fn is_unlocking(sought: Sought) -> bool
    ensures { result ≡ wanted.is_unlocking (sought_seen sought.entry) }
{
    match sought {
        Sought::Unlocking => true,
        Sought::Storing(_) => false,
    }
}

fn does_start_stand(sought: Sought, start: &StartTree) -> bool
    ensures { result ≡ wanted.does_start_stand (sought_seen sought.entry) (start_of start.now) }
{
    match start {
        StartTree::Local(locals) => do_variables_stand(sought, locals.variables.as_slice()),
        StartTree::Expressions(all) => do_exprs_stand(sought, all.as_slice()),
    }
}

fn does_condition_stand(sought: Sought, e: &Option<Apart<Expression>>) -> bool
    ensures { result ≡ wanted.does_condition_stand (sought_seen sought.entry) (option_map condition_of e.now) }
{
    match e {
        Some(e) => does_stand(sought, e.get()),
        None => false,
    }
}

/// What stands in the parentheses of a `for`.
fn does_head_stand(
    sought: Sought,
    start: &StartTree,
    e: &Option<Apart<Expression>>,
    updates: &[Expression],
) -> bool
    ensures { result ≡ (wanted.does_start_stand (sought_seen sought.entry) (start_of start.now)
        || wanted.does_condition_stand (sought_seen sought.entry) (option_map condition_of e.now)
        || wanted.do_exprs_stand (sought_seen sought.entry) (pack_exprs (map expr_of updates.now))) }
{
    does_start_stand(sought, start)
        || does_condition_stand(sought, e)
        || do_exprs_stand(sought, updates)
}

fn do_listed_stand(sought: Sought, resources: &[ResourceTree]) -> bool
    ensures { result ≡ wanted.do_resources_stand (sought_seen sought.entry) (map resource_of resources.now) }
{
    for resource in resources {
        if does_stand(sought, &resource.value) {
            return true;
        }
    }
    false
}

fn do_resources_stand(sought: Sought, resources: &Option<Apart<ResourcesTree>>) -> bool
    ensures { result ≡ wanted.do_resources_stand (sought_seen sought.entry) (resources_of resources.now) }
{
    match resources {
        Some(resources) => do_listed_stand(sought, resources.get().items.as_slice()),
        None => false,
    }
}

fn does_label_stand(sought: Sought, label: &LabelTree) -> bool
    ensures { result ≡ wanted.does_some_stand (sought_seen sought.entry) (label_of label.now) }
{
    match label {
        LabelTree::Case(e) => does_stand(sought, e),
        LabelTree::Default => false,
    }
}

fn do_labels_stand(sought: Sought, labels: &[LabelTree]) -> bool
    ensures { result ≡ wanted.do_labels_stand (sought_seen sought.entry) (map label_of labels.now) }
{
    for label in labels {
        if does_label_stand(sought, label) {
            return true;
        }
    }
    false
}

#[cycle(sought)]
fn does_stmt_stand(sought: Sought, statement: &Statement) -> bool
    ensures { result ≡ wanted.does_stmt_stand (sought_seen sought.entry) (stmt_of statement.now) }
{
    match statement {
        Statement::Block(all) => do_any_stand(sought, all),
        Statement::Local(locals) => do_variables_stand(sought, locals.get().variables.as_slice()),
        Statement::Expr(e) => does_stand(sought, e),
        Statement::If(e, s, None) => does_stand(sought, e.get()) || does_stmt_stand(sought, s),
        Statement::If(e, s, Some(t)) => {
            does_stand(sought, e.get()) || does_stmt_stand(sought, s) || does_stmt_stand(sought, t)
        }
        Statement::While(e, s) => does_stand(sought, e.get()) || does_stmt_stand(sought, s),
        Statement::For(start, e, updates, s) => {
            does_head_stand(sought, start.get(), e, updates) || does_stmt_stand(sought, s)
        }
        Statement::ForEach(_, e, s) => does_stand(sought, e.get()) || does_stmt_stand(sought, s),
        Statement::Sync(_, e, all) => does_sync_stand(sought, all, e.get()),
        Statement::Return(e) => does_some_stand(sought, e),
        Statement::Empty => false,
        Statement::Do(s, e) => does_stmt_stand(sought, s) || does_stand(sought, e.get()),
        Statement::Throw(_, e) => does_stand(sought, e.get()),
        Statement::Break(_) => false,
        Statement::Continue(_) => false,
        Statement::Labelled(_, s) => does_stmt_stand(sought, s),
        Statement::Assert(e, told) => does_stand(sought, e.get()) || does_some_stand(sought, told),
        Statement::Switch(e, groups) => does_switch_stand(sought, groups, e.get()),
        Statement::LocalClass(_, _) => false,
        Statement::Try(tried) => does_try_stand(sought, tried),
    }
}

#[cycle(sought)]
fn does_sync_stand(sought: Sought, all: &[Statement], e: &Expression) -> bool
    ensures { result ≡ (wanted.does_stand (sought_seen sought.entry) (expr_of e.now)
        || wanted.do_any_stand (sought_seen sought.entry) (pack_stmts (map stmt_of all.now))) }
{
    does_stand(sought, e) || do_any_stand(sought, all)
}

#[cycle(sought)]
fn does_switch_stand(sought: Sought, groups: &[GroupTree], e: &Expression) -> bool
    ensures { result ≡ (wanted.does_stand (sought_seen sought.entry) (expr_of e.now)
        || wanted.do_groups_stand (sought_seen sought.entry) (pack_groups (map group_of groups.now))) }
{
    does_stand(sought, e) || do_groups_stand(sought, groups)
}

#[cycle(sought)]
fn do_groups_stand(sought: Sought, groups: &[GroupTree]) -> bool
    ensures { result ≡ wanted.do_groups_stand (sought_seen sought.entry) (pack_groups (map group_of groups.now)) }
{
    for group in groups {
        if do_labels_stand(sought, group.labels.as_slice())
            || do_any_stand(sought, group.body.as_slice())
        {
            return true;
        }
    }
    false
}

#[cycle(sought)]
fn do_clauses_stand(sought: Sought, clauses: &[CatchTree]) -> bool
    ensures { result ≡ wanted.do_clauses_stand (sought_seen sought.entry) (pack_catches (map catch_of clauses.now)) }
{
    for clause in clauses {
        if do_any_stand(sought, clause.body.as_slice()) {
            return true;
        }
    }
    false
}

/// What stands in a `try` but in its `finally`.
#[cycle(sought)]
fn do_parts_stand(sought: Sought, tried: &TryTree) -> bool
    ensures { result ≡ (wanted.do_resources_stand (sought_seen sought.entry) (resources_in tried.now)
        || wanted.do_any_stand (sought_seen sought.entry) (body_of tried.now)
        || wanted.do_clauses_stand (sought_seen sought.entry) (clauses_of tried.now)) }
{
    do_resources_stand(sought, &tried.resources)
        || do_any_stand(sought, tried.body.as_slice())
        || do_clauses_stand(sought, tried.clauses.as_slice())
}

#[cycle(sought)]
#[tactic(auto, using(crate::proofs::Standing::try_stands, crate::proofs::Standing::finally_stands))]
fn does_try_stand(sought: Sought, tried: &TryTree) -> bool
    ensures { result ≡ wanted.does_stmt_stand (sought_seen sought.entry) (try_of tried.now) }
{
    match &tried.finally {
        Some(finally) => do_parts_stand(sought, tried) || do_any_stand(sought, finally.as_slice()),
        None => do_parts_stand(sought, tried),
    }
}

/// A locked try has a call of `unlock` in its `finally`.
#[cycle(sought)]
fn does_locked_stand(sought: Sought, locked: Locked) -> bool
    ensures { result ≡ wanted.does_stmt_stand (sought_seen sought.entry) (locked_seen locked.entry) }
{
    is_unlocking(sought)
        || does_stand(sought, locked.lock.on)
        || do_any_stand(sought, locked.tried.body.as_slice())
        || do_clauses_stand(sought, locked.tried.clauses.as_slice())
}

/// Whether it stands in an item.
#[cycle(sought)]
fn does_item_stand(sought: Sought, item: Item) -> bool
    ensures { result ≡ wanted.does_stmt_stand (sought_seen sought.entry) (item_seen item.entry) }
{
    match item {
        Item::Alone(statement) => does_stmt_stand(sought, statement),
        Item::Locked(locked) => does_locked_stand(sought, locked),
    }
}

/// Whether what is sought stands in these statements.
#[cycle(sought)]
fn do_any_stand(sought: Sought, statements: &[Statement]) -> bool
    ensures { result ≡ wanted.do_any_stand (sought_seen sought.entry) (pack_stmts (map stmt_of statements.now)) }
{
    let mut rest = statements;
    while let Some((item, behind)) = first_item(rest) {
        if does_item_stand(sought, item) {
            return true;
        }
        rest = behind;
    }
    false
}

/// Whether a call of `unlock` without arguments stands in these statements.
pub fn do_any_unlock(statements: &[Statement]) -> bool
    ensures { result ≡ wanted.do_any_stand Unlocking (pack_stmts (map stmt_of statements.now)) }
{
    do_any_stand(Sought::Unlocking, statements)
}

/// Whether these statements store to the variable that an expression is.
pub fn is_stored_in(e: &Expression, statements: &[Statement]) -> bool
    ensures { result ≡ is_stored_in (expr_of e.now) (pack_stmts (map stmt_of statements.now)) }
{
    match simple_name(e) {
        Some(x) => do_any_stand(Sought::Storing(x), statements),
        None => false,
    }
}
