//! The names of the type parameters of a method and of the local classes in its block (JLS 8.4.4, 14.3).
ghost use Rattle.std.specs.Prelude.{◌≡◌, ◌++◌, map, option_map, IfOk, OnOk};
ghost use Rattle.java_tree.specs.Trees.{pack_stmts};
ghost use Rattle.java_tree.specs.View.{stmt_of, try_of, catch_of, group_of, pack_rows, pack_groups};
ghost use Rattle.java_resolver.specs.Hidden.{classes_in, classes_in_all, classes_in_pieces, classes_in_several};
ghost use Rattle.java_resolver.specs.Hidden.{classes_in_groups, classes_in_last, hidden_in};

use java_resolver_parts::push_type_parameters;
use java_tree::{CatchTree, GroupTree, MethodTree, Statement, TryTree};
use racer_base::{Memory, Text};
use std::alloc::Global;

/// Adds the local classes of a statement.
#[cycle(local_classes)]
fn push_classes(names: &mut Vec<Text>, statement: &Statement) -> Result<(), Memory>
    ensures { OnOk result (names.new.items ≡ names.old.items ++ classes_in (stmt_of statement.now)) }
{
    match statement {
        Statement::Block(all) => push_all(names, all),
        Statement::If(_, s, None) => push_classes(names, s),
        Statement::If(_, s, Some(t)) => push_both(names, s, t),
        Statement::While(_, s) => push_classes(names, s),
        Statement::For(_, _, _, s) => push_classes(names, s),
        Statement::ForEach(_, _, s) => push_classes(names, s),
        Statement::Sync(_, _, all) => push_all(names, all),
        Statement::Do(s, _) => push_classes(names, s),
        Statement::Labelled(_, s) => push_classes(names, s),
        Statement::LocalClass(x, _) => Ok(names.push(x.get().text.clone()?)?),
        Statement::Switch(_, groups) => push_groups(names, groups),
        Statement::Try(tried) => push_try(names, tried),
        Statement::Local(_) => Ok(()),
        Statement::Expr(_) => Ok(()),
        Statement::Return(_) => Ok(()),
        Statement::Empty => Ok(()),
        Statement::Throw(_, _) => Ok(()),
        Statement::Break(_) => Ok(()),
        Statement::Continue(_) => Ok(()),
        Statement::Assert(_, _) => Ok(()),
    }
}

#[cycle(local_classes)]
fn push_both(names: &mut Vec<Text>, s: &Statement, t: &Statement) -> Result<(), Memory>
    ensures { OnOk result (names.new.items
        ≡ names.old.items ++ (classes_in (stmt_of s.now) ++ classes_in (stmt_of t.now))) }
{
    push_classes(names, s)?;
    push_classes(names, t)
}

#[cycle(local_classes)]
fn push_all(names: &mut Vec<Text>, statements: &[Statement]) -> Result<(), Memory>
    ensures { OnOk result (names.new.items
        ≡ names.old.items ++ classes_in_all (pack_stmts (map stmt_of statements.now))) }
{
    for statement in statements {
        push_classes(names, statement)?;
    }
    Ok(())
}

#[cycle(local_classes)]
fn push_groups(names: &mut Vec<Text>, groups: &[GroupTree]) -> Result<(), Memory>
    ensures { OnOk result (names.new.items
        ≡ names.old.items ++ classes_in_groups (pack_groups (map group_of groups.now))) }
{
    for group in groups {
        push_all(names, group.body.as_slice())?;
    }
    Ok(())
}

#[cycle(local_classes)]
fn push_clauses(names: &mut Vec<Text>, clauses: &[CatchTree]) -> Result<(), Memory>
    ensures { OnOk result (names.new.items
        ≡ names.old.items ++ classes_in_several (pack_rows (map catch_of clauses.now))) }
{
    for clause in clauses {
        push_all(names, clause.body.as_slice())?;
    }
    Ok(())
}

#[cycle(local_classes)]
fn push_last(names: &mut Vec<Text>, finally: &Option<Vec<Statement>>) -> Result<(), Memory>
    ensures { OnOk result (names.new.items ≡ names.old.items ++ classes_in_last
        (option_map (λ ss. pack_stmts (map stmt_of ss.items)) finally.now)) }
{
    match finally {
        Some(statements) => push_all(names, statements),
        None => Ok(()),
    }
}

#[cycle(local_classes)]
fn push_try(names: &mut Vec<Text>, tried: &TryTree) -> Result<(), Memory>
    ensures { OnOk result (names.new.items ≡ names.old.items ++ classes_in (try_of tried.now)) }
{
    push_all(names, tried.body.as_slice())?;
    push_clauses(names, tried.clauses.as_slice())?;
    push_last(names, &tried.finally)
}

/// The names of the type parameters of a method, then of the local classes in its block.
pub fn names_in(alloc: Global, method: &MethodTree) -> Result<Vec<Text>, Memory>
    ensures { IfOk result (λ names. names.items ≡ hidden_in method.now) }
{
    let mut names = Vec::new(alloc);
    push_type_parameters(&mut names, &method.type_parameters)?;
    push_all(&mut names, method.body.as_slice())?;
    Ok(names)
}
