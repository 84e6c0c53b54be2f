//! The items of a block: statements, and locked trys behind their locks, of which each is two statements.
ghost use Rattle.std.specs.Prelude.{◌≡◌, [], ◌∷◌, map, option_map, None, MatchOption};
ghost use Rattle.java_tree.specs.declared.statements.TryTree.{size-TryTree};
ghost use Rattle.core_lowering_rules.specs.Trees.{stmt_then, pack_stmts};
ghost use Rattle.core_lowering_rules.specs.Trees as wanted;
ghost use Rattle.core_lowering_rules.specs.TreesOf.{stmt_of, try_of};
ghost use Rattle.core_lowering_locks_pairs.specs.Seen.{lock_seen, lock_behind, locked_seen, item_seen, item_size};
ghost use Rattle.core_lowering_locks_pairs.specs.Seen.{has_resource, IsLockedTry, IsLocked, IsCut};

use crate::calls::{do_unlock, run_call};
use java_tree::{Expression, Statement, TryTree};
use racer_base::Place;

/// What is locked, and the place of `lock`.
#[derive(Clone, Copy)]
pub struct Lock<'a> {
    pub place: Place,
    pub on: &'a Expression,
}

/// A locked try, and what is locked before it.
#[derive(Clone, Copy)]
pub struct Locked<'a> {
    pub lock: Lock<'a>,
    pub tried: &'a TryTree,
}

/// What is lowered as one.
#[derive(Clone, Copy)]
pub enum Item<'a> {
    Alone(&'a Statement),
    Locked(Locked<'a>),
}

/// What a statement locks before a `finally` that unlocks it.
fn lock_before<'a>(statement: &'a Statement, finally: &[Statement]) -> Option<Lock<'a>>
    ensures { option_map lock_seen result
        ≡ wanted.lock_before (stmt_of statement.now) (pack_stmts (map stmt_of finally.now)) }
{
    let call = run_call(statement)?;
    if call.name.text.as_str() == "lock" && do_unlock(call.on, finally) {
        return Some(Lock {
            place: call.name.place,
            on: call.on,
        });
    }
    None
}

fn has_resource(tried: &TryTree) -> bool
    ensures { result ≡ has_resource tried.now }
{
    match &tried.resources {
        Some(resources) => !resources.get().items.as_slice().is_empty(),
        None => false,
    }
}

/// What a statement locks before this `try`, where the two are one.
fn lock_of_try<'a>(statement: &'a Statement, tried: &TryTree) -> Option<Lock<'a>>
    ensures { option_map lock_seen result ≡ lock_behind (stmt_of statement.now) (try_of tried.now) }
{
    if has_resource(tried) {
        return None;
    }
    match &tried.finally {
        Some(finally) => lock_before(statement, finally.as_slice()),
        None => None,
    }
}

fn locked_try<'a>(statement: &'a Statement, tried: &'a TryTree) -> Option<Locked<'a>>
    ensures { MatchOption result (lock_behind (stmt_of statement.now) (try_of tried.now) ≡ None)
        (λ locked. IsLockedTry statement.now tried.now locked) }
{
    let lock = lock_of_try(statement, tried)?;
    Some(Locked { lock, tried })
}

/// The locked try that these two statements are.
fn locked_pair<'a>(first: &'a Statement, next: &'a Statement) -> Option<Locked<'a>>
    ensures { MatchOption result (lock_behind (stmt_of first.now) (stmt_of next.now) ≡ None)
        (λ locked. IsLocked first.now next.now locked) }
{
    match next {
        Statement::Try(tried) => locked_try(first, tried),
        Statement::Block(_) => None,
        Statement::Local(_) => None,
        Statement::Expr(_) => None,
        Statement::If(_, _, None) => None,
        Statement::If(_, _, Some(_)) => None,
        Statement::While(_, _) => None,
        Statement::For(_, _, _, _) => None,
        Statement::ForEach(_, _, _) => None,
        Statement::LocalClass(_, _) => None,
        Statement::Sync(_, _, _) => None,
        Statement::Return(_) => None,
        Statement::Empty => None,
        Statement::Do(_, _) => None,
        Statement::Throw(_, _) => None,
        Statement::Break(_) => None,
        Statement::Continue(_) => None,
        Statement::Labelled(_, _) => None,
        Statement::Assert(_, _) => None,
        Statement::Switch(_, _) => None,
    }
}

/// The locked try that a statement and the next are, and the statements behind the two.
fn locked_behind<'a>(
    first: &'a Statement,
    behind: &'a [Statement],
) -> Option<(Locked<'a>, &'a [Statement])>
    ensures { MatchOption result (pack_stmts (map stmt_of (first.now ∷ behind.now))
        ≡ stmt_then (stmt_of first.now) (pack_stmts (map stmt_of behind.now)))
        (λ x. IsCut (first.now ∷ behind.now) (locked_seen x.0) (size-TryTree x.0.tried.now) x.1.now) }
{
    let (next, rest) = behind.split_first()?;
    let locked = locked_pair(first, next)?;
    Some((locked, rest))
}

/// The first item, and the statements behind it.
pub fn first_item(statements: &[Statement]) -> Option<(Item, &[Statement])>
    ensures { MatchOption result (statements.now ≡ [])
        (λ x. IsCut statements.now (item_seen x.0) (item_size x.0) x.1.now) }
{
    let (first, behind) = statements.split_first()?;
    match locked_behind(first, behind) {
        Some((locked, rest)) => Some((Item::Locked(locked), rest)),
        None => Some((Item::Alone(first), behind)),
    }
}
