//! Calls without arguments that are statements.
ghost use Rattle.std.specs.Prelude.{◌≡◌, map, option_map, codes};
ghost use Rattle.core_lowering_rules.specs.Trees.{CallOn, pack_exprs, pack_stmts};
ghost use Rattle.core_lowering_rules.specs.Trees as wanted;
ghost use Rattle.core_lowering_rules.specs.TreesOf.{expr_of, call_tree_of, stmt_of};
ghost use Rattle.core_lowering_locks_pairs.specs.Seen.{call_seen};

use crate::names::is_same_lock;
use java_tree::{CallTree, Expression, Ident, Statement};

/// `e.x();`
#[derive(Clone, Copy)]
pub(crate) struct PlainCall<'a> {
    pub on: &'a Expression,
    pub name: &'a Ident,
}

/// The call of e and x, where it has no arguments.
fn without_arguments<'a>(
    on: &'a Expression,
    name: &'a Ident,
    arguments: &[Expression],
) -> Option<PlainCall<'a>>
    ensures { option_map call_seen result
        ≡ wanted.plain_call (CallOn (expr_of on.now) name.now (pack_exprs (map expr_of arguments.now))) }
{
    match arguments {
        [] => Some(PlainCall { on, name }),
        [_, ..] => None,
    }
}

/// The call where it is on something.
fn called_on(call: &CallTree) -> Option<PlainCall>
    ensures { option_map call_seen result ≡ wanted.plain_call (call_tree_of call.now) }
{
    match &call.receiver {
        Some(on) => without_arguments(on, &call.name, &call.arguments),
        None => None,
    }
}

/// The call that an expression is.
#[tactic(auto, using(crate::proofs::Operators::binary_is_no_call, crate::proofs::Operators::prefix_is_no_call, crate::proofs::Operators::assignment_is_no_call, crate::proofs::Operators::literal_is_no_call))]
fn plain_call(e: &Expression) -> Option<PlainCall>
    ensures { option_map call_seen result ≡ wanted.plain_call (expr_of e.now) }
{
    match e {
        Expression::Call(call) => called_on(call),
        Expression::Assign(_, _, _) => None,
        Expression::Conditional(_, _, _) => None,
        Expression::Binary(_, _, _) => None,
        Expression::InstanceOf(_) => None,
        Expression::Prefix(_, _) => None,
        Expression::Cast(_) => None,
        Expression::Postfix(_, _) => None,
        Expression::Literal(_, _) => None,
        Expression::This => None,
        Expression::Name(_) => None,
        Expression::Paren(_) => None,
        Expression::Field(_, _) => None,
        Expression::Index(_, _) => None,
        Expression::ClassOf(_) => None,
        Expression::New(_) => None,
        Expression::Lambda(_) => None,
        Expression::Reference(_) => None,
        Expression::PlainClass(_) => None,
        Expression::ThisOf(_) => None,
    }
}

/// The call that a statement is.
#[tactic(auto, using(crate::proofs::JoinedStatements::try_is_no_call))]
pub(crate) fn run_call(statement: &Statement) -> Option<PlainCall>
    ensures { option_map call_seen result ≡ wanted.run_call (stmt_of statement.now) }
{
    match statement {
        Statement::Expr(e) => plain_call(e),
        Statement::Block(_) => None,
        Statement::Local(_) => None,
        Statement::If(_, _, None) => None,
        Statement::If(_, _, Some(_)) => None,
        Statement::While(_, _) => None,
        Statement::For(_, _, _, _) => None,
        Statement::ForEach(_, _, _) => None,
        Statement::Sync(_, _, _) => None,
        Statement::Return(_) => None,
        Statement::Empty => None,
        Statement::Do(_, _) => None,
        Statement::Throw(_, _) => None,
        Statement::Break(_) => None,
        Statement::Continue(_) => None,
        Statement::Labelled(_, _) => None,
        Statement::Assert(_, _) => None,
        Statement::Switch(_, _) => None,
        Statement::LocalClass(_, _) => None,
        Statement::Try(_) => None,
    }
}

/// Whether a call unlocks what is locked as this expression.
fn is_call_of_unlock(e: &Expression, call: Option<PlainCall>) -> bool
    ensures { result ≡ wanted.is_call_on (codes "unlock") (expr_of e.now) (option_map call_seen call.entry) }
{
    match call {
        Some(call) => call.name.text.as_str() == "unlock" && is_same_lock(e, call.on),
        None => false,
    }
}

/// Whether statements are the one that unlocks what is locked as this expression.
pub(crate) fn do_unlock(e: &Expression, finally: &[Statement]) -> bool
    ensures { result ≡ wanted.do_unlock (expr_of e.now) (pack_stmts (map stmt_of finally.now)) }
{
    match finally {
        [statement] => is_call_of_unlock(e, run_call(statement)),
        _ => false,
    }
}
