//! The code of two methods side by side.
ghost use Rattle.std.specs.Prelude.{◌≡◌, ◌&&◌, map};
ghost use Rattle.core_code.specs.Core.{method_of};
ghost use Rattle.core_code.specs.Program.{core};
ghost use Rattle.core_code.specs.Tree.{in_sequence, tree_of};
ghost use Rattle.transfer_ties.specs.Forms as forms;
ghost use Rattle.transfer_ties.specs.Names as named;
ghost use Rattle.transfer_ties.specs.Partners.{AreTies};
ghost use Rattle.transfer_ties.specs.Shapes as shape;
ghost use Rattle.transfer_ties.specs.Ties as spec;

use crate::kinds::{same_kind, same_kinds};
use crate::partners::{Ties, is_class, is_field};
use crate::shapes::{locked, looped, operation, sequence, sides};
use core_code::{Code, LockKind, MethodCore, Op, Program};
use racer_base::{ClassId, FieldId, MethodId, SiteId};

/// Two programs and what of them is the same by names.
#[derive(Clone, Copy)]
pub(crate) struct Both<'a> {
    pub older: &'a Program,
    pub newer: &'a Program,
    pub ties: &'a Ties,
}

fn same_class(both: Both<'_>, old: ClassId, new: ClassId) -> bool
    requires { AreTies (core both.older.now) (core both.newer.now) both.ties.now }
    ensures { result ≡ spec.ties_classes (core both.entry.older.now) (core both.entry.newer.now) old new }
{
    is_class(both.ties.class(old), new)
}

fn same_field(both: Both<'_>, old: FieldId, new: FieldId) -> bool
    requires { AreTies (core both.older.now) (core both.newer.now) both.ties.now }
    ensures { result ≡ spec.ties_fields (core both.entry.older.now) (core both.entry.newer.now) old new }
{
    is_field(both.ties.field(old), new)
}

/// Whether two methods have one class, one name and as many parameters.
fn same_signature(ties: &Ties, old: &MethodCore, new: &MethodCore) -> bool
    ensures { result ≡ named.same_signature ties.now (method_of old.now) (method_of new.now) }
{
    is_class(ties.class(old.class), new.class)
        && old.name == new.name
        && old.parameters.len() == new.parameters.len()
}

/// Whether two methods have one class, one name and as many parameters, and both are static or neither is.
fn same_called(ties: &Ties, old: &MethodCore, new: &MethodCore) -> bool
    ensures { result ≡ named.same_called ties.now (method_of old.now) (method_of new.now) }
{
    same_signature(ties, old, new) && old.is_static == new.is_static
}

/// Whether two calls name one method.
fn same_callee(both: Both<'_>, old: MethodId, new: MethodId) -> bool
    requires { AreTies (core both.older.now) (core both.newer.now) both.ties.now }
    ensures { result ≡ spec.ties_callees (core both.entry.older.now) (core both.entry.newer.now) old new }
{
    let Some(before) = both.older.methods().get(old.0 as usize) else {
        return false;
    };
    let Some(method) = both.newer.methods().get(new.0 as usize) else {
        return false;
    };
    same_called(both.ties, before, method)
}

/// Whether two operations that name nothing of the program are the same.
fn same_plain(old: Op, new: Op) -> bool
    ensures { result ≡ named.same_plain old new }
{
    match (old, new) {
        (Op::Push(old), Op::Push(new)) => old == new,
        (Op::Set(old), Op::Set(new)) => old == new,
        (Op::Prim(old), Op::Prim(new)) => old == new,
        (Op::Outside(old), Op::Outside(new)) => old == new,
        (Op::PushPrim, Op::PushPrim) => true,
        (Op::PushNull, Op::PushNull) => true,
        (Op::Dup, Op::Dup) => true,
        (Op::Drop, Op::Drop) => true,
        (Op::Ret, Op::Ret) => true,
        (Op::Throw, Op::Throw) => true,
        _ => false,
    }
}

/// Whether two operations that name something name the same.
fn same_names(both: Both<'_>, old: Op, new: Op) -> bool
    requires { AreTies (core both.older.now) (core both.newer.now) both.ties.now }
    ensures { result ≡ named.same_names (core both.entry.older.now) (core both.entry.newer.now) old new }
{
    match (old, new) {
        (Op::PushClass(old), Op::PushClass(new)) => same_class(both, old, new),
        (Op::New(old), Op::New(new)) => same_class(both, old, new),
        (Op::Get(old), Op::Get(new)) => same_field(both, old, new),
        (Op::Put(old), Op::Put(new)) => same_field(both, old, new),
        (Op::Call(old, olds), Op::Call(new, news)) => same_callee(both, old, new) && olds == news,
        (Op::Unread(old, olds), Op::Unread(new, news)) => {
            same_callee(both, old, new) && olds == news
        }
        _ => false,
    }
}

/// Whether two operations are the same.
fn same_op(both: Both<'_>, old: Op, new: Op) -> bool
    requires { AreTies (core both.older.now) (core both.newer.now) both.ties.now }
    ensures { result ≡ forms.same_op (core both.entry.older.now) (core both.entry.newer.now) old new }
{
    same_plain(old, new) || same_names(both, old, new)
}

fn same_lock(old: LockKind, new: LockKind) -> bool
    ensures { result ≡ forms.same_lock old new }
{
    match (old, new) {
        (LockKind::Own, LockKind::Own) | (LockKind::Explicit, LockKind::Explicit) => true,
        _ => false,
    }
}

/// Whether code is this operation, places aside.
fn is_step(both: Both<'_>, site: SiteId, op: Op, code: &Code) -> bool
    requires { AreTies (core both.older.now) (core both.newer.now) both.ties.now }
    ensures { result ≡
        shape.is_step (core both.entry.older.now) (core both.entry.newer.now) site op (tree_of code.now) }
{
    match operation(code) {
        Some((other, new)) => site == other && same_op(both, op, new),
        None => false,
    }
}

/// Whether two codes are the same, places aside.
#[cycle(same)]
fn same_code(both: Both<'_>, old: &Code, new: &Code) -> bool
    requires { AreTies (core both.older.now) (core both.newer.now) both.ties.now }
    ensures { result ≡
        forms.same_code (core both.entry.older.now) (core both.entry.newer.now) (tree_of old.now) (tree_of new.now) }
{
    match old {
        Code::Op(site, _, op) => is_step(both, *site, *op, new),
        Code::Seq(parts) => match sequence(new) {
            Some(others) => same_parts(both, parts.as_slice(), others),
            None => false,
        },
        Code::Choice(left, right) => match sides(new) {
            Some((other, more)) => same_code(both, left, other) && same_code(both, right, more),
            None => false,
        },
        Code::Loop(body) => match looped(new) {
            Some(other) => same_code(both, body, other),
            None => false,
        },
        Code::Sync(_, kind, body) => match locked(new) {
            Some((held, other)) => same_lock(*kind, held) && same_code(both, body, other),
            None => false,
        },
    }
}

/// Whether the parts of two sequences are the same.
#[cycle(same)]
fn same_parts(both: Both<'_>, olds: &[Code], news: &[Code]) -> bool
    requires { AreTies (core both.older.now) (core both.newer.now) both.ties.now }
    ensures { result ≡ forms.same_code (core both.entry.older.now) (core both.entry.newer.now)
        (in_sequence (map tree_of olds.now)) (in_sequence (map tree_of news.now)) }
{
    if olds.len() != news.len() {
        return false;
    }
    for (old, new) in olds.iter().zip(news) {
        if !same_code(both, old, new) {
            return false;
        }
    }
    true
}

/// Whether two methods have one form, but for their code.
fn same_head(ties: &Ties, old: &MethodCore, new: &MethodCore) -> bool
    ensures { result ≡ named.same_head ties.now (method_of old.now) (method_of new.now) }
{
    let classes = ties.classes.as_slice();
    same_signature(ties, old, new)
        && same_kinds(
            classes,
            old.parameters.as_slice(),
            new.parameters.as_slice(),
        )
        && same_kind(classes, old.result, new.result)
        && same_kinds(classes, old.variables.as_slice(), new.variables.as_slice())
        && old.is_static == new.is_static
        && old.main == new.main
}

/// Whether two methods have one form.
fn same_methods(both: Both<'_>, old: &MethodCore, new: &MethodCore) -> bool
    requires { AreTies (core both.older.now) (core both.newer.now) both.ties.now }
    ensures { result ≡ (named.same_head both.entry.ties.now (method_of old.now) (method_of new.now)
        && forms.same_code (core both.entry.older.now) (core both.entry.newer.now) (tree_of old.now.code)
        (tree_of new.now.code)) }
{
    same_head(both.ties, old, new) && same_code(both, &old.code, &new.code)
}

/// Whether a method of the older program and one of the newer have one form.
pub fn same_form(
    old: &Program,
    new: &Program,
    ties: &Ties,
    before: MethodId,
    method: MethodId,
) -> bool
    requires { AreTies (core old.now) (core new.now) ties.now }
    ensures { result ≡ forms.ties_forms (core old.now) (core new.now) before method }
{
    let both = Both {
        older: old,
        newer: new,
        ties,
    };
    let Some(olds) = old.methods().get(before.0 as usize) else {
        return false;
    };
    let Some(news) = new.methods().get(method.0 as usize) else {
        return false;
    };
    same_methods(both, olds, news)
}
