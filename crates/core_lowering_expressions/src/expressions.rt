//! The code of expressions (JLS 15) and array initialisers (JLS 10.6).
ghost use Rattle.std.specs.Prelude.{◌≡◌, ◌++◌, map, OnOk, IfOk};
ghost use Rattle.racer_base.specs.declared.ids.Kind.TheVariants as kinds;
ghost use Rattle.core_lowering_rules.specs.Trees.{Read, Refer, ToExpr, Cast, Conditional};
ghost use Rattle.core_lowering_rules.specs.Trees.{Selected, NewArray, NewItems, pack_exprs, pack_inits};
ghost use Rattle.core_lowering_rules.specs.TreesOf.{access_of, expr_of, init_of, assignment, prefix, binary};
ghost use Rattle.core_lowering_rules.specs.TreesOf.{referred_of};
ghost use Rattle.core_lowering_rules.specs.TreesOf.{first_type};
ghost use Rattle.core_lowering_rules.specs.ValueKinds.{Of};
ghost use Rattle.core_lowering_rules.specs.Expressions.{code, kind, storage, init_code, init_kind};
ghost use Rattle.core_lowering_context.specs.Drafts.{code_of};
ghost use Rattle.core_lowering_context.specs.Views.{value_kind};
ghost use Rattle.core_lowering_expressions.specs.Parts.{base_of, without_base};
ghost use Rattle.core_lowering_expressions.specs.declared.storage.Storage.TheVariants.{Elsewhere as StoredElsewhere};

use crate::invocations::{lower_called, lower_made, lower_values};
use crate::names::{
    class_before, class_object, is_evaluated, this_object, this_object_of, unknown,
};
use crate::operators::{cast, cast_kind, is_count, literal};
use crate::storage::{Storage, of_class, of_name, of_value, read};
use crate::values::{
    begin_assign, begin_conditional, begin_operator, count_value, end_assign, end_conditional,
    end_operator, new_array, prim,
};
use core_code::Op;
use core_lowering_context::{Context, Making, ValueKind};
use java_tree::{Expression, Ident, Initialiser, Referred, TypeTree};
use racer_base::{Kind, Memory, Place};
use std::alloc::Global;

/// The code of an expression, which leaves one value, of this kind.
#[cycle(lower_expressions)]
pub fn lower_expression(
    alloc: Global,
    context: &Context,
    e: &Expression,
    draft: &mut Making,
) -> Result<ValueKind, Memory>
    ensures code { OnOk result (code_of draft.new ≡ code_of draft.old ++ code context.now (expr_of e.now)) }
    ensures kind { IfOk result (λ k. value_kind k ≡ kind context.now (expr_of e.now)) }
{
    match e {
        Expression::Assign(a, op, b) => lower_assign(alloc, context, a, op.as_str(), b, draft),
        Expression::Conditional(c, a, b) => lower_conditional(alloc, context, c, a, b, draft),
        Expression::Binary(a, op, b) => lower_operator(alloc, context, a, op.as_str(), b, draft),
        Expression::InstanceOf(a) => lower_prefix(alloc, context, &a.value, "instanceof", draft),
        Expression::Prefix(op, a) => lower_prefix(alloc, context, a, op.as_str(), draft),
        Expression::Cast(a) => lower_cast(alloc, context, &a.value, a.types.as_slice(), draft),
        Expression::Postfix(a, _) => lower_prefix(alloc, context, a, "++", draft),
        Expression::Literal(kind, text) => literal(context, *kind, text.as_str(), draft),
        Expression::This => this_object(context, draft),
        Expression::Paren(a) => lower_expression(alloc, context, a, draft),
        Expression::Name(_) => lower_read(alloc, context, e, draft),
        Expression::Field(_, _) => lower_read(alloc, context, e, draft),
        Expression::Index(_, _) => lower_read(alloc, context, e, draft),
        Expression::Call(call) => lower_called(alloc, context, call, draft),
        Expression::ClassOf(names) => class_object(context, names, draft),
        Expression::New(new) => lower_made(alloc, context, new, draft),
        Expression::Lambda(_) => unknown(context, draft),
        Expression::Reference(a) => lower_reference(alloc, context, &a.of, draft),
        Expression::PlainClass(_) => unknown(context, draft),
        Expression::ThisOf(names) => this_object_of(context, names, draft),
    }
}

/// What a name, a field access or an array access is stored in, behind the code of its base or operands.
#[cycle(lower_expressions)]
pub(crate) fn lower_storage(
    alloc: Global,
    context: &Context,
    e: &Expression,
    draft: &mut Making,
) -> Result<Storage, Memory>
    ensures code { OnOk result (code_of draft.new ≡ code_of draft.old
        ++ base_of (storage context.now (access_of (expr_of e.now)))) }
    ensures storage { IfOk result (λ s. s ≡ without_base (storage context.now (access_of (expr_of e.now)))) }
{
    match e {
        Expression::Name(x) => of_name(context, x, draft),
        Expression::Field(a, x) => lower_selected(alloc, context, a, x, draft),
        Expression::Index(a, i) => lower_element(alloc, context, a, i, draft),
        _ => Ok(Storage::Elsewhere(0)),
    }
}

/// a.x
#[cycle(lower_expressions)]
fn lower_selected(
    alloc: Global,
    context: &Context,
    a: &Expression,
    x: &Ident,
    draft: &mut Making,
) -> Result<Storage, Memory>
    ensures code { OnOk result (code_of draft.new ≡ code_of draft.old
        ++ base_of (storage context.now (Selected (expr_of a.now) x.now))) }
    ensures storage { IfOk result (λ s. s ≡ without_base (storage context.now (Selected (expr_of a.now) x.now))) }
{
    if let Some(c) = class_before(context, a) {
        return of_class(context, c, x, draft);
    }
    let kind = lower_expression(alloc, context, a, draft)?;
    of_value(context, kind, x, draft)
}

/// `a[i]`
#[cycle(lower_expressions)]
fn lower_element(
    alloc: Global,
    context: &Context,
    a: &Expression,
    i: &Expression,
    draft: &mut Making,
) -> Result<Storage, Memory>
    ensures code { OnOk result (code_of draft.new ≡ code_of draft.old
        ++ (code context.now (expr_of a.now) ++ code context.now (expr_of i.now))) }
    ensures storage { IfOk result (λ s. s ≡ StoredElsewhere 2) }
{
    lower_expression(alloc, context, a, draft)?;
    lower_expression(alloc, context, i, draft)?;
    Ok(Storage::Elsewhere(2))
}

/// A name, a field access or an array access as a value.
#[cycle(lower_expressions)]
fn lower_read(
    alloc: Global,
    context: &Context,
    e: &Expression,
    draft: &mut Making,
) -> Result<ValueKind, Memory>
    ensures code { OnOk result (code_of draft.new ≡ code_of draft.old
        ++ code context.now (Read (access_of (expr_of e.now)))) }
    ensures kind { IfOk result (λ k. value_kind k ≡ kind context.now (Read (access_of (expr_of e.now)))) }
{
    let storage = lower_storage(alloc, context, e, draft)?;
    read(context, storage, draft)
}

/// An assignment with this operator.
#[cycle(lower_expressions)]
fn lower_assign(
    alloc: Global,
    context: &Context,
    a: &Expression,
    op: &str,
    b: &Expression,
    draft: &mut Making,
) -> Result<ValueKind, Memory>
    ensures code { OnOk result (code_of draft.new ≡ code_of draft.old
        ++ code context.now (assignment op.now (access_of (expr_of a.now)) (expr_of b.now))) }
    ensures kind { IfOk result (λ k. value_kind k
        ≡ kind context.now (assignment op.now (access_of (expr_of a.now)) (expr_of b.now))) }
{
    let target = lower_storage(alloc, context, a, draft)?;
    begin_assign(context, op, target, draft)?;
    let given = lower_expression(alloc, context, b, draft)?;
    end_assign(context, op, target, given, draft)
}

/// A prefix operator, of which `++` and `--` store.
#[cycle(lower_expressions)]
fn lower_prefix(
    alloc: Global,
    context: &Context,
    a: &Expression,
    op: &str,
    draft: &mut Making,
) -> Result<ValueKind, Memory>
    ensures code { OnOk result (code_of draft.new ≡ code_of draft.old
        ++ code context.now (prefix op.now (expr_of a.now))) }
    ensures kind { IfOk result (λ k. value_kind k ≡ kind context.now (prefix op.now (expr_of a.now))) }
{
    if is_count(op) {
        let storage = lower_storage(alloc, context, a, draft)?;
        return count_value(context, storage, draft);
    }
    lower_expression(alloc, context, a, draft)?;
    prim(context, 1, draft)
}

/// `(T & ..) a`
#[cycle(lower_expressions)]
fn lower_cast(
    alloc: Global,
    context: &Context,
    a: &Expression,
    types: &[TypeTree],
    draft: &mut Making,
) -> Result<ValueKind, Memory>
    ensures code { OnOk result (code_of draft.new ≡ code_of draft.old
        ++ code context.now (Cast (first_type types.now) (expr_of a.now))) }
    ensures kind { IfOk result (λ k. value_kind k
        ≡ kind context.now (Cast (first_type types.now) (expr_of a.now))) }
{
    lower_expression(alloc, context, a, draft)?;
    cast(context, cast_kind(context, types), draft)
}

/// A method reference to an expression, which is not evaluated where it is a name of a class or of nothing.
#[cycle(lower_expressions)]
fn lower_referred(
    alloc: Global,
    context: &Context,
    e: &Expression,
    draft: &mut Making,
) -> Result<ValueKind, Memory>
    ensures code { OnOk result (code_of draft.new ≡ code_of draft.old
        ++ code context.now (Refer (ToExpr (expr_of e.now)))) }
    ensures kind { IfOk result (λ k. value_kind k ≡ Of kinds.Other) }
{
    if !is_evaluated(context, e) {
        return unknown(context, draft);
    }
    lower_expression(alloc, context, e, draft)?;
    context.value(draft, Op::Outside(1), ValueKind::Of(Kind::Other))
}

/// A method reference (JLS 15.13).
#[cycle(lower_expressions)]
fn lower_reference(
    alloc: Global,
    context: &Context,
    to: &Referred,
    draft: &mut Making,
) -> Result<ValueKind, Memory>
    ensures code { OnOk result (code_of draft.new ≡ code_of draft.old
        ++ code context.now (Refer (referred_of to.now))) }
    ensures kind { IfOk result (λ k. value_kind k ≡ Of kinds.Other) }
{
    match to {
        Referred::Of(e) => lower_referred(alloc, context, e, draft),
        Referred::Type(_) => unknown(context, draft),
        Referred::Super => unknown(context, draft),
    }
}

/// An operator with two operands.
#[cycle(lower_expressions)]
fn lower_operator(
    alloc: Global,
    context: &Context,
    a: &Expression,
    op: &str,
    b: &Expression,
    draft: &mut Making,
) -> Result<ValueKind, Memory>
    ensures code { OnOk result (code_of draft.new ≡ code_of draft.old
        ++ code context.now (binary op.now (expr_of a.now) (expr_of b.now))) }
    ensures kind { IfOk result (λ k. value_kind k
        ≡ kind context.now (binary op.now (expr_of a.now) (expr_of b.now))) }
{
    lower_expression(alloc, context, a, draft)?;
    let at = begin_operator(context, op, draft)?;
    lower_expression(alloc, context, b, draft)?;
    end_operator(alloc, context, op, at, draft)
}

/// `c ? a : b`
#[cycle(lower_expressions)]
fn lower_conditional(
    alloc: Global,
    context: &Context,
    c: &Expression,
    a: &Expression,
    b: &Expression,
    draft: &mut Making,
) -> Result<ValueKind, Memory>
    ensures code { OnOk result (code_of draft.new ≡ code_of draft.old
        ++ code context.now (Conditional (expr_of c.now) (expr_of a.now) (expr_of b.now))) }
    ensures kind { IfOk result (λ k. value_kind k ≡ kind context.now
        (Conditional (expr_of c.now) (expr_of a.now) (expr_of b.now))) }
{
    lower_expression(alloc, context, c, draft)?;
    let left = begin_conditional(context, draft)?;
    let first = lower_expression(alloc, context, a, draft)?;
    let right = draft.len();
    let second = lower_expression(alloc, context, b, draft)?;
    end_conditional(alloc, (left, right), (first, second), draft)
}

/// new T[a]..
#[cycle(lower_expressions)]
pub(crate) fn lower_lengths(
    alloc: Global,
    context: &Context,
    lengths: &[Expression],
    place: Place,
    draft: &mut Making,
) -> Result<ValueKind, Memory>
    ensures code { OnOk result (code_of draft.new ≡ code_of draft.old
        ++ code context.now (NewArray place (pack_exprs (map expr_of lengths.now)))) }
    ensures kind { IfOk result (λ k. value_kind k ≡ Of kinds.Other) }
{
    lower_values(alloc, context, lengths, draft)?;
    new_array(place, lengths.len(), draft)
}

/// The items of an array, and the array.
#[cycle(lower_expressions)]
pub(crate) fn lower_array(
    alloc: Global,
    context: &Context,
    items: &[Initialiser],
    place: Place,
    draft: &mut Making,
) -> Result<ValueKind, Memory>
    ensures code { OnOk result (code_of draft.new ≡ code_of draft.old
        ++ code context.now (NewItems place (pack_inits (map init_of items.now)))) }
    ensures kind { IfOk result (λ k. value_kind k ≡ Of kinds.Other) }
{
    for item in items {
        lower_initialiser(alloc, context, item, draft)?;
    }
    new_array(place, items.len(), draft)
}

/// What a variable or an element begins with.
#[cycle(lower_expressions)]
pub fn lower_initialiser(
    alloc: Global,
    context: &Context,
    initialiser: &Initialiser,
    draft: &mut Making,
) -> Result<ValueKind, Memory>
    ensures code { OnOk result (code_of draft.new ≡ code_of draft.old
        ++ init_code context.now (init_of initialiser.now)) }
    ensures kind { IfOk result (λ k. value_kind k ≡ init_kind context.now (init_of initialiser.now)) }
{
    match initialiser {
        Initialiser::Value(e) => lower_expression(alloc, context, e, draft),
        Initialiser::Items(array) => {
            lower_array(alloc, context, &array.items, context.place(), draft)
        }
    }
}
