//! The code of calls and object creations (JLS 15.9, 15.12).
ghost use Rattle.std.specs.Prelude.{◌≡◌, [], ◌++◌, map, None, OnOk, IfOk, true};
ghost use Rattle.java_tree.specs.View.{ty_of};
ghost use Rattle.core_lowering_rules.specs.Trees.{CallOn, New, NewBody, pack_exprs};
ghost use Rattle.core_lowering_rules.specs.TreesOf.{expr_of, call_tree_of, new_tree_of};
ghost use Rattle.core_lowering_rules.specs.Expressions.{class_before, code, kind, passed};
ghost use Rattle.core_lowering_context.specs.Drafts.{code_of};
ghost use Rattle.core_lowering_context.specs.Views.{value_kind};
ghost use Rattle.core_lowering_expressions.specs.Containers.{is_access};
ghost use Rattle.core_lowering_expressions.specs.Together.{target_call, target_kind, touching_call};

use crate::calls::{
    Target, begin_call, begin_new, call_kind, callee_on, finish_call, finish_new, made_kinds,
    passed_kinds,
};
use crate::containers::{end_touching_call, touched_by};
use crate::expressions::{lower_array, lower_expression, lower_lengths, lower_storage};
use crate::names::{class_before, is_access};
use crate::storage::read;
use core_code::Op;
use core_lowering_context::{Context, Making, ValueKind, further_arguments, number_of};
use core_lowering_touches::{Touched, fetch_container};
use java_tree::{CallTree, Expression, Ident, Made, NewTree, TypeTree};
use racer_base::{Kind, Memory, Place};
use std::alloc::Global;

/// Values that are converted to nothing, as lengths of arrays and arguments that no parameter takes alone.
#[cycle(lower_expressions)]
pub fn lower_values(
    alloc: Global,
    context: &Context,
    values: &[Expression],
    draft: &mut Making,
) -> Result<(), Memory>
    ensures { OnOk result (code_of draft.new ≡ code_of draft.old
        ++ passed context.now [] (pack_exprs (map expr_of values.now))) }
{
    for value in values {
        lower_expression(alloc, context, value, draft)?;
    }
    Ok(())
}

/// Arguments, converted to kinds as far as these go.
#[cycle(lower_expressions)]
fn lower_arguments(
    alloc: Global,
    context: &Context,
    arguments: &[Expression],
    kinds: &[Kind],
    draft: &mut Making,
) -> Result<(), Memory>
    ensures { OnOk result (code_of draft.new ≡ code_of draft.old
        ++ passed context.now kinds.now (pack_exprs (map expr_of arguments.now))) }
{
    for (argument, kind) in arguments.iter().zip(kinds) {
        let given = lower_expression(alloc, context, argument, draft)?;
        context.convert(draft, *kind, given)?;
    }
    let further = further_arguments(arguments, kinds.len());
    lower_values(alloc, context, further, draft)
}

/// A method, where this stands before its name.
#[cycle(lower_expressions)]
fn lower_call(
    alloc: Global,
    context: &Context,
    arguments: &[Expression],
    target: Target,
    x: &Ident,
    draft: &mut Making,
) -> Result<ValueKind, Memory>
    ensures code { OnOk result (code_of draft.new ≡ code_of draft.old
        ++ target_call context.now target x.now (pack_exprs (map expr_of arguments.now))) }
    ensures kind { IfOk result (λ k. value_kind k
        ≡ target_kind context.now target x.now (pack_exprs (map expr_of arguments.now))) }
{
    let count = number_of(arguments.len())?;
    let callee = callee_on(context, target, x, count);
    begin_call(context, target, callee, draft)?;
    lower_arguments(
        alloc,
        context,
        arguments,
        passed_kinds(context, callee, count),
        draft,
    )?;
    finish_call(context, target, x.place, count, callee, draft)
}

/// A call on a container, behind its base.
#[cycle(lower_expressions)]
fn lower_touching_call(
    alloc: Global,
    context: &Context,
    arguments: &[Expression],
    touched: Touched,
    place: Place,
    draft: &mut Making,
) -> Result<(), Memory>
    ensures { OnOk result (code_of draft.new ≡ code_of draft.old
        ++ touching_call context.now place touched (pack_exprs (map expr_of arguments.now))) }
{
    let count = number_of(arguments.len())?;
    fetch_container(context, touched, draft)?;
    lower_values(alloc, context, arguments, draft)?;
    end_touching_call(context, place, touched, count, draft)
}

/// e.f(..), where e is written as a name, a field access or an array access, and may be a container field.
#[cycle(lower_expressions)]
fn lower_call_on_access(
    alloc: Global,
    context: &Context,
    e: &Expression,
    x: &Ident,
    arguments: &[Expression],
    draft: &mut Making,
) -> Result<ValueKind, Memory>
    requires access { is_access (expr_of e.now) ≡ true }
    requires no_class { None ≡ class_before context.now (expr_of e.now) }
    ensures code { OnOk result (code_of draft.new ≡ code_of draft.old
        ++ code context.now (CallOn (expr_of e.now) x.now (pack_exprs (map expr_of arguments.now)))) }
    ensures kind { IfOk result (λ k. value_kind k ≡ kind context.now
        (CallOn (expr_of e.now) x.now (pack_exprs (map expr_of arguments.now)))) }
{
    let storage = lower_storage(alloc, context, e, draft)?;
    let count = number_of(arguments.len())?;
    if let Some(touched) = touched_by(context, storage, x, count) {
        lower_touching_call(alloc, context, arguments, touched, x.place, draft)?;
        return Ok(call_kind(context, Target::Value(storage.kind()), x, count));
    }
    let kind = read(context, storage, draft)?;
    lower_call(alloc, context, arguments, Target::Value(kind), x, draft)
}

/// e.f(..)
#[cycle(lower_expressions)]
fn lower_call_on(
    alloc: Global,
    context: &Context,
    e: &Expression,
    x: &Ident,
    arguments: &[Expression],
    draft: &mut Making,
) -> Result<ValueKind, Memory>
    ensures code { OnOk result (code_of draft.new ≡ code_of draft.old
        ++ code context.now (CallOn (expr_of e.now) x.now (pack_exprs (map expr_of arguments.now)))) }
    ensures kind { IfOk result (λ k. value_kind k ≡ kind context.now
        (CallOn (expr_of e.now) x.now (pack_exprs (map expr_of arguments.now)))) }
{
    if let Some(c) = class_before(context, e) {
        return lower_call(alloc, context, arguments, Target::Class(c), x, draft);
    }
    if is_access(e) {
        return lower_call_on_access(alloc, context, e, x, arguments, draft);
    }
    let kind = lower_expression(alloc, context, e, draft)?;
    lower_call(alloc, context, arguments, Target::Value(kind), x, draft)
}

/// new T(..)
#[cycle(lower_expressions)]
fn lower_new(
    alloc: Global,
    context: &Context,
    arguments: &[Expression],
    place: Place,
    t: &TypeTree,
    draft: &mut Making,
) -> Result<ValueKind, Memory>
    ensures code { OnOk result (code_of draft.new ≡ code_of draft.old
        ++ code context.now (New place (ty_of t.now) (pack_exprs (map expr_of arguments.now)))) }
    ensures kind { IfOk result (λ k. value_kind k ≡ kind context.now
        (New place (ty_of t.now) (pack_exprs (map expr_of arguments.now)))) }
{
    let count = number_of(arguments.len())?;
    let maker = begin_new(context, place, t, count, draft)?;
    let kinds = made_kinds(context, maker, count);
    lower_arguments(alloc, context, arguments, kinds, draft)?;
    finish_new(context, place, t, count, maker, draft)
}

/// new T(..) with a class body.
#[cycle(lower_expressions)]
fn lower_body(
    alloc: Global,
    context: &Context,
    arguments: &[Expression],
    place: Place,
    t: &TypeTree,
    draft: &mut Making,
) -> Result<ValueKind, Memory>
    ensures code { OnOk result (code_of draft.new ≡ code_of draft.old
        ++ code context.now (NewBody place (ty_of t.now) (pack_exprs (map expr_of arguments.now)))) }
    ensures kind { IfOk result (λ k. value_kind k ≡ kind context.now
        (NewBody place (ty_of t.now) (pack_exprs (map expr_of arguments.now)))) }
{
    lower_values(alloc, context, arguments, draft)?;
    let count = number_of(arguments.len())?;
    let kind = ValueKind::Of(context.type_kind(t));
    draft.value(place, Op::Outside(count), kind)
}

/// `f(..)` and `e.f(..)` (JLS 15.12).
#[cycle(lower_expressions)]
pub fn lower_called(
    alloc: Global,
    context: &Context,
    call: &CallTree,
    draft: &mut Making,
) -> Result<ValueKind, Memory>
    ensures code { OnOk result (code_of draft.new ≡ code_of draft.old
        ++ code context.now (call_tree_of call.now)) }
    ensures kind { IfOk result (λ k. value_kind k ≡ kind context.now (call_tree_of call.now)) }
{
    match &call.receiver {
        Some(e) => lower_call_on(alloc, context, e, &call.name, &call.arguments, draft),
        None => lower_call(
            alloc,
            context,
            &call.arguments,
            Target::Own,
            &call.name,
            draft,
        ),
    }
}

/// `new` (JLS 15.9, 15.10.1).
#[cycle(lower_expressions)]
pub fn lower_made(
    alloc: Global,
    context: &Context,
    new: &NewTree,
    draft: &mut Making,
) -> Result<ValueKind, Memory>
    ensures code { OnOk result (code_of draft.new ≡ code_of draft.old
        ++ code context.now (new_tree_of new.now)) }
    ensures kind { IfOk result (λ k. value_kind k ≡ kind context.now (new_tree_of new.now)) }
{
    match &new.made {
        Made::Object(all) => lower_new(alloc, context, all, new.place, &new.kind, draft),
        Made::Anonymous(all, _) => lower_body(alloc, context, all, new.place, &new.kind, draft),
        Made::Array(all, _) => lower_lengths(alloc, context, all, new.place, draft),
        Made::Filled(_, array) => lower_array(alloc, context, &array.items, new.place, draft),
    }
}
