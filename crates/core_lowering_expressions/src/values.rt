//! The ends of expressions: what makes a value of those of the parts.
ghost use Rattle.std.specs.Prelude.{◌≡◌, ◌++◌, [], length, OnOk, IfOk};
ghost use Rattle.racer_base.specs.declared.ids.Kind.TheVariants.{Plain, Other};
ghost use Rattle.core_code.specs.declared.code.Op.TheVariants.{Drop, Prim, Outside};
ghost use Rattle.core_lowering_rules.specs.TreesOf.{is_assignment, is_logical};
ghost use Rattle.core_lowering_rules.specs.ValueKinds.{Of, common_kind};
ghost use Rattle.core_lowering_rules.specs.Context.{Code, op, op_at, choice};
ghost use Rattle.core_lowering_context.specs.Drafts.{code_of};
ghost use Rattle.core_lowering_context.specs.Views.{value_kind};
ghost use Rattle.core_lowering_expressions.specs.Parts.{storage_kind, then_fetched, then_counted};
ghost use Rattle.core_lowering_expressions.specs.Together.{operator_front, operator_end, assign_front, assign_end};

use crate::operators::{is_assignment, is_logical};
use crate::storage::{Storage, assign, combine, count, fetch};
use core_code::Op;
use core_lowering_context::{Context, Making, ValueKind, common_kind, number_of};
use racer_base::{Kind, Memory, Place};
use std::alloc::Global;

/// Behind so many operands: a number made of them.
pub fn prim(context: &Context, count: u32, draft: &mut Making) -> Result<ValueKind, Memory>
    ensures code { OnOk result (code_of draft.new ≡ code_of draft.old ++ op context.now (Prim count)) }
    ensures kind { IfOk result (λ k. value_kind k ≡ Of Plain) }
{
    context.value(draft, Op::Prim(count), ValueKind::Of(Kind::Plain))
}

/// Behind the left operand of an operator with two: where the right one begins.
pub fn begin_operator(context: &Context, op: &str, draft: &mut Making) -> Result<usize, Memory>
    ensures code { OnOk result (code_of draft.new ≡ code_of draft.old
        ++ operator_front context.now (is_logical op.now)) }
    ensures at { IfOk result (λ at. at ≡ length (code_of draft.new)) }
{
    if is_logical(op) {
        context.op(draft, Op::Prim(1))?;
    }
    Ok(draft.len())
}

/// Behind the right operand of `&&` or `||`, which began here.
fn end_logical(
    alloc: Global,
    context: &Context,
    at: usize,
    draft: &mut Making,
) -> Result<ValueKind, Memory>
    ensures code { OnOk result ((left right : Code) → at ≡ length left → code_of draft.old ≡ left ++ right
        → code_of draft.new ≡ left ++ choice (right ++ op context.now (Prim 2)) []) }
    ensures kind { IfOk result (λ k. value_kind k ≡ Of Plain) }
{
    context.op(draft, Op::Prim(2))?;
    let end = draft.len();
    draft.choose(alloc, at, end)?;
    Ok(ValueKind::Of(Kind::Plain))
}

/// Behind the right operand of an operator with two, which began here.
pub fn end_operator(
    alloc: Global,
    context: &Context,
    op: &str,
    at: usize,
    draft: &mut Making,
) -> Result<ValueKind, Memory>
    ensures code { OnOk result ((left right : Code) → at ≡ length left → code_of draft.old ≡ left ++ right
        → code_of draft.new ≡ left ++ operator_end context.now (is_logical op.now) right) }
    ensures kind { IfOk result (λ k. value_kind k ≡ Of Plain) }
{
    if is_logical(op) {
        end_logical(alloc, context, at, draft)
    } else {
        prim(context, 2, draft)
    }
}

/// Behind a condition: where the value for true begins.
pub fn begin_conditional(context: &Context, draft: &mut Making) -> Result<usize, Memory>
    ensures code { OnOk result (code_of draft.new ≡ code_of draft.old ++ op context.now Drop) }
    ensures at { IfOk result (λ at. at ≡ length (code_of draft.new)) }
{
    context.op(draft, Op::Drop)?;
    Ok(draft.len())
}

/// Behind both values of a condition, which began here and there.
pub fn end_conditional(
    alloc: Global,
    values: (usize, usize),
    kinds: (ValueKind, ValueKind),
    draft: &mut Making,
) -> Result<ValueKind, Memory>
    ensures code { OnOk result ((start left right : Code) → values.0 ≡ length start
        → values.1 ≡ length (start ++ left) → code_of draft.old ≡ start ++ left ++ right
        → code_of draft.new ≡ start ++ choice left right) }
    ensures kind { IfOk result (λ k. value_kind k ≡ common_kind (value_kind kinds.0) (value_kind kinds.1)) }
{
    draft.choose(alloc, values.0, values.1)?;
    Ok(common_kind(kinds.0, kinds.1))
}

/// Behind an access that is assigned to with this operator: what all but `=` fetch.
pub fn begin_assign(
    context: &Context,
    op: &str,
    storage: Storage,
    draft: &mut Making,
) -> Result<(), Memory>
    ensures { OnOk result (code_of draft.new ≡ code_of draft.old
        ++ assign_front context.now (is_assignment op.now) storage) }
{
    if is_assignment(op) {
        Ok(())
    } else {
        fetch(context, storage, draft)
    }
}

/// Behind this and a value of this kind: the value, or what is made of the two, is stored.
pub fn end_assign(
    context: &Context,
    op: &str,
    storage: Storage,
    given: ValueKind,
    draft: &mut Making,
) -> Result<ValueKind, Memory>
    ensures code { OnOk result (code_of draft.new ≡ code_of draft.old
        ++ assign_end context.now (is_assignment op.now) storage (value_kind given)) }
    ensures kind { IfOk result (λ k. value_kind k ≡ storage_kind storage) }
{
    if is_assignment(op) {
        assign(context, storage, given, draft)?;
    } else {
        combine(context, storage, draft)?;
    }
    Ok(storage.kind())
}

/// Behind an access: what is there is counted.
pub fn count_value(
    context: &Context,
    storage: Storage,
    draft: &mut Making,
) -> Result<ValueKind, Memory>
    ensures code { OnOk result (code_of draft.new ≡ code_of draft.old
        ++ (then_fetched context.now storage ++ then_counted context.now storage)) }
    ensures kind { IfOk result (λ k. value_kind k ≡ Of Plain) }
{
    fetch(context, storage, draft)?;
    count(context, storage, draft)?;
    Ok(ValueKind::Of(Kind::Plain))
}

/// Behind so many lengths or items: the array.
pub fn new_array(place: Place, count: usize, draft: &mut Making) -> Result<ValueKind, Memory>
    ensures code { OnOk result (code_of draft.new ≡ code_of draft.old ++ op_at place (Outside count)) }
    ensures kind { IfOk result (λ k. value_kind k ≡ Of Other) }
{
    draft.value(
        place,
        Op::Outside(number_of(count)?),
        ValueKind::Of(Kind::Other),
    )
}
