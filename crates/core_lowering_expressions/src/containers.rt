//! Calls on container fields, and loops over them.
ghost use Rattle.std.specs.Prelude.{◌≡◌, ◌++◌, suc, OnOk};
ghost use Rattle.core_code.specs.declared.code.Op.TheVariants.{Outside};
ghost use Rattle.core_lowering_rules.specs.TreesOf.{expr_of};
ghost use Rattle.core_lowering_rules.specs.Context.{op};
ghost use Rattle.core_lowering_rules.specs.Touches.{touch};
ghost use Rattle.core_lowering_rules.specs.Statements.{gone_over};
ghost use Rattle.core_lowering_context.specs.Drafts.{code_of};
ghost use Rattle.core_lowering_expressions.specs.Containers.{content_in, touched_by, then_looked_over};

use crate::calls::call_outside;
use crate::expressions::lower_storage;
use crate::names::is_access;
use crate::parts::lower_run;
use crate::storage::{Storage, read};
use core_code::Op;
use core_lowering_context::{Context, Making};
use core_lowering_touches::{Touched, look_over, touch, touched_in};
use java_tree::{Expression, Ident};
use racer_base::{FieldId, Memory, Place};
use std::alloc::Global;

/// What a call with so many arguments does to the container that is stored there.
pub fn touched_by(context: &Context, storage: Storage, x: &Ident, count: u32) -> Option<Touched>
    ensures { result ≡ touched_by context.now storage x.now count }
{
    match storage {
        Storage::InField(f, _, name) => touched_in(context, f, name, x, count),
        Storage::InVariable(_, _) => None,
        Storage::Elsewhere(_) => None,
    }
}

/// Behind a container, itself again and so many arguments: the call at the place of its name.
pub fn end_touching_call(
    context: &Context,
    place: Place,
    touched: Touched,
    count: u32,
    draft: &mut Making,
) -> Result<(), Memory>
    ensures { OnOk result (code_of draft.new ≡ code_of draft.old
        ++ op context.now (Outside (suc count)) ++ touch context.now place touched.content touched.touch) }
{
    call_outside(context, count, draft)?;
    touch(context, place, touched, draft)
}

/// The cell of the container that is stored there, and the place of its name.
fn content_in(context: &Context, storage: Storage) -> Option<(FieldId, Place)>
    ensures { result ≡ content_in context.now storage }
{
    let Storage::InField(f, _, name) = storage else {
        return None;
    };
    let cell = context.cell(f)?;
    Some((cell.content, name))
}

/// Behind the base of what a `for` goes over: what a container holds, or else the value.
fn look_behind(context: &Context, storage: Storage, draft: &mut Making) -> Result<(), Memory>
    ensures { OnOk result (code_of draft.new ≡ code_of draft.old ++ then_looked_over context.now storage) }
{
    match content_in(context, storage) {
        Some((content, name)) => look_over(context, content, name, draft),
        None => {
            read(context, storage, draft)?;
            Ok(())
        }
    }
}

/// What a `for` goes over, of which only that it is looked at is used.
pub fn lower_gone_over(
    alloc: Global,
    context: &Context,
    e: &Expression,
    draft: &mut Making,
) -> Result<(), Memory>
    ensures { OnOk result (code_of draft.new ≡ code_of draft.old ++ gone_over context.now (expr_of e.now)) }
{
    if !is_access(e) {
        return lower_run(alloc, context, e, draft);
    }
    let storage = lower_storage(alloc, context, e, draft)?;
    look_behind(context, storage, draft)?;
    context.op(draft, Op::Drop)
}
