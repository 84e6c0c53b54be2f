//! What the fields of an object begin with (JLS 8.3.2, 12.5).
ghost use Rattle.std.specs.Prelude.{◌≡◌, ◌++◌, OnOk};
ghost use Rattle.std.specs.List.{flat_map};
ghost use Rattle.java_tree.specs.declared.methods.FieldInitialiser.TheVariants.{Formed, Unread};
ghost use Rattle.core_lowering_rules.specs.Methods.{field_begun, member_begun, unread};
ghost use Rattle.core_lowering_context.specs.Drafts.{code_of};
ghost use Rattle.core_lowering_context.specs.Views.{value_kind};

use crate::expressions::lower_initialiser;
use crate::storage::{assign, of_name};
use core_code::Op;
use core_lowering_context::{Context, Making, ValueKind};
use java_resolver::has_word;
use java_tree::{FieldInitialiser, FieldVariable, Ident, Initialiser, Member};
use racer_base::{Kind, Memory};
use std::alloc::Global;

/// A field that begins with what has a tree.
fn begin_formed(
    alloc: Global,
    context: &Context,
    x: &Ident,
    initialiser: &Initialiser,
    draft: &mut Making,
) -> Result<(), Memory>
    ensures { OnOk result (code_of draft.new ≡ code_of draft.old
        ++ field_begun context.now x.now (Formed initialiser.now)) }
{
    let storage = of_name(context, x, draft)?;
    let given = lower_initialiser(alloc, context, initialiser, draft)?;
    assign(context, storage, given, draft)?;
    context.op(draft, Op::Drop)
}

/// A value that is not read.
fn push_unread(context: &Context, kind: ValueKind, draft: &mut Making) -> Result<(), Memory>
    ensures { OnOk result (code_of draft.new ≡ code_of draft.old ++ unread context.now (value_kind kind)) }
{
    match kind {
        ValueKind::Of(Kind::Plain) => context.op(draft, Op::PushPrim),
        _ => context.op(draft, Op::Outside(0)),
    }
}

/// A field that begins with what has no tree.
fn begin_unread(context: &Context, x: &Ident, draft: &mut Making) -> Result<(), Memory>
    ensures { OnOk result (code_of draft.new ≡ code_of draft.old ++ field_begun context.now x.now Unread) }
{
    let storage = of_name(context, x, draft)?;
    push_unread(context, storage.kind(), draft)?;
    assign(context, storage, ValueKind::Of(Kind::Other), draft)?;
    context.op(draft, Op::Drop)
}

/// A field of the object, where it has an initialiser.
fn begin_field(
    alloc: Global,
    context: &Context,
    field: &FieldVariable,
    draft: &mut Making,
) -> Result<(), Memory>
    ensures { OnOk result (code_of draft.new ≡ code_of draft.old
        ++ field_begun context.now field.now.name field.now.initialiser) }
{
    match &field.initialiser {
        FieldInitialiser::Absent => Ok(()),
        FieldInitialiser::Formed(initialiser) => begin_formed(
            alloc,
            context,
            &field.name,
            initialiser,
            draft,
        ),
        FieldInitialiser::Unread => begin_unread(context, &field.name, draft),
    }
}

/// The fields of a declaration.
fn begin_variables(
    alloc: Global,
    context: &Context,
    fields: &[FieldVariable],
    draft: &mut Making,
) -> Result<(), Memory>
    ensures { OnOk result (code_of draft.new ≡ code_of draft.old
        ++ flat_map (λ v. field_begun context.now v.name v.initialiser) fields.now) }
{
    for field in fields {
        begin_field(alloc, context, field, draft)?;
    }
    Ok(())
}

/// The fields of a member.
fn begin_member(
    alloc: Global,
    context: &Context,
    member: &Member,
    draft: &mut Making,
) -> Result<(), Memory>
    ensures { OnOk result (code_of draft.new ≡ code_of draft.old ++ member_begun context.now member.now) }
{
    match member {
        Member::Field(f) => {
            if has_word(f.modifiers.as_slice(), "static") {
                Ok(())
            } else {
                begin_variables(alloc, context, f.variables.as_slice(), draft)
            }
        }
        _ => Ok(()),
    }
}

/// The fields of all members.
pub fn begin_members(
    alloc: Global,
    context: &Context,
    members: &[Member],
    draft: &mut Making,
) -> Result<(), Memory>
    ensures { OnOk result (code_of draft.new ≡ code_of draft.old ++ flat_map (member_begun context.now) members.now) }
{
    for member in members {
        begin_member(alloc, context, member, draft)?;
    }
    Ok(())
}
