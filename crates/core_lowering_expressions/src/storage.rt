//! What a name, a field access or an array access is stored in (JLS 15.10.3, 15.11, 15.14, 15.26).
ghost use Rattle.std.specs.Prelude.{◌≡◌, ◌++◌, [], OnOk, OnErr, IfOk, Some, true};
ghost use Rattle.racer_base.specs.declared.ids.Kind.{Kind};
ghost use Rattle.java_resolver.specs.Meanings.{field_named};
ghost use Rattle.java_resolver.specs.declared.scope.Meaning.TheVariants.{Field};
ghost use Rattle.core_lowering_rules.specs.Context.{op};
ghost use Rattle.core_lowering_rules.specs.Assignments.{of_name, of_meaning, of_class, of_value, of_object};
ghost use Rattle.core_lowering_context.specs.Drafts.{code_of, IsFrontOf};
ghost use Rattle.core_lowering_context.specs.Views.{value_kind};
ghost use Rattle.core_lowering_expressions.specs.Parts.{base_of, without_base, storage_kind, then_read, then_assigned};
ghost use Rattle.core_lowering_expressions.specs.Parts.{then_fetched, then_combined, then_counted};

use crate::calls::call_outside;
use core_code::Op;
use core_lowering_context::{Context, Making, ValueKind};
use java_resolver::Meaning;
use java_tree::Ident;
use racer_base::{ClassId, FieldId, Kind, Memory, Place, VarId};

/// A variable; a field, with the place of its name; what is not the folder's, with the number of its operands.
#[derive(Clone, Copy)]
pub enum Storage {
    InVariable(VarId, Kind),
    InField(FieldId, Kind, Place),
    Elsewhere(u32),
}

impl Storage {
    /// The kind of what is stored there.
    pub fn kind(self) -> ValueKind
        ensures { value_kind result ≡ storage_kind self }
    {
        match self {
            Storage::InVariable(_, kind) => ValueKind::Of(kind),
            Storage::InField(_, kind, _) => ValueKind::Of(kind),
            Storage::Elsewhere(_) => ValueKind::Of(Kind::Other),
        }
    }
}

/// What is stored there, behind an operation that makes its base.
fn behind(
    context: &Context,
    operation: Op,
    storage: Storage,
    draft: &mut Making,
) -> Result<Storage, Memory>
    ensures code { OnOk result (code_of draft.new ≡ code_of draft.old ++ op context.now operation) }
    ensures storage { IfOk result (λ s. s ≡ storage) }
    ensures err { OnErr result (code_of draft.new ≡ code_of draft.old) }
{
    context.op(draft, operation)?;
    Ok(storage)
}

/// A field, behind `this` or its class.
fn own_field(
    context: &Context,
    f: FieldId,
    x: &Ident,
    draft: &mut Making,
) -> Result<Storage, Memory>
    ensures code { OnOk result (code_of draft.new ≡ code_of draft.old
        ++ base_of (of_meaning context.now x.now (Field f))) }
    ensures storage { IfOk result (λ s. s ≡ without_base (of_meaning context.now x.now (Field f))) }
    ensures err { OnErr result (code_of draft.new ≡ code_of draft.old) }
{
    let Some(field) = context.field(f) else {
        return Ok(Storage::Elsewhere(0));
    };
    let storage = Storage::InField(f, field.kind, x.place);
    if field.is_static {
        behind(context, Op::PushClass(context.class()), storage, draft)
    } else {
        behind(context, Op::Push(VarId(0)), storage, draft)
    }
}

/// x, behind the base of a field.
pub fn of_name(context: &Context, x: &Ident, draft: &mut Making) -> Result<Storage, Memory>
    ensures code { OnOk result (code_of draft.new ≡ code_of draft.old ++ base_of (of_name context.now x.now)) }
    ensures storage { IfOk result (λ s. s ≡ without_base (of_name context.now x.now)) }
    ensures err { OnErr result (code_of draft.new ≡ code_of draft.old) }
{
    match context.meaning(x) {
        Meaning::Variable(v, kind) => Ok(Storage::InVariable(v, kind)),
        Meaning::Field(f) => own_field(context, f, x, draft),
        Meaning::Class(_) => Ok(Storage::Elsewhere(0)),
        Meaning::Opaque => Ok(Storage::Elsewhere(0)),
    }
}

/// C.x
pub fn of_class(
    context: &Context,
    c: ClassId,
    x: &Ident,
    draft: &mut Making,
) -> Result<Storage, Memory>
    ensures code { OnOk result (code_of draft.new ≡ code_of draft.old
        ++ base_of (of_class context.now c x.now (field_named context.now.folder.fields c true x.now.text))) }
    ensures storage { IfOk result (λ s. s ≡ without_base (of_class context.now c x.now
        (field_named context.now.folder.fields c true x.now.text))) }
{
    let Some(f) = context.field_named(c, true, x) else {
        return Ok(Storage::Elsewhere(0));
    };
    let Some(field) = context.field(f) else {
        return Ok(Storage::Elsewhere(0));
    };
    behind(
        context,
        Op::PushClass(c),
        Storage::InField(f, field.kind, x.place),
        draft,
    )
}

/// What stands behind an object of a class, where the object's class has this field named x.
fn object_field(
    context: &Context,
    c: ClassId,
    f: FieldId,
    x: &Ident,
    draft: &mut Making,
) -> Result<Storage, Memory>
    ensures code { OnOk result (code_of draft.new ≡ code_of draft.old
        ++ base_of (of_object context.now c [] x.now (Some f))) }
    ensures storage { IfOk result (λ s. s ≡ without_base (of_object context.now c [] x.now (Some f))) }
{
    let Some(field) = context.field(f) else {
        return Ok(Storage::Elsewhere(0));
    };
    let storage = Storage::InField(f, field.kind, x.place);
    if !field.is_static {
        return Ok(storage);
    }
    context.op(draft, Op::Drop)?;
    behind(context, Op::PushClass(c), storage, draft)
}

/// What stands behind e in e.x, where e has this kind.
pub fn of_value(
    context: &Context,
    kind: ValueKind,
    x: &Ident,
    draft: &mut Making,
) -> Result<Storage, Memory>
    ensures code { OnOk result (code_of draft.new ≡ code_of draft.old
        ++ base_of (of_value context.now (value_kind kind) [] x.now)) }
    ensures storage { IfOk result (λ s. s ≡ without_base (of_value context.now (value_kind kind) [] x.now)) }
{
    let ValueKind::Of(Kind::Declared(c)) = kind else {
        return Ok(Storage::Elsewhere(1));
    };
    match context.field_named(c, false, x) {
        Some(f) => object_field(context, c, f, x, draft),
        None => Ok(Storage::Elsewhere(1)),
    }
}

/// Reads what is there.
pub fn read(context: &Context, storage: Storage, draft: &mut Making) -> Result<ValueKind, Memory>
    ensures code { OnOk result (code_of draft.new ≡ code_of draft.old ++ then_read context.now storage) }
    ensures kind { IfOk result (λ k. value_kind k ≡ storage_kind storage) }
{
    match storage {
        Storage::InVariable(v, kind) => context.value(draft, Op::Push(v), ValueKind::Of(kind)),
        Storage::InField(f, kind, place) => draft.value(place, Op::Get(f), ValueKind::Of(kind)),
        Storage::Elsewhere(n) => context.value(draft, Op::Outside(n), ValueKind::Of(Kind::Other)),
    }
}

/// Stores a value of this kind.
pub fn assign(
    context: &Context,
    storage: Storage,
    given: ValueKind,
    draft: &mut Making,
) -> Result<(), Memory>
    ensures code { OnOk result (code_of draft.new ≡ code_of draft.old
        ++ then_assigned context.now storage (value_kind given)) }
    ensures err { OnErr result (IsFrontOf (code_of draft.old) (code_of draft.new)) }
{
    match storage {
        Storage::InVariable(v, kind) => {
            context.convert(draft, kind, given)?;
            context.op(draft, Op::Set(v))
        }
        Storage::InField(f, kind, place) => {
            context.convert(draft, kind, given)?;
            draft.op(place, Op::Put(f))
        }
        Storage::Elsewhere(n) => call_outside(context, n, draft),
    }
}

/// Reads what is there and is to be changed.
pub fn fetch(context: &Context, storage: Storage, draft: &mut Making) -> Result<(), Memory>
    ensures { OnOk result (code_of draft.new ≡ code_of draft.old ++ then_fetched context.now storage) }
{
    match storage {
        Storage::InVariable(v, _) => context.op(draft, Op::Push(v)),
        Storage::InField(f, _, place) => {
            context.op(draft, Op::Dup)?;
            draft.op(place, Op::Get(f))
        }
        Storage::Elsewhere(_) => Ok(()),
    }
}

/// Stores a number made of what was fetched and of one more value.
pub fn combine(context: &Context, storage: Storage, draft: &mut Making) -> Result<(), Memory>
    ensures { OnOk result (code_of draft.new ≡ code_of draft.old ++ then_combined context.now storage) }
{
    if let Storage::Elsewhere(n) = storage {
        return call_outside(context, n, draft);
    }
    context.op(draft, Op::Prim(2))?;
    assign(context, storage, ValueKind::Of(Kind::Plain), draft)
}

/// Stores a number made of what was fetched.
pub fn count(context: &Context, storage: Storage, draft: &mut Making) -> Result<(), Memory>
    ensures { OnOk result (code_of draft.new ≡ code_of draft.old ++ then_counted context.now storage) }
{
    if let Storage::Elsewhere(n) = storage {
        return context.op(draft, Op::Outside(n));
    }
    context.op(draft, Op::Prim(1))?;
    assign(context, storage, ValueKind::Of(Kind::Plain), draft)
}
