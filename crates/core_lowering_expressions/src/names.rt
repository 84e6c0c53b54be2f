//! Names of classes, and `this`.
ghost use Rattle.std.specs.Prelude.{◌≡◌, ◌++◌, OnOk, IfOk};
ghost use Rattle.racer_base.specs.declared.ids.Kind.TheVariants.{Other};
ghost use Rattle.java_resolver.specs.declared.scope.Meaning.{Meaning};
ghost use Rattle.core_lowering_rules.specs.TreesOf.{expr_of};
ghost use Rattle.core_lowering_rules.specs.ValueKinds.{Of};
ghost use Rattle.core_lowering_rules.specs.Expressions.{class_meant, class_before, class_written, class_object};
ghost use Rattle.core_lowering_rules.specs.Expressions.{this_object};
ghost use Rattle.core_lowering_rules.specs.Trees.{Unknown};
ghost use Rattle.core_lowering_rules.specs.Expressions.{this_kind, this_object_of, this_kind_of};
ghost use Rattle.core_lowering_rules.specs.Expressions.{is_value, is_evaluated, code};
ghost use Rattle.core_lowering_context.specs.Drafts.{code_of};
ghost use Rattle.core_lowering_context.specs.Views.{value_kind};
ghost use Rattle.core_lowering_expressions.specs.Containers.{is_access};

use core_code::Op;
use core_lowering_context::{Context, Making, ValueKind};
use java_resolver::Meaning;
use java_tree::{Expression, Ident};
use racer_base::{ClassId, Kind, Memory, VarId};

/// Whether an expression is written as a name, a field access or an array access.
pub fn is_access(e: &Expression) -> bool
    ensures { result ≡ is_access (expr_of e.now) }
{
    match e {
        Expression::Name(_) => true,
        Expression::Field(_, _) => true,
        Expression::Index(_, _) => true,
        _ => false,
    }
}

/// The class that a name means.
fn class_meant(meaning: Meaning) -> Option<ClassId>
    ensures { result ≡ class_meant meaning }
{
    match meaning {
        Meaning::Class(c) => Some(c),
        _ => None,
    }
}

/// The class that an expression before a `.` names.
pub fn class_before(context: &Context, e: &Expression) -> Option<ClassId>
    ensures { result ≡ class_before context.now (expr_of e.now) }
{
    match e {
        Expression::Name(x) => class_meant(context.meaning(x)),
        _ => None,
    }
}

/// The class of the folder that is written before `.class` or `.this`, as one name.
fn class_written(context: &Context, names: &[Ident]) -> Option<ClassId>
    ensures { result ≡ class_written context.now names.now }
{
    match names {
        [x] => context.class_named(x),
        _ => None,
    }
}

/// `x.class`
pub fn class_object(
    context: &Context,
    names: &[Ident],
    draft: &mut Making,
) -> Result<ValueKind, Memory>
    ensures code { OnOk result (code_of draft.new ≡ code_of draft.old
        ++ class_object context.now (class_written context.now names.now)) }
    ensures kind { IfOk result (λ k. value_kind k ≡ Of Other) }
{
    match class_written(context, names) {
        Some(c) => context.value(draft, Op::PushClass(c), ValueKind::Of(Kind::Other)),
        None => context.value(draft, Op::Outside(0), ValueKind::Of(Kind::Other)),
    }
}

/// `this`
pub fn this_object(context: &Context, draft: &mut Making) -> Result<ValueKind, Memory>
    ensures code { OnOk result (code_of draft.new ≡ code_of draft.old ++ this_object context.now) }
    ensures kind { IfOk result (λ k. value_kind k ≡ this_kind context.now) }
{
    if context.is_static() {
        return context.value(draft, Op::Outside(0), ValueKind::Of(Kind::Other));
    }
    context.value(
        draft,
        Op::Push(VarId(0)),
        ValueKind::Of(Kind::Declared(context.class())),
    )
}

/// Where nothing is known of a value.
pub fn unknown(context: &Context, draft: &mut Making) -> Result<ValueKind, Memory>
    ensures code { OnOk result (code_of draft.new ≡ code_of draft.old ++ code context.now Unknown) }
    ensures kind { IfOk result (λ k. value_kind k ≡ Of Other) }
{
    context.value(draft, Op::Outside(0), ValueKind::Of(Kind::Other))
}

/// `x.this` (JLS 15.8.4).
pub fn this_object_of(
    context: &Context,
    names: &[Ident],
    draft: &mut Making,
) -> Result<ValueKind, Memory>
    ensures code { OnOk result (code_of draft.new ≡ code_of draft.old ++ this_object_of context.now names.now) }
    ensures kind { IfOk result (λ k. value_kind k ≡ this_kind_of context.now names.now) }
{
    if context.is_own_class(class_written(context, names)) {
        return this_object(context, draft);
    }
    unknown(context, draft)
}

/// Whether a name means a variable or a field.
fn is_value(meaning: Meaning) -> bool
    ensures { result ≡ is_value meaning }
{
    match meaning {
        Meaning::Variable(_, _) => true,
        Meaning::Field(_) => true,
        Meaning::Class(_) => false,
        Meaning::Opaque => false,
    }
}

/// Whether what a method reference refers to is evaluated (JLS 15.13).
pub fn is_evaluated(context: &Context, e: &Expression) -> bool
    ensures { result ≡ is_evaluated context.now (expr_of e.now) }
{
    match e {
        Expression::Name(x) => is_value(context.meaning(x)),
        _ => true,
    }
}
