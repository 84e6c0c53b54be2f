//! Which locks are those of lock fields, or of variables that hold one lock throughout a block.
ghost use Rattle.std.specs.Prelude.{◌≡◌, Some, option_copied};
ghost use Rattle.core_lowering_rules.specs.Context.{meaning_of};
ghost use Rattle.core_lowering_rules.specs.TreesOf.{expr_of};
ghost use Rattle.core_lowering_rules.specs.Locks as wanted;

use crate::context::Context;
use core_lowering_locks_pairs::{own_name, simple_name};
use java_resolver::Meaning;
use java_tree::{Expression, Ident};
use racer_base::FieldId;

fn is_lock_field(context: &Context, f: FieldId) -> bool
    ensures { result ≡ wanted.is_lock_field context.now (Some f) }
{
    match context.field(f) {
        Some(field) => field.is_lock,
        None => false,
    }
}

/// Whether a name that means no variable means a lock field.
fn is_lock_meant(context: &Context, x: &Ident) -> bool
    ensures { result ≡ wanted.is_lock_meant context.now (meaning_of context.now x.now) }
{
    match context.meaning(x) {
        Meaning::Field(f) => is_lock_field(context, f),
        Meaning::Variable(_, _) => false,
        Meaning::Class(_) => false,
        Meaning::Opaque => false,
    }
}

/// Whether a simple name means a lock field, or a variable of a lock type to which nothing is stored.
fn is_lock_named(context: &Context, x: Option<&Ident>, is_stored: bool) -> bool
    ensures { result ≡ wanted.is_lock_named context.now (option_copied x.entry) is_stored }
{
    let Some(x) = x else {
        return false;
    };
    match context.variable(x) {
        Some(known) => known.is_lock && !is_stored,
        None => is_lock_meant(context, x),
    }
}

/// Whether the name behind `this.` means a lock field.
fn is_own_lock(context: &Context, x: Option<&Ident>) -> bool
    ensures { result ≡ wanted.is_own_lock context.now (option_copied x.entry) }
{
    let Some(x) = x else {
        return false;
    };
    if context.is_static() {
        return false;
    }
    match context.field_named(context.class(), false, x) {
        Some(f) => is_lock_field(context, f),
        None => false,
    }
}

/// Whether an expression means a lock field, or such a variable.
fn is_lock(context: &Context, e: &Expression, is_stored: bool) -> bool
    ensures { result ≡ wanted.is_lock context.now (expr_of e.now) is_stored }
{
    is_lock_named(context, simple_name(e), is_stored) || is_own_lock(context, own_name(e))
}

/// Notes a lock that is that of no lock field and of no such variable, where something is stored to it or not.
pub fn note_lock(context: &mut Context, e: &Expression, is_stored: bool)
    ensures { context.new ≡ wanted.lock_noted context.old (expr_of e.now) is_stored }
{
    if is_lock(context, e, is_stored) {
        return;
    }
    context.note_other_lock();
}
