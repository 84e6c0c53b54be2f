//! What a start path leads to.
ghost use Rattle.std.specs.Prelude.{◌≡◌, option_map};
ghost use Rattle.core_code.specs.Core.{method_of};
ghost use Rattle.core_semantics_kinds.specs.Reached.{behind_field, has_cell, object_of, parameter_root, roots_of};
ghost use Rattle.witness_text_names.specs.Indexes.{reached_of};
ghost use Rattle.witness_text_names.specs.Names.{class_in};

use core_code::{FieldCore, MethodCore};
use core_semantics::StartRoot;
use racer_base::{ClassId, Kind};

/// An object of a class of the program, or such a class itself.
#[derive(Clone, Copy)]
pub(crate) enum Reached {
    ObjectOf(ClassId),
    TheClass(ClassId),
}

/// What a place of this kind has objects of, where that is a class of the program.
fn object_of(kind: Kind) -> Option<Reached>
    ensures { option_map reached_of result ≡ object_of kind }
{
    match kind {
        Kind::Declared(class) => Some(Reached::ObjectOf(class)),
        Kind::Plain => None,
        Kind::Other => None,
    }
}

impl Reached {
    pub(crate) fn class(self) -> ClassId
        ensures { result ≡ class_in (reached_of self) }
    {
        match self {
            Reached::ObjectOf(class) => class,
            Reached::TheClass(class) => class,
        }
    }

    /// Whether a field is one of what was reached.
    pub(crate) fn has(self, field: &FieldCore) -> bool
        ensures { result ≡ has_cell field.now (reached_of self) }
    {
        match self {
            Reached::ObjectOf(class) => class == field.class && !field.is_static,
            Reached::TheClass(class) => class == field.class && field.is_static,
        }
    }

    /// What a field leads to from here.
    pub(crate) fn behind(self, field: &FieldCore) -> Option<Reached>
        ensures { option_map reached_of result ≡ behind_field field.now (reached_of self) }
    {
        if self.has(field) {
            object_of(field.kind)
        } else {
            None
        }
    }
}

/// What the parameter of this number of an entry leads to.
fn parameter(method: &MethodCore, number: u32) -> Option<Reached>
    ensures { option_map reached_of result ≡ parameter_root number method.now.parameters }
{
    match method.parameters.as_slice().get(number as usize) {
        None => None,
        Some(kind) => object_of(*kind),
    }
}

/// What a root of two entries leads to.
pub(crate) fn root_reached(
    first: &MethodCore,
    second: &MethodCore,
    root: StartRoot,
) -> Option<Reached>
    ensures { option_map reached_of result ≡ roots_of (method_of first.now) (method_of second.now) root }
{
    match root {
        StartRoot::This => Some(Reached::ObjectOf(first.class)),
        StartRoot::Class(class) => Some(Reached::TheClass(class)),
        StartRoot::Param(thread, number) => {
            if thread == 0 {
                parameter(first, number)
            } else if thread == 1 {
                parameter(second, number)
            } else {
                None
            }
        }
    }
}
