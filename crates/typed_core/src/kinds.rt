//! Kinds of values.
ghost use Rattle.std.specs.Prelude.{◌≡◌};
ghost use Rattle.typed_core.specs.Kinds as spec;

use racer_base::{ClassId, Kind};

/// What is known of a value in the check of typed classes.
#[derive(Clone, Copy)]
pub enum TypedKind {
    /// A value of a primitive type.
    Plain,
    /// An object of a class of the folder.
    Object(ClassId),
    /// The `Class` object of a class of the folder.
    Class(ClassId),
    /// An object of whatever class, not null.
    Other,
    /// Anything: it may be null.
    Unset,
}

/// The kind of the value of a parameter, a field or a result of this kind.
pub(crate) fn kind_of(kind: Kind) -> TypedKind
    ensures { result ≡ spec.kind_of kind }
{
    match kind {
        Kind::Plain => TypedKind::Plain,
        Kind::Declared(class) => TypedKind::Object(class),
        Kind::Other => TypedKind::Other,
    }
}

pub(crate) fn same_kind(a: TypedKind, b: TypedKind) -> bool
    ensures { result ≡ spec.same_kind a b }
{
    match (a, b) {
        (TypedKind::Plain, TypedKind::Plain) => true,
        (TypedKind::Object(c), TypedKind::Object(d)) => c.0 == d.0,
        (TypedKind::Class(c), TypedKind::Class(d)) => c.0 == d.0,
        (TypedKind::Other, TypedKind::Other) => true,
        (TypedKind::Unset, TypedKind::Unset) => true,
        _ => false,
    }
}

/// Whether a value is something else than null and than one of a primitive type.
pub(crate) fn is_reference(kind: TypedKind) -> bool
    ensures { result ≡ spec.is_reference kind }
{
    matches!(
        kind,
        TypedKind::Object(_) | TypedKind::Class(_) | TypedKind::Other
    )
}

/// What is known where two ways meet.
pub(crate) fn joined_kind(a: TypedKind, b: TypedKind) -> TypedKind
    ensures { result ≡ spec.joined_kind a b }
{
    if same_kind(a, b) {
        a
    } else if is_reference(a) && is_reference(b) {
        TypedKind::Other
    } else {
        TypedKind::Unset
    }
}

/// Whether a value may be stored, passed or returned where this kind stands.
pub(crate) fn fits(kind: Kind, given: TypedKind) -> bool
    ensures { result ≡ spec.fits kind given }
{
    match kind {
        Kind::Plain => true,
        Kind::Declared(class) => same_kind(TypedKind::Object(class), given),
        Kind::Other => is_reference(given),
    }
}

/// Whether values in order fit kinds in order, and there are as many.
pub(crate) fn do_fit(kinds: &[Kind], given: &[TypedKind]) -> bool
    ensures { result ≡ spec.do_fit kinds.now given.now }
{
    if kinds.len() != given.len() {
        return false;
    }
    for index in 0..kinds.len() {
        if !fits(kinds[index], given[index]) {
            return false;
        }
    }
    true
}
