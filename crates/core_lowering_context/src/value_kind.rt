//! The kinds of values of expressions (JLS 15).
ghost use Rattle.std.specs.Prelude.{◌≡◌};
ghost use Rattle.core_lowering_rules.specs.ValueKinds.{common_kind, is_converted};
ghost use Rattle.core_lowering_context.specs.Views.{value_kind};

use racer_base::Kind;

/// A value of a kind, or `null`.
#[derive(Clone, Copy)]
pub enum ValueKind {
    Of(Kind),
    Null,
}

/// The kind of one of two values (JLS 15.25).
pub fn common_kind(a: ValueKind, b: ValueKind) -> ValueKind
    ensures { value_kind result ≡ common_kind (value_kind a) (value_kind b) }
{
    match (a, b) {
        (ValueKind::Null, ValueKind::Null) => ValueKind::Null,
        (ValueKind::Null, ValueKind::Of(Kind::Declared(c))) => ValueKind::Of(Kind::Declared(c)),
        (ValueKind::Of(Kind::Declared(c)), ValueKind::Null) => ValueKind::Of(Kind::Declared(c)),
        (ValueKind::Of(Kind::Declared(c)), ValueKind::Of(Kind::Declared(d))) if c == d => {
            ValueKind::Of(Kind::Declared(c))
        }
        (ValueKind::Of(Kind::Plain), ValueKind::Of(Kind::Plain)) => ValueKind::Of(Kind::Plain),
        _ => ValueKind::Of(Kind::Other),
    }
}

/// Whether a value of one kind that flows to another is made opaque first.
pub fn is_converted(kind: Kind, given: ValueKind) -> bool
    ensures { result ≡ is_converted kind (value_kind given) }
{
    match (kind, given) {
        (Kind::Declared(c), ValueKind::Of(Kind::Declared(d))) => c != d,
        (Kind::Declared(_), ValueKind::Null) => false,
        (Kind::Declared(_), _) => true,
        _ => false,
    }
}
