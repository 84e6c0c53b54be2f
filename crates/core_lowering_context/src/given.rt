//! What a method gives to its caller.
use racer_base::Kind;

/// A constructor gives its object, another method nothing, or a value of a kind.
#[derive(Clone, Copy)]
pub enum MethodResult {
    Itself,
    Nothing,
    Value(Kind),
}
