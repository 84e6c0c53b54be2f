//! Types as they are written (JLS 4).
use crate::words::Ident;
use racer_base::Text;

/// A type, with the number of its `[ ]`.
#[derive(Drop)]
#[cycle(types)]
pub struct TypeTree {
    pub base: BaseType,
    pub arrays: u32,
}

/// A primitive type, or names joined by `.` (JLS 4.2, 4.3).
#[derive(Drop)]
#[cycle(types)]
pub enum BaseType {
    Plain(Text),
    Named(Vec<TypePart>),
}

/// One of the names of a type, with its type arguments.
#[derive(Drop)]
#[cycle(types)]
pub struct TypePart {
    pub name: Ident,
    pub arguments: Option<TypeArguments>,
}

/// Type arguments in angle brackets, none for `< >` (JLS 4.5.1, 15.9), and whether the closing `>` is
/// glued to the `>` before it.
#[derive(Drop)]
#[cycle(types)]
pub struct TypeArguments {
    pub items: Vec<TypeArgument>,
    pub glued: bool,
}

/// A type argument: a type, or a wildcard with or without a bound (JLS 4.5.1).
#[derive(Drop)]
#[cycle(types)]
pub enum TypeArgument {
    Exact(TypeTree),
    Any,
    Extends(TypeTree),
    Super(TypeTree),
}
