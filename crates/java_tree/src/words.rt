//! Names with their places, and tokens without places.
use java_lexer::TokenKind;
use racer_base::{Place, Text};

/// A name, and the place where it stands. Equality leaves the place out.
#[derive(Drop)]
pub struct Ident {
    pub text: Text,
    pub place: Place,
}

/// A token without its place: its kind, its bytes, and whether it is the second or third `>` of a `>>`
/// or `>>>`.
#[derive(Drop)]
pub struct Spelled {
    pub kind: TokenKind,
    pub text: Text,
    pub glued: bool,
}
