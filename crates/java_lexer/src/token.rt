//! Tokens with their places.
use racer_base::{Items, Place, Text};

/// The kind of a token (JLS 3.5). The fixed words are `true`, `false` and `null`; a sign is a separator
/// or an operator.
#[derive(Clone, Copy, PartialEq, Eq)]
pub enum TokenKind {
    Keyword,
    Fixed,
    Name,
    Number,
    Character,
    Text,
    Sign,
}

/// A token: its bytes, the place of its first byte, its kind, and whether it is the second or third `>`
/// of a `>>` or `>>>`.
#[derive(Drop)]
pub struct Token {
    pub text: Text,
    pub place: Place,
    pub kind: TokenKind,
    pub glued: bool,
}

/// The tokens of a file, in order, and the place after its last byte.
#[derive(Drop)]
pub struct Lexed {
    pub tokens: Items<Token>,
    pub end: Place,
}
