//! What a text is divided into.
use crate::TokenKind;

/// What a piece of a text is (JLS 3.2). White space and comments are no tokens.
#[derive(Clone, Copy)]
pub enum PieceKind {
    White,
    Comment,
    Token(TokenKind),
}

/// Why no piece begins at a place.
#[derive(Clone, Copy)]
pub enum LexicalFault {
    BadCharacter,
    Unclosed,
    BadLiteral,
}
