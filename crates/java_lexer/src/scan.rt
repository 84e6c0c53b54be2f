//! The piece in front of a text, or the fault that is named there.
ghost use Rattle.std.specs.Prelude.{◌<◌, length};
ghost use Rattle.java_lexer.specs.Scanning.{IsScanned};
ghost use Rattle.java_lexer.specs.JavaKinds.{java_lexis};

use crate::TokenKind;
use crate::comments::{block_comment, line_comment};
use crate::literals::{character, text};
use crate::numbers::{begins_hex, begins_number, number_len};
use crate::piece::{LexicalFault, PieceKind};
use crate::signs::{is_mark, sign_len};
use crate::words::{is_letter, is_white, word_kind, word_len};

/// The length and the kind of the piece in front, or the fault that is named there.
pub fn next_piece(bytes: &[u8]) -> Result<(usize, PieceKind), LexicalFault>
    requires { 0 < length bytes.now }
    ensures { IsScanned java_lexis bytes.now result }
{
    let Some((first, rest)) = bytes.split_first() else {
        unreachable!()
    };
    if is_white(*first) {
        return Ok((1, PieceKind::White));
    }
    if is_letter(*first) {
        let len = 1 + word_len(rest);
        let (word, _) = bytes.split_at(len);
        return Ok((len, PieceKind::Token(word_kind(word))));
    }
    if is_mark(*first) {
        return Ok((1, PieceKind::Token(TokenKind::Sign)));
    }
    if begins_number(bytes) {
        let len = 1 + number_len(begins_hex(bytes), *first, rest);
        return Ok((len, PieceKind::Token(TokenKind::Number)));
    }
    if *first == b'"' {
        return text(rest);
    }
    if *first == b'\'' {
        return character(rest);
    }
    if bytes.starts_with(b"//") {
        return line_comment(bytes);
    }
    if bytes.starts_with(b"/*") {
        return block_comment(bytes);
    }
    match sign_len(*first, bytes) {
        Some(len) => Ok((len, PieceKind::Token(TokenKind::Sign))),
        None => Err(LexicalFault::BadCharacter),
    }
}
