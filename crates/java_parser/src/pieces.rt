//! Annotations among items (JLS 9.7).
ghost use Rattle.std.specs.Prelude.{◌≡◌, ◌<◌, ◌≤◌, suc, [], ◌∷◌, ◌++◌, length, Some, None, MatchOption, IfSome};
ghost use Rattle.java_parser_grammar.specs.Pieces.{pieces_of, is_annotation};
ghost use Rattle.java_parser.specs.PieceSizes.{parentheses_size, annotation_size, behind_name, behind_at, piece_size};

use super::items::item_size;
use super::tests_of_tokens::begins_sign;
use java_lexer::Token;
use java_parser_types::look::{is_name, is_sign};

/// How many tokens the parentheses in front have.
fn parentheses_size(tokens: &[Token]) -> usize
    ensures size { result ≡ parentheses_size tokens.now }
    ensures within { result ≤ length tokens.now }
{
    if begins_sign(tokens, "(") {
        item_size(tokens)
    } else {
        0
    }
}

/// The tokens behind a point and a name.
fn behind_name(tokens: &[Token]) -> Option<&[Token]>
    ensures gives { MatchOption result (behind_name tokens.now ≡ None) (λ rest. behind_name tokens.now
        ≡ Some rest.now) }
    ensures shorter { IfSome result (λ rest. suc (suc (length rest.now)) ≡ length tokens.now) }
{
    match tokens {
        [point, name, rest @ ..] if is_sign(point, ".") && is_name(name) => Some(rest),
        _ => None,
    }
}

/// How many tokens go on with an annotation behind one of its names.
fn annotation_size(tokens: &[Token]) -> usize
    ensures size { result ≡ annotation_size tokens.now }
    ensures within { result ≤ length tokens.now }
{
    let mut size = 0;
    let mut rest = tokens;
    while let Some(after) = behind_name(rest) {
        size += 2;
        rest = after;
    }
    size + parentheses_size(rest)
}

/// The tokens behind the `@` and the first name of an annotation.
fn behind_at(tokens: &[Token]) -> Option<&[Token]>
    ensures gives { MatchOption result (behind_at tokens.now ≡ None) (λ rest. behind_at tokens.now ≡ Some rest.now) }
    ensures shorter { IfSome result (λ rest. suc (suc (length rest.now)) ≡ length tokens.now) }
{
    match tokens {
        [at, name, rest @ ..] if is_sign(at, "@") && is_name(name) => Some(rest),
        _ => None,
    }
}

/// How many tokens the first piece has.
fn piece_size(tokens: &[Token]) -> usize
    ensures size { result ≡ piece_size tokens.now }
    ensures within { result ≤ length tokens.now }
{
    match behind_at(tokens) {
        Some(rest) => 2 + annotation_size(rest),
        None => item_size(tokens),
    }
}

/// The first piece, and the tokens behind it.
pub fn next_piece(tokens: &[Token]) -> Option<(&[Token], &[Token])>
    ensures first { MatchOption result (tokens.now ≡ []) (λ x. pieces_of tokens.now ≡ x.0.now ∷ pieces_of x.1.now) }
    ensures parts { IfSome result (λ x. tokens.now ≡ x.0.now ++ x.1.now) }
    ensures shorter { IfSome result (λ x. length x.1.now < length tokens.now) }
{
    match tokens {
        [] => None,
        [_, ..] => Some(tokens.split_at(piece_size(tokens))),
    }
}

/// Whether the piece is an annotation.
pub fn is_annotation(piece: &[Token]) -> bool
    ensures { result ≡ is_annotation piece.now }
{
    match piece {
        [_, _, ..] => begins_sign(piece, "@"),
        _ => false,
    }
}
