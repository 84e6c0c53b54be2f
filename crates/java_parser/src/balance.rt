//! The brackets of a file (JLS 3.11).
ghost use Rattle.std.specs.Prelude.{◌≡◌, ◌<◌, ◌≤◌, ◌^◌, suc, [], ◌∷◌, map, IfOk, IfErr};
ghost use Rattle.java_parser_grammar.specs.Brackets.{is_opening, is_closing, is_pair, depth_behind, opened};
ghost use Rattle.java_parser_grammar.specs.Brackets.{unbalanced, too_deep};
ghost use Rattle.java_parser_grammar.specs.Tokens.{is_sign_token};
ghost use Rattle.java_parser.specs.OpenBrackets.{open_onto, IsOpened, IsBalanced, IsBracketFault};

use java_lexer::{Token, TokenKind};
use java_tree::ParseFault;
use racer_base::{MAX_BRACKET_NESTING, Memory, Place};
use std::alloc::Global;

/// Whether the token is an opening bracket. Each token of a file is asked, so its byte is looked at: comparing its text
/// with each of the three took a sixth of a run on plain statements.
pub fn is_opening(token: &Token) -> bool
    ensures { result ≡ is_opening token.now }
{
    matches!(token.kind, TokenKind::Sign)
        && !token.glued
        && match token.text.as_str().as_bytes() {
            [byte] => *byte == b'(' || *byte == b'[' || *byte == b'{',
            _ => false,
        }
}

/// Whether the token is a closing bracket, by its byte too.
pub fn is_closing(token: &Token) -> bool
    ensures { result ≡ is_closing token.now }
{
    matches!(token.kind, TokenKind::Sign)
        && !token.glued
        && match token.text.as_str().as_bytes() {
            [byte] => *byte == b')' || *byte == b']' || *byte == b'}',
            _ => false,
        }
}

/// Whether the token is the sign of this one byte, glued to nothing.
fn is_mark(token: &Token, byte: u8) -> bool
    ensures { result ≡ is_sign_token (byte ∷ []) token.now }
{
    matches!(token.kind, TokenKind::Sign)
        && !token.glued
        && match token.text.as_str().as_bytes() {
            [found] => *found == byte,
            _ => false,
        }
}

/// Whether the second bracket closes the first, by their bytes too.
fn is_pair(opening: &Token, closing: &Token) -> bool
    ensures { result ≡ is_pair opening.now closing.now }
{
    is_mark(opening, b'(') && is_mark(closing, b')')
        || is_mark(opening, b'[') && is_mark(closing, b']')
        || is_mark(opening, b'{') && is_mark(closing, b'}')
}

/// How many brackets are open behind one more token.
pub fn depth_behind(depth: usize, token: &Token) -> usize
    requires { suc depth < 2 ^ 64 }
    ensures gives { result ≡ depth_behind depth token.now }
    ensures small { result ≤ suc depth }
{
    if is_opening(token) {
        depth + 1
    } else if is_closing(token) {
        depth.saturating_sub(1)
    } else {
        depth
    }
}

/// The brackets that are open behind one more token; none where it closes another than the innermost.
fn opens<'a>(stack: &mut Vec<&'a Token>, token: &'a Token) -> Result<bool, Memory>
    ensures { IfOk result (λ fits. IsOpened fits (open_onto (map (λ t. t.now) stack.new.items) [])
        (opened (open_onto (map (λ t. t.now) stack.old.items) []) token.now)) }
{
    if is_opening(token) {
        stack.push(token)?;
        return Ok(true);
    }
    if !is_closing(token) {
        return Ok(true);
    }
    match stack.pop() {
        Some(opening) => Ok(is_pair(opening, token)),
        None => Ok(false),
    }
}

/// The first closing bracket that does not match the innermost open one, or else the innermost that is open at the end.
fn unbalanced(alloc: Global, tokens: &[Token]) -> Result<Option<Place>, Memory>
    ensures { IfOk result (λ place. place ≡ unbalanced [] tokens.now) }
{
    let mut open = Vec::new(alloc);
    for token in tokens {
        if !opens(&mut open, token)? {
            return Ok(Some(token.place));
        }
    }
    match open.pop() {
        Some(opening) => Ok(Some(opening.place)),
        None => Ok(None),
    }
}

/// The first bracket that is one more than may be open.
fn too_deep(tokens: &[Token]) -> Option<Place>
    ensures { result ≡ too_deep 0 tokens.now }
{
    let mut depth = 0;
    for token in tokens {
        depth = depth_behind(depth, token);
        if depth > MAX_BRACKET_NESTING as usize {
            return Some(token.place);
        }
    }
    None
}

/// Refuses a file whose brackets do not match, or stand too deep.
pub fn check_brackets(alloc: Global, tokens: &[Token]) -> Result<(), ParseFault>
    ensures fine { IfOk result (λ _. IsBalanced tokens.now) }
    ensures fault { IfErr result (λ fault. IsBracketFault tokens.now fault) }
{
    if let Some(place) = unbalanced(alloc, tokens)? {
        return Err(ParseFault::Unbalanced(place));
    }
    if let Some(place) = too_deep(tokens) {
        return Err(ParseFault::TooDeep(place));
    }
    Ok(())
}
