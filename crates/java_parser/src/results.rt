//! What the head of a method says of its result (JLS 8.4.5).
ghost use Rattle.std.specs.Prelude.{◌≡◌, ◌≤◌, ◌↔◌, ◌++◌, length, IsTrue, IfOk, IsErrOf};
ghost use Rattle.java_parser_grammar.specs.Heads.{EndsInResult, without_annotations, IsConstructor, HeadSays, IsResult};
ghost use Rattle.java_parser.specs.ResultParts.{SaysType, SaysResult, IsAnyResult, HasModifiers, HasNoModifiers};
ghost use Rattle.java_parser_types.specs.declared.error.ReadError.TheVariants.{Unformed};
ghost use Rattle.java_parser.specs.Fronts.{EndsWith};

use super::fronts::cut;
use super::last_parts::last_part;
use crate::pieces::{is_annotation, next_piece};
use java_lexer::Token;
use java_parser_methods::modifiers::modifiers;
use java_parser_types::look::is_keyword;
use java_parser_types::{ReadError, read_type};
use java_tree::HeadResult;
use racer_base::{MAX_NESTING, Memory, Text};
use std::alloc::Global;

/// The type that all of the tokens are, or that they are none.
fn type_of(alloc: Global, tokens: &[Token]) -> Result<HeadResult, Memory>
    ensures { IfOk result (λ r. SaysType tokens.now r) }
{
    if tokens.len() >= u32::MAX as usize {
        return Err(Memory);
    }
    match read_type(alloc, MAX_NESTING, tokens) {
        Ok(kind) => Ok(HeadResult::Formed(kind)),
        Err(ReadError::Unformed) => Ok(HeadResult::Unknown),
        Err(ReadError::Memory) => Err(Memory),
    }
}

/// The result that all of the tokens are, or that they are none.
fn result_of(alloc: Global, tokens: &[Token]) -> Result<HeadResult, Memory>
    ensures { IfOk result (λ r. SaysResult tokens.now r) }
{
    match tokens {
        [word] if is_keyword(word, "void") => Ok(HeadResult::Void),
        _ => type_of(alloc, tokens),
    }
}

fn is_result(alloc: Global, tokens: &[Token]) -> Result<bool, Memory>
    ensures { IfOk result (λ known. IsAnyResult tokens.now known) }
{
    match result_of(alloc, tokens)? {
        HeadResult::Unknown => Ok(false),
        _ => Ok(true),
    }
}

/// Whether the last of the tokens spell a type, or are `void`.
fn ends_in_result(alloc: Global, tokens: &[Token]) -> Result<bool, Memory>
    ensures { IfOk result (λ known. IsTrue known ↔ EndsInResult tokens.now) }
{
    match last_part(tokens) {
        Some(part) => is_result(alloc, part),
        None => Ok(false),
    }
}

fn copied(alloc: Global, token: &Token) -> Result<Token, Memory>
    ensures { IfOk result (λ copy. copy ≡ token.now) }
{
    let text = Text::from_str(alloc, token.text.as_str())?;
    Ok(Token {
        kind: token.kind,
        text,
        place: token.place,
        glued: token.glued,
    })
}

fn add_copies(alloc: Global, copies: &mut Vec<Token>, tokens: &[Token]) -> Result<(), Memory>
    ensures { IfOk result (λ _. copies.new.items ≡ copies.old.items ++ tokens.now) }
{
    for token in tokens {
        let copy = copied(alloc, token)?;
        copies.push(copy)?;
    }
    Ok(())
}

/// The tokens outside annotations.
fn without_annotations(alloc: Global, tokens: &[Token]) -> Result<Vec<Token>, Memory>
    ensures { IfOk result (λ bare. bare.items ≡ without_annotations tokens.now) }
{
    let mut bare = Vec::new(alloc);
    let mut rest = tokens;
    while let Some((piece, after)) = next_piece(rest) {
        if !is_annotation(piece) {
            add_copies(alloc, &mut bare, piece)?;
        }
        rest = after;
    }
    Ok(bare)
}

/// Whether a method of this class, before whose name these tokens stand, is a constructor.
fn is_constructor(alloc: Global, class: &str, front: &[Token], name: &Token) -> Result<bool, Memory>
    ensures { IfOk result (λ known. IsTrue known ↔ IsConstructor class.now name.now.text front.now) }
{
    if name.text.as_str() != class {
        return Ok(false);
    }
    let bare = without_annotations(alloc, front)?;
    Ok(!ends_in_result(alloc, bare.as_slice())?)
}

/// The tokens left behind modifiers of a method and annotations.
fn left_behind_modifiers(alloc: Global, front: &[Token]) -> Result<&[Token], ReadError>
    ensures left { IfOk result (λ left. HasModifiers front.now left.now) }
    ensures none { IsErrOf result Unformed → HasNoModifiers front.now }
    ensures shorter { IfOk result (λ left. length left.now ≤ length front.now) }
{
    let (_, left) = modifiers(alloc, front)?;
    Ok(left)
}

/// The tokens behind modifiers of a method and annotations.
fn behind_modifiers(alloc: Global, front: &[Token]) -> Result<&[Token], ReadError>
    ensures rest { IfOk result (λ rest. HasModifiers front.now rest.now) }
    ensures end { IfOk result (λ rest. EndsWith front.now rest.now) }
    ensures none { IsErrOf result Unformed → HasNoModifiers front.now }
{
    let left = left_behind_modifiers(alloc, front)?;
    let (_, rest) = cut(front, left);
    Ok(rest)
}

/// What the tokens before the name say.
fn said(alloc: Global, front: &[Token]) -> Result<HeadResult, Memory>
    ensures { IfOk result (λ r. HeadSays front.now r) }
{
    match behind_modifiers(alloc, front) {
        Ok(rest) => result_of(alloc, rest),
        Err(ReadError::Unformed) => Ok(HeadResult::Unknown),
        Err(ReadError::Memory) => Err(Memory),
    }
}

/// The result of a method of this class that has no tree.
pub fn head_result(
    alloc: Global,
    class: &str,
    front: &[Token],
    name: &Token,
) -> Result<HeadResult, Memory>
    ensures { IfOk result (λ r. IsResult class.now name.now.text front.now r) }
{
    if is_constructor(alloc, class, front, name)? {
        return Ok(HeadResult::Constructor);
    }
    said(alloc, front)
}
