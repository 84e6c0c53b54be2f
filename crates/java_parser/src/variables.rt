//! Fields with what they begin with (JLS 8.3).
ghost use Rattle.std.specs.Prelude.{◌≡◌, ◌<◌, ◌^◌, true, map, length, List, IfOk, IsErrOf};
ghost use Rattle.std.specs.List.{AllZip};
ghost use Rattle.java_tree.specs.declared.methods.FieldVariable.{FieldVariable};
ghost use Rattle.java_parser_grammar.specs.FieldDivisions.{BeginsWith, IsVariable, AreVariables};
ghost use Rattle.java_parser_types.specs.declared.error.ReadError.TheVariants.{Unformed};
ghost use Rattle.java_parser.specs.Divisions.{is_beginning, is_declarator, are_declarators};

use super::divisions::pieces;
use java_lexer::Token;
use java_parser_expressions::read_initialiser;
use java_parser_types::ReadError;
use java_parser_types::look::{is_name, is_sign};
use java_tree::{FieldInitialiser, FieldVariable, Ident};
use racer_base::{MAX_NESTING, Memory, Text};
use std::alloc::Global;

/// Whether nothing stands there, or an `=` and one or more tokens.
fn is_beginning(tokens: &[Token]) -> bool
    ensures { result ≡ is_beginning tokens.now }
{
    match tokens {
        [] => true,
        [_] => false,
        [equals, _, ..] => is_sign(equals, "="),
    }
}

/// Whether a name stands there, and behind it what a variable may begin with.
fn is_declarator(piece: &[Token]) -> bool
    ensures { result ≡ is_declarator piece.now }
{
    match piece {
        [name, behind @ ..] => is_name(name) && is_beginning(behind),
        [] => false,
    }
}

fn are_declarators(pieces: &[&[Token]]) -> bool
    ensures { result ≡ are_declarators (map (λ p. p.now) pieces.now) }
{
    for piece in pieces {
        if !is_declarator(piece) {
            return false;
        }
    }
    true
}

/// What a variable begins with, which has these tokens behind its name.
fn initialiser(alloc: Global, tokens: &[Token]) -> Result<FieldInitialiser, Memory>
    requires { is_beginning tokens.now ≡ true }
    ensures { IfOk result (λ i. BeginsWith tokens.now i) }
{
    let [_, value @ ..] = tokens else {
        return Ok(FieldInitialiser::Absent);
    };
    if value.len() >= u32::MAX as usize {
        return Err(Memory);
    }
    match read_initialiser(alloc, MAX_NESTING, value) {
        Ok(tree) => Ok(FieldInitialiser::Formed(tree)),
        Err(ReadError::Unformed) => Ok(FieldInitialiser::Unread),
        Err(ReadError::Memory) => Err(Memory),
    }
}

fn ident(alloc: Global, token: &Token) -> Result<Ident, Memory>
    ensures text { IfOk result (λ name. name.text ≡ token.now.text) }
    ensures place { IfOk result (λ name. name.place ≡ token.now.place) }
{
    let text = Text::from_str(alloc, token.text.as_str())?;
    let place = token.place;
    Ok(Ident { text, place })
}

/// The variable that the tokens are.
fn variable(alloc: Global, piece: &[Token]) -> Result<FieldVariable, Memory>
    requires { is_declarator piece.now ≡ true }
    ensures { IfOk result (λ v. IsVariable piece.now v) }
{
    let [name, behind @ ..] = piece else {
        unreachable!()
    };
    let name = ident(alloc, name)?;
    let initialiser = initialiser(alloc, behind)?;
    Ok(FieldVariable { name, initialiser })
}

/// The variables that the pieces are.
fn variables_of(alloc: Global, pieces: &[&[Token]]) -> Result<Vec<FieldVariable>, Memory>
    requires { are_declarators (map (λ p. p.now) pieces.now) ≡ true }
    ensures { IfOk result (λ vs. AllZip IsVariable (map (λ p. p.now) pieces.now) vs.items) }
{
    let mut variables = Vec::new(alloc);
    for piece in pieces {
        let next = variable(alloc, piece)?;
        variables.push(next)?;
    }
    Ok(variables)
}

/// The variables that the tokens behind a type are.
pub fn variables(alloc: Global, tokens: &[Token]) -> Result<Vec<FieldVariable>, ReadError>
    requires { length tokens.now < 2 ^ 32 }
    ensures read { IfOk result (λ vs. AreVariables tokens.now vs.items) }
    ensures none { IsErrOf result Unformed → (vs : List FieldVariable) → AreVariables tokens.now vs → ⊥ }
{
    let pieces = pieces(alloc, tokens)?;
    if !are_declarators(pieces.as_slice()) {
        return Err(ReadError::Unformed);
    }
    Ok(variables_of(alloc, pieces.as_slice())?)
}
