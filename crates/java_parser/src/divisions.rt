//! The division of fields at commas (JLS 8.3).
ghost use Rattle.std.specs.Prelude.{◌≡◌, ◌<◌, ◌≤◌, ◌^◌, [], ◌∷◌, None, map, option_map, length, IfOk, IsErrOf};
ghost use Rattle.racer_base.specs.declared.limits.TheConstants.{MAX_NESTING};
ghost use Rattle.java_tree.specs.FormedModifiers.{Each};
ghost use Rattle.java_parser_grammar.specs.ExpressionReading.{init_at};
ghost use Rattle.java_parser_grammar.specs.FieldDivisions.{IsDivided, between_commas};
ghost use Rattle.java_parser_grammar.specs.Pieces.{items_of};
ghost use Rattle.java_parser_types.specs.Tokens.{spelled};
ghost use Rattle.java_parser_types.specs.declared.error.ReadError.TheVariants.{Unformed};
ghost use Rattle.java_parser.specs.Divisions.{HasValue, HasTree, NoDivision, NoVariable, EndsVariable};
ghost use Rattle.java_parser.specs.Divisions.{IsSized, IsFirst};
ghost use Rattle.java_parser.specs.Divisions.{IsCut, left_size, left_pieces, ArePieces};

use crate::items::next_item;
use crate::tests_of_tokens::begins_sign;
use java_lexer::Token;
use java_parser_expressions::initialisers::read_initialiser;
use java_parser_types::ReadError;
use java_parser_types::look::{is_name, is_sign};
use racer_base::{MAX_NESTING, Memory};
use std::alloc::Global;

/// The tokens left behind what a variable begins with, which is in front.
fn behind_value(alloc: Global, tokens: &[Token]) -> Result<&[Token], ReadError>
    requires { length tokens.now < 2 ^ 32 }
    ensures value { IfOk result (λ rest. HasValue tokens.now rest.now) }
    ensures none { IsErrOf result Unformed → init_at MAX_NESTING (map spelled tokens.now) ≡ None }
    ensures shorter { IfOk result (λ rest. length rest.now ≤ length tokens.now) }
{
    let (_, rest) = read_initialiser(alloc, MAX_NESTING, tokens)?;
    Ok(rest)
}

/// How many tokens the variable in front has, where it has a tree.
#[tactic(auto, using(crate::proofs::VariableSteps::no_name, crate::proofs::VariableSteps::other_name, crate::proofs::VariableSteps::sized_alone, crate::proofs::VariableSteps::sized_bare, crate::proofs::VariableSteps::sized_value))]
fn variable_size(alloc: Global, tokens: &[Token]) -> Result<usize, ReadError>
    requires { length tokens.now < 2 ^ 32 }
    ensures sized { IfOk result (λ size. IsSized tokens.now size) }
    ensures none { IsErrOf result Unformed → NoVariable tokens.now }
{
    let Some((name, behind)) = tokens.split_first() else {
        return Err(ReadError::Unformed);
    };
    if !is_name(name) {
        return Err(ReadError::Unformed);
    }
    let Some((equals, value)) = behind.split_first() else {
        return Ok(1);
    };
    if !is_sign(equals, "=") {
        return Ok(1);
    }
    match behind_value(alloc, value) {
        Ok(rest) => Ok(tokens.len() - rest.len()),
        Err(error) => Err(error),
    }
}

/// The tokens behind a comma, which has to be in front; none where no tokens are left.
fn behind_comma(tokens: &[Token]) -> Result<Option<&[Token]>, ReadError>
    ensures behind { IfOk result (λ left. IsCut tokens.now [] (option_map (λ r. r.now) left)) }
    ensures none { IsErrOf result Unformed → EndsVariable tokens.now → ⊥ }
    ensures shorter { IfOk result (λ left. left_size (option_map (λ r. r.now) left) ≤ length tokens.now) }
{
    match tokens {
        [] => Ok(None),
        [comma, rest @ ..] if is_sign(comma, ",") => Ok(Some(rest)),
        _ => Err(ReadError::Unformed),
    }
}

/// The tokens of the variable in front, which has a tree, and those behind its comma, where one stands.
fn first_variable(
    alloc: Global,
    tokens: &[Token],
) -> Result<(&[Token], Option<&[Token]>), ReadError>
    requires { length tokens.now < 2 ^ 32 }
    ensures first { IfOk result (λ x. IsFirst tokens.now x.0.now (option_map (λ r. r.now) x.1)) }
    ensures none { IsErrOf result Unformed → NoDivision tokens.now }
    ensures shorter { IfOk result (λ x. left_size (option_map (λ r. r.now) x.1) ≤ length tokens.now) }
{
    let size = match variable_size(alloc, tokens) {
        Ok(size) => size,
        Err(error) => return Err(error),
    };
    let (variable, rest) = tokens.split_at(size);
    match behind_comma(rest) {
        Ok(behind) => Ok((variable, behind)),
        Err(error) => Err(error),
    }
}

/// The tokens divided at commas, where each piece is a variable with a tree.
fn division(alloc: Global, tokens: &[Token]) -> Result<Vec<&[Token]>, ReadError>
    requires { length tokens.now < 2 ^ 32 }
    ensures divided { IfOk result (λ pieces. IsDivided (map (λ p. p.now) pieces.items) tokens.now) }
    ensures trees { IfOk result (λ pieces. Each HasTree (map (λ p. p.now) pieces.items)) }
    ensures none { IsErrOf result Unformed → NoDivision tokens.now }
{
    let mut pieces = Vec::new(alloc);
    let mut left = Some(tokens);
    while let Some(rest) = left {
        let (piece, behind) = match first_variable(alloc, rest) {
            Ok(first) => first,
            Err(error) => return Err(error),
        };
        pieces.push(piece)?;
        left = behind;
    }
    Ok(pieces)
}

/// What stands before the first comma outside brackets, and behind it, where one stands.
fn until_comma(tokens: &[Token]) -> (&[Token], Option<&[Token]>)
    ensures first { between_commas (items_of tokens.now)
        ≡ result.0.now ∷ left_pieces (option_map (λ r. r.now) result.1) }
    ensures shorter { left_size (option_map (λ r. r.now) result.1) ≤ length tokens.now }
{
    let mut size = 0;
    let mut rest = tokens;
    while let Some((item, after)) = next_item(rest) {
        if begins_sign(item, ",") {
            let (piece, _) = tokens.split_at(size);
            return (piece, Some(after));
        }
        size += item.len();
        rest = after;
    }
    (tokens, None)
}

/// What stands between the commas outside brackets.
fn between_commas(alloc: Global, tokens: &[Token]) -> Result<Vec<&[Token]>, Memory>
    ensures { IfOk result (λ pieces. map (λ p. p.now) pieces.items ≡ between_commas (items_of tokens.now)) }
{
    let mut pieces = Vec::new(alloc);
    let mut left = Some(tokens);
    while let Some(rest) = left {
        let (piece, behind) = until_comma(rest);
        pieces.push(piece)?;
        left = behind;
    }
    Ok(pieces)
}

/// The tokens of each variable of a declaration.
pub fn pieces(alloc: Global, tokens: &[Token]) -> Result<Vec<&[Token]>, Memory>
    requires { length tokens.now < 2 ^ 32 }
    ensures { IfOk result (λ pieces. ArePieces tokens.now (map (λ p. p.now) pieces.items)) }
{
    match division(alloc, tokens) {
        Ok(pieces) => Ok(pieces),
        Err(ReadError::Unformed) => between_commas(alloc, tokens),
        Err(ReadError::Memory) => Err(Memory),
    }
}
