//! Reading an expression with no expression at its left (JLS 15.8, 15.12, 15.15, 15.16).
ghost use Rattle.std.specs.Prelude.{◌≡◌, ◌<◌, ◌≤◌, ◌^◌, suc, ◌∷◌, length, map, IfOk};
ghost use Rattle.java_lexer.specs.declared.token.TokenKind.TheVariants as kind;
ghost use Rattle.java_tree.specs.KeptPlaces.{kept, place_onto, expr_places};
ghost use Rattle.java_tree.specs.View.{expr_of};
ghost use Rattle.java_tree.specs.Words.{identifier};
ghost use Rattle.java_parser_grammar.specs.TypeReading.{ty_at, made_base_at};
ghost use Rattle.java_parser_grammar.specs.ExpressionReading.{name_with, parens_with, cast_with, prefix_with};
ghost use Rattle.java_parser_grammar.specs.ExpressionReading.{operand_of};
ghost use Rattle.java_parser_grammar.specs.ExpressionReading.{operand_with, read_at, array_at};
ghost use Rattle.java_parser_types.specs.Tokens.{spelled};
ghost use Rattle.java_parser_expressions.specs.Closings.{lone_parens_with};
ghost use Rattle.java_parser_types.specs.LedPlaces.{Leads};
ghost use Rattle.java_parser_types.specs.ReadAnswer.{Gives};

use super::arguments::call_arguments;
use super::class_names::{class, class_follows, goes_typed};
use super::creations::creation;
use super::expressions::{read_expression, read_part};
use super::nested::NestedExpression;
use super::operands::{call, cast_to, cast_types, literal, paren, prefixed, this, variable};
use super::references::{plain_word, super_reference, typed_name};
use java_lexer::{Token, TokenKind};
use java_parser_lookahead::lambdas::lambdas_behind;
use java_parser_lookahead::leads::{casts, is_prefix, is_text, opens_operand};
use java_parser_types::error::ReadError;
use java_parser_types::look::{after_sign, is_plain_word, sign};
use std::alloc::Global;

/// An expression with no expression at its left.
#[cycle(expressions)]
#[tactic(auto, unfolding(java_parser_grammar::specs::ExpressionReading::operand_with))]
pub fn operand(
    alloc: Global,
    limit: u32,
    tokens: &[Token],
) -> Result<(NestedExpression, &[Token]), ReadError>
    requires few { length tokens.now < 2 ^ 32 }
    requires room { suc (suc limit) < 2 ^ 32 }
    ensures gives { Gives (λ x. (expr_of x.0.tree.value, map spelled x.1.now)) result (operand_with (read_at limit)
        limit (made_base_at limit) (array_at limit) (map spelled tokens.now)) }
    ensures places { IfOk result (λ x. Leads (expr_places x.0.tree.value) (kept tokens.now) (kept x.1.now)) }
    ensures small { IfOk result (λ x. x.0.nesting ≤ suc limit) }
    ensures shorter { IfOk result (λ x. length x.1.now ≤ length tokens.now) }
{
    let [token, rest @ ..] = tokens else {
        return Err(ReadError::Unformed);
    };
    if token.glued {
        return Err(ReadError::Unformed);
    }
    match token.kind {
        TokenKind::Keyword => word(alloc, limit, token, rest),
        TokenKind::Name => name_operand(alloc, limit, tokens, token, rest),
        TokenKind::Sign => sign_operand(alloc, limit, token, rest),
        TokenKind::Fixed | TokenKind::Number | TokenKind::Character | TokenKind::Text => {
            literal(alloc, token, rest)
        }
    }
}

/// What begins with this keyword (JLS 15.8.3, 15.9, 15.10).
#[cycle(expressions)]
fn word<'a>(
    alloc: Global,
    limit: u32,
    token: &Token,
    tokens: &'a [Token],
) -> Result<(NestedExpression, &'a [Token]), ReadError>
    requires few { length tokens.now < 2 ^ 32 }
    requires room { suc (suc limit) < 2 ^ 32 }
    ensures gives { Gives (λ x. (expr_of x.0.tree.value, map spelled x.1.now)) result (operand_of (read_at limit)
        limit (made_base_at limit) (array_at limit) kind.Keyword token.now.text (map spelled tokens.now)) }
    ensures places { IfOk result (λ x. Leads (expr_places x.0.tree.value) (place_onto kind.Keyword token.now.text
        token.now.place (kept tokens.now)) (kept x.1.now)) }
    ensures small { IfOk result (λ x. x.0.nesting ≤ suc limit) }
    ensures shorter { IfOk result (λ x. length x.1.now ≤ length tokens.now) }
{
    let text = token.text.as_str();
    if is_text(text, "this") {
        return this(alloc, tokens);
    }
    if is_text(text, "new") {
        return creation(alloc, limit, token.place, tokens);
    }
    if is_text(text, "super") {
        return super_reference(alloc, limit, tokens);
    }
    if is_plain_word(text.as_bytes()) || is_text(text, "void") {
        return plain_word(alloc, limit, token, tokens);
    }
    Err(ReadError::Unformed)
}

/// What begins with this name: a class or a `this` of it, a reference to a type, a call or the name (JLS 15.8.2,
/// 15.8.4, 15.13, 15.12, 15.14.1).
#[cycle(expressions)]
#[tactic(auto, unfolding(java_parser_grammar::specs::ExpressionReading::name_with))]
fn name_operand<'a>(
    alloc: Global,
    limit: u32,
    whole: &'a [Token],
    token: &Token,
    tokens: &'a [Token],
) -> Result<(NestedExpression, &'a [Token]), ReadError>
    requires all { length whole.now < 2 ^ 32 }
    requires few { length tokens.now < 2 ^ 32 }
    requires room { suc (suc limit) < 2 ^ 32 }
    requires name { spelled token.now ≡ identifier token.now.text }
    requires whole { whole.now ≡ token.now ∷ tokens.now }
    ensures gives { Gives (λ x. (expr_of x.0.tree.value, map spelled x.1.now)) result (name_with (read_at limit) limit
        token.now.text (map spelled tokens.now)) }
    ensures places { IfOk result (λ x. Leads (expr_places x.0.tree.value) (token.now.place ∷ kept tokens.now)
        (kept x.1.now)) }
    ensures small { IfOk result (λ x. x.0.nesting ≤ suc limit) }
    ensures shorter { IfOk result (λ x. length x.1.now ≤ length tokens.now) }
{
    if class_follows(tokens) {
        return class(alloc, token, tokens);
    }
    if goes_typed(limit, tokens) {
        return typed_name(alloc, limit, whole);
    }
    let Some(inside) = after_sign(tokens, "(") else {
        return variable(alloc, token, tokens);
    };
    let (all, rest) = call_arguments(alloc, limit, inside)?;
    call(alloc, token, all, rest)
}

/// What begins with this sign (JLS 15.15, 15.16, 15.8.5).
#[cycle(expressions)]
fn sign_operand<'a>(
    alloc: Global,
    limit: u32,
    token: &Token,
    tokens: &'a [Token],
) -> Result<(NestedExpression, &'a [Token]), ReadError>
    requires few { length tokens.now < 2 ^ 32 }
    requires room { suc (suc limit) < 2 ^ 32 }
    ensures gives { Gives (λ x. (expr_of x.0.tree.value, map spelled x.1.now)) result (operand_of (read_at limit)
        limit (made_base_at limit) (array_at limit) kind.Sign token.now.text (map spelled tokens.now)) }
    ensures places { IfOk result (λ x. Leads (expr_places x.0.tree.value) (kept tokens.now) (kept x.1.now)) }
    ensures small { IfOk result (λ x. x.0.nesting ≤ suc limit) }
    ensures shorter { IfOk result (λ x. length x.1.now ≤ length tokens.now) }
{
    let text = token.text.as_str();
    if is_prefix(text) {
        return prefix(alloc, limit, text, tokens);
    }
    if !is_text(text, "(") {
        return Err(ReadError::Unformed);
    }
    match casts(tokens) {
        Some(true) => cast(alloc, limit, tokens),
        Some(false) => parens(alloc, limit, tokens),
        None => nested_parens(alloc, limit, tokens),
    }
}

/// Behind a prefix operator (JLS 15.15).
#[cycle(expressions)]
#[tactic(auto, unfolding(java_parser_grammar::specs::ExpressionReading::prefix_with))]
fn prefix<'a>(
    alloc: Global,
    limit: u32,
    operator: &str,
    tokens: &'a [Token],
) -> Result<(NestedExpression, &'a [Token]), ReadError>
    requires few { length tokens.now < 2 ^ 32 }
    requires room { suc (suc limit) < 2 ^ 32 }
    ensures gives { Gives (λ x. (expr_of x.0.tree.value, map spelled x.1.now)) result (prefix_with (read_at limit)
        operator.now (map spelled tokens.now)) }
    ensures places { IfOk result (λ x. Leads (expr_places x.0.tree.value) (kept tokens.now) (kept x.1.now)) }
    ensures small { IfOk result (λ x. x.0.nesting ≤ suc limit) }
    ensures shorter { IfOk result (λ x. length x.1.now ≤ length tokens.now) }
{
    let (part, rest) = read_expression(alloc, limit, 12, tokens)?;
    prefixed(alloc, operator, part, rest)
}

/// A cast, behind its `(` (JLS 15.16). What is no primitive value may be a lambda.
#[cycle(expressions)]
fn cast(
    alloc: Global,
    limit: u32,
    tokens: &[Token],
) -> Result<(NestedExpression, &[Token]), ReadError>
    requires few { length tokens.now < 2 ^ 32 }
    requires room { suc (suc limit) < 2 ^ 32 }
    ensures gives { Gives (λ x. (expr_of x.0.tree.value, map spelled x.1.now)) result (cast_with (read_at limit)
        (ty_at limit) (map spelled tokens.now)) }
    ensures places { IfOk result (λ x. Leads (expr_places x.0.tree.value) (kept tokens.now) (kept x.1.now)) }
    ensures small { IfOk result (λ x. x.0.nesting ≤ suc limit) }
    ensures shorter { IfOk result (λ x. length x.1.now ≤ length tokens.now) }
{
    let (types, rest) = cast_types(alloc, limit, tokens)?;
    let rest = sign(rest, ")")?;
    let lambdas = lambdas_behind(types.trees.as_slice());
    let (part, rest) = read_part(alloc, limit, 12, lambdas, rest)?;
    cast_to(alloc, types, part, rest)
}

/// Parentheses, behind the `(` (JLS 15.8.5).
#[cycle(expressions)]
fn parens(
    alloc: Global,
    limit: u32,
    tokens: &[Token],
) -> Result<(NestedExpression, &[Token]), ReadError>
    requires few { length tokens.now < 2 ^ 32 }
    requires room { suc (suc limit) < 2 ^ 32 }
    ensures gives { Gives (λ x. (expr_of x.0.tree.value, map spelled x.1.now)) result (parens_with (read_at limit)
        (map spelled tokens.now)) }
    ensures places { IfOk result (λ x. Leads (expr_places x.0.tree.value) (kept tokens.now) (kept x.1.now)) }
    ensures small { IfOk result (λ x. x.0.nesting ≤ suc limit) }
    ensures shorter { IfOk result (λ x. length x.1.now ≤ length tokens.now) }
{
    let (part, rest) = read_expression(alloc, limit, 0, tokens)?;
    paren(alloc, part, rest)
}

/// The same with parentheses in them. An operand behind them would make this a cast of no type.
#[cycle(expressions)]
fn nested_parens(
    alloc: Global,
    limit: u32,
    tokens: &[Token],
) -> Result<(NestedExpression, &[Token]), ReadError>
    requires few { length tokens.now < 2 ^ 32 }
    requires room { suc (suc limit) < 2 ^ 32 }
    ensures gives { Gives (λ x. (expr_of x.0.tree.value, map spelled x.1.now)) result (lone_parens_with (read_at limit)
        (map spelled tokens.now)) }
    ensures places { IfOk result (λ x. Leads (expr_places x.0.tree.value) (kept tokens.now) (kept x.1.now)) }
    ensures small { IfOk result (λ x. x.0.nesting ≤ suc limit) }
    ensures shorter { IfOk result (λ x. length x.1.now ≤ length tokens.now) }
{
    let (value, rest) = parens(alloc, limit, tokens)?;
    if opens_operand(rest) {
        return Err(ReadError::Unformed);
    }
    Ok((value, rest))
}
