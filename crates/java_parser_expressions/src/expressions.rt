//! Reading expressions (JLS 15): a lambda, or an operand and turn by turn what goes on from it.
ghost use Rattle.std.specs.Prelude.{◌≡◌, ◌<◌, ◌≤◌, ◌^◌, suc, true, length, map, IfOk};
ghost use Rattle.java_tree.specs.KeptPlaces.{kept, expr_places};
ghost use Rattle.java_tree.specs.View.{expr_of};
ghost use Rattle.java_parser_grammar.specs.ExpressionReading.{assign_with, conditional_with, binary_with, select_with};
ghost use Rattle.java_parser_grammar.specs.ExpressionReading.{index_with, turn_with, climb_with, read_at};
ghost use Rattle.java_parser_grammar.specs.Leads.{lead};
ghost use Rattle.java_parser_types.specs.Tokens.{spelled};
ghost use Rattle.java_parser_lookahead.specs.FirstParenthesis.{nests};
ghost use Rattle.java_parser_lookahead.specs.LambdaPlaces.{part_level};
ghost use Rattle.java_parser_expressions.specs.TurnView.{turn_of, TurnLeadsOn, IsSmall, IsWithin};
ghost use Rattle.java_parser_types.specs.LedPlaces.{Leads, LeadsOn};
ghost use Rattle.java_parser_types.specs.ReadAnswer.{Gives};

use super::arguments::call_arguments;
use super::first_operand::operand;
use super::lambdas::lambda_part;
use super::nested::NestedExpression;
use super::progress::Progress;
use super::references::refer;
use super::turns::{assigned, called, chosen, indexed, joined, selected, stepped, tested};
use java_lexer::Token;
use java_parser_lookahead::lambdas::Lambdas;
use java_parser_lookahead::leads::{Lead, begins_lambda, lead_at, seen_lambda};
use java_parser_lookahead::levels::{binary_level, goes_on};
use java_parser_lookahead::lookahead::begins_with;
use java_parser_types::error::ReadError;
use java_parser_types::look::{after_sign, name, sign};
use java_parser_types::type_lists::types;
use std::alloc::Global;

/// An expression of a level of at least `level` and a nesting of at most `limit`.
#[cycle(expressions)]
pub fn read_expression(
    alloc: Global,
    limit: u32,
    level: u32,
    tokens: &[Token],
) -> Result<(NestedExpression, &[Token]), ReadError>
    requires few { length tokens.now < 2 ^ 32 }
    requires room { suc (suc limit) < 2 ^ 32 }
    ensures gives { Gives (λ x. (expr_of x.0.tree.value, map spelled x.1.now)) result (read_at limit level
        (map spelled tokens.now)) }
    ensures places { IfOk result (λ x. Leads (expr_places x.0.tree.value) (kept tokens.now) (kept x.1.now)) }
    ensures small { IfOk result (λ x. x.0.nesting ≤ limit) }
    ensures shorter { IfOk result (λ x. length x.1.now ≤ length tokens.now) }
{
    read_part(alloc, limit, level, Lambdas::AsAssignments, tokens)
}

/// The same, and a lambda too where `lambdas` says that one may stand here.
#[cycle(expressions)]
#[tactic(auto, unfolding(java_parser_grammar::specs::ExpressionReading::read_at))]
pub fn read_part(
    alloc: Global,
    limit: u32,
    level: u32,
    lambdas: Lambdas,
    tokens: &[Token],
) -> Result<(NestedExpression, &[Token]), ReadError>
    requires few { length tokens.now < 2 ^ 32 }
    requires room { suc (suc limit) < 2 ^ 32 }
    ensures gives { Gives (λ x. (expr_of x.0.tree.value, map spelled x.1.now)) result (read_at limit (part_level lambdas
        level (map spelled tokens.now)) (map spelled tokens.now)) }
    ensures places { IfOk result (λ x. Leads (expr_places x.0.tree.value) (kept tokens.now) (kept x.1.now)) }
    ensures small { IfOk result (λ x. x.0.nesting ≤ limit) }
    ensures shorter { IfOk result (λ x. length x.1.now ≤ length tokens.now) }
{
    if limit == 0 {
        return Err(ReadError::Unformed);
    }
    let inner = limit - 1;
    match seen_lambda(tokens) {
        Some(true) => lambda_part(alloc, inner, level, lambdas, tokens),
        Some(false) => {
            let (first, rest) = operand(alloc, inner, tokens)?;
            climb(alloc, inner, level, first, rest)
        }
        None => nested_part(alloc, inner, level, lambdas, tokens),
    }
}

/// The same where another `(` is the first parenthesis behind a `(`. What stands in the first is read as an expression:
/// it begins a lambda where an arrow follows, or where it is no expression and an arrow stands behind it.
#[cycle(expressions)]
#[tactic(auto, unfolding(java_parser_grammar::specs::ExpressionReading::read_at))]
fn nested_part(
    alloc: Global,
    limit: u32,
    level: u32,
    lambdas: Lambdas,
    tokens: &[Token],
) -> Result<(NestedExpression, &[Token]), ReadError>
    requires few { length tokens.now < 2 ^ 32 }
    requires room { suc (suc (suc limit)) < 2 ^ 32 }
    requires nests { nests (map spelled tokens.now) ≡ true }
    ensures gives { Gives (λ x. (expr_of x.0.tree.value, map spelled x.1.now)) result (read_at (suc limit) (part_level
        lambdas level (map spelled tokens.now)) (map spelled tokens.now)) }
    ensures places { IfOk result (λ x. Leads (expr_places x.0.tree.value) (kept tokens.now) (kept x.1.now)) }
    ensures small { IfOk result (λ x. x.0.nesting ≤ suc limit) }
    ensures shorter { IfOk result (λ x. length x.1.now ≤ length tokens.now) }
{
    match operand(alloc, limit, tokens) {
        Ok((first, rest)) => {
            if begins_with(rest, "->") {
                return lambda_part(alloc, limit, level, lambdas, tokens);
            }
            climb(alloc, limit, level, first, rest)
        }
        Err(ReadError::Unformed) => {
            if !begins_lambda(tokens) {
                return Err(ReadError::Unformed);
            }
            lambda_part(alloc, limit, level, lambdas, tokens)
        }
        Err(ReadError::Memory) => Err(ReadError::Memory),
    }
}

/// The expression that begins with this one: as many turns as the nesting allows.
#[cycle(expressions)]
#[tactic(auto, unfolding(java_parser_grammar::specs::ExpressionReading::climb_with))]
fn climb(
    alloc: Global,
    limit: u32,
    level: u32,
    first: NestedExpression,
    tokens: &[Token],
) -> Result<(NestedExpression, &[Token]), ReadError>
    requires few { length tokens.now < 2 ^ 32 }
    requires room { suc (suc limit) < 2 ^ 32 }
    requires first { first.nesting ≤ suc limit }
    ensures gives { Gives (λ x. (expr_of x.0.tree.value, map spelled x.1.now)) result (climb_with (read_at limit) limit
        level (suc limit) (expr_of first.tree.value) (map spelled tokens.now)) }
    ensures places { IfOk result (λ x. LeadsOn (expr_places first.tree.value) (expr_places x.0.tree.value)
        (kept tokens.now) (kept x.1.now)) }
    ensures small { IfOk result (λ x. x.0.nesting ≤ suc limit) }
    ensures shorter { IfOk result (λ x. length x.1.now ≤ length tokens.now) }
{
    let mut tree = first;
    let mut rest = tokens;
    for _ in 0..limit + 1 {
        match turn(alloc, limit, level, tree, rest)? {
            Progress::Stop(whole) => return Ok((whole, rest)),
            Progress::Next(larger, after) => {
                tree = larger;
                rest = after;
            }
        }
    }
    Err(ReadError::Unformed)
}

/// One turn, with what the first token begins.
#[cycle(expressions)]
#[tactic(auto, unfolding(java_parser_grammar::specs::ExpressionReading::turn_with))]
fn turn<'a>(
    alloc: Global,
    limit: u32,
    level: u32,
    left: NestedExpression,
    tokens: &'a [Token],
) -> Result<Progress<'a>, ReadError>
    requires few { length tokens.now < 2 ^ 32 }
    requires room { suc (suc limit) < 2 ^ 32 }
    requires left { left.nesting ≤ suc limit }
    ensures gives { Gives turn_of result (turn_with (read_at limit) limit level (expr_of left.tree.value)
        (lead (map spelled tokens.now))) }
    ensures places { IfOk result (λ x. TurnLeadsOn (expr_places left.tree.value) x (kept tokens.now)) }
    ensures small { IfOk result (λ x. IsSmall x (suc limit)) }
    ensures shorter { IfOk result (λ x. IsWithin x (length tokens.now)) }
{
    let lead = lead_at(tokens);
    if !goes_on(level, &left.tree, &lead) {
        return Ok(Progress::Stop(left));
    }
    match lead {
        Lead::Assigns(operator, rest) => assign(alloc, limit, left, operator, rest),
        Lead::Asks(rest) => conditional(alloc, limit, left, rest),
        Lead::Joins(operator, rest) => binary(alloc, limit, left, operator, rest),
        Lead::Tests(rest) => tested(alloc, limit, left, rest),
        Lead::Steps(operator, rest) => stepped(alloc, limit, left, operator, rest),
        Lead::Selects(rest) => select(alloc, limit, left, rest),
        Lead::Indexes(rest) => index(alloc, limit, left, rest),
        Lead::Refers(rest) => refer(alloc, limit, left, rest),
        Lead::Opens | Lead::Binds | Lead::Ends => Ok(Progress::Stop(left)),
    }
}

/// An assignment (JLS 15.26).
#[cycle(expressions)]
#[tactic(auto, unfolding(java_parser_grammar::specs::ExpressionReading::assign_with))]
fn assign<'a>(
    alloc: Global,
    limit: u32,
    left: NestedExpression,
    operator: &str,
    tokens: &'a [Token],
) -> Result<Progress<'a>, ReadError>
    requires few { length tokens.now < 2 ^ 32 }
    requires room { suc (suc limit) < 2 ^ 32 }
    requires left { left.nesting ≤ suc limit }
    ensures gives { Gives turn_of result (assign_with (read_at limit) limit (expr_of left.tree.value) operator.now
        (map spelled tokens.now)) }
    ensures places { IfOk result (λ x. TurnLeadsOn (expr_places left.tree.value) x (kept tokens.now)) }
    ensures small { IfOk result (λ x. IsSmall x (suc limit)) }
    ensures shorter { IfOk result (λ x. IsWithin x (length tokens.now)) }
{
    let (right, rest) = read_expression(alloc, limit, 0, tokens)?;
    assigned(alloc, limit, left, operator, right, rest)
}

/// `a ? b : c` (JLS 15.25).
#[cycle(expressions)]
#[tactic(auto, unfolding(java_parser_grammar::specs::ExpressionReading::conditional_with))]
fn conditional<'a>(
    alloc: Global,
    limit: u32,
    left: NestedExpression,
    tokens: &'a [Token],
) -> Result<Progress<'a>, ReadError>
    requires few { length tokens.now < 2 ^ 32 }
    requires room { suc (suc limit) < 2 ^ 32 }
    requires left { left.nesting ≤ suc limit }
    ensures gives { Gives turn_of result (conditional_with (read_at limit) limit (expr_of left.tree.value)
        (map spelled tokens.now)) }
    ensures places { IfOk result (λ x. TurnLeadsOn (expr_places left.tree.value) x (kept tokens.now)) }
    ensures small { IfOk result (λ x. IsSmall x (suc limit)) }
    ensures shorter { IfOk result (λ x. IsWithin x (length tokens.now)) }
{
    let (then, rest) = read_expression(alloc, limit, 0, tokens)?;
    let rest = sign(rest, ":")?;
    let (other, rest) = read_part(alloc, limit, 1, Lambdas::Anywhere, rest)?;
    chosen(alloc, limit, left, then, other, rest)
}

/// A binary operator (JLS 15.17 to 15.24).
#[cycle(expressions)]
#[tactic(auto, unfolding(java_parser_grammar::specs::ExpressionReading::binary_with))]
fn binary<'a>(
    alloc: Global,
    limit: u32,
    left: NestedExpression,
    operator: &str,
    tokens: &'a [Token],
) -> Result<Progress<'a>, ReadError>
    requires few { length tokens.now < 2 ^ 32 }
    requires room { suc (suc limit) < 2 ^ 32 }
    requires left { left.nesting ≤ suc limit }
    ensures gives { Gives turn_of result (binary_with (read_at limit) limit (expr_of left.tree.value) operator.now
        (map spelled tokens.now)) }
    ensures places { IfOk result (λ x. TurnLeadsOn (expr_places left.tree.value) x (kept tokens.now)) }
    ensures small { IfOk result (λ x. IsSmall x (suc limit)) }
    ensures shorter { IfOk result (λ x. IsWithin x (length tokens.now)) }
{
    let (right, rest) = read_expression(alloc, limit, binary_level(operator) + 1, tokens)?;
    joined(alloc, limit, left, operator, right, rest)
}

/// A field or a call, behind its point (JLS 15.11, 15.12).
#[cycle(expressions)]
#[tactic(auto, unfolding(java_parser_grammar::specs::ExpressionReading::select_with))]
fn select<'a>(
    alloc: Global,
    limit: u32,
    left: NestedExpression,
    tokens: &'a [Token],
) -> Result<Progress<'a>, ReadError>
    requires few { length tokens.now < 2 ^ 32 }
    requires room { suc (suc limit) < 2 ^ 32 }
    requires left { left.nesting ≤ suc limit }
    ensures gives { Gives turn_of result (select_with (read_at limit) limit (expr_of left.tree.value)
        (map spelled tokens.now)) }
    ensures places { IfOk result (λ x. TurnLeadsOn (expr_places left.tree.value) x (kept tokens.now)) }
    ensures small { IfOk result (λ x. IsSmall x (suc limit)) }
    ensures shorter { IfOk result (λ x. IsWithin x (length tokens.now)) }
{
    let (types, rest) = types(alloc, limit, tokens)?;
    let (name, rest) = name(alloc, rest)?;
    let Some(inside) = after_sign(rest, "(") else {
        if !types.trees.is_empty() {
            return Err(ReadError::Unformed);
        }
        return selected(alloc, limit, left, name, rest);
    };
    let (all, rest) = call_arguments(alloc, limit, inside)?;
    called(alloc, limit, left, types, name, all, rest)
}

/// An element, behind its `[` (JLS 15.10.3).
#[cycle(expressions)]
#[tactic(auto, unfolding(java_parser_grammar::specs::ExpressionReading::index_with))]
fn index<'a>(
    alloc: Global,
    limit: u32,
    left: NestedExpression,
    tokens: &'a [Token],
) -> Result<Progress<'a>, ReadError>
    requires few { length tokens.now < 2 ^ 32 }
    requires room { suc (suc limit) < 2 ^ 32 }
    requires left { left.nesting ≤ suc limit }
    ensures gives { Gives turn_of result (index_with (read_at limit) limit (expr_of left.tree.value)
        (map spelled tokens.now)) }
    ensures places { IfOk result (λ x. TurnLeadsOn (expr_places left.tree.value) x (kept tokens.now)) }
    ensures small { IfOk result (λ x. IsSmall x (suc limit)) }
    ensures shorter { IfOk result (λ x. IsWithin x (length tokens.now)) }
{
    let (index, rest) = read_expression(alloc, limit, 0, tokens)?;
    indexed(alloc, limit, left, index, rest)
}
