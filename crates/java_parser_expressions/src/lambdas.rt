//! Reading lambdas (JLS 15.27).
ghost use Rattle.std.specs.Prelude.{◌≡◌, ◌<◌, ◌≤◌, ◌^◌, suc, true, length, map, IfOk};
ghost use Rattle.java_tree.specs.KeptPlaces.{Marks, kept, no_places, expr_places};
ghost use Rattle.java_tree.specs.Operators.{assignment_level};
ghost use Rattle.java_tree.specs.Trees.{BlockLambda};
ghost use Rattle.java_tree.specs.View.{expr_of};
ghost use Rattle.java_parser_grammar.specs.ExpressionReading.{lambda_parameters_at, lambda_with, read_at};
ghost use Rattle.java_parser_grammar.specs.Leads.{begins_lambda};
ghost use Rattle.java_parser_expressions.specs.Closings.{as_read, lambda_end};
ghost use Rattle.java_parser_lookahead.specs.LambdaPlaces.{part_level};
ghost use Rattle.java_parser_types.specs.LedPlaces.{Leads};
ghost use Rattle.java_parser_types.specs.ReadAnswer.{Gives};
ghost use Rattle.java_parser_types.specs.Tokens.{spelled};

use super::expressions::read_expression;
use super::nested::NestedExpression;
use java_lexer::Token;
use java_parser_lookahead::brackets::{Bracket, between, braces_tokens, copied};
use java_parser_lookahead::lambdas::{Lambdas, may_stand};
use java_parser_lookahead::leads::ends_expression;
use java_parser_lookahead::lookahead::begins_with;
use java_parser_types::error::ReadError;
use java_parser_types::look::{is_sign, sign};
use java_tree::{Expression, LambdaBody, LambdaTree, Spelled};
use racer_base::Items;
use std::alloc::Global;

/// What stands before the `->`, where a lambda begins: parentheses with what stands in them, or one token.
#[tactic(auto, unfolding(java_parser_grammar::specs::ExpressionReading::lambda_parameters_at))]
fn parameters(alloc: Global, tokens: &[Token]) -> Result<(Vec<Spelled>, &[Token]), ReadError>
    ensures gives { Gives (λ x. (x.0.items, map spelled x.1.now)) result (lambda_parameters_at
        (map spelled tokens.now)) }
    ensures places { IfOk result (λ x. Leads (no_places x.0.items) (kept tokens.now) (kept x.1.now)) }
    ensures shorter { IfOk result (λ x. length x.1.now ≤ length tokens.now) }
{
    let [token, rest @ ..] = tokens else {
        return Err(ReadError::Unformed);
    };
    if is_sign(token, "(") {
        return between(alloc, Bracket::Round, tokens);
    }
    let copy = copied(alloc, token)?;
    let mut items = Vec::new(alloc);
    items.push(copy)?;
    Ok((items, rest))
}

/// A lambda with braces and the tokens in them.
fn with_block<'a>(
    alloc: Global,
    parameters: Vec<Spelled>,
    block: Vec<Spelled>,
    tokens: &'a [Token],
) -> Result<(NestedExpression, &'a [Token]), ReadError>
    ensures gives { Gives (λ x. (expr_of x.0.tree.value, map spelled x.1.now)) result (as_read
        (BlockLambda parameters.items block.items) (map spelled tokens.now)) }
    ensures places { IfOk result (λ x. (marks : Marks) → expr_places x.0.tree.value marks ≡ no_places parameters.items
        (no_places block.items marks)) }
    ensures behind { IfOk result (λ x. kept x.1.now ≡ kept tokens.now) }
    ensures small { IfOk result (λ x. x.0.nesting ≡ 1) }
    ensures shorter { IfOk result (λ x. length x.1.now ≤ length tokens.now) }
{
    let lambda = LambdaTree {
        parameters: Items::from(parameters),
        body: LambdaBody::Block(Items::from(block)),
    };
    let lambda = Box::new(alloc, lambda)?;
    NestedExpression::before(alloc, Expression::Lambda(lambda), 1, tokens)
}

/// A lambda that gives this expression, which takes all that could go on with the lambda (JLS 15.27.2).
fn with_value<'a>(
    alloc: Global,
    parameters: Vec<Spelled>,
    value: NestedExpression,
    tokens: &'a [Token],
) -> Result<(NestedExpression, &'a [Token]), ReadError>
    requires { suc value.nesting < 2 ^ 32 }
    ensures gives { Gives (λ x. (expr_of x.0.tree.value, map spelled x.1.now)) result (lambda_end
        parameters.items (expr_of value.tree.value) (map spelled tokens.now)) }
    ensures places { IfOk result (λ x. (marks : Marks) → expr_places x.0.tree.value marks ≡ no_places parameters.items
        (expr_places value.tree.value marks)) }
    ensures behind { IfOk result (λ x. kept x.1.now ≡ kept tokens.now) }
    ensures small { IfOk result (λ x. x.0.nesting ≡ suc value.nesting) }
    ensures shorter { IfOk result (λ x. length x.1.now ≤ length tokens.now) }
{
    if !ends_expression(tokens) {
        return Err(ReadError::Unformed);
    }
    let nesting = value.nesting + 1;
    let lambda = LambdaTree {
        parameters: Items::from(parameters),
        body: LambdaBody::Gives(Box::into_inner(value.tree)),
    };
    let lambda = Box::new(alloc, lambda)?;
    NestedExpression::before(alloc, Expression::Lambda(lambda), nesting, tokens)
}

/// The lambda that begins here, where one may stand.
#[cycle(expressions)]
#[tactic(auto, unfolding(java_parser_grammar::specs::ExpressionReading::read_at))]
pub fn lambda_part(
    alloc: Global,
    limit: u32,
    level: u32,
    lambdas: Lambdas,
    tokens: &[Token],
) -> Result<(NestedExpression, &[Token]), ReadError>
    requires few { length tokens.now < 2 ^ 32 }
    requires room { suc (suc limit) < 2 ^ 32 }
    requires begins { begins_lambda (map spelled tokens.now) ≡ true }
    ensures gives { Gives (λ x. (expr_of x.0.tree.value, map spelled x.1.now)) result (read_at (suc limit) (part_level
        lambdas level (map spelled tokens.now)) (map spelled tokens.now)) }
    ensures places { IfOk result (λ x. Leads (expr_places x.0.tree.value) (kept tokens.now) (kept x.1.now)) }
    ensures small { IfOk result (λ x. x.0.nesting ≤ suc limit) }
    ensures shorter { IfOk result (λ x. length x.1.now ≤ length tokens.now) }
{
    if !may_stand(lambdas, level) {
        return Err(ReadError::Unformed);
    }
    lambda(alloc, limit, tokens)
}

/// A lambda whose expression is of a nesting of at most `limit`.
#[cycle(expressions)]
#[tactic(auto, unfolding(java_parser_grammar::specs::ExpressionReading::lambda_with))]
fn lambda(
    alloc: Global,
    limit: u32,
    tokens: &[Token],
) -> Result<(NestedExpression, &[Token]), ReadError>
    requires few { length tokens.now < 2 ^ 32 }
    requires room { suc (suc limit) < 2 ^ 32 }
    ensures gives { Gives (λ x. (expr_of x.0.tree.value, map spelled x.1.now)) result (lambda_with (read_at limit
        assignment_level) (map spelled tokens.now)) }
    ensures places { IfOk result (λ x. Leads (expr_places x.0.tree.value) (kept tokens.now) (kept x.1.now)) }
    ensures small { IfOk result (λ x. x.0.nesting ≤ suc limit) }
    ensures shorter { IfOk result (λ x. length x.1.now ≤ length tokens.now) }
{
    let (parameters, rest) = parameters(alloc, tokens)?;
    let rest = sign(rest, "->")?;
    if begins_with(rest, "{") {
        let (block, rest) = braces_tokens(alloc, rest)?;
        return with_block(alloc, parameters, block, rest);
    }
    let (value, rest) = read_expression(alloc, limit, 0, rest)?;
    with_value(alloc, parameters, value, rest)
}
