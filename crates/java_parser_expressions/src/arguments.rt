//! Reading the arguments of a call (JLS 15.12).
ghost use Rattle.std.specs.Prelude.{◌≡◌, ◌<◌, ◌≤◌, ◌^◌, suc, [], ◌∷◌, length, map, IfOk};
ghost use Rattle.java_tree.specs.KeptPlaces.{kept, each_puts, expr_places};
ghost use Rattle.java_tree.specs.Operators.{assignment_level};
ghost use Rattle.java_tree.specs.View.{expr_of};
ghost use Rattle.java_parser_grammar.specs.Taking.{commas};
ghost use Rattle.java_parser_grammar.specs.ExpressionReading.{call_arguments_with, read_at};
ghost use Rattle.java_parser_types.specs.Tokens.{spelled};
ghost use Rattle.java_parser_types.specs.Finishing.{finished};
ghost use Rattle.java_parser_types.specs.Endings.{call_end};
ghost use Rattle.java_parser_types.specs.LedPlaces.{Leads, LeadsOn};
ghost use Rattle.java_parser_types.specs.ReadAnswer.{Gives};

use super::expressions::read_expression;
use super::lists::{call_end, no_arguments};
use super::nested::{NestedExpression, NestedExpressions, push_tree};
use java_lexer::Token;
use java_parser_types::error::ReadError;
use java_parser_types::look::after_sign;
use std::alloc::Global;

/// The arguments of a call behind its `(`, and the `)` (JLS 15.12).
#[cycle(expressions)]
#[tactic(auto, unfolding(java_parser_grammar::specs::ExpressionReading::call_arguments_with))]
pub fn call_arguments(
    alloc: Global,
    limit: u32,
    tokens: &[Token],
) -> Result<(NestedExpressions, &[Token]), ReadError>
    requires few { length tokens.now < 2 ^ 32 }
    requires room { suc (suc limit) < 2 ^ 32 }
    ensures gives { Gives (λ x. (map expr_of x.0.trees.items, map spelled x.1.now)) result (call_arguments_with
        (read_at limit) (map spelled tokens.now)) }
    ensures places { IfOk result (λ x. Leads (each_puts (map expr_places x.0.trees.items)) (kept tokens.now)
        (kept x.1.now)) }
    ensures small { IfOk result (λ x. x.0.nesting ≤ limit) }
    ensures shorter { IfOk result (λ x. length x.1.now ≤ length tokens.now) }
{
    if let Some(rest) = after_sign(tokens, ")") {
        return Ok((no_arguments(alloc), rest));
    }
    let (first, rest) = read_expression(alloc, limit, 0, tokens)?;
    arguments(alloc, limit, first, rest)
}

/// This argument and others, each behind a comma, and the `)`.
#[cycle(expressions)]
fn arguments(
    alloc: Global,
    limit: u32,
    first: NestedExpression,
    tokens: &[Token],
) -> Result<(NestedExpressions, &[Token]), ReadError>
    requires few { length tokens.now < 2 ^ 32 }
    requires room { suc (suc limit) < 2 ^ 32 }
    requires first { first.nesting ≤ limit }
    ensures gives { Gives (λ x. (map expr_of x.0.trees.items, map spelled x.1.now)) result (finished call_end
        (expr_of first.tree.value ∷ []) (commas (read_at limit assignment_level) (length (map spelled tokens.now))
        (map spelled tokens.now))) }
    ensures places { IfOk result (λ x. LeadsOn (expr_places first.tree.value)
        (each_puts (map expr_places x.0.trees.items)) (kept tokens.now) (kept x.1.now)) }
    ensures small { IfOk result (λ x. x.0.nesting ≤ limit) }
    ensures shorter { IfOk result (λ x. length x.1.now ≤ length tokens.now) }
{
    let mut trees = Vec::new(alloc);
    let mut nesting = first.nesting;
    push_tree(&mut trees, first.tree)?;
    let mut rest = tokens;
    for _ in 0..tokens.len() {
        let Some(after) = after_sign(rest, ",") else {
            break;
        };
        let (next, after) = read_expression(alloc, limit, 0, after)?;
        nesting = nesting.max(next.nesting);
        push_tree(&mut trees, next.tree)?;
        rest = after;
    }
    call_end(trees, nesting, rest)
}
