//! Reading array initialisers (JLS 10.6) and what a variable begins with (JLS 8.3).
ghost use Rattle.std.specs.Prelude.{◌≡◌, ◌<◌, ◌≤◌, ◌^◌, suc, [], ◌∷◌, length, map, IfOk};
ghost use Rattle.java_tree.specs.KeptPlaces.{kept, init_places, array_places};
ghost use Rattle.java_tree.specs.View.{init_of, array_of};
ghost use Rattle.java_parser_grammar.specs.ExpressionReading.{items_with, braces_with, array_at, init_at};
ghost use Rattle.java_parser_types.specs.Tokens.{spelled};
ghost use Rattle.java_parser_types.specs.Endings.{items_end};
ghost use Rattle.java_parser_types.specs.LedPlaces.{Leads, LeadsOn};
ghost use Rattle.java_parser_types.specs.ReadAnswer.{Gives};

use super::expressions::read_expression;
use super::lists::{expression_value, item_behind, items_end, items_value, no_items};
use super::nested::{NestedArray, NestedInitialiser, push_tree};
use java_lexer::Token;
use java_parser_types::error::ReadError;
use java_parser_types::look::{after_sign, sign};
use std::alloc::Global;

/// An array initialiser of a nesting of at most `limit` (JLS 10.6).
#[cycle(expressions)]
#[tactic(auto, unfolding(java_parser_grammar::specs::ExpressionReading::array_at))]
pub fn read_array(
    alloc: Global,
    limit: u32,
    tokens: &[Token],
) -> Result<(NestedArray, &[Token]), ReadError>
    requires few { length tokens.now < 2 ^ 32 }
    requires room { suc (suc limit) < 2 ^ 32 }
    ensures gives { Gives (λ x. (array_of x.0.tree, map spelled x.1.now)) result
        (array_at limit (map spelled tokens.now)) }
    ensures places { IfOk result (λ x. Leads (array_places x.0.tree) (kept tokens.now) (kept x.1.now)) }
    ensures small { IfOk result (λ x. x.0.nesting ≤ limit) }
    ensures shorter { IfOk result (λ x. length x.1.now ≤ length tokens.now) }
{
    if limit == 0 {
        return Err(ReadError::Unformed);
    }
    braces(alloc, limit - 1, tokens)
}

/// Items of a nesting of at most `limit` and their braces.
#[cycle(expressions)]
#[tactic(auto, unfolding(java_parser_grammar::specs::ExpressionReading::braces_with))]
fn braces(alloc: Global, limit: u32, tokens: &[Token]) -> Result<(NestedArray, &[Token]), ReadError>
    requires few { length tokens.now < 2 ^ 32 }
    requires room { suc (suc limit) < 2 ^ 32 }
    ensures gives { Gives (λ x. (array_of x.0.tree, map spelled x.1.now)) result (braces_with (init_at limit)
        (map spelled tokens.now)) }
    ensures places { IfOk result (λ x. Leads (array_places x.0.tree) (kept tokens.now) (kept x.1.now)) }
    ensures small { IfOk result (λ x. x.0.nesting ≤ suc limit) }
    ensures shorter { IfOk result (λ x. length x.1.now ≤ length tokens.now) }
{
    let rest = sign(tokens, "{")?;
    if let Some(end) = after_sign(rest, "}") {
        return Ok((no_items(alloc), end));
    }
    let (first, rest) = read_initialiser(alloc, limit, rest)?;
    items(alloc, limit, first, rest)
}

/// This item and others, each behind a comma, and the `}`.
#[cycle(expressions)]
fn items(
    alloc: Global,
    limit: u32,
    first: NestedInitialiser,
    tokens: &[Token],
) -> Result<(NestedArray, &[Token]), ReadError>
    requires few { length tokens.now < 2 ^ 32 }
    requires room { suc (suc limit) < 2 ^ 32 }
    requires first { first.nesting ≤ limit }
    ensures gives { Gives (λ x. (array_of x.0.tree, map spelled x.1.now)) result (items_end
        (init_of first.tree.value ∷ [])
        (items_with (init_at limit) (length (map spelled tokens.now)) (map spelled tokens.now))) }
    ensures places { IfOk result (λ x. LeadsOn (init_places first.tree.value) (array_places x.0.tree)
        (kept tokens.now) (kept x.1.now)) }
    ensures small { IfOk result (λ x. x.0.nesting ≤ suc limit) }
    ensures shorter { IfOk result (λ x. length x.1.now ≤ length tokens.now) }
{
    let mut items = Vec::new(alloc);
    let mut nesting = first.nesting;
    push_tree(&mut items, first.tree)?;
    let mut rest = tokens;
    for _ in 0..tokens.len() {
        let Some(after) = item_behind(rest) else {
            return items_end(items, nesting, rest);
        };
        let (next, after) = read_initialiser(alloc, limit, after)?;
        nesting = nesting.max(next.nesting);
        push_tree(&mut items, next.tree)?;
        rest = after;
    }
    Err(ReadError::Unformed)
}

/// An expression or an array initialiser of a nesting of at most `limit` (JLS 8.3, 10.6).
#[cycle(expressions)]
pub fn read_initialiser(
    alloc: Global,
    limit: u32,
    tokens: &[Token],
) -> Result<(NestedInitialiser, &[Token]), ReadError>
    requires few { length tokens.now < 2 ^ 32 }
    requires room { suc (suc limit) < 2 ^ 32 }
    ensures gives { Gives (λ x. (init_of x.0.tree.value, map spelled x.1.now)) result
        (init_at limit (map spelled tokens.now)) }
    ensures places { IfOk result (λ x. Leads (init_places x.0.tree.value) (kept tokens.now) (kept x.1.now)) }
    ensures small { IfOk result (λ x. x.0.nesting ≤ limit) }
    ensures shorter { IfOk result (λ x. length x.1.now ≤ length tokens.now) }
{
    if after_sign(tokens, "{").is_some() {
        let (items, rest) = read_array(alloc, limit, tokens)?;
        return items_value(alloc, items, rest);
    }
    let (value, rest) = read_expression(alloc, limit, 0, tokens)?;
    expression_value(alloc, value, rest)
}
