//! Reading what stands behind a `new` (JLS 15.9, 15.10).
ghost use Rattle.std.specs.Prelude.{◌≡◌, ◌<◌, ◌≤◌, ◌^◌, suc, [], ◌∷◌, ◌++◌, length, map, IfOk};
ghost use Rattle.java_tree.specs.KeptPlaces.{Places, kept, base_places, expr_places};
ghost use Rattle.java_tree.specs.Operators.{assignment_level};
ghost use Rattle.java_tree.specs.View.{base_of, expr_of};
ghost use Rattle.java_parser_grammar.specs.TypeReading.{made_base_at};
ghost use Rattle.java_parser_grammar.specs.ExpressionReading.{lengths_with, new_array_with, new_items_with};
ghost use Rattle.java_parser_grammar.specs.ExpressionReading.{new_object_with, new_with, read_at, array_at};
ghost use Rattle.java_parser_types.specs.Tokens.{spelled};
ghost use Rattle.java_parser_types.specs.Finishing.{finished};
ghost use Rattle.java_parser_types.specs.Endings.{lengths_end};
ghost use Rattle.java_parser_types.specs.LedPlaces.{Leads};
ghost use Rattle.java_parser_types.specs.ReadAnswer.{Gives};

use super::arguments::call_arguments;
use super::expressions::read_expression;
use super::initialisers::read_array;
use super::lists::{length_behind, lengths_end};
use super::nested::{NestedExpression, NestedExpressions, push_tree};
use super::operands::{array_of_items, is_named, new_base, object, object_with_body};
use java_lexer::Token;
use java_parser_lookahead::brackets::braces_tokens;
use java_parser_lookahead::lookahead::begins_with;
use java_parser_types::error::ReadError;
use java_parser_types::look::{after_brackets, after_sign, brackets, sign};
use java_parser_types::made_types::has_diamond;
use java_parser_types::nested::NestedBase;
use racer_base::Place;
use std::alloc::Global;

/// What stands behind a `new` (JLS 15.9, 15.10). The place is that of the `new`.
#[cycle(expressions)]
#[tactic(auto, unfolding(java_parser_grammar::specs::ExpressionReading::new_with))]
pub fn creation(
    alloc: Global,
    limit: u32,
    place: Place,
    tokens: &[Token],
) -> Result<(NestedExpression, &[Token]), ReadError>
    requires few { length tokens.now < 2 ^ 32 }
    requires room { suc (suc limit) < 2 ^ 32 }
    ensures gives { Gives (λ x. (expr_of x.0.tree.value, map spelled x.1.now)) result (new_with (read_at limit)
        (made_base_at limit) (array_at limit) (map spelled tokens.now)) }
    ensures places { IfOk result (λ x. Leads (expr_places x.0.tree.value) (place ∷ kept tokens.now) (kept x.1.now)) }
    ensures small { IfOk result (λ x. x.0.nesting ≤ suc limit) }
    ensures shorter { IfOk result (λ x. length x.1.now ≤ length tokens.now) }
{
    let (base, rest) = new_base(alloc, limit, tokens)?;
    if let Some(inside) = after_sign(rest, "(") {
        return new_object(alloc, limit, place, base, inside);
    }
    if has_diamond(&base.tree) {
        return Err(ReadError::Unformed);
    }
    match after_brackets(rest) {
        Some(behind) => new_items(alloc, limit, place, base, behind),
        None => new_array(alloc, limit, place, base, rest),
    }
}

/// An object of this class, behind its `(`; the body of a class of its own may stand behind the `)` (JLS 15.9, 15.9.5).
#[cycle(expressions)]
#[tactic(auto, unfolding(java_parser_grammar::specs::ExpressionReading::new_object_with))]
fn new_object(
    alloc: Global,
    limit: u32,
    place: Place,
    base: Box<NestedBase>,
    tokens: &[Token],
) -> Result<(NestedExpression, &[Token]), ReadError>
    requires few { length tokens.now < 2 ^ 32 }
    requires room { suc (suc limit) < 2 ^ 32 }
    requires base { base.value.nesting < limit }
    ensures gives { Gives (λ x. (expr_of x.0.tree.value, map spelled x.1.now)) result (new_object_with (read_at limit)
        (base_of base.value.tree) (map spelled tokens.now)) }
    ensures places { IfOk result (λ x. Leads (expr_places x.0.tree.value) (place ∷ (base_places base.value.tree
        ++ kept tokens.now)) (kept x.1.now)) }
    ensures small { IfOk result (λ x. x.0.nesting ≤ suc limit) }
    ensures shorter { IfOk result (λ x. length x.1.now ≤ length tokens.now) }
{
    if !is_named(&base.tree) {
        return Err(ReadError::Unformed);
    }
    let (all, rest) = call_arguments(alloc, limit, tokens)?;
    if !begins_with(rest, "{") {
        return object(alloc, place, base, all, rest);
    }
    let (body, rest) = braces_tokens(alloc, rest)?;
    object_with_body(alloc, place, base, all, body, rest)
}

/// An array of lengths (JLS 15.10.1).
#[cycle(expressions)]
#[tactic(auto, unfolding(java_parser_grammar::specs::ExpressionReading::new_array_with))]
fn new_array(
    alloc: Global,
    limit: u32,
    place: Place,
    base: Box<NestedBase>,
    tokens: &[Token],
) -> Result<(NestedExpression, &[Token]), ReadError>
    requires few { length tokens.now < 2 ^ 32 }
    requires room { suc (suc limit) < 2 ^ 32 }
    requires base { base.value.nesting < limit }
    ensures gives { Gives (λ x. (expr_of x.0.tree.value, map spelled x.1.now)) result
        (new_array_with (read_at limit assignment_level) (base_of base.value.tree) (map spelled tokens.now)) }
    ensures places { IfOk result (λ x. Leads (expr_places x.0.tree.value) (place ∷ (base_places base.value.tree
        ++ kept tokens.now)) (kept x.1.now)) }
    ensures small { IfOk result (λ x. x.0.nesting ≤ suc limit) }
    ensures shorter { IfOk result (λ x. length x.1.now ≤ length tokens.now) }
{
    let inside = sign(tokens, "[")?;
    let (first, rest) = read_expression(alloc, limit, 0, inside)?;
    let rest = sign(rest, "]")?;
    lengths(alloc, limit, place, base, first, rest)
}

/// This length and others, each in brackets, and the empty `[ ]`.
#[cycle(expressions)]
fn lengths(
    alloc: Global,
    limit: u32,
    place: Place,
    base: Box<NestedBase>,
    first: NestedExpression,
    tokens: &[Token],
) -> Result<(NestedExpression, &[Token]), ReadError>
    requires few { length tokens.now < 2 ^ 32 }
    requires room { suc (suc limit) < 2 ^ 32 }
    requires base { base.value.nesting < limit }
    requires first { first.nesting ≤ limit }
    ensures gives { Gives (λ x. (expr_of x.0.tree.value, map spelled x.1.now)) result
        (finished (lengths_end (base_of base.value.tree)) (expr_of first.tree.value ∷ [])
        (lengths_with (read_at limit assignment_level) (length (map spelled tokens.now)) (map spelled tokens.now))) }
    ensures places { IfOk result (λ x. (start : Places) → Leads (expr_places first.tree.value) start (kept tokens.now)
        → Leads (expr_places x.0.tree.value) (place ∷ (base_places base.value.tree ++ start)) (kept x.1.now)) }
    ensures small { IfOk result (λ x. x.0.nesting ≤ suc limit) }
    ensures shorter { IfOk result (λ x. length x.1.now ≤ length tokens.now) }
{
    let mut trees = Vec::new(alloc);
    let mut nesting = first.nesting;
    push_tree(&mut trees, first.tree)?;
    let mut rest = tokens;
    for _ in 0..tokens.len() {
        let Some(inside) = length_behind(rest) else {
            break;
        };
        let (next, behind) = read_expression(alloc, limit, 0, inside)?;
        let behind = sign(behind, "]")?;
        nesting = nesting.max(next.nesting);
        push_tree(&mut trees, next.tree)?;
        rest = behind;
    }
    let all = NestedExpressions { trees, nesting };
    lengths_end(alloc, place, base, all, rest)
}

/// An array of items, behind the first `[ ]` (JLS 15.10.1).
#[cycle(expressions)]
#[tactic(auto, unfolding(java_parser_grammar::specs::ExpressionReading::new_items_with))]
fn new_items(
    alloc: Global,
    limit: u32,
    place: Place,
    base: Box<NestedBase>,
    tokens: &[Token],
) -> Result<(NestedExpression, &[Token]), ReadError>
    requires few { length tokens.now < 2 ^ 32 }
    requires room { suc (suc limit) < 2 ^ 32 }
    requires base { base.value.nesting < limit }
    requires more { suc (length tokens.now) < 2 ^ 32 }
    ensures gives { Gives (λ x. (expr_of x.0.tree.value, map spelled x.1.now)) result (new_items_with (array_at limit)
        (base_of base.value.tree) (map spelled tokens.now)) }
    ensures places { IfOk result (λ x. Leads (expr_places x.0.tree.value) (place ∷ (base_places base.value.tree
        ++ kept tokens.now)) (kept x.1.now)) }
    ensures small { IfOk result (λ x. x.0.nesting ≤ suc limit) }
    ensures shorter { IfOk result (λ x. length x.1.now ≤ length tokens.now) }
{
    let (more, rest) = brackets(tokens);
    let (items, rest) = read_array(alloc, limit, rest)?;
    array_of_items(alloc, place, base, more, items, rest)
}
