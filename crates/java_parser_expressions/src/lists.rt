//! Lists in expressions, at their end: arguments, lengths and items of arrays.
ghost use Rattle.std.specs.Prelude.{◌≡◌, ◌<◌, ◌≤◌, ◌^◌, suc, max, false, [], ◌∷◌, Some, None, MatchOption};
ghost use Rattle.std.specs.Prelude.{length, map, IfSome, IfOk};
ghost use Rattle.java_tree.specs.KeptPlaces.{Marks, kept, each_puts, some_onto, base_places, expr_places};
ghost use Rattle.java_tree.specs.KeptPlaces.{init_places, array_places};
ghost use Rattle.java_tree.specs.Nesting.{exprs_nesting, inits_nesting};
ghost use Rattle.java_tree.specs.Trees.{Braces, Value, Items, no_init, pack_exprs, pack_inits};
ghost use Rattle.java_tree.specs.View.{ty_of, base_of, expr_of, init_of, array_of};
ghost use Rattle.java_parser_types.specs.Tokens.{spelled};
ghost use Rattle.java_parser_types.specs.Endings.{call_end, lengths_end, length_behind, item_behind, items_close};
ghost use Rattle.java_parser_types.specs.Endings.{items_end};
ghost use Rattle.java_parser_expressions.specs.Closings.{as_read, items_closed};
ghost use Rattle.java_parser_types.specs.ReadAnswer.{Gives};

use super::nested::{NestedArray, NestedExpression, NestedExpressions, NestedInitialiser};
use super::operands::{created, element};
use java_lexer::Token;
use java_parser_types::error::ReadError;
use java_parser_types::look::{after_brackets, after_sign, brackets, sign};
use java_parser_types::nested::NestedBase;
use java_tree::{ArrayTree, Expression, Initialiser, Made};
use racer_base::Place;
use std::alloc::Global;

/// These arguments, and the `)` behind them (JLS 15.12).
pub fn call_end(
    trees: Vec<Expression>,
    nesting: u32,
    tokens: &[Token],
) -> Result<(NestedExpressions, &[Token]), ReadError>
    requires measured { nesting ≡ exprs_nesting (pack_exprs (map expr_of trees.items)) }
    ensures gives { Gives (λ x. (map expr_of x.0.trees.items, map spelled x.1.now)) result
        (call_end (map expr_of trees.items, map spelled tokens.now)) }
    ensures places { IfOk result (λ x. (marks : Marks) → each_puts (map expr_places x.0.trees.items) marks ≡ each_puts
        (map expr_places trees.items) marks) }
    ensures behind { IfOk result (λ x. kept x.1.now ≡ kept tokens.now) }
    ensures small { IfOk result (λ x. x.0.nesting ≡ nesting) }
    ensures shorter { IfOk result (λ x. length x.1.now ≤ length tokens.now) }
{
    let rest = sign(tokens, ")")?;
    Ok((NestedExpressions { trees, nesting }, rest))
}

/// No arguments.
pub fn no_arguments(alloc: Global) -> NestedExpressions
    ensures gives { map expr_of result.trees.items ≡ [] }
    ensures places { (rest : Marks) → each_puts (map expr_places result.trees.items) rest ≡ rest }
    ensures small { result.nesting ≡ 0 }
{
    let trees = Vec::new(alloc);
    NestedExpressions { trees, nesting: 0 }
}

/// The tokens behind the `[` of one more length, where one stands in front (JLS 15.10.1).
pub fn length_behind(tokens: &[Token]) -> Option<&[Token]>
    ensures gives { MatchOption result (length_behind (map spelled tokens.now) ≡ None) (λ rest. length_behind
        (map spelled tokens.now) ≡ Some (map spelled rest.now)) }
    ensures places { IfSome result (λ rest. kept rest.now ≡ kept tokens.now) }
    ensures shorter { IfSome result (λ rest. length rest.now < length tokens.now) }
{
    if after_brackets(tokens).is_some() {
        return None;
    }
    after_sign(tokens, "[")
}

/// An array of these lengths, and the `[ ]` behind them (JLS 15.10.1).
pub fn lengths_end(
    alloc: Global,
    place: Place,
    base: Box<NestedBase>,
    lengths: NestedExpressions,
    tokens: &[Token],
) -> Result<(NestedExpression, &[Token]), ReadError>
    requires few { length tokens.now < 2 ^ 32 }
    requires base { suc (suc base.value.nesting) < 2 ^ 32 }
    requires lengths { suc lengths.nesting < 2 ^ 32 }
    ensures gives { Gives (λ x. (expr_of x.0.tree.value, map spelled x.1.now)) result (lengths_end
        (base_of base.value.tree)
        (map expr_of lengths.trees.items, map spelled tokens.now)) }
    ensures places { IfOk result (λ x. (marks : Marks) → expr_places x.0.tree.value marks ≡ Some place ∷ some_onto
        (base_places base.value.tree) (each_puts (map expr_places lengths.trees.items) marks)) }
    ensures behind { IfOk result (λ x. kept x.1.now ≡ kept tokens.now) }
    ensures small { IfOk result (λ x. x.0.nesting ≡ suc (max (suc base.value.nesting) lengths.nesting)) }
    ensures shorter { IfOk result (λ x. length x.1.now ≤ length tokens.now) }
{
    let kind = element(base);
    let nesting = 1 + kind.nesting.max(lengths.nesting);
    let (arrays, rest) = brackets(tokens);
    let made = Made::Array(lengths.trees, arrays);
    created(alloc, place, kind.tree, made, nesting, rest)
}

/// An array initialiser of these items (JLS 10.6).
fn braced(items: Vec<Initialiser>, nesting: u32, last_comma: bool) -> NestedArray
    requires measured { nesting ≡ inits_nesting (pack_inits (map init_of items.items)) }
    requires room { suc nesting < 2 ^ 32 }
    ensures gives { array_of result.tree ≡ Braces (pack_inits (map init_of items.items)) last_comma }
    ensures places { (rest : Marks) → array_places result.tree rest ≡ each_puts (map init_places items.items) rest }
    ensures small { result.nesting ≡ suc nesting }
{
    let tree = ArrayTree { items, last_comma };
    let nesting = nesting + 1;
    NestedArray { tree, nesting }
}

/// No items.
pub fn no_items(alloc: Global) -> NestedArray
    ensures gives { array_of result.tree ≡ Braces no_init false }
    ensures places { (rest : Marks) → array_places result.tree rest ≡ rest }
    ensures small { result.nesting ≡ 1 }
{
    braced(Vec::new(alloc), 0, false)
}

/// The tokens behind the comma before one more item, where one stands there.
pub fn item_behind(tokens: &[Token]) -> Option<&[Token]>
    ensures gives { MatchOption result (item_behind (map spelled tokens.now) ≡ None) (λ rest. item_behind
        (map spelled tokens.now) ≡ Some (map spelled rest.now)) }
    ensures places { IfSome result (λ rest. kept rest.now ≡ kept tokens.now) }
    ensures shorter { IfSome result (λ rest. length rest.now < length tokens.now) }
{
    let after = after_sign(tokens, ",")?;
    if after_sign(after, "}").is_some() {
        return None;
    }
    Some(after)
}

/// Whether a last comma stands in front, and the tokens behind it.
fn last_comma(tokens: &[Token]) -> (bool, &[Token])
    ensures gives { items_close (map spelled tokens.now) ≡ items_closed result.0 (map spelled result.1.now) }
    ensures places { kept result.1.now ≡ kept tokens.now }
    ensures shorter { length result.1.now ≤ length tokens.now }
{
    match after_sign(tokens, ",") {
        Some(after) => (true, after),
        None => (false, tokens),
    }
}

/// An array initialiser of these items, with or without a last comma, and its `}`.
pub fn items_end(
    items: Vec<Initialiser>,
    nesting: u32,
    tokens: &[Token],
) -> Result<(NestedArray, &[Token]), ReadError>
    requires measured { nesting ≡ inits_nesting (pack_inits (map init_of items.items)) }
    requires room { suc nesting < 2 ^ 32 }
    ensures gives { Gives (λ x. (array_of x.0.tree, map spelled x.1.now)) result (items_end (map init_of items.items)
        (items_close (map spelled tokens.now))) }
    ensures places { IfOk result (λ x. (marks : Marks) → array_places x.0.tree marks ≡ each_puts (map init_places
        items.items) marks) }
    ensures behind { IfOk result (λ x. kept x.1.now ≡ kept tokens.now) }
    ensures small { IfOk result (λ x. x.0.nesting ≡ suc nesting) }
    ensures shorter { IfOk result (λ x. length x.1.now ≤ length tokens.now) }
{
    let (last_comma, close) = last_comma(tokens);
    let rest = sign(close, "}")?;
    Ok((braced(items, nesting, last_comma), rest))
}

/// An array initialiser as what a variable begins with (JLS 8.3).
pub fn items_value(
    alloc: Global,
    items: NestedArray,
    tokens: &[Token],
) -> Result<(NestedInitialiser, &[Token]), ReadError>
    ensures gives { Gives (λ x. (init_of x.0.tree.value, map spelled x.1.now)) result (as_read
        (Items (array_of items.tree)) (map spelled tokens.now)) }
    ensures places { IfOk result (λ x. (marks : Marks) → init_places x.0.tree.value marks ≡ array_places items.tree
        marks) }
    ensures behind { IfOk result (λ x. kept x.1.now ≡ kept tokens.now) }
    ensures small { IfOk result (λ x. x.0.nesting ≡ items.nesting) }
    ensures shorter { IfOk result (λ x. length x.1.now ≤ length tokens.now) }
{
    let nesting = items.nesting;
    let tree = Initialiser::Items(items.tree);
    NestedInitialiser::before(alloc, tree, nesting, tokens)
}

/// An expression as what a variable begins with (JLS 8.3).
pub fn expression_value(
    alloc: Global,
    value: NestedExpression,
    tokens: &[Token],
) -> Result<(NestedInitialiser, &[Token]), ReadError>
    ensures gives { Gives (λ x. (init_of x.0.tree.value, map spelled x.1.now)) result (as_read
        (Value (expr_of value.tree.value)) (map spelled tokens.now)) }
    ensures places { IfOk result (λ x. (marks : Marks) → init_places x.0.tree.value marks ≡ expr_places
        value.tree.value marks) }
    ensures behind { IfOk result (λ x. kept x.1.now ≡ kept tokens.now) }
    ensures small { IfOk result (λ x. x.0.nesting ≡ value.nesting) }
    ensures shorter { IfOk result (λ x. length x.1.now ≤ length tokens.now) }
{
    let nesting = value.nesting;
    let tree = Initialiser::Value(Box::into_inner(value.tree));
    NestedInitialiser::before(alloc, tree, nesting, tokens)
}
