//! Larger expressions, made of what was read before and behind an operator, a point or a bracket.
ghost use Rattle.std.specs.Prelude.{◌≡◌, ◌<◌, ◌≤◌, ◌^◌, suc, length, map, option_map, IfOk};
ghost use Rattle.java_tree.specs.Trees.{Assign, Conditional, Binary, InstanceOf, Postfix, Field, CallOn, Reference};
ghost use Rattle.java_tree.specs.Trees.{pack_exprs};
ghost use Rattle.java_tree.specs.Nesting.{expr_nesting};
ghost use Rattle.java_tree.specs.KeptPlaces.{Marks, kept, each_puts, expr_places, some_onto, ty_places};
ghost use Rattle.java_tree.specs.KeptPlaces.{name_places, name_or_new, types_places};
ghost use Rattle.java_tree.specs.View.{expr_of, name_of, ty_of, types_of};
ghost use Rattle.java_parser_grammar.specs.ExpressionReading.{grown, instance_with};
ghost use Rattle.java_parser_types.specs.Tokens.{spelled};
ghost use Rattle.java_parser_expressions.specs.Closings.{index_end};
ghost use Rattle.java_parser_expressions.specs.TurnView.{turn_of, turn_puts, turn_left, TurnLeadsOn};
ghost use Rattle.java_parser_expressions.specs.TurnView.{IsSmall, IsWithin};
ghost use Rattle.java_parser_types.specs.ReadAnswer.{Gives};

use super::nested::{NestedExpression, NestedExpressions, NestedReferred};
use super::progress::Progress;
use super::references::reference;
use java_lexer::Token;
use java_parser_lookahead::levels::is_within;
use java_parser_types::error::ReadError;
use java_parser_types::look::sign;
use java_parser_types::nested::{NestedExact, NestedType};
use java_parser_types::tested_types::read_tested_type;
use java_tree::{CallTree, Expression, Ident, InstanceTree, Referred};
use racer_base::Text;
use std::alloc::Global;

/// A larger expression, if it is not nested too deep.
fn grown<'a>(
    alloc: Global,
    limit: u32,
    tree: Expression,
    nesting: u32,
    tokens: &'a [Token],
) -> Result<Progress<'a>, ReadError>
    requires room { suc (suc limit) < 2 ^ 32 }
    requires measured { nesting ≡ expr_nesting (expr_of tree) }
    ensures gives { Gives turn_of result (grown limit (expr_of tree) (map spelled tokens.now)) }
    ensures places { IfOk result (λ x. (marks : Marks) → turn_puts x marks ≡ expr_places tree marks) }
    ensures behind { IfOk result (λ x. turn_left x (kept tokens.now) ≡ kept tokens.now) }
    ensures small { IfOk result (λ x. IsSmall x (suc limit)) }
    ensures shorter { IfOk result (λ x. IsWithin x (length tokens.now)) }
{
    let larger = NestedExpression::new(alloc, tree, nesting)?;
    if is_within(limit, larger.nesting) {
        Ok(Progress::Next(larger, tokens))
    } else {
        Err(ReadError::Unformed)
    }
}

/// JLS 15.26.
pub fn assigned<'a>(
    alloc: Global,
    limit: u32,
    left: NestedExpression,
    operator: &str,
    right: NestedExpression,
    tokens: &'a [Token],
) -> Result<Progress<'a>, ReadError>
    requires room { suc (suc limit) < 2 ^ 32 }
    requires left { left.nesting ≤ suc limit }
    requires right { right.nesting ≤ limit }
    ensures gives { Gives turn_of result (grown limit (Assign (expr_of left.tree.value) operator.now
        (expr_of right.tree.value))
        (map spelled tokens.now)) }
    ensures places { IfOk result (λ x. (marks : Marks) → turn_puts x marks ≡ expr_places left.tree.value (expr_places
        right.tree.value marks)) }
    ensures behind { IfOk result (λ x. turn_left x (kept tokens.now) ≡ kept tokens.now) }
    ensures small { IfOk result (λ x. IsSmall x (suc limit)) }
    ensures shorter { IfOk result (λ x. IsWithin x (length tokens.now)) }
{
    let nesting = 1 + left.nesting.max(right.nesting);
    let text = Text::from_str(alloc, operator)?;
    let tree = Expression::Assign(left.tree, text, right.tree);
    grown(alloc, limit, tree, nesting, tokens)
}

/// JLS 15.25.
pub fn chosen<'a>(
    alloc: Global,
    limit: u32,
    condition: NestedExpression,
    then: NestedExpression,
    other: NestedExpression,
    tokens: &'a [Token],
) -> Result<Progress<'a>, ReadError>
    requires room { suc (suc limit) < 2 ^ 32 }
    requires condition { condition.nesting ≤ suc limit }
    requires then { then.nesting ≤ limit }
    requires other { other.nesting ≤ limit }
    ensures gives { Gives turn_of result (grown limit (Conditional (expr_of condition.tree.value)
        (expr_of then.tree.value)
        (expr_of other.tree.value)) (map spelled tokens.now)) }
    ensures places { IfOk result (λ x. (marks : Marks) → turn_puts x marks ≡ expr_places condition.tree.value
        (expr_places then.tree.value (expr_places other.tree.value marks))) }
    ensures behind { IfOk result (λ x. turn_left x (kept tokens.now) ≡ kept tokens.now) }
    ensures small { IfOk result (λ x. IsSmall x (suc limit)) }
    ensures shorter { IfOk result (λ x. IsWithin x (length tokens.now)) }
{
    let nesting = 1 + condition.nesting.max(then.nesting.max(other.nesting));
    let tree = Expression::Conditional(condition.tree, then.tree, other.tree);
    grown(alloc, limit, tree, nesting, tokens)
}

/// JLS 15.17 to 15.24.
pub fn joined<'a>(
    alloc: Global,
    limit: u32,
    left: NestedExpression,
    operator: &str,
    right: NestedExpression,
    tokens: &'a [Token],
) -> Result<Progress<'a>, ReadError>
    requires room { suc (suc limit) < 2 ^ 32 }
    requires left { left.nesting ≤ suc limit }
    requires right { right.nesting ≤ limit }
    ensures gives { Gives turn_of result (grown limit (Binary (expr_of left.tree.value) operator.now
        (expr_of right.tree.value))
        (map spelled tokens.now)) }
    ensures places { IfOk result (λ x. (marks : Marks) → turn_puts x marks ≡ expr_places left.tree.value (expr_places
        right.tree.value marks)) }
    ensures behind { IfOk result (λ x. turn_left x (kept tokens.now) ≡ kept tokens.now) }
    ensures small { IfOk result (λ x. IsSmall x (suc limit)) }
    ensures shorter { IfOk result (λ x. IsWithin x (length tokens.now)) }
{
    let nesting = 1 + left.nesting.max(right.nesting);
    let text = Text::from_str(alloc, operator)?;
    let tree = Expression::Binary(left.tree, text, right.tree);
    grown(alloc, limit, tree, nesting, tokens)
}

/// JLS 15.20.2.
fn instance_of<'a>(
    alloc: Global,
    limit: u32,
    left: NestedExpression,
    kind: NestedType,
    tokens: &'a [Token],
) -> Result<Progress<'a>, ReadError>
    requires room { suc (suc limit) < 2 ^ 32 }
    requires left { left.nesting ≤ suc limit }
    requires kind { kind.nesting ≤ limit }
    ensures gives { Gives turn_of result (grown limit (InstanceOf (expr_of left.tree.value) (ty_of kind.tree))
        (map spelled tokens.now)) }
    ensures places { IfOk result (λ x. (marks : Marks) → turn_puts x marks ≡ expr_places left.tree.value (some_onto
        (ty_places kind.tree) marks)) }
    ensures behind { IfOk result (λ x. turn_left x (kept tokens.now) ≡ kept tokens.now) }
    ensures small { IfOk result (λ x. IsSmall x (suc limit)) }
    ensures shorter { IfOk result (λ x. IsWithin x (length tokens.now)) }
{
    let nesting = 1 + left.nesting.max(kind.nesting);
    let test = InstanceTree {
        value: Box::into_inner(left.tree),
        kind: kind.tree,
    };
    let test = Box::new(alloc, test)?;
    grown(alloc, limit, Expression::InstanceOf(test), nesting, tokens)
}

/// The type behind an `instanceof`, and the expression that it makes (JLS 15.20.2).
#[tactic(auto, unfolding(java_parser_grammar::specs::ExpressionReading::instance_with))]
pub fn tested<'a>(
    alloc: Global,
    limit: u32,
    left: NestedExpression,
    tokens: &'a [Token],
) -> Result<Progress<'a>, ReadError>
    requires few { length tokens.now < 2 ^ 32 }
    requires room { suc (suc limit) < 2 ^ 32 }
    requires left { left.nesting ≤ suc limit }
    ensures gives { Gives turn_of result (instance_with limit (expr_of left.tree.value) (map spelled tokens.now)) }
    ensures places { IfOk result (λ x. TurnLeadsOn (expr_places left.tree.value) x (kept tokens.now)) }
    ensures small { IfOk result (λ x. IsSmall x (suc limit)) }
    ensures shorter { IfOk result (λ x. IsWithin x (length tokens.now)) }
{
    let (kind, rest) = read_tested_type(alloc, limit, tokens)?;
    instance_of(alloc, limit, left, kind, rest)
}

/// JLS 15.14.
pub fn stepped<'a>(
    alloc: Global,
    limit: u32,
    left: NestedExpression,
    operator: &str,
    tokens: &'a [Token],
) -> Result<Progress<'a>, ReadError>
    requires room { suc (suc limit) < 2 ^ 32 }
    requires left { left.nesting ≤ suc limit }
    ensures gives { Gives turn_of result (grown limit (Postfix (expr_of left.tree.value) operator.now)
        (map spelled tokens.now)) }
    ensures places { IfOk result (λ x. (marks : Marks) → turn_puts x marks ≡ expr_places left.tree.value marks) }
    ensures behind { IfOk result (λ x. turn_left x (kept tokens.now) ≡ kept tokens.now) }
    ensures small { IfOk result (λ x. IsSmall x (suc limit)) }
    ensures shorter { IfOk result (λ x. IsWithin x (length tokens.now)) }
{
    let nesting = left.nesting + 1;
    let text = Text::from_str(alloc, operator)?;
    let tree = Expression::Postfix(left.tree, text);
    grown(alloc, limit, tree, nesting, tokens)
}

/// JLS 15.11.
pub fn selected<'a>(
    alloc: Global,
    limit: u32,
    left: NestedExpression,
    name: Ident,
    tokens: &'a [Token],
) -> Result<Progress<'a>, ReadError>
    requires room { suc (suc limit) < 2 ^ 32 }
    requires left { left.nesting ≤ suc limit }
    ensures gives { Gives turn_of result (grown limit (Field (expr_of left.tree.value) name.text)
        (map spelled tokens.now)) }
    ensures places { IfOk result (λ x. (marks : Marks) → turn_puts x marks ≡ expr_places left.tree.value (name_places
        name marks)) }
    ensures behind { IfOk result (λ x. turn_left x (kept tokens.now) ≡ kept tokens.now) }
    ensures small { IfOk result (λ x. IsSmall x (suc limit)) }
    ensures shorter { IfOk result (λ x. IsWithin x (length tokens.now)) }
{
    let nesting = left.nesting + 1;
    let tree = Expression::Field(left.tree, name);
    grown(alloc, limit, tree, nesting, tokens)
}

/// JLS 15.12.
pub fn called<'a>(
    alloc: Global,
    limit: u32,
    left: NestedExpression,
    types: NestedExact,
    name: Ident,
    all: NestedExpressions,
    tokens: &'a [Token],
) -> Result<Progress<'a>, ReadError>
    requires room { suc (suc limit) < 2 ^ 32 }
    requires left { left.nesting ≤ suc limit }
    requires types { types.nesting ≤ limit }
    requires all { all.nesting ≤ limit }
    ensures gives { Gives turn_of result (grown limit (CallOn (expr_of left.tree.value) (types_of types.trees
        types.glued) name.text (pack_exprs (map expr_of all.trees.items))) (map spelled tokens.now)) }
    ensures places { IfOk result (λ x. (marks : Marks) → turn_puts x marks ≡ expr_places left.tree.value (types_places
        types.trees (name_places name (each_puts (map expr_places all.trees.items) marks)))) }
    ensures behind { IfOk result (λ x. turn_left x (kept tokens.now) ≡ kept tokens.now) }
    ensures small { IfOk result (λ x. IsSmall x (suc limit)) }
    ensures shorter { IfOk result (λ x. IsWithin x (length tokens.now)) }
{
    let nesting = 1 + left.nesting.max(types.nesting.max(all.nesting));
    let glued = types.glued;
    let call = CallTree {
        receiver: Some(left.tree),
        types: types.trees,
        glued,
        name,
        arguments: all.trees,
    };
    let call = Box::new(alloc, call)?;
    grown(alloc, limit, Expression::Call(call), nesting, tokens)
}

/// JLS 15.13.
pub fn referred<'a>(
    alloc: Global,
    limit: u32,
    left: NestedExpression,
    to: NestedReferred,
    tokens: &'a [Token],
) -> Result<Progress<'a>, ReadError>
    requires room { suc (suc limit) < 2 ^ 32 }
    requires left { left.nesting ≤ suc limit }
    requires to { to.types.nesting ≤ limit }
    ensures gives { Gives turn_of result (grown limit (Reference (expr_of left.tree.value)
        (types_of to.types.trees to.types.glued) (option_map name_of to.name)) (map spelled tokens.now)) }
    ensures places { IfOk result (λ x. (marks : Marks) → turn_puts x marks ≡ expr_places left.tree.value
        (types_places to.types.trees (name_or_new to.name marks))) }
    ensures behind { IfOk result (λ x. turn_left x (kept tokens.now) ≡ kept tokens.now) }
    ensures small { IfOk result (λ x. IsSmall x (suc limit)) }
    ensures shorter { IfOk result (λ x. IsWithin x (length tokens.now)) }
{
    let nesting = 1 + left.nesting.max(to.types.nesting);
    let tree = reference(alloc, Referred::Of(Box::into_inner(left.tree)), to)?;
    grown(alloc, limit, tree, nesting, tokens)
}

/// With the `]` in front (JLS 15.10.3).
pub fn indexed<'a>(
    alloc: Global,
    limit: u32,
    left: NestedExpression,
    index: NestedExpression,
    tokens: &'a [Token],
) -> Result<Progress<'a>, ReadError>
    requires room { suc (suc limit) < 2 ^ 32 }
    requires left { left.nesting ≤ suc limit }
    requires index { index.nesting ≤ limit }
    ensures gives { Gives turn_of result (index_end limit (expr_of left.tree.value)
        (expr_of index.tree.value) (map spelled tokens.now)) }
    ensures places { IfOk result (λ x. (marks : Marks) → turn_puts x marks ≡ expr_places left.tree.value (expr_places
        index.tree.value marks)) }
    ensures behind { IfOk result (λ x. turn_left x (kept tokens.now) ≡ kept tokens.now) }
    ensures small { IfOk result (λ x. IsSmall x (suc limit)) }
    ensures shorter { IfOk result (λ x. IsWithin x (length tokens.now)) }
{
    let rest = sign(tokens, "]")?;
    let nesting = 1 + left.nesting.max(index.nesting);
    let tree = Expression::Index(left.tree, index.tree);
    grown(alloc, limit, tree, nesting, rest)
}
