//! Expressions with no expression at their left, made of what was read in them.
ghost use Rattle.std.specs.Prelude.{◌≡◌, ◌<◌, ◌≤◌, ◌^◌, suc, max, ◌∷◌, ◌++◌, Some, None, not, ◌||◌, if◌then◌else◌};
ghost use Rattle.std.specs.Prelude.{length, map, codes, IfOk};
ghost use Rattle.java_tree.specs.Formed.{is_named, is_variable};
ghost use Rattle.java_tree.specs.Operators.{is_step};
ghost use Rattle.java_tree.specs.Trees.{Typed, Cast, Literal, This, Name, Call, New, NewBody, NewItems, pack_exprs};
ghost use Rattle.java_tree.specs.KeptPlaces.{Marks, kept, all_places, each_puts, some_onto, no_places, types_places};
ghost use Rattle.java_tree.specs.KeptPlaces.{ty_places, base_places, expr_places, array_places, made_places};
ghost use Rattle.java_tree.specs.Nesting.{expr_nesting};
ghost use Rattle.java_tree.specs.View.{ty_of, base_of, expr_of, array_of, made_of};
ghost use Rattle.java_parser_grammar.specs.TypeReading.{between_each, ty_at, made_base_at};
ghost use Rattle.java_parser_expressions.specs.Closings.{paren_end, as_read};
ghost use Rattle.java_parser_types.specs.Endings.{prefix_end};
ghost use Rattle.java_parser_types.specs.Tokens.{spelled};
ghost use Rattle.java_parser_types.specs.ReadAnswer.{Gives};

use super::nested::{NestedArray, NestedExpression, NestedExpressions};
use java_lexer::Token;
use java_parser_lookahead::leads::is_step;
use java_parser_lookahead::levels::is_variable;
use java_parser_types::error::ReadError;
use java_parser_types::look::{ident, sign};
use java_parser_types::made_types::made_base;
use java_parser_types::nested::{NestedBase, NestedType, NestedTypes};
use java_parser_types::type_lists::types_between;
use java_tree::{BaseType, CallTree, CastTree, Expression, Made, NewTree, Spelled, TypeTree};
use racer_base::{Items, Place, Text};
use std::alloc::Global;

/// JLS 15.8.1.
pub fn literal<'a>(
    alloc: Global,
    token: &Token,
    tokens: &'a [Token],
) -> Result<(NestedExpression, &'a [Token]), ReadError>
    ensures gives { Gives (λ x. (expr_of x.0.tree.value, map spelled x.1.now)) result (as_read
        (Literal token.now.kind token.now.text) (map spelled tokens.now)) }
    ensures places { IfOk result (λ x. (marks : Marks) → expr_places x.0.tree.value marks ≡ marks) }
    ensures behind { IfOk result (λ x. kept x.1.now ≡ kept tokens.now) }
    ensures small { IfOk result (λ x. x.0.nesting ≡ 1) }
    ensures shorter { IfOk result (λ x. length x.1.now ≤ length tokens.now) }
{
    let text = Text::from_str(alloc, token.text.as_str())?;
    let tree = Expression::Literal(token.kind, text);
    NestedExpression::before(alloc, tree, 1, tokens)
}

/// JLS 15.8.3.
pub fn this(alloc: Global, tokens: &[Token]) -> Result<(NestedExpression, &[Token]), ReadError>
    ensures gives { Gives (λ x. (expr_of x.0.tree.value, map spelled x.1.now)) result (as_read
        This (map spelled tokens.now)) }
    ensures places { IfOk result (λ x. (marks : Marks) → expr_places x.0.tree.value marks ≡ marks) }
    ensures behind { IfOk result (λ x. kept x.1.now ≡ kept tokens.now) }
    ensures small { IfOk result (λ x. x.0.nesting ≡ 1) }
    ensures shorter { IfOk result (λ x. length x.1.now ≤ length tokens.now) }
{
    NestedExpression::before(alloc, Expression::This, 1, tokens)
}

/// JLS 15.14.1.
pub fn variable<'a>(
    alloc: Global,
    token: &Token,
    tokens: &'a [Token],
) -> Result<(NestedExpression, &'a [Token]), ReadError>
    ensures gives { Gives (λ x. (expr_of x.0.tree.value, map spelled x.1.now)) result (as_read
        (Name token.now.text) (map spelled tokens.now)) }
    ensures places { IfOk result (λ x. (marks : Marks) → expr_places x.0.tree.value marks
        ≡ Some token.now.place ∷ marks) }
    ensures behind { IfOk result (λ x. kept x.1.now ≡ kept tokens.now) }
    ensures small { IfOk result (λ x. x.0.nesting ≡ 1) }
    ensures shorter { IfOk result (λ x. length x.1.now ≤ length tokens.now) }
{
    let tree = Expression::Name(ident(alloc, token)?);
    NestedExpression::before(alloc, tree, 1, tokens)
}

/// JLS 15.12.
pub fn call<'a>(
    alloc: Global,
    token: &Token,
    all: NestedExpressions,
    tokens: &'a [Token],
) -> Result<(NestedExpression, &'a [Token]), ReadError>
    requires { suc all.nesting < 2 ^ 32 }
    ensures gives { Gives (λ x. (expr_of x.0.tree.value, map spelled x.1.now)) result (as_read
        (Call token.now.text (pack_exprs (map expr_of all.trees.items))) (map spelled tokens.now)) }
    ensures places { IfOk result (λ x. (marks : Marks) → expr_places x.0.tree.value marks ≡ Some token.now.place ∷
        each_puts (map expr_places all.trees.items) marks) }
    ensures behind { IfOk result (λ x. kept x.1.now ≡ kept tokens.now) }
    ensures small { IfOk result (λ x. x.0.nesting ≡ suc all.nesting) }
    ensures shorter { IfOk result (λ x. length x.1.now ≤ length tokens.now) }
{
    let nesting = all.nesting + 1;
    let name = ident(alloc, token)?;
    let call = CallTree {
        receiver: None,
        types: Items::new(alloc),
        glued: false,
        name,
        arguments: all.trees,
    };
    let call = Box::new(alloc, call)?;
    NestedExpression::before(alloc, Expression::Call(call), nesting, tokens)
}

/// This expression in its parentheses, the second of which stands in front (JLS 15.8.5).
pub fn paren(
    alloc: Global,
    part: NestedExpression,
    tokens: &[Token],
) -> Result<(NestedExpression, &[Token]), ReadError>
    requires { suc part.nesting < 2 ^ 32 }
    ensures gives { Gives (λ x. (expr_of x.0.tree.value, map spelled x.1.now)) result
        (paren_end (expr_of part.tree.value) (map spelled tokens.now)) }
    ensures places { IfOk result (λ x. (marks : Marks) → expr_places x.0.tree.value marks ≡ expr_places part.tree.value
        marks) }
    ensures behind { IfOk result (λ x. kept x.1.now ≡ kept tokens.now) }
    ensures small { IfOk result (λ x. x.0.nesting ≡ suc part.nesting) }
    ensures shorter { IfOk result (λ x. length x.1.now ≤ length tokens.now) }
{
    let rest = sign(tokens, ")")?;
    let nesting = part.nesting + 1;
    let tree = Expression::Paren(part.tree);
    NestedExpression::before(alloc, tree, nesting, rest)
}

/// This prefix operator, where it may stand before this expression: `++` and `--` stand before what can be assigned
/// alone (JLS 15.15).
fn prefix_sign(alloc: Global, operator: &str, part: &Expression) -> Result<Text, ReadError>
    ensures { Gives (λ text. text) result (if not (is_step operator.now) || is_variable (expr_of part.now)
        then Some operator.now else None) }
{
    if is_step(operator) && !is_variable(part) {
        return Err(ReadError::Unformed);
    }
    Ok(Text::from_str(alloc, operator)?)
}

/// JLS 15.15.
pub fn prefixed<'a>(
    alloc: Global,
    operator: &str,
    part: NestedExpression,
    tokens: &'a [Token],
) -> Result<(NestedExpression, &'a [Token]), ReadError>
    requires { suc part.nesting < 2 ^ 32 }
    ensures gives { Gives (λ x. (expr_of x.0.tree.value, map spelled x.1.now)) result (prefix_end operator.now
        (expr_of part.tree.value, map spelled tokens.now)) }
    ensures places { IfOk result (λ x. (marks : Marks) → expr_places x.0.tree.value marks ≡ expr_places part.tree.value
        marks) }
    ensures behind { IfOk result (λ x. kept x.1.now ≡ kept tokens.now) }
    ensures small { IfOk result (λ x. x.0.nesting ≡ suc part.nesting) }
    ensures shorter { IfOk result (λ x. length x.1.now ≤ length tokens.now) }
{
    let text = prefix_sign(alloc, operator, &part.tree)?;
    let nesting = part.nesting + 1;
    let tree = Expression::Prefix(text, part.tree);
    NestedExpression::before(alloc, tree, nesting, tokens)
}

/// The types of a cast, in memory of their own (JLS 15.16).
pub fn cast_types(
    alloc: Global,
    limit: u32,
    tokens: &[Token],
) -> Result<(Box<NestedTypes>, &[Token]), ReadError>
    requires few { length tokens.now < 2 ^ 32 }
    ensures gives { Gives (λ x. (map ty_of x.0.value.trees.items, map spelled x.1.now)) result (between_each
        (codes "&") (ty_at limit) (map spelled tokens.now)) }
    ensures places { IfOk result (λ x. all_places (map ty_places x.0.value.trees.items) ++ kept x.1.now
        ≡ kept tokens.now) }
    ensures small { IfOk result (λ x. x.0.value.nesting ≤ limit) }
    ensures shorter { IfOk result (λ x. length x.1.now ≤ length tokens.now) }
{
    let (types, rest) = types_between(alloc, limit, "&", tokens)?;
    Ok((Box::new(alloc, types)?, rest))
}

/// JLS 15.16.
pub fn cast_to<'a>(
    alloc: Global,
    types: Box<NestedTypes>,
    part: NestedExpression,
    tokens: &'a [Token],
) -> Result<(NestedExpression, &'a [Token]), ReadError>
    requires types { suc types.value.nesting < 2 ^ 32 }
    requires part { suc part.nesting < 2 ^ 32 }
    ensures gives { Gives (λ x. (expr_of x.0.tree.value, map spelled x.1.now)) result (as_read
        (Cast (map ty_of types.value.trees.items) (expr_of part.tree.value)) (map spelled tokens.now)) }
    ensures places { IfOk result (λ x. (marks : Marks) → expr_places x.0.tree.value marks ≡ types_places
        types.value.trees.items (expr_places part.tree.value marks)) }
    ensures behind { IfOk result (λ x. kept x.1.now ≡ kept tokens.now) }
    ensures small { IfOk result (λ x. x.0.nesting ≡ suc (max types.value.nesting part.nesting)) }
    ensures shorter { IfOk result (λ x. length x.1.now ≤ length tokens.now) }
{
    let types = Box::into_inner(types);
    let nesting = 1 + types.nesting.max(part.nesting);
    let cast = CastTree {
        types: Items::from(types.trees),
        value: Box::into_inner(part.tree),
    };
    let cast = Box::new(alloc, cast)?;
    NestedExpression::before(alloc, Expression::Cast(cast), nesting, tokens)
}

/// The base of a type behind `new`, in memory of its own (JLS 15.9, 15.10).
pub fn new_base(
    alloc: Global,
    limit: u32,
    tokens: &[Token],
) -> Result<(Box<NestedBase>, &[Token]), ReadError>
    requires few { length tokens.now < 2 ^ 32 }
    ensures gives { Gives (λ x. (base_of x.0.value.tree, map spelled x.1.now)) result (made_base_at limit
        (map spelled tokens.now)) }
    ensures places { IfOk result (λ x. base_places x.0.value.tree ++ kept x.1.now ≡ kept tokens.now) }
    ensures small { IfOk result (λ x. x.0.value.nesting < limit) }
    ensures shorter { IfOk result (λ x. length x.1.now ≤ length tokens.now) }
{
    let (base, rest) = made_base(alloc, limit, tokens)?;
    Ok((Box::new(alloc, base)?, rest))
}

/// The type of this base, without `[ ]`.
pub fn element(base: Box<NestedBase>) -> NestedType
    requires { suc base.value.nesting < 2 ^ 32 }
    ensures gives { ty_of result.tree ≡ Typed (base_of base.value.tree) 0 }
    ensures places { ty_places result.tree ≡ base_places base.value.tree }
    ensures small { result.nesting ≡ suc base.value.nesting }
{
    let base = Box::into_inner(base);
    let nesting = base.nesting + 1;
    let tree = TypeTree {
        base: base.tree,
        arrays: 0,
    };
    NestedType { tree, nesting }
}

/// What is made of this type at its `new`, and the tokens behind it (JLS 15.9, 15.10.1).
pub fn created<'a>(
    alloc: Global,
    place: Place,
    kind: TypeTree,
    made: Made,
    nesting: u32,
    tokens: &'a [Token],
) -> Result<(NestedExpression, &'a [Token]), ReadError>
    requires measured { nesting ≡ expr_nesting (made_of made (ty_of kind)) }
    ensures gives { Gives (λ x. (expr_of x.0.tree.value, map spelled x.1.now)) result (as_read
        (made_of made (ty_of kind)) (map spelled tokens.now)) }
    ensures places { IfOk result (λ x. (marks : Marks) → expr_places x.0.tree.value marks ≡ Some place ∷ some_onto
        (ty_places kind) (made_places made marks)) }
    ensures behind { IfOk result (λ x. kept x.1.now ≡ kept tokens.now) }
    ensures small { IfOk result (λ x. x.0.nesting ≡ nesting) }
    ensures shorter { IfOk result (λ x. length x.1.now ≤ length tokens.now) }
{
    let new = Box::new(alloc, NewTree { place, kind, made })?;
    NestedExpression::before(alloc, Expression::New(new), nesting, tokens)
}

/// An object of this class (JLS 15.9).
pub fn object<'a>(
    alloc: Global,
    place: Place,
    base: Box<NestedBase>,
    all: NestedExpressions,
    tokens: &'a [Token],
) -> Result<(NestedExpression, &'a [Token]), ReadError>
    requires base { suc (suc base.value.nesting) < 2 ^ 32 }
    requires all { suc all.nesting < 2 ^ 32 }
    ensures gives { Gives (λ x. (expr_of x.0.tree.value, map spelled x.1.now)) result (as_read
        (New (Typed (base_of base.value.tree) 0) (pack_exprs (map expr_of all.trees.items))) (map spelled tokens.now)) }
    ensures places { IfOk result (λ x. (marks : Marks) → expr_places x.0.tree.value marks ≡ Some place ∷ some_onto
        (base_places base.value.tree) (each_puts (map expr_places all.trees.items) marks)) }
    ensures behind { IfOk result (λ x. kept x.1.now ≡ kept tokens.now) }
    ensures small { IfOk result (λ x. x.0.nesting ≡ suc (max (suc base.value.nesting) all.nesting)) }
    ensures shorter { IfOk result (λ x. length x.1.now ≤ length tokens.now) }
{
    let kind = element(base);
    let nesting = 1 + kind.nesting.max(all.nesting);
    let made = Made::Object(all.trees);
    created(alloc, place, kind.tree, made, nesting, tokens)
}

/// An object of a class of its own, with the tokens of its braces (JLS 15.9.5).
pub fn object_with_body<'a>(
    alloc: Global,
    place: Place,
    base: Box<NestedBase>,
    all: NestedExpressions,
    body: Vec<Spelled>,
    tokens: &'a [Token],
) -> Result<(NestedExpression, &'a [Token]), ReadError>
    requires base { suc (suc base.value.nesting) < 2 ^ 32 }
    requires all { suc all.nesting < 2 ^ 32 }
    ensures gives { Gives (λ x. (expr_of x.0.tree.value, map spelled x.1.now)) result (as_read
        (NewBody (Typed (base_of base.value.tree) 0) (pack_exprs (map expr_of all.trees.items)) body.items)
        (map spelled tokens.now)) }
    ensures places { IfOk result (λ x. (marks : Marks) → expr_places x.0.tree.value marks ≡ Some place ∷ some_onto
        (base_places base.value.tree) (each_puts (map expr_places all.trees.items) (no_places body.items marks))) }
    ensures behind { IfOk result (λ x. kept x.1.now ≡ kept tokens.now) }
    ensures small { IfOk result (λ x. x.0.nesting ≡ suc (max (suc base.value.nesting) all.nesting)) }
    ensures shorter { IfOk result (λ x. length x.1.now ≤ length tokens.now) }
{
    let kind = element(base);
    let nesting = 1 + kind.nesting.max(all.nesting);
    let made = Made::Anonymous(all.trees, Items::from(body));
    created(alloc, place, kind.tree, made, nesting, tokens)
}

pub fn is_named(base: &BaseType) -> bool
    ensures { result ≡ is_named (Typed (base_of base.now) 0) }
{
    matches!(base, BaseType::Named(_))
}

/// An array of these items, with the number of its `[ ]` behind the first (JLS 15.10.1).
pub fn array_of_items<'a>(
    alloc: Global,
    place: Place,
    base: Box<NestedBase>,
    more: u32,
    items: NestedArray,
    tokens: &'a [Token],
) -> Result<(NestedExpression, &'a [Token]), ReadError>
    requires more { suc more < 2 ^ 32 }
    requires base { suc (suc base.value.nesting) < 2 ^ 32 }
    requires items { suc items.nesting < 2 ^ 32 }
    ensures gives { Gives (λ x. (expr_of x.0.tree.value, map spelled x.1.now)) result (as_read
        (NewItems (Typed (base_of base.value.tree) 0) (suc more) (array_of items.tree)) (map spelled tokens.now)) }
    ensures places { IfOk result (λ x. (marks : Marks) → expr_places x.0.tree.value marks ≡ Some place ∷ some_onto
        (base_places base.value.tree) (array_places items.tree marks)) }
    ensures behind { IfOk result (λ x. kept x.1.now ≡ kept tokens.now) }
    ensures small { IfOk result (λ x. x.0.nesting ≡ suc (max (suc base.value.nesting) items.nesting)) }
    ensures shorter { IfOk result (λ x. length x.1.now ≤ length tokens.now) }
{
    let kind = element(base);
    let nesting = 1 + kind.nesting.max(items.nesting);
    let made = Made::Filled(more + 1, items.tree);
    created(alloc, place, kind.tree, made, nesting, tokens)
}
