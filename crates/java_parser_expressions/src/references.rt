//! Method references (JLS 15.13), and the class literals of primitive types and `void` (JLS 15.8.2).
ghost use Rattle.std.specs.Prelude.{◌≡◌, ◌<◌, ◌≤◌, ◌^◌, suc, Some, [], length, map, option_map, IfOk};
ghost use Rattle.java_tree.specs.Formed.{are_bare_parts, is_no_expression};
ghost use Rattle.java_tree.specs.KeptPlaces.{Marks, kept, some_onto, ty_places, types_places, name_or_new};
ghost use Rattle.java_tree.specs.KeptPlaces.{before_places, expr_places};
ghost use Rattle.java_tree.specs.Trees.{Typed, Plain, PlainClass, pack_parts};
ghost use Rattle.java_tree.specs.View.{before_of, expr_of, name_of, part_of, reference_of, ty_of, types_of};
ghost use Rattle.java_parser_grammar.specs.ExpressionReading.{name_or_new_at, plain_word_with, refer_with};
ghost use Rattle.java_parser_grammar.specs.ExpressionReading.{referred_at, super_with, type_reference_at};
ghost use Rattle.java_parser_expressions.specs.Closings.{as_read};
ghost use Rattle.java_parser_expressions.specs.References.{typed_reference_at};
ghost use Rattle.java_parser_expressions.specs.TurnView.{turn_of, TurnLeadsOn, IsSmall, IsWithin};
ghost use Rattle.java_parser_types.specs.LedPlaces.{Leads, LeadsOn};
ghost use Rattle.java_parser_types.specs.ReadAnswer.{Gives};
ghost use Rattle.java_parser_types.specs.Tokens.{spelled};

use super::nested::{NestedExpression, NestedReferred};
use super::progress::Progress;
use super::turns::referred;
use java_lexer::Token;
use java_parser_lookahead::lookahead::keyword;
use java_parser_types::error::ReadError;
use java_parser_types::look::{after_sign, brackets, is_keyword, is_plain_word, name, sign};
use java_parser_types::nested::NestedType;
use java_parser_types::type_lists::types;
use java_parser_types::types::{plain, read_type};
use java_tree::{BaseType, Expression, Ident, ReferenceTree, Referred, TypePart, TypeTree};
use std::alloc::Global;

/// The reference to this of what stands before the `::`.
pub fn reference(
    alloc: Global,
    before: Referred,
    to: NestedReferred,
) -> Result<Expression, ReadError>
    ensures gives { Gives expr_of result (Some (reference_of (before_of before) (types_of
        to.types.trees to.types.glued) (option_map name_of to.name))) }
    ensures places { IfOk result (λ tree. (rest : Marks) → expr_places tree rest ≡ before_places before
        (types_places to.types.trees (name_or_new to.name rest))) }
{
    let NestedReferred { types, name } = to;
    let glued = types.glued;
    let reference = ReferenceTree {
        of: before,
        types: types.trees,
        glued,
        name,
    };
    let reference = Box::new(alloc, reference)?;
    Ok(Expression::Reference(reference))
}

/// A name, or `new`.
fn name_or_new(alloc: Global, tokens: &[Token]) -> Result<(Option<Ident>, &[Token]), ReadError>
    ensures gives { Gives (λ x. (option_map name_of x.0, map spelled x.1.now)) result (name_or_new_at
        (map spelled tokens.now)) }
    ensures places { IfOk result (λ x. Leads (name_or_new x.0) (kept tokens.now) (kept x.1.now)) }
    ensures shorter { IfOk result (λ x. length x.1.now ≤ length tokens.now) }
{
    match tokens {
        [token, rest @ ..] if is_keyword(token, "new") => Ok((None, rest)),
        _ => {
            let (name, rest) = name(alloc, tokens)?;
            Ok((Some(name), rest))
        }
    }
}

/// What stands behind a `::`.
#[tactic(auto, unfolding(java_parser_grammar::specs::ExpressionReading::referred_at))]
fn referred_to(
    alloc: Global,
    limit: u32,
    tokens: &[Token],
) -> Result<(NestedReferred, &[Token]), ReadError>
    requires { length tokens.now < 2 ^ 32 }
    ensures gives { Gives (λ x. (
      (types_of x.0.types.trees x.0.types.glued, option_map name_of x.0.name),
      map spelled x.1.now,
    )) result (referred_at limit (map spelled tokens.now)) }
    ensures places { IfOk result (λ x. Leads (λ marks. types_places x.0.types.trees (name_or_new x.0.name marks))
        (kept tokens.now) (kept x.1.now)) }
    ensures small { IfOk result (λ x. x.0.types.nesting ≤ limit) }
    ensures shorter { IfOk result (λ x. length x.1.now ≤ length tokens.now) }
{
    let (types, rest) = types(alloc, limit, tokens)?;
    let (name, rest) = name_or_new(alloc, rest)?;
    Ok((NestedReferred { types, name }, rest))
}

/// A reference of an expression, behind its `::`.
#[tactic(auto, unfolding(java_parser_grammar::specs::ExpressionReading::refer_with))]
pub fn refer<'a>(
    alloc: Global,
    limit: u32,
    left: NestedExpression,
    tokens: &'a [Token],
) -> Result<Progress<'a>, ReadError>
    requires few { length tokens.now < 2 ^ 32 }
    requires room { suc (suc limit) < 2 ^ 32 }
    requires left { left.nesting ≤ suc limit }
    ensures gives { Gives turn_of result (refer_with limit (expr_of left.tree.value) (map spelled tokens.now)) }
    ensures places { IfOk result (λ x. TurnLeadsOn (expr_places left.tree.value) x (kept tokens.now)) }
    ensures small { IfOk result (λ x. IsSmall x (suc limit)) }
    ensures shorter { IfOk result (λ x. IsWithin x (length tokens.now)) }
{
    let (to, rest) = referred_to(alloc, limit, tokens)?;
    referred(alloc, limit, left, to, rest)
}

/// A reference of `super`, behind this word.
pub fn super_reference(
    alloc: Global,
    limit: u32,
    tokens: &[Token],
) -> Result<(NestedExpression, &[Token]), ReadError>
    requires few { length tokens.now < 2 ^ 32 }
    requires room { suc (suc limit) < 2 ^ 32 }
    ensures gives { Gives (λ x. (expr_of x.0.tree.value, map spelled x.1.now)) result (super_with limit
        (map spelled tokens.now)) }
    ensures places { IfOk result (λ x. Leads (expr_places x.0.tree.value) (kept tokens.now) (kept x.1.now)) }
    ensures small { IfOk result (λ x. x.0.nesting ≤ suc limit) }
    ensures shorter { IfOk result (λ x. length x.1.now ≤ length tokens.now) }
{
    let rest = sign(tokens, "::")?;
    let (to, rest) = referred_to(alloc, limit, rest)?;
    let nesting = to.types.nesting + 1;
    let tree = reference(alloc, Referred::Super, to)?;
    NestedExpression::before(alloc, tree, nesting, rest)
}

fn are_bare(parts: &[TypePart]) -> bool
    ensures { result ≡ are_bare_parts (pack_parts (map part_of parts.now)) }
{
    for part in parts {
        if part.arguments.is_some() {
            return false;
        }
    }
    true
}

/// Whether the type is no expression: one with `[ ]` or with type arguments.
fn is_no_expression(kind: &TypeTree) -> bool
    ensures { result ≡ is_no_expression (ty_of kind.now) }
{
    if kind.arrays > 0 {
        return true;
    }
    match &kind.base {
        BaseType::Plain(_) => false,
        BaseType::Named(parts) => !are_bare(parts.as_slice()),
    }
}

/// A reference of this type, behind it.
fn type_reference<'a>(
    alloc: Global,
    limit: u32,
    kind: NestedType,
    tokens: &'a [Token],
) -> Result<(NestedExpression, &'a [Token]), ReadError>
    requires few { length tokens.now < 2 ^ 32 }
    requires room { suc (suc limit) < 2 ^ 32 }
    requires kind { kind.nesting ≤ limit }
    ensures gives { Gives (λ x. (expr_of x.0.tree.value, map spelled x.1.now)) result (type_reference_at limit
        (ty_of kind.tree) (map spelled tokens.now)) }
    ensures places { IfOk result (λ x. LeadsOn (some_onto (ty_places kind.tree)) (expr_places x.0.tree.value)
        (kept tokens.now) (kept x.1.now)) }
    ensures small { IfOk result (λ x. x.0.nesting ≤ suc limit) }
    ensures shorter { IfOk result (λ x. length x.1.now ≤ length tokens.now) }
{
    let rest = sign(tokens, "::")?;
    let (to, rest) = referred_to(alloc, limit, rest)?;
    if !is_no_expression(&kind.tree) {
        return Err(ReadError::Unformed);
    }
    let nesting = 1 + kind.nesting.max(to.types.nesting);
    let tree = reference(alloc, Referred::Type(kind.tree), to)?;
    NestedExpression::before(alloc, tree, nesting, rest)
}

/// A reference of the type in front.
pub fn typed_name(
    alloc: Global,
    limit: u32,
    tokens: &[Token],
) -> Result<(NestedExpression, &[Token]), ReadError>
    requires few { length tokens.now < 2 ^ 32 }
    requires room { suc (suc limit) < 2 ^ 32 }
    ensures gives { Gives (λ x. (expr_of x.0.tree.value, map spelled x.1.now)) result (typed_reference_at limit
        (map spelled tokens.now)) }
    ensures places { IfOk result (λ x. Leads (expr_places x.0.tree.value) (kept tokens.now) (kept x.1.now)) }
    ensures small { IfOk result (λ x. x.0.nesting ≤ suc limit) }
    ensures shorter { IfOk result (λ x. length x.1.now < length tokens.now) }
{
    let (kind, rest) = read_type(alloc, limit, tokens)?;
    type_reference(alloc, limit, kind, rest)
}

/// The type of this word with so many `[ ]`.
fn plain_array(alloc: Global, word: &Token, arrays: u32) -> Result<NestedType, ReadError>
    ensures gives { Gives (λ x. ty_of x.tree) result (Some (Typed (Plain word.now.text) arrays)) }
    ensures places { IfOk result (λ x. ty_places x.tree ≡ []) }
    ensures small { IfOk result (λ x. x.nesting ≡ 1) }
{
    let base = plain(alloc, word)?;
    let tree = TypeTree {
        base: base.tree,
        arrays,
    };
    Ok(NestedType { tree, nesting: 1 })
}

/// The class of this word with so many `[ ]`.
fn plain_class<'a>(
    alloc: Global,
    word: &Token,
    arrays: u32,
    tokens: &'a [Token],
) -> Result<(NestedExpression, &'a [Token]), ReadError>
    ensures gives { Gives (λ x. (expr_of x.0.tree.value, map spelled x.1.now)) result (as_read
        (PlainClass (Typed (Plain word.now.text) arrays)) (map spelled tokens.now)) }
    ensures places { IfOk result (λ x. (marks : Marks) → expr_places x.0.tree.value marks ≡ marks) }
    ensures behind { IfOk result (λ x. kept x.1.now ≡ kept tokens.now) }
    ensures small { IfOk result (λ x. x.0.nesting ≡ 1) }
    ensures shorter { IfOk result (λ x. length x.1.now ≤ length tokens.now) }
{
    let kind = plain_array(alloc, word, arrays)?;
    NestedExpression::before(alloc, Expression::PlainClass(kind.tree), 1, tokens)
}

/// Behind the word of a primitive type or `void`, and its `[ ]`: `. class`, or a reference.
#[tactic(auto, unfolding(java_parser_grammar::specs::ExpressionReading::plain_word_with))]
pub fn plain_word<'a>(
    alloc: Global,
    limit: u32,
    word: &Token,
    tokens: &'a [Token],
) -> Result<(NestedExpression, &'a [Token]), ReadError>
    requires few { length tokens.now < 2 ^ 32 }
    requires room { suc (suc limit) < 2 ^ 32 }
    ensures gives { Gives (λ x. (expr_of x.0.tree.value, map spelled x.1.now)) result (plain_word_with limit
        word.now.text (map spelled tokens.now)) }
    ensures places { IfOk result (λ x. Leads (expr_places x.0.tree.value) (kept tokens.now) (kept x.1.now)) }
    ensures small { IfOk result (λ x. x.0.nesting ≤ suc limit) }
    ensures shorter { IfOk result (λ x. length x.1.now ≤ length tokens.now) }
{
    let (arrays, rest) = brackets(tokens);
    if let Some(behind) = after_sign(rest, ".") {
        let behind = keyword(behind, "class")?;
        return plain_class(alloc, word, arrays, behind);
    }
    if limit == 0 || !is_plain_word(word.text.as_str().as_bytes()) {
        return Err(ReadError::Unformed);
    }
    let kind = plain_array(alloc, word, arrays)?;
    type_reference(alloc, limit, kind, rest)
}
