//! Reading types (JLS 4).
ghost use Rattle.std.specs.Prelude.{◌≡◌, ◌<◌, ◌≤◌, ◌^◌, suc, Some, [], ◌∷◌, ◌++◌, length, map, IfOk};
ghost use Rattle.java_tree.specs.KeptPlaces.{kept, all_places, ty_places, base_places, part_places, angled_places};
ghost use Rattle.java_tree.specs.KeptPlaces.{argument_places};
ghost use Rattle.java_tree.specs.Nesting.{base_nesting, parts_nesting, arguments_nesting};
ghost use Rattle.java_tree.specs.Trees.{Plain, Named, pack_parts, pack_arguments};
ghost use Rattle.java_tree.specs.View.{ty_of, base_of, part_of, angled_of, argument_of};
ghost use Rattle.java_parser_grammar.specs.Taking.{commas};
ghost use Rattle.java_parser_grammar.specs.TypeReading.{points, wildcard_with, argument_with, angled_with, part_with};
ghost use Rattle.java_parser_grammar.specs.TypeReading.{base_with, arrays_behind, ty_at};
ghost use Rattle.java_parser_types.specs.Tokens.{spelled};
ghost use Rattle.java_parser_types.specs.Finishing.{finished};
ghost use Rattle.java_parser_types.specs.Endings.{named_end, angled_end};
ghost use Rattle.java_parser_types.specs.ReadAnswer.{Gives};

use super::error::ReadError;
use super::look::{after_keyword, after_plain, after_sign, angle, brackets, name};
use super::nested::{NestedAngled, NestedArgument, NestedBase, NestedPart, NestedType};
use java_lexer::Token;
use java_tree::{BaseType, TypeArgument, TypeArguments, TypePart, TypeTree};
use racer_base::Text;
use std::alloc::Global;

/// This primitive type (JLS 4.2).
pub fn plain(alloc: Global, word: &Token) -> Result<NestedBase, ReadError>
    ensures gives { Gives (λ x. base_of x.tree) result (Some (Plain word.now.text)) }
    ensures places { IfOk result (λ x. base_places x.tree ≡ []) }
    ensures small { IfOk result (λ x. x.nesting ≡ 0) }
{
    let tree = BaseType::Plain(Text::from_str(alloc, word.text.as_str())?);
    Ok(NestedBase { tree, nesting: 0 })
}

/// The type of this base, with the `[ ]` behind it (JLS 10.1).
pub fn arrayed(base: NestedBase, tokens: &[Token]) -> (NestedType, &[Token])
    requires few { length tokens.now < 2 ^ 32 }
    requires room { suc base.nesting < 2 ^ 32 }
    ensures gives { Some (ty_of result.0.tree, map spelled result.1.now) ≡ arrays_behind (
      base_of base.tree,
      map spelled tokens.now,
    ) }
    ensures places { ty_places result.0.tree ++ kept result.1.now ≡ base_places base.tree ++ kept tokens.now }
    ensures small { result.0.nesting ≡ suc base.nesting }
    ensures shorter { length result.1.now ≤ length tokens.now }
{
    let (arrays, rest) = brackets(tokens);
    let nesting = base.nesting + 1;
    let tree = TypeTree {
        base: base.tree,
        arrays,
    };
    (NestedType { tree, nesting }, rest)
}

/// The type of these parts (JLS 4.3).
pub fn named_base(parts: Vec<TypePart>, nesting: u32, tokens: &[Token]) -> (NestedBase, &[Token])
    requires measured { nesting ≡ parts_nesting (pack_parts (map part_of parts.items)) }
    ensures gives { Some (base_of result.0.tree, map spelled result.1.now) ≡ named_end (
      map part_of parts.items,
      map spelled tokens.now,
    ) }
    ensures places { base_places result.0.tree ≡ all_places (map part_places parts.items) }
    ensures small { result.0.nesting ≡ nesting }
    ensures same { result.1.now ≡ tokens.now }
{
    let tree = BaseType::Named(parts);
    (NestedBase { tree, nesting }, tokens)
}

/// These type arguments, and the `>` behind them (JLS 4.5.1).
fn closed(
    items: Vec<TypeArgument>,
    nesting: u32,
    tokens: &[Token],
) -> Result<(NestedAngled, &[Token]), ReadError>
    requires measured { nesting ≡ arguments_nesting (pack_arguments (map argument_of items.items)) }
    ensures gives { Gives (λ x. (angled_of x.0.tree, map spelled x.1.now)) result
        (angled_end (map argument_of items.items, map spelled tokens.now)) }
    ensures places { IfOk result (λ x. angled_places x.0.tree ++ kept x.1.now ≡ all_places (map argument_places
        items.items) ++ kept tokens.now) }
    ensures small { IfOk result (λ x. x.0.nesting ≡ nesting) }
    ensures shorter { IfOk result (λ x. length x.1.now ≤ length tokens.now) }
{
    let (glued, rest) = angle(tokens)?;
    let tree = TypeArguments { items, glued };
    Ok((NestedAngled { tree, nesting }, rest))
}

/// A type of a nesting of at most `limit`.
#[cycle(types)]
#[tactic(auto, unfolding(java_parser_grammar::specs::TypeReading::ty_at))]
pub fn read_type(
    alloc: Global,
    limit: u32,
    tokens: &[Token],
) -> Result<(NestedType, &[Token]), ReadError>
    requires { length tokens.now < 2 ^ 32 }
    ensures gives { Gives (λ x. (ty_of x.0.tree, map spelled x.1.now)) result (ty_at limit (map spelled tokens.now)) }
    ensures places { IfOk result (λ x. ty_places x.0.tree ++ kept x.1.now ≡ kept tokens.now) }
    ensures small { IfOk result (λ x. x.0.nesting ≤ limit) }
    ensures shorter { IfOk result (λ x. length x.1.now < length tokens.now) }
{
    if limit == 0 {
        return Err(ReadError::Unformed);
    }
    let (base, rest) = base(alloc, limit - 1, tokens)?;
    Ok(arrayed(base, rest))
}

/// A primitive type, or names joined by points (JLS 4.2, 4.3).
#[cycle(types)]
#[tactic(auto, unfolding(java_parser_grammar::specs::TypeReading::base_with))]
fn base(alloc: Global, limit: u32, tokens: &[Token]) -> Result<(NestedBase, &[Token]), ReadError>
    requires { length tokens.now < 2 ^ 32 }
    ensures gives { Gives (λ x. (base_of x.0.tree, map spelled x.1.now)) result (base_with (part_with (ty_at limit))
        (map spelled tokens.now)) }
    ensures places { IfOk result (λ x. base_places x.0.tree ++ kept x.1.now ≡ kept tokens.now) }
    ensures small { IfOk result (λ x. x.0.nesting ≤ limit) }
    ensures shorter { IfOk result (λ x. length x.1.now < length tokens.now) }
{
    if let Some((word, rest)) = after_plain(tokens) {
        return Ok((plain(alloc, word)?, rest));
    }
    let (first, rest) = part(alloc, limit, tokens)?;
    parts(alloc, limit, first, rest)
}

/// The type of this part and of others, each behind a point.
#[cycle(types)]
fn parts(
    alloc: Global,
    limit: u32,
    first: NestedPart,
    tokens: &[Token],
) -> Result<(NestedBase, &[Token]), ReadError>
    requires few { length tokens.now < 2 ^ 32 }
    requires first { first.nesting ≤ limit }
    ensures gives { Gives (λ x. (base_of x.0.tree, map spelled x.1.now)) result (finished named_end
        (part_of first.tree ∷ []) (points (part_with (ty_at limit)) (length (map spelled tokens.now))
        (map spelled tokens.now))) }
    ensures places { IfOk result (λ x. base_places x.0.tree ++ kept x.1.now ≡ part_places first.tree
        ++ kept tokens.now) }
    ensures small { IfOk result (λ x. x.0.nesting ≤ limit) }
    ensures shorter { IfOk result (λ x. length x.1.now ≤ length tokens.now) }
{
    let mut parts = Vec::new(alloc);
    let mut nesting = first.nesting;
    parts.push(first.tree)?;
    let mut rest = tokens;
    for _ in 0..tokens.len() {
        let Some(after) = after_sign(rest, ".") else {
            return Ok(named_base(parts, nesting, rest));
        };
        let (next, after) = part(alloc, limit, after)?;
        nesting = nesting.max(next.nesting);
        parts.push(next.tree)?;
        rest = after;
    }
    Ok(named_base(parts, nesting, rest))
}

/// A name with or without type arguments.
#[cycle(types)]
#[tactic(auto, unfolding(java_parser_grammar::specs::TypeReading::part_with))]
fn part(alloc: Global, limit: u32, tokens: &[Token]) -> Result<(NestedPart, &[Token]), ReadError>
    requires { length tokens.now < 2 ^ 32 }
    ensures gives { Gives (λ x. (part_of x.0.tree, map spelled x.1.now)) result (part_with (ty_at limit)
        (map spelled tokens.now)) }
    ensures places { IfOk result (λ x. part_places x.0.tree ++ kept x.1.now ≡ kept tokens.now) }
    ensures small { IfOk result (λ x. x.0.nesting ≤ limit) }
    ensures shorter { IfOk result (λ x. length x.1.now < length tokens.now) }
{
    let (name, rest) = name(alloc, tokens)?;
    let Some(inside) = after_sign(rest, "<") else {
        let tree = TypePart {
            name,
            arguments: None,
        };
        return Ok((NestedPart { tree, nesting: 0 }, rest));
    };
    let (angled, rest) = angled(alloc, limit, inside)?;
    let nesting = angled.nesting;
    let tree = TypePart {
        name,
        arguments: Some(angled.tree),
    };
    Ok((NestedPart { tree, nesting }, rest))
}

/// Type arguments behind their `<`, and the `>` (JLS 4.5.1).
#[cycle(types)]
#[tactic(auto, unfolding(java_parser_grammar::specs::TypeReading::angled_with))]
pub fn angled(
    alloc: Global,
    limit: u32,
    tokens: &[Token],
) -> Result<(NestedAngled, &[Token]), ReadError>
    requires { length tokens.now < 2 ^ 32 }
    ensures gives { Gives (λ x. (angled_of x.0.tree, map spelled x.1.now)) result (angled_with (ty_at limit)
        (map spelled tokens.now)) }
    ensures places { IfOk result (λ x. angled_places x.0.tree ++ kept x.1.now ≡ kept tokens.now) }
    ensures small { IfOk result (λ x. x.0.nesting ≤ limit) }
    ensures shorter { IfOk result (λ x. length x.1.now < length tokens.now) }
{
    let (first, rest) = argument(alloc, limit, tokens)?;
    arguments(alloc, limit, first, rest)
}

/// This type argument and others, each behind a comma, and the `>`.
#[cycle(types)]
fn arguments(
    alloc: Global,
    limit: u32,
    first: NestedArgument,
    tokens: &[Token],
) -> Result<(NestedAngled, &[Token]), ReadError>
    requires few { length tokens.now < 2 ^ 32 }
    requires first { first.nesting ≤ limit }
    ensures gives { Gives (λ x. (angled_of x.0.tree, map spelled x.1.now)) result (finished angled_end
        (argument_of first.tree ∷ []) (commas (argument_with (ty_at limit)) (length (map spelled tokens.now))
        (map spelled tokens.now))) }
    ensures places { IfOk result (λ x. angled_places x.0.tree ++ kept x.1.now ≡ argument_places first.tree
        ++ kept tokens.now) }
    ensures small { IfOk result (λ x. x.0.nesting ≤ limit) }
    ensures shorter { IfOk result (λ x. length x.1.now ≤ length tokens.now) }
{
    let mut items = Vec::new(alloc);
    let mut nesting = first.nesting;
    items.push(first.tree)?;
    let mut rest = tokens;
    for _ in 0..tokens.len() {
        let Some(after) = after_sign(rest, ",") else {
            break;
        };
        let (next, after) = argument(alloc, limit, after)?;
        nesting = nesting.max(next.nesting);
        items.push(next.tree)?;
        rest = after;
    }
    closed(items, nesting, rest)
}

/// A type argument (JLS 4.5.1).
#[cycle(types)]
fn argument(
    alloc: Global,
    limit: u32,
    tokens: &[Token],
) -> Result<(NestedArgument, &[Token]), ReadError>
    requires { length tokens.now < 2 ^ 32 }
    ensures gives { Gives (λ x. (argument_of x.0.tree, map spelled x.1.now)) result (argument_with (ty_at limit)
        (map spelled tokens.now)) }
    ensures places { IfOk result (λ x. argument_places x.0.tree ++ kept x.1.now ≡ kept tokens.now) }
    ensures small { IfOk result (λ x. x.0.nesting ≤ limit) }
    ensures shorter { IfOk result (λ x. length x.1.now < length tokens.now) }
{
    if let Some(rest) = after_sign(tokens, "?") {
        return wildcard(alloc, limit, rest);
    }
    let (bound, rest) = read_type(alloc, limit, tokens)?;
    let nesting = bound.nesting;
    let tree = TypeArgument::Exact(bound.tree);
    Ok((NestedArgument { tree, nesting }, rest))
}

/// A wildcard behind its `?`.
#[cycle(types)]
fn wildcard(
    alloc: Global,
    limit: u32,
    tokens: &[Token],
) -> Result<(NestedArgument, &[Token]), ReadError>
    requires { length tokens.now < 2 ^ 32 }
    ensures gives { Gives (λ x. (argument_of x.0.tree, map spelled x.1.now)) result (wildcard_with (ty_at limit)
        (map spelled tokens.now)) }
    ensures places { IfOk result (λ x. argument_places x.0.tree ++ kept x.1.now ≡ kept tokens.now) }
    ensures small { IfOk result (λ x. x.0.nesting ≤ limit) }
    ensures shorter { IfOk result (λ x. length x.1.now ≤ length tokens.now) }
{
    if let Some(rest) = after_keyword(tokens, "extends") {
        let (bound, rest) = read_type(alloc, limit, rest)?;
        let nesting = bound.nesting;
        let tree = TypeArgument::Extends(bound.tree);
        return Ok((NestedArgument { tree, nesting }, rest));
    }
    if let Some(rest) = after_keyword(tokens, "super") {
        let (bound, rest) = read_type(alloc, limit, rest)?;
        let nesting = bound.nesting;
        let tree = TypeArgument::Super(bound.tree);
        return Ok((NestedArgument { tree, nesting }, rest));
    }
    let any = NestedArgument {
        tree: TypeArgument::Any,
        nesting: 0,
    };
    Ok((any, tokens))
}
