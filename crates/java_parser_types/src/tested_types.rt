//! Reading a type behind `instanceof`, where a `<` may be an operator (JLS 15.20.2).
ghost use Rattle.std.specs.Prelude.{◌≡◌, ◌<◌, ◌≤◌, ◌^◌, suc, [], ◌∷◌, ◌++◌, length, map, IfOk};
ghost use Rattle.java_tree.specs.KeptPlaces.{kept, ty_places, base_places, part_places};
ghost use Rattle.java_tree.specs.Nesting.{parts_nesting};
ghost use Rattle.java_tree.specs.Trees.{pack_parts};
ghost use Rattle.java_tree.specs.View.{ty_of, base_of, part_of};
ghost use Rattle.java_parser_grammar.specs.TypeReading.{points, base_with, tested_part_with, tested_ty_at, ty_at};
ghost use Rattle.java_parser_types.specs.Endings.{named_end};
ghost use Rattle.java_parser_types.specs.Finishing.{finished};
ghost use Rattle.java_parser_types.specs.ReadAnswer.{Gives};
ghost use Rattle.java_parser_types.specs.Tokens.{spelled};

use super::angles::after_less;
use super::error::ReadError;
use super::look::{after_plain, after_sign, name};
use super::made_types::bare;
use super::nested::{NestedBase, NestedPart, NestedType};
use super::types::{angled, arrayed, named_base, plain};
use java_lexer::Token;
use java_tree::TypePart;
use std::alloc::Global;

/// A name, with type arguments where a `<` behind it begins some.
#[tactic(auto, unfolding(java_parser_grammar::specs::TypeReading::tested_part_with))]
fn tested_part(
    alloc: Global,
    limit: u32,
    tokens: &[Token],
) -> Result<(NestedPart, &[Token]), ReadError>
    requires { length tokens.now < 2 ^ 32 }
    ensures gives { Gives (λ x. (part_of x.0.tree, map spelled x.1.now)) result (tested_part_with limit (ty_at limit)
        (map spelled tokens.now)) }
    ensures places { IfOk result (λ x. part_places x.0.tree ++ kept x.1.now ≡ kept tokens.now) }
    ensures small { IfOk result (λ x. x.0.nesting ≤ limit) }
    ensures shorter { IfOk result (λ x. length x.1.now < length tokens.now) }
{
    let (name, rest) = name(alloc, tokens)?;
    let Some(inside) = after_less(limit, rest) else {
        return Ok((bare(name), rest));
    };
    let (angled, rest) = angled(alloc, limit, inside)?;
    let nesting = angled.nesting;
    let tree = TypePart {
        name,
        arguments: Some(angled.tree),
    };
    Ok((NestedPart { tree, nesting }, rest))
}

/// The type of this part and of others, each behind a point.
fn tested_parts(
    alloc: Global,
    limit: u32,
    first: NestedPart,
    tokens: &[Token],
) -> Result<(NestedBase, &[Token]), ReadError>
    requires few { length tokens.now < 2 ^ 32 }
    requires first { first.nesting ≤ limit }
    ensures gives { Gives (λ x. (base_of x.0.tree, map spelled x.1.now)) result (finished named_end
        (part_of first.tree ∷ []) (points (tested_part_with limit (ty_at limit)) (length (map spelled tokens.now))
        (map spelled tokens.now))) }
    ensures places { IfOk result (λ x. base_places x.0.tree ++ kept x.1.now ≡ part_places first.tree
        ++ kept tokens.now) }
    ensures small { IfOk result (λ x. x.0.nesting ≤ limit) }
    ensures shorter { IfOk result (λ x. length x.1.now ≤ length tokens.now) }
{
    let mut parts = Vec::new(alloc);
    let mut nesting = first.nesting;
    parts.push(first.tree)?;
    let mut rest = tokens;
    for _ in 0..tokens.len() {
        let Some(after) = after_sign(rest, ".") else {
            return Ok(named_base(parts, nesting, rest));
        };
        let (next, after) = tested_part(alloc, limit, after)?;
        nesting = nesting.max(next.nesting);
        parts.push(next.tree)?;
        rest = after;
    }
    Ok(named_base(parts, nesting, rest))
}

/// A primitive type, or names joined by points.
#[tactic(auto, unfolding(java_parser_grammar::specs::TypeReading::base_with))]
fn tested_base(
    alloc: Global,
    limit: u32,
    tokens: &[Token],
) -> Result<(NestedBase, &[Token]), ReadError>
    requires { length tokens.now < 2 ^ 32 }
    ensures gives { Gives (λ x. (base_of x.0.tree, map spelled x.1.now)) result (base_with (tested_part_with limit
        (ty_at limit)) (map spelled tokens.now)) }
    ensures places { IfOk result (λ x. base_places x.0.tree ++ kept x.1.now ≡ kept tokens.now) }
    ensures small { IfOk result (λ x. x.0.nesting ≤ limit) }
    ensures shorter { IfOk result (λ x. length x.1.now < length tokens.now) }
{
    if let Some((word, rest)) = after_plain(tokens) {
        return Ok((plain(alloc, word)?, rest));
    }
    let (first, rest) = tested_part(alloc, limit, tokens)?;
    tested_parts(alloc, limit, first, rest)
}

/// A type of a nesting of at most `limit`, as one stands behind `instanceof`.
#[tactic(auto, unfolding(java_parser_grammar::specs::TypeReading::tested_ty_at))]
pub fn read_tested_type(
    alloc: Global,
    limit: u32,
    tokens: &[Token],
) -> Result<(NestedType, &[Token]), ReadError>
    requires { length tokens.now < 2 ^ 32 }
    ensures gives { Gives (λ x. (ty_of x.0.tree, map spelled x.1.now)) result (tested_ty_at limit
        (map spelled tokens.now)) }
    ensures places { IfOk result (λ x. ty_places x.0.tree ++ kept x.1.now ≡ kept tokens.now) }
    ensures small { IfOk result (λ x. x.0.nesting ≤ limit) }
    ensures shorter { IfOk result (λ x. length x.1.now < length tokens.now) }
{
    if limit == 0 {
        return Err(ReadError::Unformed);
    }
    let (base, rest) = tested_base(alloc, limit - 1, tokens)?;
    Ok(arrayed(base, rest))
}
