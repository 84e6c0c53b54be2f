//! Reading what stands behind `new` (JLS 15.9, 15.10).
ghost use Rattle.std.specs.Prelude.{◌≡◌, ◌<◌, ◌≤◌, ◌^◌, suc, Some, None, [], ◌∷◌, length, map, IfOk, IfSome};
ghost use Rattle.std.specs.Prelude.{◌++◌, MatchOption};
ghost use Rattle.java_tree.specs.KeptPlaces.{kept, base_places, part_places};
ghost use Rattle.java_tree.specs.Trees.{Bare, Generic, Angled, no_argument, pack_parts};
ghost use Rattle.java_tree.specs.View.{base_of, part_of};
ghost use Rattle.java_parser_grammar.specs.TypeReading.{is_diamond, have_diamond, has_diamond, made_part_with};
ghost use Rattle.java_parser_grammar.specs.TypeReading.{made_parts_with, made_base_with, made_base_at, ty_at};
ghost use Rattle.java_parser_types.specs.PointBehind.{point_behind};
ghost use Rattle.java_parser_types.specs.Tokens.{spelled};
ghost use Rattle.java_parser_types.specs.Finishing.{finished};
ghost use Rattle.java_parser_types.specs.Endings.{named_end};
ghost use Rattle.java_parser_types.specs.ReadAnswer.{Gives};

use super::error::ReadError;
use super::look::{after_angle, after_plain, after_sign, name};
use super::nested::{NestedBase, NestedPart};
use super::types::{angled, named_base, plain};
use java_lexer::Token;
use java_tree::{BaseType, Ident, TypeArguments, TypePart};
use std::alloc::Global;

/// A name as a part.
pub fn bare(name: Ident) -> NestedPart
    ensures gives { part_of result.tree ≡ Bare name.text }
    ensures places { part_places result.tree ≡ name.place ∷ [] }
    ensures small { result.nesting ≡ 0 }
{
    let tree = TypePart {
        name,
        arguments: None,
    };
    NestedPart { tree, nesting: 0 }
}

fn is_diamond(part: &TypePart) -> bool
    ensures { result ≡ is_diamond (part_of part.now) }
{
    match &part.arguments {
        Some(arguments) => match arguments.items.as_slice() {
            [] => true,
            [_first, _others @ ..] => false,
        },
        None => false,
    }
}

/// Whether a part has `< >` (JLS 15.9).
pub fn has_diamond(base: &BaseType) -> bool
    ensures { result ≡ has_diamond (base_of base.now) }
{
    match base {
        BaseType::Plain(_) => false,
        BaseType::Named(parts) => have_diamond(parts.as_slice()),
    }
}

fn have_diamond(parts: &[TypePart]) -> bool
    ensures { result ≡ have_diamond (pack_parts (map part_of parts.now)) }
{
    for part in parts {
        if is_diamond(part) {
            return true;
        }
    }
    false
}

/// The tokens behind the point that goes on from a part, where one does.
fn point_behind<'a>(part: &TypePart, tokens: &'a [Token]) -> Option<&'a [Token]>
    ensures gives { MatchOption result (point_behind (part_of part.now) (map spelled tokens.now) ≡ None)
        (λ rest. point_behind (part_of part.now) (map spelled tokens.now) ≡ Some (map spelled rest.now)) }
    ensures places { IfSome result (λ rest. kept rest.now ≡ kept tokens.now) }
    ensures shorter { IfSome result (λ rest. length rest.now < length tokens.now) }
{
    if is_diamond(part) {
        return None;
    }
    after_sign(tokens, ".")
}

/// This name with `< >`.
fn diamond(alloc: Global, name: Ident, glued: bool) -> NestedPart
    ensures gives { part_of result.tree ≡ Generic name.text (Angled no_argument glued) }
    ensures places { part_places result.tree ≡ name.place ∷ [] }
    ensures small { result.nesting ≡ 0 }
{
    let arguments = TypeArguments {
        items: Vec::new(alloc),
        glued,
    };
    let tree = TypePart {
        name,
        arguments: Some(arguments),
    };
    NestedPart { tree, nesting: 0 }
}

/// A name with or without type arguments, or with `< >` (JLS 15.9).
#[tactic(auto, unfolding(java_parser_grammar::specs::TypeReading::made_part_with))]
fn made_part(
    alloc: Global,
    limit: u32,
    tokens: &[Token],
) -> Result<(NestedPart, &[Token]), ReadError>
    requires { length tokens.now < 2 ^ 32 }
    ensures gives { Gives (λ x. (part_of x.0.tree, map spelled x.1.now)) result (made_part_with (ty_at limit)
        (map spelled tokens.now)) }
    ensures places { IfOk result (λ x. part_places x.0.tree ++ kept x.1.now ≡ kept tokens.now) }
    ensures small { IfOk result (λ x. x.0.nesting ≤ limit) }
    ensures shorter { IfOk result (λ x. length x.1.now < length tokens.now) }
{
    let (name, rest) = name(alloc, tokens)?;
    let Some(inside) = after_sign(rest, "<") else {
        return Ok((bare(name), rest));
    };
    if let Some((glued, rest)) = after_angle(inside) {
        return Ok((diamond(alloc, name, glued), rest));
    }
    let (angled, rest) = angled(alloc, limit, inside)?;
    let nesting = angled.nesting;
    let tree = TypePart {
        name,
        arguments: Some(angled.tree),
    };
    Ok((NestedPart { tree, nesting }, rest))
}

/// Parts with points between them, of which one with `< >` is the last.
fn made_parts(
    alloc: Global,
    limit: u32,
    tokens: &[Token],
) -> Result<(NestedBase, &[Token]), ReadError>
    requires { length tokens.now < 2 ^ 32 }
    ensures gives { Gives (λ x. (base_of x.0.tree, map spelled x.1.now)) result (finished named_end []
        (made_parts_with (ty_at limit) (length (map spelled tokens.now)) (map spelled tokens.now))) }
    ensures places { IfOk result (λ x. base_places x.0.tree ++ kept x.1.now ≡ kept tokens.now) }
    ensures small { IfOk result (λ x. x.0.nesting ≤ limit) }
    ensures shorter { IfOk result (λ x. length x.1.now < length tokens.now) }
{
    let mut parts = Vec::new(alloc);
    let mut nesting: u32 = 0;
    let mut rest = tokens;
    for _ in 0..tokens.len() {
        let (next, behind) = made_part(alloc, limit, rest)?;
        nesting = nesting.max(next.nesting);
        let point = point_behind(&next.tree, behind);
        parts.push(next.tree)?;
        let Some(after) = point else {
            return Ok(named_base(parts, nesting, behind));
        };
        rest = after;
    }
    Err(ReadError::Unformed)
}

/// The base of a type that a `new` makes, within a type of a nesting of at most `limit`.
#[tactic(auto, unfolding(java_parser_grammar::specs::TypeReading::made_base_at, java_parser_grammar::specs::TypeReading::made_base_with))]
pub fn made_base(
    alloc: Global,
    limit: u32,
    tokens: &[Token],
) -> Result<(NestedBase, &[Token]), ReadError>
    requires { length tokens.now < 2 ^ 32 }
    ensures gives { Gives (λ x. (base_of x.0.tree, map spelled x.1.now)) result (made_base_at limit
        (map spelled tokens.now)) }
    ensures places { IfOk result (λ x. base_places x.0.tree ++ kept x.1.now ≡ kept tokens.now) }
    ensures small { IfOk result (λ x. x.0.nesting < limit) }
    ensures shorter { IfOk result (λ x. length x.1.now < length tokens.now) }
{
    if limit == 0 {
        return Err(ReadError::Unformed);
    }
    if let Some((word, rest)) = after_plain(tokens) {
        return Ok((plain(alloc, word)?, rest));
    }
    made_parts(alloc, limit - 1, tokens)
}
