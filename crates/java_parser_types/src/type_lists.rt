//! Reading several types: those before the name of a method that is called (JLS 15.12, 15.13), and those with a sign
//! between them (JLS 15.16).
ghost use Rattle.std.specs.Prelude.{◌≡◌, ◌<◌, ◌≤◌, ◌^◌, suc, [], ◌∷◌, ◌++◌, length, map, IfOk};
ghost use Rattle.java_tree.specs.KeptPlaces.{kept, all_places, ty_places};
ghost use Rattle.java_tree.specs.Nesting.{most_over, ty_nesting};
ghost use Rattle.java_tree.specs.View.{ty_of, types_of};
ghost use Rattle.java_parser_grammar.specs.TypeReading.{behind_each, between_each, ty_at, types_at};
ghost use Rattle.java_parser_types.specs.Endings.{as_they_are};
ghost use Rattle.java_parser_types.specs.Finishing.{finished};
ghost use Rattle.java_parser_types.specs.ReadAnswer.{Gives};
ghost use Rattle.java_parser_types.specs.Tokens.{spelled};

use super::error::ReadError;
use super::look::{after_sign, angle};
use super::nested::{NestedExact, NestedType, NestedTypes};
use super::types::read_type;
use java_lexer::Token;
use racer_base::Items;
use std::alloc::Global;

/// This type and others, each behind this sign.
fn types_behind<'a>(
    alloc: Global,
    limit: u32,
    sign: &str,
    first: NestedType,
    tokens: &'a [Token],
) -> Result<(NestedTypes, &'a [Token]), ReadError>
    requires few { length tokens.now < 2 ^ 32 }
    requires first { first.nesting ≤ limit }
    ensures gives { Gives (λ x. (map ty_of x.0.trees.items, map spelled x.1.now)) result (finished as_they_are
        (ty_of first.tree ∷ []) (behind_each sign.now (ty_at limit) (length (map spelled tokens.now))
        (map spelled tokens.now))) }
    ensures places { IfOk result (λ x. all_places (map ty_places x.0.trees.items) ++ kept x.1.now
        ≡ ty_places first.tree ++ kept tokens.now) }
    ensures small { IfOk result (λ x. x.0.nesting ≤ limit) }
    ensures shorter { IfOk result (λ x. length x.1.now ≤ length tokens.now) }
{
    let mut trees = Vec::new(alloc);
    let mut nesting = first.nesting;
    trees.push(first.tree)?;
    let mut rest = tokens;
    for _ in 0..tokens.len() {
        let Some(after) = after_sign(rest, sign) else {
            break;
        };
        let (next, after) = read_type(alloc, limit, after)?;
        nesting = nesting.max(next.nesting);
        trees.push(next.tree)?;
        rest = after;
    }
    Ok((NestedTypes { trees, nesting }, rest))
}

/// Types with this sign between them.
pub fn types_between<'a>(
    alloc: Global,
    limit: u32,
    sign: &str,
    tokens: &'a [Token],
) -> Result<(NestedTypes, &'a [Token]), ReadError>
    requires { length tokens.now < 2 ^ 32 }
    ensures gives { Gives (λ x. (map ty_of x.0.trees.items, map spelled x.1.now)) result (between_each sign.now
        (ty_at limit) (map spelled tokens.now)) }
    ensures places { IfOk result (λ x. all_places (map ty_places x.0.trees.items) ++ kept x.1.now
        ≡ kept tokens.now) }
    ensures small { IfOk result (λ x. x.0.nesting ≤ limit) }
    ensures shorter { IfOk result (λ x. length x.1.now < length tokens.now) }
{
    let (first, rest) = read_type(alloc, limit, tokens)?;
    types_behind(alloc, limit, sign, first, rest)
}

/// No types before a name.
pub fn no_types(alloc: Global) -> NestedExact
    ensures gives { result.trees ≡ [] }
    ensures small { result.nesting ≡ 0 }
{
    NestedExact {
        trees: Items::new(alloc),
        glued: false,
        nesting: 0,
    }
}

/// These types before a name.
fn in_angles(types: NestedTypes, glued: bool) -> NestedExact
    ensures gives { result.trees ≡ types.trees.items }
    ensures glued { result.glued ≡ glued }
    ensures small { result.nesting ≡ types.nesting }
{
    let nesting = types.nesting;
    let trees = Items::from(types.trees);
    NestedExact {
        trees,
        glued,
        nesting,
    }
}

/// Types in angle brackets, where they stand: none is a wildcard.
#[tactic(auto, unfolding(java_parser_grammar::specs::TypeReading::types_at))]
pub fn types(
    alloc: Global,
    limit: u32,
    tokens: &[Token],
) -> Result<(NestedExact, &[Token]), ReadError>
    requires { length tokens.now < 2 ^ 32 }
    ensures gives { Gives (λ x. (types_of x.0.trees x.0.glued, map spelled x.1.now)) result (types_at limit
        (map spelled tokens.now)) }
    ensures places { IfOk result (λ x. all_places (map ty_places x.0.trees) ++ kept x.1.now ≡ kept tokens.now) }
    ensures small { IfOk result (λ x. x.0.nesting ≤ limit) }
    ensures shorter { IfOk result (λ x. length x.1.now ≤ length tokens.now) }
{
    let Some(inside) = after_sign(tokens, "<") else {
        return Ok((no_types(alloc), tokens));
    };
    let (types, rest) = types_between(alloc, limit, ",", inside)?;
    let (glued, rest) = angle(rest)?;
    Ok((in_angles(types, glued), rest))
}
