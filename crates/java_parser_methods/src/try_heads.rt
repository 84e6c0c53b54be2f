//! Reading what stands in the parentheses of a `try` and of a `catch` (JLS 14.20).
ghost use Rattle.std.specs.Prelude.{◌≡◌, ◌<◌, ◌≤◌, ◌^◌, ◌++◌, ◌∷◌, [], codes, suc, None, Some, length, map};
ghost use Rattle.std.specs.Prelude.{option_map, IfOk, IfSome, MatchOption};
ghost use Rattle.java_tree.specs.KeptPlaces.{kept, maybe_puts, each_puts, all_places, ty_places, resource_places};
ghost use Rattle.java_tree.specs.KeptPlaces.{resources_places, catch_parameter_places};
ghost use Rattle.java_tree.specs.View.{ty_of, resource_of, resources_of, catch_parameter_of};
ghost use Rattle.java_parser_grammar.specs.StatementReading.{resource_at, more_resources_at, maybe_resources_at};
ghost use Rattle.java_parser_grammar.specs.StatementReading.{named_at, catch_parameter_at};
ghost use Rattle.java_parser_grammar.specs.TypeReading.{behind_each};
ghost use Rattle.java_parser_grammar.specs.JavaReaders.{method_readers};
ghost use Rattle.java_parser_methods.specs.RowReading.{resource_from, resource_behind, resources_close};
ghost use Rattle.java_parser_methods.specs.RowReading.{resources_end, caught_at};
ghost use Rattle.java_parser_methods.specs.TypedReading.{typed_of, typed_places};
ghost use Rattle.java_parser_types.specs.LedPlaces.{Leads, LeadsOn};
ghost use Rattle.java_parser_types.specs.Tokens.{spelled};
ghost use Rattle.java_parser_types.specs.Finishing.{finished};
ghost use Rattle.java_parser_types.specs.Endings.{as_they_are};
ghost use Rattle.java_parser_types.specs.ReadAnswer.{Gives};

use super::modifiers::before_type;
use super::parameters::thrown;
use super::typed::{TypedFront, typed};
use java_lexer::Token;
use java_parser_expressions::expressions::read_expression;
use java_parser_types::error::ReadError;
use java_parser_types::look::{after_sign, name, sign};
use java_tree::{Apart, CatchParameterTree, ResourceTree, ResourcesTree, TypeTree};
use racer_base::Items;
use std::alloc::Global;

/// `x = a` behind the modifiers and the type of a resource, which are these.
#[tactic(auto, unfolding(crate::specs::RowReading::resource_from))]
fn named_resource(
    alloc: Global,
    limit: u32,
    front: TypedFront,
    tokens: &[Token],
) -> Result<(ResourceTree, &[Token]), ReadError>
    requires few { length tokens.now < 2 ^ 32 }
    requires room { suc (suc limit) < 2 ^ 32 }
    ensures gives { Gives (λ x. (resource_of x.0, map spelled x.1.now)) result (resource_from method_readers limit
        (typed_of front) (map spelled tokens.now)) }
    ensures places { IfOk result (λ x. LeadsOn (typed_places front) (resource_places x.0) (kept tokens.now)
        (kept x.1.now)) }
    ensures shorter { IfOk result (λ x. length x.1.now ≤ length tokens.now) }
{
    let (name, rest) = name(alloc, tokens)?;
    let rest = sign(rest, "=")?;
    let (value, rest) = read_expression(alloc, limit, 0, rest)?;
    let resource = ResourceTree {
        modifiers: front.modifiers,
        kind: Box::into_inner(front.kind),
        name,
        value: Box::into_inner(value.tree),
    };
    Ok((resource, rest))
}

/// A resource of a `try` (JLS 14.20.3).
fn resource(
    alloc: Global,
    limit: u32,
    tokens: &[Token],
) -> Result<(ResourceTree, &[Token]), ReadError>
    requires few { length tokens.now < 2 ^ 32 }
    requires room { suc (suc limit) < 2 ^ 32 }
    ensures gives { Gives (λ x. (resource_of x.0, map spelled x.1.now)) result (resource_at method_readers limit
        (map spelled tokens.now)) }
    ensures places { IfOk result (λ x. Leads (resource_places x.0) (kept tokens.now) (kept x.1.now)) }
    ensures shorter { IfOk result (λ x. length x.1.now ≤ length tokens.now) }
{
    let (front, rest) = typed(alloc, limit, tokens)?;
    named_resource(alloc, limit, front, rest)
}

/// The tokens behind the `;` before one more resource; none where the `)` comes.
fn resource_behind(tokens: &[Token]) -> Option<&[Token]>
    ensures gives { MatchOption result (resource_behind (map spelled tokens.now) ≡ None) (λ rest. resource_behind
        (map spelled tokens.now) ≡ Some (map spelled rest.now)) }
    ensures places { IfSome result (λ rest. kept rest.now ≡ kept tokens.now) }
    ensures shorter { IfSome result (λ rest. length rest.now < length tokens.now) }
{
    if after_sign(tokens, ")").is_some() {
        return None;
    }
    let after = after_sign(tokens, ";")?;
    if after_sign(after, ")").is_some() {
        return None;
    }
    Some(after)
}

/// Whether a last `;` stands, and the tokens behind the `)`.
fn resources_close(tokens: &[Token]) -> Result<(bool, &[Token]), ReadError>
    ensures gives { Gives (λ x. (([], x.0), map spelled x.1.now)) result (resources_close (map spelled tokens.now)) }
    ensures places { IfOk result (λ x. kept x.1.now ≡ kept tokens.now) }
    ensures shorter { IfOk result (λ x. length x.1.now ≤ length tokens.now) }
{
    if let Some(after) = after_sign(tokens, ")") {
        return Ok((false, after));
    }
    let rest = sign(tokens, ";")?;
    Ok((true, sign(rest, ")")?))
}

/// These resources, where no other stands behind them.
fn resources_end(
    alloc: Global,
    items: Vec<ResourceTree>,
    tokens: &[Token],
) -> Result<(Apart<ResourcesTree>, &[Token]), ReadError>
    ensures gives { Gives (λ x. (resources_of x.0, map spelled x.1.now)) result (resources_end
        (map resource_of items.items) (resources_close (map spelled tokens.now))) }
    ensures places { IfOk result (λ x. LeadsOn (λ rest. each_puts (map resource_places items.items) rest)
        (resources_places x.0) (kept tokens.now) (kept x.1.now)) }
    ensures shorter { IfOk result (λ x. length x.1.now ≤ length tokens.now) }
{
    let (last_semicolon, rest) = resources_close(tokens)?;
    let items = Items::from(items);
    let resources = ResourcesTree {
        items,
        last_semicolon,
    };
    Ok((Apart::new(alloc, resources)?, rest))
}

/// This resource and others, each behind a `;`, and the `)`.
fn more_resources(
    alloc: Global,
    limit: u32,
    first: ResourceTree,
    tokens: &[Token],
) -> Result<(Apart<ResourcesTree>, &[Token]), ReadError>
    requires few { length tokens.now < 2 ^ 32 }
    requires room { suc (suc limit) < 2 ^ 32 }
    ensures gives { Gives (λ x. (resources_of x.0, map spelled x.1.now)) result (resources_end (resource_of first
        ∷ []) (more_resources_at method_readers limit (suc (length (map spelled tokens.now)))
        (map spelled tokens.now))) }
    ensures places { IfOk result (λ x. LeadsOn (resource_places first) (resources_places x.0) (kept tokens.now) (kept
        x.1.now)) }
    ensures shorter { IfOk result (λ x. length x.1.now ≤ length tokens.now) }
{
    let mut items = Vec::new(alloc);
    items.push(first)?;
    let mut rest = tokens;
    for _ in 0..tokens.len() {
        let Some(after) = resource_behind(rest) else {
            break;
        };
        let (next, after) = resource(alloc, limit, after)?;
        items.push(next)?;
        rest = after;
    }
    resources_end(alloc, items, rest)
}

/// Resources in parentheses, where these stand here (JLS 14.20.3).
pub fn resources(
    alloc: Global,
    limit: u32,
    tokens: &[Token],
) -> Result<(Option<Apart<ResourcesTree>>, &[Token]), ReadError>
    requires few { length tokens.now < 2 ^ 32 }
    requires room { suc (suc limit) < 2 ^ 32 }
    ensures gives { Gives (λ x. (option_map resources_of x.0, map spelled x.1.now)) result
        (maybe_resources_at method_readers limit (map spelled tokens.now)) }
    ensures places { IfOk result (λ x. Leads (maybe_puts (option_map resources_places x.0)) (kept tokens.now) (kept
        x.1.now)) }
    ensures shorter { IfOk result (λ x. length x.1.now ≤ length tokens.now) }
{
    let Some(after) = after_sign(tokens, "(") else {
        return Ok((None, tokens));
    };
    let (first, rest) = resource(alloc, limit, after)?;
    let (resources, rest) = more_resources(alloc, limit, first, rest)?;
    Ok((Some(resources), rest))
}

/// This type and others, each behind a `|`.
fn more_types(
    alloc: Global,
    limit: u32,
    first: TypeTree,
    tokens: &[Token],
) -> Result<(Vec<TypeTree>, &[Token]), ReadError>
    requires { length tokens.now < 2 ^ 32 }
    ensures gives { Gives (λ x. (map ty_of x.0.items, map spelled x.1.now)) result (finished as_they_are (ty_of first
        ∷ []) (behind_each (codes "|") (named_at method_readers limit) (length (map spelled tokens.now))
        (map spelled tokens.now))) }
    ensures places { IfOk result (λ x. all_places (map ty_places x.0.items) ++ kept x.1.now ≡ ty_places first
        ++ kept tokens.now) }
    ensures shorter { IfOk result (λ x. length x.1.now ≤ length tokens.now) }
{
    let mut items = Vec::new(alloc);
    items.push(first)?;
    let mut rest = tokens;
    for _ in 0..tokens.len() {
        let Some(after) = after_sign(rest, "|") else {
            break;
        };
        let (next, after) = thrown(alloc, limit, after)?;
        items.push(next)?;
        rest = after;
    }
    Ok((items, rest))
}

/// The types of a `catch` (JLS 14.20).
fn caught(
    alloc: Global,
    limit: u32,
    tokens: &[Token],
) -> Result<(Vec<TypeTree>, &[Token]), ReadError>
    requires { length tokens.now < 2 ^ 32 }
    ensures gives { Gives (λ x. (map ty_of x.0.items, map spelled x.1.now)) result (caught_at method_readers limit
        (map spelled tokens.now)) }
    ensures places { IfOk result (λ x. all_places (map ty_places x.0.items) ++ kept x.1.now ≡ kept tokens.now) }
    ensures shorter { IfOk result (λ x. length x.1.now ≤ length tokens.now) }
{
    let (first, rest) = thrown(alloc, limit, tokens)?;
    more_types(alloc, limit, first, rest)
}

/// `( final T | U x )` (JLS 14.20).
#[tactic(auto, unfolding(java_parser_grammar::specs::StatementReading::catch_parameter_at))]
pub fn catch_parameter(
    alloc: Global,
    limit: u32,
    tokens: &[Token],
) -> Result<(CatchParameterTree, &[Token]), ReadError>
    requires { length tokens.now < 2 ^ 32 }
    ensures gives { Gives (λ x. (catch_parameter_of x.0, map spelled x.1.now)) result
        (catch_parameter_at method_readers limit (map spelled tokens.now)) }
    ensures places { IfOk result (λ x. Leads (catch_parameter_places x.0) (kept tokens.now) (kept x.1.now)) }
    ensures shorter { IfOk result (λ x. length x.1.now ≤ length tokens.now) }
{
    let rest = sign(tokens, "(")?;
    let (modifiers, rest) = before_type(alloc, rest)?;
    let (types, rest) = caught(alloc, limit, rest)?;
    let (name, rest) = name(alloc, rest)?;
    let rest = sign(rest, ")")?;
    let modifiers = Items::from(modifiers);
    let types = Items::from(types);
    let parameter = CatchParameterTree {
        modifiers,
        types,
        name,
    };
    Ok((parameter, rest))
}
