//! Reading the parameters of a method, and the types behind its `throws` (JLS 8.4.1, 8.4.6).
ghost use Rattle.std.specs.Prelude.{◌++◌};
ghost use Rattle.std.specs.Prelude.{◌≡◌, ◌<◌, ◌≤◌, ◌^◌, [], ◌∷◌, length, map, IfOk};
ghost use Rattle.java_tree.specs.Formed.{is_named};
ghost use Rattle.java_tree.specs.FormedMethods.{is_any_number_last};
ghost use Rattle.java_tree.specs.KeptPlaces.{kept, all_places, ty_places};
ghost use Rattle.java_tree.specs.KeptPlaces.{each_marks};
ghost use Rattle.java_tree.specs.MethodPlaces.{parameter_marks};
ghost use Rattle.java_parser_types.specs.LedPlaces.{Leads, LeadsOn};
ghost use Rattle.java_tree.specs.View.{ty_of, parameter_of};
ghost use Rattle.java_parser_grammar.specs.Taking.{commas};
ghost use Rattle.java_parser_grammar.specs.MethodReading.{any_number_at, parameter_at, parameters_at};
ghost use Rattle.java_parser_grammar.specs.MethodReading.{thrown_at, throws_at};
ghost use Rattle.java_parser_methods.specs.SignatureReading.{parameter_from};
ghost use Rattle.java_parser_methods.specs.TypedReading.{typed_of, typed_places};
ghost use Rattle.java_parser_grammar.specs.JavaReaders.{method_readers};
ghost use Rattle.java_parser_types.specs.Tokens.{spelled};
ghost use Rattle.java_parser_types.specs.Finishing.{finished};
ghost use Rattle.java_parser_types.specs.Endings.{as_they_are};
ghost use Rattle.java_parser_types.specs.ReadAnswer.{Gives};

use super::typed::{TypedFront, typed};
use java_lexer::Token;
use java_parser_lookahead::lookahead::begins_with;
use java_parser_types::error::ReadError;
use java_parser_types::look::{after_keyword, after_sign, brackets, name};
use java_parser_types::types::read_type;
use java_tree::{BaseType, ParameterTree, TypeTree};
use std::alloc::Global;

/// Whether `...` stands here, and the tokens behind it.
fn any_number(tokens: &[Token]) -> (bool, &[Token])
    ensures gives { (result.0, map spelled result.1.now) ≡ any_number_at (map spelled tokens.now) }
    ensures places { kept result.1.now ≡ kept tokens.now }
    ensures shorter { length result.1.now ≤ length tokens.now }
{
    match after_sign(tokens, "...") {
        Some(rest) => (true, rest),
        None => (false, tokens),
    }
}

/// A parameter behind its modifiers and its type, which are these.
#[tactic(auto, unfolding(crate::specs::SignatureReading::parameter_from))]
fn named_parameter(
    alloc: Global,
    front: TypedFront,
    tokens: &[Token],
) -> Result<(ParameterTree, &[Token]), ReadError>
    requires { length tokens.now < 2 ^ 32 }
    ensures gives { Gives (λ x. (parameter_of x.0, map spelled x.1.now)) result (parameter_from (typed_of front)
        (map spelled tokens.now)) }
    ensures places { IfOk result (λ x. LeadsOn (typed_places front) (parameter_marks x.0) (kept tokens.now)
        (kept x.1.now)) }
    ensures shorter { IfOk result (λ x. length x.1.now ≤ length tokens.now) }
{
    let (any_number, rest) = any_number(tokens);
    let (name, rest) = name(alloc, rest)?;
    let (arrays, rest) = brackets(rest);
    let parameter = ParameterTree {
        modifiers: front.modifiers,
        kind: Box::into_inner(front.kind),
        any_number,
        name,
        arrays,
    };
    Ok((parameter, rest))
}

/// A formal parameter (JLS 8.4.1).
#[tactic(auto, unfolding(java_parser_grammar::specs::MethodReading::parameter_at, crate::specs::SignatureReading::parameter_from))]
fn parameter(
    alloc: Global,
    limit: u32,
    tokens: &[Token],
) -> Result<(ParameterTree, &[Token]), ReadError>
    requires { length tokens.now < 2 ^ 32 }
    ensures gives { Gives (λ x. (parameter_of x.0, map spelled x.1.now)) result (parameter_at method_readers limit
        (map spelled tokens.now)) }
    ensures places { IfOk result (λ x. Leads (parameter_marks x.0) (kept tokens.now) (kept x.1.now)) }
    ensures shorter { IfOk result (λ x. length x.1.now ≤ length tokens.now) }
{
    let (front, rest) = typed(alloc, limit, tokens)?;
    named_parameter(alloc, front, rest)
}

/// This parameter and others, each behind a comma.
fn more_parameters(
    alloc: Global,
    limit: u32,
    first: ParameterTree,
    tokens: &[Token],
) -> Result<(Vec<ParameterTree>, &[Token]), ReadError>
    requires { length tokens.now < 2 ^ 32 }
    ensures gives { Gives (λ x. (map parameter_of x.0.items, map spelled x.1.now)) result (finished as_they_are
        (parameter_of first ∷ []) (commas (parameter_at method_readers limit) (length (map spelled tokens.now))
        (map spelled tokens.now))) }
    ensures places { IfOk result (λ x. LeadsOn (parameter_marks first) (each_marks parameter_marks x.0.items)
        (kept tokens.now) (kept x.1.now)) }
    ensures shorter { IfOk result (λ x. length x.1.now ≤ length tokens.now) }
{
    let mut items = Vec::new(alloc);
    items.push(first)?;
    let mut rest = tokens;
    for _ in 0..tokens.len() {
        let Some(after) = after_sign(rest, ",") else {
            break;
        };
        let (next, after) = parameter(alloc, limit, after)?;
        items.push(next)?;
        rest = after;
    }
    Ok((items, rest))
}

/// Whether none takes any number of arguments but the last one (JLS 8.4.1).
fn is_any_number_last(parameters: &[ParameterTree]) -> bool
    ensures { result ≡ is_any_number_last (map parameter_of parameters.now) }
{
    let mut rest = parameters;
    while let Some((first, after)) = rest.split_first() {
        if first.any_number && !after.is_empty() {
            return false;
        }
        rest = after;
    }
    true
}

/// The parameters up to the `)`, which stays.
pub fn parameters(
    alloc: Global,
    limit: u32,
    tokens: &[Token],
) -> Result<(Vec<ParameterTree>, &[Token]), ReadError>
    requires { length tokens.now < 2 ^ 32 }
    ensures gives { Gives (λ x. (map parameter_of x.0.items, map spelled x.1.now)) result
        (parameters_at method_readers limit (map spelled tokens.now)) }
    ensures places { IfOk result (λ x. Leads (each_marks parameter_marks x.0.items) (kept tokens.now) (kept x.1.now)) }
    ensures shorter { IfOk result (λ x. length x.1.now ≤ length tokens.now) }
{
    if begins_with(tokens, ")") {
        return Ok((Vec::new(alloc), tokens));
    }
    let (first, rest) = parameter(alloc, limit, tokens)?;
    let (items, rest) = more_parameters(alloc, limit, first, rest)?;
    if !is_any_number_last(items.as_slice()) {
        return Err(ReadError::Unformed);
    }
    Ok((items, rest))
}

fn is_named(kind: &TypeTree) -> bool
    ensures { result ≡ is_named (ty_of kind.now) }
{
    match &kind.base {
        BaseType::Plain(_) => false,
        BaseType::Named(_) => true,
    }
}

/// An exception's type.
pub fn thrown(
    alloc: Global,
    limit: u32,
    tokens: &[Token],
) -> Result<(TypeTree, &[Token]), ReadError>
    requires { length tokens.now < 2 ^ 32 }
    ensures gives { Gives (λ x. (ty_of x.0, map spelled x.1.now)) result (thrown_at method_readers limit
        (map spelled tokens.now)) }
    ensures places { IfOk result (λ x. ty_places x.0 ++ kept x.1.now ≡ kept tokens.now) }
    ensures shorter { IfOk result (λ x. length x.1.now ≤ length tokens.now) }
{
    let (kind, rest) = read_type(alloc, limit, tokens)?;
    if !is_named(&kind.tree) {
        return Err(ReadError::Unformed);
    }
    Ok((kind.tree, rest))
}

/// This exception's type and others, each behind a comma.
fn more_thrown(
    alloc: Global,
    limit: u32,
    first: TypeTree,
    tokens: &[Token],
) -> Result<(Vec<TypeTree>, &[Token]), ReadError>
    requires { length tokens.now < 2 ^ 32 }
    ensures gives { Gives (λ x. (map ty_of x.0.items, map spelled x.1.now)) result (finished as_they_are (ty_of first
        ∷ []) (commas (thrown_at method_readers limit) (length (map spelled tokens.now)) (map spelled tokens.now))) }
    ensures places { IfOk result (λ x. all_places (map ty_places x.0.items) ++ kept x.1.now ≡ ty_places first
        ++ kept tokens.now) }
    ensures shorter { IfOk result (λ x. length x.1.now ≤ length tokens.now) }
{
    let mut items = Vec::new(alloc);
    items.push(first)?;
    let mut rest = tokens;
    for _ in 0..tokens.len() {
        let Some(after) = after_sign(rest, ",") else {
            break;
        };
        let (next, after) = thrown(alloc, limit, after)?;
        items.push(next)?;
        rest = after;
    }
    Ok((items, rest))
}

/// The types behind `throws`, where it stands (JLS 8.4.6).
#[tactic(auto, unfolding(java_parser_grammar::specs::MethodReading::throws_at))]
pub fn throws(
    alloc: Global,
    limit: u32,
    tokens: &[Token],
) -> Result<(Vec<TypeTree>, &[Token]), ReadError>
    requires { length tokens.now < 2 ^ 32 }
    ensures gives { Gives (λ x. (map ty_of x.0.items, map spelled x.1.now)) result (throws_at method_readers limit
        (map spelled tokens.now)) }
    ensures places { IfOk result (λ x. all_places (map ty_places x.0.items) ++ kept x.1.now ≡ kept tokens.now) }
    ensures shorter { IfOk result (λ x. length x.1.now ≤ length tokens.now) }
{
    let Some(after) = after_keyword(tokens, "throws") else {
        return Ok((Vec::new(alloc), tokens));
    };
    let (first, rest) = thrown(alloc, limit, after)?;
    more_thrown(alloc, limit, first, rest)
}
