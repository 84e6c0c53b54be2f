//! Reading type parameters (JLS 4.4, 8.4.4).
ghost use Rattle.std.specs.Prelude.{◌≡◌, ◌<◌, ◌≤◌, ◌^◌, ◌++◌, [], ◌∷◌, length, map, option_map, IfOk};
ghost use Rattle.java_tree.specs.KeptPlaces.{kept, all_places, ty_places, each_marks, maybe_marks};
ghost use Rattle.java_tree.specs.MethodPlaces.{type_parameter_marks, type_parameters_marks};
ghost use Rattle.java_tree.specs.View.{ty_of, type_parameter_of, type_parameters_of};
ghost use Rattle.java_parser_grammar.specs.JavaReaders.{method_readers};
ghost use Rattle.java_parser_grammar.specs.MethodReading.{type_parameter_at, type_parameters_at};
ghost use Rattle.java_parser_grammar.specs.Taking.{commas};
ghost use Rattle.java_parser_methods.specs.TypeParameterReading.{bounds_at, angled_at, angled_of, angled_places};
ghost use Rattle.java_parser_types.specs.LedPlaces.{Leads, LeadsOn};
ghost use Rattle.java_parser_types.specs.Tokens.{spelled};
ghost use Rattle.java_parser_types.specs.Finishing.{finished};
ghost use Rattle.java_parser_types.specs.Endings.{as_they_are};
ghost use Rattle.java_parser_types.specs.ReadAnswer.{Gives};

use super::annotations::annotations;
use super::modifiers::modifiers;
use java_lexer::Token;
use java_parser_lookahead::lookahead::after_word;
use java_parser_types::error::ReadError;
use java_parser_types::look::{after_sign, angle, name};
use java_parser_types::type_lists::types_between;
use java_tree::{Apart, TypeParameterTree, TypeParametersTree, TypeTree};
use racer_base::Items;
use std::alloc::Global;

/// Type parameters, and whether the `>` behind them is glued to the one before it.
#[derive(Drop)]
pub struct AngledParameters {
    pub items: Items<TypeParameterTree>,
    pub glued: bool,
}

/// The bounds of a type parameter, where it has some (JLS 4.4).
fn bounds(
    alloc: Global,
    limit: u32,
    tokens: &[Token],
) -> Result<(Vec<TypeTree>, &[Token]), ReadError>
    requires { length tokens.now < 2 ^ 32 }
    ensures gives { Gives (λ x. (map ty_of x.0.items, map spelled x.1.now)) result (bounds_at method_readers limit
        (map spelled tokens.now)) }
    ensures places { IfOk result (λ x. all_places (map ty_places x.0.items) ++ kept x.1.now ≡ kept tokens.now) }
    ensures shorter { IfOk result (λ x. length x.1.now ≤ length tokens.now) }
{
    let Some(after) = after_word(tokens, "extends") else {
        return Ok((Vec::new(alloc), tokens));
    };
    let (bounds, rest) = types_between(alloc, limit, "&", after)?;
    Ok((bounds.trees, rest))
}

/// A type parameter (JLS 4.4).
#[tactic(auto, unfolding(java_parser_grammar::specs::MethodReading::type_parameter_at))]
fn type_parameter(
    alloc: Global,
    limit: u32,
    tokens: &[Token],
) -> Result<(TypeParameterTree, &[Token]), ReadError>
    requires { length tokens.now < 2 ^ 32 }
    ensures gives { Gives (λ x. (type_parameter_of x.0, map spelled x.1.now)) result (type_parameter_at method_readers
        limit (map spelled tokens.now)) }
    ensures places { IfOk result (λ x. Leads (type_parameter_marks x.0) (kept tokens.now) (kept x.1.now)) }
    ensures shorter { IfOk result (λ x. length x.1.now < length tokens.now) }
{
    let (annotations, rest) = annotations(alloc, tokens.len(), tokens)?;
    let (name, rest) = name(alloc, rest)?;
    let (bounds, rest) = bounds(alloc, limit, rest)?;
    let annotations = Items::from(annotations);
    let bounds = Items::from(bounds);
    let parameter = TypeParameterTree {
        annotations,
        name,
        bounds,
    };
    Ok((parameter, rest))
}

/// This type parameter and others, each behind a comma.
fn more_type_parameters(
    alloc: Global,
    limit: u32,
    first: TypeParameterTree,
    tokens: &[Token],
) -> Result<(Vec<TypeParameterTree>, &[Token]), ReadError>
    requires { length tokens.now < 2 ^ 32 }
    ensures gives { Gives (λ x. (map type_parameter_of x.0.items, map spelled x.1.now)) result (finished as_they_are
        (type_parameter_of first ∷ []) (commas (type_parameter_at method_readers limit)
        (length (map spelled tokens.now)) (map spelled tokens.now))) }
    ensures places { IfOk result (λ x. LeadsOn (type_parameter_marks first) (each_marks type_parameter_marks
        x.0.items) (kept tokens.now) (kept x.1.now)) }
    ensures shorter { IfOk result (λ x. length x.1.now ≤ length tokens.now) }
{
    let mut items = Vec::new(alloc);
    items.push(first)?;
    let mut rest = tokens;
    for _ in 0..tokens.len() {
        let Some(after) = after_sign(rest, ",") else {
            break;
        };
        let (next, after) = type_parameter(alloc, limit, after)?;
        items.push(next)?;
        rest = after;
    }
    Ok((items, rest))
}

/// Type parameters behind their `<`, and the `>`.
fn angled_parameters(
    alloc: Global,
    limit: u32,
    tokens: &[Token],
) -> Result<(AngledParameters, &[Token]), ReadError>
    requires { length tokens.now < 2 ^ 32 }
    ensures gives { Gives (λ x. (angled_of x.0, map spelled x.1.now)) result (angled_at method_readers limit
        (map spelled tokens.now)) }
    ensures places { IfOk result (λ x. Leads (angled_places x.0) (kept tokens.now) (kept x.1.now)) }
    ensures shorter { IfOk result (λ x. length x.1.now ≤ length tokens.now) }
{
    let (first, rest) = type_parameter(alloc, limit, tokens)?;
    let (items, rest) = more_type_parameters(alloc, limit, first, rest)?;
    let (glued, rest) = angle(rest)?;
    let items = Items::from(items);
    Ok((AngledParameters { items, glued }, rest))
}

/// Type parameters of a method, where they stand, and the modifiers behind them (JLS 8.4.4).
#[tactic(auto, unfolding(java_parser_grammar::specs::MethodReading::type_parameters_at))]
pub fn type_parameters(
    alloc: Global,
    limit: u32,
    tokens: &[Token],
) -> Result<(Option<Apart<TypeParametersTree>>, &[Token]), ReadError>
    requires { length tokens.now < 2 ^ 32 }
    ensures gives { Gives (λ x. (option_map type_parameters_of x.0, map spelled x.1.now)) result
        (type_parameters_at method_readers limit (map spelled tokens.now)) }
    ensures places { IfOk result (λ x. Leads (maybe_marks type_parameters_marks x.0) (kept tokens.now)
        (kept x.1.now)) }
    ensures shorter { IfOk result (λ x. length x.1.now ≤ length tokens.now) }
{
    let Some(after) = after_sign(tokens, "<") else {
        return Ok((None, tokens));
    };
    let (angled, rest) = angled_parameters(alloc, limit, after)?;
    let (modifiers, rest) = modifiers(alloc, rest)?;
    let modifiers = Items::from(modifiers);
    let tree = TypeParametersTree {
        items: angled.items,
        glued: angled.glued,
        modifiers,
    };
    Ok((Some(Apart::new(alloc, tree)?), rest))
}
