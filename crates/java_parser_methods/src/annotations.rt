//! Reading annotations (JLS 9.7).
ghost use Rattle.std.specs.Prelude.{◌<◌, ◌≤◌, [], ◌∷◌, length, map, IfOk};
ghost use Rattle.java_tree.specs.KeptPlaces.{kept};
ghost use Rattle.java_tree.specs.KeptPlaces.{no_name, no_places, annotation_marks, each_marks};
ghost use Rattle.java_parser_types.specs.LedPlaces.{Leads, LeadsOn};
ghost use Rattle.java_tree.specs.View.{annotation_of};
ghost use Rattle.java_parser_grammar.specs.Taking.{after_name};
ghost use Rattle.java_parser_grammar.specs.TypeReading.{points};
ghost use Rattle.java_parser_grammar.specs.BalancedReading.{arguments_at, annotation_at, annotations_at};
ghost use Rattle.java_parser_types.specs.Tokens.{spelled};
ghost use Rattle.java_parser_types.specs.Finishing.{finished};
ghost use Rattle.java_parser_types.specs.Endings.{as_they_are};
ghost use Rattle.java_parser_types.specs.ReadAnswer.{Gives};

use java_lexer::Token;
use java_parser_lookahead::brackets::{Bracket, between};
use java_parser_lookahead::lookahead::begins_with;
use java_parser_types::error::ReadError;
use java_parser_types::look::{after_sign, name};
use java_tree::{AnnotationTree, Spelled};
use racer_base::{Items, Text};
use std::alloc::Global;

/// This name and others, each behind a point.
fn more_names(
    alloc: Global,
    first: Text,
    tokens: &[Token],
) -> Result<(Vec<Text>, &[Token]), ReadError>
    ensures gives { Gives (λ x. (x.0.items, map spelled x.1.now)) result (finished as_they_are (first ∷ [])
        (points after_name (length (map spelled tokens.now)) (map spelled tokens.now))) }
    ensures places { IfOk result (λ x. LeadsOn (no_name first) (each_marks no_name x.0.items) (kept tokens.now)
        (kept x.1.now)) }
    ensures shorter { IfOk result (λ x. length x.1.now ≤ length tokens.now) }
{
    let mut items = Vec::new(alloc);
    items.push(first)?;
    let mut rest = tokens;
    for _ in 0..tokens.len() {
        let Some(after) = after_sign(rest, ".") else {
            return Ok((items, rest));
        };
        let (next, after) = name(alloc, after)?;
        items.push(next.text)?;
        rest = after;
    }
    Ok((items, rest))
}

/// One pair of parentheses with balanced tokens in it, where it stands.
fn arguments(alloc: Global, tokens: &[Token]) -> Result<(Vec<Spelled>, &[Token]), ReadError>
    ensures gives { Gives (λ x. (x.0.items, map spelled x.1.now)) result (arguments_at (map spelled tokens.now)) }
    ensures places { IfOk result (λ x. Leads (no_places x.0.items) (kept tokens.now) (kept x.1.now)) }
    ensures shorter { IfOk result (λ x. length x.1.now ≤ length tokens.now) }
{
    if begins_with(tokens, "(") {
        return between(alloc, Bracket::Round, tokens);
    }
    Ok((Vec::new(alloc), tokens))
}

/// An annotation behind its `@`.
#[tactic(auto, unfolding(java_parser_grammar::specs::BalancedReading::annotation_at, java_parser_grammar::specs::BalancedReading::names_at))]
pub fn annotation(alloc: Global, tokens: &[Token]) -> Result<(AnnotationTree, &[Token]), ReadError>
    ensures gives { Gives (λ x. (annotation_of x.0, map spelled x.1.now)) result
        (annotation_at (map spelled tokens.now)) }
    ensures places { IfOk result (λ x. Leads (annotation_marks x.0) (kept tokens.now) (kept x.1.now)) }
    ensures shorter { IfOk result (λ x. length x.1.now < length tokens.now) }
{
    let (first, rest) = name(alloc, tokens)?;
    let (names, rest) = more_names(alloc, first.text, rest)?;
    let (arguments, rest) = arguments(alloc, rest)?;
    let names = Items::from(names);
    let arguments = Items::from(arguments);
    Ok((AnnotationTree { names, arguments }, rest))
}

/// Annotations, as long as they come, and fewer than `limit`.
pub fn annotations(
    alloc: Global,
    limit: usize,
    tokens: &[Token],
) -> Result<(Vec<AnnotationTree>, &[Token]), ReadError>
    ensures gives { Gives (λ x. (map annotation_of x.0.items, map spelled x.1.now)) result (annotations_at limit
        (map spelled tokens.now)) }
    ensures places { IfOk result (λ x. Leads (each_marks annotation_marks x.0.items) (kept tokens.now) (kept x.1.now)) }
    ensures shorter { IfOk result (λ x. length x.1.now ≤ length tokens.now) }
{
    let mut items = Vec::new(alloc);
    let mut rest = tokens;
    for _ in 0..limit {
        let Some(after) = after_sign(rest, "@") else {
            return Ok((items, rest));
        };
        let (next, after) = annotation(alloc, after)?;
        items.push(next)?;
        rest = after;
    }
    Err(ReadError::Unformed)
}
