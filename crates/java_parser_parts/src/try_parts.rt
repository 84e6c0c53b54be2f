//! What stands behind the block of a `try` (JLS 14.20).
ghost use Rattle.std.specs.Prelude.{◌≡◌, ◌||◌, is_some, length, map};
ghost use Rattle.java_tree.specs.KeptPlaces.{kept};
ghost use Rattle.java_tree.specs.View.{catch_of, pack_rows};
ghost use Rattle.java_parser_parts.specs.Parts.{has_row, next_part};
ghost use Rattle.java_parser_parts.specs.PartsView.{part_of, places_from, PartIsBelow};
ghost use Rattle.java_parser_types.specs.Tokens.{spelled};

use java_lexer::Token;
use java_parser_lookahead::lookahead::after_word;
use java_tree::{Apart, CatchTree, ResourcesTree, Statement};

/// The part of a `try` that stands next, and the tokens behind its word.
#[derive(Drop)]
pub enum TryPart<'a> {
    Clause(&'a [Token]),
    Last(&'a [Token]),
    Nothing,
}

/// The part that stands here, where the last block was read or was not: behind that stands none.
pub fn next_part(had_last: bool, tokens: &[Token]) -> TryPart<'_>
    ensures gives { part_of result ≡ next_part had_last (map spelled tokens.now) }
    ensures places { places_from result (kept tokens.now) ≡ kept tokens.now }
    ensures shorter { PartIsBelow result (length tokens.now) }
{
    if had_last {
        return TryPart::Nothing;
    }
    if let Some(after) = after_word(tokens, "catch") {
        return TryPart::Clause(after);
    }
    match after_word(tokens, "finally") {
        Some(after) => TryPart::Last(after),
        None => TryPart::Nothing,
    }
}

fn has_clause(clauses: &[CatchTree]) -> bool
    ensures { result ≡ has_row (pack_rows (map catch_of clauses.now)) }
{
    match clauses {
        [_, ..] => true,
        [] => false,
    }
}

/// Whether one stands of the parts that may be left out.
pub fn stands(
    resources: &Option<Apart<ResourcesTree>>,
    clauses: &[CatchTree],
    finally: &Option<Vec<Statement>>,
) -> bool
    ensures { result ≡ (is_some resources.now || (has_row (pack_rows (map catch_of clauses.now))
        || is_some finally.now)) }
{
    resources.is_some() || has_clause(clauses) || finally.is_some()
}
