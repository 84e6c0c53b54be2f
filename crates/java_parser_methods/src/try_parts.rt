//! What was read of a `try` behind its block (JLS 14.20).
ghost use Rattle.std.specs.Prelude.{◌≡◌, ◌≤◌, [], None, is_some, length, map, option_map, IfOk};
ghost use Rattle.java_tree.specs.Trees.{pack_stmts};
ghost use Rattle.java_tree.specs.Rows.{Try};
ghost use Rattle.java_tree.specs.KeptPlaces.{Marks, kept, maybe_puts, each_puts, stmt_places, resources_places};
ghost use Rattle.java_tree.specs.View.{stmt_of, resources_of, catch_of, Finally, pack_rows};
ghost use Rattle.java_parser_expressions.specs.Closings.{as_read};
ghost use Rattle.java_parser_parts.specs.Parts.{next_part};
ghost use Rattle.java_parser_parts.specs.PartsView.{part_of, places_from, PartIsBelow};
ghost use Rattle.java_parser_methods.specs.RowReading.{try_with};
ghost use Rattle.java_parser_methods.specs.TryView.{block_of, parts_places};
ghost use Rattle.java_parser_types.specs.Tokens.{spelled};
ghost use Rattle.java_parser_types.specs.ReadAnswer.{Gives};

use super::nodes::boxed;
use java_lexer::Token;
use java_parser_parts::try_parts::{TryPart, next_part, stands};
use java_parser_types::error::ReadError;
use java_tree::{Apart, CatchTree, ResourcesTree, Statement, TryTree};
use std::alloc::Global;

/// What was read of a `try` behind its block.
#[derive(Drop)]
pub struct TryParts {
    pub clauses: Vec<CatchTree>,
    pub last: Option<Vec<Statement>>,
}

impl TryParts {
    /// No parts.
    pub fn new(alloc: Global) -> TryParts
        ensures clauses { result.clauses.items ≡ [] }
        ensures last { result.last ≡ None }
    {
        TryParts {
            clauses: Vec::new(alloc),
            last: None,
        }
    }

    /// The part that stands here behind these: behind the last block stands none.
    pub fn next<'a>(&self, tokens: &'a [Token]) -> TryPart<'a>
        ensures gives { part_of result ≡ next_part (is_some self.now.last) (map spelled tokens.now) }
        ensures places { places_from result (kept tokens.now) ≡ kept tokens.now }
        ensures shorter { PartIsBelow result (length tokens.now) }
    {
        next_part(self.last.is_some(), tokens)
    }
}

/// The `try` of these parts.
fn trying(
    alloc: Global,
    resources: Option<Apart<ResourcesTree>>,
    body: Vec<Statement>,
    parts: TryParts,
    tokens: &[Token],
) -> Result<(Box<Statement>, &[Token]), ReadError>
    ensures gives { Gives (λ x. (stmt_of x.0.value, map spelled x.1.now)) result (as_read
        (Try (option_map resources_of resources) (pack_stmts (map stmt_of body.items)) (pack_rows (map catch_of
        parts.clauses.items)) (option_map (λ ss. Finally (block_of ss)) parts.last)) (map spelled tokens.now)) }
    ensures places { IfOk result (λ x. (marks : Marks) → stmt_places x.0.value marks ≡ maybe_puts (option_map
        resources_places resources) (each_puts (map stmt_places body.items) (parts_places parts marks))) }
    ensures behind { IfOk result (λ x. kept x.1.now ≡ kept tokens.now) }
    ensures shorter { IfOk result (λ x. length x.1.now ≤ length tokens.now) }
{
    let tree = TryTree {
        resources,
        body,
        clauses: parts.clauses,
        finally: parts.last,
    };
    boxed(alloc, Statement::Try(Box::new(alloc, tree)?), tokens)
}

/// The same, where one stands of the parts that may be left out.
pub fn tried(
    alloc: Global,
    resources: Option<Apart<ResourcesTree>>,
    body: Vec<Statement>,
    parts: TryParts,
    tokens: &[Token],
) -> Result<(Box<Statement>, &[Token]), ReadError>
    ensures gives { Gives (λ x. (stmt_of x.0.value, map spelled x.1.now)) result (try_with
        (option_map resources_of resources) (pack_stmts (map stmt_of body.items)) (pack_rows (map catch_of
        parts.clauses.items)) (option_map block_of parts.last) (map spelled tokens.now)) }
    ensures places { IfOk result (λ x. (marks : Marks) → stmt_places x.0.value marks ≡ maybe_puts (option_map
        resources_places resources) (each_puts (map stmt_places body.items) (parts_places parts marks))) }
    ensures behind { IfOk result (λ x. kept x.1.now ≡ kept tokens.now) }
    ensures shorter { IfOk result (λ x. length x.1.now ≤ length tokens.now) }
{
    if !stands(&resources, parts.clauses.as_slice(), &parts.last) {
        return Err(ReadError::Unformed);
    }
    trying(alloc, resources, body, parts, tokens)
}
