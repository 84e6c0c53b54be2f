//! Reading `try`, its clauses and its last block (JLS 14.20).
ghost use Rattle.std.specs.Prelude.{◌≡◌, ◌<◌, ◌≤◌, ◌^◌, suc, length, map, option_map, IfOk};
ghost use Rattle.java_tree.specs.KeptPlaces.{kept, catch_places, stmt_places};
ghost use Rattle.java_tree.specs.Rows.{catch_row};
ghost use Rattle.java_tree.specs.View.{catch_of, stmt_of, pack_rows};
ghost use Rattle.java_parser_grammar.specs.StatementReading.{pieces_at, stmt_at, block_at};
ghost use Rattle.java_parser_grammar.specs.JavaReaders.{method_readers};
ghost use Rattle.java_parser_methods.specs.TryView.{block_of, parts_places};
ghost use Rattle.java_parser_methods.specs.RowReading.{parts_at, try_at};
ghost use Rattle.java_parser_types.specs.LedPlaces.{Leads};
ghost use Rattle.java_parser_types.specs.Tokens.{spelled};
ghost use Rattle.java_parser_types.specs.ReadAnswer.{Gives};

use super::statements::read_block;
use super::try_heads::{catch_parameter, resources};
use super::try_parts::{TryParts, tried};
use java_lexer::Token;
use java_parser_parts::try_parts::TryPart;
use java_parser_types::error::ReadError;
use java_tree::{CatchTree, Statement};
use std::alloc::Global;

/// Behind `catch`.
#[cycle(statements)]
#[tactic(auto, unfolding(java_parser_grammar::specs::StatementReading::pieces_at))]
fn clause(alloc: Global, limit: u32, tokens: &[Token]) -> Result<(CatchTree, &[Token]), ReadError>
    requires few { length tokens.now < 2 ^ 32 }
    requires room { suc (suc limit) < 2 ^ 32 }
    ensures gives { Gives (λ x. (catch_of x.0, map spelled x.1.now)) result (pieces_at method_readers
        (stmt_at method_readers limit) (block_at method_readers limit) limit catch_row (map spelled tokens.now)) }
    ensures places { IfOk result (λ x. Leads (catch_places x.0) (kept tokens.now) (kept x.1.now)) }
    ensures shorter { IfOk result (λ x. length x.1.now ≤ length tokens.now) }
{
    let (parameter, rest) = catch_parameter(alloc, limit, tokens)?;
    let (body, rest) = read_block(alloc, limit, rest)?;
    Ok((CatchTree { parameter, body }, rest))
}

/// The clauses, and the last block, as long as such a part stands here.
#[cycle(statements)]
fn parts(alloc: Global, limit: u32, tokens: &[Token]) -> Result<(TryParts, &[Token]), ReadError>
    requires few { length tokens.now < 2 ^ 32 }
    requires room { suc (suc limit) < 2 ^ 32 }
    ensures gives { Gives (λ x. (
      (pack_rows (map catch_of x.0.clauses.items), option_map block_of x.0.last),
      map spelled x.1.now,
    )) result (parts_at method_readers (stmt_at method_readers limit)
        (block_at method_readers limit) limit (map spelled tokens.now)) }
    ensures places { IfOk result (λ x. Leads (parts_places x.0) (kept tokens.now) (kept x.1.now)) }
    ensures shorter { IfOk result (λ x. length x.1.now ≤ length tokens.now) }
{
    let mut parts = TryParts::new(alloc);
    let mut rest = tokens;
    for _ in 0..tokens.len() {
        match parts.next(rest) {
            TryPart::Clause(after) => {
                let (next, after) = clause(alloc, limit, after)?;
                parts.clauses.push(next)?;
                rest = after;
            }
            TryPart::Last(after) => {
                let (last, after) = read_block(alloc, limit, after)?;
                parts.last = Some(last);
                rest = after;
            }
            TryPart::Nothing => break,
        }
    }
    Ok((parts, rest))
}

/// Behind `try` (JLS 14.20).
#[cycle(statements)]
#[tactic(auto, unfolding(crate::specs::RowReading::try_at))]
pub fn try_statement(
    alloc: Global,
    limit: u32,
    tokens: &[Token],
) -> Result<(Box<Statement>, &[Token]), ReadError>
    requires few { length tokens.now < 2 ^ 32 }
    requires room { suc (suc limit) < 2 ^ 32 }
    ensures gives { Gives (λ x. (stmt_of x.0.value, map spelled x.1.now)) result (try_at method_readers
        (stmt_at method_readers limit) (block_at method_readers limit) limit (map spelled tokens.now)) }
    ensures places { IfOk result (λ x. Leads (stmt_places x.0.value) (kept tokens.now) (kept x.1.now)) }
    ensures shorter { IfOk result (λ x. length x.1.now ≤ length tokens.now) }
{
    let (resources, rest) = resources(alloc, limit, tokens)?;
    let (body, rest) = read_block(alloc, limit, rest)?;
    let (parts, rest) = parts(alloc, limit, rest)?;
    tried(alloc, resources, body, parts, rest)
}
