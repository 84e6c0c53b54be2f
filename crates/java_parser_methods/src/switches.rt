//! Reading the groups of statements of a `switch` (JLS 14.11).
ghost use Rattle.std.specs.Prelude.{◌≡◌, ◌<◌, ◌≤◌, ◌^◌, suc, length, map, IfOk, codes};
ghost use Rattle.java_tree.specs.KeptPlaces.{kept, each_puts, group_places, stmt_places};
ghost use Rattle.java_tree.specs.Trees.{pack_stmts};
ghost use Rattle.java_tree.specs.View.{group_of, stmt_of, pack_groups};
ghost use Rattle.java_parser_grammar.specs.StatementReading.{group_stmts_at, groups_at, row_at, stmt_at, block_at};
ghost use Rattle.java_parser_grammar.specs.JavaReaders.{method_readers};
ghost use Rattle.java_parser_methods.specs.RowReading.{group_at};
ghost use Rattle.java_parser_types.specs.LedPlaces.{Leads};
ghost use Rattle.java_parser_types.specs.Tokens.{spelled};
ghost use Rattle.java_parser_types.specs.ReadAnswer.{Gives};

use super::nodes::switched;
use super::statements::read_statement;
use java_lexer::Token;
use java_parser_expressions::nested::push_tree;
use java_parser_parts::fronts::switch_front;
use java_parser_parts::labels::{ends_group, labels};
use java_parser_types::error::ReadError;
use java_parser_types::look::after_sign;
use java_tree::{GroupTree, Statement};
use racer_base::Items;
use std::alloc::Global;

/// Statements, until a label or a `}` stands here.
#[cycle(statements)]
fn group_statements(
    alloc: Global,
    limit: u32,
    tokens: &[Token],
) -> Result<(Vec<Statement>, &[Token]), ReadError>
    requires few { length tokens.now < 2 ^ 32 }
    requires room { suc (suc limit) < 2 ^ 32 }
    ensures gives { Gives (λ x. (map stmt_of x.0.items, map spelled x.1.now)) result (group_stmts_at method_readers
        (stmt_at method_readers limit) (suc (length (map spelled tokens.now))) (map spelled tokens.now)) }
    ensures places { IfOk result (λ x. Leads (each_puts (map stmt_places x.0.items)) (kept tokens.now) (kept x.1.now)) }
    ensures shorter { IfOk result (λ x. length x.1.now ≤ length tokens.now) }
{
    let mut items = Vec::new(alloc);
    let mut rest = tokens;
    for _ in 0..tokens.len() {
        if ends_group(rest) {
            break;
        }
        let (next, after) = read_statement(alloc, limit, rest)?;
        push_tree(&mut items, next)?;
        rest = after;
    }
    if !ends_group(rest) {
        return Err(ReadError::Unformed);
    }
    Ok((items, rest))
}

/// Labels and the statements behind them.
#[cycle(statements)]
fn group(alloc: Global, limit: u32, tokens: &[Token]) -> Result<(GroupTree, &[Token]), ReadError>
    requires few { length tokens.now < 2 ^ 32 }
    requires room { suc (suc limit) < 2 ^ 32 }
    ensures gives { Gives (λ x. (group_of x.0, map spelled x.1.now)) result (group_at method_readers
        (stmt_at method_readers limit) limit (map spelled tokens.now)) }
    ensures places { IfOk result (λ x. Leads (group_places x.0) (kept tokens.now) (kept x.1.now)) }
    ensures shorter { IfOk result (λ x. length x.1.now ≤ length tokens.now) }
{
    let (labels, rest) = labels(alloc, limit, tokens)?;
    if labels.is_empty() {
        return Err(ReadError::Unformed);
    }
    let (body, rest) = group_statements(alloc, limit, rest)?;
    let labels = Items::from(labels);
    Ok((GroupTree { labels, body }, rest))
}

/// Groups and the `}` behind them.
#[cycle(statements)]
fn groups(
    alloc: Global,
    limit: u32,
    tokens: &[Token],
) -> Result<(Vec<GroupTree>, &[Token]), ReadError>
    requires few { length tokens.now < 2 ^ 32 }
    requires room { suc (suc limit) < 2 ^ 32 }
    ensures gives { Gives (λ x. (pack_groups (map group_of x.0.items), map spelled x.1.now)) result
        (groups_at method_readers (stmt_at method_readers limit) limit (length (map spelled tokens.now))
        (map spelled tokens.now)) }
    ensures places { IfOk result (λ x. Leads (each_puts (map group_places x.0.items)) (kept tokens.now)
        (kept x.1.now)) }
    ensures shorter { IfOk result (λ x. length x.1.now ≤ length tokens.now) }
{
    let mut items = Vec::new(alloc);
    let mut rest = tokens;
    for _ in 0..tokens.len() {
        if let Some(after) = after_sign(rest, "}") {
            return Ok((items, after));
        }
        let (next, after) = group(alloc, limit, rest)?;
        items.push(next)?;
        rest = after;
    }
    Err(ReadError::Unformed)
}

/// Behind `switch` (JLS 14.11).
#[cycle(statements)]
pub fn switch_statement(
    alloc: Global,
    limit: u32,
    tokens: &[Token],
) -> Result<(Box<Statement>, &[Token]), ReadError>
    requires few { length tokens.now < 2 ^ 32 }
    requires room { suc (suc limit) < 2 ^ 32 }
    ensures gives { Gives (λ x. (stmt_of x.0.value, map spelled x.1.now)) result (row_at method_readers
        (stmt_at method_readers limit) (block_at method_readers limit) limit (codes "switch")
        (map spelled tokens.now)) }
    ensures places { IfOk result (λ x. Leads (stmt_places x.0.value) (kept tokens.now) (kept x.1.now)) }
    ensures shorter { IfOk result (λ x. length x.1.now ≤ length tokens.now) }
{
    let (value, inside, rest) = switch_front(alloc, limit, tokens)?;
    let (groups, rest) = groups(alloc, inside, rest)?;
    switched(alloc, value, groups, rest)
}
