//! Statements that begin with a keyword of their own and hold no statement (JLS 14.10, 14.15 to 14.18).
ghost use Rattle.std.specs.Prelude.{◌≡◌, ◌<◌, ◌≤◌, ◌^◌, ◌∷◌, suc, length, map, option_map, IfOk, codes};
ghost use Rattle.java_lexer.specs.declared.token.TokenKind.TheVariants as kind;
ghost use Rattle.java_tree.specs.KeptPlaces.{Marks, kept, maybe_puts, name_places, expr_places, stmt_places};
ghost use Rattle.java_tree.specs.Rows.{Return, Throw, Break, Continue, Assert};
ghost use Rattle.java_tree.specs.View.{name_of, expr_of, stmt_of};
ghost use Rattle.java_parser_grammar.specs.StatementReading.{maybe_name_at, maybe_behind_at};
ghost use Rattle.java_parser_grammar.specs.StatementReading.{row_at, stmt_at, block_at};
ghost use Rattle.java_parser_grammar.specs.JavaReaders.{method_readers};
ghost use Rattle.java_parser_expressions.specs.Closings.{as_read};
ghost use Rattle.java_parser_types.specs.LedPlaces.{Leads};
ghost use Rattle.java_parser_types.specs.Tokens.{spelled};
ghost use Rattle.java_parser_types.specs.ReadAnswer.{Gives};

use super::heads::expression_until;
use super::nodes::{boxed, maybe_tree};
use java_lexer::Token;
use java_parser_expressions::expressions::read_expression;
use java_parser_lookahead::lookahead::after_name;
use java_parser_types::error::ReadError;
use java_parser_types::look::{after_sign, ident, sign};
use java_tree::{Apart, Expression, Ident, Statement};
use racer_base::Place;
use std::alloc::Global;

/// With or without a value (JLS 14.17).
fn returning(
    alloc: Global,
    value: Option<Box<Expression>>,
    tokens: &[Token],
) -> Result<(Box<Statement>, &[Token]), ReadError>
    ensures gives { Gives (λ x. (stmt_of x.0.value, map spelled x.1.now)) result (as_read
        (Return (option_map (λ e. expr_of e.value) value)) (map spelled tokens.now)) }
    ensures places { IfOk result (λ x. (marks : Marks) → stmt_places x.0.value marks ≡ maybe_puts (option_map (λ e.
        expr_places e.value) value) marks) }
    ensures behind { IfOk result (λ x. kept x.1.now ≡ kept tokens.now) }
    ensures shorter { IfOk result (λ x. length x.1.now ≤ length tokens.now) }
{
    boxed(alloc, Statement::Return(maybe_tree(value)), tokens)
}

/// Behind `return` (JLS 14.17).
#[tactic(auto, unfolding(java_parser_grammar::specs::StatementReading::pieces_at))]
pub fn returned(
    alloc: Global,
    limit: u32,
    tokens: &[Token],
) -> Result<(Box<Statement>, &[Token]), ReadError>
    requires few { length tokens.now < 2 ^ 32 }
    requires room { suc (suc limit) < 2 ^ 32 }
    ensures gives { Gives (λ x. (stmt_of x.0.value, map spelled x.1.now)) result (row_at method_readers
        (stmt_at method_readers limit) (block_at method_readers limit) limit (codes "return")
        (map spelled tokens.now)) }
    ensures places { IfOk result (λ x. Leads (stmt_places x.0.value) (kept tokens.now) (kept x.1.now)) }
    ensures shorter { IfOk result (λ x. length x.1.now ≤ length tokens.now) }
{
    let (value, rest) = expression_until(alloc, limit, ";", tokens)?;
    let rest = sign(rest, ";")?;
    returning(alloc, value, rest)
}

/// At this place (JLS 14.18).
fn throwing(
    alloc: Global,
    place: Place,
    value: Box<Expression>,
    tokens: &[Token],
) -> Result<(Box<Statement>, &[Token]), ReadError>
    ensures gives { Gives (λ x. (stmt_of x.0.value, map spelled x.1.now)) result (as_read
        (Throw (expr_of value.value)) (map spelled tokens.now)) }
    ensures places { IfOk result (λ x. (marks : Marks) → stmt_places x.0.value marks ≡ Some place ∷ expr_places
        value.value marks) }
    ensures behind { IfOk result (λ x. kept x.1.now ≡ kept tokens.now) }
    ensures shorter { IfOk result (λ x. length x.1.now ≤ length tokens.now) }
{
    boxed(alloc, Statement::Throw(place, Apart::from(value)), tokens)
}

/// Behind `throw`, which stands at this place (JLS 14.18).
#[tactic(auto, unfolding(java_parser_grammar::specs::StatementReading::pieces_at))]
pub fn thrown(
    alloc: Global,
    limit: u32,
    place: Place,
    tokens: &[Token],
) -> Result<(Box<Statement>, &[Token]), ReadError>
    requires few { length tokens.now < 2 ^ 32 }
    requires room { suc (suc limit) < 2 ^ 32 }
    ensures gives { Gives (λ x. (stmt_of x.0.value, map spelled x.1.now)) result (row_at method_readers
        (stmt_at method_readers limit) (block_at method_readers limit) limit (codes "throw")
        (map spelled tokens.now)) }
    ensures places { IfOk result (λ x. Leads (stmt_places x.0.value) (place ∷ kept tokens.now) (kept x.1.now)) }
    ensures shorter { IfOk result (λ x. length x.1.now ≤ length tokens.now) }
{
    let (value, rest) = read_expression(alloc, limit, 0, tokens)?;
    let rest = sign(rest, ";")?;
    throwing(alloc, place, value.tree, rest)
}

/// A name, where one stands here.
fn maybe_name(
    alloc: Global,
    tokens: &[Token],
) -> Result<(Option<Apart<Ident>>, &[Token]), ReadError>
    ensures gives { Gives (λ x. (option_map name_of x.0, map spelled x.1.now)) result (maybe_name_at method_readers
        (map spelled tokens.now)) }
    ensures places { IfOk result (λ x. Leads (maybe_puts (option_map name_places x.0)) (kept tokens.now) (kept
        x.1.now)) }
    ensures shorter { IfOk result (λ x. length x.1.now ≤ length tokens.now) }
{
    let Some((token, rest)) = after_name(tokens) else {
        return Ok((None, tokens));
    };
    let name = ident(alloc, token)?;
    Ok((Some(Apart::new(alloc, name)?), rest))
}

/// Behind `break` (JLS 14.15).
#[tactic(auto, unfolding(java_parser_grammar::specs::StatementReading::pieces_at))]
pub fn broken(
    alloc: Global,
    limit: u32,
    tokens: &[Token],
) -> Result<(Box<Statement>, &[Token]), ReadError>
    ensures gives { Gives (λ x. (stmt_of x.0.value, map spelled x.1.now)) result (row_at method_readers
        (stmt_at method_readers limit) (block_at method_readers limit) limit (codes "break")
        (map spelled tokens.now)) }
    ensures places { IfOk result (λ x. Leads (stmt_places x.0.value) (kept tokens.now) (kept x.1.now)) }
    ensures shorter { IfOk result (λ x. length x.1.now ≤ length tokens.now) }
{
    let (target, rest) = maybe_name(alloc, tokens)?;
    let rest = sign(rest, ";")?;
    boxed(alloc, Statement::Break(target), rest)
}

/// Behind `continue` (JLS 14.16).
#[tactic(auto, unfolding(java_parser_grammar::specs::StatementReading::pieces_at))]
pub fn continued(
    alloc: Global,
    limit: u32,
    tokens: &[Token],
) -> Result<(Box<Statement>, &[Token]), ReadError>
    ensures gives { Gives (λ x. (stmt_of x.0.value, map spelled x.1.now)) result (row_at method_readers
        (stmt_at method_readers limit) (block_at method_readers limit) limit (codes "continue")
        (map spelled tokens.now)) }
    ensures places { IfOk result (λ x. Leads (stmt_places x.0.value) (kept tokens.now) (kept x.1.now)) }
    ensures shorter { IfOk result (λ x. length x.1.now ≤ length tokens.now) }
{
    let (target, rest) = maybe_name(alloc, tokens)?;
    let rest = sign(rest, ";")?;
    boxed(alloc, Statement::Continue(target), rest)
}

/// An expression behind this sign, where that stands here.
fn maybe_behind<'a>(
    alloc: Global,
    limit: u32,
    text: &str,
    tokens: &'a [Token],
) -> Result<(Option<Box<Expression>>, &'a [Token]), ReadError>
    requires few { length tokens.now < 2 ^ 32 }
    requires room { suc (suc limit) < 2 ^ 32 }
    ensures gives { Gives (λ x. (option_map (λ e. expr_of e.value) x.0, map spelled x.1.now)) result
        (maybe_behind_at method_readers limit text.now (map spelled tokens.now)) }
    ensures places { IfOk result (λ x. Leads (maybe_puts (option_map (λ e. expr_places e.value) x.0)) (kept tokens.now)
        (kept x.1.now)) }
    ensures shorter { IfOk result (λ x. length x.1.now ≤ length tokens.now) }
{
    let Some(after) = after_sign(tokens, text) else {
        return Ok((None, tokens));
    };
    let (value, rest) = read_expression(alloc, limit, 0, after)?;
    Ok((Some(value.tree), rest))
}

/// With or without a second expression (JLS 14.10).
fn asserting(
    alloc: Global,
    condition: Box<Expression>,
    detail: Option<Box<Expression>>,
    tokens: &[Token],
) -> Result<(Box<Statement>, &[Token]), ReadError>
    ensures gives { Gives (λ x. (stmt_of x.0.value, map spelled x.1.now)) result (as_read
        (Assert (expr_of condition.value) (option_map (λ e. expr_of e.value) detail)) (map spelled tokens.now)) }
    ensures places { IfOk result (λ x. (marks : Marks) → stmt_places x.0.value marks ≡ expr_places condition.value
        (maybe_puts (option_map (λ e. expr_places e.value) detail) marks)) }
    ensures behind { IfOk result (λ x. kept x.1.now ≡ kept tokens.now) }
    ensures shorter { IfOk result (λ x. length x.1.now ≤ length tokens.now) }
{
    boxed(
        alloc,
        Statement::Assert(Apart::from(condition), maybe_tree(detail)),
        tokens,
    )
}

/// Behind `assert` (JLS 14.10).
#[tactic(auto, unfolding(java_parser_grammar::specs::StatementReading::pieces_at))]
pub fn asserted(
    alloc: Global,
    limit: u32,
    tokens: &[Token],
) -> Result<(Box<Statement>, &[Token]), ReadError>
    requires few { length tokens.now < 2 ^ 32 }
    requires room { suc (suc limit) < 2 ^ 32 }
    ensures gives { Gives (λ x. (stmt_of x.0.value, map spelled x.1.now)) result (row_at method_readers
        (stmt_at method_readers limit) (block_at method_readers limit) limit (codes "assert")
        (map spelled tokens.now)) }
    ensures places { IfOk result (λ x. Leads (stmt_places x.0.value) (kept tokens.now) (kept x.1.now)) }
    ensures shorter { IfOk result (λ x. length x.1.now ≤ length tokens.now) }
{
    let (condition, rest) = read_expression(alloc, limit, 0, tokens)?;
    let (detail, rest) = maybe_behind(alloc, limit, ":", rest)?;
    let rest = sign(rest, ";")?;
    asserting(alloc, condition.tree, detail, rest)
}
