//! Reading statements (JLS 14).
ghost use Rattle.std.specs.Prelude.{◌≡◌, ◌∷◌};
ghost use Rattle.std.specs.Prelude.{◌<◌, ◌≤◌, ◌^◌, suc, length, map, IfOk, codes};
ghost use Rattle.java_tree.specs.KeptPlaces.{kept, each_puts, expr_places, stmt_places};
ghost use Rattle.java_tree.specs.Trees.{pack_stmts};
ghost use Rattle.java_tree.specs.View.{expr_of, stmt_of};
ghost use Rattle.java_parser_grammar.specs.Lookahead.{statement_lead};
ghost use Rattle.java_parser_grammar.specs.StatementReading.{body_at, braces_at, if_at, by_lead};
ghost use Rattle.java_parser_grammar.specs.StatementReading.{row_at};
ghost use Rattle.java_parser_lookahead.specs.StatementLeadView.{row_text, word_onto};
ghost use Rattle.java_parser_methods.specs.RowReading.{labelled_at};
ghost use Rattle.java_parser_grammar.specs.StatementReading.{stmt_at, block_at};
ghost use Rattle.java_parser_methods.specs.HeadReading.{else_at, headed_at};
ghost use Rattle.java_parser_grammar.specs.JavaReaders.{method_readers};
ghost use Rattle.java_parser_types.specs.LedPlaces.{Leads, LeadsOn};
ghost use Rattle.java_parser_types.specs.Tokens.{spelled};
ghost use Rattle.java_parser_types.specs.ReadAnswer.{Gives};

use super::ends::do_end;
use super::heads::head;
use super::lines::{class_statement, simple};
use super::nodes::{block, empty, headed, labelled, locked, repeated, with_else, without_else};
use super::simple_rows::{asserted, broken, continued, returned, thrown};
use super::switches::switch_statement;
use super::tries::try_statement;
use java_lexer::Token;
use java_parser_expressions::nested::push_tree;
use java_parser_lookahead::lookahead::{RowWord, StatementLead, behind_else, statement_lead};
use java_parser_parts::bodies::is_body;
use java_parser_parts::conditions::condition;
use java_parser_types::error::ReadError;
use java_parser_types::look::{after_sign, sign};
use java_tree::{Expression, Statement};
use racer_base::Place;
use std::alloc::Global;

/// A statement of a nesting of at most `limit`.
#[cycle(statements)]
#[tactic(auto, unfolding(java_parser_grammar::specs::StatementReading::stmt_at))]
pub fn read_statement(
    alloc: Global,
    limit: u32,
    tokens: &[Token],
) -> Result<(Box<Statement>, &[Token]), ReadError>
    requires few { length tokens.now < 2 ^ 32 }
    requires room { suc (suc limit) < 2 ^ 32 }
    ensures gives { Gives (λ x. (stmt_of x.0.value, map spelled x.1.now)) result (stmt_at method_readers limit
        (map spelled tokens.now)) }
    ensures places { IfOk result (λ x. Leads (stmt_places x.0.value) (kept tokens.now) (kept x.1.now)) }
    ensures shorter { IfOk result (λ x. length x.1.now ≤ length tokens.now) }
{
    if limit == 0 {
        return Err(ReadError::Unformed);
    }
    by_lead(alloc, limit - 1, tokens)
}

/// A statement with statements of a nesting of at most `limit` in it.
#[cycle(statements)]
fn by_lead(
    alloc: Global,
    limit: u32,
    tokens: &[Token],
) -> Result<(Box<Statement>, &[Token]), ReadError>
    requires few { length tokens.now < 2 ^ 32 }
    requires room { suc (suc limit) < 2 ^ 32 }
    ensures gives { Gives (λ x. (stmt_of x.0.value, map spelled x.1.now)) result (by_lead method_readers
        (stmt_at method_readers limit) (block_at method_readers limit) limit (statement_lead (map spelled tokens.now))
        (map spelled tokens.now)) }
    ensures places { IfOk result (λ x. Leads (stmt_places x.0.value) (kept tokens.now) (kept x.1.now)) }
    ensures shorter { IfOk result (λ x. length x.1.now ≤ length tokens.now) }
{
    match statement_lead(tokens) {
        StatementLead::Semicolon(rest) => empty(alloc, rest),
        StatementLead::Brace(rest) => {
            let (statements, rest) = braces(alloc, limit, rest)?;
            block(alloc, statements, rest)
        }
        StatementLead::IfWord(rest) => if_statement(alloc, limit, rest),
        StatementLead::ForWord(rest) => for_statement(alloc, limit, rest),
        StatementLead::Row(word, place, rest) => row(alloc, limit, word, place, rest),
        StatementLead::Label(name, rest) => label_statement(alloc, limit, name, rest),
        StatementLead::Class(rest) => class_statement(alloc, rest),
        StatementLead::Other => simple(alloc, limit, tokens),
    }
}

/// A statement that is no declaration.
#[cycle(statements)]
fn body(
    alloc: Global,
    limit: u32,
    tokens: &[Token],
) -> Result<(Box<Statement>, &[Token]), ReadError>
    requires few { length tokens.now < 2 ^ 32 }
    requires room { suc (suc limit) < 2 ^ 32 }
    ensures gives { Gives (λ x. (stmt_of x.0.value, map spelled x.1.now)) result (body_at method_readers
        (stmt_at method_readers limit) (map spelled tokens.now)) }
    ensures places { IfOk result (λ x. Leads (stmt_places x.0.value) (kept tokens.now) (kept x.1.now)) }
    ensures shorter { IfOk result (λ x. length x.1.now ≤ length tokens.now) }
{
    let (body, rest) = read_statement(alloc, limit, tokens)?;
    if !is_body(&body) {
        return Err(ReadError::Unformed);
    }
    Ok((body, rest))
}

/// Statements and the `}` behind them.
#[cycle(statements)]
fn braces(
    alloc: Global,
    limit: u32,
    tokens: &[Token],
) -> Result<(Vec<Statement>, &[Token]), ReadError>
    requires few { length tokens.now < 2 ^ 32 }
    requires room { suc (suc limit) < 2 ^ 32 }
    ensures gives { Gives (λ x. (pack_stmts (map stmt_of x.0.items), map spelled x.1.now)) result
        (braces_at method_readers (stmt_at method_readers limit) (map spelled tokens.now)) }
    ensures places { IfOk result (λ x. Leads (each_puts (map stmt_places x.0.items)) (kept tokens.now) (kept x.1.now)) }
    ensures shorter { IfOk result (λ x. length x.1.now ≤ length tokens.now) }
{
    let mut items = Vec::new(alloc);
    let mut rest = tokens;
    for _ in 0..tokens.len() {
        if let Some(after) = after_sign(rest, "}") {
            return Ok((items, after));
        }
        let (next, after) = read_statement(alloc, limit, rest)?;
        push_tree(&mut items, next)?;
        rest = after;
    }
    Err(ReadError::Unformed)
}

/// The statements of a block, which is a statement of a nesting of at most `limit` (JLS 14.2).
#[cycle(statements)]
#[tactic(auto, unfolding(java_parser_grammar::specs::StatementReading::block_at))]
pub fn read_block(
    alloc: Global,
    limit: u32,
    tokens: &[Token],
) -> Result<(Vec<Statement>, &[Token]), ReadError>
    requires few { length tokens.now < 2 ^ 32 }
    requires room { suc (suc limit) < 2 ^ 32 }
    ensures gives { Gives (λ x. (pack_stmts (map stmt_of x.0.items), map spelled x.1.now)) result
        (block_at method_readers limit (map spelled tokens.now)) }
    ensures places { IfOk result (λ x. Leads (each_puts (map stmt_places x.0.items)) (kept tokens.now) (kept x.1.now)) }
    ensures shorter { IfOk result (λ x. length x.1.now ≤ length tokens.now) }
{
    if limit == 0 {
        return Err(ReadError::Unformed);
    }
    let rest = sign(tokens, "{")?;
    braces(alloc, limit - 1, rest)
}

/// Behind `if` (JLS 14.9).
#[cycle(statements)]
#[tactic(auto, unfolding(java_parser_grammar::specs::StatementReading::if_at))]
fn if_statement(
    alloc: Global,
    limit: u32,
    tokens: &[Token],
) -> Result<(Box<Statement>, &[Token]), ReadError>
    requires few { length tokens.now < 2 ^ 32 }
    requires room { suc (suc limit) < 2 ^ 32 }
    ensures gives { Gives (λ x. (stmt_of x.0.value, map spelled x.1.now)) result (if_at method_readers
        (stmt_at method_readers limit) limit (map spelled tokens.now)) }
    ensures places { IfOk result (λ x. Leads (stmt_places x.0.value) (kept tokens.now) (kept x.1.now)) }
    ensures shorter { IfOk result (λ x. length x.1.now ≤ length tokens.now) }
{
    let (condition, rest) = condition(alloc, limit, tokens)?;
    let (then, rest) = body(alloc, limit, rest)?;
    otherwise(alloc, limit, condition, then, rest)
}

/// The rest of an `if` with this condition and this first statement. An `else` belongs to the `if` before it
/// that is nearest.
#[cycle(statements)]
fn otherwise(
    alloc: Global,
    limit: u32,
    condition: Box<Expression>,
    then: Box<Statement>,
    tokens: &[Token],
) -> Result<(Box<Statement>, &[Token]), ReadError>
    requires few { length tokens.now < 2 ^ 32 }
    requires room { suc (suc limit) < 2 ^ 32 }
    ensures gives { Gives (λ x. (stmt_of x.0.value, map spelled x.1.now)) result (else_at method_readers
        (stmt_at method_readers limit) (expr_of condition.value) (stmt_of then.value) (map spelled tokens.now)) }
    ensures places { IfOk result (λ x. LeadsOn (λ rest. expr_places condition.value (stmt_places then.value rest))
        (stmt_places x.0.value) (kept tokens.now) (kept x.1.now)) }
    ensures shorter { IfOk result (λ x. length x.1.now ≤ length tokens.now) }
{
    let Some(after) = behind_else(tokens) else {
        return without_else(alloc, condition, then, tokens);
    };
    let (other, rest) = body(alloc, limit, after)?;
    with_else(alloc, condition, then, other, rest)
}

/// Behind `while` (JLS 14.12).
#[cycle(statements)]
#[tactic(auto, unfolding(java_parser_grammar::specs::StatementReading::pieces_at))]
fn while_statement(
    alloc: Global,
    limit: u32,
    tokens: &[Token],
) -> Result<(Box<Statement>, &[Token]), ReadError>
    requires few { length tokens.now < 2 ^ 32 }
    requires room { suc (suc limit) < 2 ^ 32 }
    ensures gives { Gives (λ x. (stmt_of x.0.value, map spelled x.1.now)) result (row_at method_readers
        (stmt_at method_readers limit) (block_at method_readers limit) limit (codes "while")
        (map spelled tokens.now)) }
    ensures places { IfOk result (λ x. Leads (stmt_places x.0.value) (kept tokens.now) (kept x.1.now)) }
    ensures shorter { IfOk result (λ x. length x.1.now ≤ length tokens.now) }
{
    let (condition, rest) = condition(alloc, limit, tokens)?;
    let (body, rest) = body(alloc, limit, rest)?;
    repeated(alloc, condition, body, rest)
}

/// Behind a keyword that only one form begins with, and which stands at this place.
#[cycle(statements)]
fn row(
    alloc: Global,
    limit: u32,
    word: RowWord,
    place: Place,
    tokens: &[Token],
) -> Result<(Box<Statement>, &[Token]), ReadError>
    requires few { length tokens.now < 2 ^ 32 }
    requires room { suc (suc limit) < 2 ^ 32 }
    ensures gives { Gives (λ x. (stmt_of x.0.value, map spelled x.1.now)) result (row_at method_readers
        (stmt_at method_readers limit) (block_at method_readers limit) limit (row_text word)
        (map spelled tokens.now)) }
    ensures places { IfOk result (λ x. Leads (stmt_places x.0.value) (word_onto word place (kept tokens.now))
        (kept x.1.now)) }
    ensures shorter { IfOk result (λ x. length x.1.now ≤ length tokens.now) }
{
    match word {
        RowWord::While => while_statement(alloc, limit, tokens),
        RowWord::Do => do_statement(alloc, limit, tokens),
        RowWord::Return => returned(alloc, limit, tokens),
        RowWord::Break => broken(alloc, limit, tokens),
        RowWord::Continue => continued(alloc, limit, tokens),
        RowWord::Throw => thrown(alloc, limit, place, tokens),
        RowWord::Synchronized => synchronized(alloc, limit, place, tokens),
        RowWord::Switch => switch_statement(alloc, limit, tokens),
        RowWord::Try => try_statement(alloc, limit, tokens),
        RowWord::Assert => asserted(alloc, limit, tokens),
    }
}

/// Behind `do` (JLS 14.13).
#[cycle(statements)]
fn do_statement(
    alloc: Global,
    limit: u32,
    tokens: &[Token],
) -> Result<(Box<Statement>, &[Token]), ReadError>
    requires few { length tokens.now < 2 ^ 32 }
    requires room { suc (suc limit) < 2 ^ 32 }
    ensures gives { Gives (λ x. (stmt_of x.0.value, map spelled x.1.now)) result (row_at method_readers
        (stmt_at method_readers limit) (block_at method_readers limit) limit (codes "do")
        (map spelled tokens.now)) }
    ensures places { IfOk result (λ x. Leads (stmt_places x.0.value) (kept tokens.now) (kept x.1.now)) }
    ensures shorter { IfOk result (λ x. length x.1.now ≤ length tokens.now) }
{
    let (body, rest) = body(alloc, limit, tokens)?;
    do_end(alloc, limit, body, rest)
}

/// Behind `for` (JLS 14.14).
#[cycle(statements)]
fn for_statement(
    alloc: Global,
    limit: u32,
    tokens: &[Token],
) -> Result<(Box<Statement>, &[Token]), ReadError>
    requires few { length tokens.now < 2 ^ 32 }
    requires room { suc (suc limit) < 2 ^ 32 }
    ensures gives { Gives (λ x. (stmt_of x.0.value, map spelled x.1.now)) result (headed_at method_readers
        (stmt_at method_readers limit) limit (map spelled tokens.now)) }
    ensures places { IfOk result (λ x. Leads (stmt_places x.0.value) (kept tokens.now) (kept x.1.now)) }
    ensures shorter { IfOk result (λ x. length x.1.now ≤ length tokens.now) }
{
    let (head, rest) = head(alloc, limit, tokens)?;
    let (body, rest) = body(alloc, limit, rest)?;
    headed(alloc, head, body, rest)
}

/// Behind `synchronized`, which stands at this place (JLS 14.19).
#[cycle(statements)]
#[tactic(auto, unfolding(java_parser_grammar::specs::StatementReading::pieces_at))]
fn synchronized(
    alloc: Global,
    limit: u32,
    place: Place,
    tokens: &[Token],
) -> Result<(Box<Statement>, &[Token]), ReadError>
    requires few { length tokens.now < 2 ^ 32 }
    requires room { suc (suc limit) < 2 ^ 32 }
    ensures gives { Gives (λ x. (stmt_of x.0.value, map spelled x.1.now)) result (row_at method_readers
        (stmt_at method_readers limit) (block_at method_readers limit) limit (codes "synchronized")
        (map spelled tokens.now)) }
    ensures places { IfOk result (λ x. Leads (stmt_places x.0.value) (place ∷ kept tokens.now) (kept x.1.now)) }
    ensures shorter { IfOk result (λ x. length x.1.now ≤ length tokens.now) }
{
    let (lock, rest) = condition(alloc, limit, tokens)?;
    let (statements, rest) = read_block(alloc, limit, rest)?;
    locked(alloc, place, lock, statements, rest)
}

/// Behind a name with its `:` (JLS 14.7).
#[cycle(statements)]
fn label_statement<'a>(
    alloc: Global,
    limit: u32,
    name: &Token,
    tokens: &'a [Token],
) -> Result<(Box<Statement>, &'a [Token]), ReadError>
    requires few { length tokens.now < 2 ^ 32 }
    requires room { suc (suc limit) < 2 ^ 32 }
    ensures gives { Gives (λ x. (stmt_of x.0.value, map spelled x.1.now)) result (labelled_at method_readers
        (stmt_at method_readers limit) name.now.text (map spelled tokens.now)) }
    ensures places { IfOk result (λ x. Leads (stmt_places x.0.value) (name.now.place ∷ kept tokens.now)
        (kept x.1.now)) }
    ensures shorter { IfOk result (λ x. length x.1.now ≤ length tokens.now) }
{
    let (inside, rest) = read_statement(alloc, limit, tokens)?;
    labelled(alloc, name, inside, rest)
}
