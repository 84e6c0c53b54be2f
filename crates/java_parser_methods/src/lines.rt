//! Reading declarations, local classes and expressions in lines of their own (JLS 14.3, 14.4, 14.8).
ghost use Rattle.std.specs.Prelude.{◌<◌, ◌≤◌, ◌^◌, suc, length, map, IfOk};
ghost use Rattle.java_tree.specs.KeptPlaces.{kept, stmt_places};
ghost use Rattle.java_tree.specs.View.{stmt_of};
ghost use Rattle.java_parser_grammar.specs.StatementReading.{local_at, run_line_at, simple_at};
ghost use Rattle.java_parser_grammar.specs.JavaReaders.{method_readers};
ghost use Rattle.java_parser_methods.specs.ClassReading.{class_line_at};
ghost use Rattle.java_parser_types.specs.LedPlaces.{Leads};
ghost use Rattle.java_parser_types.specs.Tokens.{spelled};
ghost use Rattle.java_parser_types.specs.ReadAnswer.{Gives};

use super::heads::run;
use super::local_classes::local_class;
use super::locals::locals;
use super::nodes::{class_declared, local, ran};
use java_lexer::Token;
use java_parser_lookahead::lookahead::looks_local;
use java_parser_types::error::ReadError;
use java_parser_types::look::sign;
use java_tree::Statement;
use std::alloc::Global;

/// A declaration and its `;` (JLS 14.4).
#[tactic(auto, unfolding(java_parser_grammar::specs::StatementReading::local_at))]
fn local_line(
    alloc: Global,
    limit: u32,
    tokens: &[Token],
) -> Result<(Box<Statement>, &[Token]), ReadError>
    requires few { length tokens.now < 2 ^ 32 }
    requires room { suc (suc limit) < 2 ^ 32 }
    ensures gives { Gives (λ x. (stmt_of x.0.value, map spelled x.1.now)) result (local_at method_readers limit
        (map spelled tokens.now)) }
    ensures places { IfOk result (λ x. Leads (stmt_places x.0.value) (kept tokens.now) (kept x.1.now)) }
    ensures shorter { IfOk result (λ x. length x.1.now ≤ length tokens.now) }
{
    let (locals, rest) = locals(alloc, limit, tokens)?;
    let rest = sign(rest, ";")?;
    local(alloc, locals, rest)
}

/// An expression and its `;` (JLS 14.8).
#[tactic(auto, unfolding(java_parser_grammar::specs::StatementReading::run_line_at))]
fn run_line(
    alloc: Global,
    limit: u32,
    tokens: &[Token],
) -> Result<(Box<Statement>, &[Token]), ReadError>
    requires few { length tokens.now < 2 ^ 32 }
    requires room { suc (suc limit) < 2 ^ 32 }
    ensures gives { Gives (λ x. (stmt_of x.0.value, map spelled x.1.now)) result (run_line_at method_readers limit
        (map spelled tokens.now)) }
    ensures places { IfOk result (λ x. Leads (stmt_places x.0.value) (kept tokens.now) (kept x.1.now)) }
    ensures shorter { IfOk result (λ x. length x.1.now ≤ length tokens.now) }
{
    let (run, rest) = run(alloc, limit, tokens)?;
    let rest = sign(rest, ";")?;
    ran(alloc, run, rest)
}

/// A local class (JLS 14.3).
pub fn class_statement(
    alloc: Global,
    tokens: &[Token],
) -> Result<(Box<Statement>, &[Token]), ReadError>
    ensures gives { Gives (λ x. (stmt_of x.0.value, map spelled x.1.now)) result (class_line_at
        (map spelled tokens.now)) }
    ensures places { IfOk result (λ x. Leads (stmt_places x.0.value) (kept tokens.now) (kept x.1.now)) }
    ensures shorter { IfOk result (λ x. length x.1.now ≤ length tokens.now) }
{
    let (class, rest) = local_class(alloc, tokens)?;
    class_declared(alloc, class, rest)
}

/// A declaration or an expression, and its `;`.
pub fn simple(
    alloc: Global,
    limit: u32,
    tokens: &[Token],
) -> Result<(Box<Statement>, &[Token]), ReadError>
    requires few { length tokens.now < 2 ^ 32 }
    requires room { suc (suc limit) < 2 ^ 32 }
    ensures gives { Gives (λ x. (stmt_of x.0.value, map spelled x.1.now)) result (simple_at method_readers limit
        (map spelled tokens.now)) }
    ensures places { IfOk result (λ x. Leads (stmt_places x.0.value) (kept tokens.now) (kept x.1.now)) }
    ensures shorter { IfOk result (λ x. length x.1.now ≤ length tokens.now) }
{
    if looks_local(tokens) {
        local_line(alloc, limit, tokens)
    } else {
        run_line(alloc, limit, tokens)
    }
}
