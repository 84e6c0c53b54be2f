//! Reading conditions (JLS 14.9, 14.12).
ghost use Rattle.std.specs.Prelude.{◌<◌, ◌^◌, suc, length, map, IfOk};
ghost use Rattle.java_tree.specs.KeptPlaces.{kept, expr_places};
ghost use Rattle.java_tree.specs.View.{expr_of};
ghost use Rattle.java_parser_grammar.specs.StatementReading.{condition_at};
ghost use Rattle.java_parser_grammar.specs.JavaReaders.{method_readers};
ghost use Rattle.java_parser_types.specs.LedPlaces.{Leads};
ghost use Rattle.java_parser_types.specs.Tokens.{spelled};
ghost use Rattle.java_parser_types.specs.ReadAnswer.{Gives};

use java_lexer::Token;
use java_parser_expressions::expressions::read_expression;
use java_parser_types::error::ReadError;
use java_parser_types::look::sign;
use java_tree::Expression;
use std::alloc::Global;

/// `( E )`.
#[tactic(auto, unfolding(java_parser_grammar::specs::StatementReading::condition_at))]
pub fn condition(
    alloc: Global,
    limit: u32,
    tokens: &[Token],
) -> Result<(Box<Expression>, &[Token]), ReadError>
    requires few { length tokens.now < 2 ^ 32 }
    requires room { suc (suc limit) < 2 ^ 32 }
    ensures gives { Gives (λ x. (expr_of x.0.value, map spelled x.1.now)) result (condition_at method_readers limit
        (map spelled tokens.now)) }
    ensures places { IfOk result (λ x. Leads (expr_places x.0.value) (kept tokens.now) (kept x.1.now)) }
    ensures shorter { IfOk result (λ x. length x.1.now < length tokens.now) }
{
    let rest = sign(tokens, "(")?;
    let (condition, rest) = read_expression(alloc, limit, 0, rest)?;
    let rest = sign(rest, ")")?;
    Ok((condition.tree, rest))
}
