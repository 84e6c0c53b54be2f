//! What stands behind the statements inside of a statement.
ghost use Rattle.std.specs.Prelude.{◌<◌, ◌≤◌, ◌^◌, suc, length, map, IfOk};
ghost use Rattle.java_tree.specs.KeptPlaces.{kept, expr_places};
ghost use Rattle.java_tree.specs.View.{expr_of};
ghost use Rattle.java_parser_grammar.specs.JavaReaders.{method_readers};
ghost use Rattle.java_parser_parts.specs.Parts.{last_condition_at};
ghost use Rattle.java_parser_types.specs.LedPlaces.{Leads};
ghost use Rattle.java_parser_types.specs.Tokens.{spelled};
ghost use Rattle.java_parser_types.specs.ReadAnswer.{Gives};

use super::conditions::condition;
use java_lexer::Token;
use java_parser_lookahead::lookahead::keyword;
use java_parser_types::error::ReadError;
use java_parser_types::look::sign;
use java_tree::Expression;
use std::alloc::Global;

/// `while ( E ) ;`.
pub fn last_condition(
    alloc: Global,
    limit: u32,
    tokens: &[Token],
) -> Result<(Box<Expression>, &[Token]), ReadError>
    requires few { length tokens.now < 2 ^ 32 }
    requires room { suc (suc limit) < 2 ^ 32 }
    ensures gives { Gives (λ x. (expr_of x.0.value, map spelled x.1.now)) result (last_condition_at method_readers
        limit (map spelled tokens.now)) }
    ensures places { IfOk result (λ x. Leads (expr_places x.0.value) (kept tokens.now) (kept x.1.now)) }
    ensures shorter { IfOk result (λ x. length x.1.now ≤ length tokens.now) }
{
    let rest = keyword(tokens, "while")?;
    let (condition, rest) = condition(alloc, limit, rest)?;
    let rest = sign(rest, ";")?;
    Ok((condition, rest))
}
