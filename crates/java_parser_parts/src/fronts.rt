//! What stands before the statements inside of a statement, and the nesting that is left for these.
ghost use Rattle.std.specs.Prelude.{◌≡◌, ◌<◌, ◌^◌, suc, length, map, IfOk};
ghost use Rattle.java_tree.specs.KeptPlaces.{kept, expr_places};
ghost use Rattle.java_tree.specs.View.{expr_of};
ghost use Rattle.java_parser_grammar.specs.JavaReaders.{method_readers};
ghost use Rattle.java_parser_parts.specs.Parts.{switch_front_at};
ghost use Rattle.java_parser_types.specs.LedPlaces.{Leads};
ghost use Rattle.java_parser_types.specs.Tokens.{spelled};
ghost use Rattle.java_parser_types.specs.ReadAnswer.{Gives};

use super::conditions::condition;
use java_lexer::Token;
use java_parser_types::error::ReadError;
use java_parser_types::look::sign;
use java_tree::Expression;
use std::alloc::Global;

/// `( E ) {` of a `switch`, and the nesting for its groups: they are no statements, so it is what was left (JLS 14.11).
// It is given back for its wrong body, which costs 230 processor seconds in a cycle of calls, and here a tenth.
pub fn switch_front(
    alloc: Global,
    limit: u32,
    tokens: &[Token],
) -> Result<(Box<Expression>, u32, &[Token]), ReadError>
    requires few { length tokens.now < 2 ^ 32 }
    requires room { suc (suc limit) < 2 ^ 32 }
    ensures gives { Gives (λ x. (expr_of x.0.value, map spelled x.2.now)) result (switch_front_at method_readers limit
        (map spelled tokens.now)) }
    ensures nesting { IfOk result (λ x. x.1 ≡ limit) }
    ensures places { IfOk result (λ x. Leads (expr_places x.0.value) (kept tokens.now) (kept x.2.now)) }
    ensures shorter { IfOk result (λ x. length x.2.now < length tokens.now) }
{
    let (value, rest) = condition(alloc, limit, tokens)?;
    let rest = sign(rest, "{")?;
    Ok((value, limit, rest))
}
