//! What stands behind the statements inside of a statement.
ghost use Rattle.std.specs.Prelude.{◌≡◌, ◌<◌, ◌≤◌, ◌^◌, suc, length, map, IfOk};
ghost use Rattle.java_tree.specs.KeptPlaces.{kept, stmt_places};
ghost use Rattle.java_tree.specs.View.{stmt_of};
ghost use Rattle.java_parser_grammar.specs.JavaReaders.{method_readers};
ghost use Rattle.java_parser_methods.specs.RowReading.{do_end_at};
ghost use Rattle.java_parser_types.specs.LedPlaces.{LeadsOn};
ghost use Rattle.java_parser_types.specs.Tokens.{spelled};
ghost use Rattle.java_parser_types.specs.ReadAnswer.{Gives};

use super::nodes::repeated_after;
use java_lexer::Token;
use java_parser_parts::ends::last_condition;
use java_parser_types::error::ReadError;
use java_tree::Statement;
use std::alloc::Global;

/// The `do` of this body, from behind it on (JLS 14.13).
pub fn do_end(
    alloc: Global,
    limit: u32,
    body: Box<Statement>,
    tokens: &[Token],
) -> Result<(Box<Statement>, &[Token]), ReadError>
    requires few { length tokens.now < 2 ^ 32 }
    requires room { suc (suc limit) < 2 ^ 32 }
    ensures gives { Gives (λ x. (stmt_of x.0.value, map spelled x.1.now)) result (do_end_at method_readers limit
        (stmt_of body.value) (map spelled tokens.now)) }
    ensures places { IfOk result (λ x. LeadsOn (stmt_places body.value) (stmt_places x.0.value) (kept tokens.now) (kept
        x.1.now)) }
    ensures shorter { IfOk result (λ x. length x.1.now ≤ length tokens.now) }
{
    let (condition, rest) = last_condition(alloc, limit, tokens)?;
    repeated_after(alloc, body, condition, rest)
}
