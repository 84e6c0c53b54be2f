//! What stands in front of tokens, with the tokens behind it.
ghost use Rattle.std.specs.Prelude.{◌≡◌, ◌≤◌, ◌<◌, ◌^◌, ◌++◌, ◌-◌, length, drop, map, IfOk, IfSome};
ghost use Rattle.racer_base.specs.declared.limits.TheConstants.{MAX_NESTING};
ghost use Rattle.java_tree.specs.KeptPlaces.{ty_places};
ghost use Rattle.java_tree.specs.View.{ty_of, modifier_of};
ghost use Rattle.java_parser_grammar.specs.TypeReading.{ty_at};
ghost use Rattle.java_parser_types.specs.declared.error.ReadError.TheVariants.{Unformed};
ghost use Rattle.java_parser_types.specs.ReadAnswer.{Gives};
ghost use Rattle.java_parser_types.specs.Tokens.{spelled};
ghost use Rattle.java_parser.specs.Fronts.{IsFront, EndsWith};

use java_lexer::Token;
use java_parser_types::ReadError;
use java_parser_types::types::read_type;
use java_tree::TypeTree;
use racer_base::MAX_NESTING;
use std::alloc::Global;

/// The tokens before as many at the end as were left.
pub fn cut<'a>(tokens: &'a [Token], left: &[Token]) -> (&'a [Token], &'a [Token])
    requires { length left.now ≤ length tokens.now }
    ensures parts { tokens.now ≡ result.0.now ++ result.1.now }
    ensures size { length result.1.now ≡ length left.now }
    ensures rest { result.1.now ≡ drop (length tokens.now - length left.now) tokens.now }
{
    tokens.split_at(tokens.len() - left.len())
}

/// The type in front, and the tokens behind it.
pub fn front_type(alloc: Global, tokens: &[Token]) -> Result<(TypeTree, &[Token]), ReadError>
    requires { length tokens.now < 2 ^ 32 }
    ensures gives { Gives (λ x. (ty_of x.0, map spelled x.1.now)) result (ty_at MAX_NESTING
        (map spelled tokens.now)) }
    ensures front { IfOk result (λ x. IsFront (ty_places x.0) tokens.now x.1.now) }
{
    let (kind, left) = read_type(alloc, MAX_NESTING, tokens)?;
    let (_, rest) = cut(tokens, left);
    Ok((kind.tree, rest))
}
