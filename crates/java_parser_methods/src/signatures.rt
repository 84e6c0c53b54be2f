//! Reading a method from its name up to its body (JLS 8.4.2, 8.4.6).
ghost use Rattle.std.specs.Prelude.{◌≡◌, ◌<◌, ◌≤◌, ◌^◌, length, map, IfOk};
ghost use Rattle.java_tree.specs.KeptPlaces.{kept};
ghost use Rattle.java_tree.specs.KeptPlaces.{each_marks};
ghost use Rattle.java_tree.specs.MethodPlaces.{parameter_marks};
ghost use Rattle.java_tree.specs.View.{result_of, parameter_of};
ghost use Rattle.java_parser_grammar.specs.MethodReading.{arrays_behind};
ghost use Rattle.java_parser_grammar.specs.JavaReaders.{method_readers};
ghost use Rattle.java_parser_types.specs.LedPlaces.{Leads};
ghost use Rattle.java_parser_methods.specs.SignatureReading.{parameter_list_at, signature_at, signature_of};
ghost use Rattle.java_parser_methods.specs.SignatureReading.{signature_marks};
ghost use Rattle.java_parser_types.specs.Tokens.{spelled};
ghost use Rattle.java_parser_types.specs.ReadAnswer.{Gives};

use super::parameters::{parameters, throws};
use java_lexer::Token;
use java_parser_types::error::ReadError;
use java_parser_types::look::{brackets, name, sign};
use java_tree::{Ident, ParameterTree, ResultTree, TypeTree};
use std::alloc::Global;

/// What stands from a method's name up to its body.
#[derive(Drop)]
pub struct Signature {
    pub name: Ident,
    pub parameters: Vec<ParameterTree>,
    pub arrays: u32,
    pub throws: Vec<TypeTree>,
}

/// The parameters in their parentheses.
#[tactic(auto, unfolding(crate::specs::SignatureReading::parameter_list_at))]
fn parameter_list(
    alloc: Global,
    limit: u32,
    tokens: &[Token],
) -> Result<(Vec<ParameterTree>, &[Token]), ReadError>
    requires { length tokens.now < 2 ^ 32 }
    ensures gives { Gives (λ x. (map parameter_of x.0.items, map spelled x.1.now)) result
        (parameter_list_at method_readers limit (map spelled tokens.now)) }
    ensures places { IfOk result (λ x. Leads (each_marks parameter_marks x.0.items) (kept tokens.now) (kept x.1.now)) }
    ensures shorter { IfOk result (λ x. length x.1.now ≤ length tokens.now) }
{
    let rest = sign(tokens, "(")?;
    let (parameters, rest) = parameters(alloc, limit, rest)?;
    let rest = sign(rest, ")")?;
    Ok((parameters, rest))
}

/// The number of `[ ]` behind the parameters, which stand where a method has a type (JLS 8.4), and the tokens behind
/// them.
fn arrays_behind<'a>(given: &ResultTree, tokens: &'a [Token]) -> (u32, &'a [Token])
    requires { length tokens.now < 2 ^ 32 }
    ensures gives { (result.0, map spelled result.1.now) ≡ arrays_behind (result_of given.now)
        (map spelled tokens.now) }
    ensures places { kept result.1.now ≡ kept tokens.now }
    ensures shorter { length result.1.now ≤ length tokens.now }
{
    match given {
        ResultTree::Of(_) => brackets(tokens),
        ResultTree::Constructor | ResultTree::Void => (0, tokens),
    }
}

/// The name of a method that gives this, its parameters and the exceptions that it declares.
#[tactic(auto, unfolding(crate::specs::SignatureReading::signature_at))]
pub fn read_signature<'a>(
    alloc: Global,
    limit: u32,
    given: &ResultTree,
    tokens: &'a [Token],
) -> Result<(Signature, &'a [Token]), ReadError>
    requires { length tokens.now < 2 ^ 32 }
    ensures gives { Gives (λ x. (signature_of x.0, map spelled x.1.now)) result (signature_at method_readers limit
        (result_of given.now) (map spelled tokens.now)) }
    ensures places { IfOk result (λ x. Leads (signature_marks x.0) (kept tokens.now) (kept x.1.now)) }
    ensures shorter { IfOk result (λ x. length x.1.now ≤ length tokens.now) }
{
    let (name, rest) = name(alloc, tokens)?;
    let (parameters, rest) = parameter_list(alloc, limit, rest)?;
    let (arrays, rest) = arrays_behind(given, rest);
    let (throws, rest) = throws(alloc, limit, rest)?;
    let signature = Signature {
        name,
        parameters,
        arrays,
        throws,
    };
    Ok((signature, rest))
}
