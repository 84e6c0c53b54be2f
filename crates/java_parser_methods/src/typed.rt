//! Reading what stands before the name of a variable or a parameter (JLS 8.4.1, 14.4).
ghost use Rattle.std.specs.Prelude.{◌≡◌, ◌<◌, ◌≤◌, ◌^◌, ◌++◌, length, map, IfOk};
ghost use Rattle.java_tree.specs.KeptPlaces.{kept, ty_places};
ghost use Rattle.java_tree.specs.View.{ty_of};
ghost use Rattle.java_parser_grammar.specs.JavaReaders.{method_readers};
ghost use Rattle.java_parser_grammar.specs.TypeReading.{ty_at};
ghost use Rattle.java_parser_methods.specs.TypedReading.{typed_at, typed_of, typed_places};
ghost use Rattle.java_parser_types.specs.LedPlaces.{Leads};
ghost use Rattle.java_parser_types.specs.Tokens.{spelled};
ghost use Rattle.java_parser_types.specs.ReadAnswer.{Gives};

use super::modifiers::before_type;
use java_lexer::Token;
use java_parser_types::error::ReadError;
use java_parser_types::types::read_type;
use java_tree::{ModifierTree, TypeTree};
use racer_base::Items;
use std::alloc::Global;

/// Modifiers and a type.
#[derive(Drop)]
pub struct TypedFront {
    pub modifiers: Items<ModifierTree>,
    pub kind: Box<TypeTree>,
}

/// The type in front, in memory of its own.
fn boxed_type(
    alloc: Global,
    limit: u32,
    tokens: &[Token],
) -> Result<(Box<TypeTree>, &[Token]), ReadError>
    requires { length tokens.now < 2 ^ 32 }
    ensures gives { Gives (λ x. (ty_of x.0.value, map spelled x.1.now)) result (ty_at limit
        (map spelled tokens.now)) }
    ensures places { IfOk result (λ x. ty_places x.0.value ++ kept x.1.now ≡ kept tokens.now) }
    ensures shorter { IfOk result (λ x. length x.1.now ≤ length tokens.now) }
{
    let (kind, rest) = read_type(alloc, limit, tokens)?;
    Ok((Box::new(alloc, kind.tree)?, rest))
}

/// Annotations, `final` at most once, and a type.
pub fn typed(
    alloc: Global,
    limit: u32,
    tokens: &[Token],
) -> Result<(TypedFront, &[Token]), ReadError>
    requires { length tokens.now < 2 ^ 32 }
    ensures gives { Gives (λ x. (typed_of x.0, map spelled x.1.now)) result (typed_at method_readers limit
        (map spelled tokens.now)) }
    ensures places { IfOk result (λ x. Leads (typed_places x.0) (kept tokens.now) (kept x.1.now)) }
    ensures shorter { IfOk result (λ x. length x.1.now ≤ length tokens.now) }
{
    let (modifiers, rest) = before_type(alloc, tokens)?;
    let (kind, rest) = boxed_type(alloc, limit, rest)?;
    let modifiers = Items::from(modifiers);
    Ok((TypedFront { modifiers, kind }, rest))
}
