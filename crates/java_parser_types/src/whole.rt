//! The tree that tokens spell, taking all of them.
ghost use Rattle.std.specs.Prelude.{◌≡◌, ◌<◌, ◌≤◌, ◌^◌, suc, [], length, map, IfOk, IsErrOf};
ghost use Rattle.java_parser_types.specs.declared.error.ReadError.TheVariants.{Unformed};
ghost use Rattle.java_tree.specs.Trees.{Ty, Init, Method};
ghost use Rattle.java_tree.specs.Spelling.{ty_onto, init_onto, spelling};
ghost use Rattle.java_tree.specs.FormedMethods.{FormedMethod};
ghost use Rattle.java_tree.specs.Formed.{FormedTy, FormedInit};
ghost use Rattle.java_tree.specs.Nesting.{ty_nesting, init_nesting, method_nesting};
ghost use Rattle.java_tree.specs.KeptPlaces.{kept, ty_places};
ghost use Rattle.java_tree.specs.View.{ty_of, init_of, method_of};
ghost use Rattle.java_parser_grammar.specs.TypeReading.{ty_at};
ghost use Rattle.java_parser_grammar.specs.ExpressionReading.{init_at};
ghost use Rattle.java_parser_types.specs.Whole.{all_of};
ghost use Rattle.java_parser_types.specs.Tokens.{spelled};
ghost use Rattle.java_parser_types.specs.ReadAnswer.{Gives};

use super::error::ReadError;
use super::types;
use java_lexer::Token;
use java_tree::{Initialiser, MethodTree, TypeTree};
use std::alloc::Global;

/// The type that all these tokens are.
fn whole_type(alloc: Global, limit: u32, tokens: &[Token]) -> Result<TypeTree, ReadError>
    requires { length tokens.now < 2 ^ 32 }
    ensures gives { Gives ty_of result (all_of (ty_at limit (map spelled tokens.now))) }
    ensures places { IfOk result (λ tree. ty_places tree ≡ kept tokens.now) }
{
    let (kind, rest) = types::read_type(alloc, limit, tokens)?;
    if !rest.is_empty() {
        return Err(ReadError::Unformed);
    }
    Ok(kind.tree)
}

/// The formed type that these tokens spell, of a nesting within the limit (JLS 4).
pub fn read_type(alloc: Global, limit: u32, tokens: &[Token]) -> Result<TypeTree, ReadError>
    requires { length tokens.now < 2 ^ 32 }
    ensures formed { IfOk result (λ tree. FormedTy (ty_of tree)) }
    ensures spelled { IfOk result (λ tree. ty_onto (ty_of tree) [] ≡ map spelled tokens.now) }
    ensures places { IfOk result (λ tree. ty_places tree ≡ kept tokens.now) }
    ensures small { IfOk result (λ tree. ty_nesting (ty_of tree) ≤ limit) }
    ensures only { IfOk result (λ tree. (other : Ty) → FormedTy other → ty_onto other [] ≡ map spelled tokens.now
        → other ≡ ty_of tree) }
    ensures none { IsErrOf result Unformed → (other : Ty) → FormedTy other → ty_nesting other ≤ limit
        → ty_onto other [] ≡ map spelled tokens.now → ⊥ }
{
    whole_type(alloc, limit, tokens)
}
