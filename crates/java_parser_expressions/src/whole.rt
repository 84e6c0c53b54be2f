//! The tree that tokens spell, taking all of them.
ghost use Rattle.std.specs.Prelude.{◌≡◌, ◌<◌, ◌≤◌, ◌^◌, suc, [], length, map, IfOk, IsErrOf};
ghost use Rattle.java_parser_types.specs.declared.error.ReadError.TheVariants.{Unformed};
ghost use Rattle.java_tree.specs.Trees.{Ty, Init, Method};
ghost use Rattle.java_tree.specs.Spelling.{ty_onto, init_onto, spelling};
ghost use Rattle.java_tree.specs.FormedMethods.{FormedMethod};
ghost use Rattle.java_tree.specs.Formed.{FormedTy, FormedInit};
ghost use Rattle.java_tree.specs.Nesting.{ty_nesting, init_nesting, method_nesting};
ghost use Rattle.java_tree.specs.KeptPlaces.{AreAt, kept, init_places};
ghost use Rattle.java_tree.specs.View.{ty_of, init_of, method_of};
ghost use Rattle.java_parser_grammar.specs.TypeReading.{ty_at};
ghost use Rattle.java_parser_grammar.specs.ExpressionReading.{init_at};
ghost use Rattle.java_parser_types.specs.Whole.{all_of};
ghost use Rattle.java_parser_types.specs.Tokens.{spelled};
ghost use Rattle.java_parser_types.specs.ReadAnswer.{Gives};

use super::initialisers;
use java_lexer::Token;
use java_parser_types::error::ReadError;
use java_tree::{Initialiser, MethodTree, TypeTree};
use std::alloc::Global;

/// What a variable begins with, where all these tokens are it.
fn whole_initialiser(alloc: Global, limit: u32, tokens: &[Token]) -> Result<Initialiser, ReadError>
    requires few { length tokens.now < 2 ^ 32 }
    requires room { suc (suc limit) < 2 ^ 32 }
    ensures gives { Gives init_of result (all_of (init_at limit (map spelled tokens.now))) }
    ensures places { IfOk result (λ tree. AreAt (init_places tree []) (kept tokens.now)) }
{
    let (value, rest) = initialisers::read_initialiser(alloc, limit, tokens)?;
    if !rest.is_empty() {
        return Err(ReadError::Unformed);
    }
    Ok(Box::into_inner(value.tree))
}

/// The formed expression or array initialiser that these tokens spell, of a nesting within the limit (JLS 8.3, 10.6).
pub fn read_initialiser(
    alloc: Global,
    limit: u32,
    tokens: &[Token],
) -> Result<Initialiser, ReadError>
    requires few { length tokens.now < 2 ^ 32 }
    requires room { suc (suc limit) < 2 ^ 32 }
    ensures formed { IfOk result (λ tree. FormedInit (init_of tree)) }
    ensures spelled { IfOk result (λ tree. init_onto (init_of tree) [] ≡ map spelled tokens.now) }
    ensures places { IfOk result (λ tree. AreAt (init_places tree []) (kept tokens.now)) }
    ensures small { IfOk result (λ tree. init_nesting (init_of tree) ≤ limit) }
    ensures only { IfOk result (λ tree. (other : Init) → FormedInit other
        → init_onto other [] ≡ map spelled tokens.now → other ≡ init_of tree) }
    ensures none { IsErrOf result Unformed → (other : Init) → FormedInit other → init_nesting other ≤ limit
        → init_onto other [] ≡ map spelled tokens.now → ⊥ }
{
    whole_initialiser(alloc, limit, tokens)
}
