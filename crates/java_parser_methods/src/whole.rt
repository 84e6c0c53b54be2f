//! The tree that tokens spell, taking all of them.
ghost use Rattle.std.specs.Prelude.{◌≡◌, ◌<◌, ◌≤◌, ◌^◌, suc, length, map, IfOk, IsErrOf};
ghost use Rattle.java_parser_types.specs.declared.error.ReadError.TheVariants.{Unformed};
ghost use Rattle.java_tree.specs.Trees.{Method};
ghost use Rattle.java_tree.specs.Spelling.{spelling};
ghost use Rattle.java_tree.specs.FormedMethods.{FormedMethod};
ghost use Rattle.java_tree.specs.Nesting.{method_nesting};
ghost use Rattle.java_tree.specs.KeptPlaces.{kept};
ghost use Rattle.java_tree.specs.KeptPlaces.{AreAt};
ghost use Rattle.java_tree.specs.MethodPlaces.{method_marks};
ghost use Rattle.java_tree.specs.View.{method_of};
ghost use Rattle.java_parser_grammar.specs.Heads.{has_synchronized};
ghost use Rattle.java_parser_types.specs.Tokens.{spelled};

use super::methods;
use java_lexer::Token;
use java_parser_types::error::ReadError;
use java_tree::MethodTree;
use std::alloc::Global;

/// The formed method that these tokens spell, of a nesting within the limit (JLS 8.4, 8.8).
pub fn read_method(alloc: Global, limit: u32, tokens: &[Token]) -> Result<MethodTree, ReadError>
    requires few { length tokens.now < 2 ^ 32 }
    requires room { suc (suc limit) < 2 ^ 32 }
    ensures formed { IfOk result (λ tree. FormedMethod (method_of tree)) }
    ensures spelled { IfOk result (λ tree. spelling (method_of tree) ≡ map spelled tokens.now) }
    ensures places { IfOk result (λ tree. AreAt (method_marks tree) (kept tokens.now)) }
    ensures synchronized { IfOk result (λ tree. tree.has_synchronized ≡ has_synchronized tokens.now) }
    ensures tokens { IfOk result (λ tree. tree.tokens ≡ length tokens.now) }
    ensures small { IfOk result (λ tree. method_nesting (method_of tree) ≤ limit) }
    ensures only { IfOk result (λ tree. (other : Method) → FormedMethod other
        → spelling other ≡ map spelled tokens.now → other ≡ method_of tree) }
    ensures none { IsErrOf result Unformed → (other : Method) → FormedMethod other → method_nesting other ≤ limit
        → spelling other ≡ map spelled tokens.now → ⊥ }
{
    methods::read_method(alloc, limit, tokens)
}
