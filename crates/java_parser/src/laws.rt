//! Laws of files that are units.
ghost use Rattle.std.specs.Prelude.{◌≡◌, ℕ, List};
ghost use Rattle.java_lexer.specs.declared.token.Token.{Token};
ghost use Rattle.java_tree.specs.declared.methods.MethodTree as code;
ghost use Rattle.java_tree.specs.FormedMethods.{FormedMethod};
ghost use Rattle.java_tree.specs.Spelling.{spelling};
ghost use Rattle.java_tree.specs.Trees.{Method};
ghost use Rattle.java_tree.specs.View.{method_of};
ghost use Rattle.java_tree.specs.declared.unit.Member.TheVariants as member;
ghost use Rattle.java_tree.specs.declared.unit.Unit as unit;
ghost use Rattle.java_parser_grammar.specs.Tokens.{plain_all};
ghost use Rattle.java_parser_grammar.specs.Units.{IsMember, IsUnit};
ghost use Rattle.java_tree.specs.SameUnits.{SameUnit};

use java_parser_grammar::grammar_laws;
use java_parser_methods::laws::one_placed_method;

/// A file is one unit at most: two that it is are the same, with the places of their trees.
pub fn one_unit()
    ensures { (tokens : List Token) (u v : unit.Unit) → IsUnit tokens u → IsUnit tokens v → SameUnit u v }
{
    one_placed_method();
}

/// Where a member is read as a method, each formed tree that spells its tokens is the tree of the method, places aside.
pub fn one_method()
    ensures { (class : List ℕ) (tokens : List Token) (tree : code.MethodTree)
        → IsMember class tokens (member.Method tree) → (other : Method) → FormedMethod other
        → spelling other ≡ plain_all tokens → other ≡ method_of tree }
{}

/// Reading is unique: of two formed trees, places aside, equal spellings mean equal trees.
pub fn unique_reading()
    ensures { (first second : code.MethodTree) → FormedMethod (method_of first) → FormedMethod (method_of second)
        → spelling (method_of first) ≡ spelling (method_of second) → method_of first ≡ method_of second }
{
    grammar_laws::one_method();
}
