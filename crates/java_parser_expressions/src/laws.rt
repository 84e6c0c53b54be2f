//! Laws of what a variable begins with.
ghost use Rattle.std.specs.Prelude.{◌≡◌, List, []};
ghost use Rattle.java_lexer.specs.declared.token.Token.{Token};
ghost use Rattle.java_tree.specs.declared.expressions.Initialiser.{Initialiser};
ghost use Rattle.java_tree.specs.Formed.{FormedInit};
ghost use Rattle.java_tree.specs.KeptPlaces.{init_places};
ghost use Rattle.java_tree.specs.Spelling.{init_onto};
ghost use Rattle.java_tree.specs.View.{init_of};
ghost use Rattle.java_parser_types.specs.Placed.{IsMarked};

/// Two expressions or array initialisers that the same tokens spell are equal, with their places.
pub fn one_placed_initialiser()
    ensures { (tokens : List Token) (a b : Initialiser)
        → IsMarked FormedInit init_onto tokens (init_of a) (init_places a [])
        → IsMarked FormedInit init_onto tokens (init_of b) (init_places b []) → (init_of a ≡ init_of b)
        × (init_places a [] ≡ init_places b []) }
{}
