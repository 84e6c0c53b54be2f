//! Laws of methods that tokens spell.
ghost use Rattle.std.specs.Prelude.{◌≡◌, List};
ghost use Rattle.java_lexer.specs.declared.token.Token.{Token};
ghost use Rattle.java_tree.specs.declared.methods.MethodTree.{MethodTree};
ghost use Rattle.java_tree.specs.MethodPlaces.{method_marks};
ghost use Rattle.java_tree.specs.View.{method_of};
ghost use Rattle.java_parser_methods.specs.PlacedMethods.{IsPlacedMethod};

/// Two methods that the same tokens spell are equal, with their places.
pub fn one_placed_method()
    ensures { (tokens : List Token) (a b : MethodTree) → IsPlacedMethod tokens a → IsPlacedMethod tokens b
        → (method_of a ≡ method_of b) × (method_marks a ≡ method_marks b) }
{}
