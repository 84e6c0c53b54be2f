//! Laws of types that tokens spell.
ghost use Rattle.std.specs.Prelude.{◌≡◌, List};
ghost use Rattle.java_lexer.specs.declared.token.Token.{Token};
ghost use Rattle.java_tree.specs.declared.types.TypeTree.{TypeTree};
ghost use Rattle.java_tree.specs.Formed.{FormedTy};
ghost use Rattle.java_tree.specs.KeptPlaces.{ty_places};
ghost use Rattle.java_tree.specs.Spelling.{ty_onto};
ghost use Rattle.java_tree.specs.View.{ty_of};
ghost use Rattle.java_parser_types.specs.Placed.{IsPlaced};

/// Two types that the same tokens spell are equal, with their places.
pub fn one_placed_type()
    ensures { (tokens : List Token) (a b : TypeTree) → IsPlaced FormedTy ty_onto tokens (ty_of a) (ty_places a)
        → IsPlaced FormedTy ty_onto tokens (ty_of b) (ty_places b) → (ty_of a ≡ ty_of b)
        × (ty_places a ≡ ty_places b) }
{}
