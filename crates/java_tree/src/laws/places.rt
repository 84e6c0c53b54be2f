//! The tokens of which a tree keeps the place.
ghost use Rattle.std.specs.Prelude.{◌≡◌, [], ◌∷◌, codes};
ghost use Rattle.java_tree.specs.PlacedExamples.{kept_in};

use racer_base::FileId;

/// The numbers of such tokens, from 1 on, in texts of types, expressions and statements.
pub fn kept_places(file: FileId)
    ensures kind { kept_in file (codes "A < ? super B . C , int [ ] > x") ≡ 1 ∷ 5 ∷ 7 ∷ 13 ∷ [] }
    ensures fields { kept_in file (codes "this . x = a . b [ 1 ]") ≡ 3 ∷ 5 ∷ 7 ∷ [] }
    ensures calls { kept_in file (codes "f ( null ) . g ( a , \"a\" )") ≡ 1 ∷ 6 ∷ 8 ∷ [] }
    ensures creations { kept_in file (codes "new A < B > ( new int [ n ] )") ≡ 1 ∷ 2 ∷ 4 ∷ 7 ∷ 10 ∷ [] }
    ensures locks { kept_in file (codes "synchronized ( this ) { return x ; }") ≡ 1 ∷ 7 ∷ [] }
{}
