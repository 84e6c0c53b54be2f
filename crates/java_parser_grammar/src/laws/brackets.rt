//! Files whose brackets do not match, or stand too deep (JLS 3.11).
ghost use Rattle.std.specs.Prelude.{◌≡◌, [], ◌∷◌, ◌++◌, codes, None, Some};
ghost use Rattle.java_tree.specs.Words.{sign};
ghost use Rattle.java_parser_grammar.specs.Brackets.{unbalanced, too_deep};
ghost use Rattle.java_parser_grammar.specs.UnitExamples.{at, line, placed_all, signs};

/// The first closing bracket that does not match, or the innermost open one.
pub fn unbalanced_brackets()
    ensures matching { unbalanced [] (line (codes "class A { int [ ] f ( int x ) { } }")) ≡ None }
    ensures closing { unbalanced [] (line (codes "class A { ) }")) ≡ Some (at 11) }
    ensures crossing { unbalanced [] (line (codes "( [ ) ]")) ≡ Some (at 5) }
    ensures unopened { unbalanced [] (line (codes "class A { } } )")) ≡ Some (at 13) }
    ensures unclosed { unbalanced [] (line (codes "class A { f ( [ ] [")) ≡ Some (at 19) }
    ensures angles { unbalanced [] (line (codes "< ( > ) <")) ≡ None }
{}

/// The 201st bracket of those open.
pub fn deep_brackets()
    ensures flat { too_deep 0 (line (codes "class A { }")) ≡ None }
    ensures deep { too_deep 0 (placed_all 1 (signs 201 (codes "{"))) ≡ Some (at 201) }
    ensures closed { too_deep 0 (placed_all 1 (signs 200 (codes "[") ++ sign (codes "]") ∷ sign (codes "(") ∷ []))
        ≡ None }
    ensures reopened { too_deep 0
        (placed_all 1 (signs 200 (codes "[") ++ sign (codes "]") ∷ sign (codes "(") ∷ sign (codes "{") ∷ []))
        ≡ Some (at 203) }
{}
