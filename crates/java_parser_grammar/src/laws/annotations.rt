//! Annotations among items (JLS 9.7).
ghost use Rattle.std.specs.Prelude.{◌≡◌, [], ◌∷◌, codes};
ghost use Rattle.java_parser_grammar.specs.UnitExamples.{pieces};

/// An annotation is `@`, names joined by points, and parentheses or none; it goes on as long as it can.
pub fn pieces_of_lines()
    ensures named { pieces (codes "@ A int x") ≡ codes "@ A" ∷ codes "int" ∷ codes "x" ∷ [] }
    ensures joined { pieces (codes "@ a . B ( x = { ( ) } ) x") ≡ codes "@ a . B ( x = { ( ) } )" ∷ codes "x" ∷ [] }
    ensures empty { pieces (codes "@ A ( )") ≡ codes "@ A ( )" ∷ [] }
    ensures nameless { pieces (codes "@ ( )") ≡ codes "@" ∷ codes "( )" ∷ [] }
    ensures interface { pieces (codes "@ A @ interface B")
        ≡ codes "@ A" ∷ codes "@" ∷ codes "interface" ∷ codes "B" ∷ [] }
    ensures pointed { pieces (codes "@ A . int") ≡ codes "@ A" ∷ codes "." ∷ codes "int" ∷ [] }
    ensures twice { pieces (codes "@ A ( b ) ( c )") ≡ codes "@ A ( b )" ∷ codes "( c )" ∷ [] }
    ensures behind_parentheses { pieces (codes "@ A ( ) . B") ≡ codes "@ A ( )" ∷ codes "." ∷ codes "B" ∷ [] }
    ensures braces { pieces (codes "@ A { }") ≡ codes "@ A" ∷ codes "{ }" ∷ [] }
    ensures inside { pieces (codes "[ @ A ] { @ B ( ) }") ≡ codes "[ @ A ]" ∷ codes "{ @ B ( ) }" ∷ [] }
{}
