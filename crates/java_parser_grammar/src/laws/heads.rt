//! What is kept of a method that has no tree (JLS 8.4).
ghost use Rattle.std.specs.Prelude.{◌≡◌, [], codes, true, false};
ghost use Rattle.java_parser_grammar.specs.Heads.{parameters_among, has_static, has_synchronized};
ghost use Rattle.java_parser_grammar.specs.Pieces.{items_of};
ghost use Rattle.java_parser_grammar.specs.UnitExamples.{line};

/// Whether `static` stands before the name, outside brackets, and so outside annotations too.
pub fn static_heads()
    ensures stands { has_static (line (codes "@ A public static < T > void")) ≡ true }
    ensures behind { has_static (line (codes "void static")) ≡ true }
    ensures annotated { has_static (line (codes "@ A ( static ) void")) ≡ false }
    ensures bracketed { has_static (line (codes "int [ static ]")) ≡ false }
{}

/// Whether `synchronized` stands anywhere in a member.
pub fn synchronized_members()
    ensures lock { has_synchronized (line (codes "void f ( ) { try { synchronized ( a ) { } } }")) ≡ true }
    ensures modifier { has_synchronized (line (codes "synchronized void f ( ) { do { } }")) ≡ true }
    ensures annotated { has_synchronized (line (codes "@ A ( synchronized ) void f ( ) { do { } }")) ≡ true }
    ensures none { has_synchronized (line (codes "static void f ( ) { do { } }")) ≡ false }
{}

/// The number of parameters: none, or one more than the commas outside brackets, `<` and `>` among these.
pub fn parameters()
    ensures none { parameters_among [] ≡ 0 }
    ensures one { parameters_among (items_of (line (codes "int ... x"))) ≡ 1 }
    ensures two { parameters_among (items_of (line (codes "int x , final int y"))) ≡ 2 }
    ensures angles { parameters_among (items_of (line (codes "Map < A , B > m"))) ≡ 1 }
    ensures glued { parameters_among (items_of (line (codes "Map < A , Map < B , C >> m , int x"))) ≡ 2 }
    ensures annotated { parameters_among (items_of (line (codes "@ A ( 1 , 2 ) int x"))) ≡ 1 }
    ensures bracketed { parameters_among (items_of (line (codes "a [ , ] , { b , c }"))) ≡ 2 }
    ensures closed_with { parameters_among (items_of (line (codes "[ a < b ] , c"))) ≡ 2 }
    ensures closes_none { parameters_among (items_of (line (codes "a > b , c"))) ≡ 2 }
    ensures closes_none_inside { parameters_among (items_of (line (codes "a < ( > ) , b"))) ≡ 1 }
    ensures comma { parameters_among (items_of (line (codes ","))) ≡ 2 }
{}
