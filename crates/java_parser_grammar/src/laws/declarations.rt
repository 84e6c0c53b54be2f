//! Files that are units, and the first token of others that does not fit (JLS 7.3).
ghost use Rattle.std.specs.Prelude.{◌≡◌, [], ◌∷◌, codes, true, false};
ghost use Rattle.java_parser_grammar.specs.Declarations.{is_file};
ghost use Rattle.java_parser_grammar.specs.UnitExamples.{file, types, UnfitAt};

/// Files: a package, imports and types, each with its end, and `;` before, between and behind them.
pub fn units()
    ensures empty { is_file [] ≡ true }
    ensures nothing { is_file (file (codes ";" ∷ codes ";" ∷ [])) ≡ true }
    ensures package_alone { is_file (file (codes ";" ∷ codes "@ N ( { ; } ) package a . b ;" ∷ codes ";" ∷ [])) ≡ true }
    ensures imports { is_file (file (codes "package a ;" ∷ codes "import c . * ;" ∷ codes ";"
        ∷ codes "import static d ;" ∷ codes ";" ∷ [])) ≡ true }
    ensures types { is_file (file (codes "import a ;" ∷ codes ";" ∷ codes "@ a . B public class A { int x ; }"
        ∷ codes ";" ∷ codes "enum C { }" ∷ [])) ≡ true }
    ensures no_import { is_file (file (codes "package a ;" ∷ codes "class A { }" ∷ [])) ≡ true }
    ensures bracketed { is_file (file (codes "package a ( ; ) { ; } b ;" ∷ codes "import [ ; ] ;" ∷ [])) ≡ true }
    ensures words { is_file (file (codes "public protected private static abstract final strictfp class A { }" ∷ []))
        ≡ true }
    ensures mixed { is_file (file (codes "final @ A ( int ) abstract @ B . C @ interface D { }" ∷ [])) ≡ true }
{}

/// Lists of declarations that are no file: a part of one, two in one, a wrong order.
pub fn other_lists()
    ensures part { is_file (file (codes "class A" ∷ [])) ≡ false }
    ensures two { is_file (file (codes "class A { } class B { }" ∷ [])) ≡ false }
    ensures behind { is_file (file (codes "class A { } ;" ∷ [])) ≡ false }
    ensures before { is_file (file (codes "; import a ;" ∷ [])) ≡ false }
    ensures semicolons { is_file (file (codes "; ;" ∷ [])) ≡ false }
    ensures imports { is_file (file (codes "import a ; import b ;" ∷ [])) ≡ false }
    ensures nothing { is_file ([] ∷ []) ≡ false }
    ensures nameless { is_file (file (codes "@ interface { }" ∷ [])) ≡ false }
    ensures annotated_import { is_file (file (codes "@ A import b ;" ∷ [])) ≡ false }
    ensures package_with_word { is_file (file (codes "public package a ;" ∷ [])) ≡ false }
    ensures packages { is_file (file (codes "package a ;" ∷ codes "package b ;" ∷ [])) ≡ false }
    ensures late_package { is_file (file (codes "import a ;" ∷ codes "package b ;" ∷ [])) ≡ false }
    ensures late_import { is_file (file (codes "class A { }" ∷ codes "import a ;" ∷ [])) ≡ false }
    ensures last_package { is_file (file (codes "class A { }" ∷ codes "package a ;" ∷ [])) ≡ false }
{}

/// The tokens of each type, up to and with the first braces outside brackets.
pub fn types_of_units()
    ensures each { types (codes "package a ;" ∷ codes ";" ∷ codes "import { } b ;" ∷ codes "class A { { } }" ∷ codes ";"
        ∷ codes "@ N ( { } ) enum C { D , E }" ∷ [])
        ≡ codes "class A { { } }" ∷ codes "@ N ( { } ) enum C { D , E }" ∷ [] }
    ensures file { is_file (file (codes "package a ;" ∷ codes ";" ∷ codes "import { } b ;" ∷ codes "class A { { } }"
        ∷ codes ";" ∷ codes "@ N ( { } ) enum C { D , E }" ∷ [])) ≡ true }
    ensures others { types (codes "@ interface B { }" ∷ codes "public interface F extends G { }" ∷ [])
        ≡ codes "@ interface B { }" ∷ codes "public interface F extends G { }" ∷ [] }
    ensures letter { is_file (file (codes "class A ; class B ( { } ) [ { } ] { }" ∷ codes "class C { }" ∷ [])) ≡ true }
    ensures letters { types (codes "class A ; class B ( { } ) [ { } ] { }" ∷ codes "class C { }" ∷ [])
        ≡ codes "class A ; class B ( { } ) [ { } ] { }" ∷ codes "class C { }" ∷ [] }
{}

/// The first token that begins no declaration, or does not go on with one.
pub fn unfit_tokens()
    ensures field { UnfitAt (codes "int x ;") 1 }
    ensures modifier { UnfitAt (codes "synchronized class A { }") 1 }
    ensures second { UnfitAt (codes "class A { } int x ;") 13 }
    ensures nameless { UnfitAt (codes "class { }") 7 }
    ensures keyword { UnfitAt (codes "enum int { }") 6 }
    ensures twice { UnfitAt (codes "class class A { }") 7 }
    ensures semicolon { UnfitAt (codes "public ; class A { }") 8 }
    ensures braces { UnfitAt (codes "{ }") 1 }
{}

/// A package stands first, then imports, then types.
pub fn unfit_orders()
    ensures packages { UnfitAt (codes "package a ; package b ;") 13 }
    ensures late_package { UnfitAt (codes "import a ; package b ;") 12 }
    ensures last_package { UnfitAt (codes "class A { } package b ;") 13 }
    ensures annotated_package { UnfitAt (codes "package a ; @ N package b ;") 17 }
    ensures package_with_word { UnfitAt (codes "public @ N package a ;") 12 }
    ensures late_import { UnfitAt (codes "class A { } ; import b ;") 15 }
    ensures annotated_import { UnfitAt (codes "@ A import b ;") 5 }
    ensures noted_import { UnfitAt (codes "@ A ( ) import b ;") 9 }
    ensures modified_import { UnfitAt (codes "public import b ;") 8 }
{}

/// What does not go on with an annotation.
pub fn unfit_annotations()
    ensures semicolon { UnfitAt (codes "@ A ; class B { }") 5 }
    ensures nameless { UnfitAt (codes "@ class A { }") 3 }
    ensures pointed { UnfitAt (codes "@ A . class B { }") 7 }
    ensures twice { UnfitAt (codes "@ A . B ( x ) ( y ) class C { }") 15 }
    ensures behind { UnfitAt (codes "@ A ( ) . B class C { }") 9 }
{}

/// A file that ends within a declaration is no unit at its end.
pub fn unfit_ends()
    ensures unclosed_type { UnfitAt (codes "class A") 8 }
    ensures line { UnfitAt (codes "class A ;") 10 }
    ensures bracketed { UnfitAt (codes "class A ( { } )") 16 }
    ensures unclosed_package { UnfitAt (codes "package a") 10 }
    ensures unclosed_import { UnfitAt (codes "import { ; }") 13 }
    ensures annotation { UnfitAt (codes "@ A") 4 }
    ensures word { UnfitAt (codes "public") 7 }
{}
