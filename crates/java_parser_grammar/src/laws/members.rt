//! Where members end, and what form they have (JLS 8.1.6): each row of the table just inside and just outside.
ghost use Rattle.std.specs.Prelude.{◌≡◌, [], ◌∷◌, codes};
ghost use Rattle.java_tree.specs.Words.{identifier};
ghost use Rattle.java_parser_grammar.specs.Members.{SkippedForm, FieldForm};
ghost use Rattle.java_parser_grammar.specs.UnitExamples.{placed, members, form, method, Method};

/// A member ends at a `;` outside brackets, or behind the first braces that no `=` precedes; a lone `;` is none.
pub fn ends_of_members()
    ensures each { members (codes "int x ; void f ( ) { ; } ; int y = 1 ; ;")
        ≡ codes "int x ;" ∷ codes "void f ( ) { ; }" ∷ codes "int y = 1 ;" ∷ [] }
    ensures initialised { members (codes "int x = 1 ; void f ( ) { } int z ;")
        ≡ codes "int x = 1 ;" ∷ codes "void f ( ) { }" ∷ codes "int z ;" ∷ [] }
    ensures none { members (codes "; ;") ≡ [] }
    ensures equals { members (codes "int x = { 1 } , y { } ; int z ;")
        ≡ codes "int x = { 1 } , y { } ;" ∷ codes "int z ;" ∷ [] }
    ensures annotated { members (codes "@ A ( x = { ; } ) int f ( ) { } int y ;")
        ≡ codes "@ A ( x = { ; } ) int f ( ) { }" ∷ codes "int y ;" ∷ [] }
    ensures bracketed { members (codes "int [ = ] ( { } ) x { } y ;")
        ≡ codes "int [ = ] ( { } ) x { }" ∷ codes "y ;" ∷ [] }
    ensures later { members (codes "int f ( ) = 3 { } g ( ) { } ; y ;")
        ≡ codes "int f ( ) = 3 { } g ( ) { } ;" ∷ codes "y ;" ∷ [] }
    ensures behind { members (codes "int f ( ) { } = 3 { } ; y ;")
        ≡ codes "int f ( ) { }" ∷ codes "= 3 { } ;" ∷ codes "y ;" ∷ [] }
    ensures blocks { members (codes "{ } static { } class B { int x ; } int y ;")
        ≡ codes "{ }" ∷ codes "static { }" ∷ codes "class B { int x ; }" ∷ codes "int y ;" ∷ [] }
    ensures endless { members (codes "int x ; int y") ≡ codes "int x ;" ∷ codes "int y" ∷ [] }
    ensures endless_braces { members (codes "int x = { } int y ( )") ≡ codes "int x = { } int y ( )" ∷ [] }
{}

/// Members without an end, and the same with one.
pub fn endless_members()
    ensures field { form (codes "int x") ≡ SkippedForm }
    ensures ended_field { form (codes "int x ;") ≡ FieldForm }
    ensures method { form (codes "int f ( )") ≡ SkippedForm }
    ensures braces { form (codes "x = { }") ≡ SkippedForm }
    ensures ended_braces { form (codes "x = { } ;") ≡ FieldForm }
{}

/// Blocks, and what is none.
pub fn blocks()
    ensures block { form (codes "{ f ( ) ; }") ≡ SkippedForm }
    ensures static_block { form (codes "static { f ( ) ; }") ≡ SkippedForm }
    ensures final_block { form (codes "final { f ( ) ; }") ≡ FieldForm }
    ensures annotated_block { form (codes "@ f ( ) { }") ≡ FieldForm }
    ensures named_block { form (codes "static x { }") ≡ FieldForm }
{}

/// Types among the members, and what is none.
pub fn types_among_members()
    ensures class { form (codes "class f ( ) { }") ≡ SkippedForm }
    ensures interface { form (codes "public static final interface f ( ) { }") ≡ SkippedForm }
    ensures enumeration { form (codes "@ A ( 1 ) protected @ B private enum f ( ) { }") ≡ SkippedForm }
    ensures annotation { form (codes "abstract strictfp @ interface f ( ) { }") ≡ SkippedForm }
    ensures words { form (codes "synchronized native transient volatile default class f ( ) { }") ≡ SkippedForm }
    ensures behind { method (codes "void class f ( ) { }")
        ≡ Method (codes "void class") (placed 12 (identifier (codes "f"))) 0 }
    ensures record { method (codes "record f ( int x ) { }")
        ≡ Method (codes "record") (placed 8 (identifier (codes "f"))) 1 }
{}

/// What ends with `;`, or has no name before its parentheses.
pub fn methods_without_bodies()
    ensures bodiless { form (codes "abstract void f ( ) ;") ≡ SkippedForm }
    ensures native_method { form (codes "native synchronized int f ( int x ) ;") ≡ SkippedForm }
    ensures call { form (codes "f ( 1 ) ;") ≡ SkippedForm }
    ensures late_equals { form (codes "f ( 1 ) = { } ;") ≡ SkippedForm }
    ensures nameless { form (codes "( ) { }") ≡ SkippedForm }
    ensures keyword { form (codes "if ( a ) { }") ≡ SkippedForm }
    ensures angle { form (codes "f < T > ( ) { }") ≡ SkippedForm }
    ensures bracketed { form (codes "f [ ] ( ) { }") ≡ SkippedForm }
{}

/// Methods and constructors with a body: the name before the first parentheses that count.
pub fn methods()
    ensures plain { method (codes "void f ( ) { }") ≡ Method (codes "void") (placed 6 (identifier (codes "f"))) 0 }
    ensures bare { method (codes "f ( ) { }") ≡ Method [] (placed 1 (identifier (codes "f"))) 0 }
    ensures annotated { method (codes "@ A ( = ) int f ( int x ) { }")
        ≡ Method (codes "@ A ( = ) int") (placed 15 (identifier (codes "f"))) 1 }
    ensures generic { method (codes "< T > void f ( T t ) { }")
        ≡ Method (codes "< T > void") (placed 12 (identifier (codes "f"))) 1 }
    ensures bracketed { method (codes "int [ ( = ) ] f ( ) { }")
        ≡ Method (codes "int [ ( = ) ]") (placed 15 (identifier (codes "f"))) 0 }
    ensures thrown { method (codes "void f ( ) throws g ( int x ) { }")
        ≡ Method (codes "void") (placed 6 (identifier (codes "f"))) 0 }
{}

/// What may be fields: no parentheses that count stand before the first `=`.
pub fn fields()
    ensures initialised { form (codes "int x = f ( 1 ) ;") ≡ FieldForm }
    ensures annotated { form (codes "@ A ( 1 ) int x ;") ≡ FieldForm }
    ensures bracketed { form (codes "int [ ( ) ] x ;") ≡ FieldForm }
    ensures braces { form (codes "int x { }") ≡ FieldForm }
{}
