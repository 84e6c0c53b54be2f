//! Which types are classes that are read (JLS 8.1), and their annotations (JLS 9.7.4).
ghost use Rattle.std.specs.Prelude.{[], ◌∷◌, codes};
ghost use Rattle.java_tree.specs.Examples.{annotation, bare_annotation};
ghost use Rattle.java_parser_grammar.specs.ClassHeads.{HasNoHead};
ghost use Rattle.java_parser_grammar.specs.UnitExamples.{line, BeginsClass};

/// Classes that are read: behind the name stands nothing, or `implements` and what follows.
pub fn read_classes()
    ensures bare { BeginsClass (codes "class A { }") [] (codes "A") }
    ensures implementing { BeginsClass (codes "class A implements B , C < D > { }") [] (codes "A") }
    ensures modified { BeginsClass (codes "@ N ( interface ) public abstract class A { interface I { } }")
        (annotation (codes "N" ∷ []) (codes "( interface )") ∷ []) (codes "A") }
{}

/// Types that are skipped.
pub fn skipped_types()
    ensures extending { HasNoHead (line (codes "class A extends B { }")) }
    ensures both { HasNoHead (line (codes "class A extends B implements C { }")) }
    ensures generic { HasNoHead (line (codes "class A < T > { }")) }
    ensures interface { HasNoHead (line (codes "interface A { class B { } }")) }
    ensures enumeration { HasNoHead (line (codes "enum A implements B { }")) }
    ensures annotation { HasNoHead (line (codes "@ interface A { }")) }
    ensures letter { HasNoHead (line (codes "class A ; class B { }")) }
{}

/// The annotations of a class stand before its word, among the modifiers.
pub fn annotations_of_classes()
    ensures each { BeginsClass (codes "@ A public @ B ( 1 ) class C { @ D int x ; }")
        (bare_annotation (codes "A") ∷ annotation (codes "B" ∷ []) (codes "( 1 )") ∷ []) (codes "C") }
    ensures none { BeginsClass (codes "class C implements @ D E { }") [] (codes "C") }
{}
