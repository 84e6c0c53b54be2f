//! The code of expressions and their kinds (JLS 15).
ghost use Rattle.std.specs.Prelude.{◌≡◌, [], ◌∷◌, Some, codes, map};
ghost use Rattle.racer_base.specs.declared.ids.Kind.TheVariants.{Plain, Declared, Other};
ghost use Rattle.core_lowering_rules.specs.ValueKinds.{Of, Null};
ghost use Rattle.core_lowering_laws.specs.Examples.{class_a, class_b, an_a, value_of, static_value_of, kind_of_text};
ghost use Rattle.core_lowering_laws.specs.Examples.{push, push_this, push_k, push_a, push_o, push_class, prim, null};
ghost use Rattle.core_lowering_laws.specs.Examples.{pop};
ghost use Rattle.core_lowering_laws.specs.Examples.{operator, outside, get, choice};

/// Literals, `this` and classes (JLS 15.8).
pub fn values()
    ensures primitive { map value_of (codes "1" ∷ codes "'c'" ∷ codes "true" ∷ codes "false" ∷ [])
        ≡ Some (prim ∷ []) ∷ Some (prim ∷ []) ∷ Some (prim ∷ []) ∷ Some (prim ∷ []) ∷ [] }
    ensures text { value_of (codes "\"x\"") ≡ Some (outside 0 ∷ []) }
    ensures null { value_of (codes "null") ≡ Some (null ∷ []) }
    ensures this { value_of (codes "this") ≡ Some (push_this ∷ []) }
    ensures no_this { static_value_of (codes "this") ≡ Some (outside 0 ∷ []) }
    ensures class { value_of (codes "A . class") ≡ Some (push_class class_a ∷ []) }
    ensures other_classes { map value_of (codes "q . class" ∷ codes "p . A . class" ∷ [])
        ≡ Some (outside 0 ∷ []) ∷ Some (outside 0 ∷ []) ∷ [] }
    ensures parentheses { value_of (codes "( a )") ≡ Some (push_a ∷ []) }
{}

/// Simple names (JLS 15.14.1, 6.5).
pub fn names()
    ensures variable { value_of (codes "k") ≡ Some (push_k ∷ []) }
    ensures field { value_of (codes "n") ≡ Some (push_this ∷ get 0 ∷ []) }
    ensures static_field { value_of (codes "s") ≡ Some (push_class class_a ∷ get 2 ∷ []) }
    ensures in_static { static_value_of (codes "s") ≡ Some (push_class class_a ∷ get 2 ∷ []) }
    ensures no_object { static_value_of (codes "n") ≡ Some (outside 0 ∷ []) }
    ensures opaque { map value_of (codes "q" ∷ codes "A" ∷ []) ≡ Some (outside 0 ∷ []) ∷ Some (outside 0 ∷ []) ∷ [] }
{}

/// Accesses of fields and of arrays (JLS 15.11, 15.10.3).
pub fn accesses()
    ensures of_class { value_of (codes "A . s") ≡ Some (push_class class_a ∷ get 2 ∷ []) }
    ensures not_static { map value_of (codes "A . n" ∷ codes "B . s" ∷ [])
        ≡ Some (outside 0 ∷ []) ∷ Some (outside 0 ∷ []) ∷ [] }
    ensures of_object { value_of (codes "a . next . n") ≡ Some (push_a ∷ get 1 ∷ get 0 ∷ []) }
    ensures static_of_object { value_of (codes "a . s") ≡ Some (push_a ∷ pop ∷ push_class class_a ∷ get 2 ∷ []) }
    ensures no_field { value_of (codes "a . q") ≡ Some (push_a ∷ outside 1 ∷ []) }
    ensures of_other { value_of (codes "o . n") ≡ Some (push_o ∷ outside 1 ∷ []) }
    ensures of_opaque { value_of (codes "q . n") ≡ Some (outside 0 ∷ outside 1 ∷ []) }
    ensures in_parentheses { value_of (codes "( A ) . s") ≡ Some (outside 0 ∷ outside 1 ∷ []) }
    ensures element { value_of (codes "o [ k ]") ≡ Some (push_o ∷ push_k ∷ outside 2 ∷ []) }
{}

/// Operators (JLS 15.15 to 15.25).
pub fn operators()
    ensures unary { map value_of (codes "- k" ∷ codes "! k" ∷ codes "k instanceof A" ∷ codes "( int ) k" ∷ [])
        ≡ Some (push_k ∷ operator 1 ∷ []) ∷ Some (push_k ∷ operator 1 ∷ []) ∷ Some (push_k ∷ operator 1 ∷ [])
        ∷ Some (push_k ∷ operator 1 ∷ []) ∷ [] }
    ensures cast { map value_of (codes "( A ) o" ∷ codes "( int [ ] ) o" ∷ [])
        ≡ Some (push_o ∷ outside 1 ∷ []) ∷ Some (push_o ∷ outside 1 ∷ []) ∷ [] }
    ensures binary { value_of (codes "k + n") ≡ Some (push_k ∷ push_this ∷ get 0 ∷ operator 2 ∷ []) }
    ensures and { value_of (codes "k && n")
        ≡ Some (push_k ∷ operator 1 ∷ choice (push_this ∷ get 0 ∷ operator 2 ∷ []) [] ∷ []) }
    ensures or { value_of (codes "k || n")
        ≡ Some (push_k ∷ operator 1 ∷ choice (push_this ∷ get 0 ∷ operator 2 ∷ []) [] ∷ []) }
    ensures conditional { value_of (codes "k ? a : null")
        ≡ Some (push_k ∷ pop ∷ choice (push_a ∷ []) (null ∷ []) ∷ []) }
{}

/// The kinds of expressions.
pub fn kinds_of_expressions()
    ensures plain { map kind_of_text (codes "1" ∷ codes "k" ∷ codes "n" ∷ codes "k + o" ∷ codes "k && k" ∷ codes "- o"
        ∷ codes "q ++" ∷ codes "-- q" ∷ codes "o instanceof A" ∷ codes "( int ) o" ∷ codes "g ( a )" ∷ codes "k = o"
        ∷ codes "k ? 1 : 2" ∷ []) ≡ Some (Of Plain) ∷ Some (Of Plain) ∷ Some (Of Plain) ∷ Some (Of Plain)
        ∷ Some (Of Plain) ∷ Some (Of Plain) ∷ Some (Of Plain) ∷ Some (Of Plain) ∷ Some (Of Plain) ∷ Some (Of Plain)
        ∷ Some (Of Plain) ∷ Some (Of Plain) ∷ Some (Of Plain) ∷ [] }
    ensures null { map kind_of_text (codes "null" ∷ codes "( null )" ∷ codes "k ? null : null" ∷ [])
        ≡ Some Null ∷ Some Null ∷ Some Null ∷ [] }
    ensures objects { map kind_of_text (codes "this" ∷ codes "a" ∷ codes "a . next" ∷ codes "A . last" ∷ codes "( A ) o"
        ∷ codes "f ( a , 1 )" ∷ codes "a . f ( a , 1 )" ∷ codes "a = o" ∷ codes "a += o" ∷ codes "a . next = o"
        ∷ codes "k ? a : null" ∷ codes "k ? null : a" ∷ codes "k ? a : this" ∷ codes "new A ( )" ∷ [])
        ≡ Some (Of an_a) ∷ Some (Of an_a) ∷ Some (Of an_a) ∷ Some (Of an_a) ∷ Some (Of an_a) ∷ Some (Of an_a)
        ∷ Some (Of an_a) ∷ Some (Of an_a) ∷ Some (Of an_a) ∷ Some (Of an_a) ∷ Some (Of an_a) ∷ Some (Of an_a)
        ∷ Some (Of an_a) ∷ Some (Of an_a) ∷ [] }
    ensures other_class { map kind_of_text (codes "new B ( )" ∷ codes "( B ) a" ∷ [])
        ≡ Some (Of (Declared class_b)) ∷ Some (Of (Declared class_b)) ∷ [] }
    ensures others { map kind_of_text (codes "\"x\"" ∷ codes "q" ∷ codes "A" ∷ codes "A . class" ∷ codes "a . q"
        ∷ codes "o . n" ∷ codes "o [ 0 ]" ∷ codes "q ( )" ∷ codes "o . g ( a )" ∷ codes "A . f ( a , 1 )"
        ∷ codes "q = a" ∷ codes "k ? a : o" ∷ codes "k ? 1 : null" ∷ codes "k ? a : new B ( )" ∷ codes "new A [ 1 ]"
        ∷ codes "new int [ ] { 1 }" ∷ codes "( int [ ] ) o" ∷ codes "new A < > ( )" ∷ [])
        ≡ Some (Of Other) ∷ Some (Of Other) ∷ Some (Of Other) ∷ Some (Of Other) ∷ Some (Of Other) ∷ Some (Of Other)
        ∷ Some (Of Other) ∷ Some (Of Other) ∷ Some (Of Other) ∷ Some (Of Other) ∷ Some (Of Other) ∷ Some (Of Other)
        ∷ Some (Of Other) ∷ Some (Of Other) ∷ Some (Of Other) ∷ Some (Of Other)
        ∷ Some (Of Other) ∷ Some (Of Other) ∷ [] }
{}
