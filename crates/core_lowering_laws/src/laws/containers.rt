//! Calls on container fields, and loops over them.
ghost use Rattle.std.specs.Prelude.{◌≡◌, [], ◌∷◌, Some, codes, map};
ghost use Rattle.core_lowering_laws.specs.Examples.{class_a, lowered, push_this, push_k, push_a, push_class, dup, pop};
ghost use Rattle.core_lowering_laws.specs.Examples.{null, outside, set, get, put, repeated};

/// A call that changes or looks at what a container holds, behind its arguments, wherever the field is.
pub fn calls_on_containers()
    ensures change { map lowered (codes "list . add ( k ) ;" ∷ codes "this . list . add ( k ) ;" ∷ [])
        ≡ Some (push_this ∷ dup ∷ get 5 ∷ push_k ∷ outside 2 ∷ put 7 ∷ pop ∷ [])
        ∷ Some (push_this ∷ dup ∷ get 5 ∷ push_k ∷ outside 2 ∷ put 7 ∷ pop ∷ []) ∷ [] }
    ensures look { lowered (codes "list . get ( k ) ;")
        ≡ Some (push_this ∷ dup ∷ get 5 ∷ push_k ∷ outside 2 ∷ pop ∷ get 7 ∷ outside 1 ∷ pop ∷ []) }
    ensures of_object { lowered (codes "a . list . clear ( ) ;")
        ≡ Some (push_a ∷ dup ∷ get 5 ∷ outside 1 ∷ put 7 ∷ pop ∷ []) }
    ensures of_class { map lowered (codes "map . size ( ) ;" ∷ codes "A . map . size ( ) ;" ∷ [])
        ≡ Some (push_class class_a ∷ dup ∷ get 6 ∷ outside 1 ∷ pop ∷ get 8 ∷ outside 1 ∷ pop ∷ [])
        ∷ Some (push_class class_a ∷ dup ∷ get 6 ∷ outside 1 ∷ pop ∷ get 8 ∷ outside 1 ∷ pop ∷ []) ∷ [] }
    ensures within { lowered (codes "list . add ( map . size ( ) ) ;")
        ≡ Some (push_this ∷ dup ∷ get 5 ∷ push_class class_a ∷ dup ∷ get 6 ∷ outside 1 ∷ pop ∷ get 8 ∷ outside 1
        ∷ outside 2 ∷ put 7 ∷ pop ∷ []) }
{}

/// Calls that touch nothing: of another name, with another number of arguments, on another field, on a container in
/// parentheses.
pub fn other_calls_on_containers()
    ensures other_name { lowered (codes "list . iterator ( ) ;") ≡ Some (push_this ∷ get 5 ∷ outside 1 ∷ pop ∷ []) }
    ensures other_count { lowered (codes "list . add ( ) ;") ≡ Some (push_this ∷ get 5 ∷ outside 1 ∷ pop ∷ []) }
    ensures other_field { lowered (codes "any . add ( k ) ;")
        ≡ Some (push_this ∷ get 3 ∷ push_k ∷ outside 2 ∷ pop ∷ []) }
    ensures in_parentheses { lowered (codes "( list ) . add ( k ) ;")
        ≡ Some (push_this ∷ get 5 ∷ push_k ∷ outside 2 ∷ pop ∷ []) }
{}

/// A loop over a container looks at what it holds, once.
pub fn loops_over_containers()
    ensures each { lowered (codes "for ( A a : list ) ;")
        ≡ Some (push_this ∷ get 7 ∷ outside 1 ∷ pop ∷ repeated (outside 0 ∷ set 4 ∷ pop ∷ [])
        ∷ null ∷ set 4 ∷ pop ∷ []) }
    ensures in_parentheses { lowered (codes "for ( A a : ( list ) ) ;")
        ≡ Some (push_this ∷ get 5 ∷ pop ∷ repeated (outside 0 ∷ set 4 ∷ pop ∷ []) ∷ null ∷ set 4 ∷ pop ∷ []) }
{}
