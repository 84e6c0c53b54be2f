//! The code of assignments (JLS 15.26, 15.14.2, 15.15.1).
ghost use Rattle.std.specs.Prelude.{◌≡◌, [], ◌∷◌, Some, codes, map};
ghost use Rattle.core_lowering_laws.specs.Examples.{class_a, lowered, push_this, push_k, push_a, push_o, push_class};
ghost use Rattle.core_lowering_laws.specs.Examples.{prim};
ghost use Rattle.core_lowering_laws.specs.Examples.{null, dup, pop, operator, outside, set, get, put};

/// Stores to variables.
pub fn assignments_to_variables()
    ensures plain { lowered (codes "k = o ;") ≡ Some (push_o ∷ set 1 ∷ pop ∷ []) }
    ensures fits { map lowered (codes "a = null ;" ∷ codes "a = this ;" ∷ [])
        ≡ Some (null ∷ set 2 ∷ pop ∷ []) ∷ Some (push_this ∷ set 2 ∷ pop ∷ []) ∷ [] }
    ensures converted { lowered (codes "a = o ;") ≡ Some (push_o ∷ outside 1 ∷ set 2 ∷ pop ∷ []) }
    ensures combined { lowered (codes "k += n ;")
        ≡ Some (push_k ∷ push_this ∷ get 0 ∷ operator 2 ∷ set 1 ∷ pop ∷ []) }
    ensures combined_object { lowered (codes "a += 1 ;")
        ≡ Some (push_a ∷ prim ∷ operator 2 ∷ outside 1 ∷ set 2 ∷ pop ∷ []) }
    ensures counted { map lowered (codes "k ++ ;" ∷ codes "-- k ;" ∷ [])
        ≡ Some (push_k ∷ operator 1 ∷ set 1 ∷ pop ∷ []) ∷ Some (push_k ∷ operator 1 ∷ set 1 ∷ pop ∷ []) ∷ [] }
    ensures counted_object { lowered (codes "a ++ ;") ≡ Some (push_a ∷ operator 1 ∷ outside 1 ∷ set 2 ∷ pop ∷ []) }
{}

/// Stores to fields: the base comes first, and the place is that of the field's name.
pub fn assignments_to_fields()
    ensures own { lowered (codes "n = k ;") ≡ Some (push_this ∷ push_k ∷ put 0 ∷ pop ∷ []) }
    ensures of_object { lowered (codes "a . next = next ;") ≡ Some (push_a ∷ push_this ∷ get 1 ∷ put 1 ∷ pop ∷ []) }
    ensures converted { lowered (codes "next = o ;") ≡ Some (push_this ∷ push_o ∷ outside 1 ∷ put 1 ∷ pop ∷ []) }
    ensures of_class { map lowered (codes "s = 1 ;" ∷ codes "A . s = 1 ;" ∷ [])
        ≡ Some (push_class class_a ∷ prim ∷ put 2 ∷ pop ∷ [])
        ∷ Some (push_class class_a ∷ prim ∷ put 2 ∷ pop ∷ []) ∷ [] }
    ensures static_of_object { lowered (codes "a . s = 1 ;")
        ≡ Some (push_a ∷ pop ∷ push_class class_a ∷ prim ∷ put 2 ∷ pop ∷ []) }
    ensures combined { lowered (codes "a . n += k ;")
        ≡ Some (push_a ∷ dup ∷ get 0 ∷ push_k ∷ operator 2 ∷ put 0 ∷ pop ∷ []) }
    ensures combined_object { lowered (codes "next += 1 ;")
        ≡ Some (push_this ∷ dup ∷ get 1 ∷ prim ∷ operator 2 ∷ outside 1 ∷ put 1 ∷ pop ∷ []) }
    ensures counted { lowered (codes "n ++ ;") ≡ Some (push_this ∷ dup ∷ get 0 ∷ operator 1 ∷ put 0 ∷ pop ∷ []) }
    ensures counted_static { lowered (codes "++ s ;")
        ≡ Some (push_class class_a ∷ dup ∷ get 2 ∷ operator 1 ∷ put 2 ∷ pop ∷ []) }
    ensures chain { lowered (codes "n = k = 1 ;") ≡ Some (push_this ∷ prim ∷ set 1 ∷ put 0 ∷ pop ∷ []) }
{}

/// Stores to what is not the folder's: the operands, and then a value where there is one.
pub fn other_assignments()
    ensures names { map lowered (codes "q = k ;" ∷ codes "A = k ;" ∷ codes "A . n = k ;" ∷ [])
        ≡ Some (push_k ∷ outside 1 ∷ pop ∷ []) ∷ Some (push_k ∷ outside 1 ∷ pop ∷ [])
        ∷ Some (push_k ∷ outside 1 ∷ pop ∷ []) ∷ [] }
    ensures of_values { map lowered (codes "q . x = k ;" ∷ codes "this . q = k ;" ∷ codes "o . n += k ;" ∷ [])
        ≡ Some (outside 0 ∷ push_k ∷ outside 2 ∷ pop ∷ []) ∷ Some (push_this ∷ push_k ∷ outside 2 ∷ pop ∷ [])
        ∷ Some (push_o ∷ push_k ∷ outside 2 ∷ pop ∷ []) ∷ [] }
    ensures elements { map lowered (codes "o [ k ] = 1 ;" ∷ codes "o [ k ] += 1 ;" ∷ [])
        ≡ Some (push_o ∷ push_k ∷ prim ∷ outside 3 ∷ pop ∷ [])
        ∷ Some (push_o ∷ push_k ∷ prim ∷ outside 3 ∷ pop ∷ []) ∷ [] }
    ensures counted { map lowered (codes "q ++ ;" ∷ codes "a . q ++ ;" ∷ codes "++ o [ k ] ;" ∷ [])
        ≡ Some (outside 0 ∷ pop ∷ []) ∷ Some (push_a ∷ outside 1 ∷ pop ∷ [])
        ∷ Some (push_o ∷ push_k ∷ outside 2 ∷ pop ∷ []) ∷ [] }
{}
