//! The code of calls and of object creations (JLS 15.12, 15.9, 15.10).
ghost use Rattle.std.specs.Prelude.{◌≡◌, [], ◌∷◌, Some, codes, map};
ghost use Rattle.core_code.specs.declared.code.Op.TheVariants as op;
ghost use Rattle.core_lowering_laws.specs.Examples.{class_a, lowered, lowered_static, push, push_this, push_k, push_a};
ghost use Rattle.core_lowering_laws.specs.Examples.{push_o, prim, null, pop, outside, set, call, unread, step_at_word};

/// Calls by a simple name, or behind the name of a class.
pub fn calls_by_name()
    ensures of_this { lowered (codes "f ( a , k ) ;") ≡ Some (push_this ∷ push_a ∷ push_k ∷ call 1 3 ∷ pop ∷ []) }
    ensures by_count { lowered (codes "f ( k ) ;") ≡ Some (push_this ∷ push_k ∷ call 5 2 ∷ pop ∷ []) }
    ensures converted { lowered (codes "f ( o , o ) ;")
        ≡ Some (push_this ∷ push_o ∷ outside 1 ∷ push_o ∷ call 1 3 ∷ pop ∷ []) }
    ensures static_method { map lowered (codes "g ( o ) ;" ∷ codes "A . g ( o ) ;" ∷ [])
        ≡ Some (push_o ∷ outside 1 ∷ call 2 1 ∷ pop ∷ []) ∷ Some (push_o ∷ outside 1 ∷ call 2 1 ∷ pop ∷ []) ∷ [] }
    ensures in_static { map lowered_static (codes "g ( a ) ;" ∷ codes "f ( a , k ) ;" ∷ [])
        ≡ Some (push 1 ∷ call 2 1 ∷ pop ∷ []) ∷ Some (push 1 ∷ push 0 ∷ outside 2 ∷ pop ∷ []) ∷ [] }
    ensures not_static { lowered (codes "A . f ( o , k ) ;") ≡ Some (push_o ∷ push_k ∷ outside 2 ∷ pop ∷ []) }
    ensures not_found { map lowered (codes "q ( a ) ;" ∷ codes "f ( ) ;" ∷ codes "B . q ( ) ;" ∷ [])
        ≡ Some (push_a ∷ outside 1 ∷ pop ∷ []) ∷ Some (outside 0 ∷ pop ∷ []) ∷ Some (outside 0 ∷ pop ∷ []) ∷ [] }
    ensures unread { lowered (codes "u ( o ) ;") ≡ Some (push_this ∷ push_o ∷ unread 3 2 ∷ pop ∷ []) }
{}

/// Calls behind an expression, which comes before the arguments.
pub fn calls_of_objects()
    ensures of_object { lowered (codes "a . f ( null , k ) ;") ≡ Some (push_a ∷ null ∷ push_k ∷ call 1 3 ∷ pop ∷ []) }
    ensures static_method { lowered (codes "a . g ( a ) ;") ≡ Some (push_a ∷ pop ∷ push_a ∷ call 2 1 ∷ pop ∷ []) }
    ensures chain { lowered (codes "f ( a , k ) . w ( ) ;")
        ≡ Some (push_this ∷ push_a ∷ push_k ∷ call 1 3 ∷ call 4 1 ∷ pop ∷ []) }
    ensures not_found { map lowered (codes "a . q ( k ) ;" ∷ codes "o . w ( ) ;" ∷ codes "q . w ( k ) ;" ∷ [])
        ≡ Some (push_a ∷ push_k ∷ outside 2 ∷ pop ∷ []) ∷ Some (push_o ∷ outside 1 ∷ pop ∷ [])
        ∷ Some (outside 0 ∷ push_k ∷ outside 2 ∷ pop ∷ []) ∷ [] }
    ensures unread { lowered (codes "a . u ( o ) ;") ≡ Some (push_a ∷ push_o ∷ unread 3 2 ∷ pop ∷ []) }
{}

/// Objects and arrays that are made, at the place of `new`.
pub fn creations()
    ensures found { lowered (codes "new A ( k ) ;")
        ≡ Some (step_at_word (op.New class_a) ∷ push_k ∷ step_at_word (op.Call (record { 0 = 0 }) 2) ∷ pop ∷ []) }
    ensures not_found { map lowered (codes "new A ( ) ;" ∷ codes "new Q ( k ) ;" ∷ codes "new A < > ( k ) ;" ∷ [])
        ≡ Some (step_at_word (op.Outside 0) ∷ pop ∷ []) ∷ Some (push_k ∷ step_at_word (op.Outside 1) ∷ pop ∷ [])
        ∷ Some (push_k ∷ step_at_word (op.Outside 1) ∷ pop ∷ []) ∷ [] }
    ensures lengths { lowered (codes "o = new int [ k ] [ 2 ] [ ] ;")
        ≡ Some (push_k ∷ prim ∷ step_at_word (op.Outside 2) ∷ set 3 ∷ pop ∷ []) }
    ensures items { lowered (codes "o = new int [ ] [ ] { { 1 } , k } ;")
        ≡ Some (prim ∷ outside 1 ∷ push_k ∷ step_at_word (op.Outside 2) ∷ set 3 ∷ pop ∷ []) }
{}
