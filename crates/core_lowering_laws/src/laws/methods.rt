//! The code of methods and constructors (JLS 8.4, 8.8, 12.5).
ghost use Rattle.std.specs.Prelude.{◌≡◌, [], ◌∷◌, Some, true, false, codes, map};
ghost use Rattle.racer_base.specs.declared.ids.Kind.TheVariants.{Plain, Other};
ghost use Rattle.java_tree.specs.declared.methods.FieldInitialiser.TheVariants.{Absent};
ghost use Rattle.java_tree.specs.declared.methods.ResultTree.TheVariants.{Constructor, Void};
ghost use Rattle.core_code.specs.Pair.{own_sync};
ghost use Rattle.core_code.specs.Tree.{in_sequence};
ghost use Rattle.core_lowering_rules.specs.Context.{Itself, Nothing, Value};
ghost use Rattle.core_lowering_rules.specs.Methods.{Default, Unspelled, ended, locked, field_begun, code_in};
ghost use Rattle.core_lowering_laws.specs.PlacedTexts.{method_place, ident};
ghost use Rattle.core_lowering_laws.specs.Examples.{class_a, in_object, in_m, in_w, in_constructor, in_static};
ghost use Rattle.core_lowering_laws.specs.Examples.{ended_body};
ghost use Rattle.core_lowering_laws.specs.Examples.{with_fields, empty_body, unread_field, push, push_this};
ghost use Rattle.core_lowering_laws.specs.Examples.{push_class, prim, null, dup, pop};
ghost use Rattle.core_lowering_laws.specs.Examples.{return_top, operator, outside, set, get, put, call, choice};
ghost use Rattle.core_lowering_laws.specs.Examples.{repeated};

/// Two bodies, whole: `void m(A a)` and `void w()`.
pub fn first_methods()
    ensures m { ended_body in_m (codes "{ a . next = next ; n += f ( 2 ) ; }")
        ≡ Some (push 1 ∷ push 0 ∷ get 1 ∷ put 1 ∷ pop ∷ push 0 ∷ dup ∷ get 0 ∷ push 0 ∷ prim ∷ call 5 2 ∷ operator 2
        ∷ put 0 ∷ pop ∷ prim ∷ return_top ∷ []) }
    ensures w { ended_body in_w (codes "{ while ( n > 0 ) n -- ; }")
        ≡ Some (push 0 ∷ get 0 ∷ prim ∷ operator 2 ∷ pop ∷ repeated (push 0 ∷ dup ∷ get 0 ∷ operator 1 ∷ put 0 ∷ pop
        ∷ push 0 ∷ get 0 ∷ prim ∷ operator 2 ∷ pop ∷ []) ∷ prim ∷ return_top ∷ []) }
{}

/// A method that can reach its end returns there; after a return that is always taken its variables are still set.
pub fn ends_of_methods()
    ensures reached { map (λ r. ended (in_object r) []) (Itself ∷ Nothing ∷ Value Plain ∷ Value Other ∷ [])
        ≡ (push_this ∷ return_top ∷ []) ∷ (prim ∷ return_top ∷ []) ∷ (prim ∷ return_top ∷ [])
        ∷ (outside 0 ∷ return_top ∷ []) ∷ [] }
    ensures not_reached { ended_body in_w (codes "{ int i ; return ; }")
        ≡ Some (prim ∷ return_top ∷ null ∷ set 1 ∷ pop ∷ []) }
    ensures one_side { ended_body in_w (codes "{ if ( n ) return ; }")
        ≡ Some (push 0 ∷ get 0 ∷ pop ∷ choice (prim ∷ return_top ∷ []) [] ∷ prim ∷ return_top ∷ []) }
    ensures both_sides { ended_body in_w (codes "{ if ( n ) return ; else return ; }")
        ≡ Some (push 0 ∷ get 0 ∷ pop ∷ choice (prim ∷ return_top ∷ []) (prim ∷ return_top ∷ []) ∷ []) }
    ensures loop_ends { ended_body in_w (codes "{ while ( n ) return ; }")
        ≡ Some (push 0 ∷ get 0 ∷ pop ∷ repeated (prim ∷ return_top ∷ push 0 ∷ get 0 ∷ pop ∷ [])
        ∷ prim ∷ return_top ∷ []) }
{}

/// A synchronized method holds the lock of its object or of its class, at its own place (JLS 8.4.3.6).
pub fn locks_of_methods()
    ensures of_object { locked in_w true (prim ∷ [])
        ≡ push_this ∷ own_sync method_place (in_sequence (prim ∷ [])) ∷ [] }
    ensures of_class { locked in_static true (prim ∷ [])
        ≡ push_class class_a ∷ own_sync method_place (in_sequence (prim ∷ [])) ∷ [] }
    ensures none { locked in_w false (prim ∷ []) ≡ prim ∷ [] }
{}

/// What a field begins with, where no tree spells it: nothing is known of the value, unless it is a number.
pub fn unread_fields()
    ensures plain { unread_field (codes "n") ≡ push_this ∷ prim ∷ put 0 ∷ pop ∷ [] }
    ensures object { unread_field (codes "next") ≡ push_this ∷ outside 0 ∷ outside 1 ∷ put 1 ∷ pop ∷ [] }
    ensures other { unread_field (codes "any") ≡ push_this ∷ outside 0 ∷ put 3 ∷ pop ∷ [] }
    ensures absent { field_begun in_constructor (ident (codes "n")) Absent ≡ [] }
{}

/// Of a constructor, and of no other method, the fields that are not static come first (JLS 12.5).
pub fn fields_of_objects()
    ensures default_constructor { code_in in_constructor with_fields Default
        ≡ push_this ∷ prim ∷ put 0 ∷ pop ∷ push_this ∷ return_top ∷ [] }
    ensures constructor { code_in in_constructor with_fields (empty_body (codes "synchronized" ∷ []) Constructor)
        ≡ push_this ∷ prim ∷ put 0 ∷ pop
        ∷ push_this ∷ own_sync method_place (in_sequence []) ∷ push_this ∷ return_top ∷ [] }
    ensures method { code_in in_w with_fields (empty_body [] Void) ≡ prim ∷ return_top ∷ [] }
    ensures unspelled { code_in in_w with_fields Unspelled ≡ [] }
{}
