//! The code of statements (JLS 14).
ghost use Rattle.std.specs.Prelude.{◌≡◌, [], ◌∷◌, Some, codes, map};
ghost use Rattle.racer_base.specs.declared.ids.Kind.TheVariants.{Plain, Other};
ghost use Rattle.core_code.specs.declared.code.Op.TheVariants.{Throw};
ghost use Rattle.core_lowering_rules.specs.Context.{Itself, Nothing, Value};
ghost use Rattle.core_lowering_laws.specs.Examples.{lowered, lowered_in, in_object, push, push_this, push_k, push_a};
ghost use Rattle.core_lowering_laws.specs.Examples.{push_o};
ghost use Rattle.core_lowering_laws.specs.Examples.{prim, null, dup, pop, return_top, operator, outside, set, get};
ghost use Rattle.core_lowering_laws.specs.Examples.{put, call, choice, repeated, held, step_at_word};

/// Locals (JLS 14.4): each declarator is a variable of its own.
pub fn variables()
    ensures one { lowered (codes "int i = k ;") ≡ Some (push_k ∷ set 4 ∷ pop ∷ []) }
    ensures nothing { lowered (codes "int i ;") ≡ Some [] }
    ensures two { lowered (codes "A b = o , c , d = b ;")
        ≡ Some (push_o ∷ outside 1 ∷ set 4 ∷ pop ∷ push 4 ∷ set 6 ∷ pop ∷ []) }
    ensures itself { lowered (codes "int i = i ;") ≡ Some (push 4 ∷ set 4 ∷ pop ∷ []) }
    ensures items { lowered (codes "int [ ] i = { 1 , k } ;") ≡ Some (prim ∷ push_k ∷ outside 2 ∷ set 4 ∷ pop ∷ []) }
    ensures converted_items { lowered (codes "A i = { } ;") ≡ Some (outside 0 ∷ outside 1 ∷ set 4 ∷ pop ∷ []) }
{}

/// `if` (JLS 14.9).
pub fn branches()
    ensures one { lowered (codes "if ( k ) g ( a ) ;")
        ≡ Some (push_k ∷ pop ∷ choice (push_a ∷ call 2 1 ∷ pop ∷ []) [] ∷ []) }
    ensures two { lowered (codes "if ( k ) ; else g ( a ) ;")
        ≡ Some (push_k ∷ pop ∷ choice [] (push_a ∷ call 2 1 ∷ pop ∷ []) ∷ []) }
    ensures numbers { lowered (codes "if ( k ) { int i = k ; } else { int i = k ; }")
        ≡ Some (push_k ∷ pop ∷ choice (push_k ∷ set 4 ∷ pop ∷ null ∷ set 4 ∷ pop ∷ [])
        (push_k ∷ set 5 ∷ pop ∷ null ∷ set 5 ∷ pop ∷ []) ∷ []) }
{}

/// Loops (JLS 14.12, 14.14): the condition stands before the loop and at the end of its body.
pub fn loops()
    ensures while_loop { lowered (codes "while ( n > 0 ) n -- ;")
        ≡ Some (push_this ∷ get 0 ∷ prim ∷ operator 2 ∷ pop
        ∷ repeated (push_this ∷ dup ∷ get 0 ∷ operator 1 ∷ put 0 ∷ pop
        ∷ push_this ∷ get 0 ∷ prim ∷ operator 2 ∷ pop ∷ []) ∷ []) }
    ensures for_loop { lowered (codes "for ( int i = 0 ; i < k ; i ++ ) g ( a ) ;")
        ≡ Some (prim ∷ set 4 ∷ pop ∷ push 4 ∷ push_k ∷ operator 2 ∷ pop
        ∷ repeated (push_a ∷ call 2 1 ∷ pop ∷ push 4 ∷ operator 1 ∷ set 4 ∷ pop
        ∷ push 4 ∷ push_k ∷ operator 2 ∷ pop ∷ []) ∷ null ∷ set 4 ∷ pop ∷ []) }
    ensures forever { lowered (codes "for ( ; ; ) ;") ≡ Some (repeated [] ∷ []) }
    ensures expressions { lowered (codes "for ( k = 1 , a = a ; ; ) { int i ; }")
        ≡ Some (prim ∷ set 1 ∷ pop ∷ push_a ∷ set 2 ∷ pop ∷ repeated (null ∷ set 4 ∷ pop ∷ []) ∷ []) }
    ensures each { lowered (codes "for ( A a : a ) g ( a ) ;")
        ≡ Some (push_a ∷ pop ∷ repeated (outside 0 ∷ set 4 ∷ pop ∷ push 4 ∷ call 2 1 ∷ pop ∷ [])
        ∷ null ∷ set 4 ∷ pop ∷ []) }
{}

/// Blocks (JLS 14.2, 6.3) and locks (JLS 14.19): a variable is null at the end of its block.
pub fn blocks()
    ensures nested { lowered (codes "{ int i = k ; { A b ; } int c , d ; }")
        ≡ Some (push_k ∷ set 4 ∷ pop ∷ null ∷ set 5 ∷ pop ∷ null ∷ set 4 ∷ pop ∷ null ∷ set 6 ∷ pop
        ∷ null ∷ set 7 ∷ pop ∷ []) }
    ensures innermost { lowered (codes "{ A k ; k = o ; }")
        ≡ Some (push_o ∷ outside 1 ∷ set 4 ∷ pop ∷ null ∷ set 4 ∷ pop ∷ []) }
    ensures behind { lowered (codes "{ { A k ; } k = o ; }")
        ≡ Some (null ∷ set 4 ∷ pop ∷ push_o ∷ set 1 ∷ pop ∷ []) }
    ensures lock { lowered (codes "synchronized ( a ) { int i ; }")
        ≡ Some (push_a ∷ held (null ∷ set 4 ∷ pop ∷ []) ∷ []) }
    ensures empty { lowered (codes ";") ≡ Some [] }
{}

/// `return` (JLS 14.17).
pub fn returns()
    ensures fits { lowered (codes "return a ;") ≡ Some (push_a ∷ return_top ∷ []) }
    ensures converted { lowered (codes "return o ;") ≡ Some (push_o ∷ outside 1 ∷ return_top ∷ []) }
    ensures nothing { map (λ r. lowered_in (in_object r) (codes "return ;"))
        (Itself ∷ Nothing ∷ Value Plain ∷ Value Other ∷ [])
        ≡ Some (push_this ∷ return_top ∷ []) ∷ Some (prim ∷ return_top ∷ []) ∷ Some (prim ∷ return_top ∷ [])
        ∷ Some (outside 0 ∷ return_top ∷ []) ∷ [] }
    ensures value { map (λ r. lowered_in (in_object r) (codes "return o ;"))
        (Itself ∷ Nothing ∷ Value Plain ∷ Value Other ∷ [])
        ≡ Some (push_o ∷ pop ∷ push_this ∷ return_top ∷ []) ∷ Some (push_o ∷ pop ∷ prim ∷ return_top ∷ [])
        ∷ Some (push_o ∷ return_top ∷ []) ∷ Some (push_o ∷ return_top ∷ []) ∷ [] }
{}

/// `throw` (JLS 14.18) and `assert` (JLS 14.10).
pub fn throws()
    ensures thrown { lowered (codes "throw a ;") ≡ Some (push_a ∷ pop ∷ step_at_word Throw ∷ []) }
    ensures asserted { lowered (codes "assert k : a ;") ≡ Some (choice (push_k ∷ pop ∷ []) [] ∷ []) }
{}

/// `do` (JLS 14.13), and a loop that only `break` leaves (JLS 14.15): the part before it stands behind the loop again.
pub fn jumps()
    ensures at_least_once { lowered (codes "do n -- ; while ( k ) ;")
        ≡ Some (push_this ∷ dup ∷ get 0 ∷ operator 1 ∷ put 0 ∷ pop ∷ push_k ∷ pop
        ∷ repeated (push_this ∷ dup ∷ get 0 ∷ operator 1 ∷ put 0 ∷ pop ∷ push_k ∷ pop ∷ []) ∷ []) }
    ensures left { lowered (codes "while ( true ) { if ( k ) break ; g ( a ) ; }")
        ≡ Some (prim ∷ pop ∷ repeated (push_k ∷ pop ∷ push_a ∷ call 2 1 ∷ pop ∷ prim ∷ pop ∷ [])
        ∷ push_k ∷ pop ∷ []) }
{}
