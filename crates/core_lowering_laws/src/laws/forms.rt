//! The code of forms whose bodies are kept as tokens, and of calls with any number of arguments (JLS 8.4.1, 15).
ghost use Rattle.std.specs.Prelude.{◌≡◌, [], ◌∷◌, Some, codes, map};
ghost use Rattle.core_code.specs.declared.code.Op.TheVariants as op;
ghost use Rattle.core_lowering_laws.specs.Examples.{lowered, lowered_static, lowered_hiding, push_this};
ghost use Rattle.core_lowering_laws.specs.Examples.{push_k, push_a, push_o, prim, null, pop, outside, set};
ghost use Rattle.core_lowering_laws.specs.Examples.{call, unread, operator, step_at_word};

/// What a lambda does is not lowered, nor a class body; its arguments are (JLS 15.27, 15.9.5, 14.3).
pub fn bodies()
    ensures lambda { map lowered (codes "o = ( ) -> a ;" ∷ codes "o = k -> { return 1 ; } ;" ∷ [])
        ≡ Some (outside 0 ∷ set 3 ∷ pop ∷ []) ∷ Some (outside 0 ∷ set 3 ∷ pop ∷ []) ∷ [] }
    ensures object { lowered (codes "a = new A ( k ) { int x ; } ;")
        ≡ Some (push_k ∷ step_at_word (op.Outside 1) ∷ set 2 ∷ pop ∷ []) }
    ensures local_class { lowered (codes "{ class Q { int x ; } k = 1 ; }") ≡ Some (prim ∷ set 1 ∷ pop ∷ []) }
{}

/// A method reference evaluates what it refers to, but a type and a name of a class or of nothing (JLS 15.13).
pub fn references()
    ensures variable { lowered (codes "o = a :: f ;") ≡ Some (push_a ∷ outside 1 ∷ set 3 ∷ pop ∷ []) }
    ensures names { map lowered (codes "o = A :: f ;" ∷ codes "o = q :: f ;" ∷ [])
        ≡ Some (outside 0 ∷ set 3 ∷ pop ∷ []) ∷ Some (outside 0 ∷ set 3 ∷ pop ∷ []) ∷ [] }
    ensures parentheses { lowered (codes "o = ( q ) :: f ;")
        ≡ Some (outside 0 ∷ outside 1 ∷ set 3 ∷ pop ∷ []) }
    ensures types { map lowered (codes "o = int [ ] :: new ;" ∷ codes "o = super :: f ;" ∷ [])
        ≡ Some (outside 0 ∷ set 3 ∷ pop ∷ []) ∷ Some (outside 0 ∷ set 3 ∷ pop ∷ []) ∷ [] }
{}

/// `this` behind the name of the method's own class is `this` (JLS 15.8.4); a cast to several types is one to the
/// first.
pub fn names_and_casts()
    ensures own { lowered (codes "a = A . this ;") ≡ Some (push_this ∷ set 2 ∷ pop ∷ []) }
    ensures other { map lowered (codes "a = B . this ;" ∷ codes "a = p . A . this ;" ∷ [])
        ≡ Some (outside 0 ∷ outside 1 ∷ set 2 ∷ pop ∷ []) ∷ Some (outside 0 ∷ outside 1 ∷ set 2 ∷ pop ∷ []) ∷ [] }
    ensures in_static { lowered_static (codes "o = A . this ;") ≡ Some (outside 0 ∷ set 2 ∷ pop ∷ []) }
    ensures class { lowered (codes "o = int . class ;") ≡ Some (outside 0 ∷ set 3 ∷ pop ∷ []) }
    ensures cast { lowered (codes "a = ( A & B ) o ;") ≡ Some (push_o ∷ outside 1 ∷ set 2 ∷ pop ∷ []) }
    ensures expression { lowered (codes "k = ( a & k ) + k ;")
        ≡ Some (push_a ∷ push_k ∷ operator 2 ∷ push_k ∷ operator 2 ∷ set 1 ∷ pop ∷ []) }
{}

/// Where the arguments are others in number than the parameters, the last parameter takes one value (JLS 15.12.4.2).
pub fn any_number_of_arguments()
    ensures more { lowered (codes "v ( o , k , k ) ;")
        ≡ Some (push_this ∷ push_o ∷ outside 1 ∷ push_k ∷ push_k ∷ outside 2 ∷ call 6 3 ∷ pop ∷ []) }
    ensures as_many { lowered (codes "v ( a , k ) ;") ≡ Some (push_this ∷ push_a ∷ push_k ∷ call 6 3 ∷ pop ∷ []) }
    ensures one_less { lowered (codes "v ( a ) ;") ≡ Some (push_this ∷ push_a ∷ outside 0 ∷ call 6 3 ∷ pop ∷ []) }
    ensures too_few { lowered (codes "v ( ) ;") ≡ Some (outside 0 ∷ pop ∷ []) }
    ensures static_method { map lowered (codes "t ( ) ;" ∷ codes "A . t ( k , a ) ;" ∷ [])
        ≡ Some (outside 0 ∷ call 7 1 ∷ pop ∷ []) ∷ Some (push_k ∷ push_a ∷ outside 2 ∷ call 7 1 ∷ pop ∷ []) ∷ [] }
    ensures unread { lowered (codes "z ( o , a , a ) ;")
        ≡ Some (push_this ∷ push_o ∷ push_a ∷ push_a ∷ unread 8 4 ∷ pop ∷ []) }
{}

/// Names that mean no class, and `[ ]` behind a name, make a type another one.
pub fn other_types()
    ensures hidden { lowered_hiding (codes "A") (codes "{ A b = o ; A . t ( ) ; }")
        ≡ Some (push_o ∷ set 4 ∷ pop ∷ outside 0 ∷ outside 1 ∷ pop ∷ null ∷ set 4 ∷ pop ∷ []) }
    ensures seen { lowered_hiding (codes "B") (codes "{ A b = o ; }")
        ≡ Some (push_o ∷ outside 1 ∷ set 4 ∷ pop ∷ null ∷ set 4 ∷ pop ∷ []) }
    ensures arrays { lowered (codes "{ A b [ ] = o , c = o ; }")
        ≡ Some (push_o ∷ set 4 ∷ pop ∷ push_o ∷ outside 1 ∷ set 5 ∷ pop ∷ null ∷ set 4 ∷ pop ∷ null ∷ set 5 ∷ pop
        ∷ []) }
{}
