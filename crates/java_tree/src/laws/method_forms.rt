//! For each part of a method one that is formed, and one or more that are not.
ghost use Rattle.std.specs.Prelude.{[], ◌∷◌, codes, true, None};
ghost use Rattle.java_tree.specs.Rows.{Return};
ghost use Rattle.java_tree.specs.Trees.{Typed, Named, no_part, part_then, Bare, no_argument, Run, Empty};
ghost use Rattle.java_tree.specs.Trees.{no_stmt, stmt_then, Word, Annotated, NoResult, TypeResult};
ghost use Rattle.java_tree.specs.FormedMethods.{FormedModifier, FormedParameter, FormedMethod};
ghost use Rattle.java_tree.specs.Formed.{FormedThrown};
ghost use Rattle.java_tree.specs.Examples.{a, ints, no_type, class_a, only, a_of, a_of_b, annotation};
ghost use Rattle.java_tree.specs.Examples.{bare_annotation, nameless_annotation, parameter, formal, method, void_f};

/// What stands around the block of a method (JLS 8.4, 9.7).
pub fn formed_heads()
    ensures modifier { FormedModifier (Word (codes "strictfp")) × (¬ FormedModifier (Word (codes "abstract")))
        × (¬ FormedModifier (Word (codes "volatile"))) }
    ensures annotation { FormedModifier (Annotated (annotation (codes "a" ∷ codes "B" ∷ []) (codes "( { } )")))
        × (¬ FormedModifier (Annotated nameless_annotation))
        × (¬ FormedModifier (Annotated (annotation (codes "A" ∷ []) (codes "b"))))
        × (¬ FormedModifier (Annotated (annotation (codes "A" ∷ []) (codes "( ) ( )"))))
        × (¬ FormedModifier (Annotated (annotation (codes "A" ∷ []) (codes "( { )")))) }
    ensures parameter { FormedParameter (parameter true (bare_annotation (codes "A") ∷ []) (a_of (only class_a)))
        × (¬ FormedParameter (formal (a_of no_argument))) }
    ensures exception { FormedThrown (Typed (Named (part_then (Bare (codes "E")) no_part)) 1)
        × (¬ FormedThrown (ints 0)) }
{}

/// Methods and constructors (JLS 8.4, 8.8).
pub fn formed_methods()
    ensures words { FormedModifier (Word (codes "public")) × FormedModifier (Word (codes "protected"))
        × FormedModifier (Word (codes "private")) × FormedModifier (Word (codes "static"))
        × FormedModifier (Word (codes "final")) × FormedModifier (Word (codes "synchronized"))
        × (¬ FormedModifier (Word (codes "native"))) × (¬ FormedModifier (Word (codes "transient")))
        × (¬ FormedModifier (Word (codes "default"))) }
    ensures brackets { FormedModifier (Annotated (annotation (codes "A" ∷ []) (codes "( [ ( ) ] b )")))
        × (¬ FormedModifier (Annotated (annotation (codes "A" ∷ []) (codes "("))))
        × (¬ FormedModifier (Annotated (annotation (codes "A" ∷ []) (codes "( ) b"))))
        × (¬ FormedModifier (Annotated (annotation (codes "A" ∷ []) (codes "( [ ) ] )")))) }
    ensures formals { FormedParameter (formal (ints 2)) × (¬ FormedParameter (formal no_type))
        × (¬ FormedParameter (parameter true (bare_annotation (codes "A") ∷ nameless_annotation ∷ []) (ints 0))) }
    ensures exceptions { FormedThrown a_of_b × (¬ FormedThrown (ints 1)) × (¬ FormedThrown (Typed (Named no_part) 0))
        × (¬ FormedThrown (a_of no_argument)) }
    ensures constructor { FormedMethod (method (Annotated (bare_annotation (codes "N")) ∷ Word (codes "public") ∷ [])
        NoResult (codes "A") (parameter true [] (ints 0) ∷ []) (class_a ∷ []) (stmt_then (Return None) no_stmt)) }
    ensures bare { FormedMethod (void_f [] [] [] no_stmt) }
    ensures outcome { FormedMethod (method [] (TypeResult (ints 1)) (codes "f") [] [] no_stmt)
        × (¬ FormedMethod (method [] (TypeResult no_type) (codes "f") [] [] no_stmt)) }
    ensures modifier { ¬ FormedMethod (void_f (Word (codes "public") ∷ Word (codes "abstract") ∷ []) [] [] no_stmt) }
    ensures parameter { ¬ FormedMethod (void_f [] (formal class_a ∷ formal no_type ∷ []) [] no_stmt) }
    ensures exception { ¬ FormedMethod (void_f [] [] (class_a ∷ ints 0 ∷ []) no_stmt) }
    ensures body { ¬ FormedMethod (void_f [] [] [] (stmt_then Empty (stmt_then (Run a) no_stmt))) }
{}
