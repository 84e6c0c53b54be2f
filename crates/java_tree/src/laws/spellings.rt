//! The tokens of each form, as a reader writes them.
ghost use Rattle.java_tree.specs.Examples.{call_on, for_each};
ghost use Rattle.std.specs.Prelude.{◌≡◌, [], ◌∷◌, codes, true, false, Some, None};
ghost use Rattle.java_lexer.specs.declared.token.TokenKind.TheVariants as kind;
ghost use Rattle.java_tree.specs.Trees.{Typed, Named, no_part, part_then, Bare, Generic, Angled, no_argument};
ghost use Rattle.java_tree.specs.Trees.{argument_then, Exact, Any, Extends, Super, Assign, Binary, InstanceOf};
ghost use Rattle.java_tree.specs.Trees.{Postfix, Literal, This, Field, Index, ClassOf, New, NewArray};
ghost use Rattle.java_tree.specs.Trees.{NewItems, no_expr, expr_then, Braces, no_init, init_then, Value, Items};
ghost use Rattle.java_tree.specs.Trees.{Declares, Runs, Block, Local, For, Empty};
ghost use Rattle.java_tree.specs.Trees.{no_stmt, stmt_then, Word, Annotated, NoResult, TypeResult};
ghost use Rattle.java_tree.specs.Trees.{Run, Labelled, no_row, row_then, no_group, group_then, Case, Default};
ghost use Rattle.java_tree.specs.Rows.{While, Do, Return, Break, Continue, Throw, Sync, Switch, Try, Assert};
ghost use Rattle.java_tree.specs.Spelling.{ty_onto, expr_onto, stmt_onto, spelling};
ghost use Rattle.java_tree.specs.Examples.{tokens_of, a, b, c, f_call, a_up, ints, class_a, class_b, a_of, variable};
ghost use Rattle.java_tree.specs.Examples.{locals, annotation, bare_annotation, parameter, formal, method, void_f};
ghost use Rattle.java_tree.specs.StatementExamples.{one_stmt, resource, resources, one_resource, caught, catch_a};
ghost use Rattle.java_tree.specs.StatementExamples.{finally};
ghost use Rattle.java_tree.specs.View.{Catch};

/// Types (JLS 4).
pub fn spelling_of_types()
    ensures arrays { ty_onto (ints 2) [] ≡ tokens_of (codes "int [ ] [ ]") }
    ensures arguments { ty_onto (Typed
        (Named (part_then (Generic (codes "A") (Angled (argument_then Any (argument_then (Extends class_a)
        (argument_then (Super class_b) (argument_then (Exact (ints 1)) no_argument)))) false))
        (part_then (Bare (codes "B")) no_part))) 0) [] ≡ tokens_of
        (codes "A < ? , ? extends A , ? super B , int [ ] > . B") }
{}

/// Expressions (JLS 15).
pub fn spelling_of_expressions()
    ensures relation { expr_onto (InstanceOf a (ints 1)) [] ≡ tokens_of (codes "a instanceof int [ ]") }
    ensures one_sign { expr_onto (Assign a (codes ">>>=") b) [] ≡ tokens_of (codes "a >>>= b") }
    ensures above { expr_onto (Binary a (codes ">") b) [] ≡ tokens_of (codes "a > b") }
    ensures three_signs { expr_onto (Binary a (codes ">>>") b) [] ≡ tokens_of (codes "a >>> b") }
    ensures element { expr_onto (Postfix (Index a b) (codes "--")) [] ≡ tokens_of (codes "a [ b ] --") }
    ensures field { expr_onto (Field This (codes "x")) [] ≡ tokens_of (codes "this . x") }
    ensures calls { expr_onto (call_on f_call (codes "g") (expr_then a (expr_then (Literal kind.Fixed (codes "null"))
        no_expr))) [] ≡ tokens_of (codes "f ( ) . g ( a , null )") }
    ensures class_of { expr_onto (ClassOf (codes "a" ∷ codes "B" ∷ [])) [] ≡ tokens_of (codes "a . B . class") }
    ensures object { expr_onto (New (a_of no_argument) (expr_then a (expr_then b no_expr))) [] ≡ tokens_of
        (codes "new A < > ( a , b )") }
    ensures array { expr_onto (NewArray (ints 0) (expr_then a (expr_then b no_expr)) 1) [] ≡ tokens_of
        (codes "new int [ a ] [ b ] [ ]") }
    ensures items { expr_onto (NewItems (ints 0) 2 (Braces (init_then (Items (Braces no_init false))
        (init_then (Items (Braces (init_then (Value a) no_init) false)) no_init)) true)) [] ≡ tokens_of
        (codes "new int [ ] [ ] { { } , { a } , }") }
{}

/// Statements (JLS 14).
pub fn spelling_of_statements()
    ensures block { stmt_onto (Block (stmt_then (Return (Some a)) (stmt_then (Return None) (stmt_then Empty
        no_stmt)))) [] ≡ tokens_of (codes "{ return a ; return ; ; }") }
    ensures local { stmt_onto (Local (locals true (ints 1) (variable (codes "v") None ∷ variable (codes "w")
        (Some (Value a)) ∷ variable (codes "u") (Some (Items (Braces no_init false))) ∷ []))) [] ≡ tokens_of
        (codes "final int [ ] v , w = a , u = { } ;") }
    ensures do_loop { stmt_onto (Do (Return None) a) [] ≡ tokens_of (codes "do return ; while ( a ) ;") }
    ensures thrown { stmt_onto (Throw a) [] ≡ tokens_of (codes "throw a ;") }
    ensures while_loop { stmt_onto (While a (Return None)) [] ≡ tokens_of (codes "while ( a ) return ;") }
    ensures for_declares { stmt_onto (For (Declares (locals true class_a (variable (codes "v") (Some (Value a))
        ∷ variable (codes "w") None ∷ []))) (Some b) (expr_then a_up (expr_then f_call no_expr)) (Return None))
        [] ≡ tokens_of (codes "for ( final A v = a , w ; b ; a ++ , f ( ) ) return ;") }
    ensures for_runs { stmt_onto (For (Runs (expr_then a_up (expr_then f_call no_expr))) None no_expr Empty)
        [] ≡ tokens_of (codes "for ( a ++ , f ( ) ; ; ) ;") }
    ensures for_bare { stmt_onto (For (Runs no_expr) None no_expr Empty) [] ≡ tokens_of (codes "for ( ; ; ) ;") }
    ensures for_each { stmt_onto (for_each true class_a (codes "x") a (Return None)) [] ≡ tokens_of
        (codes "for ( final A x : a ) return ;") }
    ensures for_each_bare { stmt_onto (for_each false (ints 0) (codes "x") a Empty) [] ≡ tokens_of
        (codes "for ( int x : a ) ;") }
    ensures synchronised { stmt_onto (Sync This (stmt_then Empty (stmt_then (Return None) no_stmt))) [] ≡ tokens_of
        (codes "synchronized ( this ) { ; return ; }") }
{}

/// Labels, checks and jumps (JLS 14.7, 14.10, 14.15, 14.16).
pub fn spelling_of_jumps()
    ensures labelled { stmt_onto (Labelled (codes "x") (Labelled (codes "y") (Run f_call))) [] ≡ tokens_of
        (codes "x : y : f ( ) ;") }
    ensures checked { stmt_onto (Assert a None) [] ≡ tokens_of (codes "assert a ;") }
    ensures checked_with { stmt_onto (Assert a (Some b)) [] ≡ tokens_of (codes "assert a : b ;") }
    ensures broken { stmt_onto (Break None) [] ≡ tokens_of (codes "break ;") }
    ensures broken_to { stmt_onto (Break (Some (codes "x"))) [] ≡ tokens_of (codes "break x ;") }
    ensures continued { stmt_onto (Continue None) [] ≡ tokens_of (codes "continue ;") }
    ensures continued_to { stmt_onto (Continue (Some (codes "x"))) [] ≡ tokens_of (codes "continue x ;") }
{}

/// Groups of a `switch`, the last one without statements (JLS 14.11).
pub fn spelling_of_switches()
    ensures bare { stmt_onto (Switch a no_group) [] ≡ tokens_of (codes "switch ( a ) { }") }
    ensures groups { stmt_onto (Switch a (group_then (Case b ∷ Default ∷ []) (stmt_then Empty (one_stmt (Break None)))
        (group_then (Case c ∷ []) no_stmt no_group))) [] ≡ tokens_of
        (codes "switch ( a ) { case b : default : ; break ; case c : }") }
{}

/// The parts of a `try` (JLS 14.20).
pub fn spelling_of_tries()
    ensures clauses { stmt_onto (Try None (one_stmt Empty) (row_then
        (Catch (caught true (class_a ∷ class_b ∷ [])) no_stmt) (row_then
        (Catch (caught false (class_a ∷ [])) (one_stmt (Return None))) no_row)) None) [] ≡ tokens_of
        (codes "try { ; } catch ( final A | B x ) { } catch ( A x ) { return ; }") }
    ensures last { stmt_onto (Try None no_stmt no_row (finally (one_stmt Empty))) [] ≡ tokens_of
        (codes "try { } finally { ; }") }
    ensures with_resources { stmt_onto (Try (resources (resource true class_a (codes "v") a
        ∷ resource false (ints 0) (codes "w") b ∷ []) false) no_stmt no_row None) [] ≡ tokens_of
        (codes "try ( final A v = a ; int w = b ) { }") }
    ensures last_semicolon { stmt_onto (Try (resources (resource false class_a (codes "v") a ∷ []) true) no_stmt no_row
        None) [] ≡ tokens_of (codes "try ( A v = a ; ) { }") }
    ensures all { stmt_onto (Try (one_resource class_a a) no_stmt catch_a (finally no_stmt)) [] ≡ tokens_of
        (codes "try ( A x = a ) { } catch ( A x ) { } finally { }") }
{}

/// Methods and constructors (JLS 8.4, 8.8).
pub fn spelling_of_methods()
    ensures constructor { spelling (method (Annotated (annotation (codes "a" ∷ codes "B" ∷ []) (codes "( c )"))
        ∷ Word (codes "public") ∷ []) NoResult (codes "A") [] [] no_stmt) ≡ tokens_of
        (codes "@ a . B ( c ) public A ( ) { }") }
    ensures parameters { spelling (void_f (Word (codes "static") ∷ Word (codes "final") ∷ [])
        (parameter true (bare_annotation (codes "N") ∷ annotation (codes "M" ∷ []) (codes "( )") ∷ []) (ints 1)
        ∷ formal class_a ∷ []) [] (stmt_then (Return None) no_stmt)) ≡ tokens_of
        (codes "static final void f ( final @ N @ M ( ) int [ ] x , A x ) { return ; }") }
    ensures exceptions { spelling (method [] (TypeResult (ints 1)) (codes "f") [] (class_a
        ∷ Typed (Named (part_then (Bare (codes "a")) (part_then (Bare (codes "E")) no_part))) 0 ∷ []) no_stmt)
        ≡ tokens_of (codes "int [ ] f ( ) throws A , a . E { }") }
{}
