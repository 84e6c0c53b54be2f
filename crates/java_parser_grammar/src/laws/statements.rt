//! Texts of statements and what they are read as, of the forms that are hard to tell apart (JLS 14).
ghost use Rattle.std.specs.Prelude.{[], ◌∷◌, codes, true, false, Some, None};
ghost use Rattle.java_tree.specs.Trees.{Conditional, Case, Default, Run, If, IfElse, Labelled, Empty, no_stmt, no_row};
ghost use Rattle.java_tree.specs.Trees.{row_then};
ghost use Rattle.java_tree.specs.Rows.{Do, Break, Continue, Assert, Switch, Try};
ghost use Rattle.java_tree.specs.View.{Catch};
ghost use Rattle.java_tree.specs.Examples.{a, b, c, f_call, class_a, class_b};
ghost use Rattle.java_tree.specs.StatementExamples.{one_stmt, only_group, resource, resources, one_resource, caught};
ghost use Rattle.java_tree.specs.StatementExamples.{finally};
ghost use Rattle.java_parser_grammar.specs.ReadExamples.{AreRead};

/// A label stands before a statement that is no declaration, and an `else` behind it goes to the inner `if`
/// (JLS 14.5, 14.7).
pub fn labelled_statements()
    ensures { AreRead ((codes "x : f ( ) ;", Some (Labelled (codes "x") (Run f_call)))
        ∷ (codes "x : y : ;", Some (Labelled (codes "x") (Labelled (codes "y") Empty)))
        ∷ (codes "x : int y ;", None)
        ∷ (codes "x ? y : z ;", None)
        ∷ (codes "if ( a ) x : if ( b ) ; else ;", Some (If a (Labelled (codes "x") (IfElse b Empty Empty)))) ∷ []) }
{}

/// A `do` has its `while`, a jump has one name or none, and an `assert` has the first `:` that belongs to no
/// conditional (JLS 14.10, 14.13, 14.15, 14.16).
pub fn statements_of_keywords()
    ensures { AreRead ((codes "do if ( a ) ; while ( b ) ;", Some (Do (If a Empty) b))
        ∷ (codes "do ;", None)
        ∷ (codes "do int x ; while ( b ) ;", None)
        ∷ (codes "break ;", Some (Break None))
        ∷ (codes "continue x ;", Some (Continue (Some (codes "x"))))
        ∷ (codes "break x . y ;", None)
        ∷ (codes "assert a : b ;", Some (Assert a (Some b)))
        ∷ (codes "assert a ? b : c ;", Some (Assert (Conditional a b c) None))
        ∷ (codes "assert a : b : c ;", None) ∷ []) }
{}

/// The labels of a group end at its first statement, and the `:` behind a conditional is the label's (JLS 14.11).
pub fn groups_of_switches()
    ensures { AreRead ((
      codes "switch ( a ) { case a ? b : c : ; }",
      Some (Switch a (only_group (Case (Conditional a b c) ∷ []) (one_stmt Empty))),
    )
        ∷ (codes "switch ( a ) { case b = c : ; }", None)
        ∷ (codes "switch ( a ) { case b : default : }", Some (Switch a (only_group (Case b ∷ Default ∷ []) no_stmt)))
        ∷ (codes "switch ( a ) { ; case b : }", None)
        ∷ (codes "switch ( a ) { case : ; }", None) ∷ []) }
{}

/// A `try` has resources, a `catch` or a `finally`, in this order (JLS 14.20).
pub fn parts_of_tries()
    ensures { AreRead ((codes "try { }", None)
        ∷ (
          codes "try { } catch ( final A | B x ) { } finally { }",
          Some (Try None no_stmt (row_then
              (Catch (caught true (class_a ∷ class_b ∷ [])) no_stmt) no_row) (finally no_stmt)),
        )
        ∷ (codes "{ try { } finally { } catch ( A x ) { } }", None)
        ∷ (codes "{ try { } finally { } finally { } }", None)
        ∷ (codes "try ( A x = a ) { }", Some (Try (one_resource class_a a) no_stmt no_row None))
        ∷ (
          codes "try ( A x = a ; ) { }",
          Some (Try (resources (resource false class_a (codes "x") a ∷ []) true)
              no_stmt no_row None),
        )
        ∷ (codes "try ( ) { } finally { }", None)
        ∷ (codes "try { } catch ( int x ) { }", None)
        ∷ (
          codes "if ( a ) try { } finally { } else ;",
          Some (IfElse a (Try None no_stmt no_row (finally no_stmt))
              Empty),
        ) ∷ []) }
{}
