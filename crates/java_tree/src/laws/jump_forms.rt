//! For jumps, `switch` and `try` trees that are just formed, and for each condition one that is just not.
ghost use Rattle.std.specs.Prelude.{◌≡◌, [], ◌∷◌, codes, true, false, Some, None};
ghost use Rattle.java_tree.specs.Trees.{no_argument, Assign, Conditional, Local, Run, If, IfElse, Labelled, Empty};
ghost use Rattle.java_tree.specs.Trees.{no_stmt, stmt_then, no_row, row_then, no_group, group_then, Case, Default};
ghost use Rattle.java_tree.specs.Rows.{While, Break, Continue, Switch, Try, Assert};
ghost use Rattle.java_tree.specs.Formed.{FormedStmt, goes_on};
ghost use Rattle.java_tree.specs.Examples.{a, b, c, f_call, no_class, ints, class_a, class_b, a_of, local_of};
ghost use Rattle.java_tree.specs.StatementExamples.{one_stmt, only_group, switch_at, resources, one_resource, caught};
ghost use Rattle.java_tree.specs.StatementExamples.{one_catch, catch_a, finally, try_with};
ghost use Rattle.java_tree.specs.View.{Catch};

/// Labels, checks and jumps (JLS 14.7, 14.10, 14.15, 14.16).
pub fn formed_jumps()
    ensures labelled { FormedStmt (Labelled (codes "x") (Labelled (codes "x") (If a Empty)))
        × (¬ FormedStmt (Labelled (codes "x") (Local (local_of (ints 0)))))
        × (¬ FormedStmt (Labelled (codes "x") (Run a))) }
    ensures inner_else { (¬ FormedStmt (IfElse a (Labelled (codes "x") (If b Empty)) Empty))
        × FormedStmt (IfElse a (Labelled (codes "x") (IfElse b Empty Empty)) Empty) }
    ensures checked { FormedStmt (Assert (Assign a (codes "=") b) (Some (Conditional a b c)))
        × (¬ FormedStmt (Assert no_class None)) × (¬ FormedStmt (Assert a (Some no_class))) }
    ensures jumps { FormedStmt (Break None) × FormedStmt (Break (Some (codes "x"))) × FormedStmt (Continue None)
        × FormedStmt (Continue (Some (codes "x"))) }
{}

/// No assignment stands behind `case`, each group has a label, and only the last one may have no statement
/// (JLS 14.11).
pub fn formed_switches()
    ensures bare { FormedStmt (Switch a no_group) × (¬ FormedStmt (Switch no_class no_group)) }
    ensures label { FormedStmt (switch_at (Case (Conditional a b c))) × FormedStmt (switch_at Default)
        × (¬ FormedStmt (switch_at (Case (Assign a (codes "=") b)))) × (¬ FormedStmt (switch_at (Case no_class))) }
    ensures second_label { ¬ FormedStmt (Switch a (only_group (Default ∷ Case no_class ∷ []) no_stmt)) }
    ensures no_label { ¬ FormedStmt (Switch a (only_group [] (one_stmt Empty))) }
    ensures no_statement { FormedStmt (Switch a (group_then (Case b ∷ []) (one_stmt Empty) (only_group (Default ∷ [])
        no_stmt))) × (¬ FormedStmt (Switch a (group_then (Case b ∷ []) no_stmt (only_group (Default ∷ [])
        (one_stmt Empty))))) }
    ensures statements { FormedStmt (Switch a (only_group (Case b ∷ []) (stmt_then (Local (local_of (ints 0)))
        (one_stmt (Run f_call))))) × (¬ FormedStmt (Switch a (only_group (Case b ∷ []) (one_stmt (Run a))))) }
{}

/// A `try` has resources, a `catch` or a `finally`, and no exception is of a primitive type (JLS 14.20).
pub fn formed_tries()
    ensures some_part { FormedStmt (Try (one_resource class_a a) no_stmt no_row None) × FormedStmt (try_with catch_a)
        × FormedStmt (Try None no_stmt no_row (finally no_stmt)) × (¬ FormedStmt (try_with no_row)) }
    ensures all { FormedStmt (Try (one_resource class_a a) no_stmt catch_a (finally no_stmt)) }
    ensures no_resource { ¬ FormedStmt (Try (resources [] false) no_stmt catch_a None) }
    ensures resource { (¬ FormedStmt (Try (one_resource (a_of no_argument) a) no_stmt no_row None))
        × (¬ FormedStmt (Try (one_resource class_a no_class) no_stmt no_row None)) }
    ensures exception { FormedStmt (try_with (one_catch (class_a ∷ class_b ∷ []) no_stmt))
        × (¬ FormedStmt (try_with (one_catch (ints 0 ∷ []) no_stmt)))
        × (¬ FormedStmt (try_with (one_catch (class_a ∷ ints 1 ∷ []) no_stmt)))
        × (¬ FormedStmt (try_with (one_catch [] no_stmt))) }
    ensures second_clause { ¬ FormedStmt (try_with (row_then (Catch (caught true (class_a ∷ [])) no_stmt)
        (one_catch (ints 0 ∷ []) no_stmt))) }
    ensures blocks { (¬ FormedStmt (Try None (one_stmt (Run a)) catch_a None))
        × (¬ FormedStmt (try_with (one_catch (class_a ∷ []) (one_stmt (Run a)))))
        × (¬ FormedStmt (Try None no_stmt no_row (finally (one_stmt (Run a))))) }
{}

/// A `catch` or a `finally` behind a `try` belongs to it where none stands behind these (JLS 14.20), and an `else` to
/// no `try`.
pub fn endings_of_tries()
    ensures clauses { (goes_on (codes "catch") (try_with catch_a) ≡ true)
        × (goes_on (codes "finally") (try_with catch_a) ≡ true) }
    ensures last { (goes_on (codes "catch") (Try None no_stmt catch_a (finally no_stmt)) ≡ false)
        × (goes_on (codes "finally") (Try None no_stmt catch_a (finally no_stmt)) ≡ false) }
    ensures deep { goes_on (codes "catch") (While a (Labelled (codes "x") (IfElse a Empty (try_with catch_a)))) ≡ true }
    ensures no_else { FormedStmt (IfElse a (try_with catch_a) Empty)
        × FormedStmt (IfElse a (Try None no_stmt no_row (finally (one_stmt (If b Empty)))) Empty) }
{}
