//! What counts for the nesting of a tree.
ghost use Rattle.java_tree.specs.Examples.{call_on, cast, for_each};
ghost use Rattle.std.specs.Prelude.{◌≡◌, [], ◌∷◌, codes, true, false, Some, None};
ghost use Rattle.java_lexer.specs.declared.token.TokenKind.TheVariants as kind;
ghost use Rattle.java_tree.specs.Trees.{Typed, Named, no_part, part_then, Bare, Generic, Angled, no_argument};
ghost use Rattle.java_tree.specs.Trees.{argument_then, Exact, Any, Extends, Super, Assign, Conditional, Binary};
ghost use Rattle.java_tree.specs.Trees.{InstanceOf, Prefix, Literal, This, Paren, Field, Index, Call};
ghost use Rattle.java_tree.specs.Trees.{ClassOf, New, NewArray, NewItems, no_expr, expr_then, Braces, no_init};
ghost use Rattle.java_tree.specs.Trees.{init_then, Value, Items, Declares, Runs, Block, Local, If, IfElse};
ghost use Rattle.java_tree.specs.Trees.{For, Empty, no_stmt, stmt_then, NoResult};
ghost use Rattle.java_tree.specs.Trees.{TypeResult};
ghost use Rattle.java_tree.specs.Trees.{Labelled, no_row, row_then, no_group, group_then, Case, Default};
ghost use Rattle.java_tree.specs.Rows.{While, Do, Return, Break, Continue, Throw, Sync, Switch, Try, Assert};
ghost use Rattle.java_tree.specs.Nesting.{ty_nesting, expr_nesting, array_nesting, stmt_nesting, method_nesting};
ghost use Rattle.java_tree.specs.Examples.{a, b, c, f_call, a_up, difference, ints, class_a, class_b, generic};
ghost use Rattle.java_tree.specs.Examples.{only, a_of, a_of_b, variable, locals, local_of, assigns, one_deep};
ghost use Rattle.java_tree.specs.Examples.{formal, method, void_f};
ghost use Rattle.java_tree.specs.StatementExamples.{one_stmt, only_group, switch_at, one_resource, caught, one_catch};
ghost use Rattle.java_tree.specs.StatementExamples.{catch_a, finally, try_with};
ghost use Rattle.java_tree.specs.View.{Catch};

/// A type counts one, and its arguments stand inside it; a `?` counts nothing.
pub fn nesting_of_types()
    ensures named { ty_nesting class_a ≡ 1 }
    ensures argument { ty_nesting (Typed (Named (part_then (Generic (codes "A") (Angled (only class_b) false))
        no_part)) 3) ≡ 2 }
    ensures bound { ty_nesting
        (Typed (Named (part_then (Generic (codes "A") (Angled (argument_then (Extends class_b) no_argument) false))
        no_part)) 0) ≡ 2 }
    ensures any { ty_nesting (Typed (Named (part_then (Generic (codes "A") (Angled (argument_then Any no_argument)
        false)) no_part)) 0) ≡ 1 }
    ensures plain { ty_nesting (ints 0) ≡ 1 }
    ensures lower_bound { ty_nesting (a_of (argument_then (Super class_b) no_argument)) ≡ 2 }
    ensures second_argument { ty_nesting (a_of (argument_then Any (only class_b))) ≡ 2 }
    ensures second_part { ty_nesting
        (Typed (Named (part_then (Bare (codes "A"))
        (part_then (Generic (codes "B") (Angled (argument_then (Exact a_of_b) no_argument) false)) no_part))) 0) ≡ 3 }
{}

/// Each expression and each array initialiser counts one.
pub fn nesting_of_expressions()
    ensures parentheses { expr_nesting (Paren (Paren a)) ≡ 3 }
    ensures call { expr_nesting (Call (codes "f") (expr_then a (expr_then (Paren b) no_expr))) ≡ 3 }
    ensures initialiser { array_nesting (Braces (init_then (Items (Braces no_init false)) (init_then (Value (Paren a))
        no_init)) false) ≡ 3 }
    ensures atoms { (expr_nesting This ≡ 1) × (expr_nesting (Literal kind.Number (codes "1")) ≡ 1)
        × (expr_nesting (ClassOf (codes "a" ∷ codes "B" ∷ [])) ≡ 1) × (expr_nesting f_call ≡ 1) }
    ensures assignment { (expr_nesting (Assign (Field a (codes "x")) (codes "=") b) ≡ 3)
        × (expr_nesting (Assign a (codes "=") (Paren b)) ≡ 3) }
    ensures conditional { (expr_nesting (Conditional (Paren a) b c) ≡ 3)
        × (expr_nesting (Conditional a (Paren b) c) ≡ 3) × (expr_nesting (Conditional a b (Paren c)) ≡ 3) }
    ensures binary { (expr_nesting (Binary (Paren a) (codes "+") b) ≡ 3)
        × (expr_nesting (Binary a (codes "+") (Paren b)) ≡ 3) }
    ensures relation { (expr_nesting (InstanceOf (Paren a) class_a) ≡ 3) × (expr_nesting (InstanceOf a a_of_b) ≡ 3) }
    ensures signs { (expr_nesting (Prefix (codes "-") a) ≡ 2) × (expr_nesting a_up ≡ 2) }
    ensures cast { (expr_nesting (cast a_of_b a) ≡ 3) × (expr_nesting (cast (ints 0) (Paren a)) ≡ 3) }
    ensures index { (expr_nesting (Index (Paren a) b) ≡ 3) × (expr_nesting (Index a (Paren b)) ≡ 3) }
    ensures call_on { (expr_nesting (call_on (Paren a) (codes "f") no_expr) ≡ 3)
        × (expr_nesting (call_on a (codes "f") (expr_then b (expr_then (Paren c) no_expr))) ≡ 3) }
    ensures object { (expr_nesting (New class_a no_expr) ≡ 2)
        × (expr_nesting (New class_a (expr_then (Paren a) no_expr)) ≡ 3) }
    ensures array { (expr_nesting (NewArray a_of_b (expr_then a no_expr) 5) ≡ 3)
        × (expr_nesting (NewArray (ints 0) (expr_then a (expr_then (Paren b) no_expr)) 0) ≡ 3) }
    ensures items { (expr_nesting (NewItems (ints 0) 1 (Braces no_init false)) ≡ 2)
        × (expr_nesting (NewItems a_of_b 1 (Braces no_init false)) ≡ 3)
        × (expr_nesting (NewItems (ints 0) 1 (Braces (init_then (Value a) no_init) true)) ≡ 3) }
{}

/// Each statement counts one, a block too, but not the declaration in the head of a `for`.
pub fn nesting_of_statements()
    ensures assignment { stmt_nesting (assigns (codes "x") (difference (difference a b) c)) ≡ 5 }
    ensures local { stmt_nesting (Local (local_of (generic (codes "List") (only (generic (codes "List") (only class_a)
        false)) true))) ≡ 4 }
    ensures block { stmt_nesting (Block no_stmt) ≡ 1 }
    ensures synchronised { stmt_nesting (Sync This (stmt_then Empty no_stmt)) ≡ 3 }
    ensures head { stmt_nesting (For (Declares (local_of class_a)) None no_expr Empty) ≡ 2 }
    ensures branch { stmt_nesting (If a (Block (stmt_then (Return None) no_stmt))) ≡ 3 }
    ensures initials { stmt_nesting (Local (locals false (ints 0) (variable (codes "v") None ∷ variable (codes "w")
        (Some (Items (Braces (init_then (Value a) no_init) false))) ∷ []))) ≡ 3 }
    ensures if_alone { (stmt_nesting (If (Paren a) Empty) ≡ 3) × (stmt_nesting (If a one_deep) ≡ 3) }
    ensures if_else { (stmt_nesting (IfElse (Paren a) Empty Empty) ≡ 3) × (stmt_nesting (IfElse a one_deep Empty) ≡ 3)
        × (stmt_nesting (IfElse a Empty one_deep) ≡ 3) }
    ensures do_loop { (stmt_nesting (Do Empty (Paren a)) ≡ 3) × (stmt_nesting (Do one_deep a) ≡ 3) }
    ensures while_loop { (stmt_nesting (While (Paren a) Empty) ≡ 3) × (stmt_nesting (While a one_deep) ≡ 3) }
    ensures for_initials { stmt_nesting (For (Declares (locals false (ints 0)
        (variable (codes "v") (Some (Value (Paren a))) ∷ []))) None no_expr Empty) ≡ 3 }
    ensures for_loop { (stmt_nesting (For (Runs (expr_then f_call (expr_then a_up no_expr))) None no_expr Empty) ≡ 3)
        × (stmt_nesting (For (Runs no_expr) (Some (Paren a)) no_expr Empty) ≡ 3)
        × (stmt_nesting (For (Runs no_expr) None (expr_then f_call (expr_then a_up no_expr)) Empty) ≡ 3)
        × (stmt_nesting (For (Runs no_expr) None no_expr one_deep) ≡ 3) }
    ensures for_each { (stmt_nesting (for_each false a_of_b (codes "x") a Empty) ≡ 3)
        × (stmt_nesting (for_each false class_a (codes "x") (Paren a) Empty) ≡ 3)
        × (stmt_nesting (for_each false class_a (codes "x") a one_deep) ≡ 3) }
    ensures lock { (stmt_nesting (Sync a no_stmt) ≡ 2) × (stmt_nesting (Sync (Paren (Paren a)) no_stmt) ≡ 4) }
    ensures answer { (stmt_nesting (Return (Some a)) ≡ 2) × (stmt_nesting (Return None) ≡ 1)
        × (stmt_nesting Empty ≡ 1) }
{}

/// A label and a jump count nothing but the statement that they are.
pub fn nesting_of_jumps()
    ensures labelled { stmt_nesting (Labelled (codes "x") one_deep) ≡ 3 }
    ensures checked { (stmt_nesting (Assert (Paren a) None) ≡ 3) × (stmt_nesting (Assert a (Some (Paren b))) ≡ 3) }
    ensures jumps { (stmt_nesting (Break None) ≡ 1) × (stmt_nesting (Break (Some (codes "x"))) ≡ 1)
        × (stmt_nesting (Continue (Some (codes "x"))) ≡ 1) }
    ensures thrown { stmt_nesting (Throw (Paren a)) ≡ 3 }
{}

/// Groups and their labels count nothing: what stands there stands directly in the `switch`.
pub fn nesting_of_switches()
    ensures bare { (stmt_nesting (Switch a no_group) ≡ 2) × (stmt_nesting (Switch (Paren a) no_group) ≡ 3) }
    ensures label { (stmt_nesting (switch_at Default) ≡ 2) × (stmt_nesting (switch_at (Case b)) ≡ 2)
        × (stmt_nesting (switch_at (Case (Paren b))) ≡ 3) }
    ensures second_label { stmt_nesting (Switch a (only_group (Default ∷ Case (Paren b) ∷ []) no_stmt)) ≡ 3 }
    ensures statements { stmt_nesting (Switch a (only_group (Default ∷ []) (stmt_then Empty (one_stmt one_deep)))) ≡ 3 }
    ensures second_group { stmt_nesting (Switch a (group_then (Case b ∷ []) (one_stmt Empty) (only_group (Default ∷ [])
        (one_stmt one_deep)))) ≡ 3 }
{}

/// Resources and clauses count nothing: their types, their values and the blocks stand directly in the `try`.
pub fn nesting_of_tries()
    ensures block { (stmt_nesting (Try None no_stmt no_row (finally no_stmt)) ≡ 2)
        × (stmt_nesting (Try None (one_stmt one_deep) no_row (finally no_stmt)) ≡ 4) }
    ensures last { stmt_nesting (Try None no_stmt no_row (finally (one_stmt one_deep))) ≡ 4 }
    ensures clause { (stmt_nesting (try_with catch_a) ≡ 2)
        × (stmt_nesting (try_with (one_catch (class_b ∷ a_of_b ∷ []) no_stmt)) ≡ 3)
        × (stmt_nesting (try_with (one_catch (class_a ∷ []) (one_stmt one_deep))) ≡ 4) }
    ensures second_clause { stmt_nesting (try_with (row_then (Catch (caught true (class_a ∷ [])) no_stmt)
        (one_catch (class_b ∷ []) (one_stmt one_deep)))) ≡ 4 }
    ensures resource { (stmt_nesting (Try (one_resource class_a a) no_stmt no_row None) ≡ 2)
        × (stmt_nesting (Try (one_resource a_of_b a) no_stmt no_row None) ≡ 3)
        × (stmt_nesting (Try (one_resource class_a (Paren a)) no_stmt no_row None) ≡ 3) }
{}

/// The block of a method is a statement, beside the types of its head.
pub fn nesting_of_methods()
    ensures empty { method_nesting (method [] NoResult (codes "A") [] [] no_stmt) ≡ 1 }
    ensures head { method_nesting (method [] (TypeResult a_of_b) (codes "f") [] [] no_stmt) ≡ 2 }
    ensures parameters { method_nesting (void_f [] (formal (ints 0) ∷ formal a_of_b ∷ []) [] no_stmt) ≡ 2 }
    ensures exceptions { method_nesting (void_f [] [] (class_a ∷ a_of_b ∷ []) no_stmt) ≡ 2 }
    ensures body { method_nesting (void_f [] (formal a_of_b ∷ []) [] (stmt_then Empty (stmt_then (Return (Some a))
        no_stmt))) ≡ 3 }
{}
