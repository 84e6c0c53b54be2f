//! For each form of statements a tree that is formed and, but of the empty statement, one or more that are not.
ghost use Rattle.java_tree.specs.Examples.{call_on, cast, for_each};
ghost use Rattle.std.specs.Prelude.{[], ◌∷◌, codes, true, false, Some, None};
ghost use Rattle.java_lexer.specs.declared.token.TokenKind.TheVariants as kind;
ghost use Rattle.java_tree.specs.Trees.{no_argument, Assign, Conditional, InstanceOf, Prefix, Postfix};
ghost use Rattle.java_tree.specs.Trees.{Literal, This, Paren, Field, Index, Call, ClassOf, New, NewArray};
ghost use Rattle.java_tree.specs.Trees.{NewItems, no_expr, expr_then, Braces, no_init, init_then, Value, Items};
ghost use Rattle.java_tree.specs.Trees.{Declares, Runs, Block, Local, Run, If, IfElse, For};
ghost use Rattle.java_tree.specs.Trees.{Empty, no_stmt, stmt_then};
ghost use Rattle.java_tree.specs.Rows.{While, Do, Return, Throw, Sync};
ghost use Rattle.java_tree.specs.Formed.{FormedStmt};
ghost use Rattle.java_tree.specs.Examples.{a, b, c, f_call, a_up, no_class, ints, class_a, only, a_of, variable};
ghost use Rattle.java_tree.specs.Examples.{locals, local_of};

/// Statements (JLS 14).
pub fn formed_statements()
    ensures block { FormedStmt (Block (stmt_then (Local (local_of (ints 0))) (stmt_then Empty no_stmt)))
        × (¬ FormedStmt (Block (stmt_then (Run a) no_stmt))) }
    ensures local { FormedStmt (Local (local_of (a_of (only class_a))))
        × (¬ FormedStmt (Local (locals true (ints 0) ([])))) × (¬ FormedStmt (Local (local_of (a_of no_argument)))) }
    ensures expression { FormedStmt (Run (Postfix a (codes "++")))
        × (¬ FormedStmt (Run (Paren (Postfix a (codes "++"))))) × (¬ FormedStmt (Run (Prefix (codes "-") a)))
        × (¬ FormedStmt (Run (NewArray (ints 0) (expr_then a no_expr) 0))) }
    ensures if_alone { FormedStmt (If a (Run f_call)) × (¬ FormedStmt (If a (Local (local_of (ints 0))))) }
    ensures if_else { FormedStmt (IfElse a (Block (stmt_then (If b Empty) no_stmt)) (Run f_call))
        × (¬ FormedStmt (IfElse a (If b Empty) (Run f_call)))
        × (¬ FormedStmt (IfElse a (While b (If c Empty)) (Run f_call)))
        × (¬ FormedStmt (IfElse a (IfElse b Empty (If c Empty)) (Run f_call)))
        × (¬ FormedStmt (IfElse a (Local (local_of (ints 0))) (Run f_call)))
        × (¬ FormedStmt (IfElse a (Run f_call) (Local (local_of (ints 0))))) }
    ensures while_loop { FormedStmt (While a (If b Empty)) × (¬ FormedStmt (While a (Local (local_of (ints 0))))) }
    ensures do_loop { FormedStmt (Do (If b Empty) a) × (¬ FormedStmt (Do (Local (local_of (ints 0))) a))
        × (¬ FormedStmt (Do Empty (ClassOf []))) }
    ensures thrown { FormedStmt (Throw a) × (¬ FormedStmt (Throw (ClassOf []))) }
    ensures for_loop { FormedStmt (For (Declares (local_of (ints 0))) None (expr_then (Postfix a (codes "++"))
        no_expr) Empty) × (¬ FormedStmt (For (Runs (expr_then a no_expr)) None no_expr Empty))
        × (¬ FormedStmt (For (Runs no_expr) None (expr_then (Paren a) no_expr) Empty))
        × (¬ FormedStmt (For (Runs no_expr) (Some a) no_expr (Local (local_of (ints 0))))) }
    ensures for_each { FormedStmt (for_each true (a_of (only class_a)) (codes "x") a Empty)
        × (¬ FormedStmt (for_each false (a_of no_argument) (codes "x") a Empty))
        × (¬ FormedStmt (for_each false (ints 0) (codes "x") a (Local (local_of (ints 0))))) }
    ensures synchronised { FormedStmt (Sync (Conditional a b c) (stmt_then Empty no_stmt))
        × (¬ FormedStmt (Sync a (stmt_then (Run a) no_stmt))) }
    ensures return_value { FormedStmt (Return (Some (Assign a (codes "=") b)))
        × (¬ FormedStmt (Return (Some (ClassOf [])))) }
    ensures return_alone { FormedStmt (Return None) }
    ensures empty { FormedStmt Empty }
{}

/// Whether an `else` belongs to an `if` at the end of a statement (JLS 14.5).
pub fn formed_endings()
    ensures for_loop { ¬ FormedStmt (IfElse a (For (Runs no_expr) None no_expr (If b Empty)) Empty) }
    ensures for_each { ¬ FormedStmt (IfElse a (for_each false class_a (codes "x") b (If c Empty)) Empty) }
    ensures deep { ¬ FormedStmt (IfElse a (IfElse b Empty (For (Runs no_expr) None no_expr (for_each false class_a
        (codes "x") b (While c (IfElse a Empty (If b Empty)))))) Empty) }
    ensures inner_else { (¬ FormedStmt (IfElse a (IfElse b (If c Empty) Empty) Empty))
        × FormedStmt (IfElse a (IfElse b Empty Empty) Empty) }
    ensures loops { FormedStmt (IfElse a (While b (IfElse c Empty Empty)) (If b Empty))
        × FormedStmt (IfElse a (For (Runs no_expr) None no_expr Empty) Empty)
        × FormedStmt (IfElse a (for_each false class_a (codes "x") b (IfElse c Empty Empty)) Empty) }
    ensures closed { FormedStmt (IfElse a (For (Runs no_expr) None no_expr (Block (stmt_then (If b Empty) no_stmt)))
        Empty) × FormedStmt (IfElse a (Sync b (stmt_then (If c Empty) no_stmt)) Empty) }
    ensures last { FormedStmt (IfElse a Empty (If b Empty)) × FormedStmt (If a (While b (If c Empty)))
        × FormedStmt (For (Runs no_expr) None no_expr (If a Empty)) × FormedStmt (for_each false class_a (codes "x") a
        (If b Empty)) }
{}

/// Each part of a statement is formed itself.
pub fn formed_parts()
    ensures initials { FormedStmt (Local (locals true (ints 1) (variable (codes "v")
        (Some (Items (Braces (init_then (Value a) no_init) true))) ∷ variable (codes "w")
        (Some (Value (Assign a (codes "=") b))) ∷ [])))
        × (¬ FormedStmt (Local (locals false (ints 1) (variable (codes "v") None ∷ variable (codes "w")
        (Some (Items (Braces no_init true))) ∷ [])))) }
    ensures runs { FormedStmt (Run (Assign a (codes "=") b)) × FormedStmt (Run (Prefix (codes "--") a))
        × FormedStmt (Run (call_on This (codes "f") no_expr)) × FormedStmt (Run (New class_a no_expr)) }
    ensures no_runs { (¬ FormedStmt (Run This)) × (¬ FormedStmt (Run (Literal kind.Number (codes "1"))))
        × (¬ FormedStmt (Run (ClassOf (codes "A" ∷ [])))) × (¬ FormedStmt (Run (Field a (codes "x"))))
        × (¬ FormedStmt (Run (Index a b))) × (¬ FormedStmt (Run (InstanceOf a class_a)))
        × (¬ FormedStmt (Run (Conditional a f_call f_call))) × (¬ FormedStmt (Run (cast class_a f_call)))
        × (¬ FormedStmt (Run (NewItems (ints 0) 1 (Braces no_init false))))
        × (¬ FormedStmt (Run (Call (codes "f") (expr_then no_class no_expr)))) }
    ensures for_head { FormedStmt (For (Runs (expr_then (Assign a (codes "=") b) (expr_then f_call no_expr)))
        (Some (Assign a (codes "=") b)) no_expr Empty) × (¬ FormedStmt (For (Declares (locals false (ints 0) [])) None
        no_expr Empty)) × (¬ FormedStmt (For (Runs (expr_then a_up (expr_then b no_expr))) None no_expr Empty))
        × (¬ FormedStmt (For (Runs no_expr) (Some no_class) no_expr Empty))
        × (¬ FormedStmt (For (Runs no_expr) None (expr_then a_up (expr_then b no_expr)) Empty)) }
    ensures conditions { (¬ FormedStmt (If no_class Empty)) × (¬ FormedStmt (IfElse no_class Empty Empty))
        × (¬ FormedStmt (While no_class Empty)) × (¬ FormedStmt (for_each false class_a (codes "x") no_class Empty))
        × (¬ FormedStmt (Sync no_class no_stmt)) }
    ensures bodies { (¬ FormedStmt (If a (Run b))) × (¬ FormedStmt (IfElse a (Run b) Empty))
        × (¬ FormedStmt (IfElse a Empty (Run b))) × (¬ FormedStmt (While a (Run b)))
        × (¬ FormedStmt (For (Runs no_expr) None no_expr (Run b))) × (¬ FormedStmt (for_each false class_a (codes "x")
        a (Run b))) }
{}
