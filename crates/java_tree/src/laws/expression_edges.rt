//! Where expressions cease to be formed: one level too low, one part too many, a part that is not formed.
ghost use Rattle.java_tree.specs.Examples.{call_on, cast};
ghost use Rattle.std.specs.Prelude.{[], ◌∷◌, codes, true, false};
ghost use Rattle.java_lexer.specs.declared.token.TokenKind.TheVariants as kind;
ghost use Rattle.java_tree.specs.Trees.{Typed, Named, no_part, part_then, Bare, Generic, Angled, no_argument};
ghost use Rattle.java_tree.specs.Trees.{argument_then, Exact, Any, Assign, Conditional, Binary, InstanceOf, Prefix};
ghost use Rattle.java_tree.specs.Trees.{Postfix, Literal, This, Paren, Field, Index, ClassOf, New};
ghost use Rattle.java_tree.specs.Trees.{NewArray, NewItems, no_expr, expr_then, Braces, no_init, init_then, Value};
ghost use Rattle.java_tree.specs.Trees.{Items};
ghost use Rattle.java_tree.specs.Formed.{FormedExpr};
ghost use Rattle.java_tree.specs.Examples.{a, b, c, f_call, a_up, no_class, ints, no_type, class_a, a_of, a_of_b};

/// Every form but the binary ones.
pub fn edges_of_expressions()
    ensures prefix { FormedExpr (Prefix (codes "~") a_up) × FormedExpr (Prefix (codes "!") (cast (ints 0) a))
        × (¬ FormedExpr (Prefix (codes "--") (Paren a))) × (¬ FormedExpr (Prefix (codes "++") a_up)) }
    ensures cast { FormedExpr (cast class_a (cast (ints 0) (Prefix (codes "-") a)))
        × FormedExpr (cast class_a (Prefix (codes "~") a)) × FormedExpr (cast (ints 1) a_up)
        × FormedExpr (cast (ints 0) (Prefix (codes "--") a)) × (¬ FormedExpr (cast class_a (Prefix (codes "++") a)))
        × (¬ FormedExpr (cast (a_of no_argument) a)) }
    ensures left { FormedExpr (Assign (Index a b) (codes "+=") (Conditional a b c))
        × (¬ FormedExpr (Assign This (codes "=") b)) × (¬ FormedExpr (Assign a_up (codes "=") b))
        × (¬ FormedExpr (Assign (Prefix (codes "++") a) (codes "=") b))
        × (¬ FormedExpr (Assign (call_on a (codes "f") no_expr) (codes "=") b))
        × (¬ FormedExpr (Assign (ClassOf (codes "A" ∷ [])) (codes "=") b))
        × (¬ FormedExpr (Assign (Assign a (codes "=") b) (codes "=") c))
        × (¬ FormedExpr (Assign (Conditional a b c) (codes "=") c)) }
    ensures postfix { FormedExpr (Postfix (Field This (codes "x")) (codes "--"))
        × (¬ FormedExpr (Postfix a_up (codes "++"))) × (¬ FormedExpr (Postfix f_call (codes "++")))
        × (¬ FormedExpr (Postfix This (codes "++"))) }
    ensures literals { FormedExpr (Literal kind.Number (codes "1")) × FormedExpr (Literal kind.Character
        (codes "'c'")) × FormedExpr (Literal kind.Text (codes "\"c\"")) }
    ensures point { FormedExpr (Field (NewArray (ints 0) (expr_then a no_expr) 0) (codes "x"))
        × FormedExpr (Field (NewItems (ints 0) 1 (Braces no_init false)) (codes "x"))
        × FormedExpr (Field (ClassOf (codes "A" ∷ [])) (codes "x"))
        × FormedExpr (Field (call_on (Literal kind.Text (codes "\"c\"")) (codes "f") no_expr) (codes "x"))
        × (¬ FormedExpr (Field a_up (codes "x"))) × (¬ FormedExpr (Field (cast class_a a) (codes "x")))
        × (¬ FormedExpr (call_on a_up (codes "f") no_expr)) × (¬ FormedExpr (call_on (cast class_a a) (codes "f")
        no_expr)) × (¬ FormedExpr (call_on a (codes "f") (expr_then b (expr_then no_class no_expr)))) }
    ensures bracket { FormedExpr (Index (Index a b) c) × FormedExpr (Index (New class_a no_expr) a)
        × FormedExpr (Index (Paren (NewArray (ints 0) (expr_then a no_expr) 0)) b)
        × FormedExpr (Index (Field (NewArray (ints 0) (expr_then a no_expr) 0) (codes "x")) b)
        × (¬ FormedExpr (Index a_up b)) × (¬ FormedExpr (Index (cast class_a a) b))
        × (¬ FormedExpr (Index a no_class)) }
    ensures object { FormedExpr
        (New (Typed (Named (part_then (Generic (codes "A") (Angled (argument_then Any no_argument) false))
        (part_then (Generic (codes "B") (Angled no_argument false)) no_part))) 0) no_expr)
        × FormedExpr (New a_of_b no_expr) × (¬ FormedExpr (New (Typed (Named no_part) 0) no_expr))
        × (¬ FormedExpr (New (a_of (argument_then (Exact no_type) no_argument)) no_expr))
        × (¬ FormedExpr (New class_a (expr_then a (expr_then no_class no_expr)))) }
    ensures array { ¬ FormedExpr (NewArray (ints 0) (expr_then a (expr_then no_class no_expr)) 0) }
    ensures items { FormedExpr (NewItems class_a 1 (Braces (init_then (Value (Assign a (codes "=") b))
        (init_then (Value c) no_init)) false)) × (¬ FormedExpr (NewItems (ints 1) 1 (Braces no_init false)))
        × (¬ FormedExpr (NewItems (a_of no_argument) 1 (Braces no_init false)))
        × (¬ FormedExpr (NewItems (ints 0) 1 (Braces no_init true)))
        × (¬ FormedExpr (NewItems (ints 0) 1 (Braces (init_then (Items (Braces (init_then (Value no_class) no_init)
        false)) no_init) false))) }
    ensures relation { FormedExpr (InstanceOf (InstanceOf a class_a) (ints 0))
        × FormedExpr
        (InstanceOf a
        (Typed (Named (part_then (Bare (codes "a"))
        (part_then (Generic (codes "A") (Angled (argument_then Any no_argument) false)) no_part))) 0)) }
    ensures conditional { FormedExpr (Conditional a (Conditional a b c) c)
        × (¬ FormedExpr (Conditional (Conditional a b c) b c)) }
{}

/// Operands of operators, one level below what is asked and at it.
pub fn edges_of_operands()
    ensures prefix { ¬ FormedExpr (Prefix (codes "-") (Binary a (codes "*") b)) }
    ensures cast { (¬ FormedExpr (cast (ints 0) (Binary a (codes "*") b)))
        × (¬ FormedExpr (cast class_a (Binary a (codes "*") b))) }
    ensures conditional { FormedExpr (Conditional (Binary a (codes "||") b) b c) }
    ensures relation_left { FormedExpr (InstanceOf (Binary a (codes "<") b) class_a)
        × (¬ FormedExpr (InstanceOf (Binary a (codes "==") b) class_a)) }
    ensures relation_inside { FormedExpr (Binary (InstanceOf a class_a) (codes "<") b)
        × FormedExpr (Binary a (codes "==") (InstanceOf b class_a))
        × (¬ FormedExpr (Binary a (codes "<") (InstanceOf b class_a))) }
    ensures lowest { (¬ FormedExpr (Binary a (codes "||") (Assign b (codes "=") c)))
        × (¬ FormedExpr (Binary a (codes "||") (Conditional a b c))) }
{}
