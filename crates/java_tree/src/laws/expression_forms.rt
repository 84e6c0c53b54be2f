//! For each form of types and expressions a tree that is formed and, but of `this` and a name, one or more that are
//! not formed.
ghost use Rattle.java_tree.specs.Examples.{call_on, cast};
ghost use Rattle.std.specs.Prelude.{[], ◌∷◌, codes, true, false};
ghost use Rattle.java_lexer.specs.declared.token.TokenKind.TheVariants as kind;
ghost use Rattle.java_tree.specs.Trees.{Typed, Plain, Named, no_part, part_then, Bare, Generic, Angled};
ghost use Rattle.java_tree.specs.Trees.{no_argument, argument_then, Exact, Any, Extends, Super, Assign};
ghost use Rattle.java_tree.specs.Trees.{Conditional, Binary, InstanceOf, Prefix, Postfix, Literal, This};
ghost use Rattle.java_tree.specs.Trees.{Name, Paren, Field, Index, Call, ClassOf, New, NewArray, NewItems};
ghost use Rattle.java_tree.specs.Trees.{no_expr, expr_then, Braces, no_init, init_then, Value, Items};
ghost use Rattle.java_tree.specs.Formed.{FormedTy, FormedExpr, FormedArray};
ghost use Rattle.java_tree.specs.Examples.{a, b, c, f_call, ints, no_type, class_a, only, a_of};

/// Types (JLS 4).
pub fn formed_types()
    ensures plain { FormedTy (ints 2) × (¬ FormedTy no_type) }
    ensures named { FormedTy (Typed (Named (part_then (Bare (codes "a")) (part_then (Bare (codes "b")) no_part))) 1)
        × (¬ FormedTy (Typed (Named no_part) 0)) }
    ensures arguments { FormedTy (Typed
        (Named (part_then (Generic (codes "A") (Angled (argument_then (Exact (ints 0)) (argument_then Any
        (argument_then (Extends class_a) (argument_then (Super class_a) no_argument)))) true)) no_part)) 0)
        × (¬ FormedTy (a_of no_argument))
        × (¬ FormedTy
        (Typed (Named (part_then (Generic (codes "A") (Angled (argument_then (Exact (a_of no_argument)) no_argument)
        false)) no_part)) 0)) }
    ensures plain_words { FormedTy (Typed (Plain (codes "boolean")) 0) × FormedTy (Typed (Plain (codes "byte")) 0)
        × FormedTy (Typed (Plain (codes "short")) 0) × FormedTy (Typed (Plain (codes "long")) 0)
        × FormedTy (Typed (Plain (codes "char")) 0) × FormedTy (Typed (Plain (codes "float")) 0)
        × FormedTy (Typed (Plain (codes "double")) 0) × (¬ FormedTy (Typed (Plain (codes "this")) 0)) }
    ensures bounds { (¬ FormedTy (a_of (argument_then (Extends no_type) no_argument)))
        × (¬ FormedTy (a_of (argument_then Any (argument_then (Super no_type) no_argument)))) }
    ensures inner { FormedTy (Typed (Named (part_then
        (Generic (codes "A") (Angled (argument_then Any no_argument) false))
        (part_then (Bare (codes "B")) no_part))) 0)
        × (¬ FormedTy (Typed (Named (part_then (Generic (codes "A") (Angled no_argument false))
        (part_then (Bare (codes "B")) no_part))) 0))
        × (¬ FormedTy
        (Typed (Named (part_then (Bare (codes "A")) (part_then (Generic (codes "B") (Angled no_argument false))
        no_part))) 0)) }
{}

/// Operators and casts (JLS 15.14 to 15.26).
pub fn formed_operations()
    ensures assignment { FormedExpr (Assign (Field This (codes "x")) (codes ">>>=") (Assign a (codes "=") b))
        × (¬ FormedExpr (Assign f_call (codes "=") b)) × (¬ FormedExpr (Assign (Paren a) (codes "=") b))
        × (¬ FormedExpr (Assign a (codes "==") b)) }
    ensures conditional { FormedExpr (Conditional a (Assign b (codes "=") c) (Conditional a b c))
        × (¬ FormedExpr (Conditional a b (Assign b (codes "=") c)))
        × (¬ FormedExpr (Conditional (Assign a (codes "=") b) b c)) }
    ensures relation { FormedExpr (InstanceOf a (Typed (Named (part_then (Bare (codes "A")) no_part)) 1))
        × FormedExpr (InstanceOf a (a_of (only class_a)))
        × (¬ FormedExpr (InstanceOf (Conditional a b c) class_a)) }
    ensures prefix { FormedExpr (Prefix (codes "-") (Prefix (codes "++") a))
        × (¬ FormedExpr (Prefix (codes "++") (Prefix (codes "++") a)))
        × (¬ FormedExpr (Prefix (codes "!") (Assign a (codes "=") b))) × (¬ FormedExpr (Prefix (codes "*") a)) }
    ensures cast_to_plain { FormedExpr (cast (ints 0) (Prefix (codes "-") a))
        × (¬ FormedExpr (cast (ints 0) (Conditional a b c))) × (¬ FormedExpr (cast (ints 1) (Prefix (codes "-") a))) }
    ensures cast_to_named { FormedExpr (cast class_a (Prefix (codes "!") a))
        × (¬ FormedExpr (cast class_a (Prefix (codes "+") a))) × (¬ FormedExpr (cast class_a (Prefix (codes "--") a))) }
    ensures postfix { FormedExpr (Postfix (Index a b) (codes "++")) × (¬ FormedExpr (Postfix (Paren a) (codes "++")))
        × (¬ FormedExpr (Postfix a (codes "+"))) }
{}

/// Binary operators (JLS 15.17 to 15.24).
pub fn formed_binaries()
    ensures same_level { FormedExpr (Binary (Binary a (codes "-") b) (codes "+") c)
        × (¬ FormedExpr (Binary a (codes "+") (Binary b (codes "-") c))) }
    ensures next_level { FormedExpr (Binary a (codes "+") (Binary b (codes "*") c))
        × (¬ FormedExpr (Binary (Binary a (codes "+") b) (codes "*") c)) }
    ensures first_level { FormedExpr (Binary (Binary a (codes "&&") b) (codes "||") c)
        × (¬ FormedExpr (Binary (Conditional a b c) (codes "||") c)) }
    ensures operator { FormedExpr (Binary a (codes ">>>") b) × (¬ FormedExpr (Binary a (codes ";") b))
        × (¬ FormedExpr (Binary a (codes "=") b)) }
{}

/// What binds closest (JLS 15.8 to 15.12).
pub fn formed_primaries()
    ensures literal { FormedExpr (Literal kind.Fixed (codes "null")) × (¬ FormedExpr (Literal kind.Name (codes "a")))
        × (¬ FormedExpr (Literal kind.Keyword (codes "this"))) × (¬ FormedExpr (Literal kind.Sign (codes ";"))) }
    ensures words { FormedExpr This }
    ensures name { FormedExpr a }
    ensures parentheses { FormedExpr (Paren (Assign a (codes "=") b))
        × (¬ FormedExpr (Paren (Literal kind.Name (codes "a")))) }
    ensures field { FormedExpr (Field (Paren (Binary a (codes "+") b)) (codes "x"))
        × (¬ FormedExpr (Field (Binary a (codes "+") b) (codes "x"))) }
    ensures index { FormedExpr (Index f_call (Assign a (codes "=") b))
        × (¬ FormedExpr (Index (NewArray (ints 0) (expr_then a no_expr) 0) b))
        × (¬ FormedExpr (Index (NewItems (ints 0) 1 (Braces no_init false)) b))
        × (¬ FormedExpr (Index (Prefix (codes "-") a) b)) }
    ensures call { FormedExpr (Call (codes "f") (expr_then a (expr_then (Assign a (codes "=") b) no_expr)))
        × (¬ FormedExpr (Call (codes "f") (expr_then (Paren (ClassOf [])) no_expr))) }
    ensures call_on { FormedExpr (call_on (NewArray (ints 0) (expr_then a no_expr) 0) (codes "f") no_expr)
        × (¬ FormedExpr (call_on (Prefix (codes "-") a) (codes "f") no_expr)) }
    ensures class_of { FormedExpr (ClassOf (codes "a" ∷ codes "b" ∷ [])) × (¬ FormedExpr (ClassOf [])) }
{}

/// Object and array creation (JLS 15.9, 15.10) and array initialisers (JLS 10.6).
pub fn formed_creations()
    ensures object { FormedExpr (New (a_of no_argument) (expr_then a no_expr)) × (¬ FormedExpr (New (ints 0) no_expr))
        × (¬ FormedExpr (New (Typed (Named (part_then (Generic (codes "A") (Angled no_argument false))
        (part_then (Bare (codes "B")) no_part))) 0) no_expr))
        × (¬ FormedExpr (New (Typed (Named (part_then (Bare (codes "A")) no_part)) 1) no_expr)) }
    ensures array { FormedExpr (NewArray (a_of (only class_a)) (expr_then a (expr_then b no_expr)) 1)
        × (¬ FormedExpr (NewArray (ints 0) no_expr 1)) × (¬ FormedExpr (NewArray (ints 1) (expr_then a no_expr) 0))
        × (¬ FormedExpr (NewArray (a_of no_argument) (expr_then a no_expr) 0)) }
    ensures items { FormedExpr (NewItems (ints 0) 2 (Braces (init_then (Items (Braces no_init false)) no_init) true))
        × (¬ FormedExpr (NewItems (ints 0) 0 (Braces no_init false))) }
    ensures initialiser { FormedArray (Braces (init_then (Value a) no_init) true)
        × (¬ FormedArray (Braces no_init true)) }
{}
