//! Texts of lambdas, references, bodies of classes and heads, and what they are read as (JLS 8.4, 14.3, 14.4, 15).
ghost use Rattle.std.specs.Prelude.{◌≡◌, List, [], ◌∷◌, codes, false, true, Some, None};
ghost use Rattle.java_tree.specs.declared.words.Spelled.{Spelled};
ghost use Rattle.java_tree.specs.Trees.{Expr};
ghost use Rattle.java_tree.specs.Spelling.{expr_onto};
ghost use Rattle.java_tree.specs.Formed.{FormedExpr};
ghost use Rattle.java_parser_grammar.specs.TypeReading.{closes_angle, EndsNoTypes};
ghost use Rattle.java_tree.specs.Trees.{Typed, Named, no_part, part_then, Bare, Angled, argument_then, Exact};
ghost use Rattle.java_tree.specs.Trees.{Binary, Conditional, InstanceOf, Cast, Paren, Call, CallOn, no_expr, expr_then};
ghost use Rattle.java_tree.specs.Trees.{NewBody, Lambda, BlockLambda, Reference, TypeReference, SuperReference};
ghost use Rattle.java_tree.specs.Trees.{PlainClass, ThisOf, Name, Value, Run, Block, Local, LocalClass, ForEach, Empty};
ghost use Rattle.java_tree.specs.Trees.{Word, Annotated};
ghost use Rattle.java_tree.specs.Examples.{a, b, c, d, assigns, difference, cast, class_a, class_b, class_named, ints};
ghost use Rattle.java_tree.specs.Examples.{no_type, generic, only, a_of_b, tokens_of, bare_annotation};
ghost use Rattle.java_tree.specs.StatementExamples.{one_stmt};
ghost use Rattle.java_parser_grammar.specs.ReadExamples.{AreRead, AreMethods, takes_any};

/// Type arguments that are open before a formed expression do not end in it: a `<` before it is an operator.
pub fn no_types_end_in_expressions()
    ensures { (e : Expr) → FormedExpr e → (rest : List Spelled) → EndsNoTypes rest → EndsNoTypes (expr_onto e rest) }
{}

/// Behind a `<` that begins type arguments no more of them stand in one another than the limit says.
pub fn deep_type_arguments()
    ensures within { closes_angle 2 0 (tokens_of (codes "b < c < d > > > ;")) ≡ true }
    ensures beyond { closes_angle 1 0 (tokens_of (codes "b < c < d > > > ;")) ≡ false }
    ensures wildcards { closes_angle 1 0 (tokens_of (codes "b < ? > > ;")) ≡ true }
    ensures none { closes_angle 0 0 (tokens_of (codes "b < ? > > ;")) ≡ false }
{}

/// A `(` begins a lambda where `->` stands behind its `)`; the expression of a lambda goes on as far as it can, and a
/// lambda stands behind no operator but the cast to a type that is not primitive (JLS 15.27).
pub fn lambdas()
    ensures { AreRead ((codes "x = ( a ) -> b ;", Some (assigns (codes "x") (Lambda (tokens_of (codes "( a )")) b)))
        ∷ (codes "x = ( a ) - b ;", Some (assigns (codes "x") (difference (Paren a) b)))
        ∷ (codes "x = a -> b - c ;", Some (assigns (codes "x") (Lambda (tokens_of (codes "a")) (difference b c))))
        ∷ (
          codes "x = ( A ) a -> b - c ;",
          Some (assigns (codes "x") (cast class_a (Lambda (tokens_of (codes "a")) (difference b c)))),
        )
        ∷ (
          codes "x = ( A ) ( ) -> { ; } - c ;",
          Some (assigns (codes "x")
              (difference (cast class_a (BlockLambda (tokens_of (codes "( )")) (tokens_of (codes "{ ; }")))) c)),
        )
        ∷ (
          codes "x = a ? b : c -> d ;",
          Some (assigns (codes "x") (Conditional a b (Lambda (tokens_of (codes "c")) d))),
        )
        ∷ (codes "x = ( A ) a -> b instanceof A + c ;", None)
        ∷ (codes "x = ( int ) a -> b ;", None)
        ∷ (codes "x = - a -> b ;", None)
        ∷ (codes "a -> b ;", None) ∷ []) }
{}

/// A `<` begins type arguments where these end before what is no operand (JLS 15.13).
pub fn references()
    ensures { AreRead ((
      codes "x = a < b > :: c ;",
      Some (assigns (codes "x") (TypeReference (generic (codes "a") (only (class_named (codes "b"))) false) None
          (Some (codes "c")))),
    )
        ∷ (codes "x = a < b ;", Some (assigns (codes "x") (Binary a (codes "<") b)))
        ∷ (
          codes "x = a :: < B > new ;",
          Some (assigns (codes "x") (Reference a (Some (Angled (only class_b) false)) None)),
        )
        ∷ (codes "x = int [ ] :: new ;", Some (assigns (codes "x") (TypeReference (ints 1) None None)))
        ∷ (codes "x = super :: c ;", Some (assigns (codes "x") (SuperReference None (Some (codes "c")))))
        ∷ (codes "x = int :: new ;", None)
        ∷ (codes "x = void [ ] :: new ;", None)
        ∷ (
          codes "f ( a < B , A > :: d ) ;",
          Some (Run (Call (codes "f") (expr_then
              (TypeReference (generic (codes "a") (argument_then (Exact class_b) (only class_a)) false) None
              (Some (codes "d"))) no_expr))),
        )
        ∷ (
          codes "f ( a < b , c > d ) ;",
          Some (Run (Call (codes "f") (expr_then (Binary a (codes "<") b)
              (expr_then (Binary c (codes ">") d) no_expr)))),
        )
        ∷ (
          codes "x = a < A < A < A < B > > > > :: c ;",
          Some (assigns (codes "x") (TypeReference (generic (codes "a") (only (generic (codes "A")
              (only (generic (codes "A") (only (generic (codes "A") (only class_b) false)) false)) false)) false) None
              (Some (codes "c")))),
        )
        ∷ (codes "x = a < A < A < A < A < B > > > > > :: c ;", None) ∷ []) }
{}

/// `.class` behind other types than names, and `this` of a class (JLS 15.8.2, 15.8.4).
pub fn classes_of_types()
    ensures { AreRead ((codes "x = int . class ;", Some (assigns (codes "x") (PlainClass (ints 0))))
        ∷ (codes "x = void . class ;", Some (assigns (codes "x") (PlainClass no_type)))
        ∷ (
          codes "x = A . B [ ] . class ;",
          Some (assigns (codes "x") (PlainClass (Typed (Named (part_then (Bare (codes "A"))
              (part_then (Bare (codes "B")) no_part))) 1))),
        )
        ∷ (codes "x = A . this ;", Some (assigns (codes "x") (ThisOf (codes "A" ∷ []))))
        ∷ (codes "int . class . f ( ) ;", Some (Run (CallOn (PlainClass (ints 0)) None (codes "f") no_expr))) ∷ []) }
{}

/// Casts to several types, types before the name of a call, and `instanceof` (JLS 15.12, 15.16, 15.20.2).
pub fn casts_and_tests()
    ensures { AreRead ((codes "x = ( A & B ) a ;", Some (assigns (codes "x") (Cast (class_a ∷ class_b ∷ []) a)))
        ∷ (
          codes "x = ( a & b ) + c ;",
          Some (assigns (codes "x") (Binary (Paren (Binary a (codes "&") b)) (codes "+") c)),
        )
        ∷ (codes "x = ( int & A ) a ;", Some (assigns (codes "x") (Cast (ints 0 ∷ class_a ∷ []) a)))
        ∷ (codes "a . < B > f ( ) ;", Some (Run (CallOn a (Some (Angled (only class_b) false)) (codes "f") no_expr)))
        ∷ (codes "x = a . < B > f ;", None)
        ∷ (codes "< B > f ( ) ;", None)
        ∷ (codes "x = a instanceof A < B > ;", Some (assigns (codes "x") (InstanceOf a a_of_b)))
        ∷ (
          codes "x = a instanceof A < b ;",
          Some (assigns (codes "x") (Binary (InstanceOf a class_a) (codes "<") b)),
        )
        ∷ (
          codes "x = a instanceof A < b > c ;",
          Some (assigns (codes "x") (Binary (Binary (InstanceOf a class_a) (codes "<") b) (codes ">") c)),
        ) ∷ []) }
{}

/// Classes in a method: a local class stands in a block alone, and no brace stands before its braces (JLS 14.3,
/// 15.9.5).
pub fn classes_in_methods()
    ensures { AreRead ((
      codes "new A ( ) { int x ; } ;",
      Some (Run (NewBody class_a no_expr (tokens_of (codes "{ int x ; }")))),
    )
        ∷ (
          codes "{ final class A < B > { int x ; } }",
          Some (Block (one_stmt (LocalClass (codes "A") (tokens_of (codes "final class A < B > { int x ; }"))))),
        )
        ∷ (codes "{ class A ( { } ) { } }", None)
        ∷ (codes "if ( a ) class A { }", None)
        ∷ (codes "{ @ A class A { } }", None) ∷ []) }
{}

/// Annotations before and behind `final`, and `[ ]` behind names (JLS 14.4).
pub fn heads_of_locals()
    ensures { AreRead ((
      codes "{ @ A final @ B int v [ ] = a ; }",
      Some (Block (one_stmt (Local (record {
        modifiers = Annotated (bare_annotation (codes "A")) ∷ Word (codes "final")
            ∷ Annotated (bare_annotation (codes "B")) ∷ [];
        kind = ints 0;
        variables = record { name = codes "v"; arrays = 1; initialiser = Some (Value a) } ∷ [];
      })))),
    )
        ∷ (
          codes "for ( @ A B x : a ) ;",
          Some (ForEach (Annotated (bare_annotation (codes "A")) ∷ []) class_b (codes "x") a Empty),
        )
        ∷ (codes "{ final final int x ; }", None) ∷ []) }
{}

/// Type parameters, the last parameter that takes any number of arguments, and `[ ]` (JLS 8.4).
pub fn heads_of_methods()
    ensures { AreMethods ((
      codes "< A extends B > int f ( int ... x ) [ ] { }",
      Some (takes_any (codes "A") class_b (ints 0) 1),
    )
        ∷ (codes "int f ( int ... x , int y ) { }", None)
        ∷ (codes "void f ( ) [ ] { }", None)
        ∷ (codes "< > void f ( ) { }", None) ∷ []) }
{}
