//! Texts and the trees that they stand for.
ghost use Rattle.java_tree.specs.Examples.{cast};
ghost use Rattle.std.specs.Prelude.{◌≡◌, List, [], ◌∷◌, codes, true, false};
ghost use Rattle.java_lexer.specs.declared.token.TokenKind.TheVariants as kind;
ghost use Rattle.java_tree.specs.declared.words.Spelled.{Spelled};
ghost use Rattle.java_tree.specs.Trees.{Expr, Assign, Conditional, Binary, Prefix, Literal, Paren, Local};
ghost use Rattle.java_tree.specs.Trees.{Run, If, IfElse};
ghost use Rattle.java_tree.specs.Spelling.{expr_onto, stmt_onto};
ghost use Rattle.java_tree.specs.Formed.{FormedExpr, begins_signed};
ghost use Rattle.java_tree.specs.Examples.{opens_signed, Reads, ReadsNot, tokens_of, a, b, c, d, e, one};
ghost use Rattle.java_tree.specs.Examples.{difference, ints, class_named, class_a, generic, only, local_of};
ghost use Rattle.java_tree.specs.Examples.{assigns};

/// The second `-` has the first in its left part.
pub fn minuses_group_to_the_left()
    ensures reads { Reads (codes "x = a - b - c ;") (assigns (codes "x") (difference (difference a b) c)) }
    ensures other { ReadsNot (codes "x = a - b - c ;") (assigns (codes "x") (difference a (difference b c))) }
{}

/// The second conditional is the last part of the first.
pub fn conditionals_group_to_the_right()
    ensures reads { Reads (codes "x = a ? b : c ? d : e ;") (assigns (codes "x") (Conditional a b (Conditional c d
        e))) }
    ensures other { ReadsNot (codes "x = a ? b : c ? d : e ;") (assigns (codes "x") (Conditional (Conditional a b c) d
        e)) }
{}

/// The `else` belongs to the inner `if`.
pub fn else_belongs_to_the_inner_if()
    ensures reads { Reads (codes "if ( a ) if ( b ) x = 1 ; else y = 1 ;") (If a (IfElse b (assigns (codes "x") one)
        (assigns (codes "y") one))) }
    ensures other { ReadsNot (codes "if ( a ) if ( b ) x = 1 ; else y = 1 ;")
        (IfElse a (If b (assigns (codes "x") one)) (assigns (codes "y") one)) }
{}

/// A name in parentheses before a `-` is a left operand, and no cast.
pub fn named_parentheses_before_a_sign()
    ensures reads { Reads (codes "x = ( a ) - b ;") (assigns (codes "x") (difference (Paren a) b)) }
    ensures other { ReadsNot (codes "x = ( a ) - b ;") (assigns (codes "x") (cast (class_named (codes "a"))
        (Prefix (codes "-") b))) }
{}

/// A primitive type in parentheses before a `-` is a cast, and no left operand.
pub fn plain_parentheses_before_a_sign()
    ensures reads { Reads (codes "x = ( int ) - b ;") (assigns (codes "x") (cast (ints 0) (Prefix (codes "-") b))) }
    ensures other { ReadsNot (codes "x = ( int ) - b ;") (assigns (codes "x")
        (difference (Paren (Literal kind.Keyword (codes "int"))) b)) }
{}

/// A name in parentheses before an operand is a cast to the class of this name.
pub fn parentheses_before_an_operand()
    ensures { Reads (codes "x = ( a ) ( b ) ;") (assigns (codes "x") (cast (class_named (codes "a")) (Paren b))) }
{}

/// The last `>` of the type is glued.
pub fn nested_arguments_close_glued()
    ensures { Reads (codes "List < List < A >> v ;")
        (Local (local_of (generic (codes "List") (only (generic (codes "List") (only class_a) false)) true))) }
{}

/// A shift is two `>` of which the second is glued, and two that are apart are no operator.
pub fn shift_is_two_glued_signs()
    ensures reads { Reads (codes "x = a >> b ;") (assigns (codes "x") (Binary a (codes ">>") b)) }
    ensures apart { ¬ (stmt_onto (assigns (codes "x") (Binary a (codes ">>") b)) [] ≡ tokens_of
        (codes "x = a > > b ;")) }
    ensures other { ReadsNot (codes "x = a > > b ;") (assigns (codes "x") (Binary a (codes ">") (Prefix (codes ">")
        b))) }
{}

/// A difference is no statement.
pub fn difference_is_no_statement()
    ensures { ReadsNot (codes "a - b ;") (Run (difference a b)) }
{}

/// A character that is written as an escape is one literal.
pub fn character_is_one_literal()
    ensures { Reads (codes "x = '\\u00e9' ;") (assigns (codes "x") (Literal kind.Character (codes "'\\u00e9'"))) }
{}

/// What a cast of a class must not be followed by is told by the first token.
pub fn signs_are_seen_at_the_front()
    ensures { (e : Expr) (rest : List Spelled) → FormedExpr e → opens_signed (expr_onto e rest) ≡ begins_signed e }
{}
