//! Methods, heads and fields of a class, and texts that are none (JLS 8.3, 8.4, 8.8).
ghost use Rattle.std.specs.Prelude.{◌≡◌, [], ◌∷◌, codes, map};
ghost use Rattle.java_tree.specs.declared.methods.FieldVariable.{FieldVariable};
ghost use Rattle.java_tree.specs.declared.methods.FieldInitialiser.TheVariants.{Absent, Unread};
ghost use Rattle.java_tree.specs.Trees.{Word, Annotated, NoResult, VoidResult, TypeResult, no_stmt};
ghost use Rattle.java_tree.specs.Examples.{annotation, bare_annotation, class_a, ints, method, formal};
ghost use Rattle.java_parser_grammar.specs.Heads.{IsMethod, IsHead};
ghost use Rattle.java_parser_grammar.specs.Pieces.{items_of};
ghost use Rattle.java_parser_grammar.specs.FieldDivisions.{BeginsWith, IsVariable, FormedFieldModifier};
ghost use Rattle.java_parser_grammar.specs.FieldDivisions.{between_commas};
ghost use Rattle.java_parser_grammar.specs.UnitExamples.{line, shown};

/// A constructor has the name of its class, whatever its modifiers; a method may have it too.
pub fn methods_of_classes()
    ensures constructor { IsMethod (codes "A") (line (codes "A ( ) { }"))
        (method [] NoResult (codes "A") [] [] no_stmt) }
    ensures modified { IsMethod (codes "A") (line (codes "static A ( int x ) { }")) (method (Word (codes "static") ∷ [])
        NoResult (codes "A") (formal (ints 0) ∷ []) [] no_stmt) }
    ensures other { ¬ IsMethod (codes "B") (line (codes "A ( ) { }")) (method [] NoResult (codes "A") [] [] no_stmt) }
    ensures named { IsMethod (codes "A") (line (codes "void A ( ) { }")) (method [] VoidResult (codes "A") [] []
        no_stmt) }
    ensures elsewhere { IsMethod (codes "B") (line (codes "void A ( ) { }")) (method [] VoidResult (codes "A") [] []
        no_stmt) }
{}

/// Before the name of a method stand modifiers, annotations, and `void` or a type.
pub fn results_of_heads()
    ensures void { IsHead (line (codes "public @ A ( 1 ) static void")) (Word (codes "public")
        ∷ Annotated (annotation (codes "A" ∷ []) (codes "( 1 )")) ∷ Word (codes "static") ∷ []) VoidResult }
    ensures plain { IsHead (line (codes "int [ ]")) [] (TypeResult (ints 1)) }
    ensures class { IsHead (line (codes "@ B A")) (Annotated (bare_annotation (codes "B")) ∷ [])
        (TypeResult class_a) }
    ensures native_method { ¬ IsHead (line (codes "native void")) (Word (codes "native") ∷ []) VoidResult }
    ensures field_word { ¬ IsHead (line (codes "volatile int")) (Word (codes "volatile") ∷ []) (TypeResult (ints 0)) }
{}

/// The words of fields (JLS 8.3.1).
pub fn words_of_fields()
    ensures words { FormedFieldModifier (Word (codes "volatile")) × FormedFieldModifier (Word (codes "transient"))
        × FormedFieldModifier (Annotated (bare_annotation (codes "A"))) }
    ensures others { (¬ FormedFieldModifier (Word (codes "synchronized")))
        × (¬ FormedFieldModifier (Word (codes "abstract"))) }
{}

/// What is no variable: array marks behind the name, an `=` with nothing behind it, what has no name.
pub fn texts_of_no_variable()
    ensures marks { (v : FieldVariable) → ¬ IsVariable (line (codes "x [ ]")) v }
    ensures marks_before { (v : FieldVariable) → ¬ IsVariable (line (codes "x [ ] = y")) v }
    ensures nothing { (¬ BeginsWith (line (codes "=")) Unread) × (¬ BeginsWith (line (codes "=")) Absent) }
    ensures present { (¬ BeginsWith [] Unread) × BeginsWith [] Absent }
    ensures braces { (v : FieldVariable) → ¬ IsVariable (line (codes "x { }")) v }
    ensures keyword { (v : FieldVariable) → ¬ IsVariable (line (codes "int = 1")) v }
    ensures empty { (v : FieldVariable) → ¬ IsVariable [] v }
{}

/// The commas outside brackets; `<` and `>` are none.
pub fn texts_between_commas()
    ensures each { map shown (between_commas (items_of (line (codes "a = b < c , d > e , f = g ( 1 , 2 )"))))
        ≡ codes "a = b < c" ∷ codes "d > e" ∷ codes "f = g ( 1 , 2 )" ∷ [] }
    ensures one { map shown (between_commas (items_of (line (codes "a = { 1 , 2 }")))) ≡ codes "a = { 1 , 2 }" ∷ [] }
    ensures empty { map shown (between_commas (items_of (line (codes ", a")))) ≡ [] ∷ codes "a" ∷ [] }
{}
