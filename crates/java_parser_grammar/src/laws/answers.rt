//! What files, heads and fields are read as.
ghost use Rattle.std.specs.Prelude.{◌≡◌, [], ◌∷◌, ◌++◌, Some, codes};
ghost use Rattle.java_tree.specs.declared.expressions.Initialiser.{Initialiser};
ghost use Rattle.java_tree.specs.declared.methods.FieldVariable.{FieldVariable};
ghost use Rattle.java_tree.specs.declared.methods.FieldInitialiser.TheVariants.{Formed};
ghost use Rattle.java_tree.specs.Trees.{Value, Name};
ghost use Rattle.java_tree.specs.KeptPlaces.{init_places};
ghost use Rattle.java_tree.specs.View.{init_of};
ghost use Rattle.java_tree.specs.declared.unit.HeadResult.TheVariants.{Unknown};
ghost use Rattle.java_tree.specs.declared.unit.ParseFault.TheVariants as fault;
ghost use Rattle.java_parser_grammar.specs.FieldDivisions.{IsVariable};
ghost use Rattle.java_parser_grammar.specs.Heads.{IsConstructor, IsResult};
ghost use Rattle.java_parser_grammar.specs.Units.{IsUnit, IsFault};
ghost use Rattle.java_parser_grammar.specs.UnitExamples.{at, line, end_of, placed_all, signs};

/// A constructor has its class's name, and before it neither a type nor `void`, annotations left out (JLS 8.8).
pub fn heads_of_constructors()
    ensures other { ¬ IsConstructor (codes "A") (codes "B") [] }
    ensures void { ¬ IsConstructor (codes "A") (codes "A") (line (codes "@ B void")) }
    ensures typed { ¬ IsConstructor (codes "A") (codes "A") (line (codes "static int")) }
    ensures annotated { IsConstructor (codes "A") (codes "A") (line (codes "@ B")) }
{}

/// A head that is not formed, or says nothing, says nothing of the result.
pub fn unknown_results()
    ensures native { IsResult (codes "A") (codes "f") (line (codes "native void")) Unknown }
    ensures nothing { IsResult (codes "A") (codes "f") [] Unknown }
{}

/// A variable with what it begins with.
pub fn variable_with_a_tree()
    ensures { (v : FieldVariable) (i : Initialiser) → v.name.text ≡ codes "x" → v.name.place ≡ at 1
        → v.initialiser ≡ Formed i → init_of i ≡ Value (Name (codes "y")) → init_places i [] ≡ Some (at 5) ∷ []
        → IsVariable (line (codes "x = y")) v }
{}

/// Of faults the brackets come first, then their depth.
pub fn first_faults()
    ensures unbalanced { IsFault (line (codes "int ( [ )")) (end_of (codes "int ( [ )")) (fault.Unbalanced (at 9)) }
    ensures unbalanced_alone { ¬ IsFault (line (codes "int ( [ )"))
        (end_of (codes "int ( [ )")) (fault.NotAUnit (at 1)) }
    ensures shallow { ¬ IsFault (placed_all 1 (signs 201 (codes "("))) (at 202) (fault.TooDeep (at 201)) }
    ensures deep { IsFault (placed_all 1 (signs 201 (codes "(") ++ signs 201 (codes ")"))) (at 403)
        (fault.TooDeep (at 201)) }
    ensures deep_alone { ¬ IsFault (placed_all 1 (signs 201 (codes "(") ++ signs 201 (codes ")"))) (at 403)
        (fault.NotAUnit (at 1)) }
    ensures misfit { IsFault (line (codes "int x ;")) (end_of (codes "int x ;")) (fault.NotAUnit (at 1)) }
{}

/// A whole file: an annotation type that is skipped, and a class with a lone `;` alone.
pub fn whole_file()
    ensures { IsUnit (line (codes "@ interface B { } class A { ; }")) (record {
      classes = (record { name = codes "A"; place = at 25; annotations = []; members = [] }) ∷ [];
      skipped = at 1 ∷ [];
    }) }
{}
