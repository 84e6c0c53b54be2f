//! What types, simple names and calls mean.
ghost use Rattle.std.specs.Prelude.{◌≡◌, [], ◌∷◌, true, false, codes, None, Some};
ghost use Rattle.racer_base.specs.declared.ids.Kind.TheVariants as kind;
ghost use Rattle.java_tree.specs.Trees.{Typed, Plain, Named, no_part, part_then, Bare, Generic, Angled, no_argument};
ghost use Rattle.java_resolver.specs.declared.scope.Meaning.TheVariants.{Variable, Field, Class, Opaque};
ghost use Rattle.java_resolver.specs.TypeKinds.{kind_of, variable_kind};
ghost use Rattle.java_resolver.specs.Meanings.{meaning, found};
ghost use Rattle.java_resolver.specs.NameExamples.{class, named_type, info, field, method, method_with_any, variable};
ghost use Rattle.java_resolver.specs.NameExamples.{scope};

/// A type is primitive, a class of the folder by one name alone, or another.
pub fn kinds_of_types()
    ensures plain { kind_of [] (codes "A" ∷ []) (Typed (Plain (codes "int")) 0) ≡ kind.Plain }
    ensures plains { kind_of [] (codes "A" ∷ []) (Typed (Plain (codes "int")) 1) ≡ kind.Other }
    ensures first { kind_of [] (codes "A" ∷ codes "B" ∷ []) (named_type (Bare (codes "A"))) ≡ kind.Declared (class 0) }
    ensures second { kind_of [] (codes "A" ∷ codes "B" ∷ []) (named_type (Bare (codes "B"))) ≡ kind.Declared (class 1) }
    ensures elsewhere { kind_of [] (codes "A" ∷ []) (named_type (Bare (codes "C"))) ≡ kind.Other }
    ensures array { kind_of [] (codes "A" ∷ []) (Typed (Named (part_then (Bare (codes "A")) no_part)) 1) ≡ kind.Other }
    ensures generic { kind_of [] (codes "A" ∷ []) (named_type (Generic (codes "A") (Angled no_argument false)))
        ≡ kind.Other }
    ensures qualified { kind_of [] (codes "A" ∷ []) (Typed (Named (part_then (Bare (codes "p"))
        (part_then (Bare (codes "A")) no_part))) 0) ≡ kind.Other }
{}

/// A simple name means a variable before a field, and a field before a class.
pub fn meanings_of_names()
    ensures innermost { meaning [] [] (scope 0 false (variable (codes "x") 1 ∷ variable (codes "x") 2 ∷ [])) (codes "x")
        ≡ Variable (record { 0 = 2 }) kind.Plain }
    ensures hides_a_field { meaning [] (field 0 (codes "x") 1 false ∷ [])
        (scope 0 false (variable (codes "x") 1 ∷ [])) (codes "x") ≡ Variable (record { 0 = 1 }) kind.Plain }
    ensures field { meaning (info (codes "x") 1 ∷ []) (field 0 (codes "y") 1 false ∷ field 0 (codes "x") 2 false ∷ [])
        (scope 0 false []) (codes "x") ≡ Field (record { 0 = 1 }) }
    ensures of_another_class { meaning [] (field 1 (codes "x") 1 false ∷ []) (scope 0 false []) (codes "x") ≡ Opaque }
    ensures instance_field { meaning [] (field 0 (codes "x") 1 false ∷ []) (scope 0 true []) (codes "x") ≡ Opaque }
    ensures static_field { meaning [] (field 0 (codes "x") 1 true ∷ []) (scope 0 true []) (codes "x")
        ≡ Field (record { 0 = 0 }) }
    ensures hidden_class { meaning (info (codes "x") 1 ∷ []) (field 0 (codes "x") 1 false ∷ []) (scope 0 true [])
        (codes "x") ≡ Class (class 0) }
    ensures class { meaning (info (codes "A") 1 ∷ info (codes "B") 2 ∷ []) [] (scope 0 false []) (codes "B")
        ≡ Class (class 1) }
    ensures nothing { meaning (info (codes "A") 1 ∷ []) [] (scope 0 false []) (codes "a") ≡ Opaque }
{}

/// A method is found by its class, its name and the number of its parameters; of two the first.
pub fn methods_found()
    ensures one { found (method 0 (codes "f") 1 0 ∷ method 0 (codes "f") 2 1 ∷ []) (class 0) (codes "f") 1
        ≡ Some (record { 0 = 1 }) }
    ensures first { found (method 0 (codes "f") 1 1 ∷ method 0 (codes "f") 2 1 ∷ []) (class 0) (codes "f") 1
        ≡ Some (record { 0 = 0 }) }
    ensures other_class { found (method 1 (codes "f") 1 1 ∷ []) (class 0) (codes "f") 1 ≡ None }
    ensures other_number { found (method 0 (codes "f") 1 1 ∷ []) (class 0) (codes "f") 2 ≡ None }
    ensures other_name { found (method 0 (codes "f") 1 1 ∷ []) (class 0) (codes "g") 1 ≡ None }
{}

/// Where no method has this number of parameters, the only one whose last parameter takes any number is found, where
/// the arguments are enough for the others (JLS 15.12.2).
pub fn methods_found_with_any()
    ensures more { found (method_with_any 0 (codes "f") 1 2 ∷ []) (class 0) (codes "f") 5 ≡ Some (record { 0 = 0 }) }
    ensures one_less { found (method_with_any 0 (codes "f") 1 2 ∷ []) (class 0) (codes "f") 1
        ≡ Some (record { 0 = 0 }) }
    ensures too_few { found (method_with_any 0 (codes "f") 1 2 ∷ []) (class 0) (codes "f") 0 ≡ None }
    ensures exactly { found (method_with_any 0 (codes "f") 1 1 ∷ method 0 (codes "f") 2 2 ∷ []) (class 0) (codes "f") 2
        ≡ Some (record { 0 = 1 }) }
    ensures two { found (method_with_any 0 (codes "f") 1 1 ∷ method_with_any 0 (codes "f") 2 2 ∷ []) (class 0)
        (codes "f") 3 ≡ None }
    ensures other_class { found (method_with_any 0 (codes "f") 1 1 ∷ method_with_any 1 (codes "f") 2 1 ∷ []) (class 1)
        (codes "f") 3 ≡ Some (record { 0 = 1 }) }
{}

/// A name that is hidden means no class, as a type and as a name; `[ ]` behind a name make its type another one.
pub fn names_hidden()
    ensures hidden_type { kind_of (codes "A" ∷ []) (codes "A" ∷ codes "B" ∷ []) (named_type (Bare (codes "A")))
        ≡ kind.Other }
    ensures other_type { kind_of (codes "A" ∷ []) (codes "A" ∷ codes "B" ∷ []) (named_type (Bare (codes "B")))
        ≡ kind.Declared (class 1) }
    ensures name { meaning (info (codes "A") 1 ∷ []) [] (record (scope 0 false []) { hidden = codes "A" ∷ [] })
        (codes "A") ≡ Opaque }
    ensures arrays { variable_kind [] (codes "A" ∷ []) (named_type (Bare (codes "A"))) 1
        ≡ record { kind = kind.Other; is_lock = false } }
    ensures lock { variable_kind [] [] (named_type (Bare (codes "Lock"))) 0
        ≡ record { kind = kind.Other; is_lock = true } }
    ensures locks { variable_kind [] [] (named_type (Bare (codes "Lock"))) 1
        ≡ record { kind = kind.Other; is_lock = false } }
    ensures class_of_the_folder { variable_kind [] (codes "Lock" ∷ []) (named_type (Bare (codes "Lock"))) 0
        ≡ record { kind = kind.Declared (class 0); is_lock = false } }
{}
