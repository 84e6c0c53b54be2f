//! Values of the definitions on a small program.
ghost use Rattle.std.specs.Prelude.{◌≡◌, Bool, true, false, List, [], ◌∷◌, Option, None, Some, map};
ghost use Rattle.core_semantics.specs.declared.object.Object.TheVariants.{Fresh};
ghost use Rattle.core_semantics.specs.declared.object.StartRoot.TheVariants.{Class, Param, This};
ghost use Rattle.core_semantics.specs.declared.object.Value.TheVariants.{Null, Object as Ref, Opaque, Plain};
ghost use Rattle.core_semantics_kinds.specs.Reached.{ObjectOf, TheClass, do_lead, does_lead, is_cell, is_right};
ghost use Rattle.core_semantics_kinds.specs.Reached.{reached_from};
ghost use Rattle.core_semantics_kinds.specs.Examples.{box, boxes, card, card_of, from, n_of, no_field};
ghost use Rattle.core_semantics_kinds.specs.Examples.{object_from, other};
ghost use Rattle.core_semantics_kinds.specs.Examples.{owner};
ghost use Rattle.core_semantics_kinds.specs.Examples.{shared, taking};

/// What start paths lead to. Behind an object stands a field of its class that is not static, and directly behind a
/// class a static one of it. A field of a primitive type, one of a class outside the program, and one that there is not
/// lead to nothing.
pub fn reached_rows()
    ensures fields { map (reached_from boxes taking)
        (from This [] ∷ from This (card_of ∷ []) ∷ from This (card_of ∷ owner ∷ [])
        ∷ from This (card_of ∷ owner ∷ card_of ∷ []) ∷ [])
        ≡ Some (ObjectOf box) ∷ Some (ObjectOf card) ∷ Some (ObjectOf box) ∷ Some (ObjectOf card) ∷ [] }
    ensures nothing { map (reached_from boxes taking)
        (from This (shared ∷ []) ∷ from This (n_of ∷ []) ∷ from This (owner ∷ []) ∷ from This (no_field ∷ [])
        ∷ from This (card_of ∷ other ∷ []) ∷ from This (card_of ∷ card_of ∷ []) ∷ from This (n_of ∷ owner ∷ []) ∷ [])
        ≡ None ∷ None ∷ None ∷ None ∷ None ∷ None ∷ None ∷ [] }
    ensures classes { map (reached_from boxes taking)
        (from (Class box) [] ∷ from (Class box) (shared ∷ []) ∷ from (Class box) (shared ∷ owner ∷ [])
        ∷ from (Class box) (card_of ∷ []) ∷ from (Class card) (shared ∷ []) ∷ [])
        ≡ Some (TheClass box) ∷ Some (ObjectOf card) ∷ Some (ObjectOf box) ∷ None ∷ None ∷ [] }
    ensures parameters { map (reached_from boxes taking)
        (from (Param 0 0) [] ∷ from (Param 1 0) (owner ∷ []) ∷ from (Param 0 1) [] ∷ from (Param 1 2) []
        ∷ from (Param 2 0) [] ∷ [])
        ≡ Some (ObjectOf card) ∷ Some (ObjectOf box) ∷ None ∷ None ∷ None ∷ [] }
{}

/// Which start paths are right: they have a field, and lead to an object.
pub fn right_rows()
    ensures with_fields { map (is_right boxes taking)
        (from This (card_of ∷ []) ∷ from This (card_of ∷ owner ∷ []) ∷ from (Class box) (shared ∷ [])
        ∷ from (Param 1 0) (owner ∷ []) ∷ []) ≡ true ∷ true ∷ true ∷ true ∷ [] }
    ensures roots { map (is_right boxes taking)
        (from This [] ∷ from (Class box) [] ∷ from (Param 0 0) [] ∷ []) ≡ false ∷ false ∷ false ∷ [] }
    ensures others { map (is_right boxes taking)
        (from This (shared ∷ []) ∷ from This (n_of ∷ []) ∷ from (Class box) (card_of ∷ []) ∷ [])
        ≡ false ∷ false ∷ false ∷ [] }
{}

/// Which fields are cells of an object, whatever their kinds.
pub fn cell_rows()
    ensures this { map (is_cell boxes taking (from This []))
        (card_of ∷ shared ∷ n_of ∷ owner ∷ other ∷ no_field ∷ [])
        ≡ true ∷ false ∷ true ∷ false ∷ false ∷ false ∷ [] }
    ensures card { map (is_cell boxes taking (from This (card_of ∷ [])))
        (card_of ∷ shared ∷ n_of ∷ owner ∷ other ∷ no_field ∷ [])
        ≡ false ∷ false ∷ false ∷ true ∷ true ∷ false ∷ [] }
    ensures class { map (is_cell boxes taking (from (Class box) []))
        (card_of ∷ shared ∷ n_of ∷ owner ∷ other ∷ no_field ∷ [])
        ≡ false ∷ true ∷ false ∷ false ∷ false ∷ false ∷ [] }
    ensures nothing { map (is_cell boxes taking (from This (n_of ∷ [])))
        (card_of ∷ shared ∷ n_of ∷ owner ∷ other ∷ no_field ∷ [])
        ≡ false ∷ false ∷ false ∷ false ∷ false ∷ false ∷ [] }
{}

/// Which values lead to an object where they are start objects, and which frames hold such values alone.
pub fn lead_rows()
    ensures values { map (does_lead boxes taking)
        (Plain ∷ Opaque ∷ Null ∷ Ref (Fresh 0) ∷ object_from This [] ∷ object_from This (card_of ∷ [])
        ∷ object_from This (n_of ∷ []) ∷ object_from (Param 0 1) [] ∷ [])
        ≡ true ∷ true ∷ true ∷ true ∷ true ∷ true ∷ false ∷ false ∷ [] }
    ensures frames { map (do_lead boxes taking)
        (record { vars = object_from This [] ∷ []; stack = Plain ∷ []; todo = []; locked = 0 }
        ∷ record { vars = object_from This (n_of ∷ []) ∷ []; stack = []; todo = []; locked = 0 }
        ∷ record { vars = []; stack = Null ∷ object_from This (n_of ∷ []) ∷ []; todo = []; locked = 0 } ∷ [])
        ≡ true ∷ false ∷ false ∷ [] }
{}
