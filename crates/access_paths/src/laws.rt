//! Laws of paths.
ghost use Rattle.std.specs.Prelude.{◌≡◌, ℕ, Bool, true, false, [], ◌∷◌, ◌++◌, ◌&&◌, ◌+◌, ◌<◌, ◌↔◌, length, Some};
ghost use Rattle.std.specs.Prelude.{None, IsTrue, List, Option, codes, nat_eq};
ghost use Rattle.std.specs.Option.{option_and_then};
ghost use Rattle.std.specs.Ordering.{eq_by_cmp};
ghost use Rattle.std.specs.Cmp.{IsTotalOrder};
ghost use Rattle.std.specs.FinSet.{IsAntisymmetric};
ghost use Rattle.racer_base.specs.declared.ids.FieldId.{FieldId};
ghost use Rattle.access_paths.specs.declared.path.Path.{Path};
ghost use Rattle.access_paths.specs.declared.path.Root.TheVariants.{This, Class, Formal, Some as SomeOf};
ghost use Rattle.access_paths.specs.Paths.{same_path, extended_along, extended, alone};
ghost use Rattle.access_paths.specs.Order.{path_cmp};
ghost use Rattle.access_paths.specs.Table.{IsTable, interned, path_at};
ghost use Rattle.access_paths.specs.Text.{path_text};

/// Paths are the same exactly where they are equal, and the order ties no others.
pub fn same_is_equal()
    ensures equal { (p q : Path) → IsTrue (same_path p q) ↔ (p ≡ q) }
    ensures tied { (p q : Path) → eq_by_cmp path_cmp p q ≡ same_path p q }
    ensures total { IsTotalOrder path_cmp }
    ensures ties { IsAntisymmetric path_cmp }
{}

/// To extend a path along two lists of fields is to extend it along the first and then the second.
pub fn extension_composes()
    ensures { (p : Path) (fs gs : List FieldId) →
        extended_along p (fs ++ gs) ≡ option_and_then (λ q. extended_along q gs) (extended_along p fs) }
{}

/// In a table two numbers are equal exactly where their paths are the same, and where a path is put in each number
/// keeps its path.
pub fn numbers_stand_for_paths()
    ensures same { (table : List Path) (i j : ℕ) → IsTable table → i < length table → j < length table →
        same_path (path_at table i) (path_at table j) ≡ nat_eq i j }
    ensures kept { (table : List Path) (p : Path) (i : ℕ) → i < length table →
        path_at (interned table p) i ≡ path_at table i }
{}

/// The texts of paths with each form of root.
pub fn texts_of_roots()
    ensures this { path_text (codes "P" ∷ []) (codes "f" ∷ codes "g" ∷ [])
        (record { root = This; fields = record { 0 = 1 } ∷ record { 0 = 0 } ∷ [] }) ≡ codes "this.g.f" }
    ensures class { path_text (codes "P" ∷ []) (codes "f" ∷ [])
        (record { root = Class (record { 0 = 0 }); fields = record { 0 = 0 } ∷ [] }) ≡ codes "P.f" }
    ensures formal { path_text [] [] (alone (Formal 7)) ≡ codes "#7" }
    ensures unnamed { path_text (codes "P" ∷ []) (codes "f" ∷ [])
        (record { root = SomeOf (record { 0 = 0 }); fields = record { 0 = 0 } ∷ [] }) ≡ codes "some P.f" }
{}
