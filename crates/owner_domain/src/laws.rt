//! Laws of values and joins.
ghost use Rattle.std.specs.Prelude.{◌≡◌, ℕ, true, false, [], ◌∷◌, ◌++◌, Bool, IsTrue, ◌↔◌, List, count_by};
ghost use Rattle.racer_base.specs.declared.ids.FieldId.{FieldId};
ghost use Rattle.access_paths.specs.declared.path.Path.{Path};
ghost use Rattle.owner_domain.specs.declared.value.Value.{Value};
ghost use Rattle.owner_domain.specs.declared.value.Value.TheVariants.{Owned, Named, Unnamed};
ghost use Rattle.owner_domain.specs.declared.value.State.{State};
ghost use Rattle.owner_domain.specs.Values.{same_value, along, joined, lost, joined_state, lost_state};

/// Values are the same exactly where they are equal.
pub fn same_is_equal()
    ensures { (a b : Value) → IsTrue (same_value a b) ↔ (a ≡ b) }
{}

/// A join of equal states is that state, and loses nothing.
pub fn equal_states_join()
    ensures joined { (s : State) → joined_state s s ≡ s }
    ensures lost { (s : State) → lost_state s s ≡ [] }
{}

/// A join is the same both ways, but for the order of the lost paths.
pub fn joins_both_ways()
    ensures joined { (s t : State) → joined_state s t ≡ joined_state t s }
    ensures lost { (s t : State) (test : Path → Bool) →
        count_by test (lost_state s t) ≡ count_by test (lost_state t s) }
{}

/// Two different values join to `Unnamed`, and each name among them is lost.
pub fn different_values_join()
    ensures owned_named { (p : Path) → joined Owned (Named p) ≡ Unnamed }
    ensures owned_named_lost { (p : Path) → lost Owned (Named p) ≡ p ∷ [] }
    ensures named_unnamed_lost { (p : Path) → lost (Named p) Unnamed ≡ p ∷ [] }
    ensures owned_unnamed { joined Owned Unnamed ≡ Unnamed }
    ensures owned_unnamed_lost { lost Owned Unnamed ≡ [] }
    ensures owned { joined Owned Owned ≡ Owned }
{}

/// The value at the end of two lists of fields is reached along the first and then the second.
pub fn fields_compose()
    ensures { (v : Value) (fs gs : List FieldId) → along v (fs ++ gs) ≡ along (along v fs) gs }
{}
