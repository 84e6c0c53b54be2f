//! Units that are the same: equal but for the form of their trees in memory.
ghost use Rattle.std.specs.Prelude.{◌≡◌, ℕ, Bool, List};
ghost use Rattle.std.specs.List.{AllZip};
ghost use Rattle.container_cells.specs.declared.cell.Containers.{Containers};
ghost use Rattle.racer_base.specs.declared.ids.MethodId.{MethodId};
ghost use Rattle.java_tree.specs.declared.unit.Unit as unit;
ghost use Rattle.java_tree.specs.SameUnits.{SameUnit};
ghost use Rattle.java_resolver.specs.Refusals.{refusal};
ghost use Rattle.core_code.specs.Core.{Core};
ghost use Rattle.core_lowering_rules.specs.Programs.{program_of, draft_of, call_edges, IsLowered};

/// Units that are the same are refused alike, and have one program: one whichever methods are taken for recursive, and
/// one whose recursive methods are told.
pub fn one_program()
    ensures refused { (us vs : List unit.Unit) → AllZip SameUnit us vs → refusal us ≡ refusal vs }
    ensures program { (us vs : List unit.Unit) → AllZip SameUnit us vs → (containers : Containers)
        (files : List (List ℕ)) (is_recursive : MethodId → Bool)
        → program_of containers files us is_recursive ≡ program_of containers files vs is_recursive }
    ensures edges { (us vs : List unit.Unit) → AllZip SameUnit us vs → (containers : Containers)
        (files : List (List ℕ))
        → call_edges (draft_of containers files us) ≡ call_edges (draft_of containers files vs) }
    ensures lowered { (us vs : List unit.Unit) → AllZip SameUnit us vs → (containers : Containers)
        (files : List (List ℕ)) (p q : Core) → IsLowered containers files us p → IsLowered containers files vs q
        → p ≡ q }
{}
