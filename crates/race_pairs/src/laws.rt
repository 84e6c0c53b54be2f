//! Laws of warnings, and their list for a small program.
ghost use Rattle.std.specs.Prelude.{◌≡◌, ℕ, true, false, [], ◌∷◌, Some, List, Contains, count_by};
ghost use Rattle.racer_base.specs.declared.ids.ClassId.{ClassId};
ghost use Rattle.racer_base.specs.declared.ids.MethodId.{MethodId};
ghost use Rattle.core_code.specs.Core.{Core};
ghost use Rattle.core_code.specs.Pair.{pair};
ghost use Rattle.access_domain.specs.declared.access.Access.{Access};
ghost use Rattle.race_pairs.specs.declared.warning.Warning.{Warning};
ghost use Rattle.race_pairs.specs.Warnings.{warnings, conflicts};
ghost use Rattle.race_pairs.specs.Pairs.{IsPair, IsRecord, IsCheckedClass, is_warning_of};

/// An unlocked write conflicts with itself, and a locked write of the same field with it. Two locked writes do not
/// conflict.
pub fn pair_row()
    ensures { warnings pair ≡
        let put : MethodId = record { 0 = 1 } in
        let both : MethodId = record { 0 = 2 } in
        record { class = record { 0 = 0 }; entry = put; access = 0; partner = put; partner_access = 0 }
        ∷ record { class = record { 0 = 0 }; entry = both; access = 0; partner = put; partner_access = 0 }
        ∷ [] }
{}

/// Each warning of the list is a pair of records of entries of one checked class that conflict.
pub fn each_warning_is_a_pair()
    ensures { (core : Core) (w : Warning) → Contains (warnings core) w → IsPair core w }
{}

/// Each record of an entry of a checked class that has a conflict has exactly one warning.
pub fn each_conflict_has_one_warning()
    ensures { (core : Core) (c : ClassId) (m n : MethodId) (i j : ℕ) (a b : Access) →
        IsCheckedClass core c → IsRecord core c m i a → IsRecord core c n j b → conflicts a b ≡ true →
        count_by (is_warning_of m i) (warnings core) ≡ 1 }
{}
