//! Laws of the quiet paths of a warning.
ghost use Rattle.std.specs.Prelude.{◌≡◌, ℕ, ◌⊎◌, Some};
ghost use Rattle.racer_base.specs.declared.ids.MethodId.{MethodId};
ghost use Rattle.core_code.specs.declared.program.Program.{Program};
ghost use Rattle.core_code.specs.Calls.{method_at};
ghost use Rattle.core_code.specs.Core.{Core, Method};
ghost use Rattle.core_code.specs.Program.{core};
ghost use Rattle.access_domain.specs.declared.access.Access.{Access};
ghost use Rattle.access_domain.specs.OutcomeRecords.{record_at};
ghost use Rattle.core_semantics.specs.Runs.{given_to};
ghost use Rattle.core_semantics.specs.State.{Store};
ghost use Rattle.core_ways.specs.Stable.{IsStable};
ghost use Rattle.core_ways_laws.specs.Arrivals.{Arrival, arrival_of};
ghost use Rattle.core_ways_laws.specs.Meets.{DoesMeet, base_path, base_value};
ghost use Rattle.core_ways_laws.specs.Names.{entry_naming};
ghost use Rattle.core_ways_laws.specs.Places.{IsStore, start_object};
ghost use Rattle.core_ways_laws.specs.QuietEntries.{quietness_of};
ghost use Rattle.core_ways_laws.specs.Shapes.{IsPath};

/// A thread is run along the way to a record of one of two methods, from its entry on, where what is stored is as the
/// quiet paths of the two methods need it. Where it is not stuck, what comes next is the access of the record, and what
/// is stored is so still; where the record's path is stable, the access is of the object that the path without its last
/// field names at the begin of a run.
pub fn legs_meet_records()
    ensures meets { (p : Program) (m1 m2 m : MethodId) (method : Method) (i : ℕ) (r : Access) (t : ℕ) →
        (m ≡ m1) ⊎ (m ≡ m2) → method_at (core p) m ≡ Some method → record_at (core p) m i ≡ Some r →
        (store : Store) (arrival : Arrival) → IsStore (core p) (quietness_of (core p) m1 m2) store →
        arrival_of (core p) m i (given_to t method) store ≡ Some arrival →
        IsStore (core p) (quietness_of (core p) m1 m2) arrival.at.store
        × DoesMeet (core p) (quietness_of (core p) m1 m2) entry_naming r arrival }
    ensures stable { (p : Program) (m1 m2 m : MethodId) (method : Method) (i : ℕ) (r : Access) (t : ℕ) →
        (m ≡ m1) ⊎ (m ≡ m2) → method_at (core p) m ≡ Some method → record_at (core p) m i ≡ Some r →
        IsStable (core p) m1 m2 r.path → (store : Store) (arrival : Arrival) →
        IsStore (core p) (quietness_of (core p) m1 m2) store →
        arrival_of (core p) m i (given_to t method) store ≡ Some arrival →
        IsStore (core p) (quietness_of (core p) m1 m2) arrival.at.store
        × (base_value r.kind arrival.at ≡ start_object (base_path r.path)) }
{}

/// The path of each record is a path: it has at most as many fields as a path may have, and where it begins at some
/// object of a class, one field alone, which that class declares.
pub fn record_paths_are_paths()
    ensures { (core : Core) (m : MethodId) (i : ℕ) (r : Access) → record_at core m i ≡ Some r → IsPath core r.path }
{}
