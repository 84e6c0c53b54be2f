//! What the ways to accesses do with values, and that a way that is run ends just before its access.
ghost use Rattle.std.specs.Prelude.{◌≡◌, ℕ, List, [], false, IsTrue, Some, ◌∷◌};
ghost use Rattle.racer_base.specs.declared.ids.MethodId.{MethodId};
ghost use Rattle.core_code.specs.declared.program.Program.{Program};
ghost use Rattle.core_code.specs.Calls.{is_analysed, method_at};
ghost use Rattle.core_code.specs.Core.{Method};
ghost use Rattle.core_code.specs.Program.{core};
ghost use Rattle.access_domain.specs.declared.access.Access.{Access};
ghost use Rattle.access_domain.specs.FlowContext.{given_of};
ghost use Rattle.access_domain.specs.Summaries.{known_of};
ghost use Rattle.access_domain.specs.OutcomeRecords.{record_at};
ghost use Rattle.core_semantics.specs.declared.object.Value.{Value};
ghost use Rattle.core_semantics.specs.Legs.{runs};
ghost use Rattle.core_semantics.specs.State.{State, other_of, thread_of};
ghost use Rattle.core_semantics.specs.Steps.{entered};
ghost use Rattle.core_ways.specs.Ways.{trip_of, way_of};
ghost use Rattle.core_ways_laws.specs.ClearLegs.{DoCallsReturn, IsUnthrown};
ghost use Rattle.core_ways_laws.specs.Ends.{EndsAtAccess};
ghost use Rattle.core_ways_laws.specs.RunValues.{MethodGoes};
ghost use Rattle.core_ways_laws.specs.Sites.{IsRecordOf};
ghost use Rattle.core_ways_laws.specs.Values.{call_of};

/// A method that is passed, run alone from its entry, comes back, where it is not stuck, with what its call gives: the
/// same value, and the same stored.
pub fn methods_give_their_values()
    ensures { (p : Program) (m : MethodId) → IsTrue (is_analysed (core p) m) →
        MethodGoes (core p) (trip_of (core p)) (call_of (core p)) m }
{}

/// A record of a method stands at a `Get` or a `Put` of its kind and of its path's last field, or at a call of a method
/// that has the record. What stands before its site can end. It is locked exactly where a lock is round its site or the
/// callee's record is locked.
pub fn records_have_sites()
    ensures { (p : Program) (m : MethodId) (method : Method) (i : ℕ) (r : Access) →
        method_at (core p) m ≡ Some method → record_at (core p) m i ≡ Some r →
        IsRecordOf (given_of (core p) (known_of (core p)) method.main) method.code false r }
{}

/// The way to a record, run from the entry of its method beside a thread that holds no monitor, ends just before the
/// access of the record, where it is not stuck; there its thread holds a monitor exactly where the record is locked.
pub fn ways_end_at_their_access()
    ensures { (p : Program) (m : MethodId) (method : Method) (i : ℕ) (r : Access) (values : List Value) (s : State)
        (t : ℕ) → method_at (core p) m ≡ Some method → record_at (core p) m i ≡ Some r →
        thread_of s t ≡ record { frames = entered method values ∷ []; locks = [] } → (other_of s t).locks ≡ [] →
        EndsAtAccess (core p) m i r values s t
        (runs (core p) t (way_of (core p) m i).steps (way_of (core p) m i).turns s) }
{}

/// Where each method that reached code calls can return, the way to a record is not stuck at a throw, in the machine of
/// two threads beside a thread that holds no monitor.
pub fn legs_meet_no_throw()
    ensures { (p : Program) (m : MethodId) (method : Method) (i : ℕ) (r : Access) (values : List Value) (s : State)
        (t : ℕ) → DoCallsReturn (core p) m → method_at (core p) m ≡ Some method → record_at (core p) m i ≡ Some r →
        thread_of s t ≡ record { frames = entered method values ∷ []; locks = [] } → (other_of s t).locks ≡ [] →
        IsUnthrown (runs (core p) t (way_of (core p) m i).steps (way_of (core p) m i).turns s) }
{}
