//! Laws of the marks of warnings, of the runs of confirmed ones, and of the heaps in which these begin.
ghost use Rattle.std.specs.Prelude.{◌≡◌, ℕ, List, Some, option_map};
ghost use Rattle.std.specs.List.{Contains};
ghost use Rattle.racer_base.specs.declared.ids.MethodId.{MethodId};
ghost use Rattle.core_code.specs.Core.{Core};
ghost use Rattle.core_code.specs.declared.program.Program.{Program};
ghost use Rattle.core_code.specs.Program.{core};
ghost use Rattle.access_domain.specs.declared.access.Access.{Access};
ghost use Rattle.access_domain.specs.OutcomeRecords.{record_at};
ghost use Rattle.core_semantics.specs.declared.answer.Turn.{Turn};
ghost use Rattle.core_semantics.specs.declared.object.Start.TheVariants.{All, Only};
ghost use Rattle.core_semantics.specs.declared.object.StartPath.{StartPath};
ghost use Rattle.core_semantics.specs.Legs.{Leg, run, runs};
ghost use Rattle.core_semantics.specs.Runs.{begun, is_in, next_touch, races};
ghost use Rattle.core_semantics.specs.State.{State};
ghost use Rattle.core_ways.specs.Marks.{legs_of, objects_of, reads, Confirmed, IsWhole};
ghost use Rattle.core_ways.specs.Stable.{IsStable};
ghost use Rattle.race_pairs.specs.declared.warning.Warning.{Warning};
ghost use Rattle.race_pairs.specs.Warnings.{warnings};
ghost use Rattle.witness_build_laws.specs.Heaps.{HasAll, Heap, ran_in, state_in};
ghost use Rattle.witness_build_laws.specs.Headline.{AreConfirmed};
ghost use Rattle.witness_build_laws.specs.Races.{RacesOn};
ghost use Rattle.witness_build_laws.specs.Warned.{pair_of, warning_mark};

/// Steps from a state in which all start paths are objects go the same way, the heap aside, in each heap that has what
/// they read: they come to the same state with the same turns left, or break before the same step for the same reason.
pub fn same_steps_in_a_smaller_heap()
    ensures { (core : Core) (t n : ℕ) (turns : List Turn) (s : State) (heap : Heap) → s.store.heap ≡ is_in All →
        HasAll heap (reads core t n turns s) →
        runs core t n turns (state_in heap s) ≡ ran_in heap (runs core t n turns s) }
{}

/// What the next step of a thread touches, and whether both threads race, does not depend on the heap.
pub fn the_heap_is_not_seen()
    ensures touch { (s : State) (heap : Heap) (t : ℕ) → next_touch (state_in heap s) t ≡ next_touch s t }
    ensures race { (s : State) (heap : Heap) → races (state_in heap s) ≡ races s }
{}

/// Legs that are run from the beginning of two entries, where all start paths are objects, come to the same state, the
/// heap aside, where only those are objects that their reads gave; and where the one run is none, so is the other.
pub fn run_from_the_objects_read()
    ensures { (core : Core) (m1 m2 : MethodId) (legs : List Leg) (objects : List StartPath) →
        objects ≡ objects_of core legs (begun core m1 m2 All) →
        run core legs (begun core m1 m2 (Only objects))
        ≡ option_map (state_in (is_in (Only objects))) (run core legs (begun core m1 m2 All)) }
{}

/// A warning whose path is stable in both methods and whose two ways are whole is confirmed, with its legs and the
/// objects that they read.
pub fn whole_warnings_are_confirmed()
    ensures { (core : Core) (w : Warning) (r : Access) → record_at core w.entry w.access ≡ Some r →
        IsStable core w.entry w.partner r.path → IsWhole core (pair_of w) →
        warning_mark core w ≡ Confirmed
        (objects_of core (legs_of core (pair_of w)) (begun core w.entry w.partner All)) (legs_of core (pair_of w)) }
{}

/// Each warning of the list of warnings that is marked confirmed carries a start heap and a schedule after which the
/// next steps of both threads touch one cell, that of the warning's path, and at least one of them writes it. In that
/// run no step is held, and behind the first leg its thread holds no monitor.
pub fn confirmed_warnings_race()
    ensures { (p : Program) (w : Warning) (objects : List StartPath) (legs : List Leg) (r : Access) →
        Contains (warnings (core p)) w → warning_mark (core p) w ≡ Confirmed objects legs →
        record_at (core p) w.entry w.access ≡ Some r → RacesOn (core p) w objects legs r.path }
{}

/// Each warning whose path is stable in both methods, and whose two ways are whole, is marked confirmed, and carries a
/// start heap and a schedule after which the next steps of both threads touch one cell, and one of them writes it.
pub fn whole_warnings_race()
    ensures { (p : Program) → AreConfirmed (core p) }
{}
