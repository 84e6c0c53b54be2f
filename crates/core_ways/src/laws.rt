//! Values of ways and marks on small programs.
ghost use Rattle.std.specs.Prelude.{◌≡◌, ℕ, List, [], ◌∷◌, IsTrue, Some, false};
ghost use Rattle.racer_base.specs.declared.ids.MethodId.{MethodId};
ghost use Rattle.racer_base.specs.declared.ids.SiteId.{SiteId};
ghost use Rattle.access_paths.specs.declared.path.Root.TheVariants.{This, Some as SomeOf};
ghost use Rattle.core_code.specs.declared.program.Program.{Program};
ghost use Rattle.core_code.specs.Calls.{is_analysed, method_at};
ghost use Rattle.core_code.specs.Core.{Core, Method};
ghost use Rattle.core_code.specs.Pair.{at};
ghost use Rattle.core_code.specs.Program.{core};
ghost use Rattle.core_code.specs.Tree.{Operation, Tree, can_end, can_return, op_at};
ghost use Rattle.core_semantics.specs.declared.answer.Turn.{Turn};
ghost use Rattle.core_semantics.specs.declared.answer.Turn.TheVariants.{Left, Right};
ghost use Rattle.core_semantics.specs.declared.object.StartRoot.TheVariants.{This as StartThis};
ghost use Rattle.core_semantics.specs.Legs.{runs};
ghost use Rattle.core_semantics.specs.State.{State, other_of};
ghost use Rattle.core_semantics.specs.Examples.{early, field, gate, method, null};
ghost use Rattle.core_ways.specs.Marks.{mark_of, Unnamed, Unread, Unstable, Blocked, Confirmed};
ghost use Rattle.core_ways.specs.Examples.{with_sites, card, circle, doubling, throwing, turning, storing};
ghost use Rattle.core_ways.specs.Examples.{pair_of, leg_of, this_path};
ghost use Rattle.core_ways.specs.Alone.{IsSeen, MethodRuns, RunsTo, alone, do_end_before, is_throwless, part_of};
ghost use Rattle.core_ways.specs.Ways.{passed, to_return, trip_of, way_of};

/// The way to a write behind a lock inside which a method may return.
pub fn early_row()
    ensures way { way_of (with_sites early) (method 0) 2 ≡ record { turns = Right ∷ []; steps = 13; unread = [] } }
    ensures mark { mark_of (with_sites early) (pair_of 0 2 0 2) (this_path (0 ∷ []))
        ≡ Confirmed [] (leg_of 0 (Right ∷ []) 13 ∷ leg_of 1 (Right ∷ []) 13 ∷ []) }
{}

/// The leg of the unlocked record goes first.
pub fn gate_row()
    ensures { mark_of (with_sites gate) (pair_of 1 0 0 1) (this_path (0 ∷ []))
        ≡ Confirmed [] (leg_of 1 [] 9 ∷ leg_of 0 [] 3 ∷ []) }
{}

/// A stable path whose way writes through null.
pub fn null_row()
    ensures { mark_of (with_sites null) (pair_of 0 0 0 0) (this_path (1 ∷ [])) ≡ Blocked 0 (at 5 28) }
{}

/// What is read on the way to the object of an access stands in the witness.
pub fn card_row()
    ensures alone { mark_of card (pair_of 0 1 0 1) (this_path (1 ∷ 0 ∷ []))
        ≡ Confirmed (record { root = StartThis; fields = field 1 ∷ [] } ∷ [])
        (leg_of 0 [] 3 ∷ leg_of 1 [] 3 ∷ []) }
    ensures locked { mark_of card (pair_of 1 1 0 1) (this_path (1 ∷ 0 ∷ []))
        ≡ Confirmed (record { root = StartThis; fields = field 1 ∷ [] } ∷ [])
        (leg_of 1 [] 3 ∷ leg_of 0 [] 4 ∷ []) }
    ensures unnamed { mark_of card (pair_of 0 1 0 1)
        (record { root = SomeOf (record { 0 = 0 }); fields = field 0 ∷ [] }) ≡ Unnamed }
{}

/// A call that is not read stands on the way.
pub fn circle_row()
    ensures { mark_of circle (pair_of 0 0 0 0) (this_path (0 ∷ [])) ≡ Unread (at 6 14) }
{}

/// Methods that are passed count at each of their calls. A loop round a call that leads to an access is gone into.
pub fn doubling_row()
    ensures passed { way_of doubling (method 0) 0 ≡ record { turns = []; steps = 37; unread = [] } }
    ensures entered { way_of doubling (method 4) 0 ≡ record { turns = Left ∷ []; steps = 40; unread = [] } }
{}

/// Turns towards an access, and turns past code that can end on one side alone.
pub fn turning_row()
    ensures in_loop { way_of turning (method 1) 0 ≡ record { turns = Left ∷ []; steps = 3; unread = [] } }
    ensures in_choice { way_of turning (method 1) 1
        ≡ record { turns = Right ∷ Right ∷ Left ∷ []; steps = 6; unread = [] } }
    ensures behind { way_of turning (method 1) 2 ≡ record {
      turns = Right ∷ Right ∷ Right ∷ Left ∷ Right ∷ Left ∷ [];
      steps = 22;
      unread = [];
    } }
{}

/// The shortest prefix that is stored or assigned, the root alone among them.
pub fn storing_row()
    ensures { mark_of storing (pair_of 0 2 0 2) (this_path (1 ∷ 0 ∷ [])) ≡ Unstable (this_path []) }
{}

/// A method that is passed is gone through to a return and past no throw, where it has one. Where it has none the way
/// is stuck at a throw.
pub fn throwing_row()
    ensures way { way_of throwing (method 0) 0 ≡ record { turns = Right ∷ Left ∷ Left ∷ []; steps = 10; unread = [] } }
    ensures mark { mark_of throwing (pair_of 0 0 0 0) (this_path (0 ∷ []))
        ≡ Confirmed [] (leg_of 0 (Right ∷ Left ∷ Left ∷ []) 10 ∷ leg_of 1 (Right ∷ Left ∷ Left ∷ []) 10 ∷ []) }
    ensures blocked { mark_of throwing (pair_of 2 0 0 0) (this_path (0 ∷ [])) ≡ Blocked 0 (at 7 25) }
{}

/// The parts of ways, run by one thread beside one that holds no monitor, where it is not stuck. A method that is
/// passed uses the turns of its trip in as many steps, and comes to its return with the monitors that it had. Code that
/// is gone into up to a site comes to the operation there, with as many monitors more as there are locks round it.
pub fn parts_run()
    ensures methods { (p : Program) (m : MethodId) → IsTrue (is_analysed (core p) m) →
        MethodRuns (core p) (trip_of (core p)) m }
    ensures sites { (p : Program) (m : MethodId) (method : Method) (site : SiteId) (o : Operation) →
        method_at (core p) m ≡ Some method → IsTrue (is_analysed (core p) m) → op_at method.code site ≡ Some o →
        IsTrue (do_end_before site method.code) → RunsTo (core p) (trip_of (core p)) site method.code o }
{}

/// A thread beside one that holds no monitor is run as if it were alone.
pub fn alone_beside_another()
    ensures { (core : Core) (t n : ℕ) (turns : List Turn) (s : State) → (other_of s t).locks ≡ [] →
        IsSeen s t (alone core n turns (part_of s t)) (runs core t n turns s) }
{}

/// Code that cannot end and has no throw comes to a return as code is passed, turn by turn and step by step.
pub fn throwless_methods_are_passed()
    ensures returns { (code : Tree) → IsTrue (is_throwless code) → can_end code ≡ false → IsTrue (can_return code) }
    ensures passed { (locks : ℕ) (code : Tree) → IsTrue (is_throwless code) → can_end code ≡ false →
        to_return locks code ≡ passed locks code }
{}
