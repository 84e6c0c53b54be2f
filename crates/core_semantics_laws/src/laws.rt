//! Laws of the machine.
ghost use Rattle.std.specs.Prelude.{◌≡◌, ℕ, List, Some};
ghost use Rattle.racer_base.specs.declared.ids.MethodId.{MethodId};
ghost use Rattle.core_code.specs.Core.{Core};
ghost use Rattle.core_semantics.specs.declared.answer.Turn.{Turn};
ghost use Rattle.core_semantics.specs.declared.object.Start.{Start};
ghost use Rattle.core_semantics.specs.Legs.{Leg, run, runs};
ghost use Rattle.core_semantics.specs.Runs.{begun};
ghost use Rattle.core_semantics.specs.State.{State};
ghost use Rattle.core_semantics_laws.specs.Monitors.{HaveOneHolder, HaveOneHolderIn, Move, moved};

/// In each state that steps lead to from the beginning, of either thread in any order and with any turns, each monitor
/// is held by one thread at most; so also in each state of a leg that is run behind others, whether it comes to its end
/// or not.
pub fn monitors_have_one_holder()
    ensures steps { (core : Core) (m1 m2 : MethodId) (start : Start) (moves : List Move) (s : State) →
        moved core moves (begun core m1 m2 start) ≡ Some s → HaveOneHolder s }
    ensures legs { (core : Core) (m1 m2 : MethodId) (start : Start) (legs : List Leg) (s : State) (t n : ℕ)
        (turns : List Turn) → run core legs (begun core m1 m2 start) ≡ Some s →
        HaveOneHolderIn (runs core t n turns s) }
{}
