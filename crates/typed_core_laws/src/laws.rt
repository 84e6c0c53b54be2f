//! Laws of typed classes.
ghost use Rattle.std.specs.Prelude.{◌≡◌, ℕ, List, Some};
ghost use Rattle.racer_base.specs.declared.ids.ClassId.{ClassId};
ghost use Rattle.racer_base.specs.declared.ids.MethodId.{MethodId};
ghost use Rattle.core_code.specs.declared.program.Program.{Program};
ghost use Rattle.core_code.specs.Program.{core};
ghost use Rattle.core_semantics.specs.declared.answer.Turn.{Turn};
ghost use Rattle.core_semantics.specs.declared.object.Start.TheVariants.{All};
ghost use Rattle.core_semantics.specs.Runs.{begun};
ghost use Rattle.core_semantics.specs.State.{State};
ghost use Rattle.core_semantics.specs.Steps.{step};
ghost use Rattle.core_semantics_laws.specs.Monitors.{Move, moved};
ghost use Rattle.typed_core_laws.specs.Promise.{AreNeverBlocked, IsEntry, IsTyped, OnlyThrows};

/// From the beginning of two entries of a typed class, where all start paths are objects, steps of either thread in any
/// order and with any turns never lead to a step that is stuck, but at a throw: a thread goes on, waits for a monitor
/// that the other one holds, or has ended.
pub fn typed_classes_are_never_stuck()
    ensures { (p : Program) (c : ClassId) (m1 m2 : MethodId) → IsTyped (core p) c → IsEntry (core p) c m1 →
        IsEntry (core p) c m2 → (moves : List Move) (s : State) → moved (core p) moves (begun (core p) m1 m2 All)
        ≡ Some s → (t : ℕ) (turn : Turn) → OnlyThrows (step (core p) s t turn) }
{}

/// No warning of a typed class is marked blocked or unread. Each whose path is stable in both methods, and whose two
/// ways have at most as many steps as are run, is confirmed: its run ends in its race.
pub fn typed_classes_are_never_blocked()
    ensures { (p : Program) → AreNeverBlocked (core p) }
{}
