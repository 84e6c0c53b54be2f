//! Laws of what the runs of two entries read and touch.
ghost use Rattle.std.specs.Prelude.{◌≡◌, ℕ, List, IsTrue, Some};
ghost use Rattle.std.specs.List.{list_all};
ghost use Rattle.racer_base.specs.declared.ids.FieldId.{FieldId};
ghost use Rattle.racer_base.specs.declared.ids.MethodId.{MethodId};
ghost use Rattle.racer_base.specs.declared.ids.Touch.{Touch};
ghost use Rattle.core_code.specs.declared.program.Program.{Program};
ghost use Rattle.core_code.specs.Calls.{is_analysed, method_at};
ghost use Rattle.core_code.specs.Core.{Method};
ghost use Rattle.core_code.specs.Program.{core};
ghost use Rattle.core_semantics.specs.declared.object.Object.TheVariants.{Start as StartOf};
ghost use Rattle.core_semantics.specs.declared.object.Start.{Start};
ghost use Rattle.core_semantics.specs.declared.object.StartPath.{StartPath};
ghost use Rattle.core_semantics.specs.Legs.{Leg, run};
ghost use Rattle.core_semantics.specs.Runs.{begun, next_touch};
ghost use Rattle.core_semantics.specs.State.{State, thread_of};
ghost use Rattle.core_semantics.specs.declared.object.Object.{Object};
ghost use Rattle.core_semantics.specs.declared.object.Value.{Value};
ghost use Rattle.core_ways.specs.Marks.{objects_of};
ghost use Rattle.core_semantics_kinds.specs.Reached.{do_lead, does_lead, is_cell, is_right, roots_of};

/// From the beginning of two analysed methods of one class, whatever the legs and the heap: each start path with a
/// field that a read gives is right, each of its fields is one of the class reached so far and has a class of the
/// program as its kind.
pub fn objects_are_right()
    ensures { (p : Program) (m1 m2 : MethodId) (f g : Method) → method_at (core p) m1 ≡ Some f →
        method_at (core p) m2 ≡ Some g → IsTrue (is_analysed (core p) m1) → IsTrue (is_analysed (core p) m2) →
        f.class ≡ g.class → (start : Start) (legs : List Leg) →
        IsTrue (list_all (is_right (core p) (roots_of f g)) (objects_of (core p) legs (begun (core p) m1 m2 start))) }
{}

/// Where the next step of a thread touches a field of a start object, the field is one of its class.
pub fn touched_cells_are_right()
    ensures { (p : Program) (m1 m2 : MethodId) (f g : Method) → method_at (core p) m1 ≡ Some f →
        method_at (core p) m2 ≡ Some g → IsTrue (is_analysed (core p) m1) → IsTrue (is_analysed (core p) m2) →
        f.class ≡ g.class → (start : Start) (legs : List Leg) (s : State) →
        run (core p) legs (begun (core p) m1 m2 start) ≡ Some s →
        (t : ℕ) (q : StartPath) (x : FieldId) (kind : Touch) → next_touch s t ≡ Some (StartOf q, x, kind) →
        IsTrue (is_cell (core p) (roots_of f g) q x) }
{}

/// Each start object that a value of a frame or a stored cell holds leads to an object of a class of the program.
pub fn held_objects_lead()
    ensures held { (p : Program) (m1 m2 : MethodId) (f g : Method) → method_at (core p) m1 ≡ Some f →
        method_at (core p) m2 ≡ Some g → IsTrue (is_analysed (core p) m1) → IsTrue (is_analysed (core p) m2) →
        f.class ≡ g.class → (start : Start) (legs : List Leg) (s : State) →
        run (core p) legs (begun (core p) m1 m2 start) ≡ Some s →
        (t : ℕ) → IsTrue (list_all (do_lead (core p) (roots_of f g)) (thread_of s t).frames) }
    ensures stored { (p : Program) (m1 m2 : MethodId) (f g : Method) → method_at (core p) m1 ≡ Some f →
        method_at (core p) m2 ≡ Some g → IsTrue (is_analysed (core p) m1) → IsTrue (is_analysed (core p) m2) →
        f.class ≡ g.class → (start : Start) (legs : List Leg) (s : State) →
        run (core p) legs (begun (core p) m1 m2 start) ≡ Some s →
        (o : Object) (x : FieldId) (v : Value) → s.store.cells o x ≡ Some v →
        IsTrue (does_lead (core p) (roots_of f g) v) }
{}
