//! Laws of the machine, and its values on small programs.
ghost use Rattle.std.specs.Prelude.{◌≡◌, true, false, [], ◌∷◌, None, Some, map, option_map};
ghost use Rattle.racer_base.specs.declared.ids.Touch.TheVariants.{Write};
ghost use Rattle.core_code.specs.Pair.{at};
ghost use Rattle.core_code.specs.declared.code.Op.TheVariants.{Push, PushClass, PushPrim, PushNull, New, Dup, Drop};
ghost use Rattle.core_code.specs.declared.code.Op.TheVariants.{Get, Put, Set, Prim, Outside, Call, Unread, Ret, Throw};
ghost use Rattle.core_code.specs.declared.code.LockKind.TheVariants.{Own, Explicit};
ghost use Rattle.core_semantics.specs.declared.answer.Holder.TheVariants.{Object as MonitorOf, Outside as AllOpaque};
ghost use Rattle.core_semantics.specs.declared.answer.Turn.TheVariants.{Left, Right};
ghost use Rattle.core_semantics.specs.declared.answer.Why.TheVariants.{NullBase, OpaqueBase, PlainBase, Thrown};
ghost use Rattle.core_semantics.specs.declared.answer.Why.TheVariants.{UnreadCall};
ghost use Rattle.core_semantics.specs.declared.object.Object.TheVariants.{Start as StartOf};
ghost use Rattle.core_semantics.specs.declared.object.Start.TheVariants.{All, Only};
ghost use Rattle.core_semantics.specs.declared.object.StartRoot.TheVariants.{This, Class, Param};
ghost use Rattle.core_semantics.specs.declared.object.Value.TheVariants.{Plain, Opaque, Null, Object as Ref};
ghost use Rattle.core_semantics.specs.Legs.{NoTurn, StuckFor, HeldBy, HasEnded};
ghost use Rattle.core_semantics.specs.Objects.{root_path, same_monitor};
ghost use Rattle.core_semantics.specs.Runs.{place, next_touch, wants_turn};
ghost use Rattle.core_semantics.specs.Steps.{op_step, Sticks};
ghost use Rattle.core_semantics.specs.Examples.{class, field, method, var, fresh, this_path, this_value};
ghost use Rattle.core_semantics.specs.Examples.{null, gate, early, calls, two_kinds, throws, leg, after_legs, is_race};
ghost use Rattle.core_semantics.specs.Examples.{halt_after};
ghost use Rattle.core_semantics.specs.Examples.{stack_of, vars_of, after_op, with_stack};

/// What each operation leaves on the stack, which holds a plain value on `this` on an object.
pub fn stacks_after_operations()
    ensures pushes { map (after_op calls (Plain ∷ []))
        (Push (var 1) ∷ PushClass (class 0) ∷ PushPrim ∷ PushNull ∷ New (class 0) ∷ Dup ∷ Drop ∷ Set (var 0) ∷ [])
        ≡ Some (fresh 1 ∷ Plain ∷ [])
        ∷ Some (Ref (StartOf (root_path (Class (class 0)))) ∷ Plain ∷ [])
        ∷ Some (Plain ∷ Plain ∷ [])
        ∷ Some (Null ∷ Plain ∷ [])
        ∷ Some (fresh 5 ∷ Plain ∷ [])
        ∷ Some (Plain ∷ Plain ∷ [])
        ∷ Some []
        ∷ Some (Plain ∷ [])
        ∷ [] }
    ensures pops { map (after_op calls (Plain ∷ this_value ∷ fresh 1 ∷ []))
        (Prim 0 ∷ Prim 2 ∷ Outside 0 ∷ Outside 2 ∷ Put (field 0) ∷ Ret ∷ [])
        ≡ Some (Plain ∷ Plain ∷ this_value ∷ fresh 1 ∷ [])
        ∷ Some (Plain ∷ fresh 1 ∷ [])
        ∷ Some (Opaque ∷ Plain ∷ this_value ∷ fresh 1 ∷ [])
        ∷ Some (Opaque ∷ fresh 1 ∷ [])
        ∷ Some (Plain ∷ fresh 1 ∷ [])
        ∷ None
        ∷ [] }
    ensures reads { map (λ v. after_op calls (v ∷ Plain ∷ []) (Get (field 0)))
        (this_value ∷ fresh 1 ∷ Null ∷ Plain ∷ Opaque ∷ [])
        ≡ Some (this_path (field 0 ∷ []) ∷ Plain ∷ [])
        ∷ Some (Null ∷ Plain ∷ [])
        ∷ None
        ∷ None
        ∷ None
        ∷ [] }
    ensures plain { after_op gate (this_value ∷ []) (Get (field 0)) ≡ Some (Plain ∷ []) }
{}

/// Why an operation cannot be done.
pub fn reasons_to_be_stuck()
    ensures reads { map (λ v. op_step calls (with_stack (v ∷ [])) (Get (field 0))) (Null ∷ Plain ∷ Opaque ∷ [])
        ≡ Sticks NullBase ∷ Sticks PlainBase ∷ Sticks OpaqueBase ∷ [] }
    ensures writes { map (λ v. op_step calls (with_stack (Plain ∷ v ∷ [])) (Put (field 0))) (Null ∷ Plain ∷ Opaque ∷ [])
        ≡ Sticks NullBase ∷ Sticks PlainBase ∷ Sticks OpaqueBase ∷ [] }
    ensures receivers { map (λ v. op_step calls (with_stack (Plain ∷ Plain ∷ v ∷ [])) (Call (method 0) 3))
        (Null ∷ Plain ∷ Opaque ∷ []) ≡ Sticks NullBase ∷ Sticks PlainBase ∷ Sticks OpaqueBase ∷ [] }
    ensures unread { op_step calls (with_stack (this_value ∷ [])) (Unread (method 0) 1) ≡ Sticks UnreadCall }
    ensures throws { op_step calls (with_stack (this_value ∷ [])) Throw ≡ Sticks Thrown }
{}

/// A write through null cannot be made: the five steps before it can.
pub fn null_row()
    ensures five { option_map (λ s. place s 0) (after_legs null (method 0) (method 0) All (leg 0 [] 5 ∷ []))
        ≡ Some (Some (at 5 28)) }
    ensures sixth { halt_after null (method 0) (method 0) [] (leg 0 [] 6) ≡ Some (StuckFor NullBase, 5) }
{}

/// Two threads race for `c`, the one of `b` under a lock that the other frees in time.
pub fn gate_row()
    ensures race { is_race gate (method 1) (method 0) (leg 1 [] 9 ∷ leg 0 [] 3 ∷ []) ≡ Some true }
    ensures too_early { is_race gate (method 1) (method 0) (leg 1 [] 8 ∷ leg 0 [] 3 ∷ []) ≡ Some false }
    ensures held { halt_after gate (method 1) (method 0) (leg 0 [] 2 ∷ []) (leg 1 [] 2)
        ≡ Some (HeldBy (MonitorOf Own (StartOf (root_path This))), 1) }
    ensures reads { is_race gate (method 1) (method 1) (leg 0 [] 3 ∷ []) ≡ Some false }
    ensures over { halt_after gate (method 1) (method 1) [] (leg 0 [] 7) ≡ Some (HasEnded, 6) }
{}

/// A return inside a lock frees the monitor first. The choice wants a turn.
pub fn early_row()
    ensures race { is_race early (method 0) (method 0) (leg 0 (Right ∷ []) 13 ∷ leg 1 (Right ∷ []) 13 ∷ [])
        ≡ Some true }
    ensures no_turn { halt_after early (method 0) (method 0) [] (leg 0 [] 13) ≡ Some (NoTurn, 5) }
    ensures wants { option_map (λ s. wants_turn s 0) (after_legs early (method 0) (method 0) All (leg 0 [] 5 ∷ []))
        ≡ Some true }
    ensures returned { is_race early (method 0) (method 0) (leg 0 (Left ∷ []) 9 ∷ leg 1 (Right ∷ []) 13 ∷ [])
        ≡ Some false }
    ensures unlocked { halt_after early (method 0) (method 0) (leg 0 (Left ∷ []) 8 ∷ []) (leg 1 [] 2) ≡ None }
    ensures still_locked { halt_after early (method 0) (method 0) (leg 0 (Left ∷ []) 7 ∷ []) (leg 1 [] 2)
        ≡ Some (HeldBy (MonitorOf Own (StartOf (root_path This))), 1) }
    ensures left_over { after_legs early (method 0) (method 0) All (leg 0 (Left ∷ []) 5 ∷ []) ≡ None }
{}

/// A loop is left by a right turn and comes round by a left one; a call passes its values in order; what is stored is
/// read; all opaque values have one monitor.
pub fn calls_row()
    ensures right { option_map (stack_of 0) (after_legs calls (method 1) (method 1) All (leg 0 (Right ∷ []) 2 ∷ []))
        ≡ Some (Some (Plain ∷ [])) }
    ensures passed { option_map (vars_of 0) (after_legs calls (method 1) (method 1) All (leg 0 (Left ∷ []) 5 ∷ []))
        ≡ Some (Some (this_value ∷ Ref (StartOf (root_path (Param 0 0))) ∷ Opaque ∷ [])) }
    ensures round { option_map (λ s. wants_turn s 0)
        (after_legs calls (method 1) (method 1) All (leg 0 (Left ∷ []) 17 ∷ [])) ≡ Some true }
    ensures held { halt_after calls (method 1) (method 1) (leg 0 (Left ∷ []) 11 ∷ []) (leg 1 (Left ∷ []) 11)
        ≡ Some (HeldBy (AllOpaque Own), 10) }
    ensures given_back { option_map (stack_of 0)
        (after_legs calls (method 1) (method 1) All (leg 0 (Left ∷ []) 14 ∷ []))
        ≡ Some (Some (Ref (StartOf (root_path (Param 0 0))) ∷ [])) }
    ensures touched { option_map (λ s. next_touch s 0)
        (after_legs calls (method 0) (method 0) All (leg 0 [] 2 ∷ []))
        ≡ Some (Some (StartOf (root_path This), field 0, Write)) }
    ensures stored { option_map (λ s. s.store.cells (StartOf (root_path This)) (field 0))
        (after_legs calls (method 0) (method 0) All (leg 0 [] 3 ∷ []))
        ≡ Some (Some (Ref (StartOf (root_path (Param 0 0))))) }
    ensures reads_what_is_stored { option_map (stack_of 1)
        (after_legs calls (method 0) (method 2) All (leg 0 [] 3 ∷ leg 1 [] 2 ∷ []))
        ≡ Some (Some (Ref (StartOf (root_path (Param 0 0))) ∷ [])) }
{}

/// An object has a monitor of each kind, which are two, and so have all opaque values together.
pub fn kinds_row()
    ensures apart { halt_after two_kinds (method 0) (method 1) (leg 0 [] 2 ∷ []) (leg 1 [] 3) ≡ None }
    ensures held { halt_after two_kinds (method 1) (method 1) (leg 0 [] 2 ∷ []) (leg 1 [] 3)
        ≡ Some (HeldBy (MonitorOf Explicit (StartOf (root_path This))), 1) }
    ensures opaque { map (same_monitor (AllOpaque Explicit)) (AllOpaque Own ∷ AllOpaque Explicit ∷ [])
        ≡ false ∷ true ∷ [] }
{}

/// A thread that throws is stuck there, and holds its monitors on.
pub fn throwing_row()
    ensures stuck { halt_after throws (method 0) (method 0) [] (leg 0 [] 3) ≡ Some (StuckFor Thrown, 2) }
    ensures place { option_map (λ s. place s 0) (after_legs throws (method 0) (method 0) All (leg 0 [] 2 ∷ []))
        ≡ Some (Some (at 1 44)) }
    ensures held { halt_after throws (method 0) (method 0) (leg 0 [] 2 ∷ []) (leg 1 [] 2)
        ≡ Some (HeldBy (MonitorOf Own (StartOf (root_path This))), 1) }
{}

/// A read gives an object where the heap has its path, and null where it has not.
pub fn heap_row()
    ensures all { option_map (stack_of 0)
        (after_legs calls (method 1) (method 1) All (leg 0 (Left ∷ []) 15 ∷ []))
        ≡ Some (Some (Ref (StartOf (record { root = Param 0 0; fields = field 0 ∷ [] })) ∷ [])) }
    ensures none { option_map (stack_of 0)
        (after_legs calls (method 1) (method 1) (Only []) (leg 0 (Left ∷ []) 15 ∷ [])) ≡ Some (Some (Null ∷ [])) }
    ensures this_one { option_map (stack_of 0)
        (after_legs calls (method 1) (method 1) (Only (record { root = Param 0 0; fields = field 0 ∷ [] } ∷ []))
        (leg 0 (Left ∷ []) 15 ∷ []))
        ≡ Some (Some (Ref (StartOf (record { root = Param 0 0; fields = field 0 ∷ [] })) ∷ [])) }
{}
