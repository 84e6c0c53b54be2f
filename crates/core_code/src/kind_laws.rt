//! What the kind check gives on small code, computed from its definition.
ghost use Rattle.std.specs.Prelude.{◌≡◌, true, false, [], ◌∷◌, Some, None, map};
ghost use Rattle.racer_base.specs.declared.ids.Kind.TheVariants as types;
ghost use Rattle.core_code.specs.declared.code.Op.TheVariants as op;
ghost use Rattle.core_code.specs.Tree.{Skip, Seq, Choice, Loop};
ghost use Rattle.core_code.specs.Pair.{at, own_sync, step};
ghost use Rattle.core_code.specs.Kinds.{Plain, Null, Opaque, Other, joined_stack};
ghost use Rattle.core_code.specs.KindCheck.{are_kinded, kinds_after_op};
ghost use Rattle.core_code.specs.Kinded.{a, b, an_a, a_b, the_a, the_b, after_each, after_code, kinded, method_f};
ghost use Rattle.core_code.specs.Kinded.{variables, this, other, next, count, any, no_field, f, g, no_method};
ghost use Rattle.core_code.specs.Kinded.{with_variables};

/// The kinds after an operation that makes a value.
pub fn kinds_of_values()
    ensures push { map (λ v. kinds_after_op kinded method_f (op.Push v) []) variables
        ≡ Some (an_a ∷ []) ∷ Some (an_a ∷ []) ∷ Some (Plain ∷ []) ∷ Some (Other ∷ []) ∷ None ∷ [] }
    ensures class { after_each (op.PushClass b) ([] ∷ []) ≡ Some (the_b ∷ []) ∷ [] }
    ensures primitive { after_each op.PushPrim (([]) ∷ []) ≡ Some (Plain ∷ []) ∷ [] }
    ensures null { after_each op.PushNull ([] ∷ []) ≡ Some (Null ∷ []) ∷ [] }
    ensures new { after_each (op.New b) ([] ∷ []) ≡ Some (a_b ∷ []) ∷ [] }
    ensures dup { after_each op.Dup ((the_a ∷ []) ∷ [] ∷ []) ≡ Some (the_a ∷ the_a ∷ []) ∷ None ∷ [] }
    ensures drop { after_each op.Drop ((Null ∷ Other ∷ []) ∷ [] ∷ []) ≡ Some (Other ∷ []) ∷ None ∷ [] }
    ensures prim { after_each (op.Prim 2) ((Other ∷ Null ∷ an_a ∷ []) ∷ (Null ∷ []) ∷ [])
        ≡ Some (Plain ∷ an_a ∷ []) ∷ None ∷ [] }
    ensures outside { after_each (op.Outside 1) ((Other ∷ Null ∷ []) ∷ [] ∷ [])
        ≡ Some (Opaque ∷ Null ∷ []) ∷ None ∷ [] }
{}

/// The kinds after a read of a field: the base of a static field is its class, that of another an object that fits.
pub fn kinds_of_reads()
    ensures of_objects { after_each (op.Get next) ((an_a ∷ []) ∷ (Null ∷ []) ∷ (Opaque ∷ Other ∷ []) ∷ [])
        ≡ Some (an_a ∷ []) ∷ Some (an_a ∷ []) ∷ Some (an_a ∷ Other ∷ []) ∷ [] }
    ensures refused { after_each (op.Get next) ((Other ∷ []) ∷ (Plain ∷ []) ∷ (a_b ∷ []) ∷ (the_a ∷ []) ∷ [] ∷ [])
        ≡ None ∷ None ∷ None ∷ None ∷ None ∷ [] }
    ensures of_class { after_each (op.Get count) ((the_a ∷ []) ∷ (the_b ∷ []) ∷ (an_a ∷ []) ∷ (Opaque ∷ []) ∷ [])
        ≡ Some (Plain ∷ []) ∷ None ∷ None ∷ None ∷ [] }
    ensures of_any { after_each (op.Get any) ((an_a ∷ []) ∷ []) ≡ Some (Other ∷ []) ∷ [] }
    ensures no_field { after_each (op.Get no_field) ((an_a ∷ []) ∷ []) ≡ None ∷ [] }
{}

/// The kinds after a store to a field or a variable: where an object of a class is wanted the value fits it.
pub fn kinds_of_stores()
    ensures put { after_each (op.Put next) ((an_a ∷ an_a ∷ []) ∷ (Null ∷ Null ∷ []) ∷ (Opaque ∷ an_a ∷ Plain ∷ []) ∷ [])
        ≡ Some (an_a ∷ []) ∷ Some (Null ∷ []) ∷ Some (Opaque ∷ Plain ∷ []) ∷ [] }
    ensures value_refused { after_each (op.Put next)
        ((a_b ∷ an_a ∷ []) ∷ (Other ∷ an_a ∷ []) ∷ (Plain ∷ an_a ∷ []) ∷ [])
        ≡ None ∷ None ∷ None ∷ [] }
    ensures base_refused { after_each (op.Put next) ((an_a ∷ Other ∷ []) ∷ (an_a ∷ a_b ∷ []) ∷ (an_a ∷ []) ∷ [] ∷ [])
        ≡ None ∷ None ∷ None ∷ None ∷ [] }
    ensures of_class { after_each (op.Put count) ((Other ∷ the_a ∷ []) ∷ (Plain ∷ an_a ∷ []) ∷ [])
        ≡ Some (Other ∷ []) ∷ None ∷ [] }
    ensures set { after_each (op.Set other) ((Null ∷ []) ∷ (an_a ∷ Other ∷ []) ∷ (Other ∷ []) ∷ (Plain ∷ []) ∷ [] ∷ [])
        ≡ Some (Null ∷ []) ∷ Some (an_a ∷ Other ∷ []) ∷ None ∷ None ∷ None ∷ [] }
    ensures set_any { map (λ v. kinds_after_op kinded method_f (op.Set v) (Other ∷ [])) variables
        ≡ None ∷ None ∷ Some (Other ∷ []) ∷ Some (Other ∷ []) ∷ None ∷ [] }
{}

/// The kinds after a call, a return and a throw.
pub fn kinds_of_calls()
    ensures call { after_each (op.Call f 3) ((Plain ∷ Null ∷ an_a ∷ Other ∷ []) ∷ (Other ∷ Opaque ∷ Null ∷ []) ∷ [])
        ≡ Some (an_a ∷ Other ∷ []) ∷ Some (an_a ∷ []) ∷ [] }
    ensures argument_refused { after_each (op.Call f 3) ((Plain ∷ Other ∷ an_a ∷ []) ∷ (an_a ∷ Plain ∷ an_a ∷ []) ∷ [])
        ≡ None ∷ None ∷ [] }
    ensures receiver_refused { after_each (op.Call f 3) ((Plain ∷ Null ∷ Other ∷ []) ∷ (Plain ∷ Null ∷ []) ∷ [])
        ≡ None ∷ None ∷ [] }
    ensures of_class { after_each (op.Call g 1) ((Null ∷ Null ∷ []) ∷ (the_a ∷ []) ∷ [])
        ≡ Some (Plain ∷ Null ∷ []) ∷ None ∷ [] }
    ensures no_method { after_each (op.Call no_method 0) ([] ∷ []) ≡ None ∷ [] }
    ensures unread { after_each (op.Unread no_method 1) ((Other ∷ Null ∷ []) ∷ [] ∷ [])
        ≡ Some (Opaque ∷ Null ∷ []) ∷ None ∷ [] }
    ensures returned { after_each op.Ret ((Null ∷ Other ∷ []) ∷ (an_a ∷ []) ∷ (Other ∷ []) ∷ (a_b ∷ []) ∷ [] ∷ [])
        ≡ Some (Other ∷ []) ∷ Some [] ∷ None ∷ None ∷ None ∷ [] }
    ensures thrown { after_each op.Throw ((Null ∷ Other ∷ []) ∷ [] ∷ []) ≡ Some (Null ∷ Other ∷ []) ∷ Some [] ∷ [] }
{}

/// The kinds where two ways meet.
pub fn joined_kinds()
    ensures equal { joined_stack (Plain ∷ an_a ∷ the_a ∷ Null ∷ Opaque ∷ Other ∷ [])
        (Plain ∷ an_a ∷ the_a ∷ Null ∷ Opaque ∷ Other ∷ [])
        ≡ Some (Plain ∷ an_a ∷ the_a ∷ Null ∷ Opaque ∷ Other ∷ []) }
    ensures first_stays { joined_stack (an_a ∷ an_a ∷ Null ∷ Null ∷ Opaque ∷ Opaque ∷ [])
        (Null ∷ Opaque ∷ Opaque ∷ an_a ∷ an_a ∷ Null ∷ [])
        ≡ Some (an_a ∷ an_a ∷ Null ∷ an_a ∷ an_a ∷ Null ∷ []) }
    ensures other { joined_stack (an_a ∷ an_a ∷ an_a ∷ an_a ∷ []) (a_b ∷ Other ∷ the_a ∷ Plain ∷ [])
        ≡ Some (Other ∷ Other ∷ Other ∷ Other ∷ []) }
    ensures of_others { joined_stack (Other ∷ Other ∷ Plain ∷ Plain ∷ the_a ∷ the_a ∷ [])
        (Null ∷ Opaque ∷ Null ∷ Opaque ∷ the_b ∷ Null ∷ [])
        ≡ Some (Other ∷ Other ∷ Other ∷ Other ∷ Other ∷ Other ∷ []) }
    ensures heights { joined_stack (Null ∷ []) [] ≡ None }
{}

/// The kinds after code that is more than one operation, and methods that are kinded.
pub fn kinds_of_code()
    ensures either { after_code (Choice (step 0 (at 1 1) op.PushNull) (step 1 (at 1 1) (op.Push this))) []
        ≡ Some (an_a ∷ []) }
    ensures heights { after_code (Choice (step 0 (at 1 1) op.PushNull) Skip) [] ≡ None }
    ensures repeated { after_code (Loop (Seq (step 0 (at 1 1) op.Dup) (step 1 (at 1 1) op.Drop))) (Null ∷ [])
        ≡ Some (Null ∷ []) }
    ensures changed { after_code (Loop (Seq (step 0 (at 1 1) op.Drop) (step 1 (at 1 1) op.PushPrim))) (Null ∷ [])
        ≡ None }
    ensures held { after_code (own_sync (at 1 1) (step 0 (at 1 1) op.PushNull)) (Other ∷ Plain ∷ [])
        ≡ Some (Null ∷ Plain ∷ []) }
    ensures no_lock { after_code (own_sync (at 1 1) Skip) [] ≡ None }
    ensures methods { are_kinded kinded ≡ true }
    ensures no_parameter { are_kinded (with_variables (types.Declared a ∷ types.Declared a ∷ [])) ≡ false }
    ensures other_parameter { are_kinded (with_variables (types.Declared a ∷ types.Declared b ∷ types.Plain ∷ []))
        ≡ false }
    ensures other_receiver { are_kinded (with_variables (types.Other ∷ types.Declared a ∷ types.Plain ∷ [])) ≡ false }
{}
