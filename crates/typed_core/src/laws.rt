//! Laws of loops, and values of the definitions on small code, computed from them.
ghost use Rattle.std.specs.Prelude.{◌≡◌, ℕ, true, false, [], ◌∷◌, Some, None, length, map};
ghost use Rattle.racer_base.specs.declared.ids.Kind.TheVariants as types;
ghost use Rattle.core_code.specs.declared.code.Op.TheVariants as op;
ghost use Rattle.core_code.specs.Kinded.{a, b};
ghost use Rattle.core_code.specs.Pair.{at, own_sync, step};
ghost use Rattle.core_code.specs.Core.{Core, Method};
ghost use Rattle.core_code.specs.Facts.{height_after};
ghost use Rattle.core_code.specs.Tree.{Choice, Seq, Skip, Tree};
ghost use Rattle.typed_core.specs.declared.answers.Answer.TheVariants.{Typed, Untyped};
ghost use Rattle.typed_core.specs.declared.doubts.Doubt.TheVariants.{Always, IfRead};
ghost use Rattle.typed_core.specs.declared.kinds.TypedKind.TheVariants.{Plain, Object, Class, Other, Unset};
ghost use Rattle.typed_core.specs.declared.states.KindState.{KindState};
ghost use Rattle.typed_core.specs.Check.{check, round_next};
ghost use Rattle.typed_core.specs.Examples.{behind, checked, counts, dinner, doubts_with, field, here, lost_in_a_loop};
ghost use Rattle.typed_core.specs.Examples.{null_base, on_stack, the_a, var};
ghost use Rattle.typed_core.specs.Kinds.{fits, joined_kind};
ghost use Rattle.typed_core.specs.Resuming.{BelowState, Heads, IsExact, IsMonotone, IsSound, last_of, no_heads, resumed};
ghost use Rattle.typed_core.specs.Typings.{typings};

/// Where two ways meet equal kinds stay; objects, classes and others give `Other`, and all else gives `Unset`.
pub fn kinds_where_ways_meet()
    ensures equal { map (λ k. joined_kind k k) (Plain ∷ the_a ∷ Class a ∷ Other ∷ Unset ∷ [])
        ≡ Plain ∷ the_a ∷ Class a ∷ Other ∷ Unset ∷ [] }
    ensures references { map (joined_kind the_a) (Object b ∷ Class a ∷ Other ∷ [])
        ≡ Other ∷ Other ∷ Other ∷ [] }
    ensures classes { map (joined_kind (Class a)) (Class b ∷ the_a ∷ Other ∷ Plain ∷ Unset ∷ [])
        ≡ Other ∷ Other ∷ Other ∷ Unset ∷ Unset ∷ [] }
    ensures others { map (joined_kind Other) (the_a ∷ Class a ∷ Plain ∷ Unset ∷ [])
        ≡ Other ∷ Other ∷ Unset ∷ Unset ∷ [] }
    ensures plain { map (joined_kind Plain) (the_a ∷ Class a ∷ Other ∷ Unset ∷ [])
        ≡ Unset ∷ Unset ∷ Unset ∷ Unset ∷ [] }
    ensures unset { map (joined_kind Unset) (Plain ∷ the_a ∷ Class a ∷ Other ∷ [])
        ≡ Unset ∷ Unset ∷ Unset ∷ Unset ∷ [] }
{}

/// What fits where a class, another type or a primitive type stands.
pub fn what_fits()
    ensures class { map (fits (types.Declared a)) (Plain ∷ the_a ∷ Object b ∷ Class a ∷ Other ∷ Unset ∷ [])
        ≡ false ∷ true ∷ false ∷ false ∷ false ∷ false ∷ [] }
    ensures other { map (fits types.Other) (Plain ∷ the_a ∷ Class a ∷ Other ∷ Unset ∷ [])
        ≡ false ∷ true ∷ true ∷ true ∷ false ∷ [] }
    ensures plain { map (fits types.Plain) (Plain ∷ the_a ∷ Class a ∷ Other ∷ Unset ∷ [])
        ≡ true ∷ true ∷ true ∷ true ∷ true ∷ [] }
{}

/// How many places fail at an operation, with each of these stacks: one where its need is not met.
pub fn needs_of_operations()
    ensures read { counts (op.Get (field 0)) ((the_a ∷ []) ∷ (Object b ∷ []) ∷ (Class a ∷ []) ∷ (Other ∷ []) ∷
        (Unset ∷ []) ∷ (Plain ∷ []) ∷ []) ≡ 0 ∷ 1 ∷ 1 ∷ 1 ∷ 1 ∷ 1 ∷ [] }
    ensures read_of_class { counts (op.Get (field 1)) ((Class a ∷ []) ∷ (Class b ∷ []) ∷ (the_a ∷ []) ∷ [])
        ≡ 0 ∷ 1 ∷ 1 ∷ [] }
    ensures store { counts (op.Put (field 0)) ((the_a ∷ the_a ∷ []) ∷ (Unset ∷ the_a ∷ []) ∷ (Other ∷ the_a ∷ []) ∷
        (the_a ∷ Unset ∷ []) ∷ []) ≡ 0 ∷ 1 ∷ 1 ∷ 1 ∷ [] }
    ensures store_of_other { counts (op.Put (field 2)) ((Object b ∷ the_a ∷ []) ∷ (Plain ∷ the_a ∷ []) ∷
        (Unset ∷ the_a ∷ []) ∷ (Class b ∷ the_a ∷ []) ∷ []) ≡ 0 ∷ 1 ∷ 1 ∷ 0 ∷ [] }
    ensures store_of_plain { counts (op.Put (field 1)) ((Unset ∷ Class a ∷ []) ∷ (Plain ∷ the_a ∷ []) ∷ [])
        ≡ 0 ∷ 1 ∷ [] }
    ensures call { counts (op.Call (record { 0 = 0 }) 3) ((Unset ∷ the_a ∷ the_a ∷ []) ∷ (Plain ∷ Unset ∷ the_a ∷ []) ∷
        (Plain ∷ the_a ∷ Unset ∷ []) ∷ (Plain ∷ the_a ∷ Object b ∷ []) ∷ []) ≡ 0 ∷ 1 ∷ 1 ∷ 1 ∷ [] }
    ensures call_of_class { counts (op.Call (record { 0 = 1 }) 1) ((the_a ∷ []) ∷ (Unset ∷ []) ∷ (Plain ∷ []) ∷ [])
        ≡ 0 ∷ 1 ∷ 1 ∷ [] }
    ensures no_return { doubts_with (op.Call (record { 0 = 2 }) 0) ([] ∷ []) ≡ (Always here ∷ []) ∷ [] }
    ensures unread { doubts_with (op.Unread (record { 0 = 1 }) 1) ((the_a ∷ []) ∷ []) ≡ (Always here ∷ []) ∷ [] }
    ensures returned { counts op.Ret ((the_a ∷ []) ∷ (Unset ∷ []) ∷ (Other ∷ []) ∷ []) ≡ 0 ∷ 1 ∷ 1 ∷ [] }
    ensures new { doubts_with (op.New b) ([] ∷ []) ≡ (IfRead b here ∷ []) ∷ [] }
    ensures thrown { counts op.Throw ([] ∷ []) ≡ 0 ∷ [] }
{}

/// The kinds behind operations.
pub fn kinds_behind_operations()
    ensures values { map (λ o. behind o []) (op.PushPrim ∷ op.PushNull ∷ op.New b ∷ op.PushClass b ∷ [])
        ≡ map (λ k. Some (on_stack (k ∷ []))) (Plain ∷ Unset ∷ Object b ∷ Class b ∷ []) }
    ensures fetched { map (λ f. behind (op.Get (field f)) (the_a ∷ [])) (0 ∷ 1 ∷ 2 ∷ [])
        ≡ map (λ k. Some (on_stack (k ∷ []))) (the_a ∷ Plain ∷ Other ∷ []) }
    ensures outside { behind (op.Outside 2) (Plain ∷ Unset ∷ the_a ∷ []) ≡ Some (on_stack (Other ∷ the_a ∷ [])) }
    ensures computed { behind (op.Prim 2) (Plain ∷ Unset ∷ the_a ∷ []) ≡ Some (on_stack (Plain ∷ the_a ∷ [])) }
    ensures stored { behind (op.Put (field 0)) (Unset ∷ the_a ∷ Plain ∷ []) ≡ Some (on_stack (Unset ∷ Plain ∷ [])) }
    ensures called { behind (op.Call (record { 0 = 0 }) 3) (Plain ∷ Unset ∷ the_a ∷ Plain ∷ [])
        ≡ Some (on_stack (the_a ∷ Plain ∷ [])) }
    ensures unread { behind (op.Unread (record { 0 = 1 }) 1) (Plain ∷ []) ≡ Some (on_stack (Other ∷ [])) }
    ensures none { map (λ o. behind o (the_a ∷ [])) (op.Ret ∷ op.Throw ∷ []) ≡ None ∷ None ∷ [] }
{}

/// What may fail in code: in a loop with its last kinds; at a lock before its body; and behind a return only what fails
/// whatever the kinds.
pub fn code_that_is_checked()
    ensures second_round { checked lost_in_a_loop (Some (record { vars = the_a ∷ []; stack = [] }))
        ≡ record { next = Some (record { vars = Unset ∷ []; stack = [] }); doubts = Always (at 1 2) ∷ [] } }
    ensures lock { (checked (own_sync (at 1 1) (step 0 (at 1 2) (op.Get (field 0)))) (Some (on_stack (Unset ∷ Plain ∷ [])))).doubts
        ≡ Always (at 1 1) ∷ Always (at 1 2) ∷ [] }
    ensures behind { (checked (Seq (step 0 (at 1 1) op.Throw) (Seq (step 1 (at 1 2) (op.Get (field 0)))
        (Seq (step 2 (at 1 3) (op.New a)) (step 3 (at 1 4) (op.Unread (record { 0 = 1 }) 0)))))
        (Some (on_stack []))).doubts ≡ IfRead a (at 1 3) ∷ Always (at 1 4) ∷ [] }
    ensures one_side { (checked (Choice (step 0 (at 1 1) op.Throw) Skip) (Some (on_stack (the_a ∷ [])))).next
        ≡ Some (on_stack (the_a ∷ [])) }
{}

/// Two folders: a class that is typed, and one whose method reads a field of null.
pub fn typings_of_folders()
    ensures typed { typings dinner ≡ record { class = record { 0 = 0 }; answer = Typed } ∷ [] }
    ensures untyped { typings null_base ≡ record { class = record { 0 = 1 }; answer = Untyped (at 5 28) } ∷ [] }
{}

/// From kinds that say less, code ends with kinds that say less.
pub fn check_is_monotone()
    ensures { (core : Core) (method : Method) (code : Tree) →
        IsMonotone (λ s. (check core method code (Some s)).next) }
{}

/// The last kinds of a loop are settled: one round more leaves them as they are.
pub fn loops_settle()
    ensures { (core : Core) (method : Method) (body : Tree) (s : KindState) →
        height_after body (length s.stack) ≡ Some (length s.stack) →
        round_next (last_of core method body s) (check core method body (Some (last_of core method body s))).next
        ≡ last_of core method body s }
{}

/// Loops in a loop may go on from the kinds in which they were left, as long as the kinds with which the code begins say
/// less and less: the end is that of the stated rounds, and the same places may fail. At first no loop was left.
pub fn loops_may_go_on()
    ensures first { (core : Core) (method : Method) (code : Tree) (k : ℕ) (s : KindState) →
        IsSound core method code k no_heads s }
    ensures exact { (core : Core) (method : Method) (code : Tree) (k m : ℕ) (h : Heads) (s : KindState) →
        height_after code (length s.stack) ≡ Some m → IsSound core method code k h s →
        IsExact (check core method code (Some s)) (resumed core method code k h (Some s))
        × IsSound core method code k (resumed core method code k h (Some s)).heads s }
    ensures later { (core : Core) (method : Method) (code : Tree) (k : ℕ) (h : Heads) (s t : KindState) →
        BelowState s t → IsSound core method code k h s → IsSound core method code k h t }
{}
