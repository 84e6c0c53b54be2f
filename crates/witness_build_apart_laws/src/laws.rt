//! Laws: a leg goes alike over two states that read alike wherever it reads.
ghost use Rattle.std.specs.Prelude.{◌≡◌, ℕ, ◌+◌, List, [], ◌∷◌, ◌++◌, Bool, false, true, Some};
ghost use Rattle.std.specs.List.{list_any};
ghost use Rattle.racer_base.specs.declared.ids.FieldId.{FieldId};
ghost use Rattle.racer_base.specs.declared.ids.MethodId.{MethodId};
ghost use Rattle.core_code.specs.Core.{Core};
ghost use Rattle.core_semantics.specs.declared.answer.Turn.{Turn};
ghost use Rattle.core_semantics.specs.declared.object.Object.{Object};
ghost use Rattle.core_semantics.specs.declared.object.Start.TheVariants.{All};
ghost use Rattle.core_semantics.specs.Behind.{begun_behind};
ghost use Rattle.core_semantics.specs.Changes.{Spot, is_plain_kind};
ghost use Rattle.core_semantics.specs.Legs.{Leg};
ghost use Rattle.core_semantics.specs.Runs.{begun, place};
ghost use Rattle.core_semantics.specs.State.{State, other_of, thread_of};
ghost use Rattle.core_semantics.specs.Steps.{kind_of};
ghost use Rattle.core_ways.specs.Ends.{Past, Stopped, leg_end, leg_reads};
ghost use Rattle.core_ways.specs.Gathered.{gathered};
ghost use Rattle.core_ways.specs.Marks.{Confirmed, blocked_at, mark_by_run};
ghost use Rattle.witness_build_apart_laws.specs.Apart.{AreAlike, AreEndsAlike, DoesAvoid};
ghost use Rattle.witness_build_apart_laws.specs.Goes.{GoingAlike, leg_goes, nothing};
ghost use Rattle.witness_build_apart_laws.specs.Looks.{leg_looks};
ghost use Rattle.witness_build_apart_laws.specs.Starts.{entry_of};
ghost use Rattle.witness_build_apart_laws.specs.Stores.{ArePlain, HasStored, is_spot, leg_stores, stored_both};
ghost use Rattle.witness_build_apart_laws.specs.Walked.{AreWalked};

/// A leg that reads none of these fields goes alike from two states that differ in them alone.
pub fn legs_go_apart()
    ensures ends { (core : Core) (but : Object → FieldId → Bool) (t n : ℕ) (turns : List Turn) (a b : State) →
        AreAlike core but t a b → DoesAvoid core but t n turns a →
        AreEndsAlike core but t (leg_end core t n turns a) (leg_end core t n turns b) }
    ensures reads { (core : Core) (but : Object → FieldId → Bool) (t n : ℕ) (turns : List Turn) (a b : State) →
        AreAlike core but t a b → DoesAvoid core but t n turns a →
        leg_reads core t n turns a ≡ leg_reads core t n turns b }
{}

/// A leg that goes on from where another has come with all of its turns used is one leg.
pub fn legs_go_on()
    ensures ends { (core : Core) (t m n : ℕ) (first rest : List Turn) (s to : State) →
        leg_goes core t m first s ≡ Some (to, []) →
        leg_end core t (m + n) (first ++ rest) s ≡ leg_end core t n rest to }
    ensures reads { (core : Core) (t m n : ℕ) (first rest : List Turn) (s to : State) →
        leg_goes core t m first s ≡ Some (to, []) →
        leg_reads core t (m + n) (first ++ rest) s ≡ leg_reads core t m first s ++ leg_reads core t n rest to }
    ensures goes { (core : Core) (t m n : ℕ) (first rest : List Turn) (s to : State) →
        leg_goes core t m first s ≡ Some (to, []) →
        leg_goes core t (m + n) (first ++ rest) s ≡ leg_goes core t n rest to }
    ensures looks { (core : Core) (t m n : ℕ) (first rest : List Turn) (s to : State) →
        leg_goes core t m first s ≡ Some (to, []) →
        leg_looks core t (m + n) (first ++ rest) s ≡ leg_looks core t m first s ++ leg_looks core t n rest to }
    ensures stores { (core : Core) (t m n : ℕ) (first rest : List Turn) (s to : State) →
        leg_goes core t m first s ≡ Some (to, []) → leg_stores core t (m + n) (first ++ rest) s
        ≡ stored_both (leg_stores core t m first s) (leg_stores core t n rest to) }
{}

/// What a leg stores: what it may have changed is read in these fields alone.
pub fn legs_store_little()
    ensures { (core : Core) (t n : ℕ) (turns : List Turn) (s to : State) (left : List Turn) (all : List Spot) →
        ArePlain core s.store → leg_goes core t n turns s ≡ Some (to, left) →
        leg_stores core t n turns s ≡ Some all →
        HasStored core all s.store to.store × (other_of to t ≡ other_of s t) }
{}

/// What is said of two legs of which the second reads no field that the first stored in: what both do alone.
pub fn marks_of_legs_apart()
    ensures confirmed { (core : Core) (f g : Leg) (s to end : State) (left : List Turn) (spots : List Spot) →
        f.thread + g.thread ≡ 1 → (thread_of s f.thread).locks ≡ [] → (thread_of to f.thread).locks ≡ [] →
        ArePlain core s.store →
        leg_goes core f.thread f.steps f.turns s ≡ Some (to, left) →
        leg_stores core f.thread f.steps f.turns s ≡ Some spots →
        DoesAvoid core (λ o x. list_any (is_spot o x) spots) g.thread g.steps g.turns s →
        leg_end core g.thread g.steps g.turns s ≡ Past end →
        Confirmed (gathered (gathered [] (leg_reads core f.thread f.steps f.turns s))
        (leg_reads core g.thread g.steps g.turns s)) (f ∷ g ∷ []) ≡ mark_by_run core (f ∷ g ∷ []) s }
    ensures blocked { (core : Core) (f g : Leg) (s to at : State) (left : List Turn) (spots : List Spot) →
        f.thread + g.thread ≡ 1 → (thread_of s f.thread).locks ≡ [] → (thread_of to f.thread).locks ≡ [] →
        ArePlain core s.store →
        leg_goes core f.thread f.steps f.turns s ≡ Some (to, left) →
        leg_stores core f.thread f.steps f.turns s ≡ Some spots →
        DoesAvoid core (λ o x. list_any (is_spot o x) spots) g.thread g.steps g.turns s →
        leg_end core g.thread g.steps g.turns s ≡ Stopped at →
        blocked_at g.thread (place at g.thread) ≡ mark_by_run core (f ∷ g ∷ []) s }
{}

/// A leg from two states in which its thread, and what is stored, are the same.
pub fn legs_begin_anywhere()
    ensures goes { (core : Core) (t n : ℕ) (turns : List Turn) (a b : State) → AreAlike core nothing t a b →
        GoingAlike core nothing t (leg_goes core t n turns a) (leg_goes core t n turns b) }
    ensures stores { (core : Core) (t n : ℕ) (turns : List Turn) (a b : State) → AreAlike core nothing t a b →
        leg_stores core t n turns a ≡ leg_stores core t n turns b }
    ensures avoids { (core : Core) (t : ℕ) (but : Object → FieldId → Bool) (n : ℕ) (turns : List Turn) (a b : State) →
        AreAlike core nothing t a b → DoesAvoid core but t n turns a → DoesAvoid core but t n turns b }
{}

/// A leg that looks at none of these fields avoids them, where none of them is of a primitive type.
pub fn looks_tell_what_is_avoided()
    ensures { (core : Core) (but : Object → FieldId → Bool) (t n : ℕ) (turns : List Turn) (s : State) →
        ((o : Object) (f : FieldId) → is_plain_kind (kind_of core f) ≡ true → but o f ≡ false) →
        list_any (λ (x : Spot). but x.0 x.1) (leg_looks core t n turns s) ≡ false → DoesAvoid core but t n turns s }
{}

/// The fields that a leg is said to store in are of no primitive type.
pub fn no_plain_field_is_noted()
    ensures { (core : Core) (t n : ℕ) (turns : List Turn) (s : State) (all : List Spot) (o : Object) (f : FieldId) →
        leg_stores core t n turns s ≡ Some all → is_plain_kind (kind_of core f) ≡ true →
        list_any (is_spot o f) all ≡ false }
{}

/// What two legs that are gone alone, each from the entry of its method, say of the mark by a run: that the first
/// cannot be made; and where the second is apart from the first, that the second cannot be made, or that both can be.
pub fn legs_gone_alone_tell_marks()
    ensures first { (core : Core) (f g : Leg) (m m1 m2 : MethodId) (at : State) → m ≡ entry_of f.thread m1 m2 →
        leg_end core f.thread f.steps f.turns (begun core m m All) ≡ Stopped at →
        blocked_at f.thread (place at f.thread)
        ≡ mark_by_run core (f ∷ g ∷ []) (begun core m1 m2 All) }
    ensures second { (core : Core) (f g : Leg) (m n m1 m2 : MethodId) → AreWalked core f g m n →
        m ≡ entry_of f.thread m1 m2 → n ≡ entry_of g.thread m1 m2 → (at : State) →
        leg_end core g.thread g.steps g.turns (begun core n n All) ≡ Stopped at →
        blocked_at g.thread (place at g.thread)
        ≡ mark_by_run core (f ∷ g ∷ []) (begun core m1 m2 All) }
    ensures both { (core : Core) (f g : Leg) (m n m1 m2 : MethodId) → AreWalked core f g m n →
        m ≡ entry_of f.thread m1 m2 → n ≡ entry_of g.thread m1 m2 → (end : State) →
        leg_end core g.thread g.steps g.turns (begun core n n All) ≡ Past end →
        Confirmed (gathered (gathered [] (leg_reads core f.thread f.steps f.turns (begun core m m All)))
        (leg_reads core g.thread g.steps g.turns (begun core n n All))) (f ∷ g ∷ [])
        ≡ mark_by_run core (f ∷ g ∷ []) (begun core m1 m2 All) }
{}

/// What a second leg says of the mark by a run, behind what a first one stored that is gone alone from the entry of its
/// method, to where it holds no monitor.
pub fn legs_behind_others_tell_marks()
    ensures blocked { (core : Core) (f g : Leg) (m n m1 m2 : MethodId) (to : State) (left : List Turn) →
        f.thread + g.thread ≡ 1 → m ≡ entry_of f.thread m1 m2 → n ≡ entry_of g.thread m1 m2 →
        leg_goes core f.thread f.steps f.turns (begun core m m All) ≡ Some (to, left) →
        (thread_of to f.thread).locks ≡ [] → (at : State) →
        leg_end core g.thread g.steps g.turns (begun_behind core n n to.store) ≡ Stopped at →
        blocked_at g.thread (place at g.thread)
        ≡ mark_by_run core (f ∷ g ∷ []) (begun core m1 m2 All) }
    ensures confirmed { (core : Core) (f g : Leg) (m n m1 m2 : MethodId) (to : State) (left : List Turn) →
        f.thread + g.thread ≡ 1 → m ≡ entry_of f.thread m1 m2 → n ≡ entry_of g.thread m1 m2 →
        leg_goes core f.thread f.steps f.turns (begun core m m All) ≡ Some (to, left) →
        (thread_of to f.thread).locks ≡ [] → (end : State) →
        leg_end core g.thread g.steps g.turns (begun_behind core n n to.store) ≡ Past end →
        Confirmed (gathered (gathered [] (leg_reads core f.thread f.steps f.turns (begun core m m All)))
        (leg_reads core g.thread g.steps g.turns (begun_behind core n n to.store))) (f ∷ g ∷ [])
        ≡ mark_by_run core (f ∷ g ∷ []) (begun core m1 m2 All) }
{}
