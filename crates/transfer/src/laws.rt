//! Laws of the analysis of a method.
ghost use Rattle.std.specs.Prelude.{◌≡◌, ◌+◌, ℕ, [], Some, option_map, true};
ghost use Rattle.std.specs.FinSet as set;
ghost use Rattle.std.specs.List.{Contains};
ghost use Rattle.racer_base.specs.declared.ids.MethodId.{MethodId};
ghost use Rattle.access_paths.specs.Order.{path_cmp};
ghost use Rattle.owner_domain.specs.declared.value.State.{State};
ghost use Rattle.core_code.specs.Calls.{calls_in, is_analysed};
ghost use Rattle.core_code.specs.Core.{Core, Method};
ghost use Rattle.core_code.specs.Program.{core};
ghost use Rattle.core_code.specs.declared.program.Program.{Program};
ghost use Rattle.access_domain.specs.Findings.{Table, outcome_from};
ghost use Rattle.access_domain.specs.Flow.{rounds};
ghost use Rattle.access_domain.specs.Operations.{Effects};
ghost use Rattle.access_domain.specs.Summaries.{known_given};
ghost use Rattle.access_domain.specs.declared.summary.Outcome.{Outcome};
ghost use Rattle.access_domain.specs.Summaries.{outcome_of};
ghost use Rattle.transfer_loops.specs.Rounds.{IsSettled};
ghost use Rattle.transfer_ties.specs.declared.partners.Ties.{Ties};
ghost use Rattle.transfer_ties.specs.Again.{again, is_as_before};
ghost use Rattle.transfer_ties.specs.Outcomes.{same_outcome, ties_outcomes};
ghost use Rattle.transfer_ties.specs.Partners.{AreTies, renumbered};

/// The outcome of a method depends on its code and on the outcomes of the methods that it calls, and on nothing else
/// that is known of methods.
pub fn outcomes_depend_on_callees()
    ensures { (core : Core) (t u : Table) (m : Method) →
        ((n : MethodId) → Contains (calls_in m.code) n →
        option_map outcome_from (t n) ≡ option_map outcome_from (u n)) →
        outcome_from (known_given core t m) ≡ outcome_from (known_given core u m) }
{}

/// A loop may end at the first round that leaves its state as it was. All rounds behind that one end in the same state,
/// and the paths that they lose are those that it lost itself.
pub fn loops_may_end_early()
    ensures state { (body : State → Effects) (s : State) (k n : ℕ) → IsSettled body (rounds body k s).0 →
        (rounds body (k + n) s).0 ≡ (rounds body k s).0 }
    ensures lost { (body : State → Effects) (s : State) (k n : ℕ) → IsSettled body (rounds body k s).0 →
        set.from_list {R = path_cmp} (rounds body (k + 1 + n) s).1
        ≡ set.from_list {R = path_cmp} (rounds body (k + 1) s).1 }
{}

/// A method of a newer program that is as it was in an older one has the outcome that it had, by names: what is
/// analysed again are the others. Of two programs this needs what each program keeps, and no more: one may be any edit
/// of the other, or another program.
pub fn what_is_as_before_has_its_outcome()
    ensures { (p q : Program) (m n : MethodId) → is_as_before (core p) (core q) m n ≡ true →
        ties_outcomes (core p) (core q) m n ≡ true }
{}

/// That outcome is the old one with the numbers of the newer program, which are given by the partners of classes and
/// fields: by names an outcome is the same as just one.
pub fn it_is_the_old_one_renumbered()
    ensures renumbered { (p q : Core) (ties : Ties) (a b : Outcome) → AreTies p q ties →
        same_outcome p q a b ≡ true → renumbered ties a ≡ Some b }
    ensures outcome { (p q : Program) (ties : Ties) (m n : MethodId) (a : Outcome) → AreTies (core p) (core q) ties →
        is_as_before (core p) (core q) m n ≡ true → outcome_of (core p) m ≡ Some a →
        renumbered ties a ≡ outcome_of (core q) n }
{
    what_is_as_before_has_its_outcome();
}

/// Behind itself nothing of a program is analysed again.
pub fn nothing_is_again_behind_itself()
    ensures as_before { (p : Program) (m : MethodId) → is_analysed (core p) m ≡ true →
        is_as_before (core p) (core p) m m ≡ true }
    ensures none { (p : Program) → again (core p) (core p) ≡ [] }
{
    what_is_as_before_has_its_outcome();
}
