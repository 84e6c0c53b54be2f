//! Laws of loops.
ghost use Rattle.std.specs.Prelude.{◌≡◌, ℕ, length, Some};
ghost use Rattle.owner_domain.specs.declared.value.State.{State};
ghost use Rattle.std.specs.Prelude.{Bool};
ghost use Rattle.core_code.specs.Tree.{Tree};
ghost use Rattle.access_domain.specs.FlowContext.{FlowContext};
ghost use Rattle.access_domain.specs.Flow.{flow};
ghost use Rattle.core_code.specs.Facts.{height_after};
ghost use Rattle.transfer_loops.specs.Resuming.{Heads, no_heads, resumed, IsSound};
ghost use Rattle.transfer_loops.specs.Order.{IsMonotone, BelowState};

/// From a state that says less, code ends in one that says less.
pub fn flow_is_monotone()
    ensures { (g : FlowContext) (code : Tree) (locked : Bool) → IsMonotone (λ s. (flow g code locked s).next) }
{}

/// Loops in a loop may go on from the state in which they were left, as long as the states in which the code begins
/// say less and less: the end is that of the stated rounds. At first no loop was left.
pub fn loops_may_go_on()
    ensures first { (g : FlowContext) (code : Tree) (locked : Bool) (k : ℕ) (s : State) →
        IsSound g code locked k no_heads s }
    ensures exact { (g : FlowContext) (code : Tree) (locked : Bool) (k m : ℕ) (h : Heads) (s : State) →
        height_after code (length s.stack) ≡ Some m → IsSound g code locked k h s →
        ((resumed g code locked k h s).0 ≡ (flow g code locked s).next)
        × IsSound g code locked k (resumed g code locked k h s).1 s }
    ensures later { (g : FlowContext) (code : Tree) (locked : Bool) (k : ℕ) (h : Heads) (s t : State) → BelowState s t →
        IsSound g code locked k h s → IsSound g code locked k h t }
{}
