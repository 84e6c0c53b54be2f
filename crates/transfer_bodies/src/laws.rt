//! Laws of code that sets no variable and does not return.
ghost use Rattle.std.specs.Prelude.{◌≡◌, Bool, true, Some, []};
ghost use Rattle.owner_domain.specs.declared.value.State.{State};
ghost use Rattle.core_code.specs.Tree.{Tree};
ghost use Rattle.core_code.specs.Facts.{height_after};
ghost use Rattle.access_domain.specs.FlowContext.{FlowContext};
ghost use Rattle.access_domain.specs.Flow.{flow};
ghost use Rattle.transfer_bodies.specs.Still.{is_still};

/// Code that sets no variable and does not return, and that begins and ends with an empty stack, ends in the state in
/// which it began.
pub fn still_code_ends_as_it_began()
    ensures { (g : FlowContext) (code : Tree) (locked : Bool) (s : State) → is_still code ≡ true →
        height_after code 0 ≡ Some 0 → s.stack ≡ [] → (flow g code locked s).next ≡ Some s }
{}
