//! What a way is made of.
use core_semantics::Turn;
use racer_base::{MethodId, Place};

/// A part of a way through one method.
#[derive(Clone, Copy)]
pub enum WayPart {
    /// One step that takes no turn.
    Step,
    /// One step at a choice or a loop, with the turn that it takes.
    Branched(Turn),
    /// A call of this method, and all of its steps up to its first return.
    Passed(MethodId),
    /// A call at this place of a method that is not analysed.
    Unread(Place),
}
