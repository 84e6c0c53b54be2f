//! The code that a frame has still to do.
ghost use Rattle.std.specs.Prelude.{◌≡◌, ◌+◌, ◌<◌, List, slice_get, IfOk};
ghost use Rattle.core_code.specs.Tree.{tree_of};
ghost use Rattle.core_semantics.specs.State.{Todo, before};
ghost use Rattle.core_semantics.specs.Weights.{part_weight, tree_weight, unfolded_weight};
ghost use Rattle.core_semantics.specs.View.{todo_of, before_part, before_unfolded, IsNext};

use crate::stack::Stack;
use core_code::{Code, LockKind, Op};
use racer_base::{Memory, Place};

/// A part of what a frame has still to do.
#[derive(Clone, Copy)]
pub(crate) enum Pending<'a> {
    One(&'a Code),
    /// These in sequence.
    Parts(&'a [Code]),
    /// The end of the innermost lock.
    Unlock,
}

/// The next step of a frame.
#[derive(Clone, Copy)]
pub(crate) enum NextStep<'a> {
    Op(Place, Op),
    Choice(&'a Code, &'a Code),
    /// A loop with this body.
    Loop(&'a Code),
    /// A lock round this body.
    Sync(Place, LockKind, &'a Code),
    Unlock,
}

/// What a part is: the next step, or other parts that are nearer to it.
#[derive(Clone, Copy)]
enum Unfolded<'a> {
    Next(NextStep<'a>),
    Nothing,
    One(Pending<'a>),
    Two(Pending<'a>, Pending<'a>),
}

/// The next step that code is, or its parts.
fn unfold_code<'a>(code: &'a Code) -> Unfolded<'a>
    ensures same { (todo : List Todo) → before (tree_of code.now) todo ≡ before_unfolded result todo }
    ensures smaller { unfolded_weight result < 1 + tree_weight (tree_of code.now) }
{
    match code {
        Code::Op(_, place, op) => Unfolded::Next(NextStep::Op(*place, *op)),
        Code::Seq(parts) => Unfolded::One(Pending::Parts(parts.as_slice())),
        Code::Choice(left, right) => Unfolded::Next(NextStep::Choice(left, right)),
        Code::Loop(body) => Unfolded::Next(NextStep::Loop(body)),
        Code::Sync(place, kind, body) => Unfolded::Next(NextStep::Sync(*place, *kind, body)),
    }
}

/// The next step that a part is, or what it is made of.
fn unfold<'a>(part: Pending<'a>) -> Unfolded<'a>
    ensures same { (todo : List Todo) → before_part part.entry todo ≡ before_unfolded result todo }
    ensures smaller { unfolded_weight result < part_weight part.entry }
{
    match part {
        Pending::One(code) => unfold_code(code),
        Pending::Parts(parts) => match parts.split_first() {
            Some((first, rest)) => Unfolded::Two(Pending::One(first), Pending::Parts(rest)),
            None => Unfolded::Nothing,
        },
        Pending::Unlock => Unfolded::Next(NextStep::Unlock),
    }
}

/// The first part.
fn first<'a>(pending: &Stack<Pending<'a>>) -> Option<Pending<'a>>
    ensures { result ≡ slice_get pending.now 0 }
{
    pending.get(0).copied()
}

/// Unfolds the parts until the first is the next step, and gives that. The steps stay.
pub(crate) fn unfold_next<'a>(
    pending: &mut Stack<Pending<'a>>,
) -> Result<Option<NextStep<'a>>, Memory>
    ensures same { todo_of pending.new ≡ todo_of pending.old }
    ensures next { IfOk result (λ next. IsNext next pending.new) }
{
    while let Some(part) = first(pending) {
        match unfold(part) {
            Unfolded::Next(next) => return Ok(Some(next)),
            Unfolded::Nothing => pending.cut(1),
            Unfolded::One(part) => {
                let Ok(()) = pending.replace(1, part) else {
                    return Err(Memory);
                };
            }
            Unfolded::Two(part, rest) => {
                let Ok(()) = pending.replace_by_two(part, rest) else {
                    return Err(Memory);
                };
            }
        }
    }
    Ok(None)
}
