//! What a thread is about to do.
ghost use Rattle.std.specs.Prelude.{◌≡◌, ◌+◌, List, drop, option_map, map, slice_get};
ghost use Rattle.core_code.specs.Tree.{tree_of, in_sequence};
ghost use Rattle.core_semantics.specs.State.{Todo, before};
ghost use Rattle.core_semantics.specs.View.{before_part, or_next, step_of, todo_of};

use crate::pending::{NextStep, Pending};
use crate::stack::Stack;
use core_code::Code;

/// The first step of code.
#[cycle(first)]
fn first_of<'a>(code: &'a Code) -> Option<NextStep<'a>>
    ensures { (todo : List Todo) →
        slice_get (before (tree_of code.now) todo) 0 ≡ or_next result (slice_get todo 0) }
{
    match code {
        Code::Op(_, place, op) => Some(NextStep::Op(*place, *op)),
        Code::Seq(parts) => first_of_parts(parts.as_slice()),
        Code::Choice(left, right) => Some(NextStep::Choice(left, right)),
        Code::Loop(body) => Some(NextStep::Loop(body)),
        Code::Sync(place, kind, body) => Some(NextStep::Sync(*place, *kind, body)),
    }
}

/// The first step of parts in sequence.
#[cycle(first)]
fn first_of_parts<'a>(parts: &'a [Code]) -> Option<NextStep<'a>>
    ensures { (todo : List Todo) →
        slice_get (before (in_sequence (map tree_of parts.now)) todo) 0 ≡ or_next result (slice_get todo 0) }
{
    for part in parts {
        if let Some(next) = first_of(part) {
            return Some(next);
        }
    }
    None
}

/// The first step of a part.
fn first_of_part<'a>(part: Pending<'a>) -> Option<NextStep<'a>>
    ensures { (todo : List Todo) → slice_get (before_part part.entry todo) 0 ≡ or_next result (slice_get todo 0) }
{
    match part {
        Pending::One(code) => first_of(code),
        Pending::Parts(parts) => first_of_parts(parts),
        Pending::Unlock => Some(NextStep::Unlock),
    }
}

/// The first step of the part of this number, counted from the next one.
fn step_at<'a>(pending: &Stack<Pending<'a>>, number: usize) -> Option<NextStep<'a>>
    ensures { slice_get (todo_of (drop number pending.now)) 0
        ≡ or_next result (slice_get (todo_of (drop (number + 1) pending.now)) 0) }
{
    match pending.get(number) {
        Some(part) => first_of_part(*part),
        None => None,
    }
}

/// The next step.
pub(crate) fn ahead<'a>(pending: &Stack<Pending<'a>>) -> Option<NextStep<'a>>
    ensures { option_map step_of result ≡ slice_get (todo_of pending.now) 0 }
{
    for number in 0..pending.len() {
        if let Some(next) = step_at(pending, number) {
            return Some(next);
        }
    }
    None
}
