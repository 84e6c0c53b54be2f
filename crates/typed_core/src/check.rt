//! Code gone through for its kinds.
ghost use Rattle.std.specs.Prelude.{◌≡◌, map, IfOk, Some};
ghost use Rattle.racer_base.specs.declared.ids.SiteId.{SiteId as Site};
ghost use Rattle.core_code.specs.Tree.{in_sequence, tree_of};
ghost use Rattle.core_code.specs.Tree as tree;
ghost use Rattle.typed_core.specs.Check.{next_of, round_next, rounds_of};
ghost use Rattle.typed_core.specs.Resuming.{iterated};
ghost use Rattle.typed_core.specs.Walks.{AreRounds, HasRoom, IsRight, IsWalked, found_in, heads_of, is_changed, round_in};

use crate::context::CheckContext;
use crate::lifting::lifted;
use crate::loops::Walk;
use crate::needs::lock_doubt;
use crate::states::Kinds;
use core_code::{Code, Op};
use racer_base::{Memory, Place};
use std::mem;

/// Goes through a piece of code, that is reached with these kinds or not; whether there are kinds behind it.
#[cycle(codes)]
pub(crate) fn check_code(
    walk: &mut Walk,
    context: &CheckContext,
    code: &Code,
    reached: bool,
    here: &mut Kinds,
) -> Result<bool, Memory>
    requires right { IsRight context.now }
    requires room { HasRoom walk.old.next walk.old }
    ensures { IfOk result (λ goes_on. IsWalked (tree_of code.now) (found_in context.now (tree_of code.now) walk.old.next
        (heads_of walk.old) (next_of reached here.old)) (next_of goes_on here.new) walk.old walk.new) }
{
    match code {
        Code::Op(_, place, op) => operate(walk, context, *place, *op, reached, here),
        Code::Seq(parts) => check_all(walk, context, parts.as_slice(), reached, here),
        Code::Choice(left, right) => {
            let Ok(under) = lifted(context.alloc, code, here) else {
                return Err(Memory);
            };
            let Ok(mut other) = here.copied(context.alloc) else {
                return Err(Memory);
            };
            let Ok(one) = check_code(walk, context, left, reached, here) else {
                return Err(Memory);
            };
            let Ok(two) = check_code(walk, context, right, reached, &mut other) else {
                return Err(Memory);
            };
            let goes_on = here.meet_end(one, two, other);
            let Ok(()) = here.lower(under) else {
                return Err(Memory);
            };
            Ok(goes_on)
        }
        Code::Loop(body) if reached => check_loop(walk, context, body, here),
        Code::Loop(body) => {
            let Ok(_) = walk.pass() else {
                return Err(Memory);
            };
            check_code(walk, context, body, false, here)
        }
        Code::Sync(place, _, body) => {
            let doubt = lock_doubt(*place, reached, here);
            let Ok(()) = walk.note(doubt) else {
                return Err(Memory);
            };
            here.pop();
            check_code(walk, context, body, reached, here)
        }
    }
}

/// Notes what may fail at an operation, and does it to the kinds.
fn operate(
    walk: &mut Walk,
    context: &CheckContext,
    place: Place,
    op: Op,
    reached: bool,
    here: &mut Kinds,
) -> Result<bool, Memory>
    requires right { IsRight context.now }
    requires room { HasRoom walk.old.next walk.old }
    ensures { IfOk result (λ goes_on. (site : Site) → IsWalked (tree.Op site place op)
        (found_in context.now (tree.Op site place op) walk.old.next (heads_of walk.old) (next_of reached here.old))
        (next_of goes_on here.new) walk.old walk.new) }
{
    walk.note(context.op_doubt(place, op, reached, here))?;
    if !reached {
        return Ok(false);
    }
    context.step(op, here)
}

/// Goes through pieces of code one after another.
#[cycle(codes)]
fn check_all(
    walk: &mut Walk,
    context: &CheckContext,
    parts: &[Code],
    reached: bool,
    here: &mut Kinds,
) -> Result<bool, Memory>
    requires right { IsRight context.now }
    requires room { HasRoom walk.old.next walk.old }
    ensures { IfOk result (λ goes_on. IsWalked (in_sequence (map tree_of parts.now))
        (found_in context.now (in_sequence (map tree_of parts.now)) walk.old.next (heads_of walk.old)
        (next_of reached here.old)) (next_of goes_on here.new) walk.old walk.new) }
{
    let mut goes_on = reached;
    for part in parts {
        let Ok(ended) = check_code(walk, context, part, goes_on, here) else {
            return Err(Memory);
        };
        goes_on = ended;
    }
    Ok(goes_on)
}

/// Goes through a loop, from the kinds on in which it was left, up to the first round that changes none.
#[cycle(codes)]
fn check_loop(
    walk: &mut Walk,
    context: &CheckContext,
    body: &Code,
    here: &mut Kinds,
) -> Result<bool, Memory>
    requires right { IsRight context.now }
    requires room { HasRoom walk.old.next walk.old }
    ensures { IfOk result (λ goes_on. IsWalked (tree.Loop (tree_of body.now))
        (found_in context.now (tree.Loop (tree_of body.now)) walk.old.next (heads_of walk.old) (Some here.old))
        (next_of goes_on here.new) walk.old walk.new) }
{
    let Ok(number) = walk.enter(context.alloc, here) else {
        return Err(Memory);
    };
    let Ok(changed) = check_rounds(walk, context, body, here) else {
        return Err(Memory);
    };
    if !changed {
        return Ok(true);
    }
    let Ok(()) = walk.leave(context.alloc, number, here) else {
        return Err(Memory);
    };
    Ok(true)
}

/// The rounds of a loop; whether any of them changed the kinds.
#[cycle(codes)]
fn check_rounds(
    walk: &mut Walk,
    context: &CheckContext,
    body: &Code,
    here: &mut Kinds,
) -> Result<bool, Memory>
    requires right { IsRight context.now }
    requires room { HasRoom walk.old.next walk.old }
    ensures { IfOk result (λ changed. AreRounds (tree_of body.now)
        (iterated (round_in context.now (tree_of body.now) walk.old.next) (rounds_of here.old) (heads_of walk.old)
        here.old) changed here.new walk.old walk.new) }
{
    let Ok(count) = here.rounds() else {
        return Err(Memory);
    };
    let mark = walk.mark();
    for round in 0..count {
        walk.back_to(mark);
        let Ok(changed) = check_round(walk, context, body, here) else {
            return Err(Memory);
        };
        if !changed {
            return Ok(round > 0);
        }
    }
    walk.forget(mark);
    Ok(true)
}

/// One round of a loop; whether it changed the kinds.
#[cycle(codes)]
fn check_round(
    walk: &mut Walk,
    context: &CheckContext,
    body: &Code,
    here: &mut Kinds,
) -> Result<bool, Memory>
    requires right { IsRight context.now }
    requires room { HasRoom walk.old.next walk.old }
    ensures walked { IfOk result (λ changed. IsWalked (tree_of body.now)
        (round_in context.now (tree_of body.now) walk.old.next (heads_of walk.old) here.old)
        (round_in context.now (tree_of body.now) walk.old.next (heads_of walk.old) here.old).next walk.old walk.new) }
    ensures changed { IfOk result (λ changed. changed ≡ is_changed here.old
        (round_in context.now (tree_of body.now) walk.old.next (heads_of walk.old) here.old).next) }
    ensures here { IfOk result (λ changed. here.new ≡ round_next here.old
        (round_in context.now (tree_of body.now) walk.old.next (heads_of walk.old) here.old).next) }
{
    let Ok(mut end) = here.copied(context.alloc) else {
        return Err(Memory);
    };
    let Ok(goes_on) = check_code(walk, context, body, true, &mut end) else {
        return Err(Memory);
    };
    if !goes_on {
        mem::drop(end);
        return Ok(false);
    }
    Ok(here.meet(end))
}
