//! Code, from its beginning to its end.
ghost use Rattle.std.specs.Prelude.{◌≡◌, map, IfOk, OnOk, [], false};
ghost use Rattle.access_paths.specs.Table.{GoesOn};
ghost use Rattle.owner_domain.specs.Numbered.{read_state};
ghost use Rattle.core_code.specs.Tree.{tree_of, in_sequence, Loop};
ghost use Rattle.transfer_steps.specs.Contexts.{given, flow_in};
ghost use Rattle.transfer_steps.specs.Marks.{IsMarked, marks};
ghost use Rattle.transfer_loops.specs.Rounds.{round_next, round_lost};
ghost use Rattle.transfer_steps.specs.Noting.{AreRounded, IsWalk, IsWalked};
ghost use Rattle.transfer_steps.specs.Numbered.{read_found, read_heads, AreHeadsInRange, IsFlowOf};
ghost use Rattle.transfer.specs.Heights.{IsHighEnough, AreSound};

use crate::lifting::{lifted, lowered};
use crate::resuming::{count_loops, resume};
use core_code::Code;
use owner_domain::FlowState;
use racer_base::Memory;
use std::alloc::Global;
use std::mem;
use transfer_bodies::shortened;
use transfer_steps::{MethodContext, Notes, Stop, Walk, join_ends, meet, no_heads};

/// Goes through a piece of code; whether it goes on behind it.
#[cycle(codes)]
pub fn walk_code(
    walk: &mut Walk,
    context: &MethodContext,
    code: &Code,
    state: &mut FlowState,
) -> Result<bool, Stop>
    requires high { IsHighEnough (tree_of code.now) (read_state walk.old.notes.table state.old) }
    requires ready { IsWalk (given context.now) walk.old state.old }
    ensures { IsWalked (given context.now) (flow_in context.now (tree_of code.now)) walk.old state.old walk.new
        state.new result }
{
    match code {
        Code::Op(site, _, op) => walk.operate(context, *site, *op, state),
        Code::Seq(parts) => go_through(walk, context, parts.as_slice(), state),
        Code::Choice(left, right) => {
            let Ok(under) = lifted(context.alloc, code, state) else {
                return Err(Stop::Memory);
            };
            let Ok(mut other) = state.copied(context.alloc) else {
                return Err(Stop::Memory);
            };
            let one = match walk_code(walk, context, left, state) {
                Ok(goes_on) => goes_on,
                Err(stop) => return Err(stop),
            };
            let two = match walk_code(walk, context, right, &mut other) {
                Ok(goes_on) => goes_on,
                Err(stop) => return Err(stop),
            };
            let found = &mut walk.notes.found;
            let joined = join_ends(context.alloc, one, two, state, other, found);
            lowered(joined, under, state)
        }
        Code::Loop(body) => repeat(walk, context, body, state),
        Code::Sync(_, _, body) => {
            mem::drop(state.pop());
            let within = context.under_lock();
            walk_code(walk, &within, body, state)
        }
    }
}

/// Goes through pieces of code one after another, up to the first that does not go on.
#[cycle(codes)]
fn go_through(
    walk: &mut Walk,
    context: &MethodContext,
    parts: &[Code],
    state: &mut FlowState,
) -> Result<bool, Stop>
    requires high { IsHighEnough (in_sequence (map tree_of parts.now)) (read_state walk.old.notes.table
        state.old) }
    requires ready { IsWalk (given context.now) walk.old state.old }
    ensures { IsWalked (given context.now) (flow_in context.now (in_sequence (map tree_of parts.now))) walk.old
        state.old walk.new state.new result }
{
    for part in parts {
        match walk_code(walk, context, part, state) {
            Ok(true) => {}
            Ok(false) => return Ok(false),
            Err(stop) => return Err(stop),
        }
    }
    Ok(true)
}

/// Goes through a loop: its rounds, and then its body from the last state on.
#[cycle(codes)]
fn repeat(
    walk: &mut Walk,
    context: &MethodContext,
    body: &Code,
    state: &mut FlowState,
) -> Result<bool, Stop>
    requires high { IsHighEnough (Loop (tree_of body.now)) (read_state walk.old.notes.table state.old) }
    requires ready { IsWalk (given context.now) walk.old state.old }
    ensures { IsWalked (given context.now) (flow_in context.now (Loop (tree_of body.now))) walk.old state.old
        walk.new state.new result }
{
    match go_rounds(&mut walk.notes, context, body, state) {
        Ok(()) => {}
        Err(stop) => return Err(stop),
    }
    let Ok(mut end) = state.copied(context.alloc) else {
        return Err(Stop::Memory);
    };
    let ended = walk_code(walk, context, body, &mut end);
    mem::drop(end);
    match ended {
        Ok(_) => Ok(true),
        Err(stop) => Err(stop),
    }
}

/// The rounds of a loop, without the parts of its body that leave the values as they were.
fn go_rounds(
    notes: &mut Notes,
    context: &MethodContext,
    body: &Code,
    state: &mut FlowState,
) -> Result<(), Stop>
    requires high { IsHighEnough (Loop (tree_of body.now)) (read_state notes.old.table state.old) }
    requires numbers { IsFlowOf notes.old.table state.old notes.old.found }
    ensures done { AreRounded (flow_in context.now (tree_of body.now)) notes.old state.old notes.new state.new
        result }
    ensures high { OnOk result (IsHighEnough (Loop (tree_of body.now)) (read_state notes.new.table state.new)) }
{
    let Ok(short) = shortened(context.alloc, body, state.height()) else {
        return Err(Stop::Memory);
    };
    let done = go_through_rounds(notes, context, &short, state);
    mem::drop(short);
    done
}

/// The rounds of a loop with this body, up to the first that leaves the values as they were.
fn go_through_rounds(
    notes: &mut Notes,
    context: &MethodContext,
    body: &Code,
    state: &mut FlowState,
) -> Result<(), Stop>
    requires high { IsHighEnough (Loop (tree_of body.now)) (read_state notes.old.table state.old) }
    requires numbers { IsFlowOf notes.old.table state.old notes.old.found }
    ensures { AreRounded (flow_in context.now (tree_of body.now)) notes.old state.old notes.new state.new result }
{
    let Ok(count) = count_loops(body) else {
        return Err(Stop::Memory);
    };
    let Ok(mut heads) = no_heads(context.alloc, count) else {
        return Err(Stop::Memory);
    };
    for round in 0..state.rounds() {
        match go_round(notes, context, body, state, &mut heads) {
            Ok(true) => {}
            Ok(false) => return Ok(()),
            Err(stop) => return Err(stop),
        }
    }
    Ok(())
}

/// One round of a loop, of which the lost paths alone are noted; whether it changed the values.
fn go_round(
    notes: &mut Notes,
    context: &MethodContext,
    body: &Code,
    state: &mut FlowState,
    heads: &mut Vec<Option<FlowState>>,
) -> Result<bool, Stop>
    requires high { IsHighEnough (Loop (tree_of body.now)) (read_state notes.old.table state.old) }
    requires numbers { IsFlowOf notes.old.table state.old notes.old.found }
    requires heads { AreHeadsInRange notes.old.table heads.old.items }
    requires sound { AreSound (given context.now) (tree_of body.now) context.now.locked
        (read_heads notes.old.table heads.old.items) (read_state notes.old.table state.old) }
    ensures state { OnOk result (read_state notes.new.table state.new ≡
        round_next (read_state notes.old.table state.old)
        (flow_in context.now (tree_of body.now) (read_state notes.old.table state.old)).next) }
    ensures unchanged { IfOk result (λ changed. changed ≡ false →
        read_state notes.new.table state.new ≡ read_state notes.old.table state.old) }
    ensures found { IsMarked (read_found notes.old.table notes.old.found)
        (marks [] (round_lost (read_state notes.old.table state.old)
        (flow_in context.now (tree_of body.now) (read_state notes.old.table state.old)).next))
        (read_found notes.new.table notes.new.found) result }
    ensures sound { OnOk result (AreSound (given context.now) (tree_of body.now) context.now.locked
        (read_heads notes.new.table heads.new.items) (read_state notes.new.table state.new)) }
    ensures high { OnOk result (IsHighEnough (Loop (tree_of body.now)) (read_state notes.new.table state.new)) }
    ensures numbers { OnOk result (IsFlowOf notes.new.table state.new notes.new.found) }
    ensures heads { OnOk result (AreHeadsInRange notes.new.table heads.new.items) }
    ensures table { OnOk result (GoesOn notes.old.table notes.new.table) }
{
    let Ok(mut end) = state.copied(context.alloc) else {
        return Err(Stop::Memory);
    };
    let Ok(passed) = resume(context, body, 0, &mut end, &mut notes.table, heads) else {
        return Err(Stop::Memory);
    };
    if !passed.goes_on {
        return Ok(false);
    }
    meet(context.alloc, state, end, &mut notes.found)
}
