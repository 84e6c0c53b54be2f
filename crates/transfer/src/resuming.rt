//! Code gone through for the state at its end alone, with the states in which its loops were left.
ghost use Rattle.std.specs.Prelude.{◌≡◌, ◌+◌, ◌≤◌, false, map, length, IfOk, OnOk};
ghost use Rattle.access_paths.specs.Table.{GoesOn};
ghost use Rattle.owner_domain.specs.Numbered.{read_state};
ghost use Rattle.core_code.specs.Tree.{tree_of, in_sequence, Loop};
ghost use Rattle.transfer_loops.specs.Resuming.{loops};
ghost use Rattle.transfer.specs.Resumes.{IsResumed, IsRound, AreResumedRounds};
ghost use Rattle.transfer_steps.specs.Contexts.{given};
ghost use Rattle.transfer_steps.specs.Numbered.{read_heads, IsResumedIn};

use crate::lifting::lifted;
use access_paths::PathTable;
use core_code::Code;
use owner_domain::FlowState;
use racer_base::Memory;
use std::alloc::Global;
use std::mem;
use transfer_steps::{MethodContext, enter, meet_ends, move_any};

/// Where code was left.
#[derive(Clone, Copy)]
pub struct Passed {
    /// The number of the next loop behind the code.
    pub next: u32,
    pub goes_on: bool,
}

/// How many loops code has.
#[cycle(counts)]
pub fn count_loops(code: &Code) -> Result<u32, Memory>
    ensures { IfOk result (λ count. count ≡ loops (tree_of code.now)) }
{
    match code {
        Code::Op(_, _, _) => Ok(0),
        Code::Seq(parts) => count_all(parts.as_slice()),
        Code::Choice(left, right) => {
            let Ok(first) = count_loops(left) else {
                return Err(Memory);
            };
            let Ok(second) = count_loops(right) else {
                return Err(Memory);
            };
            sum(first, second)
        }
        Code::Loop(body) => {
            let Ok(inner) = count_loops(body) else {
                return Err(Memory);
            };
            sum(1, inner)
        }
        Code::Sync(_, _, body) => count_loops(body),
    }
}

/// How many loops pieces of code have.
#[cycle(counts)]
fn count_all(parts: &[Code]) -> Result<u32, Memory>
    ensures { IfOk result (λ count. count ≡ loops (in_sequence (map tree_of parts.now))) }
{
    let mut count = 0u32;
    for part in parts {
        let Ok(more) = count_loops(part) else {
            return Err(Memory);
        };
        let Ok(all) = sum(count, more) else {
            return Err(Memory);
        };
        count = all;
    }
    Ok(count)
}

fn sum(a: u32, b: u32) -> Result<u32, Memory>
    ensures { IfOk result (λ sum. sum ≡ a + b) }
{
    match a.checked_add(b) {
        Some(sum) => Ok(sum),
        None => Err(Memory),
    }
}

/// Goes through a piece of code whose loops have the numbers from `first` on.
#[cycle(resumes)]
pub fn resume(
    context: &MethodContext,
    code: &Code,
    first: u32,
    state: &mut FlowState,
    table: &mut PathTable,
    heads: &mut Vec<Option<FlowState>>,
) -> Result<Passed, Memory>
    requires room { first + loops (tree_of code.now) ≤ length heads.old.items }
    requires numbers { IsResumedIn table.old state.old heads.old.items }
    ensures resumed { IsResumed (given context.now) (tree_of code.now) context.now.locked first
        (read_state table.old state.old) (read_state table.new state.new)
        (read_heads table.old heads.old.items) (read_heads table.new heads.new.items) result }
    ensures numbers { OnOk result (IsResumedIn table.new state.new heads.new.items) }
    ensures table { OnOk result (GoesOn table.old table.new) }
{
    match code {
        Code::Op(_, _, op) => match move_any(context, *op, state, table) {
            Ok(goes_on) => Ok(Passed {
                next: first,
                goes_on,
            }),
            Err(memory) => Err(memory),
        },
        Code::Seq(parts) => resume_through(context, parts.as_slice(), first, state, table, heads),
        Code::Choice(left, right) => {
            let Ok(under) = lifted(context.alloc, code, state) else {
                return Err(Memory);
            };
            let Ok(mut other) = state.copied(context.alloc) else {
                return Err(Memory);
            };
            let Ok(one) = resume(context, left, first, state, table, heads) else {
                return Err(Memory);
            };
            let Ok(two) = resume(context, right, one.next, &mut other, table, heads) else {
                return Err(Memory);
            };
            let goes_on = meet_ends(one.goes_on, two.goes_on, state, other);
            let Ok(()) = state.lower(under) else {
                return Err(Memory);
            };
            Ok(Passed {
                next: two.next,
                goes_on,
            })
        }
        Code::Loop(body) => resume_loop(context, body, first, state, table, heads),
        Code::Sync(_, _, body) => {
            mem::drop(state.pop());
            let within = context.under_lock();
            resume(&within, body, first, state, table, heads)
        }
    }
}

/// Goes through pieces of code one after another, up to the first that does not go on.
#[cycle(resumes)]
fn resume_through(
    context: &MethodContext,
    parts: &[Code],
    first: u32,
    state: &mut FlowState,
    table: &mut PathTable,
    heads: &mut Vec<Option<FlowState>>,
) -> Result<Passed, Memory>
    requires room { first + loops (in_sequence (map tree_of parts.now)) ≤ length heads.old.items }
    requires numbers { IsResumedIn table.old state.old heads.old.items }
    ensures resumed { IsResumed (given context.now) (in_sequence (map tree_of parts.now)) context.now.locked first
        (read_state table.old state.old) (read_state table.new state.new)
        (read_heads table.old heads.old.items) (read_heads table.new heads.new.items) result }
    ensures numbers { OnOk result (IsResumedIn table.new state.new heads.new.items) }
    ensures table { OnOk result (GoesOn table.old table.new) }
{
    let mut number = first;
    for index in 0..parts.len() {
        let Ok(passed) = resume(context, &parts[index], number, state, table, heads) else {
            return Err(Memory);
        };
        number = passed.next;
        if !passed.goes_on {
            return pass_over(number, &parts[index + 1..]);
        }
    }
    Ok(Passed {
        next: number,
        goes_on: true,
    })
}

/// Passes pieces of code over that are not reached, whose loops have the numbers from `first` on.
fn pass_over(first: u32, parts: &[Code]) -> Result<Passed, Memory>
    ensures { IfOk result (λ passed. (passed.next ≡ first + loops (in_sequence (map tree_of parts.now)))
        × (passed.goes_on ≡ false)) }
{
    let Ok(count) = count_all(parts) else {
        return Err(Memory);
    };
    let Ok(next) = sum(first, count) else {
        return Err(Memory);
    };
    Ok(Passed {
        next,
        goes_on: false,
    })
}

/// Goes through a loop: on from the state in which it was left, until a round changes nothing. Where the first one
/// changes nothing no state is kept.
#[cycle(resumes)]
fn resume_loop(
    context: &MethodContext,
    body: &Code,
    first: u32,
    state: &mut FlowState,
    table: &mut PathTable,
    heads: &mut Vec<Option<FlowState>>,
) -> Result<Passed, Memory>
    requires room { first + loops (Loop (tree_of body.now)) ≤ length heads.old.items }
    requires numbers { IsResumedIn table.old state.old heads.old.items }
    ensures resumed { IsResumed (given context.now) (Loop (tree_of body.now)) context.now.locked first
        (read_state table.old state.old) (read_state table.new state.new)
        (read_heads table.old heads.old.items) (read_heads table.new heads.new.items) result }
    ensures numbers { OnOk result (IsResumedIn table.new state.new heads.new.items) }
    ensures table { OnOk result (GoesOn table.old table.new) }
{
    let rounds = state.rounds();
    let Ok(inner) = sum(first, 1) else {
        return Err(Memory);
    };
    let Ok(()) = enter(context.alloc, heads.as_slice(), first, state) else {
        return Err(Memory);
    };
    let Ok((next, changed)) = resume_round(context, body, inner, state, table, heads) else {
        return Err(Memory);
    };
    if !changed {
        return Ok(Passed {
            next,
            goes_on: true,
        });
    }
    let Ok(()) = resume_rounds(context, body, inner, rounds - 1, state, table, heads) else {
        return Err(Memory);
    };
    let Ok(left) = state.copied(context.alloc) else {
        return Err(Memory);
    };
    heads[first as usize] = Some(left);
    Ok(Passed {
        next,
        goes_on: true,
    })
}

/// At most so many rounds of a loop, up to the first that changes nothing.
#[cycle(resumes)]
fn resume_rounds(
    context: &MethodContext,
    body: &Code,
    first: u32,
    rounds: usize,
    state: &mut FlowState,
    table: &mut PathTable,
    heads: &mut Vec<Option<FlowState>>,
) -> Result<(), Memory>
    requires room { first + loops (tree_of body.now) ≤ length heads.old.items }
    requires numbers { IsResumedIn table.old state.old heads.old.items }
    ensures resumed { AreResumedRounds (given context.now) (tree_of body.now) context.now.locked first rounds
        (read_state table.old state.old) (read_state table.new state.new)
        (read_heads table.old heads.old.items) (read_heads table.new heads.new.items) result }
    ensures numbers { OnOk result (IsResumedIn table.new state.new heads.new.items) }
    ensures table { OnOk result (GoesOn table.old table.new) }
{
    for round in 0..rounds {
        let Ok((_, changed)) = resume_round(context, body, first, state, table, heads) else {
            return Err(Memory);
        };
        if !changed {
            return Ok(());
        }
    }
    Ok(())
}

/// One round of a loop: the number of the next loop behind it, and whether the round changed anything.
#[cycle(resumes)]
fn resume_round(
    context: &MethodContext,
    body: &Code,
    first: u32,
    state: &mut FlowState,
    table: &mut PathTable,
    heads: &mut Vec<Option<FlowState>>,
) -> Result<(u32, bool), Memory>
    requires room { first + loops (tree_of body.now) ≤ length heads.old.items }
    requires numbers { IsResumedIn table.old state.old heads.old.items }
    ensures resumed { IsRound (given context.now) (tree_of body.now) context.now.locked first
        (read_state table.old state.old) (read_state table.new state.new)
        (read_heads table.old heads.old.items) (read_heads table.new heads.new.items) result }
    ensures numbers { OnOk result (IsResumedIn table.new state.new heads.new.items) }
    ensures table { OnOk result (GoesOn table.old table.new) }
{
    let Ok(mut end) = state.copied(context.alloc) else {
        return Err(Memory);
    };
    let Ok(passed) = resume(context, body, first, &mut end, table, heads) else {
        return Err(Memory);
    };
    if !passed.goes_on {
        return Ok((passed.next, false));
    }
    let changed = state.meet(end);
    Ok((passed.next, changed))
}
