//! The code of a body with a `finally`.
ghost use Rattle.std.specs.Prelude.{◌≡◌, [], ◌∷◌, ◌++◌, map, option_and_then, OnOk};
ghost use Rattle.core_lowering_drafts.specs.Branches.{branch_of, rest_behind};
ghost use Rattle.core_lowering_drafts.specs.Drafts.{in_order};
ghost use Rattle.core_lowering_drafts.specs.Drafts as path;
ghost use Rattle.core_lowering_drafts.specs.EndSets.{seen, seen_asked};
ghost use Rattle.core_lowering_drafts.specs.Only.{code_in, fork, forked, only, only_part};
ghost use Rattle.core_lowering_drafts.specs.Rooms.{IsRoom, in_branching, room_behind};
ghost use Rattle.core_lowering_drafts.specs.Written.{code_of, room_of};

use crate::only::{write, write_items};
use core_lowering_drafts::{
    After, Asked, Branch, Draft, Exit, Stop, Tail, Written, asked_behind, items_behind, standing,
};
use std::alloc::Global;

/// What is done behind a path of the body.
#[cycle(only)]
fn write_tail(alloc: Global, after: After, tail: Tail, written: &mut Written) -> Result<(), Stop>
    ensures code { OnOk result (code_of written.new
        ≡ code_of written.old ++ code_in (rest_behind after.entry tail)) }
    ensures room { IsRoom (room_behind (code_in (rest_behind after.entry tail)) (room_of written.old))
        (room_of written.new) result }
{
    let items = items_behind(alloc, after, tail)?;
    write_items(alloc, items.as_slice(), asked_behind(after, tail), written)
}

/// Paths of a body, and what is done behind them.
#[cycle(only)]
fn write_branch(
    alloc: Global,
    body: &Draft,
    by: Asked,
    after: After,
    tail: Tail,
    written: &mut Written,
) -> Result<(), Stop>
    ensures code { OnOk result (code_of written.new ≡ code_of written.old
        ++ (only (in_order body.now) (seen_asked by.entry) ++ code_in (rest_behind after.entry tail))) }
    ensures room { IsRoom (room_behind (only (in_order body.now) (seen_asked by.entry) ++ code_in
        (rest_behind after.entry tail)) (room_of written.old)) (room_of written.new) result }
{
    write(alloc, body, by, written)?;
    write_tail(alloc, after, tail, written)
}

/// The last branch, along which exceptions pass.
#[cycle(only)]
fn write_last_branch(
    alloc: Global,
    body: &Draft,
    branch: &Branch,
    after: After,
    written: &mut Written,
) -> Result<(), Stop>
    ensures code { OnOk result (code_of written.new ≡ code_of written.old
        ++ forked (only (in_order body.now)) (seen_asked after.entry.asked) (branch_of after.entry branch.now ∷ [])) }
    ensures room { IsRoom (room_behind (forked (only (in_order body.now)) (seen_asked after.entry.asked)
        (branch_of after.entry branch.now ∷ [])) (room_of written.old)) (room_of written.new) result }
{
    let mut by = branch.by.copied()?;
    by.add_thrown(after.asked);
    write_branch(alloc, body, by.asked(), after, branch.tail, written)
}

/// A branch, or one of others.
#[cycle(only)]
fn write_branch_or(
    alloc: Global,
    body: &Draft,
    branch: &Branch,
    more: &[Branch],
    after: After,
    written: &mut Written,
) -> Result<(), Stop>
    ensures code { OnOk result (code_of written.new ≡ code_of written.old
        ++ fork (only (in_order body.now) (seen branch.now.by) ++ code_in (rest_behind after.entry branch.now.tail))
        (forked (only (in_order body.now)) (seen_asked after.entry.asked) (map (branch_of after.entry) more.now))) }
    ensures room { IsRoom (in_branching (λ r. option_and_then (room_behind
        (forked (only (in_order body.now)) (seen_asked after.entry.asked) (map (branch_of after.entry) more.now)))
        (room_behind (only (in_order body.now) (seen branch.now.by) ++ code_in
        (rest_behind after.entry branch.now.tail)) r)) (room_of written.old)) (room_of written.new) result }
{
    written.enter()?;
    let left = written.len();
    write_branch(alloc, body, branch.by.asked(), after, branch.tail, written)?;
    let right = written.len();
    write_forked(alloc, body, more, after, written)?;
    written.choose(alloc, left, right)?;
    Ok(())
}

/// One of these branches.
#[cycle(only)]
fn write_forked(
    alloc: Global,
    body: &Draft,
    branches: &[Branch],
    after: After,
    written: &mut Written,
) -> Result<(), Stop>
    ensures code { OnOk result (code_of written.new ≡ code_of written.old
        ++ forked (only (in_order body.now)) (seen_asked after.entry.asked)
        (map (branch_of after.entry) branches.now)) }
    ensures room { IsRoom (room_behind (forked (only (in_order body.now)) (seen_asked after.entry.asked)
        (map (branch_of after.entry) branches.now)) (room_of written.old)) (room_of written.new) result }
{
    let Some((branch, more)) = branches.split_first() else {
        return write(alloc, body, after.asked.thrown(), written);
    };
    if more.is_empty() {
        return write_last_branch(alloc, body, branch, after, written);
    }
    write_branch_or(alloc, body, branch, more, after, written)
}

/// A body with a `finally`.
#[cycle(only)]
pub(crate) fn write_behind(
    alloc: Global,
    body: &Draft,
    exit: Exit,
    after: After,
    written: &mut Written,
) -> Result<(), Stop>
    ensures code { OnOk result (code_of written.new ≡ code_of written.old
        ++ only_part (path.Behind (in_order body.now) (in_order after.entry.finally.now) exit.0
        (in_order after.entry.last.now)) (seen_asked after.entry.asked)) }
    ensures room { IsRoom (room_behind (only_part (path.Behind (in_order body.now) (in_order after.entry.finally.now)
        exit.0 (in_order after.entry.last.now)) (seen_asked after.entry.asked)) (room_of written.old))
        (room_of written.new) result }
{
    let branches = standing(alloc, body.ends(), exit, after)?;
    write_forked(alloc, body, branches.as_slice(), after, written)
}
