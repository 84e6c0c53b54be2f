//! The code of groups of a `switch`, each of which goes on in the next one.
ghost use Rattle.std.specs.Prelude.{◌≡◌, [], ◌++◌, take, OnOk};
ghost use Rattle.core_lowering_drafts.specs.Drafts.{in_order, no_part};
ghost use Rattle.core_lowering_drafts.specs.Drafts as path;
ghost use Rattle.core_lowering_drafts.specs.EndSets.{seen_asked};
ghost use Rattle.core_lowering_drafts.specs.Groups.{fallen};
ghost use Rattle.core_lowering_drafts.specs.Only.{fork, only, only_part};
ghost use Rattle.core_lowering_drafts.specs.Rooms.{IsRoom, in_branching, room_behind};
ghost use Rattle.core_lowering_drafts.specs.Written.{code_of, room_of};

use crate::only::write_items;
use core_lowering_drafts::{Asked, Groups, Stop, Written, push_groups, reached};
use std::alloc::Global;

/// The first so many groups. Groups behind which nothing is written stand in no choice, and so they are passed without
/// a call in a call.
#[cycle(only)]
fn write_groups(
    alloc: Global,
    groups: &Groups,
    count: usize,
    asked: Asked,
    written: &mut Written,
) -> Result<(), Stop>
    ensures code { OnOk result (code_of written.new
        ≡ code_of written.old ++ only (in_order (fallen (take count groups.now))) (seen_asked asked.entry)) }
    ensures room { IsRoom (room_behind (only (in_order (fallen (take count groups.now))) (seen_asked asked.entry))
        (room_of written.old)) (room_of written.new) result }
{
    let start = reached(groups, count, asked);
    let mut items = Vec::new(alloc);
    push_groups(groups, start.count, &mut items)?;
    write_items(alloc, items.as_slice(), start.asked, written)
}

/// The first so many groups, or nothing.
#[cycle(only)]
fn write_optional(
    alloc: Global,
    groups: &Groups,
    count: usize,
    asked: Asked,
    written: &mut Written,
) -> Result<(), Stop>
    ensures code { OnOk result (code_of written.new ≡ code_of written.old
        ++ fork (only (in_order (fallen (take count groups.now))) (seen_asked asked.entry)) []) }
    ensures room { IsRoom (in_branching (room_behind (only (in_order (fallen (take count groups.now)))
        (seen_asked asked.entry))) (room_of written.old)) (room_of written.new) result }
{
    written.enter()?;
    let left = written.len();
    write_groups(alloc, groups, count, asked, written)?;
    let right = written.len();
    written.choose(alloc, left, right)?;
    Ok(())
}

/// What goes on in a group that may be entered itself: the first so many groups, or nothing.
#[cycle(only)]
pub(crate) fn write_entered(
    alloc: Global,
    groups: &Groups,
    count: usize,
    asked: Asked,
    written: &mut Written,
) -> Result<(), Stop>
    ensures code { OnOk result (code_of written.new ≡ code_of written.old
        ++ only_part (path.Choice (in_order (fallen (take count groups.now))) no_part) (seen_asked asked.entry)) }
    ensures room { IsRoom (room_behind (only_part (path.Choice (in_order (fallen (take count groups.now))) no_part)
        (seen_asked asked.entry)) (room_of written.old)) (room_of written.new) result }
{
    if !groups.meet(count, asked)? {
        return Ok(());
    }
    if !asked.has_normal() {
        return write_groups(alloc, groups, count, asked, written);
    }
    write_optional(alloc, groups, count, asked, written)
}
