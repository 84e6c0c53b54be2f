//! The code of the paths of a draft that end in given ways.
ghost use Rattle.std.specs.Prelude.{◌≡◌, [], ◌∷◌, ◌++◌, length, map, option_and_then, IfOk, OnOk, if◌then◌else◌};
ghost use Rattle.std.specs.List.{flat_map};
ghost use Rattle.core_code.specs.Tree.{in_sequence};
ghost use Rattle.core_lowering_drafts.specs.Ahead.{closed, done_by, item_of, rest_of, way_by};
ghost use Rattle.core_lowering_drafts.specs.Drafts.{SameEnds, in_order, part_ends};
ghost use Rattle.core_lowering_drafts.specs.Drafts as path;
ghost use Rattle.core_lowering_drafts.specs.EndSets.{seen, seen_asked};
ghost use Rattle.core_lowering_drafts.specs.Only.{Code, all_ends, asked_within, cleared, code_in, fork, only};
ghost use Rattle.core_lowering_drafts.specs.Only.{only_part};
ghost use Rattle.core_lowering_drafts.specs.Pieces.{part_of};
ghost use Rattle.core_lowering_drafts.specs.Rooms.{IsRoom, IsRoomBefore, IsRoomOpen, done_room, entered_room};
ghost use Rattle.core_lowering_drafts.specs.Rooms.{in_branching, left_rooms, room_behind, room_null};
ghost use Rattle.core_lowering_drafts.specs.Sites.{locked};
ghost use Rattle.core_lowering_drafts.specs.Sizes.{TellsSize, is_small};
ghost use Rattle.core_lowering_drafts.specs.Written.{code_of, room_of};

use crate::falls::write_entered;
use crate::finallys::write_behind;
use crate::loops::write_loop;
use core_code::{LockKind, Op};
use core_lowering_drafts::{
    After, Asked, Behind, Draft, Ends, Exit, Fork, Item, Part, Stop, Way, Written, look_ahead,
    meets, push_pieces, way_of,
};
use racer_base::{Memory, Place, VarId};
use std::alloc::Global;

/// What is asked for within a body behind which an exit leads.
fn within_asked(alloc: Global, exit: Exit, asked: Asked) -> Result<Ends, Memory>
    ensures { IfOk result (λ ends. SameEnds (seen ends) (asked_within exit.0 (seen_asked asked.entry))) }
{
    let mut ends = asked.copied(alloc)?;
    if asked.has_normal() {
        ends.put_in(exit)?;
        return Ok(ends);
    }
    ends.leave_out(exit);
    Ok(ends)
}

/// Closes the choices that are open to the right, the innermost first.
fn close(alloc: Global, marks: &[Fork], written: &mut Written) -> Result<(), Memory>
    ensures code { OnOk result (code_of written.new ≡ closed marks.now (code_of written.old)) }
    ensures room { OnOk result (room_of written.new ≡ left_rooms (length marks.now) (room_of written.old)) }
{
    for i in (0..marks.len()).rev() {
        written.choose(alloc, marks[i].left, marks[i].right)?;
    }
    Ok(())
}

/// Notes a choice that is open to the right.
fn note(marks: &mut Vec<Fork>, left: usize, right: usize) -> Result<(), Memory>
    ensures { OnOk result (marks.new.items ≡ marks.old.items ++ record { left = left; right = right } ∷ []) }
{
    marks.push(Fork { left, right })?;
    Ok(())
}

/// An item that leaves for an exit, on the left side of a choice that stays open.
#[cycle(only)]
fn write_aside(
    alloc: Global,
    item: Item,
    asked: Asked,
    marks: &mut Vec<Fork>,
    written: &mut Written,
) -> Result<(), Stop>
    ensures code { OnOk result (code_of written.new
        ≡ code_of written.old ++ only_part (item_of item.entry) (seen_asked asked.entry)) }
    ensures marks { OnOk result (marks.new.items ≡ marks.old.items ++ record {
      left = length (code_of written.old);
      right = length (code_of written.new);
    } ∷ []) }
    ensures room { IsRoom (option_and_then (room_behind (only_part (item_of item.entry) (seen_asked asked.entry)))
        (entered_room (room_of written.old))) (room_of written.new) result }
{
    written.enter()?;
    let left = written.len();
    write_item(alloc, item, asked, written)?;
    note(marks, left, written.len())?;
    Ok(())
}

/// An item before what stands behind it, and whether that is written too.
#[cycle(only)]
fn write_before(
    alloc: Global,
    item: Item,
    behind: Behind,
    asked: Asked,
    marks: &mut Vec<Fork>,
    written: &mut Written,
) -> Result<bool, Stop>
    ensures code { IfOk result (λ goes_on. (rest : Code) →
        closed marks.new.items (code_of written.new ++ (if goes_on then rest else []))
        ≡ closed marks.old.items (code_of written.old
        ++ done_by (way_by (part_ends (item_of item.entry)) behind (seen_asked asked.entry))
        (only_part (item_of item.entry)) (seen_asked asked.entry) rest)) }
    ensures room { IsRoomBefore (length marks.old.items) (length marks.new.items)
        (λ rest. done_room (way_by (part_ends (item_of item.entry)) behind (seen_asked asked.entry))
        (λ ends. room_behind (only_part (item_of item.entry) ends)) (seen_asked asked.entry) rest
        (room_of written.old)) (room_of written.new) result }
{
    match way_of(alloc, item, behind, asked)? {
        Way::Nothing => Ok(false),
        Way::Whole => {
            write_item(alloc, item, asked, written)?;
            Ok(false)
        }
        Way::Leaving => {
            write_item(alloc, item, asked.without_normal(), written)?;
            Ok(false)
        }
        Way::On => {
            write_item(alloc, item, asked.on(), written)?;
            Ok(true)
        }
        Way::Exits => {
            write_item(alloc, item, asked.exits_alone(), written)?;
            Ok(false)
        }
        Way::Both => {
            write_aside(alloc, item, asked.exits_alone(), marks, written)?;
            write_item(alloc, item, asked.on(), written)?;
            Ok(true)
        }
    }
}

/// Items one after another, where choices stay open to the right.
#[cycle(only)]
fn write_open(
    alloc: Global,
    items: &[Item],
    asked: Asked,
    marks: &mut Vec<Fork>,
    written: &mut Written,
) -> Result<(), Stop>
    ensures code { OnOk result (closed marks.new.items (code_of written.new) ≡ closed marks.old.items
        (code_of written.old ++ code_in (rest_of (map item_of items.now) (seen_asked asked.entry)))) }
    ensures room { IsRoomOpen (length marks.old.items) (length marks.new.items)
        (room_behind (code_in (rest_of (map item_of items.now) (seen_asked asked.entry))) (room_of written.old))
        (room_of written.new) result }
{
    let mut ahead = look_ahead(alloc, items, asked)?;
    for item in items {
        let Some(behind) = ahead.pop() else {
            return Ok(());
        };
        if !write_before(alloc, *item, behind, asked, marks, written)? {
            return Ok(());
        }
    }
    Ok(())
}

/// Items one after another.
#[cycle(only)]
pub(crate) fn write_items(
    alloc: Global,
    items: &[Item],
    asked: Asked,
    written: &mut Written,
) -> Result<(), Stop>
    ensures code { OnOk result (code_of written.new
        ≡ code_of written.old ++ code_in (rest_of (map item_of items.now) (seen_asked asked.entry))) }
    ensures room { IsRoom (room_behind (code_in (rest_of (map item_of items.now) (seen_asked asked.entry)))
        (room_of written.old)) (room_of written.new) result }
{
    let mut marks = Vec::new(alloc);
    write_open(alloc, items, asked, &mut marks, written)?;
    close(alloc, marks.as_slice(), written)?;
    Ok(())
}

/// A draft that nothing stands behind.
#[cycle(only)]
pub fn write(alloc: Global, draft: &Draft, asked: Asked, written: &mut Written) -> Result<(), Stop>
    ensures code { OnOk result (code_of written.new
        ≡ code_of written.old ++ only (in_order draft.now) (seen_asked asked.entry)) }
    ensures room { IsRoom (room_behind (only (in_order draft.now) (seen_asked asked.entry)) (room_of written.old))
        (room_of written.new) result }
{
    let mut items = Vec::new(alloc);
    push_pieces(draft.pieces(), &mut items)?;
    write_items(alloc, items.as_slice(), asked, written)
}

/// All code of a draft from which no exit leads, where it is small for so many tokens. What stands before and around
/// it does not count.
pub fn write_small(
    alloc: Global,
    draft: &Draft,
    tokens: u32,
    written: &mut Written,
) -> Result<(), Stop>
    ensures code { OnOk result (code_of written.new ≡ code_of written.old ++ only (in_order draft.now) all_ends) }
    ensures size { TellsSize (is_small tokens (in_sequence (only (in_order draft.now) all_ends))) result }
    ensures room { OnOk result (room_of written.new ≡ room_of written.old) }
{
    let around = written.limit(tokens);
    write(alloc, draft, Asked::all(), written)?;
    written.go_on(around);
    Ok(())
}

#[cycle(only)]
fn write_item(alloc: Global, item: Item, asked: Asked, written: &mut Written) -> Result<(), Stop>
    ensures code { OnOk result (code_of written.new
        ≡ code_of written.old ++ only_part (item_of item.entry) (seen_asked asked.entry)) }
    ensures room { IsRoom (room_behind (only_part (item_of item.entry) (seen_asked asked.entry))
        (room_of written.old)) (room_of written.new) result }
{
    match item {
        Item::Part(part) => write_part(alloc, part, asked, written),
        Item::LoopOf(body) => write_loop(alloc, body, asked, written),
        Item::Entered(groups, count) => write_entered(alloc, groups, count, asked, written),
    }
}

#[cycle(only)]
fn write_part(alloc: Global, part: &Part, asked: Asked, written: &mut Written) -> Result<(), Stop>
    ensures code { OnOk result (code_of written.new
        ≡ code_of written.old ++ only_part (part_of part.now) (seen_asked asked.entry)) }
    ensures room { IsRoom (room_behind (only_part (part_of part.now) (seen_asked asked.entry)) (room_of written.old))
        (room_of written.new) result }
{
    match part {
        Part::Op(place, op) => written.op(*place, *op),
        Part::Choice(left, right) => write_choice(alloc, left, right, asked, written),
        Part::Loop(body) => write_loop(alloc, body, asked, written),
        Part::Sync(place, kind, body) => write_held(alloc, *place, *kind, body, asked, written),
        Part::Leave(_) => Ok(()),
        Part::Within(exit, body) => write_within(alloc, *exit, body, asked, written),
        Part::Never => Ok(()),
        Part::Ending(body, place, variables) => {
            write_ending(alloc, body, *place, variables.as_slice(), asked, written)
        }
        Part::Behind(body, finally, exit, last) => {
            let after = After {
                finally,
                last,
                asked,
            };
            write_behind(alloc, body, *exit, after, written)
        }
        Part::Entered(groups) => write_entered(alloc, groups, groups.len(), asked, written),
    }
}

/// The variable is null from here on.
fn write_null(place: Place, variable: VarId, written: &mut Written) -> Result<(), Stop>
    ensures code { OnOk result (code_of written.new ≡ code_of written.old ++ cleared place variable) }
    ensures room { IsRoom (room_null place variable (room_of written.old)) (room_of written.new) result }
{
    written.op(place, Op::PushNull)?;
    written.op(place, Op::Set(variable))?;
    written.op(place, Op::Drop)
}

/// The variables are null from here on.
fn write_cleared(place: Place, variables: &[VarId], written: &mut Written) -> Result<(), Stop>
    ensures code { OnOk result (code_of written.new ≡ code_of written.old ++ flat_map (cleared place) variables.now) }
    ensures room { IsRoom (room_behind (flat_map (cleared place) variables.now) (room_of written.old))
        (room_of written.new) result }
{
    for variable in variables {
        write_null(place, *variable, written)?;
    }
    Ok(())
}

/// A draft under a lock.
#[cycle(only)]
fn write_held(
    alloc: Global,
    place: Place,
    kind: LockKind,
    body: &Draft,
    asked: Asked,
    written: &mut Written,
) -> Result<(), Stop>
    ensures code { OnOk result (code_of written.new
        ≡ code_of written.old ++ locked kind place (only (in_order body.now) (seen_asked asked.entry))) }
    ensures room { IsRoom (in_branching (room_behind (only (in_order body.now) (seen_asked asked.entry)))
        (room_of written.old)) (room_of written.new) result }
{
    written.enter()?;
    let at = written.len();
    write(alloc, body, asked, written)?;
    written.hold(alloc, kind, place, at)?;
    Ok(())
}

/// A choice between two drafts.
#[cycle(only)]
fn write_fork(
    alloc: Global,
    left: &Draft,
    right: &Draft,
    asked: Asked,
    written: &mut Written,
) -> Result<(), Stop>
    ensures code { OnOk result (code_of written.new ≡ code_of written.old
        ++ fork (only (in_order left.now) (seen_asked asked.entry))
        (only (in_order right.now) (seen_asked asked.entry))) }
    ensures room { IsRoom (in_branching (λ r. option_and_then (room_behind
        (only (in_order right.now) (seen_asked asked.entry))) (room_behind
        (only (in_order left.now) (seen_asked asked.entry)) r)) (room_of written.old)) (room_of written.new) result }
{
    written.enter()?;
    let first = written.len();
    write(alloc, left, asked, written)?;
    let second = written.len();
    write(alloc, right, asked, written)?;
    written.choose(alloc, first, second)?;
    Ok(())
}

/// Those of two drafts that have such an end, as a choice where both have.
#[cycle(only)]
fn write_choice(
    alloc: Global,
    left: &Draft,
    right: &Draft,
    asked: Asked,
    written: &mut Written,
) -> Result<(), Stop>
    ensures code { OnOk result (code_of written.new ≡ code_of written.old
        ++ only_part (path.Choice (in_order left.now) (in_order right.now)) (seen_asked asked.entry)) }
    ensures room { IsRoom (room_behind (only_part (path.Choice (in_order left.now) (in_order right.now))
        (seen_asked asked.entry)) (room_of written.old)) (room_of written.new) result }
{
    if !meets(left, asked) {
        return write(alloc, right, asked, written);
    }
    if !meets(right, asked) {
        return write(alloc, left, asked, written);
    }
    write_fork(alloc, left, right, asked, written)
}

/// What leaves the body for the exit ends normally.
#[cycle(only)]
fn write_within(
    alloc: Global,
    exit: Exit,
    body: &Draft,
    asked: Asked,
    written: &mut Written,
) -> Result<(), Stop>
    ensures code { OnOk result (code_of written.new
        ≡ code_of written.old ++ only (in_order body.now) (asked_within exit.0 (seen_asked asked.entry))) }
    ensures room { IsRoom (room_behind (only (in_order body.now) (asked_within exit.0 (seen_asked asked.entry)))
        (room_of written.old)) (room_of written.new) result }
{
    let within = within_asked(alloc, exit, asked)?;
    write(alloc, body, within.asked(), written)
}

/// A draft, behind which the variables are null.
#[cycle(only)]
fn write_ending(
    alloc: Global,
    body: &Draft,
    place: Place,
    variables: &[VarId],
    asked: Asked,
    written: &mut Written,
) -> Result<(), Stop>
    ensures code { OnOk result (code_of written.new ≡ code_of written.old
        ++ (only (in_order body.now) (seen_asked asked.entry) ++ flat_map (cleared place) variables.now)) }
    ensures room { IsRoom (room_behind (only (in_order body.now) (seen_asked asked.entry) ++ flat_map (cleared place)
        variables.now) (room_of written.old)) (room_of written.new) result }
{
    write(alloc, body, asked, written)?;
    write_cleared(place, variables, written)
}
