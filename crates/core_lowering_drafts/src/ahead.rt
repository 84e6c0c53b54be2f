//! What is looked at ahead before the code of a part is written.
ghost use Rattle.std.specs.Prelude.{◌≡◌, ◌++◌, ◌<◌, length, map, take, IfOk, OnOk};
ghost use Rattle.core_lowering_drafts.specs.Ahead.{item_of, shape, shape_before, shapes, rest_of, some_rest};
ghost use Rattle.core_lowering_drafts.specs.Ahead.{way_by, way_met, way_on};
ghost use Rattle.core_lowering_drafts.specs.Drafts.{SameEnds, part_ends};
ghost use Rattle.core_lowering_drafts.specs.EndSets.{seen, seen_asked};
ghost use Rattle.core_lowering_drafts.specs.Groups.{entered, fallen};
ghost use Rattle.core_lowering_drafts.specs.Only.{are_met, is_met};
ghost use Rattle.core_lowering_drafts.specs.Pieces.{all_parts, parts_of};

use crate::draft::{Draft, Groups, Part, Piece};
use crate::ends::Asked;
use crate::meeting::item_meets;
use racer_base::Memory;
use std::alloc::Global;

/// A part where it stands in its sequence; the loop behind a body that is done at least once; the first so many groups
/// of a `switch`, or nothing.
#[derive(Clone, Copy)]
pub enum Item<'a> {
    Part(&'a Part),
    LoopOf(&'a Draft),
    Entered(&'a Groups, usize),
}

/// What stands behind a part: nothing; parts that have none of the ends; parts that have one.
#[derive(Clone, Copy)]
pub enum Behind {
    Last,
    Unmet,
    Met,
}

/// Which code of a part is written: none; that of all its paths; of those that do not go on; of those that go on and
/// those that end for good; of those that leave for an exit; the last two as a choice.
#[derive(Clone, Copy)]
pub enum Way {
    Nothing,
    Whole,
    Leaving,
    On,
    Exits,
    Both,
}

/// A choice that is open to the right: the part that its left side begins with, and the one of its right side.
#[derive(Clone, Copy)]
pub struct Fork {
    pub left: usize,
    pub right: usize,
}

/// A piece, put behind the items that there are.
#[cycle(items)]
fn push_piece<'a>(piece: &'a Piece, items: &mut Vec<Item<'a>>) -> Result<(), Memory>
    ensures { OnOk result (map item_of items.new.items ≡ map item_of items.old.items ++ parts_of piece.now) }
{
    match piece {
        Piece::Part(part) => {
            items.push(Item::Part(part))?;
            Ok(())
        }
        Piece::Again(body) => {
            push_pieces(body.pieces(), items)?;
            items.push(Item::LoopOf(&**body))?;
            Ok(())
        }
    }
}

/// Pieces, put behind the items that there are.
#[cycle(items)]
pub fn push_pieces<'a>(pieces: &'a [Piece], items: &mut Vec<Item<'a>>) -> Result<(), Memory>
    ensures { OnOk result (map item_of items.new.items ≡ map item_of items.old.items ++ all_parts pieces.now) }
{
    for piece in pieces {
        push_piece(piece, items)?;
    }
    Ok(())
}

/// What goes on in the group behind the first so many, put behind the items that there are.
fn push_entered<'a>(
    groups: &'a Groups,
    before: usize,
    items: &mut Vec<Item<'a>>,
) -> Result<(), Memory>
    requires { before < length groups.now }
    ensures { OnOk result (map item_of items.new.items
        ≡ map item_of items.old.items ++ entered (take before groups.now)) }
{
    if 0 < before {
        items.push(Item::Entered(groups, before))?;
    }
    Ok(())
}

/// The first so many groups, put behind the items that there are.
pub fn push_groups<'a>(
    groups: &'a Groups,
    count: usize,
    items: &mut Vec<Item<'a>>,
) -> Result<(), Memory>
    ensures { OnOk result (map item_of items.new.items
        ≡ map item_of items.old.items ++ fallen (take count groups.now)) }
{
    let Some(before) = count.checked_sub(1) else {
        return Ok(());
    };
    let Some(group) = groups.drafts.get(before) else {
        return Err(Memory);
    };
    push_entered(groups, before, items)?;
    push_pieces(group.pieces(), items)
}

/// Whether a path that comes to what stands behind can end so.
fn is_met(behind: Behind, asked: Asked) -> bool
    ensures { result ≡ is_met (some_rest behind) (seen_asked asked.entry) }
{
    match behind {
        Behind::Last => asked.has_normal(),
        Behind::Unmet => false,
        Behind::Met => true,
    }
}

/// Whether a path that comes to an item can end so.
fn are_met(alloc: Global, item: Item, behind: Behind, asked: Asked) -> Result<bool, Memory>
    ensures { IfOk result (λ met. met
        ≡ are_met (part_ends (item_of item.entry)) (some_rest behind) (seen_asked asked.entry)) }
{
    if item_meets(alloc, item, asked.without_normal())? {
        return Ok(true);
    }
    if !is_met(behind, asked) {
        return Ok(false);
    }
    item_meets(alloc, item, Asked::normal_alone())
}

/// Which code of an item is written that something stands behind which has one of the ends.
fn way_on(alloc: Global, item: Item, asked: Asked) -> Result<Way, Memory>
    ensures { IfOk result (λ way. way ≡ way_on (part_ends (item_of item.entry)) (seen_asked asked.entry)) }
{
    if !item_meets(alloc, item, asked.exits_alone())? {
        return Ok(Way::On);
    }
    if item_meets(alloc, item, asked.on())? {
        return Ok(Way::Both);
    }
    Ok(Way::Exits)
}

/// Which code of an item is written that has one of the ends.
fn way_met(alloc: Global, item: Item, behind: Behind, asked: Asked) -> Result<Way, Memory>
    ensures { IfOk result (λ way. way ≡ way_met (part_ends (item_of item.entry)) behind (seen_asked asked.entry)) }
{
    match behind {
        Behind::Last => Ok(Way::Whole),
        Behind::Unmet => Ok(Way::Leaving),
        Behind::Met => way_on(alloc, item, asked),
    }
}

/// Which code of an item is written.
pub fn way_of(alloc: Global, item: Item, behind: Behind, asked: Asked) -> Result<Way, Memory>
    ensures { IfOk result (λ way. way ≡ way_by (part_ends (item_of item.entry)) behind (seen_asked asked.entry)) }
{
    if !are_met(alloc, item, behind, asked)? {
        return Ok(Way::Nothing);
    }
    way_met(alloc, item, behind, asked)
}

/// What stands behind, with an item before it.
fn put_before(alloc: Global, item: Item, behind: Behind, asked: Asked) -> Result<Behind, Memory>
    ensures { IfOk result (λ next. next
        ≡ shape_before (part_ends (item_of item.entry)) behind (seen_asked asked.entry)) }
{
    if are_met(alloc, item, behind, asked)? {
        return Ok(Behind::Met);
    }
    Ok(Behind::Unmet)
}

/// What stands behind each item, the last one first.
pub fn look_ahead(alloc: Global, items: &[Item], asked: Asked) -> Result<Vec<Behind>, Memory>
    ensures { IfOk result (λ ahead. ahead.items ≡ shapes (map item_of items.now) (seen_asked asked.entry)) }
{
    let mut ahead = Vec::new(alloc);
    let mut behind = Behind::Last;
    for i in (0..items.len()).rev() {
        ahead.push(behind)?;
        behind = put_before(alloc, items[i], behind, asked)?;
    }
    Ok(ahead)
}
