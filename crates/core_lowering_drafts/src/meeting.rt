//! Whether parts have an end that is asked for. Where the ends that are kept of what is in a part tell it, no set is
//! made: each part is asked once for every set of ends for which its sequence is written.
ghost use Rattle.std.specs.Prelude.{◌≡◌, take, IfOk};
ghost use Rattle.core_lowering_drafts.specs.Ahead.{item_of};
ghost use Rattle.core_lowering_drafts.specs.Drafts.{do_meet, in_order, meets, no_part, part_ends};
ghost use Rattle.core_lowering_drafts.specs.Drafts as path;
ghost use Rattle.core_lowering_drafts.specs.EndSets.{seen_asked};
ghost use Rattle.core_lowering_drafts.specs.Groups.{fallen};
ghost use Rattle.core_lowering_drafts.specs.Pieces.{part_of};

use crate::ahead::Item;
use crate::draft::{Draft, Groups, Part};
use crate::ends::{Asked, Ends, Exit, both, either};
use crate::joined::{part_ends, within_ends};
use racer_base::Memory;
use std::alloc::Global;

/// Whether a draft has such an end.
pub fn meets(draft: &Draft, asked: Asked) -> bool
    ensures { result ≡ meets (in_order draft.now) (seen_asked asked.entry) }
{
    draft.ends().meet(asked)
}

fn choice_meets(left: &Draft, right: &Draft, asked: Asked) -> bool
    ensures { result ≡ do_meet (part_ends (path.Choice (in_order left.now) (in_order right.now)))
        (seen_asked asked.entry) }
{
    either(meets(left, asked), meets(right, asked))
}

fn loop_meets(body: &Draft, asked: Asked) -> bool
    ensures { result ≡ do_meet (part_ends (path.Loop (in_order body.now))) (seen_asked asked.entry) }
{
    either(asked.has_normal(), meets(body, asked))
}

fn exit_meets(exit: Exit, asked: Asked) -> bool
    ensures { result ≡ do_meet (part_ends (path.Leave exit.0)) (seen_asked asked.entry) }
{
    asked.has(exit)
}

fn within_meets(alloc: Global, exit: Exit, body: &Draft, asked: Asked) -> Result<bool, Memory>
    ensures { IfOk result (λ met. met
        ≡ do_meet (part_ends (path.Within exit.0 (in_order body.now))) (seen_asked asked.entry)) }
{
    if asked.has(exit) {
        let ends = within_ends(body.ends(), exit)?;
        return Ok(ends.meet(asked));
    }
    let comes_out = both(body.ends().has(exit), asked.has_normal());
    Ok(either(comes_out, meets(body, asked)))
}

fn entered_meets(groups: &Groups, count: usize, asked: Asked) -> Result<bool, Memory>
    ensures { IfOk result (λ met. met
        ≡ do_meet (part_ends (path.Choice (in_order (fallen (take count groups.now))) no_part))
        (seen_asked asked.entry)) }
{
    let met = groups.meet(count, asked)?;
    Ok(either(met, asked.has_normal()))
}

fn made_meets(alloc: Global, part: &Part, asked: Asked) -> Result<bool, Memory>
    ensures { IfOk result (λ met. met ≡ do_meet (part_ends (part_of part.now)) (seen_asked asked.entry)) }
{
    let ends = part_ends(alloc, part)?;
    Ok(ends.meet(asked))
}

fn part_meets(alloc: Global, part: &Part, asked: Asked) -> Result<bool, Memory>
    ensures { IfOk result (λ met. met ≡ do_meet (part_ends (part_of part.now)) (seen_asked asked.entry)) }
{
    match part {
        Part::Op(_, op) => Ok(Ends::of_op(alloc, *op).meet(asked)),
        Part::Choice(left, right) => Ok(choice_meets(left, right, asked)),
        Part::Loop(body) => Ok(loop_meets(body, asked)),
        Part::Sync(_, _, body) => Ok(meets(body, asked)),
        Part::Leave(exit) => Ok(exit_meets(*exit, asked)),
        Part::Within(exit, body) => within_meets(alloc, *exit, body, asked),
        Part::Never => Ok(false),
        Part::Ending(body, _, _) => Ok(meets(body, asked)),
        Part::Behind(_, _, _, _) => made_meets(alloc, part, asked),
        Part::Entered(groups) => entered_meets(groups, groups.len(), asked),
    }
}

/// Whether an item has such an end.
pub(crate) fn item_meets(alloc: Global, item: Item, asked: Asked) -> Result<bool, Memory>
    ensures { IfOk result (λ met. met ≡ do_meet (part_ends (item_of item.entry)) (seen_asked asked.entry)) }
{
    match item {
        Item::Part(part) => part_meets(alloc, part, asked),
        Item::LoopOf(body) => Ok(loop_meets(body, asked)),
        Item::Entered(groups, count) => entered_meets(groups, count, asked),
    }
}
