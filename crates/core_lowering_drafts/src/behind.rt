//! What is done behind the paths of a body with a `finally`.
ghost use Rattle.std.specs.Prelude.{◌≡◌, [], ◌∷◌, ◌++◌, ◌&&◌, not, filter, map, IfOk, OnOk};
ghost use Rattle.core_lowering_drafts.specs.Ahead.{item_of};
ghost use Rattle.core_lowering_drafts.specs.Branches.{AreAlike, all_branches, asked_behind, branch_of, parts_behind, rest_behind};
ghost use Rattle.core_lowering_drafts.specs.Drafts.{SameEnds, has, in_order, is_kept, is_same};
ghost use Rattle.core_lowering_drafts.specs.Drafts as path;
ghost use Rattle.core_lowering_drafts.specs.EndSets.{seen, seen_asked};
ghost use Rattle.core_lowering_drafts.specs.Only.{Last, does_stand, is_met, onto};

use crate::ahead::{Item, push_pieces};
use crate::draft::Draft;
use crate::ends::{Asked, Ends, Exit, both, either};
use crate::meeting::meets;
use racer_base::Memory;
use std::alloc::Global;

/// A `finally`, what is done last behind the exit, and the ends that are asked for.
#[derive(Clone, Copy)]
pub struct After<'a> {
    pub finally: &'a Draft,
    pub last: &'a Draft,
    pub asked: Asked<'a>,
}

/// Behind a path of the body: `finally` and the last, where it left for the exit; `finally`, behind which it ends as it
/// did; `finally`, by which it ends otherwise.
#[derive(Clone, Copy)]
pub enum Tail {
    AtExit,
    Kept,
    Turned,
}

/// Paths of a body that end by these, and what is done behind them.
#[derive(Drop)]
pub struct Branch {
    pub by: Ends,
    pub tail: Tail,
}

/// What is done behind, as items.
pub fn items_behind<'a>(
    alloc: Global,
    after: After<'a>,
    tail: Tail,
) -> Result<Vec<Item<'a>>, Memory>
    ensures { IfOk result (λ items. map item_of items.items ≡ parts_behind after.entry tail) }
{
    let mut items = Vec::new(alloc);
    push_pieces(after.finally.pieces(), &mut items)?;
    if let Tail::AtExit = tail {
        push_pieces(after.last.pieces(), &mut items)?;
    }
    Ok(items)
}

/// For which ends it is done.
pub fn asked_behind<'a>(after: After<'a>, tail: Tail) -> Asked<'a>
    ensures { SameEnds (seen_asked result) (asked_behind after.entry tail) }
{
    match tail {
        Tail::AtExit => after.asked,
        Tail::Kept => after.asked.with_normal(),
        Tail::Turned => after.asked.without_normal(),
    }
}

/// Whether `finally`, and then the last, have an end that is asked for.
fn do_both_meet(after: After) -> bool
    ensures { result ≡ is_met (onto (in_order after.entry.finally.now) (seen_asked after.entry.asked)
        (onto (in_order after.entry.last.now) (seen_asked after.entry.asked) Last)) (seen_asked after.entry.asked) }
{
    let leaves = meets(after.finally, after.asked.without_normal());
    let goes_on = both(
        after.finally.ends().has_normal(),
        meets(after.last, after.asked),
    );
    either(leaves, goes_on)
}

/// Whether what is done behind has an end that is asked for.
fn tail_meets(after: After, tail: Tail) -> bool
    ensures { result ≡ is_met (rest_behind after.entry tail) (asked_behind after.entry tail) }
{
    match tail {
        Tail::AtExit => do_both_meet(after),
        Tail::Kept => meets(after.finally, after.asked.with_normal()),
        Tail::Turned => meets(after.finally, after.asked.without_normal()),
    }
}

/// Puts a branch behind others, where it stands.
fn add_branch(branches: &mut Vec<Branch>, branch: Branch, after: After) -> Result<(), Memory>
    ensures { OnOk result (map (branch_of after.entry) branches.new.items
        ≡ map (branch_of after.entry) branches.old.items ++ filter does_stand (branch_of after.entry branch ∷ [])) }
{
    if both(branch.by.is_some(), tail_meets(after, branch.tail)) {
        branches.push(branch)?;
    }
    Ok(())
}

/// The exit, where the body leaves for it.
fn at_exit(alloc: Global, body: &Ends, exit: Exit) -> Result<Ends, Memory>
    ensures { IfOk result (λ ends. SameEnds (seen ends) (filter (is_same (path.Exit exit.0)) (seen body.now))) }
{
    if body.has(exit) {
        return Ends::of_exit(alloc, exit);
    }
    Ok(Ends::none(alloc))
}

/// Ends of a body that are kept behind a `finally` and not asked for.
fn turned(body: &Ends, exit: Exit, asked: Asked) -> Result<Ends, Memory>
    ensures { IfOk result (λ ends. SameEnds (seen ends)
        (filter (λ e. is_kept exit.0 e && not (has (seen_asked asked.entry) e)) (seen body.now))) }
{
    let mut ends = body.kept(exit)?;
    ends.leave_out_all(asked);
    Ok(ends)
}

/// Those that are asked for.
fn kept(body: &Ends, exit: Exit, asked: Asked) -> Result<Ends, Memory>
    ensures { IfOk result (λ ends. SameEnds (seen ends)
        (filter (λ e. is_kept exit.0 e && has (seen_asked asked.entry) e) (seen body.now))) }
{
    let others = turned(body, exit, asked)?;
    let mut ends = body.kept(exit)?;
    ends.leave_out_all(others.asked());
    Ok(ends)
}

/// The branches that stand behind a body.
pub fn standing(alloc: Global, body: &Ends, exit: Exit, after: After) -> Result<Vec<Branch>, Memory>
    ensures { IfOk result (λ all. AreAlike (map (branch_of after.entry) all.items)
        (filter does_stand (all_branches exit.0 (seen body.now) after.entry))) }
{
    let mut all = Vec::new(alloc);
    let by = at_exit(alloc, body, exit)?;
    add_branch(
        &mut all,
        Branch {
            by,
            tail: Tail::AtExit,
        },
        after,
    )?;
    let by = kept(body, exit, after.asked)?;
    add_branch(
        &mut all,
        Branch {
            by,
            tail: Tail::Kept,
        },
        after,
    )?;
    let by = turned(body, exit, after.asked)?;
    add_branch(
        &mut all,
        Branch {
            by,
            tail: Tail::Turned,
        },
        after,
    )?;
    Ok(all)
}
