//! The ways to the sites of a method, noted in one pass over its code.
ghost use Rattle.std.specs.Prelude.{◌≡◌, ℕ, suc, ◌∷◌, [], true, map, IfOk, OnOk};
ghost use Rattle.core_code.specs.Core.{Core};
ghost use Rattle.core_code.specs.Program.{core};
ghost use Rattle.core_code.specs.Tree.{Tree, in_sequence, tree_of};
ghost use Rattle.core_code.specs.Tree as tree;
ghost use Rattle.core_ways.specs.declared.part.WayPart.TheVariants.{Step};
ghost use Rattle.core_ways.specs.Passings.{IsTable};
ghost use Rattle.core_ways.specs.Ways.{Trip, joined, passed, trip_along, trip_of};
ghost use Rattle.core_semantics.specs.declared.answer.Turn.TheVariants.{Left};
ghost use Rattle.core_ways_sites.specs.Gone.{IsLonger, LeadsOn, one_turn};
ghost use Rattle.core_ways_sites.specs.Sites.{AreLed, AreLeft, AreRight, IsReached};

use crate::gone::{along, step, turn};
use core_code::{Code, Op, Program};
use core_semantics::Turn;
use core_ways::{Count, Passings, pass};
use racer_base::{Memory, Place, SiteId};
use std::alloc::Global;
use std::collections::{BTreeMap, BTreeSet};

/// The way to a site within its method, and the operation there.
#[derive(Drop)]
pub(crate) struct Reached {
    pub count: Count,
    pub turns: Vec<Turn>,
    pub op: Op,
}

/// Sites of a method: those that are still to be found, and the ways to others.
#[derive(Drop)]
pub(crate) struct Sites {
    pub wanted: BTreeSet<u32>,
    pub found: BTreeMap<u32, Reached>,
    /// How many turns may still be kept: a way that has more is not noted.
    pub room: usize,
}

/// Notes what is gone up to a site.
fn note(
    alloc: Global,
    sites: &mut Sites,
    turns: &[Turn],
    count: Count,
    site: SiteId,
    op: Op,
) -> Result<(), Memory>
    ensures wanted { OnOk result (sites.new.wanted ≡ sites.old.wanted) }
    ensures found { (c : Core) (whole : Tree) →
        IsReached c whole site count turns.now op → AreRight c whole sites.old.found →
        OnOk result (AreRight c whole sites.new.found) }
{
    if turns.len() > sites.room {
        return Ok(());
    }
    let turns = Vec::from_slice(alloc, turns)?;
    let count_of_turns = turns.len();
    sites.found.insert(site.0, Reached { count, turns, op })?;
    sites.room -= count_of_turns;
    Ok(())
}

/// Notes what is gone up to an operation, where its site is still to be found.
fn visit_op(
    alloc: Global,
    sites: &mut Sites,
    turns: &[Turn],
    count: Count,
    site: SiteId,
    place: Place,
    op: Op,
) -> Result<(), Memory>
    ensures left { OnOk result (AreLeft (tree.Op site place op) sites.old.wanted sites.new.wanted) }
    ensures found { (c : Core) (whole : Tree) (locks : ℕ) →
        AreLed c whole locks (tree.Op site place op) sites.old.wanted count turns.now →
        AreRight c whole sites.old.found → OnOk result (AreRight c whole sites.new.found) }
{
    if sites.wanted.remove(&site.0) {
        note(alloc, sites, turns, count, site, op)?;
    }
    Ok(())
}

/// Goes on to the left side of a choice, or into a loop.
fn to_left(turns: &mut Vec<Turn>, count: Count) -> Result<Count, Memory>
    ensures longer { OnOk result (IsLonger turns.old.items turns.new.items) }
    ensures leads { (rest whole : Trip) → LeadsOn count turns.old.items (joined (one_turn Left) rest) whole →
        IfOk result (λ now. LeadsOn now turns.new.items rest whole) }
{
    turn(turns, count, Turn::Left)
}

/// The number of locks within one more.
fn deeper(locks: u32) -> Result<u32, Memory>
    ensures { IfOk result (λ more. more ≡ suc locks) }
{
    locks.checked_add(1).ok_or(Memory)
}

/// Whether passing a piece of code is one step that takes no turn.
fn is_one_step(code: &Code) -> bool
    ensures { (locks : ℕ) → result ≡ true → passed locks (tree_of code.now) ≡ Step ∷ [] }
{
    match code {
        Code::Op(_, _, Op::Ret | Op::Call(_, _) | Op::Unread(_, _)) => false,
        Code::Op(_, _, _) => true,
        Code::Seq(_) | Code::Choice(_, _) | Code::Loop(_) | Code::Sync(_, _, _) => false,
    }
}

/// Passes the parts of a piece of code within so many locks.
fn past_parts(
    alloc: Global,
    program: &Program,
    table: &mut Passings,
    turns: &mut Vec<Turn>,
    locks: u32,
    count: Count,
    code: &Code,
) -> Result<Count, Memory>
    requires { IsTable (core program.now) table.old }
    ensures table { OnOk result (IsTable (core program.now) table.new) }
    ensures longer { OnOk result (IsLonger turns.old.items turns.new.items) }
    ensures leads { (rest whole : Trip) →
        LeadsOn count turns.old.items
        (joined (trip_along (trip_of (core program.now)) (passed locks (tree_of code.now))) rest) whole →
        IfOk result (λ now. LeadsOn now turns.new.items rest whole) }
{
    let mut parts = Vec::new(alloc);
    let Ok(_ends) = pass(&mut parts, locks, code) else {
        return Err(Memory);
    };
    along(alloc, program, table, turns, count, parts.as_slice())
}

/// Passes a piece of code within so many locks.
fn past(
    alloc: Global,
    program: &Program,
    table: &mut Passings,
    turns: &mut Vec<Turn>,
    locks: u32,
    count: Count,
    code: &Code,
) -> Result<Count, Memory>
    requires { IsTable (core program.now) table.old }
    ensures table { OnOk result (IsTable (core program.now) table.new) }
    ensures longer { OnOk result (IsLonger turns.old.items turns.new.items) }
    ensures leads { (rest whole : Trip) →
        LeadsOn count turns.old.items
        (joined (trip_along (trip_of (core program.now)) (passed locks (tree_of code.now))) rest) whole →
        IfOk result (λ now. LeadsOn now turns.new.items rest whole) }
{
    if is_one_step(code) {
        return Ok(step(count));
    }
    past_parts(alloc, program, table, turns, locks, count, code)
}

/// Goes into a piece of code within so many locks, and notes what is gone up to each site that is still to be found.
#[cycle(visiting)]
pub(crate) fn visit(
    alloc: Global,
    program: &Program,
    table: &mut Passings,
    sites: &mut Sites,
    turns: &mut Vec<Turn>,
    locks: u32,
    count: Count,
    code: &Code,
) -> Result<(), Memory>
    requires { IsTable (core program.now) table.old }
    ensures table { OnOk result (IsTable (core program.now) table.new) }
    ensures longer { OnOk result (IsLonger turns.old.items turns.new.items) }
    ensures left { OnOk result (AreLeft (tree_of code.now) sites.old.wanted sites.new.wanted) }
    ensures found { (whole : Tree) →
        AreLed (core program.now) whole locks (tree_of code.now) sites.old.wanted count turns.old.items →
        AreRight (core program.now) whole sites.old.found →
        OnOk result (AreRight (core program.now) whole sites.new.found) }
{
    match code {
        Code::Op(site, place, op) => {
            visit_op(alloc, sites, turns.as_slice(), count, *site, *place, *op)
        }
        Code::Seq(codes) => {
            let codes = codes.as_slice();
            visit_through(alloc, program, table, sites, turns, locks, count, codes)
        }
        Code::Choice(left, right) => {
            let before = turns.len();
            let Ok(there) = to_left(turns, count) else {
                return Err(Memory);
            };
            let Ok(()) = visit(alloc, program, table, sites, turns, locks, there, left) else {
                return Err(Memory);
            };
            turns.truncate(before);
            let Ok(there) = turn(turns, count, Turn::Right) else {
                return Err(Memory);
            };
            visit(alloc, program, table, sites, turns, locks, there, right)
        }
        Code::Loop(body) => {
            let Ok(there) = to_left(turns, count) else {
                return Err(Memory);
            };
            visit(alloc, program, table, sites, turns, locks, there, body)
        }
        Code::Sync(_, _, body) => {
            let Ok(within) = deeper(locks) else {
                return Err(Memory);
            };
            let there = step(count);
            visit(alloc, program, table, sites, turns, within, there, body)
        }
    }
}

/// Goes into pieces of code one after another, up to the last site.
#[cycle(visiting)]
fn visit_through(
    alloc: Global,
    program: &Program,
    table: &mut Passings,
    sites: &mut Sites,
    turns: &mut Vec<Turn>,
    locks: u32,
    count: Count,
    codes: &[Code],
) -> Result<(), Memory>
    requires { IsTable (core program.now) table.old }
    ensures table { OnOk result (IsTable (core program.now) table.new) }
    ensures longer { OnOk result (IsLonger turns.old.items turns.new.items) }
    ensures left { OnOk result (
        AreLeft (in_sequence (map tree_of codes.now)) sites.old.wanted sites.new.wanted) }
    ensures found { (whole : Tree) →
        AreLed (core program.now) whole locks (in_sequence (map tree_of codes.now)) sites.old.wanted count
        turns.old.items → AreRight (core program.now) whole sites.old.found →
        OnOk result (AreRight (core program.now) whole sites.new.found) }
{
    let mut count = count;
    for code in codes {
        let before = turns.len();
        let Ok(()) = visit(alloc, program, table, sites, turns, locks, count, code) else {
            return Err(Memory);
        };
        if sites.wanted.is_empty() {
            return Ok(());
        }
        turns.truncate(before);
        let Ok(now) = past(alloc, program, table, turns, locks, count, code) else {
            return Err(Memory);
        };
        count = now;
    }
    Ok(())
}
