//! The trunk: what the ways to many records of a method have in common is walked once, and copied where they part.
ghost use Rattle.std.specs.Prelude.{◌≡◌, ◌≤◌, List, [], IfOk, OnOk};
ghost use Rattle.std.specs.Option.{IfSome};
ghost use Rattle.racer_base.specs.declared.ids.FieldId.{FieldId};
ghost use Rattle.core_code.specs.Program.{core};
ghost use Rattle.core_ways.specs.Gathered.{gathered};
ghost use Rattle.witness_build_walks.specs.Told.{IsLast};
ghost use Rattle.witness_build_walks.specs.Walks.{AreKept, CanGoOn, HasKept, IsFront, IsSame, IsWalk};

use crate::along::{Course, are_same, goes_on, resumed, turn_at};
use crate::walk::{Walk, let_last_go, let_walk_go, step_on};
use core_code::Program;
use core_semantics::Turn;
use core_ways::{Leg, Objects, let_go};
use racer_base::{FieldId, Memory};
use std::alloc::Global;
use std::collections::BTreeSet;

/// What a walk keeps beside its machine. It is copied apart: a drop is proved wherever memory can be refused, and that
/// of a machine is dear.
#[derive(Drop)]
struct KeptParts {
    turns: Vec<Turn>,
    given: Objects,
    reads: BTreeSet<FieldId>,
    writes: BTreeSet<FieldId>,
}

/// With how many same turns two ways begin.
fn shared_turns(a: &[Turn], b: &[Turn]) -> usize {
    for number in 0..a.len() {
        if !are_same(turn_at(a, number), turn_at(b, number)) {
            return number;
        }
    }
    a.len()
}

/// How many turns a course shares with a walk.
fn shared(walk: &Walk, course: Course) -> usize {
    if walk.method.0 != course.method.0 {
        return 0;
    }
    shared_turns(walk.turns.as_slice(), course.leg.turns.as_slice())
}

/// Fields among which each of these is.
fn fields_copied(kept: &BTreeSet<FieldId>) -> Result<BTreeSet<FieldId>, Memory>
    ensures { IfOk result (λ copy. (fields : List FieldId) → AreKept kept.now fields → AreKept copy fields) }
{
    let copy = kept.clone()?;
    Ok(copy)
}

/// Objects that were given, once more.
fn given_copied(alloc: Global, given: &Objects) -> Result<Objects, Memory>
    ensures { IfOk result (λ copy. copy ≡ gathered [] given.now) }
{
    let mut copy = Objects::new(alloc);
    copy.add_all(given)?;
    Ok(copy)
}

/// A copy of what a walk keeps beside its machine.
fn kept_copied(alloc: Global, walk: &Walk) -> Result<KeptParts, Memory>
    ensures { IfOk result (λ copy. HasKept walk.now copy) }
{
    let turns = Vec::from_slice(alloc, walk.turns.as_slice())?;
    let reads = fields_copied(&walk.reads)?;
    let writes = fields_copied(&walk.writes)?;
    let given = given_copied(alloc, &walk.given)?;
    Ok(KeptParts {
        turns,
        given,
        reads,
        writes,
    })
}

/// A walk that is where this one is; none where its machine has no copy.
fn copied<'a>(alloc: Global, walk: &Walk<'a>) -> Result<Option<Walk<'a>>, Memory>
    ensures { IfOk result (λ copied. IfSome copied (λ copy. IsSame walk.now copy)) }
{
    let Some(machine) = walk.machine.copied()? else {
        return Ok(None);
    };
    let Ok(kept) = kept_copied(alloc, walk) else {
        let_go(machine);
        return Err(Memory);
    };
    Ok(Some(Walk {
        machine,
        thread: walk.thread,
        method: walk.method,
        steps: walk.steps,
        turns: kept.turns,
        given: kept.given,
        reads: kept.reads,
        writes: kept.writes,
        is_loud: walk.is_loud,
    }))
}

/// Walks on along a leg, up to the step that takes the turn of this number.
fn walk_up_to<'a>(
    program: &'a Program,
    walk: &mut Walk<'a>,
    leg: &Leg,
    turns: usize,
) -> Result<(), Memory>
    requires walk { IsWalk (core program.now) walk.old }
    requires steps { walk.old.steps ≤ leg.now.steps }
    requires turns { IsFront walk.old.turns.items leg.now.turns }
    ensures walk { OnOk result (IsWalk (core program.now) walk.new) }
    ensures thread { OnOk result (walk.new.thread ≡ walk.old.thread) }
    ensures onward { OnOk result (CanGoOn walk.new walk.old.method leg.now) }
{
    let mut rest = &leg.turns.as_slice()[walk.turns.len()..];
    while walk.steps < leg.steps {
        if walk.turns.len() >= turns && walk.machine.wants_turn(walk.thread) {
            return Ok(());
        }
        let Some(left) = step_on(program, walk, rest)? else {
            return Ok(());
        };
        rest = left;
    }
    Ok(())
}

/// The walk that a course goes on from: a copy of the trunk, which first goes on to where the course leaves it, behind
/// so many turns.
fn branched<'a>(
    alloc: Global,
    program: &'a Program,
    trunk: &mut Option<Walk<'a>>,
    course: Course,
    turns: usize,
) -> Result<Walk<'a>, Memory>
    requires { IsLast (core program.now) course.leg.now.thread trunk.old }
    ensures trunk { OnOk result (IsLast (core program.now) course.entry.leg.now.thread trunk.new) }
    ensures walk { IfOk result (λ walk. IsWalk (core program.now) walk) }
    ensures thread { IfOk result (λ walk. walk.thread ≡ course.entry.leg.now.thread) }
    ensures onward { IfOk result (λ walk. CanGoOn walk course.entry.method course.entry.leg.now) }
{
    let mut base = resumed(alloc, program, trunk.take(), course)?;
    if turns == 0 {
        return Ok(base);
    }
    let Ok(()) = walk_up_to(program, &mut base, course.leg, turns) else {
        let_walk_go(base);
        return Err(Memory);
    };
    let Ok(copied) = copied(alloc, &base) else {
        let_walk_go(base);
        return Err(Memory);
    };
    let Some(copy) = copied else {
        return Ok(base);
    };
    let_last_go(trunk.replace(base));
    Ok(copy)
}

/// The walk that a course goes on from: this one, or one that leaves the trunk.
pub(crate) fn resumed_on<'a>(
    alloc: Global,
    program: &'a Program,
    kept: Option<Walk<'a>>,
    trunk: &mut Option<Walk<'a>>,
    course: Course,
) -> Result<Walk<'a>, Memory>
    requires kept { IsLast (core program.now) course.leg.now.thread kept }
    requires trunk { IsLast (core program.now) course.leg.now.thread trunk.old }
    ensures trunk { OnOk result (IsLast (core program.now) course.entry.leg.now.thread trunk.new) }
    ensures walk { IfOk result (λ walk. IsWalk (core program.now) walk) }
    ensures thread { IfOk result (λ walk. walk.thread ≡ course.entry.leg.now.thread) }
    ensures onward { IfOk result (λ walk. CanGoOn walk course.entry.method course.entry.leg.now) }
{
    let mut turns = 0;
    if let Some(walk) = kept {
        if goes_on(&walk, course) {
            return Ok(walk);
        }
        turns = shared(&walk, course);
        let_walk_go(walk);
    }
    branched(alloc, program, trunk, course, turns)
}
