//! Walks along a whole way, from where they are or from the beginning.
ghost use Rattle.std.specs.Prelude.{◌≡◌, ◌≤◌, true, slice_get, IfOk, OnOk};
ghost use Rattle.core_code.specs.Program.{core};
ghost use Rattle.witness_build_walks.specs.Told.{IsGoneIn, IsLast};
ghost use Rattle.witness_build_walks.specs.Walks.{CanGoOn, HasGone, IsFront, IsWalk};

use crate::trunk::resumed_on;
use crate::walk::{Walk, let_last_go, let_walk_go, step_on, walk_from_entry};
use core_code::Program;
use core_semantics::Turn;
use core_ways::Leg;
use racer_base::{Memory, MethodId};
use std::alloc::Global;

/// The leg of a thread along a way of a method.
#[derive(Clone, Copy)]
pub(crate) struct Course<'l> {
    pub method: MethodId,
    pub leg: &'l Leg,
}

/// The turn of this number.
pub(crate) fn turn_at(turns: &[Turn], number: usize) -> Option<Turn>
    ensures { result ≡ slice_get turns.now number }
{
    turns.get(number).copied()
}

/// Whether two turns are there and are the same.
pub(crate) fn are_same(a: Option<Turn>, b: Option<Turn>) -> bool
    ensures { result ≡ true → a ≡ b }
{
    match (a, b) {
        (Some(Turn::Left), Some(Turn::Left)) => true,
        (Some(Turn::Right), Some(Turn::Right)) => true,
        _ => false,
    }
}

/// Whether turns begin with others.
fn begin_with(turns: &[Turn], front: &[Turn]) -> bool
    ensures { result ≡ true → IsFront front.now turns.now }
{
    for number in 0..front.len() {
        if !are_same(turn_at(turns, number), turn_at(front, number)) {
            return false;
        }
    }
    true
}

/// Whether a course goes on from where a walk is.
pub(crate) fn goes_on(walk: &Walk, course: Course) -> bool
    ensures { result ≡ true → CanGoOn walk.now course.entry.method course.entry.leg.now }
{
    walk.method.0 == course.method.0
        && walk.steps <= course.leg.steps
        && begin_with(course.leg.turns.as_slice(), walk.turns.as_slice())
}

/// The walk that a course goes on from: this one, or one at the method's entry.
pub(crate) fn resumed<'a>(
    alloc: Global,
    program: &'a Program,
    kept: Option<Walk<'a>>,
    course: Course,
) -> Result<Walk<'a>, Memory>
    requires { IsLast (core program.now) course.leg.now.thread kept }
    ensures walk { IfOk result (λ walk. IsWalk (core program.now) walk) }
    ensures thread { IfOk result (λ walk. walk.thread ≡ course.entry.leg.now.thread) }
    ensures onward { IfOk result (λ walk. CanGoOn walk course.entry.method course.entry.leg.now) }
{
    if let Some(walk) = kept {
        if goes_on(&walk, course) {
            return Ok(walk);
        }
        let_walk_go(walk);
    }
    walk_from_entry(alloc, program, course.leg.thread, course.method)
}

/// Walks on along a course, as far as that can be; whether it is all of it.
fn walk_on<'a>(program: &'a Program, walk: &mut Walk<'a>, leg: &Leg) -> Result<bool, Memory>
    requires walk { IsWalk (core program.now) walk.old }
    requires steps { walk.old.steps ≤ leg.now.steps }
    requires turns { IsFront walk.old.turns.items leg.now.turns }
    ensures walk { OnOk result (IsWalk (core program.now) walk.new) }
    ensures thread { OnOk result (walk.new.thread ≡ walk.old.thread) }
    ensures method { OnOk result (walk.new.method ≡ walk.old.method) }
    ensures gone { IfOk result (λ all. HasGone (core program.now) leg.now walk.new all) }
{
    let mut rest = &leg.turns.as_slice()[walk.turns.len()..];
    while walk.steps < leg.steps {
        let Some(left) = step_on(program, walk, rest)? else {
            return Ok(false);
        };
        rest = left;
    }
    Ok(true)
}

/// Walks along a course, as far as that can be; whether it is all of it.
pub(crate) fn walk_along<'a>(
    alloc: Global,
    program: &'a Program,
    slot: &mut Option<Walk<'a>>,
    trunk: &mut Option<Walk<'a>>,
    course: Course,
) -> Result<bool, Memory>
    requires slot { IsLast (core program.now) course.leg.now.thread slot.old }
    requires trunk { IsLast (core program.now) course.leg.now.thread trunk.old }
    ensures trunk { OnOk result (IsLast (core program.now) course.entry.leg.now.thread trunk.new) }
    ensures last { OnOk result (IsLast (core program.now) course.entry.leg.now.thread slot.new) }
    ensures gone { IfOk result (λ all.
        IsGoneIn (core program.now) course.entry.method course.entry.leg.now all slot.new) }
{
    let mut walk = resumed_on(alloc, program, slot.take(), trunk, course)?;
    let Ok(all) = walk_on(program, &mut walk, course.leg) else {
        let_walk_go(walk);
        return Err(Memory);
    };
    let_last_go(slot.replace(walk));
    Ok(all)
}
