//! The last walks of both threads.
ghost use Rattle.std.specs.Prelude.{◌≡◌, ◌+◌, List, [], false, true, IfOk, OnOk};
ghost use Rattle.racer_base.specs.declared.ids.MethodId.{MethodId};
ghost use Rattle.core_code.specs.Program.{core};
ghost use Rattle.core_code.specs.Core.{Core};
ghost use Rattle.core_semantics.specs.declared.object.Start.TheVariants.{All};
ghost use Rattle.core_semantics.specs.declared.object.StartPath.{StartPath};
ghost use Rattle.core_semantics.specs.Runs.{begun};
ghost use Rattle.core_ways.specs.declared.mark.Leg.{Leg};
ghost use Rattle.core_ways.specs.Marks.{leg_of};
ghost use Rattle.witness_build_apart_laws.specs.Starts.{entry_of};
ghost use Rattle.witness_build_walks.specs.Told.{AreWalks, IsGone, IsGoneIn, IsLast, IsTold};

use crate::along::{Course, walk_along};
use crate::apart::{place_of, told};
use crate::behind::told_behind;
use crate::walk::{Walk, let_last_go};
use core_code::Program;
use core_ways::{Leg, Objects};
use racer_base::{Memory, MethodId, Place};
use std::alloc::Global;

/// What walks tell of two legs, one after the other.
#[derive(Clone, Copy)]
pub enum Walked {
    /// The thread of this number cannot make its leg: it stops at this place.
    Stopped(u32, Option<Place>),
    /// Both legs can be made.
    Past,
    /// The second leg may see what the first left.
    Unknown,
}

/// The last walk of each thread, and its trunk.
#[derive(Drop)]
pub struct Walks<'a> {
    alloc: Global,
    first: Option<Walk<'a>>,
    second: Option<Walk<'a>>,
    /// Where the last walks of each thread left what their ways have in common.
    first_trunk: Option<Walk<'a>>,
    second_trunk: Option<Walk<'a>>,
}

/// Lets walks go. Each type of their parts is taken apart here, so a crate that owns walks need not show how.
pub fn let_go(walks: Walks) {
    let_last_go(walks.first);
    let_last_go(walks.second);
    let_last_go(walks.first_trunk);
    let_last_go(walks.second_trunk);
}

/// What two walks tell, and else a run of the second leg behind the first walk.
fn told_by<'a>(
    program: &'a Program,
    first: &Walk,
    second: &Walk,
    all: bool,
    course: Course,
    objects: &mut Objects,
) -> Result<Walked, Memory>
    requires { objects.old ≡ [] }
    ensures { (m m1 m2 : MethodId) (f : Leg) → f.thread + course.entry.leg.now.thread ≡ 1 →
        m ≡ entry_of f.thread m1 m2 → course.entry.method ≡ entry_of course.entry.leg.now.thread m1 m2 →
        IsGone (core program.now) m f true first.now →
        IsGone (core program.now) course.entry.method course.entry.leg.now all second.now →
        IfOk result (λ walked. IsTold (core program.now) (leg_of f) (leg_of course.entry.leg.now)
        (begun (core program.now) m1 m2 All) objects.new walked) }
{
    let Ok(walked) = told(first, second, all, objects) else {
        return Err(Memory);
    };
    match walked {
        Walked::Stopped(thread, place) => Ok(Walked::Stopped(thread, place)),
        Walked::Past => Ok(Walked::Past),
        Walked::Unknown => told_behind(program, first, course, objects),
    }
}

/// What is told where there are two walks.
fn told_of<'a>(
    program: &'a Program,
    first: &Option<Walk>,
    second: &Option<Walk>,
    all: bool,
    course: Course,
    objects: &mut Objects,
) -> Result<Walked, Memory>
    requires { objects.old ≡ [] }
    ensures { (m m1 m2 : MethodId) (f : Leg) → f.thread + course.entry.leg.now.thread ≡ 1 →
        m ≡ entry_of f.thread m1 m2 → course.entry.method ≡ entry_of course.entry.leg.now.thread m1 m2 →
        IsGoneIn (core program.now) m f true first.now →
        IsGoneIn (core program.now) course.entry.method course.entry.leg.now all second.now →
        IfOk result (λ walked. IsTold (core program.now) (leg_of f) (leg_of course.entry.leg.now)
        (begun (core program.now) m1 m2 All) objects.new walked) }
{
    let Some(first) = first else {
        return Ok(Walked::Unknown);
    };
    let Some(second) = second else {
        return Ok(Walked::Unknown);
    };
    told_by(program, first, second, all, course, objects)
}

/// What is told where the first leg cannot be made.
fn told_of_stopped(walk: &Option<Walk>) -> Walked
    ensures { (c : Core) (m m1 m2 : MethodId) (f g : Leg) (objects : List StartPath) →
        m ≡ entry_of f.thread m1 m2 → IsGoneIn c m f false walk.now →
        IsTold c (leg_of f) (leg_of g) (begun c m1 m2 All) objects result }
{
    match walk {
        Some(walk) => Walked::Stopped(walk.thread, place_of(walk)),
        None => Walked::Unknown,
    }
}

/// Walks along two courses, one after the other.
fn walk_both<'a>(
    alloc: Global,
    program: &'a Program,
    one: &mut Option<Walk<'a>>,
    other: &mut Option<Walk<'a>>,
    one_trunk: &mut Option<Walk<'a>>,
    other_trunk: &mut Option<Walk<'a>>,
    first: Course,
    second: Course,
    objects: &mut Objects,
) -> Result<Walked, Memory>
    requires one { IsLast (core program.now) first.leg.now.thread one.old }
    requires other { IsLast (core program.now) second.leg.now.thread other.old }
    requires one_trunk { IsLast (core program.now) first.leg.now.thread one_trunk.old }
    requires other_trunk { IsLast (core program.now) second.leg.now.thread other_trunk.old }
    requires threads { first.leg.now.thread + second.leg.now.thread ≡ 1 }
    requires none { objects.old ≡ [] }
    ensures one { OnOk result (IsLast (core program.now) first.entry.leg.now.thread one.new) }
    ensures other { OnOk result (IsLast (core program.now) second.entry.leg.now.thread other.new) }
    ensures one_trunk { OnOk result (IsLast (core program.now) first.entry.leg.now.thread one_trunk.new) }
    ensures other_trunk { OnOk result (IsLast (core program.now) second.entry.leg.now.thread other_trunk.new) }
    ensures told { (m1 m2 : MethodId) → first.entry.method ≡ entry_of first.entry.leg.now.thread m1 m2 →
        second.entry.method ≡ entry_of second.entry.leg.now.thread m1 m2 →
        IfOk result (λ walked. IsTold (core program.now) (leg_of first.entry.leg.now) (leg_of second.entry.leg.now)
        (begun (core program.now) m1 m2 All) objects.new walked) }
{
    if !walk_along(alloc, program, one, one_trunk, first)? {
        return Ok(told_of_stopped(one));
    }
    let all = walk_along(alloc, program, other, other_trunk, second)?;
    told_of(program, one, other, all, second, objects)
}

impl<'a> Walks<'a> {
    /// No walks.
    pub fn new(alloc: Global) -> Walks<'a>
        ensures { (c : Core) → AreWalks c result }
    {
        Walks {
            alloc,
            first: None,
            second: None,
            first_trunk: None,
            second_trunk: None,
        }
    }

    /// What walks tell of two legs, with the objects that both read where both can be made.
    pub fn walk(
        &mut self,
        program: &'a Program,
        entry: MethodId,
        partner: MethodId,
        objects: &mut Objects,
        first: &Leg,
        second: &Leg,
    ) -> Result<Walked, Memory>
        requires walks { AreWalks (core program.now) self.old }
        requires threads { first.now.thread + second.now.thread ≡ 1 }
        requires none { objects.old ≡ [] }
        ensures walks { OnOk result (AreWalks (core program.now) self.new) }
        ensures told { IfOk result (λ walked. IsTold (core program.now) (leg_of first.now) (leg_of second.now)
            (begun (core program.now) entry partner All) objects.new walked) }
    {
        if first.thread == 0 {
            let first = Course {
                method: entry,
                leg: first,
            };
            let second = Course {
                method: partner,
                leg: second,
            };
            walk_both(
                self.alloc,
                program,
                &mut self.first,
                &mut self.second,
                &mut self.first_trunk,
                &mut self.second_trunk,
                first,
                second,
                objects,
            )
        } else {
            let first = Course {
                method: partner,
                leg: first,
            };
            let second = Course {
                method: entry,
                leg: second,
            };
            walk_both(
                self.alloc,
                program,
                &mut self.second,
                &mut self.first,
                &mut self.second_trunk,
                &mut self.first_trunk,
                first,
                second,
                objects,
            )
        }
    }
}
