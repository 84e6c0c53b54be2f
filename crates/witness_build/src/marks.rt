//! The marks of warnings, one after another.
ghost use Rattle.std.specs.Prelude.{◌≡◌, IfOk, OnOk, map};
ghost use Rattle.core_code.specs.Program.{core};
ghost use Rattle.access_domain.specs.Outcomes.{AreOutcomes};
ghost use Rattle.core_ways.specs.Marks.{said_by};
ghost use Rattle.witness_build_laws.specs.Warned.{warning_mark};
ghost use Rattle.witness_build_walks.specs.Told.{AreWalks};
ghost use Rattle.core_ways_sites.specs.Known.{IsKnown};
ghost use Rattle.witness_build.specs.Replayed.{AreRight, DoRace, HaveConfirmed};
ghost use Rattle.witness_build.specs.TypedMarks.{HaveNeverBlocked};

use crate::marking::mark_from;
use access_domain::Outcomes;
use core_code::Program;
use core_ways::Mark;
use core_ways_sites::{SiteWays, let_go as let_ways_go};
use race_pairs::Warning;
use racer_base::Memory;
use std::alloc::Global;
use witness_build_walks::{Walks, let_go};

/// Finds the ways to the sites of the methods of these warnings. What is kept of them is made before any walk, so that
/// it does not lie between what walks take and give back.
fn find_sites(
    program: &Program,
    outcomes: &Outcomes,
    known: &mut SiteWays,
    found: &[Warning],
) -> Result<(), Memory>
    requires { IsKnown (core program.now) known.old }
    ensures { OnOk result (IsKnown (core program.now) known.new) }
{
    for warning in found {
        known.find(program, outcomes, warning.entry)?;
        known.find(program, outcomes, warning.partner)?;
    }
    Ok(())
}

/// The marks of these warnings, in order, with what is known of ways and walks that go on from one to the next.
fn marks_from<'a>(
    alloc: Global,
    program: &'a Program,
    outcomes: &Outcomes,
    known: &mut SiteWays,
    walks: &mut Walks<'a>,
    found: &[Warning],
) -> Result<Vec<Mark>, Memory>
    requires outcomes { AreOutcomes (core program.now) outcomes.now.items }
    requires known { IsKnown (core program.now) known.old }
    requires walks { AreWalks (core program.now) walks.old }
    ensures { IfOk result (λ marks.
        map said_by marks.items ≡ map (warning_mark (core program.now)) found.now) }
{
    find_sites(program, outcomes, known, found)?;
    let mut marks = Vec::new(alloc);
    for warning in found {
        marks.push(mark_from(alloc, program, outcomes, known, walks, warning)?)?;
    }
    Ok(marks)
}

/// The marks of these warnings of a program whose methods have these outcomes, in order, each with a run that ends in
/// the race of its warning where it is confirmed.
///
/// The time grows with the code that the ways pass, and with their steps. Each method is gone through once, and what
/// the ways to records of one method have in common is walked once.
pub fn marks_of(
    alloc: Global,
    program: &Program,
    outcomes: &Outcomes,
    found: &[Warning],
) -> Result<Vec<Mark>, Memory>
    requires { AreOutcomes (core program.now) outcomes.now.items }
    ensures marks { IfOk result (λ marks.
        map said_by marks.items ≡ map (warning_mark (core program.now)) found.now) }
    ensures objects { IfOk result (λ marks. HaveConfirmed (core program.now)
        (λ w objects legs. AreRight (core program.now) w objects) found.now marks.items) }
    ensures race { IfOk result (λ marks. HaveConfirmed (core program.now) (DoRace (core program.now)) found.now
        marks.items) }
    ensures typed { IfOk result (λ marks. HaveNeverBlocked (core program.now) found.now marks.items) }
{
    let mut known = SiteWays::new(alloc);
    let mut walks = Walks::new(alloc);
    let marks = marks_from(alloc, program, outcomes, &mut known, &mut walks, found);
    let_go(walks);
    let_ways_go(known);
    marks
}
