//! The marks of a run's warnings, made in as many threads as there are processors.
//!
//! Groups are of one length, two for each processor: a group an entry would not share the work where one entry has
//! most warnings, and a thread a warning would begin each walk anew. Where a thread cannot be started its part is done
//! by the one that wanted it.
#![tactic(auto)]

ghost use Rattle.std.specs.List.{flat_map};
ghost use Rattle.std.specs.Prelude.{◌≡◌, ◌<◌, IfOk, map, vec_items};
ghost use Rattle.core_code.specs.Program.{core};
ghost use Rattle.access_domain.specs.Outcomes.{AreOutcomes};
ghost use Rattle.core_ways.specs.Marks.{said_by};
ghost use Rattle.witness_build_laws.specs.Warned.{warning_mark};

use access_domain::Outcomes;
use core_code::Program;
use core_ways::Mark;
use race_pairs::Warning;
use racer_base::Memory;
use rayon::current_num_threads;
use rayon::prelude::*;
use std::alloc::Global;
use std::thread::Threads;
use witness_build::marks_of;

/// How many of so many warnings a group has: two groups for each processor, since groups differ in what they cost.
fn group_len<R: Threads>(rt: &R, warnings: usize) -> usize
    ensures { 0 < result }
{
    let groups = current_num_threads(rt).saturating_mul(2);
    (warnings / groups).max(1)
}

/// The marks of these warnings by groups of neighbours, each group in one thread, so that its walks go on from one
/// warning to the next.
fn marks_by_group<R: Threads + Sync>(
    rt: &R,
    alloc: Global,
    program: &Program,
    outcomes: &Outcomes,
    found: &[Warning],
) -> Result<Vec<Vec<Mark>>, Memory>
    requires { AreOutcomes (core program.now) outcomes.now.items }
    ensures { IfOk result (λ groups.
        map said_by (flat_map vec_items groups.items) ≡ map (warning_mark (core program.now)) found.now) }
{
    found
        .par_chunks(group_len(rt, found.len()))
        .with_min_len(1)
        .map(
            |group: &[Warning]| -> Result<Vec<Mark>, Memory>
                requires { AreOutcomes (core program.now) outcomes.now.items }
                ensures { IfOk result (λ marks.
                    map said_by marks.items ≡ map (warning_mark (core program.entry.now)) group.now) }
            { marks_of(alloc, program, outcomes, group) },
        )
        .collect(rt, alloc)?
}

/// The marks of all groups, in order.
fn joined(alloc: Global, groups: Vec<Vec<Mark>>) -> Result<Vec<Mark>, Memory>
    ensures { IfOk result (λ marks. marks.items ≡ flat_map vec_items groups.items) }
{
    Ok(groups.into_iter().flatten().collect(alloc)?)
}

/// The marks of these warnings of a program whose methods have these outcomes, in order, as `marks_of` makes them one
/// after another.
pub fn marks_in_threads<R: Threads + Sync>(
    rt: &R,
    alloc: Global,
    program: &Program,
    outcomes: &Outcomes,
    found: &[Warning],
) -> Result<Vec<Mark>, Memory>
    requires { AreOutcomes (core program.now) outcomes.now.items }
    ensures { IfOk result (λ marks.
        map said_by marks.items ≡ map (warning_mark (core program.now)) found.now) }
{
    let groups = marks_by_group(rt, alloc, program, outcomes, found)?;
    joined(alloc, groups)
}
