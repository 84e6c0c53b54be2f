//! A second leg that is run behind what a first walk stored.
ghost use Rattle.std.specs.Prelude.{◌≡◌, ◌+◌, [], true, IfOk, OnOk};
ghost use Rattle.racer_base.specs.declared.ids.MethodId.{MethodId};
ghost use Rattle.core_code.specs.Program.{core};
ghost use Rattle.core_semantics.specs.Behind.{begun_behind};
ghost use Rattle.core_semantics.specs.View.{state_of};
ghost use Rattle.core_semantics.specs.declared.object.Start.TheVariants.{All};
ghost use Rattle.core_semantics.specs.Runs.{begun};
ghost use Rattle.core_ways.specs.declared.mark.Leg.{Leg as LegTaken};
ghost use Rattle.core_ways.specs.Gathered.{gathered};
ghost use Rattle.core_ways.specs.Marks.{leg_of};
ghost use Rattle.witness_build_apart_laws.specs.Starts.{entry_of};
ghost use Rattle.witness_build_walks.specs.Told.{IsGone, IsRunOn, IsTold};

use crate::along::Course;
use crate::walk::Walk;
use crate::walks::Walked;
use core_code::Program;
use core_semantics::Machine;
use core_ways::{Leg, LegEnd, Objects, let_go, run_leg};
use racer_base::Memory;

/// Adds what a walk was given.
fn add_given(objects: &mut Objects, given: &Objects) -> Result<(), Memory>
    ensures { OnOk result (objects.new ≡ gathered objects.old given.now) }
{
    objects.add_all(given)?;
    Ok(())
}

/// Runs a second leg, where a first one was given these objects.
fn run_on<'a>(
    program: &'a Program,
    machine: &mut Machine<'a>,
    given: &Objects,
    leg: &Leg,
    objects: &mut Objects,
) -> Result<Walked, Memory>
    ensures { IfOk result (λ walked. IsRunOn (core program.now) (leg_of leg.now) (state_of machine.old) given.now
        objects.old objects.new walked) }
{
    add_given(objects, given)?;
    let LegEnd::Came(_) = run_leg(program, machine, objects, leg)? else {
        return Ok(Walked::Stopped(leg.thread, machine.place(leg.thread)));
    };
    Ok(Walked::Past)
}

/// What is told of two legs where the first was walked as far as it goes, and the second is run behind it.
pub(crate) fn told_behind<'a>(
    program: &'a Program,
    first: &Walk,
    second: Course,
    objects: &mut Objects,
) -> Result<Walked, Memory>
    ensures { objects.old ≡ [] → (m m1 m2 : MethodId) (f : LegTaken) → f.thread + second.entry.leg.now.thread ≡ 1 →
        m ≡ entry_of f.thread m1 m2 → second.entry.method ≡ entry_of second.entry.leg.now.thread m1 m2 →
        IsGone (core program.now) m f true first.now →
        IfOk result (λ walked. IsTold (core program.now) (leg_of f) (leg_of second.entry.leg.now)
        (begun (core program.now) m1 m2 All) objects.new walked) }
{
    if !first.machine.is_free(first.thread) {
        return Ok(Walked::Unknown);
    }
    let begun = first
        .machine
        .begin_behind(program, second.method, second.method)?;
    let Some(mut machine) = begun else {
        return Ok(Walked::Unknown);
    };
    let told = run_on(program, &mut machine, &first.given, second.leg, objects);
    let_go(machine);
    told
}
