//! The mark of a warning.
ghost use Rattle.std.specs.Prelude.{◌≡◌, ◌+◌, ◌<◌, ◌∷◌, [], IfOk, OnOk, option_map};
ghost use Rattle.core_code.specs.Program.{core};
ghost use Rattle.access_domain.specs.Outcomes.{AreOutcomes};
ghost use Rattle.core_semantics.specs.declared.object.Start.TheVariants.{All};
ghost use Rattle.core_semantics.specs.Runs.{begun};
ghost use Rattle.core_semantics.specs.View.{state_of};
ghost use Rattle.core_ways.specs.Marks.{blocked_at, is_locked, leg_of, mark_by_calls, mark_by_run, said_by};
ghost use Rattle.core_ways.specs.Ways.{Trip, way_of};
ghost use Rattle.core_ways.specs.WayPairs.{IsWayPair, AreShort, IsShort, said_of};
ghost use Rattle.witness_build_apart_laws.specs.RunLegs.{IsSaid};
ghost use Rattle.witness_build_walks.specs.Told.{AreWalks};
ghost use Rattle.core_ways_sites.specs.Known.{IsKnown};
ghost use Rattle.witness_build_laws.specs.Warned.{pair_of, warning_mark};

use crate::prefixes::unstable_prefix;
use access_domain::{Outcomes, record_of};
use core_code::Program;
use core_semantics::{Machine, Start, begin};
use core_ways::{
    Leg, LegEnd, LegTurns, Mark, Objects, Target, WayPair, WayTaken, Witness, let_go, run_leg,
};
use core_ways_sites::SiteWays;
use race_pairs::Warning;
use racer_base::{Items, Memory, Place};
use std::alloc::Global;
use witness_build_walks::{Walked, Walks};

/// A thread that cannot make its leg, and where it is then. A leg along a way stops at a place.
fn blocked(thread: u32, place: Option<Place>) -> Mark
    ensures { said_by result ≡ blocked_at thread place }
{
    match place {
        Some(at) => Mark::Blocked(thread, at),
        None => Mark::Unnamed,
    }
}

/// A way as the leg of a thread.
fn leg(alloc: Global, thread: u32, taken: WayTaken) -> Result<Leg, Memory>
    requires thread { thread < 2 }
    requires short { IsShort taken }
    ensures thread { IfOk result (λ leg. leg.thread ≡ thread) }
    ensures turns { IfOk result (λ leg. leg.turns ≡ taken.turns) }
    ensures steps { IfOk result (λ leg. leg.steps ≡ taken.steps) }
{
    Ok(Leg {
        thread,
        turns: LegTurns::from_vec(alloc, taken.turns.into_vec())?,
        steps: taken.steps,
    })
}

/// Runs both legs, one after the other; where one of them cannot be made, its mark.
fn mark_of_stopped<'a>(
    program: &'a Program,
    machine: &mut Machine<'a>,
    objects: &mut Objects,
    first: &Leg,
    second: &Leg,
) -> Result<Option<Mark>, Memory>
    requires { objects.old ≡ [] }
    ensures { IfOk result (λ stopped. IsSaid (core program.now) (leg_of first.now) (leg_of second.now)
        (state_of machine.old) objects.new (option_map said_by stopped)) }
{
    let LegEnd::Came(_) = run_leg(program, machine, objects, first)? else {
        return Ok(Some(blocked(first.thread, machine.place(first.thread))));
    };
    let LegEnd::Came(_) = run_leg(program, machine, objects, second)? else {
        return Ok(Some(blocked(second.thread, machine.place(second.thread))));
    };
    Ok(None)
}

/// The same from the begin of a run with all start paths as objects.
fn mark_of_stopped_run(
    alloc: Global,
    program: &Program,
    warning: &Warning,
    objects: &mut Objects,
    first: &Leg,
    second: &Leg,
) -> Result<Option<Mark>, Memory>
    requires { objects.old ≡ [] }
    ensures { IfOk result (λ stopped. IsSaid (core program.now) (leg_of first.now) (leg_of second.now)
        (begun (core program.now) warning.now.entry warning.now.partner All) objects.new
        (option_map said_by stopped)) }
{
    let mut machine = begin(alloc, program, warning.entry, warning.partner, Start::All)?;
    let stopped = mark_of_stopped(program, &mut machine, objects, first, second);
    let_go(machine);
    stopped
}

/// The same from walks, where they tell of both legs, and else from a run.
fn mark_of_stopped_walk<'a>(
    alloc: Global,
    program: &'a Program,
    walks: &mut Walks<'a>,
    warning: &Warning,
    objects: &mut Objects,
    first: &Leg,
    second: &Leg,
) -> Result<Option<Mark>, Memory>
    requires walks { AreWalks (core program.now) walks.old }
    requires threads { first.now.thread + second.now.thread ≡ 1 }
    requires none { objects.old ≡ [] }
    ensures walks { OnOk result (AreWalks (core program.now) walks.new) }
    ensures said { IfOk result (λ stopped. IsSaid (core program.now) (leg_of first.now) (leg_of second.now)
        (begun (core program.now) warning.now.entry warning.now.partner All) objects.new
        (option_map said_by stopped)) }
{
    match walks.walk(
        program,
        warning.entry,
        warning.partner,
        objects,
        first,
        second,
    )? {
        Walked::Stopped(thread, place) => Ok(Some(blocked(thread, place))),
        Walked::Past => Ok(None),
        Walked::Unknown => mark_of_stopped_run(alloc, program, warning, objects, first, second),
    }
}

/// Runs both legs, one after the other, with all start paths as objects.
fn mark_by_run<'a>(
    alloc: Global,
    program: &'a Program,
    walks: &mut Walks<'a>,
    warning: &Warning,
    first: Leg,
    second: Leg,
) -> Result<Mark, Memory>
    requires walks { AreWalks (core program.now) walks.old }
    requires threads { first.thread + second.thread ≡ 1 }
    ensures walks { OnOk result (AreWalks (core program.now) walks.new) }
    ensures mark { IfOk result (λ mark. said_by mark
        ≡ mark_by_run (core program.now) (leg_of first ∷ leg_of second ∷ [])
        (begun (core program.now) warning.now.entry warning.now.partner All)) }
{
    let mut objects = Objects::new(alloc);
    let Ok(stopped) = mark_of_stopped_walk(
        alloc,
        program,
        walks,
        warning,
        &mut objects,
        &first,
        &second,
    ) else {
        return Err(Memory);
    };
    if let Some(mark) = stopped {
        return Ok(mark);
    }
    Ok(Mark::Confirmed(Witness {
        objects: Items::from(objects.into_vec()),
        first,
        second,
    }))
}

/// The mark where these are the ways of these threads, in running order.
fn mark_along<'a>(
    alloc: Global,
    program: &'a Program,
    walks: &mut Walks<'a>,
    warning: &Warning,
    first: u32,
    second: u32,
    both: WayPair,
) -> Result<Mark, Memory>
    requires walks { AreWalks (core program.now) walks.old }
    requires threads { first + second ≡ 1 }
    requires short { AreShort both }
    ensures walks { OnOk result (AreWalks (core program.now) walks.new) }
    ensures mark { (a b : Trip) → IsWayPair a b both → IfOk result (λ mark.
        said_by mark ≡ said_of (core program.now) (pair_of warning.now) first second a b) }
{
    match both {
        WayPair::Taken(one, other) => {
            let first = leg(alloc, first, one)?;
            let second = leg(alloc, second, other)?;
            mark_by_run(alloc, program, walks, warning, first, second)
        }
        WayPair::Unread(place) => Ok(Mark::Unread(place)),
        WayPair::Long(steps) => Ok(Mark::Long(steps)),
    }
}

/// The mark of a warning on a path that is stable. Where its record is locked, the partner goes first.
fn mark_by_ways<'a>(
    alloc: Global,
    program: &'a Program,
    outcomes: &Outcomes,
    known: &mut SiteWays,
    walks: &mut Walks<'a>,
    warning: &Warning,
    locked: bool,
) -> Result<Mark, Memory>
    requires outcomes { AreOutcomes (core program.now) outcomes.now.items }
    requires known { IsKnown (core program.now) known.old }
    requires walks { AreWalks (core program.now) walks.old }
    requires locked { is_locked (core program.now) warning.now.entry warning.now.access ≡ locked }
    ensures known { OnOk result (IsKnown (core program.now) known.new) }
    ensures walks { OnOk result (AreWalks (core program.now) walks.new) }
    ensures mark { IfOk result (λ mark. said_by mark ≡ mark_by_calls (core program.now) (pair_of warning.now)) }
{
    let entry = Target {
        method: warning.entry,
        access: warning.access,
    };
    let partner = Target {
        method: warning.partner,
        access: warning.partner_access,
    };
    if locked {
        let both = known.ways(program, outcomes, partner, entry)?;
        mark_along(alloc, program, walks, warning, 1, 0, both)
    } else {
        let both = known.ways(program, outcomes, entry, partner)?;
        mark_along(alloc, program, walks, warning, 0, 1, both)
    }
}

/// The mark of a warning, with what is known of ways and walks that go on from one warning to the next.
pub(crate) fn mark_from<'a>(
    alloc: Global,
    program: &'a Program,
    outcomes: &Outcomes,
    known: &mut SiteWays,
    walks: &mut Walks<'a>,
    warning: &Warning,
) -> Result<Mark, Memory>
    requires outcomes { AreOutcomes (core program.now) outcomes.now.items }
    requires known { IsKnown (core program.now) known.old }
    requires walks { AreWalks (core program.now) walks.old }
    ensures known { OnOk result (IsKnown (core program.now) known.new) }
    ensures walks { OnOk result (AreWalks (core program.now) walks.new) }
    ensures mark { IfOk result (λ mark. said_by mark ≡ warning_mark (core program.now) warning.now) }
{
    let Some(record) = record_of(outcomes, warning.entry, warning.access) else {
        return Ok(Mark::Unnamed);
    };
    if record.path.root.is_some() {
        return Ok(Mark::Unnamed);
    }
    let path = &record.path;
    let prefix = unstable_prefix(
        alloc,
        program,
        outcomes,
        warning.entry,
        warning.partner,
        path,
    )?;
    if let Some(prefix) = prefix {
        return Ok(Mark::Unstable(prefix));
    }
    mark_by_ways(
        alloc,
        program,
        outcomes,
        known,
        walks,
        warning,
        record.locked,
    )
}
