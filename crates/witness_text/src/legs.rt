//! Legs that are replayed.
ghost use Rattle.std.specs.Prelude.{◌≡◌, ◌∷◌, [], IfOk, option_map};
ghost use Rattle.core_code.specs.Program.{core};
ghost use Rattle.core_semantics.specs.Legs.{runs};
ghost use Rattle.core_semantics.specs.View.{state_of};
ghost use Rattle.core_ways.specs.Marks.{leg_of};
ghost use Rattle.witness_text.specs.Replays.{IsReplayed, replayed};
ghost use Rattle.witness_text.specs.Verdicts.{are_at, legs_verdict, race_verdict};

use crate::Verdict;
use core_code::Program;
use core_semantics::Machine;
use core_ways::{Leg, LegEnd, Objects, run_leg};
use racer_base::Memory;
use std::alloc::Global;
use witness_text_files::WitnessFile;
use witness_text_names::Cell;

/// Runs a leg; after how many steps it stops, where it does. What it reads is gathered as for a mark, and let go.
fn leg_stop<'a>(
    alloc: Global,
    program: &'a Program,
    machine: &mut Machine<'a>,
    leg: &Leg,
) -> Result<Option<u32>, Memory>
    ensures { IfOk result (λ stop. IsReplayed (replayed leg.now.steps
        (runs (core program.now) leg.now.thread leg.now.steps leg.now.turns (state_of machine.old)))
        stop (state_of machine.new)) }
{
    let mut objects = Objects::new(alloc);
    match run_leg(program, machine, &mut objects, leg)? {
        LegEnd::Halted(steps) => Ok(Some(steps)),
        LegEnd::Came(left) => {
            if left == 0 {
                return Ok(None);
            }
            Ok(Some(leg.steps))
        }
    }
}

/// Whether the threads, which race, are at this cell.
fn are_at(cell: Option<&Cell>, machine: &Machine) -> bool
    ensures { result ≡ are_at (option_map (λ c. c.now) cell.entry) (state_of machine.now) }
{
    let Some(cell) = cell else {
        return true;
    };
    match machine.next_touch(0) {
        Some((object, field, _)) => cell.object == *object && cell.field == field,
        None => false,
    }
}

/// The verdict of a machine behind both legs, whose race is to be in this cell.
fn race_verdict(cell: Option<&Cell>, machine: &Machine) -> Verdict
    ensures { result ≡ race_verdict (option_map (λ c. c.now) cell.entry) (state_of machine.now) }
{
    if !machine.races() {
        return Verdict::NoConflict;
    }
    if are_at(cell, machine) {
        Verdict::Races
    } else {
        Verdict::OtherCell
    }
}

/// The verdict of the legs of a file, whose race is to be in this cell.
pub(crate) fn legs_verdict<'a>(
    alloc: Global,
    program: &'a Program,
    machine: &mut Machine<'a>,
    file: &WitnessFile,
    cell: Option<&Cell>,
) -> Result<Verdict, Memory>
    ensures { IfOk result (λ v. v ≡ legs_verdict (core program.now)
        (race_verdict (option_map (λ c. c.now) cell.entry)) 0
        (leg_of file.now.first ∷ leg_of file.now.second ∷ []) (state_of machine.old)) }
{
    if let Some(steps) = leg_stop(alloc, program, machine, &file.first)? {
        return Ok(Verdict::StopsAt(0, steps));
    }
    if let Some(steps) = leg_stop(alloc, program, machine, &file.second)? {
        return Ok(Verdict::StopsAt(1, steps));
    }
    Ok(race_verdict(cell, machine))
}
