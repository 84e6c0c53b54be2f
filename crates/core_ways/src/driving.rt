//! Legs that are run on a machine, with what they read.
ghost use Rattle.std.specs.Prelude.{◌≡◌, IfOk, OnOk};
ghost use Rattle.core_code.specs.Program.{core};
ghost use Rattle.core_semantics.specs.Advances.{IsAdvance, one_step};
ghost use Rattle.core_semantics.specs.Legs.{runs};
ghost use Rattle.core_semantics.specs.View.{state_of};
ghost use Rattle.core_ways.specs.Marks.{next_read};
ghost use Rattle.core_ways.specs.Ends.{leg_reads, run_end, step_reads};
ghost use Rattle.core_ways.specs.Gathered.{gathered};

use crate::mark::Leg;
use crate::objects::Objects;
use core_code::Program;
use core_semantics::{Look, Machine, Turn};
use racer_base::Memory;

/// Lets a machine go. Each type of its parts is taken apart here, so a crate that runs legs need not show how.
pub fn let_go(_machine: Machine) {}

/// How far a leg is run.
#[derive(Clone, Copy)]
pub enum LegEnd {
    /// All steps were made, and so many turns are left.
    Came(usize),
    /// So many steps were made, and the next one cannot be.
    Halted(u32),
}

/// Adds what the next step of a thread reads, which is the read of a field, where that is a start path with a field.
fn add_read(
    program: &Program,
    machine: &Machine,
    objects: &mut Objects,
    thread: u32,
) -> Result<(), Memory>
    ensures { OnOk result (
        objects.new ≡ gathered objects.old (next_read (core program.now) (state_of machine.now) thread)) }
{
    let Ok(value) = machine.next_value(program, thread) else {
        return Err(Memory);
    };
    objects.add_read(value)
}

/// Adds what the next step of a thread reads.
fn gather(
    program: &Program,
    machine: &mut Machine,
    objects: &mut Objects,
    thread: u32,
) -> Result<(), Memory>
    ensures same { OnOk result (state_of machine.new ≡ state_of machine.old) }
    ensures reads { OnOk result (
        objects.new ≡ gathered objects.old (step_reads (core program.now) (state_of machine.old) thread)) }
{
    match machine.look(thread)? {
        Look::Read => add_read(program, machine, objects, thread),
        Look::Turn => Ok(()),
        Look::Other => Ok(()),
    }
}

/// One step of a leg; the turns that are left, where it was made.
fn advance<'a, 't>(
    program: &'a Program,
    machine: &mut Machine<'a>,
    objects: &mut Objects,
    thread: u32,
    turns: &'t [Turn],
) -> Result<Option<&'t [Turn]>, Memory>
    ensures step { IfOk result (λ rest. IsAdvance (one_step (core program.now) thread turns.now (state_of machine.old))
        (state_of machine.old) (state_of machine.new) rest) }
    ensures reads { OnOk result (
        objects.new ≡ gathered objects.old (step_reads (core program.now) (state_of machine.old) thread)) }
{
    gather(program, machine, objects, thread)?;
    machine.advance(program, thread, turns)
}

/// The steps of a leg, with its turns, as far as they can be made.
pub fn run_leg<'a>(
    program: &'a Program,
    machine: &mut Machine<'a>,
    objects: &mut Objects,
    leg: &Leg,
) -> Result<LegEnd, Memory>
    ensures end { IfOk result (λ e. run_end
        (runs (core program.now) leg.now.thread leg.now.steps leg.now.turns (state_of machine.old))
        ≡ (e, state_of machine.new)) }
    ensures reads { OnOk result (objects.new ≡ gathered objects.old
        (leg_reads (core program.now) leg.now.thread leg.now.steps leg.now.turns (state_of machine.old))) }
{
    let mut turns = leg.turns.as_slice();
    for step in 0..leg.steps {
        let Some(rest) = advance(program, machine, objects, leg.thread, turns)? else {
            return Ok(LegEnd::Halted(step));
        };
        turns = rest;
    }
    Ok(LegEnd::Came(turns.len()))
}
