//! One step of a leg.
ghost use Rattle.std.specs.Prelude.{◌≡◌, IfOk};
ghost use Rattle.core_code.specs.Program.{core};
ghost use Rattle.core_semantics.specs.Advances.{IsAdvance, made_of, one_step, turned, with_turns};
ghost use Rattle.core_semantics.specs.Steps.{step};
ghost use Rattle.core_semantics.specs.View.{state_of};

use crate::{Look, Machine, StepAnswer, Turn};
use core_code::Program;
use racer_base::Memory;

/// One step of a thread; these turns, which are left then, where it was made.
fn take_step<'a, 't>(
    program: &'a Program,
    machine: &mut Machine<'a>,
    thread: u32,
    turn: Turn,
    rest: &'t [Turn],
) -> Result<Option<&'t [Turn]>, Memory>
    ensures { IfOk result (λ left. IsAdvance
        (with_turns rest.now (made_of (step (core program.now) (state_of machine.old) thread turn)))
        (state_of machine.old) (state_of machine.new) left) }
{
    match machine.step(program, thread, turn) {
        StepAnswer::Stepped => Ok(Some(rest)),
        StepAnswer::Stuck(_) => Ok(None),
        StepAnswer::Done => Ok(None),
        StepAnswer::Held(_) => Ok(None),
        StepAnswer::Memory => Err(Memory),
    }
}

/// A step that takes the next turn; the turns that are left, where it was made.
fn take_turn<'a, 't>(
    program: &'a Program,
    machine: &mut Machine<'a>,
    thread: u32,
    turns: &'t [Turn],
) -> Result<Option<&'t [Turn]>, Memory>
    ensures { IfOk result (λ rest. IsAdvance (turned (core program.now) thread turns.now (state_of machine.old))
        (state_of machine.old) (state_of machine.new) rest) }
{
    match turns {
        [] => Ok(None),
        [turn, rest @ ..] => take_step(program, machine, thread, *turn, rest),
    }
}

impl<'a> Machine<'a> {
    /// One step of a thread, which takes the next of these turns where it is at a choice or a loop; the turns that are
    /// left, where it was made. The program is the one that the machine began with.
    pub fn advance<'t>(
        &mut self,
        program: &'a Program,
        thread: u32,
        turns: &'t [Turn],
    ) -> Result<Option<&'t [Turn]>, Memory>
        ensures { IfOk result (λ rest. IsAdvance (one_step (core program.now) thread turns.now (state_of self.old))
            (state_of self.old) (state_of self.new) rest) }
    {
        match self.look(thread)? {
            Look::Turn => take_turn(program, self, thread, turns),
            Look::Read => take_step(program, self, thread, Turn::Right, turns),
            Look::Other => take_step(program, self, thread, Turn::Right, turns),
        }
    }
}
