//! What a thread does next, behind one look ahead.
ghost use Rattle.std.specs.Prelude.{◌≡◌, IfOk};
ghost use Rattle.core_semantics.specs.Looks.{frames_look, look_of, todo_look};
ghost use Rattle.core_semantics.specs.View.{frames_of, seen_of, state_of, step_of};

use crate::Machine;
use crate::pending::{NextStep, unfold_next};
use crate::thread::{Running, Thread};
use core_code::Op;
use racer_base::Memory;

/// What a step is, before it is made.
#[derive(Clone, Copy)]
pub enum Look {
    /// A choice or a loop.
    Turn,
    /// The read of a field.
    Read,
    /// Another step, or none.
    Other,
}

/// What this step is.
fn step_look(next: NextStep) -> Look
    ensures { result ≡ todo_look (step_of next.entry) }
{
    match next {
        NextStep::Op(_, Op::Get(_)) => Look::Read,
        NextStep::Op(_, _) => Look::Other,
        NextStep::Choice(_, _) => Look::Turn,
        NextStep::Loop(_) => Look::Turn,
        NextStep::Sync(_, _, _) => Look::Other,
        NextStep::Unlock => Look::Other,
    }
}

/// What the next step of the innermost frame is, which is settled.
fn running_look(running: &mut Running) -> Result<Look, Memory>
    ensures same { frames_of running.new ≡ frames_of running.old }
    ensures look { IfOk result (λ look. look ≡ frames_look (frames_of running.old)) }
{
    let Ok(next) = unfold_next(&mut running.frame.pending) else {
        return Err(Memory);
    };
    match next {
        Some(next) => Ok(step_look(next)),
        None => Ok(Look::Other),
    }
}

/// What the next step of a thread is.
fn thread_look(thread: &mut Thread) -> Result<Look, Memory>
    ensures same { seen_of thread.new ≡ seen_of thread.old }
    ensures look { IfOk result (λ look. look ≡ frames_look (seen_of thread.old).frames) }
{
    let Some(running) = &mut thread.running else {
        return Ok(Look::Other);
    };
    running_look(running)
}

impl Machine<'_> {
    /// What the next step of a thread is. Who asks again, or makes that step, finds it without a search.
    pub fn look(&mut self, thread: u32) -> Result<Look, Memory>
        ensures same { state_of self.new ≡ state_of self.old }
        ensures look { IfOk result (λ look. look ≡ look_of (state_of self.old) thread) }
    {
        if thread == 0 {
            thread_look(&mut self.first)
        } else {
            thread_look(&mut self.second)
        }
    }
}
