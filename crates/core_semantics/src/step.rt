//! One step of a thread.
ghost use Rattle.std.specs.Prelude.{◌≡◌, ◌∷◌, drop, false, Some as SomeOf};
ghost use Rattle.core_code.specs.Program.{core};
ghost use Rattle.core_code.specs.Tree.{tree_of};
ghost use Rattle.core_semantics.specs.Answers.{IsAnswer, IsAnswerOrEnd};
ghost use Rattle.core_semantics.specs.State.{before};
ghost use Rattle.core_semantics.specs.Steps.{Goes, after, chosen, ended_with, frame_step, operated, thread_step};
ghost use Rattle.core_semantics.specs.Steps.{todo_step};
ghost use Rattle.core_semantics.specs.View.{IsNext, ends_thread, ends_with, frame_of, seen_after, seen_of, spot_of};
ghost use Rattle.core_semantics.specs.View.{step_of, store_of, todo_of, with_steps};

use crate::calls::{call, give_back};
use crate::frame::Frame;
use crate::inner::operate;
use crate::locks::{end_lock, lock, unlock};
use crate::monitors::Monitors;
use crate::pending::{NextStep, Pending, unfold_next};
use crate::store::Store;
use crate::thread::{Running, Thread};
use crate::{StepAnswer, Turn};
use core_code::{Code, Op, Program};
use core_semantics_monitors::frees_one;
use racer_base::Memory;
use std::alloc::Global;

/// What a step is given.
#[derive(Clone, Copy)]
pub(crate) struct StepContext<'a, 'b> {
    pub alloc: Global,
    pub program: &'a Program,
    pub turn: Turn,
    /// The monitors that the other thread holds.
    pub others: &'b Monitors,
}

/// Does one side of a choice.
fn choose<'a>(frame: &mut Frame<'a>, turn: Turn, left: &'a Code, right: &'a Code) -> StepAnswer
    ensures { IsAnswer (Goes (with_steps frame.old (chosen turn
        (before (tree_of left.now) (todo_of (drop 1 frame.old.pending)))
        (before (tree_of right.now) (todo_of (drop 1 frame.old.pending))))))
        (frame_of frame.old) (frame_of frame.new) result }
{
    let side = match turn {
        Turn::Left => left,
        Turn::Right => right,
    };
    match frame.pending.replace(1, Pending::One(side)) {
        Ok(()) => StepAnswer::Stepped,
        Err(Memory) => StepAnswer::Memory,
    }
}

/// Does the body of the loop that is next once more, or leaves the loop behind.
fn repeat<'a>(frame: &mut Frame<'a>, turn: Turn, body: &'a Code) -> StepAnswer
    ensures { IsAnswer (Goes (with_steps frame.old (chosen turn
        (before (tree_of body.now) (todo_of frame.old.pending)) (todo_of (drop 1 frame.old.pending)))))
        (frame_of frame.old) (frame_of frame.new) result }
{
    match turn {
        Turn::Left => match frame.pending.replace(0, Pending::One(body)) {
            Ok(()) => StepAnswer::Stepped,
            Err(Memory) => StepAnswer::Memory,
        },
        Turn::Right => {
            frame.pending.cut(1);
            StepAnswer::Stepped
        }
    }
}

/// Does the operation that is next. It is not the return that ends the thread.
fn operated<'a>(
    given: &StepContext<'a, '_>,
    store: &mut Store,
    running: &mut Running<'a>,
    locks: &mut Monitors,
    op: Op,
) -> StepAnswer
    requires { ends_with op running.old ≡ false }
    ensures { IsAnswer (operated (core given.now.program.now) (spot_of (store_of store.old) running.old locks.old)
        (todo_of (drop 1 running.old.frame.pending)) op)
        (after (spot_of (store_of store.old) running.old locks.old))
        (after (spot_of (store_of store.new) running.new locks.new)) result }
{
    if frees_one(op, running.frame.locked) {
        unlock(&mut running.frame, locks);
        return StepAnswer::Stepped;
    }
    match op {
        Op::Ret => give_back(given.alloc, running),
        Op::Call(method, count) => call(given.alloc, given.program, running, method, count),
        _ => operate(given.alloc, given.program, store, &mut running.frame, op),
    }
}

/// Does this step, which is next. It is not the return that ends the thread.
fn step_next<'a>(
    given: &StepContext<'a, '_>,
    store: &mut Store,
    running: &mut Running<'a>,
    locks: &mut Monitors,
    next: NextStep<'a>,
) -> StepAnswer
    requires ready { IsNext (SomeOf next) running.old.frame.pending }
    requires goes_on { ends_thread next running.old ≡ false }
    ensures { IsAnswer (todo_step (core given.now.program.now) given.now.turn given.now.others.now
        (spot_of (store_of store.old) running.old locks.old)
        (step_of next.entry ∷ todo_of (drop 1 running.old.frame.pending)))
        (after (spot_of (store_of store.old) running.old locks.old))
        (after (spot_of (store_of store.new) running.new locks.new)) result }
{
    match next {
        NextStep::Op(_, op) => operated(given, store, running, locks, op),
        NextStep::Choice(left, right) => choose(&mut running.frame, given.turn, left, right),
        NextStep::Loop(body) => repeat(&mut running.frame, given.turn, body),
        NextStep::Sync(_, kind, body) => {
            lock(
                given.alloc,
                given.others,
                &mut running.frame,
                locks,
                kind,
                body,
            )
        }
        NextStep::Unlock => {
            end_lock(&mut running.frame, locks);
            StepAnswer::Stepped
        }
    }
}

/// Whether this step is the return that ends the thread.
fn ends_thread(next: NextStep, running: &Running) -> bool
    ensures { result ≡ ends_thread next.entry running.now }
{
    match next {
        NextStep::Op(_, Op::Ret) => { running.frame.locked == 0 && running.callers.is_empty() }
        _ => false,
    }
}

/// One step of a thread that has not ended. No answer says that it ends the thread.
fn step_running<'a>(
    given: &StepContext<'a, '_>,
    store: &mut Store,
    running: &mut Running<'a>,
    locks: &mut Monitors,
) -> Option<StepAnswer>
    ensures { IsAnswerOrEnd (frame_step (core given.now.program.now) given.now.turn given.now.others.now
        (spot_of (store_of store.old) running.old locks.old))
        (after (spot_of (store_of store.old) running.old locks.old))
        (after (spot_of (store_of store.new) running.new locks.new))
        (ended_with (store_of store.new) locks.new) result }
{
    let Ok(next) = unfold_next(&mut running.frame.pending) else {
        return Some(StepAnswer::Memory);
    };
    let Some(next) = next else {
        return Some(StepAnswer::Done);
    };
    if ends_thread(next, running) {
        return None;
    }
    Some(step_next(given, store, running, locks, next))
}

/// One step of a thread.
pub(crate) fn step_thread<'a>(
    given: &StepContext<'a, '_>,
    store: &mut Store,
    thread: &mut Thread<'a>,
) -> StepAnswer
    ensures { IsAnswer (thread_step (core given.now.program.now) given.now.turn given.now.others.now
        (store_of store.old) (seen_of thread.old))
        (seen_after store.old thread.old) (seen_after store.new thread.new) result }
{
    let Some(running) = &mut thread.running else {
        return StepAnswer::Done;
    };
    let Some(answer) = step_running(given, store, running, &mut thread.locks) else {
        thread.running = None;
        return StepAnswer::Stepped;
    };
    answer
}
