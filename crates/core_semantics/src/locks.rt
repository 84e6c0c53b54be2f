//! Locks.
ghost use Rattle.std.specs.Prelude.{◌≡◌, ◌<◌, List, length};
ghost use Rattle.core_code.specs.Tree.{tree_of};
ghost use Rattle.core_semantics.specs.Answers.{IsAnswer};
ghost use Rattle.core_semantics.specs.State.{Frame as FrameSeen, Store};
ghost use Rattle.core_semantics.specs.Steps.{after, lock_step, locking, monitor_of, top, unlocked};
ghost use Rattle.core_semantics.specs.View.{behind, behind_at, frame_of, spot_at};

use crate::frame::Frame;
use crate::monitors::Monitors;
use crate::pending::Pending;
use crate::{Holder, StepAnswer, Value, Why};
use core_code::{Code, LockKind};
use std::alloc::Global;

/// The monitor of this kind of a value, or why it has none.
fn monitor_of(kind: LockKind, value: Value) -> Result<Holder, Why>
    ensures { result ≡ monitor_of kind value }
{
    match value {
        Value::Object(object) => Ok(Holder::Object(kind, object)),
        Value::Opaque => Ok(Holder::Outside(kind)),
        Value::Plain => Err(Why::PlainBase),
        Value::Null => Err(Why::NullBase),
    }
}

/// Locks a monitor round a body, unless it is among those of the other thread.
fn take<'a>(
    others: &Monitors,
    frame: &mut Frame<'a>,
    locks: &mut Monitors,
    monitor: Holder,
    body: &'a Code,
) -> StepAnswer
    requires { 0 < length frame.old.pending }
    ensures { (store : Store) (callers : List FrameSeen) →
        IsAnswer (locking others.now (behind_at store frame.old callers locks.old) (tree_of body.now) monitor)
        (after (spot_at store frame.old callers locks.old)) (after (spot_at store frame.new callers locks.new)) result }
{
    if others.has(&monitor) {
        return StepAnswer::Held(monitor);
    }
    let Some(locked) = frame.locked.checked_add(1) else {
        return StepAnswer::Memory;
    };
    let Ok(()) = locks.push(monitor) else {
        return StepAnswer::Memory;
    };
    let Ok(()) = frame
        .pending
        .replace_by_two(Pending::One(body), Pending::Unlock)
    else {
        locks.pop();
        return StepAnswer::Memory;
    };
    frame.stack.cut(1);
    frame.locked = locked;
    StepAnswer::Stepped
}

/// Locks the monitor of this kind of the value on the stack's top round a body.
pub(crate) fn lock<'a>(
    alloc: Global,
    others: &Monitors,
    frame: &mut Frame<'a>,
    locks: &mut Monitors,
    kind: LockKind,
    body: &'a Code,
) -> StepAnswer
    requires { 0 < length frame.old.pending }
    ensures { (store : Store) (callers : List FrameSeen) →
        IsAnswer (lock_step others.now (behind_at store frame.old callers locks.old) kind (tree_of body.now)
        (top (frame_of frame.old)))
        (after (spot_at store frame.old callers locks.old)) (after (spot_at store frame.new callers locks.new)) result }
{
    let Ok(value) = frame.slot(alloc, 0) else {
        return StepAnswer::Memory;
    };
    match monitor_of(kind, value) {
        Ok(monitor) => take(others, frame, locks, monitor, body),
        Err(why) => StepAnswer::Stuck(why),
    }
}

/// Unlocks the innermost monitor, and leaves the next step behind.
pub(crate) fn end_lock(frame: &mut Frame, locks: &mut Monitors)
    ensures { (store : Store) (callers : List FrameSeen) → spot_at store frame.new callers locks.new
        ≡ unlocked (behind_at store frame.old callers locks.old) }
{
    frame.locked = frame.locked.saturating_sub(1);
    frame.pending.cut(1);
    locks.pop();
}

/// Unlocks the innermost monitor.
pub(crate) fn unlock(frame: &mut Frame, locks: &mut Monitors)
    ensures { (store : Store) (callers : List FrameSeen) → spot_at store frame.new callers locks.new
        ≡ unlocked (spot_at store frame.old callers locks.old) }
{
    frame.locked = frame.locked.saturating_sub(1);
    locks.pop();
}
