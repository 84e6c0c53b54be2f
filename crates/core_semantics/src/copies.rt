//! Copies of machines.
ghost use Rattle.std.specs.Prelude.{◌≡◌, IfOk};
ghost use Rattle.std.specs.Option.{IfSome};
ghost use Rattle.core_semantics.specs.View.{frame_of, frames_of, seen_of, state_of};

use crate::frame::Frame;
use crate::monitors::Monitors;
use crate::stack::Stack;
use crate::store::let_store_go;
use crate::thread::{Running, Thread, let_thread_go};
use crate::{Machine, Value};
use racer_base::Memory;
use std::alloc::Global;

/// Values that are equal to these.
fn values_copied(alloc: Global, values: &[Value]) -> Result<Vec<Value>, Memory>
    ensures { IfOk result (λ copies. copies.items ≡ values.now) }
{
    let mut copies = Vec::new(alloc);
    for value in values {
        let Ok(copy) = value.copied(alloc) else {
            return Err(Memory);
        };
        let Ok(()) = copies.push(copy) else {
            return Err(Memory);
        };
    }
    Ok(copies)
}

/// A frame that is equal to this one.
fn frame_copied<'a>(alloc: Global, frame: &Frame<'a>) -> Result<Frame<'a>, Memory>
    ensures { IfOk result (λ copy. frame_of copy ≡ frame_of frame.now) }
{
    let vars = values_copied(alloc, frame.vars.as_slice())?;
    let stack = values_copied(alloc, frame.stack.as_slice())?;
    let pending = Vec::from_slice(alloc, frame.pending.as_slice())?;
    Ok(Frame {
        vars,
        stack: Stack::of(stack),
        pending: Stack::of(pending),
        locked: frame.locked,
    })
}

/// The same of a thread that has not ended; none where it is in a method that was called.
fn running_copied<'a>(alloc: Global, running: &Running<'a>) -> Result<Option<Running<'a>>, Memory>
    ensures { IfOk result (λ copied. IfSome copied (λ copy. frames_of copy ≡ frames_of running.now)) }
{
    if !running.callers.is_empty() {
        return Ok(None);
    }
    let frame = frame_copied(alloc, &running.frame)?;
    Ok(Some(Running {
        frame,
        callers: Vec::new(alloc),
    }))
}

/// A thread that is equal to this one; none where it holds a monitor, is in a method that was called, or has ended.
fn thread_copied<'a>(alloc: Global, thread: &Thread<'a>) -> Result<Option<Thread<'a>>, Memory>
    ensures { IfOk result (λ copied. IfSome copied (λ copy. seen_of copy ≡ seen_of thread.now)) }
{
    if thread.locks.len() > 0 {
        return Ok(None);
    }
    let Some(running) = &thread.running else {
        return Ok(None);
    };
    let Some(copy) = running_copied(alloc, running)? else {
        return Ok(None);
    };
    Ok(Some(Thread {
        running: Some(copy),
        locks: Monitors::new(alloc),
    }))
}

/// Threads that are equal to these two; none where one of them has no copy.
fn threads_copied<'a>(
    alloc: Global,
    first: &Thread<'a>,
    second: &Thread<'a>,
) -> Result<Option<(Thread<'a>, Thread<'a>)>, Memory>
    ensures first { IfOk result (λ copied. IfSome copied (λ both. seen_of both.0 ≡ seen_of first.now)) }
    ensures second { IfOk result (λ copied. IfSome copied (λ both. seen_of both.1 ≡ seen_of second.now)) }
{
    let Some(one) = thread_copied(alloc, first)? else {
        return Ok(None);
    };
    let Ok(other) = thread_copied(alloc, second) else {
        let_thread_go(one);
        return Err(Memory);
    };
    let Some(other) = other else {
        let_thread_go(one);
        return Ok(None);
    };
    Ok(Some((one, other)))
}

impl<'a> Machine<'a> {
    /// A machine that is equal to this one, or none. Which comes, no clause says: only a machine in which all start
    /// paths are objects is copied, and only while both threads are in the methods that they began in and hold no
    /// monitor.
    pub fn copied(&self) -> Result<Option<Machine<'a>>, Memory>
        ensures { IfOk result (λ copied. IfSome copied (λ copy. state_of copy ≡ state_of self.now)) }
    {
        let Some(store) = self.store.copied(self.alloc)? else {
            return Ok(None);
        };
        let Ok(threads) = threads_copied(self.alloc, &self.first, &self.second) else {
            let_store_go(store);
            return Err(Memory);
        };
        let Some((first, second)) = threads else {
            let_store_go(store);
            return Ok(None);
        };
        Ok(Some(Machine {
            alloc: self.alloc,
            store,
            first,
            second,
        }))
    }
}
