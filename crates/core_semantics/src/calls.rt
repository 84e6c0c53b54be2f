//! Calls and returns.
ghost use Rattle.std.specs.Prelude.{◌≡◌, [], ◌∷◌, ◌++◌, ◌<◌, List, length, OnOk, OnErr, slice_index_or};
ghost use Rattle.std.specs.Prelude.{vec_len};
ghost use Rattle.std.specs.Vec.{vec_capacity};
ghost use Rattle.core_code.specs.Core.{method_of};
ghost use Rattle.core_code.specs.Program.{core};
ghost use Rattle.core_semantics.specs.declared.answer.Holder.{Holder};
ghost use Rattle.core_semantics.specs.declared.object.Value.TheVariants.{Null as NullValue};
ghost use Rattle.core_semantics.specs.Answers.{IsAnswer};
ghost use Rattle.core_semantics.specs.State.{Store};
ghost use Rattle.core_semantics.specs.Steps.{after, base_of, called, entered, popped, reason, returned};
ghost use Rattle.core_semantics.specs.View.{behind, callers_of, frames_of, spot_of, behind_spot};

use crate::frame::Frame;
use crate::thread::Running;
use crate::{StepAnswer, Value, Why};
use core_code::{MethodCore, Program};
use racer_base::{Memory, MethodId};
use std::alloc::Global;
use std::mem;

/// Why the first of these values is no object, where it is none.
fn receiver_fault(passed: &[Value]) -> Option<Why>
    ensures { result ≡ reason (base_of (slice_index_or passed.now 0 NullValue)) }
{
    match passed.first() {
        Some(Value::Object(_)) => None,
        Some(Value::Plain) => Some(Why::PlainBase),
        Some(Value::Opaque) => Some(Why::OpaqueBase),
        Some(Value::Null) => Some(Why::NullBase),
        None => Some(Why::NullBase),
    }
}

/// Makes the frame of a method with these values the innermost one. So many values are taken from its caller's stack.
fn enter<'a>(
    alloc: Global,
    running: &mut Running<'a>,
    method: &'a MethodCore,
    passed: Vec<Value>,
    count: usize,
) -> Result<(), Memory>
    ensures ok { OnOk result (frames_of running.new ≡ entered (method_of method.now) passed.items
        ∷ popped (behind running.old.frame) count ∷ callers_of running.old) }
    ensures err { OnErr result (frames_of running.new ≡ frames_of running.old) }
{
    let Ok(()) = running.callers.reserve(1) else {
        return Err(Memory);
    };
    let Ok(callee) = Frame::entered(alloc, method, passed) else {
        return Err(Memory);
    };
    running.frame.cut(count);
    let caller = mem::replace(&mut running.frame, callee);
    put_back(running, caller);
    Ok(())
}

/// Calls a method with so many values.
pub(crate) fn call<'a>(
    alloc: Global,
    program: &'a Program,
    running: &mut Running<'a>,
    method: MethodId,
    count: u32,
) -> StepAnswer
    ensures { (store : Store) (locks : List Holder) →
        IsAnswer (called (core program.now) (behind_spot store running.old locks) method count)
        (after (spot_of store running.old locks)) (after (spot_of store running.new locks)) result }
{
    let Some(method) = program.methods().get(method.0 as usize) else {
        return StepAnswer::Stuck(Why::UnreadCall);
    };
    let Ok(passed) = running.frame.passed(alloc, count as usize) else {
        return StepAnswer::Memory;
    };
    if !method.is_static
        && let Some(why) = receiver_fault(passed.as_slice())
    {
        return StepAnswer::Stuck(why);
    }
    match enter(alloc, running, method, passed, count as usize) {
        Ok(()) => StepAnswer::Stepped,
        Err(Memory) => StepAnswer::Memory,
    }
}

/// Ends the innermost frame and gives its value to its caller.
pub(crate) fn give_back(alloc: Global, running: &mut Running) -> StepAnswer
    requires { 0 < length running.old.callers.items }
    ensures { (store : Store) (locks : List Holder) →
        IsAnswer (returned (behind_spot store running.old locks))
        (after (spot_of store running.old locks)) (after (spot_of store running.new locks)) result }
{
    let Ok(value) = running.frame.slot(alloc, 0) else {
        return StepAnswer::Memory;
    };
    let Some(mut caller) = running.callers.pop() else {
        unreachable!()
    };
    let Ok(()) = caller.stack.replace(0, value) else {
        put_back(running, caller);
        return StepAnswer::Memory;
    };
    running.frame = caller;
    StepAnswer::Stepped
}

/// Puts a frame back that was taken from the callers.
fn put_back<'a>(running: &mut Running<'a>, caller: Frame<'a>)
    requires { vec_len running.old.callers < vec_capacity running.old.callers }
    ensures frame { running.new.frame ≡ running.old.frame }
    ensures callers { running.new.callers.items ≡ running.old.callers.items ++ caller.entry ∷ [] }
{
    let Ok(()) = running.callers.push(caller) else {
        unreachable!()
    };
}
