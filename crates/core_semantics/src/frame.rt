//! Frames: methods that are being done.
ghost use Rattle.std.specs.Prelude.{◌≡◌, ◌++◌, ◌-◌, [], length, replicate, slice_set, IfOk, OnOk, OnErr, MatchResult};
ghost use Rattle.std.specs.Prelude.{slice_index_or};
ghost use Rattle.core_code.specs.Core.{method_of};
ghost use Rattle.core_code.specs.Tree.{tree_of};
ghost use Rattle.core_semantics.specs.declared.object.Value.TheVariants.{Null as NullValue};
ghost use Rattle.core_semantics.specs.declared.object.Object.{Object};
ghost use Rattle.core_semantics.specs.declared.object.Value.{Value};
ghost use Rattle.core_semantics.specs.Answers.{IsAnswer};
ghost use Rattle.core_semantics.specs.State.{before};
ghost use Rattle.core_semantics.specs.Steps.{Goes, base_of, entered, passed_from, popped, replaced, slot_of, top};
ghost use Rattle.core_semantics.specs.View.{frame_of, behind, todo_of};

use crate::pending::Pending;
use crate::stack::Stack;
use crate::{Object, StepAnswer, Value, Why};
use core_code::{Code, MethodCore};
use racer_base::{Memory, VarId};
use std::alloc::Global;

/// A method that is being done.
#[derive(Drop)]
pub(crate) struct Frame<'a> {
    pub vars: Vec<Value>,
    pub stack: Stack<Value>,
    pub pending: Stack<Pending<'a>>,
    /// How many monitors it locked.
    pub locked: usize,
}

/// Values, and nulls behind them up to this number.
fn with_nulls(mut values: Vec<Value>, count: usize) -> Result<Vec<Value>, Memory>
    ensures { IfOk result (λ vars. vars.items ≡
        values.items ++ replicate (count - length values.items) NullValue) }
{
    while values.len() < count {
        values.push(Value::Null)?;
    }
    Ok(values)
}

/// Code that is still to be done, and nothing behind it.
fn pending_code<'a>(alloc: Global, code: &'a Code) -> Result<Stack<Pending<'a>>, Memory>
    ensures { IfOk result (λ pending. todo_of pending ≡ before (tree_of code.now) []) }
{
    let mut pending = Stack::new(alloc);
    let Ok(()) = pending.replace(0, Pending::One(code)) else {
        return Err(Memory);
    };
    Ok(pending)
}

impl<'a> Frame<'a> {
    /// A method that is called with these values.
    pub(crate) fn entered(
        alloc: Global,
        method: &'a MethodCore,
        passed: Vec<Value>,
    ) -> Result<Frame<'a>, Memory>
        ensures { IfOk result (λ frame. frame_of frame ≡ entered (method_of method.now) passed.items) }
    {
        let Ok(vars) = with_nulls(passed, method.variables.len()) else {
            return Err(Memory);
        };
        let Ok(pending) = pending_code(alloc, &method.code) else {
            return Err(Memory);
        };
        Ok(Frame {
            vars,
            stack: Stack::new(alloc),
            pending,
            locked: 0,
        })
    }

    /// A copy of the value at a place of the stack, counted from its top.
    pub(crate) fn slot(&self, alloc: Global, number: usize) -> Result<Value, Memory>
        ensures { IfOk result (λ value. value ≡ slot_of (frame_of self.now) number) }
    {
        match self.stack.get(number) {
            Some(value) => value.copied(alloc),
            None => Ok(Value::Null),
        }
    }

    /// A copy of the value of a variable.
    pub(crate) fn var(&self, alloc: Global, v: VarId) -> Result<Value, Memory>
        ensures { IfOk result (λ value. value ≡ slice_index_or (frame_of self.now).vars v.0 NullValue) }
    {
        match self.vars.get(v.0 as usize) {
            Some(value) => value.copied(alloc),
            None => Ok(Value::Null),
        }
    }

    /// The object at a place of the stack.
    pub(crate) fn base(&self, number: usize) -> Result<&Object, Why>
        ensures { MatchResult result (λ object. base_of (slot_of (frame_of self.now) number) ≡ Ok object.now)
            (λ why. base_of (slot_of (frame_of self.now) number) ≡ Err why) }
    {
        match self.stack.get(number) {
            Some(Value::Object(object)) => Ok(object),
            Some(Value::Plain) => Err(Why::PlainBase),
            Some(Value::Opaque) => Err(Why::OpaqueBase),
            Some(Value::Null) => Err(Why::NullBase),
            None => Err(Why::NullBase),
        }
    }

    /// Copies of so many values from the top of the stack, the top last.
    pub(crate) fn passed(&self, alloc: Global, count: usize) -> Result<Vec<Value>, Memory>
        ensures { IfOk result (λ values. values.items ≡ passed_from (frame_of self.now) count) }
    {
        let all = self.stack.as_slice();
        let mut values = Vec::new(alloc);
        for value in &all[all.len().saturating_sub(count)..] {
            let Ok(copy) = value.copied(alloc) else {
                return Err(Memory);
            };
            let Ok(()) = values.push(copy) else {
                return Err(Memory);
            };
        }
        Ok(values)
    }

    /// Puts a value in the place of so many on the stack, and leaves the next step behind.
    pub(crate) fn replace(&mut self, count: usize, value: Value) -> Result<(), Memory>
        ensures ok { OnOk result (frame_of self.new ≡ replaced (behind self.old) count value) }
        ensures err { OnErr result (frame_of self.new ≡ frame_of self.old) }
    {
        let Ok(()) = self.stack.replace(count, value) else {
            return Err(Memory);
        };
        self.pending.cut(1);
        Ok(())
    }

    /// Takes so many values from the stack, and leaves the next step behind.
    pub(crate) fn cut(&mut self, count: usize)
        ensures { frame_of self.new ≡ popped (behind self.old) count }
    {
        self.stack.cut(count);
        self.pending.cut(1);
    }

    /// Sets a variable, and leaves the next step behind.
    pub(crate) fn set(&mut self, v: VarId, value: Value)
        ensures { frame_of self.new ≡
            record (behind self.old) { vars = slice_set self.old.vars.items v.0 value } }
    {
        if (v.0 as usize) < self.vars.len() {
            self.vars[v.0 as usize] = value;
        }
        self.pending.cut(1);
    }

    /// Puts a value, where there was memory for it, in the place of so many on the stack, and leaves the next step
    /// behind.
    pub(crate) fn replace_by(&mut self, count: usize, value: Result<Value, Memory>) -> StepAnswer
        ensures { (v : Value) → IfOk value (λ w. w ≡ v) →
            IsAnswer (Goes (replaced (behind self.old) count v)) (frame_of self.old) (frame_of self.new) result }
    {
        let Ok(value) = value else {
            return StepAnswer::Memory;
        };
        match self.replace(count, value) {
            Ok(()) => StepAnswer::Stepped,
            Err(Memory) => StepAnswer::Memory,
        }
    }

    /// Takes the value under the top from the stack, and leaves the next step behind.
    pub(crate) fn pull(&mut self)
        ensures { (o : Object) → base_of (slot_of (frame_of self.old) 1) ≡ Ok o →
            frame_of self.new ≡ replaced (behind self.old) 2 (top (frame_of self.old)) }
    {
        self.stack.pull();
        self.pending.cut(1);
    }
}
