//! What operations and locks need, the kinds behind them, and what fails there.
ghost use Rattle.std.specs.Prelude.{◌≡◌, IfOk, OnOk, option_and_then, option_to_list, Some};
ghost use Rattle.core_code.specs.Calls.{method_at, taken_by};
ghost use Rattle.core_code.specs.KindCheck.{field_at};
ghost use Rattle.core_code.specs.Core.{method_of};
ghost use Rattle.core_code.specs.Program.{core};
ghost use Rattle.typed_core.specs.Check.{next_of};
ghost use Rattle.typed_core.specs.Kinds as kinds;
ghost use Rattle.typed_core.specs.Needs as spec;
ghost use Rattle.typed_core.specs.Contexts.{are_returns, moved};

use crate::context::CheckContext;
use crate::doubts::Doubt;
use crate::kinds::{TypedKind, do_fit, fits, is_reference, same_kind};
use crate::states::Kinds;
use core_code::{FieldCore, MethodCore, Op};
use racer_base::{FieldId, Kind, Memory, MethodId, Place};
use std::mem;

/// What the base of a field is to be.
fn base_of(field: &FieldCore) -> TypedKind
    ensures { result ≡ spec.base_of field.now }
{
    if field.is_static {
        TypedKind::Class(field.class)
    } else {
        TypedKind::Object(field.class)
    }
}

/// Whether what is passed fits what a method takes.
fn takes(callee: &MethodCore, given: &[TypedKind]) -> bool
    ensures { result ≡ kinds.do_fit (taken_by (method_of callee.now)) given.now }
{
    if callee.is_static {
        return do_fit(callee.parameters.as_slice(), given);
    }
    match given.split_first() {
        Some((receiver, arguments)) => {
            fits(Kind::Declared(callee.class), *receiver)
                && do_fit(callee.parameters.as_slice(), arguments)
        }
        None => false,
    }
}

impl CheckContext<'_> {
    fn is_read_met(&self, f: FieldId, here: &Kinds) -> bool
        ensures { result ≡ spec.is_read_met (field_at (core self.now.program.now) f) here.now }
    {
        match self.field(f) {
            Some(field) => same_kind(base_of(field), here.top()),
            None => false,
        }
    }

    fn is_store_met(&self, f: FieldId, here: &Kinds) -> bool
        ensures { result ≡ spec.is_store_met (field_at (core self.now.program.now) f) here.now }
    {
        match self.field(f) {
            Some(field) => {
                same_kind(base_of(field), here.below_top()) && fits(field.kind, here.top())
            }
            None => false,
        }
    }

    fn is_call_met(&self, m: MethodId, count: u32, here: &Kinds) -> bool
        ensures { result ≡ spec.is_call_met (method_at (core self.now.program.now) m) count here.now }
    {
        match self.callee(m) {
            Some(callee) => takes(callee, here.passed(count)),
            None => false,
        }
    }

    /// Whether an operation has what it needs.
    fn is_met(&self, op: Op, here: &Kinds) -> bool
        ensures { result ≡ spec.is_met (core self.now.program.now) (method_of self.now.method.now) op here.now }
    {
        match op {
            Op::Get(f) => self.is_read_met(f, here),
            Op::Put(f) => self.is_store_met(f, here),
            Op::Call(m, count) => self.is_call_met(m, count, here),
            Op::Ret => fits(self.method.result, here.top()),
            _ => true,
        }
    }

    /// Whether an operation fails whatever the kinds.
    fn is_refused(&self, op: Op) -> bool
        requires { self.now.returns.now ≡ are_returns (core self.now.program.now) }
        ensures { result ≡ spec.is_refused (core self.now.program.now) op }
    {
        match op {
            Op::Unread(_, _) => true,
            Op::Call(m, _) => self.cannot_return(m),
            _ => false,
        }
    }

    /// What may fail at an operation.
    pub fn op_doubt(&self, place: Place, op: Op, reached: bool, here: &Kinds) -> Option<Doubt>
        requires { self.now.returns.now ≡ are_returns (core self.now.program.now) }
        ensures { option_to_list result ≡ spec.op_doubts (core self.now.program.now) (method_of self.now.method.now)
            place op (next_of reached here.now) }
    {
        if self.is_refused(op) || (reached && !self.is_met(op, here)) {
            return Some(Doubt::Always(place));
        }
        match op {
            Op::New(class) => Some(Doubt::IfRead(class, place)),
            _ => None,
        }
    }

    /// Does an operation to kinds; whether there are any behind it.
    pub fn step(&self, op: Op, here: &mut Kinds) -> Result<bool, Memory>
        ensures { IfOk result (λ goes_on. next_of goes_on here.new
            ≡ spec.kinds_behind (core self.now.program.now) op here.old) }
    {
        match op {
            Op::Ret | Op::Throw => return Ok(false),
            Op::Get(f) => here.replace(1, self.field_kind(f))?,
            Op::Call(m, count) => here.replace(count, self.result_kind(m))?,
            _ => move_on(op, here)?,
        }
        Ok(true)
    }
}

/// Does an operation that asks nothing of the program.
fn move_on(op: Op, here: &mut Kinds) -> Result<(), Memory>
    ensures { OnOk result (here.new ≡ moved op here.old) }
{
    match op {
        Op::Push(variable) => here.push_variable(variable),
        Op::PushClass(class) => here.push(TypedKind::Class(class)),
        Op::PushPrim => here.push(TypedKind::Plain),
        Op::PushNull => here.push(TypedKind::Unset),
        Op::New(class) => here.push(TypedKind::Object(class)),
        Op::Dup => here.push_top(),
        Op::Drop => {
            here.pop();
            Ok(())
        }
        Op::Put(_) => {
            let stored = here.pop();
            here.replace(1, stored)
        }
        Op::Set(variable) => {
            here.set(variable);
            Ok(())
        }
        Op::Prim(count) => here.replace(count, TypedKind::Plain),
        Op::Outside(count) | Op::Unread(_, count) => here.replace(count, TypedKind::Other),
        Op::Get(_) | Op::Call(_, _) | Op::Ret | Op::Throw => Ok(()),
    }
}

/// What may fail at a lock.
pub(crate) fn lock_doubt(place: Place, reached: bool, here: &Kinds) -> Option<Doubt>
    ensures { option_to_list result ≡ spec.lock_doubts place (next_of reached here.now) }
{
    if reached && !is_reference(here.top()) {
        return Some(Doubt::Always(place));
    }
    None
}
