//! What is seen of the next step of a thread before it is made.
ghost use Rattle.std.specs.Prelude.{◌≡◌, length, nat_eq};
ghost use Rattle.core_code.specs.Program.{core};
ghost use Rattle.core_semantics.specs.Changes.{changing_sight, field_change, frame_sight, get_sight};
ghost use Rattle.core_semantics.specs.Changes.{is_plain, is_plain_kind, next_sight, quiet_sight, stored_in};
ghost use Rattle.core_semantics.specs.State.{thread_of};
ghost use Rattle.core_semantics.specs.Steps.{kind_of, slot_of, top};
ghost use Rattle.core_semantics.specs.View.{frame_of, state_of};

use crate::ahead::ahead;
use crate::frame::Frame;
use crate::inner::kind_of;
use crate::pending::NextStep;
use crate::touch::is_turn;
use crate::{Machine, Value};
use core_code::{Op, Program};
use racer_base::{FieldId, Kind};

/// What a step may change of what both threads share.
#[derive(Clone, Copy)]
pub enum FieldChange {
    /// Nothing, or a field of a primitive type, in which a value of such a type is stored.
    Nothing,
    /// This field of one object.
    Field(FieldId),
    Anything,
}

/// The next step of a thread, before it is made.
#[derive(Clone, Copy)]
pub struct Sight {
    /// Whether it is a choice or a loop.
    pub takes_turn: bool,
    /// Whether it reads a field of an object.
    pub reads: bool,
    /// The field that it reads, unless that is of a primitive type.
    pub look: Option<FieldId>,
    pub change: FieldChange,
}

/// A step that reads nothing and changes nothing.
fn quiet(takes_turn: bool) -> Sight
    ensures { result ≡ quiet_sight takes_turn }
{
    Sight {
        takes_turn,
        reads: false,
        look: None,
        change: FieldChange::Nothing,
    }
}

/// A step that reads nothing and changes this.
fn changing(change: FieldChange) -> Sight
    ensures { result ≡ changing_sight change }
{
    Sight {
        takes_turn: false,
        reads: false,
        look: None,
        change,
    }
}

/// Whether a field is of a primitive type.
fn is_plain_field(program: &Program, f: FieldId) -> bool
    ensures { result ≡ is_plain_kind (kind_of (core program.now) f) }
{
    match kind_of(program, f) {
        Kind::Plain => true,
        Kind::Declared(_) => false,
        Kind::Other => false,
    }
}

impl Frame<'_> {
    /// Whether the value on the stack's top is of a primitive type.
    fn is_top_plain(&self) -> bool
        ensures { result ≡ is_plain (top (frame_of self.now)) }
    {
        match self.stack.get(0) {
            Some(Value::Plain) => true,
            Some(Value::Opaque) => false,
            Some(Value::Null) => false,
            Some(Value::Object(_)) => false,
            None => false,
        }
    }

    /// What storing the value on the stack's top in a field of the object under it changes.
    fn put_change(&self, program: &Program, f: FieldId) -> FieldChange
        ensures { result ≡ field_change (stored_in (core program.now) f (top (frame_of self.now))
            (slot_of (frame_of self.now) 1)) }
    {
        if self.base(1).is_err() {
            return FieldChange::Nothing;
        }
        if !is_plain_field(program, f) {
            return FieldChange::Field(f);
        }
        if self.is_top_plain() {
            FieldChange::Nothing
        } else {
            FieldChange::Anything
        }
    }

    /// Reading a field of the object on the stack's top.
    fn get_sight(&self, program: &Program, f: FieldId) -> Sight
        ensures { result ≡ get_sight (core program.now) f (top (frame_of self.now)) }
    {
        if self.base(0).is_err() {
            return quiet(false);
        }
        let look = if is_plain_field(program, f) {
            None
        } else {
            Some(f)
        };
        Sight {
            takes_turn: false,
            reads: true,
            look,
            change: FieldChange::Nothing,
        }
    }

    /// The next step.
    fn sight(&self, program: &Program) -> Sight
        ensures { result ≡ frame_sight (core program.now) (frame_of self.now) }
    {
        match ahead(&self.pending) {
            Some(NextStep::Op(_, Op::Get(f))) => self.get_sight(program, f),
            Some(NextStep::Op(_, Op::Put(f))) => changing(self.put_change(program, f)),
            Some(NextStep::Op(_, Op::New(_))) => changing(FieldChange::Anything),
            Some(next) => quiet(is_turn(next)),
            None => quiet(false),
        }
    }
}

impl Machine<'_> {
    /// The next step of a thread. The program is the one that the machine began with.
    pub fn next_sight(&self, program: &Program, thread: u32) -> Sight
        ensures { result ≡ next_sight (core program.now) (state_of self.now) thread }
    {
        match &self.thread(thread).running {
            Some(running) => running.frame.sight(program),
            None => quiet(false),
        }
    }

    /// Whether a thread holds no monitor.
    pub fn is_free(&self, thread: u32) -> bool
        ensures { result ≡ nat_eq (length (thread_of (state_of self.now) thread).locks) 0 }
    {
        self.thread(thread).locks.len() == 0
    }
}
