//! What a machine is about to do.
ghost use Rattle.std.specs.Prelude.{◌≡◌, IfOk, option_map};
ghost use Rattle.core_code.specs.Program.{core};
ghost use Rattle.core_semantics.specs.Runs.{access_of, frame_touch, is_turn, next_todo, next_touch, place, place_of};
ghost use Rattle.core_semantics.specs.Runs.{next_value, value_read, wants_turn};
ghost use Rattle.core_semantics.specs.State.{thread_of};
ghost use Rattle.core_semantics.specs.Steps.{slot_of};
ghost use Rattle.core_semantics.specs.View.{frame_of, seen_access, seen_of, state_of, step_of, store_of};

use crate::ahead::ahead;
use crate::frame::Frame;
use crate::inner::read;
use crate::pending::NextStep;
use crate::thread::Thread;
use crate::{Machine, Object, Value};
use core_code::{Op, Program};
use racer_base::{FieldId, Memory, Place, Touch};

/// The place of an operation or a lock.
fn place_of(next: NextStep) -> Option<Place>
    ensures { result ≡ place_of (step_of next.entry) }
{
    match next {
        NextStep::Op(place, _) => Some(place),
        NextStep::Sync(place, _, _) => Some(place),
        NextStep::Choice(_, _) => None,
        NextStep::Loop(_) => None,
        NextStep::Unlock => None,
    }
}

/// Whether a step is a choice or a loop.
pub(crate) fn is_turn(next: NextStep) -> bool
    ensures { result ≡ is_turn (step_of next.entry) }
{
    match next {
        NextStep::Op(_, _) => false,
        NextStep::Sync(_, _, _) => false,
        NextStep::Choice(_, _) => true,
        NextStep::Loop(_) => true,
        NextStep::Unlock => false,
    }
}

impl Frame<'_> {
    /// The access of a field of the object at a place of the stack.
    fn access(&self, number: usize, f: FieldId, kind: Touch) -> Option<(&Object, FieldId, Touch)>
        ensures { option_map seen_access result ≡ access_of (slot_of (frame_of self.now) number) f kind }
    {
        match self.base(number) {
            Ok(object) => Some((object, f, kind)),
            Err(_) => None,
        }
    }

    /// The access that is the next step.
    fn touch(&self) -> Option<(&Object, FieldId, Touch)>
        ensures { option_map seen_access result ≡ frame_touch (frame_of self.now) }
    {
        match ahead(&self.pending) {
            Some(NextStep::Op(_, Op::Get(f))) => self.access(0, f, Touch::Read),
            Some(NextStep::Op(_, Op::Put(f))) => self.access(1, f, Touch::Write),
            _ => None,
        }
    }
}

impl Machine<'_> {
    /// Thread 0, or thread 1 at any other number.
    pub(crate) fn thread(&self, number: u32) -> &Thread<'_>
        ensures { seen_of result.now ≡ thread_of (state_of self.now) number }
    {
        if number == 0 {
            &self.first
        } else {
            &self.second
        }
    }

    /// The next step of a thread.
    fn next(&self, thread: u32) -> Option<NextStep<'_>>
        ensures { option_map step_of result ≡ next_todo (state_of self.now) thread }
    {
        match &self.thread(thread).running {
            Some(running) => ahead(&running.frame.pending),
            None => None,
        }
    }

    /// Whether a thread is at a choice or a loop.
    pub fn wants_turn(&self, thread: u32) -> bool
        ensures { result ≡ wants_turn (state_of self.now) thread }
    {
        match self.next(thread) {
            Some(next) => is_turn(next),
            None => false,
        }
    }

    /// The place of the operation or the lock that a thread is at.
    pub fn place(&self, thread: u32) -> Option<Place>
        ensures { result ≡ place (state_of self.now) thread }
    {
        match self.next(thread) {
            Some(next) => place_of(next),
            None => None,
        }
    }

    /// The object and the field that the next step of a thread reads or writes.
    pub fn next_touch(&self, thread: u32) -> Option<(&Object, FieldId, Touch)>
        ensures { option_map seen_access result ≡ next_touch (state_of self.now) thread }
    {
        match &self.thread(thread).running {
            Some(running) => running.frame.touch(),
            None => None,
        }
    }

    /// The value that an access reads; none where it is a write.
    fn value_read(
        &self,
        program: &Program,
        access: Option<(&Object, FieldId, Touch)>,
    ) -> Result<Option<Value>, Memory>
        ensures { IfOk result (λ value. value ≡
            value_read (core program.now) (store_of self.now.store) (option_map seen_access access.entry)) }
    {
        match access {
            Some((object, f, Touch::Read)) => {
                let value = read(self.alloc, program, &self.store, object, f)?;
                Ok(Some(value))
            }
            Some((_, _, Touch::Write)) => Ok(None),
            None => Ok(None),
        }
    }

    /// The value that the next step of a thread reads from a field of an object. The program is the one that the
    /// machine began with.
    pub fn next_value(&self, program: &Program, thread: u32) -> Result<Option<Value>, Memory>
        ensures { IfOk result (λ value. value ≡ next_value (core program.now) (state_of self.now) thread) }
    {
        self.value_read(program, self.next_touch(thread))
    }
}
