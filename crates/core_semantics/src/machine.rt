//! The machine.
ghost use Rattle.std.specs.Prelude.{◌≡◌, ◌++◌, ◌∷◌, [], None as NoneOf, IfOk, OnOk};
ghost use Rattle.std.specs.Option.{IfSome};
ghost use Rattle.core_code.specs.Core.{method_of};
ghost use Rattle.core_code.specs.Program.{core};
ghost use Rattle.core_semantics.specs.declared.object.Object.TheVariants.{Start as StartOf};
ghost use Rattle.core_semantics.specs.declared.object.Value.TheVariants.{Object as Ref};
ghost use Rattle.core_semantics.specs.Answers.{IsAnswer};
ghost use Rattle.core_semantics.specs.Behind.{begun_behind};
ghost use Rattle.core_semantics.specs.Objects.{root_path};
ghost use Rattle.core_semantics.specs.Runs.{begun, given_to, parameter, parameters_from, thread_at};
ghost use Rattle.core_semantics.specs.Steps.{entered, step};
ghost use Rattle.core_semantics.specs.CellOrder.{heap_of};
ghost use Rattle.core_semantics.specs.View.{frames_of, seen_of, state_of};

use crate::frame::Frame;
use crate::monitors::Monitors;
use crate::step::{StepContext, step_thread};
use crate::store::{Cells, Heap, Store};
use crate::thread::{Running, Thread, let_thread_go};
use crate::{Object, Start, StartPath, StartRoot, StepAnswer, Turn, Value};
use core_code::{MethodCore, Program};
use racer_base::{Kind, Memory, MethodId};
use std::alloc::Global;

/// Two threads that run methods of a program.
#[derive(Drop)]
pub struct Machine<'a> {
    pub(crate) alloc: Global,
    pub(crate) store: Store,
    pub(crate) first: Thread<'a>,
    pub(crate) second: Thread<'a>,
}

/// The object of a root.
fn root_object(alloc: Global, root: StartRoot) -> Value
    ensures { result ≡ Ref (StartOf (root_path root)) }
{
    Value::Object(Object::Start(StartPath::alone(alloc, root)))
}

/// A parameter of the entry of a thread.
fn parameter(alloc: Global, thread: u32, number: u32, kind: Kind) -> Value
    ensures { result ≡ parameter thread number kind }
{
    match kind {
        Kind::Plain => Value::Plain,
        Kind::Declared(_) => root_object(alloc, StartRoot::Param(thread, number)),
        Kind::Other => Value::Opaque,
    }
}

/// Puts the parameters of the entry of a thread, which have these kinds, behind other values.
fn push_parameters(
    alloc: Global,
    thread: u32,
    kinds: &[Kind],
    values: &mut Vec<Value>,
) -> Result<(), Memory>
    ensures { OnOk result (values.new.items ≡ values.old.items ++ parameters_from thread 0 kinds.now) }
{
    for (index, kind) in kinds.iter().enumerate() {
        let Ok(number) = u32::try_from(index) else {
            return Err(Memory);
        };
        let Ok(()) = values.push(parameter(alloc, thread, number, *kind)) else {
            return Err(Memory);
        };
    }
    Ok(())
}

/// What the entry of a thread is given.
fn given_to(alloc: Global, thread: u32, method: &MethodCore) -> Result<Vec<Value>, Memory>
    ensures { IfOk result (λ values. values.items ≡ given_to thread (method_of method.now)) }
{
    let mut values = Vec::new(alloc);
    if !method.is_static {
        let Ok(()) = values.push(root_object(alloc, StartRoot::This)) else {
            return Err(Memory);
        };
    }
    let Ok(()) = push_parameters(alloc, thread, method.parameters.as_slice(), &mut values) else {
        return Err(Memory);
    };
    Ok(values)
}

/// A method, at its entry.
fn running_at<'a>(alloc: Global, thread: u32, method: &'a MethodCore) -> Result<Running<'a>, Memory>
    ensures { IfOk result (λ running.
        frames_of running ≡ entered (method_of method.now) (given_to thread (method_of method.now)) ∷ []) }
{
    let Ok(values) = given_to(alloc, thread, method) else {
        return Err(Memory);
    };
    let Ok(frame) = Frame::entered(alloc, method, values) else {
        return Err(Memory);
    };
    Ok(Running {
        frame,
        callers: Vec::new(alloc),
    })
}

/// A thread at the entry of a method.
fn thread_at<'a>(
    alloc: Global,
    program: &'a Program,
    thread: u32,
    method: MethodId,
) -> Result<Thread<'a>, Memory>
    ensures { IfOk result (λ made. seen_of made ≡ thread_at (core program.now) thread method) }
{
    let Some(method) = program.methods().get(method.0 as usize) else {
        return Ok(Thread {
            running: None,
            locks: Monitors::new(alloc),
        });
    };
    let Ok(running) = running_at(alloc, thread, method) else {
        return Err(Memory);
    };
    Ok(Thread {
        running: Some(running),
        locks: Monitors::new(alloc),
    })
}

/// Two threads at the entries of two methods: the first at that of `m1`.
fn threads_at<'a>(
    alloc: Global,
    program: &'a Program,
    m1: MethodId,
    m2: MethodId,
) -> Result<(Thread<'a>, Thread<'a>), Memory>
    ensures first { IfOk result (λ both. seen_of both.0 ≡ thread_at (core program.now) 0 m1) }
    ensures second { IfOk result (λ both. seen_of both.1 ≡ thread_at (core program.now) 1 m2) }
{
    let Ok(first) = thread_at(alloc, program, 0, m1) else {
        return Err(Memory);
    };
    let Ok(second) = thread_at(alloc, program, 1, m2) else {
        let_thread_go(first);
        return Err(Memory);
    };
    Ok((first, second))
}

/// A machine of two threads, with nothing stored.
fn machine_of<'a>(alloc: Global, heap: Heap, first: Thread<'a>, second: Thread<'a>) -> Machine<'a>
    ensures { state_of result ≡ record {
      store = record { heap = heap_of heap; cells = λ o f. NoneOf; fresh = 0 };
      first = seen_of first.entry;
      second = seen_of second.entry;
    } }
{
    let store = Store {
        heap,
        cells: Cells::new(alloc),
        fresh: 0,
    };
    Machine {
        alloc,
        store,
        first,
        second,
    }
}

/// Two threads at the entries of two methods of a program: the first at that of `m1`. Nothing is stored yet.
pub fn begin<'a>(
    alloc: Global,
    program: &'a Program,
    m1: MethodId,
    m2: MethodId,
    start: Start,
) -> Result<Machine<'a>, Memory>
    ensures { IfOk result (λ machine. state_of machine ≡ begun (core program.now) m1 m2 start) }
{
    let Ok(heap) = Heap::of(alloc, start) else {
        return Err(Memory);
    };
    let Ok((first, second)) = threads_at(alloc, program, m1, m2) else {
        return Err(Memory);
    };
    Ok(machine_of(alloc, heap, first, second))
}

impl<'a> Machine<'a> {
    /// Two threads at the entries of two methods of a program, behind all that this machine stored; none where not all
    /// start paths are objects.
    pub fn begin_behind<'b>(
        &self,
        program: &'b Program,
        m1: MethodId,
        m2: MethodId,
    ) -> Result<Option<Machine<'b>>, Memory>
        ensures { IfOk result (λ begun. IfSome begun (λ machine. state_of machine
            ≡ begun_behind (core program.now) m1 m2 (state_of self.now).store)) }
    {
        let Some(store) = self.store.copied(self.alloc)? else {
            return Ok(None);
        };
        let Ok((first, second)) = threads_at(self.alloc, program, m1, m2) else {
            return Err(Memory);
        };
        Ok(Some(Machine {
            alloc: self.alloc,
            store,
            first,
            second,
        }))
    }

    /// One step of thread 0, or of thread 1 at any other number. The turn counts only at a choice or a loop, and the
    /// program is the one that the machine began with.
    pub fn step(&mut self, program: &'a Program, thread: u32, turn: Turn) -> StepAnswer
        ensures { IsAnswer (step (core program.now) (state_of self.old) thread turn) (state_of self.old)
            (state_of self.new) result }
    {
        if thread == 0 {
            let given = StepContext {
                alloc: self.alloc,
                program,
                turn,
                others: &self.second.locks,
            };
            step_thread(&given, &mut self.store, &mut self.first)
        } else {
            let given = StepContext {
                alloc: self.alloc,
                program,
                turn,
                others: &self.first.locks,
            };
            step_thread(&given, &mut self.store, &mut self.second)
        }
    }
}
