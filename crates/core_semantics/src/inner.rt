//! Operations in one frame.
ghost use Rattle.std.specs.Prelude.{◌≡◌, IfOk};
ghost use Rattle.core_code.specs.Program.{core};
ghost use Rattle.core_semantics.specs.declared.object.Object.TheVariants.{Start};
ghost use Rattle.core_semantics.specs.declared.object.StartRoot.TheVariants.{Class};
ghost use Rattle.core_semantics.specs.declared.object.Value.TheVariants.{Object as Ref};
ghost use Rattle.core_semantics.specs.Answers.{IsAnswer};
ghost use Rattle.core_semantics.specs.CellOrder.{heap_of};
ghost use Rattle.core_semantics.specs.Objects.{root_path};
ghost use Rattle.core_semantics.specs.Steps.{Goes, got, inner_step, kind_of, made, put_on, read, unstored, with_var};
ghost use Rattle.core_semantics.specs.View.{behind, behind_inner, frame_of, inner_of, store_of};

use crate::frame::Frame;
use crate::store::{Heap, Store};
use crate::{Object, StartPath, StartRoot, StepAnswer, Value, Why};
use core_code::{Op, Program};
use racer_base::{ClassId, FieldId, Kind, Memory, VarId};
use std::alloc::Global;

/// The kind of a field.
pub(crate) fn kind_of(program: &Program, f: FieldId) -> Kind
    ensures { result ≡ kind_of (core program.now) f }
{
    match program.fields().get(f.0 as usize) {
        Some(field) => field.kind,
        None => Kind::Other,
    }
}

/// What a field of this kind of an object holds before anything is stored there.
fn unstored(
    alloc: Global,
    heap: &Heap,
    kind: Kind,
    object: &Object,
    f: FieldId,
) -> Result<Value, Memory>
    ensures { IfOk result (λ value. value ≡ unstored (heap_of heap.now) kind object.now f) }
{
    match (kind, object) {
        (Kind::Plain, _) => Ok(Value::Plain),
        (Kind::Other, Object::Start(_)) => Ok(Value::Opaque),
        (Kind::Declared(_), Object::Start(path)) => Ok(heap.admitted(path.lengthened(alloc, f)?)),
        (_, Object::Fresh(_)) => Ok(Value::Null),
    }
}

/// What a field of an object holds.
pub(crate) fn read(
    alloc: Global,
    program: &Program,
    store: &Store,
    object: &Object,
    f: FieldId,
) -> Result<Value, Memory>
    ensures { IfOk result (λ value. value ≡ read (core program.now) (store_of store.now) object.now f) }
{
    match store.cells.get(alloc, object, f)? {
        Some(value) => value.copied(alloc),
        None => unstored(alloc, &store.heap, kind_of(program, f), object, f),
    }
}

/// Pushes a fresh object.
fn make(store: &mut Store, frame: &mut Frame) -> StepAnswer
    ensures { IsAnswer (made (behind_inner store.old frame.old)) (inner_of store.old frame.old)
        (inner_of store.new frame.new) result }
{
    let Some(next) = store.fresh.checked_add(1) else {
        return StepAnswer::Memory;
    };
    let Ok(()) = frame.replace(0, Value::Object(Object::Fresh(store.fresh))) else {
        return StepAnswer::Memory;
    };
    store.fresh = next;
    StepAnswer::Stepped
}

/// Reads a field of the object on the stack's top.
fn get(alloc: Global, program: &Program, store: &Store, frame: &mut Frame, f: FieldId) -> StepAnswer
    ensures { IsAnswer (got (core program.now) (behind_inner store.now frame.old) f) (inner_of store.now frame.old)
        (inner_of store.now frame.new) result }
{
    let object = match frame.base(0) {
        Ok(object) => object,
        Err(why) => return StepAnswer::Stuck(why),
    };
    let value = read(alloc, program, store, object, f);
    frame.replace_by(1, value)
}

/// Stores the value on the stack's top in a field of the object under it.
fn put(alloc: Global, store: &mut Store, frame: &mut Frame, f: FieldId) -> StepAnswer
    ensures { IsAnswer (put_on (behind_inner store.old frame.old) f) (inner_of store.old frame.old)
        (inner_of store.new frame.new) result }
{
    let object = match frame.base(1) {
        Ok(object) => object,
        Err(why) => return StepAnswer::Stuck(why),
    };
    let Ok(value) = frame.slot(alloc, 0) else {
        return StepAnswer::Memory;
    };
    let Ok(()) = store.cells.put(alloc, object, f, value) else {
        return StepAnswer::Memory;
    };
    frame.pull();
    StepAnswer::Stepped
}

/// Sets a variable to the value on the stack's top.
fn set(alloc: Global, frame: &mut Frame, v: VarId) -> StepAnswer
    ensures { IsAnswer (Goes (with_var (behind frame.old) v)) (frame_of frame.old) (frame_of frame.new) result }
{
    let Ok(value) = frame.slot(alloc, 0) else {
        return StepAnswer::Memory;
    };
    frame.set(v, value);
    StepAnswer::Stepped
}

/// Does an operation in its frame.
pub(crate) fn operate(
    alloc: Global,
    program: &Program,
    store: &mut Store,
    frame: &mut Frame,
    op: Op,
) -> StepAnswer
    ensures { IsAnswer (inner_step (core program.now) (behind_inner store.old frame.old) op)
        (inner_of store.old frame.old) (inner_of store.new frame.new) result }
{
    match op {
        Op::Push(v) => {
            let value = frame.var(alloc, v);
            frame.replace_by(0, value)
        }
        Op::PushClass(class) => frame.replace_by(0, Ok(class_object(alloc, class))),
        Op::PushPrim => frame.replace_by(0, Ok(Value::Plain)),
        Op::PushNull => frame.replace_by(0, Ok(Value::Null)),
        Op::New(_) => make(store, frame),
        Op::Dup => {
            let value = frame.slot(alloc, 0);
            frame.replace_by(0, value)
        }
        Op::Drop => {
            frame.cut(1);
            StepAnswer::Stepped
        }
        Op::Get(f) => get(alloc, program, store, frame, f),
        Op::Put(f) => put(alloc, store, frame, f),
        Op::Set(v) => set(alloc, frame, v),
        Op::Prim(count) => frame.replace_by(count as usize, Ok(Value::Plain)),
        Op::Outside(count) => frame.replace_by(count as usize, Ok(Value::Opaque)),
        Op::Throw => StepAnswer::Stuck(Why::Thrown),
        Op::Call(_, _) | Op::Unread(_, _) | Op::Ret => StepAnswer::Stuck(Why::UnreadCall),
    }
}

/// The object of a class.
fn class_object(alloc: Global, class: ClassId) -> Value
    ensures { result ≡ Ref (Start (root_path (Class class))) }
{
    Value::Object(Object::Start(StartPath::alone(alloc, StartRoot::Class(class))))
}
