//! Objects and values.
ghost use Rattle.std.specs.Prelude.{◌≡◌, [], IfOk};
ghost use Rattle.core_semantics.specs.Objects.{lengthened};

use racer_base::{ClassId, FieldId, Items, Memory};
use std::alloc::Global;

/// Where a start path begins.
#[derive(Clone, Copy, PartialEq, Eq)]
pub enum StartRoot {
    /// The `this` that both threads share.
    This,
    /// The `Class` object of a class.
    Class(ClassId),
    /// The parameter of this number, from 0, of the entry of a thread.
    Param(u32, u32),
}

/// An object that is there before the first step: a root, or what is reached from one by fields in turn.
#[derive(Drop)]
pub struct StartPath {
    pub root: StartRoot,
    pub fields: Items<FieldId>,
}

/// An object.
#[derive(Drop)]
pub enum Object {
    Start(StartPath),
    /// The object of this number, from 0, among those that are made in a run.
    Fresh(u32),
}

/// What a variable, a place on a stack or a cell holds.
#[derive(Drop)]
pub enum Value {
    /// A value of a primitive type.
    Plain,
    /// A value from outside the folder, of which nothing is known.
    Opaque,
    Null,
    Object(Object),
}

/// Which start paths with a field are objects. Roots always are.
#[derive(Drop)]
pub enum Start {
    All,
    Only(Items<StartPath>),
}

impl StartPath {
    /// A root without fields.
    pub fn alone(alloc: Global, root: StartRoot) -> StartPath
        ensures root { result.root ≡ root }
        ensures fields { result.fields ≡ [] }
    {
        StartPath {
            root,
            fields: Items::new(alloc),
        }
    }

    /// A start path that is equal to this one.
    pub fn copied(&self, alloc: Global) -> Result<StartPath, Memory>
        ensures { IfOk result (λ copy. copy ≡ self.now) }
    {
        let fields = Vec::from_slice(alloc, self.fields.as_slice())?;
        Ok(StartPath {
            root: self.root,
            fields: Items::from(fields),
        })
    }

    /// The start path with this field at its end.
    pub fn lengthened(&self, alloc: Global, f: FieldId) -> Result<StartPath, Memory>
        ensures { IfOk result (λ path. path ≡ lengthened self.now f) }
    {
        let mut fields = Vec::from_slice(alloc, self.fields.as_slice())?;
        let Ok(()) = fields.push(f) else {
            return Err(Memory);
        };
        Ok(StartPath {
            root: self.root,
            fields: Items::from(fields),
        })
    }
}

impl Object {
    /// An object that is equal to this one.
    pub fn copied(&self, alloc: Global) -> Result<Object, Memory>
        ensures { IfOk result (λ copy. copy ≡ self.now) }
    {
        match self {
            Object::Start(path) => Ok(Object::Start(path.copied(alloc)?)),
            Object::Fresh(number) => Ok(Object::Fresh(*number)),
        }
    }
}

impl Value {
    /// A value that is equal to this one.
    pub fn copied(&self, alloc: Global) -> Result<Value, Memory>
        ensures { IfOk result (λ copy. copy ≡ self.now) }
    {
        match self {
            Value::Plain => Ok(Value::Plain),
            Value::Opaque => Ok(Value::Opaque),
            Value::Null => Ok(Value::Null),
            Value::Object(object) => Ok(Value::Object(object.copied(alloc)?)),
        }
    }
}
