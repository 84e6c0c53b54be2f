//! The tree type of core code.
use racer_base::{ClassId, FieldId, MethodId, Place, SiteId, VarId};

/// One operation on the variables and the operand stack of a method.
#[derive(Clone, Copy)]
pub enum Op {
    /// Pushes the value of a variable.
    Push(VarId),
    /// Pushes the `Class` object of a class.
    PushClass(ClassId),
    /// Pushes a value of a primitive type.
    PushPrim,
    PushNull,
    /// Pushes a fresh object of a class.
    New(ClassId),
    Dup,
    Drop,
    /// Pops an object and pushes the value of its field.
    Get(FieldId),
    /// Pops a value and an object, stores the value in the object's field, and pushes it again.
    Put(FieldId),
    /// Stores the top in a variable, and leaves it on the stack.
    Set(VarId),
    /// Pops so many values and pushes one of a primitive type.
    Prim(u32),
    /// Pops so many values and pushes one that the analysis knows nothing of.
    Outside(u32),
    /// Calls an analysed method with so many values, the receiver among them.
    Call(MethodId, u32),
    /// Calls a method that is not analysed, with so many values.
    Unread(MethodId, u32),
    /// Pops the value that is returned, and ends the method.
    Ret,
    /// Throws: nothing that stands behind is done, in the method and in those that called it.
    Throw,
}

/// Which lock of an object.
#[derive(Clone, Copy)]
pub enum LockKind {
    /// The object's monitor (JLS 17.1).
    Own,
    /// The lock that the object is, where it is the value of a lock field.
    Explicit,
}

/// Core code.
#[derive(Drop)]
pub enum Code {
    Op(SiteId, Place, Op),
    Seq(Vec<Code>),
    Choice(Box<Code>, Box<Code>),
    Loop(Box<Code>),
    /// Pops an object, and does the body with that lock of it held (JLS 14.19).
    Sync(Place, LockKind, Box<Code>),
}

/// Why a method is not analysed. Of several the first applies.
#[derive(Clone, Copy)]
pub enum Reason {
    /// An earlier or later method of its class has its name and its number of parameters.
    Overload,
    /// It has something that is left out by name.
    Outside,
    /// It has too many parameters.
    Parameters,
    /// It has too many locals.
    Locals,
    /// Its code is too large.
    Operations,
    /// A chain of calls leads from it to itself.
    Recursive,
}
