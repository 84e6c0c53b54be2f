//! What a step answers.
use crate::Object;
use core_code::LockKind;

/// The side of a choice; at a loop, whether its body is done once more.
#[derive(Clone, Copy)]
pub enum Turn {
    Left,
    Right,
}

/// Why a thread cannot step.
#[derive(Clone, Copy)]
pub enum Why {
    /// The object of an access, a call or a lock is null.
    NullBase,
    /// The object of an access or a call is from outside the folder.
    OpaqueBase,
    /// The object of an access, a call or a lock is a value of a primitive type.
    PlainBase,
    /// The method that is called is not analysed.
    UnreadCall,
    /// The step throws.
    Thrown,
}

/// A monitor. Each object has one of each kind.
#[derive(Drop)]
pub enum Holder {
    Object(LockKind, Object),
    /// The one monitor of this kind of all values from outside the folder.
    Outside(LockKind),
}

/// The answer of a step.
#[derive(Drop)]
pub enum StepAnswer {
    Stepped,
    Stuck(Why),
    /// The thread has ended.
    Done,
    /// The other thread holds this monitor.
    Held(Holder),
    Memory,
}
