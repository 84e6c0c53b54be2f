//! What is said of a class.
use racer_base::{ClassId, Place};

/// Whether a class is typed.
#[derive(Clone, Copy)]
pub enum Answer {
    Typed,
    /// The place of the first operation or lock that fails.
    Untyped(Place),
}

/// What is said of a class that has an entry.
#[derive(Clone, Copy)]
pub struct Typing {
    pub class: ClassId,
    pub answer: Answer,
}
