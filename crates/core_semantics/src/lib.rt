//! The machine of two threads: two methods of one class run on one object, in steps of one operation.
//!
//! In clauses a `Machine` is a `State` of `specs/State.antt`; what a step does stands in `specs/Steps.antt`.
//!
//! A thread keeps the monitors that it holds, one for each time, innermost first, and a frame how many of them it
//! locked; an ordered set beside the list tells whether one is held. Code still to do is references into the program's
//! code, unfolded when it comes up, which changes nothing that is seen. Objects have an order of their own beside that
//! of paths, by how many fields they have first. Values hold whole start paths, of any length. Any number of a thread
//! but 0 is the second thread. A machine has no model, since a model's value may be no function.
#![tactic(auto)]

mod advance;
mod ahead;
mod answer;
mod calls;
mod changes;
mod copies;
mod frame;
mod holder;
mod inner;
pub mod laws;
mod locks;
mod look;
mod machine;
mod monitors;
mod object;
mod order;
mod pending;
mod race;
mod stack;
mod step;
mod store;
mod thread;
mod touch;

pub use answer::{Holder, StepAnswer, Turn, Why};
pub use changes::{FieldChange, Sight};
pub use look::Look;
pub use machine::{Machine, begin};
pub use object::{Object, Start, StartPath, StartRoot, Value};
