//! Which classes are typed: in their methods no operation and no lock can meet a value that it is not for.
//!
//! A method's code is gone through once, whatever the number of classes that reach it (`check`). What may fail there
//! is kept with its place: that an object is made fails in some classes alone, by what else is reached. A round of a
//! loop that changes no kind is its last, and what it found stays; what earlier rounds found is dropped. Within the
//! rounds of one loop, a loop inside it goes on from the kinds in which it was left: kinds only lose, so it ends in the
//! same ones, and a nest of loops takes polynomial time. Loops have numbers in reading order.
//!
//! Then, of each class that has an entry, the methods that calls lead to are found, the classes whose fields are read
//! there, and the first place that fails (`typings`).
#![tactic(auto)]

mod answers;
mod check;
mod context;
mod doubts;
mod findings;
mod kinds;
pub mod laws;
mod lifting;
mod loops;
mod needs;
mod reaching;
mod states;
mod typing;

pub use answers::{Answer, Typing};
pub use doubts::Doubt;
pub use kinds::TypedKind;
pub use typing::typings;
