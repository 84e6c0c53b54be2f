//! Locked trys among the items of a block: `E.lock();` and `try { .. } finally { E.unlock(); }` directly behind it.
//!
//! What E is, and which two statements are one, is here; what a name means is not.
#![tactic(auto)]

mod calls;
mod names;
mod pairs;

pub use names::{own_name, simple_name};
pub use pairs::{Item, Lock, Locked, first_item};
