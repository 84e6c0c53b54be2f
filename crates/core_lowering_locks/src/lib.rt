//! Whether statements call `unlock`, locked trys among them, or store to a variable (JLS 14).
//!
//! Which two statements are one lock is told by `core_lowering_locks_pairs`, what stands in them is here; what a name
//! means is not.
#![tactic(auto)]

mod sought;
mod sought_values;

pub use sought::{do_any_unlock, is_stored_in};
