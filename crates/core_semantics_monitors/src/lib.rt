//! Monitors of a thread: the order of their kinds, and which operations free one.
//!
//! The machine of `core_semantics` asks here, and adds nothing to it: of what monitors are and of what holds one it
//! alone knows.
#![tactic(auto)]

mod freeing;
mod kinds;

pub use freeing::frees_one;
pub use kinds::lock_kind_number;
