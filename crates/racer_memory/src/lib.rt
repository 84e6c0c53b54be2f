//! A folder and a sink in memory, which fail at the calls that they are told to fail at and where their row says.
//!
//! The clauses of the traits stand here once more, with exactly when a call fails beside them: tests rest on that. A
//! call that is told to fail fails before it asks for memory; want of memory counts as a call and not as a fault.
#![tactic(auto)]

mod failing;
mod memory_folder;
mod memory_sink;

pub use memory_folder::MemoryFolder;
pub use memory_sink::MemorySink;
