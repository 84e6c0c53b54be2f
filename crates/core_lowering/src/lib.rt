//! The lowering of the units of a folder to their program.
//!
//! The program is that of core_lowering_rules's `specs/Programs.antt`, for every table and units that `lower` takes,
//! and with cells of containers for all that `lower_cells` takes: both are one lowering, over a list beside the fields
//! that has the cell of each container, or none.
//!
//! Between the two times that each method is lowered (`core_lowering_surveys`) recursion is found. What the first time
//! gives is no `Program`: that would take all code at once, and a proof of the thirteen facts.
#![tactic(auto)]

mod classes;
mod edges;
mod fault;
mod programs;
mod skipped;
mod sources;

pub use fault::LowerFault;
pub use programs::{lower, lower_cells};
