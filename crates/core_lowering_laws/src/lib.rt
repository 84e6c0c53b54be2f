//! The values of the definition of the lowering on each form, on texts that are read.
#![tactic(auto)]

pub mod laws;
