//! Every list of tokens is a unit, or has a fault: nothing that is said of units, or of what has none, is vacuous.
#![tactic(auto)]

pub mod laws;
