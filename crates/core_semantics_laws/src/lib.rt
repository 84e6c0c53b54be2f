//! What is so in each state that a machine comes to: each monitor has one holder at most.
#![tactic(auto)]

pub mod laws;
