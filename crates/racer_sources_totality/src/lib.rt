//! The sources of every folder are something, refused or a program, and so is each step on the way there: nothing that
//! is said of them is vacuous.
#![tactic(auto)]

pub mod laws;
