//! Laws of typed classes.
#![tactic(auto)]

pub mod laws;
