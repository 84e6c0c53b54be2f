//! Units that are read from tokens meet the conditions of their lowering: their places stand in their files, and their
//! names are identifiers.
#![tactic(auto)]

pub mod laws;
