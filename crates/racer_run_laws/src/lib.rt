//! What a confirmed warning on the content of a container says of Java.
#![tactic(auto)]

pub mod laws;
