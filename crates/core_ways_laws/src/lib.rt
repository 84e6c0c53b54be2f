//! What the ways to accesses do: with values, and that a way that is run ends just before its access (`way_laws`); and
//! the invariant that the two legs of a warning keep: what quiet paths name (`laws`).
#![tactic(auto)]

pub mod laws;
pub mod way_laws;
