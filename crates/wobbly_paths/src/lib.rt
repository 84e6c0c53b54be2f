//! Sets of wobbly paths: at most 1,024, and the shortest proper prefix of a path that is among them.
//!
//! In clauses a `Wobbly` is a set of paths, a `PathSet` of `access_paths`, of which std's words on finite
//! sets speak.
#![tactic(auto)]

mod wobbly;

pub use wobbly::{Adding, Wobbly};
