//! What is known of a method.
use crate::Accesses;
use owner_domain::Value;
use wobbly_paths::Wobbly;

/// What an analysed method does, in names of its own receiver and parameters.
#[derive(Drop)]
pub struct Summary {
    pub accesses: Accesses,
    /// The paths that no longer name what they named at the entry, in some run.
    pub wobbly: Wobbly,
    pub result: Value,
}

/// What is known of an analysed method.
#[derive(Drop)]
pub enum Outcome {
    Summary(Summary),
    /// It has too many records or wobbly paths, or calls such a method.
    Large,
}
