//! What workers are given.
use core_code::{CallRows, Program};
use std::alloc::Global;
use std::sync::Arc;

/// What all workers of a run are given, and the rest after them.
#[derive(Drop)]
pub struct WorkerContext<'a, G> {
    pub alloc: Global,
    pub program: &'a Arc<Program>,
    pub rows: &'a CallRows,
    pub gate: &'a G,
    /// How many takes a worker makes at most.
    pub most: usize,
}
