//! The pool: workers that demand one another's summaries from one store.
//!
//! `run_pool` starts the workers, one a pass of the store, and joins them. A worker (`worker`) takes methods until
//! nothing is left to take. Of each it demands the row, callee by callee; where all of the row is found, it analyses
//! the method and publishes it; where the method is parked, it takes the next one, and begins the parked one anew when
//! it takes it again. So pieces that stand in their cells are copied only once all of the row is found (`row_pieces`).
//! It takes at most once more than there are analysed methods and call edges together.
//!
//! After the join nobody shares the store, and the pool owns its value. Each pass in order meets the value and goes on
//! there as a worker does, until it leaves (`rest`). So the history is complete, however much of it the workers made,
//! which is in no clause. The outcomes are read off the table of pieces (`outcomes`). A want of memory that one worker
//! met is the answer of the pool.
//!
//! The gate is called behind each take of a method and before each publication, by workers and by the rest alike.
//!
//! A worker that meets want of memory ends the run with it. What workers are given is one struct of references, for
//! the loop of a thread and for the rest alike. A worker is let work from outside too (`run_workers`), so that the
//! store can be tried without what follows the join.
#![tactic(auto)]

mod given;
mod outcomes;
mod pool;
mod rest;
mod row_pieces;
mod worker;

pub use given::WorkerContext;
pub use pool::{Pooled, run_pool, run_workers};
