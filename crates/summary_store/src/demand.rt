//! What a demand answers.
use std::sync::Arc;

/// The piece of a callee; or the caller is parked until the callee is done; or want of memory, behind which nothing has
/// changed.
#[derive(Drop)]
pub enum Demand<P> {
    Found(Arc<P>),
    Parked,
    Memory,
}
