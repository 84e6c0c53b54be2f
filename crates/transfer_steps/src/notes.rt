//! What goes along while the code of a method is gone through.

use crate::noted_calls::NotedCall;
use crate::numbered_found::NumberedFound;
use access_paths::PathTable;
use indexmap::IndexSet;

/// What was noted so far: paths, each with a number, and what was found, by these numbers.
#[derive(Drop)]
pub struct Notes {
    pub table: PathTable,
    pub found: NumberedFound,
}

/// A walk through the code of a method, as far as it came.
#[derive(Drop)]
pub struct Walk {
    pub notes: Notes,
    /// The calls whose findings are among the notes.
    pub calls: IndexSet<NotedCall>,
}
