//! Cells of what containers hold.
use crate::table::Family;
use racer_base::FieldId;

/// What containers are to the code of a folder.
#[derive(Clone, Copy)]
pub enum Containers {
    /// Objects of which nothing is known.
    Opaque,
    /// Objects with a cell for all that they hold, which calls on them touch.
    WithCells,
}

/// The cell of a field that is a container: a field of its own, for all that the container holds.
#[derive(Clone, Copy)]
pub struct Cell {
    pub family: Family,
    pub content: FieldId,
}
