//! Containers of `java.util`, by the last names of their types: which calls on them look at what they hold, and which
//! change it.
//!
//! `specs/Table.antt` is the table; a call that does not stand there, as one that gives a view or an iterator, touches
//! nothing.
#![tactic(auto)]

mod cell;
mod table;

pub use cell::{Cell, Containers};
pub use table::{CellTouch, Family, family_of, touch_of};
