//! The entries, the start paths and the cell that the texts of a witness file name.
//!
//! Roots and fields are found by indexes, which are made once for all texts of a file.
//!
//! # The definitions
//!
//! - `specs/Names.antt`: the entries, the roots and the fields that names are.
//! - `specs/Objects.antt`: the start paths and the cells that texts are.
//! - `specs/Indexes.antt`: what the indexes find, and how far a text leads.
#![tactic(auto)]

mod cells;
mod entries;
mod fields;
mod objects;
mod reached;
mod roots;
mod texts;
mod walk;

pub use cells::{Cell, NamedPath};
pub use entries::{Entry, entry_named};
pub use objects::Named;
pub use texts::{NamedTexts, texts_named};
