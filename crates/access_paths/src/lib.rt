//! Access paths: a root and the fields that lead on from it, with prefix, extension and text.
//!
//! In clauses a `Path` is the record of its root and the list of its fields; the definitions stand in
//! `specs/Paths.antt`.
//!
//! No value is named by `some c`: so `extended` and `lengthened` ask that a root is none. `lengthened` keeps its
//! answers by number and field, so that a path is made and hashed once; of them no clause tells.
#![tactic(auto)]

mod fields;
pub mod laws;
mod path;
mod table;

pub use fields::PathFields;
pub use path::{Path, Root};
pub use table::PathTable;
