//! The edits of a session, as a file has them.
//!
//! `specs/Edits.antt` says what a file with these bytes is in a folder with these sources: edits, a line each, or why
//! it has none.
#![tactic(auto)]

mod edit_lines;

pub use edit_lines::{EditLine, EditsFault, edits_in};
