//! The report on a program, as text and as JSON.
//!
//! # The definitions
//!
//! `specs/Modes.antt` says which of the two a report is. The lines of the one and the object of the other stand in
//! `race_report_parts`, and so does what either tells. `specs/Shown.antt` says what run the lines of a warning show.
#![tactic(auto)]

pub mod laws;
mod made;
mod marks;
mod reports;
mod text;

pub use made::made_text;
pub use reports::report;
