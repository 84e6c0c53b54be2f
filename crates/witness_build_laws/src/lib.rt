//! A confirmed warning races: the run of its witness ends before two steps that touch the cell of its path, at least
//! one of which writes it; and it is the same run where only the start paths are objects that its reads gave.
//!
//! The mark of a warning stands in `specs/Marks.antt` of `core_ways`, over the two entries of the warning and the
//! numbers of their records; `specs/Warned.antt` says which these are. `specs/Headline.antt` has the statements.
#![tactic(auto)]

pub mod laws;
pub mod table_laws;
