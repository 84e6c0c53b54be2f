//! The two records of a warning, as a report holds them, and the path of the witness that confirms it.
#![tactic(auto)]

mod sides;

pub use sides::{Side, Sides};
