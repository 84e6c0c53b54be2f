//! Types of Java, read from their tokens.
#![tactic(auto)]

pub mod angles;
pub mod error;
pub mod laws;
pub mod look;
pub mod made_types;
pub mod nested;
pub mod tested_types;
pub mod type_lists;
pub mod types;
mod whole;

pub use error::ReadError;
pub use whole::read_type;
