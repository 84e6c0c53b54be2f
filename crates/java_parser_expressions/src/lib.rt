//! Expressions of Java, read from their tokens.
//!
//! A name and `.class` behind it are found by looking ahead, since fields that are folded afterwards would nest as deep
//! as there are names. Loops over points and commas give what they have when their count is used up, since fields end
//! their tokens so.
#![tactic(auto)]

mod arguments;
mod class_names;
mod creations;
pub mod expressions;
mod first_operand;
pub mod initialisers;
mod lambdas;
pub mod laws;
mod lists;
pub mod nested;
mod operands;
mod progress;
mod references;
mod turns;
mod whole;

pub use whole::read_initialiser;
