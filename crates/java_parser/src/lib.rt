//! Files of Java, read from their tokens: where their parts end (its types, their members, and what stands outside
//! brackets in these), members, classes, and units.
//!
//! The parts of a file are found without trees, and the division of a field at commas too: pieces are passed over by
//! the reader of initialisers, and one function makes a variable of a piece, whichever cut it comes from. Whether a
//! result ends the tokens before a name is found from their end, one token a step, and nothing is tried twice. Limits
//! of tokens are tested where a reader asks for them. What a cut has by its definition is required and not looked up
//! again.
#![tactic(auto)]

mod annotations;
mod balance;
mod bodies;
mod classes;
mod counts;
mod declarations;
mod divisions;
mod fields;
mod forms;
mod fronts;
mod heads;
mod items;
mod last_parts;
pub mod laws;
mod members;
mod pieces;
mod results;
mod tests_of_tokens;
mod types;
mod units;
mod variables;

pub use units::{let_all_go, let_go, parse_unit, put_unit};
