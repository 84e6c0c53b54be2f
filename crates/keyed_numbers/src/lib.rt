//! Numbers by a name and a key of two numbers, the first of each.
#![tactic(auto)]

mod numbers;

pub use numbers::{Key, Named, add_number, no_numbers, number_at, number_of};
