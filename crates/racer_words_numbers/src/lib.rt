//! Numbers on a command line: how many workers, and how many files a made folder has.
#![tactic(auto)]

mod numbers;

pub use numbers::{made_of, workers_of};
