//! The replay of witness files. The report writes those of confirmed warnings (`race_report_parts`): `laws` says that
//! they replay.
//!
//! # The definitions
//!
//! - `specs/Verdicts.antt`: what a replay shows.
//! - `specs/Replays.antt`: a leg that is run, as far as it comes.
//! - `specs/Lines.antt`: the lines that tell a verdict, or why a file is no witness.
//! - `specs/Replaying.antt`: that the witnesses of a JSON report replay.
#![tactic(auto)]

pub mod laws;
mod legs;
mod lines;
mod replaying;
mod verdict;

pub use lines::{field_name, verdict_line};
pub use replaying::replay;
pub use verdict::Verdict;
