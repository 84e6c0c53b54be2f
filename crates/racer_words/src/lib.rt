//! What the words of a command line ask for, read by `clap`.
//!
//! A word `-` stands for a folder or a value, as `clap` has it, and is refused as a name. `=` may join an option and
//! its value, and behind `--` each word is a folder; a flag takes no value. The form of a line is told by the option
//! that stands there for it, so each line is looked up in one row.
#![tactic(auto)]

mod command;
mod forms;
pub mod laws;
mod line;
mod read;
mod request;

pub use read::read_words;
pub use request::{Request, WantedEdits, WantedMade, WantedReplay, WantedReport};
