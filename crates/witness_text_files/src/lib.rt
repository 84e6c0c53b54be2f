//! Witness files of versions 1 and 2: what they say, how they are read, and the value that they are written as.
//!
//! The report writes them (`race_report_parts`); that what it writes is read as the same file is a law here.
//!
//! - `specs/Files.antt`: the file that a value in JSON is, or the first of its members that is missing or otherwise.
//! - `specs/Written.antt`: the value in JSON that a file is written as.
//! - `specs/Answers.antt`: what contracts see of a `WitnessFile`, and what is answered of bytes.
//! - `specs/Examples.antt`: files as texts, on which `laws` tries these definitions.
//!
//! JSON is what `serde_json` takes: a text by RFC 8259 that nests at most 127 deep, where of a key that comes twice the
//! last value stays, and a number too large for a float or half of a surrogate pair makes the text no JSON.
//!
//! A value that is no object lacks `version`, the first member that is looked up. A number is decimal digits alone, so
//! `1.0` is refused: no float is compared with a limit, and what was read is written again byte by byte. Start paths
//! have no limit on their fields: what is long is bounded by the length of the file.
#![tactic(auto)]

mod fault;
mod file;
pub mod laws;
mod legs;
mod members;
mod reading;

pub use fault::{Field, WitnessFault};
pub use file::WitnessFile;
pub use reading::read;
