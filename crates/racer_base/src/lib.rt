//! What every crate of the analyser stands on: numbers and places of what was read, small types that
//! contracts see as lists, the limits, the traits of the outside, and standard output.
//!
//! A text of up to 16 bytes lies in the `Text` itself, so that most tokens take no memory of their own; one that was
//! made of a `String` gives that one back. Standard output is written without a buffer, so there is nothing to flush.
//! The forms of the outside are crates of their own, since every other crate waits for this one and loads it.
#![tactic(auto)]

mod ids;
mod items;
mod laws;
mod limits;
mod naming;
mod out_of_memory;
mod outside;
mod std_sink;
mod text;

pub use ids::{ClassId, FieldId, FileId, Kind, MethodId, Moment, Place, SiteId, Touch, VarId};
pub use items::Items;
pub use laws::limit_numbers;
pub use limits::{
    MAX_BRACKET_NESTING, MAX_CALL_EDGES, MAX_CLASSES, MAX_FILE_BYTES, MAX_FILES, MAX_FOLDER_BYTES,
    MAX_FOLDER_ENTRIES, MAX_FOLDER_NESTING, MAX_LOCALS, MAX_METHODS, MAX_NESTING, MAX_PARAMETERS,
    MAX_PATH_FIELDS, MAX_SUMMARY_KEYS, MAX_WAY_STEPS, MAX_WORKERS, MIN_WORKERS,
};
pub use naming::Names;
pub use out_of_memory::Memory;
pub use outside::{Failed, Folder, FolderFault, Gate, OpenGate, Sink};
pub use std_sink::StdSink;
pub use text::Text;
