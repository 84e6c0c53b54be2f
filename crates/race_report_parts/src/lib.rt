//! What a report tells of a program: texts, places, the records of warnings, marks, summaries; the lines of a
//! report, and the report as one object.
//!
//! # The definitions
//!
//! - `specs/Texts.antt`: the texts of places, methods, paths, records, values and reasons.
//! - `specs/ByteOrder.antt`: texts in byte order.
//! - `specs/Places.antt`: the places of a record, from its site down to its access.
//! - `specs/Told.antt`: why a method has no summary, what a summary tells, the two records of a warning.
//! - `specs/Marks.antt`: the texts of a mark, of a start path and of the leg of a run.
//! - `specs/WitnessFiles.antt`: the witness file of a run.
//! - `specs/Sites.antt`: the same as the code holds it.
//! - `specs/Written.antt`: what a function puts behind a text.
//! - `specs/Report.antt`: the lines of the report.
//! - `specs/Json.antt`: the report as one object.
//! - `specs/Pieces.antt`: the pieces of the object's text, as they are put behind one another.
//!
//! Each report makes one table of places a method, since sites are 0, 1 and so on. Places are followed over at most as
//! many methods as there are, which a law shows to be enough. Two wobbly paths with one text are two lines. A witness
//! is put start path by start path, since some have hundreds of megabytes. Legs are told in the order in which they
//! run.
#![tactic(auto)]

mod json;
pub mod laws;
mod lines;
mod mark_lines;
mod mark_numbers;
mod marks;
mod methods;
mod sides;
mod strings;
mod summary_lines;
mod tables;
mod texts;
mod values;
mod witness;
mod wobbly;
mod written;

pub use json::push_report;
pub use lines::{push_counts, push_not_analysed, push_side, push_skipped};
pub use mark_lines::push_mark_lines;
pub use mark_numbers::mark_at;
pub use marks::{mark_word, push_leg, push_mark, push_start};
pub use methods::{reason_of, summary_of};
pub use race_report_sides::{Side, Sides};
pub use sides::sides_of;
pub use summary_lines::push_summaries;
pub use tables::{Site, place_at, sites};
pub use texts::{
    class_name, push_access, push_line, push_method, push_path, push_place, push_record,
    push_value, touch_text,
};
pub use witness::push_entry;
pub use wobbly::wobbly_texts;
pub use written::{Written, push_count, push_end, push_number, push_space, push_text};
