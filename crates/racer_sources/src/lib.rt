//! The sources of a folder, which files they are, why they are refused, and what they are read as; and their program,
//! or the line of their refusal.
//!
//! `specs/Sources.antt` says what the sources of a folder are, `specs/Lines.antt` the line of each refusal,
//! `specs/Finding.antt` what is given of them, and `specs/Programs.antt` what the program is, with the last of the
//! reasons for a refusal, which is that of calls.
//!
//! A reason is a variant, and its line a function of it and of the files' names. A file is asked for one byte more
//! than it may have, so that what is longer is refused by its length. The tokens of one file are held at a time.
#![tactic(auto)]

mod fault;
mod file;
mod found;
mod kept;
pub mod laws;
mod line;
mod names;
mod programs;
mod refusal;
mod source_files;
mod units;

pub use found::{AcceptedSources, FolderSources, let_go, sources};
pub use kept::{KeptProgram, kept_program};
pub use line::refusal_line;
pub use programs::{FoundProgram, folder_program};
pub use refusal::Refusal;
pub use source_files::SourceFiles;
