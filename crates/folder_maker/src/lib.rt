//! Made folders: sources with any number of classes, up to a limit, which are a function of that number alone.
//!
//! # The definitions
//!
//! `specs/Folders.antt` has the files: their names, which class is the last of its group, the text of such a class, and
//! that of one with another class behind it.
//!
//! Where the program of a made folder was refused, want of memory would be answered. It is never seen; to prove it,
//! one had to read texts with a variable part by the whole of Java's grammar.
#![tactic(auto)]

mod classes;
mod folder;
pub mod laws;
#[cfg(test)]
mod tests;

pub use folder::made;
