//! The marks of warnings: what is known of each, with a run that ends in a race where it is confirmed.
//!
//! `marks_of` gives the marks that `specs/Warned.antt` of `witness_build_laws` defines. `specs/Replayed.antt` says what
//! a confirmed one has more, so that the file of its witness can be replayed.
#![tactic(auto)]

pub mod laws;
mod marking;
mod marks;
mod prefixes;

pub use marks::marks_of;
