//! Walks: a thread that goes along the way to one record of a method after another, so that each step is made about
//! once and not once for each warning.
//!
//! What two legs do one after the other is told of their walks where the second is apart from the first: it reads
//! nothing that the first stored, and waits for no monitor (`witness_build_apart_laws`). Else the second is run on a
//! machine in which what the first walk stored is there, and the first is not.
//!
//! The fields that a walk read are among those that it keeps, noted before its step is made, so no lemma says that a
//! step that is stuck reads nothing. Fields are told apart by their numbers alone, whatever the objects are.
#![tactic(auto)]

mod along;
mod apart;
mod behind;
mod trunk;
mod walk;
mod walks;

pub use walks::{Walked, Walks, let_go};
