//! The flow of a method's code, given what is known of the methods that it calls; the outcome that comes of it; and the
//! analysis of all methods of a program.
//!
//! The definitions are those of `access_domain`: `specs/Flow.antt`, `specs/Operations.antt` and
//! `specs/Summaries.antt`. A `Finished` keeps by its type that its outcome is its method's, for its program.
//!
//! What goes along is a `Walk` of `transfer_steps`, which does each operation and joins states where ways meet.
//!
//! `let Ok(..) = .. else` and `match` stand in place of `?`: what has two ways out and more is proved at less cost so.
//!
//! A loop's rounds are a walk over states alone (`resuming.rt`), where only the paths that are lost at joins are
//! noted; its body is gone through for what it finds once, under the last state. A loop in a loop goes on from the
//! state in which it was left, joined with the one in which it is come to. Where more than 64 values lie
//! under a choice that reaches none but the upper eight, the others are taken from under it and put back: a condition
//! pops nothing below. `analyse` takes finished methods and no rows: those that the code calls, and more change
//! nothing.
#![tactic(auto)]

mod analysis;
mod carrying;
mod finished;
pub mod laws;
mod lifting;
mod method_outcomes;
mod piece;
mod reading;
mod resuming;
mod walk;
mod whole;

pub use analysis::analyse;
pub use carrying::carried;
pub use finished::Finished;
pub use whole::outcomes;
