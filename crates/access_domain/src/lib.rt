//! Access records, summaries, and the definition of the analysis of one method and of all.
//!
//! In clauses an `Accesses` is the list of its records, no two of one key, and a `Summary` the record of
//! that list, a set of wobbly paths, and a value.
//!
//! # The definitions
//!
//! - `specs/Records.antt`: keys, and the first record of each.
//! - `specs/Numbered.antt`: records whose paths are numbers of a table, and what they are.
//! - `specs/Findings.antt`: what is known of a method, in lists (`Known`), and the same as an `Outcome`.
//! - `specs/FlowContext.antt`: what a flow needs of a program (`FlowContext`), and `given_of` a program's parts.
//! - `specs/Longer.antt`: a path with one field more.
//! - `specs/Reached.antt`: the path of an access, by the value of the field.
//! - `specs/Substitution.antt`: what is found of a callee, in its caller's values.
//! - `specs/Operations.antt`: what one operation does.
//! - `specs/Flow.antt`: the flow of a piece of code, by cases on its tree.
//! - `specs/Origins.antt`: where a record of a method comes from.
//! - `specs/Summaries.antt`: what is known of a method by rank, its outcome (`outcome_of`), and those of all.
//! - `specs/OutcomeRecords.antt`: the records of a method, by its outcome.
//! - `specs/Outcomes.antt`: the outcomes of all as the code holds them, and what they have of one method.
//!
//! Records and wobbly paths are kept with an order of their keys beside them: an addition looks its key up before it
//! takes memory, so `Present` and `Full` come whatever the memory. A finished summary has no set of keys. What a call
//! passes is a record over any type, a value for `this` and a list for parameters; a static callee's first value stands
//! for both `this` and parameter 0, and its code names no `this`.
#![tactic(auto)]

mod access;
pub mod laws;
mod numbered;
mod outcomes;
mod summary;
mod touching;

pub use access::{Access, Accesses};
pub use numbered::{NumberedAccess, NumberedAccesses};
pub use outcomes::{Outcomes, outcome_at, record_of, records_of, summary_at, wobbly_of};
pub use summary::{Outcome, Summary};
pub use touching::{Touched, path_reached, touched_field};
