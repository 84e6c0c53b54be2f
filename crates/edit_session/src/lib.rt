//! A session of edits: a program after another, each with the outcomes of its methods, of which those that an edit can't
//! have changed are kept.
//!
//! What is kept, and what is analysed again, `transfer_ties` says (`specs/Again.antt`). A session goes through the
//! methods of a program by levels: each behind those that it calls. The lists of methods are one for those that are not
//! analysed again, one for those that are, and one a level for those that it has still to come to.
//!
//! Outcomes are compared once a method, where it was analysed again, and never once a call. That kept outcomes are
//! carried and not found anew is how the session is written, and no contract says it: of work that is saved nothing is
//! promised.
#![tactic(auto)]

mod before;
mod levels;
mod lists;
mod session;
mod work;

pub use session::Session;
