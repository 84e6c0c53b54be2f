//! What is known of a callee, in its caller's values: what is found of it (`substitute`), and what it returns
//! (`substitute_value`).
//!
//! The definition is `specs/Substitution.antt` of `access_domain`; `specs/Substitutes.antt` says what `substitute`
//! gives, and `specs/Numbered.antt` what the numbers of its answer are in a table.
//!
//! Nothing is asked of the values that are passed: one that is missing is `Unnamed`, and a record without fields falls
//! away. A record is made as a path and then numbered, since lengthening a number field by field would hash each
//! front.
#![tactic(auto)]

pub mod laws;
mod naming;
mod numbering;
mod substitution;

pub use numbering::number_value;
pub use substitution::{Replaced, substitute, substitute_value};
