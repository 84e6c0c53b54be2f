//! What of an older program and a newer one is the same by names: classes, fields and methods, the code of methods, and
//! outcomes; and outcomes of the older one with the numbers of the newer.
//!
//! `specs/Ties.antt` ties what programs declare, `specs/Forms.antt` methods with their code, `specs/Outcomes.antt`
//! outcomes, and `specs/Again.antt` says which methods of the newer program are as they were.
//!
//! Names are looked up once for two programs (`Ties`); code and records are then compared by numbers alone, but for the
//! names of methods that are called.
#![tactic(auto)]

mod codes;
mod kinds;
pub mod laws;
mod making;
mod outcomes;
mod partners;
mod renumbering;
mod shapes;
mod staying;
mod untied;

pub use codes::same_form;
pub use making::ties_of;
pub use outcomes::same_outcome;
pub use partners::Ties;
pub use renumbering::renumbered;
pub use staying::stays;
pub use untied::Untied;
