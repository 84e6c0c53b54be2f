//! What the analysis knows of values: owned, named by a path, or neither; and how two states join.
//!
//! In clauses a `State` is the record of two lists of values; the definitions stand in `specs/Values.antt`. The states
//! that are joined (`FlowState`) hold the numbers of paths; `specs/Numbered.antt` says what they are in a table.
//!
//! The stack is turned where states meet, so that slots without a partner fall away from the bottom; a slot where both
//! differ becomes unnamed, and nothing is copied.
#![tactic(auto)]

mod flow_state;
pub mod laws;
mod meeting;
mod numbered;
mod value;

pub use flow_state::FlowState;
pub use meeting::lose_both;
pub use numbered::{NumberedState, NumberedValue};
pub use value::{State, Value, along_path};
