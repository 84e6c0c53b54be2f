//! Parts of statements in which no statement is read: what stands before those inside and behind them.
//!
//! What stands behind `case` is read at the level of a conditional (JLS 14.11).
#![tactic(auto)]

pub mod bodies;
pub mod conditions;
pub mod ends;
pub mod fronts;
pub mod labels;
pub mod try_parts;
