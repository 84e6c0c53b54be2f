//! Parts of statements in which no statement is lowered: what stands around those inside of loops, groups of a
//! `switch`, locked trys and catch clauses, the ends of blocks, local variables and returns (JLS 14).
//!
//! What was lowered stands at the end of the draft, from a part on, and an end says what becomes of it (`Becomes` of
//! `specs/StatementParts.antt`). So each end is told apart from the cycle of statements, where a proof costs more.
#![tactic(auto)]

mod blocks;
mod groups;
mod locals;
mod returns;
mod rounds;
mod tries;

pub use blocks::end_block;
pub use groups::{Options, end_group, end_switch, lower_fork};
pub use locals::lower_locals;
pub use returns::{end_return, lower_return, lower_return_nothing};
pub use rounds::{
    Round, begin_for, end_do, end_for, end_for_each, end_round, end_while, lower_next,
};
pub use tries::{end_clause, end_locked};
