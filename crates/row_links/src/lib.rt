//! Lists of nodes that are linked by index: each node stands in exactly one of them.
//!
//! In clauses a `Rows` is the list of its lists; the definitions stand in `specs/Lists.antt`.
//!
//! A list is a ring through a node of its own, whose number stands behind all others: so no list is empty, and a node
//! or all of a list is moved by three links. A node names a cell and the cell names the list, so that all nodes of a
//! list come to another by as many steps as it has cells. There are as many cells as nodes and lists together, which
//! is enough: each that is not free is named by a node or takes a list's new nodes. The cells' rows are rings too.
//! Nodes and cells are `usize` inside and `u32` outside, so that one cast makes a number smaller.
#![tactic(auto)]

pub mod laws;
mod links;
mod rows;
#[cfg(test)]
mod tests;

pub use rows::Rows;
