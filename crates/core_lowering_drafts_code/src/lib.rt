//! The core code of the paths of a draft that end in given ways, written part by part: one cycle of calls. Which items
//! stand where, and which ends are asked for, is decided in `core_lowering_drafts`, by small functions outside of the
//! cycle.
#![tactic(auto)]

mod falls;
mod finallys;
mod loops;
mod only;

pub use only::{write, write_small};
