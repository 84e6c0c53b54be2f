//! What an operation does and finds while the code of a method is gone through, and how states meet.
//!
//! What goes along is a `Walk`: its `Notes`, which are a table of paths and what was found by their numbers, and the
//! calls whose findings are among these. The state stands beside it, since a choice goes on from two. What stands still
//! is a `MethodContext`. `specs/Noting.antt` says what a walk stands on and what it makes of it, in a clause each.
//!
//! `let Ok(..) = .. else` and `match` stand in place of `?`: what has two ways out and more is proved at less cost so.
//!
//! A call is noted once, by its callee, its values and whether it is locked, since a site is no part of a key.
#![tactic(auto)]

mod calls;
mod found;
mod meeting;
mod noted_calls;
mod notes;
mod numbered_found;
mod operations;

pub use calls::Callee;
pub use found::{Found, Stop};
pub use meeting::{enter, join_ends, meet, meet_ends, no_heads};
pub use notes::{Notes, Walk};
pub use numbered_found::NumberedFound;
pub use operations::{MethodContext, move_any};
