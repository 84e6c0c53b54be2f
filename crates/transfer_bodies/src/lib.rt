//! Shorter bodies for loops: where the state at the end alone is asked for, statements that set no variable and do not
//! return may be left out.
//!
//! `let Ok(..) = .. else` and `match` stand in place of `?`: what has two ways out and more is proved at less cost so.
#![tactic(auto)]

mod kept;
pub mod laws;
mod reaching;
mod shortening;

pub use reaching::is_within;
pub use shortening::shortened;
