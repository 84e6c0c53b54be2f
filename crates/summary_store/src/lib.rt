//! The store of pieces that workers share, and the demand machine whose events its calls are.
//!
//! # The demand machine
//!
//! `specs/Machine.antt` is the machine, over lists alone: which methods are idle, ready, parked and done, and what each
//! worker holds; which of the four events is legal where, and what it does; histories that are legal and complete.
//! It names no lock. `laws::every_legal_history` says what holds of every legal history of any number of workers.
//!
//! # The value behind the lock
//!
//! `Locked` is seen as its history and its table of pieces. Its type keeps that the history is legal, that its lists
//! are those of the machine behind the history, that a method has a piece exactly where it is done, right for the
//! method, and that the total of its book is the length of the history (`Kept` in `specs/Kept.antt`; `Locked::law`
//! tells it). A `Pass` is what a worker carries. It has a share of the same book, whose amount is the number of
//! events that it made. `laws::take_at`, `laws::demand_at` and `laws::publish_at` are the events on the owned value,
//! with all that they do.
//!
//! # The calls of threads
//!
//! `Store::take`, `Store::demand` and `Store::publish` take the lock, see that pass and value agree, and make the
//! call of `laws`. What a clause says of them it says of the pass, since the value is another thread's as soon as the
//! lock is free.
//!
//! # Cells
//!
//! Beside the lock each method has a cell, which is set once, to a copy of the piece that was published, where there is
//! memory for it. `Store::demand` looks there first, and takes no lock where the callee's piece is found. `Store::find`
//! looks nowhere else, and lends the piece in place of a copy. That it is right is kept by the type of what a cell
//! holds; no proof rests on a cell's being set.
//!
//! Parked methods are one list of pairs in the order of parking, and a method stands in a list where it is counted
//! there at least once. A piece is copied by its counter and a pass counts what it found: both can come to their end,
//! which is want of memory. The history alone takes room at the start. Which workers have left stands beside the
//! lists.
#![tactic(auto)]

mod cells;
mod closing;
mod demand;
pub mod laws;
mod locked;
mod machine;
mod moves;
mod pass;
mod run;
mod starting;
mod store;

pub use closing::Closed;
pub use demand::Demand;
pub use locked::Locked;
pub use machine::{Event, Hand};
pub use pass::Pass;
pub use run::StoreRun;
pub use starting::takes_bound;
pub use store::Store;
