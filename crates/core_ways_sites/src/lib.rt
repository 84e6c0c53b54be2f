//! The ways to the records of methods, from one pass over the code of each method.
//!
//! The way of a record is what `specs/Ways.antt` of `core_ways` defines. A method is gone through once, and what is
//! gone so far is noted at each site that a record of it names.
//!
//! The path to a site is looked for first and then gone along, both in linear time. Notes are made before any walk:
//! what is kept lies between what is given back, and kept the allocator from joining frames.
#![tactic(auto)]

mod gone;
mod noting;
mod sites;
mod table;

pub use table::{SiteWays, let_go};
