//! Warnings: pairs of records of one checked class that conflict.
//!
//! The definitions stand in `specs/Warnings.antt`, over a program's parts and the outcomes of its methods;
//! `specs/Pairs.antt` says in the subject's words what the list of warnings has. `warnings` makes that list.
//!
//! Partners are found by an ordered map from the numbers of a path to the first record of each kind and flags, at most
//! eight, since a conflict sees keys alone. The definition of warnings knows no map.
#![tactic(auto)]

pub mod laws;
mod method_access;
mod pairing;
mod partners;
mod warning;

pub use pairing::warnings;
pub use warning::Warning;
