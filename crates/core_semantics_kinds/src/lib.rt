//! Laws of the machine for every program: what the start objects that a run of two entries reads, holds and touches are
//! objects of.
//!
//! The definitions of the laws stand in `specs/Reached.antt`: `reached_from`, what a start path leads to, an object of
//! a class or a class itself, where `roots_of` says it of the roots of two entries; `is_right`, a start path with a
//! field that leads to something; `is_cell`, a field of what a start path leads to; `does_lead` and `do_lead`, of a
//! value and of a frame.
//!
//! `specs/Kinding.antt` has the invariant that each step keeps, over any kinds (`Kinding`), and what has to be shown of
//! these (`Keeps`); the proofs `Kinded*` and `PlaceValues` know no kinds. `specs/ObjectKinds.antt` has the kinds of
//! core code as one such kinding (`object_kinds`).
#![tactic(auto)]

pub mod examples;
pub mod laws;
