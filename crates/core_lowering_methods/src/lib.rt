//! The lowering of statements (JLS 14), and of the bodies of methods and constructors (JLS 8.4, 8.8, 12.5) to core
//! code.
//!
//! The code of a method and the kinds of its variables are those of core_lowering_rules's `specs/Methods.antt`, for
//! every table of names and every method (`lower_method`); `survey_method` says what is known of one before it is known
//! which are analysed.
//!
//! The reasons why methods are not analysed come as such and not as flags, so that the folder of the definition is a
//! function of what the code has. Each constructor has all initialisers in its code. What is done at the end of a
//! statement is a function outside of the cycle of statements.
#![tactic(auto)]

mod beginnings;
mod bodies;
mod finallies;
mod loops;
mod statements;
mod switches;
mod tries;

pub use bodies::{Extent, Lowered, Survey, lower_method, survey_method};
