//! The lowering of expressions (JLS 15) to core code.
//!
//! The code and the kind of an expression are those of core_lowering_rules's `specs/Expressions.antt`. The code of an
//! access is made in two parts, its base and what is done behind it; so a container field is told before it is read.
//! What the fields of an object begin with, and expressions whose values are not used, are here, since they are
//! expressions and stores alone.
#![tactic(auto)]

mod calls;
mod containers;
mod expressions;
mod fields;
mod invocations;
mod names;
mod operators;
mod parts;
mod storage;
mod values;

pub use containers::lower_gone_over;
pub use expressions::{lower_expression, lower_initialiser};
pub use fields::begin_members;
pub use parts::{lower_run, lower_run_all, set};
pub use storage::{Storage, assign, of_name};
