//! Methods of Java, read from their tokens.
//!
//! One reader serves the modifiers of types, methods, fields and variables, told which words may stand; what stands
//! before the name of a variable is read the same everywhere. The body of a local class stays tokens.
//! `goes_on word s` says for `else`, `catch` and `finally` whether a word would belong to s where it stands behind it.
#![tactic(auto)]

pub mod annotations;
mod ends;
mod heads;
pub mod laws;
mod lines;
mod local_classes;
mod locals;
mod methods;
pub mod modifiers;
mod nodes;
mod parameters;
mod signatures;
mod simple_rows;
mod statements;
mod switches;
mod tries;
mod try_heads;
mod try_parts;
mod type_parameters;
mod typed;
mod whole;
mod words;

pub use java_parser_types::ReadError;
pub use whole::read_method;
pub use words::has_synchronized;
