//! The names of a folder: its classes, their fields and methods, and what a name means at a place (JLS 6).
//!
//! `specs/Declarations.antt` says what the units of a folder declare, as lists in source order;
//! `specs/Meanings.antt` what a simple name means, and which method is called; `specs/Refusals.antt` what is refused.
//!
//! The lists are gathered first and judged after, so that gathering is an equation with one error, and the order of
//! refusals is the order of calls in `resolve`. Fields are kept a second time by those that are static, so that a name
//! in a static method is looked up once too. A constructor is named `<new>`, which is no name of Java, and is an
//! instance method; a class that declares none has one first among its methods, at the place of its name. Which names
//! mean no class in a method is kept with the method, since each type and name in it is asked for that.
#![tactic(auto)]

mod classes;
mod fault;
mod fields;
mod hidden;
mod infos;
mod kinds;
pub mod laws;
mod local_classes;
mod methods;
mod scope;
mod table;
mod with_any;
mod words;

pub use fault::ResolveFault;
pub use hidden::Hidden;
pub use infos::{ClassInfo, FieldInfo, MethodInfo};
pub use methods::any_is_constructor;
pub use scope::{Meaning, Scope, ScopeVariable, VariableKind};
pub use table::{Table, resolve};
pub use words::has_word;
