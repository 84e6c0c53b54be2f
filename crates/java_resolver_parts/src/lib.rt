//! What the resolver is made of: which fields are lock fields, the types of containers, the names of type parameters, and
//! which of two methods a call means.
#![tactic(auto)]

mod calls;
mod containers;
mod locks;
mod type_parameters;

pub use calls::method_meant;
pub use containers::{family_held, type_begun};
pub use locks::is_lock;
pub use type_parameters::push_type_parameters;
